//! Compilation of a function after others.

ghost use Rattle.std.specs.Prelude.{◌≡◌, ◌+◌, ◌*◌, ◌%◌, ◌<◌, ◌≤◌, ◌^◌, [], ◌∷◌, ◌++◌, IfOk, OnOk, IsErrOf, length};
ghost use Rattle.std.specs.List.{flat_map};
ghost use Rattle.std.specs.Int.{w32, to_le_bytes};
ghost use Rattle.emit_code.specs.Counts.{MAX_WORDS, MAX_BASE};
ghost use Rattle.emit_code.specs.Rule.{Layout};
ghost use Rattle.frame_rule.specs.Rule.{reach_of};
ghost use Rattle.compile_function.specs.Emitted.{IsOneCompiled, IsPushed};
ghost use Rattle.compile_passes.specs.listing_function.Laid.{IsLaid};
ghost use Rattle.compile_passes.specs.listing_function.Variables.{variables_listed};
ghost use Rattle.compile_passes.specs.Passed.{MAX_PASSED, passed_of};
ghost use Rattle.compile_passes.specs.read_body.Limits.{MAX_ITEMS};
ghost use Rattle.mir_func.specs.Limits.{MAX_FRAME};
ghost use Rattle.mir_func.specs.Sound.{AllItems, IsSound, items_of};
ghost use Rattle.mir_func.specs.SoundFrame.{HasPhysical};
ghost use Rattle.pass_trait.specs.Sizes.{call_count};
ghost use Rattle.compile_passes.specs.read_proof.Read.{IsReadFunction};
ghost use Rattle.compile_passes.specs.listing_meaning.Listing.{listing_of};

use crate::compiled_function::{CompiledFunction, CompiledFunctions, compile_function};
use crate::error::CompileError;
use base_list::List;
use compile_passes::listing_function_crate::listing::listing;
use compile_passes::listing_function_crate::variables::variable_lines;
use compile_passes::read_program_crate::closing::Parsed;
use dwarf_sections::listing_text_crate::output::{Bytes, ListedFunction, ListedFunctions};
use emit_function::code::CodeError;
use mir_func::func::Func;
use mir_substitution::substitutions::Substitutions;
use pass_trait::loss::Losses;
use read_metadata::metadata::Metadata;
use std::alloc::{AllocError, Global};

/// The compiled functions of a program so far.
#[derive(Drop)]
pub struct EmittedFunctions {
    /// The bytes of their words.
    pub text: Bytes,
    /// The number of their location lists.
    pub list_count: u32,
    /// Their listings.
    pub listings: ListedFunctions,
    /// What is made of each.
    pub functions: CompiledFunctions,
}

/// Compiles a function that passes made of a source, with these losses, and appends it to the functions before it.
pub fn push_function(
    alloc: Global,
    made: &mut EmittedFunctions,
    meta: &Metadata,
    source: &Parsed,
    function: &Func,
    subs: &Substitutions,
    losses: Losses,
) -> Result<(), CompileError>
    requires aligned { length made.old.text % 4 ≡ 0 }
    requires room { length made.old.text + 4 * MAX_WORDS < MAX_BASE }
    requires numbers { made.old.list_count + MAX_ITEMS < 2 ^ 32 }
    requires read { IsReadFunction meta.now source.now.func }
    requires sound { IsSound function.now }
    requires few { length (items_of function.now.blocks) ≤ MAX_PASSED }
    requires calls { call_count function.now ≤ MAX_ITEMS }
    requires physical { AllItems (λ i. HasPhysical i.kind) function.now.blocks }
    ensures pushed { OnOk result
        (IsPushed meta.now (passed_of source.now function.now subs.now) losses made.old made.new) }
    ensures too_large { IsErrOf result CompileError.FrameTooLarge → MAX_FRAME < reach_of function.now }
    ensures registers { IsErrOf result CompileError.NoRegister → ⊥ }
    ensures no_section { IsErrOf result CompileError.SectionTooLarge → ⊥ }
{
    let base = made.text.len() as u64;
    let compiled = compiled(alloc, source, function, subs, losses, base)?;
    let listed = listed(alloc, meta, made.list_count, subs, &compiled)?;
    push_compiled(made, compiled, listed)?;
    Ok(())
}

/// The listing of a compiled function whose location lists are numbered from `first` on.
fn listed(
    alloc: Global,
    meta: &Metadata,
    first: u32,
    subs: &Substitutions,
    compiled: &CompiledFunction,
) -> Result<ListedFunction, AllocError>
    requires low { compiled.now.code.base + 4 * length compiled.now.code.words < 2 ^ 32 }
    requires numbers { first + length compiled.now.variables < 2 ^ 32 }
    ensures { (l : Layout) → IsLaid l compiled.now.code →
        IfOk result (λ f. f ≡ listing_of l (variables_listed meta.now first compiled.now.variables) subs.now) }
{
    let lines = variable_lines(alloc, meta, first, compiled.variables.as_slice())?;
    let substitutions = List::from_slice(alloc, subs.entries())?;
    listing(alloc, &compiled.code, lines, substitutions)
}

/// Appends a compiled function.
fn push_compiled(
    made: &mut EmittedFunctions,
    compiled: CompiledFunction,
    listed: ListedFunction,
) -> Result<(), AllocError>
    requires { made.old.list_count + length compiled.lists < 2 ^ 32 }
    ensures text { OnOk result (made.new.text ≡ made.old.text ++ flat_map (to_le_bytes w32) compiled.code.words) }
    ensures list_count { OnOk result (made.new.list_count ≡ made.old.list_count + length compiled.lists) }
    ensures listings { OnOk result (made.new.listings ≡ made.old.listings ++ listed ∷ []) }
    ensures functions { OnOk result (made.new.functions ≡ made.old.functions ++ compiled ∷ []) }
{
    push_words(&mut made.text, compiled.code.words.as_slice())?;
    made.list_count += compiled.lists.len() as u32;
    made.listings.push(listed)?;
    made.functions.push(compiled)
}

/// A function that passes made of a source, with these losses, compiled from an address on, with location lists of the
/// source's variables.
fn compiled(
    alloc: Global,
    source: &Parsed,
    function: &Func,
    subs: &Substitutions,
    losses: Losses,
    base: u64,
) -> Result<CompiledFunction, CompileError>
    requires aligned { base % 4 ≡ 0 }
    requires low { base < MAX_BASE }
    requires sound { IsSound function.now }
    requires few { length (items_of function.now.blocks) ≤ MAX_PASSED }
    requires calls { call_count function.now ≤ MAX_ITEMS }
    requires physical { AllItems (λ i. HasPhysical i.kind) function.now.blocks }
    ensures compiled { IfOk result (IsOneCompiled (passed_of source.now function.now subs.now) losses base) }
    ensures too_large { IsErrOf result CompileError.FrameTooLarge → MAX_FRAME < reach_of function.now }
    ensures registers { IsErrOf result CompileError.NoRegister → ⊥ }
    ensures no_section { IsErrOf result CompileError.SectionTooLarge → ⊥ }
{
    match compile_function(alloc, &source.func, function, subs, losses, base) {
        Ok(compiled) => Ok(compiled),
        Err(CodeError::FrameTooLarge) => Err(CompileError::FrameTooLarge),
        Err(CodeError::Memory) => Err(CompileError::Memory),
        // Its registers are physical.
        Err(CodeError::Virtual) => unreachable!(),
        // Its items are few.
        Err(CodeError::TooLong) => unreachable!(),
    }
}

/// Appends the bytes of words in little-endian order.
fn push_words(text: &mut Bytes, words: &[u32]) -> Result<(), AllocError>
    ensures { OnOk result (text.new ≡ text.old ++ flat_map (to_le_bytes w32) words.now) }
{
    for word in words {
        text.extend_from_slice(&word.to_le_bytes())?;
    }
    Ok(())
}
