//! Compilation of the functions of a program, one after the other.

ghost use Rattle.std.specs.Prelude.{◌+◌, ◌*◌, ◌%◌, ◌<◌, ◌≤◌, ◌^◌, ◌≡◌, All, IfOk, OnOk, IsErrOf, length};
ghost use Rattle.emit_code.specs.Counts.{MAX_WORDS, MAX_BASE};
ghost use Rattle.compile_function.specs.read_body.Limits.{MAX_ITEMS};
ghost use Rattle.compile_function.specs.read_program.declared.closing.Parsed.{Parsed};
ghost use Rattle.compile_function.specs.read_program.Program.{MAX_FUNCTIONS};
ghost use Rattle.pass_list.specs.Names.{AreDistinct};
ghost use Rattle.compile_function.specs.Passed.{LeavesVirtual, steps_of};
ghost use Rattle.compile_program.specs.Program.{HaveRegisters, HasVirtualRegister, HasLargeFrame};
ghost use Rattle.compile_program.specs.steps.CompilationState.{IsSourcePushed, IsTooLarge, AreMade};
ghost use Rattle.compile_function.specs.read_proof.Read.{IsReadFunction, EntryIsLimited};

use compile_function::compiled_function::CompiledFunctions;
use compile_function::emit::{EmittedFunctions, push_function};
use compile_function::error::CompileError;
use compile_function::passed::{after_passes, get_registers};
use compile_function::read_program_crate::closing::Parsed;
use listing_text::output::{Bytes, ListedFunctions};
use pass_list::kind::PassKind;
use read_metadata::metadata::Metadata;
use rv64_instr::reg::Reg;
use std::alloc::Global;

/// Runs linear scan and passes on each function and compiles it, from address 0 on. `reserve` is the registers that may
/// be spilled. The error is `NoRegister` if linear scan leaves a virtual register in some function, and otherwise
/// `FrameTooLarge` if some function's frame would be too large.
pub fn made_of(
    alloc: Global,
    meta: &Metadata,
    functions: &[Parsed],
    passes: &[PassKind],
    reserve: &[Reg],
) -> Result<EmittedFunctions, CompileError>
    requires few { length functions.now ≤ MAX_FUNCTIONS }
    requires read { All (λ (p : Parsed). IsReadFunction meta.now p.func) functions.now }
    requires substitutions { All (λ (p : Parsed). All EntryIsLimited p.subs) functions.now }
    requires distinct { AreDistinct passes.now }
    ensures made { IfOk result (AreMade meta.now reserve.now passes.now functions.now) }
    ensures no_register { IsErrOf result CompileError.NoRegister →
        HasVirtualRegister reserve.now functions.now }
    ensures too_large { IsErrOf result CompileError.FrameTooLarge →
        HasLargeFrame (steps_of reserve.now passes.now) functions.now }
    ensures registers_first { IsErrOf result CompileError.FrameTooLarge → HaveRegisters reserve.now functions.now }
    ensures no_section { IsErrOf result CompileError.SectionTooLarge → ⊥ }
{
    match made_in_turn(alloc, meta, functions, passes, reserve) {
        Ok(made) => Ok(made),
        Err(CompileError::FrameTooLarge) => {
            have_registers(alloc, meta, functions, reserve)?;
            Err(CompileError::FrameTooLarge)
        }
        Err(CompileError::NoRegister) => Err(CompileError::NoRegister),
        Err(CompileError::SectionTooLarge) => Err(CompileError::SectionTooLarge),
        Err(CompileError::Memory) => Err(CompileError::Memory),
    }
}

/// Tests whether linear scan leaves no virtual register in any function. The error is `NoRegister` if it leaves one.
#[tactic(auto, using(crate::proofs::Passed::one_virtual))]
fn have_registers(
    alloc: Global,
    meta: &Metadata,
    functions: &[Parsed],
    reserve: &[Reg],
) -> Result<(), CompileError>
    requires read { All (λ (p : Parsed). IsReadFunction meta.now p.func) functions.now }
    requires substitutions { All (λ (p : Parsed). All EntryIsLimited p.subs) functions.now }
    ensures registers { IfOk result (λ _. HaveRegisters reserve.now functions.now) }
    ensures no_register { IsErrOf result CompileError.NoRegister →
        HasVirtualRegister reserve.now functions.now }
    ensures no_frame { IsErrOf result CompileError.FrameTooLarge → ⊥ }
    ensures no_section { IsErrOf result CompileError.SectionTooLarge → ⊥ }
{
    for source in functions {
        get_registers(alloc, meta, source, reserve)?;
    }
    Ok(())
}

/// Runs linear scan and passes on one function after the other and compiles it, up to the first that has no output.
#[tactic(auto, using(crate::proofs::Passed::one_too_large, crate::proofs::Passed::one_virtual))]
fn made_in_turn(
    alloc: Global,
    meta: &Metadata,
    functions: &[Parsed],
    passes: &[PassKind],
    reserve: &[Reg],
) -> Result<EmittedFunctions, CompileError>
    requires few { length functions.now ≤ MAX_FUNCTIONS }
    requires read { All (λ (p : Parsed). IsReadFunction meta.now p.func) functions.now }
    requires substitutions { All (λ (p : Parsed). All EntryIsLimited p.subs) functions.now }
    requires distinct { AreDistinct passes.now }
    ensures made { IfOk result (AreMade meta.now reserve.now passes.now functions.now) }
    ensures no_register { IsErrOf result CompileError.NoRegister →
        HasVirtualRegister reserve.now functions.now }
    ensures too_large { IsErrOf result CompileError.FrameTooLarge →
        HasLargeFrame (steps_of reserve.now passes.now) functions.now }
    ensures no_section { IsErrOf result CompileError.SectionTooLarge → ⊥ }
{
    let mut made = EmittedFunctions {
        text: Bytes::new(alloc),
        list_count: 0,
        listings: ListedFunctions::new(alloc),
        functions: CompiledFunctions::new(alloc),
    };
    for source in functions {
        push_source(alloc, &mut made, meta, source, passes, reserve)?;
    }
    Ok(made)
}

/// Runs linear scan and passes on a function, and appends its listing and what is made of it.
fn push_source(
    alloc: Global,
    made: &mut EmittedFunctions,
    meta: &Metadata,
    source: &Parsed,
    passes: &[PassKind],
    reserve: &[Reg],
) -> Result<(), CompileError>
    requires aligned { length made.old.text % 4 ≡ 0 }
    requires room { length made.old.text + 4 * MAX_WORDS < MAX_BASE }
    requires numbers { made.old.list_count + MAX_ITEMS < 2 ^ 32 }
    requires read { IsReadFunction meta.now source.now.func }
    requires substitutions { All EntryIsLimited source.now.subs }
    requires distinct { AreDistinct passes.now }
    ensures pushed { OnOk result
        (IsSourcePushed meta.now reserve.now passes.now source.now made.old made.new) }
    ensures no_register { IsErrOf result CompileError.NoRegister → LeavesVirtual reserve.now source.now }
    ensures too_large { IsErrOf result CompileError.FrameTooLarge →
        IsTooLarge (steps_of reserve.now passes.now) source.now }
    ensures no_section { IsErrOf result CompileError.SectionTooLarge → ⊥ }
{
    let passed = after_passes(alloc, meta, source, passes, reserve)?;
    let losses = passed.losses;
    push_function(
        alloc,
        made,
        meta,
        source,
        &passed.function,
        &passed.substitutions,
        losses,
    )?;
    Ok(())
}
