//! Compilation of one function.

ghost use Rattle.std.specs.Prelude.{◌≡◌, ◌<◌, ◌≤◌, ◌%◌, All, IfOk, OnOk, IsErrOf};
ghost use Rattle.mir_func.specs.Graph.{block_start, framed_program};
ghost use Rattle.mir_func.specs.Limits.{MAX_FRAME};
ghost use Rattle.mir_func.specs.Resolve.{resolve};
ghost use Rattle.mir_func.specs.Sound.{AllItems};
ghost use Rattle.mir_func.specs.SoundFrame.{HasPhysical};
ghost use Rattle.frame_rule.specs.Rule.{reach_of, framed_of};
ghost use Rattle.emit_code.specs.Counts.{MAX_WORDS, MAX_BASE, count_of};
ghost use Rattle.emit_code.specs.Laid.{IsCodeOf};
ghost use Rattle.dwarf_loclists.specs.Ranges.{Ascend};
ghost use Rattle.compile_passes.specs.location_ranges.Lists.{AreListsOf};
ghost use Rattle.dwarf_sections.specs.dwarf_unit.Variables.{variables_of_function};

use crate::location_lists::location_lists;
use base_list::List;
use dwarf_loclists::range::RangeLists;
use dwarf_sections::dwarf_unit_crate::variables::{VarIds, variables};
use emit_code::code::Code;
use emit_function::code::{CodeError, code_of};
use mir_func::func::Func;
use mir_substitution::substitutions::Substitutions;
use pass_trait::loss::Losses;
use std::alloc::Global;

/// A compiled function.
#[derive(Debug, Drop)]
pub struct CompiledFunction {
    /// Its machine code, and the function with its frame.
    pub code: Code,
    /// The variables of its source as wholes, in the order of their first debug values.
    pub variables: VarIds,
    /// A location list for each of them, in their order.
    pub lists: RangeLists,
    /// What passes lost of it.
    pub losses: Losses,
}

/// Compiled functions, in their order.
pub type CompiledFunctions = List<CompiledFunction>;

/// Compiles a function from an address on, a multiple of 4, with a location list for each variable of its source: the
/// function as it was before passes, or the function itself. `losses` is what these passes lost. It has the errors of
/// `code_of`.
pub fn compile_function(
    alloc: Global,
    source: &Func,
    f: &Func,
    subs: &Substitutions,
    losses: Losses,
    base: u64,
) -> Result<CompiledFunction, CodeError>
    requires aligned { base % 4 ≡ 0 }
    requires low { base < MAX_BASE }
    ensures code { IfOk result (λ c. IsCodeOf (framed_of f.now) base c.code) }
    ensures fits { OnOk result (reach_of f.now ≤ MAX_FRAME) }
    ensures few { OnOk result (count_of (framed_of f.now).blocks < MAX_WORDS) }
    ensures variables { IfOk result (λ c. c.variables ≡ variables_of_function source.now.blocks) }
    ensures lists { IfOk result (λ c.
        AreListsOf (framed_program (framed_of f.now).blocks (resolve subs.now)) (block_start 0) c.code.entries
        c.variables c.lists) }
    ensures losses { IfOk result (λ c. c.losses ≡ losses) }
    ensures ascend { IfOk result (λ c. All Ascend c.lists) }
    ensures not_physical { IsErrOf result CodeError.Virtual → AllItems (λ i. HasPhysical i.kind) f.now.blocks → ⊥ }
    ensures too_large { IsErrOf result CodeError.FrameTooLarge → MAX_FRAME < reach_of f.now }
    ensures too_long { IsErrOf result CodeError.TooLong → MAX_WORDS ≤ count_of (framed_of f.now).blocks }
{
    let code = code_of(alloc, f, base)?;
    let variables = variables(alloc, source.blocks.as_slice())?;
    let lists = location_lists(alloc, variables.as_slice(), subs, &code)?;
    Ok(CompiledFunction {
        code,
        variables,
        lists,
        losses,
    })
}
