//! Location lists of a function.

ghost use Rattle.std.specs.Prelude.{◌≡◌, All, IfOk};
ghost use Rattle.mir_func.specs.Graph.{block_start, framed_program};
ghost use Rattle.mir_func.specs.Resolve.{resolve};
ghost use Rattle.dwarf_loclists.specs.Ranges.{Ascend};
ghost use Rattle.compile_passes.specs.location_ranges.Lists.{AreListsOf};

use compile_passes::location_ranges_crate::ranges::all_ranges;
use compile_passes::location_ranges_crate::values::Values;
use dwarf_loclists::range::RangeLists;
use emit_code::code::Code;
use mir_func::framed::Framed;
use mir_func::variable::VarId;
use mir_substitution::substitutions::Substitutions;
use std::alloc::{AllocError, Global};
use value_live_ins::values::{MachineValues, solve_for_lists};

/// The location lists of variables over the machine code of a function, in the variables' order. At the address of each
/// byte of code a list has the location that is wanted for the variable there, by all paths of the function with its
/// frame. Elsewhere it has none. The values of DBG_INSTR_REFs are found through the substitutions.
pub fn location_lists(
    alloc: Global,
    variables: &[VarId],
    subs: &Substitutions,
    code: &Code,
) -> Result<RangeLists, AllocError>
    ensures exact { IfOk result (λ lists.
        AreListsOf (framed_program code.now.framed.blocks (resolve subs.now)) (block_start 0) code.now.entries
        variables.now lists) }
    ensures ascend { IfOk result (All Ascend) }
{
    let MachineValues {
        variables: parts,
        things,
        entries,
        sweeps: _,
    } = solve_for_lists(alloc, framed_of(code), subs)?;
    let values = Values {
        variables: &parts,
        things: things.as_slice(),
        entries: entries.as_slice(),
        subs,
    };
    let lists = all_ranges(alloc, &values, variables, code)?;
    Ok(lists)
}

/// The function with its frame.
fn framed_of(code: &Code) -> &Framed
    ensures { result.now ≡ code.now.framed }
{
    &code.framed
}
