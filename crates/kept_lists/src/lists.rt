//! Location lists of functions that are true in every frame.

ghost use Rattle.std.specs.Prelude.{◌≡◌, All, IfOk, OnOk, length};
ghost use Rattle.mir_func.specs.Graph.{block_start, framed_program};
ghost use Rattle.mir_func.specs.Resolve.{resolve};
ghost use Rattle.dwarf_loclists.specs.Ranges.{Ascend};
ghost use Rattle.compile_function.specs.Emitted.{AreWritable};
ghost use Rattle.kept_ranges.specs.Lists.{AreKeptListsOf};
ghost use Rattle.kept_lists.specs.Kept.{IsAppended, AllKept};

use crate::substitutions::substitutions_of;
use compile_function::compiled_function::CompiledFunction;
use compile_function::lists::push_copies;
use dwarf_loclists::range::RangeLists;
use emit_code::code::Code;
use kept_ranges::ranges::all_kept_ranges;
use listing_text::output::ListedFunction;
use location_ranges::values::Values;
use mir_func::framed::Framed;
use mir_func::variable::VarId;
use mir_substitution::substitutions::Substitutions;
use std::alloc::{AllocError, Global};
use value_live_ins::values::{MachineValues, solve_for_lists};

/// The location lists of variables over the machine code of a function, in the variables' order. At each byte of code a
/// list has the location that is required for the variable there, in the frame that stands there or in one that is
/// suspended there, by all paths of the function with its frame. The error is out of memory.
pub fn kept_lists(
    alloc: Global,
    variables: &[VarId],
    subs: &Substitutions,
    code: &Code,
) -> Result<RangeLists, AllocError>
    ensures exact { IfOk result (λ lists.
        AreKeptListsOf (framed_program code.now.framed.blocks (resolve subs.now)) (block_start 0) code.now.entries
        variables.now lists) }
    ensures ascend { IfOk result (All Ascend) }
{
    let MachineValues {
        variables: parts,
        things,
        entries,
        sweeps: _,
    } = solve_for_lists(alloc, framed_of(code), subs)?;
    let values = Values {
        variables: &parts,
        things: things.as_slice(),
        entries: entries.as_slice(),
        subs,
    };
    let lists = all_kept_ranges(alloc, &values, variables, code)?;
    Ok(lists)
}

/// The function with its frame.
fn framed_of(code: &Code) -> &Framed
    ensures { result.now ≡ code.now.framed }
{
    &code.framed
}

/// The location lists of compiled functions, one after the other, each function's in the order of its variables. Their
/// substitutions are those that the functions' listings show. The error is out of memory.
pub fn all_kept_lists(
    alloc: Global,
    functions: &[CompiledFunction],
    listed: &[ListedFunction],
) -> Result<RangeLists, AllocError>
    requires { length functions.now ≡ length listed.now }
    ensures kept { IfOk result (AllKept functions.now listed.now) }
    ensures writable { IfOk result AreWritable }
{
    let mut lists = RangeLists::new(alloc);
    for k in 0..functions.len() {
        push_lists(alloc, &mut lists, &functions[k], &listed[k])?;
    }
    Ok(lists)
}

/// Appends the location lists of a function.
fn push_lists(
    alloc: Global,
    lists: &mut RangeLists,
    function: &CompiledFunction,
    listed: &ListedFunction,
) -> Result<(), AllocError>
    ensures { OnOk result (IsAppended function.now listed.now lists.old lists.new) }
{
    let subs = substitutions_of(alloc, listed.substitutions.as_slice())?;
    let own = kept_lists(alloc, function.variables.as_slice(), &subs, &function.code)?;
    push_copies(alloc, lists, own.as_slice())?;
    Ok(())
}
