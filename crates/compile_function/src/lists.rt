//! The location lists of functions, one after the other.

ghost use Rattle.std.specs.Prelude.{◌≡◌, ◌++◌, IfOk, OnOk};
ghost use Rattle.compile_function.specs.Emitted.{lists_of};

use crate::compiled_function::CompiledFunction;
use dwarf_loclists::range::{RangeLists, Ranges, copied};
use std::alloc::{AllocError, Global};

/// The location lists of all functions.
pub fn all_lists(alloc: Global, functions: &[CompiledFunction]) -> Result<RangeLists, AllocError>
    ensures { IfOk result (λ lists. lists ≡ lists_of functions.now) }
{
    let mut lists = RangeLists::new(alloc);
    for function in functions {
        push_copies(alloc, &mut lists, function.lists.as_slice())?;
    }
    Ok(lists)
}

/// Appends copies of location lists. The error is out of memory.
pub fn push_copies(alloc: Global, lists: &mut RangeLists, more: &[Ranges]) -> Result<(), AllocError>
    ensures { OnOk result (lists.new ≡ lists.old ++ more.now) }
{
    for ranges in more {
        lists.push(copied(alloc, ranges.as_slice())?)?;
    }
    Ok(())
}
