//! The layout and the values of a function that only returns.

use emit_code::code::Code;
use emit_code::laws::one_layout;
use emit_function::code::code_of;
use frame_lowering::lower::lower;
use frame_lowering::physical::is_physical;
use listing_function::laws::listings_are_printable;
use listing_text::laws::one_reading;
use mir_func::func::Func;
use read_program::closing::Parsed;
use read_program::program::read_program;
use std::alloc::Global;
use std::test::Fail;
use value_live_ins::values::{MachineValues, solve};
use value_solver::entry::BlockEntry;
use value_solver::tracked::Tracked;

const RETURN: &str = "---\nname: f\nbody: |\n  bb.7:\n    PseudoRET\n...\n";

/// Whether a code from address 16 on is a return: `JALR x0, 0(x1)` (RISC-V Unprivileged ISA, "Unconditional Jumps").
fn is_return(code: &Code) -> bool {
    let [entry] = code.entries.as_slice() else {
        return false;
    };
    code.base == 16
        && code.words.as_slice() == [0x0000_8067].as_slice()
        && entry.address == 16
        && entry.size == 4
        && !entry.call
        && entry.point.block.number() == 1
        && entry.point.item == 0
}

/// Whether a block's start is reached, and each of 31 things has a token of its own there.
fn is_start(entry: &BlockEntry) -> bool {
    if !entry.reached || entry.classes.len() != 31 {
        return false;
    }
    for (i, class) in entry.classes.as_slice().iter().enumerate() {
        if *class as usize != i + 1 {
            return false;
        }
    }
    for given in entry.given.as_slice() {
        if !*given {
            return false;
        }
    }
    true
}

/// Whether a thing is a register but x0 and x2, or the number 0.
fn is_tracked(thing: &Tracked) -> bool {
    match thing {
        Tracked::Register(r) => r.number() != 0 && r.number() != 2,
        Tracked::Number(c) => *c == 0,
        _ => false,
    }
}

/// Whether the values of a return are told apart at the start of its prologue and of its block, in two sweeps.
fn are_values(values: &MachineValues) -> bool {
    for thing in values.things.as_slice() {
        if !is_tracked(thing) {
            return false;
        }
    }
    for entry in values.entries.as_slice() {
        if !is_start(entry) {
            return false;
        }
    }
    values.variables.is_empty()
        && values.things.len() == 31
        && values.entries.len() == 2
        && values.sweeps == 2
}

fn has_layout(alloc: Global, f: &Func) -> Result<bool, Fail> {
    let code = code_of(alloc, f, 16)?;
    Ok(is_return(&code))
}

fn has_values(alloc: Global, parsed: &Parsed) -> Result<bool, Fail> {
    if !is_physical(&parsed.func) {
        return Ok(false);
    }
    let framed = lower(alloc, &parsed.func)?;
    let values = solve(alloc, &framed, &parsed.subs)?;
    Ok(are_values(&values))
}

/// Whether the function of the text has the layout and the values of a return.
fn has_layout_and_values(alloc: Global, text: &str) -> Result<bool, Fail> {
    if text.len() >= 100 {
        return Err(Fail::from("a long text"));
    }
    let program = read_program(alloc, false, text.as_bytes())?;
    match program.functions.as_slice() {
        [parsed] => Ok(has_layout(alloc, &parsed.func)? && has_values(alloc, parsed)?),
        _ => Ok(false),
    }
}

#[test]
fn a_return_has_a_layout_and_values(rt: HostRuntime) -> Result<(), Fail> {
    one_layout();
    one_reading();
    listings_are_printable();
    assert!(rt; has_layout_and_values(rt.alloc(), RETURN)?);
    Ok(())
}
