//! The value numbers at block starts, over all paths to them.

use crate::text::{framed_of, function_of, register, variable};
use std::alloc::{AllocError, Global};
use std::fmt::Write;
use std::test::Fail;
use value_live_ins::values::{MachineValues, solve};
use value_solver::entry::BlockEntry;
use value_solver::tracked::Tracked;

/// Bodies, and the registers that have the first variable's value at the start of each block, the prologue's first.
const BODIES: &[(&str, &str)] = &[
    // two paths meet again
    (
        "  bb.0:\n    DBG_VALUE $x10, $noreg, !4, !DIExpression()\n    $x12 = COPY $x10\n    BEQ $x11, $x0, %bb.2\n  \
         bb.1:\n    $x10 = ADDI $x10, 1\n    $x13 = COPY $x12\n    PseudoBR %bb.3\n  bb.2:\n    $x13 = COPY $x10\n  \
         bb.3:\n    PseudoRET implicit $x13\n",
        "; ; x10 x12 ; x10 x12 ; x12 x13 ; ",
    ),
    // each turn of a loop gives the variable a new value in x13
    (
        "  bb.0:\n    DBG_VALUE $x13, $noreg, !4, !DIExpression()\n    $x12 = COPY $x13\n  bb.1:\n    \
         $x13 = ADDI $x13, 1, debug-instr-number 1\n    \
         DBG_INSTR_REF !4, !DIExpression(DW_OP_LLVM_arg, 0), dbg-instr-ref(1, 0)\n    BNE $x13, $x11, %bb.1\n  \
         bb.2:\n    PseudoRET implicit $x13\n",
        "; ; x13 ; x13 ; ",
    ),
    // no path leads to a block that marks the variable
    (
        "  bb.0:\n    DBG_VALUE $x10, $noreg, !4, !DIExpression()\n    PseudoBR %bb.2\n  bb.1:\n    \
         DBG_VALUE $x11, $noreg, !4, !DIExpression()\n  bb.2:\n    PseudoRET implicit $x10\n",
        "; ; unreached; x10 ; ",
    ),
];

/// Variable 4 gets what x10 has on one path, and on the other what x11 has; variable 5 gets a value on one path alone;
/// variable 6 gets what x10 has on both.
const DIAMOND: &str =
    "  bb.0:\n    BEQ $x15, $x0, %bb.2\n  bb.1:\n    $x12 = ADDI $x12, 5, debug-instr-number 1\n    \
    DBG_VALUE $x10, $noreg, !4, !DIExpression()\n    \
    DBG_INSTR_REF !5, !DIExpression(DW_OP_LLVM_arg, 0), dbg-instr-ref(1, 0)\n    \
    DBG_VALUE $x10, $noreg, !6, !DIExpression()\n    PseudoBR %bb.3\n  bb.2:\n    \
    DBG_VALUE $x10, $noreg, !6, !DIExpression()\n    DBG_VALUE $x11, $noreg, !4, !DIExpression()\n  bb.3:\n    \
    DBG_VALUE 7, $noreg, !7, !DIExpression()\n    PseudoRET\n";

/// Blocks 1 and 2 are each followed by the other, and no one of them is before the other. Block 1 sets x10, block 3
/// follows on block 2, block 4 on none.
const IRREDUCIBLE: &str =
    "  bb.0:\n    $x10 = COPY $x11\n    BEQ $x12, $x0, %bb.2\n  bb.1:\n    $x10 = ADDI $x10, 1\n  bb.2:\n    \
    BNE $x12, $x0, %bb.1\n  bb.3:\n    PseudoCALL @g, csr_ilp32_lp64, implicit-def dead $x1\n    \
    DBG_VALUE 7, $noreg, !4, !DIExpression()\n    PseudoRET\n  bb.4:\n    PseudoBR %bb.3\n";

/// A loop hands copies of x10 down and sets x10: each sweep parts one of them from the rest.
const CHAIN: &str =
    "  bb.0:\n    $x11 = COPY $x10\n    $x12 = COPY $x10\n    $x13 = COPY $x10\n    $x14 = COPY $x10\n    \
    $x15 = COPY $x10\n  bb.1:\n    $x15 = COPY $x14\n    $x14 = COPY $x13\n    $x13 = COPY $x12\n    \
    $x12 = COPY $x11\n    $x11 = COPY $x10\n    $x10 = ADDI $x10, 1\n    BNE $x10, $x0, %bb.1\n  bb.2:\n    \
    DBG_VALUE 7, $noreg, !4, !DIExpression()\n    PseudoRET\n";

/// The same, and a variable has the value of the last of them.
const MARKED_CHAIN: &str =
    "  bb.0:\n    $x11 = COPY $x10\n    $x12 = COPY $x10\n    $x13 = COPY $x10\n    $x14 = COPY $x10\n    \
    DBG_VALUE $x14, $noreg, !4, !DIExpression()\n    $x10 = ADDI $x0, 0\n  bb.1:\n    $x14 = COPY $x13\n    \
    $x13 = COPY $x12\n    $x12 = COPY $x11\n    $x11 = ADDI $x11, 1\n    BNE $x11, $x15, %bb.1\n  bb.2:\n    \
    PseudoRET implicit $x14\n";

/// Bodies, registers and variables, and at the start of each block the classes of the number 7 and of these: the place
/// of the first that has the same class, or 0 where there is none, and + where there is a token on every path.
const CLASSES: &[ClassRow] = &[
    (
        DIAMOND,
        &[10, 11],
        &[4, 5, 6],
        "1+ 2+ 3+ 0- 0- 0- ; 1+ 2+ 3+ 0- 0- 0- ; 1+ 2+ 3+ 0- 0- 0- ; 1+ 2+ 3+ 0- 0- 0- ; 1+ 2+ 3+ 4+ 5- 2+ ; ",
    ),
    (
        IRREDUCIBLE,
        &[10, 11],
        &[4],
        "1+ 2+ 3+ 0- ; 1+ 2+ 3+ 0- ; 1+ 2+ 3+ 0- ; 1+ 2+ 3+ 0- ; 1+ 2+ 3+ 0- ; unreached; ",
    ),
    (
        CHAIN,
        &[10, 11, 12, 13, 14, 15],
        &[],
        "1+ 2+ 3+ 4+ 5+ 6+ 7+ ; 1+ 2+ 3+ 4+ 5+ 6+ 7+ ; 1+ 2+ 3+ 4+ 5+ 6+ 7+ ; 1+ 2+ 3+ 4+ 5+ 6+ 7+ ; ",
    ),
];

/// What is known of the function with this body.
pub(crate) fn values_of(alloc: Global, body: &str) -> Result<MachineValues, Fail> {
    let parsed = function_of(alloc, body)?;
    let framed = framed_of(alloc, &parsed)?;
    Ok(solve(alloc, &framed, &parsed.subs)?)
}

/// Writes the registers that have the first variable's value at an entry on every path.
fn write_registers(shown: &mut String, things: &[Tracked], entry: &BlockEntry) -> Result<(), Fail> {
    let classes = entry.classes.as_slice();
    let has_value = *entry.given.as_slice().first().ok_or("a variable")?;
    for (thing, class) in things.iter().zip(classes) {
        match thing {
            Tracked::Register(r) if has_value && classes.first() == Some(class) => write!(
                shown,
                "x{} ",
                r.number()
            )?,
            _ => {}
        }
    }
    Ok(())
}

/// Writes them at the start of each block.
fn write_all_registers(shown: &mut String, values: &MachineValues) -> Result<(), Fail> {
    for entry in values.entries.as_slice() {
        if entry.reached {
            write_registers(shown, values.things.as_slice(), entry)?;
        } else {
            shown.push_str("unreached")?;
        }
        shown.push_str("; ")?;
    }
    Ok(())
}

/// What is written of a body.
fn registers_in(alloc: Global, body: &str) -> Result<String, Fail> {
    let values = values_of(alloc, body)?;
    let mut shown = String::new(alloc);
    write_all_registers(&mut shown, &values)?;
    Ok(shown)
}

/// The number 7, registers and variables.
fn tracked(alloc: Global, registers: &[u32], variables: &[u32]) -> Result<Vec<Tracked>, Fail> {
    let mut things = Vec::new(alloc);
    things.push(Tracked::Number(7))?;
    for n in registers {
        things.push(Tracked::Register(register(*n)?))?;
    }
    for node in variables {
        things.push(Tracked::Part(variable(*node)))?;
    }
    Ok(things)
}

/// The class of a thing at an entry, and whether it is there on every path.
fn class_of(things: &[Tracked], entry: &BlockEntry, wanted: &Tracked) -> Option<(u32, bool)> {
    for ((thing, class), given) in things
        .iter()
        .zip(entry.classes.as_slice())
        .zip(entry.given.as_slice())
    {
        if *thing == *wanted {
            return Some((*class, *given));
        }
    }
    None
}

/// The place of the first that has a class, from 1 on, or 0 where there is none. The class is put behind the others.
fn place_of(classes: &mut Vec<u32>, class: u32) -> Result<usize, AllocError> {
    let mut first = classes.len();
    for (i, seen) in classes.as_slice().iter().enumerate() {
        if *seen == class && i < first {
            first = i;
        }
    }
    classes.push(class)?;
    Ok(if class == 0 {
        0
    } else {
        first.saturating_add(1)
    })
}

/// Writes the classes of things at an entry.
fn write_classes(
    shown: &mut String,
    classes: &mut Vec<u32>,
    things: &[Tracked],
    entry: &BlockEntry,
    wanted: &[Tracked],
) -> Result<(), Fail> {
    for thing in wanted {
        let (class, given) = class_of(things, entry, thing).ok_or("a thing")?;
        let first = place_of(classes, class)?;
        write!(shown, "{first}{} ", if given { "+" } else { "-" })?;
    }
    Ok(())
}

/// Writes them where none was written before.
fn write_entry(
    alloc: Global,
    shown: &mut String,
    things: &[Tracked],
    entry: &BlockEntry,
    wanted: &[Tracked],
) -> Result<(), Fail> {
    let mut classes = Vec::new(alloc);
    write_classes(shown, &mut classes, things, entry, wanted)
}

/// Writes them at the start of each block.
fn write_all_classes(
    alloc: Global,
    shown: &mut String,
    values: &MachineValues,
    wanted: &[Tracked],
) -> Result<(), Fail> {
    for entry in values.entries.as_slice() {
        if entry.reached {
            write_entry(alloc, shown, values.things.as_slice(), entry, wanted)?;
        } else if entry.classes.is_empty() && entry.given.is_empty() {
            shown.push_str("unreached")?;
        }
        shown.push_str("; ")?;
    }
    Ok(())
}

/// What is written of values.
fn shown_classes(
    alloc: Global,
    values: &MachineValues,
    wanted: &[Tracked],
) -> Result<String, Fail> {
    let mut shown = String::new(alloc);
    write_all_classes(alloc, &mut shown, values, wanted)?;
    Ok(shown)
}

/// What is written of a body.
fn classes_in(
    alloc: Global,
    body: &str,
    registers: &[u32],
    variables: &[u32],
) -> Result<String, Fail> {
    let wanted = tracked(alloc, registers, variables)?;
    let values = values_of(alloc, body)?;
    shown_classes(alloc, &values, wanted.as_slice())
}

/// How many blocks and things a body has, and how many sweeps it took.
fn sweeps_in(alloc: Global, body: &str) -> Result<(u64, u64, u64), Fail> {
    let values = values_of(alloc, body)?;
    Ok((
        values.entries.len() as u64,
        values.things.len() as u64,
        values.sweeps,
    ))
}

/// 64 blocks, of which each but block 1 jumps to the one before it in the text, and block 0 to the last. So the order
/// of the text is against that of the path.
fn upward(alloc: Global) -> Result<String, Fail> {
    let mut body = String::new(alloc);
    body.push_str(
        "  bb.0:\n    DBG_VALUE $x10, $noreg, !4, !DIExpression()\n    PseudoBR %bb.63\n",
    )?;
    body.push_str("  bb.1:\n    PseudoRET implicit $x10\n")?;
    for n in 1..63u32 {
        let block = n + 1;
        write!(body, "  bb.{block}:\n    PseudoBR %bb.{n}\n")?;
    }
    Ok(body)
}

/// The number of the first row of which other registers are written.
fn other_registers(alloc: Global, rows: &[(&str, &str)]) -> Result<Option<usize>, Fail> {
    for (row, (body, wanted)) in rows.iter().enumerate() {
        if registers_in(alloc, body)?.as_str() != *wanted {
            return Ok(Some(row));
        }
    }
    Ok(None)
}

/// A body, registers and variables, and their classes.
type ClassRow = (&'static str, &'static [u32], &'static [u32], &'static str);

/// The number of the first row of which other classes are written.
fn other_classes(alloc: Global, rows: &[ClassRow]) -> Result<Option<usize>, Fail> {
    for (row, (body, registers, variables, wanted)) in rows.iter().enumerate() {
        if classes_in(alloc, body, registers, variables)?.as_str() != *wanted {
            return Ok(Some(row));
        }
    }
    Ok(None)
}

/// Whether a body takes more sweeps than it has blocks, and no more than twice its blocks times its things and one.
fn takes_many_sweeps(alloc: Global, body: &str) -> Result<bool, Fail> {
    let (blocks, things, sweeps) = sweeps_in(alloc, body)?;
    let most = blocks
        .saturating_mul(things)
        .saturating_mul(2)
        .saturating_add(1);
    Ok(blocks < sweeps && sweeps <= most)
}

/// 64 blocks, of which each has a number that a mark asks for and branches to the one before it. So what is known goes
/// along edges against the order of the paths, one block after the other.
fn ladder(alloc: Global) -> Result<String, Fail> {
    let mut body = String::new(alloc);
    body.push_str("  bb.0:\n")?;
    for n in 0..62u32 {
        let block = n + 1;
        write!(
            body,
            "  bb.{block}:\n    $x10 = ADDI $x10, 1, debug-instr-number {block}\n    DBG_INSTR_REF !4, \
             !DIExpression(DW_OP_LLVM_arg, 0), dbg-instr-ref({block}, 0)\n    BNE $x5, $x6, %bb.{n}\n"
        )?;
    }
    body.push_str("  bb.63:\n    PseudoRET implicit $x10\n")?;
    Ok(body)
}

/// How many sweeps the blocks whose order in the text is against the path take.
fn sweeps_of_upward(alloc: Global) -> Result<u64, Fail> {
    let body = upward(alloc)?;
    let (_, _, sweeps) = sweeps_in(alloc, body.as_str())?;
    Ok(sweeps)
}

/// How many sweeps the blocks whose edges are against the paths take.
fn sweeps_of_ladder(alloc: Global) -> Result<u64, Fail> {
    let body = ladder(alloc)?;
    let (_, _, sweeps) = sweeps_in(alloc, body.as_str())?;
    Ok(sweeps)
}

#[test]
fn paths_join(rt: HostRuntime) -> Result<(), Fail> {
    let alloc = rt.alloc();
    assert_eq!(rt; other_registers(alloc, BODIES)?, None);
    assert_eq!(rt; other_classes(alloc, CLASSES)?, None);
    // Each sweep takes one register away from the value.
    assert!(rt; takes_many_sweeps(alloc, CHAIN)? && takes_many_sweeps(alloc, MARKED_CHAIN)?);
    // Where no path comes back, one sweep by the order of paths finds all, and a second one sees that.
    assert!(rt; sweeps_of_upward(alloc)? == 2);
    // Sweeps in both directions take what is known along all edges against the order at once: in one alone there are 64.
    assert!(rt; sweeps_of_ladder(alloc)? < 8);
    Ok(())
}
