//! The pairs that location lists need tracked.

use crate::text::{framed_of, function_of};
use mir_func::framed::Framed;
use mir_substitution::substitutions::Substitutions;
use std::alloc::Global;
use std::test::Fail;
use value_live_ins::values::{solve, solve_for_lists};

/// Bodies, and how many of the pairs that debug values refer to location lists don't need tracked.
const BODIES: &[(&str, u64)] = &[
    // read below the sum that defines it
    (
        "  bb.0:\n    $x10 = ADDI $x10, 1, debug-instr-number 1\n    \
         DBG_INSTR_REF !4, !DIExpression(DW_OP_LLVM_arg, 0), dbg-instr-ref(1, 0)\n    PseudoRET implicit $x10\n",
        1,
    ),
    // read above it, in a loop
    (
        "  bb.0:\n    $x11 = ADDI $x10, 1\n  bb.1:\n    \
         DBG_INSTR_REF !4, !DIExpression(DW_OP_LLVM_arg, 0), dbg-instr-ref(1, 0)\n    \
         $x10 = ADDI $x10, 1, debug-instr-number 1\n    BNE $x10, $x11, %bb.1\n  bb.2:\n    PseudoRET implicit $x10\n",
        0,
    ),
    // read in the next block
    (
        "  bb.0:\n    $x10 = ADDI $x10, 1, debug-instr-number 1\n    BEQ $x10, $x0, %bb.1\n  bb.1:\n    \
         DBG_INSTR_REF !4, !DIExpression(DW_OP_LLVM_arg, 0), dbg-instr-ref(1, 0)\n    PseudoRET implicit $x10\n",
        0,
    ),
    // read below it, and in the next block too
    (
        "  bb.0:\n    $x10 = ADDI $x10, 1, debug-instr-number 1\n    \
         DBG_INSTR_REF !4, !DIExpression(DW_OP_LLVM_arg, 0), dbg-instr-ref(1, 0)\n    BEQ $x10, $x0, %bb.1\n  bb.1:\n    \
         DBG_INSTR_REF !5, !DIExpression(DW_OP_LLVM_arg, 0), dbg-instr-ref(1, 0)\n    PseudoRET implicit $x10\n",
        0,
    ),
    // an operand that defines nothing
    (
        "  bb.0:\n    $x10 = ADDI $x10, 1, debug-instr-number 1\n    \
         DBG_INSTR_REF !4, !DIExpression(DW_OP_LLVM_arg, 0), dbg-instr-ref(1, 1)\n    PseudoRET implicit $x10\n",
        0,
    ),
    // read below the phi that defines it
    (
        "  bb.0:\n    DBG_PHI $x10, 1\n    $x10 = ADDI $x10, 1, debug-instr-number 2\n    \
         DBG_INSTR_REF !4, !DIExpression(DW_OP_LLVM_arg, 0), dbg-instr-ref(1, 0)\n    \
         DBG_INSTR_REF !5, !DIExpression(DW_OP_LLVM_arg, 0), dbg-instr-ref(2, 0)\n    PseudoRET implicit $x10\n",
        2,
    ),
];

/// How many things are tracked.
fn tracked(alloc: Global, framed: &Framed, subs: &Substitutions) -> Result<u64, Fail> {
    let values = solve(alloc, framed, subs)?;
    Ok(values.things.len() as u64)
}

/// How many things are tracked for location lists.
fn tracked_for_lists(alloc: Global, framed: &Framed, subs: &Substitutions) -> Result<u64, Fail> {
    let values = solve_for_lists(alloc, framed, subs)?;
    Ok(values.things.len() as u64)
}

/// How many fewer things are tracked for location lists.
fn fewer_of(alloc: Global, framed: &Framed, subs: &Substitutions) -> Result<u64, Fail> {
    let all = tracked(alloc, framed, subs)?;
    let listed = tracked_for_lists(alloc, framed, subs)?;
    Ok(all.saturating_sub(listed))
}

/// The same of a body's function.
fn fewer(alloc: Global, body: &str) -> Result<u64, Fail> {
    let parsed = function_of(alloc, body)?;
    let framed = framed_of(alloc, &parsed)?;
    fewer_of(alloc, &framed, &parsed.subs)
}

/// The number of the first row of which other pairs are tracked.
fn other_pairs(alloc: Global, rows: &[(&str, u64)]) -> Result<Option<usize>, Fail> {
    for (row, (body, wanted)) in rows.iter().enumerate() {
        if fewer(alloc, body)? != *wanted {
            return Ok(Some(row));
        }
    }
    Ok(None)
}

#[test]
fn lists_need_no_pairs_that_stand_above(rt: HostRuntime) -> Result<(), Fail> {
    assert_eq!(rt; other_pairs(rt.alloc(), BODIES)?, None);
    Ok(())
}
