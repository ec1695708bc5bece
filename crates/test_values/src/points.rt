//! The values in registers at points, and the locations of variables there.

ghost use Rattle.std.specs.Prelude.{◌≡◌, ◌≤◌, length};
ghost use Rattle.value_tracker.specs.Things.{AreThings};

use crate::joins::values_of;
use crate::text::{framed_of, function_of, pair, register, variable, with_frame};
use gen_function::generator::generate;
use location_ranges::values::Values;
use mir_func::debug_substitution::OperandPair;
use mir_func::framed::Framed;
use mir_substitution::substitutions::Substitutions;
use rv64_instr::place::Place;
use std::alloc::Global;
use std::test::Fail;
use value_live_ins::values::{MachineValues, solve, solve_asking};
use value_queries::machine::{holds as holds_pair, kept, same};
use value_queries::point::{QueryPoint, point_at};
use value_queries::variable::{first_place, holds};

/// Variable 4 is in x10, which is copied to x12; variable 5 is the sum in x13, which is copied to x14.
const COPIES: &str =
    "  bb.0:\n    DBG_VALUE $x10, $noreg, !4, !DIExpression()\n    $x12 = COPY $x10, debug-instr-number 3\n    \
    $x13 = ADDI $x10, 1, debug-instr-number 1\n    \
    DBG_INSTR_REF !5, !DIExpression(DW_OP_LLVM_arg, 0), dbg-instr-ref(1, 0)\n    \
    $x14 = COPY $x13, debug-instr-number 4\n    PseudoRET\n";

/// Two paths meet again. The prologue is block 0.
const JOIN: &str =
    "  bb.0:\n    DBG_VALUE $x10, $noreg, !4, !DIExpression()\n    $x12 = COPY $x10\n    BEQ $x11, $x0, %bb.2\n  \
    bb.1:\n    $x10 = ADDI $x10, 1\n    $x13 = COPY $x12\n    PseudoBR %bb.3\n  bb.2:\n    $x13 = COPY $x10\n  \
    bb.3:\n    $x12 = ADDI $x0, 5\n    PseudoRET implicit $x13\n";

/// Items of the first, the number of a pair, a register, and whether in it there sit the value of variable 4, that of
/// variable 5, that of the pair, and what x10 holds. Of a pair that isn't tracked the answer is 9.
type Answers = (usize, u32, u32, (u32, u32, u32, u32));

/// Nothing is asked for.
const ANSWERS: &[Answers] = &[
    // before the mark, behind it, and behind the copy
    (0, 1, 10, (0, 0, 0, 1)),
    (1, 1, 10, (1, 0, 0, 1)),
    (2, 1, 12, (1, 0, 0, 1)),
    // where the pair has a value, where its variable is marked, and where it was copied
    (3, 1, 13, (0, 0, 1, 0)),
    (4, 1, 13, (0, 1, 1, 0)),
    (5, 1, 14, (0, 1, 1, 0)),
    (5, 1, 12, (1, 0, 0, 1)),
    // no mark asks for this pair
    (5, 2, 14, (0, 1, 9, 0)),
];

/// The pair of the first copy is asked for.
const ASKED: &[Answers] = &[
    // before the copy that gives it, and behind it
    (1, 3, 12, (0, 0, 0, 0)),
    (2, 3, 12, (1, 0, 1, 1)),
    (5, 3, 10, (1, 0, 1, 1)),
    (5, 3, 14, (0, 1, 0, 0)),
    // one that a mark asks for, and one that nothing does
    (5, 1, 14, (0, 1, 1, 0)),
    (5, 4, 14, (0, 1, 9, 0)),
];

/// Blocks and items of the second, and the register where the variable is, or 0.
const FIRST: &[(usize, usize, u32)] = &[
    // before the mark, behind it, and behind the copy
    (1, 0, 0),
    (1, 1, 10),
    (1, 2, 10),
    // where x10 was set again
    (2, 0, 10),
    (2, 1, 12),
    // where both paths meet, and where x12 was set
    (4, 0, 12),
    (4, 1, 13),
];

fn answers(
    values: &Values,
    point: &QueryPoint,
    number: u32,
    place: &Place,
) -> Result<(u32, u32, u32, u32), Fail> {
    let x10 = Place::Register(register(10)?);
    let pair = match holds_pair(values, point, &pair(number), place) {
        None => 9,
        Some(sits) => u32::from(sits),
    };
    Ok((
        u32::from(holds(values, point, &variable(4), place)),
        u32::from(holds(values, point, &variable(5), place)),
        pair,
        u32::from(same(values, point, &x10, place)),
    ))
}

/// The answers before an item, by what is known of the function's values.
fn answers_by(
    alloc: Global,
    framed: &Framed,
    known: &MachineValues,
    subs: &Substitutions,
    item: usize,
    number: u32,
    in_register: u32,
) -> Result<(u32, u32, u32, u32), Fail>
    requires things { AreThings known.now.variables known.now.things }
    requires fewer { length known.now.variables ≤ length known.now.things }
    requires for_all { length known.now.entries ≡ length framed.now.blocks }
{
    let blocks = framed.blocks.as_slice();
    if 1 >= blocks.len() || item > blocks[1].items.len() {
        return Err(Fail::from("no such point"));
    }
    let place = Place::Register(register(in_register)?);
    let values = Values {
        variables: &known.variables,
        things: known.things.as_slice(),
        entries: known.entries.as_slice(),
        subs,
    };
    let point = point_at(alloc, &values, blocks, 1, item)?;
    answers(&values, &point, number, &place)
}

/// The number of the first row of answers that are others.
fn other_answers(
    alloc: Global,
    framed: &Framed,
    known: &MachineValues,
    subs: &Substitutions,
    rows: &[Answers],
) -> Result<Option<usize>, Fail>
    requires things { AreThings known.now.variables known.now.things }
    requires fewer { length known.now.variables ≤ length known.now.things }
    requires for_all { length known.now.entries ≡ length framed.now.blocks }
{
    for (row, (item, number, in_register, wanted)) in rows.iter().enumerate() {
        if answers_by(alloc, framed, known, subs, *item, *number, *in_register)? != *wanted {
            return Ok(Some(row));
        }
    }
    Ok(None)
}

/// The same, where these pairs are asked for.
fn other_asking_of(
    alloc: Global,
    framed: &Framed,
    subs: &Substitutions,
    asked: &[OperandPair],
    rows: &[Answers],
) -> Result<Option<usize>, Fail> {
    let known = solve_asking(alloc, framed, subs, asked)?;
    other_answers(alloc, framed, &known, subs, rows)
}

/// The same of the first function.
fn other_asking(
    alloc: Global,
    asked: &[OperandPair],
    rows: &[Answers],
) -> Result<Option<usize>, Fail> {
    let parsed = function_of(alloc, COPIES)?;
    let framed = framed_of(alloc, &parsed)?;
    other_asking_of(alloc, &framed, &parsed.subs, asked, rows)
}

/// Whether variable 4 is in a register before an item, or nowhere where the number is 0.
fn is_first(
    alloc: Global,
    framed: &Framed,
    known: &MachineValues,
    subs: &Substitutions,
    block: usize,
    item: usize,
    number: u32,
) -> Result<bool, Fail>
    requires things { AreThings known.now.variables known.now.things }
    requires fewer { length known.now.variables ≤ length known.now.things }
    requires for_all { length known.now.entries ≡ length framed.now.blocks }
{
    let values = Values {
        variables: &known.variables,
        things: known.things.as_slice(),
        entries: known.entries.as_slice(),
        subs,
    };
    let blocks = framed.blocks.as_slice();
    if block >= blocks.len() || item > blocks[block].items.len() {
        return Err(Fail::from("no such point"));
    }
    let found = first_place(alloc, &values, blocks, &variable(4), block, item)?;
    if number == 0 {
        return Ok(found.is_none());
    }
    Ok(found == Some(Place::Register(register(number)?)))
}

/// The number of the first row whose register is another.
fn other_registers(
    alloc: Global,
    framed: &Framed,
    known: &MachineValues,
    subs: &Substitutions,
    rows: &[(usize, usize, u32)],
) -> Result<Option<usize>, Fail>
    requires things { AreThings known.now.variables known.now.things }
    requires fewer { length known.now.variables ≤ length known.now.things }
    requires for_all { length known.now.entries ≡ length framed.now.blocks }
{
    for (row, (block, item, wanted)) in rows.iter().enumerate() {
        if !is_first(alloc, framed, known, subs, *block, *item, *wanted)? {
            return Ok(Some(row));
        }
    }
    Ok(None)
}

/// The same of a function.
fn other_registers_of(
    alloc: Global,
    framed: &Framed,
    subs: &Substitutions,
    rows: &[(usize, usize, u32)],
) -> Result<Option<usize>, Fail> {
    let known = solve(alloc, framed, subs)?;
    other_registers(alloc, framed, &known, subs, rows)
}

/// The same of the second function.
fn other_places(alloc: Global, rows: &[(usize, usize, u32)]) -> Result<Option<usize>, Fail> {
    let parsed = function_of(alloc, JOIN)?;
    let framed = framed_of(alloc, &parsed)?;
    other_registers_of(alloc, &framed, &parsed.subs, rows)
}

/// How many class numbers are kept.
fn kept_numbers(alloc: Global) -> Result<u64, Fail> {
    let known = values_of(alloc, COPIES)?;
    Ok(kept(known.entries.as_slice()))
}

/// How many class numbers are kept of a generated function of 512 blocks, and twice as many as each of its blocks, the
/// prologue among them, has things that are tracked.
fn generated_numbers(alloc: Global) -> Result<(u64, u64), Fail> {
    let f = generate(alloc, 0, 512)?;
    let framed = with_frame(alloc, &f)?;
    numbers_of(alloc, &framed)
}

/// The same of a function.
fn numbers_of(alloc: Global, framed: &Framed) -> Result<(u64, u64), Fail> {
    let subs = Substitutions::new(alloc);
    let known = solve(alloc, framed, &subs)?;
    let blocks = known.entries.len() as u64;
    let most = blocks
        .saturating_mul(known.things.len() as u64)
        .saturating_mul(2);
    Ok((kept(known.entries.as_slice()), most))
}

/// Whether class numbers of the generated function are kept, and no more than there may be.
fn are_kept_numbers(alloc: Global) -> Result<bool, Fail> {
    let (numbers, most) = generated_numbers(alloc)?;
    Ok(0 < numbers && numbers <= most)
}

#[test]
fn values_sit_in_places(rt: HostRuntime) -> Result<(), Fail> {
    let alloc = rt.alloc();
    assert_eq!(rt; other_asking(alloc, &[], ANSWERS)?, None);
    assert_eq!(rt; other_asking(alloc, &[pair(3)], ASKED)?, None);
    assert_eq!(rt; other_places(alloc, FIRST)?, None);
    // The prologue and the block keep a class number for each of two variables, 30 registers, a number and a pair.
    assert_eq!(rt; kept_numbers(alloc)?, 68);
    assert!(rt; are_kept_numbers(alloc)?);
    Ok(())
}
