//! Runs of small functions in the interpreter, and the values that their steps and variables have.

ghost use Rattle.sem_interpreter.specs.StandsFor.{AreCounted, IsPosition};

use crate::build::{entries, function, number, variable};
use crate::rows::{ROWS, Row};
use base_ids::function_ids::BlockId;
use base_list::List;
use mir_func::func::Func;
use mir_func::position::Pos;
use mir_func::variable::VarId;
use mir_substitution::substitutions::Substitutions;
use rv64_instr::start::{CallResult, Start};
use rv64_instr::symbol::SymbolAddresses;
use sem_interpreter::state::{SourceState, SourceStep};
use std::alloc::Global;
use std::str::SplitWhitespace;

/// A byte twice and the last byte of all, and then eight bytes 0x11 and 0x8182838485868788.
const CELLS: &[(u64, u8)] = &[
    (16, 1),
    (u64::MAX, 2),
    (16, 3),
    (4096, 0x11),
    (4097, 0x11),
    (4098, 0x11),
    (4099, 0x11),
    (4100, 0x11),
    (4101, 0x11),
    (4102, 0x11),
    (4103, 0x11),
    (4104, 0x88),
    (4105, 0x87),
    (4106, 0x86),
    (4107, 0x85),
    (4108, 0x84),
    (4109, 0x83),
    (4110, 0x82),
    (4111, 0x81),
];

/// Register xN holds 1000 + N, but x0 holds 0, x2 holds 1,048,576, and x10 what is given. Memory has the
/// cells.
fn start(alloc: Global, x10: u64) -> Option<Start> {
    let mut regs = [0; 32];
    for r in 1..32 {
        regs[r] = 1000 + r as u64;
    }
    regs[2] = 1_048_576;
    regs[10] = x10;
    let memory = List::from_slice(alloc, CELLS).ok()?;
    Some(Start {
        regs,
        memory,
        symbols: SymbolAddresses::new(alloc),
    })
}

/// An answer: the sixteen registers get 101 to 116, and the last byte that is written is given.
fn answer(last: (u64, u8)) -> CallResult {
    let mut regs = [0; 16];
    for i in 0..16 {
        regs[i] = 101 + i as u64;
    }
    let first = Some((16, 1));
    CallResult {
        regs,
        writes: [first, None, None, None, None, None, None, Some(last)],
    }
}

/// Whose operand 0 is asked for, whose has the value, and the part of the register.
const ENTRIES: &[(u32, u32, u32)] = &[
    (11, 12, 0),
    (12, 14, 0),
    (15, 16, 0),
    (16, 15, 0),
    (17, 14, 1),
];

/// How a step ends, by its word.
fn end(word: &str) -> Option<SourceStep> {
    match word {
        "went" => Some(SourceStep::Went),
        "returned" => Some(SourceStep::Returned),
        "faulted" => Some(SourceStep::Faulted),
        "waits" => Some(SourceStep::Waits),
        _ => None,
    }
}

fn value(word: &str) -> Option<Option<u64>> {
    match word {
        "none" => Some(None),
        word => Some(Some(word.parse::<u64>().ok()?)),
    }
}

/// Steps so many times, each with this end.
fn steps(
    state: &mut SourceState,
    f: &Func,
    subs: &Substitutions,
    answer: Option<&CallResult>,
    times: u32,
    wanted: SourceStep,
) -> Option<()>
    requires counted { AreCounted f.now.blocks }
    requires at { IsPosition f.now.blocks state.old.pos }
    ensures { IsPosition f.now.blocks state.new.pos }
{
    for _ in 0..times {
        if state.step(f, subs, answer).ok()? != wanted {
            return None;
        }
    }
    Some(())
}

/// Looks at the position.
fn stands(state: &SourceState, words: &mut SplitWhitespace) -> Option<()> {
    let block = BlockId(number(words.next())?);
    let item = number(words.next())?;
    if state.position() == (Pos { block, item }) {
        Some(())
    } else {
        None
    }
}

/// Looks at a variable's value.
fn has_value(state: &SourceState, v: &VarId, words: &mut SplitWhitespace) -> Option<()> {
    if state.value_of(v) == value(words.next()?)? {
        Some(())
    } else {
        None
    }
}

/// Does what a line says: so many steps with the same end, or one with the answer, to a block and an item; or a look
/// at a variable's value. None where anything else is seen.
fn look(
    state: &mut SourceState,
    f: &Func,
    subs: &Substitutions,
    given: &CallResult,
    line: &str,
) -> Option<()>
    requires counted { AreCounted f.now.blocks }
    requires at { IsPosition f.now.blocks state.old.pos }
    ensures { IsPosition f.now.blocks state.new.pos }
{
    let mut words = line.split_whitespace();
    let first = words.next()?;
    if let Some(v) = variable(first, &mut words) {
        return has_value(state, &v, &mut words);
    }
    if first == "answer" {
        steps(state, f, subs, Some(given), 1, end(words.next()?)?)?;
    } else {
        steps(state, f, subs, None, number(words.next())?, end(first)?)?;
    }
    stands(state, &mut words)
}

/// Does what the lines say.
fn looks_on(
    state: &mut SourceState,
    f: &Func,
    subs: &Substitutions,
    given: &CallResult,
    looks: &str,
) -> Option<()>
    requires counted { AreCounted f.now.blocks }
    requires at { IsPosition f.now.blocks state.old.pos }
{
    for line in looks.lines() {
        look(state, f, subs, given, line)?;
    }
    Some(())
}

/// Runs a function from where x10 holds a number, and looks. The answer writes a byte.
fn sees_of(
    alloc: Global,
    f: &Func,
    subs: &Substitutions,
    x10: u64,
    written: (u64, u8),
    looks: &str,
) -> Option<()> {
    if !SourceState::can_run(f) {
        return None;
    }
    let start = start(alloc, x10)?;
    let mut state = SourceState::new(alloc, f, &start).ok()?;
    looks_on(&mut state, f, subs, &answer(written), looks)
}

/// The same of the function of these declarations and blocks.
fn sees(alloc: Global, text: &str, x10: u64, written: (u64, u8), looks: &str) -> Option<()> {
    let f = function(alloc, text)?.ok()?;
    let subs = entries(alloc, ENTRIES).ok()?;
    sees_of(alloc, &f, &subs, x10, written, looks)
}

/// The number of the first row of which something else is seen.
fn other_run(alloc: Global, rows: &[Row]) -> Option<usize> {
    for (row, (text, x10, written, looks)) in rows.iter().enumerate() {
        if sees(alloc, text, *x10, *written, looks).is_none() {
            return Some(row);
        }
    }
    None
}

#[test]
fn runs_show_what_is_written(rt: HostRuntime) {
    assert_eq!(rt; other_run(rt.alloc(), ROWS), None);
}
