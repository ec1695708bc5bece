//! Machine code of small functions.

use dwarf_loclists::reader::list_count;
use emit_code::code::{Code, Words};
use emit_function::code::code_of;
use read_program::closing::Parsed;
use read_program::program::read_program;
use rv64_instr::decoded::Way;
use rv64_instr::reg::physical;
use rv64_instr::start::{CallEvent, CallResult, Cells, Start};
use rv64_instr::symbol::SymbolAddresses;
use sim_machine::answers::CallAnswers;
use sim_machine::ending::{Stepped, Stop};
use sim_machine::machine::MachineSimulator;
use std::alloc::Global;
use std::test::Fail;

/// A function of one word, which returns.
pub(crate) const RETURN: &[u8] = b"---\nname: g\nbody: |\n  bb.0:\n    PseudoRET\n...\n";

/// A loop that calls `g` until its first argument is counted down, and sums what it gives.
const SUM: &[u8] = b"---
name: sum
body: |
  bb.0:
    $x8 = COPY $x10
    $x9 = ADDI $x0, 0
  bb.1:
    $x10 = COPY $x8
    PseudoCALL @g, csr_ilp32_lp64, implicit-def dead $x1, implicit $x10, implicit-def $x10
    $x9 = ADD $x9, $x10
    $x8 = ADDI $x8, -1
    BNE $x8, $x0, %bb.1
  bb.2:
    $x10 = COPY $x9
    PseudoRET implicit $x10
...
";

/// The location lists of n and s: n is in x10, then in x8; s is in x9, and at last in x10.
const LISTS: [u8; 42] = [
    0x26, 0, 0, 0, 5, 0, 8, 0, 2, 0, 0, 0, 8, 0, 0, 0, 0x13, 0, 0, 0, 4, 0x10, 0x14, 1, 0x5a, 4,
    0x14, 0x18, 1, 0x58, 0, 4, 0x18, 0x40, 1, 0x59, 4, 0x40, 0x48, 1, 0x5a, 0,
];

/// Answers the n-th call with 3 + 2 n in x10, and with 9 in the other registers.
#[derive(Drop)]
struct Odd;

impl CallAnswers for Odd {
    ghost gives = { λ _ _ _. Unit {0} };

    ghost spares = { λ _ _ _. Unit {0} };

    fn answer(&self, call: &CallEvent) -> CallResult {
        let mut regs = [9u64; 16];
        regs[4] = call.number.wrapping_mul(2).wrapping_add(3);
        CallResult {
            regs,
            writes: [None; 8],
        }
    }
}

/// The first function of a text.
fn parsed(alloc: Global, text: &[u8]) -> Result<Parsed, Fail> {
    if 16_777_216 < text.len() {
        return Err(Fail::from("a long text"));
    }
    let mut functions = read_program(alloc, false, text)?.functions.into_vec();
    Ok(functions.pop().ok_or("a function")?)
}

/// The machine code of a text's function, from address 0 on.
pub(crate) fn code(alloc: Global, text: &[u8]) -> Result<Code, Fail> {
    let parsed = parsed(alloc, text)?;
    Ok(code_of(alloc, &parsed.func, 0)?)
}

/// A code of one word with another word in its place.
fn with_word(alloc: Global, code: Code, word: u32) -> Result<Code, Fail> {
    let words = Words::from_slice(alloc, &[word])?;
    if code.words.len() != words.len() {
        return Err(Fail::from("not one word"));
    }
    Ok(Code { words, ..code })
}

/// A machine at the start of a code, where x1 is 4294967296, x2 is 1048576, x10 is given and every other register is 7.
fn machine<'a>(alloc: Global, code: &'a Code, x10: u64) -> Result<MachineSimulator<'a, Odd>, Fail> {
    let mut regs = [7u64; 32];
    regs[1] = 4_294_967_296;
    regs[2] = 1_048_576;
    regs[10] = x10;
    let start = Start {
        regs,
        memory: Cells::new(alloc),
        symbols: SymbolAddresses::new(alloc),
    };
    Ok(MachineSimulator::new(alloc, code, &start, Odd)?)
}

/// The content of a register.
fn register(machine: &MachineSimulator<Odd>, n: u32) -> Option<u64> {
    match physical(n) {
        Some(r) => Some(machine.register(r)),
        None => None,
    }
}

/// Whether a number of steps are made, none of which stops.
fn goes_on(machine: &mut MachineSimulator<Odd>, steps: u32) -> bool {
    for _ in 0..steps {
        if !matches!(machine.step(), Ok(Stepped::Went)) {
            return false;
        }
    }
    true
}

/// Whether two lists give these values where the machine stands.
fn give(machine: &MachineSimulator<Odd>, lists: &[u8], n: Option<u64>, s: Option<u64>) -> bool {
    let Ok(count) = list_count(lists) else {
        return false;
    };
    if count != 2 {
        return false;
    }
    let Ok(first) = machine.read_variable(lists, 0) else {
        return false;
    };
    let Ok(second) = machine.read_variable(lists, 1) else {
        return false;
    };
    first == n && second == s
}

/// Whether the machine stands at an address, where two lists give these values.
fn stands(machine: &MachineSimulator<Odd>, address: u64, n: Option<u64>, s: Option<u64>) -> bool {
    machine.counter() == address && give(machine, &LISTS, n, s)
}

/// What is saved in x1, x2, x8 and x9, and what x0 holds.
const SAVED: &[(u32, u64)] = &[(0, 0), (1, 4_294_967_296), (2, 1_048_576), (8, 7), (9, 7)];

/// Whether registers hold these.
fn hold(machine: &MachineSimulator<Odd>, held: &[(u32, u64)]) -> bool {
    for (n, wanted) in held {
        if register(machine, *n) != Some(*wanted) {
            return false;
        }
    }
    true
}

/// Whether the next step returns, with the sum in x10 and what was saved.
fn returns(machine: &mut MachineSimulator<Odd>, sum: u64) -> bool {
    matches!(machine.step(), Ok(Stepped::Stopped(Stop::Ended(Way::Back))))
        && machine.counter() == 0x44
        && hold(machine, SAVED)
        && register(machine, 10) == Some(sum)
}

/// How many steps are made, the address where the machine stands then, and the values of n and s there, or 0 where
/// there is none. What the machine holds before each step is a row of `run.rows`.
const STANDS: &[(u32, u64, u64, u64)] = &[
    (0, 0x00, 0, 0),
    (4, 0x10, 2, 0),
    (5, 0x28, 0, 5),
    (5, 0x28, 0, 12),
    (6, 0x40, 0, 12),
];

/// A value, or none of 0.
fn known(value: u64) -> Option<u64> {
    if value == 0 { None } else { Some(value) }
}

/// Whether a machine stands where rows say.
fn comes(machine: &mut MachineSimulator<Odd>, rows: &[(u32, u64, u64, u64)]) -> bool {
    for (steps, address, n, s) in rows {
        if !goes_on(machine, *steps) || !stands(machine, *address, known(*n), known(*s)) {
            return false;
        }
    }
    true
}

/// Whether a run of the sum stands where it should between its steps, and returns.
fn sums(alloc: Global, code: &Code) -> Result<bool, Fail> {
    let mut machine = machine(alloc, code, 2)?;
    Ok(comes(&mut machine, STANDS) && goes_on(&mut machine, 1) && returns(&mut machine, 12))
}

/// Whether a run of the sum returns after a hundred calls, which give 5, 7, .., 203.
fn sums_a_hundred(alloc: Global, code: &Code) -> Result<bool, Fail> {
    let mut machine = machine(alloc, code, 100)?;
    Ok(goes_on(&mut machine, 511) && returns(&mut machine, 10_400))
}

/// How a step of a code of one word ends.
#[derive(Clone, Copy, PartialEq, Eq)]
enum After {
    Went,
    Returned,
    BadWord,
    Left,
    Other,
}

/// How the next step ends.
fn after_step(machine: &mut MachineSimulator<Odd>) -> After {
    match machine.step() {
        Ok(Stepped::Went) => After::Went,
        Ok(Stepped::Stopped(Stop::Ended(Way::Back))) => After::Returned,
        Ok(Stepped::Stopped(Stop::BadWord(0))) => After::BadWord,
        Ok(Stepped::Stopped(Stop::Left)) => After::Left,
        _ => After::Other,
    }
}

/// Whether two steps of a code of one word end so.
fn stops(alloc: Global, code: &Code, first: After, second: After) -> Result<bool, Fail> {
    let mut machine = machine(alloc, code, 2)?;
    Ok(after_step(&mut machine) == first && after_step(&mut machine) == second)
}

/// The same, with another word in the place of the one that returns.
fn stops_at(alloc: Global, word: u32, first: After, second: After) -> Result<bool, Fail> {
    let code = with_word(alloc, code(alloc, RETURN)?, word)?;
    stops(alloc, &code, first, second)
}

#[test]
fn runs_a_loop_with_calls(rt: HostRuntime) -> Result<(), Fail> {
    let code = code(rt.alloc(), SUM)?;
    assert!(rt; sums(rt.alloc(), &code)?);
    assert!(rt; sums_a_hundred(rt.alloc(), &code)?);
    Ok(())
}

#[test]
fn stops_at_words(rt: HostRuntime) -> Result<(), Fail> {
    assert!(rt; stops_at(rt.alloc(), 0x0000_8067, After::Returned, After::Returned)?);
    assert!(rt; stops_at(rt.alloc(), 0x0000_0000, After::BadWord, After::BadWord)?);
    assert!(rt; stops_at(rt.alloc(), 0x0000_0013, After::Went, After::Left)?);
    Ok(())
}
