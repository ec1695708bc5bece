//! Words: those that go to a callee, and steps of all others.

ghost use Rattle.std.specs.Prelude.{◌≡◌, ◌<◌, ℕ, Some, None, cond, IfOk, OnErr};
ghost use Rattle.rv64_instr.specs.Decoded.{ShowsCallee, ShowsWay};
ghost use Rattle.rv64_instr.specs.Linked.{addresses_in};
ghost use Rattle.rv64_instr.specs.Row as row;
ghost use Rattle.rv64_word.specs.Linked.{linked_word};
ghost use Rattle.rv64_word.specs.MachineRow.{machine_row};
ghost use Rattle.sem_machine.specs.MachineStep.{is_jump_to, word_jumps_to, goes_to, leaves_by};
ghost use Rattle.sim_machine.specs.Shown.{entry_at, entry_call, entry_left, entry_row};
ghost use Rattle.sim_machine.specs.Kept.{IsSameFrame};
ghost use Rattle.sim_machine.specs.Running.{StepsOn, StaysIf};
ghost use Rattle.sim_machine.specs.declared.hart.Hart.{Hart as State};
ghost use Rattle.sim_machine.specs.steps.Sites.{TransfersSo};

use crate::ending::{Stepped, Stop};
use crate::hart::Hart;
use crate::site::{Transfer, instruction_at, word_of};
use emit_code::code::{Code, EncodedInstruction};
use rv64_instr::decoded::{Callee, Way};
use rv64_instr::symbol::SymbolAddresses;
use rv64_word::linked::linked_word;
use rv64_word::machine_op::{MachineOp, decode};
use rv64_word::word_op::WordOp;
use std::alloc::AllocError;

/// The word of a return: `JALR x0, 0(x1)`.
const RETURN: u32 = 0x0000_8067;

/// Executes the word of the entry at the program counter.
pub fn run_word(
    hart: &mut Hart,
    code: &Code,
    entry: &EncodedInstruction,
) -> Result<Stepped, AllocError>
    requires stands { entry_at code.now.entries hart.old.counter ≡ Some entry.now }
    requires at { entry.now.address ≡ hart.old.counter }
    requires word { entry_call code.now.framed entry.now ≡ None }
    requires left { entry_left code.now.framed entry.now ≡ None }
    ensures step { IfOk result (λ r. StepsOn code.now r hart.old hart.new) }
    ensures stays { IfOk result (λ r. StaysIf r hart.old hart.new) }
    ensures same { IsSameFrame hart.old hart.new }
    ensures err { OnErr result (hart.new ≡ hart.old) }
{
    let in_text = word_of(code, entry);
    let word = linked_at(code, entry, in_text, &hart.symbols);
    if word == RETURN {
        return Ok(Stepped::Stopped(Stop::Ended(Way::Back)));
    }
    match decode(word) {
        Some(m) => {
            hart.operate(&m)?;
            Ok(Stepped::Went)
        }
        None => Ok(Stepped::Stopped(Stop::BadWord(in_text))),
    }
}

/// How the run ends at an entry where control leaves the function for a callee: so, or at a word that doesn't go there.
pub fn departure(code: &Code, entry: &EncodedInstruction, way: Way) -> Stop
    requires stands { entry_at code.now.entries entry.now.address ≡ Some entry.now }
    requires left { TransfersSo (Transfer.Departure way) (entry_call code.now.framed entry.now)
        (entry_left code.now.framed entry.now) }
    ensures { (h : State) → h.counter ≡ entry.now.address → StepsOn code.now (Stepped.Stopped result) h h }
{
    let word = word_of(code, entry);
    let leaves = leaves_by(word, &way);
    ended_if(leaves, way, word)
}

fn ended_if(leaves: bool, way: Way, word: u32) -> Stop
    ensures { result ≡ cond leaves (Stop.Ended way) (Stop.BadWord word) }
{
    if leaves {
        Stop::Ended(way)
    } else {
        Stop::BadWord(word)
    }
}

/// Whether a word leaves the function so, or goes back to the caller.
fn leaves_by(word: u32, way: &Way) -> bool
    ensures { (w : row.Way row.Callee) (counter : ℕ) → ShowsWay way.now w → result ≡ leaves_by w counter (Some word) }
{
    match *way {
        Way::Back => true,
        Way::Tail(callee) => goes_to(word, 0, callee),
        Way::Never(callee) => goes_to(word, 1, callee),
    }
}

/// Whether a word goes to a callee, with this link register. The words for one by its name aren't looked at.
pub fn goes_to(word: u32, link: u32, callee: Callee) -> bool
    ensures { (c : row.Callee) (counter : ℕ) → ShowsCallee callee c → result ≡ goes_to link c counter (Some word) }
{
    match callee {
        Callee::Named => true,
        Callee::Held(r) => jumps_to(word, link, r.number()),
    }
}

/// Whether a word is `JALR link, 0(r)`.
fn jumps_to(word: u32, link: u32, r: u32) -> bool
    ensures { (counter : ℕ) → result ≡ word_jumps_to link r counter (Some word) }
{
    match decode(word) {
        Some(m) => is_jump_to(&m, link, r),
        None => false,
    }
}

fn is_jump_to(m: &MachineOp, link: u32, r: u32) -> bool
    ensures { (address : ℕ) → result ≡ is_jump_to link r (machine_row address m.now) }
{
    let offset = m.imm.cast_unsigned();
    match m.op {
        WordOp::Jalr => m.rd == link && (m.rs1 == r && offset == 0),
        WordOp::Registers(_)
        | WordOp::Immediate(_)
        | WordOp::Lui
        | WordOp::Branch(_)
        | WordOp::Load(_)
        | WordOp::Store(_)
        | WordOp::Jal => false,
    }
}

/// The word of an entry when the program is linked, where symbols have these addresses.
fn linked_at(code: &Code, entry: &EncodedInstruction, word: u32, symbols: &SymbolAddresses) -> u32
    ensures { result ≡ linked_word (addresses_in symbols.now) (entry_row code.now.framed entry.now) word }
{
    match instruction_at(&code.framed, &entry.point) {
        Some(i) => linked_word(i, word, symbols),
        None => word,
    }
}
