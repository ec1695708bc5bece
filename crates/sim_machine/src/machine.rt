//! The simulator of machine code.

ghost use Rattle.std.specs.Prelude.{◌≡◌, ◌<◌, ◌+◌, ◌*◌, ℕ, Some, None, IfSome, IsSome, IfOk, OnErr};
ghost use Rattle.std.specs.Prelude.{is_some, length, slice_index};
ghost use Rattle.mir_func.specs.Objects.{area_of};
ghost use Rattle.rv64_instr.specs.Row as row;
ghost use Rattle.sem_machine.specs.Machine.{Machine as State, register, register_in};
ghost use Rattle.sim_machine.specs.Departures.{left_at, way_target};
ghost use Rattle.sim_machine.specs.Shown.{entry_at, entry_call};
ghost use Rattle.sim_machine.specs.Kept.{StandsFor};
ghost use Rattle.sim_machine.specs.Machines.{StartsCode};

use crate::answers::CallAnswers;
use crate::departure::leaves_for;
use crate::ending::{Stepped, Stop};
use crate::hart::Hart;
use crate::site::{
    Places, Transfer, call_at, call_size, calls, find, places, transfer_at, word_of,
};
use crate::word::{departure, goes_to, run_word};
use emit_code::code::{Code, EncodedInstruction};
use emit_code::objects::ObjectOffsets;
use rv64_instr::decoded::Callee;
use rv64_instr::reg::Reg;
use rv64_instr::start::{CallTarget, Start};
use rv64_instr::symbol::copy_addresses;
use sem_interpreter::memory::Memory;
use std::alloc::{AllocError, Global};
use std::marker::Model;

/// A simulator that runs code, with the answers to its calls.
#[derive(Drop)]
pub struct MachineSimulator<'a, A: CallAnswers> {
    code: &'a Code,
    answers: A,
    hart: Hart,
    /// The probable index of each word's entry.
    probable: Places,
}

impl<'a, A: CallAnswers> Model for MachineSimulator<'a, A> {
    ghost use Rattle.sim_machine.specs.Machines.{Running};

    ghost Value = { Running A };

    ghost view = { λ m. record { code = m.code.now; answers = m.answers; hart = m.hart } };

    ghost invariant = { λ m. A.spares m.answers m.hart.entry m.hart.area };
}

impl<'a, A: CallAnswers + Drop> MachineSimulator<'a, A> {
    ghost use Rattle.sim_machine.specs.Running.{StepsOn, CallsOn, StaysIf};
    ghost use Rattle.sim_machine.specs.steps.Sites.{TransfersSo, GoesThere};

    /// The simulator at the start of the code. x0 reads 0, whatever its initial content. The answers to calls write no
    /// byte of the frame.
    pub fn new(
        alloc: Global,
        code: &'a Code,
        start: &Start,
        answers: A,
    ) -> Result<MachineSimulator<'a, A>, AllocError>
        requires { A.spares answers (slice_index start.now.regs 2) (area_of code.now.framed.objects) }
        ensures code { IfOk result (λ m. m.code ≡ code.now) }
        ensures answers { IfOk result (λ m. m.answers ≡ answers) }
        ensures stands { IfOk result (λ m. (s : State) → StartsCode code.now start.now s → StandsFor m.hart s) }
    {
        let hart = starting_hart(alloc, code, start)?;
        Ok(MachineSimulator {
            code,
            answers,
            hart,
            probable: places(alloc, code)?,
        })
    }

    /// The current state.
    pub fn hart(&self) -> &Hart
        ensures { result.now ≡ self.now.hart }
    {
        &self.hart
    }

    /// The program counter.
    pub fn counter(&self) -> u64
        ensures { result ≡ self.now.hart.counter }
    {
        self.hart.counter
    }

    /// The entry that begins at the program counter, or `None`.
    pub fn entry(&self) -> Option<EncodedInstruction>
        ensures found { result ≡ entry_at self.now.code.entries self.now.hart.counter }
        ensures begins { IfSome result (λ e. e.address ≡ self.now.hart.counter) }
        ensures within { IfSome result (λ e. e.address < self.now.code.base + 4 * length self.now.code.words) }
    {
        find(&self.probable, self.code, self.hart.counter)
    }

    /// What control leaves the function for at the program counter, by a call in tail position or one that doesn't
    /// return.
    pub fn leaves_for(&self) -> Result<Option<CallTarget>, AllocError>
        ensures { IfOk result (λ o. (s : State) (ending : row.Ending row.Callee) → StandsFor self.now.hart s
            → left_at self.now.code self.now.hart.counter ≡ Some ending → o ≡ way_target s ending.way) }
    {
        leaves_for(&self.probable, self.code, &self.hart)
    }

    /// Whether an entry's item is a call.
    pub fn calls(&self, entry: &EncodedInstruction) -> bool
        ensures { result ≡ is_some (entry_call self.now.code.framed entry.now) }
    {
        calls(self.code, entry)
    }

    /// The content of a physical register.
    pub fn register(&self, r: Reg) -> u64
        requires { r < 32 }
        ensures { (s : State) → StandsFor self.now.hart s → result ≡ register s r }
    {
        self.hart.read(r.number())
    }

    /// Makes one step: executes the word at the program counter, or makes and answers the call of a call site. A
    /// call in tail position and one that doesn't return end the run. A word that doesn't go to its callee stops it. A
    /// step that stops changes nothing.
    pub fn step(&mut self) -> Result<Stepped, AllocError>
        ensures code { self.new.code ≡ self.old.code }
        ensures answers { self.new.answers ≡ self.old.answers }
        ensures step { IfOk result (λ r. StepsOn self.old.code r self.old.hart self.new.hart) }
        ensures call { IfOk result (λ r. CallsOn (A.gives self.old.answers) self.old.code r self.old.hart
            self.new.hart) }
        ensures stays { IfOk result (λ r. StaysIf r self.old.hart self.new.hart) }
        ensures memory { OnErr result (self.new ≡ self.old) }
    {
        match find(&self.probable, self.code, self.hart.counter) {
            None => Ok(Stepped::Stopped(Stop::Left)),
            Some(entry) => match transfer_at(self.code, &entry) {
                Transfer::Call(callee) => self.call(&entry, callee),
                Transfer::Departure(way) => Ok(Stepped::Stopped(departure(self.code, &entry, way))),
                Transfer::Nothing => run_word(&mut self.hart, self.code, &entry),
            },
        }
    }

    /// Makes the call of the call site at the program counter, if the word there goes to its callee.
    fn call(&mut self, entry: &EncodedInstruction, callee: Callee) -> Result<Stepped, AllocError>
        requires stands { entry_at self.old.code.entries self.old.hart.counter ≡ Some entry.now }
        requires at { entry.now.address ≡ self.old.hart.counter }
        requires call { TransfersSo (Transfer.Call callee) (entry_call self.old.code.framed entry.now) None }
        ensures code { self.new.code ≡ self.old.code }
        ensures answers { self.new.answers ≡ self.old.answers }
        ensures call { IfOk result (λ r. CallsOn (A.gives self.old.answers) self.old.code r self.old.hart
            self.new.hart) }
        ensures step { IfOk result (λ r. StepsOn self.old.code r self.old.hart self.new.hart) }
        ensures stays { IfOk result (λ r. StaysIf r self.old.hart self.new.hart) }
        ensures memory { OnErr result (self.new ≡ self.old) }
    {
        let word = word_of(self.code, entry);
        let goes = goes_to(word, 1, callee);
        if goes {
            self.make_call(entry)
        } else {
            Ok(Stepped::Stopped(Stop::BadWord(word)))
        }
    }

    /// Makes the call of the call site at the program counter.
    fn make_call(&mut self, entry: &EncodedInstruction) -> Result<Stepped, AllocError>
        requires stands { entry_at self.old.code.entries self.old.hart.counter ≡ Some entry.now }
        requires at { entry.now.address ≡ self.old.hart.counter }
        requires call { IsSome (entry_call self.old.code.framed entry.now) }
        requires goes { GoesThere self.old.code entry.now }
        ensures code { self.new.code ≡ self.old.code }
        ensures answers { self.new.answers ≡ self.old.answers }
        ensures call { IfOk result (λ r. CallsOn (A.gives self.old.answers) self.old.code r self.old.hart
            self.new.hart) }
        ensures step { IfOk result (λ r. StepsOn self.old.code r self.old.hart self.new.hart) }
        ensures went { IfOk result (λ r. r ≡ Stepped.Went) }
        ensures memory { OnErr result (self.new ≡ self.old) }
    {
        let alloc = *self.probable.allocator();
        let i = call_at(self.code, entry);
        let event = self.hart.event(alloc, i)?;
        let answer = self.answers.answer(&event);
        self.hart.take(&answer, call_size(i))?;
        Ok(Stepped::Went)
    }
}

/// The initial state for the code.
fn starting_hart(alloc: Global, code: &Code, start: &Start) -> Result<Hart, AllocError>
    ensures stands { IfOk result (λ h. (s : State) → StartsCode code.now start.now s → StandsFor h s) }
    ensures entry { IfOk result (λ h. h.entry ≡ slice_index start.now.regs 2) }
    ensures area { IfOk result (λ h. h.area ≡ area_of code.now.framed.objects) }
{
    let offsets = ObjectOffsets::new(alloc, &code.framed)?;
    Ok(Hart {
        entry: start.regs[2],
        area: u64::from(code.framed.size - offsets.own),
        symbols: copy_addresses(alloc, &start.symbols)?,
        counter: code.base,
        regs: starting_registers(&start.regs),
        memory: Memory::new(alloc, start.memory.as_slice())?,
        calls: 0,
    })
}

fn starting_registers(start: &[u64; 32]) -> [u64; 32]
    ensures { (r : ℕ) → r < 32 → slice_index result r ≡ register_in (slice_index start.now) r }
{
    let mut regs = *start;
    regs[0] = 0;
    regs
}
