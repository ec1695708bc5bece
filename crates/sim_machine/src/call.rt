//! Calls: their events, and the effects of their answers.

ghost use Rattle.std.specs.Prelude.{◌≡◌, ◌<◌, ◌≤◌, ◌+◌, ◌^◌, ◌++◌, true, List, All, Some, map, IfOk, OnOk, OnErr};
ghost use Rattle.rv64_instr.specs.DefsAndUses.{caller_saved};
ghost use Rattle.rv64_instr.specs.LocationEffects.{is_call};
ghost use Rattle.rv64_instr.specs.Row.{CallSite, Callee, Ending, row_of, implicit_uses, outgoing_words};
ghost use Rattle.mir_func.specs.SoundFrame.{IsPhysical};
ghost use Rattle.sem_mir.specs.State.{Reply};
ghost use Rattle.sem_interpreter.specs.Acts.{reply_of};
ghost use Rattle.sem_machine.specs.Machine.{Machine, register, set_all_in};
ghost use Rattle.sem_machine.specs.MachineStep.{call_of, called_at, callee_size, left_by, words_from};
ghost use Rattle.sim_machine.specs.Kept.{StandsFor, IsSameFrame};
ghost use Rattle.sim_machine.specs.Calls.{event_of, after_call};
ghost use Rattle.sim_machine.specs.Departures.{is_leaving, way_target};
ghost use Rattle.sim_machine.specs.steps.Arguments.{argument_of, word_of, callee_named, NamesCallee};

use crate::hart::Hart;
use base_ids::function_ids::SlotId;
use rv64_instr::effects::CALLER_SAVED;
use rv64_instr::instr::Instr;
use rv64_instr::operand::Operand;
use rv64_instr::start::{CallEvent, CallResult, CallTarget, Values};
use std::alloc::{AllocError, Global};

impl Hart {
    /// The event of a call: what it calls, and the contents of the registers and the words on the stack that it passes.
    pub fn event(&self, alloc: Global, i: &Instr) -> Result<CallEvent, AllocError>
        requires call { is_call (row_of i.now) ≡ true }
        requires physical { All IsPhysical i.now.operands }
        ensures { IfOk result (λ e. (s : Machine) (site : CallSite) → StandsFor self.now s
            → call_of (row_of i.now) ≡ Some site → e ≡ event_of site s) }
    {
        match i.operands.as_slice().split_first() {
            Some((first, rest)) => {
                let target = self.target(first)?;
                let args = self.passed(alloc, rest)?;
                Ok(CallEvent {
                    target,
                    args,
                    number: self.calls.wrapping_add(1),
                })
            }
            None => unreachable!(),
        }
    }

    /// What an instruction leaves the function for.
    pub fn left_for(&self, i: &Instr) -> Result<CallTarget, AllocError>
        requires { is_leaving i.now.op ≡ true }
        ensures { IfOk result (λ t. (s : Machine) (ending : Ending Callee) → StandsFor self.now s
            → left_by (row_of i.now) ≡ Some ending → Some t ≡ way_target s ending.way) }
    {
        match i.operands.as_slice().split_first() {
            Some((first, _rest)) => self.target(first),
            None => unreachable!(),
        }
    }

    /// What is called where a call's first operand is this one.
    fn target(&self, callee: &Operand) -> Result<CallTarget, AllocError>
        requires { NamesCallee callee.now }
        ensures { IfOk result (λ t. (s : Machine) (c : Callee) → StandsFor self.now s
            → callee_named callee.now ≡ Some c → t ≡ called_at s c) }
    {
        match callee {
            Operand::Symbol(name) => Ok(CallTarget::Function(name.copy()?)),
            Operand::Use(r) | Operand::ImplicitUse(r) => {
                Ok(CallTarget::Address(self.read(r.number())))
            }
            _ => unreachable!(),
        }
    }

    /// The values that a call with these operands behind its callee passes.
    fn passed(&self, alloc: Global, operands: &[Operand]) -> Result<Values, AllocError>
        requires { All (λ r. r < 32) (implicit_uses operands.now) }
        ensures { IfOk result (λ values. (s : Machine) → StandsFor self.now s
            → values ≡ map (register s) (implicit_uses operands.now)
            ++ words_from s 0 (outgoing_words operands.now)) }
    {
        let mut values = self.arguments(alloc, operands)?;
        let words = self.words(alloc, operands)?;
        values.extend_from_slice(words.as_slice())?;
        Ok(values)
    }

    /// The words from x2 on, as many as operands pass slots.
    fn words(&self, alloc: Global, operands: &[Operand]) -> Result<Values, AllocError>
        ensures { IfOk result (λ values. (s : Machine) → StandsFor self.now s
            → values ≡ words_from s 0 (outgoing_words operands.now)) }
    {
        let mut values = Values::new(alloc);
        let mut offset: u64 = 0;
        for operand in operands {
            if let Some(_) = word(operand) {
                values.push(self.word_at(offset))?;
                offset = offset.wrapping_add(8);
            }
        }
        Ok(values)
    }

    /// The contents of the registers that operands use implicitly, except x2.
    fn arguments(&self, alloc: Global, operands: &[Operand]) -> Result<Values, AllocError>
        requires { All (λ r. r < 32) (implicit_uses operands.now) }
        ensures { IfOk result (λ values. (s : Machine) → StandsFor self.now s
            → values ≡ map (register s) (implicit_uses operands.now)) }
    {
        let mut values = Values::new(alloc);
        for operand in operands {
            if let Some(r) = argument(operand) {
                values.push(self.read(r))?;
            }
        }
        Ok(values)
    }

    /// Applies the effects of an answer, and advances the program counter past a call of so many bytes. If memory runs
    /// out nothing changes.
    pub fn take(&mut self, answer: &CallResult, size: u64) -> Result<(), AllocError>
        requires low { self.old.counter < 2 ^ 63 }
        requires few { size ≤ 8 }
        ensures ok { OnOk result ((s : Machine) (site : CallSite) (rest : List Reply) → StandsFor self.old s
            → size ≡ callee_size site.callee → StandsFor self.new (after_call site (reply_of answer.now) rest s)) }
        ensures err { OnErr result (self.new ≡ self.old) }
        ensures same { IsSameFrame self.old self.new }
    {
        self.memory.write(&answer.writes)?;
        self.set_caller_saved(&answer.regs);
        self.counter += size;
        self.calls = self.calls.wrapping_add(1);
        Ok(())
    }

    /// Sets the caller-saved registers, in ascending order.
    fn set_caller_saved(&mut self, values: &[u64; 16])
        ensures stands { (s : Machine) → StandsFor self.old s
            → StandsFor self.new (record s { regs = set_all_in caller_saved values.now s.regs }) }
        ensures counter { self.new.counter ≡ self.old.counter }
        ensures same { IsSameFrame self.old self.new }
    {
        for i in 0..16 {
            self.write(CALLER_SAVED[i], values[i]);
        }
    }
}

/// The slot that an operand passes.
fn word(operand: &Operand) -> Option<SlotId>
    ensures { result ≡ word_of operand.now }
{
    match operand {
        Operand::Outgoing(n) => Some(*n),
        _ => None,
    }
}

/// The register that an operand uses implicitly, except x2.
fn argument(operand: &Operand) -> Option<u32>
    ensures { result ≡ argument_of operand.now }
{
    match operand {
        Operand::ImplicitUse(r) => {
            if r.number() == 2 {
                None
            } else {
                Some(r.number())
            }
        }
        _ => None,
    }
}
