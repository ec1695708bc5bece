//! The effect of code on registers, frame slots and memory.

ghost use Rattle.std.specs.Prelude.{◌≡◌, ◌≤◌, ◌++◌, All, IfOk, OnErr, Option, Some, length};
ghost use Rattle.std.specs.Option.{option_copied};
ghost use Rattle.rv64_instr.specs.Row as row;
ghost use Rattle.rv64_instr.specs.Row.{CallSite, Ending, row_of, implicit_uses, outgoing_words};
ghost use Rattle.rv64_instr.specs.DefsAndUses.{callee_reads, way_reads};
ghost use Rattle.rv64_instr.specs.declared.start.CallResult.{CallResult};
ghost use Rattle.mir_func.specs.Limits.{MAX_SLOTS};
ghost use Rattle.mir_func.specs.Objects.{AreLaid};
ghost use Rattle.mir_func.specs.Sound.{IsSoundObject};
ghost use Rattle.sem_mir.specs.State.{Core};
ghost use Rattle.sem_mir.specs.Step.{are_written, is_fault, loaded, object_address, put_in_memory};
ghost use Rattle.rv64_instr.specs.Decoded.{ShowsBase, ShowsCallee};
ghost use Rattle.rv64_instr.specs.Linked.{addresses_in, linked_value};
ghost use Rattle.rv64_instr.specs.declared.symbol.LinkedAddress.{LinkedAddress};
ghost use Rattle.sem_interpreter.specs.Acts.{Acts, AddressHolds, Does, InputHolds, IsBase, IsInput};
ghost use Rattle.sem_interpreter.specs.Acts.{MachineHolds, StartsMachine, Takes};

use crate::frame::{touches_frame, writes_frame};
use crate::memory::Memory;
use crate::objects::Offsets;
use crate::registers::Registers;
use crate::slots::Slots;
use base_ids::function_ids::{BlockId, ObjectId, SlotId};
use mir_func::object::{Object, area};
use rv64_instr::arithmetic::{compute, extend, is_taken, load_width, store_width};
use rv64_instr::decoded::{Base, Callee, Decoded, Input};
use rv64_instr::instr::Instr;
use rv64_instr::linked::linked_value;
use rv64_instr::op::{BranchOp, LoadOp, RegisterOp, StoreOp};
use rv64_instr::operand::Operand;
use rv64_instr::reg::Reg;
use rv64_instr::start::{CallResult, Start};
use rv64_instr::symbol::{Half, LinkedAddress, SymbolAddresses, copy_addresses};
use std::alloc::{AllocError, Global};

/// What code reads and writes: registers, frame slots and memory, and the offsets of stack objects.
#[derive(Drop)]
pub struct InterpreterState {
    /// The stack pointer at entry.
    pub entry: u64,
    /// How many bytes right below it the stack objects take.
    pub area: u64,
    /// The offset of each object from the lowest of these bytes.
    pub objects: Offsets,
    /// The addresses of symbols.
    pub symbols: SymbolAddresses,
    pub registers: Registers,
    pub slots: Slots,
    pub memory: Memory,
}

/// The outcome of an item.
#[derive(Clone, Copy, Debug, PartialEq, Eq)]
pub enum Outcome {
    /// Control goes on to the item below.
    Falls,
    /// Control goes to the block of this number.
    Goes(BlockId),
    /// It ends the run.
    Returns,
    /// The run stops on a frame fault.
    Faults,
    /// The run waits for the answer to its call.
    Waits,
}

impl InterpreterState {
    /// The machine at the start of a run of a function with these stack objects.
    pub fn new(
        alloc: Global,
        stack: &[Object],
        start: &Start,
    ) -> Result<InterpreterState, AllocError>
        requires few { length stack.now ≤ MAX_SLOTS }
        requires each { All IsSoundObject stack.now }
        requires laid { AreLaid stack.now }
        ensures { IfOk result (λ made. StartsMachine stack.now start.now made) }
    {
        Ok(InterpreterState {
            entry: start.regs[2],
            area: area(stack),
            objects: Offsets::new(alloc, stack)?,
            symbols: copy_addresses(alloc, &start.symbols)?,
            registers: Registers::new(alloc, &start.regs)?,
            slots: Slots::new(alloc),
            memory: Memory::new(alloc, start.memory.as_slice())?,
        })
    }

    /// Executes an instruction. If it doesn't go on, as a call without an answer, or if memory runs out, nothing
    /// changes.
    pub fn act(&mut self, i: &Instr, answer: Option<&CallResult>) -> Result<Outcome, AllocError>
        ensures ok { IfOk result (λ o. Acts (row_of i.now) (option_copied answer.entry) o self.old self.new) }
        ensures err { OnErr result (self.new ≡ self.old) }
    {
        match i.decoded() {
            Decoded::Fixes(rd, n) => Ok(self.set(rd, n)),
            Decoded::Moves(rd, rs) => Ok(self.copy(rd, rs)),
            Decoded::Sets(rd, op, a, b) => Ok(self.compute(rd, op, a, b, i.linked_address())),
            Decoded::Addresses(rd, n, offset) => Ok(self.address_of(rd, n, offset)),
            Decoded::Loads(rd, op, base, offset) => {
                Ok(self.load(rd, op, base, offset, i.linked_address()))
            }
            Decoded::Stores(op, rs, base, offset) => {
                self.store(op, rs, base, offset, i.linked_address())
            }
            Decoded::LoadsSlot(rd, n) => Ok(self.load_slot(rd, n)),
            Decoded::StoresSlot(rs, n) => self.store_slot(rs, n),
            Decoded::Branches(op, a, b, target) => Ok(self.branch(op, a, b, target)),
            Decoded::Jumps(target) => Ok(Outcome::Goes(target)),
            Decoded::Calls(callee) => self.call(callee, i.operands.as_slice(), answer),
            Decoded::Returns(_) => Ok(self.finish(i.operands.as_slice())),
        }
    }

    fn set(&mut self, rd: Reg, n: u64) -> Outcome
        ensures { (answer : Option CallResult) → Acts (row.Fixes rd n) answer result self.old self.new }
    {
        self.registers.write(rd, n);
        Outcome::Falls
    }

    fn copy(&mut self, rd: Reg, rs: Reg) -> Outcome
        ensures { (answer : Option CallResult) → Acts (row.Moves rd rs) answer result self.old self.new }
    {
        match self.registers.read(rs) {
            Some(value) => {
                self.registers.write(rd, value);
                Outcome::Falls
            }
            None => Outcome::Faults,
        }
    }

    /// An operation. `linked` is the address of which the input is a half, if it is one.
    fn compute(
        &mut self,
        rd: Reg,
        op: RegisterOp,
        a: Reg,
        b: Input,
        linked: Option<&LinkedAddress>,
    ) -> Outcome
        ensures { (x : row.Input) → IsInput b (option_copied linked.entry) x → (answer : Option CallResult)
            → Acts (row.Sets rd op a x) answer result self.old self.new }
    {
        let Some(x) = self.registers.read(a) else {
            return Outcome::Faults;
        };
        let Some(y) = self.input(b, linked) else {
            return Outcome::Faults;
        };
        self.registers.write(rd, compute(op, x, y));
        Outcome::Falls
    }

    /// The value of an operation's second input, if what it reads is written.
    fn input(&self, input: Input, linked: Option<&LinkedAddress>) -> Option<u64>
        ensures { (x : row.Input) → IsInput input (option_copied linked.entry) x
            → (s : Core) → MachineHolds self.now s → InputHolds s x result }
    {
        match input {
            Input::Content(r) => self.registers.read(r),
            Input::Number(n) => Some(n),
            Input::PartOf(half) => self.part(half, linked),
        }
    }

    /// The value of a half of an address.
    fn part(&self, half: Half, linked: Option<&LinkedAddress>) -> Option<u64>
        ensures { (y : LinkedAddress) → Some y ≡ option_copied linked.entry
            → result ≡ Some (linked_value (addresses_in self.now.symbols) half y) }
    {
        match linked {
            Some(address) => Some(linked_value(&self.symbols, half, address)),
            None => None,
        }
    }

    fn address_of(&mut self, rd: Reg, n: ObjectId, offset: u64) -> Outcome
        ensures { (answer : Option CallResult) → Acts (row.Addresses rd n offset) answer result self.old self.new }
    {
        let address = self.object_address(n).wrapping_add(offset);
        self.registers.write(rd, address);
        Outcome::Falls
    }

    /// The address of a stack object. Addresses wrap at 64 bits.
    fn object_address(&self, n: ObjectId) -> u64
        ensures { (s : Core) → MachineHolds self.now s → result ≡ object_address s n }
    {
        self.entry
            .wrapping_sub(self.area)
            .wrapping_add(self.objects.of(n))
    }

    /// The address of an access, if what it reads is written.
    fn address(&self, base: &Base, offset: u64, linked: Option<&LinkedAddress>) -> Option<u64>
        ensures { (x : row.Base) → IsBase base.now (option_copied linked.entry) x
            → (s : Core) → MachineHolds self.now s → AddressHolds s x offset result }
    {
        match base {
            Base::PointedBy(r) => self.pointed(*r, offset),
            Base::ObjectAt(n) => self.in_object(*n, offset),
            Base::BesidePart(r) => self.beside(*r, offset, self.part(Half::Lower, linked)),
        }
    }

    /// The address behind the content of a register.
    fn pointed(&self, r: Reg, offset: u64) -> Option<u64>
        ensures { (s : Core) → MachineHolds self.now s → AddressHolds s (row.PointedBy r) offset result }
    {
        match self.registers.read(r) {
            Some(b) => Some(b.wrapping_add(offset)),
            None => None,
        }
    }

    /// The address behind the beginning of a stack object.
    fn in_object(&self, n: ObjectId, offset: u64) -> Option<u64>
        ensures { (s : Core) → MachineHolds self.now s → AddressHolds s (row.ObjectAt n) offset result }
    {
        Some(self.object_address(n).wrapping_add(offset))
    }

    /// The address behind the content of a register plus the value of a half.
    fn beside(&self, r: Reg, offset: u64, part: Option<u64>) -> Option<u64>
        ensures { (y : LinkedAddress) → part ≡ Some (linked_value (addresses_in self.now.symbols) Half.Lower y)
            → (s : Core) → MachineHolds self.now s → AddressHolds s (row.BesidePart r y) offset result }
    {
        match part {
            Some(value) => self.behind(r, value, offset),
            None => None,
        }
    }

    /// The address behind the content of a register plus a number.
    fn behind(&self, r: Reg, value: u64, offset: u64) -> Option<u64>
        ensures { (y : LinkedAddress) → value ≡ linked_value (addresses_in self.now.symbols) Half.Lower y
            → (s : Core) → MachineHolds self.now s → AddressHolds s (row.BesidePart r y) offset result }
    {
        match self.registers.read(r) {
            Some(b) => Some(b.wrapping_add(value).wrapping_add(offset)),
            None => None,
        }
    }

    /// Whether an access touches the frame. An access by a stack object is no frame fault.
    fn is_fault(&self, base: &Base, address: u64, count: usize) -> bool
        ensures { (x : row.Base) → ShowsBase base.now x
            → (s : Core) → MachineHolds self.now s → result ≡ is_fault x s address count }
    {
        match base {
            Base::PointedBy(_) | Base::BesidePart(_) => {
                touches_frame(self.entry, self.area, address, count)
            }
            Base::ObjectAt(_) => false,
        }
    }

    /// A load. `linked` is the address beside whose lower half it is, if it is so.
    fn load(
        &mut self,
        rd: Reg,
        op: LoadOp,
        base: Base,
        offset: u64,
        linked: Option<&LinkedAddress>,
    ) -> Outcome
        ensures { (x : row.Base) → IsBase base (option_copied linked.entry) x → (answer : Option CallResult)
            → Acts (row.Loads rd op x offset) answer result self.old self.new }
    {
        match self.address(&base, offset, linked) {
            Some(address) => self.load_from(rd, op, &base, address),
            None => Outcome::Faults,
        }
    }

    fn load_from(&mut self, rd: Reg, op: LoadOp, base: &Base, address: u64) -> Outcome
        ensures { (x : row.Base) → ShowsBase base.now x → Does (loaded rd op x address) result self.old self.new }
    {
        let count = load_width(op);
        if self.is_fault(base, address, count) {
            return Outcome::Faults;
        }
        self.registers
            .write(rd, extend(op, self.memory.spelled(address, count)));
        Outcome::Falls
    }

    /// A store. `linked` is the address beside whose lower half it is, if it is so.
    fn store(
        &mut self,
        op: StoreOp,
        rs: Reg,
        base: Base,
        offset: u64,
        linked: Option<&LinkedAddress>,
    ) -> Result<Outcome, AllocError>
        ensures ok { IfOk result (λ o. (x : row.Base) → IsBase base (option_copied linked.entry) x
            → (answer : Option CallResult) → Acts (row.Stores op rs x offset) answer o self.old self.new) }
        ensures err { OnErr result (self.new ≡ self.old) }
    {
        let Some(value) = self.registers.read(rs) else {
            return Ok(Outcome::Faults);
        };
        let Some(address) = self.address(&base, offset, linked) else {
            return Ok(Outcome::Faults);
        };
        self.store_to(op, &base, address, value)
    }

    fn store_to(
        &mut self,
        op: StoreOp,
        base: &Base,
        address: u64,
        value: u64,
    ) -> Result<Outcome, AllocError>
        ensures ok { IfOk result (λ o. (x : row.Base) → ShowsBase base.now x
            → Does (put_in_memory op x address value) o self.old self.new) }
        ensures err { OnErr result (self.new ≡ self.old) }
    {
        let count = store_width(op);
        if self.is_fault(base, address, count) {
            return Ok(Outcome::Faults);
        }
        self.memory.store(address, count, value)?;
        Ok(Outcome::Falls)
    }

    fn load_slot(&mut self, rd: Reg, slot: SlotId) -> Outcome
        ensures { (answer : Option CallResult) → Acts (row.LoadsSlot rd slot) answer result self.old self.new }
    {
        match self.slots.read(slot) {
            Some(value) => {
                self.registers.write(rd, value);
                Outcome::Falls
            }
            None => Outcome::Faults,
        }
    }

    fn store_slot(&mut self, rs: Reg, slot: SlotId) -> Result<Outcome, AllocError>
        ensures ok { IfOk result (λ o. (answer : Option CallResult)
            → Acts (row.StoresSlot rs slot) answer o self.old self.new) }
        ensures err { OnErr result (self.new ≡ self.old) }
    {
        match self.registers.read(rs) {
            Some(value) => {
                self.slots.write(slot, value)?;
                Ok(Outcome::Falls)
            }
            None => Ok(Outcome::Faults),
        }
    }

    fn branch(&self, op: BranchOp, a: Reg, b: Reg, target: BlockId) -> Outcome
        ensures { (answer : Option CallResult) → Acts (row.Branches op a b target) answer result self.now self.now }
    {
        let Some(x) = self.registers.read(a) else {
            return Outcome::Faults;
        };
        let Some(y) = self.registers.read(b) else {
            return Outcome::Faults;
        };
        if is_taken(op, x, y) {
            Outcome::Goes(target)
        } else {
            Outcome::Falls
        }
    }

    fn call(
        &mut self,
        callee: Callee,
        operands: &[Operand],
        answer: Option<&CallResult>,
    ) -> Result<Outcome, AllocError>
        ensures ok { IfOk result (λ o. (call : CallSite) → ShowsCallee callee call.callee
            → call.args ≡ implicit_uses operands.now
            → call.outgoing ≡ outgoing_words operands.now
            → Acts (row.Calls call) (option_copied answer.entry) o self.old self.new) }
        ensures err { OnErr result (self.new ≡ self.old) }
    {
        if !self.may_call(callee, operands) {
            return Ok(Outcome::Faults);
        }
        match answer {
            Some(given) => self.take(operands, given),
            None => Ok(Outcome::Waits),
        }
    }

    /// The effect of a call's answer. The callee owns the slots that are passed to it.
    fn take(&mut self, operands: &[Operand], answer: &CallResult) -> Result<Outcome, AllocError>
        ensures ok { IfOk result (λ o. Takes (outgoing_words operands.now) answer.now o self.old self.new) }
        ensures err { OnErr result (self.new ≡ self.old) }
    {
        if !self.slots.are_passed(operands) {
            return Ok(Outcome::Faults);
        }
        if writes_frame(self.entry, self.area, &answer.writes) {
            return Ok(Outcome::Faults);
        }
        self.memory.write(&answer.writes)?;
        self.registers.write_caller_saved(&answer.regs);
        self.slots.clear_passed(operands);
        Ok(Outcome::Falls)
    }

    fn finish(&self, operands: &[Operand]) -> Outcome
        ensures { (ending : Ending row.Callee) → way_reads ending.way ++ ending.values ≡ implicit_uses operands.now
            → (answer : Option CallResult) → Acts (row.Returns ending) answer result self.now self.now }
    {
        if self.are_written(operands) {
            Outcome::Returns
        } else {
            Outcome::Faults
        }
    }

    /// Whether the registers of the callee and of the implicit uses, without x2, are written.
    fn may_call(&self, callee: Callee, operands: &[Operand]) -> bool
        ensures { (c : row.Callee) → ShowsCallee callee c → (s : Core) → MachineHolds self.now s
            → result ≡ are_written s (callee_reads c ++ implicit_uses operands.now) }
    {
        self.is_known(callee) && self.are_written(operands)
    }

    /// Whether the callee's register is written.
    fn is_known(&self, callee: Callee) -> bool
        ensures { (c : row.Callee) → ShowsCallee callee c → (s : Core) → MachineHolds self.now s
            → result ≡ are_written s (callee_reads c) }
    {
        match callee {
            Callee::Named => true,
            Callee::Held(r) => self.registers.read(r).is_some(),
        }
    }

    /// Whether the registers of the implicit uses, without x2, are written.
    fn are_written(&self, operands: &[Operand]) -> bool
        ensures { (s : Core) → MachineHolds self.now s
            → result ≡ are_written s (implicit_uses operands.now) }
    {
        for operand in operands {
            if let Operand::ImplicitUse(r) = operand {
                if r.number() != 2 && self.registers.read(*r).is_none() {
                    return false;
                }
            }
        }
        true
    }
}
