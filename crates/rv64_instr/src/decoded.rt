//! Instructions decoded from their opcode and operands into what they do.

ghost use Rattle.std.specs.Prelude.{IsTrue, List, ℕ};
ghost use Rattle.rv64_instr.specs.Form.{fits_registers, fits_immediate, fits_upper, fits_branch};
ghost use Rattle.rv64_instr.specs.Form.{fits_load, fits_store, fits_copy, fits_jump, fits_call, fits_held_call};
ghost use Rattle.rv64_instr.specs.Form.{fits_gone, fits_held_gone, fits_tail, fits_held_tail};
ghost use Rattle.rv64_instr.specs.Row as row;
ghost use Rattle.rv64_instr.specs.Row.{
  row_of,
  registers_row,
  number_row,
  upper_row,
  branch_row,
  load_row,
  store_row,
  copy_row,
  jump_row,
  call_row,
  held_call_row,
  tail_row,
  held_tail_row,
  gone_row,
  held_gone_row,
  implicit_uses,
  outgoing_words,
  move_row,
  add_row,
  immediate_row,
};
ghost use Rattle.rv64_instr.specs.Decoded.{Shows};

use crate::arithmetic::extend32;
use crate::instr::Instr;
use crate::op::{BranchOp, ImmediateOp, LoadOp, Op, RegisterOp, StoreOp};
use crate::operand::Operand;
use crate::reg::{Reg, zero};
use crate::symbol::{Half, LinkedAddress};
use base_ids::function_ids::{BlockId, ObjectId, SlotId};

/// The second input of an operation.
#[derive(Clone, Copy, Debug, PartialEq, Eq)]
pub enum Input {
    /// The content of a register.
    Content(Reg),
    /// A number, signed ones in two's complement.
    Number(u64),
    /// The value of a half of an address that is known when the program is linked. Which one, the operands say.
    PartOf(Half),
}

/// The base of an access's address, to which its offset is added.
#[derive(Clone, Copy, Debug, PartialEq, Eq)]
pub enum Base {
    /// The content of a register.
    PointedBy(Reg),
    /// The address of a stack object.
    ObjectAt(ObjectId),
    /// The content of a register plus the value of the lower half of an address that is known when the program is
    /// linked.
    BesidePart(Reg),
}

/// The callee of a call, without its name.
#[derive(Clone, Copy, Debug, PartialEq, Eq)]
pub enum Callee {
    /// A function that is called by its name.
    Named,
    /// The code at the address that the register holds.
    Held(Reg),
}

/// How control leaves a function.
#[derive(Clone, Copy, Debug, PartialEq, Eq)]
pub enum Way {
    /// Back to its caller.
    Back,
    /// To a callee in its place: a tail call.
    Tail(Callee),
    /// To a callee that doesn't return.
    Never(Callee),
}

/// What an instruction does, without the address of which it has a half, without the name of a callee and what is
/// passed to it, and without the results of a return. Offsets of addresses are in bytes, modulo 2^64.
#[derive(Clone, Copy, Debug, PartialEq, Eq)]
pub enum Decoded {
    /// A constant definition: sets the register to a number.
    Fixes(Reg, u64),
    /// A copy: sets the first register to the content of the second, which isn't x0.
    Moves(Reg, Reg),
    /// Sets the first register to the result of an operation on the second and the input.
    Sets(Reg, RegisterOp, Reg, Input),
    /// Sets the register to the address of a stack object plus an offset.
    Addresses(Reg, ObjectId, u64),
    /// Sets the register from memory, at a base plus an offset.
    Loads(Reg, LoadOp, Base, u64),
    /// Writes the content of the register to memory, at a base plus an offset.
    Stores(StoreOp, Reg, Base, u64),
    /// Sets the register from a frame slot.
    LoadsSlot(Reg, SlotId),
    /// Writes the content of the register to a frame slot.
    StoresSlot(Reg, SlotId),
    /// Control goes to a block if a conditional branch is taken at the contents of the two registers.
    Branches(BranchOp, Reg, Reg, BlockId),
    /// Control goes to a block.
    Jumps(BlockId),
    /// Calls a function.
    Calls(Callee),
    /// Ends the run.
    Returns(Way),
}

impl Instr {
    /// What the instruction does.
    pub fn decoded(&self) -> Decoded
        ensures row { Shows result (row_of self.now) }
    {
        decode(self)
    }
}

fn decode(i: &Instr) -> Decoded
    ensures { Shows result (row_of i.now) }
{
    let operands = i.operands.as_slice();
    match i.op {
        Op::Registers(op) => of_registers(op, operands),
        Op::Immediate(op) => of_immediate(op, operands),
        Op::Lui => of_upper(operands),
        Op::Branch(op) => of_branch(op, operands),
        Op::Load(op) => of_load(op, operands),
        Op::Store(op) => of_store(op, operands),
        Op::Copy => of_copy(operands),
        Op::PseudoBr => of_jump(operands),
        Op::PseudoCall => of_call(operands),
        Op::PseudoRet => Decoded::Returns(Way::Back),
        Op::PseudoCallIndirect => of_held_call(operands),
        Op::PseudoTail => of_tail(operands),
        Op::PseudoTailIndirect => of_held_tail(operands),
        Op::NoReturnCall => of_gone(operands),
        Op::NoReturnCallIndirect => of_held_gone(operands),
    }
}

fn of_registers(op: RegisterOp, operands: &[Operand]) -> Decoded
    requires { IsTrue (fits_registers operands.now) }
    ensures { Shows result (registers_row op operands.now) }
{
    match operands {
        [Operand::Def(rd), Operand::Use(a), Operand::Use(b), ..] => sets_by_content(
            *rd, op, *a, *b,
        ),
        _ => unreachable!(),
    }
}

fn of_immediate(op: ImmediateOp, operands: &[Operand]) -> Decoded
    requires { IsTrue (fits_immediate op operands.now) }
    ensures { Shows result (number_row op operands.now) }
{
    match operands {
        [Operand::Def(rd), Operand::Use(a), Operand::Imm(i), ..] => {
            with_number(op, *rd, *a, i.cast_unsigned())
        }
        [Operand::Def(rd), Operand::Object(n), Operand::Imm(i), ..] => {
            Decoded::Addresses(*rd, *n, i.cast_unsigned())
        }
        [
            Operand::Def(rd),
            Operand::Use(a),
            Operand::Part(Half::Lower, address),
            ..
        ] => { sets_by_part(*rd, *a, Half::Lower, address) }
        _ => unreachable!(),
    }
}

/// The operation on registers, with the number as second input; `ADDI` may be a constant definition or a copy.
fn with_number(op: ImmediateOp, rd: Reg, a: Reg, n: u64) -> Decoded
    ensures { Shows result (immediate_row op rd a n) }
{
    match op {
        ImmediateOp::Addi => add_number(rd, a, n),
        ImmediateOp::Slti => sets_by_number(rd, RegisterOp::Slt, a, n),
        ImmediateOp::Sltiu => sets_by_number(rd, RegisterOp::Sltu, a, n),
        ImmediateOp::Xori => sets_by_number(rd, RegisterOp::Xor, a, n),
        ImmediateOp::Ori => sets_by_number(rd, RegisterOp::Or, a, n),
        ImmediateOp::Andi => sets_by_number(rd, RegisterOp::And, a, n),
        ImmediateOp::Slli => sets_by_number(rd, RegisterOp::Sll, a, n),
        ImmediateOp::Srli => sets_by_number(rd, RegisterOp::Srl, a, n),
        ImmediateOp::Srai => sets_by_number(rd, RegisterOp::Sra, a, n),
        ImmediateOp::Addiw => sets_by_number(rd, RegisterOp::Addw, a, n),
        ImmediateOp::Slliw => sets_by_number(rd, RegisterOp::Sllw, a, n),
        ImmediateOp::Srliw => sets_by_number(rd, RegisterOp::Srlw, a, n),
        ImmediateOp::Sraiw => sets_by_number(rd, RegisterOp::Sraw, a, n),
    }
}

/// `ADDI rd, x0, n` sets n, and `ADDI rd, rs, 0` is a copy.
fn add_number(rd: Reg, a: Reg, n: u64) -> Decoded
    ensures { Shows result (add_row rd a n) }
{
    if a.number() == 0 {
        Decoded::Fixes(rd, n)
    } else if n == 0 {
        Decoded::Moves(rd, a)
    } else {
        sets_by_number(rd, RegisterOp::Add, a, n)
    }
}

fn sets_by_content(rd: Reg, op: RegisterOp, a: Reg, b: Reg) -> Decoded
    ensures { Shows result (row.Sets rd op a (row.Content b)) }
{
    Decoded::Sets(rd, op, a, Input::Content(b))
}

fn sets_by_number(rd: Reg, op: RegisterOp, a: Reg, n: u64) -> Decoded
    ensures { Shows result (row.Sets rd op a (row.Number n)) }
{
    Decoded::Sets(rd, op, a, Input::Number(n))
}

/// Adds the value of a half of an address. Which address, isn't decoded.
fn sets_by_part(rd: Reg, a: Reg, half: Half, _address: &LinkedAddress) -> Decoded
    ensures { Shows result (row.Sets rd RegisterOp.Add a (row.PartOf half _address.now)) }
{
    Decoded::Sets(rd, RegisterOp::Add, a, Input::PartOf(half))
}

fn of_upper(operands: &[Operand]) -> Decoded
    requires { IsTrue (fits_upper operands.now) }
    ensures { Shows result (upper_row operands.now) }
{
    match operands {
        [Operand::Def(rd), Operand::Imm(i), ..] => {
            Decoded::Fixes(*rd, extend32((*i * 4096).cast_unsigned()))
        }
        [Operand::Def(rd), Operand::Part(Half::Upper, address), ..] => sets_upper(*rd, address),
        _ => unreachable!(),
    }
}

/// Adds the value of the upper half of an address to 0.
fn sets_upper(rd: Reg, address: &LinkedAddress) -> Decoded
    ensures { Shows result (row.Sets rd RegisterOp.Add 0 (row.PartOf Half.Upper address.now)) }
{
    sets_by_part(rd, zero(), Half::Upper, address)
}

fn of_branch(op: BranchOp, operands: &[Operand]) -> Decoded
    requires { IsTrue (fits_branch operands.now) }
    ensures { Shows result (branch_row op operands.now) }
{
    match operands {
        [Operand::Use(a), Operand::Use(b), Operand::Block(target), ..] => {
            Decoded::Branches(op, *a, *b, *target)
        }
        _ => unreachable!(),
    }
}

fn of_load(op: LoadOp, operands: &[Operand]) -> Decoded
    requires { IsTrue (fits_load op operands.now) }
    ensures { Shows result (load_row op operands.now) }
{
    match operands {
        [Operand::Def(rd), Operand::Use(base), Operand::Imm(i), ..] => {
            loads_at(*rd, op, *base, i.cast_unsigned())
        }
        [Operand::Def(rd), Operand::Slot(n), ..] => { Decoded::LoadsSlot(*rd, *n) }
        [Operand::Def(rd), Operand::Object(n), Operand::Imm(i), ..] => {
            loads_in(*rd, op, *n, i.cast_unsigned())
        }
        [
            Operand::Def(rd),
            Operand::Use(base),
            Operand::Part(Half::Lower, address),
            ..
        ] => { loads_beside(*rd, op, *base, address) }
        _ => unreachable!(),
    }
}

fn loads_at(rd: Reg, op: LoadOp, base: Reg, offset: u64) -> Decoded
    ensures { Shows result (row.Loads rd op (row.PointedBy base) offset) }
{
    Decoded::Loads(rd, op, Base::PointedBy(base), offset)
}

fn loads_in(rd: Reg, op: LoadOp, n: ObjectId, offset: u64) -> Decoded
    ensures { Shows result (row.Loads rd op (row.ObjectAt n) offset) }
{
    Decoded::Loads(rd, op, Base::ObjectAt(n), offset)
}

fn loads_beside(rd: Reg, op: LoadOp, base: Reg, _address: &LinkedAddress) -> Decoded
    ensures { Shows result (row.Loads rd op (row.BesidePart base _address.now) 0) }
{
    Decoded::Loads(rd, op, Base::BesidePart(base), 0)
}

fn of_store(op: StoreOp, operands: &[Operand]) -> Decoded
    requires { IsTrue (fits_store op operands.now) }
    ensures { Shows result (store_row op operands.now) }
{
    match operands {
        [Operand::Use(rs), Operand::Use(base), Operand::Imm(i), ..] => {
            stores_at(op, *rs, *base, i.cast_unsigned())
        }
        [Operand::Use(rs), Operand::Slot(n), ..] => { Decoded::StoresSlot(*rs, *n) }
        [Operand::Use(rs), Operand::Object(n), Operand::Imm(i), ..] => {
            stores_in(op, *rs, *n, i.cast_unsigned())
        }
        [
            Operand::Use(rs),
            Operand::Use(base),
            Operand::Part(Half::Lower, address),
            ..
        ] => { stores_beside(op, *rs, *base, address) }
        _ => unreachable!(),
    }
}

fn stores_at(op: StoreOp, rs: Reg, base: Reg, offset: u64) -> Decoded
    ensures { Shows result (row.Stores op rs (row.PointedBy base) offset) }
{
    Decoded::Stores(op, rs, Base::PointedBy(base), offset)
}

fn stores_in(op: StoreOp, rs: Reg, n: ObjectId, offset: u64) -> Decoded
    ensures { Shows result (row.Stores op rs (row.ObjectAt n) offset) }
{
    Decoded::Stores(op, rs, Base::ObjectAt(n), offset)
}

fn stores_beside(op: StoreOp, rs: Reg, base: Reg, _address: &LinkedAddress) -> Decoded
    ensures { Shows result (row.Stores op rs (row.BesidePart base _address.now) 0) }
{
    Decoded::Stores(op, rs, Base::BesidePart(base), 0)
}

fn of_copy(operands: &[Operand]) -> Decoded
    requires { IsTrue (fits_copy operands.now) }
    ensures { Shows result (copy_row operands.now) }
{
    match operands {
        [Operand::Def(rd), Operand::Use(rs), ..] => { copy_of(*rd, *rs) }
        _ => unreachable!(),
    }
}

/// A copy from x0 sets 0.
fn copy_of(rd: Reg, rs: Reg) -> Decoded
    ensures { Shows result (move_row rd rs) }
{
    if rs.number() == 0 {
        Decoded::Fixes(rd, 0)
    } else {
        Decoded::Moves(rd, rs)
    }
}

fn of_jump(operands: &[Operand]) -> Decoded
    requires { IsTrue (fits_jump operands.now) }
    ensures { Shows result (jump_row operands.now) }
{
    match operands {
        [Operand::Block(target), ..] => { Decoded::Jumps(*target) }
        _ => unreachable!(),
    }
}

fn of_call(operands: &[Operand]) -> Decoded
    requires { IsTrue (fits_call operands.now) }
    ensures { Shows result (call_row operands.now) }
{
    match operands {
        [Operand::Symbol(_), Operand::Mask, ..] => { Decoded::Calls(Callee::Named) }
        _ => unreachable!(),
    }
}

fn of_held_call(operands: &[Operand]) -> Decoded
    requires { IsTrue (fits_held_call operands.now) }
    ensures { Shows result (held_call_row operands.now) }
{
    match operands {
        [Operand::Use(r), rest @ ..] => calls_held(*r, rest),
        _ => unreachable!(),
    }
}

fn of_tail(operands: &[Operand]) -> Decoded
    requires { IsTrue (fits_tail operands.now) }
    ensures { Shows result (tail_row operands.now) }
{
    match operands {
        [Operand::Symbol(_), ..] => { Decoded::Returns(Way::Tail(Callee::Named)) }
        _ => unreachable!(),
    }
}

fn of_held_tail(operands: &[Operand]) -> Decoded
    requires { IsTrue (fits_held_tail operands.now) }
    ensures { Shows result (held_tail_row operands.now) }
{
    match operands {
        [Operand::ImplicitUse(r), ..] => {
            // x2 is no callee
            if r.number() == 2 {
                unreachable!()
            } else {
                tails_held(*r)
            }
        }
        _ => unreachable!(),
    }
}

fn of_gone(operands: &[Operand]) -> Decoded
    requires { IsTrue (fits_gone operands.now) }
    ensures { Shows result (gone_row operands.now) }
{
    match operands {
        [Operand::Symbol(_), Operand::Mask, ..] => { Decoded::Returns(Way::Never(Callee::Named)) }
        _ => unreachable!(),
    }
}

fn of_held_gone(operands: &[Operand]) -> Decoded
    requires { IsTrue (fits_held_gone operands.now) }
    ensures { Shows result (held_gone_row operands.now) }
{
    match operands {
        [Operand::ImplicitUse(r), Operand::Mask, ..] => {
            // x2 is no callee
            if r.number() == 2 {
                unreachable!()
            } else {
                gone_held(*r)
            }
        }
        _ => unreachable!(),
    }
}

/// What is passed isn't decoded.
fn calls_held(r: Reg, _rest: &[Operand]) -> Decoded
    ensures { Shows result (row.Calls (record {
      callee = row.Held r;
      args = implicit_uses _rest.now;
      outgoing = outgoing_words _rest.now;
    })) }
{
    Decoded::Calls(Callee::Held(r))
}

fn tails_held(r: Reg) -> Decoded
    ensures { (values : List ℕ) → Shows result (row.Returns (record { way = row.Tail (row.Held r); values = values })) }
{
    Decoded::Returns(Way::Tail(Callee::Held(r)))
}

fn gone_held(r: Reg) -> Decoded
    ensures { (values : List ℕ) →
        Shows result (row.Returns (record { way = row.Never (row.Held r); values = values })) }
{
    Decoded::Returns(Way::Never(Callee::Held(r)))
}
