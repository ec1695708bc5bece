//! Lowering of instructions to machine operations.

ghost use Rattle.std.specs.Prelude.{◌≡◌, ℕ, pos, Some, IsTrue, IfSome};
ghost use Rattle.rv64_instr.specs.Form.{
  has_form,
  fits_registers,
  fits_immediate,
  is_addi,
  fits_upper,
  fits_branch,
  fits_load,
  fits_store,
  fits_copy,
  fits_jump,
  fits_held_call,
  fits_held_gone,
  fits_held_tail,
};
ghost use Rattle.rv64_instr.specs.Decoded.{Shows, ShowsBase};
ghost use Rattle.rv64_instr.specs.Row as row;
ghost use Rattle.rv64_instr.specs.Row.{Row, row_of, implicit_uses};
ghost use Rattle.rv64_word.specs.MachineOp.{is_encodable};
ghost use Rattle.rv64_word.specs.MachineRow.{machine_row, placed, at_offset};
ghost use Rattle.rv64_instr.specs.LocationEffects.{object_named, base_object};
ghost use Rattle.rv64_word.specs.Lowering.{
  lowered,
  fields_of,
  register_fields,
  immediate_fields,
  object_fields,
  upper_fields,
  branch_fields,
  load_fields,
  store_fields,
  copy_fields,
  jump_fields,
  held_call_fields,
  held_fields,
  in_range,
  machine_op,
};

use crate::machine_op::MachineOp;
use crate::word_op::WordOp;
use rv64_instr::base_ids_crate::function_ids::ObjectId;
use rv64_instr::decoded::{Base, Decoded};
use rv64_instr::instr::Instr;
use rv64_instr::op::{BranchOp, ImmediateOp, LoadOp, Op, RegisterOp, StoreOp};
use rv64_instr::operand::Operand;

/// The machine operation of an instruction that has one word. `offset` is that of a branch's target from the
/// instruction's own address in bytes, and `object` that from x2 in bytes of the stack object that it names, by
/// `object_named`; each is unused elsewhere. A frame slot's number is its offset from x2 in bytes. `None` for a call
/// by name, which has two words, and if a register is virtual, or an offset doesn't fit its format. It takes no memory.
pub fn lower(i: &Instr, offset: i64, object: u32) -> Option<MachineOp>
    ensures value { result ≡ lowered offset object i.now }
    ensures encodable { IfSome result (λ m. IsTrue (is_encodable m)) }
    // The word does at any address what the instruction does, with its target and its stack object at their offsets.
    // Until the program is linked it has 0 for a half of an address.
    ensures row { IfSome result
        (λ m. (address : ℕ) → machine_row address m ≡ placed (at_offset address offset) object (pos 0) (row_of i.now)) }
{
    in_fields(i, offset, object)
}

/// The stack object that an instruction names, and `None` exactly if it names none. It takes no memory.
pub fn object_named(i: &Instr) -> Option<ObjectId>
    ensures { result ≡ object_named (row_of i.now) }
{
    object_shown(i.decoded())
}

fn object_shown(row: Decoded) -> Option<ObjectId>
    ensures { (r : Row) → Shows row r → result ≡ object_named r }
{
    match row {
        Decoded::Addresses(_, n, _) => Some(n),
        Decoded::Loads(_, _, base, _) => base_object(base),
        Decoded::Stores(_, _, base, _) => base_object(base),
        Decoded::Fixes(_, _)
        | Decoded::Moves(_, _)
        | Decoded::Sets(_, _, _, _)
        | Decoded::LoadsSlot(_, _)
        | Decoded::StoresSlot(_, _)
        | Decoded::Branches(_, _, _, _)
        | Decoded::Jumps(_)
        | Decoded::Calls(_)
        | Decoded::Returns(_) => None,
    }
}

fn base_object(base: Base) -> Option<ObjectId>
    ensures { (b : row.Base) → ShowsBase base b → result ≡ base_object b }
{
    match base {
        Base::PointedBy(_) | Base::BesidePart(_) => None,
        Base::ObjectAt(n) => Some(n),
    }
}

fn in_fields(i: &Instr, offset: i64, object: u32) -> Option<MachineOp>
    ensures { result ≡ lowered offset object i.now }
{
    in_range(fields(i.op, i.operands.as_slice(), offset, object)?)
}

/// The operation if its fields are in range.
fn in_range(m: MachineOp) -> Option<MachineOp>
    ensures { result ≡ in_range m }
{
    if m.is_encodable() { Some(m) } else { None }
}

fn fields(op: Op, operands: &[Operand], offset: i64, object: u32) -> Option<MachineOp>
    requires { IsTrue (has_form op operands.now) }
    ensures { result ≡ fields_of op operands.now offset object }
{
    match op {
        Op::Registers(op) => Some(of_registers(op, operands)),
        Op::Immediate(op) => Some(of_immediate(op, operands, object)),
        Op::Lui => Some(of_upper(operands)),
        Op::Branch(op) => Some(of_branch(op, operands, offset)),
        Op::Load(op) => Some(of_load(op, operands, object)),
        Op::Store(op) => Some(of_store(op, operands, object)),
        Op::Copy => Some(of_copy(operands)),
        Op::PseudoBr => Some(of_jump(operands, offset)),
        Op::PseudoCall | Op::PseudoTail | Op::NoReturnCall => None,
        Op::PseudoRet => Some(machine_op(WordOp::Jalr, 0, 1, 0, 0)),
        Op::PseudoCallIndirect => Some(of_held_call(operands)),
        Op::NoReturnCallIndirect => Some(of_held_gone(operands)),
        Op::PseudoTailIndirect => Some(of_held_tail(operands)),
    }
}

fn machine_op(op: WordOp, rd: u32, rs1: u32, rs2: u32, imm: i64) -> MachineOp
    ensures { result ≡ machine_op op rd rs1 rs2 imm }
{
    MachineOp {
        op,
        rd,
        rs1,
        rs2,
        imm,
    }
}

fn of_registers(op: RegisterOp, operands: &[Operand]) -> MachineOp
    requires { IsTrue (fits_registers operands.now) }
    ensures { Some result ≡ register_fields op operands.now }
{
    match operands {
        [Operand::Def(rd), Operand::Use(a), Operand::Use(b), ..] => {
            machine_op(
                WordOp::Registers(op),
                rd.number(),
                a.number(),
                b.number(),
                0,
            )
        }
        _ => unreachable!(),
    }
}

fn of_immediate(op: ImmediateOp, operands: &[Operand], object: u32) -> MachineOp
    requires { IsTrue (fits_immediate op operands.now) }
    ensures { Some result ≡ immediate_fields op operands.now object }
{
    match operands {
        [Operand::Def(rd), Operand::Use(a), Operand::Imm(i), ..] => {
            machine_op(WordOp::Immediate(op), rd.number(), a.number(), 0, *i)
        }
        [Operand::Def(rd), Operand::Object(_), Operand::Imm(i), ..] => {
            of_object(op, rd.number(), i64::from(object) + *i)
        }
        [Operand::Def(rd), Operand::Use(a), Operand::Part(_, _), ..] => {
            let op = WordOp::Immediate(ImmediateOp::Addi);
            machine_op(op, rd.number(), a.number(), 0, 0)
        }
        _ => unreachable!(),
    }
}

/// `ADDI rd, x2, i`, for the address of a stack object.
fn of_object(op: ImmediateOp, rd: u32, i: i64) -> MachineOp
    requires { IsTrue (is_addi op) }
    ensures { Some result ≡ object_fields op rd i }
{
    match op {
        ImmediateOp::Addi => machine_op(WordOp::Immediate(ImmediateOp::Addi), rd, 2, 0, i),
        _ => unreachable!(),
    }
}

fn of_upper(operands: &[Operand]) -> MachineOp
    requires { IsTrue (fits_upper operands.now) }
    ensures { Some result ≡ upper_fields operands.now }
{
    match operands {
        [Operand::Def(rd), Operand::Imm(i), ..] => machine_op(WordOp::Lui, rd.number(), 0, 0, *i),
        [Operand::Def(rd), Operand::Part(_, _), ..] => machine_op(
            WordOp::Lui,
            rd.number(),
            0,
            0,
            0,
        ),
        _ => unreachable!(),
    }
}

fn of_branch(op: BranchOp, operands: &[Operand], offset: i64) -> MachineOp
    requires { IsTrue (fits_branch operands.now) }
    ensures { Some result ≡ branch_fields op operands.now offset }
{
    match operands {
        [Operand::Use(a), Operand::Use(b), Operand::Block(_), ..] => {
            machine_op(WordOp::Branch(op), 0, a.number(), b.number(), offset)
        }
        _ => unreachable!(),
    }
}

fn of_load(op: LoadOp, operands: &[Operand], object: u32) -> MachineOp
    requires { IsTrue (fits_load op operands.now) }
    ensures { Some result ≡ load_fields op operands.now object }
{
    match operands {
        [Operand::Def(rd), Operand::Use(base), Operand::Imm(i), ..] => {
            machine_op(WordOp::Load(op), rd.number(), base.number(), 0, *i)
        }
        [Operand::Def(rd), Operand::Slot(n), ..] => {
            let at = i64::from(n.number());
            machine_op(WordOp::Load(LoadOp::Ld), rd.number(), 2, 0, at)
        }
        [Operand::Def(rd), Operand::Object(_), Operand::Imm(i), ..] => {
            machine_op(WordOp::Load(op), rd.number(), 2, 0, i64::from(object) + *i)
        }
        [
            Operand::Def(rd),
            Operand::Use(base),
            Operand::Part(_, _),
            ..
        ] => { machine_op(WordOp::Load(op), rd.number(), base.number(), 0, 0) }
        _ => unreachable!(),
    }
}

fn of_store(op: StoreOp, operands: &[Operand], object: u32) -> MachineOp
    requires { IsTrue (fits_store op operands.now) }
    ensures { Some result ≡ store_fields op operands.now object }
{
    match operands {
        [Operand::Use(rs), Operand::Use(base), Operand::Imm(i), ..] => {
            machine_op(WordOp::Store(op), 0, base.number(), rs.number(), *i)
        }
        [Operand::Use(rs), Operand::Slot(n), ..] => {
            let at = i64::from(n.number());
            machine_op(WordOp::Store(StoreOp::Sd), 0, 2, rs.number(), at)
        }
        [Operand::Use(rs), Operand::Object(_), Operand::Imm(i), ..] => {
            machine_op(WordOp::Store(op), 0, 2, rs.number(), i64::from(object) + *i)
        }
        [
            Operand::Use(rs),
            Operand::Use(base),
            Operand::Part(_, _),
            ..
        ] => { machine_op(WordOp::Store(op), 0, base.number(), rs.number(), 0) }
        _ => unreachable!(),
    }
}

fn of_copy(operands: &[Operand]) -> MachineOp
    requires { IsTrue (fits_copy operands.now) }
    ensures { Some result ≡ copy_fields operands.now }
{
    match operands {
        [Operand::Def(rd), Operand::Use(rs), ..] => {
            let op = WordOp::Immediate(ImmediateOp::Addi);
            machine_op(op, rd.number(), rs.number(), 0, 0)
        }
        _ => unreachable!(),
    }
}

fn of_jump(operands: &[Operand], offset: i64) -> MachineOp
    requires { IsTrue (fits_jump operands.now) }
    ensures { Some result ≡ jump_fields operands.now offset }
{
    match operands {
        [Operand::Block(_), ..] => machine_op(WordOp::Jal, 0, 0, 0, offset),
        _ => unreachable!(),
    }
}

fn of_held_call(operands: &[Operand]) -> MachineOp
    requires { IsTrue (fits_held_call operands.now) }
    ensures { Some result ≡ held_call_fields operands.now }
{
    match operands {
        [Operand::Use(r), ..] => machine_op(WordOp::Jalr, 1, r.number(), 0, 0),
        _ => unreachable!(),
    }
}

fn of_held_gone(operands: &[Operand]) -> MachineOp
    requires { IsTrue (fits_held_gone operands.now) }
    ensures { Some result ≡ held_fields 1 (implicit_uses operands.now) }
{
    match operands {
        [Operand::ImplicitUse(r), ..] => {
            // x2 is no callee
            if r.number() == 2 {
                unreachable!()
            } else {
                machine_op(WordOp::Jalr, 1, r.number(), 0, 0)
            }
        }
        _ => unreachable!(),
    }
}

fn of_held_tail(operands: &[Operand]) -> MachineOp
    requires { IsTrue (fits_held_tail operands.now) }
    ensures { Some result ≡ held_fields 0 (implicit_uses operands.now) }
{
    match operands {
        [Operand::ImplicitUse(r), ..] => {
            // x2 is no callee
            if r.number() == 2 {
                unreachable!()
            } else {
                machine_op(WordOp::Jalr, 0, r.number(), 0, 0)
            }
        }
        _ => unreachable!(),
    }
}
