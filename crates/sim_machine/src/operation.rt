//! Execution of machine operations.

ghost use Rattle.std.specs.Prelude.{◌≡◌, ◌<◌, ◌≤◌, ◌+◌, ◌%◌, ◌^◌, ◌/◌, ◌*◌, IsTrue, OnOk, OnErr, pos, ◌*ℤ◌, ◌≤ℤ◌};
ghost use Rattle.rv64_instr.specs.Arithmetic.{word, extend32};
ghost use Rattle.rv64_instr.specs.Row as row;
ghost use Rattle.rv64_instr.specs.Row.{Content, PointedBy};
ghost use Rattle.rv64_word.specs.MachineOp.{is_encodable};
ghost use Rattle.rv64_word.specs.MachineRow.{LinksTo, machine_row, link_row};
ghost use Rattle.sem_machine.specs.Machine.{Machine};
ghost use Rattle.sem_machine.specs.MachineStep.{does, does_row};
ghost use Rattle.sim_machine.specs.Kept.{StandsFor, Goes, IsSameFrame};
ghost use Rattle.sim_machine.specs.steps.Immediates.{on_registers};

use crate::hart::Hart;
use rv64_instr::arithmetic::{compute, extend, extend32, is_taken, load_width, store_width};
use rv64_instr::op::{BranchOp, ImmediateOp, LoadOp, RegisterOp, StoreOp};
use rv64_word::machine_op::MachineOp;
use rv64_word::word_op::WordOp;
use std::alloc::AllocError;

impl Hart {
    /// Executes the operation of the word at the program counter. If memory runs out nothing changes.
    pub fn operate(&mut self, m: &MachineOp) -> Result<(), AllocError>
        requires encodable { IsTrue (is_encodable m.now) }
        requires low { self.old.counter < 2 ^ 63 }
        ensures ok { OnOk result ((s : Machine) → StandsFor self.old s
            → Goes (does (machine_row s.counter m.now) s) self.new) }
        ensures err { OnErr result (self.new ≡ self.old) }
        ensures same { IsSameFrame self.old self.new }
    {
        let number = m.imm.cast_unsigned();
        match m.op {
            WordOp::Registers(op) => self.compute(op, m.rd, m.rs1, m.rs2),
            WordOp::Immediate(op) => self.compute_number(op, m.rd, m.rs1, number),
            WordOp::Lui => self.load_upper(m.rd, m.imm),
            WordOp::Branch(op) => self.branch(op, m.rs1, m.rs2, number),
            WordOp::Load(op) => self.load(op, m.rd, m.rs1, number),
            WordOp::Store(op) => return self.store(op, m.rs2, m.rs1, number),
            WordOp::Jal => self.link(m.rd, number),
            WordOp::Jalr => self.link_to(m.rd, m.rs1, number),
        }
        Ok(())
    }

    #[tactic(auto, unfolding(sem_machine::specs::MachineStep::does_row))]
    fn compute(&mut self, op: RegisterOp, rd: u32, a: u32, b: u32)
        requires rd { rd < 32 }
        requires a { a < 32 }
        requires b { b < 32 }
        requires low { self.old.counter < 2 ^ 63 }
        ensures stands { (s : Machine) → StandsFor self.old s
            → Goes (does_row (row.Sets rd op a (Content b)) s) self.new }
        ensures same { IsSameFrame self.old self.new }
    {
        self.set(rd, compute(op, self.read(a), self.read(b)));
    }

    fn compute_number(&mut self, op: ImmediateOp, rd: u32, a: u32, n: u64)
        requires rd { rd < 32 }
        requires a { a < 32 }
        requires low { self.old.counter < 2 ^ 63 }
        ensures stands { (s : Machine) → StandsFor self.old s
            → Goes (does_row (row.immediate_row op rd a n) s) self.new }
        ensures same { IsSameFrame self.old self.new }
    {
        let x = self.read(a);
        self.set(rd, compute(on_registers(op), x, n));
    }

    fn load_upper(&mut self, rd: u32, imm: i64)
        requires rd { rd < 32 }
        requires low { self.old.counter < 2 ^ 63 }
        requires least { pos 0 ≤ℤ imm }
        requires greatest { imm ≤ℤ pos 1048575 }
        ensures stands { (s : Machine) → StandsFor self.old s
            → Goes (does_row (row.Fixes rd (extend32 (word (imm *ℤ pos 4096)))) s) self.new }
        ensures same { IsSameFrame self.old self.new }
    {
        self.set(rd, extend32((imm * 4096).cast_unsigned()));
    }

    /// Jumps to an offset from the program counter if the branch is taken.
    fn branch(&mut self, op: BranchOp, a: u32, b: u32, offset: u64)
        requires a { a < 32 }
        requires b { b < 32 }
        requires low { self.old.counter < 2 ^ 63 }
        ensures stands { (s : Machine) → StandsFor self.old s
            → Goes (does_row (row.Branches op a b ((s.counter + offset) % 2 ^ 64)) s) self.new }
        ensures same { IsSameFrame self.old self.new }
    {
        if is_taken(op, self.read(a), self.read(b)) {
            self.jump(self.counter.wrapping_add(offset));
        } else {
            self.pass();
        }
    }

    fn load(&mut self, op: LoadOp, rd: u32, base: u32, offset: u64)
        requires rd { rd < 32 }
        requires base { base < 32 }
        requires low { self.old.counter < 2 ^ 63 }
        ensures stands { (s : Machine) → StandsFor self.old s
            → Goes (does_row (row.Loads rd op (PointedBy base) offset) s) self.new }
        ensures same { IsSameFrame self.old self.new }
    {
        let address = self.read(base).wrapping_add(offset);
        let number = self.memory.spelled(address, load_width(op));
        self.set(rd, extend(op, number));
    }

    fn store(&mut self, op: StoreOp, rs: u32, base: u32, offset: u64) -> Result<(), AllocError>
        requires rs { rs < 32 }
        requires base { base < 32 }
        requires low { self.old.counter < 2 ^ 63 }
        ensures ok { OnOk result ((s : Machine) → StandsFor self.old s
            → Goes (does_row (row.Stores op rs (PointedBy base) offset) s) self.new) }
        ensures err { OnErr result (self.new ≡ self.old) }
        ensures same { IsSameFrame self.old self.new }
    {
        let address = self.read(base).wrapping_add(offset);
        let number = self.read(rs);
        self.memory.store(address, store_width(op), number)?;
        self.counter += 4;
        Ok(())
    }

    /// Sets a register to the address of the next word, and jumps to an offset from the program counter.
    fn link(&mut self, rd: u32, offset: u64)
        requires rd { rd < 32 }
        requires low { self.old.counter < 2 ^ 63 }
        ensures stands { (s : Machine) → StandsFor self.old s
            → Goes (does (link_row rd ((s.counter + offset) % 2 ^ 64)) s) self.new }
        ensures same { IsSameFrame self.old self.new }
    {
        let target = self.counter.wrapping_add(offset);
        self.write(rd, self.counter + 4);
        self.jump(target);
    }

    /// Sets a register to the address of the next word, and jumps to an offset from a base register, with bit 0
    /// cleared.
    fn link_to(&mut self, rd: u32, base: u32, offset: u64)
        requires rd { rd < 32 }
        requires base { base < 32 }
        requires low { self.old.counter < 2 ^ 63 }
        ensures stands { (s : Machine) → StandsFor self.old s → Goes (does (LinksTo rd base offset) s) self.new }
        ensures same { IsSameFrame self.old self.new }
    {
        let target = self.read(base).wrapping_add(offset) / 2 * 2;
        self.write(rd, self.counter + 4);
        self.jump(target);
    }
}

/// The register-register operation with the same result.
fn on_registers(op: ImmediateOp) -> RegisterOp
    ensures { result ≡ on_registers op }
{
    match op {
        ImmediateOp::Addi => RegisterOp::Add,
        ImmediateOp::Slti => RegisterOp::Slt,
        ImmediateOp::Sltiu => RegisterOp::Sltu,
        ImmediateOp::Xori => RegisterOp::Xor,
        ImmediateOp::Ori => RegisterOp::Or,
        ImmediateOp::Andi => RegisterOp::And,
        ImmediateOp::Slli => RegisterOp::Sll,
        ImmediateOp::Srli => RegisterOp::Srl,
        ImmediateOp::Srai => RegisterOp::Sra,
        ImmediateOp::Addiw => RegisterOp::Addw,
        ImmediateOp::Slliw => RegisterOp::Sllw,
        ImmediateOp::Srliw => RegisterOp::Srlw,
        ImmediateOp::Sraiw => RegisterOp::Sraw,
    }
}
