//! Registers.

ghost use Rattle.std.specs.Prelude.{◌≡◌, ◌<◌, ℕ, Option, Some, None, IfOk, slice_index_or};
ghost use Rattle.rv64_instr.specs.DefsAndUses.{caller_saved};
ghost use Rattle.sem_mir.specs.State.{put, put_all};
ghost use Rattle.sem_interpreter.specs.Places.{RegistersHold, starting_registers};

use rv64_instr::effects::CALLER_SAVED;
use rv64_instr::reg::Reg;
use std::alloc::{AllocError, Global};
use std::marker::Model;

/// The number of registers, physical and virtual.
const COUNT: usize = 4128;

/// The registers' contents, by number. A virtual register is unwritten until it is set.
#[derive(Drop)]
pub struct Registers {
    contents: Vec<Option<u64>>,
}

impl Model for Registers {
    ghost use Rattle.std.specs.Prelude.{ℕ, List, Option};

    ghost Value = { List (Option ℕ) };

    ghost view = { λ r. r.contents.items };

    ghost use Rattle.sem_interpreter.specs.Places.{AreRegisters};

    ghost invariant = { λ r. AreRegisters r.contents.items };
}

impl Registers {
    /// The registers at the start of a run. x0 holds 0.
    pub fn new(alloc: Global, start: &[u64; 32]) -> Result<Registers, AllocError>
        ensures { IfOk result (λ made. RegistersHold made (starting_registers start.now)) }
    {
        let mut contents = Vec::with_capacity(alloc, COUNT)?;
        contents.push(Some(0))?;
        for r in 1..COUNT {
            contents.push(if r < 32 { Some(start[r]) } else { None })?;
        }
        Ok(Registers { contents })
    }

    /// The content of a register, if it is written.
    pub fn read(&self, r: Reg) -> Option<u64>
        ensures { result ≡ slice_index_or self.now r None }
    {
        self.contents[r.number() as usize]
    }

    /// x0 holds 0.
    pub fn hold_zero(&self)
        ensures { slice_index_or self.now 0 None ≡ Some 0 }
    {
        let _ = &self.contents;
    }

    /// Sets a register. x0 drops writes.
    pub fn write(&mut self, r: Reg, value: u64)
        ensures { (held : ℕ → Option ℕ) → RegistersHold self.old held
            → RegistersHold self.new (put r value held) }
    {
        if r.number() != 0 {
            self.contents[r.number() as usize] = Some(value);
        }
    }

    /// Sets the registers that a call sets, in ascending order.
    pub fn write_caller_saved(&mut self, values: &[u64; 16])
        ensures { (held : ℕ → Option ℕ) → RegistersHold self.old held
            → RegistersHold self.new (put_all caller_saved values.now held) }
    {
        for i in 0..16 {
            self.contents[CALLER_SAVED[i] as usize] = Some(values[i]);
        }
    }
}
