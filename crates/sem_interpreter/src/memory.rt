//! Memory of bytes.

ghost use Rattle.std.specs.Prelude.{◌≡◌, ◌<◌, ◌≤◌, ◌*◌, ◌^◌, ℕ, IfOk, OnOk, OnErr};
ghost use Rattle.sem_mir.specs.State.{spelled, stored, low_bytes, written};
ghost use Rattle.sem_interpreter.specs.Memory.{MemoryHolds, number_in, some_writes};

use indexmap::IndexMap;
use std::alloc::{AllocError, Global};
use std::marker::Model;

/// Bytes of memory by address. A byte that was never written is 0.
#[derive(Drop)]
pub struct Memory {
    bytes: IndexMap<u64, u8>,
}

impl Model for Memory {
    ghost use Rattle.std.specs.Prelude.{ℕ, List};

    ghost Value = { List (ℕ × ℕ) };

    ghost view = { λ m. m.bytes.entries };
}

impl Memory {
    /// Memory with these bytes written, each at its address, in order.
    pub fn new(alloc: Global, cells: &[(u64, u8)]) -> Result<Memory, AllocError>
        ensures { IfOk result (λ made. MemoryHolds made (written (λ _. 0) cells.now)) }
    {
        let mut bytes = IndexMap::new(alloc);
        for cell in cells {
            bytes.insert(cell.0, cell.1)?;
        }
        Ok(Memory { bytes })
    }

    /// The byte at an address.
    pub fn byte(&self, address: u64) -> u8
        ensures { result ≡ number_in self.now address }
    {
        self.bytes.get(&address).copied().unwrap_or(0)
    }

    /// The number of the `count` bytes from an address on, little-endian. Addresses wrap at 64 bits.
    pub fn spelled(&self, address: u64, count: usize) -> u64
        requires { count ≤ 8 }
        ensures value { result ≡ spelled (number_in self.now) address count }
        ensures below { result < 2 ^ (8 * count) }
    {
        let mut number = 0;
        for i in 0..count {
            let k = (count - i - 1) as u64;
            number = number * 256 + u64::from(self.byte(address.wrapping_add(k)));
        }
        number
    }

    /// Writes the low `count` bytes of a number from an address on, little-endian. A refused write changes nothing.
    pub fn store(&mut self, address: u64, count: usize, number: u64) -> Result<(), AllocError>
        ensures ok { OnOk result ((held : ℕ → ℕ) → MemoryHolds self.old held
            → MemoryHolds self.new (stored held address (low_bytes count number))) }
        ensures err { OnErr result (self.new ≡ self.old) }
    {
        self.bytes.reserve(count)?;
        let mut rest = number;
        for k in 0..count {
            self.bytes
                .insert(address.wrapping_add(k as u64), (rest % 256) as u8)?;
            rest /= 256;
        }
        Ok(())
    }

    /// Writes the bytes of an answer, each at its address, in order. A refused write changes nothing.
    pub fn write(&mut self, writes: &[Option<(u64, u8)>]) -> Result<(), AllocError>
        ensures ok { OnOk result ((held : ℕ → ℕ) → MemoryHolds self.old held
            → MemoryHolds self.new (written held (some_writes writes.now))) }
        ensures err { OnErr result (self.new ≡ self.old) }
    {
        self.bytes.reserve(writes.len())?;
        for write in writes {
            if let Some((address, byte)) = *write {
                self.bytes.insert(address, byte)?;
            }
        }
        Ok(())
    }
}
