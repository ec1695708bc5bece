//! The state of the simulator.

ghost use Rattle.std.specs.Prelude.{◌≡◌, ◌<◌, ◌^◌};
ghost use Rattle.sem_machine.specs.Machine.{Machine, register};
ghost use Rattle.sem_machine.specs.MachineStep.{past, at, set_register};

use rv64_instr::symbol::SymbolAddresses;
use sem_interpreter::memory::Memory;

/// The state of a hardware thread (hart).
#[derive(Drop)]
pub struct Hart {
    /// The content of x2 at function entry.
    pub entry: u64,
    /// The size of the stack objects in bytes, which are right below the address `entry`.
    pub area: u64,
    /// The addresses of symbols.
    pub symbols: SymbolAddresses,
    /// The program counter.
    pub counter: u64,
    /// The contents of x0 to x31.
    pub regs: [u64; 32],
    /// The bytes that were written.
    pub memory: Memory,
    /// The number of calls so far, modulo 2^64.
    pub calls: u64,
}

impl Hart {
    ghost use Rattle.sim_machine.specs.Kept.{StandsFor, IsSameFrame};

    /// The content of a register.
    pub fn read(&self, r: u32) -> u64
        requires { r < 32 }
        ensures { (s : Machine) → StandsFor self.now s → result ≡ register s r }
    {
        self.regs[r as usize]
    }

    /// Sets a register. Writes to x0 are dropped.
    pub fn write(&mut self, r: u32, value: u64)
        requires { r < 32 }
        ensures stands { (s : Machine) → StandsFor self.old s → StandsFor self.new (set_register r value s) }
        ensures counter { self.new.counter ≡ self.old.counter }
        ensures same { IsSameFrame self.old self.new }
    {
        if r != 0 {
            self.regs[r as usize] = value;
        }
    }

    /// Advances the program counter by a word.
    pub fn pass(&mut self)
        requires { self.old.counter < 2 ^ 63 }
        ensures stands { (s : Machine) → StandsFor self.old s → StandsFor self.new (past 4 s) }
        ensures same { IsSameFrame self.old self.new }
    {
        self.counter += 4;
    }

    /// Sets the program counter.
    pub fn jump(&mut self, target: u64)
        ensures stands { (s : Machine) → StandsFor self.old s → StandsFor self.new (at target s) }
        ensures same { IsSameFrame self.old self.new }
    {
        self.counter = target;
    }

    /// Sets a register and advances the program counter by a word.
    pub fn set(&mut self, rd: u32, value: u64)
        requires rd { rd < 32 }
        requires low { self.old.counter < 2 ^ 63 }
        ensures stands { (s : Machine) → StandsFor self.old s → StandsFor self.new (past 4 (set_register rd value s)) }
        ensures same { IsSameFrame self.old self.new }
    {
        self.write(rd, value);
        self.pass();
    }
}
