//! The pseudorandom sequence.

ghost use Rattle.std.specs.Prelude.{◌≡◌, ◌+◌, ◌%◌, ◌^◌, ◌<◌};
ghost use Rattle.gen_function.specs.Draws.{next, draw, give};
ghost use Rattle.gen_function.specs.Items.{register_of, variable_of};

use crate::items::register;
use base_ids::function_ids::{DebugNumber, SlotId};
use base_ids::metadata::NodeId;
use mir_func::variable::VarId;
use rv64_instr::reg::Reg;
use std::marker::Model;

/// The node of the first of the four variables.
const FIRST_VARIABLE: u32 = 10;

/// The numbers of registers, variables and slots to choose from.
const REGISTERS: u32 = 8;

const VARIABLES: u32 = 4;

const SLOTS: u32 = 4;

/// The state of the pseudorandom sequence, and the number of debug instruction numbers that are used.
#[derive(Debug, Drop)]
pub struct Draws {
    state: u32,
    given: u32,
}

impl Model for Draws {
    ghost use Rattle.std.specs.Prelude.{◌<◌};
    ghost use Rattle.gen_function.specs.Draws.{Drawn};

    ghost Value = { Drawn };

    ghost view = { λ d. record { state = d.state; given = d.given } };

    ghost invariant = { λ d. d.state < 65537 };
}

impl Draws {
    /// The sequence from a seed.
    pub fn new(number: u32) -> Draws
        requires { number < 65537 }
        ensures { result ≡ record { state = number; given = 0 } }
    {
        Draws {
            state: number,
            given: 0,
        }
    }

    /// The next random number, below `n`.
    #[tactic(auto, unfolding(crate::specs::Draws::next))]
    pub fn below(&mut self, n: u32) -> u32
        requires { 0 < n }
        ensures drawn { result ≡ self.new.state % n }
        ensures state { self.new ≡ draw self.old }
        ensures small { result < n }
    {
        self.state = (75 * self.state + 74) % 65_537;
        self.state % n
    }

    /// A random register.
    pub fn register(&mut self) -> Reg
        ensures drawn { result ≡ register_of (self.new.state % 8) }
        ensures state { self.new ≡ draw self.old }
    {
        register(self.below(REGISTERS))
    }

    /// A random variable.
    pub fn variable(&mut self) -> VarId
        ensures drawn { result ≡ variable_of (self.new.state % 4) }
        ensures state { self.new ≡ draw self.old }
    {
        VarId {
            node: NodeId(FIRST_VARIABLE + self.below(VARIABLES)),
            inlined_at: None,
            fragment: None,
        }
    }

    /// A random slot.
    pub fn slot(&mut self) -> SlotId
        ensures drawn { result ≡ self.new.state % 4 }
        ensures state { self.new ≡ draw self.old }
    {
        SlotId(self.below(SLOTS))
    }

    /// The next unused debug instruction number.
    pub fn number(&mut self) -> DebugNumber
        requires { self.old.given < 2 ^ 16 }
        ensures given { result ≡ self.new.given }
        ensures state { self.new ≡ give self.old }
    {
        self.given += 1;
        DebugNumber(self.given)
    }

    /// A random debug instruction number: one that is used, or the next one.
    pub fn near_number(&mut self) -> DebugNumber
        requires { self.old.given < 2 ^ 16 }
        ensures drawn { result ≡ self.new.state % (self.old.given + 1) + 1 }
        ensures state { self.new ≡ draw self.old }
    {
        DebugNumber(self.below(self.given + 1) + 1)
    }
}
