//! Registers.

ghost use Rattle.std.specs.Prelude.{◌≡◌, ◌<◌, ◌≤◌, ◌↔◌, IfSome, IsNone};

use base_list::List;
use std::marker::Model;

/// A register by its number: 0 to 31 are x0 to x31, and 32 to 4,127 are virtual (LLVM: `MCRegister`, `Register`).
#[derive(Clone, Copy, Debug, PartialEq, Eq, PartialOrd, Ord)]
pub struct Reg {
    number: u32,
}

impl Model for Reg {
    ghost use Rattle.std.specs.Prelude.{ℕ, ◌<◌};

    ghost Value = { ℕ };

    ghost view = { λ r. r.number };

    ghost invariant = { λ r. r.number < 4128 };

    ghost inverse = { λ n. record { number = n } };
}

/// Registers, in a stated order.
pub type Registers = List<Reg>;

/// The register xN, and `None` exactly if N is above 31.
pub fn physical(n: u32) -> Option<Reg>
    ensures none { IsNone result ↔ (32 ≤ n) }
    ensures value { IfSome result (λ r. r ≡ n) }
{
    if n < 32 {
        Some(Reg { number: n })
    } else {
        None
    }
}

/// The register x0, which reads 0.
pub fn zero() -> Reg
    ensures { result ≡ 0 }
{
    Reg { number: 0 }
}

impl Reg {
    /// The register of a number, physical or virtual, and `None` exactly if the number is above 4,127.
    pub fn new(number: u32) -> Option<Reg>
        ensures none { IsNone result ↔ (4128 ≤ number) }
        ensures value { IfSome result (λ r. r ≡ number) }
    {
        if number < 4128 {
            Some(Reg { number })
        } else {
            None
        }
    }

    /// The register's number.
    pub fn number(self) -> u32
        ensures value { result ≡ self }
        ensures below { result < 4128 }
    {
        self.number
    }
}
