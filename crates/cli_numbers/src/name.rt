//! Names of the registers that may be reserved.

ghost use Rattle.std.specs.Prelude.{◌≡◌, ◌↔◌, ℕ, Contains, Some};
ghost use Rattle.std.specs.Fmt.{decimal};
ghost use Rattle.rv64_instr.specs.Reserve.{RESERVABLE};
ghost use Rattle.cli_numbers.specs.Reserve.{register_name};

use crate::number::number;
use rv64_instr::reg::{Reg, physical};
use rv64_instr::reserve::is_reservable;

/// The register with this name, as `x8`; `None` if it is no name of a register that may be reserved.
pub fn register(word: &str) -> Option<Reg>
    ensures { (r : ℕ) → (result ≡ Some r) ↔ ((word.now ≡ register_name r) × Contains RESERVABLE r) }
{
    match word.strip_prefix("x") {
        None => None,
        Some(digits) => with_digits(digits),
    }
}

/// The register with a number in decimal digits, if it may be reserved.
fn with_digits(digits: &str) -> Option<Reg>
    ensures { (r : ℕ) → (result ≡ Some r) ↔ ((digits.now ≡ decimal r) × Contains RESERVABLE r) }
{
    let number = number(digits, 27)?;
    if is_reservable(number) {
        physical(number as u32)
    } else {
        None
    }
}
