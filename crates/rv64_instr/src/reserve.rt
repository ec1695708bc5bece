//! The registers that may be in a reserve.

ghost use Rattle.std.specs.Prelude.{◌↔◌, Contains, IsTrue};
ghost use Rattle.rv64_instr.specs.Reserve.{RESERVABLE};

/// The numbers of the registers that may be in a reserve, in ascending order (RISC-V ELF psABI: s0 to s11).
const RESERVABLE_NUMBERS: [u64; 12] = [8, 9, 18, 19, 20, 21, 22, 23, 24, 25, 26, 27];

/// Whether the register of a number may be in a reserve.
pub fn is_reservable(number: u64) -> bool
    ensures { IsTrue result ↔ Contains RESERVABLE number }
{
    RESERVABLE_NUMBERS.contains(&number)
}
