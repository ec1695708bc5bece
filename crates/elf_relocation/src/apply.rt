//! Applying relocations to the bytes of a section.

ghost use Rattle.std.specs.Prelude.{◌≡◌, ◌+◌, ◌<◌, ◌≤◌, ◌^◌, length, All, MatchOption, IsSome, IsTrue};
ghost use Rattle.elf_relocation.specs.Applied.{applied, filled_by, in_range_by, size_of};
ghost use Rattle.elf_relocation.specs.Applied.{IsApplicable, IsFirstOutOfRange, IsInRange};
ghost use Rattle.elf_relocation.specs.Kinds.{kind_of};

use crate::field::fill;
use crate::kind::kind_of;
use elf_object::relocations::Relocation;

/// Applies relocations to the bytes of a section that lies at an address, by the addresses of symbols, the first of
/// which has number 1. If not all fields can have their values, the result is the index of the first that can't, and
/// the bytes are of no use.
pub fn apply(
    bytes: &mut [u8],
    relocations: &[Relocation],
    addresses: &[u64],
    base: u64,
) -> Option<usize>
    requires fields { All (IsApplicable (length bytes.old) (length addresses.now)) relocations.now }
    requires base { base + length bytes.old < 2 ^ 64 }
    ensures { MatchOption result
        ((bytes.new ≡ applied base addresses.now relocations.now bytes.old)
        × All (IsInRange base addresses.now) relocations.now)
        (IsFirstOutOfRange relocations.now base addresses.now) }
{
    for (index, relocation) in relocations.iter().enumerate() {
        let target = addresses[relocation.symbol as usize - 1];
        let place = base + relocation.offset;
        if !apply_one(bytes, relocation, target, place) {
            return Some(index);
        }
    }
    None
}

/// Applies a relocation, by the addresses of its symbol and of its field. The result is whether the field can have
/// its value.
fn apply_one(bytes: &mut [u8], relocation: &Relocation, target: u64, place: u64) -> bool
    requires kind { IsSome (kind_of relocation.now.relocation_type) }
    requires within { relocation.now.offset + size_of relocation.now ≤ length bytes.old }
    ensures range { result ≡ in_range_by (kind_of relocation.now.relocation_type) target relocation.now.addend place }
    ensures bytes { IsTrue result → bytes.new ≡ filled_by (kind_of relocation.now.relocation_type) target
        relocation.now.addend place relocation.now.offset bytes.old }
{
    match kind_of(relocation.relocation_type) {
        Some(kind) => {
            let value = kind.value(target, relocation.addend, place);
            if !kind.is_in_range(value) {
                return false;
            }
            fill(bytes, relocation.offset as usize, kind, value);
            true
        }
        None => true,
    }
}
