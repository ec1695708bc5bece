//! Relocating call sites.

ghost use Rattle.std.specs.Prelude.{◌≡◌, ◌+◌, ◌<◌, ◌^◌, length, All, MatchOption};
ghost use Rattle.elf_load.specs.Load.{IsCallSite, IsReached, IsFirstOutOfReach};
ghost use Rattle.elf_load.specs.steps.CallWords.{relocated};

use crate::words::{distance, write_call};
use elf_object::relocations::Relocation;

/// Relocates the call sites of machine code at an address, by the addresses of symbols. If not all are in reach, the
/// result is the index of the first that isn't, and the code is of no use.
pub fn relocate(
    text: &mut [u8],
    relocations: &[Relocation],
    addresses: &[u64],
    base: u64,
) -> Option<usize>
    requires sites { All (IsCallSite (length text.old) (length addresses.now)) relocations.now }
    requires base { base + length text.old < 2 ^ 64 }
    ensures { MatchOption result
        ((text.new ≡ relocated base addresses.now relocations.now text.old)
        × All (IsReached base addresses.now) relocations.now)
        (IsFirstOutOfReach relocations.now base addresses.now) }
{
    for (index, relocation) in relocations.iter().enumerate() {
        let place = base + relocation.offset;
        let target = addresses[relocation.symbol as usize - 1];
        match distance(place, target) {
            Some(distance) => write_call(text, relocation.offset as usize, distance),
            None => return Some(index),
        }
    }
    None
}
