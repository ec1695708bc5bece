//! Where a frame saves registers.

ghost use Rattle.std.specs.Prelude.{◌≡◌};
ghost use Rattle.frame_table.specs.Table.{distance_in, distances_from};

use dwarf_frame::rows::NONE_SAVED;
use mir_func::framed::{Framed, SavedRegister};

/// How far the slot of each saved register is below the stack pointer's value at entry, in bytes.
pub(crate) fn distances(framed: &Framed) -> [Option<u64>; 32]
    ensures { result ≡ distances_from framed.now 0 32 }
{
    let mut distances = NONE_SAVED;
    for register in 0..32u32 {
        distances[register as usize] = distance(framed, register);
    }
    distances
}

/// How far the slot of a register is below the stack pointer's value at entry, if a frame saves it.
fn distance(framed: &Framed, register: u32) -> Option<u64>
    ensures { result ≡ distance_in framed.now.size framed.now.saved register }
{
    distance_in(framed.size, framed.saved.as_slice(), register)
}

/// The same in a frame of this size, which saves these registers.
fn distance_in(size: u32, saved: &[SavedRegister], register: u32) -> Option<u64>
    ensures { result ≡ distance_in size saved.now register }
{
    for place in saved {
        if place.register.number() == register {
            return Some(size.saturating_sub(place.offset) as u64);
        }
    }
    None
}
