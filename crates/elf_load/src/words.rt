//! The two words of a call site.

ghost use Rattle.std.specs.Prelude.{◌≡◌, ◌+◌, ◌-◌, ◌^◌, ◌<◌, ◌≤◌, MatchOption, length, take, drop, ◌++◌};
ghost use Rattle.std.specs.Int.{w32, to_le_bytes};
ghost use Rattle.rv64_word.specs.MachineOp.{word_of};
ghost use Rattle.elf_load.specs.Load.{IsInReach};
ghost use Rattle.elf_load.specs.steps.CallWords;
ghost use Rattle.elf_load.specs.steps.CallWords.{jump, patched, call_patched};

use rv64_word::machine_op::{MachineOp, encode};
use rv64_word::word_op::WordOp;

/// How far a target may lie below a call: AUIPC's least number, and the least of JALR.
const BELOW: u128 = 0x8000_0800;
/// The limit on the distance of a target from the least one in reach, exclusive.
const REACH: u128 = 0x1_0000_0000;

/// The distance of a target from the least address that a call at an address reaches. `None` exactly if the target is
/// out of reach.
pub fn distance(place: u64, target: u64) -> Option<u32>
    ensures { MatchOption result (IsInReach place target → ⊥)
        (λ d. IsInReach place target × (d ≡ CallWords.distance place target)) }
{
    let place = place as u128;
    let above = target as u128 + BELOW;
    if place <= above && above - place < REACH {
        Some((above - place) as u32)
    } else {
        None
    }
}

/// Writes the words of a call at an offset, by the distance of its target from the least address in reach.
pub fn write_call(text: &mut [u8], at: usize, distance: u32)
    requires { at + 8 ≤ length text.old }
    ensures { text.new ≡ call_patched at distance text.old }
{
    write_word(text, at, upper_word(distance));
    write_word(text, at + 4, lower_word(distance));
}

/// Writes a word at an offset.
fn write_word(text: &mut [u8], at: usize, word: u32)
    requires { at + 4 ≤ length text.old }
    ensures { text.new ≡ patched at (to_le_bytes w32 word) text.old }
{
    text[at..at + 4].copy_from_slice(&word.to_le_bytes());
}

/// AUIPC x1: the upper 20 bits of the distance, rounded, since JALR's number has a sign.
fn upper_word(distance: u32) -> u32
    ensures { result ≡ CallWords.upper_word distance }
{
    (distance / 0x1000 + 0x8_0000) % 0x10_0000 * 0x1000 + 0x97
}

/// JALR x1, with x1 and the lower 12 bits of the distance, as a signed number.
fn lower_word(distance: u32) -> u32
    ensures { result ≡ word_of (jump distance) }
{
    encode(&MachineOp {
        op: WordOp::Jalr,
        rd: 1,
        rs1: 1,
        rs2: 0,
        imm: i64::from(distance % 0x1000) - 0x800,
    })
}
