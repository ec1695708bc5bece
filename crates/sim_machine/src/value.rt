//! Values of variables from their location lists, at the program counter and in the current state.

ghost use Rattle.std.specs.Prelude.{◌≡◌, ◌<◌, ◌^◌, ◌*◌, ◌%◌, ◌≤◌, List, IfOk, IfErr, length};
ghost use Rattle.rv64_instr.specs.declared.place.Place.{Place};
ghost use Rattle.dwarf_loclists.specs.declared.range.Range.{Range};
ghost use Rattle.dwarf_loclists.specs.Fault.{FaultAt};
ghost use Rattle.dwarf_loclists.specs.Grammar.{IsSection};
ghost use Rattle.dwarf_loclists.specs.Ranges.{IsListed};
ghost use Rattle.sem_machine.specs.Machine.{Machine as State, place_content};
ghost use Rattle.sem_machine.specs.MachineStep.{word_content};
ghost use Rattle.sim_machine.specs.Kept.{StandsFor};
ghost use Rattle.sim_machine.specs.Values.{VariableIs, PartIs};

use crate::answers::CallAnswers;
use crate::hart::Hart;
use crate::machine::MachineSimulator;
use base_ids::function_ids::SlotId;
use dwarf_loclists::fault::ListFault;
use dwarf_loclists::reader::{piece_at, place_at};
use rv64_instr::place::Place;

/// The value of some bytes of a variable.
#[derive(Clone, Copy, Debug, PartialEq, Eq)]
pub struct PartValue {
    /// The offset of its first byte in the variable.
    pub offset: u32,
    /// The number of bytes: 1 to 8.
    pub length: u32,
    /// The value of the bytes, below 2^(8 * length), in little-endian order.
    pub value: u64,
}

impl<'a, A: CallAnswers + Drop> MachineSimulator<'a, A> {
    /// The value of the whole variable by list k, from 0, of the section `.debug_loclists` at the program counter:
    /// `None` if the list has no simple location there. It takes no memory.
    pub fn read_variable(&self, lists: &[u8], k: u32) -> Result<Option<u64>, ListFault>
        requires { (all : List (List Range)) → IsSection lists.now all → k < length all }
        ensures ok { IfOk result (λ v. (s : State) → StandsFor self.now.hart s → VariableIs lists.now k s v) }
        ensures err { IfErr result (λ f. FaultAt lists.now f.at) }
    {
        self.hart().variable(lists, k)
    }

    /// The value of the n-th piece, from 0, of a variable by list k at the program counter. Gaps aren't counted. It is
    /// `None` if the list has fewer pieces there. It takes no memory.
    pub fn read_part(&self, lists: &[u8], k: u32, n: u32) -> Result<Option<PartValue>, ListFault>
        requires { (all : List (List Range)) → IsSection lists.now all → k < length all }
        ensures ok { IfOk result (λ v. (s : State) → StandsFor self.now.hart s → PartIs lists.now k n s v) }
        ensures err { IfErr result (λ f. FaultAt lists.now f.at) }
    {
        self.hart().part(lists, k, n)
    }
}

impl Hart {
    fn variable(&self, lists: &[u8], k: u32) -> Result<Option<u64>, ListFault>
        requires { (all : List (List Range)) → IsSection lists.now all → k < length all }
        ensures ok { IfOk result (λ v. (s : State) → StandsFor self.now s → VariableIs lists.now k s v) }
        ensures err { IfErr result (λ f. FaultAt lists.now f.at) }
    {
        match place_at(lists, k, self.counter)? {
            Some(place) => Ok(Some(self.content(place))),
            None => Ok(None),
        }
    }

    fn part(&self, lists: &[u8], k: u32, n: u32) -> Result<Option<PartValue>, ListFault>
        requires { (all : List (List Range)) → IsSection lists.now all → k < length all }
        ensures ok { IfOk result (λ v. (s : State) → StandsFor self.now s → PartIs lists.now k n s v) }
        ensures err { IfErr result (λ f. FaultAt lists.now f.at) }
    {
        match piece_at(lists, k, self.counter, n)? {
            Some(part) => Ok(Some(PartValue {
                offset: part.offset,
                length: part.length,
                value: low_bytes(self.content(part.place), part.length),
            })),
            None => Ok(None),
        }
    }

    /// The eight bytes at an offset from x2, in bytes.
    pub fn word_at(&self, offset: u64) -> u64
        ensures { (s : State) → StandsFor self.now s → result ≡ word_content s offset }
    {
        let address = self.read(2).wrapping_add(offset);
        self.memory.spelled(address, 8)
    }

    /// The eight bytes of a slot, at its offset from x2.
    pub fn stack_word(&self, n: SlotId) -> u64
        ensures { (s : State) → StandsFor self.now s → result ≡ word_content s n }
    {
        self.word_at(u64::from(n.number()))
    }

    /// The content of a place.
    pub fn content(&self, place: Place) -> u64
        requires { IsListed place }
        ensures { (s : State) → StandsFor self.now s → result ≡ place_content place s }
    {
        match place {
            Place::Register(r) => self.read(r.number()),
            Place::Slot(n) => self.stack_word(n),
            Place::Const(c) => c.cast_unsigned(),
        }
    }
}

/// The low `count` bytes of a number.
pub fn low_bytes(number: u64, count: u32) -> u64
    requires { count ≤ 8 }
    ensures { result ≡ number % 2 ^ (8 * count) }
{
    if count == 8 {
        number
    } else {
        number % (1 << (8 * count))
    }
}
