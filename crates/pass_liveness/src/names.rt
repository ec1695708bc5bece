//! The bit of each place, and the index of each block.

ghost use Rattle.std.specs.Prelude.{◌≡◌, ◌≤◌, ◌<◌, ◌||◌, ◌&&◌, not, length, IfSome};
ghost use Rattle.std.specs.Prelude.{false};
ghost use Rattle.rv64_instr.specs.declared.place.Place.{Place};
ghost use Rattle.mir_func.specs.Sound.{PlaceIn};
ghost use Rattle.pass_liveness.specs.Sets.{bit_of, has, is_place};

use crate::index::Index;
use crate::set::PlaceSet;
use rv64_instr::effects::CALLER_SAVED;
use rv64_instr::operand::Operand;
use rv64_instr::place::Place;

/// The bit of the first register.
const REGISTERS: usize = 256;

/// The slots and the block numbers of a function, with their indices.
#[derive(Drop)]
pub struct SlotAndBlockNumbers {
    /// Its slots.
    pub slots: Index,
    /// Its blocks.
    pub blocks: Index,
    ghost few: { length slots ≤ 256 },
}

impl SlotAndBlockNumbers {
    /// The bit of a place; a constant has none.
    fn bit(&self, p: Place) -> Option<usize>
        ensures bit { result ≡ bit_of self.now.slots p }
        ensures within { IfSome result (λ b. b < 4416) }
    {
        match p {
            Place::Register(r) => Some(REGISTERS + r.number() as usize),
            Place::Slot(n) => self.slots.find(n.number()),
            Place::Const(_) => None,
        }
    }

    /// Whether a place is in a set.
    pub fn has(&self, set: &PlaceSet, p: Place) -> bool
        ensures { result ≡ has self.now.slots set.now p }
    {
        match self.bit(p) {
            None => false,
            Some(bit) => set.has(bit),
        }
    }

    /// Adds a place to a set. A slot that the function doesn't have is left out.
    pub fn insert(&self, set: &mut PlaceSet, p: Option<Place>)
        ensures { PlaceIn self.now.slots p → (x : Place) →
            has self.now.slots set.new x ≡ (is_place x p || has self.now.slots set.old x) }
    {
        if let Some(place) = p {
            if let Some(bit) = self.bit(place) {
                set.insert(bit);
            }
        }
    }

    /// Removes a place from a set.
    pub fn remove(&self, set: &mut PlaceSet, p: Option<Place>)
        ensures { (x : Place) → has self.now.slots set.new x ≡ (has self.now.slots set.old x && not (is_place x p)) }
    {
        if let Some(place) = p {
            if let Some(bit) = self.bit(place) {
                set.remove(bit);
            }
        }
    }
}
