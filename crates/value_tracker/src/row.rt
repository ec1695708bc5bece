//! The locations past an instruction.

ghost use Rattle.std.specs.Prelude.{◌≡◌, ◌<◌, ◌^◌, ℕ, length, slice_index};
ghost use Rattle.rv64_instr.specs.Row.{row_of};
ghost use Rattle.value_tracker.specs.LocationTracker.{number_class, places_past};

use crate::index::{TrackedIndex, number_class};
use crate::location_tracker::{LocationTracker, PLACES, slot_place};
use rv64_instr::decoded::Decoded;
use rv64_instr::instr::Instr;

impl LocationTracker {
    /// Sets the classes of the locations that an instruction writes. Each register has a new class of its own for a new
    /// token.
    pub fn pass_row(&mut self, index: &TrackedIndex, settled: &[usize], instr: &Instr)
        requires count { length self.old.places.items ≡ PLACES }
        requires few { self.old.next < 2 ^ 62 }
        ensures places { (i : ℕ) → slice_index self.new.places.items i
            ≡ places_past (number_class index.now settled.now) self.old.next (row_of instr.now)
            (slice_index self.old.places.items) i }
        ensures count { length self.new.places.items ≡ PLACES }
        ensures pairs { self.new.pairs ≡ self.old.pairs }
        ensures parts { self.new.parts ≡ self.old.parts }
        ensures next { self.new.next ≡ self.old.next }
    {
        match instr.decoded() {
            Decoded::Fixes(rd, n) => self.put(rd, number_class(index, settled, n)),
            Decoded::Moves(rd, rs) => self.put(rd, self.register(rs)),
            Decoded::Sets(rd, _, _, _) => self.put_new(rd),
            Decoded::Addresses(rd, _, _) => self.put_new(rd),
            Decoded::Loads(rd, _, _, _) => self.put_new(rd),
            Decoded::LoadsSlot(rd, n) => self.put(rd, self.place(slot_place(n))),
            Decoded::StoresSlot(rs, n) => self.put_slot(n, self.register(rs)),
            Decoded::Calls(_) => {
                self.clear_passed(instr.operands.as_slice());
                self.call();
            }
            Decoded::Stores(_, _, _, _) => {}
            Decoded::Branches(_, _, _, _) => {}
            Decoded::Jumps(_) => {}
            Decoded::Returns(_) => {}
        }
    }
}
