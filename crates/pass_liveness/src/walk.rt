//! Backward liveness along the items of a block.

ghost use Rattle.std.specs.Prelude.{◌≡◌, ◌||◌, All};
ghost use Rattle.rv64_instr.specs.declared.place.Place.{Place};
ghost use Rattle.mir_func.specs.Sound.{SlotsIn};
ghost use Rattle.pass_liveness.specs.Sets.{has};
ghost use Rattle.pass_liveness.specs.Walk.{live_across, live_past, live_from};
ghost use Rattle.pass_liveness.specs.Liveness.{has_at_start};

use crate::names::SlotAndBlockNumbers;
use crate::set::PlaceSet;
use base_ids::function_ids::BlockId;
use mir_func::exit::Exit;
use mir_func::item::Item;

impl SlotAndBlockNumbers {
    /// Adds what is live at the start of the block with this number.
    pub fn unite_start(&self, set: &mut PlaceSet, starts: &[PlaceSet], n: BlockId)
        ensures { (x : Place) → has self.now.slots set.new x
            ≡ (has self.now.slots set.old x || has_at_start self.now.slots self.now.blocks starts.now n x) }
    {
        if let Some(index) = self.blocks.find(n.number()) {
            if index < starts.len() {
                let _ = set.unite(&starts[index]);
            }
        }
    }

    /// From what is live before the next item to what is live after an item with this exit.
    pub fn step_across(&self, set: &mut PlaceSet, starts: &[PlaceSet], exit: Exit)
        ensures { (x : Place) → has self.now.slots set.new x
            ≡ live_across (has_at_start self.now.slots self.now.blocks starts.now) exit (has self.now.slots set.old x)
            x }
    {
        match exit {
            Exit::Onward => {}
            Exit::Perhaps(n) => self.unite_start(set, starts, n),
            Exit::Always(n) => {
                set.clear();
                self.unite_start(set, starts, n);
            }
            Exit::Final => set.clear(),
        }
    }

    /// What is live at the end of a block, if the block with this number comes next.
    fn live_past(&self, starts: &[PlaceSet], next: Option<BlockId>) -> PlaceSet
        ensures { (x : Place) → has self.now.slots result x
            ≡ live_past (has_at_start self.now.slots self.now.blocks starts.now) next x }
    {
        let mut set = PlaceSet::new();
        if let Some(n) = next {
            self.unite_start(&mut set, starts, n);
        }
        set
    }

    /// What is live before these items, the last ones of a block, if the block with this number comes next.
    pub fn live_from(&self, starts: &[PlaceSet], items: &[Item], next: Option<BlockId>) -> PlaceSet
        requires { All (λ i. SlotsIn self.now.slots i.kind) items.now }
        ensures { (x : Place) → has self.now.slots result x
            ≡ live_from (has_at_start self.now.slots self.now.blocks starts.now) items.now next x }
    {
        let mut set = self.live_past(starts, next);
        let mut above = items;
        while let Some((item, rest)) = above.split_last() {
            self.step_across(&mut set, starts, item.kind.exit());
            self.step_up(&mut set, &item.kind);
            above = rest;
        }
        set
    }
}
