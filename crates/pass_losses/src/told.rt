//! Loss reports.

ghost use Rattle.std.specs.Prelude.{◌≡◌, ◌↔◌, Contains, true};
ghost use Rattle.std.specs.List.{Any};
ghost use Rattle.std.specs.List.Sorted.{IsStrictlySortedBy};
ghost use Rattle.pass_trait.specs.Order.{IsInOrder};
ghost use Rattle.pass_losses.specs.Reported.{AreReported};

use base_list::List;
use pass_trait::loss::{Loss, Losses};

/// The loss report of these losses: sorted, without duplicates. It takes no memory.
pub fn told(lost: Losses) -> Losses
    ensures { AreReported lost result }
{
    let mut losses = lost.into_vec();
    put_in_order(&mut losses);
    List::from(losses)
}

/// Sorts losses and removes duplicates: numbers, then debug values by position, then registers, and for the same one by
/// reason. It takes no memory.
pub fn put_in_order(losses: &mut Vec<Loss>)
    ensures ordered { IsInOrder losses.new.items }
    ensures same { (l : Loss) → Contains losses.new.items l ↔ Contains losses.old.items l }
{
    sort_once(losses);
}

/// Sorts values, and keeps one of those that are equal. It takes no memory.
fn sort_once<T: Ord + Drop>(values: &mut Vec<T>)
    ensures sorted { IsStrictlySortedBy T.cmp values.new.items }
    ensures from { (x : T) → Contains values.new.items x → Contains values.old.items x }
    ensures kept { (x : T) → Contains values.old.items x → Any (λ y. T.eq x y ≡ true) values.new.items }
{
    values.sort_unstable();
    values.dedup();
}
