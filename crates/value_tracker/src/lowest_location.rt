//! The first location of each class. A table by class is filled for a lookup of all variables, and emptied after it.

ghost use Rattle.std.specs.Prelude.{◌≡◌, ◌≢◌, ◌<◌, ◌≤◌, ℕ, None, length, slice_index, slice_index_or};
ghost use Rattle.value_tracker.specs.LowestLocation.{IsFirstBelow, AreFirsts};

/// Fills an empty table with the first location index of each class. The locations from an index on have no class.
pub fn fill(firsts: &mut [Option<usize>], places: &[usize], end: usize)
    requires some { 0 < end }
    requires within { end ≤ length places.now }
    requires rest { (i : ℕ) → end ≤ i → slice_index places.now i ≡ 0 }
    requires empty { (c : ℕ) → slice_index_or firsts.old c None ≡ None }
    requires room { (i : ℕ) → i < length places.now → slice_index places.now i < length firsts.old }
    ensures { AreFirsts places.now firsts.new }
{
    for i in 1..end {
        add(firsts, places[i], i);
    }
    add_rest(firsts, places, end);
}

/// The index behind the last location with a class, and at least 1 where there is a location.
pub fn end_of(places: &[usize]) -> usize
    ensures some { 0 < length places.now → 0 < result }
    ensures within { result ≤ length places.now }
    ensures rest { (i : ℕ) → result ≤ i → slice_index places.now i ≡ 0 }
{
    let mut end = places.len();
    while end > 1 {
        if places[end - 1] != 0 {
            return end;
        }
        end -= 1;
    }
    end
}

/// Enters the first location index of class 0, if the locations from an index on have no class.
fn add_rest(firsts: &mut [Option<usize>], places: &[usize], end: usize)
    requires some { 0 < end }
    requires within { end ≤ length places.now }
    requires rest { (i : ℕ) → end ≤ i → slice_index places.now i ≡ 0 }
    requires room { (i : ℕ) → i < length places.now → slice_index places.now i < length firsts.old }
    requires below { (c : ℕ) → IsFirstBelow end places.now c (slice_index_or firsts.old c None) }
    ensures { AreFirsts places.now firsts.new }
{
    if end < places.len() {
        add(firsts, 0, end);
    }
}

/// Enters a location index for its class, unless the class has one.
fn add(firsts: &mut [Option<usize>], class: usize, i: usize)
    requires { class < length firsts.old }
    ensures kept { (c : ℕ) → c ≢ class → slice_index_or firsts.new c None ≡ slice_index_or firsts.old c None }
    ensures first { slice_index_or firsts.old class None ≡ None → slice_index_or firsts.new class None ≡ Some i }
    ensures later { slice_index_or firsts.old class None ≢ None →
        slice_index_or firsts.new class None ≡ slice_index_or firsts.old class None }
{
    if firsts[class].is_none() {
        firsts[class] = Some(i);
    }
}

/// Empties a table that was filled from these locations. Those from an index on have no class.
pub fn empty(firsts: &mut [Option<usize>], places: &[usize], end: usize)
    requires within { end ≤ length places.now }
    requires rest { (i : ℕ) → end ≤ i → slice_index places.now i ≡ 0 }
    requires filled { AreFirsts places.now firsts.old }
    requires room { (i : ℕ) → i < length places.now → slice_index places.now i < length firsts.old }
    ensures { (c : ℕ) → slice_index_or firsts.new c None ≡ None }
{
    for i in 1..end {
        firsts[places[i]] = None;
    }
    clear_first(firsts);
}

/// Clears the entry of class 0.
fn clear_first(firsts: &mut [Option<usize>])
    ensures none { slice_index_or firsts.new 0 None ≡ None }
    ensures others { (c : ℕ) → c ≢ 0 → slice_index_or firsts.new c None ≡ slice_index_or firsts.old c None }
{
    if !firsts.is_empty() {
        firsts[0] = None;
    }
}
