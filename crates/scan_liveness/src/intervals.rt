//! Live intervals by extents.

ghost use Rattle.std.specs.Prelude.{◌≡◌, ◌+◌, ◌*◌, ◌<◌, ◌≤◌, ◌^◌, ◌++◌, ◌∷◌, [], Option, None, length, slice_index_or, All, IfSome, IfOk};
ghost use Rattle.std.specs.Prelude.{OnOk};
ghost use Rattle.std.specs.List.Sorted.{IsPermutation, IsNonDecreasingBy};
ghost use Rattle.scan_liveness.specs.Extents.{interval_of, intervals_from, IsWithin};

use crate::extents::{Extent, virtual_register};
use scan_intervals::interval::{LiveInterval, LiveIntervals};
use std::alloc::{AllocError, Global};

/// The intervals of these extents, which are those of x32, x33 and so on over so many points, in the order of
/// allocation. The error is out of memory.
pub(crate) fn intervals_of(
    alloc: Global,
    extents: &[Option<Extent>],
    count: usize,
) -> Result<LiveIntervals, AllocError>
    requires few { length extents.now ≤ 4096 }
    requires count { count < 2 ^ 31 }
    requires within { All (IsWithin count) extents.now }
    ensures same { IfOk result (λ intervals. IsPermutation (intervals_from count 32 extents.now) intervals) }
    ensures ordered { IfOk result (IsNonDecreasingBy (λ i. i.start * 4128 + i.register)) }
{
    let mut intervals = LiveIntervals::new(alloc);
    push_all(extents, count, &mut intervals)?;
    sort(&mut intervals.items);
    Ok(intervals)
}

/// Adds the intervals of these extents, in their order.
fn push_all(
    extents: &[Option<Extent>],
    count: usize,
    intervals: &mut LiveIntervals,
) -> Result<(), AllocError>
    requires few { length extents.now ≤ 4096 }
    requires count { count < 2 ^ 31 }
    requires within { All (IsWithin count) extents.now }
    requires none { intervals.old ≡ [] }
    ensures { OnOk result (intervals.new ≡ intervals_from count 32 extents.now) }
{
    for k in 0..extents.len() {
        push_one(k, extent_at(extents, k), count, intervals)?;
    }
    Ok(())
}

fn extent_at(extents: &[Option<Extent>], k: usize) -> Option<Extent>
    requires { k < length extents.now }
    ensures { result ≡ slice_index_or extents.now k None }
{
    extents[k]
}

/// Adds the interval of the virtual register of this index, if there is one.
fn push_one(
    k: usize,
    extent: Option<Extent>,
    count: usize,
    intervals: &mut LiveIntervals,
) -> Result<(), AllocError>
    requires few { k < 4096 }
    requires count { count < 2 ^ 31 }
    requires within { IsWithin count extent }
    ensures { OnOk result (intervals.new ≡ intervals.old ++ intervals_from count (k + 32) (extent ∷ [])) }
{
    match extent {
        None => Ok(()),
        Some(e) => intervals.push(interval_of(k, e, count)),
    }
}

fn interval_of(k: usize, e: Extent, count: usize) -> LiveInterval
    requires few { k < 4096 }
    requires count { count < 2 ^ 31 }
    requires first { e.first < count }
    requires last { e.last < count }
    ensures { result ≡ interval_of count (k + 32) e }
{
    LiveInterval {
        register: virtual_register(k),
        start: (count - 1 - e.first) as u32,
        end: (count - 1 - e.last) as u32,
    }
}

/// Sorts intervals by their starts, then by their registers. It takes no memory.
fn sort(intervals: &mut Vec<LiveInterval>)
    ensures same { IsPermutation intervals.old.items intervals.new.items }
    ensures ordered { IsNonDecreasingBy (λ i. i.start * 4128 + i.register) intervals.new.items }
{
    intervals.sort_unstable_by_key(|i| rank(i));
}

/// The rank of an interval in the order of allocation. Register numbers are below 4,128.
fn rank(i: &LiveInterval) -> u64
    ensures { result ≡ i.now.start * 4128 + i.now.register }
{
    i.start as u64 * 4128 + i.register.number() as u64
}
