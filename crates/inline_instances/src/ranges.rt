//! The ranges of instances, opened and closed while the instructions are walked.

ghost use Rattle.std.specs.Prelude.{◌≡◌, ◌<◌, ◌≤◌, List, ℕ, [], length, get_or, IfOk, IfSome, OnOk};
ghost use Rattle.inline_instances.specs.steps.Open.{AreAround, AreEarlier, IsGrown, IsShifted, IsClosed, IsOpened};

use crate::instance::Instance;
use base_list::List;
use dwarf_rnglists::range::{AddressRange, AddressRanges};
use std::alloc::{AllocError, Global};

/// The ranges of the instances of a function, as far as its instructions were walked. The last range of an instance is
/// still open if the last instruction is in its code.
#[derive(Drop)]
pub struct OpenRanges {
    /// Where the last range of each instance began.
    pub starts: Vec<u64>,
    /// The ranges of each that are closed.
    pub ranges: Vec<AddressRanges>,
}

impl OpenRanges {
    /// Of no instances. It takes no memory.
    pub fn new(alloc: Global) -> OpenRanges
        ensures starts { result.starts.items ≡ [] }
        ensures ranges { result.ranges.items ≡ [] }
    {
        OpenRanges {
            starts: Vec::new(alloc),
            ranges: Vec::new(alloc),
        }
    }

    /// Adds instances without ranges, up to a count of instances.
    pub fn grow(&mut self, alloc: Global, count: usize) -> Result<(), AllocError>
        requires starts { length self.old.starts.items ≡ length self.old.ranges.items }
        requires count { length self.old.ranges.items ≤ count }
        ensures { OnOk result (IsGrown count self.old self.new) }
    {
        while self.ranges.len() < count {
            self.starts.push(0)?;
            self.ranges.push(List::new(alloc))?;
        }
        Ok(())
    }

    /// Goes from the code of one instance to that of another one, which begins at an address: closes the ranges of those
    /// that are left, and opens ranges of those that are entered. An instance stands behind those around it, so of two
    /// different ones the later one isn't around the other.
    pub fn shift(
        &mut self,
        instances: &[Instance],
        left: Option<usize>,
        entered: Option<usize>,
        address: u64,
    ) -> Result<(), AllocError>
        requires earlier { AreEarlier instances.now }
        requires starts { length self.old.starts.items ≡ length instances.now }
        requires ranges { length self.old.ranges.items ≡ length instances.now }
        requires left { IfSome left (λ k. k < length instances.now) }
        requires entered { IfSome entered (λ k. k < length instances.now) }
        ensures { (ks js : List ℕ) → AreAround instances.now left ks → AreAround instances.now entered js →
            OnOk result (IsShifted ks js address self.old self.new) }
    {
        let mut inside = left;
        let mut reached = entered;
        'indices: loop {
            match (inside, reached) {
                (None, None) => return Ok(()),
                (Some(old), None) => {
                    self.end_range(old, address)?;
                    inside = instances[old].parent;
                }
                (None, Some(new)) => {
                    self.begin_range(new, address);
                    reached = instances[new].parent;
                }
                (Some(old), Some(new)) => {
                    if old == new {
                        return Ok(());
                    }
                    if old > new {
                        self.end_range(old, address)?;
                        inside = instances[old].parent;
                    } else {
                        self.begin_range(new, address);
                        reached = instances[new].parent;
                    }
                }
            }
        }
    }

    /// Ends the last range of an instance.
    fn end_range(&mut self, index: usize, address: u64) -> Result<(), AllocError>
        requires start { index < length self.old.starts.items }
        requires range { index < length self.old.ranges.items }
        ensures { OnOk result (IsClosed index address self.old self.new) }
    {
        let start = self.starts[index];
        self.ranges[index].push(AddressRange {
            lo: start,
            hi: address,
        })
    }

    /// Begins a range of an instance.
    fn begin_range(&mut self, index: usize, address: u64)
        requires start { index < length self.old.starts.items }
        ensures { IsOpened index address self.old self.new }
    {
        self.starts[index] = address;
    }
}
