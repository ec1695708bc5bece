//! The table of the scopes of a function.

ghost use Rattle.std.specs.Prelude.{◌≡◌, ◌<◌, List, ◌∷◌, ◌++◌, [], length, get_or, slice_set, IfOk, OnOk};
ghost use Rattle.std.specs.Ordering.{nat_cmp};
ghost use Rattle.std.specs.BTreeSet.{contains};
ghost use Rattle.std.specs.List.{position_or_len};
ghost use Rattle.scope_ways.specs.declared.scope.LexicalScope.{LexicalScope};
ghost use Rattle.scope_ways.specs.Outer.{is_scope};
ghost use Rattle.scope_ways.specs.Ways.{is_same};
ghost use Rattle.scope_ranges.specs.declared.scope.Scope.{Scope};
ghost use Rattle.scope_ranges.specs.steps.Entered.{joined, places, no_scope, with_addresses, with_code, IsEntering};

use crate::known::KnownScopes;
use crate::scope::Scope;
use dwarf_rnglists::range::{AddressRange, AddressRanges};
use read_metadata::metadata::Metadata;
use scope_ways::outer::is_scope;
use scope_ways::scope::LexicalScope;
use std::alloc::{AllocError, Global};
use std::collections::BTreeSet;
use std::mem;

/// The scopes of a function, as far as its instructions were walked.
#[derive(Drop)]
pub struct ScopeTable {
    /// Which they are.
    pub known: KnownScopes,
    /// The scopes.
    pub scopes: Vec<Scope>,
}

impl ScopeTable {
    /// No scopes. It takes no memory.
    pub fn new(alloc: Global) -> ScopeTable
        ensures known { result.known ≡ [] }
        ensures scopes { result.scopes.items ≡ [] }
    {
        ScopeTable {
            known: KnownScopes::new(alloc),
            scopes: Vec::new(alloc),
        }
    }

    /// Adds the addresses of an instruction to those of the scopes on a way, outer ones first, and gives the index of
    /// the last one. The error is out of memory.
    pub fn enter(
        &mut self,
        alloc: Global,
        meta: &Metadata,
        files: &BTreeSet<u32>,
        way: Vec<LexicalScope>,
        addresses: &AddressRange,
    ) -> Result<Option<usize>, AllocError>
        requires { self.old.known ≡ places self.old.scopes.items }
        ensures known { OnOk result (self.new.known ≡ places self.new.scopes.items) }
        ensures scopes { IfOk result (IsEntering (is_scope meta.now (contains nat_cmp files.now))
            self.old.scopes.items way.items [] addresses.now.lo addresses.now.hi self.new.scopes.items) }
    {
        let mut way = way;
        let mut outer = None;
        while let Some(scope) = way.pop() {
            outer = self.enter_scope(alloc, meta, files, &scope, outer, addresses)?;
        }
        Ok(outer)
    }

    /// Adds the addresses of an instruction to those of the next scope on a way, if it is one of its own, and gives the
    /// index of the last one that is.
    fn enter_scope(
        &mut self,
        alloc: Global,
        meta: &Metadata,
        files: &BTreeSet<u32>,
        scope: &LexicalScope,
        outer: Option<usize>,
        addresses: &AddressRange,
    ) -> Result<Option<usize>, AllocError>
        requires { self.old.known ≡ places self.old.scopes.items }
        ensures known { OnOk result (self.new.known ≡ places self.new.scopes.items) }
        ensures scopes { (old : List Scope) (whole left : List LexicalScope) →
            IsEntering (is_scope meta.now (contains nat_cmp files.now)) old whole (left ++ scope.now ∷ [])
            addresses.now.lo addresses.now.hi self.old.scopes.items outer →
            IfOk result (IsEntering (is_scope meta.now (contains nat_cmp files.now)) old whole left
            addresses.now.lo addresses.now.hi self.new.scopes.items) }
    {
        if is_scope(meta, files, scope) {
            let index = self.add(alloc, scope, outer, addresses)?;
            return Ok(Some(index));
        }
        Ok(outer)
    }

    /// Adds the addresses of an instruction to those of a scope, and gives its index. A new one is appended.
    fn add(
        &mut self,
        alloc: Global,
        place: &LexicalScope,
        parent: Option<usize>,
        addresses: &AddressRange,
    ) -> Result<usize, AllocError>
        requires { self.old.known ≡ places self.old.scopes.items }
        ensures known { OnOk result (self.new.known ≡ places self.new.scopes.items) }
        ensures scopes { OnOk result (self.new.scopes.items
            ≡ with_code self.old.scopes.items place.now parent addresses.now.lo addresses.now.hi) }
        ensures index { IfOk result (λ k. k ≡ position_or_len (is_same place.now) (places self.old.scopes.items)) }
    {
        let index = self.known.number(place)?;
        let count = self.scopes.len();
        if index < count {
            self.extend(alloc, index, addresses)?;
            return Ok(index);
        }
        let ranges = one_range(alloc, addresses)?;
        self.scopes.push(Scope {
            place: *place,
            parent,
            ranges,
        })?;
        Ok(index)
    }

    /// Adds the addresses of an instruction to those of the scope with an index.
    fn extend(
        &mut self,
        alloc: Global,
        index: usize,
        addresses: &AddressRange,
    ) -> Result<(), AllocError>
        requires { index < length self.old.scopes.items }
        ensures known { OnOk result (self.new.known ≡ self.old.known) }
        ensures scopes { OnOk result (self.new.scopes.items ≡ slice_set self.old.scopes.items index
            (with_addresses (get_or self.old.scopes.items index no_scope) addresses.now.lo addresses.now.hi)) }
    {
        self.scopes[index].extend(alloc, addresses)
    }
}

fn one_range(alloc: Global, range: &AddressRange) -> Result<AddressRanges, AllocError>
    ensures { IfOk result (λ ranges. ranges ≡ range.now ∷ []) }
{
    let mut ranges = AddressRanges::new(alloc);
    ranges.push(*range)?;
    Ok(ranges)
}

impl Scope {
    /// Adds the addresses of an instruction.
    fn extend(&mut self, alloc: Global, addresses: &AddressRange) -> Result<(), AllocError>
        ensures { OnOk result (self.new ≡ with_addresses self.old addresses.now.lo addresses.now.hi) }
    {
        let ranges = mem::replace(&mut self.ranges, AddressRanges::new(alloc));
        self.ranges = joined(ranges, addresses)?;
        Ok(())
    }
}

/// Ranges with the addresses of an instruction behind them, which lengthen the last one if they begin where it ends.
fn joined(ranges: AddressRanges, addresses: &AddressRange) -> Result<AddressRanges, AllocError>
    ensures { IfOk result (λ now. now ≡ joined ranges addresses.now.lo addresses.now.hi) }
{
    let mut items = ranges.into_vec();
    match items.pop() {
        None => pushed(items, addresses),
        Some(last) => joined_behind(items, &last, addresses),
    }
}

/// The same, of the last range and those before it.
fn joined_behind(
    before: Vec<AddressRange>,
    last: &AddressRange,
    addresses: &AddressRange,
) -> Result<AddressRanges, AllocError>
    ensures { IfOk result (λ now. now
        ≡ before.items ++ joined (last.now ∷ []) addresses.now.lo addresses.now.hi) }
{
    if last.hi == addresses.lo {
        let whole = AddressRange {
            lo: last.lo,
            hi: addresses.hi,
        };
        pushed(before, &whole)
    } else {
        both_pushed(before, last, addresses)
    }
}

fn both_pushed(
    before: Vec<AddressRange>,
    first: &AddressRange,
    second: &AddressRange,
) -> Result<AddressRanges, AllocError>
    ensures { IfOk result (λ ranges. ranges ≡ (before.items ++ first.now ∷ []) ++ second.now ∷ []) }
{
    let mut items = before;
    items.push(*first)?;
    items.push(*second)?;
    Ok(AddressRanges::from(items))
}

fn pushed(before: Vec<AddressRange>, range: &AddressRange) -> Result<AddressRanges, AllocError>
    ensures { IfOk result (λ ranges. ranges ≡ before.items ++ range.now ∷ []) }
{
    let mut items = before;
    items.push(*range)?;
    Ok(AddressRanges::from(items))
}
