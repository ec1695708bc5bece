//! The join of two lists of class numbers.

ghost use Rattle.std.specs.Prelude.{◌≡◌, ◌<◌, ℕ, cond, nat_eq, Some, None, true, false, length, slice_index_or, IfOk, OnOk};
ghost use Rattle.std.specs.HashMap.{get};
ghost use Rattle.value_solver.specs.Numbering.{IsMeet};
ghost use Rattle.value_solver.specs.PairNumbers.{IsNumber, IsTidy, number_at, number_behind, number_in, is_pair};

use crate::renumber::Numbers;
use std::alloc::{AllocError, Global};
use std::collections::HashMap;
use std::mem;

/// The pairs of classes that a join has met, with their numbers. One serves all joins.
#[derive(Drop)]
pub struct Pairs {
    /// For each class of the second list below this length the first pair of it that was met, if one was.
    pub firsts: Vec<Option<First>>,
    /// For each class of the first list below this length the first pair of it that isn't among those, if one was met.
    /// There is room from the first such pair on.
    pub seconds: Vec<Option<First>>,
    /// The numbers of all other pairs.
    pub others: HashMap<(u32, u64), u32>,
    /// The numbers of classes, where those of one list are numbered anew.
    pub numbers: Numbers,
}

/// A pair, of a known class of one of the lists.
#[derive(Clone, Copy, Debug)]
pub struct First {
    /// Its class of the other list.
    pub class: u64,
    /// Its number.
    pub number: u32,
}

/// Numbers pairs of classes by first appearance, the pair of 0 and 0 first. The pairs met before are forgotten. A pair is
/// looked up by the index of one of its classes, if it is the first one of that class; only other pairs are hashed.
pub fn meet(alloc: Global, pairs: &mut Pairs, a: &[u32], b: &[u64]) -> Result<Vec<u32>, AllocError>
    requires few { length a.now < 4294967295 }
    requires long { length b.now ≡ length a.now }
    ensures { IfOk result (λ c. IsMeet a.now b.now c.items) }
{
    pairs.forget(alloc, b.len() + 1)?;
    pairs.put(alloc, 0, 0, 0)?;
    let mut count = 1u32;
    let mut classes = Vec::with_capacity(alloc, a.len())?;
    for i in 0..a.len() {
        let number = pairs.number(alloc, a[i], b[i], &mut count)?;
        classes.push(number)?;
    }
    Ok(classes)
}

impl Pairs {
    /// No pairs. It takes no memory.
    pub fn new(alloc: Global) -> Pairs {
        Pairs {
            firsts: Vec::new(alloc),
            seconds: Vec::new(alloc),
            others: HashMap::new(alloc),
            numbers: Numbers::new(alloc),
        }
    }

    /// Forgets all pairs. The first pairs of classes below this one have room then.
    fn forget(&mut self, alloc: Global, classes: usize) -> Result<(), AllocError>
        ensures none { OnOk result ((k : ℕ × ℕ) → number_in self.new k ≡ None) }
        ensures tidy { OnOk result (IsTidy self.new) }
    {
        let firsts = mem::replace(&mut self.firsts, Vec::new(alloc));
        self.firsts = renewed(alloc, firsts, classes)?;
        self.seconds = Vec::new(alloc);
        self.others.clear();
        Ok(())
    }

    /// The number of a pair: that which it has, or the next one, which it gets.
    fn number(&mut self, alloc: Global, a: u32, b: u64, next: &mut u32) -> Result<u32, AllocError>
        requires few { next.old < 4294967295 }
        requires tidy { IsTidy self.old }
        ensures number { IfOk result (λ n. IsNumber (number_in self.old) (number_in self.new) (a, b) next.old next.new n) }
        ensures tidy { OnOk result (IsTidy self.new) }
    {
        if has_room(self.firsts.as_slice(), b as usize) {
            let number = *next;
            self.put_first(a, b, number);
            *next += 1;
            return Ok(number);
        }
        match self.find(a, b) {
            Some(number) => Ok(number),
            None => {
                let number = *next;
                self.put(alloc, a, b, number)?;
                *next += 1;
                Ok(number)
            }
        }
    }

    /// The number of a pair, if it was met.
    fn find(&self, a: u32, b: u64) -> Option<u32>
        requires { IsTidy self.now }
        ensures { result ≡ number_in self.now (a, b) }
    {
        match first_at(self.firsts.as_slice(), b as usize) {
            Some(first) => {
                if first.class == u64::from(a) {
                    Some(first.number)
                } else {
                    self.find_second(a, b)
                }
            }
            None => self.find_free(a, b),
        }
    }

    /// The number of a pair of a second class without a first pair. If the class has a place for one, the pair wasn't met.
    fn find_free(&self, a: u32, b: u64) -> Option<u32>
        requires tidy { IsTidy self.now }
        requires free { slice_index_or self.now.firsts.items b None ≡ None }
        ensures { result ≡ number_behind self.now (a, b) }
    {
        if (b as usize) < self.firsts.len() {
            return None;
        }
        self.find_second(a, b)
    }

    /// The number of a pair that isn't the first one of its second class, if it was met.
    fn find_second(&self, a: u32, b: u64) -> Option<u32>
        ensures { result ≡ number_behind self.now (a, b) }
    {
        match first_at(self.seconds.as_slice(), a as usize) {
            Some(first) => {
                if first.class == b {
                    Some(first.number)
                } else {
                    find_other(&self.others, a, b)
                }
            }
            None => find_other(&self.others, a, b),
        }
    }

    /// Gives a pair that wasn't met a number.
    fn put(&mut self, alloc: Global, a: u32, b: u64, number: u32) -> Result<(), AllocError>
        requires unmet { number_in self.old (a, b) ≡ None }
        requires tidy { IsTidy self.old }
        ensures put { OnOk result ((k : ℕ × ℕ) →
            number_in self.new k ≡ cond (is_pair (a, b) k) (Some number) (number_in self.old k)) }
        ensures tidy { OnOk result (IsTidy self.new) }
    {
        if has_room(self.firsts.as_slice(), b as usize) {
            self.put_first(a, b, number);
            Ok(())
        } else {
            self.put_second(alloc, a, b, number)
        }
    }

    /// Gives a pair a number, as the first one of its second class.
    fn put_first(&mut self, a: u32, b: u64, number: u32)
        requires room { b < length self.old.firsts.items }
        requires free { slice_index_or self.old.firsts.items b None ≡ None }
        requires tidy { IsTidy self.old }
        ensures put { (k : ℕ × ℕ) →
            number_in self.new k ≡ cond (is_pair (a, b) k) (Some number) (number_in self.old k) }
        ensures tidy { IsTidy self.new }
    {
        let first = First {
            class: u64::from(a),
            number,
        };
        set_first(&mut self.firsts, b as usize, first);
    }

    /// Gives a pair that wasn't met, and isn't the first one of its second class, a number.
    fn put_second(&mut self, alloc: Global, a: u32, b: u64, number: u32) -> Result<(), AllocError>
        requires { number_behind self.old (a, b) ≡ None }
        ensures { OnOk result ((self.new.firsts.items ≡ self.old.firsts.items) × ((k : ℕ × ℕ) →
            number_behind self.new k ≡ cond (is_pair (a, b) k) (Some number) (number_behind self.old k))) }
    {
        self.make_room(alloc)?;
        let index = a as usize;
        if has_room(self.seconds.as_slice(), index) {
            set_first(&mut self.seconds, index, First { class: b, number });
            Ok(())
        } else {
            put_other(&mut self.others, a, b, number)
        }
    }

    /// Makes room for first pairs by their first class, where there is none.
    fn make_room(&mut self, alloc: Global) -> Result<(), AllocError>
        ensures { OnOk result ((self.new.firsts.items ≡ self.old.firsts.items) × ((k : ℕ × ℕ) →
            number_behind self.new k ≡ number_behind self.old k)) }
    {
        if !self.seconds.is_empty() {
            return Ok(());
        }
        self.seconds = no_firsts(alloc, self.firsts.len())?;
        Ok(())
    }
}

/// A table of this length without pairs: the one given, if it has this length.
fn renewed(
    alloc: Global,
    firsts: Vec<Option<First>>,
    length: usize,
) -> Result<Vec<Option<First>>, AllocError>
    ensures { IfOk result (λ firsts. (k : ℕ) → slice_index_or firsts.items k None ≡ None) }
{
    if firsts.len() != length {
        return no_firsts(alloc, length);
    }
    let mut firsts = firsts;
    clear(&mut firsts);
    Ok(firsts)
}

/// Takes all pairs out of a table.
fn clear(firsts: &mut Vec<Option<First>>)
    ensures { (k : ℕ) → slice_index_or firsts.new.items k None ≡ None }
{
    for i in 0..firsts.len() {
        firsts[i] = None;
    }
}

/// A table of this length without pairs.
fn no_firsts(alloc: Global, length: usize) -> Result<Vec<Option<First>>, AllocError>
    ensures { IfOk result (λ firsts. (k : ℕ) → slice_index_or firsts.items k None ≡ None) }
{
    let firsts = vec![in alloc; None; length]?;
    Ok(firsts)
}

/// The first pair at an index, if there is one.
fn first_at(firsts: &[Option<First>], index: usize) -> Option<First>
    ensures { result ≡ slice_index_or firsts.now index None }
{
    match firsts.get(index) {
        Some(first) => *first,
        None => None,
    }
}

/// Whether a first pair can be put at an index: there is none.
fn has_room(firsts: &[Option<First>], index: usize) -> bool
    ensures within { result ≡ true → index < length firsts.now }
    ensures free { result ≡ true → slice_index_or firsts.now index None ≡ None }
    ensures taken { result ≡ false → index < length firsts.now → slice_index_or firsts.now index None ≡ None → ⊥ }
{
    if index < firsts.len() {
        match firsts[index] {
            Some(_) => false,
            None => true,
        }
    } else {
        false
    }
}

/// Puts a first pair at an index.
fn set_first(firsts: &mut Vec<Option<First>>, index: usize, first: First)
    requires { index < length firsts.old.items }
    ensures put { (k : ℕ) → slice_index_or firsts.new.items k None
        ≡ cond (nat_eq k index) (Some first) (slice_index_or firsts.old.items k None) }
    ensures count { length firsts.new.items ≡ length firsts.old.items }
{
    firsts[index] = Some(first);
}

/// The number in the table of a pair.
fn find_other(others: &HashMap<(u32, u64), u32>, a: u32, b: u64) -> Option<u32>
    ensures { result ≡ get is_pair others.now (a, b) }
{
    if others.is_empty() {
        return None;
    }
    others.get(&(a, b)).copied()
}

/// Maps a pair to a number.
fn put_other(
    others: &mut HashMap<(u32, u64), u32>,
    a: u32,
    b: u64,
    number: u32,
) -> Result<(), AllocError>
    ensures { OnOk result ((k : ℕ × ℕ) →
        get is_pair others.new k ≡ cond (is_pair (a, b) k) (Some number) (get is_pair others.old k)) }
{
    others.insert((a, b), number)?;
    Ok(())
}
