//! Class numbers by first appearance.

ghost use Rattle.std.specs.Prelude.{◌≡◌, ◌<◌, ℕ, cond, nat_eq, nat_lt, Some, None, length, slice_index_or, IfOk, OnOk};
ghost use Rattle.std.specs.HashMap.{get};
ghost use Rattle.value_solver.specs.Numbering.{IsRenumbered};
ghost use Rattle.value_solver.specs.PairNumbers.{IsNumber, is_pair};
ghost use Rattle.value_solver.specs.ClassNumbers.{number_of, number_alone};

use std::alloc::{AllocError, Global};
use std::collections::HashMap;
use std::mem;

/// The numbers that classes have so far.
#[derive(Drop)]
pub struct Numbers {
    /// For each class below this length its number, if it has one.
    pub near: Vec<Option<u32>>,
    /// The numbers of all other classes.
    pub far: HashMap<u64, u32>,
}

/// Numbers classes by first appearance, class 0 first. The numbers from before are forgotten. The error is out of memory.
pub fn renumbered(
    alloc: Global,
    numbers: &mut Numbers,
    classes: &[u64],
) -> Result<Vec<u32>, AllocError>
    requires { length classes.now < 4294967295 }
    ensures { IfOk result (λ c. IsRenumbered classes.now c.items) }
{
    numbers.forget(alloc, classes.len() + 1)?;
    numbers.put(0, 0)?;
    let mut count = 1u32;
    let mut renumbered = Vec::with_capacity(alloc, classes.len())?;
    for i in 0..classes.len() {
        let number = numbers.number(classes[i], &mut count)?;
        renumbered.push(number)?;
    }
    Ok(renumbered)
}

impl Numbers {
    /// No numbers. It takes no memory.
    pub fn new(alloc: Global) -> Numbers {
        Numbers {
            near: Vec::new(alloc),
            far: HashMap::new(alloc),
        }
    }

    /// Forgets all numbers. Those of the classes below this one have room then.
    fn forget(&mut self, alloc: Global, classes: usize) -> Result<(), AllocError>
        ensures { OnOk result ((k : ℕ × ℕ) → number_alone self.new k ≡ None) }
    {
        let near = mem::replace(&mut self.near, Vec::new(alloc));
        self.near = renewed(alloc, near, classes)?;
        self.far.clear();
        Ok(())
    }

    /// The number of a class: that which it has, or the next one, which it gets.
    fn number(&mut self, class: u64, next: &mut u32) -> Result<u32, AllocError>
        requires { next.old < 4294967295 }
        ensures { IfOk result (λ n. IsNumber (number_alone self.old) (number_alone self.new) (0, class) next.old next.new n) }
    {
        match self.find(class) {
            Some(number) => Ok(number),
            None => {
                let number = *next;
                self.put(class, number)?;
                *next += 1;
                Ok(number)
            }
        }
    }

    /// The number of a class, if it has one.
    fn find(&self, class: u64) -> Option<u32>
        ensures { result ≡ number_of self.now class }
    {
        if self.is_near(class) {
            number_at(self.near.as_slice(), class as usize)
        } else {
            find_far(&self.far, class)
        }
    }

    /// Gives a class a number.
    fn put(&mut self, class: u64, number: u32) -> Result<(), AllocError>
        ensures { OnOk result ((k : ℕ × ℕ) →
            number_alone self.new k ≡ cond (is_pair (0, class) k) (Some number) (number_alone self.old k)) }
    {
        if self.is_near(class) {
            set_number(&mut self.near, class as usize, number);
            Ok(())
        } else {
            put_far(&mut self.far, class, number)
        }
    }

    /// Whether the number of a class is in the first table.
    fn is_near(&self, class: u64) -> bool
        ensures { result ≡ nat_lt class (length self.now.near.items) }
    {
        (class as usize) < self.near.len()
    }
}

/// A table of this length without numbers: the one given, if it has this length.
fn renewed(
    alloc: Global,
    numbers: Vec<Option<u32>>,
    length: usize,
) -> Result<Vec<Option<u32>>, AllocError>
    ensures { IfOk result (λ numbers. (k : ℕ) → slice_index_or numbers.items k None ≡ None) }
{
    if numbers.len() != length {
        return no_numbers(alloc, length);
    }
    let mut numbers = numbers;
    clear(&mut numbers);
    Ok(numbers)
}

/// Takes all numbers out of a table.
fn clear(numbers: &mut Vec<Option<u32>>)
    ensures { (k : ℕ) → slice_index_or numbers.new.items k None ≡ None }
{
    for i in 0..numbers.len() {
        numbers[i] = None;
    }
}

/// A table of this length without numbers.
fn no_numbers(alloc: Global, length: usize) -> Result<Vec<Option<u32>>, AllocError>
    ensures { IfOk result (λ numbers. (k : ℕ) → slice_index_or numbers.items k None ≡ None) }
{
    let numbers = vec![in alloc; None; length]?;
    Ok(numbers)
}

/// The number at an index, if there is one.
fn number_at(numbers: &[Option<u32>], index: usize) -> Option<u32>
    ensures { result ≡ slice_index_or numbers.now index None }
{
    match numbers.get(index) {
        Some(number) => *number,
        None => None,
    }
}

/// Puts a number at an index.
fn set_number(numbers: &mut Vec<Option<u32>>, index: usize, number: u32)
    requires { index < length numbers.old.items }
    ensures put { (k : ℕ) → slice_index_or numbers.new.items k None
        ≡ cond (nat_eq k index) (Some number) (slice_index_or numbers.old.items k None) }
    ensures count { length numbers.new.items ≡ length numbers.old.items }
{
    numbers[index] = Some(number);
}

/// The number of a class in the second table.
fn find_far(far: &HashMap<u64, u32>, class: u64) -> Option<u32>
    ensures { result ≡ get nat_eq far.now class }
{
    far.get(&class).copied()
}

/// Gives a class a number in the second table.
fn put_far(far: &mut HashMap<u64, u32>, class: u64, number: u32) -> Result<(), AllocError>
    ensures { OnOk result ((k : ℕ) → get nat_eq far.new k
        ≡ cond (nat_eq k class) (Some number) (get nat_eq far.old k)) }
{
    far.insert(class, number)?;
    Ok(())
}
