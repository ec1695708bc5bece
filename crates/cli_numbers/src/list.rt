//! Lists of numbers, separated by commas.

ghost use Rattle.std.specs.Prelude.{◌≡◌, ◌==◌, ◌≤◌, List, ℕ, ◌↔◌, Some, IfOk, map, length};
ghost use Rattle.std.specs.List.{slice_split};
ghost use Rattle.cli_numbers.specs.Numbers.{AreListed, AreSpelled, IsOption};

use crate::number::number;
use base_list::List;
use std::alloc::{AllocError, Global};

/// Numbers, in their order.
pub type Numbers = List<u64>;

/// The numbers of an option: the word is its name, up to the equals sign, and then the list. `None` if the word is
/// something else.
pub fn option(
    alloc: Global,
    word: &str,
    name: &str,
    most: usize,
) -> Result<Option<Numbers>, AllocError>
    ensures { IfOk result (λ o. (values : List ℕ) → (o ≡ Some values) ↔ IsOption most name.now word.now values) }
{
    match word.strip_prefix(name) {
        Some(text) => numbers(alloc, text, most),
        None => Ok(None),
    }
}

/// The numbers in a text, separated by commas: one or more, and at most `most`. `None` if the text is no such list.
pub fn numbers(alloc: Global, text: &str, most: usize) -> Result<Option<Numbers>, AllocError>
    ensures { IfOk result (λ o. (values : List ℕ) → (o ≡ Some values) ↔ AreListed most text.now values) }
{
    let pieces = pieces(alloc, text)?;
    each_number(alloc, &pieces, most)
}

/// The pieces of a text between its commas.
pub fn pieces(alloc: Global, text: &str) -> Result<Vec<&str>, AllocError>
    ensures { IfOk result (λ v. map (λ x. x.now) v.items ≡ slice_split (λ b. b == 44) text.now) }
{
    text.split(',').collect(alloc)
}

/// The number in each piece; `None` if a piece is no number, or there are more than `most`.
fn each_number(alloc: Global, pieces: &[&str], most: usize) -> Result<Option<Numbers>, AllocError>
    ensures { IfOk result (λ o. (values : List ℕ) →
        (o ≡ Some values) ↔ (AreSpelled (map (λ p. p.now) pieces.now) values × (length values ≤ most))) }
{
    if pieces.len() > most {
        return Ok(None);
    }
    let mut values = Numbers::new(alloc);
    for piece in pieces {
        match number(piece, u64::MAX) {
            Some(n) => values.push(n)?,
            None => return Ok(None),
        }
    }
    Ok(Some(values))
}
