//! The parameters of a generated function.

ghost use Rattle.std.specs.Prelude.{◌≡◌, ℕ, ◌≤◌, ◌↔◌, Some};
ghost use Rattle.std.specs.Fmt.{decimal};
ghost use Rattle.cli_numbers.specs.Numbers.{IsGeneration};
ghost use Rattle.cli_numbers.specs.declared.generation.Generation.{Generation};

use crate::number::number;

/// The greatest number of a generated function.
const MAX_NUMBER: u64 = 65_536;

/// The greatest number of its blocks.
const MAX_GENERATED_BLOCKS: u64 = 512;

/// A function to generate.
#[derive(Clone, Copy, Debug, PartialEq, Eq)]
pub struct Generation {
    /// Its number: 0 to 65,536.
    pub number: u32,
    /// How many blocks it has: 1 to 512.
    pub blocks: u32,
}

/// The function with the number and the number of blocks in two words; `None` if they aren't such numbers.
pub fn asked(first: &str, second: &str) -> Option<Generation>
    ensures { (g : Generation) → (result ≡ Some g) ↔ IsGeneration first.now second.now g }
{
    let number = number(first, MAX_NUMBER)?;
    let blocks = some_blocks(second)?;
    Some(Generation {
        number: number as u32,
        blocks,
    })
}

/// The number of blocks in a word, 1 to 512.
fn some_blocks(word: &str) -> Option<u32>
    ensures { (n : ℕ) → (result ≡ Some n) ↔ ((word.now ≡ decimal n) × (1 ≤ n) × (n ≤ 512)) }
{
    let blocks = number(word, MAX_GENERATED_BLOCKS)?;
    if blocks == 0 {
        None
    } else {
        Some(blocks as u32)
    }
}
