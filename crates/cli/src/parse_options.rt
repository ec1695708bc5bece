//! All options of a command.

ghost use Rattle.std.specs.Prelude.{◌≡◌, ◌↔◌, map, string_bytes, Some, IfOk};
ghost use Rattle.cli.specs.Options.{none_given, GivesOption, GiveOptions};
ghost use Rattle.cli.specs.declared.options.Options.{Options};

use crate::option::command_option;
use crate::options::Options;
use std::alloc::{AllocError, Global};

/// The options in these words, in any order and each at most once; `None` if a word is no option, or repeats one.
pub fn options(alloc: Global, words: &[String]) -> Result<Option<Options>, AllocError>
    ensures { IfOk result (λ o. (whole : Options) →
        (o ≡ Some whole) ↔ GiveOptions none_given (map string_bytes words.now) whole) }
{
    let mut given = Options::none();
    for word in words {
        match with_word(alloc, given, word.as_str())? {
            Some(next) => given = next,
            None => return Ok(None),
        }
    }
    Ok(Some(given))
}

/// The options with the one in a word; `None` if the word is no option, or one that is among them already.
fn with_word(alloc: Global, given: Options, word: &str) -> Result<Option<Options>, AllocError>
    ensures { IfOk result (λ o. (next : Options) → (o ≡ Some next) ↔ GivesOption given word.now next) }
{
    match command_option(alloc, word)? {
        Some(option) => Ok(given.with(option)),
        None => Ok(None),
    }
}
