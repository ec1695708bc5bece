//! The text of a program without its debug items.

ghost use Rattle.std.specs.Prelude.{◌≡◌, IfOk};
ghost use Rattle.strip_command.specs.StripText.{stripped_func_text, stripped_text};

use mir_func::strip::strip;
use mir_func_printer::print::print_linked_func;
use mir_printer::text::Text;
use mir_substitution::substitutions::Substitutions;
use read_program::closing::Parsed;
use std::alloc::{AllocError, Global};

/// The document of a function without its debug items, with the constants of its pool.
fn strip_func(alloc: Global, parsed: &Parsed) -> Result<Text, AllocError>
    ensures { IfOk result (λ text. text ≡ stripped_func_text parsed.now) }
{
    let stripped = strip(alloc, &parsed.func)?;
    print_linked_func(
        alloc,
        &stripped,
        parsed.pool.as_slice(),
        &Substitutions::new(alloc),
        parsed.exposure,
    )
}

/// The documents of functions without debug values, DBG_PHIs, debug instruction numbers and substitutions, in order. The
/// constants of their pools stay.
pub fn strip_text(alloc: Global, functions: &[Parsed]) -> Result<Text, AllocError>
    ensures { IfOk result (λ text. text ≡ stripped_text functions.now) }
{
    let mut text = Text::new(alloc);
    for parsed in functions {
        let document = strip_func(alloc, parsed)?;
        text.extend_from_slice(document.as_slice())?;
    }
    Ok(text)
}
