//! The text of an output.

ghost use Rattle.std.specs.Prelude.{◌≡◌, IfOk};
ghost use Rattle.listing_text.specs.Output.{spelling, listing_text};

use crate::functions::push_functions;
use crate::output::{ListedFunction, Output};
use crate::section::push_sections;
use mir_printer::text::Text;
use std::alloc::{AllocError, Global};

/// The text of an output: the bytes of its sections, and the listing of its functions.
pub fn print_output(alloc: Global, output: &Output) -> Result<Text, AllocError>
    ensures { IfOk result (λ text. text ≡ spelling output.now) }
{
    let mut text = Text::new(alloc);
    push_sections(&mut text, output)?;
    push_functions(&mut text, output.functions.as_slice())?;
    Ok(text)
}

/// The listing of functions alone.
pub fn print_listing(alloc: Global, functions: &[ListedFunction]) -> Result<Text, AllocError>
    ensures { IfOk result (λ text. text ≡ listing_text functions.now) }
{
    let mut text = Text::new(alloc);
    push_functions(&mut text, functions)?;
    Ok(text)
}
