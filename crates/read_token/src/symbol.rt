//! The names of symbols.

ghost use Rattle.std.specs.Prelude.{◌≡◌, IfOk};
ghost use Rattle.read_metadata.specs.Definition.{name_of};
ghost use Rattle.read_token.specs.Sentence.{symbol_name};

use crate::sentence::text_of;
use base_list::List;
use read_metadata::read_lexer_crate::parts::Token;
use read_metadata::rv64_instr_crate::name::Name;
use read_metadata::text::{inside_quotes, unescaped};
use std::alloc::{AllocError, Global};

/// The name of a symbol, from the text after its `@` or `&`.
fn name_of(alloc: Global, name: &[u8]) -> Result<Name, AllocError>
    ensures { IfOk result (λ read. read ≡ name_of name.now) }
{
    match name {
        [b'"', ..] => unescaped(alloc, inside_quotes(name)),
        _ => List::from_slice(alloc, name),
    }
}

/// The name of a symbol on a line, with escapes replaced by their bytes.
pub fn symbol_name(alloc: Global, line: &[u8], token: Token) -> Result<Name, AllocError>
    ensures { IfOk result (λ read. read ≡ symbol_name line.now token) }
{
    match text_of(line, token) {
        [_, name @ ..] => name_of(alloc, name),
        [] => Ok(List::new(alloc)),
    }
}
