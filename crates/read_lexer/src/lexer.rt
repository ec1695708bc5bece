//! The tokens of a line.

ghost use Rattle.std.specs.Prelude.{◌≡◌, ℕ, [], IfOk, IsErrOf};
ghost use Rattle.std.specs.List.{AllByRecursion};
ghost use Rattle.read_lexer.specs.Spelling.{IsLongest, BeginsNothing};
ghost use Rattle.read_lexer.specs.Line.{Gives, tokens_of, AreSpans, IsUnclosed};

use crate::bytes::is_blank;
use crate::fault::LexError;
use crate::front::token_at;
use crate::parts::Tokens;
use base_list::List;
use std::alloc::{AllocError, Global};

/// How many tokens there is room for at first. Most lines have no more.
const ROOM: usize = 16;

/// The tokens of a line, from left to right, or its leftmost fault. `floats` is whether floating-point literals are
/// tokens.
pub fn tokens(alloc: Global, floats: bool, line: &[u8]) -> Result<Tokens, LexError>
    // They are the line's tokens, and the fault is its first one.
    ensures exact { Gives result (tokens_of floats line.now) }
    // Spans ascend, and only spaces and tabs stand outside them.
    ensures spans { IfOk result (λ ts. AreSpans line.now 0 ts) }
    // A token's text is one of its class, and no longer text at its place is a token.
    ensures longest { IfOk result (λ ts. AllByRecursion (IsLongest floats line.now) ts) }
    // No text that begins at such a byte is a token.
    ensures bad_byte { (at : ℕ) → IsErrOf result (LexError.BadByte at) → BeginsNothing floats line.now at }
    // Such a quote opens a text that nothing closes.
    ensures unclosed { (at : ℕ) → IsErrOf result (LexError.UnclosedString at) → IsUnclosed line.now at }
{
    let mut tokens = no_tokens(alloc)?;
    let mut at = 0;
    while at < line.len() {
        let first = line[at];
        if is_blank(first) {
            at += 1;
        } else {
            let token = token_at(floats, at, first, &line[at + 1..])?;
            tokens.push(token)?;
            at = token.end;
        }
    }
    Ok(tokens)
}

/// No tokens yet, with room for those of most lines.
fn no_tokens(alloc: Global) -> Result<Tokens, AllocError>
    ensures { IfOk result (λ ts. ts ≡ []) }
{
    let room = Vec::with_capacity(alloc, ROOM)?;
    Ok(List::from(room))
}
