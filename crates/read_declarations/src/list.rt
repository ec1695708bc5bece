//! The list under a key: `[]`, or entries on the lines of the key.

ghost use Rattle.std.specs.Prelude.{◌≡◌, drop, IfOk};
ghost use Rattle.read_declarations.specs.List.{is_empty_list, behind_empty, list_in, list_of};

use crate::entry::{Listing, bad_line, entries, is_punctuation};
use crate::stream::{YamlToken, stream};
use base_list::List;
use read_lexer::line::Line;
use read_refusal::first::{Refusal, earlier};
use std::alloc::{AllocError, Global};

/// Whether two tokens are `[` and `]` on the key's own line.
fn is_empty_list(opening: YamlToken, closing: YamlToken) -> bool
    ensures { result ≡ is_empty_list opening closing }
{
    is_punctuation(b'[', opening)
        && is_punctuation(b']', closing)
        && opening.at == 0
        && closing.at == 0
}

/// The refusal of the first token after `[]`, if there is one.
fn behind_empty(rest: &[YamlToken]) -> Option<Refusal>
    ensures { result ≡ behind_empty rest.now }
{
    match rest {
        [first, ..] => Some(bad_line(first.line)),
        [] => None,
    }
}

/// The list in the tokens after a key.
#[tactic(auto, unfolding(crate::specs::List::list_in))]
fn list_in(
    alloc: Global,
    lines: &[Line],
    pieces: &[YamlToken],
    is_cut: bool,
) -> Result<Listing, AllocError>
    ensures { IfOk result (λ read. read ≡ list_in lines.now is_cut pieces.now) }
{
    match pieces {
        [opening, closing, rest @ ..] if is_empty_list(*opening, *closing) => Ok(Listing {
            entries: List::new(alloc),
            refused: behind_empty(rest),
        }),
        _ => entries(alloc, lines, pieces, is_cut),
    }
}

/// The tokens after a key and its colon.
fn behind_key(pieces: &[YamlToken]) -> &[YamlToken]
    ensures { result.now ≡ drop 2 pieces.now }
{
    if pieces.len() < 2 { &[] } else { &pieces[2..] }
}

/// The list in the lines of a key. No lines are an empty list.
pub fn list(alloc: Global, lines: &[Line]) -> Result<Listing, AllocError>
    ensures { IfOk result (λ read. read ≡ list_of lines.now) }
{
    let stream = stream(alloc, lines)?;
    let is_cut = stream.fault.is_some();
    let read = list_in(alloc, lines, behind_key(stream.pieces.as_slice()), is_cut)?;
    Ok(Listing {
        entries: read.entries,
        refused: earlier(stream.fault, read.refused),
    })
}
