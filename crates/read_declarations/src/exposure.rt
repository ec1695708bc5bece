//! What a function exposes to other code.

ghost use Rattle.std.specs.Prelude.{◌≡◌, IfOk};
ghost use Rattle.read_declarations.specs.Exposure.{are_true, exposure_of, says_true};

use crate::name::behind_key;
use mir_exposure::exposure::Exposure;
use read_lexer::fault::LexError;
use read_lexer::lexer::tokens;
use read_lexer::line::Line;
use read_lexer::parts::Token;
use read_metadata::token::{is_word, text_of};
use std::alloc::{AllocError, Global};

/// Whether the tokens after a key and its colon are the word `true`.
fn are_true(line: &[u8], tokens: &[Token]) -> bool
    ensures { result ≡ are_true line.now tokens.now }
{
    match tokens {
        [token] => is_word(*token) && text_of(line, *token) == b"true".as_slice(),
        _ => false,
    }
}

/// Whether the key's own line says `true`.
#[tactic(auto, unfolding(crate::specs::Exposure::says_true))]
fn says_true(alloc: Global, lines: &[Line]) -> Result<bool, AllocError>
    ensures { IfOk result (λ twice. twice ≡ says_true lines.now) }
{
    match lines {
        [line, ..] => match tokens(alloc, false, line.text.as_slice()) {
            Ok(tokens) => Ok(are_true(line.text.as_slice(), behind_key(tokens.as_slice()))),
            Err(LexError::BadByte(_) | LexError::UnclosedString(_)) => Ok(false),
            Err(LexError::Memory) => Err(AllocError),
        },
        [] => Ok(false),
    }
}

/// What a function with these lines of `exposesReturnsTwice` exposes: in the linked language the global registers, and
/// all else too if the key says `true`. The error is want of memory.
pub fn exposure(alloc: Global, linked: bool, lines: &[Line]) -> Result<Exposure, AllocError>
    ensures { IfOk result (λ exposed. exposed ≡ exposure_of linked lines.now) }
{
    if !linked {
        return Ok(Exposure::Nothing);
    }
    let twice = says_true(alloc, lines)?;
    Ok(if twice {
        Exposure::Everything
    } else {
        Exposure::Globals
    })
}
