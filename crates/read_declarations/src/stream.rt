//! The tokens of a key's lines, as one stream.

ghost use Rattle.std.specs.Prelude.{false, ◌≡◌, ◌++◌, map, take, IfOk, OnOk};
ghost use Rattle.read_lexer.specs.Line.{tokens_of};
ghost use Rattle.read_declarations.specs.Stream.{
  tokens_or_none,
  tokens_up_to,
  line_tokens_of,
  piece_of,
  stream_of,
  text_at,
};

use base_list::List;
use read_lexer::comment::before_comment;
use read_lexer::fault::LexError;
use read_lexer::lexer::tokens;
use read_lexer::line::Line;
use read_lexer::parts::{Token, Tokens};
use read_metadata::token::text_of;
use read_refusal::first::Refusal;
use read_refusal::kind::RefusalKind;
use std::alloc::{AllocError, Global};

/// A token of a key's lines.
#[derive(Clone, Copy, Debug)]
pub struct YamlToken {
    /// The index of its line among the key's lines.
    pub at: usize,
    /// The number of its line in the text, counted from 1.
    pub line: u32,
    /// The token, as a span of its line.
    pub token: Token,
}

/// Tokens of a key's lines, in order.
pub type Pieces = List<YamlToken>;

/// The tokens of a line up to its first fault, and that fault.
#[derive(Debug, Drop)]
pub struct LineTokens {
    pub tokens: Tokens,
    pub fault: Option<RefusalKind>,
}

/// The tokens of a key's lines up to the first fault, and that fault.
#[derive(Debug, Drop)]
pub struct TokenStream {
    pub pieces: Pieces,
    pub fault: Option<Refusal>,
}

/// The tokens of a text, or none if it has a fault.
fn tokens_or_none(alloc: Global, text: &[u8]) -> Result<Tokens, AllocError>
    ensures { IfOk result (λ ts. ts ≡ tokens_or_none (tokens_of false text.now)) }
{
    match tokens(alloc, false, text) {
        Ok(tokens) => Ok(tokens),
        Err(LexError::Memory) => Err(AllocError),
        Err(LexError::BadByte(_)) | Err(LexError::UnclosedString(_)) => Ok(List::new(alloc)),
    }
}

/// The first `len` bytes of a text, or all if there are fewer.
fn front(text: &[u8], len: usize) -> &[u8]
    ensures { result.now ≡ take len text.now }
{
    if len < text.len() { &text[..len] } else { text }
}

/// The tokens of a text up to its first fault, if it has one.
fn tokens_up_to(alloc: Global, text: &[u8]) -> Result<Tokens, AllocError>
    ensures { IfOk result (λ ts. ts ≡ tokens_up_to text.now (tokens_of false text.now)) }
{
    match tokens(alloc, false, text) {
        Ok(tokens) => Ok(tokens),
        Err(LexError::Memory) => Err(AllocError),
        Err(LexError::BadByte(at)) | Err(LexError::UnclosedString(at)) => {
            tokens_or_none(alloc, front(text, at))
        }
    }
}

/// The tokens of a line's bytes up to the first fault, and that fault.
fn line_tokens(alloc: Global, text: &[u8]) -> Result<LineTokens, AllocError>
    ensures { IfOk result (λ read. read ≡ line_tokens_of text.now (tokens_of false text.now)) }
{
    match tokens(alloc, false, text) {
        Ok(tokens) => Ok(LineTokens {
            tokens,
            fault: None,
        }),
        Err(LexError::Memory) => Err(AllocError),
        Err(LexError::BadByte(at)) => Ok(LineTokens {
            tokens: tokens_up_to(alloc, front(text, at))?,
            fault: Some(RefusalKind::BadByte),
        }),
        Err(LexError::UnclosedString(at)) => Ok(LineTokens {
            tokens: tokens_up_to(alloc, front(text, at))?,
            fault: Some(RefusalKind::UnclosedString),
        }),
    }
}

/// Appends a line's tokens.
fn push_pieces(
    pieces: &mut Pieces,
    at: usize,
    line: u32,
    tokens: &[Token],
) -> Result<(), AllocError>
    ensures { OnOk result (pieces.new ≡ pieces.old ++ map (piece_of at line) tokens.now) }
{
    for token in tokens {
        pieces.push(YamlToken {
            at,
            line,
            token: *token,
        })?;
    }
    Ok(())
}

/// The tokens of a key's lines without comments, up to the first fault.
pub fn stream(alloc: Global, lines: &[Line]) -> Result<TokenStream, AllocError>
    ensures { IfOk result (λ stream. stream ≡ stream_of lines.now) }
{
    let mut pieces = List::new(alloc);
    for (at, line) in lines.iter().enumerate() {
        let read = line_tokens(alloc, before_comment(line.text.as_slice()))?;
        push_pieces(&mut pieces, at, line.number, read.tokens.as_slice())?;
        if let Some(kind) = read.fault {
            let fault = Some(Refusal {
                line: line.number,
                kind,
            });
            return Ok(TokenStream { pieces, fault });
        }
    }
    Ok(TokenStream {
        pieces,
        fault: None,
    })
}

/// The bytes of a token of a key's lines.
pub fn text_at(lines: &[Line], piece: YamlToken) -> &[u8]
    ensures { result.now ≡ text_at lines.now piece }
{
    match lines.get(piece.at) {
        Some(line) => text_of(line.text.as_slice(), piece.token),
        None => &[],
    }
}
