//! One line of a function's body, parsed.

ghost use Rattle.std.specs.Prelude.{◌≡◌, ◌≤◌, ◌&&◌, true, false, nat_eq, codes, drop, length, min};
ghost use Rattle.std.specs.List.{prefix_len, starts_with};
ghost use Rattle.read_lexer.specs.Bytes.{is_blank};
ghost use Rattle.read_lexer.specs.Line.{tokens_of};
ghost use Rattle.read_line.specs.Body.{
  behind_blanks,
  is_nothing,
  behind_successors,
  closes_block,
  listing_of,
  is_listing,
  code_of,
  label_of,
  is_colon,
  labelled,
  sentence_of,
  line_of_tokens,
  stands_in,
  volatile_line,
  body_line_of,
  Says,
};

use crate::form::{BodyLine, FormError};
use crate::front::behind_bracket;
use crate::item::item;
use base_ids::function_ids::BlockId;
use read_lexer::bytes::is_blank;
use read_lexer::comment::{before_comment, before_memory_operands};
use read_lexer::fault::LexError;
use read_lexer::lexer::tokens;
use read_token::lexeme::{BEYOND, Lexeme, Word};
use read_token::sentence::lexemes;
use std::alloc::Global;

/// How many spaces and tabs are at the front.
#[tactic(auto, using(read_metadata::proofs::Runs::runs))]
fn blanks(text: &[u8]) -> usize
    ensures value { result ≡ prefix_len is_blank text.now }
    ensures within { result ≤ length text.now }
{
    text.iter().take_while(|b| is_blank(**b)).count()
}

/// A line without the spaces and tabs at its front.
fn behind_blanks(text: &[u8]) -> &[u8]
    ensures { result.now ≡ behind_blanks text.now }
{
    &text[blanks(text)..]
}

/// Whether nothing stands on a line, or a comment.
fn is_nothing(text: &[u8]) -> bool
    ensures { result ≡ is_nothing text.now }
{
    matches!(text, [] | [b';', ..])
}

/// What stands behind the colon of a line that lists successors.
fn behind_successors(text: &[u8]) -> &[u8]
    ensures { result.now ≡ behind_successors text.now }
{
    let start = 11_usize.min(text.len());
    behind_blanks(&text[start..])
}

/// Whether a line lists successors, but none.
#[tactic(auto, unfolding(crate::specs::Body::closes_block))]
fn closes_block(text: &[u8]) -> bool
    ensures { result ≡ closes_block text.now }
{
    let line = behind_blanks(text);
    line.starts_with(b"successors:") && is_nothing(behind_successors(line))
}

/// A line that lists something.
fn listing(linked: bool, text: &[u8]) -> BodyLine
    ensures { result ≡ listing_of linked text.now }
{
    if linked && closes_block(text) {
        BodyLine::Closed
    } else {
        BodyLine::Passed
    }
}

/// Whether a line lists successors or live-in registers.
#[tactic(auto, unfolding(crate::specs::Body::is_listing))]
fn is_listing(text: &[u8]) -> bool
    ensures { result ≡ is_listing text.now }
{
    let line = behind_blanks(text);
    line.starts_with(b"successors:") || line.starts_with(b"liveins:")
}

/// The label of a block; one without a number if that is above the limit.
fn label(block: BlockId) -> BodyLine
    ensures { result ≡ label_of block }
{
    if block.number() < BEYOND {
        BodyLine::Label(Some(block))
    } else {
        BodyLine::Label(None)
    }
}

/// A label with this number, if the rest of the line is a colon.
fn labelled(block: BlockId, rest: &[Lexeme]) -> Result<BodyLine, FormError>
    ensures { result ≡ labelled block (Some rest.now) }
{
    match rest {
        [Lexeme::Colon] => Ok(label(block)),
        _ => Err(FormError::BadLine),
    }
}

/// The parsed line of these lexemes.
#[tactic(auto, unfolding(crate::specs::Body::sentence_of))]
fn sentence(
    alloc: Global,
    linked: bool,
    line: &[u8],
    lexemes: &[Lexeme],
) -> Result<BodyLine, FormError>
    ensures { Says result (sentence_of linked line.now lexemes.now) }
{
    match lexemes {
        [] => Ok(BodyLine::Passed),
        [Lexeme::Word(Word::Block(block), _), Lexeme::Colon, ..] => {
            labelled(*block, &lexemes[1..])
        }
        [Lexeme::Word(Word::Block(block), _), Lexeme::Open, rest @ ..] => match behind_bracket(
            rest,
        ) {
            Some(behind) => labelled(*block, behind),
            None => Err(FormError::BadLine),
        },
        _ => match item(alloc, linked, line, lexemes)? {
            Some(item) => Ok(BodyLine::Item(item)),
            None => Err(FormError::BadLine),
        },
    }
}

/// A line of a function's body, parsed; `linked` is whether the forms of the linked language are read. The errors are
/// `BadByte` and `UnclosedString` for a lexical fault, `BadLine` for lexemes that are no line, and `Memory`.
#[tactic(auto, unfolding(crate::specs::Body::body_line_of, crate::specs::Body::is_volatile))]
pub fn body_line(alloc: Global, linked: bool, text: &[u8]) -> Result<BodyLine, FormError>
    ensures { Says result (body_line_of linked text.now) }
{
    if is_listing(text) {
        return Ok(listing(linked, text));
    }
    let line = before_comment(text);
    let code = before_memory_operands(line);
    if linked && is_volatile(line, code) {
        Ok(volatile_line(lexed(alloc, linked, code)?))
    } else {
        lexed(alloc, linked, code)
    }
}

/// The parsed line of these bytes, which have no comment and no memory operands.
fn lexed(alloc: Global, linked: bool, line: &[u8]) -> Result<BodyLine, FormError>
    ensures { Says result (line_of_tokens linked line.now (tokens_of linked line.now)) }
{
    match tokens(alloc, linked, line) {
        Ok(tokens) => {
            let lexemes = lexemes(alloc, line, tokens.as_slice())?;
            sentence(alloc, linked, line, lexemes.as_slice())
        }
        Err(LexError::BadByte(_)) => Err(FormError::BadByte),
        Err(LexError::UnclosedString(_)) => Err(FormError::UnclosedString),
        Err(LexError::Memory) => Err(FormError::Memory),
    }
}

/// The memory operands of a line, with the `::` before them: the bytes of the line, which has no comment, behind its code.
fn memory_operands<'a>(line: &'a [u8], code: &[u8]) -> &'a [u8]
    ensures { result.now ≡ drop (min (length code.now) (length line.now)) line.now }
{
    &line[code.len().min(line.len())..]
}

/// Whether the bytes stand anywhere in a text.
#[tactic(auto, unfolding(crate::specs::Body::stands_in))]
fn stands_in(word: &[u8], text: &[u8]) -> bool
    ensures { result ≡ stands_in word.now text.now }
{
    let mut rest = text;
    while let [_, behind @ ..] = rest {
        if begins(rest, word) {
            return true;
        }
        rest = behind;
    }
    false
}

/// Whether a text begins with these bytes. Mostly its first byte tells.
fn begins(text: &[u8], word: &[u8]) -> bool
    ensures { result ≡ starts_with nat_eq text.now word.now }
{
    if differ(text, word) {
        return false;
    }
    text.starts_with(word)
}

/// Whether both texts have a first byte, and it isn't the same.
fn differ(text: &[u8], word: &[u8]) -> bool
    ensures { result ≡ true → starts_with nat_eq text.now word.now ≡ false }
{
    if text.is_empty() {
        return false;
    }
    if word.is_empty() {
        return false;
    }
    text[0] != word[0]
}

/// Whether a memory operand behind the code of a line is volatile.
fn is_volatile(line: &[u8], code: &[u8]) -> bool
    ensures { result ≡ stands_in (codes "(volatile ") (drop (min (length code.now) (length line.now)) line.now) }
{
    stands_in(b"(volatile ", memory_operands(line, code))
}

/// The parsed line of a volatile access.
fn volatile_line(line: BodyLine) -> BodyLine
    ensures { result ≡ volatile_line line }
{
    match line {
        BodyLine::Item(form) => {
            let mut form = form;
            form.volatile = true;
            BodyLine::Item(form)
        }
        BodyLine::Passed => BodyLine::Passed,
        BodyLine::Closed => BodyLine::Closed,
        BodyLine::Label(label) => BodyLine::Label(label),
    }
}
