//! The name of a function.

ghost use Rattle.std.specs.Prelude.{◌≡◌, [], Some, drop, IfOk};
ghost use Rattle.read_declarations.specs.Name.{
  opens_with,
  is_single_at,
  first_text,
  are_single,
  spelling_of,
  joined,
  name_by,
  refused_by,
  name_of_line,
  name_of,
};

use crate::entry::bad_line;
use base_list::List;
use read_lexer::fault::LexError;
use read_lexer::lexer::tokens;
use read_lexer::line::Line;
use read_lexer::parts::Token;
use read_metadata::rv64_instr_crate::name::Name;
use read_metadata::text::{inside_quotes, unescaped};
use read_metadata::token::{is_text, is_word, text_of};
use read_refusal::first::Refusal;
use read_refusal::kind::RefusalKind;
use std::alloc::{AllocError, Global};

/// A function's name, or why its line is refused.
#[derive(Debug, Drop)]
pub struct NameRead {
    pub name: Name,
    pub refused: Option<Refusal>,
}

/// How a name is spelled.
#[derive(Clone, Copy, Debug, PartialEq, Eq)]
enum Spelling {
    /// As a word.
    Bare,
    /// In double quotes.
    Double,
    /// In single quotes.
    Single,
    /// In no accepted form.
    Wrong,
}

/// Whether a token is a text in these quotes.
fn opens_with(line: &[u8], quote: u8, token: Token) -> bool
    ensures { result ≡ opens_with line.now quote token }
{
    is_text(token) && text_of(line, token).starts_with(&[quote])
}

/// Whether a token is a text in single quotes that starts at this index.
fn is_single_at(line: &[u8], start: usize, token: Token) -> bool
    ensures { result ≡ is_single_at line.now start token }
{
    opens_with(line, b'\'', token) && token.start == start
}

/// Whether tokens are adjacent texts in single quotes, the first at this index.
fn are_single(line: &[u8], start: usize, tokens: &[Token]) -> bool
    ensures { result ≡ are_single line.now start tokens.now }
{
    let mut end = start;
    for token in tokens {
        if !is_single_at(line, end, *token) {
            return false;
        }
        end = token.end;
    }
    true
}

/// How the tokens after the key spell a name.
#[tactic(auto, unfolding(crate::specs::Name::spelling_of))]
fn spelling_of(line: &[u8], tokens: &[Token]) -> Spelling
    ensures { result ≡ spelling_of line.now tokens.now }
{
    match tokens {
        [token] if is_word(*token) => Spelling::Bare,
        [token] if opens_with(line, b'"', *token) => Spelling::Double,
        [token, ..] if are_single(line, token.start, tokens) => Spelling::Single,
        _ => Spelling::Wrong,
    }
}

/// The name that adjacent texts in single quotes spell: their contents, with one quote between each two.
fn joined(alloc: Global, line: &[u8], tokens: &[Token]) -> Result<Name, AllocError>
    ensures { IfOk result (λ name. name ≡ joined line.now tokens.now) }
{
    let mut quoted = List::new(alloc);
    for token in tokens {
        quoted.push(b'\'')?;
        quoted.extend_from_slice(inside_quotes(text_of(line, *token)))?;
    }
    List::from_slice(alloc, behind_first(quoted.as_slice()))
}

/// Bytes without the first.
fn behind_first(bytes: &[u8]) -> &[u8]
    ensures { result.now ≡ drop 1 bytes.now }
{
    if bytes.is_empty() { bytes } else { &bytes[1..] }
}

/// The bytes of the first token.
fn first_text<'a>(line: &'a [u8], tokens: &[Token]) -> &'a [u8]
    ensures { result.now ≡ first_text line.now tokens.now }
{
    match tokens {
        [token, ..] => text_of(line, *token),
        [] => &line[..0],
    }
}

/// The name that tokens spell, given how they spell it.
fn name_in(
    alloc: Global,
    line: &[u8],
    spelling: Spelling,
    tokens: &[Token],
) -> Result<Name, AllocError>
    ensures { IfOk result (λ name. name ≡ name_by line.now spelling tokens.now) }
{
    match spelling {
        Spelling::Bare => List::from_slice(alloc, first_text(line, tokens)),
        Spelling::Double => unescaped(alloc, inside_quotes(first_text(line, tokens))),
        Spelling::Single => joined(alloc, line, tokens),
        Spelling::Wrong => Ok(List::new(alloc)),
    }
}

/// The refusal of a line that spells a name so.
fn refused_by(line: u32, spelling: Spelling) -> Option<Refusal>
    ensures { result ≡ refused_by line spelling }
{
    match spelling {
        Spelling::Bare | Spelling::Double | Spelling::Single => None,
        Spelling::Wrong => Some(bad_line(line)),
    }
}

/// The tokens after a key and its colon.
pub(crate) fn behind_key(tokens: &[Token]) -> &[Token]
    ensures { result.now ≡ drop 2 tokens.now }
{
    if tokens.len() < 2 { &[] } else { &tokens[2..] }
}

/// No name, and the refusal of a line.
fn refused(alloc: Global, line: u32, kind: RefusalKind) -> NameRead
    ensures { result ≡ record { name = []; refused = Some (record { line = line; kind = kind }) } }
{
    NameRead {
        name: List::new(alloc),
        refused: Some(Refusal { line, kind }),
    }
}

/// The name on a key's own line.
fn name_of_line(alloc: Global, line: &Line) -> Result<NameRead, AllocError>
    ensures { IfOk result (λ read. read ≡ name_of_line line.now) }
{
    let text = line.text.as_slice();
    match tokens(alloc, false, text) {
        Ok(tokens) => {
            let said = behind_key(tokens.as_slice());
            let spelling = spelling_of(text, said);
            Ok(NameRead {
                name: name_in(alloc, text, spelling, said)?,
                refused: refused_by(line.number, spelling),
            })
        }
        Err(LexError::BadByte(_)) => Ok(refused(alloc, line.number, RefusalKind::BadByte)),
        Err(LexError::UnclosedString(_)) => {
            Ok(refused(alloc, line.number, RefusalKind::UnclosedString))
        }
        Err(LexError::Memory) => Err(AllocError),
    }
}

/// The name in the lines of the key `name`: only the key's own line, the first, counts.
pub fn name(alloc: Global, lines: &[Line]) -> Result<NameRead, AllocError>
    ensures { IfOk result (λ read. read ≡ name_of lines.now) }
{
    match lines {
        [line, ..] => name_of_line(alloc, line),
        [] => Ok(NameRead {
            name: List::new(alloc),
            refused: None,
        }),
    }
}
