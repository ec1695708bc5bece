//! The lexemes of the tokens of a line.

ghost use Rattle.std.specs.Prelude.{◌≡◌, IfOk};
ghost use Rattle.read_metadata.specs.Token.{text_of};
ghost use Rattle.read_token.specs.Sentence.{node_of, kind_of, single_of, lexeme_of, lexemes_of};

use crate::lexeme::{Lexeme, Lexemes};
use crate::number::{limited, number};
use crate::register::{percent, register};
use crate::word::word;
use base_ids::metadata::NodeId;
use base_list::List;
use read_metadata::read_lexer_crate::parts::{Class, Token};
use std::alloc::{AllocError, Global};

/// The bytes of a line that a token spans, up to the end of the line.
pub fn text_of(line: &[u8], token: Token) -> &[u8]
    ensures { result.now ≡ text_of line.now token }
{
    let end = token.end.min(line.len());
    let start = token.start.min(end);
    &line[start..end]
}

/// The number of a node.
fn node(text: &[u8]) -> NodeId
    ensures { result ≡ node_of text.now }
{
    match text {
        [_, digits @ ..] => NodeId(limited(digits)),
        [] => NodeId(limited(text)),
    }
}

/// The lexeme of a kind of nodes.
#[tactic(auto, unfolding(crate::specs::Sentence::kind_of))]
fn kind(text: &[u8]) -> Lexeme
    ensures { result ≡ kind_of text.now }
{
    if text == b"!DIExpression".as_slice() {
        Lexeme::Expression
    } else if text == b"!DILocation".as_slice() {
        Lexeme::InlineLocation
    } else {
        Lexeme::Other
    }
}

/// The lexeme of a byte that is a token by itself.
fn single(byte: u8) -> Lexeme
    ensures { result ≡ single_of byte }
{
    match byte {
        b',' => Lexeme::Comma,
        b'=' => Lexeme::Equals,
        b'(' => Lexeme::Open,
        b')' => Lexeme::Close,
        b':' => Lexeme::Colon,
        b'+' => Lexeme::Plus,
        b'-' => Lexeme::Minus,
        _ => Lexeme::Other,
    }
}

/// The lexeme of a token of a line.
#[tactic(auto, unfolding(crate::specs::Sentence::lexeme_of))]
fn lexeme(line: &[u8], token: Token) -> Lexeme
    ensures { result ≡ lexeme_of line.now token }
{
    let text = text_of(line, token);
    match token.class {
        Class::Word => Lexeme::Word(word(text), token),
        Class::Register => Lexeme::Register(register(text)),
        Class::Percent => percent(text),
        Class::Node => Lexeme::Node(node(text)),
        Class::Kind => kind(text),
        Class::Symbol => Lexeme::Symbol(token),
        Class::Integer => Lexeme::Integer(number(text)),
        Class::Float => Lexeme::Float,
        Class::Text => Lexeme::Other,
        Class::Single(byte) => single(byte),
    }
}

/// The lexemes of the tokens of a line, in order.
pub fn lexemes(alloc: Global, line: &[u8], tokens: &[Token]) -> Result<Lexemes, AllocError>
    ensures { IfOk result (λ lexemes. lexemes ≡ lexemes_of line.now tokens.now) }
{
    let lexemes: Vec<Lexeme> = tokens.iter().map(|t| lexeme(line, *t)).collect(alloc)?;
    Ok(List::from(lexemes))
}
