//! The classes of tokens on a metadata line.

ghost use Rattle.std.specs.Prelude.{◌≡◌};
ghost use Rattle.read_metadata.specs.Token.{is_byte, is_word, is_node, is_kind, is_integer, is_text, text_of};

use read_lexer::parts::{Class, Token};

/// Whether a token is this byte alone.
pub fn is_byte(byte: u8, token: Token) -> bool
    ensures { result ≡ is_byte byte token }
{
    match token.class {
        Class::Single(single) => single == byte,
        _ => false,
    }
}

/// Whether a token is a word.
pub fn is_word(token: Token) -> bool
    ensures { result ≡ is_word token }
{
    matches!(token.class, Class::Word)
}

/// Whether a token is a node, `!N`.
pub fn is_node(token: Token) -> bool
    ensures { result ≡ is_node token }
{
    matches!(token.class, Class::Node)
}

/// Whether a token is the kind of a node.
pub fn is_kind(token: Token) -> bool
    ensures { result ≡ is_kind token }
{
    matches!(token.class, Class::Kind)
}

/// Whether a token is an integer.
pub fn is_integer(token: Token) -> bool
    ensures { result ≡ is_integer token }
{
    matches!(token.class, Class::Integer)
}

/// Whether a token is a quoted text.
pub fn is_text(token: Token) -> bool
    ensures { result ≡ is_text token }
{
    matches!(token.class, Class::Text)
}

/// The bytes of a line that a token spans, up to the end of the line.
pub fn text_of(line: &[u8], token: Token) -> &[u8]
    ensures { result.now ≡ text_of line.now token }
{
    let end = token.end.min(line.len());
    let start = token.start.min(end);
    &line[start..end]
}
