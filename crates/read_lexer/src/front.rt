//! The token at the front of the rest of a line.

ghost use Rattle.std.specs.Prelude.{◌≡◌, ◌+◌, ◌<◌, ◌≤◌, ◌^◌, drop, length};
ghost use Rattle.read_lexer.specs.Front.{token, marked, quoted, metadata_at, symbol_at, hexadecimal_len, decimal_at, integer_at};
ghost use Rattle.read_lexer.specs.Front.{minus_at, token_at};

use crate::bytes::{
    digits, fraction, hexadecimal_digits, is_single, position, symbol_bytes, word, word_bytes,
};
use crate::fault::LexError;
use crate::parts::{Class, Token};

/// The token, or the lexical fault, at index `at`, where `first` is the byte there and `after` are the bytes after
/// it. `floats` is whether floating-point literals are tokens.
#[tactic(auto, unfolding(crate::specs::Front::token_at))]
pub fn token_at(floats: bool, at: usize, first: u8, after: &[u8]) -> Result<Token, LexError>
    requires { at + length after.now + 1 < 2 ^ 64 }
    ensures { result ≡ token_at floats at first after.now }
{
    match first {
        b'A'..=b'Z' | b'a'..=b'z' | b'_' => Ok(token(Class::Word, at, 1 + word_bytes(after))),
        b'0'..=b'9' => Ok(integer(floats, at, first, after)),
        b'-' => Ok(minus(floats, at, after)),
        b'$' => marked(Class::Register, at, word_bytes(after)),
        b'%' => marked(Class::Percent, at, word_bytes(after)),
        b'!' => metadata(at, after),
        b'@' | b'&' => symbol(at, after),
        b'"' | b'\'' => quoted(Class::Text, at, at, first, after),
        _ if is_single(first) => Ok(token(Class::Single(first), at, 1)),
        _ => Err(LexError::BadByte(at)),
    }
}

/// A token of `len` bytes from index `at`.
fn token(class: Class, at: usize, len: usize) -> Token
    requires { at + len < 2 ^ 64 }
    ensures { token class at len ≡ Ok result }
{
    Token {
        class,
        start: at,
        end: at + len,
    }
}

/// A token of one byte and a run of `run` bytes after it, which must not be empty.
fn marked(class: Class, at: usize, run: usize) -> Result<Token, LexError>
    requires { at + run + 1 < 2 ^ 64 }
    ensures { result ≡ marked class at run }
{
    if run == 0 {
        return Err(LexError::BadByte(at));
    }
    Ok(token(class, at, 1 + run))
}

/// A token from index `at` that ends with a text in quotes, whose opening quote is at `open_at`, right before
/// `after`.
fn quoted(
    class: Class,
    at: usize,
    open_at: usize,
    quote: u8,
    after: &[u8],
) -> Result<Token, LexError>
    requires { open_at + length after.now + 1 < 2 ^ 64 }
    ensures { result ≡ quoted class at open_at quote after.now }
{
    match position(quote, after) {
        Some(len) => Ok(Token {
            class,
            start: at,
            end: open_at + 2 + len,
        }),
        None => Err(LexError::UnclosedString(open_at)),
    }
}

/// The token that begins with the `!` right before `after`.
fn metadata(at: usize, after: &[u8]) -> Result<Token, LexError>
    requires { at + length after.now + 1 < 2 ^ 64 }
    ensures { result ≡ metadata_at at after.now }
{
    match digits(after) {
        0 => marked(Class::Kind, at, word(after)),
        run => marked(Class::Node, at, run),
    }
}

/// The token that begins with the `@` or `&` right before `after`.
fn symbol(at: usize, after: &[u8]) -> Result<Token, LexError>
    requires { at + length after.now + 1 < 2 ^ 64 }
    ensures { result ≡ symbol_at at after.now }
{
    match after {
        [b'"', name @ ..] => quoted(Class::Symbol, at, at + 1, b'"', name),
        _ => marked(Class::Symbol, at, symbol_bytes(after)),
    }
}

/// The number of hexadecimal digits after `0x`; 0 if `first` and `after` don't begin with `0x`.
fn hexadecimal(first: u8, after: &[u8]) -> usize
    ensures value { result ≡ hexadecimal_len first after.now }
    ensures within { 0 < result → result < length after.now }
{
    match after {
        [b'x', number @ ..] if first == b'0' => hexadecimal_digits(number),
        _ => 0,
    }
}

/// The decimal number whose first `1 + run` bytes are an integer, where `run` digits are at the front of `after`.
fn decimal(floats: bool, at: usize, run: usize, after: &[u8]) -> Token
    requires within { run ≤ length after.now }
    requires room { at + length after.now + 1 < 2 ^ 64 }
    ensures { decimal_at floats at (1 + run) (drop run after.now) ≡ Ok result }
{
    match fraction(&after[run..]) {
        len if floats && 0 < len => token(Class::Float, at, 1 + run + len),
        _ => token(Class::Integer, at, 1 + run),
    }
}

/// The number that begins with the digit `first`.
fn integer(floats: bool, at: usize, first: u8, after: &[u8]) -> Token
    requires { at + length after.now + 1 < 2 ^ 64 }
    ensures { integer_at floats at first after.now ≡ Ok result }
{
    match hexadecimal(first, after) {
        0 => decimal(floats, at, digits(after), after),
        run => token(Class::Integer, at, 2 + run),
    }
}

/// The token that begins with the `-` right before `after`.
fn minus(floats: bool, at: usize, after: &[u8]) -> Token
    requires { at + length after.now + 1 < 2 ^ 64 }
    ensures { minus_at floats at after.now ≡ Ok result }
{
    match digits(after) {
        0 => token(Class::Single(b'-'), at, 1),
        run => decimal(floats, at, run, after),
    }
}
