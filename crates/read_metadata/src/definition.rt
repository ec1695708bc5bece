//! A line that defines a function, with its subprogram: `define i64 @f(i64 %0) !dbg !7 {`.

ghost use Rattle.std.specs.Prelude.{◌≡◌, ◌<◌, ◌≤◌, false, length, IfOk, IfSome};
ghost use Rattle.std.specs.List.{prefix_len};
ghost use Rattle.read_lexer.specs.Bytes.{is_blank};
ghost use Rattle.read_metadata.specs.Field.{Spells};
ghost use Rattle.read_metadata.specs.Definition.{
  is_outside,
  is_sought,
  symbol_len,
  quoted_behind,
  from_first,
  node_digits,
  node_behind,
  attachment,
  name_of,
  definition_of_line,
};

use crate::number::spelled;
use crate::text::{inside_quotes, unescaped};
use base_ids::metadata::NodeId;
use base_list::List;
use read_lexer::bytes::{digits, is_blank, position, symbol_bytes};
use rv64_instr::name::Name;
use std::alloc::{AllocError, Global};

/// The number of spaces and tabs at the front.
#[tactic(auto, using(crate::proofs::Runs::runs))]
fn blanks(text: &[u8]) -> usize
    ensures value { result ≡ prefix_len is_blank text.now }
    ensures within { result ≤ length text.now }
{
    text.iter().take_while(|b| is_blank(**b)).count()
}

/// The length of the symbol at the front: `@`, and an unquoted name or one in double quotes.
#[tactic(auto, unfolding(crate::specs::Definition::symbol_len))]
fn symbol_len(text: &[u8]) -> Option<usize>
    ensures value { result ≡ symbol_len text.now }
    ensures within { IfSome result (λ len. (0 < len) × (len ≤ length text.now)) }
{
    match text {
        [b'@', b'"', name @ ..] => match position(b'"', name) {
            Some(place) => Some(place + 3),
            None => None,
        },
        [b'@', name @ ..] => match symbol_bytes(name) {
            0 => None,
            len => Some(len + 1),
        },
        _ => None,
    }
}

/// Whether a double quote is open after a byte, where `quoted` is whether one is open before it.
fn quoted_behind(quoted: bool, byte: u8) -> bool
    ensures { result ≡ quoted_behind quoted byte }
{
    quoted != (byte == b'"')
}

/// The digits of a node `!N` at the front.
fn node_digits(text: &[u8]) -> Option<&[u8]>
    ensures { Spells result (node_digits text.now) }
{
    match text {
        [b'!', number @ ..] => match digits(number) {
            0 => None,
            len => Some(&number[..len]),
        },
        _ => None,
    }
}

/// The digits of a node `!N` after spaces and tabs.
fn node_behind(text: &[u8]) -> Option<&[u8]>
    ensures { Spells result (node_behind text.now) }
{
    match blanks(text) {
        0 => None,
        len => node_digits(&text[len..]),
    }
}

/// The digits of the subprogram at the front: `!dbg`, spaces or tabs, and a node.
fn attachment(text: &[u8]) -> Option<&[u8]>
    ensures { Spells result (attachment text.now) }
{
    match text {
        [b'!', b'd', b'b', b'g', behind @ ..] => node_behind(behind),
        _ => None,
    }
}

/// What is searched for on a line.
#[derive(Clone, Copy)]
enum SearchedName {
    /// A symbol.
    Symbol,
    /// A subprogram: `!dbg`, and a node's number.
    Attachment,
}

/// Whether the text begins with what is searched for.
fn is_sought(sought: SearchedName, text: &[u8]) -> bool
    ensures { result ≡ is_sought sought text.now }
{
    match sought {
        SearchedName::Symbol => symbol_len(text).is_some(),
        SearchedName::Attachment => attachment(text).is_some(),
    }
}

/// Whether the text begins with what is searched for, outside quotes.
fn is_outside(sought: SearchedName, quoted: bool, text: &[u8]) -> bool
    ensures { result ≡ is_outside (is_sought sought) quoted text.now }
{
    !quoted && is_sought(sought, text)
}

/// A line from the first index outside quotes at which it begins with what is searched for; empty if there is none.
fn from_first(sought: SearchedName, line: &[u8]) -> &[u8]
    ensures { result.now ≡ from_first (is_sought sought) false line.now }
{
    let mut quoted = false;
    for (at, byte) in line.iter().enumerate() {
        if is_outside(sought, quoted, &line[at..]) {
            return &line[at..];
        }
        quoted = quoted_behind(quoted, *byte);
    }
    &line[line.len()..]
}

/// The name of a symbol, from the text after its `@`.
fn name_of(alloc: Global, name: &[u8]) -> Result<Name, AllocError>
    ensures { IfOk result (λ read. read ≡ name_of name.now) }
{
    match name {
        [b'"', ..] => unescaped(alloc, inside_quotes(name)),
        _ => List::from_slice(alloc, name),
    }
}

/// The name of the function that a line defines, and the node of its subprogram, if it has both.
#[tactic(auto, unfolding(crate::specs::Definition::definition_of_line))]
pub fn definition_of_line(alloc: Global, line: &[u8]) -> Result<Option<(Name, NodeId)>, AllocError>
    ensures { IfOk result (λ definition. definition ≡ definition_of_line line.now) }
{
    if !line.starts_with(b"define") {
        return Ok(None);
    }
    let symbol = from_first(SearchedName::Symbol, line);
    let Some(len) = symbol_len(symbol) else {
        return Ok(None);
    };
    let Some(digits) = attachment(from_first(SearchedName::Attachment, &symbol[len..])) else {
        return Ok(None);
    };
    let Some(number) = spelled(10, digits) else {
        return Ok(None);
    };
    Ok(Some((name_of(alloc, &symbol[1..len])?, NodeId(number))))
}
