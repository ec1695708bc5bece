//! A line that defines a function, with its linkage.

ghost use Rattle.std.specs.Prelude.{◌≡◌, ◌<◌, ◌≤◌, length, IfOk, IfSome};
ghost use Rattle.std.specs.List.{prefix_len};
ghost use Rattle.read_metadata.specs.Definition;
ghost use Rattle.read_metadata.specs.Definition.{is_outside, is_symbol};
ghost use Rattle.read_metadata.specs.Line;
ghost use Rattle.read_metadata.specs.read_lexer.Bytes.{is_blank};
ghost use Rattle.read_linkage.specs.Lines;

use crate::linkage::{Linkage, LinkedName};
use base_list::List;
use read_metadata::read_lexer_crate::bytes::{is_blank, position, symbol_bytes, word};
use read_metadata::rv64_instr_crate::name::Name;
use read_metadata::text::{inside_quotes, unescaped};
use std::alloc::{AllocError, Global};

/// The number of spaces at the front.
#[tactic(auto, using(crate::proofs::Runs::runs))]
fn spaces(text: &[u8]) -> usize
    ensures value { result ≡ prefix_len Line.is_space text.now }
    ensures within { result ≤ length text.now }
{
    text.iter().take_while(|b| **b == b' ').count()
}

/// The number of spaces and tabs at the front.
#[tactic(auto, using(crate::proofs::Runs::runs))]
fn blanks(text: &[u8]) -> usize
    ensures value { result ≡ prefix_len is_blank text.now }
    ensures within { result ≤ length text.now }
{
    text.iter().take_while(|b| is_blank(**b)).count()
}

/// The linkage that a word names, if it names one.
#[tactic(auto, unfolding(crate::specs::Lines::linkage_word))]
fn linkage_word(word: &[u8]) -> Option<Linkage>
    ensures { result ≡ Lines.linkage_word word.now }
{
    if word == b"internal".as_slice() {
        Some(Linkage::Local)
    } else if word == b"private".as_slice() {
        Some(Linkage::Local)
    } else if word == b"weak".as_slice() {
        Some(Linkage::Weak)
    } else if word == b"weak_odr".as_slice() {
        Some(Linkage::Weak)
    } else if word == b"linkonce".as_slice() {
        Some(Linkage::Weak)
    } else if word == b"linkonce_odr".as_slice() {
        Some(Linkage::Weak)
    } else {
        None
    }
}

/// The linkage that the word at the front names, if it names one.
fn front_linkage(text: &[u8]) -> Option<Linkage>
    ensures { result ≡ Lines.linkage_word (Lines.front_word text.now) }
{
    linkage_word(&text[..word(text)])
}

/// The linkage that the first word behind spaces and tabs names, if it names one.
fn linkage_behind(text: &[u8]) -> Option<Linkage>
    ensures { result ≡ Lines.linkage_behind text.now }
{
    match blanks(text) {
        0 => None,
        len => front_linkage(&text[len..]),
    }
}

/// The length of the symbol at the front: `@`, and an unquoted name or one in double quotes.
#[tactic(auto, unfolding(read_metadata::specs::Definition::symbol_len))]
fn symbol_len(text: &[u8]) -> Option<usize>
    ensures value { result ≡ Definition.symbol_len text.now }
    ensures within { IfSome result (λ len. (0 < len) × (len ≤ length text.now)) }
{
    match text {
        [b'@', b'"', name @ ..] => match position(b'"', name) {
            Some(place) => Some(place + 3),
            None => None,
        },
        [b'@', name @ ..] => match symbol_bytes(name) {
            0 => None,
            len => Some(len + 1),
        },
        _ => None,
    }
}

/// Whether a double quote is open after a byte, where `quoted` is whether one is open before it.
fn quoted_behind(quoted: bool, byte: u8) -> bool
    ensures { result ≡ Definition.quoted_behind quoted byte }
{
    quoted != (byte == b'"')
}

/// Whether the text begins with a symbol, outside quotes.
fn is_outside(quoted: bool, text: &[u8]) -> bool
    ensures { result ≡ is_outside is_symbol quoted text.now }
{
    !quoted && symbol_len(text).is_some()
}

/// A line from its first symbol outside quotes; empty if there is none.
fn from_symbol(line: &[u8]) -> &[u8]
    ensures { result.now ≡ Definition.from_symbol line.now }
{
    let mut quoted = false;
    for (at, byte) in line.iter().enumerate() {
        if is_outside(quoted, &line[at..]) {
            return &line[at..];
        }
        quoted = quoted_behind(quoted, *byte);
    }
    &line[line.len()..]
}

/// The name of a symbol, from the text after its `@`.
fn name_of(alloc: Global, name: &[u8]) -> Result<Name, AllocError>
    ensures { IfOk result (λ read. read ≡ Definition.name_of name.now) }
{
    match name {
        [b'"', ..] => unescaped(alloc, inside_quotes(name)),
        _ => List::from_slice(alloc, name),
    }
}

/// The function that a line names, with a linkage, if there are both.
fn named_in(
    alloc: Global,
    line: &[u8],
    linkage: Option<Linkage>,
) -> Result<Option<LinkedName>, AllocError>
    ensures { IfOk result (λ linked. linked ≡ Lines.named_in line.now linkage) }
{
    let Some(linkage) = linkage else {
        return Ok(None);
    };
    let symbol = from_symbol(line);
    let Some(len) = symbol_len(symbol) else {
        return Ok(None);
    };
    let name = name_of(alloc, &symbol[1..len])?;
    Ok(Some(LinkedName { name, linkage }))
}

/// The function that a line defines with its linkage, if the line names one. The line has no spaces at the front.
fn linked_name_at_front(alloc: Global, line: &[u8]) -> Result<Option<LinkedName>, AllocError>
    ensures { IfOk result (λ linked. linked ≡ Lines.linked_name line.now) }
{
    match line {
        [b'd', b'e', b'f', b'i', b'n', b'e', behind @ ..] => {
            named_in(alloc, line, linkage_behind(behind))
        }
        _ => Ok(None),
    }
}

/// The function that a line defines with its linkage, if the line names one. The error is out of memory.
pub(crate) fn linked_name(alloc: Global, line: &[u8]) -> Result<Option<LinkedName>, AllocError>
    ensures { IfOk result (λ linked. linked ≡ Lines.linked_name (Line.behind_spaces line.now)) }
{
    linked_name_at_front(alloc, &line[spaces(line)..])
}
