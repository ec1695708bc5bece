//! The keywords.

ghost use Rattle.std.specs.Prelude.{◌≡◌, ◌≤◌, IfSome};
ghost use Rattle.read_token.specs.Number.{BEYOND};
ghost use Rattle.read_token.specs.Word.{
  is_plain,
  flag_of,
  is_integer_type,
  is_type,
  linked_keyword_of,
  keyword_of,
  is_name_behind,
  named_number,
  block_of,
  initial_of,
  word_of,
};

use crate::lexeme::{Flag, Word};
use crate::number::{is_number, limited};
use base_ids::function_ids::BlockId;
use read_metadata::read_lexer_crate::bytes::digits;

/// Whether a word is a register flag that is ignored.
#[tactic(auto, unfolding(crate::specs::Word::is_plain))]
fn is_plain(text: &[u8]) -> bool
    ensures { result ≡ is_plain text.now }
{
    text == b"renamable".as_slice()
        || text == b"killed".as_slice()
        || text == b"dead".as_slice()
        || text == b"def".as_slice()
        || text == b"undef".as_slice()
        || text == b"internal".as_slice()
        || text == b"early-clobber".as_slice()
        || text == b"debug-use".as_slice()
}

/// The flag of a word before a register.
#[tactic(auto, unfolding(crate::specs::Word::flag_of))]
fn flag(text: &[u8]) -> Option<Flag>
    ensures { result ≡ flag_of text.now }
{
    if text == b"implicit".as_slice() {
        Some(Flag::Implicit)
    } else if text == b"implicit-def".as_slice() {
        Some(Flag::ImplicitDef)
    } else if is_plain(text) {
        Some(Flag::Plain)
    } else {
        None
    }
}

/// Whether a text is a type `iN` of integers.
fn is_integer_type(text: &[u8]) -> bool
    ensures { result ≡ is_integer_type text.now }
{
    match text {
        [b'i', bits @ ..] => is_number(bits),
        _ => false,
    }
}

/// Whether a text is the name of a type that may stand before a literal.
fn is_type(text: &[u8]) -> bool
    ensures { result ≡ is_type text.now }
{
    text == b"half".as_slice()
        || text == b"float".as_slice()
        || text == b"double".as_slice()
        || text == b"fp128".as_slice()
        || text == b"ptr".as_slice()
        || is_integer_type(text)
}

/// The keyword of calls that don't return, of parts of addresses or of literals that a text is, if it is one.
fn linked_keyword(text: &[u8]) -> Option<Word>
    ensures { result ≡ linked_keyword_of text.now }
{
    if text == b"noreturn".as_slice() {
        Some(Word::NoReturn)
    } else if text == b"riscv-hi".as_slice() {
        Some(Word::HighPart)
    } else if text == b"riscv-lo".as_slice() {
        Some(Word::LowPart)
    } else if is_type(text) {
        Some(Word::TypeName)
    } else {
        None
    }
}

/// The keyword that a text is, if it is one.
#[tactic(auto, unfolding(crate::specs::Word::keyword_of))]
fn keyword(text: &[u8]) -> Option<Word>
    ensures { result ≡ keyword_of text.now }
{
    if text == b"debug-location".as_slice() {
        Some(Word::Location)
    } else if text == b"debug-instr-number".as_slice() {
        Some(Word::InstrNumber)
    } else if text == b"dbg-instr-ref".as_slice() {
        Some(Word::InstrRef)
    } else if text == b"DW_OP_LLVM_arg".as_slice() {
        Some(Word::Argument)
    } else if text == b"DW_OP_LLVM_fragment".as_slice() {
        Some(Word::Fragment)
    } else if text == b"target-flags".as_slice() {
        Some(Word::TargetFlags)
    } else if text == b"tied-def".as_slice() {
        Some(Word::TiedDef)
    } else if text == b"line".as_slice() {
        Some(Word::Line)
    } else if text == b"column".as_slice() {
        Some(Word::Column)
    } else if text == b"scope".as_slice() {
        Some(Word::Scope)
    } else if text == b"inlinedAt".as_slice() {
        Some(Word::InlinedAt)
    } else {
        linked_keyword(text)
    }
}

/// Whether a text is empty, or a dot and a name of at least one byte.
fn is_name_behind(text: &[u8]) -> bool
    ensures { result ≡ is_name_behind text.now }
{
    match text {
        [] => true,
        [first, _, ..] => *first == b'.',
        _ => false,
    }
}

/// The number at the front of a text that is digits and then nothing or a dot and a name.
#[tactic(auto, unfolding(crate::specs::Word::named_number))]
pub fn named_number(text: &[u8]) -> Option<u32>
    ensures value { result ≡ named_number text.now }
    ensures bound { IfSome result (λ n. n ≤ BEYOND) }
{
    let len = digits(text);
    if len == 0 {
        None
    } else if is_name_behind(&text[len..]) {
        Some(limited(&text[..len]))
    } else {
        None
    }
}

/// The number N in `bb.N` and `bb.N.name`.
fn block(text: &[u8]) -> Option<u32>
    ensures { result ≡ block_of text.now }
{
    match text {
        [b'b', b'b', b'.', rest @ ..] => named_number(rest),
        _ => None,
    }
}

/// A word that is no keyword, by the case of its first letter.
fn initial(text: &[u8]) -> Word
    ensures { result ≡ initial_of text.now }
{
    match text {
        [b'a'..=b'z', ..] => Word::Lower,
        [b'A'..=b'Z', ..] => Word::Upper,
        _ => Word::Underscore,
    }
}

/// The meaning of a word.
#[tactic(auto, unfolding(crate::specs::Word::word_of))]
pub fn word(text: &[u8]) -> Word
    ensures { result ≡ word_of text.now }
{
    if let Some(flag) = flag(text) {
        return Word::Flag(flag);
    }
    if let Some(word) = keyword(text) {
        return word;
    }
    match block(text) {
        Some(number) => Word::Block(BlockId(number)),
        None => initial(text),
    }
}
