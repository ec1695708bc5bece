//! Lines of items.

ghost use Rattle.std.specs.Prelude.{◌≡◌, [], length, IfOk};
ghost use Rattle.read_line.specs.Read.{Gives, Lends};
ghost use Rattle.read_line.specs.Item.{
  with_equals,
  definitions_at,
  definitions_of,
  is_upper,
  is_lower,
  behind_words,
  is_no_return,
  says_no_return,
  opcode_at,
  behind_operand,
  operands_at,
  begins_operand,
  operands_of,
  attributes_of_item,
  item_with,
  defined_item,
  item_of,
};

use crate::attribute::{Attributes, attributes_alone, attributes_behind, begins_attribute};
use crate::exceeds::item_exceeds;
use crate::form::{Definitions, ItemForm, OperandForms};
use crate::front::{behind_comma, behind_equals};
use crate::operand::operand;
use crate::register::{begins_register, register};
use base_list::List;
use mir_func::rv64_instr_crate::name::Name;
use read_lexer::parts::Token;
use read_token::lexeme::{Lexeme, Word};
use read_token::sentence::text_of;
use std::alloc::{AllocError, Global};

/// Registers up to an equals sign, and the rest after it.
fn some_definitions(
    alloc: Global,
    lexemes: &[Lexeme],
) -> Result<Option<(Definitions, &[Lexeme])>, AllocError>
    ensures { IfOk result (λ read. Gives (λ x. (x.0, x.1.now)) read (definitions_at (length lexemes.now) lexemes.now)) }
{
    let mut found = List::new(alloc);
    let mut rest = lexemes;
    for _ in 0..lexemes.len() {
        let Some((definition, behind)) = register(rest) else {
            return Ok(None);
        };
        found.push(definition)?;
        match behind_comma(behind) {
            Some(next) => rest = next,
            None => return Ok(with_equals(found, behind)),
        }
    }
    Ok(None)
}

/// The definitions, and the rest after the equals sign.
fn with_equals(found: Definitions, lexemes: &[Lexeme]) -> Option<(Definitions, &[Lexeme])>
    ensures { Gives (λ x. (x.0, x.1.now)) result (with_equals found lexemes.now) }
{
    let rest = behind_equals(lexemes)?;
    Some((found, rest))
}

/// Definitions and an equals sign, or neither, and the rest.
fn definitions(
    alloc: Global,
    lexemes: &[Lexeme],
) -> Result<Option<(Definitions, &[Lexeme])>, AllocError>
    ensures { IfOk result (λ read. Gives (λ x. (x.0, x.1.now)) read (definitions_of lexemes.now)) }
{
    if begins_register(lexemes) {
        some_definitions(alloc, lexemes)
    } else {
        Ok(Some((List::new(alloc), lexemes)))
    }
}

/// Whether a word begins with an upper-case letter.
fn is_upper(word: Word) -> bool
    ensures { result ≡ is_upper word }
{
    matches!(word, Word::Argument | Word::Fragment | Word::Upper)
}

/// Whether a word begins with a lower-case letter.
fn is_lower(word: Word) -> bool
    ensures { result ≡ is_lower word }
{
    !matches!(
        word,
        Word::Argument | Word::Fragment | Word::Upper | Word::Underscore
    )
}

/// The lexemes after words that begin with a lower-case letter.
#[tactic(auto, unfolding(crate::specs::Item::behind_words))]
fn behind_words(lexemes: &[Lexeme]) -> &[Lexeme]
    ensures { result.now ≡ behind_words lexemes.now }
{
    let mut rest = lexemes;
    while let [Lexeme::Word(word, _), behind @ ..] = rest {
        if !is_lower(*word) {
            return rest;
        }
        rest = behind;
    }
    rest
}

fn is_no_return(word: Word) -> bool
    ensures { result ≡ is_no_return word }
{
    matches!(word, Word::NoReturn)
}

/// Whether `noreturn` is one of the words that are skipped.
#[tactic(auto, unfolding(crate::specs::Item::says_no_return))]
fn says_no_return(lexemes: &[Lexeme]) -> bool
    ensures { result ≡ says_no_return lexemes.now }
{
    let mut rest = lexemes;
    while let [Lexeme::Word(word, _), behind @ ..] = rest {
        if !is_lower(*word) {
            return false;
        }
        if is_no_return(*word) {
            return true;
        }
        rest = behind;
    }
    false
}

/// An opcode, and the rest.
fn opcode(lexemes: &[Lexeme]) -> Option<(Token, &[Lexeme])>
    ensures { Gives (λ x. (x.0, x.1.now)) result (opcode_at lexemes.now) }
{
    match lexemes {
        [Lexeme::Word(word, token), rest @ ..] if is_upper(*word) => Some((*token, rest)),
        _ => None,
    }
}

/// The lexemes after a comma, unless an attribute follows it.
fn behind_operand(lexemes: &[Lexeme]) -> Option<&[Lexeme]>
    ensures { Lends result (behind_operand lexemes.now) }
{
    match lexemes {
        [Lexeme::Comma, rest @ ..] if !begins_attribute(rest) => Some(rest),
        _ => None,
    }
}

/// One or more operands, and the rest.
fn some_operands<'a>(
    alloc: Global,
    linked: bool,
    line: &[u8],
    lexemes: &'a [Lexeme],
) -> Result<Option<(OperandForms, &'a [Lexeme])>, AllocError>
    ensures { IfOk result (λ read.
        Gives (λ x. (x.0, x.1.now)) read (operands_at linked line.now (length lexemes.now) lexemes.now)) }
{
    let mut found = List::new(alloc);
    let mut rest = lexemes;
    for _ in 0..lexemes.len() {
        match operand(alloc, linked, line, rest) {
            Ok(Some((operand, behind))) => {
                found.push(operand)?;
                match behind_operand(behind) {
                    Some(next) => rest = next,
                    None => return Ok(Some((found, behind))),
                }
            }
            Ok(None) => return Ok(None),
            Err(e) => return Err(e),
        }
    }
    Ok(None)
}

/// Whether an operand has to follow the opcode.
fn begins_operand(lexemes: &[Lexeme]) -> bool
    ensures { result ≡ begins_operand lexemes.now }
{
    match lexemes {
        [] | [Lexeme::Comma, ..] => false,
        _ => !begins_attribute(lexemes),
    }
}

/// Operands, or none, and the rest.
fn operands<'a>(
    alloc: Global,
    linked: bool,
    line: &[u8],
    lexemes: &'a [Lexeme],
) -> Result<Option<(OperandForms, &'a [Lexeme])>, AllocError>
    ensures { IfOk result (λ read. Gives (λ x. (x.0, x.1.now)) read (operands_of linked line.now lexemes.now)) }
{
    if begins_operand(lexemes) {
        some_operands(alloc, linked, line, lexemes)
    } else {
        Ok(Some((List::new(alloc), lexemes)))
    }
}

/// The attributes of an item, where `tail` are the lexemes after the opcode and `rest` those after the operands.
fn item_attributes(tail: &[Lexeme], rest: &[Lexeme]) -> Option<Attributes>
    ensures { result ≡ attributes_of_item tail.now rest.now }
{
    if begins_operand(tail) {
        attributes_behind(rest)
    } else {
        attributes_alone(tail)
    }
}

/// The item of a line with these definitions, where `rest` are the lexemes after them.
#[tactic(auto, unfolding(crate::specs::Item::defined_item))]
fn defined_item(
    alloc: Global,
    linked: bool,
    line: &[u8],
    lexemes: &[Lexeme],
    definitions: Definitions,
    rest: &[Lexeme],
) -> Result<Option<ItemForm>, AllocError>
    ensures { IfOk result (λ item. item ≡ defined_item linked line.now lexemes.now definitions rest.now) }
{
    let Some((opcode, tail)) = opcode(behind_words(rest)) else {
        return Ok(None);
    };
    let no_return = says_no_return(rest);
    match operands(alloc, linked, line, tail) {
        Ok(Some((operands, behind))) => {
            let Some(attributes) = item_attributes(tail, behind) else {
                return Ok(None);
            };
            let name = List::from_slice(alloc, text_of(line, opcode))?;
            Ok(Some(item_with(lexemes, definitions, name, operands, no_return, attributes)))
        }
        Ok(None) => Ok(None),
        Err(e) => Err(e),
    }
}

/// The form of an item with these parts, without memory operands.
fn item_with(
    lexemes: &[Lexeme],
    definitions: Definitions,
    opcode: Name,
    operands: OperandForms,
    no_return: bool,
    attributes: Attributes,
) -> ItemForm
    ensures { result ≡ item_with lexemes.now definitions opcode operands no_return attributes }
{
    let Attributes { number, loc } = attributes;
    let exceeds = item_exceeds(lexemes, &definitions, &operands, attributes);
    ItemForm {
        definitions,
        opcode,
        operands,
        no_return,
        volatile: false,
        number,
        loc,
        exceeds,
    }
}

/// The item in the lexemes of a line; `linked` is whether the operands of the linked language are read.
#[tactic(auto, unfolding(crate::specs::Item::item_of))]
pub fn item(
    alloc: Global,
    linked: bool,
    line: &[u8],
    lexemes: &[Lexeme],
) -> Result<Option<ItemForm>, AllocError>
    ensures { IfOk result (λ item. item ≡ item_of linked line.now lexemes.now) }
{
    match definitions(alloc, lexemes) {
        Ok(Some((definitions, rest))) => {
            defined_item(alloc, linked, line, lexemes, definitions, rest)
        }
        Ok(None) => Ok(None),
        Err(e) => Err(e),
    }
}
