//! The attributes at the end of an item's line: `debug-instr-number K` and `debug-location !N`.

ghost use Rattle.std.specs.Prelude.{◌≡◌};
ghost use Rattle.read_line.specs.Read.{Gives};
ghost use Rattle.read_line.specs.Attribute.{
  no_fields,
  once,
  field_at,
  location_of,
  closed,
  fields_at,
  location_at,
  number_at,
  ended,
  behind_number,
  behind_location,
  attributes_of,
  begins_attribute,
  attributes_behind,
  attributes_alone,
};

use crate::front::{behind_close, behind_comma};
use crate::operand::counted;
use base_ids::function_ids::DebugNumber;
use base_ids::metadata::NodeId;
use mir_func::location::{InlineLoc, Loc};
use read_token::lexeme::{Lexeme, Word};

/// The attributes of an item.
#[derive(Clone, Copy, Debug)]
pub struct Attributes {
    pub number: Option<DebugNumber>,
    pub loc: Loc,
}

/// The fields of a location that is written out, as far as they were read.
#[derive(Clone, Copy, Debug)]
pub struct Fields {
    pub line: Option<u32>,
    pub column: Option<u32>,
    pub scope: Option<NodeId>,
    pub inlined_at: Option<NodeId>,
}

/// The fields and the rest, if this number wasn't read before.
fn number_once(before: Option<u32>, fields: Fields, rest: &[Lexeme]) -> Option<(Fields, &[Lexeme])>
    ensures { Gives (λ x. (x.0, x.1.now)) result (once before fields rest.now) }
{
    match before {
        None => Some((fields, rest)),
        Some(_) => None,
    }
}

/// The fields and the rest, if this node wasn't read before.
fn node_once(before: Option<NodeId>, fields: Fields, rest: &[Lexeme]) -> Option<(Fields, &[Lexeme])>
    ensures { Gives (λ x. (x.0, x.1.now)) result (once before fields rest.now) }
{
    match before {
        None => Some((fields, rest)),
        Some(_) => None,
    }
}

/// The fields with one more, and the rest.
#[tactic(auto, unfolding(crate::specs::Attribute::field_at))]
fn field(fields: Fields, lexemes: &[Lexeme]) -> Option<(Fields, &[Lexeme])>
    ensures { Gives (λ x. (x.0, x.1.now)) result (field_at fields lexemes.now) }
{
    match lexemes {
        [
            Lexeme::Word(Word::Line, _),
            Lexeme::Colon,
            Lexeme::Integer(number),
            rest @ ..,
        ] => {
            let line = Some(counted(*number));
            number_once(fields.line, Fields { line, ..fields }, rest)
        }
        [
            Lexeme::Word(Word::Column, _),
            Lexeme::Colon,
            Lexeme::Integer(number),
            rest @ ..,
        ] => {
            let column = Some(counted(*number));
            number_once(fields.column, Fields { column, ..fields }, rest)
        }
        [
            Lexeme::Word(Word::Scope, _),
            Lexeme::Colon,
            Lexeme::Node(node),
            rest @ ..,
        ] => {
            let scope = Some(*node);
            node_once(fields.scope, Fields { scope, ..fields }, rest)
        }
        [
            Lexeme::Word(Word::InlinedAt, _),
            Lexeme::Colon,
            Lexeme::Node(node),
            rest @ ..,
        ] => {
            let inlined_at = Some(*node);
            node_once(
                fields.inlined_at,
                Fields {
                    inlined_at,
                    ..fields
                },
                rest,
            )
        }
        _ => None,
    }
}

/// The debug location with these fields: the line and the scope are required.
fn inline_location(fields: Fields) -> Option<Loc>
    ensures { result ≡ location_of fields }
{
    let line = fields.line?;
    let scope = fields.scope?;
    Some(Loc::Inline(InlineLoc {
        line,
        column: fields.column.unwrap_or(0),
        scope,
        inlined_at: fields.inlined_at,
    }))
}

/// The fields, and the rest after the closing bracket.
fn closed(fields: Fields, lexemes: &[Lexeme]) -> Option<(Fields, &[Lexeme])>
    ensures { Gives (λ x. (x.0, x.1.now)) result (closed fields lexemes.now) }
{
    let rest = behind_close(lexemes)?;
    Some((fields, rest))
}

/// How many different fields there are.
const FIELDS: usize = 4;

/// Fields up to the closing bracket, and the rest.
fn all_fields(lexemes: &[Lexeme]) -> Option<(Fields, &[Lexeme])>
    ensures { Gives (λ x. (x.0, x.1.now)) result (fields_at 4 no_fields lexemes.now) }
{
    let mut fields = Fields {
        line: None,
        column: None,
        scope: None,
        inlined_at: None,
    };
    let mut rest = lexemes;
    for _ in 0..FIELDS {
        let Some((more, behind)) = field(fields, rest) else {
            return None;
        };
        match behind_comma(behind) {
            Some(next) => {
                fields = more;
                rest = next;
            }
            None => return closed(more, behind),
        }
    }
    None
}

/// A debug location, and the rest.
#[tactic(auto, unfolding(crate::specs::Attribute::location_at))]
fn location(lexemes: &[Lexeme]) -> Option<(Loc, &[Lexeme])>
    ensures { Gives (λ x. (x.0, x.1.now)) result (location_at lexemes.now) }
{
    match lexemes {
        [Lexeme::Node(node), rest @ ..] => Some((Loc::Node(*node), rest)),
        [Lexeme::InlineLocation, Lexeme::Open, rest @ ..] => {
            let Some((fields, behind)) = all_fields(rest) else {
                return None;
            };
            Some((inline_location(fields)?, behind))
        }
        _ => None,
    }
}

/// An integer that is a number, and the rest.
fn number(lexemes: &[Lexeme]) -> Option<(DebugNumber, &[Lexeme])>
    ensures { Gives (λ x. (x.0, x.1.now)) result (number_at lexemes.now) }
{
    match lexemes {
        [Lexeme::Integer(number), rest @ ..] => Some((DebugNumber(counted(*number)), rest)),
        _ => None,
    }
}

/// The attributes, if nothing follows them.
fn ended(attributes: Attributes, rest: &[Lexeme]) -> Option<Attributes>
    ensures { result ≡ ended attributes rest.now }
{
    if rest.is_empty() {
        Some(attributes)
    } else {
        None
    }
}

/// The attributes of a line with this number, from the lexemes after it.
#[tactic(auto, unfolding(crate::specs::Attribute::behind_number))]
fn behind_number(number: DebugNumber, lexemes: &[Lexeme]) -> Option<Attributes>
    ensures { result ≡ behind_number number lexemes.now }
{
    let number = Some(number);
    match lexemes {
        [Lexeme::Comma, Lexeme::Word(Word::Location, _), rest @ ..] => {
            let Some((loc, behind)) = location(rest) else {
                return None;
            };
            ended(Attributes { number, loc }, behind)
        }
        _ => ended(
            Attributes {
                number,
                loc: Loc::Absent,
            },
            lexemes,
        ),
    }
}

/// The attributes of a line with this location, from the lexemes after it.
#[tactic(auto, unfolding(crate::specs::Attribute::behind_location))]
fn behind_location(loc: Loc, lexemes: &[Lexeme]) -> Option<Attributes>
    ensures { result ≡ behind_location loc lexemes.now }
{
    match lexemes {
        [Lexeme::Comma, Lexeme::Word(Word::InstrNumber, _), rest @ ..] => {
            let Some((number, behind)) = number(rest) else {
                return None;
            };
            ended(
                Attributes {
                    number: Some(number),
                    loc,
                },
                behind,
            )
        }
        _ => ended(Attributes { number: None, loc }, lexemes),
    }
}

/// One or more attributes, up to the end of the line.
#[tactic(auto, unfolding(crate::specs::Attribute::attributes_of))]
fn some_attributes(lexemes: &[Lexeme]) -> Option<Attributes>
    ensures { result ≡ attributes_of lexemes.now }
{
    match lexemes {
        [Lexeme::Word(Word::InstrNumber, _), rest @ ..] => {
            let Some((number, behind)) = number(rest) else {
                return None;
            };
            behind_number(number, behind)
        }
        [Lexeme::Word(Word::Location, _), rest @ ..] => {
            let Some((loc, behind)) = location(rest) else {
                return None;
            };
            behind_location(loc, behind)
        }
        _ => None,
    }
}

/// Whether the lexemes begin with an attribute.
pub fn begins_attribute(lexemes: &[Lexeme]) -> bool
    ensures { result ≡ begins_attribute lexemes.now }
{
    matches!(
        lexemes,
        [Lexeme::Word(Word::InstrNumber | Word::Location, _), ..]
    )
}

/// The attributes after operands: none, or a comma and attributes.
pub fn attributes_behind(lexemes: &[Lexeme]) -> Option<Attributes>
    ensures { result ≡ attributes_behind lexemes.now }
{
    match lexemes {
        [] => Some(Attributes {
            number: None,
            loc: Loc::Absent,
        }),
        [Lexeme::Comma, rest @ ..] => some_attributes(rest),
        _ => None,
    }
}

/// The attributes after an opcode without operands: there the comma is optional.
pub fn attributes_alone(lexemes: &[Lexeme]) -> Option<Attributes>
    ensures { result ≡ attributes_alone lexemes.now }
{
    if begins_attribute(lexemes) {
        some_attributes(lexemes)
    } else {
        attributes_behind(lexemes)
    }
}
