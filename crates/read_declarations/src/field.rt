//! The values of an entry's fields.

ghost use Rattle.std.specs.Prelude.{◌≡◌};
ghost use Rattle.read_declarations.specs.Field.{
  value_at,
  number_of,
  needed,
  given,
  positive,
  negated_of,
  negated,
  is_variable_sized,
};

use crate::entry::MappingField;
use crate::stream::{YamlToken, text_at};
use read_lexer::line::Line;
use read_metadata::number::{integer, spelled};
use read_metadata::text::inside_quotes;
use read_metadata::token::{is_integer, is_text};

/// The value of the field with a key.
pub fn value_at(lines: &[Line], fields: &[MappingField], key: &[u8]) -> Option<YamlToken>
    ensures { result ≡ value_at lines.now key.now fields.now }
{
    for field in fields {
        if text_at(lines, field.key) == key {
            return Some(field.value);
        }
    }
    None
}

/// The number that a value spells, from 0 to 2^30 - 1.
fn number_of(lines: &[Line], value: YamlToken) -> Option<u32>
    ensures { result ≡ number_of lines.now value }
{
    if is_integer(value.token) {
        integer(text_at(lines, value))
    } else {
        None
    }
}

/// The number of the field with this key; `None` if the field is missing or spells no such number.
pub fn needed(lines: &[Line], fields: &[MappingField], key: &[u8]) -> Option<u32>
    ensures { result ≡ needed lines.now key.now fields.now }
{
    number_of(lines, value_at(lines, fields, key)?)
}

/// The number of the field with this key, or `missing` if there is no such field; `None` if the field spells no such
/// number.
pub fn given(lines: &[Line], fields: &[MappingField], key: &[u8], missing: u32) -> Option<u32>
    ensures { result ≡ given lines.now key.now missing fields.now }
{
    match value_at(lines, fields, key) {
        Some(value) => number_of(lines, value),
        None => Some(missing),
    }
}

/// The number, if it isn't 0.
fn positive(number: Option<u32>) -> Option<u32>
    ensures { result ≡ positive number }
{
    match number {
        Some(0) => None,
        _ => number,
    }
}

/// The number after a minus sign, from 1 to 2^30 - 1; `None` for any other text.
fn negated_of(text: &[u8]) -> Option<u32>
    ensures { result ≡ negated_of text.now }
{
    match text {
        [b'-', digits @ ..] => positive(spelled(10, digits)),
        _ => None,
    }
}

/// The number n if the field with this key is the integer -n, from -2^30 + 1 to -1; `None` if the field is missing or has
/// another value.
pub fn negated(lines: &[Line], fields: &[MappingField], key: &[u8]) -> Option<u32>
    ensures { result ≡ negated lines.now key.now fields.now }
{
    match value_at(lines, fields, key) {
        Some(value) if is_integer(value.token) => negated_of(text_at(lines, value)),
        _ => None,
    }
}

/// Whether an entry has the field `type: variable-sized`.
pub fn is_variable_sized(lines: &[Line], fields: &[MappingField]) -> bool
    ensures { result ≡ is_variable_sized lines.now fields.now }
{
    match value_at(lines, fields, b"type") {
        Some(value) if is_text(value.token) => {
            inside_quotes(text_at(lines, value)) == b"variable-sized".as_slice()
        }
        Some(value) => text_at(lines, value) == b"variable-sized".as_slice(),
        None => false,
    }
}
