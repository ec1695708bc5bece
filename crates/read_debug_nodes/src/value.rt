//! The values of fields.

ghost use Rattle.std.specs.Prelude.{◌≡◌};
ghost use Rattle.std.specs.List.{list_any};
ghost use Rattle.read_metadata.specs.Field.{Spells};
ghost use Rattle.read_debug_nodes.specs.Value.{
  is_null,
  is_flag,
  only_value,
  number_at,
  line_at,
  size_at,
  count_at,
  enumerator_at,
  node_at,
  node_or_none,
  text_at,
  text_or_none,
  word_at,
  word_or_none,
  has_flag,
};

use crate::field::{NodeField, field_at};
use crate::number::{EnumeratorValue, enumerator_value, integer_within};
use base_ids::metadata::NodeId;
use read_metadata::number::{integer, node_number};
use read_metadata::read_lexer_crate::parts::Token;
use read_metadata::text::inside_quotes;
use read_metadata::token::{is_integer, is_node, is_text, is_word, text_of};

/// The greatest size, offset or count.
const MAX_SIZE: u64 = (1 << 62) - 1;

/// Whether a token is the word `null`.
pub(crate) fn is_null(line: &[u8], token: Token) -> bool
    ensures { result ≡ is_null line.now token }
{
    is_word(token) && text_of(line, token) == b"null".as_slice()
}

/// The value of the field with this key, `Some(None)` if there is no such field, `None` if it has several tokens.
fn only_value(line: &[u8], fields: &[NodeField], key: &[u8]) -> Option<Option<Token>>
    ensures { result ≡ only_value line.now key.now fields.now }
{
    match field_at(line, fields, key) {
        None => Some(None),
        Some(field) => match field.rest.as_slice() {
            [] => Some(Some(field.first)),
            _ => None,
        },
    }
}

/// The number of the field with this key, `Some(None)` if there is no such field, `None` if it is of another form.
pub(crate) fn number_at(line: &[u8], fields: &[NodeField], key: &[u8]) -> Option<Option<u32>>
    ensures { result ≡ number_at line.now key.now fields.now }
{
    match only_value(line, fields, key)? {
        Some(token) if is_integer(token) => Some(Some(integer(text_of(line, token))?)),
        Some(_) => None,
        None => Some(None),
    }
}

/// The number of the field with this key, 0 if there is no such field or it is of another form.
pub(crate) fn line_at(line: &[u8], fields: &[NodeField], key: &[u8]) -> u32
    ensures { result ≡ line_at line.now key.now fields.now }
{
    number_at(line, fields, key).unwrap_or(None).unwrap_or(0)
}

/// The size of the field with this key, 0 if there is no such field, `None` if it is of another form.
pub(crate) fn size_at(line: &[u8], fields: &[NodeField], key: &[u8]) -> Option<u64>
    ensures { result ≡ size_at line.now key.now fields.now }
{
    match only_value(line, fields, key)? {
        Some(token) if is_integer(token) => integer_within(MAX_SIZE, text_of(line, token)),
        Some(_) => None,
        None => Some(0),
    }
}

/// The count of the field with this key, if there is such a field and it is a number.
pub(crate) fn count_at(line: &[u8], fields: &[NodeField], key: &[u8]) -> Option<u64>
    ensures { result ≡ count_at line.now key.now fields.now }
{
    match only_value(line, fields, key)? {
        Some(token) if is_integer(token) => integer_within(MAX_SIZE, text_of(line, token)),
        _ => None,
    }
}

/// The value of an enumerator in the field with this key, 0 if there is no such field, `None` if it is of another form.
pub(crate) fn enumerator_at(
    line: &[u8],
    fields: &[NodeField],
    key: &[u8],
) -> Option<EnumeratorValue>
    ensures { result ≡ enumerator_at line.now key.now fields.now }
{
    match only_value(line, fields, key)? {
        Some(token) if is_integer(token) => enumerator_value(text_of(line, token)),
        Some(_) => None,
        None => Some(EnumeratorValue {
            value: 0,
            negative: None,
        }),
    }
}

/// The node of the field with this key, `Some(None)` for `null` and if there is no such field, `None` if it is of
/// another form.
pub(crate) fn node_at(line: &[u8], fields: &[NodeField], key: &[u8]) -> Option<Option<NodeId>>
    ensures { result ≡ node_at line.now key.now fields.now }
{
    match only_value(line, fields, key)? {
        Some(token) if is_node(token) => Some(Some(node_number(text_of(line, token))?)),
        Some(token) if is_null(line, token) => Some(None),
        Some(_) => None,
        None => Some(None),
    }
}

/// The node of the field with this key, if there is such a field and it is of that form.
pub(crate) fn node_or_none(line: &[u8], fields: &[NodeField], key: &[u8]) -> Option<NodeId>
    ensures { result ≡ node_or_none line.now key.now fields.now }
{
    node_at(line, fields, key).unwrap_or(None)
}

/// The bytes inside the quotes of the field with this key, empty if there is no such field, `None` if it is of another
/// form.
pub(crate) fn text_at<'a>(line: &'a [u8], fields: &[NodeField], key: &[u8]) -> Option<&'a [u8]>
    ensures { Spells result (text_at line.now key.now fields.now) }
{
    match only_value(line, fields, key)? {
        Some(token) if is_text(token) => Some(inside_quotes(text_of(line, token))),
        Some(_) => None,
        None => Some(&line[..0]),
    }
}

/// The bytes inside the quotes of the field with this key, empty if there is no such field or it is of another form.
pub(crate) fn text_or_none<'a>(line: &'a [u8], fields: &[NodeField], key: &[u8]) -> &'a [u8]
    ensures { result.now ≡ text_or_none line.now key.now fields.now }
{
    match text_at(line, fields, key) {
        Some(text) => text,
        None => &line[..0],
    }
}

/// The word of the field with this key, empty if there is no such field, `None` if it is of another form.
pub(crate) fn word_at<'a>(line: &'a [u8], fields: &[NodeField], key: &[u8]) -> Option<&'a [u8]>
    ensures { Spells result (word_at line.now key.now fields.now) }
{
    match only_value(line, fields, key)? {
        Some(token) if is_word(token) => Some(text_of(line, token)),
        Some(_) => None,
        None => Some(&line[..0]),
    }
}

/// The word of the field with this key, empty if there is no such field or it is of another form.
pub(crate) fn word_or_none<'a>(line: &'a [u8], fields: &[NodeField], key: &[u8]) -> &'a [u8]
    ensures { result.now ≡ word_or_none line.now key.now fields.now }
{
    match word_at(line, fields, key) {
        Some(word) => word,
        None => &line[..0],
    }
}

/// Whether a token is a word that spells a flag.
fn is_flag(line: &[u8], flag: &[u8], token: Token) -> bool
    ensures { result ≡ is_flag line.now flag.now token }
{
    is_word(token) && text_of(line, token) == flag
}

/// Whether a flag is among the words of the field with this key.
pub(crate) fn has_flag(line: &[u8], fields: &[NodeField], key: &[u8], flag: &[u8]) -> bool
    ensures { result ≡ has_flag line.now key.now flag.now fields.now }
{
    match field_at(line, fields, key) {
        None => false,
        Some(field) => {
            is_flag(line, flag, field.first) || is_flag_among(line, flag, field.rest.as_slice())
        }
    }
}

/// Whether a flag is among tokens.
fn is_flag_among(line: &[u8], flag: &[u8], tokens: &[Token]) -> bool
    ensures { result ≡ list_any (is_flag line.now flag.now) tokens.now }
{
    for token in tokens {
        if is_flag(line, flag, *token) {
            return true;
        }
    }
    false
}
