//! The fields of a metadata node, in round brackets.

ghost use Rattle.std.specs.Prelude.{◌≡◌, ◌+◌, ◌<◌, ◌≤◌, ◌^◌, IfOk};
ghost use Rattle.read_metadata.specs.Field.{
  opens,
  closes,
  is_end,
  ends_piece,
  depth_behind,
  ended,
  field_of,
  fields_of,
  one_more,
  only_value,
  number_at,
  node_at,
  text_at,
  word_at,
  Spells,
};

use crate::number::{integer, node_number};
use crate::text::inside_quotes;
use crate::token::{is_byte, is_integer, is_node, is_text, is_word, text_of};
use base_ids::metadata::NodeId;
use base_list::List;
use read_lexer::parts::Token;
use std::alloc::{AllocError, Global};

/// A field: its key, a word, and its value, `None` for one of several tokens.
#[derive(Clone, Copy, Debug)]
pub struct Field {
    pub key: Token,
    pub value: Option<Token>,
}

/// The fields of a node, in order.
pub type Fields = List<Field>;

/// Whether a token opens a bracket.
fn opens(token: Token) -> bool
    ensures { result ≡ opens token }
{
    is_byte(b'(', token) || is_byte(b'[', token) || is_byte(b'{', token)
}

/// Whether a token closes a bracket.
fn closes(token: Token) -> bool
    ensures { result ≡ closes token }
{
    is_byte(b')', token) || is_byte(b']', token) || is_byte(b'}', token)
}

/// Whether the tokens are only the closing bracket of the node.
fn is_end(tokens: &[Token]) -> bool
    ensures { result ≡ is_end tokens.now }
{
    match tokens {
        [token] => is_byte(b')', *token),
        _ => false,
    }
}

/// Whether a token ends a piece: a comma or a closing bracket outside inner brackets.
fn ends_piece(depth: usize, token: Token) -> bool
    ensures { result ≡ ends_piece depth token }
{
    depth == 0 && (is_byte(b',', token) || closes(token))
}

/// The number of inner brackets that are open after a token.
fn depth_behind(depth: usize, token: Token) -> usize
    requires { depth + 1 < 2 ^ 64 }
    ensures value { result ≡ depth_behind depth token }
    ensures bound { result ≤ depth + 1 }
{
    if opens(token) {
        depth + 1
    } else if closes(token) {
        depth.saturating_sub(1)
    } else {
        depth
    }
}

/// The fields, if only the closing bracket of the node is left.
fn ended(fields: Fields, tokens: &[Token]) -> Option<Fields>
    ensures { result ≡ ended fields tokens.now }
{
    if is_end(tokens) { Some(fields) } else { None }
}

/// The field that tokens are.
fn field_of(tokens: &[Token]) -> Option<Field>
    ensures { result ≡ field_of tokens.now }
{
    match tokens {
        [key, colon, value] if is_word(*key) && is_byte(b':', *colon) => Some(Field {
            key: *key,
            value: Some(*value),
        }),
        [key, colon, _, _, ..] if is_word(*key) && is_byte(b':', *colon) => Some(Field {
            key: *key,
            value: None,
        }),
        _ => None,
    }
}

/// The fields after a node's opening bracket, up to its closing one, which must be the last token.
pub fn fields(alloc: Global, tokens: &[Token]) -> Result<Option<Fields>, AllocError>
    ensures { IfOk result (λ fields. fields ≡ fields_of tokens.now) }
{
    let mut fields = List::new(alloc);
    if is_end(tokens) {
        return Ok(Some(fields));
    }
    let mut depth = 0;
    let mut start = 0;
    for (at, token) in tokens.iter().enumerate() {
        if ends_piece(depth, *token) {
            let Some(field) = field_of(&tokens[start..at]) else {
                return Ok(None);
            };
            fields.push(field)?;
            if !is_byte(b',', *token) {
                return Ok(ended(fields, &tokens[at..]));
            }
            start = at + 1;
        } else {
            depth = depth_behind(depth, *token);
        }
    }
    Ok(None)
}

/// The value of a key after one more of its fields; `None` (unreadable) if it has a value already, or the new one has
/// several tokens.
fn one_more(found: Option<Token>, value: Option<Token>) -> Option<Option<Token>>
    ensures { result ≡ one_more found value }
{
    match (found, value) {
        (None, Some(token)) => Some(Some(token)),
        _ => None,
    }
}

/// The value of the field with this key, `Some(None)` if there is no such field. `None` (the line is unreadable) if
/// the key repeats or the value has several tokens.
fn only_value(line: &[u8], fields: &[Field], key: &[u8]) -> Option<Option<Token>>
    ensures { result ≡ only_value line.now key.now fields.now }
{
    let mut found = None;
    for field in fields {
        if text_of(line, field.key) == key {
            let Some(value) = one_more(found, field.value) else {
                return None;
            };
            found = value;
        }
    }
    Some(found)
}

/// The number of the field with this key, `Some(None)` if there is no such field, `None` if the line is unreadable.
pub fn number_at(line: &[u8], fields: &[Field], key: &[u8]) -> Option<Option<u32>>
    ensures { result ≡ number_at line.now key.now fields.now }
{
    match only_value(line, fields, key)? {
        Some(token) if is_integer(token) => Some(Some(integer(text_of(line, token))?)),
        Some(_) => None,
        None => Some(None),
    }
}

/// The node of the field with this key, `Some(None)` if there is no such field, `None` if the line is unreadable.
pub fn node_at(line: &[u8], fields: &[Field], key: &[u8]) -> Option<Option<NodeId>>
    ensures { result ≡ node_at line.now key.now fields.now }
{
    match only_value(line, fields, key)? {
        Some(token) if is_node(token) => Some(Some(node_number(text_of(line, token))?)),
        Some(_) => None,
        None => Some(None),
    }
}

/// The bytes inside the quotes of the field with this key, empty if there is no such field, `None` if the line is
/// unreadable.
pub fn text_at<'a>(line: &'a [u8], fields: &[Field], key: &[u8]) -> Option<&'a [u8]>
    ensures { Spells result (text_at line.now key.now fields.now) }
{
    match only_value(line, fields, key)? {
        Some(token) if is_text(token) => Some(inside_quotes(text_of(line, token))),
        Some(_) => None,
        None => Some(&line[..0]),
    }
}

/// The word of the field with this key, empty if there is no such field, `None` if the line is unreadable.
pub fn word_at<'a>(line: &'a [u8], fields: &[Field], key: &[u8]) -> Option<&'a [u8]>
    ensures { Spells result (word_at line.now key.now fields.now) }
{
    match only_value(line, fields, key)? {
        Some(token) if is_word(token) => Some(text_of(line, token)),
        Some(_) => None,
        None => Some(&line[..0]),
    }
}
