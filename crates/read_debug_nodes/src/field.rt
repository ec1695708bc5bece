//! The fields of a metadata node, in round brackets, with all their tokens.

ghost use Rattle.std.specs.Prelude.{◌≡◌, ◌+◌, ◌<◌, ◌≤◌, ◌^◌, IfOk};
ghost use Rattle.std.specs.Option.{option_copied};
ghost use Rattle.read_metadata.specs.Field.{opens, closes, is_end, ends_piece, depth_behind};
ghost use Rattle.read_debug_nodes.specs.Field.{ended, field_of, fields_of, field_at, has_key, repeats, unrepeated};
ghost use Rattle.read_debug_nodes.specs.steps.Keys.{AreKeys};

use base_list::List;
use read_metadata::read_lexer_crate::parts::Token;
use read_metadata::token::{is_byte, is_word, text_of};
use std::alloc::{AllocError, Global};
use std::collections::BTreeSet;

/// A field: its key, a word, and the tokens of its value.
#[derive(Debug, Drop)]
pub struct NodeField {
    pub key: Token,
    /// The first token of the value.
    pub first: Token,
    /// The tokens behind it.
    pub rest: List<Token>,
}

/// The fields of a node, in order.
pub type NodeFields = List<NodeField>;

/// Whether a token opens a bracket.
fn opens(token: Token) -> bool
    ensures { result ≡ opens token }
{
    is_byte(b'(', token) || is_byte(b'[', token) || is_byte(b'{', token)
}

/// Whether a token closes a bracket.
fn closes(token: Token) -> bool
    ensures { result ≡ closes token }
{
    is_byte(b')', token) || is_byte(b']', token) || is_byte(b'}', token)
}

/// Whether the tokens are only the closing bracket of the node.
fn is_end(tokens: &[Token]) -> bool
    ensures { result ≡ is_end tokens.now }
{
    match tokens {
        [token] => is_byte(b')', *token),
        _ => false,
    }
}

/// Whether a token ends a piece: a comma or a closing bracket outside inner brackets.
fn ends_piece(depth: usize, token: Token) -> bool
    ensures { result ≡ ends_piece depth token }
{
    depth == 0 && (is_byte(b',', token) || closes(token))
}

/// The number of inner brackets that are open after a token.
fn depth_behind(depth: usize, token: Token) -> usize
    requires { depth + 1 < 2 ^ 64 }
    ensures value { result ≡ depth_behind depth token }
    ensures bound { result ≤ depth + 1 }
{
    if opens(token) {
        depth + 1
    } else if closes(token) {
        depth.saturating_sub(1)
    } else {
        depth
    }
}

/// The fields, if only the closing bracket of the node is left.
fn ended(fields: NodeFields, tokens: &[Token]) -> Option<NodeFields>
    ensures { result ≡ ended fields tokens.now }
{
    if is_end(tokens) { Some(fields) } else { None }
}

/// The field that tokens are.
fn field_of(alloc: Global, tokens: &[Token]) -> Result<Option<NodeField>, AllocError>
    ensures { IfOk result (λ field. field ≡ field_of tokens.now) }
{
    match tokens {
        [key, colon, first, rest @ ..] if is_word(*key) && is_byte(b':', *colon) => {
            let rest = List::from_slice(alloc, rest)?;
            Ok(Some(NodeField {
                key: *key,
                first: *first,
                rest,
            }))
        }
        _ => Ok(None),
    }
}

/// The fields after a node's opening bracket, up to its closing one, which must be the last token.
fn fields_of(alloc: Global, tokens: &[Token]) -> Result<Option<NodeFields>, AllocError>
    ensures { IfOk result (λ fields. fields ≡ fields_of tokens.now) }
{
    let mut fields = List::new(alloc);
    if is_end(tokens) {
        return Ok(Some(fields));
    }
    let mut depth = 0;
    let mut start = 0;
    for (at, token) in tokens.iter().enumerate() {
        if ends_piece(depth, *token) {
            let Some(field) = field_of(alloc, &tokens[start..at])? else {
                return Ok(None);
            };
            fields.push(field)?;
            if !is_byte(b',', *token) {
                return Ok(ended(fields, &tokens[at..]));
            }
            start = at + 1;
        } else {
            depth = depth_behind(depth, *token);
        }
    }
    Ok(None)
}

/// Whether a set contains a key.
fn has_key(keys: &BTreeSet<&[u8]>, line: &[u8], behind: &[NodeField], key: &[u8]) -> bool
    requires { AreKeys line.now keys.now behind.now }
    ensures { result ≡ has_key line.now key.now behind.now }
{
    keys.contains(key)
}

/// Whether a key comes twice. The time is that of sorting the keys.
fn repeats(alloc: Global, line: &[u8], fields: &[NodeField]) -> Result<bool, AllocError>
    ensures { IfOk result (λ twice. twice ≡ repeats line.now fields.now) }
{
    let mut keys = BTreeSet::new(alloc);
    let mut left = fields.len();
    while left > 0 {
        left -= 1;
        let key = text_of(line, fields[left].key);
        if has_key(&keys, line, &fields[left + 1..], key) {
            return Ok(true);
        }
        keys.insert(key)?;
    }
    Ok(false)
}

/// The fields after a node's opening bracket, if they are fields and no key comes twice.
pub(crate) fn unrepeated(
    alloc: Global,
    line: &[u8],
    tokens: &[Token],
) -> Result<Option<NodeFields>, AllocError>
    ensures { IfOk result (λ fields. fields ≡ unrepeated line.now tokens.now) }
{
    let Some(fields) = fields_of(alloc, tokens)? else {
        return Ok(None);
    };
    if repeats(alloc, line, fields.as_slice())? {
        return Ok(None);
    }
    Ok(Some(fields))
}

/// The field with this key.
pub(crate) fn field_at<'a>(
    line: &[u8],
    fields: &'a [NodeField],
    key: &[u8],
) -> Option<&'a NodeField>
    ensures { option_copied result ≡ field_at line.now key.now fields.now }
{
    for field in fields {
        if text_of(line, field.key) == key {
            return Some(field);
        }
    }
    None
}
