//! A line that defines a node: `!5 = !DISubrange(count: 2)`.

ghost use Rattle.std.specs.Prelude.{◌≡◌, ◌≤◌, length, IfOk};
ghost use Rattle.std.specs.List.{prefix_len};
ghost use Rattle.read_metadata.specs.Line.{behind_distinct, is_distinct, is_space, behind_spaces};
ghost use Rattle.read_debug_nodes.specs.Line.{described, assigned, node_of_tokens, node_of_line};

use crate::field::unrepeated;
use crate::kind::node_of_kind;
use crate::node::DebugNode;
use crate::tuple::tuple_of_line;
use base_ids::metadata::NodeId;
use read_metadata::number::node_number;
use read_metadata::read_lexer_crate::fault::LexError;
use read_metadata::read_lexer_crate::lexer::tokens;
use read_metadata::read_lexer_crate::parts::Token;
use read_metadata::token::{is_byte, is_kind, is_node, is_word, text_of};
use std::alloc::{AllocError, Global};

/// A line without the spaces at its front.
pub(crate) fn behind_spaces(text: &[u8]) -> &[u8]
    ensures { result.now ≡ behind_spaces text.now }
{
    &text[spaces(text)..]
}

/// The number of spaces at the front.
#[tactic(auto, using(crate::proofs::Runs::runs))]
fn spaces(text: &[u8]) -> usize
    ensures value { result ≡ prefix_len is_space text.now }
    ensures within { result ≤ length text.now }
{
    text.iter().take_while(|b| **b == b' ').count()
}

/// The tokens without a word `distinct` at the front.
#[tactic(auto, unfolding(read_metadata::specs::Line::behind_distinct))]
fn behind_distinct<'a>(line: &[u8], tokens: &'a [Token]) -> &'a [Token]
    ensures { result.now ≡ behind_distinct line.now tokens.now }
{
    match tokens {
        [first, rest @ ..] if is_word(*first) && is_distinct(text_of(line, *first)) => rest,
        _ => tokens,
    }
}

/// Whether a word is `distinct`.
fn is_distinct(word: &[u8]) -> bool
    ensures { result ≡ is_distinct word.now }
{
    word == b"distinct".as_slice()
}

/// The node that a kind and fields define, if they are readable.
#[tactic(auto, unfolding(crate::specs::Line::described))]
fn described(alloc: Global, line: &[u8], tokens: &[Token]) -> Result<Option<DebugNode>, AllocError>
    ensures { IfOk result (λ node. node ≡ described line.now tokens.now) }
{
    match tokens {
        [kind, open, rest @ ..] if is_kind(*kind) && is_byte(b'(', *open) => {
            let Some(fields) = unrepeated(alloc, line, rest)? else {
                return Ok(None);
            };
            node_of_kind(alloc, line, text_of(line, *kind), fields.as_slice())
        }
        _ => Ok(None),
    }
}

/// The node with its number that tokens define, if they are readable.
#[tactic(auto, unfolding(crate::specs::Line::assigned))]
fn assigned(
    alloc: Global,
    line: &[u8],
    tokens: &[Token],
) -> Result<Option<(NodeId, DebugNode)>, AllocError>
    ensures { IfOk result (λ node. node ≡ assigned line.now tokens.now) }
{
    match tokens {
        [number, equals, rest @ ..] if is_node(*number) && is_byte(b'=', *equals) => {
            let Some(number) = node_number(text_of(line, *number)) else {
                return Ok(None);
            };
            match described(alloc, line, behind_distinct(line, rest))? {
                Some(node) => Ok(Some((number, node))),
                None => Ok(None),
            }
        }
        _ => Ok(None),
    }
}

/// The node with its number that a line of tokens defines, if it is readable.
fn node_of_tokens(alloc: Global, line: &[u8]) -> Result<Option<(NodeId, DebugNode)>, AllocError>
    ensures { IfOk result (λ node. node ≡ node_of_tokens line.now) }
{
    match tokens(alloc, false, line) {
        Ok(tokens) => assigned(alloc, line, tokens.as_slice()),
        Err(LexError::Memory) => Err(AllocError),
        Err(_) => Ok(None),
    }
}

/// The node with its number that a line defines, if it is readable. The line begins with `!`.
#[tactic(auto, unfolding(crate::specs::Line::node_of_line))]
pub(crate) fn node_of_line(
    alloc: Global,
    line: &[u8],
) -> Result<Option<(NodeId, DebugNode)>, AllocError>
    ensures { IfOk result (λ node. node ≡ node_of_line line.now) }
{
    match line {
        [b'!', behind @ ..] => match tuple_of_line(alloc, behind)? {
            Some((number, elements)) => Ok(Some((number, DebugNode::Tuple(elements)))),
            None => node_of_tokens(alloc, line),
        },
        _ => Ok(None),
    }
}
