//! Tuples of nodes: `!5 = !{!6, null, !7}`.

ghost use Rattle.std.specs.Prelude.{◌≡◌, ◌∷◌, IfOk};
ghost use Rattle.read_metadata.specs.Field.{Spells};
ghost use Rattle.read_debug_nodes.specs.Tuple.{element_of, is_closing, elements_of, behind, behind_brace, tuple_elements, tuple_of_line};

use crate::node::Elements;
use crate::value::is_null;
use base_ids::metadata::NodeId;
use base_list::List;
use read_metadata::number::{node_number, spelled};
use read_metadata::read_lexer_crate::bytes::digits;
use read_metadata::read_lexer_crate::fault::LexError;
use read_metadata::read_lexer_crate::lexer::tokens;
use read_metadata::read_lexer_crate::parts::Token;
use read_metadata::token::{is_byte, is_node, text_of};
use std::alloc::{AllocError, Global};

/// The element that a token is: a node, or none for `null`.
fn element_of(line: &[u8], token: Token) -> Option<Option<NodeId>>
    ensures { result ≡ element_of line.now token }
{
    if is_node(token) {
        Some(Some(node_number(text_of(line, token))?))
    } else if is_null(line, token) {
        Some(None)
    } else {
        None
    }
}

/// Whether the tokens are only the closing brace.
fn is_closing(tokens: &[Token]) -> bool
    ensures { result ≡ is_closing tokens.now }
{
    match tokens {
        [token] => is_byte(b'}', *token),
        _ => false,
    }
}

/// Whether a token is the closing brace and no token is behind it.
fn is_last(token: Token, behind: &[Token]) -> bool
    ensures { result ≡ is_closing (token ∷ behind.now) }
{
    behind.is_empty() && is_byte(b'}', token)
}

/// The elements before the closing brace, which must be the last token.
fn elements_of(alloc: Global, line: &[u8], tokens: &[Token]) -> Result<Option<Elements>, AllocError>
    ensures { IfOk result (λ elements. elements ≡ elements_of line.now tokens.now) }
{
    let mut elements = List::new(alloc);
    if is_closing(tokens) {
        return Ok(Some(elements));
    }
    let mut rest = tokens;
    while let [token, behind, after @ ..] = rest {
        let Some(element) = element_of(line, *token) else {
            return Ok(None);
        };
        elements.push(element)?;
        if is_last(*behind, after) {
            return Ok(Some(elements));
        }
        if !is_byte(b',', *behind) {
            return Ok(None);
        }
        rest = after;
    }
    Ok(None)
}

/// What is behind these bytes at the front.
fn behind<'a>(front: &[u8], text: &'a [u8]) -> Option<&'a [u8]>
    ensures { Spells result (behind front.now text.now) }
{
    match text.strip_prefix(front) {
        Some(behind) => Some(behind),
        None => None,
    }
}

/// What is behind the brace that opens a tuple, behind the tuple's number.
fn behind_brace(text: &[u8]) -> Option<&[u8]>
    ensures { Spells result (behind_brace text.now) }
{
    match behind(b" = !{", text) {
        Some(inside) => Some(inside),
        None => behind(b" = distinct !{", text),
    }
}

/// The elements of a tuple, from what is behind its opening brace.
fn tuple_elements(alloc: Global, inside: &[u8]) -> Result<Option<Elements>, AllocError>
    ensures { IfOk result (λ elements. elements ≡ tuple_elements inside.now) }
{
    match tokens(alloc, false, inside) {
        Ok(tokens) => elements_of(alloc, inside, tokens.as_slice()),
        Err(LexError::Memory) => Err(AllocError),
        Err(_) => Ok(None),
    }
}

/// The tuple with its number that a line defines, if it is readable. The text is what is behind the line's first `!`.
#[tactic(auto, unfolding(crate::specs::Tuple::tuple_of_line))]
pub(crate) fn tuple_of_line(
    alloc: Global,
    text: &[u8],
) -> Result<Option<(NodeId, Elements)>, AllocError>
    ensures { IfOk result (λ tuple. tuple ≡ tuple_of_line text.now) }
{
    let len = digits(text);
    let Some(inside) = behind_brace(&text[len..]) else {
        return Ok(None);
    };
    if len == 0 {
        return Ok(None);
    }
    let Some(number) = spelled(10, &text[..len]) else {
        return Ok(None);
    };
    match tuple_elements(alloc, inside)? {
        Some(elements) => Ok(Some((NodeId(number), elements))),
        None => Ok(None),
    }
}
