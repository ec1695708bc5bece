//! Functions without debug values, which are read before the metadata of their text is known.

ghost use Rattle.std.specs.Prelude.{◌≡◌, IfOk, IfSome, Ok};
ghost use Rattle.read_declarations.specs.Declarations.{declarations_of};
ghost use Rattle.read_metadata.specs.Maps.{Maps};
ghost use Rattle.read_program.specs.BodyLines.{body_of};
ghost use Rattle.read_program.specs.Closing.{AreEntries, Parses};
ghost use Rattle.read_input.specs.Unmarked.{IsReadAnyhow};

use base_list::List;
use read_body::body::Body;
use read_declarations::declarations::{DeclarationError, Declarations, read_declarations};
use read_documents::parts::FunctionDocument;
use read_lexer::line::Line;
use read_metadata::metadata::read_meta;
use read_program::body::read_body;
use read_program::closing::{Parsed, close};
use read_program::error::ParseError;
use std::alloc::{AllocError, Global};

/// The function in a document that has no debug values: it is the same whatever the metadata of its text. `None` if the
/// document has one, or is refused.
pub fn parse_unmarked(
    alloc: Global,
    document: &FunctionDocument,
) -> Result<Option<Parsed>, AllocError>
    ensures { IfOk result (λ read. IfSome read (λ p. (meta : Maps) → Parses meta document.now (Ok p))) }
{
    match declared(alloc, document)? {
        Some(declared) => match unmarked(alloc, document.linked, document.body.as_slice())? {
            Some(body) => closed(alloc, document.linked, document.closed, declared, body),
            None => Ok(None),
        },
        None => Ok(None),
    }
}

/// The declarations of a document; `None` if they are refused.
fn declared(alloc: Global, document: &FunctionDocument) -> Result<Option<Declarations>, AllocError>
    ensures read { IfOk result (λ read. IfSome read (λ d. declarations_of document.now ≡ Ok d)) }
    ensures entries { IfOk result (λ read. IfSome read (λ d. AreEntries d.stack)) }
{
    match read_declarations(alloc, document) {
        Ok(declared) => Ok(Some(declared)),
        Err(DeclarationError::Refused(_)) => Ok(None),
        Err(DeclarationError::Memory) => Err(AllocError),
    }
}

/// The body of lines without debug values; `None` if they have one, or are refused.
fn unmarked(alloc: Global, linked: bool, lines: &[Line]) -> Result<Option<Body>, AllocError>
    ensures { IfOk result (λ read. IfSome read (λ body. (meta : Maps) → body_of linked meta lines.now ≡ Ok body)) }
{
    let none = read_meta(alloc, &List::new(alloc))?;
    match read_body(alloc, linked, lines, &none)? {
        Ok(body) => {
            if body.variables.is_empty() {
                Ok(Some(body))
            } else {
                Ok(None)
            }
        }
        Err(_) => Ok(None),
    }
}

/// The function with these declarations and this body, which close at a line; `None` if it is refused there.
fn closed(
    alloc: Global,
    linked: bool,
    line: u32,
    declared: Declarations,
    body: Body,
) -> Result<Option<Parsed>, AllocError>
    requires { AreEntries declared.stack }
    ensures { IfOk result (λ read. IfSome read (IsReadAnyhow linked line declared body)) }
{
    match close(alloc, linked, line, declared, body) {
        Ok(parsed) => Ok(Some(parsed)),
        Err(ParseError::Refused(_)) => Ok(None),
        Err(ParseError::Memory) => Err(AllocError),
    }
}
