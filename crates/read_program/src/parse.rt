//! The function in a document.

ghost use Rattle.std.specs.Prelude.{◌≡◌, IfOk};
ghost use Rattle.read_body.specs.read_declarations.Declarations.{declarations_of};
ghost use Rattle.read_metadata.specs.Maps.{Maps};
ghost use Rattle.read_documents.specs.declared.parts.FunctionDocument.{FunctionDocument};
ghost use Rattle.read_program.specs.BodyLines.{body_of};
ghost use Rattle.read_program.specs.Closing.{AreEntries, IsRefused, ParsesParts, Parses};

use crate::body::read_body;
use crate::closing::{Parsed, close};
use crate::error::ParseError;
use read_body::body::Body;
use read_body::read_declarations_crate::declarations::{
    DeclarationError, Declarations, read_declarations,
};
use read_documents::parts::FunctionDocument;
use read_metadata::metadata::Metadata;
use read_refusal::first::{Refusal, comes_before};
use std::alloc::{AllocError, Global};

/// The declarations of a document, or their first refusal.
fn declared(
    alloc: Global,
    document: &FunctionDocument,
) -> Result<Result<Declarations, Refusal>, AllocError>
    ensures read { IfOk result (λ read. read ≡ declarations_of document.now) }
    ensures entries { IfOk result (λ read. IfOk read (λ d. AreEntries d.stack)) }
{
    match read_declarations(alloc, document) {
        Ok(declared) => Ok(Ok(declared)),
        Err(DeclarationError::Refused(refusal)) => Ok(Err(refusal)),
        Err(DeclarationError::Memory) => Err(AllocError),
    }
}

/// The result for a refused document.
fn refused(refusal: Refusal) -> Result<Parsed, ParseError>
    ensures { IsRefused refusal result }
{
    Err(ParseError::Refused(refusal))
}

/// The function of these declarations and this body, if both were read; else the first refusal of the two.
fn put_together(
    alloc: Global,
    linked: bool,
    line: u32,
    declared: Result<Declarations, Refusal>,
    body: Result<Body, Refusal>,
) -> Result<Parsed, ParseError>
    requires { IfOk declared (λ d. AreEntries d.stack) }
    ensures { (meta : Maps) (doc : FunctionDocument) → declarations_of doc ≡ declared → body_of linked meta doc.body ≡ body →
        ParsesParts linked line declared body result }
{
    match declared {
        Ok(declared) => match body {
            Ok(body) => close(alloc, linked, line, declared, body),
            Err(refusal) => refused(refusal),
        },
        Err(refusal) => match body {
            Ok(_) => refused(refusal),
            Err(other) => refused(if comes_before(other, refusal) {
                other
            } else {
                refusal
            }),
        },
    }
}

/// The function in a document, given the metadata of its text. Refused is the first bad line of its declarations or
/// its body; if there is none, the line that closes it: for a branch to a block that it doesn't have, a stack entry
/// that isn't declared, an access outside its stack object, or a block that doesn't end as blocks do. (LLVM, Machine
/// IR (MIR) Format Reference Manual.)
pub fn parse(
    alloc: Global,
    document: &FunctionDocument,
    meta: &Metadata,
) -> Result<Parsed, ParseError>
    ensures { Parses meta.now document.now result }
{
    let declared = declared(alloc, document)?;
    let body = read_body(alloc, document.linked, document.body.as_slice(), meta)?;
    put_together(alloc, document.linked, document.closed, declared, body)
}
