//! The lines of a function's body.

ghost use Rattle.std.specs.Prelude.{◌≡◌, ◌≤◌, Ok, true, IfOk, IsNone};
ghost use Rattle.read_body.specs.Body.{IsCounted, with_closed};
ghost use Rattle.read_body.specs.Limits.{MAX_ITEMS};
ghost use Rattle.read_program.specs.BodyLines.{Reads, one_said, two_said, label_said, item_said, behind_line, lines_of_body, ended, body_of};

use crate::ends::end_blocks;
use base_ids::function_ids::BlockId;
use read_body::body::Body;
use read_item::judge::judge;
use read_item::judged::{JudgeError, Judged, JudgedItem};
use read_lexer::line::Line;
use read_line::body::body_line;
use read_line::form::{BodyLine, FormError, ItemForm};
use read_metadata::metadata::Metadata;
use read_refusal::first::Refusal;
use read_refusal::kind::RefusalKind;
use std::alloc::{AllocError, Global};

/// The refusal of a line, if there is one; else the line was added to the body.
pub type Taken = Result<Option<RefusalKind>, AllocError>;

/// Takes a label.
fn take_label(alloc: Global, body: &mut Body, label: Option<BlockId>) -> Taken
    requires counted { IsCounted body.old }
    requires few { body.old.items ≤ MAX_ITEMS }
    ensures read { Reads result body.new (label_said body.old label) }
    ensures counted { IfOk result (λ cause. IsNone cause → IsCounted body.new) }
    ensures few { IfOk result (λ cause. IsNone cause → body.new.items ≤ MAX_ITEMS) }
{
    let Some(id) = label else {
        return Ok(Some(RefusalKind::BadOperands));
    };
    let cause = body.label_cause(id);
    if cause.is_none() {
        body.add_label(alloc, id)?;
    }
    Ok(cause)
}

/// Takes a line that says that control doesn't leave the last block.
fn take_end(body: &mut Body) -> Taken
    requires counted { IsCounted body.old }
    requires few { body.old.items ≤ MAX_ITEMS }
    ensures read { Reads result body.new (Ok (with_closed body.old body.old.last)) }
    ensures counted { IfOk result (λ cause. IsNone cause → IsCounted body.new) }
    ensures few { IfOk result (λ cause. IsNone cause → body.new.items ≤ MAX_ITEMS) }
{
    body.close_last()?;
    Ok(None)
}

/// Takes an item that was judged by itself.
fn take_one(body: &mut Body, item: JudgedItem) -> Taken
    requires counted { IsCounted body.old }
    requires few { body.old.items ≤ MAX_ITEMS }
    ensures read { Reads result body.new (one_said body.old item) }
    ensures counted { IfOk result (λ cause. IsNone cause → IsCounted body.new) }
    ensures few { IfOk result (λ cause. IsNone cause → body.new.items ≤ MAX_ITEMS) }
{
    body.add_item(item.kind, item.loc, item.entries.as_slice())
}

/// Takes two items of one line.
fn take_two(body: &mut Body, first: JudgedItem, second: JudgedItem) -> Taken
    requires counted { IsCounted body.old }
    requires few { body.old.items ≤ MAX_ITEMS }
    ensures read { Reads result body.new (two_said body.old first second) }
    ensures counted { IfOk result (λ cause. IsNone cause → IsCounted body.new) }
    ensures few { IfOk result (λ cause. IsNone cause → body.new.items ≤ MAX_ITEMS) }
{
    if body.repeats(&second.kind) {
        return Ok(Some(RefusalKind::DuplicateNumber));
    }
    match take_one(body, first) {
        Ok(None) => take_one(body, second),
        Ok(Some(kind)) => Ok(Some(kind)),
        Err(e) => Err(e),
    }
}

/// Takes an item line.
fn take_item(
    alloc: Global,
    linked: bool,
    body: &mut Body,
    form: &ItemForm,
    meta: &Metadata,
) -> Taken
    requires counted { IsCounted body.old }
    requires few { body.old.items ≤ MAX_ITEMS }
    ensures read { Reads result body.new (item_said linked meta.now body.old body.old.last form.now) }
    ensures counted { IfOk result (λ cause. IsNone cause → IsCounted body.new) }
    ensures few { IfOk result (λ cause. IsNone cause → body.new.items ≤ MAX_ITEMS) }
{
    if body.last.is_none() {
        return Ok(Some(RefusalKind::BadLine));
    }
    match judge(alloc, linked, form, meta) {
        Ok(Judged::Passed) => Ok(None),
        Ok(Judged::Item(item)) => take_one(body, item),
        Ok(Judged::Two(first, second)) => take_two(body, first, second.into_item()),
        Err(JudgeError::Refused(kind)) => Ok(Some(body.refused_cause(kind, form.number))),
        Err(JudgeError::Memory) => Err(AllocError),
    }
}

/// Takes a line of a body.
fn take_line(alloc: Global, linked: bool, body: &mut Body, text: &[u8], meta: &Metadata) -> Taken
    requires counted { IsCounted body.old }
    requires few { body.old.items ≤ MAX_ITEMS }
    ensures read { Reads result body.new (behind_line linked meta.now body.old text.now) }
    ensures counted { IfOk result (λ cause. IsNone cause → IsCounted body.new) }
    ensures few { IfOk result (λ cause. IsNone cause → body.new.items ≤ MAX_ITEMS) }
{
    match body_line(alloc, linked, text) {
        Ok(BodyLine::Passed) => Ok(None),
        Ok(BodyLine::Closed) => take_end(body),
        Ok(BodyLine::Label(label)) => take_label(alloc, body, label),
        Ok(BodyLine::Item(form)) => take_item(alloc, linked, body, &form, meta),
        Err(FormError::BadByte) => Ok(Some(RefusalKind::BadByte)),
        Err(FormError::UnclosedString) => Ok(Some(RefusalKind::UnclosedString)),
        Err(FormError::BadLine) => Ok(Some(RefusalKind::BadLine)),
        Err(FormError::Memory) => Err(AllocError),
    }
}

/// The body as its lines read it, or the first refusal of one of them; `linked` is whether the linked language is read.
fn read_lines(
    alloc: Global,
    linked: bool,
    lines: &[Line],
    meta: &Metadata,
) -> Result<Result<Body, Refusal>, AllocError>
    ensures { IfOk result (λ read. read ≡ lines_of_body linked meta.now lines.now) }
{
    let mut body = Body::new(alloc);
    for line in lines {
        let cause = take_line(alloc, linked, &mut body, line.text.as_slice(), meta)?;
        if let Some(kind) = cause {
            return Ok(Err(Refusal {
                line: line.number,
                kind,
            }));
        }
    }
    Ok(Ok(body))
}

/// The body of these lines, or the first refusal of one of them; `linked` is whether the linked language is read.
pub fn read_body(
    alloc: Global,
    linked: bool,
    lines: &[Line],
    meta: &Metadata,
) -> Result<Result<Body, Refusal>, AllocError>
    ensures { IfOk result (λ read. read ≡ body_of linked meta.now lines.now) }
{
    let read = read_lines(alloc, linked, lines, meta)?;
    if linked { ended(alloc, read) } else { Ok(read) }
}

/// The body whose blocks end as the linked language says.
fn ended(alloc: Global, read: Result<Body, Refusal>) -> Result<Result<Body, Refusal>, AllocError>
    ensures { IfOk result (λ whole. whole ≡ ended true read) }
{
    match read {
        Ok(body) => {
            let mut whole = body;
            end_blocks(alloc, &mut whole)?;
            Ok(Ok(whole))
        }
        Err(refusal) => Ok(Err(refusal)),
    }
}
