//! The entries of `fixedStack`: stack objects at a given offset from the stack pointer at entry.

ghost use Rattle.std.specs.Prelude.{◌≡◌, ◌≤◌, IfOk, IfSome, OnOk};
ghost use Rattle.base_ids.specs.Limits.{MAX_NUMBER};
ghost use Rattle.read_declarations.specs.Constants.{AreNumbers};
ghost use Rattle.read_declarations.specs.Fixed.{
  minus,
  signed,
  integer_in,
  fixed_with,
  fixed_entry_of,
  fixed_ids,
  fixed_judged,
  fixed_read,
  fixed_refusal,
  fixed_of,
};

use crate::entry::MappingField;
use crate::field::{needed, negated};
use crate::list::list;
use crate::stack::{clash_in, refusal_at};
use base_ids::function_ids::ObjectId;
use base_ids::limits::FIXED;
use base_list::List;
use read_lexer::line::Line;
use read_refusal::first::{Refusal, earlier};
use read_refusal::kind::RefusalKind;
use std::alloc::{AllocError, Global};
use std::collections::BTreeSet;

/// A fixed object of a function's stack frame.
#[derive(Clone, Copy, Debug, PartialEq, Eq)]
pub struct FixedEntry {
    /// Its number: the N of `%fixed-stack.N` plus `FIXED`.
    pub id: ObjectId,
    /// Its size in bytes.
    pub size: u32,
    /// Its offset from the stack pointer at entry, in bytes.
    pub offset: i32,
}

/// Fixed objects of a stack frame, in declared order.
pub type FixedEntries = List<FixedEntry>;

/// The fixed objects of a stack frame so far, and the first refusal.
#[derive(Drop)]
pub struct FixedRead {
    pub entries: FixedEntries,
    pub refused: Option<Refusal>,
}

/// The negative of a number.
fn minus(number: u32) -> i32
    requires { number ≤ MAX_NUMBER }
    ensures { result ≡ minus number }
{
    match number {
        0 => 0,
        n => -1 - (n - 1) as i32,
    }
}

/// The integer with this number, or with the one behind its minus sign.
fn signed(number: Option<u32>, negated: Option<u32>) -> Option<i32>
    requires number { IfSome number (λ n. n ≤ MAX_NUMBER) }
    requires negated { IfSome negated (λ n. n ≤ MAX_NUMBER) }
    ensures { result ≡ signed number negated }
{
    match number {
        Some(n) => Some(n as i32),
        None => match negated {
            Some(n) => Some(minus(n)),
            None => None,
        },
    }
}

/// The integer of the field with this key, from -2^30 + 1 to 2^30 - 1; `None` if the field is missing or has another
/// value.
fn integer(lines: &[Line], fields: &[MappingField], key: &[u8]) -> Option<i32>
    ensures { result ≡ integer_in lines.now key.now fields.now }
{
    let number = needed(lines, fields, key);
    let negated = negated(lines, fields, key);
    signed(number, negated)
}

/// The entry with this N, size and offset, each `None` if it couldn't be read.
fn fixed_with(
    number: Option<u32>,
    size: Option<u32>,
    offset: Option<i32>,
) -> Result<FixedEntry, RefusalKind>
    requires { IfSome number (λ n. n ≤ MAX_NUMBER) }
    ensures { result ≡ fixed_with number size offset }
{
    match (number, size, offset) {
        (Some(n), Some(size), Some(offset)) => Ok(FixedEntry {
            id: ObjectId(FIXED + n),
            size,
            offset,
        }),
        _ => Err(RefusalKind::BadLine),
    }
}

/// The fixed object with these fields, judged by itself.
fn fixed_entry(lines: &[Line], fields: &[MappingField]) -> Result<FixedEntry, RefusalKind>
    ensures { result ≡ fixed_entry_of lines.now fields.now }
{
    let number = needed(lines, fields, b"id");
    let size = needed(lines, fields, b"size");
    let offset = integer(lines, fields, b"offset");
    fixed_with(number, size, offset)
}

/// Judges one more fixed object, where there is room for so many. The set has the numbers of those so far.
fn judge(
    read: &mut FixedRead,
    known: &mut BTreeSet<u32>,
    room: usize,
    line: u32,
    entry: Result<FixedEntry, RefusalKind>,
) -> Result<(), AllocError>
    requires { AreNumbers known.old (fixed_ids read.old.entries) }
    ensures read { OnOk result (read.new ≡ fixed_judged room read.old line entry) }
    ensures known { OnOk result (AreNumbers known.new (fixed_ids read.new.entries)) }
{
    match entry {
        Err(kind) => {
            read.refused = earlier(read.refused, Some(Refusal { line, kind }));
            Ok(())
        }
        Ok(entry) => {
            let is_new = known.insert(entry.id.number())?;
            let cause = clash_in(room, !is_new, read.entries.len());
            read.refused = earlier(read.refused, refusal_at(line, cause));
            read.entries.push(entry)
        }
    }
}

/// The fixed objects in the lines of `fixedStack`, each judged after those before it, and the first refusal. There is
/// room for so many.
fn judged_entries(alloc: Global, room: usize, lines: &[Line]) -> Result<FixedRead, AllocError>
    ensures { IfOk result (λ read. read ≡ fixed_read room lines.now) }
{
    let listing = list(alloc, lines)?;
    let mut known = BTreeSet::new(alloc);
    let mut read = FixedRead {
        entries: List::new(alloc),
        refused: listing.refused,
    };
    for entry in listing.entries.as_slice() {
        let judged = fixed_entry(lines, entry.fields.as_slice());
        judge(&mut read, &mut known, room, entry.line, judged)?;
    }
    Ok(read)
}

/// The first refusal in the lines of `fixedStack`, where no entry is supported.
fn fixed_refusal(alloc: Global, lines: &[Line]) -> Result<Option<Refusal>, AllocError>
    ensures { IfOk result (λ refused. refused ≡ fixed_refusal lines.now) }
{
    let listing = list(alloc, lines)?;
    match listing.entries.as_slice() {
        [first, ..] => {
            let fault = Refusal {
                line: first.line,
                kind: RefusalKind::StackObject,
            };
            Ok(earlier(listing.refused, Some(fault)))
        }
        [] => Ok(listing.refused),
    }
}

/// The fixed objects in the lines of `fixedStack`, where there is room for so many, and the first refusal: the language
/// that isn't linked has none.
pub fn fixed(
    alloc: Global,
    linked: bool,
    room: usize,
    lines: &[Line],
) -> Result<FixedRead, AllocError>
    ensures { IfOk result (λ read. read ≡ fixed_of linked room lines.now) }
{
    if linked {
        judged_entries(alloc, room, lines)
    } else {
        Ok(FixedRead {
            entries: List::new(alloc),
            refused: fixed_refusal(alloc, lines)?,
        })
    }
}
