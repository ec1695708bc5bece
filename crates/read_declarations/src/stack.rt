//! The entries of `stack`: the objects in a function's stack frame, spill slots included.

ghost use Rattle.std.specs.Prelude.{◌≡◌, map, IfOk, OnOk};
ghost use Rattle.mir_substitution.specs.mir_func.Objects.{local_count};
ghost use Rattle.read_declarations.specs.Stack.{
  is_alignment,
  stack_entry_of,
  clash_in,
  unsized,
  entry_with,
  refusal_at,
  AreIds,
  judged,
  entry_offsets,
  without_offset,
  shared,
  stack_read,
  stack_of,
};

use crate::entry::MappingField;
use crate::field::{given, is_variable_sized, needed, negated, value_at};
use crate::list::list;
use base_ids::function_ids::SlotId;
use base_list::List;
use mir_substitution::mir_func_crate::limits::MAX_SLOTS;
use mir_substitution::mir_func_crate::object::counted;
use read_lexer::line::Line;
use read_refusal::first::{Refusal, earlier};
use read_refusal::kind::RefusalKind;
use std::alloc::{AllocError, Global};
use std::collections::BTreeSet;

/// An entry of a function's stack frame: a spill slot or a stack object.
#[derive(Clone, Copy, Debug, PartialEq, Eq)]
pub struct StackEntry {
    /// The N of `%stack.N`.
    pub id: SlotId,
    /// Its size in bytes.
    pub size: u32,
    /// Its alignment in bytes: 1, 2, 4, 8 or 16.
    pub align: u32,
    /// How far it begins below the end of the local block, in bytes, if it is in that (LLVM: `local-offset`, negated).
    pub local_offset: Option<u32>,
}

/// Entries of a stack frame, in declared order.
pub type StackEntries = List<StackEntry>;

/// The entries of a stack frame so far, and the first refusal.
#[derive(Drop)]
pub struct StackRead {
    pub entries: StackEntries,
    pub refused: Option<Refusal>,
}

/// Whether a stack entry may have this alignment.
fn is_alignment(align: u32) -> bool
    ensures { result ≡ is_alignment align }
{
    align == 1 || align == 2 || align == 4 || align == 8 || align == 16
}

/// The refusal of an entry of variable size without `size`.
fn unsized_entry(id: Option<u32>) -> Result<StackEntry, RefusalKind>
    ensures { result ≡ unsized id }
{
    match id {
        Some(_) => Err(RefusalKind::StackObject),
        None => Err(RefusalKind::BadLine),
    }
}

/// The entry with these numbers, each `None` if it couldn't be read, and this local offset.
fn entry_with(
    is_variable: bool,
    id: Option<u32>,
    size: Option<u32>,
    align: Option<u32>,
    local_offset: Option<u32>,
) -> Result<StackEntry, RefusalKind>
    ensures { result ≡ entry_with is_variable id size align local_offset }
{
    match (id, size, align) {
        (Some(id), Some(size), Some(align)) => {
            if is_variable || !is_alignment(align) {
                Err(RefusalKind::StackObject)
            } else {
                Ok(StackEntry {
                    id: SlotId(id),
                    size,
                    align,
                    local_offset,
                })
            }
        }
        _ => Err(RefusalKind::BadLine),
    }
}

/// The stack entry with these fields, judged by itself.
fn stack_entry(lines: &[Line], fields: &[MappingField]) -> Result<StackEntry, RefusalKind>
    ensures { result ≡ stack_entry_of lines.now fields.now }
{
    let is_variable = is_variable_sized(lines, fields);
    let id = needed(lines, fields, b"id");
    if is_variable && value_at(lines, fields, b"size").is_none() {
        return unsized_entry(id);
    }
    let size = needed(lines, fields, b"size");
    let align = given(lines, fields, b"alignment", 1);
    let local_offset = negated(lines, fields, b"local-offset");
    entry_with(is_variable, id, size, align, local_offset)
}

/// Why an entry can't be added to `count` others where there is room for so many: its number is taken, or there is no
/// room.
pub(crate) fn clash_in(room: usize, is_there: bool, count: usize) -> Option<RefusalKind>
    ensures { result ≡ clash_in room is_there count }
{
    if is_there {
        Some(RefusalKind::StackObject)
    } else if room <= count {
        Some(RefusalKind::TooMany)
    } else {
        None
    }
}

/// The refusal of a line, if there is a cause.
pub(crate) fn refusal_at(line: u32, cause: Option<RefusalKind>) -> Option<Refusal>
    ensures { result ≡ refusal_at line cause }
{
    match cause {
        Some(kind) => Some(Refusal { line, kind }),
        None => None,
    }
}

/// Judges one more entry. The set has the numbers of the entries so far.
fn judge(
    read: &mut StackRead,
    ids: &mut BTreeSet<u32>,
    line: u32,
    entry: Result<StackEntry, RefusalKind>,
) -> Result<(), AllocError>
    requires { AreIds ids.old read.old.entries }
    ensures read { OnOk result (read.new ≡ judged read.old line entry) }
    ensures ids { OnOk result (AreIds ids.new read.new.entries) }
{
    match entry {
        Err(kind) => {
            read.refused = earlier(read.refused, Some(Refusal { line, kind }));
            Ok(())
        }
        Ok(entry) => {
            let is_new = ids.insert(entry.id.number())?;
            let cause = clash_in(MAX_SLOTS, !is_new, read.entries.len());
            read.refused = earlier(read.refused, refusal_at(line, cause));
            read.entries.push(entry)
        }
    }
}

/// How many entries have a local offset.
fn local_count(entries: &[StackEntry]) -> usize
    ensures { result ≡ local_count (entry_offsets entries.now) }
{
    let mut count = 0;
    for entry in entries {
        count += counted(entry.local_offset);
    }
    count
}

/// An entry without its local offset.
fn without_offset(entry: &StackEntry) -> StackEntry
    ensures { result ≡ without_offset entry.now }
{
    StackEntry {
        local_offset: None,
        ..*entry
    }
}

/// Entries without their local offsets.
fn without_offsets(alloc: Global, entries: &[StackEntry]) -> Result<Vec<StackEntry>, AllocError>
    ensures { IfOk result (λ made. made.items ≡ map without_offset entries.now) }
{
    entries.iter().map(|e| without_offset(e)).collect(alloc)
}

/// Entries, without a local offset if there is one alone.
fn shared(alloc: Global, entries: StackEntries) -> Result<StackEntries, AllocError>
    ensures { IfOk result (λ made. made ≡ shared entries) }
{
    if local_count(entries.as_slice()) == 1 {
        Ok(List::from(without_offsets(alloc, entries.as_slice())?))
    } else {
        Ok(entries)
    }
}

/// The entries in the lines of `stack`, each judged after those before it, and the first refusal.
fn judged_entries(alloc: Global, lines: &[Line]) -> Result<StackRead, AllocError>
    ensures { IfOk result (λ read. read ≡ stack_read lines.now) }
{
    let listing = list(alloc, lines)?;
    let mut ids = BTreeSet::new(alloc);
    let mut read = StackRead {
        entries: List::new(alloc),
        refused: listing.refused,
    };
    for entry in listing.entries.as_slice() {
        let judged = stack_entry(lines, entry.fields.as_slice());
        judge(&mut read, &mut ids, entry.line, judged)?;
    }
    Ok(read)
}

/// The stack entries in the lines of `stack`, and the first refusal.
pub fn stack(alloc: Global, lines: &[Line]) -> Result<StackRead, AllocError>
    ensures { IfOk result (λ read. read ≡ stack_of lines.now) }
{
    let read = judged_entries(alloc, lines)?;
    Ok(StackRead {
        entries: shared(alloc, read.entries)?,
        refused: read.refused,
    })
}
