//! The entries of `constants`, the function's constant pool, in block style.

ghost use Rattle.std.specs.Prelude.{◌≡◌, ◌≤◌, ◌∷◌, ◌&&◌, [], drop, take, length, slice_get, IsTrue, None, IfOk, OnOk};
ghost use Rattle.std.specs.List.{list_all, position};
ghost use Rattle.mir_pool.specs.Pool.{constant_ids};
ghost use Rattle.read_declarations.specs.Constants.{
  has_this_key,
  value_at_line,
  value_in,
  is_once,
  goes_on,
  has_form,
  some_key,
  is_formed,
  constant_with,
  entry_constant,
  if_new,
  AreNumbers,
  lines_before,
  first_entry,
  with_constant,
  behind_line,
  bad_if_there,
  line_at_index,
  is_stray,
  stray,
  pool_behind,
  is_no_pool,
  constants_in,
  pool_of,
};

use crate::constant_line::{
    behind_spaces, continues, from_index, has_key, is_blank_line, key_of, opens, value_of,
};
use crate::constant_value::{TypedValue, alignment_of, id_of, typed_value};
use crate::entry::bad_line;
use mir_pool::constant::{Pool, PoolConstant};
use read_lexer::line::Line;
use read_refusal::first::{Refusal, earlier};
use std::alloc::{AllocError, Global};
use std::collections::BTreeSet;

/// The constants of a function's pool, in declared order, and the first refusal.
#[derive(Drop)]
pub struct PoolRead {
    pub constants: Pool,
    pub refused: Option<Refusal>,
}

fn has_this_key(key: &[u8], line: &Line) -> bool
    ensures { result ≡ has_this_key key.now line.now }
{
    key_of(line.text.as_slice()) == key
}

/// The value of the line with an index: empty if there is none.
fn value_at(lines: &[Line], index: usize) -> &[u8]
    ensures { result.now ≡ value_at_line (slice_get lines.now index) }
{
    match lines.get(index) {
        Some(line) => value_of(line.text.as_slice()),
        None => &[],
    }
}

/// The index of the first line with a key.
fn line_with(key: &[u8], lines: &[Line]) -> Option<usize>
    ensures { result ≡ position (has_this_key key.now) lines.now }
{
    lines.iter().position(|line| has_this_key(key, line))
}

/// The value that lines have for a key: empty if they have none.
fn value_in<'a>(key: &[u8], lines: &'a [Line]) -> &'a [u8]
    ensures { result.now ≡ value_in key.now lines.now }
{
    match line_with(key, lines) {
        Some(index) => value_at(lines, index),
        None => &[],
    }
}

/// Whether a line may stand behind the first of an entry.
fn goes_on(line: &Line) -> bool
    ensures { result ≡ goes_on line.now }
{
    let text = line.text.as_slice();
    is_blank_line(text) || (continues(text) && has_key(text))
}

/// Whether there is a first line, and it has a key.
fn begins_with_key(lines: &[Line]) -> bool
    ensures { result ≡ some_key (slice_get lines.now 0) }
{
    match lines.get(0) {
        Some(line) => has_key(line.text.as_slice()),
        None => false,
    }
}

/// Whether the lines may stand behind the first of an entry.
fn go_on(lines: &[Line]) -> bool
    ensures { result ≡ list_all goes_on lines.now }
{
    lines.iter().all(|line| goes_on(line))
}

/// Whether each line may stand where it does in an entry.
fn are_formed(lines: &[Line]) -> bool
    ensures { result ≡ (some_key (slice_get lines.now 0) && list_all goes_on (drop 1 lines.now)) }
{
    begins_with_key(lines) && go_on(from_line(lines, 1))
}

/// Whether each key of the lines stands once. The error is want of memory.
fn are_once(alloc: Global, lines: &[Line]) -> Result<bool, AllocError>
    requires { IsTrue (list_all has_form lines.now) }
    ensures { IfOk result (λ once. once ≡ list_all (is_once lines.now) lines.now) }
{
    let mut keys = BTreeSet::new(alloc);
    for line in lines {
        let text = line.text.as_slice();
        if has_key(text) {
            let is_new = keys.insert(key_of(text))?;
            if !is_new {
                return Ok(false);
            }
        }
    }
    Ok(true)
}

/// Whether an entry may have these lines: the first has a key, others go on, and each key stands once.
fn is_formed(alloc: Global, lines: &[Line]) -> Result<bool, AllocError>
    ensures { IfOk result (λ formed. formed ≡ is_formed lines.now) }
{
    if !are_formed(lines) {
        return Ok(false);
    }
    are_once(alloc, lines)
}

/// The constant of a number, a value and an alignment.
fn constant_with(
    id: Option<u32>,
    typed: Option<TypedValue>,
    alignment: Option<u32>,
) -> Option<PoolConstant>
    ensures { result ≡ constant_with id typed alignment }
{
    let id = id?;
    let typed = typed?;
    let alignment = alignment?;
    Some(PoolConstant {
        id,
        integer: typed.integer,
        value: typed.value,
        alignment,
    })
}

/// The constant of an entry, if the lines are one.
fn entry_constant(alloc: Global, lines: &[Line]) -> Result<Option<PoolConstant>, AllocError>
    ensures { IfOk result (λ constant. constant ≡ entry_constant lines.now) }
{
    if is_formed(alloc, lines)? {
        let id = id_of(value_in(b"id", lines));
        let typed = typed_value(value_in(b"value", lines));
        Ok(constant_with(id, typed, alignment_of(value_in(b"alignment", lines))))
    } else {
        Ok(None)
    }
}

fn from_line(lines: &[Line], index: usize) -> &[Line]
    ensures { result.now ≡ drop index lines.now }
{
    if lines.len() < index {
        &[]
    } else {
        &lines[index..]
    }
}

fn before_line(lines: &[Line], index: usize) -> &[Line]
    ensures { result.now ≡ take index lines.now }
{
    if lines.len() < index {
        lines
    } else {
        &lines[..index]
    }
}

/// How many lines stand before the next entry.
#[tactic(auto, using(crate::proofs::Runs::runs))]
fn lines_before(lines: &[Line]) -> usize
    ensures value { result ≡ lines_before lines.now }
    ensures within { result ≤ length lines.now }
{
    lines
        .iter()
        .take_while(|line| !opens(line.text.as_slice()))
        .count()
}

/// The lines of the first entry, where one begins.
fn first_entry(lines: &[Line]) -> &[Line]
    ensures { result.now ≡ first_entry lines.now }
{
    before_line(lines, 1 + lines_before(from_line(lines, 1)))
}

/// Refuses a line.
fn refuse(read: &mut PoolRead, line: u32)
    ensures { read.new ≡ with_constant read.old line None }
{
    read.refused = earlier(read.refused, Some(bad_line(line)));
}

/// Adds the constant of an entry if its number is new, or the entry's refusal. The set has the numbers so far.
fn add_constant(
    read: &mut PoolRead,
    known: &mut BTreeSet<u32>,
    line: u32,
    constant: Option<PoolConstant>,
) -> Result<(), AllocError>
    requires { AreNumbers known.old (constant_ids read.old.constants) }
    ensures read { OnOk result (read.new ≡ with_constant read.old line (if_new (constant_ids read.old.constants) constant)) }
    ensures known { OnOk result (AreNumbers known.new (constant_ids read.new.constants)) }
{
    match constant {
        Some(constant) => {
            let is_new = known.insert(constant.id)?;
            if is_new {
                read.constants.push(constant)
            } else {
                refuse(read, line);
                Ok(())
            }
        }
        None => {
            refuse(read, line);
            Ok(())
        }
    }
}

/// Reads a line, which may begin an entry; `left` are it and those behind it. The set has the numbers so far.
fn take_line(
    alloc: Global,
    read: &mut PoolRead,
    known: &mut BTreeSet<u32>,
    line: &Line,
    left: &[Line],
) -> Result<(), AllocError>
    requires { AreNumbers known.old (constant_ids read.old.constants) }
    ensures read { OnOk result (read.new ≡ behind_line read.old line.now left.now) }
    ensures known { OnOk result (AreNumbers known.new (constant_ids read.new.constants)) }
{
    if opens(line.text.as_slice()) {
        let constant = entry_constant(alloc, first_entry(left))?;
        add_constant(read, known, line.number, constant)
    } else {
        Ok(())
    }
}

/// The refusal of the line with an index, if there is one.
fn bad_at(lines: &[Line], index: usize) -> Option<Refusal>
    ensures { result ≡ bad_if_there (slice_get lines.now index) }
{
    match lines.get(index) {
        Some(line) => Some(bad_line(line.number)),
        None => None,
    }
}

fn is_stray(line: &Line) -> bool
    ensures { result ≡ is_stray line.now }
{
    !is_blank_line(line.text.as_slice())
}

/// The index of the first line that isn't of blanks alone.
fn stray_index(lines: &[Line]) -> Option<usize>
    ensures { result ≡ position is_stray lines.now }
{
    lines.iter().position(|line| is_stray(line))
}

/// The first refusal of these lines, which belong to no entry.
fn first_stray(lines: &[Line]) -> Option<Refusal>
    ensures { result ≡ bad_if_there (line_at_index lines.now (position is_stray lines.now)) }
{
    match stray_index(lines) {
        Some(index) => bad_at(lines, index),
        None => None,
    }
}

/// The first refusal of lines before the first entry.
fn stray(lines: &[Line]) -> Option<Refusal>
    ensures { result ≡ stray lines.now }
{
    first_stray(before_line(lines, lines_before(lines)))
}

/// The constants in lines behind the key, and the first refusal.
fn entries(alloc: Global, lines: &[Line]) -> Result<PoolRead, AllocError>
    ensures { IfOk result (λ read. read ≡ pool_behind (record { constants = []; refused = stray lines.now }) lines.now) }
{
    let mut read = PoolRead {
        constants: Pool::new(alloc),
        refused: stray(lines),
    };
    let mut known = BTreeSet::new(alloc);
    for (index, line) in lines.iter().enumerate() {
        take_line(alloc, &mut read, &mut known, line, from_line(lines, index))?;
    }
    Ok(read)
}

/// Whether `[]` stands behind the key: there is no entry.
fn is_no_pool(text: &[u8]) -> bool
    ensures { result ≡ is_no_pool text.now }
{
    let list = behind_spaces(from_index(text, 10));
    list.starts_with(b"[]") && is_blank_line(from_index(list, 2))
}

/// No constant.
fn none(alloc: Global) -> PoolRead
    ensures { result ≡ record { constants = []; refused = None } }
{
    PoolRead {
        constants: Pool::new(alloc),
        refused: None,
    }
}

/// The constants in the lines of `constants`, and the first refusal.
fn constants_in(alloc: Global, lines: &[Line]) -> Result<PoolRead, AllocError>
    ensures { IfOk result (λ read. read ≡ constants_in lines.now) }
{
    match lines {
        [] => Ok(none(alloc)),
        [key, rest @ ..] => entries_behind(alloc, key, rest),
    }
}

/// The same in the line of the key and those behind it.
fn entries_behind(alloc: Global, key: &Line, lines: &[Line]) -> Result<PoolRead, AllocError>
    ensures { IfOk result (λ read. read ≡ constants_in (key.now ∷ lines.now)) }
{
    if is_no_pool(key.text.as_slice()) {
        Ok(none(alloc))
    } else {
        entries(alloc, lines)
    }
}

/// The constants of a function's pool, and the first refusal: the language that isn't linked has none.
pub fn pool(alloc: Global, linked: bool, lines: &[Line]) -> Result<PoolRead, AllocError>
    ensures { IfOk result (λ read. read ≡ pool_of linked lines.now) }
{
    if linked {
        constants_in(alloc, lines)
    } else {
        Ok(none(alloc))
    }
}
