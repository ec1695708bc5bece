//! The source positions for the rows of a function.

ghost use Rattle.std.specs.Prelude.{◌≡◌, ◌≤◌, length, take, drop, IfOk};
ghost use Rattle.std.specs.List.{prefix_len};
ghost use Rattle.prologue_rows.specs.Lines.{is_prologue, is_head, head_len, lines_of};

use crate::words::{SourceWord, SourceWords, at_line};
use base_ids::function_ids::BlockIndex;
use dwarf_line_table::scope_line::ScopeLine;
use std::alloc::{AllocError, Global};

/// The block of the prologue.
const PROLOGUE: BlockIndex = BlockIndex(0);

/// The source positions for the rows of a function whose words begin at an address: first its own position, then those
/// of the words behind its prologue, of which the first ones without a line have the function's own position. The error
/// is out of memory.
pub fn lines_of(
    alloc: Global,
    own: &ScopeLine,
    base: u64,
    words: &[SourceWord],
) -> Result<SourceWords, AllocError>
    ensures { IfOk result (λ lines. lines ≡ lines_of own.now base words.now) }
{
    let body = behind(words, prologue_len(words));
    let head = head_len(body);
    let front = before(body, head);
    let mut lines = SourceWords::new(alloc);
    lines.push(at_line(base, PROLOGUE, own))?;
    for word in front {
        lines.push(at_line(word.address, word.block, own))?;
    }
    lines.extend_from_slice(behind(body, head))?;
    Ok(lines)
}

/// The words behind the first ones.
fn behind(words: &[SourceWord], count: usize) -> &[SourceWord]
    requires { count ≤ length words.now }
    ensures { result.now ≡ drop count words.now }
{
    &words[count..]
}

/// The first words.
fn before(words: &[SourceWord], count: usize) -> &[SourceWord]
    requires { count ≤ length words.now }
    ensures { result.now ≡ take count words.now }
{
    &words[..count]
}

/// The number of words of the prologue.
fn prologue_len(words: &[SourceWord]) -> usize
    ensures value { result ≡ prefix_len is_prologue words.now }
    ensures within { result ≤ length words.now }
{
    let mut count = 0;
    for word in words {
        if !is_prologue(word) {
            return count;
        }
        count += 1;
    }
    count
}

/// Whether a word is one of the prologue.
fn is_prologue(word: &SourceWord) -> bool
    ensures { result ≡ is_prologue word.now }
{
    word.block.number() == 0
}

/// The number of words at the front that are in the first word's block and have no line.
fn head_len(body: &[SourceWord]) -> usize
    ensures value { result ≡ head_len body.now }
    ensures within { result ≤ length body.now }
{
    match body {
        [] => 0,
        [first, ..] => head_in(first.block, body),
    }
}

/// The number of words at the front that are in a block and have no line.
fn head_in(block: BlockIndex, body: &[SourceWord]) -> usize
    ensures value { result ≡ prefix_len (is_head block) body.now }
    ensures within { result ≤ length body.now }
{
    let mut count = 0;
    for word in body {
        if !is_head(block, word) {
            return count;
        }
        count += 1;
    }
    count
}

/// Whether a word is in a block and has no line.
fn is_head(block: BlockIndex, word: &SourceWord) -> bool
    ensures { result ≡ is_head block word.now }
{
    word.block.number() == block.number() && word.line == 0
}
