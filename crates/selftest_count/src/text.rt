//! The text of a self-test.

ghost use Rattle.std.specs.Prelude.{◌≡◌, ◌++◌, All, IfNone, IfOk, IfSome, OnOk};
ghost use Rattle.mir_func.specs.Resolve.{resolve};
ghost use Rattle.dwarf_loclists.specs.Ranges.{Ascend, ArePlaces};
ghost use Rattle.sem_interpreter.specs.StandsFor.{AreCounted};
ghost use Rattle.selftest_count.specs.Runs.{GoApart};
ghost use Rattle.selftest_count.specs.Text.{count_line, counts_text, items_of, MAX_STEPS, IsSelfTest};

use crate::counts::Counts;
use crate::run::count_run;
use dwarf_loclists::range::RangeLists;
use emit_code::code::Code;
use itoa::Integer;
use mir_func::block::Block;
use mir_func::func::Func;
use mir_func::variable::VarId;
use mir_printer::text::{Text, push_decimal, push_str};
use mir_substitution::substitutions::Substitutions;
use std::alloc::{AllocError, Global};

/// The most machine steps of a self-test.
const MAX_STEPS: u32 = 10_000;

/// The text of a self-test, a line for each count: the items of the function, the words of its code, and the counts of
/// a run of at most 10,000 steps. It is `None` if `count_run` is.
pub fn self_test_text(
    alloc: Global,
    source: &Func,
    subs: &Substitutions,
    code: &Code,
    lists: &RangeLists,
    parts: &[VarId],
) -> Result<Option<Text>, AllocError>
    requires counted { AreCounted source.now.blocks }
    requires readable { All (λ ranges. Ascend ranges × ArePlaces ranges) lists.now }
    ensures text { IfOk result (λ o.
        IfSome o (IsSelfTest source.now (resolve subs.now) code.now lists.now parts.now)) }
    ensures apart { IfOk result (λ o.
        IfNone o (GoApart source.now (resolve subs.now) code.now lists.now parts.now MAX_STEPS)) }
{
    match count_run(alloc, source, subs, code, lists, parts, MAX_STEPS)? {
        None => Ok(None),
        Some(counts) => {
            let items = items(source.blocks.as_slice());
            let text = print_counts(alloc, items, code.words.len(), &counts)?;
            Ok(Some(text))
        }
    }
}

/// The number of items of blocks.
fn items(blocks: &[Block]) -> u128
    requires { AreCounted blocks.now }
    ensures { result ≡ items_of blocks.now }
{
    let mut items = 0u128;
    for block in blocks {
        items += block.items.len() as u128;
    }
    items
}

/// A line for each count.
fn print_counts(
    alloc: Global,
    items: u128,
    words: usize,
    counts: &Counts,
) -> Result<Text, AllocError>
    ensures { IfOk result (λ text. text ≡ counts_text items words counts.now) }
{
    let mut text = Text::new(alloc);
    push_count(&mut text, "items ", items)?;
    push_count(&mut text, "words ", words)?;
    push_count(&mut text, "steps ", counts.steps)?;
    push_count(&mut text, "reads ", counts.reads)?;
    push_count(&mut text, "known ", counts.known)?;
    Ok(text)
}

/// Appends the line of a count.
fn push_count<I: Integer>(text: &mut Text, label: &str, count: I) -> Result<(), AllocError>
    ensures { OnOk result (text.new ≡ text.old ++ count_line label.now (I.text count)) }
{
    push_str(text, label)?;
    push_decimal(text, count)?;
    text.push(b'\n')
}
