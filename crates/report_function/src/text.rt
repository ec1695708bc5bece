//! The text of a report.

ghost use Rattle.std.specs.Prelude.{◌≡◌, ◌++◌, IfOk, OnOk};
ghost use Rattle.std.specs.List.{flat_map};
ghost use Rattle.report_function.specs.Text.{reason_text, lost_text, loss_line, cover_line, head_text, report_text};

use crate::report::{Cover, Report};
use listing_text::name::push_name;
use mir_printer::text::{Text, push_decimal, push_numbered, push_str};
use pass_trait::loss::{Loss, Lost, Reason};
use std::alloc::{AllocError, Global};

/// The lines of a report: the function, its number of words, its variables, and its losses.
pub fn print_report(alloc: Global, report: &Report) -> Result<Text, AllocError>
    ensures { IfOk result (λ text. text ≡ report_text report.now) }
{
    let mut text = Text::new(alloc);
    push_head(&mut text, report.name.as_slice(), report.words)?;
    push_covers(&mut text, report.words, report.covers.as_slice())?;
    push_losses(&mut text, report.losses.as_slice())?;
    Ok(text)
}

fn push_head(text: &mut Text, name: &[u8], words: u64) -> Result<(), AllocError>
    ensures { OnOk result (text.new ≡ text.old ++ head_text name.now words) }
{
    push_str(text, "function ")?;
    push_name(text, name)?;
    push_str(text, "\nwords ")?;
    push_decimal(text, words)?;
    text.push(b'\n')
}

fn push_covers(text: &mut Text, words: u64, covers: &[Cover]) -> Result<(), AllocError>
    ensures { OnOk result (text.new ≡ text.old ++ flat_map (cover_line words) covers.now) }
{
    for cover in covers {
        push_cover(text, words, cover)?;
    }
    Ok(())
}

fn push_cover(text: &mut Text, words: u64, cover: &Cover) -> Result<(), AllocError>
    ensures { OnOk result (text.new ≡ text.old ++ cover_line words cover.now) }
{
    push_str(text, "cover ")?;
    push_name(text, cover.name.as_slice())?;
    text.push(b' ')?;
    push_decimal(text, cover.words)?;
    push_str(text, " of ")?;
    push_decimal(text, words)?;
    text.push(b'\n')
}

fn push_losses(text: &mut Text, losses: &[Loss]) -> Result<(), AllocError>
    ensures { OnOk result (text.new ≡ text.old ++ flat_map loss_line losses.now) }
{
    for loss in losses {
        push_loss(text, loss)?;
    }
    Ok(())
}

fn push_loss(text: &mut Text, loss: &Loss) -> Result<(), AllocError>
    ensures { OnOk result (text.new ≡ text.old ++ loss_line loss.now) }
{
    push_lost(text, &loss.what)?;
    text.push(b' ')?;
    push_str(text, reason_word(loss.reason))?;
    text.push(b'\n')
}

fn push_lost(text: &mut Text, lost: &Lost) -> Result<(), AllocError>
    ensures { OnOk result (text.new ≡ text.old ++ lost_text lost.now) }
{
    match *lost {
        Lost::Number(k) => push_numbered(text, "lost number ", k.number()),
        Lost::Mark(p) => {
            push_numbered(text, "lost mark ", p.block.number())?;
            push_numbered(text, ".", p.item)
        }
        Lost::Register(r) => push_numbered(text, "kept register x", r.number()),
    }
}

/// The word for a reason.
fn reason_word(reason: Reason) -> &'static str
    ensures { result.now ≡ reason_text reason }
{
    match reason {
        Reason::Removed => "removed",
        Reason::WrongPlace => "wrong-place",
        Reason::Scratch => "scratch",
        Reason::Bypassed => "bypassed",
        Reason::Unreachable => "unreachable",
        Reason::NoScratch => "no-scratch",
        Reason::CallNamed => "call-named",
        Reason::EntryLoop => "entry-loop",
        Reason::NoSlot => "no-slot",
    }
}
