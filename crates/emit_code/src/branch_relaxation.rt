//! The rounds of branch relaxation.

ghost use Rattle.std.specs.Prelude.{◌≡◌, ◌<◌, ◌^◌, true, false, length, MatchOption, IfOk, OnOk};
ghost use Rattle.emit_code.specs.steps.Spans.{sums_from, Settles, grown_from, grown, reaches, shorts};
ghost use Rattle.emit_code.specs.declared.span.Span.TheVariants.{Short, Long};

use crate::span::{Span, Spans};
use crate::table::at;
use base_list::List;
use std::alloc::{AllocError, Global};

/// The bytes before each item, and last the bytes of all.
pub type Sums = List<u32>;

/// The sums of spans: the bytes before each, and last the bytes of all.
pub fn sums(alloc: Global, spans: &[Span]) -> Result<Sums, AllocError>
    requires { length spans.now < 2 ^ 18 }
    ensures { IfOk result (λ sums. sums ≡ sums_from 0 spans.now) }
{
    let mut sums = Sums::new(alloc);
    let mut sum = 0;
    for span in spans {
        sums.push(sum)?;
        sum += span.size();
    }
    sums.push(sum)?;
    Ok(sums)
}

/// Makes branches long in rounds until each short one reaches. The result is the bytes before each item.
pub fn settle(alloc: Global, spans: &mut Spans) -> Result<Sums, AllocError>
    requires { length spans.old < 2 ^ 18 }
    ensures settles { OnOk result (Settles spans.old spans.new) }
    ensures sums { IfOk result (λ sums. sums ≡ sums_from 0 spans.new) }
{
    let mut sums = sums(alloc, spans.as_slice())?;
    while grow(&mut spans.items, sums.as_slice()) {
        sums = crate::branch_relaxation::sums(alloc, spans.as_slice())?;
    }
    Ok(sums)
}

/// One round: each short branch out of reach becomes long. Whether any did.
fn grow(spans: &mut Vec<Span>, sums: &[u32]) -> bool
    ensures round { spans.new.items ≡ grown_from sums.now 0 spans.old.items }
    ensures steady { result ≡ false → spans.new.items ≡ spans.old.items }
    ensures fewer { result ≡ true → shorts spans.new.items < shorts spans.old.items }
{
    let mut found = false;
    for index in 0..spans.len() {
        if let Some(target) = far(spans[index], index, sums) {
            spans[index] = Span::Long(target);
            found = true;
        }
    }
    found
}

/// The target of a short branch if it is out of reach.
fn far(span: Span, index: usize, sums: &[u32]) -> Option<u32>
    ensures grows { MatchOption result (grown sums.now index span ≡ span) (λ t. (span ≡ Short t) ×
        (grown sums.now index span ≡ Long t)) }
{
    match span {
        Span::Short(target) => {
            let from = u64::from(at(sums, index));
            let to = u64::from(at(sums, target as usize));
            if reaches(from, to) {
                None
            } else {
                Some(target)
            }
        }
        Span::Nothing | Span::OneWord | Span::CallSite | Span::Long(_) => None,
    }
}

/// Whether a short branch at one address reaches the other: from -4096 to 4094 bytes.
fn reaches(from: u64, to: u64) -> bool
    requires from { from < 2 ^ 32 }
    requires to { to < 2 ^ 32 }
    ensures { result ≡ reaches from to }
{
    to <= from + 4094 && from <= to + 4096
}
