//! Counts the words that are in the ranges of a variable.

ghost use Rattle.std.specs.Prelude.{◌≡◌, ◌<◌, ◌-◌, ◌^◌, sum_by};
ghost use Rattle.dwarf_loclists.specs.Ranges.{Ascend};
ghost use Rattle.report_function.specs.Report.{words_in};
ghost use Rattle.report_function.specs.steps.Before.{words_before};

use dwarf_loclists::range::Range;

/// The number of bytes of a word.
const WORD: u64 = 4;

/// The number of words that are in the ranges, of `count` words from address `base` on.
pub fn covered(base: u64, count: u64, ranges: &[Range]) -> u64
    requires base { base < 2 ^ 32 }
    requires count { count < 2 ^ 32 }
    requires ascend { Ascend ranges.now }
    ensures { result ≡ sum_by (words_in base count) ranges.now }
{
    let mut total = 0;
    for range in ranges {
        total += words_in(base, count, range);
    }
    total
}

fn words_in(base: u64, count: u64, range: &Range) -> u64
    requires count { count < 2 ^ 32 }
    requires some { range.now.lo < range.now.hi }
    ensures value { result ≡ words_in base count range.now }
    ensures between { result ≡ words_before base count range.now.hi - words_before base count range.now.lo }
{
    words_before(base, count, range.hi) - words_before(base, count, range.lo)
}

/// The number of words that begin before an address, of `count` words from address `base` on.
#[tactic(auto, unfolding(crate::specs::steps::Before::words_before))]
fn words_before(base: u64, count: u64, address: u64) -> u64
    requires { count < 2 ^ 32 }
    ensures { result ≡ words_before base count address }
{
    if address <= base {
        return 0;
    }
    count.min((address - base - 1) / WORD + 1)
}
