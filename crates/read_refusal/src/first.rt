//! Refusals and their order.

ghost use Rattle.std.specs.Prelude.{◌≡◌};
ghost use Rattle.read_refusal.specs.First.{comes_before, earlier};

use crate::kind::RefusalKind;

/// A line that is refused, and why.
#[derive(Clone, Copy, Debug, PartialEq, Eq)]
pub struct Refusal {
    /// The line's number in the text, counted from 1.
    pub line: u32,
    /// Why it is refused.
    pub kind: RefusalKind,
}

/// Whether a refusal comes before another: at an earlier line, or at the same line with a lower number.
pub fn comes_before(one: Refusal, other: Refusal) -> bool
    ensures { result ≡ comes_before one other }
{
    one.line < other.line || (one.line == other.line && one.kind.number() < other.kind.number())
}

/// The first of two optional refusals.
pub fn earlier(one: Option<Refusal>, other: Option<Refusal>) -> Option<Refusal>
    ensures { result ≡ earlier one other }
{
    match (one, other) {
        (Some(first), Some(second)) if comes_before(second, first) => Some(second),
        (Some(first), _) => Some(first),
        (None, second) => second,
    }
}
