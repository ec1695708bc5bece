//! The law about suspended frames, the contract of a function that does nothing.

ghost use Rattle.kept_theorem.specs.Backtrace.{SuspendedListsHold};

/// Where the machine stands at code from which control goes to a callee, each place that the lists give for a suspended
/// frame holds the value of the newest assignment, in whatever registers and memory the callee leaves, unless the source
/// stops on a frame fault before.
pub fn suspended_lists_hold()
    ensures { SuspendedListsHold }
{}
