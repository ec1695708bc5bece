//! The law about block entries, the contract of a function that does nothing.

ghost use Rattle.value_tracker.specs.Entering.{EntriesGiveClasses};

/// The live-in values of a reached block define classes of the tracked entities at its start.
pub fn entries_give_classes()
    ensures { EntriesGiveClasses }
{}
