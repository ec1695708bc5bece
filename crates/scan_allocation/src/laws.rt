//! Laws of the allocation: each is the contract of a function with an empty body.

ghost use Rattle.scan_allocation.specs.Laws.{IntervalsThatMeetAreApart, AllocationIsColoring};

/// Two virtual registers whose intervals meet never get the same physical register.
pub fn intervals_that_meet_are_apart()
    ensures { IntervalsThatMeetAreApart }
{}

/// Where code sets a register, each other register that is live after it is in another place.
pub fn allocation_is_coloring()
    ensures { AllocationIsColoring }
{}
