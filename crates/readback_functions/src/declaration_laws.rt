//! The laws that names, stack entries and constants are read back.

ghost use Rattle.readback_functions.specs.Declared.{NamesReadBack, StacksReadBack};
ghost use Rattle.readback_functions.specs.Pools.{PoolsReadBack, PoolsAreKnown};

/// The line of a name of bytes is read as the name.
pub fn names_read_back()
    ensures { NamesReadBack }
{}

/// The lines of at most 224 slots and objects within their limits, with no number twice and not just one local
/// offset, are read as stack entries.
pub fn stacks_read_back()
    ensures { StacksReadBack }
{}

/// The text of a function's constants within their limits, with no number twice, is read as these constants.
pub fn pools_read_back()
    ensures { PoolsReadBack }
{}

/// The constants of a function that was read are within their limits, and no number occurs twice.
pub fn pools_are_known()
    ensures { PoolsAreKnown }
{}
