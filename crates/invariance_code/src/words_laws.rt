//! Theorems on machine code. Each is the contract of an empty function.

ghost use Rattle.invariance_code.specs.Alone.{CodeHasWords, AlikeCodeIsCodedAlike, SameCodeIsCodedSame};

/// A function with its frame has the same machine code as without its debug items. If two have equal code up to
/// positions, their machine code from the same address is equal up to positions; with equal origins, it is equal with
/// its origins.
pub fn words_alone()
    ensures stripped { CodeHasWords }
    ensures alike { AlikeCodeIsCodedAlike }
    ensures same { SameCodeIsCodedSame }
{}
