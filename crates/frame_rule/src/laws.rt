//! Laws of the rule: each is the contract of a function with an empty body.

ghost use Rattle.frame_rule.specs.Sound.{LoweredIsFramed};

/// A sound function without virtual registers, whose frame and arguments on the stack reach at most 2,032 bytes above
/// x2, satisfies after frame lowering what every function with a frame must.
pub fn lowered_is_framed()
    ensures { LoweredIsFramed }
{}
