//! Laws about functions with their frames, each the contract of a function that does nothing.

ghost use Rattle.machine_proof.specs.Followers.{FollowersMeetTheHeadline};
ghost use Rattle.machine_proof.specs.Framing.{FramedComesFrom, FramedHasPlainTurns};

use sem_machine::laws::LocationLists;

/// A function with its frame satisfies what the machine's run requires of its origins (`ComesFrom`).
pub fn framed_comes_from()
    ensures { FramedComesFrom }
{}

/// A function with its frame has plain turns after the prologue: a simulation by its code items is one by its words.
pub fn framed_has_plain_turns()
    ensures { FramedHasPlainTurns }
{}

/// The image that a simulating function is laid in, with its frame, satisfies the source's `Headline`, if lists name
/// only required places and the function with its frame keeps the callee-saved registers.
pub fn followers_meet_the_headline<L: LocationLists>()
    ensures { FollowersMeetTheHeadline L.gives }
{}
