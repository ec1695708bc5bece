//! Laws about places, each the contract of a function that does nothing.

ghost use Rattle.machine_steps_proof.specs.Contents.{ContentsTellWanted};
ghost use Rattle.machine_steps_proof.specs.Places.{PlacesHold};

/// If the machine matches a function with its frame, each place with a token holds the value that the token names: a
/// register, a frame slot in memory at its offset from x2, or a constant.
pub fn places_hold()
    ensures { PlacesHold }
{}

/// In two functions with their frames whose blocks have the same numbers and items, the same locations are required.
pub fn contents_tell_wanted()
    ensures { ContentsTellWanted }
{}
