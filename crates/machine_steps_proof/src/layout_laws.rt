//! Laws about images, each the contract of a function that does nothing.

ghost use Rattle.machine_steps_proof.specs.Images.{ImagesAreLaid};

/// The image of a layout whose words all encode operations has the function's code at the layout's addresses: the
/// machine's steps at the address of an instruction are the instruction's.
pub fn images_are_laid()
    ensures { ImagesAreLaid }
{}
