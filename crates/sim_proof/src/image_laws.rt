//! Theorem on images and the simulator's code: the contract of an empty function.

ghost use Rattle.sim_proof.specs.Shows.{ImagesShowCode};

/// An image of a layout is an image of the layout's machine code.
pub fn images_show_code()
    ensures { ImagesShowCode }
{}
