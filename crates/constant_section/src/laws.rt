//! The law of the section of constants.

ghost use Rattle.constant_section.specs.Section.{ConstantsStand};

/// Each constant has its bytes where it is said to stand, a multiple of its alignment, and what stood before stays.
pub fn constants_stand()
    ensures { ConstantsStand }
{}
