//! Theorems on `.text`. Each is the contract of an empty function.

ghost use Rattle.theorem_invariance.specs.Text.{IsCodedAlone, AlikeIsCodedAlike, SameIsCodedSame};
ghost use Rattle.theorem_invariance.specs.Text.{HasTextAlone, AlikeHasSameText, SameHasSameText};

/// The machine code of a function is the machine code of the function without its debug items. Two functions with equal
/// code up to positions have equal machine code from the same address up to positions, and two with equal code and
/// origins have equal machine code with origins.
pub fn layouts_alone()
    ensures alone { IsCodedAlone }
    ensures alike { AlikeIsCodedAlike }
    ensures same { SameIsCodedSame }
{}

/// The `.text` of functions that are laid out one after the other is that of the functions without their debug items.
/// If two lists of functions have pairwise equal code up to positions, they have the same `.text`, and pairwise equal
/// machine code up to positions. With equal origins too, the machine code is equal with its origins.
pub fn text_alone()
    ensures alone { HasTextAlone }
    ensures alike { AlikeHasSameText }
    ensures same { SameHasSameText }
{}
