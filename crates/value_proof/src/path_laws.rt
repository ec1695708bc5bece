//! Laws about class numbers, each the contract of a function that does nothing.

ghost use Rattle.value_proof.specs.Classes.{ClassesPassItems, PathsComeFromAbove};
ghost use Rattle.value_proof.specs.PreferredByClass.{FirstByClassIsWanted, UnmarkedIsNowhere};

/// The classes computed past an item from those before it are classes there.
pub fn classes_pass_items()
    ensures { ClassesPassItems }
{}

/// A path to a position below an item comes through this item, unless the paths start at that position.
pub fn paths_come_from_above()
    ensures { PathsComeFromAbove }
{}

/// The first location that has the class of a part of a variable is the required one.
pub fn first_by_class_is_wanted()
    ensures { FirstByClassIsWanted }
{}

/// No location is required for a part of a variable that no debug value assigns.
pub fn unmarked_is_nowhere()
    ensures { UnmarkedIsNowhere }
{}
