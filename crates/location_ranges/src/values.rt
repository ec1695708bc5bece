//! What the walk needs of the value analysis.

use value_tracker::mir_substitution_crate::substitutions::Substitutions;
use value_tracker::part_list::PartList;
use value_tracker::value_solver_crate::entry::BlockEntry;
use value_tracker::value_solver_crate::tracked::Tracked;

/// The result of the value analysis of a function with its frame.
#[derive(Drop)]
pub struct Values<'a> {
    /// The parts of variables that its debug values assign, each listed once.
    pub variables: &'a PartList,
    /// All tracked entities: these parts in their order, and then all others.
    pub things: &'a [Tracked],
    /// The live-in values of each block, by the block's index.
    pub entries: &'a [BlockEntry],
    /// The debug value substitutions.
    pub subs: &'a Substitutions,
}
