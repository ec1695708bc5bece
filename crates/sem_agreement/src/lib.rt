//! Agreement of two states on a set of locations. The second may have fewer debug values than the first, except under
//! the given free instruction numbers. The outcome of an item then depends only on what it reads, so a pass has to show
//! only that this agrees. Renamed, deleted and added code are all proved by these laws: `proofs/` has them one by one,
//! with more general forms.
#![tactic(auto)]

pub mod laws;
