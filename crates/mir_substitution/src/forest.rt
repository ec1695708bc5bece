//! A disjoint-set forest of pairs, united by rank: the chains of all pairs of one tree have the same end. A tree of n
//! pairs is at most log2(n) high, so that a pair's end is found in so many look-ups however long its chain is.

ghost use Rattle.std.specs.Prelude.{◌≡◌, ◌+◌, ◌^◌, ◌<◌, ◌≤◌, [], ◌∷◌, ◌++◌, Some};
ghost use Rattle.std.specs.Option.{option_eq};
ghost use Rattle.std.specs.HashMap.{spare};
ghost use Rattle.mir_func.specs.declared.debug_substitution.OperandPair.{OperandPair};
ghost use Rattle.mir_func.specs.Resolve.{is_pair};
ghost use Rattle.mir_substitution.specs.Index.{key_of};
ghost use Rattle.mir_substitution.specs.Forest.{node_of, AreEnds, IsRootOf, given, ended, placed, united};

use mir_func::debug_substitution::{DebugSubstitution, OperandPair};
use std::collections::HashMap;

/// The nodes of pairs. A pair without one stands in a tree of its own: its chain ends at it.
pub type Forest = HashMap<(u32, u32), Node>;

/// Where a pair stands.
#[derive(Clone, Copy)]
pub struct Node {
    /// At least the height of the tree below the pair, and below its parent's rank.
    pub rank: usize,
    /// What is above the pair.
    pub link: Link,
}

/// What is above a pair.
#[derive(Clone, Copy)]
pub enum Link {
    /// Another pair of its tree.
    Parent(OperandPair),
    /// Nothing, since it is the root of its tree: the end of the chains of the tree's pairs, if they have one.
    End(Option<OperandPair>),
}

/// The root of a tree.
#[derive(Clone, Copy)]
pub struct Root {
    /// The pair that is the root.
    pub pair: OperandPair,
    /// Its rank.
    pub rank: usize,
    /// The end of the chains of the tree's pairs, if they have one.
    pub end: Option<OperandPair>,
}

/// The key of a pair.
fn key(pair: &OperandPair) -> (u32, u32)
    ensures { result ≡ key_of pair.now }
{
    (pair.number.number(), pair.operand.number())
}

/// The node of a pair.
fn look_up(forest: &Forest, pair: &OperandPair) -> Node
    ensures { result ≡ node_of forest.now pair.now }
{
    match forest.get(&key(pair)) {
        Some(node) => *node,
        None => Node {
            rank: 0,
            link: Link::End(Some(*pair)),
        },
    }
}

/// The root of a pair's tree, in the forest of the entries.
pub fn find(entries: &[DebugSubstitution], forest: &Forest, pair: OperandPair) -> Root
    requires { AreEnds entries.now (node_of forest.now) }
    ensures { IsRootOf entries.now (node_of forest.now) pair result }
{
    let mut at = pair;
    loop {
        let node = look_up(forest, &at);
        let rank = node.rank;
        match node.link {
            Link::Parent(parent) => at = parent,
            Link::End(end) => {
                return Root {
                    pair: at,
                    rank,
                    end,
                };
            }
        }
    }
}

/// Whether the chains of a tree's pairs end at a pair.
pub fn ends_at(root: &Root, pair: &OperandPair) -> bool
    ensures { result ≡ option_eq is_pair root.now.end (Some pair.now) }
{
    root.end == Some(*pair)
}

/// Gives a pair a node.
fn set(forest: &mut Forest, pair: &OperandPair, rank: usize, link: Link)
    requires { 0 < spare forest.old }
    ensures nodes { (q : OperandPair) → node_of forest.new q ≡ given pair.now rank link (node_of forest.old) q }
    ensures spare { spare forest.old ≤ spare forest.new + 1 }
{
    let node = Node { rank, link };
    match forest.insert(key(pair), node) {
        Ok(_) => (),
        Err(_) => unreachable!(),
    }
}

/// Puts an entry into the forest. Its source has none yet: it is where the chains of its tree end.
pub fn grow(
    entries: &[DebugSubstitution],
    forest: &mut Forest,
    e: &DebugSubstitution,
    source: &Root,
)
    requires ends { AreEnds entries.now (node_of forest.old) }
    requires root { IsRootOf entries.now (node_of forest.old) e.now.src source.now }
    requires unused { source.now.end ≡ Some e.now.src }
    requires spare { 2 ≤ spare forest.old }
    ensures { AreEnds (entries.now ++ e.now ∷ []) (node_of forest.new) }
{
    let target = find(entries, forest, e.dst);
    if e.subreg != 0 {
        break_off(forest, source);
        return;
    }
    if ends_at(&target, &e.src) {
        break_off(forest, source);
        return;
    }
    unite(forest, source, &target);
}

/// Ends the chains of a tree's pairs nowhere.
fn break_off(forest: &mut Forest, root: &Root)
    requires { 0 < spare forest.old }
    ensures { (q : OperandPair) → node_of forest.new q ≡ ended root.now (node_of forest.old) q }
{
    set(forest, &root.pair, root.rank, Link::End(None));
}

/// Makes one tree of two: the chains of the pairs of both end where those of the target's do.
fn unite(forest: &mut Forest, source: &Root, target: &Root)
    requires spare { 2 ≤ spare forest.old }
    requires source { source.now.rank < 2 ^ 63 }
    requires target { target.now.rank < 2 ^ 63 }
    ensures { (q : OperandPair) → node_of forest.new q ≡ united source.now target.now (node_of forest.old) q }
{
    if source.rank <= target.rank {
        place(forest, source, target, target.end);
    } else {
        place(forest, target, source, target.end);
    }
}

/// Puts one tree below the root of another.
fn place(forest: &mut Forest, below: &Root, above: &Root, end: Option<OperandPair>)
    requires spare { 2 ≤ spare forest.old }
    requires rank { below.now.rank < 2 ^ 63 }
    ensures { (q : OperandPair) → node_of forest.new q ≡ placed below.now above.now end (node_of forest.old) q }
{
    set(forest, &below.pair, below.rank, Link::Parent(above.pair));
    let rank = above.rank.max(below.rank + 1);
    set(forest, &above.pair, rank, Link::End(end));
}
