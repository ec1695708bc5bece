//! Keys of tracked entities.

ghost use Rattle.std.specs.Prelude.{◌≡◌};
ghost use Rattle.value_live_ins.specs.Keys.{key_of, node_code, start_code, length_code};

use base_ids::metadata::NodeId;
use mir_func::variable::Fragment;
use value_solver::tracked::Tracked;

/// A tracked entity's kind and its numbers.
pub type Key = (u32, u64, u64, u64, u64);

/// The key of an entity. Different entities have different keys.
pub fn key_of(thing: &Tracked) -> Key
    ensures { result ≡ key_of thing.now }
{
    match thing {
        Tracked::Register(r) => (0, u64::from(r.number()), 0, 0, 0),
        Tracked::Slot(n) => (1, u64::from(n.number()), 0, 0, 0),
        Tracked::Pair(q) => (
            2,
            u64::from(q.number.number()),
            u64::from(q.operand.number()),
            0,
            0,
        ),
        Tracked::Part(v) => (
            3,
            u64::from(v.node.number()),
            node_code(v.inlined_at),
            start_code(v.fragment),
            length_code(v.fragment),
        ),
        Tracked::Number(c) => (4, *c, 0, 0, 0),
    }
}

/// The node's number plus 1, and 0 for no node.
fn node_code(node: Option<NodeId>) -> u64
    ensures { result ≡ node_code node }
{
    match node {
        None => 0,
        Some(n) => u64::from(n.number()) + 1,
    }
}

/// The fragment's offset plus 1, and 0 for the whole variable.
fn start_code(fragment: Option<Fragment>) -> u64
    ensures { result ≡ start_code fragment }
{
    match fragment {
        None => 0,
        Some(f) => u64::from(f.offset()) + 1,
    }
}

fn length_code(fragment: Option<Fragment>) -> u64
    ensures { result ≡ length_code fragment }
{
    match fragment {
        None => 0,
        Some(f) => u64::from(f.length()),
    }
}
