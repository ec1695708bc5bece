//! Kills of debug values.

ghost use Rattle.std.specs.Prelude.{◌≡◌};
ghost use Rattle.fold_undef.specs.Kill.{kill_of, kill_item};

use base_ids::function_ids::{BlockId, DebugNumber};
use mir_func::item::{Item, ItemKind};
use mir_func::location::Loc;
use mir_func::position::{Origin, Pos};
use mir_func::variable::{MarkValue, VarId};

/// What becomes undef.
#[derive(Clone, Copy, Debug)]
pub enum Kill {
    /// The value of a variable fragment. The debug location is that of the debug value in the bypassed block.
    Part(VarId, Loc),
    /// The value of a debug instruction number.
    Number(DebugNumber),
}

/// The kill for a debug item.
pub fn kill_of(i: &Item) -> Option<Kill>
    ensures { result ≡ kill_of i.now.kind i.now.loc }
{
    match &i.kind {
        ItemKind::Mark(variable, _) => Some(Kill::Part(*variable, i.loc)),
        ItemKind::Phi(_, number) => Some(Kill::Number(*number)),
        ItemKind::Code(_, _) => None,
    }
}

/// The kill as an item at the start of a block.
pub fn kill_item(block: BlockId, kill: Kill) -> Item
    ensures { result ≡ kill_item block kill }
{
    let origin = Origin::Before(Pos { block, item: 0 });
    match kill {
        Kill::Part(variable, loc) => Item {
            kind: ItemKind::Mark(variable, MarkValue::Nothing),
            origin,
            loc,
        },
        Kill::Number(number) => Item {
            kind: ItemKind::Phi(None, number),
            origin,
            loc: Loc::Absent,
        },
    }
}
