//! How control leaves an item.

ghost use Rattle.std.specs.Prelude.{◌≡◌};
ghost use Rattle.rv64_instr.specs.Row.{Row};
ghost use Rattle.rv64_instr.specs.Decoded.{Shows};
ghost use Rattle.mir_func.specs.Exits.{row_exit, exit_of, row_leads_back, leads_back};

use crate::item::ItemKind;
use rv64_instr::base_ids_crate::function_ids::BlockId;
use rv64_instr::decoded::{Decoded, Way};

/// How control leaves an item.
#[derive(Clone, Copy, Debug, PartialEq, Eq)]
pub enum Exit {
    /// To the next one.
    Onward,
    /// To the block of this number, or to the next one.
    Perhaps(BlockId),
    /// To the block of this number.
    Always(BlockId),
    /// Out of the function.
    Final,
}

impl ItemKind {
    /// How control leaves an item of this kind.
    pub fn exit(&self) -> Exit
        ensures { result ≡ exit_of self.now }
    {
        match self {
            ItemKind::Code(i, _) => row_exit(&i.decoded()),
            ItemKind::Mark(_, _) | ItemKind::Phi(_, _) => Exit::Onward,
        }
    }

    /// Whether an item of this kind leaves the function on a way that leads back to the caller: a return, or a call in
    /// tail position.
    pub fn leads_back(&self) -> bool
        ensures { result ≡ leads_back self.now }
    {
        match self {
            ItemKind::Code(i, _) => row_leads_back(&i.decoded()),
            ItemKind::Mark(_, _) | ItemKind::Phi(_, _) => false,
        }
    }
}

fn row_exit(decoded: &Decoded) -> Exit
    ensures { (row : Row) → Shows decoded.now row → result ≡ row_exit row }
{
    match *decoded {
        Decoded::Branches(_, _, _, n) => Exit::Perhaps(n),
        Decoded::Jumps(n) => Exit::Always(n),
        Decoded::Returns(_) => Exit::Final,
        Decoded::Fixes(_, _)
        | Decoded::Moves(_, _)
        | Decoded::Sets(_, _, _, _)
        | Decoded::Addresses(_, _, _)
        | Decoded::Loads(_, _, _, _)
        | Decoded::Stores(_, _, _, _)
        | Decoded::LoadsSlot(_, _)
        | Decoded::StoresSlot(_, _)
        | Decoded::Calls(_) => Exit::Onward,
    }
}

fn row_leads_back(decoded: &Decoded) -> bool
    ensures { (row : Row) → Shows decoded.now row → result ≡ row_leads_back row }
{
    match *decoded {
        Decoded::Returns(Way::Back) | Decoded::Returns(Way::Tail(_)) => true,
        Decoded::Returns(Way::Never(_))
        | Decoded::Branches(_, _, _, _)
        | Decoded::Jumps(_)
        | Decoded::Fixes(_, _)
        | Decoded::Moves(_, _)
        | Decoded::Sets(_, _, _, _)
        | Decoded::Addresses(_, _, _)
        | Decoded::Loads(_, _, _, _)
        | Decoded::Stores(_, _, _, _)
        | Decoded::LoadsSlot(_, _)
        | Decoded::StoresSlot(_, _)
        | Decoded::Calls(_) => false,
    }
}
