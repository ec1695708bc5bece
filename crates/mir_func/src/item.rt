//! Items of blocks.

ghost use Rattle.std.specs.Prelude.{◌≡◌, IfOk};

use crate::location::Loc;
use crate::position::Origin;
use crate::variable::{MarkValue, VarId};
use rv64_instr::base_ids_crate::function_ids::DebugNumber;
use rv64_instr::base_list_crate::List;
use rv64_instr::instr::Instr;
use rv64_instr::place::Place;
use std::alloc::{AllocError, Global};

/// The kind of an item (LLVM: code and debug instructions, `MachineInstr`).
#[derive(Debug, Drop)]
pub enum ItemKind {
    /// An instruction, with its debug instruction number if it has one.
    Code(Instr, Option<DebugNumber>),
    /// A mark, that is, a debug value (`DBG_VALUE`, `DBG_INSTR_REF`): the part of a variable is assigned
    /// the value.
    Mark(VarId, MarkValue),
    /// A phi (`DBG_PHI`): operand 0 of the number gets the content of the location, or nothing if there
    /// is no location.
    Phi(Option<Place>, DebugNumber),
}

/// An item of a block (LLVM: `MachineInstr`).
#[derive(Debug, Drop)]
pub struct Item {
    /// Its kind.
    pub kind: ItemKind,
    /// Its origin in the source.
    pub origin: Origin,
    /// The debug location that it carries.
    pub loc: Loc,
}

/// The items of a block, in order.
pub type Items = List<Item>;

impl ItemKind {
    /// An equal kind.
    pub fn copy(&self) -> Result<ItemKind, AllocError>
        ensures { IfOk result (λ copied. copied ≡ self.now) }
    {
        match self {
            ItemKind::Code(i, number) => Ok(ItemKind::Code(i.copy()?, *number)),
            ItemKind::Mark(variable, value) => Ok(ItemKind::Mark(*variable, *value)),
            ItemKind::Phi(place, number) => Ok(ItemKind::Phi(*place, *number)),
        }
    }
}

impl Item {
    /// An equal item.
    pub fn copy(&self) -> Result<Item, AllocError>
        ensures { IfOk result (λ copied. copied ≡ self.now) }
    {
        Ok(Item {
            kind: self.kind.copy()?,
            origin: self.origin,
            loc: self.loc,
        })
    }
}

/// Equal items.
pub fn copy_items(alloc: Global, items: &[Item]) -> Result<Items, AllocError>
    ensures { IfOk result (λ copied. copied ≡ items.now) }
{
    let mut copied = Items::new(alloc);
    for i in items {
        copied.push(i.copy()?)?;
    }
    Ok(copied)
}
