//! The results of judging a line.

ghost use Rattle.std.specs.Prelude.{◌≡◌, IfOk};

use base_ids::function_ids::SlotId;
use base_list::List;
use read_line::mir_func_crate::item::ItemKind;
use read_line::mir_func_crate::location::Loc;
use read_refusal::kind::RefusalKind;
use std::alloc::{AllocError, Global};
use std::marker::Model;
use thiserror::Error;

/// The numbers of what a line names and its function has to declare, in order: N for `%stack.N`, and 2^31 and N for
/// `%fixed-stack.N`.
pub type StackIds = List<SlotId>;

/// An item, with its debug location and what its line names.
#[derive(Debug, Drop)]
pub struct JudgedItem {
    /// The instruction, debug value or DBG_PHI. A `%stack.N` in an instruction is a spill slot if the line is a load
    /// or store of eight bytes at offset 0, and else a stack object.
    pub kind: ItemKind,
    /// The debug location of its line.
    pub loc: Loc,
    /// The numbers of what its line names, which the function has to declare.
    pub entries: StackIds,
}

/// An item in memory of its own. A contract sees it as the item.
#[derive(Debug, Drop)]
pub struct BoxedItem {
    /// The item.
    item: Box<JudgedItem>,
}

impl Model for BoxedItem {
    ghost use Rattle.read_item.specs.declared.judged.JudgedItem.{JudgedItem};

    ghost Value = { JudgedItem };

    ghost view = { λ b. b.item.value };
}

impl BoxedItem {
    /// This item in memory of its own.
    pub fn new(alloc: Global, item: JudgedItem) -> Result<BoxedItem, AllocError>
        ensures { IfOk result (λ boxed. boxed ≡ item) }
    {
        Ok(BoxedItem {
            item: Box::new(alloc, item)?,
        })
    }

    /// The item. Its memory is given back.
    pub fn into_item(self) -> JudgedItem
        ensures { result ≡ self }
    {
        Box::into_inner(self.item)
    }
}

/// What a line is. It is moved once a line, so that the second of two items, which few lines have, isn't in it.
#[derive(Debug, Drop)]
pub enum Judged {
    /// It is ignored.
    Passed,
    /// An item.
    Item(JudgedItem),
    /// Two items, one after the other.
    Two(JudgedItem, BoxedItem),
}

/// Why a line is no item and isn't ignored either.
#[derive(Clone, Copy, Debug, PartialEq, Eq, Drop, Error)]
pub enum JudgeError {
    /// It is refused, with the lowest number of its refusals.
    #[error("the line is refused: {}", .0.name())]
    Refused(RefusalKind),
    /// Memory ran out.
    #[error("out of memory")]
    Memory,
}

impl From<AllocError> for JudgeError {
    ghost use Rattle.std.specs.Prelude.{◌≡◌};
    ghost use Rattle.read_item.specs.declared.judged.JudgeError.TheVariants.{Memory};

    ghost from_gives = { λ _ e. e ≡ Memory };

    fn from(_e: AllocError) -> JudgeError {
        JudgeError::Memory
    }
}
