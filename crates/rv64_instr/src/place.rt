//! Locations of values.

use crate::reg::Reg;
use base_ids::function_ids::SlotId;

/// A location of a value (LLVM: a machine location, `LocIdx`), or a constant.
#[derive(Clone, Copy, Debug, PartialEq, Eq)]
pub enum Place {
    /// A register.
    Register(Reg),
    /// A frame slot.
    Slot(SlotId),
    /// A constant, whose content is itself everywhere.
    Const(i64),
}
