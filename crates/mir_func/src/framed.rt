//! Functions with their frame.

use crate::block::Blocks;
use crate::object::Objects;
use rv64_instr::base_ids_crate::function_ids::SlotId;
use rv64_instr::base_list_crate::List;
use rv64_instr::name::Name;
use rv64_instr::reg::Reg;
use std::marker::Model;

/// The location of a frame slot (LLVM: the offset of a frame index).
#[derive(Clone, Copy, Debug, PartialEq, Eq)]
pub struct SlotPlace {
    /// The slot, by its number in the function without its frame.
    pub slot: SlotId,
    /// Its offset from x2, in bytes.
    pub offset: u32,
}

/// The location in which a register is saved (LLVM: `CalleeSavedInfo`).
#[derive(Clone, Copy, Debug, PartialEq, Eq)]
pub struct SavedRegister {
    /// The register.
    pub register: Reg,
    /// The offset of its slot from x2, in bytes.
    pub offset: u32,
}

/// Frame slots, in declared order.
pub type Offsets = List<SlotPlace>;

/// Saved registers, ascending.
pub type Saved = List<SavedRegister>;

/// A function with its frame (LLVM: a `MachineFunction` after prologue and epilogue insertion). In its items
/// `Slot(o)` names the eight bytes at x2 plus o. The block with index 0 is the prologue, without items if there is no
/// frame; its number is that of the next block, and a branch to this number goes to the next block.
#[derive(Debug, Drop)]
pub struct Framed {
    /// Its name.
    pub name: Name,
    /// The frame's size in bytes, its objects included: a multiple of 16.
    pub size: u32,
    /// The offsets of its slots.
    pub offsets: Offsets,
    /// The offsets of the registers that it saves.
    pub saved: Saved,
    /// Its stack objects, which lie above its slots and saved registers.
    pub objects: Objects,
    /// The prologue, and the blocks.
    pub blocks: Blocks,
}

impl Model for Framed {
    ghost use Rattle.mir_func.specs.Function.{FramedFunction};

    ghost Value = { FramedFunction };

    ghost use Rattle.mir_func.specs.SoundFrame.{IsFramed};

    ghost view = { λ f. record {
      name = f.name;
      size = f.size;
      offsets = f.offsets;
      saved = f.saved;
      objects = f.objects;
      blocks = f.blocks;
    } };

    ghost invariant = { λ f. IsFramed (record {
      name = f.name;
      size = f.size;
      offsets = f.offsets;
      saved = f.saved;
      objects = f.objects;
      blocks = f.blocks;
    }) };
}
