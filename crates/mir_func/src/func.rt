//! Functions before frame lowering.

ghost use Rattle.std.specs.Prelude.{◌≡◌, IfOk, IsErrOf};
ghost use Rattle.mir_func.specs.Sound.{IsSound};
ghost use Rattle.mir_func.specs.declared.func.FuncError.TheVariants.{Memory};

use crate::block::{Blocks, copy_blocks};
use crate::object::Objects;
use crate::sound::are_sound;
use rv64_instr::base_ids_crate::function_ids::SlotId;
use rv64_instr::base_list_crate::List;
use rv64_instr::name::Name;
use std::alloc::{AllocError, Global};
use std::marker::Model;
use thiserror::Error;

/// The numbers of a function's frame slots of eight bytes, in declared order.
pub type SlotIds = List<SlotId>;

/// A sound function: its blocks end with terminators as they must, and its branch targets and slots are
/// declared (LLVM: `MachineFunction`).
#[derive(Debug, Drop)]
pub struct Func {
    /// Its name.
    pub name: Name,
    /// Its frame slots.
    pub slots: SlotIds,
    /// Its stack objects.
    pub objects: Objects,
    /// Its blocks. The first is the entry block.
    pub blocks: Blocks,
}

impl Model for Func {
    ghost use Rattle.mir_func.specs.Function.{Function};

    ghost Value = { Function };

    ghost use Rattle.mir_func.specs.Sound.{IsSound};

    ghost view = { λ f. record {
      name = f.name;
      slots = f.slots;
      objects = f.objects;
      blocks = f.blocks;
    } };

    ghost invariant = { λ f. IsSound (record {
      name = f.name;
      slots = f.slots;
      objects = f.objects;
      blocks = f.blocks;
    }) };
}

/// Why there is no function.
#[derive(Debug, Drop, Error)]
pub enum FuncError {
    /// These parts aren't those of a sound function.
    #[error("no sound function")]
    Unsound,
    /// Memory ran out.
    #[error("out of memory")]
    Memory,
}

impl From<AllocError> for FuncError {
    ghost from_gives = { λ _ e. e ≡ Memory };

    fn from(_: AllocError) -> FuncError {
        FuncError::Memory
    }
}

impl Func {
    /// The function of these parts, or `Unsound` if they aren't those of a sound function.
    pub fn new(
        alloc: Global,
        name: Name,
        slots: SlotIds,
        objects: Objects,
        blocks: Blocks,
    ) -> Result<Func, FuncError>
        ensures made { IfOk result (λ f.
            f ≡ record { name = name; slots = slots; objects = objects; blocks = blocks }) }
        ensures unsound { IsErrOf result FuncError.Unsound →
            IsSound (record { name = name; slots = slots; objects = objects; blocks = blocks }) → ⊥ }
    {
        if !are_sound(
            alloc,
            slots.as_slice(),
            objects.as_slice(),
            blocks.as_slice(),
        )? {
            return Err(FuncError::Unsound);
        }
        Ok(Func {
            name,
            slots,
            objects,
            blocks,
        })
    }

    /// An equal function.
    pub fn copy(&self) -> Result<Func, AllocError>
        ensures { IfOk result (λ copied. copied ≡ self.now) }
    {
        Ok(Func {
            name: self.name.copy()?,
            slots: self.slots.copy()?,
            objects: self.objects.copy()?,
            blocks: copy_blocks(*self.name.items.allocator(), self.blocks.as_slice())?,
        })
    }
}
