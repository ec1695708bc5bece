//! The declarations of a function's document.

ghost use Rattle.std.specs.Prelude.{◌≡◌, IfOk};
ghost use Rattle.read_declarations.specs.Declarations.{Gives, checked, declarations_of};
ghost use Rattle.read_declarations.specs.declared.declarations.DeclarationError.TheVariants.{Memory};

use crate::constants::pool;
use crate::exposure::exposure;
use crate::fixed::{FixedEntries, fixed};
use crate::name::name;
use crate::stack::{StackEntries, stack};
use crate::substitutions::substitutions;
use mir_exposure::exposure::Exposure;
use mir_pool::constant::Pool;
use mir_substitution::mir_func_crate::limits::MAX_SLOTS;
use mir_substitution::substitutions::Substitutions;
use read_documents::parts::FunctionDocument;
use read_metadata::rv64_instr_crate::name::Name;
use read_refusal::first::{Refusal, earlier};
use std::alloc::{AllocError, Global};
use thiserror::Error;

/// The declarations of a function, which come before its body.
#[derive(Drop)]
pub struct Declarations {
    /// Its name.
    pub name: Name,
    /// The entries of its stack frame, in declared order. No two have the same number.
    pub stack: StackEntries,
    /// The fixed objects of its stack frame, in declared order: none but in the linked language. No two have the same
    /// number.
    pub fixed: FixedEntries,
    /// The substitutions of its debug instruction numbers, in order.
    pub substitutions: Substitutions,
    /// The constants of its pool (LLVM: `MachineConstantPool`), in declared order. No two have the same number.
    pub pool: Pool,
    /// What it exposes to other code.
    pub exposure: Exposure,
}

/// Why declarations couldn't be read.
#[derive(Debug, Drop, Error)]
pub enum DeclarationError {
    /// A line is refused: the first one, for the cause with the lowest number.
    #[error("a line is refused")]
    Refused(Refusal),
    /// Memory ran out.
    #[error("out of memory")]
    Memory,
}

impl From<AllocError> for DeclarationError {
    ghost from_gives = { λ _ e. e ≡ Memory };

    fn from(_e: AllocError) -> DeclarationError {
        DeclarationError::Memory
    }
}

/// The declarations, unless there is a refusal.
fn checked(
    refused: Option<Refusal>,
    declared: Declarations,
) -> Result<Declarations, DeclarationError>
    ensures { Gives result (checked refused declared) }
{
    match refused {
        Some(refusal) => Err(DeclarationError::Refused(refusal)),
        None => Ok(declared),
    }
}

/// The declarations of a function's document, or the first refusal of the lines that declare something.
pub fn read_declarations(
    alloc: Global,
    document: &FunctionDocument,
) -> Result<Declarations, DeclarationError>
    // They are the document's declarations, and the refusal is the first one.
    ensures { Gives result (declarations_of document.now) }
{
    let name = name(alloc, document.name.as_slice())?;
    let stack = stack(alloc, document.stack.as_slice())?;
    let room = MAX_SLOTS.saturating_sub(stack.entries.len());
    let fixed = fixed(alloc, document.linked, room, document.fixed.as_slice())?;
    let substitutions = substitutions(alloc, document.substitutions.as_slice())?;
    let pool = pool(alloc, document.linked, document.constants.as_slice())?;
    let exposure = exposure(alloc, document.linked, document.twice.as_slice())?;
    let refused = earlier(
        earlier(
            earlier(name.refused, stack.refused),
            earlier(fixed.refused, substitutions.refused),
        ),
        pool.refused,
    );
    checked(
        refused,
        Declarations {
            name: name.name,
            stack: stack.entries,
            fixed: fixed.entries,
            substitutions: substitutions.entries,
            pool: pool.constants,
            exposure,
        },
    )
}
