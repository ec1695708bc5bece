//! The machine code of a function with its frame.

ghost use Rattle.std.specs.Prelude.{◌≡◌, ◌<◌, ◌≤◌, ◌+◌, ◌%◌, length, IfOk};
ghost use Rattle.mir_func.specs.Limits.{MAX_BLOCKS};
ghost use Rattle.emit_code.specs.Counts.{MAX_WORDS, MAX_BASE, count_of};
ghost use Rattle.emit_code.specs.Laid.{IsCodeOf};

use crate::code::Code;
use crate::entries::entries;
use crate::plan::ItemLayout;
use crate::words::words;
use mir_func::framed::Framed;
use std::alloc::{AllocError, Global};

/// The machine code of a function at a first address. The error is out of memory.
pub fn lay_out(alloc: Global, framed: Framed, base: u64) -> Result<Code, AllocError>
    requires aligned { base % 4 ≡ 0 }
    requires low { base < MAX_BASE }
    requires blocks { length framed.blocks ≤ MAX_BLOCKS + 1 }
    requires items { count_of framed.blocks < MAX_WORDS }
    ensures laid { IfOk result (IsCodeOf framed base) }
{
    let plan = ItemLayout::new(alloc, &framed, base as u32)?;
    let blocks = framed.blocks.as_slice();
    let words = words(alloc, &plan, blocks)?;
    let entries = entries(alloc, &plan, blocks)?;
    Ok(Code {
        base,
        words,
        entries,
        framed,
    })
}
