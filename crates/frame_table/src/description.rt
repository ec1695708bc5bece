//! The call frame information of a function's code.

ghost use Rattle.std.specs.Prelude.{◌≡◌, ◌↔◌, ℕ, IfOk, IsTrue, map};
ghost use Rattle.mir_func.specs.Function.{FramedFunction};
ghost use Rattle.mir_func.specs.SoundFrame.{IsFramed};
ghost use Rattle.emit_code.specs.Laid.{IsCodeOf};
ghost use Rattle.dwarf_frame.specs.Rows.{Changes};
ghost use Rattle.dwarf_frame.specs.Table.{initial, IsDescription};
ghost use Rattle.frame_table.specs.Table.{distances_from, frame_row, entry_row, Describes};

use crate::saved::distances;
use crate::state::{FrameState, state_at};
use dwarf_frame::rows::{NONE_SAVED, has_saved};
use dwarf_frame::table::{FrameDescription, FrameRow, Row, RowList};
use emit_code::code::{Code, EncodedInstruction};
use mir_func::framed::Framed;
use std::alloc::{AllocError, Global};

/// The call frame information of a function's code: a row at each entry at which the rules are others than before. It
/// can be written if the code is that of its function. The error is out of memory.
pub fn description(alloc: Global, code: &Code) -> Result<FrameDescription, AllocError>
    ensures describes { IfOk result (Describes code.now) }
    ensures writable { IfOk result (λ d. (base : ℕ) → IsCodeOf code.now.framed base code.now → IsDescription d) }
{
    let rows = rows_of(alloc, framed_of(code), code.entries.as_slice())?;
    Ok(FrameDescription {
        start: code.base,
        size: 4 * code.words.len() as u64,
        rows,
    })
}

/// The function with its frame.
fn framed_of(code: &Code) -> &Framed
    ensures value { result.now ≡ code.now.framed }
    ensures sound { IsFramed code.now.framed }
{
    let framed = &code.framed;
    let _ = &framed.size;
    framed
}

/// The rows at the entries at which the rules are others than before.
fn rows_of(
    alloc: Global,
    framed: &Framed,
    entries: &[EncodedInstruction],
) -> Result<RowList, AllocError>
    ensures { IfOk result (Changes (initial 0).rules (map (entry_row framed.now) entries.now)) }
{
    let saved = distances(framed);
    let saves = has_saved(&saved);
    let mut rows = RowList::new(alloc);
    let mut before = FrameState {
        lowered: 0,
        saved: false,
    };
    for entry in entries {
        let state = state_at(framed, saves, &entry.point);
        if !is_same(&before, &state) {
            rows.push(Row {
                address: entry.address,
                rules: rules(&saved, &state),
            })?;
            before = state;
        }
    }
    Ok(rows)
}

/// Whether two states are the same.
fn is_same(a: &FrameState, b: &FrameState) -> bool
    ensures { IsTrue result ↔ ((a.now.lowered ≡ b.now.lowered) × (a.now.saved ≡ b.now.saved)) }
{
    a.lowered == b.lowered && a.saved == b.saved
}

/// What a row says of a state.
fn rules(saved: &[Option<u64>; 32], state: &FrameState) -> FrameRow
    ensures { (f : FramedFunction) → saved.now ≡ distances_from f 0 32
        → result ≡ frame_row f (record { lowered = state.now.lowered; saved = state.now.saved }) }
{
    FrameRow {
        cfa_offset: state.lowered as u64,
        saved: if state.saved { *saved } else { NONE_SAVED },
    }
}
