//! The writer of a table's section.

ghost use Rattle.std.specs.Prelude.{◌≡◌, ◌+◌, ◌-◌, ◌^◌, ◌≤◌, ◌<◌, ◌++◌, length, All, OnOk, IfOk};
ghost use Rattle.dwarf_line.specs.Spelling.{changing};
ghost use Rattle.dwarf_frame.specs.Table;
ghost use Rattle.dwarf_frame.specs.Table.{IsDescription, AreUndefined};
ghost use Rattle.dwarf_frame.specs.FirstFault.{HasSize, IsSection};
ghost use Rattle.dwarf_frame.specs.Spelling;
ghost use Rattle.dwarf_frame.specs.Spelling.{def_cfa_offset, saves, restores, undefines, padded, common_entry};
ghost use Rattle.dwarf_frame.specs.Spelling.{description, spelling};

use crate::constants::*;
use crate::rows::{has_saved, initial};
use crate::size::common_len;
use crate::table::{FrameDescription, Row};
use base_list::List;
use dwarf_base::leb::{Leb, uleb};
use std::alloc::{AllocError, Global};

/// Bytes, in order.
pub type Bytes = List<u8>;

/// The bytes of a frame description entry after its length, without the call frame instructions.
const FIELDS: u32 = 20;

/// The section `.debug_frame` of functions, in their order, with the registers whose values they may lose (DWARF 5
/// section 6.4.1). The error is out of memory.
pub fn write_frame(
    alloc: Global,
    undefined: &[u8],
    functions: &[FrameDescription],
) -> Result<Bytes, AllocError>
    requires undefined { AreUndefined undefined.now }
    // The address ranges are in 64 bits. Rows ascend, and in each one something changes that the section can say.
    requires functions { All IsDescription functions.now }
    requires size { length (spelling undefined.now functions.now) < 2 ^ 31 }
    ensures bytes { IfOk result (λ bytes. bytes ≡ spelling undefined.now functions.now) }
    // It is in the grammar, and its functions are these.
    ensures section { IfOk result (λ bytes. IsSection undefined.now bytes functions.now) }
{
    let mut out = Vec::new(alloc);
    push_common(alloc, &mut out, undefined)?;
    for function in functions {
        push_description(alloc, &mut out, function)?;
    }
    Ok(List::from(out))
}

/// Appends the common information entry, with which a section begins, with the registers whose values functions may
/// lose (DWARF 5 section 6.4.1).
pub fn push_common(alloc: Global, out: &mut Vec<u8>, undefined: &[u8]) -> Result<(), AllocError>
    requires { AreUndefined undefined.now }
    ensures { OnOk result (out.new.items ≡ out.old.items ++ common_entry undefined.now) }
{
    let mut opcodes = Vec::new(alloc);
    opcodes.extend_from_slice(&COMMON_FRONT)?;
    push_undefined(&mut opcodes, undefined)?;
    push_padding(&mut opcodes)?;
    out.extend_from_slice(&common_len(undefined).to_le_bytes())?;
    out.extend_from_slice(&CIE_ID.to_le_bytes())?;
    out.extend_from_slice(opcodes.as_slice())
}

/// Appends the opcodes of registers whose values functions may lose.
fn push_undefined(out: &mut Vec<u8>, undefined: &[u8]) -> Result<(), AllocError>
    ensures { OnOk result (out.new.items ≡ out.old.items ++ undefines undefined.now) }
{
    for register in undefined {
        out.push(DW_CFA_undefined)?;
        out.push(*register)?;
    }
    Ok(())
}

/// Appends a function's frame description entry (DWARF 5 section 6.4.1).
pub fn push_description(
    alloc: Global,
    out: &mut Vec<u8>,
    function: &FrameDescription,
) -> Result<(), AllocError>
    requires content { IsDescription function.now }
    requires size { HasSize function.now }
    ensures { OnOk result (out.new.items ≡ out.old.items ++ description function.now) }
{
    let mut opcodes = Vec::new(alloc);
    push_rows(&mut opcodes, function)?;
    push_padding(&mut opcodes)?;
    push_fields(out, opcodes.len() as u32, function.start, function.size)?;
    out.extend_from_slice(opcodes.as_slice())
}

/// Appends the fields of a frame description entry before its call frame instructions, which have this size.
fn push_fields(out: &mut Vec<u8>, opcodes: u32, start: u64, size: u64) -> Result<(), AllocError>
    requires { 20 + opcodes < 2 ^ 32 }
    ensures { OnOk result (out.new.items ≡ out.old.items ++ Spelling.fields opcodes start size) }
{
    out.extend_from_slice(&(FIELDS + opcodes).to_le_bytes())?;
    out.extend_from_slice(&COMMON_POINTER.to_le_bytes())?;
    out.extend_from_slice(&start.to_le_bytes())?;
    out.extend_from_slice(&size.to_le_bytes())
}

/// Appends the rows of a function.
fn push_rows(out: &mut Vec<u8>, function: &FrameDescription) -> Result<(), AllocError>
    requires { IsDescription function.now }
    ensures { OnOk result (out.new.items ≡ out.old.items
        ++ Spelling.rows_after (Table.initial function.now.start) function.now.rows) }
{
    let mut before = initial(function.start);
    for row in function.rows.as_slice() {
        push_row(out, &before, row)?;
        before = *row;
    }
    Ok(())
}

/// Appends padding up to a multiple of eight bytes.
fn push_padding(out: &mut Vec<u8>) -> Result<(), AllocError>
    ensures { OnOk result (out.new.items ≡ padded out.old.items) }
{
    let padding = (8 - out.len() % 8) % 8;
    out.extend_from_slice(&PADDING[..padding])
}

/// Appends a row after another: the advance, and what changes.
#[tactic(auto, unfolding(crate::specs::Spelling::row))]
fn push_row(out: &mut Vec<u8>, before: &Row, row: &Row) -> Result<(), AllocError>
    requires later { before.now.address ≤ row.now.address }
    requires near { row.now.address - before.now.address < 2 ^ 34 }
    ensures { OnOk result (out.new.items ≡ out.old.items ++ Spelling.row before.now row.now) }
{
    let words = (row.address - before.address) / CODE_ALIGNMENT_FACTOR as u64;
    push_advance(out, words as u32)?;
    push_offset(out, before.rules.cfa_offset, row.rules.cfa_offset)?;
    push_registers(out, &before.rules.saved, &row.rules.saved)
}

/// Appends an advance by a number of instructions.
fn push_advance(out: &mut Vec<u8>, words: u32) -> Result<(), AllocError>
    ensures { OnOk result (out.new.items ≡ out.old.items ++ Spelling.advance words) }
{
    if words < 64 {
        out.push(DW_CFA_advance_loc + words as u8)?;
        Ok(())
    } else {
        out.push(DW_CFA_advance_loc4)?;
        out.extend_from_slice(&words.to_le_bytes())
    }
}

/// Appends a change of the CFA's offset.
fn push_offset(out: &mut Vec<u8>, before: u64, offset: u64) -> Result<(), AllocError>
    ensures { OnOk result (out.new.items ≡ out.old.items ++ changing before offset (def_cfa_offset offset)) }
{
    if offset == before {
        Ok(())
    } else {
        out.push(DW_CFA_def_cfa_offset)?;
        push_leb(out, &uleb(offset))
    }
}

/// Appends a change of the saved registers.
fn push_registers(
    out: &mut Vec<u8>,
    before: &[Option<u64>; 32],
    saved: &[Option<u64>; 32],
) -> Result<(), AllocError>
    ensures { OnOk result (out.new.items ≡ out.old.items ++ Spelling.registers before.now saved.now) }
{
    if !has_saved(before) {
        push_saves(out, saved)
    } else if has_saved(saved) {
        Ok(())
    } else {
        push_restores(out, before)
    }
}

/// Appends the opcodes of saved registers.
fn push_saves(out: &mut Vec<u8>, saved: &[Option<u64>; 32]) -> Result<(), AllocError>
    ensures { OnOk result (out.new.items ≡ out.old.items ++ saves 0 saved.now) }
{
    for (register, distance) in saved.iter().enumerate() {
        if let Some(distance) = *distance {
            out.push(DW_CFA_offset + register as u8)?;
            push_leb(out, &uleb(distance / 8))?;
        }
    }
    Ok(())
}

/// Appends the opcodes of registers that are saved no longer.
fn push_restores(out: &mut Vec<u8>, saved: &[Option<u64>; 32]) -> Result<(), AllocError>
    ensures { OnOk result (out.new.items ≡ out.old.items ++ restores 0 saved.now) }
{
    for (register, distance) in saved.iter().enumerate() {
        if let Some(_) = *distance {
            out.push(DW_CFA_restore + register as u8)?;
        }
    }
    Ok(())
}

/// Appends a LEB128 number.
fn push_leb(out: &mut Vec<u8>, number: &Leb) -> Result<(), AllocError>
    ensures { OnOk result (out.new.items ≡ out.old.items ++ number.now) }
{
    out.extend_from_slice(number.as_slice())
}
