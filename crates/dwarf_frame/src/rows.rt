//! The rules at a function's first address, the rules of registers, and laws about rows.

ghost use Rattle.std.specs.Prelude.{◌≡◌, ◌+◌, ◌<◌, ℕ, List, Contains};
ghost use Rattle.dwarf_frame.specs.declared.table.Row.{Row};
ghost use Rattle.dwarf_frame.specs.declared.table.FrameDescription.{FrameDescription};
ghost use Rattle.dwarf_frame.specs.Table;
ghost use Rattle.dwarf_frame.specs.Table.{is_saved, is_fixed};
ghost use Rattle.dwarf_frame.specs.FirstFault.{IsSection};
ghost use Rattle.dwarf_frame.specs.Rows.{rule_of, unwinding, RulesAt, Changes, AscendFrom, AreApart};

use crate::constants::STACK_POINTER;
use crate::table::{FrameRow, RegisterRule, Row, UnwindingRules};

/// No register is saved.
pub const NONE_SAVED: [Option<u64>; 32] = [None; 32];

/// The row at a function's first address: the CFA is the stack pointer, and no register is saved.
pub fn initial(start: u64) -> Row
    ensures { result ≡ Table.initial start }
{
    Row {
        address: start,
        rules: FrameRow {
            cfa_offset: 0,
            saved: NONE_SAVED,
        },
    }
}

/// Whether a register is saved.
pub fn has_saved(saved: &[Option<u64>; 32]) -> bool
    ensures { result ≡ is_saved saved.now }
{
    for distance in saved {
        if let Some(_) = *distance {
            return true;
        }
    }
    false
}

/// Whether a register is never saved: x0 is always zero, and x2's value at the entry is the CFA.
pub fn is_fixed(register: u8) -> bool
    ensures { result ≡ is_fixed register }
{
    register == 0 || register == STACK_POINTER
}

/// The rule of a register, by where it is saved and by the registers whose values a function may lose.
fn rule(undefined: &[u8], register: u8, saved: Option<u64>) -> RegisterRule
    ensures { result ≡ rule_of undefined.now register saved }
{
    match saved {
        Some(distance) => RegisterRule::Below(distance),
        None => {
            if register == STACK_POINTER {
                RegisterRule::FrameAddress
            } else if undefined.contains(&register) {
                RegisterRule::Undefined
            } else {
                RegisterRule::SameValue
            }
        }
    }
}

/// The rules that a row stands for, with the registers whose values a function may lose.
pub fn unwinding(undefined: &[u8], row: &FrameRow) -> UnwindingRules
    ensures { result ≡ unwinding undefined.now row.now }
{
    let mut registers = [RegisterRule::SameValue; 32];
    for register in 0..32u8 {
        let saved = row.saved[register as usize];
        registers[register as usize] = rule(undefined, register, saved);
    }
    UnwindingRules {
        cfa_offset: row.cfa_offset,
        registers,
    }
}

/// The rules of an address by a section are those that were in force there when the rows were made. `entries` are the
/// rules of a function at successive addresses, and its rows are those of them where the rules change.
pub fn one_rule()
    ensures { (undefined bytes : List ℕ) (functions : List FrameDescription) (f : FrameDescription) (entries : List Row)
        (e : Row) → IsSection undefined bytes functions → AreApart 0 functions → Contains functions f
        → Changes (Table.initial f.start).rules entries f.rows → AscendFrom f.start entries → Contains entries e
        → e.address < f.start + f.size → RulesAt undefined bytes e.address (unwinding undefined e.rules) }
{}
