//! The entries of calls whose functions were inlined, written in prefix order.

ghost use Rattle.std.specs.Prelude.{◌≡◌, ◌≤◌, ◌^◌, ◌<◌, ◌+◌, ◌++◌, [], ℕ, None, true, false, length, map, reverse};
ghost use Rattle.std.specs.Prelude.{All, IfOk, OnOk, get_or};
ghost use Rattle.std.specs.List.{flat_map};
ghost use Rattle.dwarf_base.specs.Limits;
ghost use Rattle.dwarf_info.specs.Entries.{entry, HasType};
ghost use Rattle.dwarf_info.specs.Inlined.{inlined_subroutine, call_bytes, calls_within, AreCalls};
ghost use Rattle.dwarf_info.specs.declared.calls.Left.TheVariants as parts;
ghost use Rattle.dwarf_info.specs.steps.Parts.{variable_bytes, in_table};
ghost use Rattle.dwarf_info.specs.steps.Within.{numbers_within, numbers_inside};

use crate::abbreviation::push_leb;
use crate::entry::{push_code, push_u32};
use crate::inlined::InlinedCall;
use crate::kind::DieKind;
use crate::write::push_variables;
use dwarf_base::leb::uleb;
use dwarf_base::limits::SECTION_LIMIT;
use std::alloc::{AllocError, Global};

/// What is left to write of a function's calls.
#[derive(Clone, Copy, Debug, PartialEq, Eq)]
pub enum Left {
    /// A call, and those in its code.
    Call(usize),
    /// The end of a call's children.
    End,
}

/// The calls of a function by where they stand.
#[derive(Drop)]
pub struct Within {
    /// Those in the function's own code.
    pub own: Vec<usize>,
    /// Those in the code of each call.
    pub inside: Vec<Vec<usize>>,
}

/// Appends the entries of a function's calls, each with its variables and the calls in its code. The tables have the
/// offsets of the types' and of the abstract entries; the calls' range lists are numbered from `first` on. `false` if
/// the section would be too large; the bytes are incomplete then.
pub fn push_calls(
    alloc: Global,
    out: &mut Vec<u8>,
    offsets: &[u32],
    origins: &[u32],
    first: u64,
    calls: &[InlinedCall],
) -> Result<bool, AllocError>
    requires calls { AreCalls (length offsets.now) (length origins.now) 0 calls.now }
    requires lists { first + length calls.now < 2 ^ 64 }
    ensures written { IfOk result (λ whole. whole ≡ true → out.new.items ≡ out.old.items
        ++ calls_within (call_bytes (in_table offsets.now) (in_table origins.now) first) 0 calls.now None) }
    ensures large { IfOk result (λ whole. whole ≡ false → Limits.SECTION_LIMIT ≤ length out.old.items
        + length (calls_within (call_bytes (in_table offsets.now) (in_table origins.now) first) 0 calls.now None)) }
{
    let within = by_place(alloc, calls)?;
    let mut left = Vec::new(alloc);
    push_left(&mut left, within.own.as_slice())?;
    while let Some(next) = left.pop() {
        if out.len() >= SECTION_LIMIT {
            return Ok(false);
        }
        match next {
            Left::End => out.push(0)?,
            Left::Call(k) => {
                push_call(out, offsets, origins, first + k as u64, &calls[k])?;
                left.push(Left::End)?;
                push_left(&mut left, within.inside[k].as_slice())?;
            }
        }
    }
    Ok(true)
}

/// Adds calls to what is left, the first of them last, since that is written next.
fn push_left(left: &mut Vec<Left>, numbers: &[usize]) -> Result<(), AllocError>
    ensures { OnOk result (left.new.items ≡ left.old.items ++ reverse (map (λ k. parts.Call k) numbers.now)) }
{
    let mut index = numbers.len();
    while index > 0 {
        index -= 1;
        left.push(Left::Call(numbers[index]))?;
    }
    Ok(())
}

/// The calls of a function by where they stand, in their order.
fn by_place(alloc: Global, calls: &[InlinedCall]) -> Result<Within, AllocError>
    requires { (types abstracts : ℕ) × AreCalls types abstracts 0 calls.now }
    ensures own { IfOk result (λ w. w.own.items ≡ numbers_within 0 calls.now None) }
    ensures count { IfOk result (λ w. length w.inside.items ≡ length calls.now) }
    ensures inside { IfOk result (λ w. (k : ℕ) → k < length calls.now →
        get_or (map (λ v. v.items) w.inside.items) k [] ≡ numbers_inside calls.now k) }
{
    let mut own = Vec::new(alloc);
    let mut inside: Vec<Vec<usize>> = Vec::new(alloc);
    for (k, call) in calls.iter().enumerate() {
        match call.parent {
            None => own.push(k)?,
            Some(parent) => inside[parent].push(k)?,
        }
        inside.push(Vec::new(alloc))?;
    }
    Ok(Within { own, inside })
}

/// Appends the entry of a call's code with its variables, whose addresses are the range list with this index.
fn push_call(
    out: &mut Vec<u8>,
    offsets: &[u32],
    origins: &[u32],
    list: u64,
    call: &InlinedCall,
) -> Result<(), AllocError>
    requires types { All (HasType (length offsets.now)) call.now.variables }
    requires origin { call.now.origin < length origins.now }
    ensures { OnOk result (out.new.items ≡ out.old.items
        ++ (entry (inlined_subroutine (in_table origins.now) list call.now)
        ++ flat_map (variable_bytes (in_table offsets.now)) call.now.variables)) }
{
    push_subroutine(out, origins[call.origin], list, call)?;
    push_variables(out, offsets, call.variables.as_slice())
}

/// Appends the entry of a call's code, without its children.
#[tactic(auto, unfolding(crate::specs::Entries::entry))]
fn push_subroutine(
    out: &mut Vec<u8>,
    origin: u32,
    list: u64,
    call: &InlinedCall,
) -> Result<(), AllocError>
    ensures { OnOk result (out.new.items ≡ out.old.items ++ entry (inlined_subroutine (λ _. origin) list call.now)) }
{
    push_code(out, DieKind::InlinedSubroutine)?;
    push_u32(out, origin)?;
    push_leb(out, &uleb(list))?;
    push_leb(out, &uleb(call.file as u64))?;
    push_leb(out, &uleb(call.line as u64))?;
    push_leb(out, &uleb(call.column as u64))
}
