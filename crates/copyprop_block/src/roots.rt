//! Copies that are available along a block: registers that have the same value as another one.

ghost use Rattle.std.specs.Prelude.{◌≡◌, OnOk, map};
ghost use Rattle.rv64_instr.specs.Row.{row_of};
ghost use Rattle.copyprop_block.specs.Roots.{root_of, renamed_operand, renamed, known_source, outlives, forgotten};
ghost use Rattle.copyprop_block.specs.Roots.{roots_after};

use rv64_instr::decoded::Decoded;
use rv64_instr::instr::Instr;
use rv64_instr::operand::{Operand, Operands};
use rv64_instr::place::Place;
use rv64_instr::reg::Reg;
use std::alloc::AllocError;

/// A register that has the same value as another (LLVM: an available copy of machine copy propagation).
#[derive(Clone, Copy, Debug, PartialEq, Eq)]
pub struct Root {
    /// The register that was set by a copy.
    pub copy: Reg,
    /// The register that has its value.
    pub root: Reg,
}

/// The register whose value it has: its root, or itself.
pub fn root_of(roots: &[Root], r: Reg) -> Reg
    ensures { result ≡ root_of roots.now r }
{
    for e in roots {
        if e.copy == r {
            return e.root;
        }
    }
    r
}

/// Replaces the explicit uses of an instruction by their roots.
pub fn rename(i: &mut Instr, roots: &[Root])
    ensures { i.new ≡ renamed roots.now i.old }
{
    rename_all(&mut i.operands, roots);
}

/// Replaces the explicit uses among operands by their roots.
fn rename_all(operands: &mut Operands, roots: &[Root])
    ensures { operands.new ≡ map (renamed_operand roots.now) operands.old }
{
    for o in operands.items.iter_mut() {
        rename_operand(o, roots);
    }
}

/// Replaces an explicit use by its root.
fn rename_operand(o: &mut Operand, roots: &[Root])
    ensures { o.new ≡ renamed_operand roots.now o.old }
{
    if let Operand::Use(r) = o {
        *r = root_of(roots, *r);
    }
}

/// The source of a redundant copy: the target is the source itself, or has it as its root.
pub fn known_source(i: &Instr, roots: &[Root]) -> Option<Reg>
    ensures { result ≡ known_source roots.now (row_of i.now) }
{
    match i.decoded() {
        Decoded::Moves(rd, s) => {
            if rd.number() != 0 && root_of(roots, rd) == s {
                Some(s)
            } else {
                None
            }
        }
        _ => None,
    }
}

/// Updates the available copies after code that is kept: what it defines loses its entries, and a copy adds one.
pub fn learn(i: &Instr, roots: &mut Vec<Root>) -> Result<(), AllocError>
    ensures { OnOk result (roots.new.items ≡ roots_after (row_of i.now) roots.old.items) }
{
    forget(i, roots);
    if let Decoded::Moves(rd, s) = i.decoded() {
        if rd.number() != 0 {
            roots.push(Root { copy: rd, root: s })?;
        }
    }
    Ok(())
}

/// Removes the entries of what the instruction defines, as copy and as root.
fn forget(i: &Instr, roots: &mut Vec<Root>)
    ensures { roots.new.items ≡ forgotten (row_of i.now) roots.old.items }
{
    let mut kept = 0;
    for at in 0..roots.len() {
        let e = roots[at];
        if outlives(&e, i) {
            roots[kept] = e;
            kept += 1;
        }
    }
    roots.truncate(kept);
}

/// Whether the instruction defines neither register of the entry.
fn outlives(e: &Root, i: &Instr) -> bool
    ensures { result ≡ outlives (row_of i.now) e.now }
{
    !i.defines(Place::Register(e.copy)) && !i.defines(Place::Register(e.root))
}
