//! Which registers code names, and which blocks are branch targets.

ghost use Rattle.std.specs.Prelude.{◌≡◌};
ghost use Rattle.std.specs.List.{list_any};
ghost use Rattle.rv64_instr.specs.Row.{row_of};
ghost use Rattle.rv64_instr.specs.LocationEffects.{has_implicit_uses};
ghost use Rattle.pass_trait.specs.sem_mir.InitialState.{first_of};
ghost use Rattle.pass_trait.specs.Causes.{is_of_register, is_implicit_of, names, names_implicitly, is_named};
ghost use Rattle.spill_rule.specs.Choice.{is_added, binds, is_bound, row_goes, goes, is_looped};
ghost use Rattle.spill_rule.specs.steps.Any.{any_item};

use base_ids::function_ids::BlockId;
use mir_func::block::Block;
use mir_func::func::Func;
use mir_func::item::{Item, ItemKind};
use mir_func::position::Origin;
use rv64_instr::decoded::Decoded;
use rv64_instr::instr::Instr;
use rv64_instr::operand::Operand;
use rv64_instr::reg::Reg;

/// Whether some code names the register: in an explicit operand, or in an implicit one of a row with implicit uses (a
/// call or a return).
pub fn is_named(f: &Func, r: Reg) -> bool
    ensures { result ≡ is_named f.now r }
{
    names_any(f.blocks.as_slice(), r)
}

fn names_any(blocks: &[Block], r: Reg) -> bool
    ensures { result ≡ any_item (λ i. names r i.kind) blocks.now }
{
    blocks.iter().any(|b| is_named_in(b.items.as_slice(), r))
}

/// Whether some call or code that ends the function names the register in an implicit operand, or added code names it.
pub fn is_bound(f: &Func, r: Reg) -> bool
    ensures { result ≡ is_bound f.now r }
{
    binds_any(f.blocks.as_slice(), r)
}

fn binds_any(blocks: &[Block], r: Reg) -> bool
    ensures { result ≡ any_item (binds r) blocks.now }
{
    blocks.iter().any(|b| is_bound_in(b.items.as_slice(), r))
}

/// Whether some branch or jump goes to the first block.
pub fn is_looped(f: &Func) -> bool
    ensures { result ≡ is_looped f.now }
{
    goes_to_first(f.blocks.as_slice())
}

fn goes_to_first(blocks: &[Block]) -> bool
    ensures { result ≡ any_item (λ i. goes (first_of blocks.now) i.kind) blocks.now }
{
    match blocks.split_first() {
        Some((first, _rest)) => has_branch_to(blocks, first.id),
        None => false,
    }
}

fn has_branch_to(blocks: &[Block], n: BlockId) -> bool
    ensures { result ≡ any_item (λ i. goes n i.kind) blocks.now }
{
    blocks.iter().any(|b| has_branch_in(b.items.as_slice(), n))
}

fn is_named_in(items: &[Item], r: Reg) -> bool
    ensures { result ≡ list_any (λ i. names r i.kind) items.now }
{
    items.iter().any(|i| names(r, &i.kind))
}

fn is_bound_in(items: &[Item], r: Reg) -> bool
    ensures { result ≡ list_any (binds r) items.now }
{
    items.iter().any(|i| binds(r, i))
}

fn has_branch_in(items: &[Item], n: BlockId) -> bool
    ensures { result ≡ list_any (λ i. goes n i.kind) items.now }
{
    items.iter().any(|i| goes(n, &i.kind))
}

fn binds(r: Reg, i: &Item) -> bool
    ensures { result ≡ binds r i.now }
{
    names_implicitly(r, &i.kind) || names(r, &i.kind) && is_added(i.origin)
}

fn is_added(origin: Origin) -> bool
    ensures { result ≡ is_added origin }
{
    match origin {
        Origin::Before(_) => true,
        Origin::Kept(_) => false,
    }
}

fn names_implicitly(r: Reg, kind: &ItemKind) -> bool
    ensures { result ≡ names_implicitly r kind.now }
{
    match kind {
        ItemKind::Code(i, _) => has_implicit_uses(i) && has_implicit_of(r, i.operands.as_slice()),
        ItemKind::Mark(_, _) | ItemKind::Phi(_, _) => false,
    }
}

fn has_implicit_of(r: Reg, operands: &[Operand]) -> bool
    ensures { result ≡ list_any (is_implicit_of r) operands.now }
{
    operands.iter().any(|operand| is_implicit_of(r, operand))
}

/// Whether the operand is an implicit one of the register.
fn is_implicit_of(r: Reg, operand: &Operand) -> bool
    ensures { result ≡ is_implicit_of r operand.now }
{
    match operand {
        Operand::ImplicitDef(s) | Operand::ImplicitUse(s) => s.number() == r.number(),
        Operand::Def(_)
        | Operand::Use(_)
        | Operand::Imm(_)
        | Operand::Slot(_)
        | Operand::Object(_)
        | Operand::Part(_, _)
        | Operand::Outgoing(_)
        | Operand::GlobalRegisters
        | Operand::Block(_)
        | Operand::Symbol(_)
        | Operand::Mask => false,
    }
}

fn has_implicit_uses(i: &Instr) -> bool
    ensures { result ≡ has_implicit_uses (row_of i.now) }
{
    matches!(i.decoded(), Decoded::Calls(_) | Decoded::Returns(_))
}

fn names(r: Reg, kind: &ItemKind) -> bool
    ensures { result ≡ names r kind.now }
{
    match kind {
        ItemKind::Code(i, _) => code_names(r, i),
        ItemKind::Mark(_, _) | ItemKind::Phi(_, _) => false,
    }
}

/// Whether code names the register: in an explicit operand, or in an implicit one of a row with implicit uses.
pub fn code_names(r: Reg, i: &Instr) -> bool
    ensures { result ≡ list_any (is_of_register (has_implicit_uses (row_of i.now)) r) i.now.operands }
{
    let counts = has_implicit_uses(i);
    i.operands
        .as_slice()
        .iter()
        .any(|operand| is_of_register(counts, r, operand))
}

/// Whether the operand is the register; an implicit operand only if `counts`.
fn is_of_register(counts: bool, r: Reg, operand: &Operand) -> bool
    ensures { result ≡ is_of_register counts r operand.now }
{
    match operand {
        Operand::Def(s) | Operand::Use(s) => s.number() == r.number(),
        Operand::ImplicitDef(s) | Operand::ImplicitUse(s) => counts && s.number() == r.number(),
        Operand::Imm(_)
        | Operand::Slot(_)
        | Operand::Object(_)
        | Operand::Part(_, _)
        | Operand::Outgoing(_)
        | Operand::GlobalRegisters
        | Operand::Block(_)
        | Operand::Symbol(_)
        | Operand::Mask => false,
    }
}

fn goes(n: BlockId, kind: &ItemKind) -> bool
    ensures { result ≡ goes n kind.now }
{
    match kind {
        ItemKind::Code(i, _) => code_goes(n, i),
        ItemKind::Mark(_, _) | ItemKind::Phi(_, _) => false,
    }
}

fn code_goes(n: BlockId, i: &Instr) -> bool
    ensures { result ≡ row_goes n (row_of i.now) }
{
    match i.decoded() {
        Decoded::Branches(_, _, _, target) => target.number() == n.number(),
        Decoded::Jumps(target) => target.number() == n.number(),
        _ => false,
    }
}
