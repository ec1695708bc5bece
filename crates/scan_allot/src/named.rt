//! A function with the registers that its code names.

ghost use Rattle.std.specs.Prelude.{◌≡◌, ◌||◌, ◌&&◌, nat_eq, ℕ};
ghost use Rattle.std.specs.List.{list_any};
ghost use Rattle.rv64_instr.specs.Row.{row_of};
ghost use Rattle.rv64_instr.specs.LocationEffects.{has_implicit_uses};
ghost use Rattle.pass_liveness.specs.Sets.{has_bit};
ghost use Rattle.pass_trait.specs.Causes.{is_of_register, names, is_named};
ghost use Rattle.scan_debug.specs.spill_rule.steps.Any.{any_item};

use mir_func::block::Block;
use mir_func::func::Func;
use mir_func::item::{Item, ItemKind};
use pass_liveness::set::PlaceSet;
use rv64_instr::decoded::Decoded;
use rv64_instr::instr::Instr;
use rv64_instr::operand::Operand;
use rv64_instr::reg::Reg;
use std::marker::Model;

/// A function with the registers that its code names, as a set of their numbers.
#[derive(Drop)]
pub struct NamedFunction<'a> {
    f: &'a Func,
    named: PlaceSet,
}

impl<'a> Model for NamedFunction<'a> {
    ghost use Rattle.std.specs.Prelude.{◌≡◌, ℕ};
    ghost use Rattle.mir_func.specs.Function.{Function};
    ghost use Rattle.pass_liveness.specs.Sets.{has_bit};
    ghost use Rattle.pass_trait.specs.Causes.{is_named};

    ghost Value = { Function };

    ghost view = { λ n. n.f.now };

    ghost invariant = { λ n. (r : ℕ) → has_bit n.named r ≡ is_named n.f.now r };
}

impl<'a> NamedFunction<'a> {
    /// The function with these registers. It takes no memory.
    pub fn new(f: &'a Func) -> NamedFunction<'a>
        ensures { result ≡ f.now }
    {
        let mut named = PlaceSet::new();
        insert_blocks(f.blocks.as_slice(), &mut named);
        NamedFunction { f, named }
    }

    /// Whether some code names the register. It takes no memory.
    pub fn is_named(&self, r: Reg) -> bool
        ensures { result ≡ is_named self.now r }
    {
        self.named.has(r.number() as usize)
    }
}

/// Adds the registers that code of blocks names.
fn insert_blocks(blocks: &[Block], named: &mut PlaceSet)
    ensures { (r : ℕ) → has_bit named.new r ≡ (any_item (λ i. names r i.kind) blocks.now || has_bit named.old r) }
{
    for block in blocks {
        insert_items(block.items.as_slice(), named);
    }
}

fn insert_items(items: &[Item], named: &mut PlaceSet)
    ensures { (r : ℕ) → has_bit named.new r ≡ (list_any (λ i. names r i.kind) items.now || has_bit named.old r) }
{
    for item in items {
        insert_kind(&item.kind, named);
    }
}

fn insert_kind(kind: &ItemKind, named: &mut PlaceSet)
    ensures { (r : ℕ) → has_bit named.new r ≡ (names r kind.now || has_bit named.old r) }
{
    match kind {
        ItemKind::Code(i, _) => {
            insert_operands(has_implicit_uses(i), i.operands.as_slice(), named);
        }
        ItemKind::Mark(_, _) | ItemKind::Phi(_, _) => {}
    }
}

/// Whether code is a call or a return.
fn has_implicit_uses(i: &Instr) -> bool
    ensures { result ≡ has_implicit_uses (row_of i.now) }
{
    matches!(i.decoded(), Decoded::Calls(_) | Decoded::Returns(_))
}

/// Adds the registers of operands; those of implicit ones only if `counts`.
fn insert_operands(counts: bool, operands: &[Operand], named: &mut PlaceSet)
    ensures { (r : ℕ) → has_bit named.new r ≡ (list_any (is_of_register counts r) operands.now || has_bit named.old r) }
{
    for operand in operands {
        insert_operand(counts, operand, named);
    }
}

fn insert_operand(counts: bool, operand: &Operand, named: &mut PlaceSet)
    ensures { (r : ℕ) → has_bit named.new r ≡ (is_of_register counts r operand.now || has_bit named.old r) }
{
    match operand {
        Operand::Def(s) | Operand::Use(s) => insert_if(true, *s, named),
        Operand::ImplicitDef(s) | Operand::ImplicitUse(s) => insert_if(counts, *s, named),
        Operand::Imm(_)
        | Operand::Slot(_)
        | Operand::Object(_)
        | Operand::Part(_, _)
        | Operand::Outgoing(_)
        | Operand::GlobalRegisters
        | Operand::Block(_)
        | Operand::Symbol(_)
        | Operand::Mask => {}
    }
}

fn insert_if(more: bool, s: Reg, named: &mut PlaceSet)
    ensures { (r : ℕ) → has_bit named.new r ≡ ((more && nat_eq s r) || has_bit named.old r) }
{
    if more {
        named.insert(s.number() as usize);
    }
}
