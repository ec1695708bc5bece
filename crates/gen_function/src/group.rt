//! Groups of items.

ghost use Rattle.std.specs.Prelude.{◌+◌, ◌^◌, ◌<◌, OnOk};
ghost use Rattle.gen_function.specs.Generator.{
  add_group,
  copy_group,
  constant_group,
  store_group,
  load_group,
  phi_group,
  mark_group,
  group_of,
  group,
  groups,
};
ghost use Rattle.gen_function.specs.steps.Making.{Appends};

use crate::draws::Draws;
use crate::items::{add, constant, copy, load, mark, store};
use base_list::List;
use mir_func::item::ItemKind;
use rv64_instr::place::Place;
use std::alloc::{AllocError, Global};

/// Kinds of items, in order.
pub type Kinds = List<ItemKind>;

/// The number of groups in a block.
const GROUPS: u32 = 6;

/// The number of kinds of groups, and the bound of constants.
const SHAPES: u32 = 8;

const CONSTANTS: u32 = 64;

/// Appends the six groups of a block.
pub fn push_groups(alloc: Global, kinds: &mut Kinds, draws: &mut Draws) -> Result<(), AllocError>
    requires { draws.old.given + 6 < 2 ^ 16 }
    ensures { OnOk result (Appends (groups 6 draws.old) kinds.old kinds.new draws.new) }
{
    for _ in 0..GROUPS {
        push_group(alloc, kinds, draws)?;
    }
    Ok(())
}

/// Appends a random group.
#[tactic(auto, unfolding(crate::specs::Generator::group))]
fn push_group(alloc: Global, kinds: &mut Kinds, draws: &mut Draws) -> Result<(), AllocError>
    requires { draws.old.given < 2 ^ 16 }
    ensures { OnOk result (Appends (group draws.old) kinds.old kinds.new draws.new) }
{
    let shape = draws.below(SHAPES);
    push_shape(alloc, shape, kinds, draws)
}

#[tactic(auto, unfolding(crate::specs::Generator::group_of))]
fn push_shape(
    alloc: Global,
    shape: u32,
    kinds: &mut Kinds,
    draws: &mut Draws,
) -> Result<(), AllocError>
    requires shape { shape < 8 }
    requires given { draws.old.given < 2 ^ 16 }
    ensures { OnOk result (Appends (group_of shape draws.old) kinds.old kinds.new draws.new) }
{
    match shape {
        0 => push_add(alloc, kinds, draws),
        1 => push_add(alloc, kinds, draws),
        2 => push_copy(alloc, kinds, draws),
        3 => push_constant(alloc, kinds, draws),
        4 => push_store(alloc, kinds, draws),
        5 => push_load(alloc, kinds, draws),
        6 => push_phi(kinds, draws),
        7 => push_mark(kinds, draws),
        _ => unreachable!(),
    }
}

/// Appends an addition with the next number, and a DBG_INSTR_REF to it.
fn push_add(alloc: Global, kinds: &mut Kinds, draws: &mut Draws) -> Result<(), AllocError>
    requires { draws.old.given < 2 ^ 16 }
    ensures { OnOk result (Appends (add_group draws.old) kinds.old kinds.new draws.new) }
{
    let rd = draws.register();
    let rs = draws.register();
    let rt = draws.register();
    let variable = draws.variable();
    let k = draws.number();
    kinds.push(add(alloc, rd, rs, rt, k)?)?;
    kinds.push(mark(variable, k))
}

/// Appends a copy with the next number.
fn push_copy(alloc: Global, kinds: &mut Kinds, draws: &mut Draws) -> Result<(), AllocError>
    requires { draws.old.given < 2 ^ 16 }
    ensures { OnOk result (Appends (copy_group draws.old) kinds.old kinds.new draws.new) }
{
    let rd = draws.register();
    let rs = draws.register();
    let k = draws.number();
    kinds.push(copy(alloc, rd, rs, Some(k))?)
}

/// Appends a constant with the next number, and a DBG_INSTR_REF to it.
fn push_constant(alloc: Global, kinds: &mut Kinds, draws: &mut Draws) -> Result<(), AllocError>
    requires { draws.old.given < 2 ^ 16 }
    ensures { OnOk result (Appends (constant_group draws.old) kinds.old kinds.new draws.new) }
{
    let rd = draws.register();
    let n = draws.below(CONSTANTS);
    let variable = draws.variable();
    let k = draws.number();
    kinds.push(constant(alloc, rd, n, k)?)?;
    kinds.push(mark(variable, k))
}

/// Appends a slot store.
fn push_store(alloc: Global, kinds: &mut Kinds, draws: &mut Draws) -> Result<(), AllocError>
    ensures { OnOk result (Appends (store_group draws.old) kinds.old kinds.new draws.new) }
{
    let rs = draws.register();
    let slot = draws.slot();
    kinds.push(store(alloc, rs, slot)?)
}

/// Appends a slot load with the next number, and a DBG_INSTR_REF to it.
fn push_load(alloc: Global, kinds: &mut Kinds, draws: &mut Draws) -> Result<(), AllocError>
    requires { draws.old.given < 2 ^ 16 }
    ensures { OnOk result (Appends (load_group draws.old) kinds.old kinds.new draws.new) }
{
    let rd = draws.register();
    let slot = draws.slot();
    let variable = draws.variable();
    let k = draws.number();
    kinds.push(load(alloc, rd, slot, k)?)?;
    kinds.push(mark(variable, k))
}

/// Appends a DBG_PHI with the next number, and a DBG_INSTR_REF to it.
fn push_phi(kinds: &mut Kinds, draws: &mut Draws) -> Result<(), AllocError>
    requires { draws.old.given < 2 ^ 16 }
    ensures { OnOk result (Appends (phi_group draws.old) kinds.old kinds.new draws.new) }
{
    let rs = draws.register();
    let variable = draws.variable();
    let k = draws.number();
    kinds.push(ItemKind::Phi(Some(Place::Register(rs)), k))?;
    kinds.push(mark(variable, k))
}

/// Appends a DBG_INSTR_REF to a number that is used, or to the next one.
fn push_mark(kinds: &mut Kinds, draws: &mut Draws) -> Result<(), AllocError>
    requires { draws.old.given < 2 ^ 16 }
    ensures { OnOk result (Appends (mark_group draws.old) kinds.old kinds.new draws.new) }
{
    let variable = draws.variable();
    let k = draws.near_number();
    kinds.push(mark(variable, k))
}
