//! The constants of the pool that code names.

ghost use Rattle.std.specs.Prelude.{◌≡◌, ℕ, nat_eq, IfOk};
ghost use Rattle.std.specs.List.{list_all, list_any};
ghost use Rattle.mir_pool.specs.Pool.{constant_ids};
ghost use Rattle.read_body.specs.FirstUseOrder.{is_met};
ghost use Rattle.read_program.specs.Pool.{
  is_symbol_known,
  is_operand_known,
  is_item_known,
  are_known,
};

use mir_func::block::Block;
use mir_func::item::{Item, ItemKind};
use mir_pool::constant::PoolConstant;
use read_body::first_use_order::FirstUseOrder;
use rv64_instr::operand::Operand;
use rv64_instr::symbol::Symbol;
use std::alloc::{AllocError, Global};

/// Whether a symbol is a global, or the constant of one of these numbers.
fn is_symbol_known(ids: &FirstUseOrder, symbol: &Symbol) -> bool
    ensures { result ≡ is_symbol_known ids.now symbol.now }
{
    match symbol {
        Symbol::Global(_) => true,
        Symbol::Constant(number) => ids.has(u64::from(*number)),
    }
}

fn is_operand_known(ids: &FirstUseOrder, operand: &Operand) -> bool
    ensures { result ≡ is_operand_known ids.now operand.now }
{
    match operand {
        Operand::Part(_, address) => is_symbol_known(ids, &address.symbol),
        Operand::Def(_)
        | Operand::Use(_)
        | Operand::ImplicitDef(_)
        | Operand::ImplicitUse(_)
        | Operand::Imm(_)
        | Operand::Slot(_)
        | Operand::Object(_)
        | Operand::Outgoing(_)
        | Operand::GlobalRegisters
        | Operand::Block(_)
        | Operand::Symbol(_)
        | Operand::Mask => true,
    }
}

fn are_operands_known(ids: &FirstUseOrder, operands: &[Operand]) -> bool
    ensures { result ≡ list_all (is_operand_known ids.now) operands.now }
{
    operands
        .iter()
        .all(|operand| is_operand_known(ids, operand))
}

fn is_item_known(ids: &FirstUseOrder, item: &Item) -> bool
    ensures { result ≡ is_item_known ids.now item.now }
{
    match &item.kind {
        ItemKind::Code(instr, _) => are_operands_known(ids, instr.operands.as_slice()),
        ItemKind::Mark(_, _) | ItemKind::Phi(_, _) => true,
    }
}

fn is_block_known(ids: &FirstUseOrder, block: &Block) -> bool
    ensures { result ≡ list_all (is_item_known ids.now) block.now.items }
{
    block
        .items
        .as_slice()
        .iter()
        .all(|item| is_item_known(ids, item))
}

fn are_among(ids: &FirstUseOrder, blocks: &[Block]) -> bool
    ensures { result ≡ are_known ids.now blocks.now }
{
    blocks.iter().all(|block| is_block_known(ids, block))
}

/// The set of the numbers of these constants.
fn set_of(alloc: Global, constants: &[PoolConstant]) -> Result<FirstUseOrder, AllocError>
    ensures { IfOk result (λ set. (n : ℕ) → is_met n set ≡ list_any (nat_eq n) (constant_ids constants.now)) }
{
    let mut set = FirstUseOrder::new(alloc);
    for constant in constants {
        set.meet(u64::from(constant.id))?;
    }
    Ok(set)
}

/// Whether each constant that the code of these blocks names is one of these.
pub fn are_known(
    alloc: Global,
    constants: &[PoolConstant],
    blocks: &[Block],
) -> Result<bool, AllocError>
    ensures { IfOk result (λ known. known ≡ are_known (constant_ids constants.now) blocks.now) }
{
    let set = set_of(alloc, constants)?;
    Ok(are_among(&set, blocks))
}
