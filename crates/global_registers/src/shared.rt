//! Functions whose calls and ends read the global registers, or no longer do.

ghost use Rattle.std.specs.Prelude.{◌≡◌, map, IfOk};
ghost use Rattle.global_registers.specs.Shared.{hands_over, is_shared, without_shared, operands_by, code_by, kind_by, item_by};
ghost use Rattle.global_registers.specs.Shared.{block_by};

use base_list::List;
use mir_func::block::{Block, Blocks};
use mir_func::item::{Item, ItemKind};
use rv64_instr::instr::Instr;
use rv64_instr::op::Op;
use rv64_instr::operand::{Operand, Operands};
use std::alloc::{AllocError, Global};

/// The blocks whose calls and ends read the global registers, or don't.
pub fn blocks_by(alloc: Global, shares: bool, blocks: &[Block]) -> Result<Blocks, AllocError>
    ensures { IfOk result (λ made. made ≡ map (block_by shares) blocks.now) }
{
    let mut made = List::new(alloc);
    for block in blocks {
        made.push(Block {
            id: block.id,
            items: items_by(alloc, shares, block.items.as_slice())?,
            source_end: block.source_end,
        })?;
    }
    Ok(made)
}

fn items_by(alloc: Global, shares: bool, items: &[Item]) -> Result<List<Item>, AllocError>
    ensures { IfOk result (λ made. made ≡ map (item_by shares) items.now) }
{
    let mut made = List::new(alloc);
    for item in items {
        made.push(item_by(alloc, shares, item)?)?;
    }
    Ok(made)
}

fn item_by(alloc: Global, shares: bool, item: &Item) -> Result<Item, AllocError>
    ensures { IfOk result (λ made. made ≡ item_by shares item.now) }
{
    Ok(Item {
        kind: kind_by(alloc, shares, &item.kind)?,
        origin: item.origin,
        loc: item.loc,
    })
}

fn kind_by(alloc: Global, shares: bool, kind: &ItemKind) -> Result<ItemKind, AllocError>
    ensures { IfOk result (λ made. made ≡ kind_by shares kind.now) }
{
    match kind {
        ItemKind::Code(i, number) => Ok(ItemKind::Code(code_by(alloc, shares, i)?, *number)),
        ItemKind::Mark(variable, value) => Ok(ItemKind::Mark(*variable, *value)),
        ItemKind::Phi(place, number) => Ok(ItemKind::Phi(*place, *number)),
    }
}

fn code_by(alloc: Global, shares: bool, i: &Instr) -> Result<Instr, AllocError>
    ensures { IfOk result (λ made. made ≡ code_by shares i.now) }
{
    Ok(Instr {
        op: i.op,
        operands: operands_by(alloc, shares, i)?,
        volatile: i.volatile,
    })
}

fn operands_by(alloc: Global, shares: bool, i: &Instr) -> Result<Operands, AllocError>
    ensures { IfOk result (λ made. made ≡ operands_by shares i.now) }
{
    if shares {
        let mut made = i.operands.copy()?;
        if hands_over(i.op) {
            made.push(Operand::GlobalRegisters)?;
        }
        Ok(made)
    } else {
        copied(alloc, without_shared(i.operands.as_slice()))
    }
}

/// Whether it is an opcode of a call, a call in tail position or a return.
fn hands_over(op: Op) -> bool
    ensures { result ≡ hands_over op }
{
    matches!(
        op,
        Op::PseudoCall
            | Op::PseudoRet
            | Op::PseudoCallIndirect
            | Op::PseudoTail
            | Op::PseudoTailIndirect
            | Op::NoReturnCall
            | Op::NoReturnCallIndirect
    )
}

/// The operands without the last one, if it says that the global registers are read.
#[tactic(auto, using(crate::proofs::Behind::last_taken))]
fn without_shared<'a>(operands: &'a [Operand]) -> &'a [Operand]
    ensures { result.now ≡ without_shared operands.now }
{
    match operands.split_last() {
        Some((last, front)) => { if is_shared(last) { front } else { operands } }
        None => operands,
    }
}

fn copied(alloc: Global, operands: &[Operand]) -> Result<Operands, AllocError>
    ensures { IfOk result (λ made. made ≡ operands.now) }
{
    let mut made = Operands::new(alloc);
    for operand in operands {
        made.push(operand.copy()?)?;
    }
    Ok(made)
}

fn is_shared(operand: &Operand) -> bool
    ensures { result ≡ is_shared operand.now }
{
    matches!(operand, Operand::GlobalRegisters)
}
