//! Passes by their trait.

ghost use Rattle.std.specs.Prelude.{◌≡◌, ◌+◌, ◌*◌, ◌<◌, ◌^◌, [], flat_map, IfSome};
ghost use Rattle.mir_func.specs.Limits.{MAX_SLOTS};
ghost use Rattle.pass_trait.specs.Code.{SeesCodeAlone};
ghost use Rattle.pass_trait.specs.Tests.{IsWatching, NothingIsWrong};
ghost use Rattle.pass_trait.specs.Sizes.{greatest, greatest_number, most_numbers, numbers_in, numbers_of};

use base_ids::function_ids::{BlockId, DebugNumber};
use base_list::List;
use mir_func::block::{Block, Blocks};
use mir_func::func::Func;
use mir_func::item::{Item, ItemKind, Items};
use mir_func::location::Loc;
use mir_func::position::{Origin, Pos};
use mir_substitution::substitutions::Substitutions;
use pass_trait::compose::{Nothing, Then};
use pass_trait::loss::{Loss, Losses, Lost, Reason};
use pass_trait::nops::NopPass;
use pass_trait::pass::{Pass, debug_items_change_no_code};
use rv64_instr::instr::Instr;
use rv64_instr::name::Name;
use rv64_instr::op::{ImmediateOp, Op};
use rv64_instr::operand::{Operand, Operands};
use rv64_instr::reg::physical;
use std::alloc::{AllocError, Global};

/// A rule that sees silent indices sees where marks stood, and no pass may have it.
fn silent_indices_are_no_code()
    ensures { SeesCodeAlone IsWatching → ⊥ }
{}

/// Without a change no mark of a real register may be silenced.
fn nothing_is_wrong_without_a_change()
    ensures { NothingIsWrong }
{}

/// Runs a pass through its bound.
fn run_pass<P: Pass>(
    pass: &mut P,
    alloc: Global,
    f: &mut Func,
    subs: &mut Substitutions,
) -> Result<Losses, AllocError>
    requires numbers { greatest_number f.old subs.old + most_numbers P.factor P.count f.old < 2 ^ 31 }
    requires slots { greatest f.old.slots + MAX_SLOTS * P.count < 2 ^ 31 }
{
    pass.run(alloc, f, subs)
}

/// `$x0 = ADDI $x0, 0`.
fn nop(alloc: Global) -> Option<Instr> {
    let zero = physical(0)?;
    let mut operands = Operands::new(alloc);
    operands.push(Operand::Def(zero)).ok()?;
    operands.push(Operand::Use(zero)).ok()?;
    operands.push(Operand::Imm(0)).ok()?;
    Instr::new(Op::Immediate(ImmediateOp::Addi), operands)
}

fn kept(kind: ItemKind, item: u32) -> Item
    ensures { result.kind ≡ kind }
{
    Item {
        kind,
        origin: Origin::Kept(Pos {
            block: BlockId(0),
            item,
        }),
        loc: Loc::Absent,
    }
}

/// A no-operation with number 1, and a return.
fn sample_items(alloc: Global) -> Option<Items>
    ensures { IfSome result (λ xs. greatest (flat_map (λ i. numbers_of i.kind) xs) < 2 ^ 31) }
{
    let first = nop(alloc)?;
    let back = Instr::new(Op::PseudoRet, Operands::new(alloc))?;
    let mut items = Items::new(alloc);
    items
        .push(kept(ItemKind::Code(first, Some(DebugNumber(1))), 0))
        .ok()?;
    items.push(kept(ItemKind::Code(back, None), 1)).ok()?;
    Some(items)
}

fn sample_blocks(alloc: Global) -> Option<Blocks>
    ensures { IfSome result (λ bs. greatest (numbers_in bs []) < 2 ^ 31) }
{
    let mut blocks = Blocks::new(alloc);
    blocks
        .push(Block {
            id: BlockId(0),
            items: sample_items(alloc)?,
            source_end: 2,
        })
        .ok()?;
    Some(blocks)
}

fn sample(alloc: Global) -> Option<Func>
    ensures numbers { IfSome result (λ f. greatest_number f [] < 2 ^ 31) }
    ensures slots { IfSome result (λ f. greatest f.slots < 2 ^ 31) }
{
    let blocks = sample_blocks(alloc)?;
    Func::new(
        alloc,
        Name::new(alloc),
        List::new(alloc),
        List::new(alloc),
        blocks,
    )
    .ok()
}

fn of_no_operations(alloc: Global) -> Option<(usize, usize)> {
    let mut f = sample(alloc)?;
    let mut subs = Substitutions::new(alloc);
    let losses = run_pass(&mut NopPass, alloc, &mut f, &mut subs).ok()?;
    Some(left_and_lost(&f, &losses))
}

fn of_no_operations_and_nothing(alloc: Global) -> Option<(usize, usize)> {
    let mut f = sample(alloc)?;
    let mut subs = Substitutions::new(alloc);
    let mut both = Then {
        first: NopPass,
        second: Nothing,
    };
    debug_items_change_no_code(&both);
    let losses = run_pass(&mut both, alloc, &mut f, &mut subs).ok()?;
    Some(left_and_lost(&f, &losses))
}

#[test]
fn no_operations_go(rt: HostRuntime) {
    assert!(rt; of_no_operations(rt.alloc()) == Some((1, 1)));
    assert!(rt; of_no_operations_and_nothing(rt.alloc()) == Some((1, 1)));
    silent_indices_are_no_code();
    nothing_is_wrong_without_a_change();
}

/// How many items the first block has, and how often number 1 is lost because it was removed.
fn left_and_lost(f: &Func, losses: &Losses) -> (usize, usize) {
    let one = Loss {
        what: Lost::Number(DebugNumber(1)),
        reason: Reason::Removed,
    };
    let left = match f.blocks.as_slice() {
        [block, ..] => block.items.len(),
        [] => 0,
    };
    (
        left,
        losses.as_slice().iter().filter(|l| **l == one).count(),
    )
}
