//! The machine words of a function.

ghost use Rattle.std.specs.Prelude.{◌≡◌, ℕ, Option, All, ◌<◌, ◌+◌, ◌++◌, ◌^◌, IsTrue, IfSome, IfOk, OnOk};
ghost use Rattle.std.specs.Prelude.{pos, ◌-ℤ◌};
ghost use Rattle.std.specs.List.{flat_map};
ghost use Rattle.rv64_instr.specs.Row.{row_of};
ghost use Rattle.rv64_instr.specs.Form.{has_form};
ghost use Rattle.mir_func.specs.Sound.{AllItems, HasForm};
ghost use Rattle.rv64_word.specs.MachineOp.{is_encodable};
ghost use Rattle.mir_func.specs.declared.item.ItemKind.TheVariants.{Code};
ghost use Rattle.mir_func.specs.Exits.{row_exit};
ghost use Rattle.emit_code.specs.Rule.{Layout, Site, words_of, words_at, sites_in, word_if, site_words, operation_at};
ghost use Rattle.emit_code.specs.Rule.{skip_operation};
ghost use Rattle.emit_code.specs.steps.Plans.{IsPlan};
ghost use Rattle.emit_code.specs.steps.Emitted.{StandsAt, AllStandAt, jump_by, inverted_word, IsFormed};

use crate::code::Words;
use crate::plan::ItemLayout;
use crate::span::Span;
use mir_func::block::Block;
use mir_func::exit::Exit;
use mir_func::item::{Item, ItemKind};
use rv64_instr::decoded::{Decoded, Way};
use rv64_instr::instr::Instr;
use rv64_instr::inverse::inverse;
use rv64_word::lowering::{lower, object_named};
use rv64_word::machine_op::{MachineOp, encode};
use rv64_word::word_op::WordOp;
use std::alloc::{AllocError, Global};

/// The words of blocks by their plan, in the order of their addresses. The error is out of memory.
pub fn words(alloc: Global, plan: &ItemLayout, blocks: &[Block]) -> Result<Words, AllocError>
    ensures value { (l : Layout) → IsPlan l plan.now → l.framed.blocks ≡ blocks.now →
        IfOk result (λ words. words ≡ words_of l) }
    ensures forms { OnOk result (AllItems IsFormed blocks.now) }
{
    let mut words = Words::new(alloc);
    for (index, block) in blocks.iter().enumerate() {
        push_block(
            &mut words,
            plan,
            plan.table.first(index),
            block.items.as_slice(),
        )?;
    }
    Ok(words)
}

/// Appends the words of items. The first of them has this index in the function's items.
fn push_block(
    words: &mut Words,
    plan: &ItemLayout,
    first: u32,
    items: &[Item],
) -> Result<(), AllocError>
    ensures forms { OnOk result (All IsFormed items.now) }
    ensures value { (l : Layout) (b : ℕ) → IsPlan l plan.now → AllStandAt l plan.now first b items.now →
        OnOk result (words.new ≡ words.old ++ flat_map (words_at l) (sites_in b 0 items.now)) }
{
    for (index, item) in items.iter().enumerate() {
        push_item(words, plan, first as usize + index, &item.kind)?;
    }
    Ok(())
}

fn push_item(
    words: &mut Words,
    plan: &ItemLayout,
    index: usize,
    kind: &ItemKind,
) -> Result<(), AllocError>
    ensures form { HasForm kind.now }
    ensures value { (l : Layout) (s : Site) → IsPlan l plan.now → StandsAt l plan.now index s → kind.now ≡ s.item.kind →
        OnOk result (words.new ≡ words.old ++ words_at l s) }
{
    match kind {
        ItemKind::Code(i, _) => push_code(words, plan, index, i, kind.exit()),
        ItemKind::Mark(_, _) | ItemKind::Phi(_, _) => Ok(()),
    }
}

fn push_code(
    words: &mut Words,
    plan: &ItemLayout,
    index: usize,
    i: &Instr,
    exit: Exit,
) -> Result<(), AllocError>
    requires { exit ≡ row_exit (row_of i.now) }
    ensures form { IsTrue (has_form i.now.op i.now.operands) }
    ensures value { (l : Layout) (s : Site) (k : Option ℕ) → IsPlan l plan.now → StandsAt l plan.now index s →
        Code i.now k ≡ s.item.kind →
        OnOk result (words.new ≡ words.old ++ words_at l s) }
{
    let _ = &i.op;
    match plan.span(index) {
        Span::Nothing => Ok(()),
        Span::OneWord | Span::Short(_) => push_one(words, plan, plan.address(index), i, exit),
        Span::CallSite => push_site(words, i),
        Span::Long(target) => push_long(
            words,
            plan.address(index),
            plan.address(target as usize),
            i,
        ),
    }
}

fn push_one(
    words: &mut Words,
    plan: &ItemLayout,
    address: u64,
    i: &Instr,
    exit: Exit,
) -> Result<(), AllocError>
    requires exit { exit ≡ row_exit (row_of i.now) }
    requires low { address < 2 ^ 33 }
    ensures { (l : Layout) → IsPlan l plan.now → OnOk result (words.new ≡ words.old ++
        word_if (operation_at l address i.now)) }
{
    let object = plan.objects.of(object_named(i));
    push_word(words, lower(i, plan.offset(address, exit), object))
}

/// Appends the words by which control goes to the function that an instruction names: `AUIPC x1, 0` and
/// `JALR x1, 0(x1)`, or in tail position `AUIPC x6, 0` and `JALR x0, 0(x6)`.
fn push_site(words: &mut Words, i: &Instr) -> Result<(), AllocError>
    ensures { OnOk result (words.new ≡ words.old ++ site_words (row_of i.now)) }
{
    match i.decoded() {
        Decoded::Returns(Way::Tail(_)) => words.extend_from_slice(&[0x0000_0317, 0x0003_0067]),
        Decoded::Returns(Way::Back)
        | Decoded::Returns(Way::Never(_))
        | Decoded::Calls(_)
        | Decoded::Branches(_, _, _, _)
        | Decoded::Jumps(_)
        | Decoded::Fixes(_, _)
        | Decoded::Moves(_, _)
        | Decoded::Sets(_, _, _, _)
        | Decoded::Addresses(_, _, _)
        | Decoded::Loads(_, _, _, _)
        | Decoded::Stores(_, _, _, _)
        | Decoded::LoadsSlot(_, _)
        | Decoded::StoresSlot(_, _) => words.extend_from_slice(&[0x0000_0097, 0x0000_80e7]),
    }
}

/// Appends a long branch: the inverted branch over the next word, and a jump to the target.
fn push_long(words: &mut Words, address: u64, target: u64, i: &Instr) -> Result<(), AllocError>
    requires low { address < 2 ^ 33 }
    requires target { target < 2 ^ 33 }
    ensures { OnOk result (words.new ≡ words.old ++ (word_if (skip_operation i.now) ++
        word_if (jump_by (pos target -ℤ pos (address + 4))))) }
{
    push_word(words, skip(i))?;
    push_word(words, jump(distance(address + 4, target)))
}

/// The offset from one address to another, in bytes.
fn distance(from: u64, to: u64) -> i64
    requires from { from < 2 ^ 34 }
    requires to { to < 2 ^ 34 }
    ensures { result ≡ pos to -ℤ pos from }
{
    to as i64 - from as i64
}

/// The inverted branch over the next word, if it is encodable.
fn skip(i: &Instr) -> Option<MachineOp>
    ensures value { result ≡ skip_operation i.now }
    ensures encodable { IfSome result (λ m. IsTrue (is_encodable m)) }
{
    let mut operation = lower(i, 8, 0)?;
    operation.op = inverted_op(operation.op);
    Some(operation)
}

/// The operation of the inverted branch. Other operations stay.
fn inverted_op(op: WordOp) -> WordOp
    ensures { result ≡ inverted_word op }
{
    match op {
        WordOp::Branch(op) => WordOp::Branch(inverse(op)),
        WordOp::Registers(_)
        | WordOp::Immediate(_)
        | WordOp::Lui
        | WordOp::Load(_)
        | WordOp::Store(_)
        | WordOp::Jal
        | WordOp::Jalr => op,
    }
}

/// A jump (`JAL x0`) by an offset in bytes, if it is in range.
fn jump(offset: i64) -> Option<MachineOp>
    ensures value { result ≡ jump_by offset }
    ensures encodable { IfSome result (λ m. IsTrue (is_encodable m)) }
{
    let jump = MachineOp {
        op: WordOp::Jal,
        rd: 0,
        rs1: 0,
        rs2: 0,
        imm: offset,
    };
    if jump.is_encodable() {
        Some(jump)
    } else {
        None
    }
}

fn push_word(words: &mut Words, operation: Option<MachineOp>) -> Result<(), AllocError>
    requires { IfSome operation (λ m. IsTrue (is_encodable m)) }
    ensures { OnOk result (words.new ≡ words.old ++ word_if operation) }
{
    match operation {
        Some(m) => words.push(encode(&m)),
        None => Ok(()),
    }
}
