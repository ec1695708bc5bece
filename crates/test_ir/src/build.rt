//! Functions from texts. Lines `slots FIRST LAST` and `object ID SIZE ALIGN OFFSET`, with a local offset if there is
//! one, or `-` and a fixed offset, declare slots and stack objects. A
//! line `bb FIRST LAST SILENT` begins a block, or one for each number up to the last; the last number and the silent
//! index may be left out. Each further line is an item: an opcode and its operands, after `#K` if it has a debug
//! instruction number; `mark V`, `inlined V AT` or `part V OFFSET LENGTH` and what the variable or its part is
//! assigned; or `phi K` and a place.

use base_ids::function_ids::{BlockId, DebugNumber, ObjectId, OperandIndex, SlotId};
use base_ids::metadata::NodeId;
use base_list::List;
use mir_func::block::{Block, Blocks};
use mir_func::debug_substitution::{DebugSubstitution, OperandPair};
use mir_func::func::{Func, FuncError, SlotIds};
use mir_func::item::{Item, ItemKind, Items};
use mir_func::location::Loc;
use mir_func::object::{Object, Objects};
use mir_func::position::{Origin, Pos};
use mir_func::variable::{Fragment, MarkValue, VarId};
use mir_substitution::substitutions::Substitutions;
use rv64_instr::instr::Instr;
use rv64_instr::op::Op;
use rv64_instr::operand::{Operand, Operands};
use rv64_instr::place::Place;
use rv64_instr::reg::Reg;
use std::alloc::{AllocError, Global};
use std::str::SplitWhitespace;

/// An operand of the instruction with a debug instruction number.
pub fn pair(number: u32, operand: u32) -> OperandPair {
    OperandPair {
        number: DebugNumber(number),
        operand: OperandIndex(operand),
    }
}

/// The entry by which one number's operand 0 stands for another's.
pub fn entry(src: u32, dst: u32, subreg: u32) -> DebugSubstitution {
    DebugSubstitution {
        src: pair(src, 0),
        dst: pair(dst, 0),
        subreg,
    }
}

/// The entries of such numbers, in their order.
pub fn entries(alloc: Global, list: &[(u32, u32, u32)]) -> Result<Substitutions, AllocError> {
    let mut subs = Substitutions::new(alloc);
    for (src, dst, subreg) in list {
        subs.add(entry(*src, *dst, *subreg))?;
    }
    Ok(subs)
}

/// The number of a word.
pub fn number(word: Option<&str>) -> Option<u32> {
    word?.parse::<u32>().ok()
}

fn register(word: Option<&str>) -> Option<Reg> {
    Reg::new(number(word)?)
}

/// An operand, as `def:5`, or `mask`, `g` or a number.
fn operand(alloc: Global, word: &str) -> Option<Operand> {
    let (class, n) = match word.split_once(':') {
        Some((class, rest)) => (class, number(Some(rest))?),
        None => (word, 0),
    };
    match class {
        "def" => Some(Operand::Def(Reg::new(n)?)),
        "use" => Some(Operand::Use(Reg::new(n)?)),
        "gives" => Some(Operand::ImplicitDef(Reg::new(n)?)),
        "takes" => Some(Operand::ImplicitUse(Reg::new(n)?)),
        "slot" => Some(Operand::Slot(SlotId(n))),
        "outgoing" => Some(Operand::Outgoing(SlotId(n))),
        "object" => Some(Operand::Object(ObjectId(n))),
        "to" => Some(Operand::Block(BlockId(n))),
        "mask" => Some(Operand::Mask),
        "g" => Some(Operand::Symbol(List::from_slice(alloc, b"g").ok()?)),
        _ => Some(Operand::Imm(word.parse::<i64>().ok()?)),
    }
}

/// The opcode of a word: its name, or `never` and `never_by` for calls that don't return, whose names are two words.
fn op(word: &str) -> Option<Op> {
    match word {
        "never" => Some(Op::NoReturnCall),
        "never_by" => Some(Op::NoReturnCallIndirect),
        name => Op::from_mnemonic(name.as_bytes()),
    }
}

fn code(alloc: Global, opcode: &str, words: SplitWhitespace) -> Option<Instr> {
    let op = op(opcode)?;
    let mut operands = Operands::new(alloc);
    for word in words {
        operands.push(operand(alloc, word)?).ok()?;
    }
    Instr::new(op, operands)
}

fn mark_value(words: &mut SplitWhitespace) -> Option<MarkValue> {
    match words.next()? {
        "reg" => Some(MarkValue::At(register(words.next())?)),
        "pair" => Some(MarkValue::Pair(pair(number(words.next())?, number(words.next())?))),
        "none" => Some(MarkValue::Nothing),
        word => Some(MarkValue::Constant(word.parse::<i64>().ok()?)),
    }
}

fn place(words: &mut SplitWhitespace) -> Option<Place> {
    match words.next()? {
        "reg" => Some(Place::Register(register(words.next())?)),
        "slot" => Some(Place::Slot(SlotId(number(words.next())?))),
        _ => None,
    }
}

/// The node of a word.
fn node(word: Option<&str>) -> Option<NodeId> {
    Some(NodeId(number(word)?))
}

/// A part of a variable.
fn part(words: &mut SplitWhitespace) -> Option<VarId> {
    let node = node(words.next())?;
    let offset = number(words.next())?;
    let length = number(words.next())?;
    Some(VarId {
        node,
        inlined_at: None,
        fragment: Fragment::new(offset, length),
    })
}

/// A variable after its word: `mark V`, `inlined V AT` or `part V OFFSET LENGTH`. None after another word.
pub fn variable(first: &str, words: &mut SplitWhitespace) -> Option<VarId> {
    match first {
        "mark" => Some(VarId {
            node: node(words.next())?,
            inlined_at: None,
            fragment: None,
        }),
        "inlined" => Some(VarId {
            node: node(words.next())?,
            inlined_at: Some(node(words.next())?),
            fragment: None,
        }),
        "part" => part(words),
        _ => None,
    }
}

fn kind(alloc: Global, line: &str) -> Option<ItemKind> {
    let mut words = line.split_whitespace();
    let first = words.next()?;
    if let Some(v) = variable(first, &mut words) {
        return Some(ItemKind::Mark(v, mark_value(&mut words)?));
    }
    if first == "phi" {
        let k = DebugNumber(number(words.next())?);
        return Some(ItemKind::Phi(place(&mut words), k));
    }
    match first.strip_prefix("#") {
        Some(k) => {
            let k = DebugNumber(number(Some(k))?);
            let opcode = words.next()?;
            Some(ItemKind::Code(code(alloc, opcode, words)?, Some(k)))
        }
        None => Some(ItemKind::Code(code(alloc, first, words)?, None)),
    }
}

/// The item of a line at its own place.
fn item(alloc: Global, block: BlockId, item: u32, line: &str) -> Option<Item> {
    Some(Item {
        kind: kind(alloc, line)?,
        origin: Origin::Kept(Pos { block, item }),
        loc: Loc::Absent,
    })
}

/// Adds the items of a block as it is read: each is kept at its own place.
fn add_items(alloc: Global, id: BlockId, text: &str, items: &mut Items) -> Option<()> {
    for line in text.lines() {
        if !line.trim().is_empty() {
            let at = u32::try_from(items.len()).ok()?;
            items.push(item(alloc, id, at, line)?).ok()?;
        }
    }
    Some(())
}

/// A block with this number and silent index, or its end where there is none.
fn block(alloc: Global, id: BlockId, text: &str, source_end: Option<u32>) -> Option<Block> {
    let mut items = Items::new(alloc);
    add_items(alloc, id, text, &mut items)?;
    let count = u32::try_from(items.len()).ok()?;
    Some(Block {
        id,
        items,
        source_end: source_end.unwrap_or(count),
    })
}

/// Adds the blocks of a text, whose first line has their numbers.
fn add_blocks(alloc: Global, text: &str, blocks: &mut Blocks) -> Option<()> {
    let (head, text) = text.split_once('\n')?;
    let mut words = head.split_whitespace();
    let first = number(words.next())?;
    let last = number(words.next()).unwrap_or(first);
    let source_end = number(words.next());
    for n in first..last.saturating_add(1) {
        blocks
            .push(block(alloc, BlockId(n), text, source_end)?)
            .ok()?;
    }
    Some(())
}

fn add_slots(words: &mut SplitWhitespace, slots: &mut SlotIds) -> Option<()> {
    let first = number(words.next())?;
    let last = number(words.next())?;
    for n in first..last.saturating_add(1) {
        slots.push(SlotId(n)).ok()?;
    }
    Some(())
}

fn offset(word: Option<&str>) -> Option<i32> {
    word?.parse::<i32>().ok()
}

fn object(words: &mut SplitWhitespace) -> Option<Object> {
    Some(Object {
        id: ObjectId(number(words.next())?),
        size: number(words.next())?,
        align: number(words.next())?,
        offset: u64::from(number(words.next())?),
        local_offset: number(words.next()),
        fixed_offset: offset(words.next()),
    })
}

fn declare(line: &str, slots: &mut SlotIds, objects: &mut Objects) -> Option<()> {
    let mut words = line.split_whitespace();
    match words.next() {
        None => Some(()),
        Some("slots") => add_slots(&mut words, slots),
        Some(_) => objects.push(object(&mut words)?).ok(),
    }
}

/// Declares what lines say.
fn declare_all(lines: &str, slots: &mut SlotIds, objects: &mut Objects) -> Option<()> {
    for line in lines.lines() {
        declare(line, slots, objects)?;
    }
    Some(())
}

/// The blocks of a text from behind its first `bb`.
fn blocks(alloc: Global, text: &str) -> Option<Blocks> {
    let mut blocks = Blocks::new(alloc);
    for part in text.split("bb ") {
        add_blocks(alloc, part, &mut blocks)?;
    }
    Some(blocks)
}

/// The function of a text, or why there is none. None where the text has another form.
pub fn function(alloc: Global, text: &str) -> Option<Result<Func, FuncError>> {
    let (front, rest) = text.split_once("bb ")?;
    let mut slots = SlotIds::new(alloc);
    let mut objects = Objects::new(alloc);
    declare_all(front, &mut slots, &mut objects)?;
    let blocks = blocks(alloc, rest)?;
    Some(Func::new(alloc, List::new(alloc), slots, objects, blocks))
}
