//! The sizes of the numbers of blocks and substitutions.

ghost use Rattle.std.specs.Prelude.{All, IfSome};
ghost use Rattle.rv64_instr.specs.Form.{IsSigned};
ghost use Rattle.mir_printer.specs.Printable.{IsNumber, HasNumbers, HasSymbolNumber, HasAddressNumbers};
ghost use Rattle.mir_printer.specs.Printable.{IsPrintableValue, IsPrintableLoc};
ghost use Rattle.mir_func.specs.Parts.{IsPart};
ghost use Rattle.mir_type_facts.specs.Typed.{IsTypedBlock, IsTypedItem, IsTypedKind, IsTypedCode, IsTypedVariable};
ghost use Rattle.mir_type_facts.specs.Typed.{IsTypedPlace, IsTypedPair, IsTypedEntry};

use base_ids::function_ids::{BlockId, DebugNumber, ObjectId, OperandIndex, SlotId};
use base_ids::metadata::NodeId;
use mir_func::block::Block;
use mir_func::debug_substitution::{DebugSubstitution, OperandPair};
use mir_func::item::{Item, ItemKind};
use mir_func::location::{InlineLoc, Loc};
use mir_func::variable::{Fragment, MarkValue, VarId};
use rv64_instr::instr::Instr;
use rv64_instr::operand::Operand;
use rv64_instr::place::Place;
use rv64_instr::reg::Reg;
use rv64_instr::symbol::{LinkedAddress, Symbol};

/// Code in blocks has the form of its opcode, and all numbers of blocks and in them fit their types.
pub fn blocks_are_typed(blocks: &[Block])
    ensures { All IsTypedBlock blocks.now }
{
    for block in blocks {
        block_is_typed(block);
    }
}

/// All numbers in substitutions fit their types.
pub fn entries_are_typed(entries: &[DebugSubstitution])
    ensures { All IsTypedEntry entries.now }
{
    for entry in entries {
        entry_is_typed(entry);
    }
}

fn entry_is_typed(entry: &DebugSubstitution)
    ensures { IsTypedEntry entry.now }
{
    pair_is_typed(&entry.src);
    pair_is_typed(&entry.dst);
    plain_number(entry.subreg);
}

fn block_is_typed(block: &Block)
    ensures { IsTypedBlock block.now }
{
    block_number(block.id);
    plain_number(block.source_end);
    items_are_typed(block.items.as_slice());
}

fn items_are_typed(items: &[Item])
    ensures { All IsTypedItem items.now }
{
    for item in items {
        item_is_typed(item);
    }
}

fn item_is_typed(item: &Item)
    ensures { IsTypedItem item.now }
{
    kind_is_typed(&item.kind);
    loc_is_typed(&item.loc);
}

fn kind_is_typed(kind: &ItemKind)
    ensures { IsTypedKind kind.now }
{
    match kind {
        ItemKind::Code(code, number) => {
            code_is_typed(code);
            may_be_number(number);
        }
        ItemKind::Mark(variable, value) => {
            variable_is_typed(variable);
            value_is_typed(value);
        }
        ItemKind::Phi(place, number) => {
            place_is_typed(place);
            debug_number(*number);
        }
    }
}

fn code_is_typed(code: &Instr)
    ensures { IsTypedCode code.now }
{
    let _ = &code.op;
    operands_are_typed(code.operands.as_slice());
}

fn operands_are_typed(operands: &[Operand])
    ensures { All HasNumbers operands.now }
{
    for operand in operands {
        operand_is_typed(operand);
    }
}

fn operand_is_typed(operand: &Operand)
    ensures { HasNumbers operand.now }
{
    match operand {
        Operand::Def(r) | Operand::Use(r) | Operand::ImplicitDef(r) | Operand::ImplicitUse(r) =>
            register(*r),
        Operand::Imm(i) => signed(*i),
        Operand::Slot(n) | Operand::Outgoing(n) => slot(*n),
        Operand::Object(n) => object(*n),
        Operand::Part(_, address) => address_is_typed(address),
        Operand::Block(n) => block_number(*n),
        Operand::Symbol(_) | Operand::GlobalRegisters | Operand::Mask => {}
    }
}

fn address_is_typed(address: &LinkedAddress)
    ensures { HasAddressNumbers address.now }
{
    symbol_is_typed(&address.symbol);
    addend(address.addend);
}

fn symbol_is_typed(symbol: &Symbol)
    ensures { HasSymbolNumber symbol.now }
{
    match symbol {
        Symbol::Global(_) => {}
        Symbol::Constant(n) => plain_number(*n),
    }
}

fn may_be_number(number: &Option<DebugNumber>)
    ensures { IfSome number.now IsNumber }
{
    if let Some(n) = number {
        debug_number(*n);
    }
}

fn variable_is_typed(variable: &VarId)
    ensures { IsTypedVariable variable.now }
{
    node(variable.node);
    if let Some(fragment) = &variable.fragment {
        part(*fragment);
    }
}

fn value_is_typed(value: &MarkValue)
    ensures { IsPrintableValue value.now }
{
    match value {
        MarkValue::Nothing => {}
        MarkValue::Constant(i) => signed(*i),
        MarkValue::At(r) => register(*r),
        MarkValue::Pair(pair) => pair_is_typed(pair),
    }
}

fn pair_is_typed(pair: &OperandPair)
    ensures { IsTypedPair pair.now }
{
    debug_number(pair.number);
    operand_index(pair.operand);
}

fn place_is_typed(place: &Option<Place>)
    ensures { IfSome place.now IsTypedPlace }
{
    match place {
        Some(Place::Register(r)) => register(*r),
        Some(Place::Slot(n)) => slot(*n),
        Some(Place::Const(_)) | None => {}
    }
}

fn loc_is_typed(loc: &Loc)
    ensures { IsPrintableLoc loc.now }
{
    match loc {
        Loc::Absent => {}
        Loc::Node(n) => node(*n),
        Loc::Inline(inline) => inline_is_typed(inline),
    }
}

fn inline_is_typed(inline: &InlineLoc)
    ensures line { IsNumber inline.now.line }
    ensures column { IsNumber inline.now.column }
    ensures scope { IsNumber inline.now.scope }
    ensures inlined { IfSome inline.now.inlined_at IsNumber }
{
    plain_number(inline.line);
    plain_number(inline.column);
    node(inline.scope);
    if let Some(n) = &inline.inlined_at {
        node(*n);
    }
}

// ---- numbers

fn plain_number(_n: u32)
    ensures { IsNumber _n }
{}

fn signed(_i: i64)
    ensures { IsSigned _i }
{}

fn addend(_n: i32)
    ensures { IsSigned _n }
{}

fn register(r: Reg)
    ensures { IsNumber r }
{
    plain_number(r.number());
}

fn part(_f: Fragment)
    ensures { IsPart _f }
{}

fn block_number(n: BlockId)
    ensures { IsNumber n }
{
    plain_number(n.number());
}

fn slot(n: SlotId)
    ensures { IsNumber n }
{
    plain_number(n.number());
}

fn object(n: ObjectId)
    ensures { IsNumber n }
{
    plain_number(n.number());
}

fn debug_number(n: DebugNumber)
    ensures { IsNumber n }
{
    plain_number(n.number());
}

fn operand_index(n: OperandIndex)
    ensures { IsNumber n }
{
    plain_number(n.number());
}

fn node(n: NodeId)
    ensures { IsNumber n }
{
    plain_number(n.number());
}
