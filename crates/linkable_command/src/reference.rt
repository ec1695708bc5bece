//! The places in the machine code of functions at which a linker fills in addresses.

ghost use Rattle.std.specs.Prelude.{◌≡◌, ◌++◌, Some, IsTrue, OnOk, IfOk};
ghost use Rattle.std.specs.List.{flat_map};
ghost use Rattle.std.specs.Option.{option_copied};
ghost use Rattle.rv64_instr.specs.Form.{fits_call, fits_gone, fits_tail};
ghost use Rattle.rv64_instr.specs.Row.{row_of, call_row, tail_row, gone_row};
ghost use Rattle.sem_machine.specs.Image.{line_of};
ghost use Rattle.listing_meaning.specs.Program.{lines_of};
ghost use Rattle.text_placement.specs.Placed.{site_name};
ghost use Rattle.linkable_command.specs.References.{code_references, line_references, references, references_in};
ghost use Rattle.linkable_command.specs.References.{half_reference, symbol_name};

use base_list::List;
use elf_relocation::kind::RelocationKind;
use listing_text::output::{Line, ListedFunction};
use mir_func::item::{Item, ItemKind};
use rv64_instr::instr::Instr;
use rv64_instr::name::Name;
use rv64_instr::op::Op;
use rv64_instr::operand::Operand;
use rv64_instr::symbol::{LinkedAddress, Symbol};
use rv64_relocation::code::relocation_kind;
use std::alloc::{AllocError, Global};

/// A place at which a linker fills in the address of a name.
#[derive(Debug, Drop)]
pub struct Reference {
    /// The address of its first byte.
    pub address: u32,
    /// How it is filled in.
    pub kind: RelocationKind,
    /// The name. It is empty for a constant of a pool, which has none.
    pub name: Name,
    /// What is added to the name's address, modulo 2^64.
    pub addend: u64,
}

/// References, in the order of their addresses.
pub type References = List<Reference>;

/// The references of functions, in the order of their lines.
pub fn references(alloc: Global, functions: &[ListedFunction]) -> Result<References, AllocError>
    ensures { IfOk result (λ made. made ≡ references functions.now) }
{
    let mut made = References::new(alloc);
    for function in functions {
        push_function(alloc, &mut made, function)?;
    }
    Ok(made)
}

/// Appends the references of a function.
fn push_function(
    alloc: Global,
    made: &mut References,
    function: &ListedFunction,
) -> Result<(), AllocError>
    ensures { OnOk result (made.new ≡ made.old ++ flat_map references_in (lines_of function.now)) }
{
    push_lines(alloc, made, function.prologue.as_slice())?;
    for block in function.blocks.as_slice() {
        push_lines(alloc, made, block.lines.as_slice())?;
    }
    Ok(())
}

/// Appends the references of lines.
fn push_lines(alloc: Global, made: &mut References, lines: &[Line]) -> Result<(), AllocError>
    ensures { OnOk result (made.new ≡ made.old ++ flat_map references_in lines.now) }
{
    for line in lines {
        push_line(alloc, made, line)?;
    }
    Ok(())
}

/// Appends the reference of a line, if it has one. A branch over the next word has none.
fn push_line(alloc: Global, made: &mut References, line: &Line) -> Result<(), AllocError>
    ensures { OnOk result (made.new ≡ made.old ++ references_in line.now) }
{
    match line {
        Line::Item(listed) => match listed.address {
            Some(address) => push_item(alloc, made, address, &listed.item),
            None => Ok(()),
        },
        Line::Skip(_) => Ok(()),
    }
}

/// Appends the reference of an item at an address, if it has one.
fn push_item(
    alloc: Global,
    made: &mut References,
    address: u32,
    item: &Item,
) -> Result<(), AllocError>
    ensures { OnOk result (made.new
        ≡ made.old ++ flat_map line_references (line_of (Some address) item.now.origin item.now.kind)) }
{
    match &item.kind {
        ItemKind::Code(instruction, _) => push_code(alloc, made, address, instruction),
        ItemKind::Mark(_, _) | ItemKind::Phi(_, _) => Ok(()),
    }
}

/// Appends the reference of an instruction at an address, if it has one.
fn push_code(
    alloc: Global,
    made: &mut References,
    address: u32,
    i: &Instr,
) -> Result<(), AllocError>
    ensures { OnOk result (made.new ≡ made.old ++ code_references address (row_of i.now)) }
{
    match relocation_kind(i) {
        Some(kind) => match i.linked_address() {
            Some(linked) => made.push(half_reference(alloc, address, kind, linked)?),
            None => Ok(()),
        },
        None => match site_name(i) {
            Some(name) => {
                let name = name.copy()?;
                made.push(Reference {
                    address,
                    kind: RelocationKind::Call,
                    name,
                    addend: 0,
                })
            }
            None => Ok(()),
        },
    }
}

/// The reference of code that has a half of an address.
fn half_reference(
    alloc: Global,
    address: u32,
    kind: RelocationKind,
    linked: &LinkedAddress,
) -> Result<Reference, AllocError>
    ensures { IfOk result (λ r. r ≡ half_reference address kind linked.now) }
{
    Ok(Reference {
        address,
        kind,
        name: symbol_name(alloc, &linked.symbol)?,
        addend: i64::from(linked.addend).cast_unsigned(),
    })
}

/// The name of a symbol: a constant of a pool has none.
fn symbol_name(alloc: Global, symbol: &Symbol) -> Result<Name, AllocError>
    ensures { IfOk result (λ name. name ≡ symbol_name symbol.now) }
{
    match symbol {
        Symbol::Global(name) => name.copy(),
        Symbol::Constant(_) => Ok(Name::new(alloc)),
    }
}

/// The name of the function to which control goes by its name, and `None` exactly if it goes to none. It takes no
/// memory.
pub fn site_name(i: &Instr) -> Option<&Name>
    ensures { option_copied result ≡ site_name (row_of i.now) }
{
    match i.op {
        Op::PseudoCall => Some(called(i.operands.as_slice())),
        Op::PseudoTail => Some(left_for(i.operands.as_slice())),
        Op::NoReturnCall => Some(gone_to(i.operands.as_slice())),
        _ => None,
    }
}

/// The name of the function that a call with these operands calls.
fn called(operands: &[Operand]) -> &Name
    requires { IsTrue (fits_call operands.now) }
    ensures { site_name (call_row operands.now) ≡ Some result.now }
{
    match operands {
        [Operand::Symbol(name), Operand::Mask, ..] => name,
        _ => unreachable!(),
    }
}

/// The name of the function that a call in tail position with these operands calls.
fn left_for(operands: &[Operand]) -> &Name
    requires { IsTrue (fits_tail operands.now) }
    ensures { site_name (tail_row operands.now) ≡ Some result.now }
{
    match operands {
        [Operand::Symbol(name), ..] => name,
        _ => unreachable!(),
    }
}

/// The name of the function that a call that doesn't return calls.
fn gone_to(operands: &[Operand]) -> &Name
    requires { IsTrue (fits_gone operands.now) }
    ensures { site_name (gone_row operands.now) ≡ Some result.now }
{
    match operands {
        [Operand::Symbol(name), Operand::Mask, ..] => name,
        _ => unreachable!(),
    }
}
