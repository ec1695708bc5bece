//! The call sites in the machine code of functions.

ghost use Rattle.std.specs.Prelude.{◌≡◌, ◌++◌, ◌∷◌, [], ℕ, IsTrue, Some, OnOk, IfOk};
ghost use Rattle.std.specs.List.{flat_map};
ghost use Rattle.rv64_instr.specs.Form.{fits_call, fits_gone, fits_tail};
ghost use Rattle.rv64_instr.specs.Row.{row_of, call_row, tail_row, gone_row};
ghost use Rattle.sem_machine.specs.Image.{line_of};
ghost use Rattle.listing_meaning.specs.Program.{lines_of};
ghost use Rattle.object_command.specs.Calls.{callee_of, site_at, site_of, sites_in, call_sites};

use base_list::List;
use listing_text::output::{Line, ListedFunction};
use mir_func::item::{Item, ItemKind};
use rv64_instr::instr::Instr;
use rv64_instr::name::Name;
use rv64_instr::op::Op;
use rv64_instr::operand::Operand;
use std::alloc::{AllocError, Global};

/// A call site.
#[derive(Debug, Drop)]
pub struct CallSite {
    /// The address of its first byte.
    pub address: u32,
    /// The name of the function that it calls.
    pub name: Name,
}

/// Call sites, in the order of their addresses.
pub type CallSites = List<CallSite>;

/// The call sites of functions, in the order of their lines.
pub fn call_sites(alloc: Global, functions: &[ListedFunction]) -> Result<CallSites, AllocError>
    ensures { IfOk result (λ sites. sites ≡ call_sites functions.now) }
{
    let mut sites = CallSites::new(alloc);
    for function in functions {
        push_function(&mut sites, function)?;
    }
    Ok(sites)
}

/// Appends the call sites of a function.
fn push_function(sites: &mut CallSites, function: &ListedFunction) -> Result<(), AllocError>
    ensures { OnOk result (sites.new ≡ sites.old ++ flat_map sites_in (lines_of function.now)) }
{
    push_lines(sites, function.prologue.as_slice())?;
    for block in function.blocks.as_slice() {
        push_lines(sites, block.lines.as_slice())?;
    }
    Ok(())
}

/// Appends the call sites of lines.
fn push_lines(sites: &mut CallSites, lines: &[Line]) -> Result<(), AllocError>
    ensures { OnOk result (sites.new ≡ sites.old ++ flat_map sites_in lines.now) }
{
    for line in lines {
        push_line(sites, line)?;
    }
    Ok(())
}

/// Appends the call site of a line, if it has one.
fn push_line(sites: &mut CallSites, line: &Line) -> Result<(), AllocError>
    ensures { OnOk result (sites.new ≡ sites.old ++ sites_in line.now) }
{
    match line {
        Line::Item(listed) => match listed.address {
            Some(address) => push_item(sites, address, &listed.item),
            None => Ok(()),
        },
        Line::Skip(_) => Ok(()),
    }
}

/// Appends the call site of an item at an address, if it names a callee.
fn push_item(sites: &mut CallSites, address: u32, item: &Item) -> Result<(), AllocError>
    ensures { OnOk result (sites.new
        ≡ sites.old ++ flat_map site_of (line_of (Some address) item.now.origin item.now.kind)) }
{
    match &item.kind {
        ItemKind::Code(instruction, _) => push_call(sites, address, instruction),
        ItemKind::Mark(_, _) | ItemKind::Phi(_, _) => Ok(()),
    }
}

/// Appends the call site of an instruction at an address, if it names a callee.
fn push_call(sites: &mut CallSites, address: u32, instruction: &Instr) -> Result<(), AllocError>
    ensures { OnOk result (sites.new ≡ sites.old ++ site_at address (callee_of (row_of instruction.now))) }
{
    match instruction.op {
        Op::PseudoCall => {
            let name = called(instruction.operands.as_slice()).copy()?;
            sites.push(CallSite { address, name })
        }
        Op::PseudoTail => {
            let name = left_for(instruction.operands.as_slice()).copy()?;
            sites.push(CallSite { address, name })
        }
        Op::NoReturnCall => {
            let name = gone_to(instruction.operands.as_slice()).copy()?;
            sites.push(CallSite { address, name })
        }
        _ => Ok(()),
    }
}

/// The name of the function that a call in tail position with these operands calls.
fn left_for(operands: &[Operand]) -> &Name
    requires { IsTrue (fits_tail operands.now) }
    ensures { (address : ℕ) → site_at address (callee_of (tail_row operands.now))
        ≡ record { address = address; name = result.now } ∷ [] }
{
    match operands {
        [Operand::Symbol(name), ..] => name,
        _ => unreachable!(),
    }
}

/// The name of the function that a call that doesn't return calls.
fn gone_to(operands: &[Operand]) -> &Name
    requires { IsTrue (fits_gone operands.now) }
    ensures { (address : ℕ) → site_at address (callee_of (gone_row operands.now))
        ≡ record { address = address; name = result.now } ∷ [] }
{
    match operands {
        [Operand::Symbol(name), Operand::Mask, ..] => name,
        _ => unreachable!(),
    }
}

/// The name of the function that a call with these operands calls.
fn called(operands: &[Operand]) -> &Name
    requires { IsTrue (fits_call operands.now) }
    ensures { (address : ℕ) → site_at address (callee_of (call_row operands.now))
        ≡ record { address = address; name = result.now } ∷ [] }
{
    match operands {
        [Operand::Symbol(name), Operand::Mask, ..] => name,
        _ => unreachable!(),
    }
}
