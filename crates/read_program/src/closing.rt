//! The function of a document, checked at the line that closes it.

ghost use Rattle.std.specs.Prelude.{◌≡◌, IfOk, IfSome, IsNone, Ok, OnOk};
ghost use Rattle.read_metadata.specs.Maps.{Maps};
ghost use Rattle.read_documents.specs.declared.parts.FunctionDocument.{FunctionDocument};
ghost use Rattle.mir_func.specs.Sound.{IsSound};
ghost use Rattle.read_body.specs.read_declarations.Declarations.{declarations_of};
ghost use Rattle.read_body.specs.Body.{and_last};
ghost use Rattle.read_program.specs.BodyLines.{body_of};
ghost use Rattle.read_program.specs.Closing.{AreEntries, entry_ids, fixed_behind, known_ids, all_objects};
ghost use Rattle.read_program.specs.Closing.{parts_of, Closes};
ghost use Rattle.mir_pool.specs.Pool.{constant_ids};
ghost use Rattle.read_program.specs.Pool.{are_known};

use crate::error::ParseError;
use crate::objects::{blocks_as, blocks_stay};
use crate::pool::are_known;
use base_list::List;
use mir_exposure::exposure::Exposure;
use mir_func::block::{Block, Blocks};
use mir_func::func::{Func, FuncError, SlotIds};
use mir_func::object::Objects;
use mir_pool::constant::Pool;
use read_body::body::Body;
use read_body::closing::{all_met, blocks_go_to};
use read_body::first_use_order::FirstUseOrder;
use read_body::fixed_objects::push_fixed;
use read_body::mir_substitution_crate::substitutions::Substitutions;
use read_body::read_declarations_crate::declarations::Declarations;
use read_body::read_declarations_crate::fixed::FixedEntry;
use read_body::read_declarations_crate::stack::StackEntry;
use read_body::stack_entry_kind::{object_ids, objects, slots};
use read_refusal::first::Refusal;
use read_refusal::kind::RefusalKind;
use rv64_instr::name::Name;
use std::alloc::{AllocError, Global};

/// A function that was read, with its debug value substitutions, the constants of its pool and what it exposes.
#[derive(Drop)]
pub struct Parsed {
    /// The function.
    pub func: Func,
    /// Its substitutions.
    pub subs: Substitutions,
    /// The constants of its pool, in declared order: none but in the linked language.
    pub pool: Pool,
    /// What it exposes to other code.
    pub exposure: Exposure,
}

/// The parts of a function but its name.
#[derive(Drop)]
pub struct Parts {
    pub slots: SlotIds,
    pub objects: Objects,
    pub blocks: Blocks,
}

/// The set of the numbers of these stack entries.
fn entry_ids(alloc: Global, entries: &[StackEntry]) -> Result<FirstUseOrder, AllocError>
    ensures { IfOk result (λ ids. ids ≡ entry_ids entries.now) }
{
    let mut ids = FirstUseOrder::new(alloc);
    for entry in entries {
        ids.meet(u64::from(entry.id.number()))?;
    }
    Ok(ids)
}

/// Adds the numbers of fixed objects to a set.
fn meet_fixed(ids: &mut FirstUseOrder, fixed: &[FixedEntry]) -> Result<(), AllocError>
    ensures { OnOk result (ids.new ≡ fixed_behind ids.old fixed.now) }
{
    for entry in fixed {
        ids.meet(u64::from(entry.id.number()))?;
    }
    Ok(())
}

/// The set of the numbers of the stack entries and fixed objects of a document.
fn known_ids(alloc: Global, declared: &Declarations) -> Result<FirstUseOrder, AllocError>
    ensures { IfOk result (λ ids. ids ≡ known_ids declared.now) }
{
    let mut ids = entry_ids(alloc, declared.stack.as_slice())?;
    meet_fixed(&mut ids, declared.fixed.as_slice())?;
    Ok(ids)
}

/// The objects of a function: those among its stack entries, where `named` are the entries that code names as objects,
/// and its fixed objects.
fn all_objects(
    alloc: Global,
    named: &FirstUseOrder,
    entries: &[StackEntry],
    fixed: &[FixedEntry],
) -> Result<Objects, AllocError>
    requires { AreEntries entries.now }
    ensures { IfOk result (λ all. all ≡ all_objects named.now entries.now fixed.now) }
{
    let laid = objects(alloc, named, entries)?;
    let mut all = laid.objects;
    push_fixed(&mut all, fixed)?;
    Ok(all)
}

/// Blocks with one more, if there is one.
fn and_last(mut before: Blocks, last: Option<Block>) -> Result<Blocks, AllocError>
    ensures { IfOk result (λ blocks. blocks ≡ and_last before last) }
{
    if let Some(block) = last {
        before.push(block)?;
    }
    Ok(before)
}

/// The parts of a function with these stack entries, fixed objects and blocks, where `named` are the entries that code
/// names as objects. `None` if an access is outside its object.
fn parts_of(
    alloc: Global,
    linked: bool,
    named: &FirstUseOrder,
    entries: &[StackEntry],
    fixed: &[FixedEntry],
    blocks: &[Block],
) -> Result<Option<Parts>, AllocError>
    requires { AreEntries entries.now }
    ensures { IfOk result (λ parts. parts ≡ parts_of linked named.now entries.now fixed.now blocks.now) }
{
    let objects = all_objects(alloc, named, entries, fixed)?;
    let ids = object_ids(alloc, named, entries)?;
    let blocks = blocks_as(alloc, &ids, blocks)?;
    if !blocks_stay(linked, objects.as_slice(), blocks.as_slice()) {
        return Ok(None);
    }
    let slots = slots(alloc, named, entries)?;
    Ok(Some(Parts {
        slots,
        objects,
        blocks,
    }))
}

/// Whether each constant of the pool that code names is declared.
fn has_constants(
    alloc: Global,
    declared: &Declarations,
    blocks: &Blocks,
) -> Result<bool, AllocError>
    ensures { IfOk result (λ known. known ≡ are_known (constant_ids declared.now.pool) blocks.now) }
{
    are_known(alloc, declared.pool.as_slice(), blocks.as_slice())
}

/// The refusal of the closing line.
fn refused(line: u32, kind: RefusalKind) -> ParseError
    ensures { result ≡ ParseError.Refused (record { line = line; kind = kind }) }
{
    ParseError::Refused(Refusal { line, kind })
}

/// The function with this name and these parts; `None` if it isn't well formed.
fn function(alloc: Global, name: Name, parts: Parts) -> Result<Option<Func>, AllocError>
    ensures some { IfOk result (λ func. IfSome func (λ f. f ≡ record {
      name = name;
      slots = parts.slots;
      objects = parts.objects;
      blocks = parts.blocks;
    })) }
    ensures sound { IfOk result (λ func. IfSome func (λ f. IsSound f)) }
    ensures none { IfOk result (λ func. IsNone func → IsSound (record {
      name = name;
      slots = parts.slots;
      objects = parts.objects;
      blocks = parts.blocks;
    }) → ⊥) }
{
    match Func::new(alloc, name, parts.slots, parts.objects, parts.blocks) {
        Ok(func) => {
            let _ = &func.blocks;
            Ok(Some(func))
        }
        Err(FuncError::Unsound) => Ok(None),
        Err(FuncError::Memory) => Err(AllocError),
    }
}

/// The function with these declarations and this body, in this language, which close at a line. It may be refused there as
/// `UnknownBlock`, `StackObject` or `BlockEnd`.
pub fn close(
    alloc: Global,
    linked: bool,
    line: u32,
    declared: Declarations,
    body: Body,
) -> Result<Parsed, ParseError>
    requires { AreEntries declared.stack }
    ensures { (meta : Maps) (doc : FunctionDocument) →
        declarations_of doc ≡ Ok declared → body_of linked meta doc.body ≡ Ok body → Closes linked line declared body result }
{
    let Body {
        before,
        last,
        closed: _,
        entries,
        items: _,
        ids,
        codes: _,
        numbers: _,
        constants: _,
        objects,
        variables: _,
    } = body;
    let blocks = and_last(before, last)?;
    if !blocks_go_to(&ids, blocks.as_slice()) {
        return Err(refused(line, RefusalKind::UnknownBlock));
    }
    let known = known_ids(alloc, &declared)?;
    if !all_met(&known, entries.as_slice()) {
        return Err(refused(line, RefusalKind::StackObject));
    }
    let are_declared = has_constants(alloc, &declared, &blocks)?;
    if !are_declared {
        return Err(refused(line, RefusalKind::StackObject));
    }
    let Some(parts) = parts_of(
        alloc,
        linked,
        &objects,
        declared.stack.as_slice(),
        declared.fixed.as_slice(),
        blocks.as_slice(),
    )?
    else {
        return Err(refused(line, RefusalKind::StackObject));
    };
    match function(alloc, declared.name, parts)? {
        Some(func) => Ok(Parsed {
            func,
            subs: declared.substitutions,
            pool: declared.pool,
            exposure: declared.exposure,
        }),
        None => Err(refused(line, RefusalKind::BlockEnd)),
    }
}
