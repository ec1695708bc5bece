//! The listing of a function.

ghost use Rattle.std.specs.Prelude.{◌≡◌, ℕ, ◌+◌, ◌*◌, ◌<◌, ◌^◌, ◌∷◌, ◌++◌, All, length, map, drop, IfOk, OnOk};
ghost use Rattle.std.specs.List.{flat_map};
ghost use Rattle.emit_code.specs.Rule.{Layout, entries_at, sites_from};
ghost use Rattle.mir_func.specs.Sound.{AllItems};
ghost use Rattle.listing_meaning.specs.Listing.{listing_of, prologue_listed, body_listed, blocks_listed};
ghost use Rattle.listing_meaning.specs.Listing.{place_listed, object_listed};
ghost use Rattle.listing_function.specs.Laid.{IsLaid};
ghost use Rattle.listing_function.specs.steps.Entries.{IsLow, IsSource, IsPlaced};

use crate::lines::push_items;
use crate::variables::ListedVariables;
use base_list::List;
use emit_code::code::{Code, EncodedInstruction as Laid};
use emit_code::objects::ObjectOffsets;
use listing_text::output::{Lines, ListedBlock, ListedFunction, ListedObject, ObjectPlace};
use mir_func::block::Block;
use mir_func::debug_substitution::DebugSubstitution;
use mir_func::framed::Framed;
use mir_func::object::Object;
use std::alloc::{AllocError, Global};

/// Substitutions of debug instruction numbers, in the order in which they were added.
pub type ListedSubstitutions = List<DebugSubstitution>;

/// The lines of a function's code.
#[derive(Drop)]
struct CodeLines {
    /// Those of the code before its first block.
    prologue: Lines,
    /// Its blocks.
    blocks: List<ListedBlock>,
}

/// The listing of a function that is laid out below 2^32, with its variables and its debug value substitutions. The
/// time is O(n log n) in the number of items.
pub fn listing(
    alloc: Global,
    code: &Code,
    variables: ListedVariables,
    substitutions: ListedSubstitutions,
) -> Result<ListedFunction, AllocError>
    requires low { code.now.base + 4 * length code.now.words < 2 ^ 32 }
    ensures { (l : Layout) → IsLaid l code.now →
        IfOk result (λ f. f ≡ listing_of l variables substitutions) }
{
    let framed = &code.framed;
    let offsets = ObjectOffsets::new(alloc, framed)?;
    let lines = code_lines(
        alloc,
        code.entries.as_slice(),
        &offsets,
        framed.blocks.as_slice(),
    )?;
    let low = code.base as u32;
    Ok(ListedFunction {
        name: framed.name.copy()?,
        low,
        high: low + 4 * code.words.len() as u32,
        objects: objects(alloc, framed)?,
        variables,
        substitutions,
        prologue: lines.prologue,
        blocks: lines.blocks,
    })
}

/// The lines of the blocks of a function. The first block is the prologue.
fn code_lines(
    alloc: Global,
    entries: &[Laid],
    offsets: &ObjectOffsets,
    blocks: &[Block],
) -> Result<CodeLines, AllocError>
    requires { All IsLow entries.now }
    ensures { (l : Layout) → IsSource l offsets.now → AllItems (λ i. IsPlaced l.framed i.kind) blocks.now →
        entries.now ≡ flat_map (entries_at l) (sites_from 0 blocks.now) →
        IfOk result (λ lines. (lines.prologue ≡ prologue_listed l blocks.now) ×
        (lines.blocks ≡ body_listed l blocks.now)) }
{
    match blocks {
        [] => Ok(CodeLines {
            prologue: Lines::new(alloc),
            blocks: List::new(alloc),
        }),
        [prologue, body @ ..] => block_lines(alloc, entries, offsets, prologue, body),
    }
}

fn block_lines(
    alloc: Global,
    entries: &[Laid],
    offsets: &ObjectOffsets,
    first: &Block,
    body: &[Block],
) -> Result<CodeLines, AllocError>
    requires { All IsLow entries.now }
    ensures { (l : Layout) → IsSource l offsets.now → AllItems (λ i. IsPlaced l.framed i.kind) (first.now ∷ body.now) →
        entries.now ≡ flat_map (entries_at l) (sites_from 0 (first.now ∷ body.now)) →
        IfOk result (λ lines. (lines.prologue ≡ prologue_listed l (first.now ∷ body.now)) ×
        (lines.blocks ≡ body_listed l (first.now ∷ body.now))) }
{
    let mut prologue = Lines::new(alloc);
    let mut blocks = List::new(alloc);
    let items = first.items.as_slice();
    let at = push_items(alloc, &mut prologue, entries, offsets, 0, items)?;
    push_blocks(alloc, &mut blocks, entries, offsets, at, body)?;
    Ok(CodeLines { prologue, blocks })
}

/// Appends blocks whose entries begin at index `start`.
fn push_blocks(
    alloc: Global,
    listed: &mut List<ListedBlock>,
    entries: &[Laid],
    offsets: &ObjectOffsets,
    start: usize,
    blocks: &[Block],
) -> Result<(), AllocError>
    requires { All IsLow entries.now }
    ensures { (l : Layout) (b : ℕ) → IsSource l offsets.now → AllItems (λ i. IsPlaced l.framed i.kind) blocks.now →
        drop start entries.now ≡ flat_map (entries_at l) (sites_from b blocks.now) →
        OnOk result (listed.new ≡ listed.old ++ blocks_listed l b blocks.now) }
{
    let mut at = start;
    for block in blocks {
        let mut lines = Lines::new(alloc);
        at = push_items(
            alloc,
            &mut lines,
            entries,
            offsets,
            at,
            block.items.as_slice(),
        )?;
        listed.push(ListedBlock {
            id: block.id,
            lines,
        })?;
    }
    Ok(())
}

/// The stack objects of a function.
fn objects(alloc: Global, framed: &Framed) -> Result<List<ListedObject>, AllocError>
    ensures { IfOk result (λ made. made ≡ map object_listed framed.now.objects) }
{
    listed_objects(alloc, framed.objects.as_slice())
}

fn listed_objects(alloc: Global, objects: &[Object]) -> Result<List<ListedObject>, AllocError>
    requires { All (λ o. o.offset < 2 ^ 32) objects.now }
    ensures { IfOk result (λ made. made ≡ map object_listed objects.now) }
{
    let mut listed = List::new(alloc);
    for o in objects {
        listed.push(object(o))?;
    }
    Ok(listed)
}

fn object(o: &Object) -> ListedObject
    requires { o.now.offset < 2 ^ 32 }
    ensures { result ≡ object_listed o.now }
{
    ListedObject {
        id: o.id,
        size: o.size,
        place: place(o.offset as u32, o.fixed_offset),
    }
}

/// The place of an object at this offset.
fn place(offset: u32, fixed: Option<i32>) -> ObjectPlace
    ensures { result ≡ place_listed offset fixed }
{
    match fixed {
        Some(distance) => ObjectPlace::FromEntry(distance),
        None => ObjectPlace::InArea(offset),
    }
}
