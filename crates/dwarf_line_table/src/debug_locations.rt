//! The debug locations of positions.

ghost use Rattle.std.specs.Prelude.{◌≡◌, List, IfOk};
ghost use Rattle.mir_func.specs.declared.block.Block.{Block};
ghost use Rattle.mir_func.specs.Positions.{position_of};
ghost use Rattle.dwarf_line_table.specs.SourcePosition.{loc_if_code, loc_of};
ghost use Rattle.dwarf_line_table.specs.steps.DebugLocations.{AreLocs, AreDebugLocations, loc_at};

use mir_func::block::Block;
use mir_func::item::{Item, ItemKind};
use mir_func::location::Loc;
use mir_func::position::{Origin, Pos};
use std::alloc::{AllocError, Global};
use std::collections::BTreeMap;

/// The debug locations of the positions of a function: for each position that of the first code at or after it in its
/// block.
#[derive(Drop)]
pub struct DebugLocations {
    /// By the block's number, and then by the index of the item.
    pub table: BTreeMap<u32, Vec<Loc>>,
}

impl DebugLocations {
    /// The debug locations of the positions of blocks. The error is out of memory.
    pub fn new(alloc: Global, blocks: &[Block]) -> Result<DebugLocations, AllocError>
        ensures { IfOk result (AreDebugLocations blocks.now) }
    {
        let mut places = BTreeMap::new(alloc);
        let mut index = blocks.len();
        while index > 0 {
            index -= 1;
            let locs = locs(alloc, blocks[index].items.as_slice())?;
            drop(places.insert(blocks[index].id.number(), locs)?);
        }
        Ok(DebugLocations { table: places })
    }

    /// The debug location of an origin's position.
    pub fn loc(&self, origin: &Origin) -> Loc
        ensures { (blocks : List Block) → AreDebugLocations blocks self.now →
            result ≡ loc_of blocks (position_of origin.now) }
    {
        match *origin {
            Origin::Kept(position) | Origin::Before(position) => self.at(&position),
        }
    }

    /// The debug location of a position.
    fn at(&self, position: &Pos) -> Loc
        ensures { (blocks : List Block) → AreDebugLocations blocks self.now → result ≡ loc_of blocks position.now }
    {
        match self.table.get(&position.block.number()) {
            Some(locs) => loc_at(locs.as_slice(), position.item as usize),
            None => Loc::Absent,
        }
    }
}

/// The debug location at an index.
fn loc_at(locs: &[Loc], index: usize) -> Loc
    ensures { result ≡ loc_at locs.now index }
{
    match locs.get(index) {
        Some(loc) => *loc,
        None => Loc::Absent,
    }
}

/// The debug location of the first code at or after each index.
fn locs(alloc: Global, items: &[Item]) -> Result<Vec<Loc>, AllocError>
    ensures { IfOk result (λ locs. AreLocs items.now locs.items) }
{
    let mut locs = vec![in alloc; Loc::Absent; items.len() + 1]?;
    let mut index = items.len();
    while index > 0 {
        index -= 1;
        locs[index] = loc_if_code(&items[index], locs[index + 1]);
    }
    Ok(locs)
}

/// The debug location of an item that is code, or else the given one.
fn loc_if_code(item: &Item, others: Loc) -> Loc
    ensures { result ≡ loc_if_code item.now.kind item.now.loc others }
{
    match &item.kind {
        ItemKind::Code(_, _) => item.loc,
        ItemKind::Mark(_, _) | ItemKind::Phi(_, _) => others,
    }
}
