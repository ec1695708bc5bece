//! The tracked entities of a function.

ghost use Rattle.std.specs.Prelude.{◌≡◌, ◌≤◌, ℕ, List, Option, IfOk, IsTrue, OnOk, All, [], false, map, Contains, length, take};
ghost use Rattle.mir_func.specs.declared.debug_substitution.OperandPair.{OperandPair};
ghost use Rattle.mir_func.specs.declared.variable.VarId.{VarId};
ghost use Rattle.mir_func.specs.Resolve.{resolve};
ghost use Rattle.mir_func.specs.Sound.{AllItems};
ghost use Rattle.mir_func.specs.SoundFrame.{HasPhysical};
ghost use Rattle.sem_value_ids.specs.Pullback.{Tracked as Entity};
ghost use Rattle.value_proof.specs.Classes.{KnowsItem, known_past};
ghost use Rattle.value_solver.specs.declared.tracked.Tracked.TheVariants.{Pair, Part, Number};
ghost use Rattle.value_solver.specs.Entry.{thing};
ghost use Rattle.value_tracker.specs.Things.{AreThings};
ghost use Rattle.value_live_ins.specs.Above.{AreAbove};
ghost use Rattle.value_live_ins.specs.Gathering.{IsGathered, Grows, HasOffsets, HasPart, KnowsPassed};
ghost use Rattle.value_live_ins.specs.Gathering.{KnowsPassedItems, KnowsPassedBlocks, KnowsBlocks};
ghost use Rattle.value_live_ins.specs.Gathering.{HasRegister, HasRegistersBelow};
ghost use Rattle.value_live_ins.specs.Gathering.{AppendsOnly, IsRegister, IsPairOf};
ghost use Rattle.value_live_ins.specs.Used.{Names, IsNamedIn, IsNamed, IsUsed};
ghost use Rattle.value_live_ins.specs.Walking.{AreTracked};

use crate::above::NumberedItems;
use crate::gather::TrackedItemSet;
use base_list::List;
use mir_func::block::Block;
use mir_func::debug_substitution::OperandPair;
use mir_func::item::{Item, ItemKind};
use mir_func::variable::VarId;
use mir_substitution::substitutions::Substitutions;
use rv64_instr::reg::physical;
use std::alloc::{AllocError, Global};
use value_solver::tracked::{Tracked, TrackedItems};
use value_tracker::part_list::PartList;

/// Parts of variables.
type Variables = List<VarId>;

/// The tracked entities.
#[derive(Drop)]
pub struct TrackedValues {
    /// The parts of variables that debug values assign.
    pub variables: PartList,
    /// All tracked entities: these parts first.
    pub things: TrackedItems,
}

/// Adds the part of a variable that an item assigns, if it is a debug value.
fn add_part(
    gathered: &mut TrackedItemSet,
    variables: &mut Variables,
    kind: &ItemKind,
) -> Result<(), AllocError>
    requires gathered { IsGathered gathered.old }
    requires parts { gathered.old.things ≡ map Part variables.old }
    ensures gathered { OnOk result (IsGathered gathered.new) }
    ensures parts { OnOk result (gathered.new.things ≡ map Part variables.new) }
    ensures kept { OnOk result ((v : VarId) → Contains variables.old v → Contains variables.new v) }
    ensures has { OnOk result (HasPart variables.new kind.now) }
    ensures only { OnOk result ((ends : OperandPair → Option OperandPair) →
        AppendsOnly (Names ends kind.now) gathered.old.things gathered.new.things) }
{
    match kind {
        ItemKind::Mark(v, _) => {
            if gathered.add(Tracked::Part(*v))? {
                variables.push(*v)?;
            }
            Ok(())
        }
        ItemKind::Code(_, _) => Ok(()),
        ItemKind::Phi(_, _) => Ok(()),
    }
}

/// Adds the parts of variables that the items' debug values assign.
fn add_parts(
    gathered: &mut TrackedItemSet,
    variables: &mut Variables,
    items: &[Item],
) -> Result<(), AllocError>
    requires gathered { IsGathered gathered.old }
    requires parts { gathered.old.things ≡ map Part variables.old }
    ensures gathered { OnOk result (IsGathered gathered.new) }
    ensures parts { OnOk result (gathered.new.things ≡ map Part variables.new) }
    ensures kept { OnOk result ((v : VarId) → Contains variables.old v → Contains variables.new v) }
    ensures has { OnOk result (All (λ i. HasPart variables.new i.kind) items.now) }
    ensures only { OnOk result ((ends : OperandPair → Option OperandPair) →
        AppendsOnly (IsNamedIn ends items.now) gathered.old.things gathered.new.things) }
{
    for item in items {
        add_part(gathered, variables, &item.kind)?;
    }
    Ok(())
}

/// Adds all tracked registers.
fn add_registers(gathered: &mut TrackedItemSet) -> Result<(), AllocError>
    requires gathered { IsGathered gathered.old }
    ensures gathered { OnOk result (IsGathered gathered.new) }
    ensures grows { OnOk result (Grows gathered.old.things gathered.new.things) }
    ensures has { OnOk result (HasRegistersBelow 32 gathered.new.things) }
    ensures only { OnOk result (AppendsOnly IsRegister gathered.old.things gathered.new.things) }
{
    for n in 0..32u32 {
        add_register(gathered, n)?;
    }
    Ok(())
}

/// Adds a register, unless it is x0 or x2.
fn add_register(gathered: &mut TrackedItemSet, n: u32) -> Result<(), AllocError>
    requires gathered { IsGathered gathered.old }
    ensures gathered { OnOk result (IsGathered gathered.new) }
    ensures grows { OnOk result (Grows gathered.old.things gathered.new.things) }
    ensures has { OnOk result (HasRegister n gathered.new.things) }
    ensures only { OnOk result (AppendsOnly IsRegister gathered.old.things gathered.new.things) }
{
    if n == 0 || n == 2 {
        return Ok(());
    }
    match physical(n) {
        None => Ok(()),
        Some(r) => gathered.note_thing(Tracked::Register(r)),
    }
}

/// Adds the entities that an item copies; without `whole` no pair that an item above it in its block defines. The error is
/// out of memory.
fn note_item(
    gathered: &mut TrackedItemSet,
    above: &NumberedItems,
    subs: &Substitutions,
    items: &[Item],
    kind: &ItemKind,
    whole: bool,
) -> Result<(), AllocError>
    requires gathered { IsGathered gathered.old }
    requires offset { HasOffsets kind.now }
    requires physical { HasPhysical kind.now }
    ensures gathered { OnOk result (IsGathered gathered.new) }
    ensures grows { OnOk result (Grows gathered.old.things gathered.new.things) }
    ensures only { OnOk result (AppendsOnly (Names (resolve subs.now) kind.now) gathered.old.things gathered.new.things) }
    ensures knows { OnOk result ((k : ℕ) → AreAbove k above.now →
        KnowsPassed (known_past (map thing gathered.new.things) (take k items.now)) (resolve subs.now) kind.now) }
    ensures whole { OnOk result (IsTrue whole →
        KnowsPassed (map thing gathered.new.things) (resolve subs.now) kind.now) }
{
    if is_left_out(above, subs, items, kind, whole) {
        return Ok(());
    }
    gathered.note(subs, kind)
}

/// Whether what an item copies is left out: without `whole` a pair that an item above defines.
fn is_left_out(
    above: &NumberedItems,
    subs: &Substitutions,
    items: &[Item],
    kind: &ItemKind,
    whole: bool,
) -> bool
    ensures knows { IsTrue result → (k : ℕ) (known : List Entity) → AreAbove k above.now →
        KnowsPassed (known_past known (take k items.now)) (resolve subs.now) kind.now }
    ensures whole { IsTrue result → whole ≡ false }
{
    if whole {
        return false;
    }
    above.define_read(items, subs, kind)
}

/// Adds the entities that the items of a block copy; without `whole` no pairs that items above define.
fn note_items(
    alloc: Global,
    gathered: &mut TrackedItemSet,
    subs: &Substitutions,
    items: &[Item],
    whole: bool,
) -> Result<(), AllocError>
    requires gathered { IsGathered gathered.old }
    requires offsets { All (λ i. HasOffsets i.kind) items.now }
    requires physical { All (λ i. HasPhysical i.kind) items.now }
    ensures gathered { OnOk result (IsGathered gathered.new) }
    ensures grows { OnOk result (Grows gathered.old.things gathered.new.things) }
    ensures knows { OnOk result (KnowsPassedItems (map thing gathered.new.things) (resolve subs.now) items.now) }
    ensures whole { OnOk result (IsTrue whole →
        All (λ i. KnowsPassed (map thing gathered.new.things) (resolve subs.now) i.kind) items.now) }
    ensures only { OnOk result
        (AppendsOnly (IsNamedIn (resolve subs.now) items.now) gathered.old.things gathered.new.things) }
{
    let mut above = NumberedItems::new(alloc);
    for (i, item) in items.iter().enumerate() {
        note_item(gathered, &above, subs, items, &item.kind, whole)?;
        above.add(i, &item.kind)?;
    }
    Ok(())
}

/// The parts of variables that the blocks' debug values assign, chained.
fn parts_of(
    alloc: Global,
    gathered: &mut TrackedItemSet,
    blocks: &[Block],
) -> Result<PartList, AllocError>
    requires gathered { IsGathered gathered.old }
    requires empty { gathered.old.things ≡ [] }
    ensures gathered { OnOk result (IsGathered gathered.new) }
    ensures parts { IfOk result (λ vs. gathered.new.things ≡ map Part vs) }
    ensures has { IfOk result (λ vs. AllItems (λ i. HasPart vs i.kind) blocks.now) }
    ensures only { OnOk result ((ends : OperandPair → Option OperandPair) →
        AppendsOnly (IsNamed ends blocks.now) [] gathered.new.things) }
{
    let variables = gather_parts(alloc, gathered, blocks)?;
    let parts = PartList::new(alloc, variables.into_vec())?;
    Ok(parts)
}

/// The parts of variables that the blocks' debug values assign.
fn gather_parts(
    alloc: Global,
    gathered: &mut TrackedItemSet,
    blocks: &[Block],
) -> Result<Variables, AllocError>
    requires gathered { IsGathered gathered.old }
    requires empty { gathered.old.things ≡ [] }
    ensures gathered { OnOk result (IsGathered gathered.new) }
    ensures parts { IfOk result (λ vs. gathered.new.things ≡ map Part vs) }
    ensures has { IfOk result (λ vs. AllItems (λ i. HasPart vs i.kind) blocks.now) }
    ensures only { OnOk result ((ends : OperandPair → Option OperandPair) →
        AppendsOnly (IsNamed ends blocks.now) [] gathered.new.things) }
{
    let mut variables = Variables::new(alloc);
    for block in blocks {
        add_parts(gathered, &mut variables, block.items.as_slice())?;
    }
    Ok(variables)
}

/// Adds the entities that the items of blocks copy; without `whole` no pairs that items above define in the same block.
fn note_blocks(
    alloc: Global,
    gathered: &mut TrackedItemSet,
    subs: &Substitutions,
    blocks: &[Block],
    whole: bool,
) -> Result<(), AllocError>
    requires gathered { IsGathered gathered.old }
    requires offsets { AllItems (λ i. HasOffsets i.kind) blocks.now }
    requires physical { AllItems (λ i. HasPhysical i.kind) blocks.now }
    ensures gathered { OnOk result (IsGathered gathered.new) }
    ensures grows { OnOk result (Grows gathered.old.things gathered.new.things) }
    ensures knows { OnOk result
        (KnowsPassedBlocks (map thing gathered.new.things) (resolve subs.now) blocks.now) }
    ensures whole { OnOk result (IsTrue whole →
        AllItems (λ i. KnowsPassed (map thing gathered.new.things) (resolve subs.now) i.kind) blocks.now) }
    ensures only { OnOk result
        (AppendsOnly (IsNamed (resolve subs.now) blocks.now) gathered.old.things gathered.new.things) }
{
    for block in blocks {
        note_items(alloc, gathered, subs, block.items.as_slice(), whole)?;
    }
    Ok(())
}

/// Adds the pairs of a caller's queries.
fn note_pairs(gathered: &mut TrackedItemSet, pairs: &[OperandPair]) -> Result<(), AllocError>
    requires gathered { IsGathered gathered.old }
    ensures gathered { OnOk result (IsGathered gathered.new) }
    ensures grows { OnOk result (Grows gathered.old.things gathered.new.things) }
    ensures has { OnOk result (All (λ q. Contains gathered.new.things (Pair q)) pairs.now) }
    ensures only { OnOk result (AppendsOnly (IsPairOf pairs.now) gathered.old.things gathered.new.things) }
{
    for pair in pairs {
        gathered.note_thing(Tracked::Pair(*pair))?;
    }
    Ok(())
}

/// The tracked entities of a function with these blocks, each once: first the parts of variables that its debug values
/// assign, then registers but x0 and x2, the pairs of the caller's queries, and the slots, pairs and constants that its
/// items copy; without `whole` no pairs that items above define in the same block. The error is out of memory.
pub fn things_of(
    alloc: Global,
    blocks: &[Block],
    subs: &Substitutions,
    asked: &[OperandPair],
    whole: bool,
) -> Result<TrackedValues, AllocError>
    requires offsets { AllItems (λ i. HasOffsets i.kind) blocks.now }
    requires physical { AllItems (λ i. HasPhysical i.kind) blocks.now }
    ensures things { IfOk result (λ t. AreThings t.variables t.things) }
    ensures tracked { IfOk result (λ t. AreTracked t.things) }
    ensures fewer { IfOk result (λ t. length t.variables ≤ length t.things) }
    ensures knows { IfOk result (λ t. KnowsBlocks (map thing t.things) (resolve subs.now) blocks.now) }
    ensures whole { IfOk result (λ t. IsTrue whole → AllItems
        (λ i. KnowsItem (map thing t.things) (resolve subs.now) i.kind) blocks.now) }
    ensures asked { IfOk result (λ t. All (λ q. Contains t.things (Pair q)) asked.now) }
    ensures used { IfOk result (λ t. All (IsUsed blocks.now (resolve subs.now) asked.now) t.things) }
{
    let mut gathered = TrackedItemSet::new(alloc);
    let variables = parts_of(alloc, &mut gathered, blocks)?;
    add_registers(&mut gathered)?;
    gathered.note_thing(Tracked::Number(0))?;
    note_pairs(&mut gathered, asked)?;
    note_blocks(alloc, &mut gathered, subs, blocks, whole)?;
    Ok(TrackedValues {
        variables,
        things: gathered.into_things(),
    })
}
