//! The body of a function as it is read.

ghost use Rattle.std.specs.Prelude.{◌≡◌, ◌≤◌, IfOk, IsNone, OnOk};
ghost use Rattle.rv64_instr.specs.Row.{Row};
ghost use Rattle.rv64_instr.specs.Decoded.{Shows};
ghost use Rattle.read_body.specs.Limits.{MAX_ITEMS as MOST_ITEMS};
ghost use Rattle.read_body.specs.Body.{
  nothing_read,
  label_cause,
  with_label,
  with_closed,
  repeats,
  with_facts,
  with_item,
  with_variable,
  with_number,
  with_constant,
  constant_of,
  object_named,
  with_object,
  exceeds,
  item_cause,
  placed,
  IsCounted,
  refused_cause,
};
ghost use Rattle.rv64_instr.specs.LocationEffects.{object_named as row_object};

use crate::first_use_order::FirstUseOrder;
use crate::limits::{MAX_CONSTANTS, MAX_ITEMS, MAX_NUMBERS, MAX_VARIABLES};
use crate::variables::{Variables, meet};
use base_ids::function_ids::{BlockId, DebugNumber, SlotId};
use base_list::List;
use mir_func::block::{Block, Blocks};
use mir_func::item::{Item, ItemKind};
use mir_func::limits::MAX_BLOCKS;
use mir_func::location::Loc;
use mir_func::position::{Origin, Pos};
use mir_func::variable::MarkValue;
use read_refusal::kind::RefusalKind;
use rv64_instr::decoded::{Base, Decoded};
use std::alloc::{AllocError, Global};

/// The N of each `%stack.N` that lines name, in order.
pub type StackIds = List<SlotId>;

/// The blocks read so far, and the facts by which further lines are judged.
#[derive(Drop)]
pub struct Body {
    /// The blocks before the last.
    pub before: Blocks,
    /// The last block, to which the next item is appended.
    pub last: Option<Block>,
    /// The numbers of the blocks that control doesn't leave, as a line says.
    pub closed: FirstUseOrder,
    /// The stack entries that its items name.
    pub entries: StackIds,
    /// How many items it has.
    pub items: usize,
    /// The numbers of its blocks.
    pub ids: FirstUseOrder,
    /// The debug instruction numbers of its instructions.
    pub codes: FirstUseOrder,
    /// The debug instruction numbers of all its items.
    pub numbers: FirstUseOrder,
    /// The constants of its debug values and of its instructions that set a register to one, as 64 bits.
    pub constants: FirstUseOrder,
    /// The stack entries that its instructions name as stack objects.
    pub objects: FirstUseOrder,
    /// The variables, and fragments of variables, of its debug values.
    pub variables: Variables,
}

/// The constant of an item: of an instruction that sets a register to one, or of a debug value.
fn constant_of(kind: &ItemKind) -> Option<u64>
    ensures { result ≡ constant_of kind.now }
{
    match kind {
        ItemKind::Code(instr, _) => match instr.decoded() {
            Decoded::Fixes(_, n) => Some(n),
            _ => None,
        },
        ItemKind::Mark(_, MarkValue::Constant(n)) => Some(n.cast_unsigned()),
        ItemKind::Mark(_, _) | ItemKind::Phi(_, _) => None,
    }
}

/// The number of the stack object that an instruction names.
fn row_object(decoded: &Decoded) -> Option<u32>
    ensures { (row : Row) → Shows decoded.now row → result ≡ row_object row }
{
    match *decoded {
        Decoded::Addresses(_, n, _) => Some(n.number()),
        Decoded::Loads(_, _, Base::ObjectAt(n), _) => Some(n.number()),
        Decoded::Stores(_, _, Base::ObjectAt(n), _) => Some(n.number()),
        _ => None,
    }
}

/// The number of the stack object that an item names.
fn object_of(kind: &ItemKind) -> Option<u32>
    ensures { result ≡ object_named kind.now }
{
    match kind {
        ItemKind::Code(instr, _) => row_object(&instr.decoded()),
        ItemKind::Mark(_, _) | ItemKind::Phi(_, _) => None,
    }
}

impl Body {
    /// The body before the first line. It takes no memory.
    pub fn new(alloc: Global) -> Body
        ensures { result ≡ nothing_read }
    {
        Body {
            before: List::new(alloc),
            last: None,
            closed: FirstUseOrder::new(alloc),
            entries: List::new(alloc),
            items: 0,
            ids: FirstUseOrder::new(alloc),
            codes: FirstUseOrder::new(alloc),
            numbers: FirstUseOrder::new(alloc),
            constants: FirstUseOrder::new(alloc),
            objects: FirstUseOrder::new(alloc),
            variables: List::new(alloc),
        }
    }

    /// Why no block may begin with this number: `DuplicateBlock` or `TooMany`.
    pub fn label_cause(&self, id: BlockId) -> Option<RefusalKind>
        ensures { result ≡ label_cause self.now id }
    {
        if self.ids.has(u64::from(id.number())) {
            Some(RefusalKind::DuplicateBlock)
        } else if MAX_BLOCKS <= self.ids.len() {
            Some(RefusalKind::TooMany)
        } else {
            None
        }
    }

    /// Begins a block.
    pub fn add_label(&mut self, alloc: Global, id: BlockId) -> Result<(), AllocError>
        ensures { OnOk result (self.new ≡ with_label self.old id) }
    {
        self.ids.meet(u64::from(id.number()))?;
        if let Some(block) = self.last.take() {
            self.before.push(block)?;
        }
        self.last = Some(Block {
            id,
            items: List::new(alloc),
            source_end: 0,
        });
        Ok(())
    }

    /// Records that control doesn't leave the last block, if there is one.
    pub fn close_last(&mut self) -> Result<(), AllocError>
        ensures closed { OnOk result (self.new ≡ with_closed self.old self.old.last) }
        ensures last { OnOk result (self.new.last ≡ self.old.last) }
        ensures items { OnOk result (self.new.items ≡ self.old.items) }
    {
        match &self.last {
            Some(block) => {
                let id = block.id;
                self.closed.meet(u64::from(id.number()))
            }
            None => Ok(()),
        }
    }

    /// Whether the debug instruction number of an item is a duplicate.
    pub fn repeats(&self, kind: &ItemKind) -> bool
        ensures { result ≡ repeats self.now kind.now }
    {
        match kind {
            ItemKind::Code(_, Some(number)) => self.numbers.has(u64::from(number.number())),
            ItemKind::Phi(_, number) => self.codes.has(u64::from(number.number())),
            ItemKind::Code(_, None) | ItemKind::Mark(_, _) => false,
        }
    }

    /// Records the debug instruction number of an item.
    fn meet_number(&mut self, kind: &ItemKind) -> Result<(), AllocError>
        ensures { OnOk result (self.new ≡ with_number self.old kind.now) }
    {
        match kind {
            ItemKind::Code(_, Some(number)) => {
                self.codes.meet(u64::from(number.number()))?;
                self.numbers.meet(u64::from(number.number()))
            }
            ItemKind::Phi(_, number) => self.numbers.meet(u64::from(number.number())),
            ItemKind::Code(_, None) | ItemKind::Mark(_, _) => Ok(()),
        }
    }

    /// Records a constant, if there is one.
    fn meet_constant(&mut self, constant: Option<u64>) -> Result<(), AllocError>
        ensures { OnOk result (self.new ≡ with_constant self.old constant) }
    {
        match constant {
            Some(n) => self.constants.meet(n),
            None => Ok(()),
        }
    }

    /// Records a stack object, if there is one.
    fn meet_object(&mut self, object: Option<u32>) -> Result<(), AllocError>
        ensures { OnOk result (self.new ≡ with_object self.old object) }
    {
        match object {
            Some(n) => self.objects.meet(u64::from(n)),
            None => Ok(()),
        }
    }

    /// Records the variable of a debug value.
    fn meet_variable(&mut self, kind: &ItemKind) -> Result<(), AllocError>
        ensures { OnOk result (self.new ≡ with_variable self.old kind.now) }
    {
        match kind {
            ItemKind::Mark(variable, _) => meet(&mut self.variables, variable),
            ItemKind::Code(_, _) | ItemKind::Phi(_, _) => Ok(()),
        }
    }

    /// Records all facts of an item.
    fn meet_facts(&mut self, kind: &ItemKind) -> Result<(), AllocError>
        ensures { OnOk result (self.new ≡ with_facts self.old kind.now) }
    {
        self.meet_number(kind)?;
        self.meet_constant(constant_of(kind))?;
        self.meet_object(object_of(kind))?;
        self.meet_variable(kind)
    }

    /// Whether a limit is exceeded.
    fn exceeds(&self) -> bool
        ensures { result ≡ exceeds self.now }
    {
        MAX_ITEMS < self.items
            || MAX_VARIABLES < self.variables.len()
            || MAX_NUMBERS < self.numbers.len()
            || MAX_CONSTANTS < self.constants.len()
    }

    /// Appends an item to the last block, with its position there as origin.
    fn place(&mut self, kind: ItemKind, loc: Loc, entries: &[SlotId]) -> Result<(), AllocError>
        requires counted { IsCounted self.old }
        requires few { self.old.items ≤ MOST_ITEMS }
        ensures placed { OnOk result (self.new ≡ placed self.old kind loc entries.now) }
        ensures counted { OnOk result (IsCounted self.new) }
    {
        self.entries.extend_from_slice(entries)?;
        self.items += 1;
        if let Some(mut block) = self.last.take() {
            let origin = Origin::Kept(Pos {
                block: block.id,
                item: block.source_end,
            });
            block.items.push(Item { kind, origin, loc })?;
            block.source_end += 1;
            self.last = Some(block);
        }
        Ok(())
    }

    /// Adds an item, with the stack entries that it names. If a cause is returned, the item can't follow those before
    /// it, and the body must not be used any more.
    pub fn add_item(
        &mut self,
        kind: ItemKind,
        loc: Loc,
        entries: &[SlotId],
    ) -> Result<Option<RefusalKind>, AllocError>
        requires counted { IsCounted self.old }
        requires few { self.old.items ≤ MOST_ITEMS }
        ensures cause { IfOk result (λ cause. cause ≡ item_cause self.old kind loc entries.now) }
        ensures added { IfOk result (λ cause. IsNone cause → self.new ≡ with_item self.old kind loc entries.now) }
        ensures counted { IfOk result (λ cause. IsNone cause → IsCounted self.new) }
        ensures few { IfOk result (λ cause. IsNone cause → self.new.items ≤ MOST_ITEMS) }
    {
        if self.repeats(&kind) {
            return Ok(Some(RefusalKind::DuplicateNumber));
        }
        self.meet_facts(&kind)?;
        self.place(kind, loc, entries)?;
        if self.exceeds() {
            Ok(Some(RefusalKind::TooMany))
        } else {
            Ok(None)
        }
    }

    /// The refusal of a line that is refused by itself for `kind` and may have a debug instruction number.
    pub fn refused_cause(&self, kind: RefusalKind, number: Option<DebugNumber>) -> RefusalKind
        ensures { result ≡ refused_cause self.now kind number }
    {
        match number {
            Some(k) if self.numbers.has(u64::from(k.number())) && 9 < kind.number() => {
                RefusalKind::DuplicateNumber
            }
            _ => kind,
        }
    }
}
