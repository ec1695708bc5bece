//! The computed layout of a function, as lookup tables.

ghost use Rattle.std.specs.Prelude.{◌≡◌, ◌+◌, ◌<◌, ◌^◌, length, slice_index, Some};
ghost use Rattle.std.specs.Prelude.{get_or, IfOk};
ghost use Rattle.emit_code.specs.Counts.{MAX_WORDS, count_of};
ghost use Rattle.emit_code.specs.Rule.{Layout, offset_to, start_of};
ghost use Rattle.emit_code.specs.steps.Plans.{IsPlan, IsPlanOf};
ghost use Rattle.emit_code.specs.declared.span.Span.TheVariants.{Nothing};

use crate::branch_relaxation::{Sums, settle};
use crate::objects::ObjectOffsets;
use crate::span::{Span, Spans, short_spans};
use crate::table::{Table, at};
use base_ids::function_ids::BlockId;
use mir_func::exit::Exit;
use mir_func::framed::Framed;
use std::alloc::{AllocError, Global};

/// The plan of a function: how and at which address each item is encoded.
#[derive(Drop)]
pub struct ItemLayout {
    /// The function's first address.
    pub base: u32,
    /// The number of items before each block.
    pub table: Table,
    /// How each item is encoded, in text order.
    pub spans: Spans,
    /// The bytes before each item, and last the bytes of all.
    pub sums: Sums,
    /// The offsets of stack objects from x2, by number.
    pub objects: ObjectOffsets,
}

impl ItemLayout {
    /// The plan of a function at a first address. The error is out of memory.
    pub fn new(alloc: Global, framed: &Framed, base: u32) -> Result<ItemLayout, AllocError>
        requires blocks { length framed.now.blocks < 2 ^ 32 }
        requires items { count_of framed.now.blocks < MAX_WORDS }
        ensures { IfOk result (IsPlanOf framed.now base) }
    {
        let table = Table::new(alloc, framed.blocks.as_slice())?;
        let mut spans = short_spans(alloc, framed.blocks.as_slice(), &table)?;
        let sums = settle(alloc, &mut spans)?;
        Ok(ItemLayout {
            base,
            table,
            spans,
            sums,
            objects: ObjectOffsets::new(alloc, framed)?,
        })
    }

    /// The span of the item at this index, in text order.
    pub fn span(&self, index: usize) -> Span
        ensures { result ≡ get_or self.now.spans index Nothing }
    {
        match self.spans.as_slice().get(index) {
            Some(span) => *span,
            None => Span::Nothing,
        }
    }

    /// The address of the item at this index, in text order.
    pub fn address(&self, index: usize) -> u64
        ensures value { result ≡ self.now.base + slice_index self.now.sums index }
        ensures low { result < 2 ^ 33 }
    {
        u64::from(self.base) + u64::from(at(self.sums.as_slice(), index))
    }

    /// The address of a block's first item, by the block's number.
    fn start(&self, block: BlockId) -> u64
        ensures value { (l : Layout) → IsPlan l self.now → result ≡ start_of l block }
        ensures low { result < 2 ^ 33 }
    {
        self.address(self.table.first_of(block) as usize)
    }

    /// The offset from an address to the target of a jump or branch, and 0 if there is none.
    pub fn offset(&self, address: u64, exit: Exit) -> i64
        requires { address < 2 ^ 34 }
        ensures { (l : Layout) → IsPlan l self.now → result ≡ offset_to l address exit }
    {
        match exit {
            Exit::Onward | Exit::Final => 0,
            Exit::Perhaps(block) | Exit::Always(block) => self.start(block) as i64 - address as i64,
        }
    }
}
