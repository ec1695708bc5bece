//! How each item of a function is encoded.

ghost use Rattle.std.specs.Prelude.{◌≡◌, ◌++◌, List, false, map, OnOk, IfOk};
ghost use Rattle.rv64_instr.specs.Row.{Row};
ghost use Rattle.rv64_instr.specs.Decoded.{Shows};
ghost use Rattle.mir_func.specs.declared.block.Block.{Block};
ghost use Rattle.emit_code.specs.steps.Places.{IsTableOf};
ghost use Rattle.emit_code.specs.steps.Spans.{span_size, row_span, span_of, spans_of};

use crate::table::Table;
use base_list::List;
use mir_func::block::Block;
use mir_func::item::{Item, ItemKind};
use rv64_instr::decoded::Decoded;
use std::alloc::{AllocError, Global};

/// How an item is encoded.
#[derive(Clone, Copy, Debug, PartialEq, Eq)]
pub enum Span {
    /// No word: a debug value or DBG_PHI.
    Nothing,
    /// One word: an instruction that names no callee and is no conditional branch.
    OneWord,
    /// The two words by which control goes to a function of a name.
    CallSite,
    /// A short conditional branch: one word. The number is that of items before its target.
    Short(u32),
    /// A long conditional branch: two words. The number is that of items before its target.
    Long(u32),
}

/// The spans of the items of a function, in text order.
pub type Spans = List<Span>;

impl Span {
    /// The bytes of the span.
    pub fn size(self) -> u32
        ensures { result ≡ span_size self }
    {
        match self {
            Span::Nothing => 0,
            Span::OneWord | Span::Short(_) => 4,
            Span::CallSite | Span::Long(_) => 8,
        }
    }

    /// The span of an item, with a conditional branch short.
    fn new(kind: &ItemKind, table: &Table) -> Span
        ensures { (blocks : List Block) → IsTableOf blocks table.now → result ≡ span_of blocks false kind.now }
    {
        match kind {
            ItemKind::Code(i, _) => Span::of_code(&i.decoded(), table),
            ItemKind::Mark(_, _) | ItemKind::Phi(_, _) => Span::Nothing,
        }
    }

    fn of_code(decoded: &Decoded, table: &Table) -> Span
        ensures { (blocks : List Block) (row : Row) → IsTableOf blocks table.now → Shows decoded.now row →
            result ≡ row_span blocks false row }
    {
        match *decoded {
            Decoded::Branches(_, _, _, target) => Span::Short(table.first_of(target)),
            Decoded::Calls(_) | Decoded::Returns(_) => {
                if decoded.has_site() {
                    Span::CallSite
                } else {
                    Span::OneWord
                }
            }
            Decoded::Jumps(_)
            | Decoded::Sets(_, _, _, _)
            | Decoded::Fixes(_, _)
            | Decoded::Moves(_, _)
            | Decoded::Addresses(_, _, _)
            | Decoded::Loads(_, _, _, _)
            | Decoded::LoadsSlot(_, _)
            | Decoded::Stores(_, _, _, _)
            | Decoded::StoresSlot(_, _) => Span::OneWord,
        }
    }
}

/// The spans of the items of blocks, with all conditional branches short.
pub fn short_spans(alloc: Global, blocks: &[Block], table: &Table) -> Result<Spans, AllocError>
    requires { IsTableOf blocks.now table.now }
    ensures { IfOk result (λ spans. spans ≡ spans_of blocks.now (λ p. false)) }
{
    let mut spans = Spans::new(alloc);
    for block in blocks {
        push_spans(&mut spans, block.items.as_slice(), table)?;
    }
    Ok(spans)
}

fn push_spans(spans: &mut Spans, items: &[Item], table: &Table) -> Result<(), AllocError>
    ensures { (blocks : List Block) → IsTableOf blocks table.now →
        OnOk result (spans.new ≡ spans.old ++ map (λ i. span_of blocks false i.kind) items.now) }
{
    for item in items {
        spans.push(Span::new(&item.kind, table))?;
    }
    Ok(())
}
