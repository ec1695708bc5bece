//! The debug metadata of a text, and look-ups in it.

ghost use Rattle.std.specs.Prelude.{◌≡◌, IfOk, OnOk};
ghost use Rattle.std.specs.Ordering.{nat_cmp};
ghost use Rattle.std.specs.BTreeMap.{IsOrdered, keys};
ghost use Rattle.read_debug_nodes.specs.Metadata.{debug_metadata, language_behind};

use crate::line::{behind_spaces, node_of_line};
use crate::node::DebugNode;
use base_ids::metadata::NodeId;
use base_list::List;
use read_metadata::read_lexer_crate::line::Lines;
use std::alloc::{AllocError, Global};
use std::collections::BTreeMap;
use std::marker::Model;

/// The language of a unit that names none that is known: C99.
const DW_LANG_C99: u16 = 0x0c;

/// Nodes by their numbers, and the language of the unit. Of two lines for one number the first counts.
#[derive(Drop)]
pub struct DebugMetadata {
    nodes: BTreeMap<NodeId, DebugNode>,
    language: u16,
}

impl Model for DebugMetadata {
    ghost use Rattle.read_debug_nodes.specs.contracts.node.DebugNode as node;
    ghost use Rattle.read_debug_nodes.specs.Maps.{DebugMaps, maps_code, seen};

    ghost Value = { DebugMaps };

    ghost coded = { maps_code node.the_row.coded };

    ghost view = { λ a. seen a.nodes.entries a.language };
}

impl DebugMetadata {
    ghost use Rattle.std.specs.Option.{option_copied};
    ghost use Rattle.read_debug_nodes.specs.Maps.{no_metadata, numbers_of, with_node};
    ghost use Rattle.read_debug_nodes.specs.Metadata.{node_at, with_given, with_line};

    /// No nodes. It takes no memory.
    fn new(alloc: Global) -> DebugMetadata
        ensures { result ≡ no_metadata }
    {
        DebugMetadata {
            nodes: BTreeMap::new(alloc),
            language: DW_LANG_C99,
        }
    }

    /// Adds a node, unless its number is taken.
    fn keep_node(&mut self, number: NodeId, node: DebugNode) -> Result<(), AllocError>
        ensures { OnOk result (self.new ≡ with_node self.old number node (language_behind self.old.language node)) }
    {
        if !self.nodes.contains_key(&number) {
            let language = language_behind(self.language, &node);
            drop(self.nodes.insert(number, node)?);
            self.language = language;
        }
        Ok(())
    }

    /// Adds a node, if there is one.
    fn keep_given(&mut self, given: Option<(NodeId, DebugNode)>) -> Result<(), AllocError>
        ensures { OnOk result (self.new ≡ with_given self.old given) }
    {
        match given {
            Some((number, node)) => self.keep_node(number, node),
            None => Ok(()),
        }
    }

    /// Adds what a line defines.
    fn take_line(&mut self, alloc: Global, line: &[u8]) -> Result<(), AllocError>
        ensures { OnOk result (self.new ≡ with_line self.old line.now) }
    {
        let given = node_of_line(alloc, behind_spaces(line))?;
        self.keep_given(given)
    }

    /// The node with this number, and `None` exactly if no readable line defines it. It takes no memory.
    pub fn node(&self, number: NodeId) -> Option<&DebugNode>
        ensures { option_copied result ≡ node_at self.now number }
    {
        self.nodes.get(&number)
    }

    /// The numbers of all nodes, ascending. The error is out of memory.
    pub fn numbers(&self, alloc: Global) -> Result<List<NodeId>, AllocError>
        ensures { IfOk result (λ numbers. numbers ≡ numbers_of self.now) }
    {
        let numbers = numbers_in(alloc, &self.nodes)?;
        Ok(numbers)
    }

    /// The code of the unit's language (DWARF 5, section 7.12): that of the last unit with one that is known, and that
    /// of C99 without one. It takes no memory.
    pub fn language(&self) -> u16
        ensures { result ≡ self.now.language }
    {
        self.language
    }
}

/// The keys of a map, ascending.
fn numbers_in(
    alloc: Global,
    nodes: &BTreeMap<NodeId, DebugNode>,
) -> Result<List<NodeId>, AllocError>
    ensures numbers { IfOk result (λ numbers. numbers ≡ keys nodes.now) }
    ensures ascend { IsOrdered nat_cmp nodes.now }
{
    let mut numbers = List::new(alloc);
    for number in nodes.keys() {
        numbers.push(*number)?;
    }
    Ok(numbers)
}

/// The language behind one more node.
fn language_behind(language: u16, node: &DebugNode) -> u16
    ensures { result ≡ language_behind language node.now }
{
    match node {
        DebugNode::Unit(Some(code)) => *code,
        _ => language,
    }
}

/// The debug metadata in the lines of the IR block. A line that isn't readable is ignored. The time is linear in the
/// lines, but for the order of the nodes and of each line's keys. The error is out of memory.
pub fn read_debug_metadata(alloc: Global, lines: &Lines) -> Result<DebugMetadata, AllocError>
    ensures { IfOk result (λ metadata. metadata ≡ debug_metadata lines.now) }
{
    let mut metadata = DebugMetadata::new(alloc);
    for line in lines.as_slice() {
        metadata.take_line(alloc, line.text.as_slice())?;
    }
    Ok(metadata)
}
