//! The metadata of a text, and look-ups in it.

ghost use Rattle.std.specs.Prelude.{◌≡◌, IfOk, OnOk};
ghost use Rattle.std.specs.Option.{option_copied};
ghost use Rattle.read_metadata.specs.Metadata.{metadata_of};

use crate::definition::definition_of_line;
use crate::line::{behind_spaces, node_of_line};
use crate::node::{
    BaseTypeNode, BlockNode, FileNode, LocationNode, Node, SubprogramNode, VariableNode,
};
use base_ids::metadata::NodeId;
use read_lexer::line::Lines;
use rv64_instr::name::Name;
use std::alloc::{AllocError, Global};
use std::collections::BTreeMap;
use std::marker::Model;

/// Nodes by their numbers, and subprograms by the names of their functions. Of two lines for one number or one name
/// the first counts.
#[derive(Drop)]
pub struct Metadata {
    nodes: BTreeMap<NodeId, Node>,
    subprograms: BTreeMap<Vec<u8>, NodeId>,
}

impl Model for Metadata {
    ghost use Rattle.read_metadata.specs.contracts.node.Node as node;
    ghost use Rattle.read_metadata.specs.Maps.{Maps, maps_code, seen};

    ghost Value = { Maps };

    ghost coded = { maps_code node.the_row.coded };

    ghost view = { λ a. seen a.nodes.entries a.subprograms.entries };
}

impl Metadata {
    ghost use Rattle.read_metadata.specs.Maps.{no_metadata, with_node, with_subprogram};
    ghost use Rattle.read_metadata.specs.Metadata.{
      with_given,
      with_defined,
      with_line,
      node_at,
      variable_at,
      location_at,
      file_at,
      scope_file_at,
      subprogram_node_at,
      block_at,
      file_of_scope_at,
      base_type_at,
      subprogram_at,
    };

    /// No nodes and no functions. It takes no memory.
    fn new(alloc: Global) -> Metadata
        ensures { result ≡ no_metadata }
    {
        Metadata {
            nodes: BTreeMap::new(alloc),
            subprograms: BTreeMap::new(alloc),
        }
    }

    /// Adds a node, unless its number is taken.
    fn keep_node(&mut self, number: NodeId, node: Node) -> Result<(), AllocError>
        ensures { OnOk result (self.new ≡ with_node self.old number node) }
    {
        if !self.nodes.contains_key(&number) {
            drop(self.nodes.insert(number, node)?);
        }
        Ok(())
    }

    /// Adds the subprogram of a function, unless the function's name is taken.
    fn keep_subprogram(&mut self, name: Name, number: NodeId) -> Result<(), AllocError>
        ensures { OnOk result (self.new ≡ with_subprogram self.old name number) }
    {
        if !self.subprograms.contains_key(name.as_slice()) {
            self.subprograms.insert(name.into_vec(), number)?;
        }
        Ok(())
    }

    /// Adds a node, if there is one.
    fn keep_given(&mut self, given: Option<(NodeId, Node)>) -> Result<(), AllocError>
        ensures { OnOk result (self.new ≡ with_given self.old given) }
    {
        match given {
            Some((number, node)) => self.keep_node(number, node),
            None => Ok(()),
        }
    }

    /// Adds the subprogram of a function, if there is one.
    fn keep_defined(&mut self, defined: Option<(Name, NodeId)>) -> Result<(), AllocError>
        ensures { OnOk result (self.new ≡ with_defined self.old defined) }
    {
        match defined {
            Some((name, number)) => self.keep_subprogram(name, number),
            None => Ok(()),
        }
    }

    /// Adds what a line defines.
    fn take_line(&mut self, alloc: Global, line: &[u8]) -> Result<(), AllocError>
        ensures { OnOk result (self.new ≡ with_line self.old line.now) }
    {
        let text = behind_spaces(line);
        let given = node_of_line(alloc, text)?;
        self.keep_given(given)?;
        let defined = definition_of_line(alloc, text)?;
        self.keep_defined(defined)
    }

    /// The node with this number.
    fn node(&self, number: NodeId) -> Option<&Node>
        ensures { option_copied result ≡ node_at self.now number }
    {
        self.nodes.get(&number)
    }

    /// The variable with this node number, and `None` exactly if the first readable line of this number defines none.
    /// It takes no memory.
    pub fn variable(&self, number: NodeId) -> Option<&VariableNode>
        ensures { option_copied result ≡ variable_at self.now number }
    {
        match self.node(number)? {
            Node::Variable(variable) => Some(variable),
            _ => None,
        }
    }

    /// The source location with this node number, and `None` exactly if the first readable line of this number defines
    /// none. It takes no memory.
    pub fn location(&self, number: NodeId) -> Option<&LocationNode>
        ensures { option_copied result ≡ location_at self.now number }
    {
        match self.node(number)? {
            Node::Location(location) => Some(location),
            _ => None,
        }
    }

    /// The file with this node number.
    fn file(&self, number: NodeId) -> Option<&FileNode>
        ensures { option_copied result ≡ file_at self.now number }
    {
        match self.node(number)? {
            Node::File(file) => Some(file),
            _ => None,
        }
    }

    /// The node number of the file of the scope with this node number.
    fn scope_file(&self, number: NodeId) -> Option<NodeId>
        ensures { result ≡ scope_file_at self.now number }
    {
        match self.node(number)? {
            Node::Subprogram(subprogram) => subprogram.file,
            Node::Block(block) => block.file,
            _ => None,
        }
    }

    /// The subprogram with this node number, and `None` exactly if the first readable line of this number defines none.
    /// It takes no memory.
    pub fn subprogram(&self, number: NodeId) -> Option<&SubprogramNode>
        ensures { option_copied result ≡ subprogram_node_at self.now number }
    {
        match self.node(number)? {
            Node::Subprogram(subprogram) => Some(subprogram),
            _ => None,
        }
    }

    /// The lexical block with this node number, and `None` exactly if the first readable line of this number defines
    /// none. It takes no memory.
    pub fn block(&self, number: NodeId) -> Option<&BlockNode>
        ensures { option_copied result ≡ block_at self.now number }
    {
        match self.node(number)? {
            Node::Block(block) => Some(block),
            _ => None,
        }
    }

    /// The file of the subprogram or lexical block with this node number, and `None` exactly if the first readable line
    /// of this number defines no such scope with a file, or that of the file's number no file. It takes no memory.
    pub fn file_of_scope(&self, number: NodeId) -> Option<&FileNode>
        ensures { option_copied result ≡ file_of_scope_at self.now number }
    {
        self.file(self.scope_file(number)?)
    }

    /// The base type with this node number, and `None` exactly if the first readable line of this number defines none.
    /// It takes no memory.
    pub fn base_type(&self, number: NodeId) -> Option<&BaseTypeNode>
        ensures { option_copied result ≡ base_type_at self.now number }
    {
        match self.node(number)? {
            Node::BaseType(base_type) => Some(base_type),
            _ => None,
        }
    }

    /// The subprogram of the function with this name, and `None` exactly if no line that defines the function has
    /// one. It takes no memory.
    pub fn subprogram_of(&self, name: &Name) -> Option<NodeId>
        ensures { result ≡ subprogram_at self.now name.now }
    {
        self.subprograms.get(name.as_slice()).copied()
    }
}

/// The metadata in the lines of the IR block. A line that isn't readable is ignored.
pub fn read_meta(alloc: Global, lines: &Lines) -> Result<Metadata, AllocError>
    ensures { IfOk result (λ metadata. metadata ≡ metadata_of lines.now) }
{
    let mut metadata = Metadata::new(alloc);
    for line in lines.as_slice() {
        metadata.take_line(alloc, line.text.as_slice())?;
    }
    Ok(metadata)
}
