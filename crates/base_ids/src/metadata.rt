//! Numbers of metadata nodes.

ghost use Rattle.std.specs.Prelude.{◌≡◌};

use std::marker::Model;

/// The N of a metadata node `!N` (LLVM Language Reference, "Metadata Nodes and Metadata Strings").
#[derive(Clone, Copy, Debug, PartialEq, Eq, PartialOrd, Ord)]
pub struct NodeId(pub u32);

impl Model for NodeId {
    ghost use Rattle.std.specs.Prelude.{ℕ};

    ghost Value = { ℕ };

    ghost view = { λ n. n.0 };

    ghost inverse = { λ n. record { 0 = n } };
}

impl NodeId {
    /// The plain number.
    pub fn number(self) -> u32
        ensures { result ≡ self }
    {
        self.0
    }
}
