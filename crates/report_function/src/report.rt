//! Reports.

use base_list::List;
use pass_trait::loss::Losses;
use rv64_instr::name::Name;

/// The location coverage of a variable.
#[derive(Debug, Drop)]
pub struct Cover {
    /// The variable's name.
    pub name: Name,
    /// The number of words whose addresses are in its ranges.
    pub words: u64,
}

/// Location coverages, in the order of the variables' location lists.
pub type Covers = List<Cover>;

/// Names of variables, in the order of their location lists.
pub type VariableNames = List<Name>;

/// The report on a function.
#[derive(Debug, Drop)]
pub struct Report {
    /// The function's name.
    pub name: Name,
    /// Its number of machine words.
    pub words: u64,
    /// The location coverage of each variable.
    pub covers: Covers,
    /// What passes lost, in the order of the passes.
    pub losses: Losses,
}
