//! Which physical register each virtual register gets.

use base_list::List;
use rv64_instr::reg::Reg;

/// What a virtual register gets.
#[derive(Clone, Copy, Debug, PartialEq, Eq)]
pub struct RegisterAssignment {
    /// The virtual register.
    pub register: Reg,
    /// Its physical register; none if it is left to a slot.
    pub given: Option<Reg>,
}

/// What each virtual register gets, in the order of allocation.
pub type RegisterAssignments = List<RegisterAssignment>;
