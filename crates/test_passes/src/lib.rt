//! Tests of parts of passes, where no run of the program shows them: liveness and dead code, folding by the rule for
//! code alone, removal of one copy, spilling with registers that no command can name, and linear scan register
//! allocation: where physical registers are clear, the walk over live intervals, and whether added code names virtual
//! registers.
#![tactic(auto)]

#[cfg(test)]
mod added_code;
#[cfg(test)]
mod allocations;
#[cfg(test)]
mod clear_registers;
#[cfg(test)]
mod parts;
#[cfg(test)]
mod rows;
#[cfg(test)]
mod shown;
#[cfg(test)]
mod tests;
#[cfg(test)]
mod visits;
