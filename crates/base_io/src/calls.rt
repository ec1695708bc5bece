//! The log of calls of a source or a sink over memory.

ghost use Rattle.std.specs.Prelude.{◌≡◌, ◌≤◌, ◌↔◌, IsTrue};
ghost use Rattle.base_io.specs.Calls.{Calls, no_calls, IsToFail, after_call};
ghost use Rattle.base_io.specs.Faults.{risen};

use crate::bytes::CallNumbers;
use std::marker::Model;

/// The number of calls so far, the numbers of those that fail, and the number of faults. Both counts saturate:
/// no number of a call is beyond the greatest value, so no call fails by its number from there on.
#[derive(Debug, Drop)]
pub(crate) struct CallLog {
    fails: CallNumbers,
    made: u64,
    faults: u64,
}

impl Model for CallLog {
    ghost use Rattle.base_io.specs.Calls.{Calls};

    ghost Value = { Calls };

    ghost view = { λ c. record { fails = c.fails; made = c.made; faults = c.faults } };
}

impl CallLog {
    /// The log before the first call.
    pub(crate) fn new(fails: CallNumbers) -> CallLog
        ensures { result ≡ no_calls fails }
    {
        CallLog {
            fails,
            made: 0,
            faults: 0,
        }
    }

    /// Counts the call that begins, and returns whether it must fail.
    pub(crate) fn begin(&mut self) -> bool
        ensures fails { IsTrue result ↔ IsToFail self.old }
        ensures made { self.new ≡ after_call self.old }
    {
        let fails = self.fails.as_slice();
        match self.made.checked_add(1) {
            Some(number) => {
                self.made = number;
                fails.contains(&number)
            }
            None => false,
        }
    }

    /// Counts a fault of the call that began last.
    pub(crate) fn fault(&mut self)
        ensures fault { self.new ≡ record self.old { faults = risen self.old.faults } }
        ensures counts { self.old.faults ≤ self.new.faults }
    {
        self.faults = self.faults.saturating_add(1);
    }
}
