//! Answers to calls by given values.

ghost use Rattle.std.specs.Prelude.{◌≡◌, map};
ghost use Rattle.rv64_instr.specs.DefsAndUses.{caller_saved};
ghost use Rattle.sim_start.specs.InitialMachine.{call_value, call_register, reply_to};

use rv64_instr::start::{CallEvent, CallResult, Values};
use sim_trace::sim_machine_crate::answers::CallAnswers;

/// The answer to the n-th call, from 1, sets x10 to the n-th value, or to n if there is none, and each other
/// caller-saved register to 2000 plus its number. It writes no memory.
#[derive(Drop)]
pub struct ValueAnswers {
    /// The values.
    pub values: Values,
}

impl CallAnswers for ValueAnswers {
    ghost gives = { λ a e r. r ≡ reply_to a.values e.number };

    ghost spares = { λ _ _ _. Unit {0} };

    fn answer(&self, call: &CallEvent) -> CallResult {
        CallResult {
            regs: registers(value(self.values.as_slice(), call.number)),
            writes: [None; 8],
        }
    }
}

/// The value to which the call with this number sets x10.
fn value(values: &[u64], number: u64) -> u64
    ensures { result ≡ call_value values.now number }
{
    let index = number.saturating_sub(1);
    if index < values.len() as u64 {
        values[index as usize]
    } else {
        number
    }
}

/// The contents of the caller-saved registers after a call, in ascending order.
fn registers(value: u64) -> [u64; 16]
    ensures { result ≡ map (call_register value) caller_saved }
{
    [
        2001, 2005, 2006, 2007, value, 2011, 2012, 2013, 2014, 2015, 2016, 2017, 2028, 2029, 2030,
        2031,
    ]
}
