//! A source over memory.

ghost use Rattle.std.specs.Prelude.{◌≡◌, ◌<◌, ◌≤◌, ◌++◌, ◌↔◌, Some, length, take, drop, min, IfOk, OnErr, IsErr};
ghost use Rattle.base_io.specs.Calls.{no_calls, IsToFail, after_call, after_fault};
ghost use Rattle.base_io.specs.Memory.{MemoryInput};

use crate::bytes::{Bytes, CallNumbers};
use crate::calls::CallLog;
use crate::fault::Failed;
use crate::source::Source;
use std::marker::Model;

/// A source over bytes in memory, whose faults are planned. The bytes left are known.
#[derive(Debug, Drop)]
pub struct MemorySource {
    bytes: Bytes,
    taken: usize,
    calls: CallLog,
}

impl Model for MemorySource {
    ghost use Rattle.std.specs.Prelude.{◌≤◌, length, drop};
    ghost use Rattle.base_io.specs.Memory.{MemoryInput};

    ghost Value = { MemoryInput };

    ghost view = { λ s. record { left = drop s.taken s.bytes; calls = s.calls } };

    ghost invariant = { λ s. s.taken ≤ length s.bytes };
}

impl MemorySource {
    /// A source of these bytes. The calls whose numbers are in `fails` fail, and no others; the first call has the
    /// number 1.
    pub fn new(bytes: Bytes, fails: CallNumbers) -> MemorySource
        ensures { result ≡ record { left = bytes; calls = no_calls fails } }
    {
        MemorySource {
            bytes,
            taken: 0,
            calls: CallLog::new(fails),
        }
    }
}

impl Source for MemorySource {
    ghost left = { λ s. Some s.left };

    ghost faults = { λ s. s.calls.faults };

    /// Reads as many bytes as fit the buffer and are left. A call that fails takes no byte.
    fn read(&mut self, buf: &mut [u8]) -> Result<usize, Failed>
        // When it fails.
        ensures fails { IsErr result ↔ IsToFail self.old.calls }

        // What each answer leaves.
        ensures count { IfOk result (λ n. n ≡ min (length buf.old) (length self.old.left)) }
        ensures filled { IfOk result (λ n. buf.new ≡ take n self.old.left ++ drop n buf.old) }
        ensures ok { IfOk result (λ n. self.new ≡ record {
          left = drop n self.old.left;
          calls =
              after_call self.old.calls;
        }) }
        ensures err { OnErr result (self.new ≡ record self.old { calls = after_fault self.old.calls }) }
        ensures unfilled { OnErr result (buf.new ≡ buf.old) }

        // What each source promises.
        ensures within { IfOk result (λ n. n ≤ length buf.new) }
        ensures counts { self.old.calls.faults ≤ self.new.calls.faults }
    {
        if self.calls.begin() {
            self.calls.fault();
            return Err(Failed);
        }
        let left = &self.bytes.as_slice()[self.taken..];
        let count = buf.len().min(left.len());
        buf[..count].copy_from_slice(&left[..count]);
        self.taken += count;
        Ok(count)
    }
}
