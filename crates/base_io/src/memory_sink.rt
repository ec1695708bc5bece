//! A sink over memory.

ghost use Rattle.std.specs.Prelude.{◌≡◌, ◌<◌, ◌≤◌, ◌-◌, ◌++◌, ◌↔◌, ◌⊎◌, [], Some, length, take, min, IfOk, OnErr};
ghost use Rattle.std.specs.Prelude.{IsErr};
ghost use Rattle.base_io.specs.Calls.{no_calls, IsToFail, after_call, after_fault};
ghost use Rattle.base_io.specs.Memory.{MemoryOutput, MeetsFullRoom};

use crate::bytes::CallNumbers;
use crate::calls::CallLog;
use crate::fault::Failed;
use crate::sink::Sink;
use std::alloc::{AllocError, Global};
use std::marker::Model;

/// A sink over memory, with room for so many bytes, whose faults are planned. The bytes written are known.
#[derive(Debug, Drop)]
pub struct MemorySink {
    bytes: Vec<u8>,
    room: usize,
    calls: CallLog,
}

impl Model for MemorySink {
    ghost use Rattle.std.specs.Prelude.{◌≤◌, vec_len, vec_capacity};
    ghost use Rattle.base_io.specs.Memory.{MemoryOutput};

    ghost Value = { MemoryOutput };

    ghost view = { λ s. record { written = s.bytes.items; room = s.room; calls = s.calls } };

    ghost invariant = { λ s. (vec_len s.bytes ≤ s.room) × (s.room ≤ vec_capacity s.bytes) };
}

impl MemorySink {
    /// An empty sink with room for `room` bytes, which it allocates here. The calls whose numbers are in `fails`
    /// fail, the first call having the number 1, and so does each write of a piece that isn't empty once the room is
    /// full.
    pub fn new(alloc: Global, room: usize, fails: CallNumbers) -> Result<MemorySink, AllocError>
        ensures { IfOk result (λ sink. sink ≡ record { written = []; room = room; calls = no_calls fails }) }
    {
        Ok(MemorySink {
            bytes: Vec::with_capacity(alloc, room)?,
            room,
            calls: CallLog::new(fails),
        })
    }

    /// The bytes written. It takes no memory.
    pub fn written(&self) -> &[u8]
        ensures { result.now ≡ self.now.written }
    {
        self.bytes.as_slice()
    }
}

impl Sink for MemorySink {
    ghost written = { λ s. Some s.written };

    ghost faults = { λ s. s.calls.faults };

    /// Writes as many bytes of the piece as there is room for. A call that fails writes no byte.
    fn write(&mut self, bytes: &[u8]) -> Result<usize, Failed>
        // When it fails.
        ensures fails { IsErr result ↔ (IsToFail self.old.calls ⊎ MeetsFullRoom self.old bytes.now) }

        // What each answer leaves.
        ensures count { IfOk result (λ n. n ≡ min (length bytes.now) (self.old.room - length self.old.written)) }
        ensures ok { IfOk result (λ n. self.new ≡ record {
          written = self.old.written ++ take n bytes.now;
          room =
              self.old.room;
          calls = after_call self.old.calls;
        }) }
        ensures err { OnErr result (self.new ≡ record self.old { calls = after_fault self.old.calls }) }

        // What each sink promises.
        ensures within { IfOk result (λ n. n ≤ length bytes.now) }
        ensures moves { IfOk result (λ n. 0 < length bytes.now → 0 < n) }
        ensures counts { self.old.calls.faults ≤ self.new.calls.faults }
    {
        let is_to_fail = self.calls.begin();
        let count = bytes.len().min(self.room - self.bytes.len());
        if is_to_fail || (count == 0 && !bytes.is_empty()) {
            self.calls.fault();
            return Err(Failed);
        }
        self.bytes.extend_from_slice(&bytes[..count]).unwrap();
        Ok(count)
    }
}
