//! Sinks of bytes.

ghost use Rattle.std.specs.Prelude.{◌≡◌, ◌<◌, ◌≤◌, ℕ, List, Option, length, take, IfOk, OnOk, OnErr};
ghost use Rattle.base_io.specs.Faults.{CountRose};
ghost use Rattle.base_io.specs.Told.{Appends};

use crate::fault::Failed;

/// A sink of bytes, piece by piece.
pub trait Sink {
    // The bytes written, where they are told.
    ghost written: { Self → Option (List ℕ) };

    // The count of faults.
    ghost faults: { Self → ℕ };

    /// Writes the front of a piece, and returns how many bytes of it were written: 0 only for an empty piece.
    /// `Failed` writes no byte.
    fn write(&mut self, bytes: &[u8]) -> Result<usize, Failed>
        ensures within { IfOk result (λ n. n ≤ length bytes.now) }
        ensures appends { IfOk result (λ n. Appends (written self.old) (written self.new) (take n bytes.now)) }
        ensures moves { IfOk result (λ n. 0 < length bytes.now → 0 < n) }
        ensures kept { OnErr result (written self.new ≡ written self.old) }
        ensures steady { OnOk result (faults self.new ≡ faults self.old) }
        ensures failed { OnErr result (CountRose (faults self.old) (faults self.new)) }
        ensures counts { faults self.old ≤ faults self.new };
}
