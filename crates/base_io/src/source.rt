//! Sources of bytes.

ghost use Rattle.std.specs.Prelude.{◌≡◌, ◌<◌, ◌≤◌, ℕ, List, Option, length, take, IfOk, OnOk, OnErr};
ghost use Rattle.base_io.specs.Faults.{CountRose};
ghost use Rattle.base_io.specs.Told.{Takes, IsAtEnd};

use crate::fault::Failed;

/// A source of bytes, piece by piece.
pub trait Source {
    // The bytes left, where they are told.
    ghost left: { Self → Option (List ℕ) };

    // The count of faults.
    ghost faults: { Self → ℕ };

    /// Reads a piece into the front of the buffer, and returns its length in bytes. 0 for a buffer that isn't empty
    /// is the end of the input. The buffer after the piece is unspecified. `Failed` takes no byte of the source, and
    /// leaves the whole buffer unspecified.
    fn read(&mut self, buf: &mut [u8]) -> Result<usize, Failed>
        ensures within { IfOk result (λ n. n ≤ length buf.new) }
        ensures takes { IfOk result (λ n. Takes (left self.old) (left self.new) (take n buf.new)) }
        ensures end { result ≡ Ok 0 → 0 < length buf.old → IsAtEnd (left self.new) }
        ensures kept { OnErr result (left self.new ≡ left self.old) }
        ensures steady { OnOk result (faults self.new ≡ faults self.old) }
        ensures failed { OnErr result (CountRose (faults self.old) (faults self.new)) }
        ensures counts { faults self.old ≤ faults self.new };
}
