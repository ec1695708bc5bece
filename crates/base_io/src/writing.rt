//! Writing a piece whole.

ghost use Rattle.std.specs.Prelude.{◌≡◌, ◌≤◌, IsOk, OnOk, OnErr};
ghost use Rattle.base_io.specs.Faults.{CountRose};
ghost use Rattle.base_io.specs.Told.{Appends, AppendsPrefix};

use crate::fault::Failed;
use crate::sink::Sink;

/// Writes all the bytes. It takes no memory. Each iteration writes at least one byte.
///
/// `Failed`: the first write that failed ended the writing, and a prefix of the bytes was written.
pub fn write_all<K: Sink>(output: &mut K, bytes: &[u8]) -> Result<(), Failed>
    ensures ok { OnOk result (Appends (K.written output.old) (K.written output.new) bytes.now) }
    ensures err { OnErr result (AppendsPrefix (K.written output.old) (K.written output.new) bytes.now) }
    ensures steady { OnOk result (K.faults output.new ≡ K.faults output.old) }
    ensures failed { OnErr result (CountRose (K.faults output.old) (K.faults output.new)) }
    ensures completes { ¬ CountRose (K.faults output.old) (K.faults output.new) → IsOk result }
    ensures counts { K.faults output.old ≤ K.faults output.new }
{
    let mut rest = bytes;
    while !rest.is_empty() {
        let count = output.write(rest)?;
        rest = &rest[count..];
    }
    Ok(())
}
