//! A section with one byte changed.

use std::alloc::Global;
use std::test::Fail;

/// Bytes, one of which becomes another.
pub(crate) fn changed(alloc: Global, bytes: &[u8], at: usize, byte: u8) -> Result<Vec<u8>, Fail> {
    let mut changed = bytes.to_vec(alloc)?;
    match changed.get_mut(at) {
        Some(place) => *place = byte,
        None => return Err(Fail::from("no such byte")),
    }
    Ok(changed)
}
