//! Texts of what the parser returns.

use std::alloc::AllocError;

/// Appends bytes, each as a character.
pub fn push_bytes(told: &mut String, bytes: &[u8]) -> Result<(), AllocError> {
    for b in bytes {
        told.push(char::from(*b))?;
    }
    Ok(())
}
