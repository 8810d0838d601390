//! Texts as characters.

use std::alloc::AllocError;

/// Writes the characters of these bytes, each of which is one.
pub fn put_characters(out: &mut String, bytes: &[u8]) -> Result<(), AllocError> {
    for byte in bytes {
        out.push(char::from(*byte))?;
    }
    Ok(())
}
