//! Words of a line, with a space before each.

ghost use Rattle.std.specs.Prelude.{◌≡◌, ◌++◌, ◌∷◌, [], OnOk};
ghost use Rattle.plaintext.specs.Plain.{numeral, spaced};

use std::alloc::AllocError;

/// Writes a space and the word at the end.
pub fn put_word(out: &mut Vec<u8>, word: &str) -> Result<(), AllocError>
    ensures { OnOk result (out.new.items ≡ out.old.items ++ spaced (word.now ∷ [])) }
{
    out.push(b' ')?;
    out.extend_from_slice(word.as_bytes())?;
    Ok(())
}

/// Writes a space and the number's numeral at the end. A `u128` holds the number of a call, which
/// is 1 more than a `usize`.
pub fn put_number(out: &mut Vec<u8>, number: u128) -> Result<(), AllocError>
    ensures { OnOk result (out.new.items ≡ out.old.items ++ spaced (numeral number ∷ [])) }
{
    out.push(b' ')?;
    writing::put_number(out, number)?;
    Ok(())
}
