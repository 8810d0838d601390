//! Numbers, as their decimal digits.

ghost use Rattle.std.specs.Prelude.{◌≡◌, ◌≢◌, ℕ, IfNone, IfSome, OnErr, OnOk, ◌++◌, min};
ghost use Rattle.plaintext.specs.Plain.{numeral};

use itoa::Buffer;
use std::alloc::AllocError;

/// What each number above 2,147,483,647 is read as: a number that is above every limit of every
/// format here, so that a number out of range is told apart from a word that is no number.
pub const MOST: u32 = 2_147_483_648;

/// The number that the word is the numeral of, or `MOST` where that number is larger; none where
/// the word is no numeral, as one with a leading zero, a sign or no digit at all.
pub fn number_of(word: &[u8]) -> Option<u32>
    ensures none { IfNone result ((n : ℕ) → numeral n ≢ word.now) }
    ensures some { IfSome result (λ found. (n : ℕ) × (numeral n ≡ word.now) × (found ≡ min n 2147483648)) }
{
    if word.is_empty() {
        return None;
    }
    if word[0] == b'0' {
        if word.len() > 1 {
            return None;
        }
        return Some(0);
    }
    let mut value: u32 = 0;
    for digit in word {
        if !digit.is_ascii_digit() {
            return None;
        }
        let longer = value as u64 * 10 + (*digit - b'0') as u64;
        value = longer.min(MOST as u64) as u32;
    }
    Some(value)
}

/// Writes the number's numeral at the end. The only error is want of memory, after which nothing is
/// written.
pub fn put_number(out: &mut Vec<u8>, number: u32) -> Result<(), AllocError>
    ensures written { OnOk result (out.new.items ≡ out.old.items ++ numeral number) }
    ensures unchanged { OnErr result (out.new.items ≡ out.old.items) }
{
    let mut buffer = Buffer::new();
    out.extend_from_slice(buffer.format(number).as_bytes())?;
    Ok(())
}
