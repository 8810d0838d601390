//! How requests and handles are named, so that a name with its index has a spelling of its own.

ghost use Rattle.std.specs.Prelude.{◌≡◌};
ghost use Rattle.spmd_text.specs.Labels.{is_digit_byte, are_digits, are_letters, is_index, ends_in_index, is_label};

/// Whether the byte is 0 to 9.
fn is_digit(byte: u8) -> bool
    ensures { result ≡ is_digit_byte byte }
{
    byte.is_ascii_digit()
}

/// Whether each byte is a digit.
fn are_digits(word: &[u8]) -> bool
    ensures { result ≡ are_digits word.now }
{
    let [first, others @ ..] = word else {
        return true;
    };
    is_digit(*first) && are_digits(others)
}

/// Whether each byte is a to z or a digit.
fn are_letters(word: &[u8]) -> bool
    ensures { result ≡ are_letters word.now }
{
    let [first, others @ ..] = word else {
        return true;
    };
    (first.is_ascii_lowercase() || is_digit(*first)) && are_letters(others)
}

/// Whether the word is `ix` and digits, one or more.
fn is_index(word: &[u8]) -> bool
    ensures { result ≡ is_index word.now }
{
    if word.len() <= 2 {
        return false;
    }
    &word[..2] == b"ix".as_slice() && are_digits(&word[2..])
}

/// Whether the word ends in `ix` and digits.
fn ends_in_index(word: &[u8]) -> bool
    ensures { result ≡ ends_in_index word.now }
{
    let [_first, others @ ..] = word else {
        return false;
    };
    is_index(word) || ends_in_index(others)
}

/// Whether the word can be the name of a request or handle, with an index or without one.
pub(crate) fn is_label(word: &[u8], indexed: bool) -> bool
    ensures { result ≡ is_label word.now indexed }
{
    match indexed {
        true => are_letters(word) && word.len() <= 9,
        false => are_letters(word) && word.len() <= 16 && !ends_in_index(word),
    }
}
