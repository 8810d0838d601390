//! The source that words of a map name.

ghost use Rattle.std.specs.Prelude.{◌≡◌, ◌≤◌, length, option_copied};
ghost use Rattle.places.specs.Sources.{is_source_name, is_source, last_digits, source_of};

/// How many digits the bytes end with.
fn last_digits(bytes: &[u8]) -> usize
    ensures count { result ≡ last_digits bytes.now }
    ensures few { result ≤ length bytes.now }
{
    bytes
        .iter()
        .rev()
        .take_while(|byte| byte.is_ascii_digit())
        .count()
}

/// Whether the bytes are a name and a colon. A name has no quotes.
fn is_name(bytes: &[u8]) -> bool
    ensures { result ≡ is_source_name bytes.now }
{
    bytes.len() > 1 && bytes.ends_with(b":") && !bytes.contains(&b'"')
}

/// Whether a part of the words is a name, a colon and digits.
fn is_source(part: &[u8]) -> bool
    ensures { result ≡ is_source part.now }
{
    let digits = last_digits(part);
    let (front, _line) = part.split_at(part.len() - digits);
    digits > 0 && is_name(front)
}

/// The first part of the words, which blanks and commas part, that is a name, a colon and digits.
pub fn source_of<'a>(words: &'a [u8]) -> Option<&'a [u8]>
    ensures { option_copied result ≡ source_of words.now }
{
    words
        .split(|byte| *byte == b' ' || *byte == b',')
        .find(|part| is_source(part))
}
