//! Where a mark stands in a text.

ghost use Rattle.std.specs.Prelude.{◌≡◌, ◌++◌, ◌↔◌, IfNone, IfSome, IsTrue};
ghost use Rattle.places.specs.Maps.{AreDigits};
ghost use Rattle.places.specs.Marks.{BeginsWithNoDigit, EndsInName, EndsWith, EndsWithVerb, IsAround, IsFirstNaming, IsOfName, IsStem, Lacks, NamesNone};

/// What stands before and behind the first place in which a mark stands.
pub fn around<'a>(text: &'a [u8], mark: &[u8]) -> Option<(&'a [u8], &'a [u8])>
    ensures some { IfSome result (λ parts. IsAround mark.now text.now parts.0.now parts.1.now) }
    ensures none { IfNone result (Lacks mark.now text.now) }
{
    for at in 0..=text.len() {
        let (front, rest) = text.split_at(at);
        if let Some(behind) = rest.strip_prefix(mark) {
            return Some((front, behind));
        }
    }
    None
}

/// Whether the byte may stand in a name of a text: a letter, a to z, or a digit.
fn is_of_name(byte: u8) -> bool
    ensures { IsTrue result ↔ IsOfName byte }
{
    byte.is_ascii_lowercase() || byte.is_ascii_digit()
}

/// What is left of a text without the letters and digits that it ends with.
fn stem_of(text: &[u8]) -> &[u8]
    ensures { IsStem text.now result.now }
{
    for count in 0..text.len() {
        let end = text.len() - count;
        if !is_of_name(text[end - 1]) {
            return &text[..end];
        }
    }
    &text[..0]
}

/// Whether a text ends so.
fn ends_with(text: &[u8], end: &[u8]) -> bool
    ensures { IsTrue result ↔ EndsWith end.now text.now }
{
    text.ends_with(end)
}

/// Whether a text ends with a verb behind which a name and a number stand.
fn ends_with_verb(text: &[u8]) -> bool
    ensures { IsTrue result ↔ EndsWithVerb text.now }
{
    ends_with(text, b"send ") || ends_with(text, b"recv ") || ends_with(text, b"probe ")
}

/// Whether a text ends within the name of a request or handle behind which a number stands, as in
/// `irecv line 4 1`.
fn ends_in_name(text: &[u8]) -> bool
    ensures { IsTrue result ↔ EndsInName text.now }
{
    ends_with_verb(stem_of(text))
}

/// What stands before and behind the first place in which a mark stands and names a line, since it
/// isn't a part of a name.
pub fn naming<'a>(text: &'a [u8], mark: &[u8]) -> Option<(&'a [u8], &'a [u8])>
    ensures some { IfSome result (λ parts. IsFirstNaming mark.now text.now parts.0.now parts.1.now) }
    ensures none { IfNone result (NamesNone mark.now text.now) }
{
    for at in 0..text.len() + 1 {
        let (front, rest) = text.split_at(at);
        if let Some(behind) = rest.strip_prefix(mark) {
            if !ends_in_name(front) {
                return Some((front, behind));
            }
        }
    }
    None
}

/// The decimal digits with which a text begins, and what stands behind them.
pub fn digits_of(text: &[u8]) -> (&[u8], &[u8])
    ensures parts { text.now ≡ result.0.now ++ result.1.now }
    ensures digits { AreDigits result.0.now }
    ensures all { BeginsWithNoDigit result.1.now }
{
    for (at, byte) in text.iter().enumerate() {
        if !byte.is_ascii_digit() {
            return text.split_at(at);
        }
    }
    text.split_at(text.len())
}
