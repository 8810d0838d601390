//! Lines and words.

ghost use Rattle.std.specs.Prelude.{◌≡◌, ◌<◌, ◌∷◌, ◌++◌, [], length, map, ◌==◌, IfNone, IfSome, IfOk, IsTrue, ◌↔◌};
ghost use Rattle.std.specs.List.{slice_split};
ghost use Rattle.plaintext.specs.Plain.{text_lines};

use std::alloc::{AllocError, Global};

/// The first line, without its LF, and what follows the LF; none where the bytes have no LF.
///
/// It looks at no byte beyond the first LF, so going through a text line by line takes time
/// linear in the text's length.
pub fn next_line(bytes: &[u8]) -> Option<(&[u8], &[u8])>
    ensures none { IfNone result (text_lines bytes.now ≡ bytes.now ∷ []) }
    ensures some { IfSome result (λ found. text_lines bytes.now ≡ (found.0.now ++ 10 ∷ []) ∷ text_lines found.1.now) }
    ensures shorter { IfSome result (λ found. length found.1.now < length bytes.now) }
    ensures parts { IfSome result (λ found. bytes.now ≡ found.0.now ++ 10 ∷ found.1.now) }
{
    for (i, byte) in bytes.iter().enumerate() {
        if *byte == b'\n' {
            return Some((&bytes[..i], &bytes[i + 1..]));
        }
    }
    None
}

/// The words of a line that stands here without its LF: what its spaces part.
///
/// Two spaces side by side, or one at an end of the line, leave an empty word, which is no word
/// of any line that a format writes. The only error is want of memory.
pub fn words_of(alloc: Global, line: &[u8]) -> Result<Vec<&[u8]>, AllocError>
    ensures { IfOk result (λ words. map (λ w. w.now) words.items ≡ slice_split (λ b. b == 32) line.now) }
{
    line.split(|b| *b == b' ').collect(alloc)
}

/// Whether the word is spelled so.
pub fn is_word(word: &[u8], text: &str) -> bool
    ensures { IsTrue result ↔ (word.now ≡ text.now) }
{
    word == text.as_bytes()
}
