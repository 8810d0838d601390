//! The words of a line, one after another.

ghost use Rattle.std.specs.Prelude.{◌≡◌, ◌≢◌, ◌∷◌, [], ℕ, List, IsTrue, IfNone, IfSome, ◌<◌, length};
ghost use Rattle.std.specs.Option.{option_copied};
ghost use Rattle.prooflog.specs.parts.Reading.{words_of, words_after};

/// The first word, and what follows the space after it; nothing where no space follows.
pub fn cut_word(line: &[u8]) -> (&[u8], Option<&[u8]>)
    ensures words { words_of line.now ≡ result.0.now ∷ words_after (option_copied result.1) }
    ensures shorter { IfSome result.1 (λ rest. length rest.now < length line.now) }
{
    for (i, byte) in line.iter().enumerate() {
        if *byte == b' ' {
            return (&line[..i], Some(&line[i + 1..]));
        }
    }
    (line, None)
}
