//! What lines and faulty lines are, apart from any reader.

ghost use Rattle.plaintext.specs.Fronts.{LinesMakeText, OneFaultyLine, WordsMakeLines};

/// The lines of a text, one after another, are the text.
pub fn lines_make_text()
    ensures { LinesMakeText }
{}

/// The text of lines of plain words has those lines and no others.
pub fn words_make_lines()
    ensures { WordsMakeLines }
{}

/// A text has one first faulty line at most, for any Boolean test of lines that can go on, so long
/// as what can go on can go on at each of its fronts.
pub fn one_faulty_line()
    ensures { OneFaultyLine }
{}
