//! What the definitions say of one another.

ghost use Rattle.spmd_text.specs.Texts.{PieceFaultsAreTold, TextsAreOne};

/// A text with a fault of its pieces is not read, and this fault is told, want of memory and too
/// large a text aside.
pub fn piece_faults_are_told()
    ensures { PieceFaultsAreTold }
{}

/// What bytes say is one text: no two trees are written as its pieces but such as differ in where
/// their boxes stand, or in how statements one after another are put into pairs.
pub fn texts_are_one()
    ensures { TextsAreOne }
{}
