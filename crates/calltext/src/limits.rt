//! How large a program's text may be.

ghost use Rattle.std.specs.Prelude.{◌≡◌};
ghost use Rattle.calltext.specs.Grammar.{long, short};

/// The limits of a program's text. A text is read within limits, and its grammar is the same
/// whatever they are: what lies beyond a limit is told as that, and never as a line of the wrong
/// shape.
#[derive(Clone, Copy)]
pub struct Limits {
    /// The most bytes of a text.
    pub bytes: usize,
    /// The most ranks. Each program has one at least.
    pub ranks: u32,
    /// The highest rank, from 0, that a call may name.
    pub peer: u32,
    /// The highest tag.
    pub tag: u32,
    /// The highest communicator.
    pub communicator: u32,
    /// The most calls, after expansion.
    pub calls: usize,
}

impl Limits {
    /// The limits of a text that has a formula.
    pub fn short() -> Limits
        ensures { result ≡ short }
    {
        Limits {
            bytes: 1_048_576,
            ranks: 64,
            peer: 63,
            tag: 32_767,
            communicator: 255,
            calls: 1024,
        }
    }

    /// The limits of a text of any length: numbers are of 31 bits, and bytes and calls as many as
    /// memory holds.
    pub fn long() -> Limits
        ensures { result ≡ long }
    {
        Limits {
            bytes: 9_223_372_036_854_775_807,
            ranks: 2_147_483_647,
            peer: 2_147_483_647,
            tag: 2_147_483_647,
            communicator: 2_147_483_647,
            calls: 9_223_372_036_854_775_807,
        }
    }
}
