//! How far a content is read.
ghost use Rattle.std.specs.Prelude.{◌≡◌};
ghost use Rattle.files.specs.Contents.{is_enough};

/// How far a content is read: to its end, or until what was read is enough.
#[derive(Clone, Copy, Debug)]
pub enum Extent<'a> {
    /// More bytes than these are enough.
    Most(usize),
    /// Bytes that don't begin so are enough.
    Begins(&'a [u8]),
}

impl Extent<'_> {
    /// Whether so much was read that the rest isn't needed.
    pub fn is_enough(&self, bytes: &[u8]) -> bool
        ensures { result ≡ is_enough self.now bytes.now }
    {
        match *self {
            Extent::Most(most) => bytes.len() > most,
            Extent::Begins(front) => bytes.len() >= front.len() && !bytes.starts_with(front),
        }
    }
}
