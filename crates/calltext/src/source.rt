//! A program as it is written.

ghost use Rattle.std.specs.Prelude.{◌≡◌, ◌<◌, length, map, slice_get, Some};
ghost use Rattle.calltext.specs.Readable.{IsReadable, IsReadableWithin};
ghost use Rattle.calltext.specs.Grammar.{long};
ghost use Rattle.calltext.specs.Body.{views};

use crate::call::{CallLine, Policy};
use std::marker::Model;
use std::ops::Deref;

/// What a program's text says, within the long limits. `read_long` makes one, and each `Source` is
/// one.
#[derive(Drop)]
pub struct LongSource {
    policy: Policy,
    ranks: Vec<Vec<CallLine>>,
}

impl Model for LongSource {
    ghost use Rattle.std.specs.Prelude.{map};
    ghost use Rattle.calltext.specs.Readable.{IsReadableWithin};
    ghost use Rattle.calltext.specs.Grammar.{ProgramText, long};

    ghost Value = { ProgramText };

    ghost use Rattle.calltext.specs.Body.{views};

    ghost view = { λ s. record { policy = s.policy; ranks = views s.ranks.items } };

    ghost invariant = { λ s. IsReadableWithin long (record { policy = s.policy; ranks = views s.ranks.items }) };
}

impl LongSource {
    /// A program whose text can be read.
    pub(crate) fn new(policy: Policy, ranks: Vec<Vec<CallLine>>) -> LongSource
        requires { IsReadableWithin long (record { policy = policy; ranks = views ranks.items }) }
        ensures { result ≡ record { policy = policy; ranks = views ranks.items } }
    {
        LongSource { policy, ranks }
    }

    /// Whether standard sends are buffered.
    pub fn policy(&self) -> Policy
        ensures { result ≡ self.now.policy }
    {
        self.policy
    }

    /// The call lines of each rank, from rank 0 on.
    pub fn ranks(&self) -> &[Vec<CallLine>]
        ensures lines { map (λ rank. rank.items) result.now ≡ self.now.ranks }

        // A caller knows the limits from here.
        ensures readable { IsReadableWithin long self.now }
    {
        self.ranks.as_slice()
    }

    /// The call lines of a rank, from 0 and below the number of ranks, in their order.
    pub fn lines(&self, rank: usize) -> &[CallLine]
        requires { rank < length self.now.ranks }
        ensures { slice_get self.now.ranks rank ≡ Some result.now }
    {
        &self.ranks[rank]
    }

    /// The call lines of each rank, from rank 0 on, of a text that nothing else needs.
    pub fn into_ranks(self) -> Vec<Vec<CallLine>>
        ensures lines { views result.items ≡ self.ranks }

        // A caller knows the limits from here.
        ensures readable { IsReadableWithin long self }
    {
        self.ranks
    }
}

/// What a program's text says. `read` alone makes one, so each keeps the limits: 1 to 64 ranks,
/// peers to 63, tags to 32,767, communicators 1 to 255, and a text of at most 1,048,576 bytes.
#[derive(Drop)]
pub struct Source {
    text: LongSource,
}

impl Model for Source {
    ghost use Rattle.calltext.specs.Readable.{IsReadable};
    ghost use Rattle.calltext.specs.Grammar.{ProgramText};

    ghost Value = { ProgramText };

    ghost view = { λ s. s.text };

    ghost invariant = { λ s. IsReadable s.text };
}

impl Deref for Source {
    type Target = LongSource;

    /// The same program, of which no more than the long limits is known: what takes a text of any
    /// length takes this one.
    fn deref(&self) -> &LongSource
        ensures { result.now ≡ self.now }
    {
        &self.text
    }
}

impl Source {
    /// A program whose text can be read.
    pub(crate) fn of_long(text: LongSource) -> Source
        requires { IsReadable text }
        ensures { result ≡ text }
    {
        Source { text }
    }

    /// Whether standard sends are buffered.
    pub fn policy(&self) -> Policy
        ensures { result ≡ self.now.policy }
    {
        self.text.policy()
    }

    /// The call lines of each rank, from rank 0 on. There are 1 to 64 ranks.
    pub fn ranks(&self) -> &[Vec<CallLine>]
        ensures lines { map (λ rank. rank.items) result.now ≡ self.now.ranks }

        // A caller knows the limits from here.
        ensures readable { IsReadable self.now }
    {
        self.text.ranks()
    }

    /// The call lines of a rank, from 0 and below the number of ranks, in their order.
    pub fn lines(&self, rank: usize) -> &[CallLine]
        requires { rank < length self.now.ranks }
        ensures { slice_get self.now.ranks rank ≡ Some result.now }
    {
        self.text.lines(rank)
    }
}
