//! Making a deque, and its calls.

ghost use Rattle.std.specs.Prelude.{◌≡◌, ◌≤◌, ◌++◌, ◌∷◌, [], All, IfOk, length, vec_len, MatchOption, MatchResult};
ghost use Rattle.steal.specs.Seats.{pushed, popped, stolen, thief_count, IsThiefOf, IsSameOwner, IsSameThief};
ghost use Rattle.steal.specs.Stolen.{MatchStolen};

use crate::rule::{Owner, Parts, Pushed, Taken};
use crate::seats::{OwnerSeat, ThiefSeat};
use crossbeam_deque::Steal;
use std::alloc::{AllocError, Global};

// The slots that a deque begins with. It grows by itself.
const FIRST_SLOTS: usize = 16;

/// A deque of cubes, each a number that its user gives a meaning. It is first in, first out, for
/// the owner and for thieves, and grows as it is pushed to. It is known by its seats alone.
pub struct CubeDeque;

/// What a steal answers.
#[derive(Clone, Copy, PartialEq, Eq)]
pub enum Stolen {
    /// This cube, which is the thief's now.
    One(u32),
    /// The deque was empty at one moment of the call.
    Empty,
    /// This seat took nothing; whether there is a cube isn't said.
    Again,
}

impl CubeDeque {
    /// An empty deque: its owner's seat, and a seat for each of at most 64 thieves, which may be
    /// none. The only refusal is want of memory.
    pub fn make(alloc: Global, thieves: usize) -> Result<(OwnerSeat, Vec<ThiefSeat>), AllocError>
        requires { thieves ≤ 64 }
        ensures owner { IfOk result (λ r. (pushed r.0 ≡ []) × (popped r.0 ≡ []) × (thief_count r.0 ≡ thieves)) }
        ensures count { IfOk result (λ r. vec_len r.1 ≡ thieves) }
        ensures thieves { IfOk result (λ r. All (λ thief. IsThiefOf r.0 thief × (stolen thief ≡ [])) r.1.items) }
    {
        let mut owner = Owner::fifo_as(alloc, FIRST_SLOTS)?;
        let mut seats = Vec::new(alloc);
        for _ in 0..thieves {
            seats.reserve(1)?;
            let thief = owner.stealer()?;
            let pass = owner.another::<Parts>();
            seats.push_reserved(ThiefSeat { thief, pass });
        }
        let seat = OwnerSeat {
            owner,
            alloc,
            thieves,
            unpopped: 0,
        };
        Ok((seat, seats))
    }
}

impl OwnerSeat {
    /// Pushes a cube at the back, or gives it back where the deque can't grow: for want of memory,
    /// or at a bound of the ported deque's own, which are 30 rings of slots, of 16 and each time
    /// twice as many, and 2 ^ 62 pushes. A ring is added where the next slot isn't free, also for a
    /// thief that has yet to leave it.
    pub fn push(&mut self, cube: u32) -> Result<(), u32>
        ensures same { IsSameOwner self.old self.new × (popped self.new ≡ popped self.old) }
        ensures cube { MatchResult result (λ _. pushed self.new ≡ pushed self.old ++ cube ∷ []) (λ back.
            (back ≡ cube) × (pushed self.new ≡ pushed self.old)) }
    {
        let Some(unpopped) = self.unpopped.checked_add(1) else {
            return Err(cube);
        };
        match self.owner.push_as::<Pushed>(cube) {
            Ok(()) => {
                self.unpopped = unpopped;
                Ok(())
            }
            Err(back) => Err(back),
        }
    }

    /// Takes the first cube. `None` only if the deque was empty at one moment of the call.
    pub fn pop(&mut self) -> Option<u32>
        ensures same { IsSameOwner self.old self.new × (pushed self.new ≡ pushed self.old) }
        ensures cube { MatchOption result (popped self.new ≡ popped self.old) (λ cube. popped self.new ≡ popped self.old ++ cube ∷ []) }
    {
        match self.owner.pop_as::<Taken>() {
            Some(cube) => {
                self.unpopped = self.unpopped.saturating_sub(1);
                Some(cube)
            }
            None => None,
        }
    }
}

impl ThiefSeat {
    /// Takes the first cube, from any thread.
    pub fn steal(&mut self) -> Stolen
        ensures same { IsSameThief self.old self.new }
        ensures cube { MatchStolen result (stolen self.new ≡ stolen self.old) (λ cube. stolen self.new ≡ stolen self.old ++ cube ∷ []) }
    {
        match self.thief.steal_as::<Taken>(&mut self.pass) {
            Steal::Success(cube) => Stolen::One(cube),
            Steal::Empty => Stolen::Empty,
            Steal::Retry => Stolen::Again,
        }
    }
}
