//! Settling: all seats come back, and what is left is told.

ghost use Rattle.std.specs.Prelude.{◌≡◌, ◌+◌, ◌<◌, ◌≤◌, ◌≢◌, ◌++◌, ◌↔◌, ℕ, [], All, Bool, count_by, IfOk, IfErr, OnOk, length, vec_len, vec_capacity};
ghost use Rattle.crossbeam_deque.specs.Handles.{stealer_deque, worker_deque, worker_flavor, worker_view};
ghost use Rattle.steal.specs.parts.Hands.{hand};
ghost use Rattle.steal.specs.Hands.{all_parts, occurrences};
ghost use Rattle.steal.specs.declared.tally.SettleFault.TheVariants.{Missing};
ghost use Rattle.steal.specs.Seats.{pushed, popped, stolen_by, thief_count, IsThiefOf};

use crate::rule::{Drained, Owner, Parts};
use crate::seats::{OwnerSeat, ThiefSeat};

/// What is left of a deque.
#[derive(Drop)]
pub struct Tally {
    /// The cubes that nobody has taken. They come in the order in which they were pushed, of which
    /// no contract speaks.
    pub left: Vec<u32>,
}

/// Why seats were not settled.
#[derive(Clone, Copy, Debug, PartialEq, Eq)]
pub enum SettleFault {
    /// There is no memory for what is left.
    Memory,
    /// A thief's seat is missing.
    Missing,
}

/// Seats that were not settled, and why.
#[derive(Drop)]
pub struct Unsettled {
    /// Why.
    pub fault: SettleFault,
    /// The owner's seat, as it was.
    pub owner: OwnerSeat,
    /// The thieves' seats, as they were.
    pub thieves: Vec<ThiefSeat>,
}

// The owner with what the thieves know.
fn joined(mut owner: Owner, thieves: Vec<ThiefSeat>) -> Owner
    requires deque { All (λ thief. stealer_deque thief.thief ≡ worker_deque owner) thieves.items }
    requires parts { 0 < (worker_view owner).parts }
    ensures flavor { worker_flavor result ≡ worker_flavor owner }
    ensures view { worker_view result ≡
        hand ((worker_view owner).parts + vec_len thieves) (worker_view owner).pushed ((worker_view
        owner).taken ++ stolen_by thieves.items) }
{
    for seat in thieves {
        owner.absorb::<Parts>(seat.pass);
    }
    owner
}

// All cubes that are left, in `left`.
fn drained(mut owner: Owner, mut left: Vec<u32>) -> Vec<u32>
    requires flavor { worker_flavor owner ≡ 0 }
    requires parts { (worker_view owner).parts ≡ all_parts }
    requires empty { left.items ≡ [] }
    requires room { length (worker_view owner).pushed ≤ length (worker_view owner).taken + vec_capacity left }
    ensures { (p : ℕ → Bool) → count_by p (worker_view owner).pushed ≡ count_by p ((worker_view owner).taken ++ result.items) }
{
    while let Some(cube) = owner.pop_as::<Drained>() {
        left.push_reserved(cube);
    }
    left
}

/// Takes all seats of one deque and answers what is left in it. Each cube was pushed as often as it
/// was popped, stolen or is left. A refusal hands the seats back as they were: `Missing` where
/// there are fewer or more thieves than the deque was made with, which comes first, and `Memory`.
/// Room is asked for each cube that was pushed and that the owner hasn't popped.
pub fn settle(owner: OwnerSeat, thieves: Vec<ThiefSeat>) -> Result<Tally, Unsettled>
    requires { All (λ thief. IsThiefOf owner thief) thieves.items }
    ensures balanced { IfOk result (λ tally. (cube : ℕ) →
        occurrences cube (pushed owner) ≡
        occurrences cube ((popped owner ++ stolen_by thieves.items) ++ tally.left.items)) }
    ensures handed_back { IfErr result (λ r. (r.owner ≡ owner) × (r.thieves ≡ thieves)) }
    ensures complete { OnOk result (vec_len thieves ≡ thief_count owner) }
    ensures missing { IfErr result (λ r. (r.fault ≡ Missing) ↔ (vec_len thieves ≢ thief_count owner)) }
{
    if thieves.len() != owner.thieves {
        return Err(Unsettled {
            fault: SettleFault::Missing,
            owner,
            thieves,
        });
    }
    let Ok(left) = Vec::with_capacity(owner.alloc, owner.unpopped) else {
        return Err(Unsettled {
            fault: SettleFault::Memory,
            owner,
            thieves,
        });
    };
    let owner = joined(owner.owner, thieves);
    Ok(Tally {
        left: drained(owner, left),
    })
}
