//! A deque with one thief, in one thread.
ghost use Rattle.std.specs.Prelude.{◌≡◌, IfSome, All};
ghost use Rattle.steal.specs.Seats.{thief_count, IsSameOwner, IsSameThief, IsThiefOf};

use crate::given::{Given, put_all};
use crate::reading::number;
use crate::report::Report;
use crate::scripts::{Section, Subject, judge_calls};
use std::alloc::Global;
use std::mem;
use steal::{CubeDeque, OwnerSeat, SettleFault, Stolen, ThiefSeat, Unsettled, settle};

/// A deque's owner and its only thief.
#[derive(Drop)]
struct Seats {
    owner: OwnerSeat,
    thief: ThiefSeat,
    ghost tied: { IsThiefOf owner thief },
}

pub fn judge(section: Section<'_>, given: &mut Given, report: &mut Report) {
    match two_seats(given.alloc) {
        Some(mut seats) => judge_calls(&mut seats, section.calls, given, report),
        None => given.refuse("no seats"),
    }
}

fn two_seats(alloc: Global) -> Option<Seats> {
    let Ok((owner, mut thieves)) = CubeDeque::make(alloc, 1) else {
        return None;
    };
    match thieves.pop() {
        Some(thief) => Some(Seats { owner, thief }),
        None => None,
    }
}

impl Subject for Seats {
    fn answer(&mut self, name: &str, words: &str, given: &mut Given) {
        match name {
            "push" => put_pushed(self.push(number(words, given)), given),
            "pop" => put_popped(self.pop(), given),
            "steal" => put_stolen(self.steal(), given),
            _ => self.settle(name, given),
        }
    }
}

impl Seats {
    fn push(&mut self, cube: u32) -> Result<(), u32> {
        self.owner.push(cube)
    }

    fn pop(&mut self) -> Option<u32> {
        self.owner.pop()
    }

    fn steal(&mut self) -> Stolen {
        self.thief.steal()
    }

    /// Settles the seats, in whose place come those of a new deque.
    fn settle(&mut self, name: &str, given: &mut Given) {
        let Some(fresh) = two_seats(given.alloc) else {
            return given.refuse("memory");
        };
        let seats = mem::replace(self, fresh);
        if name == "settle" {
            put_settled(seats, given);
        } else {
            put_unsettled(seats, given);
        }
    }
}

fn put_pushed(pushed: Result<(), u32>, given: &mut Given) {
    given.put(if pushed.is_ok() { "ok" } else { "back" });
}

fn put_popped(popped: Option<u32>, given: &mut Given) {
    match popped {
        Some(cube) => given.show(cube),
        None => given.put("none"),
    }
}

fn put_stolen(stolen: Stolen, given: &mut Given) {
    match stolen {
        Stolen::One(cube) => given.show(cube),
        Stolen::Empty => given.put("empty"),
        Stolen::Again => given.put("again"),
    }
}

/// What is left of the deque of these seats.
fn put_settled(seats: Seats, given: &mut Given) {
    let Seats { owner, thief } = seats;
    put_left(thief, owner, given);
}

fn put_left(thief: ThiefSeat, owner: OwnerSeat, given: &mut Given)
    requires { IsThiefOf owner thief }
{
    match vec![in given.alloc; thief] {
        Ok(thieves) => put_left_by(thieves, owner, given),
        Err(_error) => given.refuse("memory"),
    }
}

fn put_left_by(thieves: Vec<ThiefSeat>, owner: OwnerSeat, given: &mut Given)
    requires { All (λ thief. IsThiefOf owner thief) thieves.items }
{
    match settle(owner, thieves) {
        Ok(tally) => put_left_cubes(tally.left.as_slice(), given),
        Err(unsettled) => put_fault(unsettled.fault, given),
    }
}

/// All cubes, or such as `0 to 4095` where there are many that are numbered on.
fn put_left_cubes(cubes: &[u32], given: &mut Given) {
    match cubes {
        [first, .., last] if cubes.len() >= 100 && are_numbered(cubes, *first) => {
            given.show(*first);
            given.put(" to ");
            given.show(*last);
        }
        _ => put_all(cubes, given),
    }
}

/// Whether the cubes are numbered on from this one.
fn are_numbered(cubes: &[u32], first: u32) -> bool {
    let mut number = first;
    for cube in cubes {
        if *cube != number {
            return false;
        }
        number = number.wrapping_add(1);
    }
    true
}

fn put_fault(fault: SettleFault, given: &mut Given) {
    match fault {
        SettleFault::Memory => given.word("memory"),
        SettleFault::Missing => given.word("missing"),
    }
}

/// Settles without the thief, and then with it.
fn put_unsettled(seats: Seats, given: &mut Given) {
    let Seats { owner, thief } = seats;
    match settle(owner, Vec::new(given.alloc)) {
        Ok(_tally) => given.put("settled"),
        Err(Unsettled { fault, owner, .. }) => {
            put_fault(fault, given);
            put_left(thief, owner, given);
        }
    }
}
