//! Cubes that are pushed and stolen, and none of them lost or doubled.
ghost use Rattle.std.specs.Prelude.{◌≡◌, ◌<◌, IfOk, length};
ghost use Rattle.steal.specs.Seats.{IsSameOwner, IsSameThief};
ghost use Rattle.steal.specs.Supplies.{AreSupplies, IsSameSupply};

use std::alloc::{AllocError, Global};
use std::test::Fail;
use std::thread;
use steal::{CubeDeque, OwnerSeat, Stolen, Supply, Tally, ThiefSeat, deal, settle, settle_all};

/// Pushes these cubes and pops every fourth time. Answers what was popped.
fn work(
    mut owner: OwnerSeat,
    alloc: Global,
    cubes: u32,
) -> Result<(OwnerSeat, Vec<u32>), AllocError>
    ensures { IfOk result (λ r. IsSameOwner owner r.0) }
{
    let mut popped = Vec::new(alloc);
    for cube in 0..cubes {
        let Ok(()) = owner.push(cube) else {
            return Err(AllocError);
        };
        if cube % 4 == 0 {
            if let Some(first) = owner.pop() {
                popped.push(first)?;
            }
        }
    }
    Ok((owner, popped))
}

/// Steals until it has so many, or has tried often. Answers what was stolen.
fn rob(
    mut thief: ThiefSeat,
    alloc: Global,
    most: usize,
) -> Result<(ThiefSeat, Vec<u32>), AllocError>
    ensures { IfOk result (λ r. IsSameThief thief r.0) }
{
    let mut stolen = Vec::new(alloc);
    for _ in 0..10_000_u32 {
        if stolen.len() >= most {
            break;
        }
        match thief.steal() {
            Stolen::One(cube) => stolen.push(cube)?,
            Stolen::Empty => thread::yield_now(),
            Stolen::Again => {}
        }
    }
    Ok((thief, stolen))
}

/// Whether these are the cubes below so many, each once.
fn is_each_once(
    mut cubes: Vec<u32>,
    others: &[u32],
    left: &[u32],
    count: usize,
) -> Result<bool, AllocError> {
    cubes.extend_from_slice(others)?;
    cubes.extend_from_slice(left)?;
    cubes.sort()?;
    let is_placed = |(place, cube): (usize, &u32)| *cube as usize == place;
    Ok(cubes.len() == count && cubes.iter().enumerate().all(is_placed))
}

#[test]
fn each_cube_once(rt: HostRuntime) -> Result<(), Fail> {
    let alloc = rt.alloc();
    let (owner, mut thieves) = CubeDeque::make(alloc, 1)?;
    let Some(thief) = thieves.pop() else {
        panic!(rt; "no thief");
    };
    let (worked, robbed) = thread::join(
        &rt,
        move ||
            ensures { IfOk result (λ r. IsSameOwner owner r.0) }
        { work(owner, alloc, 1_000) },
        move ||
            ensures { IfOk result (λ r. IsSameThief thief r.0) }
        { rob(thief, alloc, 300) },
    );
    let Ok(worked) = worked else {
        panic!(rt; "no memory for what is popped");
    };
    let Ok(robbed) = robbed else {
        panic!(rt; "no memory for what is stolen");
    };
    let (owner, popped) = worked;
    let (thief, stolen) = robbed;
    thieves.push(thief)?;
    let Ok(Tally { left }) = settle(owner, thieves) else {
        panic!(rt; "not settled");
    };
    let all = is_each_once(popped, stolen.as_slice(), left.as_slice(), 1_000)?;
    assert!(rt; all);
    Ok(())
}

/// Puts a cube into this worker's deque.
fn put(supplies: &mut [Supply], worker: usize, cube: u32) -> Result<(), u32>
    requires worker { worker < length supplies.old }
    requires dealt { AreSupplies supplies.old }
    ensures { AreSupplies supplies.new }
{
    supplies[worker].put(cube)
}

/// Takes a cube as this worker.
fn take(supplies: &mut [Supply], worker: usize) -> Option<u32>
    requires worker { worker < length supplies.old }
    requires dealt { AreSupplies supplies.old }
    ensures { AreSupplies supplies.new }
{
    supplies[worker].take()
}

#[test]
fn the_next_one_steals(rt: HostRuntime) -> Result<(), Fail> {
    let mut supplies = deal(rt.alloc(), 2)?;
    for cube in 7..10_u32 {
        assert!(rt; put(supplies.as_mut_slice(), 0, cube).is_ok());
    }
    let stolen = take(supplies.as_mut_slice(), 1);
    let taken = take(supplies.as_mut_slice(), 0);
    assert_eq!(rt; (stolen, taken), (Some(7), Some(8)));
    let left = settle_all(rt.alloc(), supplies)?;
    assert_eq!(rt; left.as_slice(), [9].as_slice());
    Ok(())
}

#[test]
fn the_last_one_takes_all(rt: HostRuntime) -> Result<(), Fail> {
    let mut supplies = deal(rt.alloc(), 64)?;
    for worker in 0..64_u32 {
        assert!(rt; put(supplies.as_mut_slice(), worker as usize, worker).is_ok());
    }
    assert!(rt; take(supplies.as_mut_slice(), 63) == Some(63));
    for cube in 0..63_u32 {
        assert!(rt; take(supplies.as_mut_slice(), 63) == Some(cube));
    }
    assert!(rt; take(supplies.as_mut_slice(), 63).is_none());
    let left = settle_all(rt.alloc(), supplies)?;
    assert!(rt; left.is_empty());
    Ok(())
}

#[test]
fn many_in_one(rt: HostRuntime) -> Result<(), Fail> {
    let mut supplies = deal(rt.alloc(), 1)?;
    for cube in 0..5_000_u32 {
        assert_eq!(rt; put(supplies.as_mut_slice(), 0, cube), Ok(()));
    }
    let left = settle_all(rt.alloc(), supplies)?;
    assert_eq!(rt; left.len(), 5_000);
    for (place, cube) in left.iter().enumerate() {
        assert_eq!(rt; *cube as usize, place);
    }
    Ok(())
}

/// Puts the cubes from the first one on and takes so often. Answers what was taken.
fn turns(
    mut supply: Supply,
    alloc: Global,
    first: u32,
    takes: u32,
) -> Result<(Supply, Vec<u32>), AllocError>
    ensures { IfOk result (λ r. IsSameSupply supply r.0) }
{
    for cube in first..first.saturating_add(500) {
        let Ok(()) = supply.put(cube) else {
            return Err(AllocError);
        };
    }
    let mut taken = Vec::new(alloc);
    for _ in 0..takes {
        if let Some(cube) = supply.take() {
            taken.push(cube)?;
        }
    }
    Ok((supply, taken))
}

#[test]
fn two_take_each_cube_once(rt: HostRuntime) -> Result<(), Fail> {
    let alloc = rt.alloc();
    let mut supplies = deal(alloc, 2)?;
    let Some(second) = supplies.pop() else {
        panic!(rt; "no second");
    };
    let Some(first) = supplies.pop() else {
        panic!(rt; "no first");
    };
    let (one, other) = thread::join(
        &rt,
        move ||
            ensures { IfOk result (λ r. IsSameSupply first r.0) }
        { turns(first, alloc, 0, 100) },
        move ||
            ensures { IfOk result (λ r. IsSameSupply second r.0) }
        { turns(second, alloc, 500, 700) },
    );
    let Ok(one) = one else {
        panic!(rt; "no memory for the first");
    };
    let Ok(other) = other else {
        panic!(rt; "no memory for the second");
    };
    let (first, cubes) = one;
    let (second, taken) = other;
    supplies.push(first)?;
    supplies.push(second)?;
    let left = settle_all(alloc, supplies)?;
    assert!(rt; is_each_once(cubes, taken.as_slice(), left.as_slice(), 1_000)?);
    Ok(())
}
