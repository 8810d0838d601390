//! Calls as a text or a graph names them.

use scene::Scene;
use std::alloc::AllocError;
use writing::put_characters;

/// Tells a call by its line alone.
pub fn put_line(out: &mut String, scene: &Scene<'_>, call: usize) -> Result<(), AllocError> {
    let Some(label) = scene.labels.get(call) else {
        return Ok(());
    };
    let line = label.line();
    write!(out, "line {line}: ")?;
    put_characters(out, label.words())
}

/// Tells a call by its line and its rank.
pub fn put_call_of(out: &mut String, scene: &Scene<'_>, call: usize) -> Result<(), AllocError> {
    let Some(label) = scene.labels.get(call) else {
        return Ok(());
    };
    put_line(out, scene, call)?;
    let rank = label.rank();
    write!(out, " of rank {rank}")
}

/// Tells a call by the number of its line and its rank alone.
pub fn put_number_of(out: &mut String, scene: &Scene<'_>, call: usize) -> Result<(), AllocError> {
    let Some(label) = scene.labels.get(call) else {
        return Ok(());
    };
    let line = label.line();
    let rank = label.rank();
    write!(out, "line {line} of rank {rank}")
}

/// Tells a number, or a run of three and more by its ends, and how many numbers that are.
fn put_run(out: &mut String, first: u32, count: u32) -> Result<u32, AllocError> {
    write!(out, "{first}")?;
    if count < 3 {
        return Ok(1);
    }
    let last = first.saturating_add(count.saturating_sub(1));
    write!(out, " to {last}")?;
    Ok(count)
}

/// Tells numbers in rising order, runs of three and more by their ends, and at most so many of
/// these parts: `1, 2, 5 to 9, ..`.
pub fn put_numbers(out: &mut String, numbers: &[u32], most: usize) -> Result<(), AllocError> {
    let mut passed: u32 = 0;
    let mut parts: usize = 0;
    for (place, first) in numbers.iter().enumerate() {
        if passed > 0 {
            passed = passed.saturating_sub(1);
            continue;
        }
        if parts > 0 {
            out.push_str(", ")?;
        }
        if parts == most {
            return out.push_str("..");
        }
        let told = put_run(out, *first, rising_from(numbers, place))?;
        passed = told.saturating_sub(1);
        parts = parts.saturating_add(1);
    }
    Ok(())
}

/// How many numbers from this place on are each one more than the one before.
fn rising_from(numbers: &[u32], place: usize) -> u32 {
    let Some(first) = numbers.get(place) else {
        return 0;
    };
    let mut count: u32 = 0;
    for number in numbers.iter().skip(place) {
        if *number != first.saturating_add(count) {
            return count;
        }
        count = count.saturating_add(1);
    }
    count
}
