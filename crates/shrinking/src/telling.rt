//! Which lines are left, told.

ghost use Rattle.std.specs.Prelude.{◌≡◌, ◌∷◌, ◌++◌, IfOk, List, OnOk, ℕ};
ghost use Rattle.shrinking.specs.Told.{before_runs, left_text, run_text, runs_of, runs_text};

use std::alloc::{AllocError, Global};
use writing::{put_number, put_text};

/// Tells numbers that follow one another: three and more by their ends.
fn put_run(out: &mut Vec<u8>, first: usize, last: usize) -> Result<(), AllocError>
    ensures { OnOk result (out.new.items ≡ out.old.items ++ run_text (record { first = first; last = last })) }
{
    put_number(out, first as u128)?;
    if last == first {
        return Ok(());
    }
    if last as u128 == first as u128 + 1 {
        put_text(out, ", ")?;
    } else {
        put_text(out, " to ")?;
    }
    put_number(out, last as u128)
}

/// Goes on with the next number, which the run goes on with, or which begins the next one. The run
/// before that is told then. Answers the first number of the run.
fn go_on(out: &mut Vec<u8>, first: usize, last: usize, number: usize) -> Result<usize, AllocError>
    ensures { IfOk result (λ next. (others : List ℕ)
        → out.new.items ++ runs_text (before_runs (record { first = next; last = number }) (runs_of others))
        ≡ out.old.items ++ runs_text (before_runs (record { first = first; last = last }) (runs_of (number ∷ others)))) }
{
    if number as u128 == last as u128 + 1 {
        return Ok(first);
    }
    put_run(out, first, last)?;
    put_text(out, ", ")?;
    Ok(number)
}

/// Tells numbers, those that follow one another by their ends.
fn put_numbers(out: &mut Vec<u8>, numbers: &[usize]) -> Result<(), AllocError>
    ensures { OnOk result (out.new.items ≡ out.old.items ++ runs_text (runs_of numbers.now)) }
{
    let Some((front, others)) = numbers.split_first() else {
        return Ok(());
    };
    let mut first = *front;
    let mut last = *front;
    for number in others {
        first = go_on(out, first, last, *number)?;
        last = *number;
    }
    put_run(out, first, last)
}

/// The line that tells which lines are left, by their numbers, which rise.
pub fn left_line(alloc: Global, numbers: &[usize]) -> Result<Vec<u8>, AllocError>
    ensures { IfOk result (λ line. line.items ≡ left_text numbers.now) }
{
    let mut out = Vec::from_slice(alloc, b"lines left: ")?;
    put_numbers(&mut out, numbers)?;
    out.push(b'\n')?;
    Ok(out)
}
