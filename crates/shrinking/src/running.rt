//! Texts of any length, and where the run of their programs ends that buffers least.

ghost use Rattle.std.specs.Prelude.{◌≡◌, IfOk, IfSome, OnOk};
ghost use Rattle.shrinking.specs.Shrinking.{CanHangLong, IsShrunkLong};

use crate::excerpts::Excerpt;
use crate::lines::count_lines;
use crate::trying::is_smaller;
use crate::units::{Units, units_of};
use callorder::LongProgram;
use deciding::{Undecided, program_of};
use leastrun::least_buffered_run;
use semantics::State;
use std::alloc::{AllocError, Global};

/// A text that hangs: its program, and its units by the run of it that buffers least.
#[derive(Drop)]
pub struct Hanging {
    pub excerpt: Excerpt,
    pub program: LongProgram,
    pub units: Units,
}

/// Where the run of a text's program ends that buffers least, if it is stuck; none too where the
/// text is no program's.
fn stuck_end(alloc: Global, text: &[u8]) -> Result<Option<(LongProgram, State)>, AllocError>
    ensures { IfOk result (λ end. IfSome end (λ _. CanHangLong text.now)) }
{
    match program_of(alloc, text) {
        Err(Undecided::Memory) => Err(AllocError),
        Err(_fault) => Ok(None),
        Ok(program) => {
            let (_steps, end) = least_buffered_run(alloc, &program)?;
            if end.unfinished(&program).is_some() {
                return Ok(Some((program, end)));
            }
            Ok(None)
        }
    }
}

/// The text with its program and units, if that run of it ends stuck.
pub fn read_hanging(alloc: Global, excerpt: Excerpt) -> Result<Option<Hanging>, AllocError>
    ensures same { IfOk result (λ found. IfSome found (λ hanging. hanging.excerpt.text.items ≡ excerpt.text.items)) }
    ensures hangs { IfOk result (λ found. IfSome found (λ hanging. CanHangLong excerpt.text.items)) }
{
    let found = stuck_end(alloc, &excerpt.text)?;
    let Some((program, end)) = found else {
        return Ok(None);
    };
    let units = units_of(alloc, &excerpt.text, &program, &end)?;
    Ok(Some(Hanging {
        excerpt,
        program,
        units,
    }))
}

/// Takes the candidate in the text's place, where it is smaller and still hangs. Each question
/// takes as many lines off what is left as the candidate has; where none are left, none is taken.
pub fn improve_long(
    alloc: Global,
    best: &mut Hanging,
    candidate: Excerpt,
    left: &mut u64,
) -> Result<(), AllocError>
    requires { CanHangLong best.old.excerpt.text.items }
    ensures { OnOk result (IsShrunkLong best.old.excerpt.text.items best.new.excerpt.text.items) }
{
    if *left == 0 || !is_smaller(&candidate.text, &best.excerpt.text) {
        return Ok(());
    }
    *left = left.saturating_sub(count_lines(&candidate.text) as u64);
    let found = read_hanging(alloc, candidate)?;
    let Some(smaller) = found else {
        return Ok(());
    };
    *best = smaller;
    Ok(())
}
