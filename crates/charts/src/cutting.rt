//! Which steps of a run are drawn.

ghost use Rattle.std.specs.Prelude.{◌≡◌, ◌≤◌, ◌++◌, OnOk, length, drop};
ghost use Rattle.charts.specs.Chart.{undrawn, undrawn_line, undrawn_text, undrawn_words};

use callorder::LongProgram;
use scene::{Act, is_large};
use std::alloc::AllocError;
use writing::{Part, put_parts, put_text};

/// The most steps of a run of a large program that are drawn.
const MOST_STEPS: usize = 400;

/// How many of so many steps come before the drawn ones: of a run of a large program the last 400
/// are drawn, else all.
pub fn undrawn(program: &LongProgram, steps: usize) -> usize
    ensures value { result ≡ undrawn program.now steps }
    ensures few { result ≤ steps }
{
    if is_large(program) {
        steps.saturating_sub(MOST_STEPS)
    } else {
        0
    }
}

/// What steps do behind the first ones, so many.
pub fn behind(acts: &[Act], before: usize) -> &[Act]
    requires { before ≤ length acts.now }
    ensures { result.now ≡ drop before acts.now }
{
    &acts[before..]
}

/// Writes how many steps come before the drawn ones.
fn put_words(out: &mut Vec<u8>, count: usize) -> Result<(), AllocError>
    ensures { OnOk result (out.new.items ≡ out.old.items ++ undrawn_words count) }
{
    put_parts(
        out,
        &[Part::Number(count as u128), Part::Text(" steps before")],
    )
}

/// Writes a line that tells how many steps come before the drawn ones, where some do.
pub fn put_undrawn_line(out: &mut Vec<u8>, count: usize) -> Result<(), AllocError>
    ensures { OnOk result (out.new.items ≡ out.old.items ++ undrawn_line count) }
{
    if count == 0 {
        return Ok(());
    }
    put_words(out, count)?;
    put_text(out, "\n")
}

/// Draws how many steps come before the drawn ones, where some do.
pub fn put_undrawn_text(out: &mut Vec<u8>, count: usize) -> Result<(), AllocError>
    ensures { OnOk result (out.new.items ≡ out.old.items ++ undrawn_text count) }
{
    if count == 0 {
        return Ok(());
    }
    put_text(out, "<text x=\"10\" y=\"46\" fill=\"#888\">")?;
    put_words(out, count)?;
    put_text(out, "</text>\n")?;
    Ok(())
}
