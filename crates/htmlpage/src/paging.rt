//! The page.

ghost use Rattle.std.specs.Prelude.{◌≡◌, ◌++◌, List, ℕ, IfOk, IfSome, OnOk, option_copied};
ghost use Rattle.std.specs.List.{flat_map};
ghost use Rattle.semantics.specs.RunEnds.{IsFinishedRun};
ghost use Rattle.semantics.specs.Machine.{IsStuckRun};
ghost use Rattle.htmlpage.specs.Page.{AreTimelines, IsPage, IsWellPart, listing, page_with};

use crate::listing::put_listing;
use callorder::LongProgram;
use calltext::LongSource;
use charts::{picture, put_escaped};
use scene::{CallLabel, call_labels, play};
use semantics::{State, Step};
use std::alloc::{AllocError, Global};
use writing::put_text;

/// What stands before the words.
const HEAD: &str =
    "<!DOCTYPE html>\n<html lang=\"en\">\n<head>\n<meta charset=\"utf-8\">\n<meta name=\"viewport\" content=\"width=device-width\">\n<title>mpiprove: deadlock</title>\n<style>\nbody { margin: 1.5em; font-family: \"DejaVu Sans\", Helvetica, sans-serif; }\npre { font-size: 13px; overflow-x: auto; }\n.timeline { overflow: auto; max-height: 90vh; border: 1px solid #ddd; }\n.timeline svg { overflow: visible; padding-right: 40em; }\nmark { background: #fbdada; }\n</style>\n</head>\n<body>\n<h1>Deadlock</h1>\n<pre>";

/// Adds the timeline of a run that ends well to that of another one, where its steps are given.
fn put_well_part(
    out: &mut Vec<u8>,
    alloc: Global,
    text: &[u8],
    source: &LongSource,
    program: &LongProgram,
    well: Option<&[Step]>,
) -> Result<(), AllocError>
    requires { IfSome (option_copied well) (IsFinishedRun program.now) }
    ensures { OnOk result ((part : List ℕ) ×
        IsWellPart text.now source.now program.now (option_copied well.entry) part ×
        (out.new.items ≡ out.old.items ++ part)) }
{
    let Some(steps) = well else {
        return Ok(());
    };
    let drawn = picture(alloc, text, source, program, steps)?;
    put_text(
        out,
        "</div>\n<h2>A run that ends well</h2>\n<div class=\"timeline\">\n",
    )?;
    out.extend_from_slice(&drawn)?;
    Ok(())
}

/// The timeline of a run that ends stuck, and below it that of a run that ends well, where its
/// steps are given.
fn timelines(
    alloc: Global,
    text: &[u8],
    source: &LongSource,
    program: &LongProgram,
    steps: &[Step],
    well: Option<&[Step]>,
) -> Result<Vec<u8>, AllocError>
    requires stuck { IsStuckRun program.now steps.now }
    requires well { IfSome (option_copied well) (IsFinishedRun program.now) }
    ensures { IfOk result (λ drawn. AreTimelines text.now source.now program.now steps.now (option_copied well.entry) drawn.items) }
{
    let mut drawn = picture(alloc, text, source, program, steps)?;
    put_well_part(&mut drawn, alloc, text, source, program, well)?;
    Ok(drawn)
}

/// Writes the page of these words and what is drawn.
fn put_page(
    out: &mut Vec<u8>,
    alloc: Global,
    text: &[u8],
    program: &LongProgram,
    end: &State,
    calls: &[CallLabel],
    words: &[u8],
    drawn: &[u8],
) -> Result<(), AllocError>
    ensures { OnOk result (out.new.items ≡
        out.old.items ++ page_with words.now drawn.now (listing text.now program.now end.now calls.now)) }
{
    put_text(out, HEAD)?;
    put_escaped(out, words)?;
    put_text(out, "</pre>\n<h2>Timeline</h2>\n<div class=\"timeline\">\n")?;
    out.extend_from_slice(drawn)?;
    put_text(out, "</div>\n<h2>Program</h2>\n<pre>")?;
    put_listing(out, alloc, text, program, end, calls)?;
    put_text(out, "</pre>\n</body>\n</html>\n")?;
    Ok(())
}

/// The page of these words and what is drawn.
fn page_of(
    alloc: Global,
    text: &[u8],
    program: &LongProgram,
    end: &State,
    calls: &[CallLabel],
    words: &[u8],
    drawn: &[u8],
) -> Result<Vec<u8>, AllocError>
    ensures { IfOk result (λ page. page.items ≡ page_with words.now drawn.now (listing text.now program.now end.now calls.now)) }
{
    let mut out = Vec::new(alloc);
    put_page(&mut out, alloc, text, program, end, calls, words, drawn)?;
    Ok(out)
}

/// A page in HTML that stands alone, on a run of a program that ends stuck: what `words` tell of
/// it, the timeline that [`picture`](charts::picture) draws, and the lines of the program's text,
/// those marked that ranks wait in. Of a program of more than 64 ranks or 1,024 calls it lists
/// those alone. Where `well`, the steps of a run in which all ranks finish, are given, its timeline
/// stands below the first one, so that both can be compared. `text` is the program's text, `source`
/// what it says, and `program` its calls. The only error is want of memory.
pub fn page(
    alloc: Global,
    text: &[u8],
    source: &LongSource,
    program: &LongProgram,
    steps: &[Step],
    well: Option<&[Step]>,
    words: &[u8],
) -> Result<Vec<u8>, AllocError>
    requires stuck { IsStuckRun program.now steps.now }
    requires well { IfSome (option_copied well) (IsFinishedRun program.now) }
    ensures { IfOk result (λ page. IsPage text.now source.now program.now steps.now (option_copied well.entry) words.now page.items) }
{
    let drawn = timelines(alloc, text, source, program, steps, well)?;
    let calls = call_labels(alloc, text, source, program)?;
    let played = play(alloc, program, steps)?;
    let out = page_of(alloc, text, program, &played.end, &calls, words, &drawn)?;
    Ok(out)
}
