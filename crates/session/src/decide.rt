//! The command `decide`, from the file that it names to the page that it prints.
ghost use Rattle.std.specs.Prelude.{◌≡◌, IfErr, IfOk, OnOk, Some, false, option_map};
ghost use Rattle.deciding.specs.Decisions.{IsDecided, schedule_text};
ghost use Rattle.files.specs.Contents.{AreAll};
ghost use Rattle.command_line.specs.Requests.{path_of};
ghost use Rattle.session.specs.Endings.{IsFollowedRun};
ghost use Rattle.session.specs.Lines.{IsLine};
ghost use Rattle.session.specs.parts.Pages.{IsScheduleFile, StopsBy};
ghost use Rattle.session.specs.Pages.{ChangesAtMost, IsDecideFile, IsDecidedPage, IsDecisionPage, IsProgramFile, IsRacePage, IsScheduled, IsWritten};

use crate::commands::{Stop, decided_page, read};
use crate::page::{Page, page_of};
use crate::racing::race_text;
use crate::status::UNKNOWN;
use crate::told::Outcome;
use calltext::read_long;
use command_line::ToDecide;
use deciding::{CallerRace, Decision, Undecided, decide, decide_telling, schedule_text};
use files::{Extent, FileSet};
use prooflog::Text;
use scene::line_numbers;
use semantics::Step;
use std::alloc::{AllocError, Global};
use std::io::Write;

/// Decides by one run whether some run of the program of a text gets stuck, and tells meanwhile how
/// far it is, where that is asked for.
pub fn decide_text<E: Write>(
    alloc: Global,
    text: &[u8],
    progress: bool,
    err: &mut E,
) -> Result<Decision, Undecided>
    ensures decided { IsDecided text.now result }
    ensures followed { IsFollowedRun progress (Some text.now) (E.contents err.old) (E.contents err.new) }
{
    if progress {
        decide_telling(alloc, text, err)
    } else {
        decide(alloc, text)
    }
}

/// Decides by one run whether some run of the program of a file gets stuck, tells meanwhile how far
/// it is, where that is asked for, and writes the schedule of a deadlock to a file where one is
/// named. The page is made before the file is, so that no file changes where memory runs out.
pub fn decide_page<'a, F: FileSet, E: Write>(
    alloc: Global,
    asked: ToDecide<'a>,
    files: &mut F,
    err: &mut E,
) -> Result<Page, Stop<'a>>
    ensures page { IfOk result (λ page.
        IsDecidedPage F.tells_written (F.held files.old) (F.held files.new) asked.entry.program.now
        (path_of asked.entry.out) asked.entry.json page.text.items page.status) }
    ensures others { ChangesAtMost (path_of asked.entry.out) (F.held files.old) (F.held files.new) }
    ensures stop { IfErr result (StopsBy
        (IsDecideFile (F.reads files.old) asked.entry.program.now (path_of asked.entry.out) (F.held files.old) (F.held files.new))
        (F.held files.old) (F.held files.new)) }
    ensures followed { IsFollowedRun asked.entry.progress (F.held files.old asked.entry.program.now)
        (E.contents err.old) (E.contents err.new) }
{
    let text = read_whole(alloc, asked.program, files)?;
    let decision = decide_text(alloc, &text, asked.progress, err);
    decision_page(alloc, &text, &decision, asked.out, asked.json, files)
}

/// The whole content of the file at a path.
pub fn read_whole<'a, F: FileSet>(
    alloc: Global,
    path: &'a str,
    files: &mut F,
) -> Result<Vec<u8>, Stop<'a>>
    ensures bytes { IfOk result (λ bytes. AreAll (F.held files.old path.entry.now) bytes.items) }
    ensures same { F.held files.new ≡ F.held files.old }
    ensures same_reads { F.reads files.new ≡ F.reads files.old }
    ensures stop { IfErr result (StopsBy (IsProgramFile (F.reads files.old) path.entry.now)
        (F.held files.old) (F.held files.new)) }
{
    let bytes = read(alloc, path, &Extent::Most(usize::MAX), files)?;
    let _length = bytes.len();
    Ok(bytes)
}

/// The page of what is decided of a text. The schedule of a deadlock is written where a file is
/// named.
pub fn decision_page<'a, F: FileSet>(
    alloc: Global,
    text: &[u8],
    decided: &Result<Decision, Undecided>,
    out: Option<&'a str>,
    json: bool,
    files: &mut F,
) -> Result<Page, Stop<'a>>
    ensures page { IfOk result (λ page. IsDecisionPage json text.now decided.now page.text.items page.status) }
    ensures scheduled { OnOk result (IsScheduled F.tells_written (F.held files.old) (F.held files.new)
        (option_map (λ path. path.now) out.entry) decided.now) }
    ensures others { ChangesAtMost (option_map (λ path. path.now) out.entry) (F.held files.old) (F.held files.new) }
    ensures stop { IfErr result (StopsBy (IsScheduleFile decided.now (option_map (λ path. path.now) out.entry))
        (F.held files.old) (F.held files.new)) }
{
    match decided {
        Ok(Decision::Deadlock(steps)) => deadlock_page(alloc, steps, out, json, files),
        _ => Ok(decision_line(alloc, text, decided, json)?),
    }
}

/// The page of what is decided of a text.
pub fn decision_line(
    alloc: Global,
    text: &[u8],
    decided: &Result<Decision, Undecided>,
    json: bool,
) -> Result<Page, AllocError>
    ensures { IfOk result (λ page. IsDecisionPage json text.now decided.now page.text.items page.status) }
{
    match decided {
        Ok(Decision::NoDeadlock) => page_of(alloc, &Outcome::NoDeadlock, json),
        Ok(Decision::Deadlock(_steps)) => page_of(alloc, &Outcome::Deadlock, json),
        Ok(Decision::Race(race)) => race_page(alloc, text, *race, json),
        Err(why) => page_of(alloc, &Outcome::from(*why), json),
    }
}

/// The page of a deadlock, whose schedule is written where a file is named.
pub fn deadlock_page<'a, F: FileSet>(
    alloc: Global,
    steps: &[Step],
    out: Option<&'a str>,
    json: bool,
    files: &mut F,
) -> Result<Page, Stop<'a>>
    ensures line { IfOk result (λ page. IsLine Outcome.Deadlock json page.text.items page.status) }
    ensures written { OnOk result (IsWritten F.tells_written (F.held files.old) (F.held files.new)
        (option_map (λ path. path.now) out.entry) (schedule_text steps.now)) }
    ensures others { ChangesAtMost (option_map (λ path. path.now) out.entry) (F.held files.old) (F.held files.new) }
    ensures stop { IfErr result (StopsBy (λ path. option_map (λ file. file.now) out.entry ≡ Some path)
        (F.held files.old) (F.held files.new)) }
{
    if out.is_some() {
        let schedule = Text::of(alloc, schedule_text(alloc, steps)?);
        return decided_page(alloc, &Outcome::Deadlock, &schedule, out, json, files);
    }
    Ok(page_of(alloc, &Outcome::Deadlock, json)?)
}

/// The page of a race of the program of this text: the line that tells it, and the line of its
/// calls, or one JSON object.
pub fn race_page(
    alloc: Global,
    text: &[u8],
    race: CallerRace,
    json: bool,
) -> Result<Page, AllocError>
    ensures { IfOk result (λ page. IsRacePage json text.now race page.text.items page.status) }
{
    // The program was made of this text, so want of memory alone can be met.
    let Ok(source) = read_long(alloc, text) else {
        return Err(AllocError);
    };
    let lines = line_numbers(alloc, &source)?;
    let words = race_text(alloc, &lines, race, json)?;
    let text = words.into_bytes();
    let status = UNKNOWN;
    Ok(Page { text, status })
}
