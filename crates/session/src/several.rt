//! The commands `decide` and `explain` for several programs, from the files that they name to the
//! page that they print.
ghost use Rattle.std.specs.Prelude.{◌≡◌, ◌∷◌, ◌++◌, [], IfErr, IfOk, List, OnOk, codes, map, ℕ};
ghost use Rattle.command_line.specs.Requests.{path_of};
ghost use Rattle.session.specs.parts.Pages.{StopsBy};
ghost use Rattle.session.specs.Pages.{ChangesAtMost, IsProgramFile, IsWritten};
ghost use Rattle.junit.specs.Report.{Case, IsOf, report_text};
ghost use Rattle.session.specs.Sweeping.{graver};
ghost use Rattle.shrinking.specs.Mapping.{shown_byte};
ghost use Rattle.session.specs.Several.{IsDecidedEach, IsDecidedIn, IsExplainedEach, IsFileOfEach, file_row, outcome_of};

use crate::commands::{Stop, write};
use crate::decide::{decision_line, read_whole};
use crate::explained::decided_first;
use crate::page::{Page, quoted};
use crate::status::{DEADLOCK, NO_DEADLOCK};
use crate::swept::{behind_first, form_of_answer, graver};
use command_line::{ToDecideEach, ToExplainEach};
use deciding::decide;
use files::FileSet;
use junit::{Report, TestOutcome};
use options::Form;
use prooflog::Text;
use shrinking::shown;
use std::alloc::{AllocError, Global};
use std::sync::Wait;
use std::thread::Threads;
use writing::{Part, put_parts};

/// What is told of the first programs.
#[derive(Drop)]
pub struct Answers {
    text: Vec<u8>,
    status: u8,
    report: Report,
}

/// Adds the row of the program of a file.
fn put_file_row(
    text: &mut Vec<u8>,
    alloc: Global,
    form: Form,
    path: &str,
    page: &[u8],
) -> Result<(), AllocError>
    ensures { OnOk result (text.new.items ≡ text.old.items ++ file_row form path.now page.now) }
{
    match form {
        Form::Object => put_object_row(text, alloc, path, page),
        Form::Messages => put_text_row(text, alloc, path, ":\n", page),
        Form::Brief | Form::Whole | Form::Graph | Form::Chart | Form::Picture | Form::Page => {
            put_text_row(text, alloc, path, ": ", page)
        }
    }
}

/// Adds a row whose first member is the path.
fn put_object_row(
    text: &mut Vec<u8>,
    alloc: Global,
    path: &str,
    page: &[u8],
) -> Result<(), AllocError>
    ensures { OnOk result (text.new.items ≡ text.old.items ++ file_row Form.Object path.now page.now) }
{
    let name = quoted(alloc, path)?;
    text.extend_from_slice(b"{\"program\":")?;
    text.extend_from_slice(name.as_bytes())?;
    text.push(b',')?;
    text.extend_from_slice(behind_first(page))
}

/// Adds a row with this between the path as it can be shown and the page.
fn put_text_row(
    text: &mut Vec<u8>,
    alloc: Global,
    path: &str,
    parting: &str,
    page: &[u8],
) -> Result<(), AllocError>
    ensures { OnOk result (text.new.items ≡ text.old.items ++ (codes "program " ++ (map shown_byte path.now ++ (parting.now ++ page.now)))) }
{
    let path = shown(alloc, path)?;
    put_shown_row(text, &path, parting, page)
}

/// Adds a row with this between the path and the page.
fn put_shown_row<'a>(
    text: &mut Vec<u8>,
    path: &'a [u8],
    parting: &'a str,
    page: &'a [u8],
) -> Result<(), AllocError>
    ensures { OnOk result (text.new.items ≡ text.old.items ++ (codes "program " ++ (path.now ++ (parting.now ++ page.now)))) }
{
    put_parts(
        text,
        &[
            Part::Text("program "),
            Part::Bytes(path),
            Part::Text(parting),
            Part::Bytes(page),
        ],
    )
}

/// What an answer with this status counts as in a report of tests.
fn outcome_of(status: u8) -> TestOutcome
    ensures { result ≡ outcome_of status }
{
    if status == NO_DEADLOCK {
        TestOutcome::Passed
    } else if status == DEADLOCK {
        TestOutcome::Failed
    } else {
        TestOutcome::Broken
    }
}

impl Answers {
    /// Nothing is told yet.
    fn new(alloc: Global) -> Answers
        ensures text { result.text.items ≡ [] }
        ensures status { result.status ≡ 0 }
        ensures report { IsOf [] result.report }
    {
        Answers {
            text: Vec::new(alloc),
            status: NO_DEADLOCK,
            report: Report::new(alloc),
        }
    }

    /// Adds the page of the program of a file.
    fn add(&mut self, alloc: Global, form: Form, path: &str, page: &Page) -> Result<(), AllocError>
        ensures text { OnOk result (self.new.text.items ≡ self.old.text.items ++ file_row form path.now page.now.text.items) }
        ensures status { OnOk result (self.new.status ≡ graver self.old.status page.now.status) }
        ensures report { (cases : List Case) → IsOf cases self.old.report
            → OnOk result (IsOf (cases ++ record { name = path.now; outcome = outcome_of page.now.status; text = page.now.text.items } ∷ []) self.new.report) }
    {
        put_file_row(&mut self.text, alloc, form, path, &page.text)?;
        self.status = graver(self.status, page.status);
        self.report.add(path, outcome_of(page.status), &page.text)
    }
}

/// The page of several programs. A report of them is written where a file is named.
fn reported_page<'a, F: FileSet>(
    alloc: Global,
    answers: Answers,
    junit: Option<&'a str>,
    files: &mut F,
) -> Result<Page, Stop<'a>>
    ensures text { IfOk result (λ page. page.text.items ≡ answers.text.items) }
    ensures status { IfOk result (λ page. page.status ≡ answers.status) }
    ensures written { (cases : List Case) → IsOf cases answers.report
        → OnOk result (IsWritten F.tells_written (F.held files.old) (F.held files.new) (path_of junit.entry) (report_text cases)) }
    ensures others { ChangesAtMost (path_of junit.entry) (F.held files.old) (F.held files.new) }
    ensures stop { IfErr result (StopsBy (λ path. path_of junit.entry ≡ Some path) (F.held files.old) (F.held files.new)) }
{
    let Answers {
        text,
        status,
        report,
    } = answers;
    if let Some(path) = junit {
        let report = Text::of(alloc, report.text(alloc)?);
        write(path, &report, files)?;
    }
    Ok(Page { text, status })
}

/// The page of what one run decides of the program of a file.
fn decided_in<'a, F: FileSet>(
    alloc: Global,
    path: &'a str,
    json: bool,
    files: &mut F,
) -> Result<Page, Stop<'a>>
    ensures page { IfOk result (λ page. IsDecidedIn (F.held files.old) json path.entry.now page.text.items page.status) }
    ensures same { F.held files.new ≡ F.held files.old }
    ensures same_reads { F.reads files.new ≡ F.reads files.old }
    ensures stop { IfErr result (StopsBy (IsProgramFile (F.reads files.old) path.entry.now)
        (F.held files.old) (F.held files.new)) }
{
    let text = read_whole(alloc, path, files)?;
    let decided = decide(alloc, &text);
    Ok(decision_line(alloc, &text, &decided, json)?)
}

/// Decides by one run of each of several programs whether some run of it gets stuck, and writes a
/// report where a file is named for it. No other file changes.
pub fn decide_each_page<'a, F: FileSet>(
    alloc: Global,
    asked: &ToDecideEach<'a>,
    files: &mut F,
) -> Result<Page, Stop<'a>>
    ensures page { IfOk result (λ page.
        IsDecidedEach F.tells_written (F.held files.old) (F.held files.new) (map (λ p. p.now) asked.now.programs.items)
        (path_of asked.now.junit) asked.now.json page.text.items page.status) }
    ensures others { ChangesAtMost (path_of asked.now.junit) (F.held files.old) (F.held files.new) }
    ensures stop { IfErr result (StopsBy (IsFileOfEach (F.reads files.old) (map (λ p. p.now) asked.now.programs.items)
        (path_of asked.now.junit) (F.held files.old) (F.held files.new)) (F.held files.old) (F.held files.new)) }
{
    let mut answers = Answers::new(alloc);
    for path in &asked.programs {
        let page = decided_in(alloc, path, asked.json, files)?;
        answers.add(alloc, form_of_answer(asked.json), path, &page)?;
    }
    reported_page(alloc, answers, asked.junit, files)
}

/// Explains what one run decides, or a search finds, of each of several programs, and writes a
/// report where a file is named for it. No other file changes.
pub fn explain_each_page<'a, R: Threads + Wait + Sync, F: FileSet>(
    rt: &R,
    alloc: Global,
    asked: &ToExplainEach<'a>,
    files: &mut F,
) -> Result<Page, Stop<'a>>
    ensures page { IfOk result (λ page.
        IsExplainedEach F.tells_written (F.held files.old) (F.held files.new) (map (λ p. p.now) asked.now.programs.items)
        (path_of asked.now.junit) asked.now.options.budget asked.now.form page.text.items page.status) }
    ensures others { ChangesAtMost (path_of asked.now.junit) (F.held files.old) (F.held files.new) }
    ensures stop { IfErr result (StopsBy (IsFileOfEach (F.reads files.old) (map (λ p. p.now) asked.now.programs.items)
        (path_of asked.now.junit) (F.held files.old) (F.held files.new)) (F.held files.old) (F.held files.new)) }
{
    let mut answers = Answers::new(alloc);
    for path in &asked.programs {
        let page = decided_first(rt, alloc, path, asked.options, asked.form, files)?;
        answers.add(alloc, asked.form, path, &page)?;
    }
    reported_page(alloc, answers, asked.junit, files)
}
