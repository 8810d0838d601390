//! The report.

ghost use Rattle.std.specs.Prelude.{◌≡◌, ◌+◌, ◌∷◌, ◌++◌, [], IfOk, List, OnOk};
ghost use Rattle.junit.specs.Report.{Case, IsOf, case_text, element, first_text_line, report_text, outcome_text};

use crate::escaping::put_escaped;
use plaintext::next_line;
use std::alloc::{AllocError, Global};
use writing::{Part, put_parts, put_text};

/// What came of a test.
#[derive(Clone, Copy, PartialEq, Eq)]
pub enum TestOutcome {
    /// It passed.
    Passed,
    /// It failed.
    Failed,
    /// It told neither.
    Broken,
}

/// A report of tests, to which one after another is added.
#[derive(Drop)]
pub struct Report {
    cases: Vec<u8>,
    tests: usize,
    failures: usize,
    errors: usize,
}

/// A number and one more. More than memory holds don't come.
fn next(number: usize) -> Result<usize, AllocError>
    ensures { IfOk result (λ next. next ≡ number + 1) }
{
    match number.checked_add(1) {
        Some(next) => Ok(next),
        None => Err(AllocError),
    }
}

/// The first line of a text, without its LF.
fn first_line(text: &[u8]) -> &[u8]
    ensures { result.now ≡ first_text_line text.now }
{
    match next_line(text) {
        None => text,
        Some((line, _behind)) => line,
    }
}

/// Writes an element with a text, and the first line of that as its message.
fn put_element(out: &mut Vec<u8>, tag: &str, text: &[u8]) -> Result<(), AllocError>
    ensures { OnOk result (out.new.items ≡ out.old.items ++ element tag.now text.now) }
{
    put_parts(
        out,
        &[Part::Text("<"), Part::Text(tag), Part::Text(" message=\"")],
    )?;
    put_escaped(out, first_line(text))?;
    put_text(out, "\">")?;
    put_escaped(out, text)?;
    put_parts(out, &[Part::Text("</"), Part::Text(tag), Part::Text(">")])
}

/// Writes what is told of a test that didn't pass.
fn put_told(out: &mut Vec<u8>, outcome: TestOutcome, text: &[u8]) -> Result<(), AllocError>
    ensures { OnOk result (out.new.items ≡ out.old.items ++ outcome_text outcome text.now) }
{
    match outcome {
        TestOutcome::Passed => Ok(()),
        TestOutcome::Failed => put_element(out, "failure", text),
        TestOutcome::Broken => put_element(out, "error", text),
    }
}

/// Writes a test.
fn put_case(
    out: &mut Vec<u8>,
    name: &str,
    outcome: TestOutcome,
    text: &[u8],
) -> Result<(), AllocError>
    ensures { OnOk result (out.new.items ≡ out.old.items ++ case_text (record { name = name.now; outcome = outcome; text = text.now })) }
{
    put_text(out, "<testcase classname=\"mpiprove\" name=\"")?;
    put_escaped(out, name.as_bytes())?;
    put_text(out, "\">")?;
    put_told(out, outcome, text)?;
    put_text(out, "</testcase>\n")
}

impl Report {
    /// A report of no test.
    pub fn new(alloc: Global) -> Report
        ensures { IsOf [] result }
    {
        Report {
            cases: Vec::new(alloc),
            tests: 0,
            failures: 0,
            errors: 0,
        }
    }

    /// Adds a test with this name. The text tells what came of it; in the report it stands of one
    /// that didn't pass alone, and its first line is the message. A byte that is neither LF nor
    /// printable ASCII becomes a question mark. The only error is want of memory, behind which the
    /// report isn't to be used.
    pub fn add(&mut self, name: &str, outcome: TestOutcome, text: &[u8]) -> Result<(), AllocError>
        ensures { (cases : List Case) → IsOf cases self.old
            → OnOk result (IsOf (cases ++ record { name = name.now; outcome = outcome; text = text.now } ∷ []) self.new) }
    {
        put_case(&mut self.cases, name, outcome, text)?;
        self.tests = next(self.tests)?;
        match outcome {
            TestOutcome::Passed => {}
            TestOutcome::Failed => self.failures = next(self.failures)?,
            TestOutcome::Broken => self.errors = next(self.errors)?,
        }
        Ok(())
    }

    /// The text of the report. The only error is want of memory.
    pub fn text(&self, alloc: Global) -> Result<Vec<u8>, AllocError>
        ensures { (cases : List Case) → IsOf cases self.now → IfOk result (λ text. text.items ≡ report_text cases) }
    {
        let mut text = Vec::new(alloc);
        put_parts(
            &mut text,
            &[
                Part::Text(
                    "<?xml version=\"1.0\" encoding=\"UTF-8\"?>\n<testsuite name=\"mpiprove\" tests=\"",
                ),
                Part::Number(self.tests as u128),
                Part::Text("\" failures=\""),
                Part::Number(self.failures as u128),
                Part::Text("\" errors=\""),
                Part::Number(self.errors as u128),
                Part::Text("\">\n"),
                Part::Bytes(&self.cases),
                Part::Text("</testsuite>\n"),
            ],
        )?;
        Ok(text)
    }
}
