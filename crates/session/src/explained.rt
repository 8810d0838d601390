//! The command `explain`, from the files that it names to the page that it prints.
ghost use Rattle.std.specs.Prelude.{◌≡◌, IfErr, IfOk, Ok};
ghost use Rattle.calltext.specs.Grammar.{long};
ghost use Rattle.semantics.specs.Headline.{IsNeverStuckWithin, IsStuckRunWithin};
ghost use Rattle.deciding.specs.Decisions.{Decides, IsDecided};
ghost use Rattle.command_line.specs.Requests.{path_of};
ghost use Rattle.reports.specs.Explanations.{IsRunDrawn, TellsSizes};
ghost use Rattle.session.specs.Explaining.{IsAnswerPage, IsDecidedFirst, IsDecisionExplained, IsExplainFile, IsExplainPage, IsExplained, IsExplanationPage, IsFoundPage, IsSearched, IsUndecidedPage, is_object};
ghost use Rattle.session.specs.parts.Pages.{StopsBy};
ghost use Rattle.session.specs.Pages.{IsEither, IsProgramFile};

use crate::commands::{Open, PIECES, Stop, Texts, helped_page, is_object, read_both};
use crate::decide::{race_page, read_whole};
use crate::page::{Page, page_of};
use crate::told::Outcome;
use calltext::Limits;
use command_line::ToExplain;
use deciding::{CallerRace, Decision, Undecided, decide, schedule_text};
use files::FileSet;
use options::Form;
use prooflog::Text;
use prover::{Answer, Options, Reason, prove};
use reports::{Explained, explain_evidence, explain_run, explain_sizes};
use semantics::Step;
use std::alloc::{AllocError, Global};
use std::sync::Wait;
use std::thread::Threads;

/// Explains what an evidence shows of a program, in a form; where none is named, what one run
/// decides, or where messages may race what the evidence shows that a search finds. No file
/// changes.
pub fn explain_page<'a, R: Threads + Wait + Sync, F: FileSet>(
    rt: &R,
    alloc: Global,
    asked: ToExplain<'a>,
    files: &mut F,
) -> Result<Page, Stop<'a>>
    ensures page { IfOk result (λ page.
        IsExplainPage (F.held files.old) asked.entry.program.now (path_of asked.entry.evidence) asked.entry.options.budget asked.entry.form
        page.text.items page.status) }
    ensures same { F.held files.new ≡ F.held files.old }
    ensures stop { IfErr result (StopsBy (IsExplainFile (F.reads files.old) asked.entry.program.now (path_of asked.entry.evidence))
        (F.held files.old) (F.held files.new)) }
{
    match asked.evidence {
        Some(evidence) => given_page(rt, alloc, asked.program, evidence, asked.form, files),
        None => decided_first(rt, alloc, asked.program, asked.options, asked.form, files),
    }
}

/// Decides by one run, and explains what it shows, in a form; where messages may race, searches for
/// an answer, and explains what its evidence shows. No file changes.
pub fn decided_first<'a, R: Threads + Wait + Sync, F: FileSet>(
    rt: &R,
    alloc: Global,
    program: &'a str,
    options: Options,
    form: Form,
    files: &mut F,
) -> Result<Page, Stop<'a>>
    ensures page { IfOk result (λ page.
        IsDecidedFirst (F.held files.old program.entry.now) options.budget form page.text.items page.status) }
    ensures same { F.held files.new ≡ F.held files.old }
    ensures same_reads { F.reads files.new ≡ F.reads files.old }
    ensures stop { IfErr result (StopsBy (IsProgramFile (F.reads files.old) program.entry.now)
        (F.held files.old) (F.held files.new)) }
{
    let text = read_whole(alloc, program, files)?;
    let decided = decide(alloc, &text);
    Ok(decision_explained(rt, alloc, &text, &decided, options, form)?)
}

/// The page that explains what one run decides of the program of a text.
pub fn decision_explained<R: Threads + Wait + Sync>(
    rt: &R,
    alloc: Global,
    text: &[u8],
    decided: &Result<Decision, Undecided>,
    options: Options,
    form: Form,
) -> Result<Page, AllocError>
    requires { IsDecided text.now decided.now }
    ensures { IfOk result (λ page. IsDecisionExplained options.budget form text.now decided.now page.text.items page.status) }
{
    match decided {
        Ok(decision) => decision_told(rt, alloc, text, decision, options, form),
        Err(why) => undecided_page(alloc, text, why, form),
    }
}

/// The page that tells why the program of a text isn't decided, and what helps.
pub fn undecided_page(
    alloc: Global,
    text: &[u8],
    why: &Undecided,
    form: Form,
) -> Result<Page, AllocError>
    ensures { IfOk result (λ page. IsUndecidedPage (is_object form) why.now page.text.items page.status) }
{
    match why {
        Undecided::Memory => Err(AllocError),
        Undecided::Read(fault) => {
            helped_page(
                alloc,
                Limits::long(),
                text,
                None,
                &Reason::Read(*fault),
                form,
            )
        }
        Undecided::Resolve(fault) => {
            helped_page(
                alloc,
                Limits::long(),
                text,
                None,
                &Reason::Resolve(*fault),
                form,
            )
        }
    }
}

/// The page that explains a decision on the program of a text.
fn decision_told<R: Threads + Wait + Sync>(
    rt: &R,
    alloc: Global,
    text: &[u8],
    decision: &Decision,
    options: Options,
    form: Form,
) -> Result<Page, AllocError>
    requires { Decides text.now decision.now }
    ensures { IfOk result (λ page. IsDecisionExplained options.budget form text.now (Ok decision.now) page.text.items page.status) }
{
    match decision {
        Decision::NoDeadlock => sizes_page(alloc, text, form),
        Decision::Deadlock(steps) => run_page(rt, alloc, text, steps, form),
        Decision::Race(race) => searched_page(rt, alloc, text, *race, options, form),
    }
}

/// The page of a program that never gets stuck.
fn sizes_page(alloc: Global, text: &[u8], form: Form) -> Result<Page, AllocError>
    requires { IsNeverStuckWithin long text.now }
    ensures told { IfOk result (λ page. TellsSizes form text.now page.text.items) }
    ensures status { IfOk result (λ page. page.status ≡ 0) }
{
    let text = explain_sizes(alloc, text, form)?;
    let status = Outcome::NoDeadlock.status();
    Ok(Page { text, status })
}

/// The page of a run that gets stuck.
fn run_page<R: Threads + Wait + Sync>(
    rt: &R,
    alloc: Global,
    text: &[u8],
    steps: &[Step],
    form: Form,
) -> Result<Page, AllocError>
    requires { IsStuckRunWithin long text.now steps.now }
    ensures told { IfOk result (λ page. IsRunDrawn form text.now steps.now page.text.items) }
    ensures status { IfOk result (λ page. page.status ≡ 1) }
{
    let schedule = schedule_text(alloc, steps)?;
    let text = explain_run(rt, alloc, text, steps, &schedule, form)?;
    let status = Outcome::Deadlock.status();
    Ok(Page { text, status })
}

/// The page of a program whose messages may race: that of the answer that a search finds, and of
/// the race where the program is too large for one.
fn searched_page<R: Threads + Wait + Sync>(
    rt: &R,
    alloc: Global,
    text: &[u8],
    race: CallerRace,
    options: Options,
    form: Form,
) -> Result<Page, AllocError>
    ensures { IfOk result (λ page. IsSearched options.budget form text.now race page.text.items page.status) }
{
    let answer = prove(rt, alloc, text, options, &Open);
    answer_explained(rt, alloc, text, race, &answer, form)
}

/// The page of an answer whose evidence is explained, where it has one.
fn answer_explained<R: Threads + Wait + Sync>(
    rt: &R,
    alloc: Global,
    program: &[u8],
    race: CallerRace,
    answer: &Answer,
    form: Form,
) -> Result<Page, AllocError>
    ensures { IfOk result (λ page. IsAnswerPage form program.now race answer.now page.text.items page.status) }
{
    match answer {
        Answer::NoDeadlock(evidence) => found_page(rt, alloc, program, evidence, form),
        Answer::Deadlock(evidence) => found_page(rt, alloc, program, evidence, form),
        Answer::Unknown(why) => page_of(alloc, &Outcome::Unknown(*why), is_object(form)),
        Answer::Refused(_reason) => race_page(alloc, program, race, is_object(form)),
    }
}

/// The page of the explanation of an evidence that was found.
fn found_page<R: Threads + Wait + Sync>(
    rt: &R,
    alloc: Global,
    program: &[u8],
    evidence: &Text,
    form: Form,
) -> Result<Page, AllocError>
    ensures { IfOk result (λ page. IsFoundPage form program.now evidence.now page.text.items page.status) }
{
    let evidence = evidence.joined(alloc)?;
    match explain_evidence(rt, alloc, program, &evidence, PIECES, &Open, form) {
        Explained::NoDeadlock(text) => {
            let status = Outcome::NoDeadlock.status();
            Ok(Page { text, status })
        }
        Explained::Deadlock(text) => {
            let status = Outcome::Deadlock.status();
            Ok(Page { text, status })
        }
        // An evidence that a search hands out is refused for want of memory alone.
        Explained::Refused(_reason) => Err(AllocError),
    }
}

/// Explains what an evidence shows of a program, in a form. No file changes.
fn given_page<'a, R: Threads + Wait + Sync, F: FileSet>(
    rt: &R,
    alloc: Global,
    program: &'a str,
    evidence: &'a str,
    form: Form,
    files: &mut F,
) -> Result<Page, Stop<'a>>
    ensures page { IfOk result (λ page.
        IsExplained (F.held files.old program.entry.now) (F.held files.old evidence.entry.now) form
        page.text.items page.status) }
    ensures same { F.held files.new ≡ F.held files.old }
    ensures stop { IfErr result (StopsBy (IsEither (F.reads files.old) program.entry.now evidence.entry.now)
        (F.held files.old) (F.held files.new)) }
{
    let Texts { program, evidence } = read_both(alloc, program, evidence, files)?;
    let explained = explain_evidence(rt, alloc, &program, &evidence, PIECES, &Open, form);
    Ok(explanation_page(alloc, &program, &evidence, explained, form)?)
}

/// The page of an explanation of what an evidence shows of a program.
fn explanation_page(
    alloc: Global,
    program: &[u8],
    evidence: &[u8],
    explained: Explained,
    form: Form,
) -> Result<Page, AllocError>
    ensures { IfOk result (λ page. IsExplanationPage form explained page.text.items page.status) }
{
    match explained {
        Explained::NoDeadlock(text) => {
            let status = Outcome::NoDeadlock.status();
            Ok(Page { text, status })
        }
        Explained::Deadlock(text) => {
            let status = Outcome::Deadlock.status();
            Ok(Page { text, status })
        }
        Explained::Refused(reason) => {
            helped_page(
                alloc,
                Limits::short(),
                program,
                Some(evidence),
                &reason,
                form,
            )
        }
    }
}
