//! The commands `join` and `decide --phases`, from the files that they name to the page that they
//! print.
ghost use Rattle.std.specs.Prelude.{◌≡◌, IfErr, IfOk, IsTrue, OnOk, Some, codes, option_map, string_bytes};
ghost use Rattle.calltext.specs.Grammar.{long};
ghost use Rattle.semantics.specs.Headline.{IsNeverStuckWithin};
ghost use Rattle.command_line.specs.Requests.{path_of};
ghost use Rattle.session.specs.Endings.{IsFollowedRun};
ghost use Rattle.session.specs.Lines.{IsLine};
ghost use Rattle.session.specs.parts.Pages.{StopsBy};
ghost use Rattle.session.specs.Pages.{ChangesAtMost, IsDecideFile, IsUnreadFile};
ghost use Rattle.session.specs.parts.Phasing.{IsFolderFile, IsShown, IsShownFile};
ghost use Rattle.session.specs.Phasing.{IsJoinFile, IsJoinedPage, IsPhasesPage, file_name, is_race, path_in};

use crate::commands::{Open, Stop};
use crate::decide::{deadlock_page, decide_text, decision_page, read_whole};
use crate::page::{Page, page_of, page_with};
use crate::status::UNKNOWN;
use crate::told::{Outcome, joined};
use checker::{NoRun, stuck_run_of};
use command_line::{ToDecidePhases, ToJoin};
use cutting::cut;
use deciding::{Decision, Undecided, decide, program_of};
use files::{Extent, FileSet, LoadFault};
use phase_checker::{NotAPhase, Phase, join, stuck_by};
use plaintext::{next_line, number_of};
use prooflog::Text;
use prover::{Answer, Options, Reason, Verdict, Why, prove};
use semantics::Step;
use std::alloc::{AllocError, Global};
use std::io::Write;
use std::sync::Wait;
use std::thread::Threads;

/// How many pieces of an evidence are checked at once.
const PIECES: usize = 4;

/// How a phase is searched, as `prove` does where no number is given.
const WORKERS: u32 = 4;

const DEPTH: u32 = 4;

const BUDGET: u32 = 1_000_000;

/// Whether messages may race, so that one run doesn't decide.
pub fn is_race(decided: &Result<Decision, Undecided>) -> bool
    ensures { result ≡ is_race decided.now }
{
    match decided {
        Ok(Decision::Race(_race)) => true,
        Ok(Decision::NoDeadlock) => false,
        Ok(Decision::Deadlock(_steps)) => false,
        Err(_why) => false,
    }
}

/// What phases show.
#[derive(Drop)]
pub enum Shown {
    /// No run of the program gets stuck.
    Never,
    /// These steps are a run that does.
    Stuck(Vec<Step>),
}

/// A phase that gets stuck: its number, from 1, its text, and a run of it.
#[derive(Drop)]
pub struct StuckPhase {
    number: usize,
    text: Vec<u8>,
    steps: Vec<Step>,
}

/// Why phases don't show that no run of a program gets stuck.
#[derive(Drop)]
pub enum Lack {
    /// Memory ran out.
    Memory,
    /// What is lacking, in words.
    Words(String),
    /// A phase gets stuck.
    Stuck(StuckPhase),
}

impl From<AllocError> for Lack {
    fn from(_error: AllocError) -> Lack {
        Lack::Memory
    }
}

/// What is lacking of a phase, whose number counts from 1.
fn lack_of(alloc: Global, number: usize, what: &str) -> Lack {
    match lack_words(alloc, number, what) {
        Ok(words) => Lack::Words(words),
        Err(AllocError) => Lack::Memory,
    }
}

fn lack_words(alloc: Global, number: usize, what: &str) -> Result<String, AllocError> {
    let mut words = String::from_str(alloc, ": phase ")?;
    words.push_str(&number.to_string(alloc)?)?;
    words.push(' ')?;
    words.push_str(what)?;
    Ok(words)
}

/// The name of a file of a phase, whose number counts from 1: four digits or more, and what stands
/// behind them.
pub fn file_name(alloc: Global, number: usize, end: &str) -> Result<String, AllocError>
    ensures { IfOk result (λ name. string_bytes name ≡ file_name number end.now) }
{
    let digits = number.to_string(alloc)?;
    let mut name = String::new(alloc);
    for _missing in 0..4usize.saturating_sub(digits.len()) {
        name.push('0')?;
    }
    name.push_str(&digits)?;
    name.push_str(end)?;
    Ok(name)
}

/// The path of a file in a folder.
pub fn path_in(alloc: Global, folder: &str, name: &str) -> Result<String, AllocError>
    ensures { IfOk result (λ path. string_bytes path ≡ path_in folder.now name.now) }
{
    let mut path = String::from_str(alloc, folder)?;
    path.push('/')?;
    path.push_str(name)?;
    Ok(path)
}

/// The phase that this evidence shows one.
fn judged<R: Threads + Wait + Sync>(
    rt: &R,
    alloc: Global,
    number: usize,
    text: &[u8],
    evidence: &[u8],
) -> Result<Phase, Lack> {
    match Phase::judged(rt, alloc, text, evidence, PIECES, &Open) {
        Ok(phase) => Ok(phase),
        Err(Verdict::Refused(Reason::Memory)) => Err(Lack::Memory),
        Err(Verdict::Deadlock) => Err(stuck_by_evidence(alloc, number, text, evidence)),
        Err(_verdict) => Err(lack_of(alloc, number, "has an evidence that is refused")),
    }
}

/// That a phase gets stuck, by these steps.
fn stuck_by_steps(alloc: Global, number: usize, text: &[u8], steps: &[Step]) -> Lack {
    match stuck_phase(alloc, number, text, steps) {
        Ok(stuck) => Lack::Stuck(stuck),
        Err(AllocError) => Lack::Memory,
    }
}

fn stuck_phase(
    alloc: Global,
    number: usize,
    text: &[u8],
    steps: &[Step],
) -> Result<StuckPhase, AllocError> {
    let text = Vec::from_slice(alloc, text)?;
    let steps = Vec::from_slice(alloc, steps)?;
    Ok(StuckPhase {
        number,
        text,
        steps,
    })
}

/// That a phase gets stuck, by the run that its evidence shows.
fn stuck_by_evidence(alloc: Global, number: usize, text: &[u8], evidence: &[u8]) -> Lack {
    match stuck_run_of(alloc, text, evidence) {
        Ok(run) => stuck_by_steps(alloc, number, text, run.schedule.steps()),
        Err(NoRun::Refused(Reason::Memory)) => Lack::Memory,
        Err(_why) => lack_of(alloc, number, "gets stuck"),
    }
}

/// That a phase gets stuck, by the one run that decides it.
fn stuck_by_run(alloc: Global, number: usize, text: &[u8]) -> Lack {
    match decide(alloc, text) {
        Ok(Decision::Deadlock(steps)) => stuck_by_steps(alloc, number, text, &steps),
        Err(Undecided::Memory) => Lack::Memory,
        _ => lack_of(alloc, number, "gets stuck"),
    }
}

/// What is lacking where one run shows no phase, unless messages may race.
fn undecided(alloc: Global, number: usize, text: &[u8], why: NotAPhase) -> Lack {
    match why {
        NotAPhase::Memory => Lack::Memory,
        NotAPhase::Deadlock => stuck_by_run(alloc, number, text),
        _ => lack_of(alloc, number, "is no program's text"),
    }
}

/// The bytes of a file in a folder.
fn read_in<F: FileSet>(
    alloc: Global,
    folder: &str,
    name: &str,
    files: &mut F,
) -> Result<Vec<u8>, LoadFault>
    ensures fault { IfErr result (λ fault. IsTrue (F.reads files.old (path_in folder.now name.now)) → fault ≡ LoadFault.Memory) }
    ensures same { F.held files.new ≡ F.held files.old }
    ensures same_reads { F.reads files.new ≡ F.reads files.old }
{
    let Ok(path) = path_in(alloc, folder, name) else {
        return Err(LoadFault::Memory);
    };
    files.read(alloc, path.as_str(), &Extent::Most(usize::MAX))
}

/// The bytes of the file in a folder that has the order of its phases. Where it can't be read, that
/// is told as the folder.
fn read_order<'a, F: FileSet>(
    alloc: Global,
    folder: &'a str,
    files: &mut F,
) -> Result<Vec<u8>, Stop<'a>>
    ensures same { F.held files.new ≡ F.held files.old }
    ensures same_reads { F.reads files.new ≡ F.reads files.old }
    ensures stop { IfErr result (StopsBy
        (λ path. (path ≡ folder.entry.now) × IsUnreadFile (F.reads files.old) (path_in folder.entry.now (codes "phases")))
        (F.held files.old) (F.held files.new)) }
{
    match read_in(alloc, folder, "phases", files) {
        Ok(order) => Ok(order),
        Err(LoadFault::Memory) => Err(Stop::Memory),
        Err(LoadFault::Device) => Err(Stop::File(folder)),
    }
}

/// The bytes of a file of a phase.
fn read_phase<F: FileSet>(
    alloc: Global,
    folder: &str,
    number: usize,
    end: &str,
    what: &str,
    files: &mut F,
) -> Result<Vec<u8>, Lack>
    ensures same { F.held files.new ≡ F.held files.old }
    ensures same_reads { F.reads files.new ≡ F.reads files.old }
{
    let name = file_name(alloc, number, end)?;
    match read_in(alloc, folder, &name, files) {
        Ok(bytes) => Ok(bytes),
        Err(LoadFault::Memory) => Err(Lack::Memory),
        Err(_fault) => Err(lack_of(alloc, number, what)),
    }
}

/// The phase of this number, by its text and, where one run doesn't tell, its evidence.
fn phase_in<R: Threads + Wait + Sync, F: FileSet>(
    rt: &R,
    alloc: Global,
    folder: &str,
    number: usize,
    files: &mut F,
) -> Result<Phase, Lack>
    ensures same { F.held files.new ≡ F.held files.old }
    ensures same_reads { F.reads files.new ≡ F.reads files.old }
{
    let text = read_phase(alloc, folder, number, ".mpi", "has no text", files)?;
    match Phase::decided(alloc, &text) {
        Ok(phase) => Ok(phase),
        Err(NotAPhase::Race(_race)) => {
            let lacking = "has no evidence";
            let evidence = read_phase(alloc, folder, number, ".evidence", lacking, files)?;
            judged(rt, alloc, number, &text, &evidence)
        }
        Err(why) => Err(undecided(alloc, number, &text, why)),
    }
}

/// Adds so many phases, up to the first that is none.
fn put_phases_in<R: Threads + Wait + Sync, F: FileSet>(
    phases: &mut Vec<Phase>,
    rt: &R,
    alloc: Global,
    folder: &str,
    count: usize,
    files: &mut F,
) -> Result<(), Lack>
    ensures same { F.held files.new ≡ F.held files.old }
    ensures same_reads { F.reads files.new ≡ F.reads files.old }
{
    for place in 0..count {
        let phase = phase_in(rt, alloc, folder, place + 1, files)?;
        match phases.push(phase) {
            Ok(()) => {}
            Err(_) => return Err(Lack::Memory),
        }
    }
    Ok(())
}

/// The phase of a text, by one run or by a search.
fn phase_of<R: Threads + Wait + Sync>(
    rt: &R,
    alloc: Global,
    number: usize,
    text: &[u8],
) -> Result<Phase, Lack> {
    match Phase::decided(alloc, text) {
        Ok(phase) => Ok(phase),
        Err(NotAPhase::Race(_race)) => proved(rt, alloc, number, text),
        Err(why) => Err(undecided(alloc, number, text, why)),
    }
}

/// The phase of a text, by a search.
fn proved<R: Threads + Wait + Sync>(
    rt: &R,
    alloc: Global,
    number: usize,
    text: &[u8],
) -> Result<Phase, Lack> {
    let Some(options) = Options::make(WORKERS, DEPTH, BUDGET) else {
        return Err(lack_of(alloc, number, "isn't searched"));
    };
    match prove(rt, alloc, text, options, &Open) {
        Answer::NoDeadlock(evidence) => judged_by(rt, alloc, number, text, &evidence),
        Answer::Deadlock(evidence) => judged_by(rt, alloc, number, text, &evidence),
        Answer::Unknown(Why::Memory) => Err(Lack::Memory),
        Answer::Unknown(_why) => Err(lack_of(alloc, number, "isn't decided by a search")),
        Answer::Refused(_reason) => Err(lack_of(alloc, number, "is too large for a search")),
    }
}

/// The phase of a text, by the evidence that a search has found.
fn judged_by<R: Threads + Wait + Sync>(
    rt: &R,
    alloc: Global,
    number: usize,
    text: &[u8],
    evidence: &Text,
) -> Result<Phase, Lack> {
    let evidence = evidence.joined(alloc)?;
    judged(rt, alloc, number, text, &evidence)
}

/// Adds the phases of these texts, up to the first that is none.
fn put_phases_of<R: Threads + Wait + Sync>(
    phases: &mut Vec<Phase>,
    rt: &R,
    alloc: Global,
    texts: &[Vec<u8>],
) -> Result<(), Lack> {
    for place in 0..texts.len() {
        let phase = phase_of(rt, alloc, place + 1, texts[place].as_slice())?;
        match phases.push(phase) {
            Ok(()) => {}
            Err(_) => return Err(Lack::Memory),
        }
    }
    Ok(())
}

/// The places of phases, from 0, by the text of their order: their numbers, from 1, one a line.
/// `None` where a line is none.
fn order_of(alloc: Global, text: &[u8]) -> Result<Option<Vec<usize>>, AllocError> {
    let mut order = Vec::new(alloc);
    let mut rest = text;
    for _line in 0..text.len() {
        let Some((line, behind)) = next_line(rest) else {
            break;
        };
        rest = behind;
        match number_of(line) {
            Some(number) if number > 0 => order.push(number as usize - 1)?,
            _ => return Ok(None),
        }
    }
    Ok(if rest.is_empty() { Some(order) } else { None })
}

/// How many phases there are at least, by their order.
fn count_of(order: &[usize]) -> usize {
    let mut count = 0;
    for number in order {
        count = number.saturating_add(1).max(count);
    }
    count
}

/// Whether phases in this order make up the program, and show that no run of it gets stuck.
fn joined_by(alloc: Global, text: &[u8], phases: &[Phase], order: &[usize]) -> Result<Shown, Lack>
    ensures { IfOk result (IsShown text.now) }
{
    match join(alloc, text, phases, order) {
        Ok(()) => Ok(Shown::Never),
        Err(why) => match joined(alloc, ": ", &why) {
            Ok(words) => Err(Lack::Words(words)),
            Err(AllocError) => Err(Lack::Memory),
        },
    }
}

/// The first place in the order of the phase of this number, which counts from 1.
fn first_place(order: &[usize], number: usize) -> Option<usize> {
    for place in 0..order.len() {
        if order[place].saturating_add(1) == number {
            return Some(place);
        }
    }
    None
}

/// The run of the program along a phase that gets stuck, behind the phases before it; else that
/// this phase gets stuck.
fn run_by(
    alloc: Global,
    text: &[u8],
    phases: &[Phase],
    order: &[usize],
    stuck: &StuckPhase,
) -> Result<Shown, Lack>
    ensures { IfOk result (IsShown text.now) }
{
    let Some(place) = first_place(order, stuck.number) else {
        return Err(lack_of(alloc, stuck.number, "gets stuck"));
    };
    match stuck_by(alloc, text, phases, order, place, &stuck.text, &stuck.steps)? {
        Some(steps) => Ok(Shown::Stuck(steps)),
        None => Err(lack_of(alloc, stuck.number, "gets stuck")),
    }
}

/// What phases show, all of which are there unless something is lacking.
fn shown_by(
    alloc: Global,
    text: &[u8],
    phases: &[Phase],
    order: &[usize],
    made: Result<(), Lack>,
) -> Result<Shown, Lack>
    ensures { IfOk result (IsShown text.now) }
{
    match made {
        Ok(()) => joined_by(alloc, text, phases, order),
        Err(Lack::Stuck(stuck)) => run_by(alloc, text, phases, order, &stuck),
        Err(lack) => Err(lack),
    }
}

/// What the phases in a folder show, in this order.
fn joined_in<R: Threads + Wait + Sync, F: FileSet>(
    rt: &R,
    alloc: Global,
    text: &[u8],
    folder: &str,
    order: &[u8],
    files: &mut F,
) -> Result<Shown, Lack>
    ensures shown { IfOk result (IsShown text.now) }
    ensures same { F.held files.new ≡ F.held files.old }
    ensures same_reads { F.reads files.new ≡ F.reads files.old }
{
    let Some(order) = order_of(alloc, order)? else {
        let words = String::from_str(alloc, ": the order of phases isn't one number a line")?;
        return Err(Lack::Words(words));
    };
    let mut phases = Vec::new(alloc);
    let made = put_phases_in(&mut phases, rt, alloc, folder, count_of(&order), files);
    shown_by(alloc, text, &phases, &order, made)
}

/// What phases that are cut now show.
fn joined_now<R: Threads + Wait + Sync>(rt: &R, alloc: Global, text: &[u8]) -> Result<Shown, Lack>
    ensures { IfOk result (IsShown text.now) }
{
    let Ok(program) = program_of(alloc, text) else {
        return Err(Lack::Memory);
    };
    let cut = cut(alloc, &program)?;
    let mut phases = Vec::new(alloc);
    let made = put_phases_of(&mut phases, rt, alloc, &cut.texts);
    shown_by(alloc, text, &phases, &cut.order, made)
}

/// The page of what phases show. The schedule of a deadlock is written where a file is named.
fn phases_page<'a, F: FileSet>(
    alloc: Global,
    text: &[u8],
    shown: Result<Shown, Lack>,
    out: Option<&'a str>,
    json: bool,
    files: &mut F,
) -> Result<Page, Stop<'a>>
    requires { IfOk shown (IsShown text.now) }
    ensures page { IfOk result (λ page. IsPhasesPage F.tells_written (F.held files.old) (F.held files.new)
        (option_map (λ path. path.now) out.entry) json text.now page.text.items page.status) }
    ensures others { ChangesAtMost (option_map (λ path. path.now) out.entry) (F.held files.old) (F.held files.new) }
    ensures stop { IfErr result (StopsBy (IsShownFile (option_map (λ path. path.now) out.entry) text.now)
        (F.held files.old) (F.held files.new)) }
{
    match shown {
        Ok(Shown::Never) => Ok(page_of(alloc, &Outcome::NoDeadlock, json)?),
        Ok(Shown::Stuck(steps)) => deadlock_page(alloc, &steps, out, json, files),
        Err(Lack::Words(words)) => {
            let words = joined(alloc, "unknown phases", &words)?;
            Ok(page_with(alloc, words, UNKNOWN, json)?)
        }
        Err(_lack) => Err(Stop::Memory),
    }
}

/// Judges the program of a file by one run, and where messages may race by the phases in a folder
/// and their evidence. The schedule of a deadlock is written where a file is named.
pub fn join_page<'a, R: Threads + Wait + Sync, F: FileSet>(
    rt: &R,
    alloc: Global,
    asked: ToJoin<'a>,
    files: &mut F,
) -> Result<Page, Stop<'a>>
    ensures page { IfOk result (λ page.
        IsJoinedPage F.tells_written (F.held files.old) (F.held files.new) asked.entry.program.now
        (path_of asked.entry.out) asked.entry.json page.text.items page.status) }
    ensures others { ChangesAtMost (path_of asked.entry.out) (F.held files.old) (F.held files.new) }
    ensures stop { IfErr result (StopsBy
        (IsJoinFile (F.reads files.old) asked.entry.program.now asked.entry.folder.now (path_of asked.entry.out)
        (F.held files.old) (F.held files.new))
        (F.held files.old) (F.held files.new)) }
{
    let text = read_whole(alloc, asked.program, files)?;
    let decision = decide(alloc, &text);
    if is_race(&decision) {
        return folder_page(rt, alloc, &text, asked, files);
    }
    decision_page(alloc, &text, &decision, asked.out, asked.json, files)
}

/// The page of what the phases in a folder show.
fn folder_page<'a, R: Threads + Wait + Sync, F: FileSet>(
    rt: &R,
    alloc: Global,
    text: &[u8],
    asked: ToJoin<'a>,
    files: &mut F,
) -> Result<Page, Stop<'a>>
    ensures page { IfOk result (λ page. IsPhasesPage F.tells_written (F.held files.old) (F.held files.new)
        (path_of asked.entry.out) asked.entry.json text.now page.text.items page.status) }
    ensures others { ChangesAtMost (path_of asked.entry.out) (F.held files.old) (F.held files.new) }
    ensures stop { IfErr result (StopsBy
        (IsFolderFile (F.reads files.old) asked.entry.folder.now (path_of asked.entry.out) text.now (F.held files.old) (F.held files.new))
        (F.held files.old) (F.held files.new)) }
{
    let order = read_order(alloc, asked.folder, files)?;
    let shown = joined_in(rt, alloc, text, asked.folder, &order, files);
    phases_page(alloc, text, shown, asked.out, asked.json, files)
}

/// Decides the program of a file by one run, and where messages may race cuts it into phases, and
/// decides or proves each. The schedule of a deadlock is written where a file is named.
pub fn decide_phases_page<'a, R: Threads + Wait + Sync, F: FileSet, E: Write>(
    rt: &R,
    alloc: Global,
    asked: ToDecidePhases<'a>,
    files: &mut F,
    err: &mut E,
) -> Result<Page, Stop<'a>>
    ensures page { IfOk result (λ page.
        IsJoinedPage F.tells_written (F.held files.old) (F.held files.new) asked.entry.program.now
        (path_of asked.entry.out) asked.entry.json page.text.items page.status) }
    ensures others { ChangesAtMost (path_of asked.entry.out) (F.held files.old) (F.held files.new) }
    ensures stop { IfErr result (StopsBy
        (IsDecideFile (F.reads files.old) asked.entry.program.now (path_of asked.entry.out) (F.held files.old) (F.held files.new))
        (F.held files.old) (F.held files.new)) }
    ensures followed { IsFollowedRun asked.entry.progress (F.held files.old asked.entry.program.now)
        (E.contents err.old) (E.contents err.new) }
{
    let text = read_whole(alloc, asked.program, files)?;
    let decision = decide_text(alloc, &text, asked.progress, err);
    if is_race(&decision) {
        let shown = joined_now(rt, alloc, &text);
        return phases_page(alloc, &text, shown, asked.out, asked.json, files);
    }
    decision_page(alloc, &text, &decision, asked.out, asked.json, files)
}
