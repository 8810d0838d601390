//! The commands `decide` and `explain` for an SPMD text, from the file that it names to the page
//! that they print.
ghost use Rattle.std.specs.Prelude.{◌≡◌, ◌≤◌, ◌++◌, ◌||◌, IfErr, IfOk, List, OnOk, Some, drop, is_some, map, option_map, ℕ};
ghost use Rattle.command_line.specs.Requests.{path_of};
ghost use Rattle.places.specs.Woven.{HasPlaces};
ghost use Rattle.session.specs.Explaining.{is_object};
ghost use Rattle.session.specs.parts.Pages.{StopsBy};
ghost use Rattle.session.specs.Pages.{IsProgramFile};
ghost use Rattle.session.specs.Sweeping.{IsDecidedFor, IsDecidedUnrolled, IsExplainedFor, IsExplainedUnrolled, IsPageFor, IsRanked, IsPageTable, IsUnranked, beside_ranks, form_of_answer, graver, gravity, no_ranks, refused_line, row_text};

use crate::commands::{Stop, is_object};
use crate::decide::{decision_line, read_whole};
use crate::explained::decision_explained;
use crate::mapped::woven_page;
use crate::page::{Page, page_with};
use crate::status::{DEADLOCK, NO_DEADLOCK, REFUSED, UNKNOWN};
use crate::unrolled::refused_page;
use command_line::{ToDecideUnrolled, ToExplainUnrolled};
use deciding::decide;
use files::FileSet;
use options::Form;
use places::read_map;
use plaintext::put_number;
use prover::Options;
use spmd_program::{NotUnrolled, Ranks, Unrolling, ranks_of, unrolled};
use std::alloc::{AllocError, Global};
use std::sync::Wait;
use std::thread::Threads;

/// The numbers of ranks that the text behind `--ranks` gives, of which there may be several or not,
/// or what is wrong with the words. `beside` tells whether words stand there that don't go with it.
pub fn ranks_wanted(ranks: Option<&str>, beside: bool, several: bool) -> Result<Ranks, &'static str>
    ensures ranked { IfOk result (λ found. IsRanked (path_of ranks.entry) beside several found.first found.last) }
    ensures rises { IfOk result (λ found. found.first ≤ found.last) }
    ensures unranked { IfErr result (λ told. IsUnranked (path_of ranks.entry) beside several told.now) }
{
    let Some(text) = ranks else {
        return Err("error: --set and --collectives need --ranks\n");
    };
    if beside {
        return Err(beside_ranks(several));
    }
    let Some(found) = ranks_of(text) else {
        return Err(no_ranks(several));
    };
    if !several && found.first != found.last {
        return Err(no_ranks(several));
    }
    Ok(found)
}

/// Whether words stand there that don't go with `explain --ranks`.
pub fn is_beside_explain(asked: &ToExplainUnrolled<'_>) -> bool
    ensures { result ≡ is_some (path_of asked.now.evidence) || is_some (path_of asked.now.map) }
{
    asked.evidence.is_some() || asked.map.is_some()
}

fn beside_ranks(several: bool) -> &'static str
    ensures { result.now ≡ beside_ranks several }
{
    if several {
        "error: --out, --progress and --phases don't go with --ranks\n"
    } else {
        "error: an evidence and --map don't go with --ranks\n"
    }
}

fn no_ranks(several: bool) -> &'static str
    ensures { result.now ≡ no_ranks several }
{
    if several {
        "error: --ranks takes a number of ranks, as 4, or the first and the last, as 2..16, from 1 to 2147483647\n"
    } else {
        "error: --ranks takes one number of ranks here, from 1 to 2147483647\n"
    }
}

/// The page that tells what is wrong with an SPMD text.
fn refused_for(alloc: Global, told: &[u8], json: bool) -> Result<Page, AllocError>
    ensures text { IfOk result (λ page. page.text.items ≡ refused_line json told.now) }
    ensures status { IfOk result (λ page. page.status ≡ 3) }
{
    if !json {
        return refused_page(alloc, told);
    }
    let mut words = String::from_str(alloc, "refused ")?;
    words.push_str(&String::from_utf8_lossy(alloc, told)?)?;
    page_with(alloc, words, REFUSED, true)
}

/// A page of a program that was unrolled, with the places of its lines in the SPMD text.
fn placed(alloc: Global, page: Page, form: Form, made: &Unrolling) -> Result<Page, AllocError>
    ensures text { IfOk result (λ placed. (map : List ℕ) → option_map (λ m. m.items) made.now.map ≡ Some map
        → HasPlaces form map page.text.items placed.text.items) }
    ensures status { IfOk result (λ placed. placed.status ≡ page.status) }
{
    let Some(map) = &made.map else {
        return Err(AllocError);
    };
    // The map was made of this program, so want of memory alone can be met.
    let Ok(places) = read_map(alloc, map, &made.program) else {
        return Err(AllocError);
    };
    woven_page(alloc, page, form, &places)
}

/// The page of what one run decides of a program that was unrolled.
fn program_decided(alloc: Global, made: &Unrolling, json: bool) -> Result<Page, AllocError>
    ensures { IfOk result (λ page. (map : List ℕ) → option_map (λ m. m.items) made.now.map ≡ Some map
        → IsDecidedFor json made.now.program.items map page.text.items page.status) }
{
    let decided = decide(alloc, &made.program);
    let page = decision_line(alloc, &made.program, &decided, json)?;
    placed(alloc, page, form_of_answer(json), made)
}

/// The form of an answer.
pub fn form_of_answer(json: bool) -> Form
    ensures { result ≡ form_of_answer json }
{
    if json { Form::Object } else { Form::Brief }
}

/// The page of what one run decides of what an SPMD text is unrolled to for so many ranks.
fn decided_for(
    alloc: Global,
    path: &str,
    source: &[u8],
    settings: &[&str],
    barriers: bool,
    json: bool,
    ranks: u32,
) -> Result<Page, AllocError>
    ensures { IfOk result (λ page.
        IsPageFor path.now source.now (map (λ s. s.now) settings.now) barriers json (IsDecidedFor json) ranks page.text.items page.status) }
{
    match unrolled(alloc, path, source, ranks, settings, barriers, true) {
        Ok(made) => program_decided(alloc, &made, json),
        Err(NotUnrolled::Memory) => Err(AllocError),
        Err(NotUnrolled::Refused(told)) => refused_for(alloc, &told, json),
    }
}

/// How grave a status is.
fn gravity(status: u8) -> u8
    ensures { result ≡ gravity status }
{
    if status == NO_DEADLOCK {
        0
    } else if status == DEADLOCK {
        4
    } else if status == UNKNOWN {
        2
    } else if status == REFUSED {
        1
    } else {
        3
    }
}

/// The graver of two statuses.
pub fn graver(one: u8, other: u8) -> u8
    ensures { result ≡ graver one other }
{
    if gravity(one) < gravity(other) {
        other
    } else {
        one
    }
}

/// Adds the row of a number of ranks.
fn put_row(text: &mut Vec<u8>, json: bool, ranks: u32, page: &[u8]) -> Result<(), AllocError>
    ensures { OnOk result (text.new.items ≡ text.old.items ++ row_text json ranks page.now) }
{
    if json {
        text.extend_from_slice(b"{\"ranks\":")?;
        put_number(text, ranks)?;
        text.push(b',')?;
        return text.extend_from_slice(behind_first(page));
    }
    text.extend_from_slice(b"ranks ")?;
    put_number(text, ranks)?;
    text.extend_from_slice(b": ")?;
    text.extend_from_slice(page)
}

/// What stands behind the first byte.
pub fn behind_first(page: &[u8]) -> &[u8]
    ensures { result.now ≡ drop 1 page.now }
{
    match page {
        [] => page,
        [_first, behind @ ..] => behind,
    }
}

/// The table of what one run decides of what an SPMD text is unrolled to, for each number of ranks.
fn table(
    alloc: Global,
    path: &str,
    source: &[u8],
    settings: &[&str],
    barriers: bool,
    json: bool,
    wanted: Ranks,
) -> Result<Page, AllocError>
    requires { wanted.first ≤ wanted.last }
    ensures { IfOk result (λ page.
        IsPageTable (IsPageFor path.now source.now (map (λ s. s.now) settings.now) barriers json (IsDecidedFor json)) json wanted.first wanted.last page.text.items page.status) }
{
    let mut text = Vec::new(alloc);
    let mut status = NO_DEADLOCK;
    let mut ranks = wanted.first;
    loop {
        let page = decided_for(alloc, path, source, settings, barriers, json, ranks)?;
        put_row(&mut text, json, ranks, &page.text)?;
        status = graver(status, page.status);
        if ranks == wanted.last {
            return Ok(Page { text, status });
        }
        ranks += 1;
    }
}

/// Decides by one run, for each number of ranks, whether some run of what the SPMD text of a file
/// is unrolled to gets stuck. No file changes.
pub fn decide_unrolled_page<'a, F: FileSet>(
    alloc: Global,
    asked: &ToDecideUnrolled<'a>,
    barriers: bool,
    wanted: Ranks,
    files: &mut F,
) -> Result<Page, Stop<'a>>
    requires { wanted.first ≤ wanted.last }
    ensures page { IfOk result (λ page.
        IsDecidedUnrolled (F.held files.old asked.now.program.now) asked.now.program.now (map (λ s. s.now) asked.now.settings.items)
        barriers asked.now.json wanted.first wanted.last page.text.items page.status) }
    ensures same { F.held files.new ≡ F.held files.old }
    ensures stop { IfErr result (StopsBy (IsProgramFile (F.reads files.old) asked.now.program.now)
        (F.held files.old) (F.held files.new)) }
{
    let source = read_whole(alloc, asked.program, files)?;
    let page = table(
        alloc,
        asked.program,
        &source,
        &asked.settings,
        barriers,
        asked.json,
        wanted,
    );
    Ok(page?)
}

/// The page that explains what one run decides of a program that was unrolled.
fn program_explained<R: Threads + Wait + Sync>(
    rt: &R,
    alloc: Global,
    made: &Unrolling,
    options: Options,
    form: Form,
) -> Result<Page, AllocError>
    ensures { IfOk result (λ page. (map : List ℕ) → option_map (λ m. m.items) made.now.map ≡ Some map
        → IsExplainedFor options.budget form made.now.program.items map page.text.items page.status) }
{
    let decided = decide(alloc, &made.program);
    let page = decision_explained(rt, alloc, &made.program, &decided, options, form)?;
    placed(alloc, page, form, made)
}

/// The page that explains what one run decides of what an SPMD text is unrolled to for so many
/// ranks.
fn explained_for<R: Threads + Wait + Sync>(
    rt: &R,
    alloc: Global,
    source: &[u8],
    asked: &ToExplainUnrolled<'_>,
    barriers: bool,
    ranks: u32,
) -> Result<Page, AllocError>
    ensures { IfOk result (λ page.
        IsPageFor asked.now.program.now source.now (map (λ s. s.now) asked.now.settings.items) barriers (is_object asked.now.form)
        (IsExplainedFor asked.now.options.budget asked.now.form) ranks page.text.items page.status) }
{
    match unrolled(
        alloc,
        asked.program,
        source,
        ranks,
        &asked.settings,
        barriers,
        true,
    ) {
        Ok(made) => program_explained(rt, alloc, &made, asked.options, asked.form),
        Err(NotUnrolled::Memory) => Err(AllocError),
        Err(NotUnrolled::Refused(told)) => refused_for(alloc, &told, is_object(asked.form)),
    }
}

/// Explains what one run decides, or a search finds, of what the SPMD text of a file is unrolled to
/// for so many ranks. No file changes.
pub fn explain_unrolled_page<'a, R: Threads + Wait + Sync, F: FileSet>(
    rt: &R,
    alloc: Global,
    asked: &ToExplainUnrolled<'a>,
    barriers: bool,
    ranks: u32,
    files: &mut F,
) -> Result<Page, Stop<'a>>
    ensures page { IfOk result (λ page.
        IsExplainedUnrolled (F.held files.old asked.now.program.now) asked.now.program.now (map (λ s. s.now) asked.now.settings.items)
        barriers asked.now.options.budget asked.now.form ranks page.text.items page.status) }
    ensures same { F.held files.new ≡ F.held files.old }
    ensures stop { IfErr result (StopsBy (IsProgramFile (F.reads files.old) asked.now.program.now)
        (F.held files.old) (F.held files.new)) }
{
    let source = read_whole(alloc, asked.program, files)?;
    let page = explained_for(rt, alloc, &source, asked, barriers, ranks);
    Ok(page?)
}
