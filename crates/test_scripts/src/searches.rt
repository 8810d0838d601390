//! Searches. Each line that a search learns is checked, and none is taken in where one isn't
//! derived.
use crate::beside::{beside, misled};
use crate::encodings::encoded;
use crate::given::{Given, MEMORY, add, put_all, tell};
use crate::reading::{Part, all, cut_number, formula, line_made};
use crate::report::Report;
use crate::scripts::{Section, Subject, judge_calls};
use cdcl::{Found, SolveFault, Solver};
use clauses::{Assignment, Clause, Formula, Lit};
use encode::Encoded;
use matchset_search::StateSearch;
use refutations::{Batch, BatchLine, Hint, Line, LineFault, check_line, clause_at};
use std::alloc::Global;
use std::mem;
use std::thread::Threads;

/// What searches, and takes in the lines that it learnt.
#[derive(Drop)]
enum Searcher<'f> {
    /// Below cubes.
    Cubes(Solver<'f>),
    /// Over sets of matched calls.
    Sets(StateSearch<'f>),
}

impl Searcher<'_> {
    /// Searches with this budget, below a cube where it can.
    fn search(&mut self, alloc: Global, cube: &[Lit], budget: u64) -> Result<Found, SolveFault> {
        match self {
            Searcher::Cubes(solver) => solver.search(alloc, cube, budget),
            Searcher::Sets(states) => states.search(alloc, budget),
        }
    }

    /// Takes in a clause under its number.
    fn import(&mut self, alloc: Global, number: u32, clause: &Clause) -> Result<(), SolveFault> {
        match self {
            Searcher::Cubes(solver) => solver.import(alloc, number, clause),
            Searcher::Sets(states) => states.import(alloc, number, clause),
        }
    }

    /// How many conflicts, or lines, the last search counted.
    fn counted(&self) -> u64 {
        match self {
            Searcher::Cubes(solver) => solver.conflicts(),
            Searcher::Sets(states) => states.conflicts(),
        }
    }
}

/// What searches, and the lines that were taken in.
#[derive(Drop)]
struct Searches<'f> {
    formula: &'f Formula,
    /// The program of the formula, where it has one.
    encoded: Option<&'f Encoded>,
    search: Searcher<'f>,
    lines: Vec<Line>,
}

/// Judges a section `PROBED over N of CLAUSES`.
pub fn judge(section: Section<'_>, given: &mut Given, report: &mut Report) {
    let (probed, text) = section
        .heading
        .split_once("over ")
        .unwrap_or(("", section.heading));
    let probed = all::<u32>(probed, ' ', given);
    if let Some(formula) = formula(text, given) {
        judge_over(&formula, probed.as_slice(), section, given, report);
        mem::drop(formula);
    }
    mem::drop(probed);
}

fn judge_over(
    formula: &Formula,
    probed: &[u32],
    section: Section<'_>,
    given: &mut Given,
    report: &mut Report,
) {
    match Solver::new(given.alloc, formula, probed) {
        Ok(solver) => {
            let search = Searcher::Cubes(solver);
            judge_by(formula, None, search, section, given, report);
        },
        Err(_error) => given.refuse("memory"),
    }
}

/// Judges a section whose heading is a program's text.
pub fn judge_states<R: Threads + Sync>(
    rt: &R,
    section: Section<'_>,
    given: &mut Given,
    report: &mut Report,
) {
    if let Some(encoded) = encoded(rt, section.heading, given) {
        judge_sets(&encoded, section, given, report);
        mem::drop(encoded);
    }
}

fn judge_sets(encoded: &Encoded, section: Section<'_>, given: &mut Given, report: &mut Report) {
    match StateSearch::new(given.alloc, encoded) {
        Ok(states) => {
            let search = Searcher::Sets(states);
            judge_by(
                encoded.formula(),
                Some(encoded),
                search,
                section,
                given,
                report,
            );
        },
        Err(_error) => given.refuse("memory"),
    }
}

fn judge_by<'f>(
    formula: &'f Formula,
    encoded: Option<&'f Encoded>,
    search: Searcher<'f>,
    section: Section<'_>,
    given: &mut Given,
    report: &mut Report,
) {
    let mut searches = Searches {
        formula,
        encoded,
        search,
        lines: Vec::new(given.alloc),
    };
    judge_calls(&mut searches, section.calls, given, report);
    mem::drop(searches);
}

impl Subject for Searches<'_> {
    /// A search that lacked memory is spent.
    fn goes_on(&self) -> bool {
        false
    }

    fn answer(&mut self, name: &str, words: &str, given: &mut Given) {
        match name {
            "beside" => search_beside(self.encoded, words, false, given),
            "beside_one_that_left" => search_beside(self.encoded, words, true, given),
            "misled" => search_misled(self.encoded, words, given),
            "conflicts" => given.show(self.search.counted()),
            "lines" => given.number(self.lines.len()),
            "import" => import(&mut self.search, words, given),
            "take_in" => take_in(&mut self.lines, words, given),
            _ => {
                let lines = &mut self.lines;
                called(self.formula, &mut self.search, lines, name, words, given);
            }
        }
    }
}

fn search_beside(encoded: Option<&Encoded>, words: &str, leaves: bool, given: &mut Given) {
    match encoded {
        Some(encoded) => beside(encoded, words, leaves, given),
        None => given.refuse("not made: no program"),
    }
}

fn search_misled(encoded: Option<&Encoded>, words: &str, given: &mut Given) {
    match encoded {
        Some(encoded) => misled(encoded, words, given),
        None => given.refuse("not made: no program"),
    }
}

/// Imports a clause under a number, such as `5 1 -2`.
fn import(searcher: &mut Searcher<'_>, words: &str, given: &mut Given) {
    let (number, words) = cut_number(words, given);
    if let Some(clause) = Clause::read(words, given) {
        tell(&searcher.import(given.alloc, number, &clause), given);
    }
}

/// Takes in a line, unchecked.
fn take_in(lines: &mut Vec<Line>, words: &str, given: &mut Given) {
    if let Some(line) = Line::read(words, given) {
        add(lines, line, given);
        given.put("ok");
    }
}

/// A search with so many conflicts below a cube, such as `100 -1 2`.
fn called(
    formula: &Formula,
    searcher: &mut Searcher<'_>,
    lines: &mut Vec<Line>,
    name: &str,
    words: &str,
    given: &mut Given,
) {
    let (budget, words) = cut_number(words, given);
    let budget = u64::from(budget);
    let cube = all::<Lit>(words, ' ', given);
    let cube = cube.as_slice();
    if given.is_refused() {
        return;
    }
    match name {
        "search" => search_on(formula, searcher, lines, cube, budget, 1, given),
        "search_on" => search_on(formula, searcher, lines, cube, budget, 1_000, given),
        "lose" => lose(formula, searcher, lines, cube, budget, given),
        _ => given.refuse("not made: no such call"),
    }
}

/// Searches with so many conflicts each time, and hands the lines back, until one tells the end, or
/// so often.
fn search_on(
    formula: &Formula,
    searcher: &mut Searcher<'_>,
    lines: &mut Vec<Line>,
    cube: &[Lit],
    budget: u64,
    times: u32,
    given: &mut Given,
) {
    for _ in 0..times {
        given.rewrite();
        if search(formula, searcher, lines, cube, budget, given) {
            return;
        }
    }
    if times > 1 {
        given.word("and no end");
    }
}

/// Searches once, hands the lines back, and answers whether that was the end.
fn search(
    formula: &Formula,
    searcher: &mut Searcher<'_>,
    lines: &mut Vec<Line>,
    cube: &[Lit],
    budget: u64,
    given: &mut Given,
) -> bool {
    match searcher.search(given.alloc, cube, budget) {
        Ok(found) => take(formula, searcher, lines, &found, cube, given),
        Err(fault) => {
            given.show(fault);
            true
        }
    }
}

/// Takes in what was found, and answers whether it is an end.
fn take(
    formula: &Formula,
    searcher: &mut Searcher<'_>,
    lines: &mut Vec<Line>,
    found: &Found,
    cube: &[Lit],
    given: &mut Given,
) -> bool {
    match found {
        Found::Model(assignment) => {
            put_model(formula, cube, assignment, given);
            true
        }
        Found::Closed(batch, last) => {
            let number = number_of(next_number(formula, lines.as_slice()), last);
            take_batch(formula, searcher, lines, batch, given);
            put_closing(formula, lines.as_slice(), number, given);
            true
        }
        Found::Budget(batch) => {
            take_batch(formula, searcher, lines, batch, given);
            given.put(if batch.lines.is_empty() {
                "budget without lines"
            } else {
                "budget"
            });
            false
        }
    }
}

/// Searches once, has the lines checked, and forgets them.
fn lose(
    formula: &Formula,
    searcher: &mut Searcher<'_>,
    lines: &mut Vec<Line>,
    cube: &[Lit],
    budget: u64,
    given: &mut Given,
) {
    match searcher.search(given.alloc, cube, budget) {
        Ok(Found::Budget(batch)) => {
            let count = lines.len();
            accept(formula, lines, &batch, given);
            lines.truncate(count);
            given.put("lost");
        }
        Ok(_found) => given.put("an end"),
        Err(fault) => given.show(fault),
    }
}

/// The number that the next line gets.
pub fn next_number(formula: &Formula, lines: &[Line]) -> u32 {
    let lines = formula.len().saturating_add(lines.len());
    u32::try_from(lines.saturating_add(1)).unwrap_or(u32::MAX)
}

/// The number of a hint's clause, where the batch's first line has this one.
fn number_of(base: u32, hint: &Hint) -> u32 {
    match hint {
        Hint::Known(number) => *number,
        Hint::Own(place) => base.saturating_add(*place),
    }
}

fn line_of(base: u32, found: &BatchLine, given: &mut Given) -> Option<Line> {
    let mut hints = Vec::new(given.alloc);
    for hint in &found.hints {
        add(&mut hints, number_of(base, hint), given);
    }
    let made = Line::make(given.alloc, found.clause.literals(), hints.as_slice());
    line_made(made, given)
}

/// Has each line of the batch checked, and takes it in.
pub fn accept(formula: &Formula, lines: &mut Vec<Line>, batch: &Batch, given: &mut Given) {
    let base = next_number(formula, lines.as_slice());
    for found in &batch.lines {
        match line_of(base, found, given) {
            Some(line) => accept_line(formula, lines, line, given),
            None => given.refuse("a hint out of range"),
        }
    }
}

fn accept_line(formula: &Formula, lines: &mut Vec<Line>, line: Line, given: &mut Given) {
    match check_line(given.alloc, formula, &lines.as_slice(), &line) {
        Ok(()) => (),
        Err(LineFault::Memory) => given.refuse(MEMORY),
        Err(_fault) => given.refuse("a line that isn't derived"),
    }
    add(lines, line, given);
}

/// Has the batch's lines checked, and hands them back.
fn take_batch(
    formula: &Formula,
    searcher: &mut Searcher<'_>,
    lines: &mut Vec<Line>,
    batch: &Batch,
    given: &mut Given,
) {
    let mut number = next_number(formula, lines.as_slice());
    accept(formula, lines, batch, given);
    for found in &batch.lines {
        match searcher.import(given.alloc, number, &found.clause) {
            Ok(()) => (),
            Err(SolveFault::Memory) => given.refuse(MEMORY),
            Err(_fault) => given.refuse("a line that doesn't come back"),
        }
        number = number.saturating_add(1);
    }
}

fn put_model(formula: &Formula, cube: &[Lit], assignment: &Assignment, given: &mut Given) {
    let is_model = assignment.satisfies(formula)
        && cube.iter().all(|literal| assignment.holds(literal));
    given.put(if is_model {
        "model"
    } else {
        "an assignment that is no model"
    });
}

/// Tells the clause of this number, by which the cube is closed.
fn put_closing(formula: &Formula, lines: &[Line], number: u32, given: &mut Given) {
    given.put("closed by");
    match clause_at(formula, &lines, number) {
        Some(literals) => put_all(literals, given),
        None => given.put(" no clause"),
    }
}
