//! Formulas, what satisfies them, and lines and trees that are checked over them.
ghost use Rattle.std.specs.Prelude.{◌≡◌, ◌+◌, length};

use crate::given::{Given, MEMORY, Show, add, put_all, tell};
use crate::reading::{Part, all, assignment, cut, cut_number, formula, number, tree};
use crate::report::{Call, Report};
use crate::scripts::Section;
use clauses::{Formula, Lit};
use pieces::{PieceGate, check_all, check_piece, check_pieces};
use refutations::{Line, PartialAssignment, ProofTree, check_line, check_line_in, check_tree};
use std::thread::Threads;
use tree_lines::joining_lines;
use trimming::first_unneeded;

/// Lets each piece pass.
pub struct Open;

impl PieceGate for Open {
    fn before(&self, _piece: usize) {}
}

pub fn judge<R: Threads + Sync>(
    rt: &R,
    section: Section<'_>,
    given: &mut Given,
    report: &mut Report,
) {
    if let Some(formula) = formula(section.heading, given) {
        judge_over(rt, &formula, section.calls, given, report);
    }
}

fn judge_over<R: Threads + Sync>(
    rt: &R,
    formula: &Formula,
    calls: &[Call<'_>],
    given: &mut Given,
    report: &mut Report,
) {
    let mut lines = Vec::new(given.alloc);
    for call in calls {
        answer(rt, formula, &mut lines, &call.text, given);
        if given.was_memory() {
            answer(rt, formula, &mut lines, &call.text, given);
        }
        report.note(call, given.reply());
        given.clear();
    }
}

fn answer<R: Threads + Sync>(
    rt: &R,
    formula: &Formula,
    lines: &mut Vec<Line>,
    call: &str,
    given: &mut Given,
) {
    let (name, words) = cut(call);
    match name {
        "take_in" => take_in(lines, words, given),
        "join" => join(formula, lines, words, given),
        "check_pieces" => checked_pieces(rt, formula, lines.as_slice(), words, given),
        "check_piece" => checked_piece(formula, lines.as_slice(), words, given),
        "check_line" => checked_line(formula, lines.as_slice(), words, given),
        _ => asked(formula, lines.as_slice(), name, words, given),
    }
}

/// Takes in lines, unchecked.
fn take_in(lines: &mut Vec<Line>, words: &str, given: &mut Given) {
    let mut more = all::<Line>(words, ';', given);
    if given.is_refused() {
        return;
    }
    tell(&lines.append(&mut more), given);
}

fn asked(formula: &Formula, lines: &[Line], name: &str, words: &str, given: &mut Given) {
    match name {
        "variables" => given.number(formula.variables() as usize),
        "clauses" => given.number(formula.len()),
        "clause" => put_clause(formula, words, given),
        "satisfied" => put_satisfied(formula, words, given),
        "value" => put_value(words, given),
        "holds" => put_holds(words, given),
        "check_in_turn" => checked_in_turn(formula, words, given),
        _ => asked_of_tree(formula, lines, name, words, given),
    }
}

fn put_clause(formula: &Formula, word: &str, given: &mut Given) {
    match formula.clause(number(word, given) as usize) {
        Some(clause) => put_all(clause.literals(), given),
        None => given.put("none"),
    }
}

fn put_satisfied(formula: &Formula, digits: &str, given: &mut Given) {
    let values = assignment(digits, given);
    given.yes(values.satisfies(formula));
}

/// The value of a variable under these values, such as `3 11`.
fn put_value(words: &str, given: &mut Given) {
    let (variable, digits) = cut_number(words, given);
    let values = assignment(digits, given);
    given.yes(values.value(variable));
}

/// Whether a literal is true under these values, such as `-3 11`.
fn put_holds(words: &str, given: &mut Given) {
    let (word, digits) = cut(words);
    let values = assignment(digits, given);
    if let Some(literal) = Lit::read(word, given) {
        given.yes(values.holds(&literal));
    }
}

fn checked_line(formula: &Formula, lines: &[Line], words: &str, given: &mut Given) {
    if let Some(line) = Line::read(words, given) {
        tell(&check_line(given.alloc, formula, &lines, &line), given);
    }
}

/// Checks two lines with one table of values, and then the second and the first once more.
fn checked_in_turn(formula: &Formula, words: &str, given: &mut Given) {
    let lines = all::<Line>(words, ';', given);
    let known = PartialAssignment::new(given.alloc, formula.variables());
    match (known, lines.as_slice()) {
        (Ok(mut known), [first, second]) => {
            put_in_turn(&mut known, formula, first, second, given);
            given.put(", ");
            put_in_turn(&mut known, formula, second, first, given);
        }
        (Err(_error), _) => given.refuse(MEMORY),
        _ => given.refuse("not made: no two lines"),
    }
}

fn put_in_turn(
    known: &mut PartialAssignment,
    formula: &Formula,
    first: &Line,
    second: &Line,
    given: &mut Given,
)
    requires { length known.old ≡ formula.now.variables + 1 }
    ensures { length known.new ≡ length known.old }
{
    let none: &[Line] = &[];
    let first = check_line_in(known, formula, &none, first);
    let second = check_line_in(known, formula, &none, second);
    tell(&first, given);
    given.put(", ");
    tell(&second, given);
}

/// Answers a call about lines and a tree.
fn asked_of_tree(formula: &Formula, lines: &[Line], name: &str, words: &str, given: &mut Given) {
    let Some(tree) = tree(words, given) else {
        return;
    };
    match name {
        "check_tree" => tell(&check_tree(given.alloc, formula, lines, &tree), given),
        "accepts" => put_accepted(formula, lines, &tree, given),
        "unneeded" => put_unneeded(formula, lines, &tree, given),
        _ => given.refuse("not made: no such call"),
    }
}

/// Writes the number of the first line that isn't needed beside a tree.
fn put_unneeded(formula: &Formula, lines: &[Line], tree: &ProofTree, given: &mut Given) {
    let clauses = u32::try_from(formula.len()).unwrap_or(u32::MAX);
    match first_unneeded(given.alloc, clauses, lines, tree) {
        Ok(Some(number)) => given.number(number),
        Ok(None) => given.put("none"),
        Err(_error) => given.refuse("memory"),
    }
}

/// Checks all lines, and then the tree, as a verdict does.
fn put_accepted(formula: &Formula, lines: &[Line], tree: &ProofTree, given: &mut Given) {
    match check_all(given.alloc, formula, lines) {
        Ok(()) => tell(&check_tree(given.alloc, formula, lines, tree), given),
        Err(fault) => given.show(fault),
    }
}

fn checked_pieces<R: Threads + Sync>(
    rt: &R,
    formula: &Formula,
    lines: &[Line],
    word: &str,
    given: &mut Given,
) {
    let pieces = number(word, given) as usize;
    if pieces == 0 || pieces > 64 {
        return given.refuse("not made: no number of pieces");
    }
    let answer = check_pieces(rt, given.alloc, formula, lines, pieces, &Open);
    tell(&answer, given);
}

/// Checks one piece of so many, such as `2 of 4`.
fn checked_piece(formula: &Formula, lines: &[Line], words: &str, given: &mut Given) {
    let (piece, pieces) = words.split_once(" of ").unwrap_or((words, ""));
    let piece = number(piece, given) as usize;
    let pieces = number(pieces, given) as usize;
    if pieces > 64 || piece >= pieces {
        return given.refuse("not made: no such piece");
    }
    let answer = check_piece(given.alloc, formula, lines, pieces, piece);
    tell(&answer, given);
}

/// The lines that join the tree of these nodes, which are taken in.
fn join(formula: &Formula, lines: &mut Vec<Line>, words: &str, given: &mut Given) {
    let Some(tree) = tree(words, given) else {
        return;
    };
    if let Some(added) = joined(formula, lines.as_slice(), &tree, given) {
        put_joined(lines, added, given);
    }
}

/// Takes the lines in, all of them or none.
fn put_joined(lines: &mut Vec<Line>, added: Vec<Line>, given: &mut Given) {
    if lines.reserve(added.len()).is_err() {
        return given.refuse(MEMORY);
    }
    for line in added {
        line.put(given);
        given.put(";");
        add(lines, line, given);
    }
}

/// The lines that join an accepted tree, or what is wrong.
fn joined(
    formula: &Formula,
    lines: &[Line],
    tree: &ProofTree,
    given: &mut Given,
) -> Option<Vec<Line>> {
    let alloc = given.alloc;
    match check_all(alloc, formula, lines) {
        Ok(()) => match check_tree(alloc, formula, lines, tree) {
            Ok(()) => {
                let made = joining_lines(alloc, formula, lines, tree).ok();
                given.known(made, MEMORY)
            }
            Err(fault) => {
                given.show(fault);
                None
            }
        },
        Err(fault) => {
            given.show(fault);
            None
        }
    }
}
