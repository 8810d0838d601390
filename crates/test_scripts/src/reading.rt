//! What the words of a script stand for. Where they stand for nothing, the reply says so.
use crate::given::{Given, MEMORY, add};
use clauses::{Assignment, Clause, ClauseFault, Formula, Lit};
use pool::{Event, Why};
use refutations::{Batch, BatchLine, Hint, Line, MakeLineFault, Node, ProofTree};
use semantics::Step;

/// What is written as a word, or as a part of a text.
pub trait Part: Sized + Drop {
    fn read(text: &str, given: &mut Given) -> Option<Self>;
}

/// The first word, and what follows it.
pub fn cut(text: &str) -> (&str, &str) {
    match text.split_once(' ') {
        Some((word, rest)) => (word, rest.trim()),
        None => (text, ""),
    }
}

pub fn number(word: &str, given: &mut Given) -> u32 {
    match word.parse::<u32>() {
        Ok(number) => number,
        Err(_fault) => {
            given.refuse("not made: no number");
            0
        }
    }
}

/// The first word as a number, and what follows it.
pub fn cut_number<'a>(text: &'a str, given: &mut Given) -> (u32, &'a str) {
    let (word, rest) = cut(text);
    (number(word, given), rest)
}

/// The place of a call that is counted from 1.
pub fn place(word: &str, given: &mut Given) -> usize {
    match number(word, given).checked_sub(1) {
        Some(place) => place as usize,
        None => {
            given.refuse("not made: calls are counted from 1");
            0
        }
    }
}

/// All parts of a text, with this between them. Empty ones count only between commas.
pub fn all<T: Part>(text: &str, between: char, given: &mut Given) -> Vec<T> {
    let mut parts = Vec::new(given.alloc);
    for part in text.split(between) {
        let part = part.trim();
        if part.is_empty() && between != ',' {
            continue;
        }
        if let Some(value) = T::read(part, given) {
            add(&mut parts, value, given);
        }
    }
    parts
}

impl Part for u32 {
    fn read(text: &str, given: &mut Given) -> Option<u32> {
        Some(number(text, given))
    }
}

/// A literal is written as its variable, behind a `-` where it is negated.
impl Part for Lit {
    fn read(text: &str, given: &mut Given) -> Option<Lit> {
        let literal = match text.strip_prefix("-") {
            Some(variable) => Lit::make(number(variable, given), false),
            None => Lit::make(number(text, given), true),
        };
        given.known(literal, "not made: no literal")
    }
}

impl Part for Clause {
    fn read(text: &str, given: &mut Given) -> Option<Clause> {
        let literals = all::<Lit>(text, ' ', given);
        match Clause::make(given.alloc, literals.as_slice()) {
            Ok(clause) => given.known(Some(clause), MEMORY),
            Err(ClauseFault::Memory) => given.known(None, MEMORY),
            Err(_fault) => given.known(None, "not made: no clause"),
        }
    }
}

/// A formula such as `3 of 1 2, -1 3`, over the variables up to 3; its clauses may be `none`.
pub fn formula(text: &str, given: &mut Given) -> Option<Formula> {
    let (variables, text) = text.split_once(" of ").unwrap_or((text, "none"));
    let variables = number(variables, given);
    let clauses = if text == "none" {
        Vec::new(given.alloc)
    } else {
        all::<Clause>(text, ',', given)
    };
    let formula = Formula::make(variables, clauses).ok();
    given.known(formula, "a variable past the last")
}

/// A value for each variable, `0` or `1`.
pub fn assignment(digits: &str, given: &mut Given) -> Assignment {
    let mut values = Vec::new(given.alloc);
    for digit in digits.chars() {
        add(&mut values, digit == '1', given);
    }
    Assignment::make(values)
}

/// The parts before and behind a `:`.
fn halves<'a>(text: &'a str, given: &mut Given) -> (&'a str, &'a str) {
    match text.split_once(":") {
        Some(halves) => halves,
        None => {
            given.refuse("not made: no colon");
            (text, "")
        }
    }
}

/// A proof line such as `1 -2 : 4 3`.
impl Part for Line {
    fn read(text: &str, given: &mut Given) -> Option<Line> {
        let (words, hints) = halves(text, given);
        let literals = all::<Lit>(words, ' ', given);
        let hints = all::<u32>(hints, ' ', given);
        let made = Line::make(given.alloc, literals.as_slice(), hints.as_slice());
        line_made(made, given)
    }
}

/// The line that was made, without which the call isn't made.
pub fn line_made(made: Result<Line, MakeLineFault>, given: &mut Given) -> Option<Line> {
    match made {
        Ok(line) => given.known(Some(line), MEMORY),
        Err(MakeLineFault::Memory) => given.known(None, MEMORY),
        Err(_fault) => given.known(None, "not made: no line"),
    }
}

/// A node such as `s1`, a split by variable 1, or `4`, the leaf of clause 4.
impl Part for Node {
    fn read(text: &str, given: &mut Given) -> Option<Node> {
        match text.strip_prefix("s") {
            Some(variable) => Some(Node::Split(number(variable, given))),
            None => Some(Node::Leaf(number(text, given))),
        }
    }
}

/// The tree of nodes such as `s1 4 3`.
pub fn tree(words: &str, given: &mut Given) -> Option<ProofTree> {
    let tree = ProofTree::make(all::<Node>(words, ' ', given)).ok();
    given.known(tree, "not made: no tree")
}

/// A hint: the number of a clause, or `+` and the place of a line of the batch.
impl Part for Hint {
    fn read(text: &str, given: &mut Given) -> Option<Hint> {
        match text.strip_prefix("+") {
            Some(place) => Some(Hint::Own(number(place, given))),
            None => Some(Hint::Known(number(text, given))),
        }
    }
}

impl Part for BatchLine {
    fn read(text: &str, given: &mut Given) -> Option<BatchLine> {
        let (words, hints) = halves(text, given);
        let hints = all::<Hint>(hints, ' ', given);
        match Clause::read(words, given) {
            Some(clause) => Some(BatchLine { clause, hints }),
            None => None,
        }
    }
}

/// A step in the form of a schedule's line.
impl Part for Step {
    fn read(text: &str, given: &mut Given) -> Option<Step> {
        let (word, rest) = cut(text);
        let (first, second) = cut(rest);
        match word {
            "issue" => Some(Step::Issue {
                rank: number(first, given),
                buffered: second == "buffered",
            }),
            "match" => Some(Step::Match {
                send: place(first, given),
                taker: place(second, given),
            }),
            "see" => Some(Step::See {
                send: place(first, given),
                probe: place(second, given),
            }),
            _ => given.known(None, "not made: no step"),
        }
    }
}

/// Why a worker leaves; none where it is done.
pub fn why_of(word: &str) -> Option<Why> {
    match word {
        "budget" => Some(Why::Budget),
        "full" => Some(Why::Full),
        "memory" => Some(Why::Memory),
        "left" => Some(Why::Left),
        _ => None,
    }
}

/// The call of this name that a worker makes, such as `publish` with `0 : 1 3 2`. A batch such as
/// `-2 : 1 2; : +0 3` has a `;` between its lines.
pub fn event(name: &str, words: &str, given: &mut Given) -> Option<Event> {
    let (worker, words) = cut_number(words, given);
    match name {
        "publish" => {
            let lines = all::<BatchLine>(words, ';', given);
            let batch = Batch { lines };
            given.known(Some(Event::Publish { worker, batch }), MEMORY)
        }
        "found" => {
            let steps = all::<Step>(words, '/', given);
            given.known(Some(Event::Found { worker, steps }), MEMORY)
        }
        "leave" => {
            let why = why_of(words);
            Some(Event::Leave { worker, why })
        }
        "fetch" => {
            let from = number(words, given) as usize;
            Some(Event::Fetch { worker, from })
        }
        _ => leaf_event(name, worker, words, given),
    }
}

/// A call about a leaf, such as `close` with `0 4`.
fn leaf_event(name: &str, worker: u32, words: &str, given: &mut Given) -> Option<Event> {
    let (leaf, other) = cut_number(words, given);
    let number = number(other, given);
    match name {
        "close" => Some(Event::Close {
            worker,
            leaf,
            number,
        }),
        "split_leaf" => Some(Event::Split {
            worker,
            leaf,
            variable: number,
        }),
        _ => given.known(None, "not made: no such call"),
    }
}
