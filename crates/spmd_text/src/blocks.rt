//! Statements, and the loops and branches that they stand in.
//!
//! What is wrong is noted, and no piece is read behind it: what is then made of the parts is never
//! used. `at` is the line that is read: that on which the last heading, parameter, statement, head
//! of a branch or loop, `else` or `end` begins. It stays as it is once something is wrong.

ghost use Rattle.std.specs.Prelude.{[], ◌∷◌, ◌≡◌, ◌++◌, ◌<◌, ℕ, IsTrue, List, None, Some, false, length, true};
ghost use Rattle.spmd_tree.specs.declared.tree.SpmdStatement.{SpmdStatement};
ghost use Rattle.spmd_text.specs.parts.Parts.{HasRead};
ghost use Rattle.spmd_text.specs.parts.Programs.{Meets, ReadsParameters, is_all_read, text_part};
ghost use Rattle.spmd_text.specs.parts.Reading.{Goes, next};
ghost use Rattle.spmd_text.specs.Spelling.{piece_begins, branch_word};
ghost use Rattle.spmd_text.specs.parts.Lines.{Block, EndsBlock, EndsBranch, IsEnded, Level, TellsLine, begin, from_word, is_inner, is_settled, level_at, lists, may_hold};
ghost use Rattle.spmd_text.specs.parts.Statements.{IsInTurn, IsInside, IsOtherwise, IsRepeat, IsWhen, KeptStatement, MakesOrLacksMemory, begun_part, end_part, flat, flat_all, heading_part, held, held_all, is_end, is_first, one_part, scope_of, statements_part, tail_part, keyword_of};
ghost use Rattle.spmd_text.specs.Statements.{line_of_first_piece, within_loop};

use crate::codes::code;
use crate::expressions::condition_at;
use crate::fault::ParseReason;
use crate::keeping::{Made, keep, refuse};
use crate::lines::{Span, heading_line, parameter, policy_line, simple, span_at, variable};
use crate::parser::Parser;
use crate::piece::{Piece, Token, Word};
use crate::reading::SpmdPolicy;
use spmd_tree::{Expression, SpmdStatement};

/// A statement, and then another one.
fn in_turn(parser: &mut Parser<'_>, a: Made, b: Made) -> Made
    ensures { MakesOrLacksMemory parser.old parser.new (IsInTurn (held a) (held b) (held result)) }
{
    let Some(a) = a else {
        return refuse(parser, ParseReason::Memory);
    };
    let Some(b) = b else {
        return refuse(parser, ParseReason::Memory);
    };
    keep(parser, SpmdStatement::Sequence(a, b))
}

/// The last statements of the list, so many of them, one after another: as a tree that is no
/// deeper than it has to be.
fn sequence(parser: &mut Parser<'_>, list: &mut Vec<Made>, count: usize) -> Made
    ensures { (before popped : List KeptStatement) → list.old.items ≡ before ++ popped → length popped ≡ count →
        (list.new.items ≡ before) ×
        MakesOrLacksMemory parser.old parser.new (flat (held result) ≡ flat_all (held_all popped)) }
{
    if count == 0 {
        return keep(parser, SpmdStatement::Nothing);
    }
    if count == 1 {
        return match list.pop() {
            None => None,
            Some(last) => last,
        };
    }
    let second = sequence(parser, list, count / 2);
    let first = sequence(parser, list, count - count / 2);
    in_turn(parser, first, second)
}

/// The statements of the list, one after another.
fn whole(parser: &mut Parser<'_>, list: Vec<Made>) -> Made
    ensures { MakesOrLacksMemory parser.old parser.new (flat (held result) ≡ flat_all (held_all list.items)) }
{
    let mut list = list;
    let count = list.len();
    sequence(parser, &mut list, count)
}

/// Adds a statement to the list, where memory lasts.
fn add(parser: &mut Parser<'_>, list: &mut Vec<Made>, statement: Made)
    ensures { MakesOrLacksMemory parser.old parser.new (held_all list.new.items ≡ held_all list.old.items ++ held statement ∷ []) }
{
    match list.push(statement) {
        Ok(()) => {}
        Err(_) => parser.fail(ParseReason::Memory),
    }
}

/// The statement that a branch is.
fn when(
    parser: &mut Parser<'_>,
    line: u32,
    chained: bool,
    condition: Expression,
    yes: Made,
    no: Made,
) -> Made
    ensures { MakesOrLacksMemory parser.old parser.new (IsWhen line chained condition (held yes) (held no) (held result)) }
{
    let Some(yes) = yes else {
        return refuse(parser, ParseReason::Memory);
    };
    let Some(no) = no else {
        return refuse(parser, ParseReason::Memory);
    };
    let statement = SpmdStatement::When {
        line,
        chained,
        condition,
        yes,
        no,
    };
    keep(parser, statement)
}

/// What stands after an `else`.
fn otherwise(parser: &mut Parser<'_>, statements: Made) -> Made
    ensures { MakesOrLacksMemory parser.old parser.new (IsOtherwise (held statements) (held result)) }
{
    let Some(statements) = statements else {
        return refuse(parser, ParseReason::Memory);
    };
    keep(parser, SpmdStatement::Otherwise(statements))
}

/// The statement that a loop is.
fn repeat(parser: &mut Parser<'_>, line: u32, name: u32, span: Span, body: Made) -> Made
    ensures { MakesOrLacksMemory parser.old parser.new (IsRepeat line name span (held body) (held result)) }
{
    let Some(body) = body else {
        return refuse(parser, ParseReason::Memory);
    };
    let Span { first, last, step } = span;
    let statement = SpmdStatement::Repeat {
        line,
        name,
        first,
        last,
        step,
        body,
    };
    keep(parser, statement)
}

/// The word that a statement begins with. `end`, `else` and `elif` end those before them.
fn word_of(piece: Piece) -> Option<Word>
    ensures { result ≡ keyword_of piece }
{
    match piece {
        Piece::Word(Word::End) => None,
        Piece::Word(Word::Else) => None,
        Piece::Word(Word::Elif) => None,
        Piece::Word(word) => Some(word),
        _ => None,
    }
}

/// Whether the piece ends the statements before it.
fn is_end(piece: Piece) -> bool
    ensures { result ≡ is_end piece }
{
    match piece {
        Piece::Word(Word::End) => true,
        Piece::Word(Word::Else) => true,
        Piece::Word(Word::Elif) => true,
        Piece::TextEnd => true,
        _ => false,
    }
}

/// Notes that a line begins, unless something is wrong.
fn begin_line(parser: &Parser<'_>, at: &mut u32)
    ensures sound { parser.now.fault ≡ None → at.new ≡ line_of_first_piece parser.now.rest.now }
    ensures stays { (why : ParseReason) → parser.now.fault ≡ Some why → at.new ≡ at.old }
{
    match parser.fault {
        None => *at = parser.line(),
        Some(_) => {}
    }
}

/// Notes where statements don't end behind a statement, and no other one begins.
fn refuse_other(parser: &mut Parser<'_>)
    ensures goes { Goes parser.old parser.new }
    ensures sound { parser.new.fault ≡ None → (parser.new ≡ parser.old) × (is_end (next parser.old) ≡ true) }
    ensures fits { is_end (next parser.old) ≡ true → parser.new ≡ parser.old }
{
    if !is_end(parser.piece()) {
        parser.fail(ParseReason::NoStatement);
    }
}

/// The end of a block, behind its statements.
fn end_block(parser: &mut Parser<'_>, at: &mut u32)
    ensures reads { HasRead (end_part false) parser.old parser.new result }
    ensures stays { (why : ParseReason) → parser.old.fault ≡ Some why → at.new ≡ at.old }
    ensures line { (level : Level) (outer : List Level) → EndsBlock level parser.old →
        TellsLine (level ∷ outer) parser.old parser.new parser.old.rest.now at.new }
{
    begin_line(parser, at);
    if parser.take(Piece::Word(Word::End)) {
        parser.end_line();
        return;
    }
    if parser.is(Piece::TextEnd) {
        parser.fail(ParseReason::NoEnd);
    } else {
        parser.fail(ParseReason::StrayElse);
    }
}

/// The end of a branch: an `elif` ends with its `if`.
fn end_branch(parser: &mut Parser<'_>, at: &mut u32, chained: bool)
    ensures reads { HasRead (end_part chained) parser.old parser.new result }
    ensures stays { (why : ParseReason) → parser.old.fault ≡ Some why → at.new ≡ at.old }
    ensures line { (level : Level) (outer : List Level) → EndsBlock level parser.old →
        TellsLine (level ∷ outer) parser.old parser.new parser.old.rest.now at.new }
    ensures same { chained ≡ true → parser.new ≡ parser.old }
{
    if !chained {
        end_block(parser, at);
    }
}

/// Whether the end of the text is all that is left.
fn is_all_read(tokens: &[Token]) -> bool
    ensures { result ≡ is_all_read tokens.now }
{
    let [last] = tokens else {
        return false;
    };
    code(last.piece) == code(Piece::TextEnd)
}

/// The end of the text, behind its statements.
fn end_text(parser: &mut Parser<'_>, at: &mut u32)
    ensures goes { Goes parser.old parser.new }
    ensures sound { parser.new.fault ≡ None → (parser.new ≡ parser.old) × (is_all_read parser.old.rest.now ≡ true) }
    ensures fits { is_all_read parser.old.rest.now ≡ true → parser.new ≡ parser.old }
    ensures stays { (why : ParseReason) → parser.old.fault ≡ Some why → at.new ≡ at.old }
    ensures line { (level : Level) → is_inner level.block ≡ false → is_end (next parser.old) ≡ true → IsEnded parser.old.rest.now
        → TellsLine (level ∷ []) parser.old parser.new parser.old.rest.now at.new }
{
    begin_line(parser, at);
    if is_all_read(parser.rest) {
        return;
    }
    if parser.is(Piece::Word(Word::End)) {
        parser.fail(ParseReason::StrayEnd);
    } else {
        parser.fail(ParseReason::StrayElse);
    }
}

/// The statements of the loop that was opened last, which ends with them.
#[cycle(statements)]
fn inside(parser: &mut Parser<'_>, at: &mut u32, depth: u32) -> Made
    ensures reads { IsInside parser.old parser.new depth (held result) }
    ensures stays { (why : ParseReason) → parser.old.fault ≡ Some why → at.new ≡ at.old }
    ensures line { (block : Block) (outer : List Level) → is_settled block ≡ true →
        TellsLine (level_at block parser.old depth ∷ outer) parser.old parser.new parser.old.rest.now at.new }
    ensures ended { parser.new.fault ≡ None → is_end (next parser.new) ≡ true }
{
    let body = statements(parser, at, depth);
    let _ = parser.loops.pop();
    body
}

/// The statements of a loop of this variable.
#[cycle(statements)]
fn body_of(parser: &mut Parser<'_>, at: &mut u32, name: u32, depth: u32) -> Made
    ensures reads { HasRead (statements_part (within_loop name (scope_of parser.old)) depth) parser.old parser.new (held result) }
    ensures stays { (why : ParseReason) → parser.old.fault ≡ Some why → at.new ≡ at.old }
    ensures line { (block : Block) (outer : List Level) → is_settled block ≡ true →
        TellsLine (record { block = block; scope = within_loop name (scope_of parser.old); depth = depth } ∷
        outer) parser.old parser.new parser.old.rest.now at.new }
    ensures ended { parser.new.fault ≡ None → is_end (next parser.new) ≡ true }
{
    match parser.loops.push(name) {
        Err(_) => refuse(parser, ParseReason::Memory),
        Ok(()) => inside(parser, at, depth),
    }
}

/// A loop after its word. At most so many blocks stand within one another, itself among them.
#[cycle(statements)]
fn for_loop(parser: &mut Parser<'_>, at: &mut u32, line: u32, depth: u32) -> Made
    ensures reads { HasRead (begun_part (scope_of parser.old) depth line Word.For) parser.old parser.new (held result) }
    ensures stays { (why : ParseReason) → parser.old.fault ≡ Some why → at.new ≡ at.old }
    ensures line { (block : Block) (outer : List Level) → is_settled block ≡ true → at.old ≡ line →
        TellsLine (level_at block parser.old depth ∷ outer) parser.old parser.new (from_word line Word.For
        parser.old) at.new }
{
    let name = variable(parser);
    let span = span_at(parser);
    if depth == 0 {
        return refuse(parser, ParseReason::TooDeep);
    }
    parser.end_line();
    let body = body_of(parser, at, name, depth - 1);
    end_block(parser, at);
    repeat(parser, line, name, span, body)
}

/// An `if` after its word, up to its end; or an `elif`, up to what ends its `if`. At most so many
/// blocks stand within one another, itself among them.
#[cycle(statements)]
fn branch(parser: &mut Parser<'_>, at: &mut u32, line: u32, chained: bool, depth: u32) -> Made
    ensures reads { HasRead (begun_part (scope_of parser.old) depth line (branch_word chained)) parser.old parser.new (held result) }
    ensures stays { (why : ParseReason) → parser.old.fault ≡ Some why → at.new ≡ at.old }
    ensures line { (block : Block) (outer : List Level) → may_hold chained block ≡ true → at.old ≡ line →
        TellsLine (level_at block parser.old depth ∷ outer) parser.old parser.new (from_word line (branch_word
        chained) parser.old) at.new }
    ensures ends { chained ≡ true → parser.new.fault ≡ None → EndsBranch parser.new (held result) }
{
    let condition = condition_at(parser);
    if depth == 0 {
        return refuse(parser, ParseReason::TooDeep);
    }
    parser.end_line();
    let yes = statements(parser, at, depth - 1);
    let no = tail(parser, at, depth - 1);
    end_branch(parser, at, chained);
    when(parser, line, chained, condition, yes, no)
}

/// An `else` after its word.
#[cycle(statements)]
fn after_else(parser: &mut Parser<'_>, at: &mut u32, depth: u32) -> Made
    ensures reads { (line : ℕ) → HasRead (begun_part (scope_of parser.old) depth line Word.Else) parser.old parser.new (held result) }
    ensures stays { (why : ParseReason) → parser.old.fault ≡ Some why → at.new ≡ at.old }
    ensures line { (line : ℕ) (outer : List Level) → at.old ≡ line →
        TellsLine (level_at Block.branch parser.old depth ∷ outer) parser.old parser.new (from_word line Word.Else
        parser.old) at.new }
    ensures ended { parser.new.fault ≡ None → is_end (next parser.new) ≡ true }
{
    parser.end_line();
    let inner = statements(parser, at, depth);
    otherwise(parser, inner)
}

/// What stands behind the statements of a branch: an `elif`, an `else`, or nothing.
#[cycle(statements)]
fn tail(parser: &mut Parser<'_>, at: &mut u32, depth: u32) -> Made
    ensures reads { HasRead (tail_part (scope_of parser.old) depth) parser.old parser.new (held result) }
    ensures stays { (why : ParseReason) → parser.old.fault ≡ Some why → at.new ≡ at.old }
    ensures line { (outer : List Level) →
        TellsLine (level_at Block.branch parser.old depth ∷ outer) parser.old parser.new parser.old.rest.now
        at.new }
    ensures ends { is_end (next parser.old) ≡ true → parser.new.fault ≡ None → EndsBranch parser.new (held result) }
{
    begin_line(parser, at);
    let line = parser.line();
    if parser.take(Piece::Word(Word::Elif)) {
        return branch(parser, at, line, true, depth);
    }
    if parser.take(Piece::Word(Word::Else)) {
        return after_else(parser, at, depth);
    }
    keep(parser, SpmdStatement::Nothing)
}

/// A statement after its first word.
#[cycle(statements)]
fn rest_of_statement(
    parser: &mut Parser<'_>,
    at: &mut u32,
    word: Word,
    line: u32,
    depth: u32,
) -> Made
    ensures reads { is_first word ≡ true → HasRead (begun_part (scope_of parser.old) depth line word) parser.old parser.new (held result) }
    ensures stays { (why : ParseReason) → parser.old.fault ≡ Some why → at.new ≡ at.old }
    ensures line { (block : Block) (outer : List Level) → is_settled block ≡ true →
        keyword_of (Piece.Word word) ≡ Some word → at.old ≡ line →
        TellsLine (level_at block parser.old depth ∷ outer) parser.old parser.new (from_word line word parser.old)
        at.new }
{
    match word {
        Word::For => for_loop(parser, at, line, depth),
        Word::If => branch(parser, at, line, false, depth),
        _ => simple(parser, word, line),
    }
}

/// A statement that begins with this word, which comes next.
#[cycle(statements)]
fn statement(parser: &mut Parser<'_>, at: &mut u32, word: Word, depth: u32) -> Made
    ensures reads { is_first word ≡ true → next parser.old ≡ Piece.Word word →
        HasRead (one_part (scope_of parser.old) depth word) parser.old parser.new (held result) }
    ensures shorter { is_first word ≡ true → next parser.old ≡ Piece.Word word → length parser.new.rest.now < length parser.old.rest.now }
    ensures stays { (why : ParseReason) → parser.old.fault ≡ Some why → at.new ≡ at.old }
    ensures line { (block : Block) (outer : List Level) → is_settled block ≡ true →
        keyword_of (Piece.Word word) ≡ Some word → next parser.old ≡ Piece.Word word →
        TellsLine (level_at block parser.old depth ∷ outer) parser.old parser.new parser.old.rest.now at.new }
{
    begin_line(parser, at);
    let line = parser.line();
    parser.step();
    rest_of_statement(parser, at, word, line, depth)
}

/// Statements, up to what ends them. At most so many blocks stand within one another.
#[cycle(statements)]
fn statements(parser: &mut Parser<'_>, at: &mut u32, depth: u32) -> Made
    ensures reads { HasRead (statements_part (scope_of parser.old) depth) parser.old parser.new (held result) }
    ensures stays { (why : ParseReason) → parser.old.fault ≡ Some why → at.new ≡ at.old }
    ensures line { (block : Block) (outer : List Level) → is_settled block ≡ true →
        TellsLine (level_at block parser.old depth ∷ outer) parser.old parser.new parser.old.rest.now at.new }
    ensures ended { parser.new.fault ≡ None → is_end (next parser.new) ≡ true }
{
    let mut list = Vec::new(parser.alloc);
    while let Some(word) = word_of(parser.piece()) {
        let statement = statement(parser, at, word, depth);
        add(parser, &mut list, statement);
    }
    begin_line(parser, at);
    refuse_other(parser);
    whole(parser, list)
}

/// The heading, and the line of the policy.
fn heading(parser: &mut Parser<'_>, at: &mut u32) -> SpmdPolicy
    ensures reads { HasRead heading_part parser.old parser.new result }
    ensures stays { (why : ParseReason) → parser.old.fault ≡ Some why → at.new ≡ at.old }
    ensures line { (depth : ℕ) → TellsLine (level_at Block.start parser.old depth ∷ []) parser.old parser.new parser.old.rest.now at.new }
{
    begin_line(parser, at);
    heading_line(parser);
    begin_line(parser, at);
    policy_line(parser)
}

/// The lines of parameters.
fn parameters(parser: &mut Parser<'_>, at: &mut u32) -> Made
    ensures reads { parser.old.in_parameter ≡ false → ReadsParameters parser.old parser.new (held result) }
    ensures stays { parser.old.in_parameter ≡ false → (why : ParseReason) → parser.old.fault ≡ Some why → at.new ≡ at.old }
    ensures line { (block : Block) (depth : ℕ) → lists block ≡ true → parser.old.in_parameter ≡ false
        → TellsLine (level_at block parser.old depth ∷ []) parser.old parser.new parser.old.rest.now at.new }
    ensures ended { parser.new.fault ≡ None → piece_begins (Piece.Word Word.Param) (Some parser.new.rest.now) ≡ false }
{
    let mut list = Vec::new(parser.alloc);
    while parser.is(Piece::Word(Word::Param)) {
        begin_line(parser, at);
        let line = parser.line();
        parser.step();
        let statement = parameter(parser, line);
        add(parser, &mut list, statement);
    }
    whole(parser, list)
}

/// The whole text, up to its end. At most 32 blocks stand within one another in it.
pub(crate) fn program(parser: &mut Parser<'_>, at: &mut u32) -> (SpmdPolicy, Made)
    ensures reads { parser.old.in_parameter ≡ false → parser.old.parameters.items ≡ [] →
        parser.old.loops.items ≡ [] →
        Meets (text_part parser.old.names.now) parser.old parser.new (result.0, held result.1) }
    ensures ends { parser.new.fault ≡ None → is_all_read parser.new.rest.now ≡ true }
    ensures line { parser.old.in_parameter ≡ false → parser.old.parameters.items ≡ [] →
        parser.old.loops.items ≡ [] → IsEnded parser.old.rest.now
        → TellsLine (begin parser.old.names.now ∷ []) parser.old parser.new parser.old.rest.now at.new }
{
    let policy = heading(parser, at);
    let heads = parameters(parser, at);
    let all = statements(parser, at, 32);
    end_text(parser, at);
    (policy, in_turn(parser, heads, all))
}
