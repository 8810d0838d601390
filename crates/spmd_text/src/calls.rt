//! The arguments of calls, read from left to right.
//!
//! What is wrong is noted, and no piece is read behind it: what is then made of the parts is never
//! used.

ghost use Rattle.std.specs.Prelude.{ℕ, ◌≡◌, ◌+◌, IfSome, None, Some, false, slice_get, true};
ghost use Rattle.spmd_text.specs.Labels.{name_fits};
ghost use Rattle.spmd_text.specs.parts.Parts.{HasRightRoot, Keeps, HasRead, arguments_part, syntax_form, group_part, index_part, label_part, labels_part, optional_part, request_part, root_part, value_part, wild_part};
ghost use Rattle.spmd_text.specs.parts.Reading.{Goes};
ghost use Rattle.spmd_text.specs.Spelling.{piece_begins, is_rooted};
ghost use Rattle.spmd_text.specs.parts.Statements.{IsMore, MakesOrLacksMemory, begun_part, held, is_call_word, scope_of};

use crate::expressions::expression_at;
use crate::fault::ParseReason;
use crate::keeping::{Made, boxed, keep, refuse};
use crate::labels::is_label;
use crate::parser::Parser;
use crate::piece::{Piece, Word};
use spmd_tree::{
    Arguments, CollectiveKind, Expression, GroupForm, LabelForm, Labels, SendMode, SpmdStatement,
};
use std::alloc::AllocError;

/// Whether the name can be that of a request or handle.
fn can_be_label(names: &[Vec<u8>], name: u32, indexed: bool) -> bool
    ensures { result ≡ name_fits (slice_get names.now name) indexed }
{
    match names.get(name as usize) {
        None => false,
        Some(word) => is_label(word.as_slice(), indexed),
    }
}

/// The index of a request or handle, where brackets stand.
fn index(parser: &mut Parser<'_>) -> Option<Expression>
    ensures { HasRead (index_part parser.old.in_parameter) parser.old parser.new result }
{
    if !parser.take(Piece::OpenIndex) {
        return None;
    }
    let index = expression_at(parser);
    parser.expect(Piece::CloseIndex, ParseReason::NoIndexEnd);
    Some(index)
}

/// Notes where the name can't be that of a request or handle.
fn refuse_label(parser: &mut Parser<'_>, name: u32, indexed: bool)
    ensures goes { Goes parser.old parser.new }
    ensures sound { parser.new.fault ≡ None → (parser.new ≡ parser.old) × (name_fits (slice_get parser.old.names.now name) indexed ≡ true) }
    ensures fits { name_fits (slice_get parser.old.names.now name) indexed ≡ true → parser.new ≡ parser.old }
{
    if !can_be_label(parser.names, name, indexed) {
        parser.fail(ParseReason::Label);
    }
}

/// A request or handle: a name, and maybe an index in brackets.
fn label(parser: &mut Parser<'_>) -> LabelForm
    ensures { HasRead (label_part parser.old.in_parameter parser.old.names.now) parser.old parser.new result }
{
    let name = parser.name();
    let index = index(parser);
    refuse_label(parser, name, index.is_some());
    LabelForm { name, index }
}

/// Notes where a wildcard stands.
fn refuse_star(parser: &mut Parser<'_>)
    ensures goes { Goes parser.old parser.new }
    ensures sound { parser.new.fault ≡ None → parser.new ≡ parser.old }
    ensures other { piece_begins Piece.Star (Some parser.old.rest.now) ≡ false → parser.new ≡ parser.old }
{
    if parser.is(Piece::Star) {
        parser.fail(ParseReason::StarDestination);
    }
}

/// A destination, which is no wildcard (MPI 4.1, section 3.2.4).
fn destination(parser: &mut Parser<'_>) -> Expression
    ensures { HasRead (value_part parser.old.in_parameter) parser.old parser.new result }
{
    refuse_star(parser);
    expression_at(parser)
}

/// A source or a tag, or `*` for a wildcard.
fn wild(parser: &mut Parser<'_>) -> Option<Expression>
    ensures { HasRead (wild_part parser.old.in_parameter) parser.old parser.new result }
{
    if parser.take(Piece::Star) {
        return None;
    }
    Some(expression_at(parser))
}

/// An expression behind a word, where the word stands.
fn optional(parser: &mut Parser<'_>, word: Word) -> Option<Expression>
    ensures { HasRead (optional_part parser.old.in_parameter word) parser.old parser.new result }
{
    if !parser.take(Piece::Word(word)) {
        return None;
    }
    Some(expression_at(parser))
}

/// The request of a call that is started, with its comma.
fn request(parser: &mut Parser<'_>, started: bool) -> Option<LabelForm>
    ensures { HasRead (request_part parser.old.in_parameter parser.old.names.now started) parser.old parser.new result }
{
    if !started {
        return None;
    }
    let form = label(parser);
    parser.comma();
    Some(form)
}

/// A send after its word: the request where it is started, the destination and the tag.
fn send(parser: &mut Parser<'_>, mode: SendMode, started: bool) -> Arguments
    ensures { HasRead (arguments_part parser.old.in_parameter parser.old.names.now (Form.Send mode started)) parser.old parser.new result }
{
    let request = request(parser, started);
    let destination = destination(parser);
    parser.comma();
    let tag = expression_at(parser);
    let communicator = optional(parser, Word::Comm);
    Arguments::Send {
        mode,
        request,
        destination,
        tag,
        communicator,
    }
}

/// A receive after its word: the request where it is started, the source and the tag.
fn receive(parser: &mut Parser<'_>, started: bool) -> Arguments
    ensures { HasRead (arguments_part parser.old.in_parameter parser.old.names.now (Form.Receive started)) parser.old parser.new result }
{
    let request = request(parser, started);
    let source = wild(parser);
    parser.comma();
    let tag = wild(parser);
    let communicator = optional(parser, Word::Comm);
    Arguments::Receive {
        request,
        source,
        tag,
        communicator,
    }
}

/// A matched probe after its word: the handle, the source and the tag.
fn matched_probe(parser: &mut Parser<'_>) -> Arguments
    ensures { HasRead (arguments_part parser.old.in_parameter parser.old.names.now Form.MatchedProbe) parser.old parser.new result }
{
    let handle = label(parser);
    parser.comma();
    let source = wild(parser);
    parser.comma();
    let tag = wild(parser);
    let communicator = optional(parser, Word::Comm);
    Arguments::MatchedProbe {
        handle,
        source,
        tag,
        communicator,
    }
}

/// A probe after its word: the source and the tag.
fn probe(parser: &mut Parser<'_>) -> Arguments
    ensures { HasRead (arguments_part parser.old.in_parameter parser.old.names.now Form.Probe) parser.old parser.new result }
{
    let source = wild(parser);
    parser.comma();
    let tag = wild(parser);
    let communicator = optional(parser, Word::Comm);
    Arguments::Probe {
        source,
        tag,
        communicator,
    }
}

/// The ranks of a collective call.
fn group(parser: &mut Parser<'_>) -> Option<GroupForm>
    ensures { HasRead (group_part parser.old.in_parameter) parser.old parser.new result }
{
    if !parser.take(Piece::Word(Word::Among)) {
        return None;
    }
    let first = expression_at(parser);
    parser.expect(Piece::Word(Word::To), ParseReason::NoTo);
    let last = expression_at(parser);
    let step = optional(parser, Word::Step);
    Some(GroupForm { first, last, step })
}

/// The root of a collective call that has one.
fn root(parser: &mut Parser<'_>, rooted: bool) -> Option<Expression>
    ensures { HasRead (root_part parser.old.in_parameter rooted) parser.old parser.new result }
{
    if !rooted {
        return None;
    }
    Some(expression_at(parser))
}

/// A collective call after its word: the root where it has one, and its group.
fn collective(parser: &mut Parser<'_>, kind: CollectiveKind, rooted: bool) -> Arguments
    ensures { rooted ≡ is_rooted kind →
        HasRead (arguments_part parser.old.in_parameter parser.old.names.now (Form.Collective kind rooted))
        parser.old parser.new result }
{
    let root = root(parser, rooted);
    let group = group(parser);
    let communicator = optional(parser, Word::Comm);
    Arguments::Collective {
        kind,
        root,
        group,
        communicator,
    }
}

/// A receive on a handle after its word: the request where it is started, and the handle.
fn matched_receive(parser: &mut Parser<'_>, started: bool) -> Arguments
    ensures { HasRead (arguments_part parser.old.in_parameter parser.old.names.now (Form.MatchedReceive
        started)) parser.old parser.new result }
{
    let request = request(parser, started);
    let handle = label(parser);
    Arguments::MatchedReceive { request, handle }
}

/// A joined send and receive after its word.
fn send_receive(parser: &mut Parser<'_>) -> Arguments
    ensures { HasRead (arguments_part parser.old.in_parameter parser.old.names.now Form.SendReceive) parser.old parser.new result }
{
    let destination = destination(parser);
    parser.comma();
    let send_tag = expression_at(parser);
    parser.comma();
    let source = wild(parser);
    parser.comma();
    let receive_tag = wild(parser);
    let communicator = optional(parser, Word::Comm);
    Arguments::SendReceive {
        destination,
        send_tag,
        source,
        receive_tag,
        communicator,
    }
}

/// A wait after its word.
fn wait(parser: &mut Parser<'_>) -> Arguments
    ensures { HasRead (arguments_part parser.old.in_parameter parser.old.names.now Form.Wait) parser.old parser.new result }
{
    let request = label(parser);
    Arguments::Wait { request }
}

/// A request, and the others of the list.
fn more(parser: &mut Parser<'_>, form: LabelForm, others: Labels) -> Labels
    ensures { MakesOrLacksMemory parser.old parser.new (IsMore form others result) }
{
    match boxed(parser.alloc, others) {
        Ok(others) => Labels::More(form, others),
        Err(AllocError) => {
            parser.fail(ParseReason::Memory);
            Labels::Last(form)
        }
    }
}

/// The requests of a `waitall`, in their order, of which so many may follow the first.
fn labels(parser: &mut Parser<'_>, most: u32) -> Labels
    ensures { HasRead (labels_part parser.old.in_parameter parser.old.names.now (most + 1)) parser.old parser.new result }
{
    let form = label(parser);
    if !parser.take(Piece::Comma) {
        return Labels::Last(form);
    }
    if most == 0 {
        parser.fail(ParseReason::TooLong);
        return Labels::Last(form);
    }
    let others = labels(parser, most - 1);
    more(parser, form, others)
}

/// A `waitall` after its word, up to the end of its line.
pub(crate) fn wait_all(parser: &mut Parser<'_>, line: u32) -> Made
    ensures { (depth : ℕ) → HasRead (begun_part (scope_of parser.old) depth line Word.Waitall) parser.old parser.new (held result) }
{
    let requests = labels(parser, 1023);
    parser.end_line();
    keep(parser, SpmdStatement::WaitAll { line, requests })
}

/// What a word begins: a send, and whether it is started; a receive, or one on a handle, and
/// whether it is started; a collective call, and whether it has a root; or another call.
#[derive(Clone, Copy)]
enum Form {
    Send(SendMode, bool),
    Receive(bool),
    Probe,
    MatchedProbe,
    MatchedReceive(bool),
    SendReceive,
    Wait,
    Collective(CollectiveKind, bool),
}

/// What the word begins, where that is a call.
fn form_of(word: Word) -> Option<Form>
    ensures form { result ≡ syntax_form word }
    ensures right { IfSome result HasRightRoot }
{
    match word {
        Word::Send => Some(Form::Send(SendMode::Standard, false)),
        Word::Ssend => Some(Form::Send(SendMode::Synchronous, false)),
        Word::Bsend => Some(Form::Send(SendMode::Buffered, false)),
        Word::Isend => Some(Form::Send(SendMode::Standard, true)),
        Word::Issend => Some(Form::Send(SendMode::Synchronous, true)),
        Word::Ibsend => Some(Form::Send(SendMode::Buffered, true)),
        Word::Recv => Some(Form::Receive(false)),
        Word::Irecv => Some(Form::Receive(true)),
        Word::Probe => Some(Form::Probe),
        Word::Mprobe => Some(Form::MatchedProbe),
        Word::Mrecv => Some(Form::MatchedReceive(false)),
        Word::Imrecv => Some(Form::MatchedReceive(true)),
        Word::Sendrecv => Some(Form::SendReceive),
        Word::Wait => Some(Form::Wait),
        Word::Barrier => Some(Form::Collective(CollectiveKind::Barrier, false)),
        Word::Bcast => Some(Form::Collective(CollectiveKind::Broadcast, true)),
        Word::Reduce => Some(Form::Collective(CollectiveKind::Reduce, true)),
        Word::Allreduce => Some(Form::Collective(CollectiveKind::AllReduce, false)),
        Word::Gather => Some(Form::Collective(CollectiveKind::Gather, true)),
        Word::Scatter => Some(Form::Collective(CollectiveKind::Scatter, true)),
        Word::Allgather => Some(Form::Collective(CollectiveKind::AllGather, false)),
        Word::Alltoall => Some(Form::Collective(CollectiveKind::AllToAll, false)),
        Word::Scan => Some(Form::Collective(CollectiveKind::Scan, false)),
        _ => None,
    }
}

/// The arguments of a call of this form.
fn arguments(parser: &mut Parser<'_>, form: Form) -> Arguments
    ensures { HasRightRoot form → HasRead (arguments_part parser.old.in_parameter parser.old.names.now form) parser.old parser.new result }
{
    match form {
        Form::Send(mode, started) => send(parser, mode, started),
        Form::Receive(started) => receive(parser, started),
        Form::Probe => probe(parser),
        Form::MatchedProbe => matched_probe(parser),
        Form::MatchedReceive(started) => matched_receive(parser, started),
        Form::SendReceive => send_receive(parser),
        Form::Wait => wait(parser),
        Form::Collective(kind, rooted) => collective(parser, kind, rooted),
    }
}

/// The call that the word begins, up to the end of its line.
pub(crate) fn call(parser: &mut Parser<'_>, word: Word, line: u32) -> Made
    ensures { (depth : ℕ) → is_call_word word ≡ true →
        HasRead (begun_part (scope_of parser.old) depth line word) parser.old parser.new (held result) }
{
    let Some(form) = form_of(word) else {
        return refuse(parser, ParseReason::NoStatement);
    };
    let arguments = arguments(parser, form);
    parser.end_line();
    keep(parser, SpmdStatement::Call { line, arguments })
}
