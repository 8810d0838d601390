//! What the words of a command line ask for.

ghost use Rattle.std.specs.Prelude.{◌≡◌, ◌⊎◌, ◌||◌, ◌∷◌, IfErr, IfOk, IfSome, OnOk, List, codes, false, is_some, map, string_bytes, true, Some};
ghost use Rattle.std.specs.List.{list_any};
ghost use Rattle.clap.specs.Words.{Row, all_of, first_of, found_of, kind_of, one_of, rows_of, subcommand_of, subcommand_rows_of};
ghost use Rattle.command_line.specs.CommandLine.{command_line};
ghost use Rattle.command_line.specs.Requests.{AskFor, Flags, Makes, MakesSome, Gives, IsColor, IsRefusedBy, Reads, are_one_file, form_in, has_two, is_beside_each, is_beside_ranks, is_beside_several, is_each, is_file, is_for_one, is_of_several, is_several, is_spmd_asked, is_true, names_twice, path_of, settings_in, task_of, texts_in};

use crate::arguments::{
    ALL, BUDGET, CHART, COLLECTIVES, COLOR, DEPTH, DIMACS, DOT, EACH, EVIDENCE, FOLDER, HTML, JSON,
    JUNIT, LINES, MAP, MESSAGES, OUT, PHASES, PIECES, PROGRAM, PROGRESS, RANKS, SET, SVG, WORKERS,
};
use crate::commands::command;
use clap::error::ErrorKind;
use clap::{ArgMatches, Command, Error};
use options::{Form, Options, Pieces};
use std::alloc::{AllocError, Global};
use std::mem;

/// To search for an answer, tell meanwhile how far the search is or not, and write its evidence to
/// the file `out`.
#[derive(Clone, Copy)]
pub struct ToProve<'a> {
    pub program: &'a str,
    pub out: Option<&'a str>,
    pub options: Options,
    pub progress: bool,
    pub json: bool,
}

/// To judge a program by an evidence.
#[derive(Clone, Copy)]
pub struct ToCheck<'a> {
    pub program: &'a str,
    pub evidence: &'a str,
    pub pieces: Pieces,
    pub json: bool,
}

/// To print the steps of a schedule, with the lines of the program's text or not.
#[derive(Clone, Copy)]
pub struct ToReplay<'a> {
    pub program: &'a str,
    pub evidence: &'a str,
    pub lines: bool,
}

/// To print the formula of a program, in the DIMACS format or not.
#[derive(Clone, Copy)]
pub struct ToEncode<'a> {
    pub program: &'a str,
    pub dimacs: bool,
}

/// To explain what an evidence shows of a program, in this form. Where none is named, one run
/// decides first, and where messages may race an evidence is searched for. The file `map` has the
/// places in the sources that lines of the program come from.
#[derive(Clone, Copy)]
pub struct ToExplain<'a> {
    pub program: &'a str,
    pub evidence: Option<&'a str>,
    pub options: Options,
    pub form: Form,
    pub map: Option<&'a str>,
}

/// To write the proof that an evidence makes of a program's formula to the file `out`.
#[derive(Clone, Copy)]
pub struct ToExport<'a> {
    pub program: &'a str,
    pub evidence: &'a str,
    pub out: &'a str,
}

/// To write a refutation without the lines that aren't needed to the file `out`.
#[derive(Clone, Copy)]
pub struct ToTrim<'a> {
    pub evidence: &'a str,
    pub out: &'a str,
    pub json: bool,
}

/// To print a smaller program that gets stuck too, or write it to the file `out`, and the map of
/// its lines, by those of the given program, to the file `map`.
#[derive(Clone, Copy)]
pub struct ToShrink<'a> {
    pub program: &'a str,
    pub out: Option<&'a str>,
    pub map: Option<&'a str>,
}

/// To decide by one run whether some run of a program of any length gets stuck, and write the
/// schedule of a deadlock to the file `out`.
#[derive(Clone, Copy)]
pub struct ToDecide<'a> {
    pub program: &'a str,
    pub out: Option<&'a str>,
    pub progress: bool,
    pub json: bool,
}

/// To decide a program of any length by one run, and where that doesn't tell by its phases; the
/// schedule of a deadlock is written to the file `out`.
#[derive(Clone, Copy)]
pub struct ToDecidePhases<'a> {
    pub program: &'a str,
    pub out: Option<&'a str>,
    pub progress: bool,
    pub json: bool,
}

/// To cut a program of any length into phases, and write them to the folder `out`.
#[derive(Clone, Copy)]
pub struct ToCut<'a> {
    pub program: &'a str,
    pub out: &'a str,
}

/// To judge a program of any length by the phases in a folder and the evidence there, and write the
/// schedule of a deadlock to the file `out`.
#[derive(Clone, Copy)]
pub struct ToJoin<'a> {
    pub program: &'a str,
    pub folder: &'a str,
    pub out: Option<&'a str>,
    pub json: bool,
}

/// To print the program that an SPMD text is unrolled to for so many ranks, 1 to 2,147,483,647, or
/// write it to the file `out`, and the map of its lines to the file `map`. Each setting is written
/// NAME=VALUE; collective calls wait as `collectives` says, `least` or `most`.
#[derive(Drop)]
pub struct ToUnroll<'a> {
    pub program: &'a str,
    pub ranks: u32,
    pub settings: Vec<&'a str>,
    pub collectives: Option<&'a str>,
    pub out: Option<&'a str>,
    pub map: Option<&'a str>,
}

/// To decide what an SPMD text is unrolled to, for each number of ranks that the text `ranks`
/// tells. Each setting is written NAME=VALUE; collective calls wait as `collectives` says, `least`
/// or `most`. `beside` tells whether words stand there that don't go with it.
#[derive(Drop)]
pub struct ToDecideUnrolled<'a> {
    pub program: &'a str,
    pub ranks: Option<&'a str>,
    pub settings: Vec<&'a str>,
    pub collectives: Option<&'a str>,
    pub beside: bool,
    pub json: bool,
}

/// To decide each of several programs, and write the answers to the file `junit` as a report in
/// JUnit's form. `beside` tells whether words stand there that don't go with that.
#[derive(Drop)]
pub struct ToDecideEach<'a> {
    pub programs: Vec<&'a str>,
    pub junit: Option<&'a str>,
    pub beside: bool,
    pub json: bool,
}

/// To explain each of several programs, in this form, and write the explanations to the file
/// `junit` as a report in JUnit's form. `beside` tells whether words stand there that don't go with
/// that.
#[derive(Drop)]
pub struct ToExplainEach<'a> {
    pub programs: Vec<&'a str>,
    pub junit: Option<&'a str>,
    pub options: Options,
    pub form: Form,
    pub beside: bool,
}

/// To explain what an SPMD text is unrolled to, for the number of ranks that the text `ranks`
/// tells, in this form, with the places of its own lines. Each setting is written NAME=VALUE;
/// collective calls wait as `collectives` says. `evidence` and `map` don't go with it.
#[derive(Drop)]
pub struct ToExplainUnrolled<'a> {
    pub program: &'a str,
    pub ranks: Option<&'a str>,
    pub settings: Vec<&'a str>,
    pub collectives: Option<&'a str>,
    pub evidence: Option<&'a str>,
    pub options: Options,
    pub form: Form,
    pub map: Option<&'a str>,
}

/// What a command line asks for, with the paths of its files.
#[derive(Drop)]
pub enum Request<'a> {
    Prove(ToProve<'a>),
    Check(ToCheck<'a>),
    Replay(ToReplay<'a>),
    Encode(ToEncode<'a>),
    Explain(ToExplain<'a>),
    Export(ToExport<'a>),
    Trim(ToTrim<'a>),
    Shrink(ToShrink<'a>),
    Decide(ToDecide<'a>),
    DecidePhases(ToDecidePhases<'a>),
    Phases(ToCut<'a>),
    Join(ToJoin<'a>),
    Unroll(ToUnroll<'a>),
    DecideUnrolled(ToDecideUnrolled<'a>),
    DecideEach(ToDecideEach<'a>),
    ExplainEach(ToExplainEach<'a>),
    ExplainUnrolled(ToExplainUnrolled<'a>),
}

/// What the words ask for. The first word is the program's own name. An error is a fault of usage,
/// also where two of the words name one file, of which one is written over the other; a question
/// for help; or want of memory.
pub fn request_of(alloc: Global, words: &[String]) -> Result<Request<'_>, Error>
    ensures asked { IfOk result (λ request. AskFor (map (λ w. string_bytes w) words.now) (task_of request)) }
    ensures faults { IfErr result (λ e. (kind_of e ≡ ErrorKind.OutOfMemory)
        ⊎ IsRefusedBy (map (λ w. string_bytes w) words.now) (kind_of e)) }
{
    let mut command = command(alloc)?;
    match command.try_get_matches_from_mut(words) {
        Err(fault) => Err(fault),
        Ok(matches) => {
            let request = asked_by(alloc, &matches)?;
            apart(&mut command, request)
        }
    }
}

/// The request, or an error where it names a file twice.
fn apart<'a>(command: &mut Command<'_>, request: Request<'a>) -> Result<Request<'a>, Error>
    ensures same { IfOk result (λ other. task_of other ≡ task_of request.entry) }
    ensures apart { OnOk result (names_twice (task_of request.entry) ≡ false) }
    ensures fault { IfErr result (λ e. (kind_of e ≡ ErrorKind.OutOfMemory)
        ⊎ ((kind_of e ≡ ErrorKind.ArgumentConflict) × (names_twice (task_of request.entry) ≡ true))) }
{
    match named_twice(&request) {
        None => Ok(request),
        Some(told) => match command.error(ErrorKind::ArgumentConflict, told) {
            Ok(error) => Err(error),
            Err(AllocError) => Err(Error::from(AllocError)),
        },
    }
}

/// Which words name one file, where that is a fault, as it is told.
fn named_twice(request: &Request<'_>) -> Option<&'static str>
    ensures { is_some result ≡ names_twice (task_of request.now) }
{
    match request {
        Request::Shrink(asked) => map_named_twice(asked.program, asked.out, asked.map),
        Request::Unroll(asked) => map_named_twice(asked.program, asked.out, asked.map),
        Request::DecideEach(asked) => report_named_twice(&asked.programs, asked.junit),
        Request::ExplainEach(asked) => report_named_twice(&asked.programs, asked.junit),
        Request::Prove(_)
        | Request::Check(_)
        | Request::Replay(_)
        | Request::Encode(_)
        | Request::Explain(_)
        | Request::Export(_)
        | Request::Trim(_)
        | Request::Decide(_)
        | Request::DecidePhases(_)
        | Request::Phases(_)
        | Request::Join(_)
        | Request::DecideUnrolled(_)
        | Request::ExplainUnrolled(_) => None,
    }
}

/// The same of a map that is written.
fn map_named_twice(program: &str, out: Option<&str>, map: Option<&str>) -> Option<&'static str>
    ensures { is_some result ≡ is_file (path_of map.entry) program.now || are_one_file (path_of map.entry) (path_of out.entry) }
{
    if is_file(map, program) {
        return Some("--map and PROGRAM name one file");
    }
    if are_one_file(map, out) {
        return Some("--map and --out name one file");
    }
    None
}

/// The same of a report.
fn report_named_twice(programs: &[&str], junit: Option<&str>) -> Option<&'static str>
    ensures { is_some result ≡ list_any (λ program. is_file (path_of junit.entry) program) (map (λ p. p.now) programs.now) }
{
    if is_one_named(programs, junit) {
        Some("--junit and PROGRAM name one file")
    } else {
        None
    }
}

/// Whether one of these is the file that is named.
fn is_one_named(programs: &[&str], file: Option<&str>) -> bool
    ensures { result ≡ list_any (λ program. is_file (path_of file.entry) program.now) programs.now }
{
    programs.iter().any(|program| is_file(file, program))
}

/// Whether both files are named, and by the same text.
fn are_one_file(file: Option<&str>, other: Option<&str>) -> bool
    ensures { result ≡ are_one_file (path_of file.entry) (path_of other.entry) }
{
    match other {
        None => false,
        Some(text) => is_file(file, text),
    }
}

/// Whether a file is named, and by this text.
fn is_file(file: Option<&str>, text: &str) -> bool
    ensures { result ≡ is_file (path_of file.entry) text.now }
{
    match file {
        None => false,
        Some(path) => path == text,
    }
}

/// What stands behind `--color` in words that have no fault, if it does and memory lasts.
pub fn color_of(alloc: Global, words: &[String]) -> Option<&str>
    ensures { IfSome result (λ when. IsColor (subcommand_of command_line (map (λ w. string_bytes w) words.now)) when.now) }
{
    let Ok(mut command) = command(alloc) else {
        return None;
    };
    match command.try_get_matches_from_mut(words) {
        Err(_fault) => None,
        Ok(matches) => color_asked(&matches),
    }
}

/// What stands behind `--color` in the matches of a whole command line.
fn color_asked<'a>(matches: &ArgMatches<'a>) -> Option<&'a str>
    ensures { IfSome result (λ when. IsColor (subcommand_rows_of matches.now) when.now) }
{
    let Some(subcommand) = matches.subcommand() else {
        return None;
    };
    color_below(subcommand)
}

/// What stands behind `--color` in a subcommand's matches.
fn color_below<'a>(subcommand: (&'a str, &ArgMatches<'a>)) -> Option<&'a str>
    ensures { IfSome result (λ when. Gives (rows_of (found_of subcommand.entry.1.now)) (codes "color") when.now) }
{
    let (_name, matches) = subcommand;
    matches.get_str(COLOR)
}

/// The request of the matches of a whole command line. A parse that succeeds gives each value, so
/// that the error comes for want of memory alone.
fn asked_by<'a>(alloc: Global, matches: &ArgMatches<'a>) -> Result<Request<'a>, Error>
    ensures request { IfOk result (λ request. MakesSome (subcommand_rows_of matches.now) (task_of request)) }
    ensures memory { IfErr result (λ e. kind_of e ≡ ErrorKind.OutOfMemory) }
{
    match requested_by(alloc, matches) {
        Some(request) => Ok(request),
        None => Err(Error::from(AllocError)),
    }
}

/// The request of the matches of a whole command line.
fn requested_by<'a>(alloc: Global, matches: &ArgMatches<'a>) -> Option<Request<'a>>
    ensures { IfSome result (λ request. MakesSome (subcommand_rows_of matches.now) (task_of request)) }
{
    let Some(subcommand) = matches.subcommand() else {
        return None;
    };
    requested(alloc, subcommand)
}

/// The request of a subcommand's matches. There is one wherever its required arguments have values
/// in their ranges, as after each parse, unless memory runs out.
fn requested<'a>(alloc: Global, subcommand: (&'a str, &ArgMatches<'a>)) -> Option<Request<'a>>
    ensures { IfSome result (λ request.
        Makes subcommand.entry.0.now (rows_of (found_of subcommand.entry.1.now)) (task_of request)) }
{
    let (name, matches) = subcommand;
    match name {
        "prove" => prove_request(matches),
        "check" => check_request(matches),
        "replay" => replay_request(matches),
        "encode" => encode_request(matches),
        "explain" => explain_request(alloc, matches),
        "export" => export_request(matches),
        "trim" => trim_request(matches),
        "shrink" => shrink_request(matches),
        "decide" => decide_request(alloc, matches),
        "unroll" => unroll_request(alloc, matches),
        "phases" => phases_request(matches),
        "join" => join_request(matches),
        _ => None,
    }
}

/// The request of the matches of `prove`.
fn prove_request<'a>(matches: &ArgMatches<'a>) -> Option<Request<'a>>
    ensures { IfSome result (λ request. Makes (codes "prove") (rows_of (found_of matches.now)) (task_of request)) }
{
    Some(Request::Prove(ToProve {
        program: matches.get_str(PROGRAM)?,
        out: matches.get_str(OUT),
        options: options_of(matches)?,
        progress: is_set(matches, PROGRESS),
        json: is_set(matches, JSON),
    }))
}

/// The request of the matches of `check`.
fn check_request<'a>(matches: &ArgMatches<'a>) -> Option<Request<'a>>
    ensures { IfSome result (λ request. Makes (codes "check") (rows_of (found_of matches.now)) (task_of request)) }
{
    let program = matches.get_str(PROGRAM)?;
    let pieces = matches.get_one::<u32>(PIECES)?;
    Some(Request::Check(ToCheck {
        program,
        evidence: matches.get_str(EVIDENCE)?,
        pieces: Pieces::make(pieces)?,
        json: is_set(matches, JSON),
    }))
}

/// The request of the matches of `replay`.
fn replay_request<'a>(matches: &ArgMatches<'a>) -> Option<Request<'a>>
    ensures { IfSome result (λ request. Makes (codes "replay") (rows_of (found_of matches.now)) (task_of request)) }
{
    Some(Request::Replay(ToReplay {
        program: matches.get_str(PROGRAM)?,
        evidence: matches.get_str(EVIDENCE)?,
        lines: is_set(matches, LINES),
    }))
}

/// The request of the matches of `encode`.
fn encode_request<'a>(matches: &ArgMatches<'a>) -> Option<Request<'a>>
    ensures { IfSome result (λ request. Makes (codes "encode") (rows_of (found_of matches.now)) (task_of request)) }
{
    Some(Request::Encode(ToEncode {
        program: matches.get_str(PROGRAM)?,
        dimacs: is_set(matches, DIMACS),
    }))
}

/// The request of the matches of `explain`.
fn explain_request<'a>(alloc: Global, matches: &ArgMatches<'a>) -> Option<Request<'a>>
    ensures { IfSome result (λ request. Makes (codes "explain") (rows_of (found_of matches.now)) (task_of request)) }
{
    if is_each(matches) {
        return explain_each_request(alloc, matches);
    }
    explain_one_request(alloc, matches)
}

/// Whether each of several programs is to be explained.
fn is_each(matches: &ArgMatches<'_>) -> bool
    ensures { result ≡ is_each (rows_of (found_of matches.now)) }
{
    is_set(matches, EACH) || are_several(matches, EVIDENCE)
}

/// Whether an argument has two values or more, or a file for a report is named.
fn are_several(matches: &ArgMatches<'_>, id: &str) -> bool
    ensures { result ≡
        has_two (texts_in (all_of id.now (rows_of (found_of matches.now)))) || is_some (first_of (codes
        "junit") (rows_of (found_of matches.now))) }
{
    has_two(matches, id) || matches.get_str(JUNIT).is_some()
}

/// Whether an argument has two values or more.
fn has_two(matches: &ArgMatches<'_>, id: &str) -> bool
    ensures { result ≡ has_two (texts_in (all_of id.now (rows_of (found_of matches.now)))) }
{
    match matches.get_strs(id) {
        None => false,
        Some(texts) => texts.len() > 1,
    }
}

/// A program and further ones.
fn listed<'a>(
    alloc: Global,
    program: &'a str,
    further: &[&'a str],
) -> Result<Vec<&'a str>, AllocError>
    ensures { IfOk result (λ programs. map (λ p. p.now) programs.items ≡ program.entry.now ∷ map (λ p. p.now) further.now) }
{
    let mut programs = Vec::new(alloc);
    programs.push(program)?;
    programs.extend_from_slice(further)?;
    Ok(programs)
}

/// Whether a page of several programs may have this form.
fn is_of_several(form: Form) -> bool
    ensures { result ≡ is_of_several form }
{
    match form {
        Form::Brief | Form::Whole | Form::Object | Form::Messages => true,
        Form::Graph | Form::Chart | Form::Picture | Form::Page => false,
    }
}

/// Whether words stand there that don't go with explaining several programs.
fn is_beside_each(matches: &ArgMatches<'_>, settings: &[&str]) -> bool
    requires { map (λ s. s.now) settings.now ≡ settings_in (rows_of (found_of matches.now)) }
    ensures { result ≡ is_beside_each (rows_of (found_of matches.now)) }
{
    if is_spmd_asked(
        matches.get_str(RANKS),
        settings,
        matches.get_str(COLLECTIVES),
    ) {
        return true;
    }
    is_for_one(matches)
}

/// Whether a map is named, or a form is asked for, as goes with one program alone.
fn is_for_one(matches: &ArgMatches<'_>) -> bool
    ensures { result ≡ is_for_one (rows_of (found_of matches.now)) }
{
    matches.get_str(MAP).is_some() || !is_of_several(form_of(matches))
}

/// The request of the matches of `explain` with several programs.
fn explain_each_request<'a>(alloc: Global, matches: &ArgMatches<'a>) -> Option<Request<'a>>
    requires { is_each (rows_of (found_of matches.now)) ≡ true }
    ensures { IfSome result (λ request. Makes (codes "explain") (rows_of (found_of matches.now)) (task_of request)) }
{
    let program = matches.get_str(PROGRAM)?;
    let options = options_of(matches)?;
    let further = texts_of(alloc, matches, EVIDENCE)?;
    let settings = texts_of(alloc, matches, SET)?;
    let beside = is_beside_each(matches, &settings);
    mem::drop(settings);
    let Ok(programs) = listed(alloc, program, &further) else {
        return None;
    };
    mem::drop(further);
    Some(Request::ExplainEach(ToExplainEach {
        programs,
        junit: matches.get_str(JUNIT),
        options,
        form: form_of(matches),
        beside,
    }))
}

/// The request of the matches of `explain` with one program.
fn explain_one_request<'a>(alloc: Global, matches: &ArgMatches<'a>) -> Option<Request<'a>>
    requires { is_each (rows_of (found_of matches.now)) ≡ false }
    ensures { IfSome result (λ request. Makes (codes "explain") (rows_of (found_of matches.now)) (task_of request)) }
{
    let program = matches.get_str(PROGRAM)?;
    let options = options_of(matches)?;
    let ranks = matches.get_str(RANKS);
    let collectives = matches.get_str(COLLECTIVES);
    let settings = texts_of(alloc, matches, SET)?;
    if is_spmd_asked(ranks, &settings, collectives) {
        return Some(Request::ExplainUnrolled(ToExplainUnrolled {
            program,
            ranks,
            settings,
            collectives,
            evidence: matches.get_str(EVIDENCE),
            options,
            form: form_of(matches),
            map: matches.get_str(MAP),
        }));
    }
    Some(Request::Explain(ToExplain {
        program,
        evidence: matches.get_str(EVIDENCE),
        options,
        form: form_of(matches),
        map: matches.get_str(MAP),
    }))
}

/// Whether an SPMD text is asked for: by a number of ranks, a setting, or how collective calls
/// wait.
fn is_spmd_asked(ranks: Option<&str>, settings: &[&str], collectives: Option<&str>) -> bool
    ensures { (rows : List Row) → first_of (codes "ranks") rows ≡ path_of ranks.entry → map (λ s. s.now) settings.now ≡ settings_in rows
        → first_of (codes "collectives") rows ≡ path_of collectives.entry → result ≡ is_spmd_asked rows }
{
    ranks.is_some() || !settings.is_empty() || collectives.is_some()
}

/// The request of the matches of `export`.
fn export_request<'a>(matches: &ArgMatches<'a>) -> Option<Request<'a>>
    ensures { IfSome result (λ request. Makes (codes "export") (rows_of (found_of matches.now)) (task_of request)) }
{
    Some(Request::Export(ToExport {
        program: matches.get_str(PROGRAM)?,
        evidence: matches.get_str(EVIDENCE)?,
        out: matches.get_str(OUT)?,
    }))
}

/// The request of the matches of `trim`.
fn trim_request<'a>(matches: &ArgMatches<'a>) -> Option<Request<'a>>
    ensures { IfSome result (λ request. Makes (codes "trim") (rows_of (found_of matches.now)) (task_of request)) }
{
    let out = matches.get_str(OUT)?;
    Some(Request::Trim(ToTrim {
        evidence: matches.get_str(EVIDENCE)?,
        out,
        json: is_set(matches, JSON),
    }))
}

/// The request of the matches of `shrink`.
fn shrink_request<'a>(matches: &ArgMatches<'a>) -> Option<Request<'a>>
    ensures { IfSome result (λ request. Makes (codes "shrink") (rows_of (found_of matches.now)) (task_of request)) }
{
    Some(Request::Shrink(ToShrink {
        program: matches.get_str(PROGRAM)?,
        out: matches.get_str(OUT),
        map: matches.get_str(MAP),
    }))
}

/// The request of the matches of `decide`.
fn decide_request<'a>(alloc: Global, matches: &ArgMatches<'a>) -> Option<Request<'a>>
    ensures { IfSome result (λ request.
        Makes (codes "decide") (rows_of (found_of matches.now)) (task_of request)) }
{
    if are_several(matches, PROGRAM) {
        return decide_each_request(alloc, matches);
    }
    decide_one_request(alloc, matches)
}

/// The request of the matches of `decide` with several programs.
fn decide_each_request<'a>(alloc: Global, matches: &ArgMatches<'a>) -> Option<Request<'a>>
    requires { is_several (rows_of (found_of matches.now)) ≡ true }
    ensures { IfSome result (λ request.
        Makes (codes "decide") (rows_of (found_of matches.now)) (task_of request)) }
{
    let programs = texts_of(alloc, matches, PROGRAM)?;
    let settings = texts_of(alloc, matches, SET)?;
    let beside = is_beside_several(matches, &settings);
    mem::drop(settings);
    Some(Request::DecideEach(ToDecideEach {
        programs,
        junit: matches.get_str(JUNIT),
        beside,
        json: is_set(matches, JSON),
    }))
}

/// Whether words stand there that don't go with several programs.
fn is_beside_several(matches: &ArgMatches<'_>, settings: &[&str]) -> bool
    requires { map (λ s. s.now) settings.now ≡ settings_in (rows_of (found_of matches.now)) }
    ensures { result ≡ is_beside_several (rows_of (found_of matches.now)) }
{
    if is_spmd_asked(
        matches.get_str(RANKS),
        settings,
        matches.get_str(COLLECTIVES),
    ) {
        return true;
    }
    is_beside_ranks(matches)
}

/// Whether words stand there that go with one program text alone.
fn is_beside_ranks(matches: &ArgMatches<'_>) -> bool
    ensures { result ≡ is_beside_ranks (rows_of (found_of matches.now)) }
{
    matches.get_str(OUT).is_some() || is_one_told(matches)
}

/// Whether the progress is to be told, or phases are asked for.
fn is_one_told(matches: &ArgMatches<'_>) -> bool
    ensures { result ≡ is_true (one_of (codes "progress") (rows_of (found_of matches.now))) || is_true (one_of
        (codes "phases") (rows_of (found_of matches.now))) }
{
    is_set(matches, PROGRESS) || is_set(matches, PHASES)
}

/// The request of the matches of `decide` with one program.
fn decide_one_request<'a>(alloc: Global, matches: &ArgMatches<'a>) -> Option<Request<'a>>
    requires { is_several (rows_of (found_of matches.now)) ≡ false }
    ensures { IfSome result (λ request.
        Makes (codes "decide") (rows_of (found_of matches.now)) (task_of request)) }
{
    let program = matches.get_str(PROGRAM)?;
    let json = is_set(matches, JSON);
    let ranks = matches.get_str(RANKS);
    let collectives = matches.get_str(COLLECTIVES);
    let settings = texts_of(alloc, matches, SET)?;
    if is_spmd_asked(ranks, &settings, collectives) {
        return Some(Request::DecideUnrolled(ToDecideUnrolled {
            program,
            ranks,
            settings,
            collectives,
            beside: is_beside_ranks(matches),
            json,
        }));
    }
    if is_set(matches, PHASES) {
        return decide_phases_request(matches, program);
    }
    Some(Request::Decide(ToDecide {
        program,
        out: matches.get_str(OUT),
        progress: is_set(matches, PROGRESS),
        json,
    }))
}

/// The request of the matches of `decide` by phases.
fn decide_phases_request<'a>(matches: &ArgMatches<'a>, program: &'a str) -> Option<Request<'a>>
    requires one { is_several (rows_of (found_of matches.now)) ≡ false }
    requires text { is_spmd_asked (rows_of (found_of matches.now)) ≡ false }
    requires phases { is_true (one_of (codes "phases") (rows_of (found_of matches.now))) ≡ true }
    requires program { first_of (codes "PROGRAM") (rows_of (found_of matches.now)) ≡ Some program.now }
    ensures { IfSome result (λ request.
        Makes (codes "decide") (rows_of (found_of matches.now)) (task_of request)) }
{
    Some(Request::DecidePhases(ToDecidePhases {
        program,
        out: matches.get_str(OUT),
        progress: is_set(matches, PROGRESS),
        json: is_set(matches, JSON),
    }))
}

/// The request of the matches of `phases`.
fn phases_request<'a>(matches: &ArgMatches<'a>) -> Option<Request<'a>>
    ensures { IfSome result (λ request. Makes (codes "phases") (rows_of (found_of matches.now)) (task_of request)) }
{
    Some(Request::Phases(ToCut {
        program: matches.get_str(PROGRAM)?,
        out: matches.get_str(OUT)?,
    }))
}

/// The request of the matches of `join`.
fn join_request<'a>(matches: &ArgMatches<'a>) -> Option<Request<'a>>
    ensures { IfSome result (λ request. Makes (codes "join") (rows_of (found_of matches.now)) (task_of request)) }
{
    Some(Request::Join(ToJoin {
        program: matches.get_str(PROGRAM)?,
        folder: matches.get_str(FOLDER)?,
        out: matches.get_str(OUT),
        json: is_set(matches, JSON),
    }))
}

/// The request of the matches of `unroll`.
fn unroll_request<'a>(alloc: Global, matches: &ArgMatches<'a>) -> Option<Request<'a>>
    ensures { IfSome result (λ request. Makes (codes "unroll") (rows_of (found_of matches.now)) (task_of request)) }
{
    let ranks = matches.get_one::<u32>(RANKS)?;
    let settings = texts_of(alloc, matches, SET)?;
    Some(Request::Unroll(ToUnroll {
        program: matches.get_str(PROGRAM)?,
        ranks,
        settings,
        collectives: matches.get_str(COLLECTIVES),
        out: matches.get_str(OUT),
        map: matches.get_str(MAP),
    }))
}

/// All values of an option, unless memory runs out.
fn texts_of<'a>(alloc: Global, matches: &ArgMatches<'a>, id: &str) -> Option<Vec<&'a str>>
    ensures { IfSome result (λ texts. map (λ text. text.now) texts.items ≡ texts_in (all_of id.now (rows_of (found_of matches.now)))) }
{
    match matches.get_strs(id) {
        None => Some(Vec::new(alloc)),
        Some(texts) => match Vec::from_slice(alloc, texts) {
            Ok(copied) => Some(copied),
            Err(AllocError) => None,
        },
    }
}

/// The form of an explanation: the first of these that is asked for.
fn form_of(matches: &ArgMatches<'_>) -> Form
    ensures { result ≡ form_in (rows_of (found_of matches.now)) }
{
    if is_set(matches, JSON) {
        Form::Object
    } else if is_set(matches, HTML) {
        Form::Page
    } else if is_set(matches, SVG) {
        Form::Picture
    } else if is_set(matches, CHART) {
        Form::Chart
    } else if is_set(matches, DOT) {
        Form::Graph
    } else if is_set(matches, MESSAGES) {
        Form::Messages
    } else if is_set(matches, ALL) {
        Form::Whole
    } else {
        Form::Brief
    }
}

/// The options of a search.
fn options_of(matches: &ArgMatches<'_>) -> Option<Options>
    ensures workers { IfSome result (λ options. Reads (rows_of (found_of matches.now)) (codes "workers") options.workers) }
    ensures depth { IfSome result (λ options. Reads (rows_of (found_of matches.now)) (codes "depth") options.depth) }
    ensures budget { IfSome result (λ options. Reads (rows_of (found_of matches.now)) (codes "budget") options.budget) }
{
    let workers = matches.get_one::<u32>(WORKERS)?;
    let depth = matches.get_one::<u32>(DEPTH)?;
    let budget = matches.get_one::<u32>(BUDGET)?;
    Options::make(workers, depth, budget)
}

/// Whether the words set a flag.
fn is_set(matches: &ArgMatches<'_>, flag: &str) -> bool
    ensures { Flags (rows_of (found_of matches.now)) flag.now result }
{
    match matches.get_one::<bool>(flag) {
        Some(value) => value,
        None => false,
    }
}
