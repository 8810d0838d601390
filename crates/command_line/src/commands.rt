//! The commands of the command line.

ghost use Rattle.std.specs.Prelude.{◌≡◌, IfOk};
ghost use Rattle.clap.specs.Words.{App, Rule, new_app, with_rule, with_subcommand};
ghost use Rattle.command_line.specs.CommandLine.{IsRuled, IsShapedAs, check_app, command_line, decide_app, encode_app, explain_app, export_app, join_app, phases_app, prove_app, replay_app, shrink_app, trim_app, unroll_app, version_line, with_search, with_unrolling};

use crate::arguments::{
    all, budget, chart, collectives, color, depth, dimacs, dot, each, evidence, folder, html, json,
    junit, lines, map, messages, object, optional_evidence, out, phases, phases_folder, pieces,
    program, programs, progress, proof, ranks, schedule, set, several_ranks, smaller, smaller_map,
    spmd, stages, svg, trimmed, unrolled, workers, written_map,
};
use crate::help_ends::{
    CHECK_END, DECIDE_END, ENCODE_END, EXPLAIN_END, EXPORT_END, HELP_END, JOIN_END, PHASES_END,
    PROVE_END, REPLAY_END, SHRINK_END, TRIM_END, UNROLL_END,
};
use clap::Arg;
use clap::builder::Command;
use std::alloc::{AllocError, Global};

/// What `--version` prints. The library is told it too, so that it knows that there is a version;
/// its own text isn't printed.
pub fn version_line() -> &'static str
    ensures { result.now ≡ version_line }
{
    "mpiprove 1.0.0\n"
}

/// A command with one more command below it. Either may be missing for want of memory, so that a
/// list of these has no exits.
fn under<'a>(
    whole: Result<Command<'a>, AllocError>,
    below: Result<Command<'a>, AllocError>,
) -> Result<Command<'a>, AllocError>
    ensures { (app sub : App) → IfOk whole.entry (λ c. IsShapedAs c app) → IfOk below.entry (λ c. IsShapedAs c sub)
        → IfOk result (λ c. IsShapedAs c (with_subcommand app sub.top)) }
{
    whole?.subcommand(below?)
}

/// A command with one more argument, in the same way.
fn with<'a>(whole: Result<Command<'a>, AllocError>, arg: Arg<'a>) -> Result<Command<'a>, AllocError>
    ensures { (app : App) (rule : Rule) → IfOk whole.entry (λ c. IsShapedAs c app) → IsRuled arg.entry rule
        → IfOk result (λ c. IsShapedAs c (with_rule app rule)) }
{
    whole?.arg(arg)
}

/// A command with the arguments that say how a search is made, in the same way.
fn with_search<'a>(
    alloc: Global,
    whole: Result<Command<'a>, AllocError>,
) -> Result<Command<'a>, AllocError>
    ensures { (app : App) → IfOk whole.entry (λ c. IsShapedAs c app) → IfOk result (λ c. IsShapedAs c (with_search app)) }
{
    let whole = with(whole, workers(alloc));
    let whole = with(whole, depth(alloc));
    with(whole, budget(alloc))
}

/// A command with the arguments that say how an SPMD text is unrolled, in the same way.
fn with_unrolling<'a>(
    alloc: Global,
    whole: Result<Command<'a>, AllocError>,
) -> Result<Command<'a>, AllocError>
    ensures { (app : App) → IfOk whole.entry (λ c. IsShapedAs c app) → IfOk result (λ c. IsShapedAs c (with_unrolling app)) }
{
    let whole = with(whole, several_ranks(alloc));
    let whole = with(whole, set(alloc));
    with(whole, collectives(alloc))
}

/// A command with this name, whose help begins and ends so.
fn named<'a>(alloc: Global, name: &'a str, about: &'a str, end: &'a str) -> Command<'a>
    ensures { IsShapedAs result (new_app name.entry.now) }
{
    Command::new(alloc, name).about(about).after_help(end)
}

/// The whole command line.
pub fn command<'a>(alloc: Global) -> Result<Command<'a>, AllocError>
    ensures { IfOk result (λ c. IsShapedAs c command_line) }
{
    let top = Command::new(alloc, "mpiprove")
        .version(version_line())
        .subcommand_required(true)
        .after_help(HELP_END);
    let top = under(Ok(top), prove_command(alloc));
    let top = under(top, check_command(alloc));
    let top = under(top, replay_command(alloc));
    let top = under(top, encode_command(alloc));
    let top = under(top, explain_command(alloc));
    let top = under(top, export_command(alloc));
    let top = under(top, trim_command(alloc));
    let top = under(top, shrink_command(alloc));
    let top = under(top, decide_command(alloc));
    let top = under(top, unroll_command(alloc));
    let top = under(top, phases_command(alloc));
    under(top, join_command(alloc))
}

fn prove_command<'a>(alloc: Global) -> Result<Command<'a>, AllocError>
    ensures { IfOk result (λ c. IsShapedAs c prove_app) }
{
    let command = named(
        alloc,
        "prove",
        "Decides whether some run of a program gets stuck",
        PROVE_END,
    );
    let command = with(Ok(command), program(alloc));
    let command = with(command, out(alloc));
    let command = with_search(alloc, command);
    let command = with(command, progress(alloc));
    let command = with(command, json(alloc));
    with(command, color(alloc))
}

fn check_command<'a>(alloc: Global) -> Result<Command<'a>, AllocError>
    ensures { IfOk result (λ c. IsShapedAs c check_app) }
{
    let command = named(alloc, "check", "Judges a program by an evidence", CHECK_END);
    let command = with(Ok(command), program(alloc));
    let command = with(command, evidence(alloc));
    let command = with(command, pieces(alloc));
    let command = with(command, json(alloc));
    with(command, color(alloc))
}

fn replay_command<'a>(alloc: Global) -> Result<Command<'a>, AllocError>
    ensures { IfOk result (λ c. IsShapedAs c replay_app) }
{
    let command = named(
        alloc,
        "replay",
        "Prints the steps of a schedule",
        REPLAY_END,
    );
    let command = with(Ok(command), program(alloc));
    let command = with(command, evidence(alloc));
    with(command, lines(alloc))
}

fn encode_command<'a>(alloc: Global) -> Result<Command<'a>, AllocError>
    ensures { IfOk result (λ c. IsShapedAs c encode_app) }
{
    let command = named(
        alloc,
        "encode",
        "Prints the formula of a program",
        ENCODE_END,
    );
    let command = with(Ok(command), program(alloc));
    with(command, dimacs(alloc))
}

fn explain_command<'a>(alloc: Global) -> Result<Command<'a>, AllocError>
    ensures { IfOk result (λ c. IsShapedAs c explain_app) }
{
    let command = named(
        alloc,
        "explain",
        "Explains what an evidence, one run or a search shows of a program",
        EXPLAIN_END,
    );
    let command = with(Ok(command), program(alloc));
    let command = with(command, optional_evidence(alloc));
    let command = with_search(alloc, command);
    let command = with(command, all(alloc));
    let command = with(command, messages(alloc));
    let command = with(command, dot(alloc));
    let command = with(command, chart(alloc));
    let command = with(command, svg(alloc));
    let command = with(command, html(alloc));
    let command = with(command, object(alloc));
    let command = with(command, map(alloc));
    let command = with(command, each(alloc));
    let command = with(command, junit(alloc));
    let command = with(command, color(alloc));
    with_unrolling(alloc, command)
}

fn export_command<'a>(alloc: Global) -> Result<Command<'a>, AllocError>
    ensures { IfOk result (λ c. IsShapedAs c export_app) }
{
    let command = named(
        alloc,
        "export",
        "Writes a refutation as a proof in the LRAT format",
        EXPORT_END,
    );
    let command = with(Ok(command), program(alloc));
    let command = with(command, evidence(alloc));
    with(command, proof(alloc))
}

fn trim_command<'a>(alloc: Global) -> Result<Command<'a>, AllocError>
    ensures { IfOk result (λ c. IsShapedAs c trim_app) }
{
    let command = named(
        alloc,
        "trim",
        "Writes a refutation without the lines that aren't needed",
        TRIM_END,
    );
    let command = with(Ok(command), evidence(alloc));
    let command = with(command, trimmed(alloc));
    with(command, json(alloc))
}

fn shrink_command<'a>(alloc: Global) -> Result<Command<'a>, AllocError>
    ensures { IfOk result (λ c. IsShapedAs c shrink_app) }
{
    let command = named(
        alloc,
        "shrink",
        "Prints a smaller program that gets stuck too",
        SHRINK_END,
    );
    let command = with(Ok(command), program(alloc));
    let command = with(command, smaller(alloc));
    with(command, smaller_map(alloc))
}

fn decide_command<'a>(alloc: Global) -> Result<Command<'a>, AllocError>
    ensures { IfOk result (λ c. IsShapedAs c decide_app) }
{
    let command = named(
        alloc,
        "decide",
        "Decides by one run whether some run of a program of any length gets stuck",
        DECIDE_END,
    );
    let command = with(Ok(command), programs(alloc));
    let command = with(command, schedule(alloc));
    let command = with(command, stages(alloc));
    let command = with(command, phases(alloc));
    let command = with(command, json(alloc));
    let command = with(command, junit(alloc));
    let command = with(command, color(alloc));
    with_unrolling(alloc, command)
}

fn phases_command<'a>(alloc: Global) -> Result<Command<'a>, AllocError>
    ensures { IfOk result (λ c. IsShapedAs c phases_app) }
{
    let command = named(
        alloc,
        "phases",
        "Cuts a program of any length into phases",
        PHASES_END,
    );
    let command = with(Ok(command), program(alloc));
    with(command, phases_folder(alloc))
}

fn join_command<'a>(alloc: Global) -> Result<Command<'a>, AllocError>
    ensures { IfOk result (λ c. IsShapedAs c join_app) }
{
    let command = named(
        alloc,
        "join",
        "Judges a program of any length by its phases and their evidence",
        JOIN_END,
    );
    let command = with(Ok(command), program(alloc));
    let command = with(command, folder(alloc));
    let command = with(command, schedule(alloc));
    let command = with(command, json(alloc));
    with(command, color(alloc))
}

fn unroll_command<'a>(alloc: Global) -> Result<Command<'a>, AllocError>
    ensures { IfOk result (λ c. IsShapedAs c unroll_app) }
{
    let command = named(
        alloc,
        "unroll",
        "Prints the program that an SPMD text is unrolled to",
        UNROLL_END,
    );
    let command = with(Ok(command), spmd(alloc));
    let command = with(command, ranks(alloc));
    let command = with(command, set(alloc));
    let command = with(command, collectives(alloc));
    let command = with(command, unrolled(alloc));
    with(command, written_map(alloc))
}
