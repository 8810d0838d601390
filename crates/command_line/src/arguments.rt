//! The arguments of the commands.

ghost use Rattle.std.specs.Prelude.{codes};
ghost use Rattle.command_line.specs.CommandLine.{IsRuled, collectives_rule, color_rule, evidence_rule, file_option_rule, file_rule, flag_rule, folder_rule, junit_rule, map_rule, number_rule, number_with, option_rule, optional_evidence_rule, out_rule, program_rule, programs_rule, proof_rule, ranks_rule, set_rule, several_ranks_rule};

use clap::builder::ValueParser;
use clap::{Arg, ArgAction, value_parser};
use std::alloc::Global;

pub const PROGRAM: &str = "PROGRAM";

pub const EVIDENCE: &str = "EVIDENCE";

pub const OUT: &str = "out";

pub const WORKERS: &str = "workers";

pub const DEPTH: &str = "depth";

pub const BUDGET: &str = "budget";

pub const PIECES: &str = "pieces";

pub const PROGRESS: &str = "progress";

pub const JSON: &str = "json";

pub const DOT: &str = "dot";

pub const DIMACS: &str = "dimacs";

pub const ALL: &str = "all";

pub const CHART: &str = "chart";

pub const SVG: &str = "svg";

pub const HTML: &str = "html";

pub const MESSAGES: &str = "messages";

pub const LINES: &str = "lines";

pub const MAP: &str = "map";

pub const RANKS: &str = "ranks";

pub const SET: &str = "set";

pub const COLLECTIVES: &str = "collectives";

pub const PHASES: &str = "phases";

pub const FOLDER: &str = "FOLDER";

pub const EACH: &str = "each";

pub const JUNIT: &str = "junit";

pub const COLOR: &str = "color";

pub fn program<'a>(alloc: Global) -> Arg<'a>
    ensures { IsRuled result program_rule }
{
    file(alloc, PROGRAM, "The file with the program text")
}

pub fn programs<'a>(alloc: Global) -> Arg<'a>
    ensures { IsRuled result programs_rule }
{
    file(
        alloc,
        PROGRAM,
        "The file with the program text; of several each is decided, and the status is the gravest",
    )
    .num_args(1..)
    .action(ArgAction::Append)
}

pub fn spmd<'a>(alloc: Global) -> Arg<'a>
    ensures { IsRuled result program_rule }
{
    file(alloc, PROGRAM, "The file with the SPMD text")
}

pub fn evidence<'a>(alloc: Global) -> Arg<'a>
    ensures { IsRuled result evidence_rule }
{
    file(alloc, EVIDENCE, "The file with the evidence text")
}

/// A file that has to be named.
fn file<'a>(alloc: Global, name: &'a str, about: &'a str) -> Arg<'a>
    ensures { IsRuled result (file_rule name.entry.now) }
{
    Arg::new(alloc, name)
        .required(true)
        .action(ArgAction::Set)
        .help(about)
}

pub fn optional_evidence<'a>(alloc: Global) -> Arg<'a>
    ensures { IsRuled result optional_evidence_rule }
{
    Arg::new(alloc, EVIDENCE)
        .num_args(1..)
        .action(ArgAction::Append)
        .help(
            "The file with the evidence text; without it one run decides, or where messages may race a search, and with it --workers, --depth and --budget have no effect",
        )
}

pub fn each<'a>(alloc: Global) -> Arg<'a>
    ensures { IsRuled result (flag_rule (codes "each")) }
{
    flag(
        alloc,
        EACH,
        "Each file is a program text, and is explained; so it is also with three files or more",
    )
}

pub fn junit<'a>(alloc: Global) -> Arg<'a>
    ensures { IsRuled result junit_rule }
{
    file_option(
        alloc,
        JUNIT,
        "Write the answers to this file too, as a report of tests in JUnit's form; each file is a program text",
    )
}

pub fn color<'a>(alloc: Global) -> Arg<'a>
    ensures { IsRuled result color_rule }
{
    option(alloc, COLOR).value_name("WHEN").help(
        "Color the answer: auto, on a terminal unless NO_COLOR is set, which is usual, always, or never",
    )
}

pub fn json<'a>(alloc: Global) -> Arg<'a>
    ensures { IsRuled result (flag_rule (codes "json")) }
{
    flag(alloc, JSON, "Print the answer as a JSON object")
}

pub fn progress<'a>(alloc: Global) -> Arg<'a>
    ensures { IsRuled result (flag_rule (codes "progress")) }
{
    flag(
        alloc,
        PROGRESS,
        "Tell on standard error, once a second, how far the search is",
    )
}

pub fn stages<'a>(alloc: Global) -> Arg<'a>
    ensures { IsRuled result (flag_rule (codes "progress")) }
{
    flag(
        alloc,
        PROGRESS,
        "Tell on standard error when the text is read, and when the run is made",
    )
}

pub fn dot<'a>(alloc: Global) -> Arg<'a>
    ensures { IsRuled result (flag_rule (codes "dot")) }
{
    flag(
        alloc,
        DOT,
        "Print who waits for whom as a graph for Graphviz",
    )
}

pub fn dimacs<'a>(alloc: Global) -> Arg<'a>
    ensures { IsRuled result (flag_rule (codes "dimacs")) }
{
    flag(alloc, DIMACS, "Print the formula in the DIMACS format")
}

pub fn all<'a>(alloc: Global) -> Arg<'a>
    ensures { IsRuled result (flag_rule (codes "all")) }
{
    flag(alloc, ALL, "Print every list whole")
}

pub fn chart<'a>(alloc: Global) -> Arg<'a>
    ensures { IsRuled result (flag_rule (codes "chart")) }
{
    flag(alloc, CHART, "Print the run as a message sequence chart")
}

pub fn svg<'a>(alloc: Global) -> Arg<'a>
    ensures { IsRuled result (flag_rule (codes "svg")) }
{
    flag(alloc, SVG, "Print the run as a timeline, a picture in SVG")
}

pub fn html<'a>(alloc: Global) -> Arg<'a>
    ensures { IsRuled result (flag_rule (codes "html")) }
{
    flag(
        alloc,
        HTML,
        "Print a page in HTML: the explanation, the timeline, and the program's lines",
    )
}

pub fn messages<'a>(alloc: Global) -> Arg<'a>
    ensures { IsRuled result (flag_rule (codes "messages")) }
{
    flag(
        alloc,
        MESSAGES,
        "Print FILE:LINE: and what a rank waits in there, a line for each, as compilers tell faults",
    )
}

pub fn map<'a>(alloc: Global) -> Arg<'a>
    ensures { IsRuled result map_rule }
{
    file_option(
        alloc,
        MAP,
        "Tell beside each line its place in the source, from this file, which the recorder writes",
    )
}

pub fn lines<'a>(alloc: Global) -> Arg<'a>
    ensures { IsRuled result (flag_rule (codes "lines")) }
{
    flag(
        alloc,
        LINES,
        "Print each step with the lines of the program's text",
    )
}

pub fn object<'a>(alloc: Global) -> Arg<'a>
    ensures { IsRuled result (flag_rule (codes "json")) }
{
    flag(alloc, JSON, "Print all of it as a JSON object")
}

/// An option that takes no value.
fn flag<'a>(alloc: Global, name: &'a str, about: &'a str) -> Arg<'a>
    ensures { IsRuled result (flag_rule name.entry.now) }
{
    option(alloc, name).action(ArgAction::SetTrue).help(about)
}

pub fn proof<'a>(alloc: Global) -> Arg<'a>
    ensures { IsRuled result proof_rule }
{
    written(alloc, "Write the proof to this file").required(true)
}

pub fn trimmed<'a>(alloc: Global) -> Arg<'a>
    ensures { IsRuled result proof_rule }
{
    written(alloc, "Write the trimmed evidence to this file").required(true)
}

pub fn out<'a>(alloc: Global) -> Arg<'a>
    ensures { IsRuled result out_rule }
{
    written(alloc, "Write the evidence to this file")
}

pub fn smaller<'a>(alloc: Global) -> Arg<'a>
    ensures { IsRuled result out_rule }
{
    written(
        alloc,
        "Write the smaller program to this file, and print the answer on it and the lines left",
    )
}

pub fn smaller_map<'a>(alloc: Global) -> Arg<'a>
    ensures { IsRuled result map_rule }
{
    file_option(
        alloc,
        MAP,
        "Write to this file which line each line of the smaller program is, for explain --map",
    )
}

pub fn schedule<'a>(alloc: Global) -> Arg<'a>
    ensures { IsRuled result out_rule }
{
    written(alloc, "Write the schedule of a deadlock to this file")
}

pub fn phases<'a>(alloc: Global) -> Arg<'a>
    ensures { IsRuled result (flag_rule (codes "phases")) }
{
    flag(
        alloc,
        PHASES,
        "Where one run doesn't tell, cut the program into phases, and decide or prove each",
    )
}

pub fn phases_folder<'a>(alloc: Global) -> Arg<'a>
    ensures { IsRuled result proof_rule }
{
    written(
        alloc,
        "Write the phases to this folder, which has to be there",
    )
    .value_name("FOLDER")
    .required(true)
}

pub fn folder<'a>(alloc: Global) -> Arg<'a>
    ensures { IsRuled result folder_rule }
{
    file(
        alloc,
        FOLDER,
        "The folder with the phases and the evidence of each that needs one",
    )
}

pub fn unrolled<'a>(alloc: Global) -> Arg<'a>
    ensures { IsRuled result out_rule }
{
    written(alloc, "Write the program to this file")
}

pub fn written_map<'a>(alloc: Global) -> Arg<'a>
    ensures { IsRuled result map_rule }
{
    file_option(
        alloc,
        MAP,
        "Write to this file where each line of the program comes from, for explain --map",
    )
}

pub fn ranks<'a>(alloc: Global) -> Arg<'a>
    ensures { IsRuled result ranks_rule }
{
    number(alloc, RANKS, value_parser!(u32).range(1..=2_147_483_647))
        .required(true)
        .help("How many ranks there are, 1 to 2147483647")
}

pub fn several_ranks<'a>(alloc: Global) -> Arg<'a>
    ensures { IsRuled result several_ranks_rule }
{
    option(alloc, RANKS).value_name("N").help(
        "PROGRAM is an SPMD text, unrolled for so many ranks, as 4, or with decide for each of several, as 2..16",
    )
}

pub fn set<'a>(alloc: Global) -> Arg<'a>
    ensures { IsRuled result set_rule }
{
    option(alloc, SET)
        .action(ArgAction::Append)
        .value_name("NAME=VALUE")
        .help("The value of a parameter of the text; once for each")
}

pub fn collectives<'a>(alloc: Global) -> Arg<'a>
    ensures { IsRuled result collectives_rule }
{
    option(alloc, COLLECTIVES).value_name("WAY").help(
        "How collective calls wait: least, as little as MPI guarantees, which is usual, or most, each as a barrier",
    )
}

/// The file to write.
fn written<'a>(alloc: Global, about: &'a str) -> Arg<'a>
    ensures { IsRuled result out_rule }
{
    file_option(alloc, OUT, about)
}

/// An option that names a file.
fn file_option<'a>(alloc: Global, name: &'a str, about: &'a str) -> Arg<'a>
    ensures { IsRuled result (file_option_rule name.entry.now) }
{
    option(alloc, name).value_name("FILE").help(about)
}

pub fn workers<'a>(alloc: Global) -> Arg<'a>
    ensures { IsRuled result (number_with (codes "workers") 1 64 (codes "4")) }
{
    number(alloc, WORKERS, value_parser!(u32).range(1..=64))
        .default_value("4")
        .help(
            "How many threads search at once, 1 to 64; with more than one the evidence may differ from run to run",
        )
}

pub fn depth<'a>(alloc: Global) -> Arg<'a>
    ensures { IsRuled result (number_with (codes "depth") 0 15 (codes "4")) }
{
    number(alloc, DEPTH, value_parser!(u32).range(0..=15))
        .default_value("4")
        .help("How often the search is split before it begins, 0 to 15: up to 2^N parts")
}

pub fn budget<'a>(alloc: Global) -> Arg<'a>
    ensures { IsRuled result (number_with (codes "budget") 0 1000000000 (codes "1000000")) }
{
    number(alloc, BUDGET, value_parser!(u32).range(0..=1_000_000_000))
        .default_value("1000000")
        .help(
            "How many conflicts each thread may count, 0 to 1000000000; with 0 nothing is searched",
        )
}

pub fn pieces<'a>(alloc: Global) -> Arg<'a>
    ensures { IsRuled result (number_with (codes "pieces") 1 64 (codes "4")) }
{
    number(alloc, PIECES, value_parser!(u32).range(1..=64))
        .default_value("4")
        .help("How many threads check a refutation at once, 1 to 64; the answer is the same")
}

fn number<'a>(alloc: Global, name: &'a str, parser: ValueParser<'a>) -> Arg<'a>
    ensures { IsRuled result (number_rule name.entry.now parser.entry) }
{
    option(alloc, name).value_name("N").value_parser(parser)
}

fn option<'a>(alloc: Global, name: &'a str) -> Arg<'a>
    ensures { IsRuled result (option_rule name.entry.now) }
{
    Arg::new(alloc, name).long(name).action(ArgAction::Set)
}
