//! What is told of a program and its refutation.

ghost use Rattle.std.specs.Prelude.{◌≡◌, ◌++◌, IfOk, OnOk, codes};
ghost use Rattle.reports.specs.Explanations.{choice_lines, claim_lines, count_line, counts_text, leaves, marks_of, open_line, size_lines, sizes_text, wildcard_line};
ghost use Rattle.reports.specs.parts.Numbers.{AreLinesOfCounts, IsLineOfCount, line_of_count, lines_of, marked_text, texts_of};
ghost use Rattle.reports.specs.Sizes.{wildcards_with_choice};

use crate::sizes::{choices, messages, open_sends, wildcards};
use callorder::{Call, LongProgram, Program};
use options::Form;
use prooflog::Refutation;
use refutations::Node;
use std::alloc::{AllocError, Global};
use writing::{Part, put_parts, put_text};

/// The most calls of a program of which it is told how many wildcards have a choice.
const FEW_CALLS: usize = 1_024;

/// How many of the nodes are leaves.
fn leaves(nodes: &[Node]) -> usize
    ensures { result ≡ leaves nodes.now }
{
    nodes
        .iter()
        .filter(|node| matches!(node, Node::Leaf(_)))
        .count()
}

/// What stands round the numbers.
#[derive(Clone, Copy)]
pub struct CountMarks {
    begin: &'static str,
    front: &'static str,
    middle: &'static str,
    back: &'static str,
    foot: &'static str,
}

/// What stands round the numbers in a form.
fn marks_of(form: Form) -> CountMarks
    ensures { texts_of result ≡ marks_of form }
{
    match form {
        Form::Brief | Form::Whole | Form::Chart | Form::Messages => CountMarks {
            begin: "no deadlock\n",
            front: "",
            middle: " ",
            back: "\n",
            foot: "",
        },
        Form::Graph => CountMarks {
            begin: "// no deadlock\n",
            front: "// ",
            middle: " ",
            back: "\n",
            foot: "digraph waits {\n}\n",
        },
        Form::Picture => CountMarks {
            begin: "<svg xmlns=\"http://www.w3.org/2000/svg\" width=\"480\" height=\"180\" font-family=\"monospace\" font-size=\"13\">\n<text y=\"8\">\n<tspan x=\"8\" dy=\"16\">no deadlock</tspan>\n",
            front: "<tspan x=\"8\" dy=\"16\">",
            middle: " ",
            back: "</tspan>\n",
            foot: "</text>\n</svg>\n",
        },
        Form::Page => CountMarks {
            begin: "<!DOCTYPE html>\n<html lang=\"en\">\n<head>\n<meta charset=\"utf-8\">\n<title>mpiprove: no deadlock</title>\n</head>\n<body>\n<h1>No deadlock</h1>\n<pre>",
            front: "",
            middle: " ",
            back: "\n",
            foot: "</pre>\n</body>\n</html>\n",
        },
        Form::Object => CountMarks {
            begin: "{\"answer\":\"no deadlock\",\"status\":0",
            front: ",\"",
            middle: "\":",
            back: "",
            foot: "}\n",
        },
    }
}

/// A number, and what it is the number of.
#[derive(Clone, Copy)]
pub struct NamedCount {
    name: &'static str,
    number: usize,
}

/// The numbers of a program's size.
fn size_counts(program: &LongProgram) -> [NamedCount; 3]
    ensures { AreLinesOfCounts result (λ m. size_lines m program.now) }
{
    let calls = program.calls();
    [
        NamedCount {
            name: "ranks",
            number: program.ranks() as usize,
        },
        NamedCount {
            name: "calls",
            number: calls.len(),
        },
        NamedCount {
            name: "messages",
            number: messages(calls),
        },
    ]
}

/// How many wildcards have a choice.
fn choice_count(calls: &[Call]) -> NamedCount
    ensures { IsLineOfCount result (λ m. count_line m (codes "wildcards with a choice") (wildcards_with_choice calls.now)) }
{
    NamedCount {
        name: "wildcards with a choice",
        number: choices(calls),
    }
}

/// How many wildcards have a choice, or of many calls how many there are.
fn wildcard_count(program: &LongProgram) -> NamedCount
    ensures { IsLineOfCount result (λ m. wildcard_line m program.now) }
{
    let calls = program.calls();
    if calls.len() > FEW_CALLS {
        NamedCount {
            name: "wildcards",
            number: wildcards(calls),
        }
    } else {
        choice_count(calls)
    }
}

/// How many sends the policy leaves open.
fn open_count(program: &LongProgram) -> NamedCount
    ensures { IsLineOfCount result (λ m. open_line m program.now) }
{
    NamedCount {
        name: "sends that may be buffered or not",
        number: open_sends(program.policy(), program.calls()),
    }
}

/// The numbers of what a program leaves open.
fn choice_counts(program: &LongProgram) -> [NamedCount; 2]
    ensures { AreLinesOfCounts result (λ m. choice_lines m program.now) }
{
    [choice_count(program.calls()), open_count(program)]
}

/// The same, where there may be too many calls to tell choices.
fn wildcard_counts(program: &LongProgram) -> [NamedCount; 2]
    ensures { AreLinesOfCounts result (λ m. wildcard_line m program.now ++ open_line m program.now) }
{
    [wildcard_count(program), open_count(program)]
}

/// The numbers of a refutation.
fn claim_counts(refutation: &Refutation) -> [NamedCount; 4]
    ensures { AreLinesOfCounts result (λ m. claim_lines m refutation.now) }
{
    [
        NamedCount {
            name: "variables",
            number: refutation.variables() as usize,
        },
        NamedCount {
            name: "clauses",
            number: refutation.clauses() as usize,
        },
        NamedCount {
            name: "lines",
            number: refutation.lines().len(),
        },
        NamedCount {
            name: "leaves",
            number: leaves(refutation.tree().nodes()),
        },
    ]
}

/// Adds a name and a number.
fn put_count(
    alloc: Global,
    out: &mut Vec<u8>,
    marks: &CountMarks,
    count: NamedCount,
) -> Result<(), AllocError>
    ensures { OnOk result (out.new.items ≡ out.old.items ++ line_of_count (texts_of marks.now) count) }
{
    let number = count.number.to_string(alloc)?;
    put_parts(
        out,
        &[
            Part::Text(marks.front),
            Part::Text(count.name),
            Part::Text(marks.middle),
            Part::Text(&number),
            Part::Text(marks.back),
        ],
    )?;
    Ok(())
}

/// Adds names and numbers.
fn put_counts(
    alloc: Global,
    out: &mut Vec<u8>,
    marks: &CountMarks,
    counts: &[NamedCount],
) -> Result<(), AllocError>
    ensures { OnOk result (out.new.items ≡ out.old.items ++ lines_of (texts_of marks.now) counts.now) }
{
    for count in counts {
        put_count(alloc, out, marks, *count)?;
    }
    Ok(())
}

/// The text, with these marks, of the numbers of a program's size, and of others.
fn marked_text(
    alloc: Global,
    marks: &CountMarks,
    sizes: &[NamedCount],
    choices: &[NamedCount],
    claim: &[NamedCount],
) -> Result<Vec<u8>, AllocError>
    ensures { IfOk result (λ text. text.items ≡ marked_text (texts_of marks.now) sizes.now choices.now claim.now) }
{
    let mut out = Vec::new(alloc);
    put_text(&mut out, marks.begin)?;
    put_counts(alloc, &mut out, marks, sizes)?;
    put_counts(alloc, &mut out, marks, choices)?;
    put_counts(alloc, &mut out, marks, claim)?;
    put_text(&mut out, marks.foot)?;
    Ok(out)
}

/// The text that tells the numbers of a program and of what refutes it: as lines; as a graph
/// without a node, with the lines as comments; as a picture of the lines; or as the members of a
/// JSON object.
pub fn counts_text(
    alloc: Global,
    program: &Program,
    refutation: &Refutation,
    form: Form,
) -> Result<Vec<u8>, AllocError>
    ensures { IfOk result (λ text. text.items ≡ counts_text form program.now refutation.now) }
{
    let program: &LongProgram = program;
    let sizes = size_counts(program);
    let choices = choice_counts(program);
    let claim = claim_counts(refutation);
    marked_text(alloc, &marks_of(form), &sizes, &choices, &claim)
}

/// The text that tells the numbers of a program without a refutation, as `counts_text` tells those
/// of one with it. How many wildcards have a choice is told of at most 1,024 calls; of more calls
/// it is told how many wildcards there are.
pub fn sizes_text(alloc: Global, program: &LongProgram, form: Form) -> Result<Vec<u8>, AllocError>
    ensures { IfOk result (λ text. text.items ≡ sizes_text (marks_of form) program.now) }
{
    let sizes = size_counts(program);
    let choices = wildcard_counts(program);
    marked_text(alloc, &marks_of(form), &sizes, &choices, &[])
}
