//! What decided a run, for an object.

ghost use Rattle.std.specs.Prelude.{◌≡◌, IfOk, map};
ghost use Rattle.choices.specs.Words.{need_words};
ghost use Rattle.reports.specs.Asking.{verdicts_of};

use crate::asked::Asked;
use choices::{ChoiceTaken, Decided, HangExtent, Weighed, need_words};
use explain_json::{ChoiceMade, Decider, Deciders};
use std::alloc::{AllocError, Global};

/// What is told of all choices together.
fn extent_words(extent: HangExtent) -> &'static str {
    match extent {
        HangExtent::Always => "hangs in every run that was tried",
        HangExtent::Whenever => "hangs in every run that was tried where all of these are so",
        HangExtent::NotFound => "no choices were found that suffice",
    }
}

/// A choice.
fn choice_of(weighed: &Weighed) -> ChoiceMade {
    let choice = &weighed.choice;
    let (kind, source, tag) = match choice.taken {
        ChoiceTaken::Buffered => ("buffered", None, None),
        ChoiceTaken::NotBuffered => ("not buffered", None, None),
        ChoiceTaken::Message { source, tag } => ("finds", Some(source), Some(tag)),
    };
    ChoiceMade {
        kind,
        call: choice.call.saturating_add(1),
        rank: choice.rank,
        line: choice.line,
        source,
        tag,
    }
}

/// A choice, and what is known of it.
fn decider_of(weighed: &Weighed) -> Decider
    ensures { result.verdict.now ≡ need_words weighed.now.need }
{
    Decider {
        choice: choice_of(weighed),
        verdict: need_words(weighed.need),
    }
}

/// The choices that decided a run.
fn all_of(alloc: Global, decided: &Decided) -> Result<Deciders, AllocError>
    ensures { IfOk result (λ all.
        map (λ d. d.verdict.now) all.choices.items ≡ map (λ w. need_words w.need) decided.now.choices.items) }
{
    let mut choices = Vec::new(alloc);
    for weighed in &decided.choices {
        choices.push(decider_of(weighed))?;
    }
    Ok(Deciders {
        extent: extent_words(decided.extent),
        choices,
    })
}

/// What is known of what decided a run.
pub fn deciders_of(alloc: Global, asked: &Asked) -> Result<Deciders, AllocError>
    ensures { IfOk result (λ all. map (λ d. d.verdict.now) all.choices.items ≡ verdicts_of asked.now) }
{
    match asked {
        Asked::Known(decided) => all_of(alloc, decided),
        Asked::NotTold | Asked::TooLarge => Ok(Deciders {
            extent: "asked only of programs that prove takes",
            choices: Vec::new(alloc),
        }),
    }
}
