//! Whether receives and probes name their sources.

ghost use Rattle.std.specs.Prelude.{◌≡◌, ◌↔◌, Bool, true};
ghost use Rattle.std.specs.List.{list_all};
ghost use Rattle.callorder.specs.Calls.{pattern_of};
ghost use Rattle.races.specs.Races.{names_source, NamesSources};

use callorder::{Call, LongProgram};

fn names_source(call: &Call) -> bool
    ensures { result ≡ names_source (pattern_of call.now.kind) }
{
    match call.kind.pattern() {
        None => true,
        Some(pattern) => pattern.source.is_some(),
    }
}

fn all_name_sources(calls: &[Call]) -> bool
    ensures { result ≡ list_all (λ call. names_source (pattern_of call.kind)) calls.now }
{
    calls.iter().all(|call| names_source(call))
}

/// Whether each receive, matched probe and probe names the rank whose messages it finds, so that
/// none is of any source. A program without any of them does too.
pub fn names_sources(program: &LongProgram) -> bool
    ensures { (result ≡ true) ↔ NamesSources program.now }
{
    all_name_sources(program.calls())
}
