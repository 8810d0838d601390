//! What the steps of a run do, with the calls that they are about.

ghost use Rattle.std.specs.Prelude.{◌≡◌, IfOk};
ghost use Rattle.semantics.specs.Machine.{IsRun, after_all, opening};
ghost use Rattle.scene.specs.Labels.{act_of, acts_from};

use callorder::LongProgram;
use semantics::{State, Step};
use std::alloc::{AllocError, Global};

/// What a step does. Calls are named by their places, from 0.
#[derive(Clone, Copy)]
pub enum Act {
    /// The call is issued.
    Issue { call: usize, buffered: bool },
    /// The message of the send is taken.
    Match { send: usize, taker: usize },
    /// The message of the send is seen.
    See { send: usize, probe: usize },
}

/// What the steps of a run do, and the state after them.
#[derive(Drop)]
pub struct Played {
    pub acts: Vec<Act>,
    pub end: State,
}

/// What a step does in a state.
fn act_of(state: &State, step: Step) -> Act
    ensures { result ≡ act_of state.now step }
{
    match step {
        Step::Issue { rank, buffered } => {
            let call = state.next_of(rank).unwrap_or(0);
            Act::Issue { call, buffered }
        }
        Step::Match { send, taker } => Act::Match { send, taker },
        Step::See { send, probe } => Act::See { send, probe },
    }
}

/// Takes the steps of a run.
pub fn play(alloc: Global, program: &LongProgram, steps: &[Step]) -> Result<Played, AllocError>
    requires { IsRun program.now (opening program.now) steps.now }
    ensures acts { IfOk result (λ played. played.acts.items ≡ acts_from (opening program.now) steps.now) }
    ensures end { IfOk result (λ played. played.end ≡ after_all (opening program.now) steps.now) }
{
    let mut end = State::start(alloc, program)?;
    let mut acts = Vec::new(alloc);
    for step in steps {
        acts.push(act_of(&end, *step))?;
        end.apply(program, *step);
    }
    Ok(Played { acts, end })
}
