//! Schedules.

ghost use Rattle.std.specs.Prelude.{◌≡◌, ◌↔◌, IfOk, IfErr, IsOk, IsTrue, All};
ghost use Rattle.prooflog.specs.Steps.{IsSchedule, IsStepInRange, written};

use crate::step::is_in_range;
use semantics::Step;
use std::marker::Model;

/// The most steps that a schedule has.
pub const MOST_STEPS: usize = 4_096;

/// The steps of a run, in order: at most 4,096, with ranks from 0 to 2,147,483,647 and places of
/// calls from 0 to 2,147,483,646.
#[derive(Drop)]
pub struct Schedule {
    steps: Vec<Step>,
}

impl Model for Schedule {
    ghost use Rattle.std.specs.Prelude.{List};
    ghost use Rattle.semantics.specs.declared.state.Step.{Step};
    ghost use Rattle.prooflog.specs.Steps.{IsSchedule};

    ghost Value = { List Step };

    ghost view = { λ s. s.steps.items };

    ghost invariant = { λ s. IsSchedule s.steps.items };
}

fn are_in_range(steps: &[Step]) -> bool
    ensures { IsTrue result ↔ All (λ step. IsStepInRange (written step)) steps.now }
{
    steps.iter().all(|step| is_in_range(*step))
}

impl Schedule {
    /// The schedule of these steps; they come back where there are more than 4,096 of them, a rank
    /// is above 2,147,483,647 or a place above 2,147,483,646. It takes no memory.
    pub fn make(steps: Vec<Step>) -> Result<Schedule, Vec<Step>>
        ensures made { IfOk result (λ schedule. schedule ≡ steps.items) }
        ensures back { IfErr result (λ back. back ≡ steps) }
        ensures when { IsOk result ↔ IsSchedule steps.items }
    {
        if steps.len() > MOST_STEPS || !are_in_range(&steps) {
            return Err(steps);
        }
        Ok(Schedule { steps })
    }

    /// The schedule of steps that are known to be within the limits.
    pub(crate) fn of_checked(steps: Vec<Step>) -> Schedule
        requires { IsSchedule steps.items }
        ensures { result ≡ steps.items }
    {
        Schedule { steps }
    }

    /// Its steps, in the order of the run.
    pub fn steps(&self) -> &[Step]
        ensures same { result.now ≡ self.now }
        ensures limits { IsSchedule self.now }
    {
        self.steps.as_slice()
    }
}
