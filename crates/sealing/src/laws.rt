//! Laws of phases whose finders take messages of any source. Each function does nothing: its
//! contract is the law.

ghost use Rattle.sealing.specs.Laws.{FinishTells, NoLooseSendSeals, OneSealedPhaseMore, SurePartnersAreSo};

/// Behind a phase that leaves nothing and is sealed, what is left may be judged alone.
pub fn one_sealed_phase_more()
    ensures { OneSealedPhaseMore }
{}

/// What is sure to be a call's partner is its partner in each run that finds it any.
pub fn sure_partners_are_so()
    ensures { SurePartnersAreSo }
{}

/// What is told of a rank's end is so.
pub fn finish_tells()
    ensures { FinishTells }
{}

/// Where nobody sends what the list speaks of, the phase is sealed.
pub fn no_loose_send_seals()
    ensures { NoLooseSendSeals }
{}
