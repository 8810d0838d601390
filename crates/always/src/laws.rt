//! What one run that buffers all it may shows of all runs of its program, apart from any code.

ghost use Rattle.always.specs.Laws.{OneWayIsGreatest, UnfinishedInEveryRun, GreatestSticksAlways, OneWaySticksAlways, OrderedIsGreatest, OrderedSticksAlways, TableIsGreatest, TableSticksAlways, NamedSourcesAreGreatest, NamedSourcesStickAlways, OnlyChoiceMixes, TwoRunsDecide, BlocksAreGreatest, BlocksStickAlways, TableOfBlocksIsGreatest, TableOfBlocksSticksAlways, EachRunEnds};

/// Where a run that buffers all it may can't go on, and no run matches or sees anything else, it
/// has all that any run has.
pub fn one_way_is_greatest()
    ensures { OneWayIsGreatest }
{}

/// A rank that the greatest run doesn't finish is finished by none.
pub fn unfinished_in_every_run()
    ensures { UnfinishedInEveryRun }
{}

/// Where the greatest run is stuck, each run gets stuck.
pub fn greatest_sticks_always()
    ensures { GreatestSticksAlways }
{}

/// Where a run that buffers all it may is stuck, and no run matches or sees anything else, each run
/// gets stuck.
pub fn one_way_sticks_always()
    ensures { OneWaySticksAlways }
{}

/// Where each send that could race for a finder is held back until the finder has found, a run that
/// buffers all it may and can't go on is the greatest.
pub fn ordered_is_greatest()
    ensures { OrderedIsGreatest }
{}

/// Where besides that run is stuck, each run gets stuck.
pub fn ordered_sticks_always()
    ensures { OrderedSticksAlways }
{}

/// Where a table, each entry of which follows from others, shows that no send races, a run that
/// buffers all it may and can't go on is the greatest.
pub fn table_is_greatest()
    ensures { TableIsGreatest }
{}

/// Where besides that run is stuck, each run gets stuck.
pub fn table_sticks_always()
    ensures { TableSticksAlways }
{}

/// Where each receive, matched probe and probe names its source, a run that buffers all it may and
/// can't go on is the greatest.
pub fn named_sources_are_greatest()
    ensures { NamedSourcesAreGreatest }
{}

/// Where besides that run is stuck, each run gets stuck.
pub fn named_sources_stick_always()
    ensures { NamedSourcesStickAlways }
{}

/// Where each finder names its source, a deadlock comes in some runs and not in others under the
/// policy `any` alone.
pub fn only_choice_mixes()
    ensures { OnlyChoiceMixes }
{}

/// Where each finder names its source, two runs decide whether no run gets stuck, some do, or each
/// does.
pub fn two_runs_decide()
    ensures { TwoRunsDecide }
{}

/// Where receives of a block may stand for one another, and no send of another block races for a
/// finder that has found one, each run matches within the blocks of one that buffers all it may and
/// can't go on, and has no more.
pub fn blocks_are_greatest()
    ensures { BlocksAreGreatest }
{}

/// Where besides that run is stuck, each run gets stuck.
pub fn blocks_stick_always()
    ensures { BlocksStickAlways }
{}

/// The same where a table shows that no send of another block races.
pub fn table_of_blocks_is_greatest()
    ensures { TableOfBlocksIsGreatest }
{}

/// Where besides that run is stuck, each run gets stuck.
pub fn table_of_blocks_sticks_always()
    ensures { TableOfBlocksSticksAlways }
{}

/// Each run can be gone on with until nothing can follow.
pub fn each_run_ends()
    ensures { EachRunEnds }
{}
