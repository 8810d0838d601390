//! Whether the messages of a run race, for programs of any length. Where they don't, and the run
//! finishes, no run of the program is stuck.
//!
//! A finder is a receive, a matched probe or a probe, and another send that fits it races for it
//! where it may get there before the send that the finder found. It doesn't race where it is of the
//! same rank as that send, where a call up to the finder has taken it, or where it is issued only
//! once the finder has found.
//!
//! What is found where a call is issued is known as by vector clocks. The finders of any source are
//! numbered, in a column for each rank that has some, and each call has a row with one count for
//! each column: the finders before that count have found. A row is right where it tells no more
//! than some number of rounds of one rule, from nothing (`level` in `specs/Clocks.antt`), so rows
//! may be made in any order, and may tell too little. Of each send one count is asked later, that
//! of the rank that it goes to, and a row is let go once no other row will be made from it.
//!
//! A span of calls of one rank is a block where which of its receives and matched probes takes
//! which of their messages doesn't matter, so that no send that one of them has taken races for
//! another. They have one pattern, and fetch what they find without waiting; what stands between
//! them returns at once, or waits for a receive of the span. But there a send of the same rank may
//! race, so spans whose messages all come from one rank are left alone, and where a race is told by
//! blocks, each finder is taken once more as a block of its own. Names of blocks are made by what
//! may be wrong, and are used only where a look at each call shows that they are right.
//!
//! Only finders of any source are looked at: where a finder names its source, all sends that fit it
//! are of one rank. They stand in groups by what they ask for: their rank, the communicator, and the
//! tag or any tag. A send is looked at for the finders of two groups, of its tag and of any. A send's
//! count tells at once of all finders of a group up to a place that they have found, so it is looked
//! at from there on, and no further than its own taker. In a program that doesn't race these are
//! few, and of one envelope (the rank, the destination, the communicator and the tag) each finder is
//! looked at for one send at most.
//!
//! Counts are kept of those ranks alone to which a send goes that neither its fit, nor its rank, nor
//! its taker settles; where there is none, no row is made. Rows take the calls times these ranks in
//! time, and in memory the calls, and these ranks for each call that is open at one time.
//!
//! Where the count doesn't tell, all that is known of the finder is asked for, which takes the calls
//! in time. Only a call that waits for the finder, or for the send that it found, tells others that
//! it has found. The count is of the former. So where the first finder that is asked for turns out
//! to have found, finders are counted by the latter too, in columns of the ranks of the sends that
//! they found, for as many races at a time as there are calls. What is left then is mostly one race,
//! of whose finder all is asked for again. So of a race that is told no rule tells that the send is
//! issued only where the finder has found. Of a send that the run hasn't issued nothing is asked;
//! one that finishes has issued each.
//! Ranks, and calls by their place in the program's list, count from 0.
#![tactic(auto)]

mod classes;
mod columns;
mod exact;
mod finders;
mod laws;
mod race;
mod reads;
mod rows;
mod spans;
mod unsettled;

pub use laws::spans_are_blocks;
pub use race::{Race, first_race, shows_no_race};
