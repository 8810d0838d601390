//! Channels whose messages are more, or fewer, than the calls that take them.
//!
//! A taker is a receive or a matched probe. A channel has the messages to one rank, on one
//! communicator, of one source and with one tag; where a taker there takes any source, those of all
//! sources are one channel, and where one takes any tag, those of all tags (MPI 4.1, section
//! 3.2.4). Ranks, communicators, and calls by their place in the program's list, count from 0.
#![tactic(auto)]

mod channels;
mod counting;
mod laws;

pub use channels::Channel;
pub use counting::{Imbalance, imbalances};
pub use laws::{
    channels_are_closed, missing_sends_stick, missing_takers_leave_messages, programs_have_ranks,
};
