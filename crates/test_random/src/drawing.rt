//! Programs that are drawn: messages in a global order, each of which appends its two ends to the
//! lines of its ranks. So without wildcards, swapped lines and dropped receives no run gets stuck.

use crate::chance::Chance;
use crate::line::Line;
use callorder::{Message, Mode, Pattern};
use std::alloc::{AllocError, Global};

/// The rank to which all others send.
const HUB: u32 = 0;

/// Which programs are drawn.
#[derive(Clone, Copy, PartialEq, Eq)]
pub enum Family {
    /// Without probes.
    Plain,
    /// With probes.
    Probing,
    /// With probes, and all ranks send to rank 0, which takes their messages from any source and
    /// answers some.
    Hub,
}

/// What a rank has begun and has to end by a later line.
#[derive(Clone, Copy)]
enum Pending {
    Request(u32),
    Handle(u32),
}

#[derive(Drop)]
struct RankLines {
    lines: Vec<Line>,
    pending: Vec<Pending>,
}

#[derive(Drop)]
struct Drawing {
    chance: Chance,
    family: Family,
    ranks: Vec<RankLines>,
    /// How many requests and handles there are; they count from 1.
    names: u32,
}

/// The text of the program of this family that is drawn by this seed, with 2 to 4 ranks and 3 to 5
/// messages; with a hub 3 or 4 ranks, and each sends one message or two. Where lines are swapped or
/// receives dropped, it stays a program.
pub fn draw(alloc: Global, seed: u64, family: Family) -> Result<String, AllocError> {
    let mut drawing = Drawing {
        chance: Chance::of_seed(seed),
        family,
        ranks: Vec::new(alloc),
        names: 0,
    };
    drawing.add_ranks(alloc)?;
    match family {
        Family::Plain | Family::Probing => drawing.add_messages()?,
        Family::Hub => drawing.add_rounds()?,
    }
    drawing.end_ranks()?;
    drawing.swap_lines();
    drawing.drop_receive();
    drawing.text(alloc)
}

/// What is drawn.
impl Drawing {
    fn draw_mode(&mut self) -> Mode {
        match self.chance.below(4) {
            0 => Mode::Synchronous,
            1 if self.family != Family::Hub => Mode::Buffered,
            _ => Mode::Standard,
        }
    }

    fn draw_rank(&mut self) -> u32 {
        let count = self.rank_count();
        self.chance.below(count)
    }

    /// Another rank than this one; once in thirty times the same.
    fn draw_peer(&mut self, rank: u32) -> u32 {
        if self.chance.is_once_in(30) {
            return rank;
        }
        let count = self.rank_count();
        let further = self.chance.below(count.saturating_sub(1)).saturating_add(1);
        rank.saturating_add(further).checked_rem(count).unwrap_or(0)
    }

    fn draw_message(&mut self, destination: u32) -> Message {
        Message {
            destination,
            tag: self.chance.below(2),
            communicator: u32::from(self.chance.is_once_in(6)),
        }
    }

    /// What takes this message of a rank, and others too where there are wildcards.
    fn draw_pattern(&mut self, source: u32, message: Message) -> Pattern {
        Pattern {
            source: self.draw_wanted(source),
            tag: self.draw_wanted(message.tag),
            communicator: message.communicator,
        }
    }

    /// This number, or any.
    fn draw_wanted(&mut self, number: u32) -> Option<u32> {
        if self.chance.is_once_in(4) {
            return None;
        }
        Some(number)
    }

    /// A new request of this rank, or none.
    fn draw_request(&mut self, rank: u32) -> Result<Option<u32>, AllocError> {
        if self.chance.is_once_in(2) {
            return Ok(None);
        }
        let request = self.new_name();
        self.leave(rank, Pending::Request(request))?;
        Ok(Some(request))
    }

    /// Takes out one of the things that a rank has to end.
    fn draw_pending(&mut self, rank: u32) -> Option<Pending> {
        let Some(rank) = self.ranks.get_mut(rank as usize) else {
            return None;
        };
        let length = rank.pending.len();
        let Some(place) = self.chance.place(length) else {
            return None;
        };
        if place >= length {
            return None;
        }
        Some(rank.pending.remove(place))
    }
}

/// What is added.
impl Drawing {
    fn rank_count(&self) -> u32 {
        u32::try_from(self.ranks.len()).unwrap_or(0)
    }

    fn new_name(&mut self) -> u32 {
        self.names = self.names.saturating_add(1);
        self.names
    }

    fn leave(&mut self, rank: u32, pending: Pending) -> Result<(), AllocError> {
        if let Some(rank) = self.ranks.get_mut(rank as usize) {
            rank.pending.push(pending)?;
        }
        Ok(())
    }

    fn add(&mut self, rank: u32, line: Line) -> Result<(), AllocError> {
        if let Some(rank) = self.ranks.get_mut(rank as usize) {
            rank.lines.push(line)?;
        }
        Ok(())
    }

    fn add_ranks(&mut self, alloc: Global) -> Result<(), AllocError> {
        let count = match self.family {
            Family::Plain | Family::Probing => self.chance.below(3).saturating_add(2),
            Family::Hub => self.chance.below(2).saturating_add(3),
        };
        for _ in 0..count {
            self.ranks.push(RankLines {
                lines: Vec::new(alloc),
                pending: Vec::new(alloc),
            })?;
        }
        Ok(())
    }

    fn add_messages(&mut self) -> Result<(), AllocError> {
        let count = self.chance.below(3).saturating_add(3);
        for _ in 0..count {
            if self.chance.is_once_in(8) {
                self.add_joined()?;
            } else {
                self.add_message()?;
            }
        }
        Ok(())
    }

    fn add_message(&mut self) -> Result<(), AllocError> {
        let sender = self.draw_rank();
        let receiver = self.draw_peer(sender);
        let message = self.draw_message(receiver);
        let pattern = self.draw_pattern(sender, message);
        self.add_send(sender, message)?;
        self.add_taker(receiver, pattern)
    }

    /// Adds a message of each rank to the hub, and one more.
    fn add_rounds(&mut self) -> Result<(), AllocError> {
        let count = self.rank_count();
        for rank in 1..count {
            self.add_round(rank)?;
        }
        let further = self.draw_peer(HUB);
        self.add_round(further)
    }

    /// Adds a message of this rank to the hub, and once in three times an answer.
    fn add_round(&mut self, rank: u32) -> Result<(), AllocError> {
        let communicator = 0;
        let tag = self.chance.below(2);
        let pattern = Pattern {
            source: None,
            tag: if self.chance.is_once_in(3) {
                Some(tag)
            } else {
                None
            },
            communicator,
        };
        self.add_send(
            rank,
            Message {
                destination: HUB,
                tag,
                communicator,
            },
        )?;
        self.add_taker(HUB, pattern)?;
        if self.chance.is_once_in(3) {
            self.add_answer(rank)?;
        }
        Ok(())
    }

    /// Adds a message of the hub to this rank.
    fn add_answer(&mut self, rank: u32) -> Result<(), AllocError> {
        let message = self.draw_message(rank);
        let pattern = self.draw_pattern(HUB, message);
        self.add_send(HUB, message)?;
        self.add_taker(rank, pattern)
    }

    /// Adds a `sendrecv`, the send of what it receives, and what takes the message that it sends.
    fn add_joined(&mut self) -> Result<(), AllocError> {
        let rank = self.draw_rank();
        let receiver = self.draw_peer(rank);
        let sender = self.draw_peer(rank);
        let sent = self.draw_message(receiver);
        let received = Message {
            communicator: sent.communicator,
            ..self.draw_message(rank)
        };
        let Pattern { source, tag, .. } = self.draw_pattern(sender, received);
        let taken = self.draw_pattern(rank, sent);
        let line = Line::SendReceive {
            message: sent,
            source,
            tag,
        };
        self.add_send(sender, received)?;
        self.add(rank, line)?;
        self.add_taker(receiver, taken)
    }

    fn add_send(&mut self, rank: u32, message: Message) -> Result<(), AllocError> {
        let mode = self.draw_mode();
        let request = self.draw_request(rank)?;
        let line = Line::Send {
            mode,
            request,
            message,
        };
        self.add(rank, line)?;
        self.end_some(rank)
    }

    /// Adds a receive, or a matched probe. Where there are probes, one may stand before it, and one
    /// behind it.
    fn add_taker(&mut self, rank: u32, pattern: Pattern) -> Result<(), AllocError> {
        self.add_probe(rank, pattern, 3)?;
        let times = if self.family == Family::Hub { 2 } else { 4 };
        if self.chance.is_once_in(times) {
            let handle = self.new_name();
            self.add(rank, Line::MatchedProbe { handle, pattern })?;
            self.leave(rank, Pending::Handle(handle))?;
        } else {
            let request = self.draw_request(rank)?;
            self.add(rank, Line::Receive { request, pattern })?;
        }
        self.add_probe(rank, pattern, 6)?;
        self.end_some(rank)
    }

    /// Adds a probe, once in so many times, where there are probes; with a hub more rarely.
    fn add_probe(&mut self, rank: u32, pattern: Pattern, times: u32) -> Result<(), AllocError> {
        let times = match self.family {
            Family::Plain => return Ok(()),
            Family::Probing => times,
            Family::Hub => times.saturating_mul(4),
        };
        if self.chance.is_once_in(times) {
            self.add(rank, Line::Probe { pattern })?;
        }
        Ok(())
    }
}

/// What is ended.
impl Drawing {
    /// Ends something that the rank has begun, or nothing.
    fn end_some(&mut self, rank: u32) -> Result<(), AllocError> {
        if self.chance.is_once_in(2) {
            return Ok(());
        }
        match self.draw_pending(rank) {
            None => Ok(()),
            Some(pending) => self.end(rank, pending),
        }
    }

    fn end(&mut self, rank: u32, pending: Pending) -> Result<(), AllocError> {
        match pending {
            Pending::Handle(handle) => self.receive(rank, handle),
            Pending::Request(request) => self.wait(rank, request),
        }
    }

    /// Receives on a handle.
    fn receive(&mut self, rank: u32, handle: u32) -> Result<(), AllocError> {
        let request = self.draw_request(rank)?;
        self.add(rank, Line::MatchedReceive { request, handle })
    }

    /// Waits for a request, and ends something else with it or after it, if there is something.
    fn wait(&mut self, rank: u32, request: u32) -> Result<(), AllocError> {
        match self.draw_pending(rank) {
            None => self.add(rank, Line::Wait { request }),
            Some(Pending::Request(second)) => {
                let first = request;
                self.add(rank, Line::WaitAll { first, second })
            }
            Some(Pending::Handle(handle)) => {
                self.add(rank, Line::Wait { request })?;
                self.receive(rank, handle)
            }
        }
    }

    fn end_ranks(&mut self) -> Result<(), AllocError> {
        for rank in 0..self.rank_count() {
            self.end_rank(rank)?;
        }
        Ok(())
    }

    /// Ends all that a rank has begun: each thing needs one line, and the request of a receive on a
    /// handle another.
    fn end_rank(&mut self, rank: u32) -> Result<(), AllocError> {
        for _ in 0..100 {
            let Some(pending) = self.draw_pending(rank) else {
                return Ok(());
            };
            self.end(rank, pending)?;
        }
        Ok(())
    }
}

/// What is changed at the end.
impl Drawing {
    /// Swaps neighbouring lines at up to two places, but those of which one ends what the other
    /// begins.
    fn swap_lines(&mut self) {
        for _ in 0..self.chance.below(3) {
            self.swap_line();
        }
    }

    fn swap_line(&mut self) {
        let rank = self.draw_rank();
        let Some(rank) = self.ranks.get_mut(rank as usize) else {
            return;
        };
        let Some(place) = self.chance.place(rank.lines.len()) else {
            return;
        };
        swap_at(&mut rank.lines, place);
    }

    /// Drops a blocking receive, once in five times, if the place that is drawn has one.
    fn drop_receive(&mut self) {
        if !self.chance.is_once_in(5) {
            return;
        }
        let rank = self.draw_rank();
        let Some(rank) = self.ranks.get_mut(rank as usize) else {
            return;
        };
        let Some(place) = self.chance.place(rank.lines.len()) else {
            return;
        };
        drop_at(&mut rank.lines, place);
    }
}

/// Swaps the line at a place with the one before it, if there is one, and they name nothing in
/// common.
fn swap_at(lines: &mut Vec<Line>, place: usize) {
    if place == 0 || place >= lines.len() {
        return;
    }
    if !lines[place - 1].shares_name(&lines[place]) {
        lines.swap(place - 1, place);
    }
}

/// Drops the line at a place, if it is a blocking receive.
fn drop_at(lines: &mut Vec<Line>, place: usize) {
    if place < lines.len() && lines[place].is_blocking_receive() {
        let _dropped = lines.remove(place);
    }
}

/// The text.
impl Drawing {
    fn text(&mut self, alloc: Global) -> Result<String, AllocError> {
        let policy = match self.chance.below(3) {
            0 => "none",
            1 => "all",
            _ => "any",
        };
        let mut text = format!(in alloc; "ranks {}\npolicy {policy}\n", self.rank_count())?;
        for (rank, lines) in self.ranks.iter().enumerate() {
            text.push_str(&format!(in alloc; "rank {rank}\n")?)?;
            push_lines(alloc, &mut text, &lines.lines)?;
        }
        Ok(text)
    }
}

fn push_lines(alloc: Global, text: &mut String, lines: &[Line]) -> Result<(), AllocError> {
    for line in lines {
        text.push_str(&line.text(alloc)?)?;
        text.push('\n')?;
    }
    Ok(())
}
