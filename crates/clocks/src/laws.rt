//! What blocks are, apart from any code.

ghost use Rattle.clocks.specs.Spans.{SpansAreBlocks};

/// Spans of calls of one rank are blocks, each call of which has the first one's place as its name:
/// it doesn't matter which of a span's receives and matched probes takes which of their messages.
///
/// All of these take the same messages as the first call, and fetch what they find without waiting.
/// Each other call of a span returns at once, or waits for a receive of the span.
pub fn spans_are_blocks()
    ensures { SpansAreBlocks }
{}
