//! What trimmed texts show. Each function does nothing: its contract is the law.

ghost use Rattle.reports.specs.Trimming.{ShortenedRefute};

/// What the text of a refutation refutes, the text without the lines that aren't needed does.
pub fn shortened_refute()
    ensures { ShortenedRefute }
{}
