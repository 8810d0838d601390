//! In which form an explanation is printed.

/// In which form an explanation is printed.
#[derive(Clone, Copy, PartialEq, Eq)]
pub enum Form {
    /// A text, in which long lists are folded.
    Brief,
    /// The same text with every list whole.
    Whole,
    /// A graph of who waits for whom, in Graphviz's language.
    Graph,
    /// A message sequence chart of the steps, as a text.
    Chart,
    /// A timeline of the steps as a picture, in SVG.
    Picture,
    /// A page in HTML that stands alone: the brief text, the timeline, and the program's lines.
    Page,
    /// A JSON object.
    Object,
    /// A line for each rank that waits, with the place of its call in front, as compilers tell
    /// faults.
    Messages,
}
