//! Expressions, calls and statements.
//!
//! A name is a number here: its place, from 0, in the list of the text's names, which stands beside
//! the tree. Lines count from 1. Parentheses and each `elif` are kept, so that a tree can be
//! written in one way alone, and what was read can be compared with the text.

/// When a send completes (MPI 4.1, section 3.4). A ready send isn't told apart from a standard one.
#[derive(Clone, Copy)]
pub enum SendMode {
    Standard,
    Synchronous,
    Buffered,
}

/// An operator on two numbers of 64 bits.
#[derive(Clone, Copy)]
pub enum Operator {
    Plus,
    Minus,
    Times,
    /// `div`: the quotient by a number above 0, rounded down.
    Quotient,
    /// `mod`: Euclid's remainder by a number above 0, which is never below 0.
    Remainder,
    /// `shl`: times two to the power of 0 to 62.
    Left,
    /// `shr`: the quotient by two to the power of 0 to 62, rounded down.
    Right,
    /// `xor`: exclusive or, bit by bit, of numbers from 0 on.
    Exclusive,
}

/// A comparison of two values. `Same` and `Other` take `null` too, the others numbers alone.
#[derive(Clone, Copy)]
pub enum Comparison {
    Same,
    Other,
    Below,
    UpTo,
    Above,
    From,
}

/// An expression or a condition. Which of both a tree is, it shows itself: a comparison, `not`,
/// `and`, `or`, and parentheses around one of these are conditions.
#[derive(Drop)]
pub enum Expression {
    /// A number, 0 to 2^63 - 1.
    Literal(i64),
    /// No rank: `MPI_PROC_NULL` (MPI 4.1, section 3.11).
    Null,
    /// The rank that the text is unrolled for, from 0.
    Rank,
    /// How many ranks there are.
    Size,
    /// The value of a name.
    Named(u32),
    Binary(Operator, Box<Expression>, Box<Expression>),
    Compare(Comparison, Box<Expression>, Box<Expression>),
    /// A minus before a factor.
    Negative(Box<Expression>),
    /// What stands in parentheses: a number or a condition.
    Grouped(Box<Expression>),
    /// `not`, before a condition.
    Negation(Box<Expression>),
    /// `and`. The second condition is looked at only where the first one holds.
    Both(Box<Expression>, Box<Expression>),
    /// `or`. The second condition is looked at only where the first one doesn't hold.
    Either(Box<Expression>, Box<Expression>),
    /// `if` a condition `then` an expression `else` another. The other one is not evaluated.
    Choice(Box<Expression>, Box<Expression>, Box<Expression>),
}

/// How a request or a handle is written: a name, and maybe an index in brackets.
#[derive(Drop)]
pub struct LabelForm {
    pub name: u32,
    pub index: Option<Expression>,
}

/// The requests of a `waitall`, in their order: one or more.
#[derive(Drop)]
pub enum Labels {
    Last(LabelForm),
    More(LabelForm, Box<Labels>),
}

/// A collective call (MPI 4.1, chapter 6).
#[derive(Clone, Copy)]
pub enum CollectiveKind {
    Barrier,
    Broadcast,
    Reduce,
    AllReduce,
    Gather,
    Scatter,
    AllGather,
    AllToAll,
    Scan,
}

/// The ranks that make a collective call: from the first up to the last, each a step above the one
/// before. No step means 1.
#[derive(Drop)]
pub struct GroupForm {
    pub first: Expression,
    pub last: Expression,
    pub step: Option<Expression>,
}

/// A call as it is written. A source or tag that is `None` is a wildcard; no communicator means 0;
/// no group means all ranks. A call with a request is started, and one without is blocking.
#[derive(Drop)]
pub enum Arguments {
    /// A send (MPI 4.1, sections 3.2.1, 3.4 and 3.7.2).
    Send {
        mode: SendMode,
        request: Option<LabelForm>,
        destination: Expression,
        tag: Expression,
        communicator: Option<Expression>,
    },
    /// A receive (MPI 4.1, sections 3.2.4 and 3.7.2).
    Receive {
        request: Option<LabelForm>,
        source: Option<Expression>,
        tag: Option<Expression>,
        communicator: Option<Expression>,
    },
    /// A matched probe (MPI 4.1, section 3.8.2), which is blocking.
    MatchedProbe {
        handle: LabelForm,
        source: Option<Expression>,
        tag: Option<Expression>,
        communicator: Option<Expression>,
    },
    /// A probe (MPI 4.1, section 3.8.1), which is blocking.
    Probe {
        source: Option<Expression>,
        tag: Option<Expression>,
        communicator: Option<Expression>,
    },
    /// The receive on the handle of a matched probe (MPI 4.1, section 3.8.3).
    MatchedReceive {
        request: Option<LabelForm>,
        handle: LabelForm,
    },
    /// The wait for what a request stands for (MPI 4.1, section 3.7.3).
    Wait {
        request: LabelForm,
    },
    /// A send and a receive that are joined (MPI 4.1, section 3.10).
    SendReceive {
        destination: Expression,
        send_tag: Expression,
        source: Option<Expression>,
        receive_tag: Option<Expression>,
        communicator: Option<Expression>,
    },
    /// A collective call. It has a root where it is `Broadcast`, `Reduce`, `Gather` or `Scatter`.
    Collective {
        kind: CollectiveKind,
        root: Option<Expression>,
        group: Option<GroupForm>,
        communicator: Option<Expression>,
    },
}

/// A statement, or several. Each but the first two and `Otherwise` has the line of its first word.
#[derive(Drop)]
pub enum SpmdStatement {
    Nothing,
    /// One after the other.
    Sequence(Box<SpmdStatement>, Box<SpmdStatement>),
    /// A parameter, with the value that it has where no setting gives one.
    Parameter {
        line: u32,
        name: u32,
        otherwise: Option<Expression>,
    },
    /// `let`: the name has this value from now on.
    Assign {
        line: u32,
        name: u32,
        value: Expression,
    },
    /// `if` with its `end`; or, where it is chained, an `elif`, which stands last in the branch of
    /// an `if` or `elif` and ends with it.
    When {
        line: u32,
        chained: bool,
        condition: Expression,
        yes: Box<SpmdStatement>,
        no: Box<SpmdStatement>,
    },
    /// What stands after an `else`.
    Otherwise(Box<SpmdStatement>),
    /// `for`: the statements are done for the first value, and then for each a step above the one
    /// before, up to the last. A step is 1 to 2^32 - 1.
    Repeat {
        line: u32,
        name: u32,
        first: Expression,
        last: Expression,
        step: u32,
        body: Box<SpmdStatement>,
    },
    Call {
        line: u32,
        arguments: Arguments,
    },
    /// Waits for all of these requests (MPI 4.1, section 3.7.5).
    WaitAll {
        line: u32,
        requests: Labels,
    },
    /// `error`: it is not to be reached.
    Unreached {
        line: u32,
    },
}
