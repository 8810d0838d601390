//! How much work the prover may do.
ghost use Rattle.std.specs.Prelude.{◌≡◌, ◌≤◌, ◌↔◌, IfSome, IsSome};
ghost use Rattle.options.specs.Ranges.{AreInRange, AreUsual, IsPieces};

/// Which searches are made where no walk ends stuck.
#[derive(Clone, Copy, PartialEq, Eq)]
pub enum Searches {
    /// All: the whole formula first, then below cubes and over sets of matched calls.
    All,
    /// Below cubes alone.
    Cubes,
    /// Over sets of matched calls, and below cubes only where that search gives up.
    Sets,
}

/// The number of workers, 1 to 64, the depth of the first tree, 0 to 15, the conflicts that each
/// worker may meet, 0 to 1,000,000,000, and which searches are made.
#[derive(Clone, Copy, PartialEq, Eq)]
pub struct Options {
    workers: u32,
    depth: u32,
    budget: u32,
    searches: Searches,
    ghost in_range: { AreInRange workers depth budget },
}

impl Options {
    /// The options with these numbers, where each is in its range.
    pub fn make(workers: u32, depth: u32, budget: u32) -> Option<Options>
        ensures given { IfSome result (λ options.
            (options.workers ≡ workers) × (options.depth ≡ depth) × (options.budget ≡ budget)) }
        ensures exactly { IsSome result ↔ AreInRange workers depth budget }
    {
        if workers < 1 || workers > 64 || depth > 15 || budget > 1_000_000_000 {
            return None;
        }
        Some(Options {
            workers,
            depth,
            budget,
            searches: Searches::All,
        })
    }

    /// The same options with these searches.
    pub fn with_searches(self, searches: Searches) -> Options
        ensures same { (result.workers ≡ self.workers) × (result.depth ≡ self.depth) × (result.budget ≡ self.budget) }
        ensures searches { result.searches ≡ searches }
    {
        Options {
            workers: self.workers,
            depth: self.depth,
            budget: self.budget,
            searches,
        }
    }

    /// Which searches are made.
    pub fn searches(&self) -> Searches
        ensures { result ≡ self.now.searches }
    {
        self.searches
    }

    /// How many workers there are, 1 to 64.
    pub fn workers(&self) -> u32
        ensures same { result ≡ self.now.workers }
        ensures in_range { (1 ≤ result) × (result ≤ 64) }
    {
        self.workers
    }

    /// The depth of the first tree, 0 to 15.
    pub fn depth(&self) -> u32
        ensures same { result ≡ self.now.depth }
        ensures in_range { result ≤ 15 }
    {
        self.depth
    }

    /// How many conflicts each worker may meet, 0 to 1,000,000,000.
    pub fn budget(&self) -> u32
        ensures same { result ≡ self.now.budget }
        ensures in_range { result ≤ 1000000000 }
    {
        self.budget
    }
}

/// 4 workers, the depth 4 and 1,000,000 conflicts, and all searches.
impl Default for Options {
    ghost is_default = { λ options. AreUsual options.workers options.depth options.budget };

    fn default() -> Options {
        Options {
            workers: 4,
            depth: 4,
            budget: 1_000_000,
            searches: Searches::All,
        }
    }
}

/// In how many pieces the lines of a refutation are checked, 1 to 64.
#[derive(Clone, Copy, PartialEq, Eq)]
pub struct Pieces {
    number: u32,
    ghost in_range: { IsPieces number },
}

impl Pieces {
    /// So many pieces, where the number is in its range.
    pub fn make(number: u32) -> Option<Pieces>
        ensures given { IfSome result (λ pieces. pieces.number ≡ number) }
        ensures when { IsSome result ↔ IsPieces number }
    {
        if number < 1 || number > 64 {
            return None;
        }
        Some(Pieces { number })
    }

    /// How many there are.
    pub fn number(&self) -> u32
        ensures same { result ≡ self.now.number }
        ensures in_range { IsPieces result }
    {
        self.number
    }
}
