//! Numbers that options give, each within its range.
ghost use Rattle.std.specs.Prelude.{◌≡◌, ◌≤◌};
ghost use Rattle.mb_completion.specs.Limits.{most_looks};
ghost use Rattle.mb_desk.specs.Limits.{largest_limit, most_workers};
ghost use Rattle.mb_rings.specs.Walk.{most_tables};

use std::marker::Model;

/// The greatest limit of `reach` and of `import`, which is also the one where none is given.
pub const LARGEST_LIMIT: u32 = 100_000;

/// The most tables that may be reached, 1 to 100,000.
#[derive(Drop)]
pub struct Limit {
    tables: u32,
}

impl Model for Limit {
    ghost use Rattle.std.specs.Prelude.{ℕ};
    ghost use Rattle.mb_desk.specs.Limits.{IsLimit};

    ghost Value = { ℕ };

    ghost view = { λ limit. limit.tables };

    ghost invariant = { λ limit. IsLimit limit.tables };
}

impl Limit {
    /// The limit of so many tables.
    pub fn of(tables: u32) -> Limit
        requires some { 1 ≤ tables }
        requires small { tables ≤ largest_limit }
        ensures { result ≡ tables }
    {
        Limit { tables }
    }

    /// So many tables.
    pub fn tables(&self) -> u32
        ensures limit { result ≡ self.now }
        ensures some { 1 ≤ result }
        ensures small { result ≤ largest_limit }
    {
        self.tables
    }
}

/// The greatest limit of `analyse`, which is also the one where none is given.
pub const LARGEST_FIBER: u32 = 2_000_000;

/// The most tables that a fiber may have to be analysed, 1 to 2,000,000.
#[derive(Drop)]
pub struct FiberLimit {
    tables: u32,
}

impl Model for FiberLimit {
    ghost use Rattle.std.specs.Prelude.{ℕ};
    ghost use Rattle.mb_desk.specs.Limits.{IsFiberLimit};

    ghost Value = { ℕ };

    ghost view = { λ limit. limit.tables };

    ghost invariant = { λ limit. IsFiberLimit limit.tables };
}

impl FiberLimit {
    /// The limit of so many tables.
    pub fn of(tables: u32) -> FiberLimit
        requires some { 1 ≤ tables }
        requires small { tables ≤ most_tables }
        ensures { result ≡ tables }
    {
        FiberLimit { tables }
    }

    /// So many tables.
    pub fn tables(&self) -> u32
        ensures limit { result ≡ self.now }
        ensures some { 1 ≤ result }
        ensures small { result ≤ most_tables }
    {
        self.tables
    }
}

/// The most workers that may walk, 1 being the number where none is given.
pub const MOST_WORKERS: u32 = 64;

/// How many workers walk, 1 to 64.
#[derive(Drop)]
pub struct Workers {
    workers: u32,
}

impl Model for Workers {
    ghost use Rattle.std.specs.Prelude.{ℕ};
    ghost use Rattle.mb_desk.specs.Limits.{AreWorkers};

    ghost Value = { ℕ };

    ghost view = { λ w. w.workers };

    ghost invariant = { λ w. AreWorkers w.workers };
}

impl Workers {
    /// So many workers.
    pub fn of(workers: u32) -> Workers
        requires some { 1 ≤ workers }
        requires few { workers ≤ most_workers }
        ensures { result ≡ workers }
    {
        Workers { workers }
    }

    /// Their number.
    pub fn count(&self) -> u32
        ensures workers { result ≡ self.now }
        ensures some { 1 ≤ result }
        ensures few { result ≤ most_workers }
    {
        self.workers
    }
}

/// The most looks that a completion may be given, which is also their number where none is given.
pub const LARGEST_LOOKS: u32 = 1_000_000;

/// The critical pairs that a completion may look at, 0 to 1,000,000.
#[derive(Drop)]
pub struct Looks {
    pairs: u32,
}

impl Model for Looks {
    ghost use Rattle.std.specs.Prelude.{ℕ, ◌≤◌};
    ghost use Rattle.mb_completion.specs.Limits.{most_looks};

    ghost Value = { ℕ };

    ghost view = { λ looks. looks.pairs };

    ghost invariant = { λ looks. looks.pairs ≤ most_looks };
}

impl Looks {
    /// So many pairs.
    pub fn of(pairs: u32) -> Looks
        requires { pairs ≤ most_looks }
        ensures { result ≡ pairs }
    {
        Looks { pairs }
    }

    /// The number of pairs.
    pub fn pairs(&self) -> u32
        ensures pairs { result ≡ self.now }
        ensures small { result ≤ most_looks }
    {
        self.pairs
    }
}
