//! The executed set of a database, and what of a set it has not executed.

ghost use Rattle.std.specs.Prelude.{◌≡◌};
ghost use Rattle.std.specs.FinSet as set;

use binlog::Follow;
use gtid::GtidSet;
use std::alloc::{AllocError, Global};
use store::{Listed, Lister, Visitor};

/// Keeps a copy of the executed set of a database that it is given.
#[derive(Drop)]
pub struct ExecutedSet {
    found: GtidSet,
}

impl ExecutedSet {
    /// It was given no database: the set is empty.
    pub fn new(alloc: Global) -> ExecutedSet
        ensures { result.found ≡ set.empty }
    {
        ExecutedSet {
            found: GtidSet::new(alloc),
        }
    }

    /// The executed set.
    pub fn found(self) -> GtidSet
        ensures { result ≡ self.found }
    {
        let ExecutedSet { found } = self;
        found
    }
}

impl Visitor for ExecutedSet {
    type Error = AllocError;

    ghost row_gives = { λ _ _ _ _. Unit {0} };

    fn row(&mut self, _row: &Listed<'_>) -> Result<(), AllocError> {
        Ok(())
    }
}

impl Lister for ExecutedSet {
    ghost use Rattle.rows.specs.DatabaseSets.{KeepsExecuted};

    ghost begun = { KeepsExecuted };

    fn begin(&mut self, executed: &GtidSet, _following: &Follow) -> Result<bool, AllocError> {
        let Ok(found) = executed.copy() else {
            return Err(AllocError);
        };
        self.found = found;
        Ok(false)
    }
}

/// Keeps of a set what a database that it is given has not executed.
#[derive(Drop)]
pub struct MissingSet {
    missing: GtidSet,
}

impl MissingSet {
    /// Nothing of the set is executed yet.
    pub fn new(asked: GtidSet) -> MissingSet
        ensures { result.missing ≡ asked }
    {
        MissingSet { missing: asked }
    }

    /// What of the set is not executed.
    pub fn missing(self) -> GtidSet
        ensures { result ≡ self.missing }
    {
        let MissingSet { missing } = self;
        missing
    }
}

impl Visitor for MissingSet {
    type Error = AllocError;

    ghost row_gives = { λ _ _ _ _. Unit {0} };

    fn row(&mut self, _row: &Listed<'_>) -> Result<(), AllocError> {
        Ok(())
    }
}

impl Lister for MissingSet {
    ghost use Rattle.rows.specs.DatabaseSets.{KeepsMissing};

    ghost begun = { KeepsMissing };

    fn begin(&mut self, executed: &GtidSet, _following: &Follow) -> Result<bool, AllocError> {
        let Ok(()) = self.missing.subtract(executed) else {
            return Err(AllocError);
        };
        Ok(false)
    }
}
