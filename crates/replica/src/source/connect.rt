//! How a source is reached.

ghost use Rattle.std.specs.Prelude.{Result};
ghost use Rattle.gtid.specs.Identifier.{Ids};

use gtid::GtidSet;

/// How a source is reached, once it is known which transactions the database has executed.
pub trait Connect {
    /// The stream over which the source is followed.
    type Stream;

    /// Why it is not reached.
    type Error;

    // What it may give where this set is executed.
    ghost gives: { Self → Ids → Result Self.Stream Self.Error → Type 0 };

    /// Reaches the source. The set is the executed one of the database that is opened.
    fn connect(self, executed: &GtidSet) -> Result<Self::Stream, Self::Error>
        ensures { gives self executed.now result };
}
