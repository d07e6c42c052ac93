//! Global transaction identifiers (GTIDs) of MySQL, and sets of them.
//!
//! A [`Gtid`] is the sixteen bytes of a source's UUID and the number of one of its transactions. A [`GtidSet`] keeps
//! the least intervals of each source's numbers: the fewest intervals, in ascending order, so that none is empty and no
//! two touch. [`Span`] is such an interval with its source, from `lo` up to but not including `hi`. Sets are read from
//! text and from the data of COM_BINLOG_DUMP_GTID, and written as both; a GTID is read from text and written as text.
//!
//! The terms are those of the MySQL Reference Manual, "GTID Format and Storage". `specs/` defines a set as a plain
//! finite set of sources' bytes and numbers, and [`laws`] states what follows from the definitions.
#![tactic(auto)]

mod beside;
mod combination;
mod decoding;
mod encoding;
mod fault;
mod gathering;
mod grammar;
mod group;
mod groups;
mod gtid_text;
mod identifier;
mod interval;
pub mod laws;
mod reading;
mod reserved;
mod set;
mod span;
mod spans;
mod text;

pub use beside::Beside;
pub use fault::GtidFault;
pub use identifier::Gtid;
pub use reserved::{Entry, Reserved};
pub use set::GtidSet;
pub use span::Span;
pub use spans::Spans;
