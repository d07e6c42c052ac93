//! Transactions to be sent.

use binlog::{OwnedPair, RowsKind, TableDef};
use gtid::Gtid;

/// How a transaction ends.
#[derive(Clone, Copy, Debug, PartialEq, Eq)]
pub enum Ending {
    /// An XID event, with the number of the GTID.
    Xid,
    /// A QUERY event with the text COMMIT.
    Commit,
}

/// A table map, and a rows event of its table.
#[derive(Debug, Drop)]
pub struct Part {
    /// The number that the table map gives to the table.
    pub id: u64,
    pub table: TableDef,
    pub kind: RowsKind,
    pub pairs: Vec<OwnedPair>,
}

/// A transaction to be sent.
#[derive(Debug, Drop)]
pub struct Script {
    pub gtid: Gtid,
    pub parts: Vec<Part>,
    pub ending: Ending,
}
