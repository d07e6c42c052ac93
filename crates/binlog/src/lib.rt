//! Events and rows of the binary log.
//!
//! [`read_event`] reads an [`Event`] from the bytes of one payload. The event borrows from these bytes: nothing is
//! copied, and no memory is taken. [`read_event_only`] takes a filter, [`Follow`], and reads of a table map only its
//! names if the filter does not read the table. A [`TableMap`] that is to outlive its payload is copied to a [`TableDef`].
//! [`RowsEvent::rows`] iterates over the rows of an event, given such a table, one [`RowPair`] at a time;
//! [`Row::cells`] are the cells of a row.
//!
//! [`Event::write`] and [`write_rows`] are the other direction.
//!
//! The layouts are those of the MySQL Source Documentation, "Binlog Event". `specs/` defines them as relations on whole
//! byte lists, and [`laws`] states what follows from them.
#![tactic(auto)]

mod bitmap;
mod body;
mod cell;
mod column;
mod count;
mod event;
pub mod event_type;
mod fault;
mod filter;
mod header;
pub mod laws;
mod origin;
mod reading;
mod row;
mod row_pair;
mod rows;

pub use body::rows_event::{RowsEvent, RowsKind};
pub use body::table_map::{ColumnPlace, TableDef, TableMap};
pub use cell::{Cell, OwnedCell};
pub use column::kind::{ColumnKind, ColumnType};
pub use column::types::{ColumnTypes, ColumnTypesIter};
pub use column::value::number_fits;
pub use event::{Event, read_event, read_event_only};
pub use fault::{EventFault, EventFaultKind};
pub use filter::Follow;
pub use header::Header;
pub use origin::{Origin, committed_micros};
pub use reading::meant;
pub use row::{Cells, Row};
pub use row_pair::{OwnedPair, RowPair};
pub use rows::{Rows, rows_fit, write_rows};
