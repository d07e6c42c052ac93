//! Rows as typed tables of an SQLite database.
//!
//! [`ExportTables`] says which tables of a description are made, and [`ExportedRows`] makes them and adds rows.
#![tactic(auto)]

mod collected;
mod definition;
mod exported;
mod stored;
mod table_rows;
mod tables;

pub use exported::{Export, ExportedRows, note_left_out};
pub use table_rows::TableError;
pub use tables::{ExportTables, TableFault, TableName, TablesFault, check_named, check_texts};
