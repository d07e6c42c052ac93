//! Rows of a database as text: what `show`, `tables`, `gtids` and `missing` print.
//!
//! Without a description [`TextRows`] writes a line for each row, and [`Records`] and [`write_object`] one as CSV and JSON. With a
//! description [`TypedRows`] prints rows with the names and types of their columns, as the `mysql` client does, as CSV, JSON and
//! SQL. Each is made whole before any of it is printed: one that does not fit the description is a [`Misfit`]. [`Tallies`] counts
//! rows by table, [`compare`] finds what differs from rows that the source prints, [`Chosen`] says which tables had no row, and
//! [`Facts`] is what is known of a database as a whole. [`ExecutedSet`] and [`MissingSet`] are read of a database without its rows.
//!
//! What the cells mean is the business of `columns`, whose functions have contracts. Here the line of a row of [`TextRows`] and
//! the two sets have one: law [`laws::written`].
#![tactic(auto)]

mod cells;
mod comparison;
mod csv_cells;
mod csv_lines;
mod database_sets;
mod described_tables;
mod facts;
mod json;
mod json_lines;
pub mod laws;
mod misfit;
mod notes;
mod object;
mod rows;
mod shown;
mod sql;
mod tallies;
mod text_rows;
mod tsv;

pub use cells::write_first_cells;
pub use comparison::{Differences, compare};
pub use csv_lines::Records;
pub use database_sets::{ExecutedSet, MissingSet};
pub use described_tables::{DescribedTables, LastTable};
pub use facts::{Facts, transactions_in};
pub use json_lines::{write_image, write_json_name, write_object};
pub use misfit::{
    CellError, Fault, Misfit, RowError, TextError, check_copies, check_count, copied,
};
pub use notes::{Chosen, note_absent, note_patterns};
pub use object::{has_key, write_cells};
pub use rows::{Layout, TypedRows};
pub use shown::{ShownCell, padded, show};
pub use sql::write_sql_name;
pub use tallies::Tallies;
pub use text_rows::TextRows;
pub use tsv::{write_bare, write_binary, write_digits};
