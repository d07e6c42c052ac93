//! How a database file is opened, read and closed, what prints its rows or adds them to tables, and the files beside it.

pub mod copied_rows;
pub mod description;
pub mod exporter;
pub mod open;
pub mod printer;
pub mod reading;
