//! A described table.

use crate::column::Column;

/// A described table.
#[derive(Debug, PartialEq, Eq, Drop)]
pub struct DescribedTable {
    /// The name of its schema.
    pub schema: String,
    pub name: String,
    /// In the order of their places in a row.
    pub columns: Vec<Column>,
}
