//! Columns: their types, the metadata of these, and how their values are stored.

pub(crate) mod codes;
pub(crate) mod kind;
pub(crate) mod list;
pub(crate) mod metadata;
pub(crate) mod types;
pub(crate) mod value;
