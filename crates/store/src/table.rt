//! The tables: of each how it is made, how it is read, which rows it may have, and the statements on its rows.

pub(crate) mod executed;
pub(crate) mod follow;
pub(crate) mod held;
pub(crate) mod meta;
pub(crate) mod row;
pub(crate) mod spans;
