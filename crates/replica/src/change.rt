//! What changes a store and comes from no connection.

pub(crate) mod changing;
pub(crate) mod clearing;
pub(crate) mod loading;
pub(crate) mod marks;
pub(crate) mod then_last;
