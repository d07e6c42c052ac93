//! The layouts of the tables.

/// Which tables of the two layouts a database has.
#[derive(Clone, Copy, Debug)]
pub(crate) struct Tables {
    pub(crate) meta: bool,
    pub(crate) executed: bool,
    pub(crate) held: bool,
    pub(crate) spans: bool,
    pub(crate) follow: bool,
}

/// The layouts that are read.
#[derive(Clone, Copy, Debug)]
pub(crate) enum KnownLayout {
    First,
    Second,
}
