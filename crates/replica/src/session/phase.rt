//! Phases of a connection.

/// The message that a session expects next, before the dump.
#[derive(Clone, Copy, Debug, PartialEq, Eq)]
pub(crate) enum Login {
    Greeting,
    Reply,
    SecondReply,
    QueryReply,
}

/// What a session expects next: a message before the dump, or an event of the dump.
#[derive(Clone, Copy, Debug, PartialEq, Eq)]
pub(crate) enum Phase {
    Login(Login),
    Dump,
}
