//! What is said where a command is for a database that keeps rows and this one keeps none, or the other way round.

/// Of a database that keeps no rows, where a command changes or reads them.
pub const KEEPS_NONE: &str =
    "it was made with --feed-only and keeps no rows: the file of --changes has them, and follow, replay, load, clear and abandon take it with --feed-only";

/// Of a database that keeps rows, where --feed-only is given.
pub const KEEPS_ROWS: &str =
    "it keeps rows, and --feed-only is for a database that keeps none: name a new file, or leave --feed-only out";

/// Of a new or empty file of changes, where the database keeps no rows and has executed something.
pub const NEW_FEED: &str =
    "it is new or empty, and the database has executed transactions whose changes another file has: name that one, or begin this one with --new-feed";

/// Of a file of changes that is none on a disk, where the database keeps no rows.
pub const NO_FILE: &str =
    "it is a pipe or a device, and with --feed-only nothing else keeps the changes: name a file";
