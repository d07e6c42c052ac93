//! Why a first copy of tables may not be loaded, as a message.

use formats::{Shown, write_named, write_table};
use replica::{QualifiedName, Unloadable};
use std::io;
use std::io::Write;

/// What to do where the executed set is not that of the copy.
pub const OTHER_SET: &str =
    "it has executed other transactions than those that the copy has, or another copy was loaded, so that changes of other tables would be lost: follow until exactly the executed set of the copy, or copy again";

/// What to do where a first copy has begun and not ended.
pub const UNFINISHED: &str =
    "a first copy of tables has begun and not ended: load the same copy again, which goes on where it stopped, or give it up by `mrep abandon`";

/// What to do where a copy was given up.
pub const GIVEN_UP: &str = "this copy was given up: make a new one";

const LEFT_OUT: &str = "it was made for other tables than ";

const NO_ROWS: &str = "it keeps no rows of ";

const NOT_FIRST: &str =
    " and has executed transactions, so that nothing says whether the table was copied before: load one copy of all tables into a new database";

const HAS_ROWS: &str = " has rows: clear it first, or export what it has";

/// Writes why a copy may not be loaded, and what to do.
pub fn write_unloadable<E: Write>(name: &str, why: &Unloadable, err: &mut E) -> io::Result<()> {
    match why {
        Unloadable::Failed(cause) => write_named(name, cause, err),
        Unloadable::OtherSet => write_named(name, &OTHER_SET, err),
        Unloadable::Unfinished(_) => write_named(name, &UNFINISHED, err),
        Unloadable::GivenUp => write_named(name, &GIVEN_UP, err),
        Unloadable::LeftOut(table) => write_of_table(name, LEFT_OUT, table, "", err),
        Unloadable::NotFirst(table) => write_of_table(name, NO_ROWS, table, NOT_FIRST, err),
        Unloadable::HasRows(table) => write_of_table(name, "", table, HAS_ROWS, err),
    }
}

/// Writes a line about a table, after the name of the database.
fn write_of_table<E: Write>(
    name: &str,
    before: &str,
    table: &QualifiedName,
    after: &str,
    err: &mut E,
) -> io::Result<()> {
    write!(err, "mrep: {}: {before}", Shown(name))?;
    write_table(&table.schema, &table.table, err)?;
    writeln!(err, "{after}")
}
