//! The line of a message: what it is about, and a cause.

use crate::name::Shown;
use std::fmt::Display;
use std::io;
use std::io::Write;

/// Writes a line with a cause, after the name of what it is the cause of.
pub fn write_named<C: Display, E: Write>(name: &str, cause: &C, err: &mut E) -> io::Result<()> {
    writeln!(err, "mrep: {}: {cause}", Shown(name))
}
