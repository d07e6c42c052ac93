//! What is printed where the words ask for help or for the version.

use clap::error::ErrorKind;
use std::io;
use std::io::Write;

/// What help ends with.
const STATUSES: &[u8] =
    b"\nExit status:\n  0  done\n  1  refused by the source, or by what the data says\n  2  a mistake in the arguments\n  3  a file, a host, the database or the output\n  4  out of memory\n";

/// Prints help, with the exit statuses, or the version, and flushes it.
pub fn write_help<O: Write>(text: &clap::Error, out: &mut O) -> io::Result<()> {
    write!(out, "{text}")?;
    if text.kind() == ErrorKind::DisplayHelp {
        out.write_all(STATUSES)?;
    }
    out.flush()
}
