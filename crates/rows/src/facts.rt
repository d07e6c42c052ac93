//! What is known of a database as a whole.

use crate::json_lines::write_json_name;
use binlog::{Follow, meant};
use formats::{Format, text_of, write_name, write_table};
use gtid::{Gtid, GtidSet};
use std::alloc::Global;
use std::io;
use std::io::Write;

/// What stands for each name, and for each schema.
const STAR: &[u8] = b"*";

/// The layout that a database has once it was opened.
const LAYOUT: u64 = 2;

/// What is known of a database beside its tables.
#[derive(Clone, Copy)]
pub struct Facts<'a> {
    pub executed: &'a GtidSet,
    pub following: &'a Follow,
    /// The first GTID of a first copy that has begun and not ended.
    pub unfinished: Option<Gtid>,
    /// The sizes of its file and of its WAL file, in bytes.
    pub sizes: [u64; 2],
}

/// How many transactions a set has.
pub fn transactions_in(executed: &GtidSet) -> u64 {
    let mut sum = 0u64;
    for span in executed.spans() {
        sum = sum.saturating_add(span.hi.saturating_sub(span.lo));
    }
    sum
}

/// Writes what is known of a database: a line for each, or as JSON the beginning of an object, up to the list of its tables.
pub fn write_facts<W: Write>(
    alloc: Global,
    facts: Facts<'_>,
    format: Format,
    out: &mut W,
) -> io::Result<()> {
    let executed = text_of(alloc, facts.executed)?;
    let count = transactions_in(facts.executed);
    let [file, wal] = facts.sizes;
    if format != Format::Json {
        write!(
            out,
            "layout {LAYOUT}\nexecuted {executed}\ntransactions {count}\nunfinished "
        )?;
        match facts.unfinished {
            Some(gtid) => write!(out, "{gtid}")?,
            None => out.write_all(b"none")?,
        }
        return write!(out, "\nfile {file}\nwal {wal}\n");
    }
    write!(
        out,
        "{{\"layout\":{LAYOUT},\"executed\":\"{executed}\",\"transactions\":{count},\"unfinished\":"
    )?;
    match facts.unfinished {
        Some(gtid) => write!(out, "\"{gtid}\"")?,
        None => out.write_all(b"null")?,
    }
    write!(out, ",\"file\":{file},\"wal\":{wal},\"only\":")?;
    write_only(alloc, facts.following, out)?;
    if !facts.following.keeps_rows() {
        out.write_all(b",\"feed_only\":true")?;
    }
    out.write_all(b",\"tables\":[")
}

/// Writes the tables of a filter as JSON: `null` where they are all.
fn write_only<W: Write>(alloc: Global, filter: &Follow, out: &mut W) -> io::Result<()> {
    if filter.names().is_empty() || filter.reads(STAR, STAR) && !filter.keeps_rows() {
        return out.write_all(b"null");
    }
    let mut before = "[";
    for name in filter.names() {
        let (schema, table) = meant(name).unwrap_or((&name.0, &name.1));
        out.write_all(before.as_bytes())?;
        write_members(alloc, schema, table, out)?;
        out.write_all(b"}")?;
        before = ",";
    }
    out.write_all(b"]")
}

/// Writes the beginning of an object of a table, its names.
pub(crate) fn write_members<W: Write>(
    alloc: Global,
    schema: &[u8],
    table: &[u8],
    out: &mut W,
) -> io::Result<()> {
    out.write_all(b"{\"schema\":")?;
    write_json_name(alloc, schema, out)?;
    out.write_all(b",\"table\":")?;
    write_json_name(alloc, table, out)
}

/// Writes `only` and the name of each table of a filter, or `all`; where no rows are kept `feed-only` before that.
pub(crate) fn write_filter<W: Write>(filter: &Follow, out: &mut W) -> io::Result<()> {
    if filter.names().is_empty() {
        return writeln!(out, "all");
    }
    for name in filter.names() {
        match meant(name) {
            Some((schema, table)) => write_read(schema, table, out)?,
            None => {
                write!(out, "only ")?;
                write_table(&name.0, &name.1, out)?;
            }
        }
        writeln!(out)?;
    }
    Ok(())
}

/// Writes the name of tables that are read and not kept.
fn write_read<W: Write>(schema: &[u8], table: &[u8], out: &mut W) -> io::Result<()> {
    out.write_all(b"feed-only ")?;
    match (schema, table) {
        (b"*", b"*") => out.write_all(b"all"),
        (_, b"*") => {
            write_name(schema, out)?;
            out.write_all(b".*")
        }
        _ => write_table(schema, table, out),
    }
}
