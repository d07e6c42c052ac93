//! What is known of the transaction in which a connection ended.

use crate::statement::Statement;
use binlog::{ColumnPlace, EventFault, EventFaultKind, TableDef};
use formats::{Quoted, Shown, text_of, write_escaped, write_table};
use gather::{Change, ImageRef};
use gtid::{Gtid, GtidSet};
use rows::write_first_cells;
use std::alloc::Global;
use std::io;
use std::io::Write;

/// How much of a statement or a row is printed in a message, in bytes.
pub const SHOWN: usize = 512;

const ROWS: &[u8] = b"the source has to run with binlog_format = ROW";

const SKIP: &str = "to leave it out, and lose the rows it has";

const SKIP_DEFINITION: &str = "to leave it out, if it changes no followed table";

const THEN_LOAD: &str = ", and then mrep load where the table has rows";

const NO_ROWS_BACK: &str =
    ", and where the table has rows, begin a new database by a first copy: none is loaded into this one";

/// The words of SQL before a password or its hash (MySQL Reference Manual, "CREATE USER Statement", "SET PASSWORD
/// Statement").
const SECRETS: [&[u8]; 2] = [b"IDENTIFIED", b"PASSWORD"];

/// The database of a command, as a command that is named for it is given it.
#[derive(Clone, Copy)]
pub struct Given<'a> {
    /// Its name.
    pub db: &'a str,
    /// The file of changes, where it keeps no rows.
    pub feed: Option<&'a str>,
    /// Whether the lines of commits there have a chain.
    pub has_chain: bool,
}

/// The transaction at hand, and lines of text that say where in it the connection has ended.
#[derive(Drop)]
pub struct Details {
    /// The transaction that has begun and not ended.
    pub gtid: Option<Gtid>,
    /// Lines about its end, each with a line feed after it.
    pub lines: Vec<u8>,
    /// What the statement is that ended the connection, if one did.
    statement: Option<Statement>,
    alloc: Global,
    /// The executed set before the transaction; none where it was not reported, or memory ran out for it.
    executed: Option<GtidSet>,
}

impl Details {
    /// Nothing is known.
    pub fn new(alloc: Global) -> Details {
        Details {
            gtid: None,
            lines: Vec::new(alloc),
            statement: None,
            alloc,
            executed: None,
        }
    }

    /// Notes the executed set at the start.
    pub fn note_executed(&mut self, executed: &GtidSet) {
        self.executed = match executed.copy() {
            Ok(copy) => Some(copy),
            Err(_) => None,
        };
    }

    /// Notes that a transaction was applied.
    pub fn note_applied(&mut self, gtid: Gtid) {
        if let Some(executed) = &mut self.executed
            && executed.insert(gtid).is_err()
        {
            self.executed = None;
        }
    }

    /// Notes the event that ends a connection, and its fault. What does not fit into memory is left out.
    pub fn refuse_event(&mut self, event: &[u8], fault: EventFault) {
        if fault.kind == EventFaultKind::Statement {
            self.statement = Some(Statement::of(event.get(fault.at..).unwrap_or(&[])));
        }
        let _ = write_fault(fault, event, &mut self.lines);
    }

    /// Notes the change of a transaction that ends a connection: its row before it is not there, or the count of the row
    /// after it is full.
    pub fn refuse_change(&mut self, change: &Change<'_>, is_full: bool) {
        let (table, row) = row_of(change, is_full);
        let _ = write_change(table, row, &mut self.lines);
    }

    /// Writes the lines, each after the name of the stream, and how the transaction can be left out, if it can be.
    pub fn write<E: Write>(
        &self,
        stream: &str,
        given: Given<'_>,
        can_skip: bool,
        err: &mut E,
    ) -> io::Result<()> {
        for line in self.lines.split(|byte| *byte == b'\n') {
            write_noted(stream, line, err)?;
        }
        if self.statement == Some(Statement::Rows) {
            write_noted(stream, ROWS, err)?;
        }
        match self.gtid {
            Some(gtid) => self.write_ways(stream, given, gtid, can_skip, err),
            None => Ok(()),
        }
    }

    /// Writes the transaction at hand, and what can be done about it.
    fn write_ways<E: Write>(
        &self,
        stream: &str,
        given: Given<'_>,
        gtid: Gtid,
        can_skip: bool,
        err: &mut E,
    ) -> io::Result<()> {
        writeln!(err, "mrep: {}: in transaction {gtid}", Shown(stream))?;
        match self.ways(can_skip) {
            Ways::None => Ok(()),
            Ways::Skip => write_skip(stream, SKIP, given, gtid, err),
            Ways::SkipOrClear => {
                write_skip(stream, SKIP_DEFINITION, given, gtid, err)?;
                self.write_clear(stream, given, gtid, err)
            }
        }
    }

    /// Writes how a table is cleared whose rows a statement has changed.
    fn write_clear<E: Write>(
        &self,
        stream: &str,
        given: Given<'_>,
        gtid: Gtid,
        err: &mut E,
    ) -> io::Result<()> {
        let executed = self.executed_text();
        write_clear(stream, given, gtid, executed.as_ref(), err)
    }

    /// The text of the executed set, if it is known.
    fn executed_text(&self) -> Option<String> {
        match text_of(self.alloc, self.executed.as_ref()?) {
            Ok(text) => Some(text),
            Err(_) => None,
        }
    }

    /// What can be done about the transaction, if it is what stands in the way.
    fn ways(&self, can_skip: bool) -> Ways {
        match self.statement {
            _ if !can_skip => Ways::None,
            Some(Statement::Definition) => Ways::SkipOrClear,
            _ => Ways::Skip,
        }
    }

    /// Forgets all.
    pub fn clear(&mut self) {
        self.gtid = None;
        self.statement = None;
        self.lines.clear();
    }
}

/// What can be done about a transaction.
#[derive(Clone, Copy)]
enum Ways {
    None,
    /// It is left out, with its rows.
    Skip,
    /// It is left out if it changes no followed table; if it does, the table is cleared.
    SkipOrClear,
}

/// Writes what a message about a stream begins with.
fn write_begin<E: Write>(stream: &str, err: &mut E) -> io::Result<()> {
    write!(err, "mrep: {}: ", Shown(stream))
}

/// Writes a line that was noted, unless there is nothing in it.
fn write_noted<E: Write>(stream: &str, line: &[u8], err: &mut E) -> io::Result<()> {
    if line.is_empty() {
        return Ok(());
    }
    write_begin(stream, err)?;
    err.write_all(line)?;
    err.write_all(b"\n")
}

/// Writes how a transaction is left out, and what that is for.
fn write_skip<E: Write>(
    stream: &str,
    purpose: &str,
    given: Given<'_>,
    gtid: Gtid,
    err: &mut E,
) -> io::Result<()> {
    write!(
        err,
        "mrep: {}: {purpose}: mrep skip --db {}",
        Shown(stream),
        Quoted(given.db)
    )?;
    write_feed(given, err)?;
    writeln!(err, " {gtid}")
}

/// Writes the options of the file of changes, where no rows are kept.
fn write_feed<E: Write>(given: Given<'_>, err: &mut E) -> io::Result<()> {
    let Some(feed) = given.feed else {
        return Ok(());
    };
    let chain = if given.has_chain { " --chain" } else { "" };
    write!(err, " --changes {}{chain}", Quoted(feed))
}

/// Writes how a table is cleared whose rows a statement has changed, after this set; where it is not known, it is what the
/// database has executed.
fn write_clear<E: Write>(
    stream: &str,
    given: Given<'_>,
    gtid: Gtid,
    executed: Option<&String>,
    err: &mut E,
) -> io::Result<()> {
    let db = Quoted(given.db);
    let (only, then) = match given.feed {
        Some(_) => (" --feed-only", NO_ROWS_BACK),
        None => ("", THEN_LOAD),
    };
    write!(
        err,
        "mrep: {}: if it alters or empties a followed table: mrep clear --db {db}{only}",
        Shown(stream)
    )?;
    write_feed(given, err)?;
    match executed {
        Some(set) => writeln!(err, " --gtid {gtid} --at '{set}' SCHEMA.TABLE{then}"),
        None => writeln!(
            err,
            " --gtid {gtid} --at \"$(mrep gtids --db {db})\" SCHEMA.TABLE{then}"
        ),
    }
}

/// Writes the statement of a QUERY event that is not supported, or the table and the column of a table map that is not.
fn write_fault(fault: EventFault, event: &[u8], out: &mut Vec<u8>) -> io::Result<()> {
    match fault.kind {
        EventFaultKind::Statement => write_statement(event.get(fault.at..).unwrap_or(&[]), out),
        EventFaultKind::ColumnType(_) | EventFaultKind::Metadata => {
            match ColumnPlace::find(event, fault.at) {
                Some(place) => write_column(&place, out),
                None => Ok(()),
            }
        }
        _ => Ok(()),
    }
}

/// Writes the table and the column of a fault; one in the metadata, after the types of the columns, has its table alone.
fn write_column(place: &ColumnPlace<'_>, out: &mut Vec<u8>) -> io::Result<()> {
    write_place(place.schema, place.table, out)?;
    match place.column {
        Some(column) => writeln!(out, ", column {}", column.saturating_add(1)),
        None => writeln!(out),
    }
}

/// Writes the first bytes of a statement, of one with a password up to the word before it.
fn write_statement(text: &[u8], out: &mut Vec<u8>) -> io::Result<()> {
    let (shown, end) = match text.split_at_checked(most_of(text)) {
        Some((head, [_, ..])) => (head, "...\n"),
        _ => (text, "\n"),
    };
    out.write_all(b"the statement is: ")?;
    write_escaped(shown, out)?;
    out.write_all(end.as_bytes())
}

/// How many bytes of a statement are printed at most: of one that may have a password those up to the first word that comes before
/// one.
fn most_of(text: &[u8]) -> usize {
    let mut most = SHOWN;
    for word in SECRETS {
        let at = text
            .windows(word.len())
            .position(|part| part.eq_ignore_ascii_case(word));
        if let Some(at) = at {
            most = most.min(at.saturating_add(word.len()));
        }
    }
    most
}

/// Writes the name of a table in a message.
pub fn write_place(schema: &[u8], table: &[u8], out: &mut Vec<u8>) -> io::Result<()> {
    out.write_all(b"table ")?;
    write_table(schema, table, out)
}

/// The table of a change that is refused, and the row because of which it is: the one before it, or the one after it if the
/// count of that is full.
pub fn row_of<'c, 'a>(change: &'c Change<'a>, is_full: bool) -> (&'a TableDef, &'c ImageRef<'a>) {
    match change {
        Change::Insert { table, after } => (table, after),
        Change::Delete { table, before } => (table, before),
        Change::Update { table, after, .. } if is_full => (table, after),
        Change::Update { table, before, .. } => (table, before),
    }
}

/// Writes the table and the row of a change that is refused.
fn write_change(table: &TableDef, row: &ImageRef<'_>, out: &mut Vec<u8>) -> io::Result<()> {
    write_place(&table.schema, &table.table, out)?;
    write_line(row, out)
}

/// Writes the cells of a row, or the first of them.
fn write_line(row: &ImageRef<'_>, out: &mut Vec<u8>) -> io::Result<()> {
    out.write_all(b", row ")?;
    write_first_cells(row, SHOWN, out)?;
    writeln!(out)
}
