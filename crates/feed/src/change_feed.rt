//! The change feed: each transaction as JSON lines.
//!
//! The changes of a transaction are written before they are committed. What is written to a file is synced, but for the line of
//! a commit: so no change is missing that the database has. After the commit a line says so. A feed begins with the executed set of the database, which says
//! of the last transaction of an earlier run whether it was committed. If it is asked for, each line of a commit has a chain.

use crate::chain::Chain;
use crate::stamps::Stamps;
use binlog::ColumnType;
use columns::DescribedTable;
use files::{FeedFile, FileFault};
use formats::{Encoding, TypeText};
use gather::{Change, Delivery, ImageRef};
use gtid::Gtid;
use rows::{
    DescribedTables, Fault, LastTable, RowError, TextError, has_key, write_cells, write_image,
    write_json_name,
};
use std::alloc::{AllocError, Global};
use std::io;
use std::io::{BufWriter, Write};

/// The word for the output of the command.
pub const OUTPUT: &str = "-";

/// What is written at once.
#[derive(Clone, Copy)]
pub enum FeedEntry<'a> {
    /// The executed set at the start, as a text.
    Opened(&'a str),
    /// The changes of a transaction that is to be committed.
    Changes(&'a Delivery),
    /// All rows of a table go, in a transaction that is to be committed, and the database has none of them.
    Emptied {
        gtid: Gtid,
        schema: &'a [u8],
        table: &'a [u8],
    },
    /// The transaction has been committed, whose changes have so many lines.
    Committed(Gtid, usize),
    /// The transaction was refused, and none of its changes is in the database.
    RolledBack(Gtid),
    /// The transaction is to be recorded without changes.
    Skipped(Gtid),
}

/// A change feed.
#[derive(Drop)]
pub struct Feed {
    /// The file, or `None` for the output of the command.
    file: Option<FeedFile>,
    /// How bytes are printed, where there are any.
    encoding: Option<Encoding>,
    /// The chain of the lines of commits, where it is asked for.
    chain: Option<Chain>,
    alloc: Global,
}

impl Feed {
    /// A feed to the output.
    pub fn to_output(alloc: Global, encoding: Encoding) -> Feed {
        Feed {
            file: None,
            encoding: Some(encoding),
            chain: None,
            alloc,
        }
    }

    /// A feed to the end of a file, which is made if it does not exist, or to a pipe or a device. A file must be none of
    /// those that the command uses, the database, what lies beside it and the others, and no other process's feed. The lines of
    /// commits have a chain exactly if that is asked for: it needs a file on a disk, and one that has a chain is for it alone.
    pub fn to_file(
        rt: &HostRuntime,
        name: &str,
        db: &str,
        others: &[&str],
        encoding: Option<Encoding>,
        is_chained: bool,
    ) -> Result<Feed, FileFault> {
        let file = FeedFile::open(rt, name, db, others)?;
        match Chain::of(rt.alloc(), &file, is_chained) {
            Ok(chain) => Ok(Feed {
                file: Some(file),
                encoding,
                chain,
                alloc: rt.alloc(),
            }),
            Err(fault) => {
                file.discard(rt, name);
                Err(fault)
            }
        }
    }

    /// Gives the feed up, and removes its file if that was made for it and is still empty.
    pub fn discard(self, rt: &HostRuntime, name: &str) {
        let Feed { file, .. } = self;
        if let Some(file) = file {
            file.discard(rt, name);
        }
    }

    /// Whether the feed goes to the output.
    pub fn is_output(&self) -> bool {
        self.file.is_none()
    }

    /// Whether the feed goes to a file on a disk.
    pub fn is_on_disk(&self) -> bool {
        match &self.file {
            Some(file) => file.can_cut(),
            None => false,
        }
    }

    /// Whether the lines of commits have a chain.
    pub fn has_chain(&self) -> bool {
        self.chain.is_some()
    }

    /// Whether the feed goes to a file that has nothing yet.
    pub fn is_empty(&self) -> bool {
        match &self.file {
            Some(file) => file.is_empty(),
            None => false,
        }
    }

    /// Writes an entry: to a file, all of it or nothing. When the changes of a transaction are written, a file has them on
    /// its disk. An executed set that the last line of a file has already is not written again.
    ///
    /// Changes and commits have what the events of the transaction say besides. With described tables rows have names and
    /// types; where one of a transaction does not fit, nothing of it is written.
    pub fn write<O: Write>(
        &mut self,
        entry: FeedEntry<'_>,
        stamps: &Stamps,
        tables: Option<&DescribedTables>,
        out: &mut O,
    ) -> Result<(), RowError> {
        let form = Form {
            alloc: self.alloc,
            encoding: self.encoding,
            tables,
            stamps,
        };
        let Some(file) = &mut self.file else {
            return write_to_output(form, entry, out);
        };
        if let FeedEntry::Opened(executed) = entry {
            let line = open_line(self.alloc, executed, self.encoding)?;
            if file.ends_with(line.as_bytes())? {
                // A killed run may not have waited for the disk.
                file.sync()?;
                return Ok(());
            }
        }
        if !file.can_cut() {
            try_entry(form, entry)?;
        }
        let begin = file.begin()?;
        let written = match (&mut self.chain, entry) {
            (Some(chain), FeedEntry::Committed(gtid, count)) => {
                write_link(form, gtid, count, file, chain)
            }
            (chain, _) => write_to_file(form, entry, file, chain.is_some()),
        };
        if written.is_err() {
            file.cut(begin);
        }
        written
    }
}

/// The form of the lines.
#[derive(Clone, Copy)]
struct Form<'d> {
    alloc: Global,
    encoding: Option<Encoding>,
    /// The tables that are described, if rows have names and types.
    tables: Option<&'d DescribedTables>,
    /// What the events of the transaction say of it besides its changes.
    stamps: &'d Stamps,
}

/// Finds out whether all rows of an entry fit, where it could not be cut off again.
fn try_entry(form: Form<'_>, entry: FeedEntry<'_>) -> Result<(), RowError> {
    match form.tables {
        Some(_) => write_entry(form, entry, &mut io::sink()),
        None => Ok(()),
    }
}

/// Writes an entry to the output, once it is known that all its rows fit.
fn write_to_output<O: Write>(
    form: Form<'_>,
    entry: FeedEntry<'_>,
    out: &mut O,
) -> Result<(), RowError> {
    try_entry(form, entry)?;
    write_entry(form, entry, out)?;
    out.flush()?;
    Ok(())
}

/// Writes an entry to a file, and syncs it unless it says that a transaction was committed, or is nothing. Where lines of commits
/// have a chain, nothing is a reason to sync too: so the line of a commit is on the disk before the next one is written, and no
/// power failure leaves the later one alone.
fn write_to_file(
    form: Form<'_>,
    entry: FeedEntry<'_>,
    file: &FeedFile,
    has_chain: bool,
) -> Result<(), RowError> {
    let mut writer = BufWriter::new(form.alloc, file.append())?;
    let flushed = match write_entry(form, entry, &mut writer) {
        Ok(()) => writer.flush().map_err(RowError::Output),
        Err(error) => Err(error),
    };
    // What a failure has left in the buffer is not written when that is dropped.
    let _ = writer.into_parts();
    flushed?;
    match entry {
        FeedEntry::Changes(delivery) if delivery.changes.is_empty() && !has_chain => {}
        FeedEntry::Committed(..) => {}
        _ => file.sync()?,
    }
    Ok(())
}

/// Writes the line of a commit with its chain to a file.
fn write_link(
    form: Form<'_>,
    gtid: Gtid,
    count: usize,
    file: &FeedFile,
    chain: &mut Chain,
) -> Result<(), RowError> {
    let mut line = Vec::new(form.alloc);
    write_commit(form.stamps, gtid, count, &mut line)?;
    let digits = chain.next(form.alloc, file, &line)?;
    writeln!(line, ",\"chain\":\"{digits}\"}}")?;
    let mut out = file.append();
    out.write_all(&line)?;
    chain.go_on(form.alloc, digits.as_str(), file.length()?)?;
    Ok(())
}

impl Form<'_> {
    /// How bytes are printed.
    fn bytes(self) -> Encoding {
        self.encoding.unwrap_or(Encoding::Hex)
    }
}

/// The line of the executed set, and of how bytes are printed, where there are any.
fn open_line(
    alloc: Global,
    executed: &str,
    encoding: Option<Encoding>,
) -> Result<String, AllocError> {
    match encoding {
        Some(encoding) => {
            let word = encoding.word();
            format!(in alloc;
                "{{\"type\":\"open\",\"executed\":\"{executed}\",\"bytes\":\"{word}\"}}\n"
            )
        }
        None => format!(in alloc; "{{\"type\":\"open\",\"executed\":\"{executed}\"}}\n"),
    }
}

/// Writes the lines of an entry.
fn write_entry<W: Write>(
    form: Form<'_>,
    entry: FeedEntry<'_>,
    out: &mut W,
) -> Result<(), RowError> {
    match entry {
        FeedEntry::Opened(executed) => {
            let line = open_line(form.alloc, executed, form.encoding)?;
            out.write_all(line.as_bytes())?;
        }
        FeedEntry::Changes(delivery) => write_changes(form, delivery, out)?,
        FeedEntry::Emptied {
            gtid,
            schema,
            table,
        } => write_emptied(form.alloc, gtid, schema, table, out)?,
        FeedEntry::Committed(gtid, count) => {
            write_commit(form.stamps, gtid, count, out)?;
            out.write_all(b"}\n")?;
        }
        FeedEntry::RolledBack(gtid) => {
            writeln!(out, "{{\"type\":\"rollback\",\"gtid\":\"{gtid}\"}}")?;
        }
        FeedEntry::Skipped(gtid) => {
            writeln!(out, "{{\"type\":\"skip\",\"gtid\":\"{gtid}\"}}")?;
        }
    }
    Ok(())
}

/// Writes the lines of a transaction's changes.
fn write_changes<W: Write>(
    form: Form<'_>,
    delivery: &Delivery,
    out: &mut W,
) -> Result<(), RowError> {
    let mut line = Vec::new(form.alloc);
    let mut last = form.tables.map(LastTable::new);
    let mut seconds = form.stamps.seconds.iter();
    let mut texts = form.stamps.texts.iter();
    for (number, change) in (0..delivery.changes.len()).zip(delivery.changes.iter()) {
        let place = ChangePlace {
            gtid: delivery.gtid,
            number,
            seconds: seconds.at(number),
            text: texts.at(number),
        };
        let Some(last) = &mut last else {
            write_change(form, place, &change, out)?;
            continue;
        };
        line.clear();
        let table = change.table();
        let (schema, name) = (table.schema.as_slice(), table.table.as_slice());
        match write_typed(form, last.find(schema, name), place, &change, &mut line) {
            Ok(()) => out.write_all(&line)?,
            Err(stop) => return Err(stop.in_table(form.alloc, schema, name)),
        }
    }
    Ok(())
}

/// Where and when a change was made.
#[derive(Clone, Copy)]
struct ChangePlace<'t> {
    gtid: Gtid,
    /// How many changes of its transaction stand before it.
    number: usize,
    /// Seconds since 1970-01-01 00:00:00 UTC, where they are known.
    seconds: Option<u32>,
    /// The text of its statement, where it is the first change of one and the source has written it.
    text: Option<&'t [u8]>,
}

/// Writes the line of a transaction that has been committed, up to its last member.
fn write_commit<W: Write>(
    stamps: &Stamps,
    gtid: Gtid,
    count: usize,
    out: &mut W,
) -> io::Result<()> {
    write!(
        out,
        "{{\"type\":\"commit\",\"gtid\":\"{gtid}\",\"changes\":{count}"
    )?;
    if let Some(micros) = stamps.committed {
        write!(out, ",\"committed_us\":{micros}")?;
    }
    if let Some(server) = stamps.server {
        write!(out, ",\"server\":{server}")?;
    }
    if let Some(number) = stamps.xid {
        write!(out, ",\"xid\":{number}")?;
    }
    if let Some(thread) = stamps.thread {
        write!(out, ",\"thread\":{thread}")?;
    }
    Ok(())
}

/// Writes the line of a table of which all rows go.
fn write_emptied<W: Write>(
    alloc: Global,
    gtid: Gtid,
    schema: &[u8],
    table: &[u8],
    out: &mut W,
) -> io::Result<()> {
    let place = ChangePlace {
        gtid,
        number: 0,
        seconds: None,
        text: None,
    };
    write_head(alloc, "truncate", place, schema, table, out)?;
    out.write_all(b"}\n")
}

/// The parts of a change: what it is, and its rows.
fn parts<'c, 'a>(
    change: &'c Change<'a>,
) -> (
    &'static str,
    Option<&'c ImageRef<'a>>,
    Option<&'c ImageRef<'a>>,
) {
    match change {
        Change::Insert { after, .. } => ("insert", None, Some(after)),
        Change::Delete { before, .. } => ("delete", Some(before), None),
        Change::Update { before, after, .. } => ("update", Some(before), Some(after)),
    }
}

/// Writes the line of a change: an object with the row before it, the row after it, or both.
fn write_change<W: Write>(
    form: Form<'_>,
    place: ChangePlace<'_>,
    change: &Change<'_>,
    out: &mut W,
) -> io::Result<()> {
    let (kind, before, after) = parts(change);
    let table = change.table();
    write_head(form.alloc, kind, place, &table.schema, &table.table, out)?;
    write_types(&table.types, out)?;
    write_side(form, "before", before, out)?;
    write_side(form, "after", after, out)?;
    out.write_all(b"}\n")
}

/// Writes the line of a change whose table is described: with the key of the row that it changes, or adds, if the table has
/// one, and with names and types.
fn write_typed<'d>(
    form: Form<'d>,
    described: Option<&'d DescribedTable>,
    place: ChangePlace<'_>,
    change: &Change<'_>,
    line: &mut Vec<u8>,
) -> Result<(), TextError<'d>> {
    let (kind, before, after) = parts(change);
    let table = change.table();
    let Some(described) = described else {
        return Err(TextError::Fault(None, Fault::Table));
    };
    write_head(form.alloc, kind, place, &table.schema, &table.table, line)?;
    if has_key(described) {
        write_typed_side(form, described, "key", before.or(after), line)?;
    }
    write_typed_side(form, described, "before", before, line)?;
    write_typed_side(form, described, "after", after, line)?;
    line.write_all(b"}\n")?;
    Ok(())
}

/// Writes the members of a change before its rows: what it is, its transaction, its place there, when it was made, and its
/// table.
fn write_head<W: Write>(
    alloc: Global,
    kind: &str,
    place: ChangePlace<'_>,
    schema: &[u8],
    table: &[u8],
    out: &mut W,
) -> io::Result<()> {
    let (gtid, number) = (place.gtid, place.number);
    write!(
        out,
        "{{\"type\":\"{kind}\",\"gtid\":\"{gtid}\",\"n\":{number}"
    )?;
    if let Some(seconds) = place.seconds {
        write!(out, ",\"ts\":{seconds}")?;
    }
    if let Some(text) = place.text {
        out.write_all(b",\"query\":")?;
        write_json_name(alloc, text, out)?;
    }
    out.write_all(b",\"schema\":")?;
    write_json_name(alloc, schema, out)?;
    out.write_all(b",\"table\":")?;
    write_json_name(alloc, table, out)
}

/// Writes the types of the columns of a change's table, as its table map has them, where there is one.
fn write_types<W: Write>(types: &[ColumnType], out: &mut W) -> io::Result<()> {
    if types.is_empty() {
        return Ok(());
    }
    out.write_all(b",\"types\":[")?;
    let mut mark = "";
    for column in types.iter() {
        let text = TypeText(column.kind);
        write!(out, "{mark}\"{text}\"")?;
        mark = ",";
    }
    out.write_all(b"]")
}

/// Writes the row before or after a change, if there is one.
fn write_side<W: Write>(
    form: Form<'_>,
    side: &str,
    row: Option<&ImageRef<'_>>,
    out: &mut W,
) -> io::Result<()> {
    let Some(row) = row else {
        return Ok(());
    };
    write!(out, ",\"{side}\":")?;
    write_image(form.alloc, row, form.bytes(), out)
}

/// Writes the row before or after a change, or its key, if there is one, with names and types.
fn write_typed_side<'d>(
    form: Form<'d>,
    table: &'d DescribedTable,
    side: &str,
    row: Option<&ImageRef<'_>>,
    line: &mut Vec<u8>,
) -> Result<(), TextError<'d>> {
    let Some(row) = row else {
        return Ok(());
    };
    write!(line, ",\"{side}\":")?;
    write_cells(form.alloc, form.bytes(), table, row, side == "key", line)
}
