//! Events. MySQL Source Documentation, "Binlog Event", the page `binary_log::Log_event_type`.

ghost use Rattle.std.specs.Prelude.{◌≡◌, [], ◌∷◌, drop, IfOk, IfErr, MatchResult, Some, ◌+◌, ◌<◌, ◌++◌, ◌↔◌, IsTrue, length, OnOk, OnErr, Err, vec_len, vec_capacity, ◌≤◌};
ghost use Rattle.std.specs.FinSet as set;
ghost use Rattle.binlog.specs.Fault.{first_of};
ghost use Rattle.binlog.specs.Header.{header_length, IsFramed};
ghost use Rattle.binlog.specs.EventType as type_code;
ghost use Rattle.binlog.specs.Filter.{is_read};
ghost use Rattle.binlog.specs.Event.{EventValue, HasBody, IsEvent, type_fault, table_map_fault, body_fault, event_fault, gtid};
ghost use Rattle.binlog.specs.EventView.{event_value, filter_of};
ghost use Rattle.binlog.specs.Writing.{IsWritable, event_code, event_body, event_bytes};
ghost use Rattle.gtid.specs.Appending.{AppendsBytes};
ghost use Rattle.binlog.specs.declared.fault.EventFaultKind.TheVariants.{Memory};

use crate::body::format::{FORMAT, read_format, write_format};
use crate::body::gtid_event::{GTID_LENGTH, gtid_fits, read_gtid, write_gtid};
use crate::body::query::{Query, query_length, read_query, write_query};
use crate::body::rotate::{read_rotate, rotate_fits, write_rotate};
use crate::body::rows::{read_rows, rows_event_fits, rows_event_length, write_rows_event};
use crate::body::rows_event::{RowsEvent, RowsKind};
use crate::body::table_map::{TableMap, map_fits, map_length, read_names, write_table_map};
use crate::body::xid::{read_xid, write_xid, xid_fits};
use crate::column::list::read_columns;
use crate::event_type;
use crate::fault::{EventFault, EventFaultKind};
use crate::filter::Follow;
use crate::header::{HEADER_LENGTH, Header, header_bytes};
use gtid::Gtid;

/// An event of the binary log. It borrows from the bytes that it was read from.
#[derive(Debug, Drop)]
pub enum Event<'a> {
    /// FORMAT_DESCRIPTION: the format of the events that follow it.
    Format,
    /// QUERY with the text `BEGIN`: the beginning of a transaction's changes.
    Begin,
    /// QUERY with the text `COMMIT`: the end of a transaction on tables of a non-transactional storage engine.
    Commit,
    /// An event without changes, whose body is ignored: HEARTBEAT, IGNORABLE, ROWS_QUERY, PREVIOUS_GTIDS, or one of an
    /// unknown type whose header has the flag LOG_EVENT_IGNORABLE_F.
    Neutral,
    /// STOP: the end of a log file, since the server was shut down.
    Stop,
    /// ROTATE: the name of the next log file, and the position of its first event.
    Rotate { position: u64, name: &'a [u8] },
    /// GTID: the GTID of the transaction that begins.
    Gtid(Gtid),
    /// TABLE_MAP: which table the following rows events mean by a number.
    TableMap(TableMap<'a>),
    /// A table map of a table that is not followed. Only the table's number is kept.
    OtherMap { id: u64 },
    /// WRITE_ROWS, UPDATE_ROWS or DELETE_ROWS: changes of rows.
    Rows(RowsEvent<'a>),
    /// XID: the end of a transaction.
    Xid { number: u64 },
}

/// Reads an event.
///
/// The first of these is reported: what is wrong with the header, as [`Header::read`] says; a transaction without a
/// GTID as `Anonymous`, or a type that is not supported as `TypeCode`; what is wrong with the body. Fields are checked
/// from left to right; one that does not fit is `Truncated`.
///
/// Clauses:
/// - `found`, `only`, `fault`: the event that the bytes are, exactly where they are one; otherwise the first refusal,
///   with its kind and its place. No memory is taken
pub fn read_event(bytes: &[u8]) -> Result<Event<'_>, EventFault>
    ensures found { IfOk result (λ event. IsEvent set.empty (event_value event) bytes.now) }
    ensures only { (e : EventValue) → IsEvent set.empty e bytes.now
        → MatchResult result (λ event. event_value event ≡ e) (λ _. ⊥) }
    ensures fault { IfErr result (λ fault. event_fault set.empty bytes.now ≡ Some fault) }
{
    read(bytes, None)
}

/// Like [`read_event`], with a list of tables: a table map of a table that the list does not read ([`Follow::reads`])
/// is not read after its names, and is answered as [`Event::OtherMap`]. An empty list means all tables.
///
/// Clauses: as [`read_event`]
pub fn read_event_only<'a>(bytes: &'a [u8], filter: &Follow) -> Result<Event<'a>, EventFault>
    ensures found { IfOk result (λ event. IsEvent filter.now (event_value event) bytes.now) }
    ensures only { (e : EventValue) → IsEvent filter.now e bytes.now
        → MatchResult result (λ event. event_value event ≡ e) (λ _. ⊥) }
    ensures fault { IfErr result (λ fault. event_fault filter.now bytes.now ≡ Some fault) }
{
    read(bytes, Some(filter))
}

/// Reads an event. Without a filter all tables are followed.
fn read<'a>(bytes: &'a [u8], filter: Option<&Follow>) -> Result<Event<'a>, EventFault>
    ensures found { IfOk result (λ event. IsEvent (filter_of filter.entry)
        (event_value event) bytes.now) }
    ensures only { (e : EventValue) → IsEvent (filter_of filter.entry) e bytes.now
        → MatchResult result (λ event. event_value event ≡ e) (λ _. ⊥) }
    ensures fault { IfErr result (λ fault. event_fault (filter_of filter.entry) bytes.now
        ≡ Some fault) }
{
    match Header::read(bytes) {
        Ok(header) => read_body(header, bytes, filter),
        Err(fault) => Err(fault),
    }
}

/// Reads the body of an event.
#[tactic(auto, unfolding(crate::specs::Event::body_fault))]
fn read_body<'a>(
    header: Header,
    bytes: &'a [u8],
    filter: Option<&Follow>,
) -> Result<Event<'a>, EventFault>
    requires { IsFramed header.code header.may_ignore (drop header_length bytes.now) bytes.now }
    ensures found { IfOk result (λ event. HasBody (filter_of filter.entry)
        (event_value event) header.code header.may_ignore (drop header_length bytes.now)) }
    ensures fault { IfErr result (λ fault. first_of
        (type_fault header.code header.may_ignore ∷ body_fault
        (filter_of filter.entry) header.code bytes.now ∷ []) ≡ Some fault) }
{
    match header.code {
        event_type::QUERY => match read_query(bytes)? {
            Query::Begin => Ok(Event::Begin),
            Query::Commit => Ok(Event::Commit),
        },
        event_type::STOP => Ok(Event::Stop),
        event_type::ROTATE => {
            let (position, name) = read_rotate(bytes)?;
            Ok(Event::Rotate { position, name })
        }
        event_type::FORMAT_DESCRIPTION => {
            read_format(bytes)?;
            Ok(Event::Format)
        }
        event_type::XID => {
            let number = read_xid(bytes)?;
            Ok(Event::Xid { number })
        }
        event_type::TABLE_MAP => read_map(header, bytes, filter),
        event_type::HEARTBEAT
        | event_type::IGNORABLE
        | event_type::ROWS_QUERY
        | event_type::PREVIOUS_GTIDS => Ok(Event::Neutral),
        event_type::WRITE_ROWS => Ok(Event::Rows(read_rows(RowsKind::Write, bytes)?)),
        event_type::UPDATE_ROWS => Ok(Event::Rows(read_rows(RowsKind::Update, bytes)?)),
        event_type::DELETE_ROWS => Ok(Event::Rows(read_rows(RowsKind::Delete, bytes)?)),
        event_type::GTID => Ok(Event::Gtid(read_gtid(bytes)?)),
        event_type::ANONYMOUS_GTID => Err(EventFault::new(EventFaultKind::Anonymous, 4)),
        event_type::XA_PREPARE
        | event_type::PARTIAL_UPDATE_ROWS
        | event_type::TRANSACTION_PAYLOAD => Err(EventFault::new(
            EventFaultKind::TypeCode(header.code),
            4,
        )),
        _ if header.may_ignore => Ok(Event::Neutral),
        _ => Err(EventFault::new(EventFaultKind::TypeCode(header.code), 4)),
    }
}

/// Reads a table map; of a table that is not followed, only its number and its names.
#[tactic(auto, unfolding(crate::specs::Event::table_map_fault))]
fn read_map<'a>(
    header: Header,
    bytes: &'a [u8],
    filter: Option<&Follow>,
) -> Result<Event<'a>, EventFault>
    requires { header.code ≡ type_code.table_map }
    ensures found { IfOk result (λ event. HasBody (filter_of filter.entry)
        (event_value event) header.code header.may_ignore (drop header_length bytes.now)) }
    ensures fault { IfErr result (λ fault. table_map_fault (filter_of filter.entry) bytes.now
        ≡ Some fault) }
{
    let names = read_names(bytes)?;
    if !is_read(filter, names.schema, names.table) {
        return Ok(Event::OtherMap { id: names.id });
    }
    let columns = read_columns(bytes, names.end)?;
    Ok(Event::TableMap(TableMap {
        id: names.id,
        schema: names.schema,
        table: names.table,
        types: columns,
    }))
}

/// Whether a filter reads a table. Without one, all tables are read.
fn is_read(filter: Option<&Follow>, schema: &[u8], table: &[u8]) -> bool
    ensures { result ≡ is_read (filter_of filter.entry) schema.now table.now }
{
    match filter {
        Some(filter) => filter.reads(schema, table),
        None => true,
    }
}

impl Event<'_> {
    /// Whether the event can be written, for a reader that follows all tables: its names, numbers and size fit their
    /// fields. [`Event::OtherMap`] cannot. It takes no memory.
    pub fn fits(&self) -> bool
        ensures { IsTrue result ↔ IsWritable (event_value self.now) }
    {
        match self {
            Event::Format => true,
            Event::Begin => true,
            Event::Commit => true,
            Event::Neutral => true,
            Event::Stop => true,
            Event::Rotate { position, name } => rotate_fits(*position, name),
            Event::Gtid(gtid) => gtid_fits(*gtid),
            Event::TableMap(map) => map_fits(map),
            Event::OtherMap { .. } => false,
            Event::Rows(rows) => rows_event_fits(rows),
            Event::Xid { number } => xid_fits(*number),
        }
    }

    /// Appends the event. The fields that a reader ignores are fixed: time 0, server 1, next position 0 and no flags. A
    /// neutral event is written as IGNORABLE without a body.
    ///
    /// Clauses:
    /// - `ok`, `err`, `full`: the one spelling of the value is appended; an error, only without room, leaves the vector
    ///   as it was
    #[tactic(auto, using(crate::proofs::EventBytes::writable_short))]
    pub fn write(&self, out: &mut Vec<u8>) -> Result<(), EventFault>
        requires { IsWritable (event_value self.now) }
        ensures ok { OnOk result (out.new.items ≡ out.old.items ++ event_bytes
            (event_value self.now)) }
        ensures err { OnErr result ((result ≡ Err (record { kind = Memory; at = 0 }))
            × (out.new.items ≡ out.old.items)) }
        ensures full { OnErr result (vec_capacity out.old
            < vec_len out.old + length (event_bytes (event_value self.now))) }
    {
        let size = HEADER_LENGTH + body_length(self);
        out.reserve(size)?;
        out.extend_from_slice(&header_bytes(event_code(self), size as u32))
            .unwrap();
        write_body(self, out);
        Ok(())
    }
}

/// The type of an event.
fn event_code(event: &Event<'_>) -> u8
    ensures { result ≡ event_code (event_value event.now) }
{
    match event {
        Event::Format => event_type::FORMAT_DESCRIPTION,
        Event::Begin => event_type::QUERY,
        Event::Commit => event_type::QUERY,
        Event::Neutral => event_type::IGNORABLE,
        Event::Stop => event_type::STOP,
        Event::Rotate { .. } => event_type::ROTATE,
        Event::Gtid(_) => event_type::GTID,
        Event::TableMap(_) => event_type::TABLE_MAP,
        Event::OtherMap { .. } => event_type::TABLE_MAP,
        Event::Rows(rows) => rows.kind.code(),
        Event::Xid { .. } => event_type::XID,
    }
}

/// How many bytes the body of an event takes.
fn body_length(event: &Event<'_>) -> usize
    requires { IsWritable (event_value event.now) }
    ensures { result ≡ length (event_body (event_value event.now)) }
{
    match event {
        Event::Format => FORMAT.len(),
        Event::Begin => query_length(Query::Begin),
        Event::Commit => query_length(Query::Commit),
        Event::Neutral => 0,
        Event::Stop => 0,
        Event::Rotate { name, .. } => 8 + name.len(),
        Event::Gtid(_) => GTID_LENGTH,
        Event::TableMap(map) => map_length(map),
        Event::OtherMap { .. } => 0,
        Event::Rows(rows) => rows_event_length(rows),
        Event::Xid { .. } => 8,
    }
}

/// Appends the body of an event.
fn write_body(event: &Event<'_>, out: &mut Vec<u8>)
    requires writable { IsWritable (event_value event.now) }
    requires room { vec_len out.old + length (event_body (event_value event.now))
        ≤ vec_capacity out.old }
    ensures { AppendsBytes out.old out.new (event_body (event_value event.now)) }
{
    match event {
        Event::Format => write_format(out),
        Event::Begin => write_query(Query::Begin, out),
        Event::Commit => write_query(Query::Commit, out),
        Event::Neutral => {}
        Event::Stop => {}
        Event::Rotate { position, name } => write_rotate(*position, name, out),
        Event::Gtid(gtid) => write_gtid(*gtid, out),
        Event::TableMap(map) => write_table_map(map, out),
        Event::OtherMap { .. } => {}
        Event::Rows(rows) => write_rows_event(rows, out),
        Event::Xid { number } => write_xid(*number, out),
    }
}
