//! QUERY: a statement. MySQL Source Documentation, "Binlog Event", the page `binary_log::Query_event`.

ghost use Rattle.std.specs.Prelude.{◌≡◌, ◌≤◌, length, drop, IfOk, IfErr, Ok, Some, ◌+◌, vec_len, vec_capacity};
ghost use Rattle.binlog.specs.Header.{header_length};
ghost use Rattle.binlog.specs.declared.body.query.Query.{Query};
ghost use Rattle.binlog.specs.Body.{IsQuery, query_fault, statement, text_place};
ghost use Rattle.binlog.specs.Writing.{query_body};
ghost use Rattle.gtid.specs.Appending.{AppendsBytes};

use crate::fault::{EventFault, EventFaultKind};
use byteorder::{ByteOrder, LittleEndian};

/// A statement that is supported.
#[derive(Clone, Copy, Debug, PartialEq, Eq)]
pub(crate) enum Query {
    Begin,
    Commit,
}

const BEGIN: &[u8] = b"BEGIN";

const COMMIT: &[u8] = b"COMMIT";

/// Reads a QUERY event whose text is `BEGIN` or `COMMIT`.
#[tactic(auto, unfolding(crate::specs::Body::query_fault))]
pub(crate) fn read_query(bytes: &[u8]) -> Result<Query, EventFault>
    ensures found { IfOk result (λ query. IsQuery (statement query)
        (drop header_length bytes.now)) }
    ensures only { (query : Query) → IsQuery (statement query) (drop header_length bytes.now)
        → result ≡ Ok query }
    ensures fault { IfErr result (λ fault. query_fault bytes.now ≡ Some fault) }
{
    let text = read_text(bytes)?;
    let statement = &bytes[text..];
    if statement == BEGIN {
        return Ok(Query::Begin);
    }
    if statement == COMMIT {
        return Ok(Query::Commit);
    }
    Err(EventFault::new(EventFaultKind::Statement, text))
}

/// The offset at which the text of a QUERY event begins.
#[tactic(auto, unfolding(crate::specs::Body::query_fault))]
fn read_text(bytes: &[u8]) -> Result<usize, EventFault>
    ensures place { IfOk result (λ text. text ≡ text_place bytes.now) }
    ensures within { IfOk result (λ text. text ≤ length bytes.now) }
    ensures fault { IfErr result (λ fault. query_fault bytes.now ≡ Some fault) }
{
    match bytes.len() {
        0..23 => return Err(EventFault::truncated(19)),
        23..27 => return Err(EventFault::truncated(23)),
        27 => return Err(EventFault::truncated(27)),
        28..30 => return Err(EventFault::truncated(28)),
        30..32 => return Err(EventFault::truncated(30)),
        _ => {}
    }
    let schema_size = usize::from(bytes[27]);
    let status_size = usize::from(LittleEndian::read_u16(&bytes[30..]));
    let schema = 32 + status_size;
    if bytes.len() < schema {
        return Err(EventFault::truncated(32));
    }
    let terminator = schema + schema_size;
    if bytes.len() < terminator {
        return Err(EventFault::truncated(schema));
    }
    if bytes.len() == terminator {
        return Err(EventFault::truncated(terminator));
    }
    Ok(terminator + 1)
}

/// What is written before a statement's text: zero for thread, time, schema, error and status, and no schema's name.
const FRONT: &[u8] = &[0; 14];

/// How many bytes the body of a QUERY event with this text takes.
pub(crate) fn query_length(query: Query) -> usize
    ensures { result ≡ length (query_body (statement query)) }
{
    match query {
        Query::Begin => FRONT.len() + BEGIN.len(),
        Query::Commit => FRONT.len() + COMMIT.len(),
    }
}

/// Appends the body of a QUERY event with this text.
pub(crate) fn write_query(query: Query, out: &mut Vec<u8>)
    requires { vec_len out.old + length (query_body (statement query)) ≤ vec_capacity out.old }
    ensures { AppendsBytes out.old out.new (query_body (statement query)) }
{
    out.extend_from_slice(FRONT).unwrap();
    match query {
        Query::Begin => out.extend_from_slice(BEGIN).unwrap(),
        Query::Commit => out.extend_from_slice(COMMIT).unwrap(),
    }
}
