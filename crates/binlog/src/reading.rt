//! Tables that are read and whose rows are not kept.
//!
//! A filter is a list of names, which a database has in its table `follow`. A name that no table can have, since its schema
//! is too long, stands for tables that are read, and of which no row is kept: one of them, all of a schema, or all. A program
//! that does not know such names keeps no row of any table, and reads none.

ghost use Rattle.std.specs.Prelude.{◌≡◌, ◌⊎◌, ◌<◌, ◌++◌, ℕ, List, length, true, false, IfOk, IfErr, IfSome, None};
ghost use Rattle.std.specs.FinSet as set;
ghost use Rattle.std.specs.Str.{bytes_eq};
ghost use Rattle.std.specs.Cmp.Lexicographic.{slice_cmp};
ghost use Rattle.std.specs.Ordering.{nat_cmp};
ghost use Rattle.std.specs.List.Sorted.{IsStrictlySortedBy};
ghost use Rattle.binlog.specs.Filter.{name_cmp, is_named_in, admits, is_read, is_meant, is_asked, unkept_name, unkept, star, IsMeantBy};
ghost use Rattle.binlog.specs.FilterView.{name_list};
ghost use Rattle.binlog.specs.declared.fault.EventFaultKind.TheVariants.{Memory};

use crate::fault::EventFault;
use crate::filter::Follow;
use std::alloc::Global;
use std::cmp::Ordering;

/// How many bytes the schema of a name has at least that means tables which are read and not kept, and of no other name.
const MARKED: usize = 256;

/// What the schema of a name begins with that means tables which are read and not kept. Each text has 256 bytes, and a table
/// map says in one byte how long a schema is, so no table has such a name.
const READ_TABLE: &[u8] =
    b"mrep reads a table and keeps no row of it: its schema is what follows these 256 bytes, its name the other name. No table of a server has a name as long as this one. -------------------------------------------------------------------------------------------";

const READ_SCHEMA: &[u8] =
    b"mrep reads all tables of a schema and keeps no row of them: the schema is what follows these 256 bytes. No table of a server has a name as long as this one. ---------------------------------------------------------------------------------------------------";

const READ_ALL: &[u8] =
    b"mrep reads all tables and keeps no row of them. No table of a server has a name as long as this one. -----------------------------------------------------------------------------------------------------------------------------------------------------------";

const NOTHING: &[u8] = b"";

/// The name that means all tables of a schema, where tables are named that are read and not kept.
const STAR: &[u8] = b"*";

impl Follow {
    /// A filter of tables that are read, and none that is kept: the tables of a list, each a schema and a name, of
    /// which `*` means all tables of the schema; an empty list means all tables.
    ///
    /// Clauses:
    /// - `reads`, `keeps`, `err`: it reads what is asked for, and admits no table with a schema of less than 256 bytes,
    ///   which are all; the only error is `Memory`
    pub fn not_kept(alloc: Global, names: &[(Vec<u8>, Vec<u8>)]) -> Result<Follow, EventFault>
        ensures reads { IfOk result (λ follow. (schema table : List ℕ) → length schema < 256
            → is_read follow schema table ≡ is_asked (name_list names.now) schema table) }
        ensures keeps { IfOk result (λ follow. (schema table : List ℕ) → length schema < 256
            → admits follow schema table ≡ false) }
        ensures err { IfErr result (λ fault. fault ≡ record { kind = Memory; at = 0 }) }
    {
        let unkept = mark_all(alloc, names)?;
        Follow::new(alloc, &unkept)
    }

    /// Whether rows of some table are kept. It takes no memory.
    ///
    /// Clauses:
    /// - `none`, `some`: whether it admits a table with a schema of less than 256 bytes
    pub fn keeps_rows(&self) -> bool
        ensures none { result ≡ false → (schema table : List ℕ) → length schema < 256
            → admits self.now schema table ≡ false }
        ensures some { result ≡ true → (set.is_subset self.now set.empty ≡ true)
            ⊎ ((schema table : List ℕ) × (length schema < 256)
            × (set.contains self.now (schema, table) ≡ true)) }
    {
        let names = self.names();
        if names.is_empty() {
            return true;
        }
        has_short(names)
    }

    /// Whether the changes of a table are read: it is kept, or a name of the list means it as one that is read and not
    /// kept (`is_read`).
    ///
    /// It takes no memory.
    ///
    /// Clauses: the above.
    pub fn reads(&self, schema: &[u8], table: &[u8]) -> bool
        ensures { result ≡ is_read self.now schema.now table.now }
    {
        if self.follows(schema, table) {
            return true;
        }
        means(self.names(), schema, table)
    }
}

/// Whether one of the names means this table, as one that is read and not kept.
fn means(names: &[(Vec<u8>, Vec<u8>)], schema: &[u8], table: &[u8]) -> bool
    requires { IsStrictlySortedBy name_cmp (name_list names.now) }
    ensures { result ≡ is_meant (name_list names.now) schema.now table.now }
{
    if is_listed_after(names, READ_TABLE, schema, table) {
        return true;
    }
    if is_listed_after(names, READ_SCHEMA, schema, NOTHING) {
        return true;
    }
    is_listed_after(names, READ_ALL, NOTHING, NOTHING)
}

/// Whether a table is in the list whose schema is made of two parts, by binary search.
fn is_listed_after(names: &[(Vec<u8>, Vec<u8>)], lead: &[u8], schema: &[u8], table: &[u8]) -> bool
    requires { IsStrictlySortedBy name_cmp (name_list names.now) }
    ensures { result ≡ is_named_in (lead.now ++ schema.now, table.now) (name_list names.now) }
{
    names
        .binary_search_by(|name| compare_after(name, lead, schema, table))
        .is_ok()
}

/// How a name compares with that of a table whose schema is made of two parts.
fn compare_after(name: &(Vec<u8>, Vec<u8>), lead: &[u8], schema: &[u8], table: &[u8]) -> Ordering
    ensures { result ≡ name_cmp (name.now.0.items, name.now.1.items)
        (lead.now ++ schema.now, table.now) }
{
    match compare_joined(&name.0, lead, schema) {
        Ordering::Equal => name.1.as_slice().cmp(table),
        unlike => unlike,
    }
}

/// How bytes compare with two parts that follow each other.
fn compare_joined(bytes: &[u8], first: &[u8], second: &[u8]) -> Ordering
    ensures { result ≡ slice_cmp nat_cmp bytes.now (first.now ++ second.now) }
{
    if bytes.len() < first.len() {
        return bytes.cmp(first);
    }
    let (front, back) = bytes.split_at(first.len());
    match front.cmp(first) {
        Ordering::Equal => back.cmp(second),
        unlike => unlike,
    }
}

/// The schema and the name of what a name of a filter means, if its tables are read and not kept: `*` stands for each
/// name, and for each schema.
///
/// Clauses:
/// - `some`, `none`: what such a name means, exactly where it means something
pub fn meant(name: &(Vec<u8>, Vec<u8>)) -> Option<(&[u8], &[u8])>
    ensures some { IfSome result (λ m. IsMeantBy (m.0.now, m.1.now)
        (name.now.0.items, name.now.1.items)) }
    ensures none { result ≡ None → (schema table : List ℕ)
        → IsMeantBy (schema, table) (name.now.0.items, name.now.1.items) → ⊥ }
{
    let (schema, table) = (name.0.as_slice(), name.1.as_slice());
    if let Some(schema) = after(schema, READ_TABLE) {
        return if is_star(table) {
            None
        } else {
            Some((schema, table))
        };
    }
    if !table.is_empty() {
        return None;
    }
    if let Some(schema) = after(schema, READ_SCHEMA) {
        return Some((schema, STAR));
    }
    match after(schema, READ_ALL) {
        Some(nothing) if nothing.is_empty() => Some((STAR, STAR)),
        _ => None,
    }
}

/// The bytes that follow these, if they begin so.
fn after<'a>(bytes: &'a [u8], lead: &[u8]) -> Option<&'a [u8]>
    ensures some { IfSome result (λ rest. bytes.now ≡ lead.now ++ rest.now) }
    ensures none { result ≡ None → (rest : List ℕ) → bytes.now ≡ lead.now ++ rest → ⊥ }
{
    if bytes.len() < lead.len() {
        return None;
    }
    let (front, rest) = bytes.split_at(lead.len());
    if is_same(front, lead) {
        Some(rest)
    } else {
        None
    }
}

/// Whether the bytes are the same.
fn is_same(bytes: &[u8], others: &[u8]) -> bool
    ensures { result ≡ bytes_eq bytes.now others.now }
{
    bytes == others
}

/// Whether one of the names may be that of a table.
fn has_short(names: &[(Vec<u8>, Vec<u8>)]) -> bool
    ensures none { result ≡ false → (schema table : List ℕ) → length schema < 256
        → is_named_in (schema, table) (name_list names.now) ≡ false }
    ensures some { result ≡ true → (schema table : List ℕ) × (length schema < 256)
        × (is_named_in (schema, table) (name_list names.now) ≡ true) }
{
    for name in names {
        let schema = name.0.as_slice();
        if schema.len() < MARKED {
            return true;
        }
    }
    false
}

/// The names that mean these tables as read and not kept. The only error is `Memory`.
fn mark_all(
    alloc: Global,
    names: &[(Vec<u8>, Vec<u8>)],
) -> Result<Vec<(Vec<u8>, Vec<u8>)>, EventFault>
    ensures ok { IfOk result (λ all. name_list all.items ≡ unkept (name_list names.now)) }
    ensures err { IfErr result (λ fault. fault ≡ record { kind = Memory; at = 0 }) }
{
    let mut all = Vec::new(alloc);
    if names.is_empty() {
        all.push((joined(alloc, READ_ALL, NOTHING)?, Vec::new(alloc)))?;
        return Ok(all);
    }
    all.try_reserve(names.len())?;
    for name in names {
        all.push(mark(alloc, name)?)?;
    }
    Ok(all)
}

/// The name that means this table, or all of its schema, as read and not kept. The only error is `Memory`.
fn mark(alloc: Global, name: &(Vec<u8>, Vec<u8>)) -> Result<(Vec<u8>, Vec<u8>), EventFault>
    ensures ok { IfOk result (λ is. (is.0.items, is.1.items)
        ≡ unkept_name (name.now.0.items, name.now.1.items)) }
    ensures err { IfErr result (λ fault. fault ≡ record { kind = Memory; at = 0 }) }
{
    if is_star(&name.1) {
        return Ok((joined(alloc, READ_SCHEMA, &name.0)?, Vec::new(alloc)));
    }
    Ok((joined(alloc, READ_TABLE, &name.0)?, copied(&name.1)?))
}

/// Whether a name means all tables of its schema.
fn is_star(table: &[u8]) -> bool
    ensures { result ≡ bytes_eq table.now star }
{
    table == STAR
}

/// A copy of bytes. The only error is `Memory`.
fn copied(bytes: &Vec<u8>) -> Result<Vec<u8>, EventFault>
    ensures ok { IfOk result (λ copied. copied.items ≡ bytes.now.items) }
    ensures err { IfErr result (λ fault. fault ≡ record { kind = Memory; at = 0 }) }
{
    Ok(bytes.clone()?)
}

/// Two parts, one after the other. The only error is `Memory`.
fn joined(alloc: Global, first: &[u8], second: &[u8]) -> Result<Vec<u8>, EventFault>
    ensures ok { IfOk result (λ both. both.items ≡ first.now ++ second.now) }
    ensures err { IfErr result (λ fault. fault ≡ record { kind = Memory; at = 0 }) }
{
    let mut both = Vec::with_capacity(alloc, first.len())?;
    both.extend_from_slice(first)?;
    both.extend_from_slice(second)?;
    Ok(both)
}
