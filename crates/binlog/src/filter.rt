//! The filter of tables: which tables are followed. Its public name is [`Follow`].

ghost use Rattle.std.specs.Prelude.{◌≡◌, ◌↔◌, false, IsTrue, IfOk, IfErr};
ghost use Rattle.std.specs.FinSet as set;
ghost use Rattle.std.specs.List.Sorted.{IsStrictlySortedBy};
ghost use Rattle.binlog.specs.Filter.{name_cmp, admits, is_named_in, AreAmong};
ghost use Rattle.binlog.specs.FilterView.{name_list};
ghost use Rattle.binlog.specs.declared.fault.EventFaultKind.TheVariants.{Memory};

use crate::fault::EventFault;
use std::alloc::Global;
use std::cmp::Ordering;
use std::marker::Model;

/// The tables that are followed, by schema and name: those of a list, or all tables if the list is empty.
///
/// It keeps each name once, in the order of the schema's bytes and then of the table's. In contracts it is the set of
/// names.
#[derive(Debug, Drop)]
pub struct Follow {
    names: Vec<(Vec<u8>, Vec<u8>)>,
}

impl Model for Follow {
    ghost use Rattle.binlog.specs.Filter.{Names, names_code};

    ghost Value = { Names };

    ghost coded = { names_code };

    ghost use Rattle.std.specs.FinSet as set;
    ghost use Rattle.binlog.specs.FilterView.{name_list};

    ghost view = { λ f. set.from_list (name_list f.names.items) };

    ghost use Rattle.std.specs.List.Sorted.{IsStrictlySortedBy};
    ghost use Rattle.binlog.specs.Filter.{name_cmp};

    ghost invariant = { λ f. IsStrictlySortedBy name_cmp (name_list f.names.items) };
}

impl Follow {
    /// The empty list: all tables are followed.
    pub fn all(alloc: Global) -> Follow
        ensures { result ≡ set.empty }
    {
        Follow {
            names: Vec::new(alloc),
        }
    }

    /// The tables of a list, each a schema and a name. Duplicates count once, and an empty list means all tables.
    ///
    /// Clauses:
    /// - `ok`, `err`: the set of the list; the only error is `Memory`
    pub fn new(alloc: Global, names: &[(Vec<u8>, Vec<u8>)]) -> Result<Follow, EventFault>
        ensures ok { IfOk result (λ follow. follow ≡ set.from_list (name_list names.now)) }
        ensures err { IfErr result (λ fault. fault ≡ record { kind = Memory; at = 0 }) }
    {
        let mut names = copy_all(alloc, names)?;
        names.sort_unstable();
        names.dedup();
        Ok(Follow { names })
    }

    /// The names, each once and in ascending order by the bytes of the schema and then of the table; none if all tables
    /// are followed.
    ///
    /// Clauses: `ascend`, `set`: the above.
    pub fn names(&self) -> &[(Vec<u8>, Vec<u8>)]
        ensures ascend { IsStrictlySortedBy name_cmp (name_list result.now) }
        ensures set { set.from_list (name_list result.now) ≡ self.now }
    {
        &self.names
    }

    /// Whether two lists have the same names. It takes no memory.
    pub fn is_same(&self, other: &Follow) -> bool
        ensures { IsTrue result ↔ (self.now ≡ other.now) }
    {
        if !are_among(&self.names, &other.names) {
            return false;
        }
        are_among(&other.names, &self.names)
    }

    /// Whether a table is followed.
    ///
    /// It takes no memory.
    ///
    /// Clauses: the above.
    pub fn follows(&self, schema: &[u8], table: &[u8]) -> bool
        ensures { result ≡ admits self.now schema.now table.now }
    {
        let names = self.names.as_slice();
        names.is_empty() || is_listed(names, schema, table)
    }
}

/// A copy of the names. The only error is `Memory`.
fn copy_all(
    alloc: Global,
    names: &[(Vec<u8>, Vec<u8>)],
) -> Result<Vec<(Vec<u8>, Vec<u8>)>, EventFault>
    ensures ok { IfOk result (λ copied. name_list copied.items ≡ name_list names.now) }
    ensures err { IfErr result (λ fault. fault ≡ record { kind = Memory; at = 0 }) }
{
    let mut copied = Vec::new(alloc);
    copied.try_reserve(names.len())?;
    for name in names {
        copied.push(copy(name)?)?;
    }
    Ok(copied)
}

/// A copy of a name. The only error is `Memory`.
fn copy(name: &(Vec<u8>, Vec<u8>)) -> Result<(Vec<u8>, Vec<u8>), EventFault>
    ensures schema { IfOk result (λ copied. copied.0.items ≡ name.now.0.items) }
    ensures table { IfOk result (λ copied. copied.1.items ≡ name.now.1.items) }
    ensures err { IfErr result (λ fault. fault ≡ record { kind = Memory; at = 0 }) }
{
    Ok((name.0.clone()?, name.1.clone()?))
}

/// Whether each of the names is one of the list's.
fn are_among(names: &[(Vec<u8>, Vec<u8>)], of: &[(Vec<u8>, Vec<u8>)]) -> bool
    requires { IsStrictlySortedBy name_cmp (name_list of.now) }
    ensures all { IsTrue result → AreAmong (name_list names.now) (name_list of.now) }
    ensures some { result ≡ false → ¬ AreAmong (name_list names.now) (name_list of.now) }
{
    for name in names {
        if !is_listed(of, &name.0, &name.1) {
            return false;
        }
    }
    true
}

/// Whether a table is in the list, by binary search.
fn is_listed(names: &[(Vec<u8>, Vec<u8>)], schema: &[u8], table: &[u8]) -> bool
    requires { IsStrictlySortedBy name_cmp (name_list names.now) }
    ensures { result ≡ is_named_in (schema.now, table.now) (name_list names.now) }
{
    names
        .binary_search_by(|name| compare(name, schema, table))
        .is_ok()
}

/// How a name compares with this table's.
fn compare(name: &(Vec<u8>, Vec<u8>), schema: &[u8], table: &[u8]) -> Ordering
    ensures { result ≡ name_cmp (name.now.0.items, name.now.1.items) (schema.now, table.now) }
{
    match name.0.as_slice().cmp(schema) {
        Ordering::Equal => name.1.as_slice().cmp(table),
        unlike => unlike,
    }
}
