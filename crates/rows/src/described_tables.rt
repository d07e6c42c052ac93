//! Described tables, which are found by their names.

ghost use Rattle.std.specs.Prelude.{◌≡◌, None, IfSome, IfNone, IsPermutation, true, find};
ghost use Rattle.std.specs.Option.{option_copied};
ghost use Rattle.rows.specs.DescribedTables.{is_named, IsOfName};

use binlog::Follow;
use columns::{DescribedTable, Description};
use std::cmp::Ordering;

/// Described tables, which are found by their names.
#[derive(Drop)]
pub struct DescribedTables {
    /// In the order of the names of their schemas and their own.
    tables: Vec<DescribedTable>,
}

impl DescribedTables {
    /// The tables of the description, in some order.
    ///
    /// Clauses: the above.
    pub fn new(description: Description) -> DescribedTables
        ensures { IsPermutation description.tables.items result.tables.items }
    {
        let Description { mut tables } = description;
        tables.sort_unstable_by(compare);
        DescribedTables { tables }
    }

    /// Keeps the tables that are named, or all if none is; of a schema alone if one is given.
    pub fn keep(&mut self, only: &Follow, schema: Option<&[u8]>) {
        self.tables.retain(|table| {
            let of = table.schema.as_bytes();
            only.follows(of, table.name.as_bytes()) && schema.is_none_or(|wanted| wanted == of)
        });
    }

    /// The tables, in the order of the names of their schemas and their own.
    pub fn all(&self) -> &[DescribedTable]
        ensures { result.now ≡ self.now.tables.items }
    {
        &self.tables
    }

    /// The table of this name in this schema, if it is described. One that is not is looked for in all of them.
    ///
    /// Clauses:
    /// - `found`, `none`: a table of this schema and this name; none exactly where none of them has these names
    pub fn find(&self, schema: &[u8], table: &[u8]) -> Option<&DescribedTable>
        ensures found { IfSome result (λ found. IsOfName schema.now table.now found.now) }
        ensures none { IfNone result (find (is_named schema.now table.now) self.now.tables.items
            ≡ None) }
    {
        let place = self
            .tables
            .binary_search_by(|described| compare_names(described, schema, table));
        if let Ok(at) = place
            && let Some(described) = self.tables.get(at)
            && is_named(described, schema, table)
        {
            return Some(described);
        }
        match search(&self.tables, schema, table) {
            Some(described) if is_named(described, schema, table) => Some(described),
            Some(_) => unreachable!(),
            None => None,
        }
    }
}

/// Finds described tables. Rows of a table come one after the other, so it looks first whether the table is the last one again.
#[derive(Drop)]
pub struct LastTable<'d> {
    tables: &'d DescribedTables,
    last: Option<&'d DescribedTable>,
}

impl<'d> LastTable<'d> {
    /// None of these tables was found yet.
    pub fn new(tables: &'d DescribedTables) -> LastTable<'d> {
        LastTable { tables, last: None }
    }

    /// The table of this name in this schema, if it is described.
    pub fn find(&mut self, schema: &[u8], table: &[u8]) -> Option<&'d DescribedTable> {
        if let Some(last) = self.last
            && last.name.as_bytes() == table
            && last.schema.as_bytes() == schema
        {
            return Some(last);
        }
        let found = self.tables.find(schema, table)?;
        self.last = Some(found);
        Some(found)
    }
}

/// The first of these tables that has these names.
fn search<'t>(
    tables: &'t [DescribedTable],
    schema: &[u8],
    table: &[u8],
) -> Option<&'t DescribedTable>
    ensures first { option_copied result ≡ find (is_named schema.now table.now) tables.now }
    ensures found { IfSome result (λ found. is_named schema.now table.now found.now ≡ true) }
{
    tables.iter().find(|described| described.schema.as_bytes() == schema
        && described.name.as_bytes() == table)
}

/// Whether a table has these names.
fn is_named(described: &DescribedTable, schema: &[u8], table: &[u8]) -> bool
    ensures value { result ≡ is_named schema.now table.now described.now }
    ensures names { result ≡ true → IsOfName schema.now table.now described.now }
{
    described.schema.as_bytes() == schema && described.name.as_bytes() == table
}

/// How the names of a table compare with these.
fn compare_names(described: &DescribedTable, schema: &[u8], table: &[u8]) -> Ordering {
    match described.schema.as_bytes().cmp(schema) {
        Ordering::Equal => described.name.as_bytes().cmp(table),
        unlike => unlike,
    }
}

/// How the names of two tables compare.
fn compare(one: &DescribedTable, other: &DescribedTable) -> Ordering {
    compare_names(one, other.schema.as_bytes(), other.name.as_bytes())
}
