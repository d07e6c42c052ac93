//! What is wrong with the tables of a database that an opening reports as damaged.
//!
//! Loops over rows are `for`s up to a number that is never reached, since the prover asks that each loop ends.

use crate::table::spans::{span_of, touches_last};
use crate::table::{executed, follow, held, meta, spans};
use gtid::Span;
use sqlite::types::ValueRef;
use sqlite::{Alter, Connection, Error, Row};
use std::alloc::Global;
use std::fmt;

/// A table, or one or two rows of it, and the rule of the layout that they break.
#[derive(Clone, Copy, Debug)]
pub struct Damage {
    table: &'static str,
    /// The rowids.
    row: Option<i64>,
    other: Option<i64>,
    rule: &'static str,
}

impl fmt::Display for Damage {
    fn fmt<W: fmt::Write>(&self, f: &mut fmt::Formatter<W>) -> fmt::Result {
        f.write_str(self.table)?;
        match (self.row, self.other) {
            (Some(row), Some(other)) => write!(f, ", rows {row} and {other}")?,
            (Some(row), None) => write!(f, ", row {row}")?,
            _ => {}
        }
        write!(f, ": {}", self.rule)
    }
}

impl Damage {
    /// What is wrong with the tables of a database, if it is found: the first row of a table that breaks a rule, by the tests
    /// that an opening makes. It is looked for by reading alone, row by row.
    pub fn find<S: Alter>(alloc: Global, conn: &mut Connection<S>) -> Option<Damage> {
        let found = match Table::Meta.damage(alloc, conn) {
            Some(damage) => Some(damage),
            None => in_keys(conn),
        };
        if let Some(damage) = found {
            return Some(damage);
        }
        match layout(conn)? {
            1 => in_first(alloc, conn),
            2 => in_second(alloc, conn),
            _ => None,
        }
    }
}

/// A table of one of the layouts.
#[derive(Clone, Copy)]
enum Table {
    Meta,
    Executed,
    Follow,
    Spans,
    Held,
}

impl Table {
    fn name(self) -> &'static str {
        match self {
            Table::Meta => "meta",
            Table::Executed => "executed",
            Table::Follow => "follow",
            Table::Spans => "spans",
            Table::Held => "held",
        }
    }

    /// The statement that reads all rows.
    fn all(self) -> &'static str {
        match self {
            Table::Meta => meta::ALL,
            Table::Executed => executed::ALL,
            Table::Follow => follow::ALL,
            Table::Spans => spans::ALL,
            Table::Held => held::ALL,
        }
    }

    /// The rule that a row breaks, if it breaks one.
    fn rule(self, alloc: Global, row: &Row) -> Option<&'static str> {
        match self {
            Table::Meta => meta::meta_rule(row).unwrap_or(None),
            Table::Held => held::held_rule(row).unwrap_or(None),
            Table::Executed => match executed::id_of(row) {
                Ok(Err(rule)) => Some(rule),
                _ => None,
            },
            Table::Spans => match span_of(row) {
                Ok(Err(rule)) => Some(rule),
                _ => None,
            },
            Table::Follow => match follow::name_of(alloc, row) {
                Ok(Err(rule)) => Some(rule),
                _ => None,
            },
        }
    }

    /// What is wrong with the table: it cannot be read, or its first row that breaks a rule.
    fn damage<S: Alter>(self, alloc: Global, conn: &mut Connection<S>) -> Option<Damage> {
        if conn.schema().table_named(self.name().as_bytes()).is_none() {
            return unread(conn, self.name());
        }
        let mut rows = match conn.query(self.all(), &[]) {
            Ok(rows) => rows,
            Err(_) => return None,
        };
        for _ in 0..u64::MAX {
            let Ok(Some(row)) = rows.next() else {
                return None;
            };
            if let Some(rule) = self.rule(alloc, row) {
                return Some(Damage {
                    table: self.name(),
                    row: row.get(0).ok(),
                    other: None,
                    rule,
                });
            }
        }
        None
    }
}

/// What is wrong with the tables of layout 1.
fn in_first<S: Alter>(alloc: Global, conn: &mut Connection<S>) -> Option<Damage> {
    match Table::Executed.damage(alloc, conn) {
        Some(damage) => Some(damage),
        None => Table::Held.damage(alloc, conn),
    }
}

/// What is wrong with the tables of layout 2.
fn in_second<S: Alter>(alloc: Global, conn: &mut Connection<S>) -> Option<Damage> {
    for table in [Table::Follow, Table::Spans] {
        if let Some(damage) = table.damage(alloc, conn) {
            return Some(damage);
        }
    }
    match in_intervals(conn) {
        Some(damage) => Some(damage),
        None => Table::Held.damage(alloc, conn),
    }
}

const TRIGGER_ON: &str =
    "SELECT 1 FROM sqlite_schema WHERE type = 'trigger' AND lower(tbl_name) = ?1";

const TABLE_NAMED: &str = "SELECT 1 FROM sqlite_schema WHERE type = 'table' AND lower(name) = ?1";

/// Why a table cannot be read, if that is found.
fn unread<S: Alter>(conn: &mut Connection<S>, table: &'static str) -> Option<Damage> {
    let rule = if is_there(conn, TRIGGER_ON, table)? {
        "a trigger is on the table"
    } else if is_there(conn, TABLE_NAMED, table)? {
        "the table or an index on it has a form that is not read"
    } else {
        "the table is missing"
    };
    Some(Damage {
        table,
        row: None,
        other: None,
        rule,
    })
}

/// Whether a query finds a row for a table, if it can be run.
fn is_there<S: Alter>(conn: &mut Connection<S>, query: &str, table: &str) -> Option<bool> {
    match conn.query_row(query, &[ValueRef::Text(table.as_bytes())]) {
        Ok(_) => Some(true),
        Err(Error::QueryReturnedNoRows) => Some(false),
        Err(_) => None,
    }
}

/// The layout that `meta` states.
fn layout<S: Alter>(conn: &mut Connection<S>) -> Option<i64> {
    match conn.query_row("SELECT v FROM meta WHERE k = 'layout'", &[]) {
        Ok(row) => row.get(0).ok(),
        Err(_) => None,
    }
}

/// What is wrong with the keys of `meta`: two rows have the key `layout`, or none has it.
fn in_keys<S: Alter>(conn: &mut Connection<S>) -> Option<Damage> {
    let mut rows = match conn.query(meta::ALL, &[]) {
        Ok(rows) => rows,
        Err(_) => return None,
    };
    let mut first = None;
    for _ in 0..u64::MAX {
        let row = match rows.next() {
            Ok(Some(row)) => row,
            Ok(None) => break,
            Err(_) => return None,
        };
        if !meta::is_layout(row).unwrap_or(false) {
            continue;
        }
        let id: Option<i64> = row.get(0).ok();
        if first.is_some() {
            return Some(Damage {
                table: "meta",
                row: first,
                other: id,
                rule: "both have the key 'layout'",
            });
        }
        first = id;
    }
    match first {
        Some(_) => None,
        None => Some(Damage {
            table: "meta",
            row: None,
            other: None,
            rule: "no row has the key 'layout'",
        }),
    }
}

/// The first two intervals of a source that overlap or touch.
fn in_intervals<S: Alter>(conn: &mut Connection<S>) -> Option<Damage> {
    let query = "SELECT rowid, source, lo, hi FROM spans ORDER BY source, lo";
    let mut rows = match conn.query(query, &[]) {
        Ok(rows) => rows,
        Err(_) => return None,
    };
    let mut last: Option<(i64, Span)> = None;
    for _ in 0..u64::MAX {
        let Ok(Some(row)) = rows.next() else {
            return None;
        };
        let id = row.get(0).ok()?;
        let Ok(Ok(span)) = span_of(row) else {
            return None;
        };
        if let Some((before, other)) = last
            && touches_last(Some(other), &span)
        {
            return Some(Damage {
                table: "spans",
                row: Some(before.min(id)),
                other: Some(before.max(id)),
                rule: "two intervals of a source overlap or touch",
            });
        }
        last = Some((id, span));
    }
    None
}
