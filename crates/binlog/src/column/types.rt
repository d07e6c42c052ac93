//! The types of a table's columns. MySQL Source Documentation, "Binlog Event", the page
//! `binary_log::Table_map_event`.

ghost use Rattle.std.specs.Prelude.{◌≡◌, ◌==◌, ◌<◌, List, length, IfOk, OnErr, Err, IsTrue};
ghost use Rattle.std.specs.List.{AllByRecursion};
ghost use Rattle.std.specs.Iterator.{YieldsFirstBy, item_count};
ghost use Rattle.binlog.specs.Row.{kinds};
ghost use Rattle.binlog.specs.Column.{is_lawful};
ghost use Rattle.binlog.specs.Columns.{columns_of};
ghost use Rattle.binlog.specs.declared.fault.EventFaultKind.TheVariants.{Memory};

use crate::column::kind::ColumnType;
use crate::fault::EventFault;
use std::alloc::Global;
use std::marker::Model;

/// Where the types come from.
#[derive(Clone, Copy, Debug)]
enum Columns<'a> {
    /// The type codes of a table map, and bytes that begin with the metadata of all columns.
    Encoded { codes: &'a [u8], metadata: &'a [u8] },
    Types(&'a [ColumnType]),
}

/// The types of a table's columns. They are borrowed; those of a table map are the bytes of its event. In contracts it
/// is the list of the types.
#[derive(Debug, Drop)]
pub struct ColumnTypes<'a> {
    columns: Columns<'a>,
}

impl<'a> Model for ColumnTypes<'a> {
    ghost use Rattle.std.specs.Prelude.{◌≡◌, List, length, IsTrue};
    ghost use Rattle.std.specs.List.{AllByRecursion};
    ghost use Rattle.binlog.specs.Column.{is_lawful};
    ghost use Rattle.binlog.specs.declared.column.kind.ColumnKind.{ColumnKind};

    ghost Value = { List ColumnKind };

    ghost use Rattle.binlog.specs.ColumnsView.{columns_in, column_count};

    ghost view = { λ c. columns_in c.columns };

    ghost invariant = { λ c. (length (columns_in c.columns) ≡ column_count c.columns) × AllByRecursion (λ kind. IsTrue (is_lawful kind)) (columns_in c.columns) };
}

/// An iterator over the types of a table's columns. In contracts it is the list of those that are still to come.
#[derive(Debug, Drop)]
pub struct ColumnTypesIter<'a> {
    left: Columns<'a>,
}

impl<'a> Model for ColumnTypesIter<'a> {
    ghost use Rattle.std.specs.Prelude.{List};
    ghost use Rattle.binlog.specs.declared.column.kind.ColumnKind.{ColumnKind};

    ghost Value = { List ColumnKind };

    ghost use Rattle.binlog.specs.ColumnsView.{columns_in};

    ghost view = { λ c. columns_in c.left };
}

impl<'a> ColumnTypes<'a> {
    /// The types that these codes and metadata encode.
    pub(crate) fn encoded(codes: &'a [u8], metadata: &'a [u8]) -> ColumnTypes<'a>
        requires { length (columns_of codes.now metadata.now) ≡ length codes.now }
        ensures { result ≡ columns_of codes.now metadata.now }
    {
        ColumnTypes {
            columns: Columns::Encoded { codes, metadata },
        }
    }

    /// These types.
    pub(crate) fn of(types: &'a [ColumnType]) -> ColumnTypes<'a>
        ensures { result ≡ kinds types.now }
    {
        ColumnTypes {
            columns: Columns::Types(types),
        }
    }

    /// The number of columns.
    pub fn len(&self) -> usize
        ensures length { result ≡ length self.now }
        ensures lawful { AllByRecursion (λ kind. IsTrue (is_lawful kind)) self.now }
    {
        match self.columns {
            Columns::Encoded { codes, .. } => codes.len(),
            Columns::Types(types) => types.len(),
        }
    }

    /// Whether there are no columns.
    pub fn is_empty(&self) -> bool
        ensures { result ≡ (length self.now == 0) }
    {
        self.len() == 0
    }

    /// An iterator over the types, in order.
    pub fn iter(&self) -> ColumnTypesIter<'a>
        ensures { result ≡ self.now }
    {
        ColumnTypesIter { left: self.columns }
    }

    /// The types as a vector. The only error is `Memory`, which comes only if there is a column.
    pub fn to_vec(&self, alloc: Global) -> Result<Vec<ColumnType>, EventFault>
        ensures ok { IfOk result (λ types. kinds types.items ≡ self.now) }
        ensures err { OnErr result (result ≡ Err (record { kind = Memory; at = 0 })) }
        ensures some { OnErr result (0 < length self.now) }
    {
        let mut types = Vec::with_capacity(alloc, self.len())?;
        for column in self.iter() {
            types.push(column)?;
        }
        Ok(types)
    }
}

impl<'a> Iterator for ColumnTypesIter<'a> {
    type Item = ColumnType;

    ghost next_gives = { YieldsFirstBy (λ t. t.kind) (λ rest. rest) };

    ghost remaining = { item_count (λ rest. rest) };

    fn next(&mut self) -> Option<ColumnType> {
        match self.left {
            Columns::Encoded { codes, metadata } => {
                let (code, codes) = codes.split_first()?;
                let Ok((column, metadata)) = ColumnType::read(*code, metadata) else {
                    return None;
                };
                self.left = Columns::Encoded { codes, metadata };
                Some(column)
            }
            Columns::Types(types) => {
                let (column, types) = types.split_first()?;
                self.left = Columns::Types(types);
                Some(*column)
            }
        }
    }
}
