//! The names of a table at the front of a line.

ghost use Rattle.std.specs.Prelude.{◌≡◌, ◌++◌, IfSome, IfNone};
ghost use Rattle.columns.specs.Escapes.{escape};
ghost use Rattle.columns.specs.Lines.{field};
ghost use Rattle.columns.specs.Descriptions.{described_table, table_front, BeginsNot};

use crate::escape::{Layer, escape_of};
use crate::lines::after_front;
use crate::table::DescribedTable;
use crate::word::after_byte;

const TAB: u8 = b'\t';

impl DescribedTable {
    /// What follows the names of its schema and of itself, as they stand in the lines of a description, with a tab after
    /// each, if the line begins with them.
    pub fn after_names<'a>(&self, line: &'a [u8]) -> Option<&'a [u8]>
        ensures some { IfSome result (λ rest. line.now
            ≡ table_front (described_table self.now) ++ rest.now) }
        ensures none { IfNone result (BeginsNot (table_front (described_table self.now)) line.now) }
    {
        let behind = after_name(self.schema.as_bytes(), line)?;
        let rest = after_name(self.name.as_bytes(), behind)?;
        Some(rest)
    }
}

/// What follows the field of a name and the tab after it, if the text begins with them.
fn after_name<'a>(name: &[u8], text: &'a [u8]) -> Option<&'a [u8]>
    ensures some { IfSome result (λ rest. text.now ≡ field name.now 9 ++ rest.now) }
    ensures none { IfNone result (BeginsNot (field name.now 9) text.now) }
{
    let mut left = text;
    for byte in name {
        left = after_code(*byte, left)?;
    }
    let rest = after_byte(TAB, left)?;
    Some(rest)
}

/// What follows what stands for the byte in a field, if the text begins with it.
fn after_code(byte: u8, text: &[u8]) -> Option<&[u8]>
    ensures some { IfSome result (λ rest. text.now ≡ escape Layer.Client byte ++ rest.now) }
    ensures none { IfNone result (BeginsNot (escape Layer.Client byte) text.now) }
{
    match escape_of(Layer::Client, byte) {
        Some(pair) => after_front(pair.as_bytes(), text),
        None => after_byte(byte, text),
    }
}
