//! Rows of a table, collected to be added in the order of their keys: then each page of the table is written once, and full.

use crate::stored::Stored;
use columns::{DescribedTable, Key};
use gather::ImageRef;
use sqlite::types::ValueRef;
use std::alloc::{AllocError, Global};

/// From how many bytes of keys and images on no more rows are collected.
const ROOM: usize = 1 << 26;

/// The bit that tells integers below zero from others.
const SIGN: u64 = 1 << 63;

/// Collected rows. Those that come after the room is full are a collection of their own, so its order is that of the keys as
/// far as it goes.
#[derive(Drop)]
pub struct Collected {
    rows: Vec<CollectedRow>,
    /// The key and the image of each row.
    bytes: Vec<u8>,
}

/// A row: where its key and its image begin, where that ends, and how many copies of it there are.
#[derive(Clone, Copy)]
struct CollectedRow {
    key: usize,
    image: usize,
    end: usize,
    count: u64,
}

impl Collected {
    /// No rows.
    pub fn new(alloc: Global) -> Collected {
        Collected {
            rows: Vec::new(alloc),
            bytes: Vec::new(alloc),
        }
    }

    /// How many rows there are.
    pub fn len(&self) -> usize {
        self.rows.len()
    }

    /// Whether no more rows are to be collected.
    pub fn is_full(&self) -> bool {
        self.bytes.len() >= ROOM
    }

    /// Collects a row of these values.
    pub fn push(
        &mut self,
        table: &DescribedTable,
        values: &[Stored<'_>],
        count: u64,
        image: &ImageRef<'_>,
    ) -> Result<(), AllocError> {
        let key = self.bytes.len();
        for (value, column) in values.iter().zip(table.columns.iter()) {
            if column.key == Key::Pri {
                push_key(value, &mut self.bytes)?;
            }
        }
        let begin = self.bytes.len();
        self.bytes.extend_from_slice(image.bytes())?;
        let end = self.bytes.len();
        self.rows.push(CollectedRow {
            key,
            image: begin,
            end,
            count,
        })?;
        Ok(())
    }

    /// Sorts the rows by their keys.
    pub fn sort(&mut self) {
        let Collected { rows, bytes } = self;
        let bytes = bytes.as_slice();
        rows.sort_unstable_by(|one, other| key_of(bytes, one).cmp(key_of(bytes, other)));
    }

    /// A row, and how many copies of it there are.
    pub fn get(&self, place: usize) -> Option<(u64, ImageRef<'_>)> {
        let row = self.rows.get(place)?;
        let image = ImageRef::read(self.bytes.get(row.image..row.end)?)?;
        Some((row.count, image))
    }

    /// Forgets the rows.
    pub fn clear(&mut self) {
        self.rows.clear();
        self.bytes.clear();
    }
}

/// The key of a row.
fn key_of<'b>(bytes: &'b [u8], row: &CollectedRow) -> &'b [u8] {
    bytes.get(row.key..row.image).unwrap_or(&[])
}

/// Appends a value of a key, such that the bytes of keys are in the order of their values: of integers, texts and bytes.
fn push_key(value: &Stored<'_>, out: &mut Vec<u8>) -> Result<(), AllocError> {
    match value.value() {
        ValueRef::Int(integer) => {
            out.extend_from_slice(&(integer.cast_unsigned() ^ SIGN).to_be_bytes())
        }
        ValueRef::Text(bytes) | ValueRef::Blob(bytes) => {
            out.extend_from_slice(bytes)?;
            out.push(0)?;
            Ok(())
        }
        ValueRef::Null | ValueRef::Real(_) => Ok(()),
    }
}
