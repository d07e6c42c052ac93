//! The changes of a transaction, held together.

ghost use Rattle.std.specs.Prelude.{◌≡◌, ℕ, [], ◌∷◌, ◌++◌, ◌^◌, ◌+◌, ◌<◌, ◌≤◌, ◌⊎◌, length, OnOk, OnErr, IfOk, Err, vec_len, vec_capacity};
ghost use Rattle.binlog.specs.RowsView.{pair_value};
ghost use Rattle.gather.specs.Image.{image, HasImage};
ghost use Rattle.gather.specs.Transaction.{change_of};
ghost use Rattle.gather.specs.Changes.{cells_of_image, change_by_size, changes_in, AreEntries, AddsEntry, IsAbsentOrImage, images_size, MayBeRefused};
ghost use Rattle.gather.specs.OpenTransaction.{table_of, HasImages};
ghost use Rattle.gather.specs.declared.fault.GatherFault.TheVariants.{Memory};

use crate::fault::GatherFault;
use crate::image::{Image, ImageRef};
use crate::image_writing::write_row;
use crate::transaction::Change;
use binlog::{Row, RowPair, TableDef};
use std::alloc::Global;
use std::marker::Model;
use std::rc::Rc;

/// The changes of a transaction, in order. A change takes 16 bytes and those of its images, which stand one after
/// another in one vector. In contracts it is the list of the changes.
#[derive(Debug, Drop)]
pub struct Changes {
    entries: Vec<Entry>,
    images: Vec<u8>,
}

/// A change without its images: how many bytes the image of the row before it takes, and of the row after it. It is 0
/// where there is no such row.
#[derive(Debug, Drop)]
struct Entry {
    table: Rc<TableDef>,
    before: u32,
    after: u32,
}

impl Model for Changes {
    ghost use Rattle.std.specs.Prelude.{List};
    ghost use Rattle.gather.specs.Transaction.{ChangeValue};

    ghost Value = { List ChangeValue };

    ghost use Rattle.gather.specs.Changes.{changes_in, AreEntries};

    ghost view = { λ c. changes_in c.entries.items c.images.items };

    ghost invariant = { λ c. AreEntries c.entries.items c.images.items };
}

impl Changes {
    ghost use Rattle.std.specs.Prelude.{◌≡◌, ◌+◌, ◌<◌, ℕ, [], ◌∷◌, ◌++◌, length, ◌==◌, OnOk, OnErr, Err};
    ghost use Rattle.binlog.specs.RowsView.{pair_value};
    ghost use Rattle.gather.specs.OpenTransaction.{table_of, HasImages};
    ghost use Rattle.gather.specs.Transaction.{insert, delete, update, change_of};
    ghost use Rattle.gather.specs.Changes.{cells_of_image, change_by_size, IsAbsentOrImage};

    /// No changes. It takes no memory.
    pub fn new(alloc: Global) -> Changes
        ensures { result ≡ [] }
    {
        Changes {
            entries: Vec::new(alloc),
            images: Vec::new(alloc),
        }
    }

    /// How many changes there are.
    pub fn len(&self) -> usize
        ensures { result ≡ length self.now }
    {
        self.entries.len()
    }

    /// Whether there are no changes.
    pub fn is_empty(&self) -> bool
        ensures { result ≡ (length self.now == 0) }
    {
        self.entries.is_empty()
    }

    /// An iterator over the changes, in order, which borrow from them. It takes no memory.
    pub fn iter(&self) -> ChangesIter<'_>
        ensures { result ≡ self.now }
    {
        ChangesIter {
            entries: self.entries.as_slice(),
            images: self.images.as_slice(),
        }
    }

    /// Appends: the row is added to the table.
    ///
    /// Clauses:
    /// - `ok`, `err`, `kept`: this change is appended; the only error is `Memory`, after which the changes are as they
    ///   were
    pub fn insert(&mut self, table: &Rc<TableDef>, after: &Image) -> Result<(), GatherFault>
        ensures ok { OnOk result (self.new ≡ self.old ++ insert table.now.value.schema.items
            table.now.value.table.items after.now ∷ []) }
        ensures err { OnErr result (result ≡ Err GatherFault.Memory) }
        ensures kept { OnErr result (self.new ≡ self.old) }
    {
        self.add(table, &[], after.bytes())
    }

    /// Appends: the row is removed from the table.
    ///
    /// Clauses: as [`Changes::insert`]
    pub fn delete(&mut self, table: &Rc<TableDef>, before: &Image) -> Result<(), GatherFault>
        ensures ok { OnOk result (self.new ≡ self.old ++ delete table.now.value.schema.items
            table.now.value.table.items before.now ∷ []) }
        ensures err { OnErr result (result ≡ Err GatherFault.Memory) }
        ensures kept { OnErr result (self.new ≡ self.old) }
    {
        self.add(table, before.bytes(), &[])
    }

    /// Appends: `before` is removed from the table and `after` is added.
    ///
    /// Clauses: as [`Changes::insert`]
    pub fn update(
        &mut self,
        table: &Rc<TableDef>,
        before: &Image,
        after: &Image,
    ) -> Result<(), GatherFault>
        ensures ok { OnOk result (self.new ≡ self.old ++ update table.now.value.schema.items
            table.now.value.table.items before.now after.now ∷ []) }
        ensures err { OnErr result (result ≡ Err GatherFault.Memory) }
        ensures kept { OnErr result (self.new ≡ self.old) }
    {
        self.add(table, before.bytes(), after.bytes())
    }

    /// Appends the change of a pair of rows of the table, whose images are written where they stay. The only error is
    /// `Memory`, and then there are no changes left.
    pub(crate) fn push(
        &mut self,
        table: &Rc<TableDef>,
        pair: &RowPair<'_>,
    ) -> Result<(), GatherFault>
        requires { HasImages (pair_value pair.now) }
        ensures ok { (id : ℕ) → OnOk result (self.new
            ≡ self.old ++ change_of (table_of id table.now) (pair_value pair.now) ∷ []) }
        ensures err { OnErr result (result ≡ Err GatherFault.Memory) }
        ensures gone { OnErr result (self.new ≡ []) }
    {
        let pushed = push_pair(table, pair, &mut self.entries, &mut self.images);
        if pushed.is_err() {
            self.entries.clear();
            self.images.clear();
        }
        pushed
    }

    /// Appends the change of a table with these images, of which one may be absent. The only error is `Memory`, and then
    /// the changes are as they were.
    fn add(&mut self, table: &Rc<TableDef>, before: &[u8], after: &[u8]) -> Result<(), GatherFault>
        requires before { IsAbsentOrImage before.now }
        requires after { IsAbsentOrImage after.now }
        requires some { 0 < length before.now + length after.now }
        ensures ok { OnOk result (self.new ≡ self.old ++ change_by_size table.now.value
            (length before.now) (length after.now) (cells_of_image before.now)
            (cells_of_image after.now) ∷ []) }
        ensures err { OnErr result (result ≡ Err GatherFault.Memory) }
        ensures kept { OnErr result (self.new ≡ self.old) }
    {
        let table = table.clone()?;
        append_change(table, before, after, &mut self.entries, &mut self.images)
    }
}

/// Appends the entry of a change of the table, and its images, of which one may be absent. The only error is `Memory`,
/// which comes only where there is no room, and leaves both vectors as they were.
fn append_change(
    table: Rc<TableDef>,
    before: &[u8],
    after: &[u8],
    entries: &mut Vec<Entry>,
    images: &mut Vec<u8>,
) -> Result<(), GatherFault>
    requires entries { AreEntries entries.old.items images.old.items }
    requires before { IsAbsentOrImage before.now }
    requires after { IsAbsentOrImage after.now }
    requires some { 0 < length before.now + length after.now }
    ensures entries { AreEntries entries.new.items images.new.items }
    ensures ok { OnOk result (changes_in entries.new.items images.new.items
        ≡ changes_in entries.old.items images.old.items ++ change_by_size table.value
        (length before.now) (length after.now) (cells_of_image before.now)
        (cells_of_image after.now) ∷ []) }
    ensures err { OnErr result (result ≡ Err Memory) }
    ensures kept { OnErr result ((entries.new.items ≡ entries.old.items)
        × (images.new.items ≡ images.old.items)) }
    ensures full { OnErr result (MayBeRefused (length before.now + length after.now)
        entries.old images.old) }
{
    let entry = Entry {
        table,
        before: size_of(before)?,
        after: size_of(after)?,
    };
    images.reserve(before.len() + after.len())?;
    entries.reserve(1)?;
    images.extend_from_slice(before).unwrap();
    images.extend_from_slice(after).unwrap();
    entries.push_reserved(entry);
    Ok(())
}

/// Appends the entry of a pair of rows, and its images, or a part of these.
fn push_pair(
    table: &Rc<TableDef>,
    pair: &RowPair<'_>,
    entries: &mut Vec<Entry>,
    images: &mut Vec<u8>,
) -> Result<(), GatherFault>
    requires entries { AreEntries entries.old.items images.old.items }
    requires images { HasImages (pair_value pair.now) }
    ensures ok { (id : ℕ) → OnOk result (AreEntries entries.new.items images.new.items
        × (changes_in entries.new.items images.new.items
        ≡ changes_in entries.old.items images.old.items ++ change_of (table_of id table.now)
        (pair_value pair.now) ∷ [])) }
    ensures err { OnErr result (result ≡ Err Memory) }
{
    let table = table.clone()?;
    append_pair(table, pair, entries, images)
}

/// Appends the entry of a pair of rows of the table, and its images, or a part of these. The only error is `Memory`,
/// which comes only where there is no room.
fn append_pair(
    table: Rc<TableDef>,
    pair: &RowPair<'_>,
    entries: &mut Vec<Entry>,
    images: &mut Vec<u8>,
) -> Result<(), GatherFault>
    requires entries { AreEntries entries.old.items images.old.items }
    requires images { HasImages (pair_value pair.now) }
    ensures ok { (id : ℕ) → OnOk result (AreEntries entries.new.items images.new.items
        × (changes_in entries.new.items images.new.items
        ≡ changes_in entries.old.items images.old.items ++ change_of (table_of id table)
        (pair_value pair.now) ∷ [])) }
    ensures err { OnErr result (result ≡ Err Memory) }
    ensures full { OnErr result (MayBeRefused (images_size (pair_value pair.now))
        entries.old images.old) }
{
    match pair {
        RowPair::Insert { after } => {
            let after = push_image(after, images)?;
            push_entry(table, 0, after, entries)
        }
        RowPair::Delete { before } => {
            let before = push_image(before, images)?;
            push_entry(table, before, 0, entries)
        }
        RowPair::Update { before, after } => {
            let before = push_image(before, images)?;
            let after = push_image(after, images)?;
            push_entry(table, before, after, entries)
        }
    }
}

/// Appends an entry with these sizes.
fn push_entry(
    table: Rc<TableDef>,
    before: u32,
    after: u32,
    entries: &mut Vec<Entry>,
) -> Result<(), GatherFault>
    ensures ok { OnOk result (AddsEntry table.value before after entries.old.items
        entries.new.items) }
    ensures err { OnErr result (result ≡ Err Memory) }
    ensures full { OnErr result (vec_capacity entries.old ≤ vec_len entries.old) }
{
    entries.push(Entry {
        table,
        before,
        after,
    })?;
    Ok(())
}

/// Appends the image of a row, or a part of it, and returns its size.
#[inline(always)]
fn push_image(row: &Row<'_>, images: &mut Vec<u8>) -> Result<u32, GatherFault>
    requires { HasImage row.now }
    ensures image { OnOk result (images.new.items ≡ images.old.items ++ image row.now) }
    ensures size { IfOk result (λ size. size ≡ length (image row.now)) }
    ensures err { OnErr result (result ≡ Err Memory) }
    ensures capacity { vec_capacity images.old ≤ vec_capacity images.new }
    ensures full { OnErr result ((2 ^ 32 ≤ length (image row.now))
        ⊎ (vec_capacity images.old < vec_len images.old + length (image row.now))) }
{
    let start = images.len();
    write_row(row, images)?;
    size_of(&images[start..])
}

/// The size of an image. One of 4 GiB or more, which no payload has room for, is refused as `Memory`.
fn size_of(image: &[u8]) -> Result<u32, GatherFault>
    ensures ok { IfOk result (λ size. size ≡ length image.now) }
    ensures err { OnErr result (result ≡ Err Memory) }
    ensures large { OnErr result (2 ^ 32 ≤ length image.now) }
{
    match u32::try_from(image.len()) {
        Ok(size) => Ok(size),
        Err(_) => Err(GatherFault::Memory),
    }
}

/// An iterator over changes. In contracts it is the list of those that are still to come.
#[derive(Debug, Drop)]
pub struct ChangesIter<'a> {
    entries: &'a [Entry],
    /// The images of these entries.
    images: &'a [u8],
}

impl<'a> Model for ChangesIter<'a> {
    ghost use Rattle.std.specs.Prelude.{List};
    ghost use Rattle.gather.specs.Transaction.{ChangeValue};

    ghost Value = { List ChangeValue };

    ghost use Rattle.gather.specs.Changes.{changes_in, AreEntries};

    ghost view = { λ c. changes_in c.entries.now c.images.now };

    ghost invariant = { λ c. AreEntries c.entries.now c.images.now };
}

ghost use Rattle.std.specs.Iterator.{YieldsFirstBy, item_count};
ghost use Rattle.gather.specs.View.{change_value};

impl<'a> Iterator for ChangesIter<'a> {
    type Item = Change<'a>;

    ghost next_gives = { YieldsFirstBy change_value (λ rest. rest) };

    ghost remaining = { item_count (λ rest. rest) };

    fn next(&mut self) -> Option<Change<'a>> {
        let [entry, entries @ ..] = self.entries else {
            return None;
        };
        let (before, left) = self.images.split_at(entry.before as usize);
        let (after, images) = left.split_at(entry.after as usize);
        self.entries = entries;
        self.images = images;
        let table = &entry.table;
        if entry.before == 0 {
            let after = ImageRef { stored: after };
            return Some(Change::Insert { table, after });
        }
        if entry.after == 0 {
            let before = ImageRef { stored: before };
            return Some(Change::Delete { table, before });
        }
        Some(Change::Update {
            table,
            before: ImageRef { stored: before },
            after: ImageRef { stored: after },
        })
    }
}
