//! A loader of a first copy.

ghost use Rattle.std.specs.Prelude.{◌≡◌, ◌≤◌, ◌+◌, ◌-◌, ◌^◌, IfSome, IfNone};
ghost use Rattle.first_copy.specs.CopyFaults.{copied_fault};

use crate::copy_fault::CopyFault;
use crate::end_line::read_end;
use crate::fault::RowFault;
use crate::filling::{fill, read_fault};
use crate::row_taker::RowTaker;
use columns::Description;
use gather::{Changes, Delivery};
use gtid::Gtid;
use sha1::Sha1;
use std::alloc::Global;
use std::io::BufRead;
use std::rc::Rc;

/// How many bytes the lines of a transaction have at least, unless the end comes before.
pub const CHUNK: usize = 1 << 23;

/// What reads the lines of rows of a first copy and gives them as transactions, whose lines have [`CHUNK`] bytes or more, or
/// are the last ones. It holds one line at a time, and the changes of one transaction.
#[derive(Drop)]
pub struct Loader<R> {
    alloc: Global,
    taker: RowTaker,
    reader: R,
    /// What was read and is of no transaction: nothing, or the line at the end.
    line: Vec<u8>,
    source: [u8; 16],
    /// How many GTIDs of the source were given: the first one, which is executed with the set of the copy, and one for each
    /// transaction.
    given: u64,
    /// How many rows are in the transactions that were given.
    rows: u64,
    /// Of the lines that were taken.
    hasher: Sha1,
    ended: bool,
    failed: bool,
}

impl<R: BufRead> Loader<R> {
    ghost use Rattle.std.specs.Prelude.{◌≡◌, ◌≤◌, ◌+◌, ◌-◌, ◌^◌, ℕ, List, [], true, false, None, IfSome, IfNone, IfOk, IfErr, OnOk, OnErr, IsErrOf};
    ghost use Rattle.std.specs.Io.KnownBytes.{prepend_known, Keeps};
    ghost use Rattle.sha1.specs.Sha1.{Holds, sha1};
    ghost use Rattle.gather.specs.View.{delivery_value};
    ghost use Rattle.first_copy.specs.CopyLines.{IsEndLine};
    ghost use Rattle.first_copy.specs.CopyFaults.{IsKnownFault, OnTooMany, IsOutOfRows, IsOutOfNumbers};
    ghost use Rattle.first_copy.specs.CopySteps.{IsCollected, IsGiven, IsFinished};

    /// A loader of the rows of these tables, from the lines that follow the two lines at the head, whose transactions have
    /// this source. The only errors are out of memory.
    pub fn new(
        alloc: Global,
        description: Rc<Description>,
        source: [u8; 16],
        reader: R,
    ) -> Result<Loader<R>, CopyFault>
    where
        R: Drop,
        ensures err { IfErr result (λ fault. fault ≡ CopyFault.Memory) }
        ensures begin { IfOk result (λ made. (made.given ≡ 1) × (made.rows ≡ 0)
            × (made.failed ≡ false) × (made.ended ≡ false)) }
        ensures source { IfOk result (λ made. made.source ≡ source) }
        ensures tables { IfOk result (λ made. made.taker.description ≡ description) }
        ensures text { IfOk result (λ made. prepend_known made.line.items
            (R.Read.remaining made.reader) ≡ prepend_known [] (R.Read.remaining reader)) }
        ensures hasher { IfOk result (λ made. Holds made.hasher []) }
    {
        let taker = match RowTaker::new(alloc, description) {
            Ok(taker) => taker,
            Err(_) => return Err(CopyFault::Memory),
        };
        Ok(Loader {
            alloc,
            taker,
            reader,
            line: Vec::new(alloc),
            source,
            given: 1,
            rows: 0,
            hasher: Sha1::new(),
            ended: false,
            failed: false,
        })
    }

    /// How many rows are in the transactions that were given.
    pub fn rows(&self) -> u64
        ensures { result ≡ self.now.rows }
    {
        self.rows
    }

    /// The SHA-1 of the lines that were taken: those of the rows that were given and, once all are, of the line at the end.
    pub fn digest(&self) -> [u8; 20]
        ensures { (m : List ℕ) → Holds self.now.hasher m → result ≡ sha1 m }
    {
        self.hasher.clone().unwrap().finalize()
    }

    /// Takes the lines of the next rows: 8 MiB or more of them, or those before the line at the end, which is held then.
    fn collect(&mut self) -> Result<(Changes, Option<u64>), CopyFault>
        ensures collected { IfOk result (λ got. IsCollected self.old.taker.description.value.tables.items
            self.old.rows self.new.rows
            (prepend_known self.old.line.items (R.Read.remaining self.old.reader))
            (prepend_known self.new.line.items (R.Read.remaining self.new.reader))
            self.old.hasher self.new.hasher self.new.line.items got.0 got.1) }
        ensures fault { IfErr result (IsKnownFault self.old.taker.description.value.tables.items
            self.old.rows (prepend_known self.old.line.items
            (R.Read.remaining self.old.reader))) }
        ensures too_many { IfErr result (λ fault. OnTooMany fault
            (IsOutOfRows self.old.taker.description.value.tables.items self.old.rows self.new.rows
            (prepend_known self.old.line.items (R.Read.remaining self.old.reader)))) }
        ensures kept { (self.new.taker.description ≡ self.old.taker.description)
            × (self.new.source ≡ self.old.source) × (self.new.given ≡ self.old.given)
            × (self.new.failed ≡ self.old.failed) × (self.new.ended ≡ self.old.ended) }
    {
        let mut changes = Changes::new(self.alloc);
        let mut size = 0;
        while size < CHUNK {
            let number = self.rows.saturating_add(3);
            fill(&mut self.reader, &mut self.line, number)?;
            if let Some(said) = read_end(&self.line) {
                return Ok((changes, Some(said)));
            }
            match self.taker.take(self.alloc, &self.line, &mut changes) {
                Ok(()) => {}
                Err(fault) => return Err(row_fault(number, fault)),
            }
            let Some(rows) = self.rows.checked_add(1) else {
                return Err(CopyFault::TooMany);
            };
            self.rows = rows;
            self.hasher.update(&self.line);
            size += self.line.len();
            self.line.clear();
        }
        Ok((changes, None))
    }

    /// Gives a transaction with these changes.
    fn give(&mut self, changes: Changes) -> Result<Delivery, CopyFault>
        ensures given { IfOk result (λ d. (d.changes ≡ changes) × (d.gtid.source ≡ self.old.source)
            × (d.gtid.number ≡ self.old.given + 1) × (self.new.given ≡ d.gtid.number)) }
        ensures kept { self.new ≡ record self.old { given = self.new.given } }
        ensures err { IfErr result (λ fault. fault ≡ CopyFault.TooMany) }
        ensures too_many { OnErr result (2 ^ 63 - 2 ≤ self.old.given) }
    {
        let Some(gtid) = next_gtid(self.source, self.given) else {
            return Err(CopyFault::TooMany);
        };
        self.given = gtid.number;
        Ok(Delivery { gtid, changes })
    }

    /// Ends with the line that is held, which says this number of rows.
    fn finish(&mut self, said: u64) -> Result<(), CopyFault>
        requires { IsEndLine said self.old.line.items }
        ensures finished { OnOk result (IsFinished self.old.given self.old.rows
            self.new.given self.new.rows
            (prepend_known self.old.line.items (R.Read.remaining self.old.reader))
            self.old.hasher self.new.hasher) }
        ensures ended { OnOk result (self.new.ended ≡ true) }
        ensures fault { IfErr result (IsKnownFault self.old.taker.description.value.tables.items
            self.old.rows (prepend_known self.old.line.items
            (R.Read.remaining self.old.reader))) }
        ensures other { IfErr result (λ fault. OnTooMany fault ⊥) }
        ensures kept { (self.new.taker.description ≡ self.old.taker.description)
            × (self.new.source ≡ self.old.source) × (self.new.failed ≡ self.old.failed) }
    {
        let line = self.rows.saturating_add(3);
        if said != self.rows {
            return Err(CopyFault::Count {
                line,
                said,
                rows: self.rows,
            });
        }
        let mut behind = Vec::new(self.alloc);
        let line = line.saturating_add(1);
        match self.reader.read_until(b'\n', &mut behind) {
            Ok(0) => {}
            Ok(_) => return Err(CopyFault::Trailing { line }),
            Err(error) => return Err(read_fault(line, error)),
        }
        self.hasher.update(&self.line);
        self.line.clear();
        self.ended = true;
        Ok(())
    }

    /// The next transaction, or the end.
    fn step(&mut self) -> Result<Option<Delivery>, CopyFault>
        ensures given { IfOk result (λ found. IfSome found (λ d.
            IsGiven self.old.taker.description.value.tables.items self.old.source self.old.given
            self.old.rows self.new.given self.new.rows
            (prepend_known self.old.line.items (R.Read.remaining self.old.reader))
            (prepend_known self.new.line.items (R.Read.remaining self.new.reader))
            self.old.hasher self.new.hasher (delivery_value d))) }
        ensures finished { IfOk result (λ found. IfNone found (IsFinished self.old.given
            self.old.rows self.new.given self.new.rows
            (prepend_known self.old.line.items (R.Read.remaining self.old.reader))
            self.old.hasher self.new.hasher)) }
        ensures ended { IfOk result (λ found. IfNone found (self.new.ended ≡ true)) }
        ensures going { IfOk result (λ found. IfSome found (λ _. self.new.ended ≡ self.old.ended)) }
        ensures fault { IfErr result (IsKnownFault self.old.taker.description.value.tables.items
            self.old.rows (prepend_known self.old.line.items
            (R.Read.remaining self.old.reader))) }
        ensures too_many { IfErr result (λ fault. OnTooMany fault
            (IsOutOfNumbers self.old.taker.description.value.tables.items self.old.given
            self.old.rows self.new.rows
            (prepend_known self.old.line.items (R.Read.remaining self.old.reader)))) }
        ensures kept { (self.new.taker.description ≡ self.old.taker.description)
            × (self.new.source ≡ self.old.source) × (self.new.failed ≡ self.old.failed) }
    {
        let (changes, end) = self.collect()?;
        let Some(said) = end else {
            let delivery = self.give(changes)?;
            return Ok(Some(delivery));
        };
        if changes.len() > 0 {
            let delivery = self.give(changes)?;
            return Ok(Some(delivery));
        }
        self.finish(said)?;
        Ok(None)
    }

    /// The next transaction: its GTID has the loader's source and a number that is one more than that of the one
    /// before, from 2 on. It ends after the line with which its changes have [`CHUNK`] bytes or more, or before the
    /// line at the end.
    ///
    /// Clauses:
    /// - `given`: a transaction with the next number, whose changes add the rows of the next lines, in order
    /// - `finished`, `ended`, `going`, `after_end`: `None` comes where the line at the end is left, with the number of
    ///   the rows that were given, and nothing follows it
    /// - `fault`, `failed`, `goes_on`, `again`, `kept`: a fault is that of a line, by its number; after an error each
    ///   call fails
    /// - `too_many`: `TooMany` only where no number is left, for a GTID or a row
    pub fn next(&mut self) -> Result<Option<Delivery>, CopyFault>
        ensures given { IfOk result (λ found. IfSome found (λ d.
            IsGiven self.old.taker.description.value.tables.items self.old.source self.old.given
            self.old.rows self.new.given self.new.rows
            (prepend_known self.old.line.items (R.Read.remaining self.old.reader))
            (prepend_known self.new.line.items (R.Read.remaining self.new.reader))
            self.old.hasher self.new.hasher (delivery_value d))) }
        ensures finished { IfOk result (λ found. IfNone found (self.old.ended ≡ false →
            IsFinished self.old.given self.old.rows self.new.given self.new.rows
            (prepend_known self.old.line.items (R.Read.remaining self.old.reader))
            self.old.hasher self.new.hasher)) }
        ensures ended { IfOk result (λ found. IfNone found (self.new.ended ≡ true)) }
        ensures going { IfOk result (λ found. IfSome found (λ _. (self.old.ended ≡ false)
            × (self.new.ended ≡ false))) }
        ensures after_end { self.old.ended ≡ true → IfOk result (λ found. found ≡ None) }
        ensures fault { self.old.failed ≡ false →
            IfErr result (IsKnownFault self.old.taker.description.value.tables.items
            self.old.rows (prepend_known self.old.line.items
            (R.Read.remaining self.old.reader))) }
        ensures too_many { IfErr result (λ fault. OnTooMany fault
            (IsOutOfNumbers self.old.taker.description.value.tables.items self.old.given
            self.old.rows self.new.rows
            (prepend_known self.old.line.items (R.Read.remaining self.old.reader)))) }
        ensures failed { OnErr result (self.new.failed ≡ true) }
        ensures goes_on { OnOk result (self.new.failed ≡ false) }
        ensures again { self.old.failed ≡ true → IsErrOf result CopyFault.Failed }
        ensures kept { (self.new.taker.description ≡ self.old.taker.description)
            × (self.new.source ≡ self.old.source) }
    {
        if self.failed {
            return Err(CopyFault::Failed);
        }
        if self.ended {
            return Ok(None);
        }
        self.failed = true;
        let found = self.step()?;
        self.failed = false;
        Ok(found)
    }
}

/// The GTID of a source after so many.
fn next_gtid(source: [u8; 16], given: u64) -> Option<Gtid>
    ensures some { IfSome result (λ gtid. (gtid.source ≡ source) × (gtid.number ≡ given + 1)) }
    ensures none { IfNone result (2 ^ 63 - 2 ≤ given) }
{
    let number = given.checked_add(1)?;
    let gtid = Gtid::new(source, number)?;
    Some(gtid)
}

/// The fault of a line: memory that was refused is said as that.
fn row_fault(line: u64, fault: RowFault) -> CopyFault
    ensures { result ≡ copied_fault line fault }
{
    match fault {
        RowFault::Memory => CopyFault::Memory,
        _ => CopyFault::Row { line, fault },
    }
}
