//! Laws about the definitions, for callers.
//!
//! A law is a function with an empty body: its clauses are proved of the definitions themselves.

ghost use Rattle.std.specs.Prelude.{◌≡◌, ℕ, ◌<◌, ◌^◌, List, length, false, true, Some};
ghost use Rattle.gtid.specs.Identifier.{Ids};
ghost use Rattle.binlog.specs.Filter.{Names};
ghost use Rattle.columns.specs.declared.table.DescribedTable.{DescribedTable};
ghost use Rattle.gather.specs.Transaction.{DeliveryValue};
ghost use Rattle.store.specs.State.{Content, TableRow};
ghost use Rattle.store.specs.Changes.{adopted};
ghost use Rattle.replica.specs.Conn.{AppliesAll};
ghost use Rattle.replica.specs.Copies.{AreAdmitted, end_of_copy};
ghost use Rattle.gather.specs.Given.{then_last};
ghost use Rattle.replica.specs.Copied.{AreAdded, NoneExecuted, with_all};
ghost use Rattle.first_copy.specs.CopyLines.{IsEndLine};
ghost use Rattle.first_copy.specs.LoadedText.{HasLinesOf};
ghost use Rattle.first_copy.specs.Supplied.{within, supply_of};

/// A text that is loaded whole adds its rows, each line once.
///
/// Clauses:
/// - a law: if all transactions of a text, none of which was executed before, are applied, each row of the text is
///   added once, and the set and the transactions are executed
pub fn loaded()
    // If all transactions of a text, of a source none of whose transactions from the second GTID on was executed before, and the one
    // that says that the copy has ended, are applied to a content with a set added, and the filter admits the tables of the copy: then the text
    // is a line for each row that is added, in order, and the line at the end with their number; each row is added once; and the set
    // and the transactions are executed. They are fewer than 2^62.
    ensures { (names copied : Names) (tables : List DescribedTable) (source text : List ℕ)
        (old new : Content) (ids : Ids) (ds : List DeliveryValue) (n : ℕ)
        → (then_last (within copied (supply_of false false tables source 1 0 (Some text))) (end_of_copy source)).are_all ds
        → length ds < 2 ^ 62
        → AreAdmitted names copied
        → NoneExecuted source 2 (adopted old ids).executed
        → AppliesAll names (adopted old ids) ds n new
        → (rows : List TableRow) × HasLinesOf tables rows (IsEndLine (length rows)) text
        × (n ≡ length ds) × AreAdded rows old.rows new.rows
        × (new.executed ≡ with_all (adopted old ids).executed ds) }
{}
