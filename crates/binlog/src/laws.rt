//! Laws about the definitions, for callers.
//!
//! A law is a function with an empty body: its clauses are proved of the definitions themselves.

ghost use Rattle.std.specs.Prelude.{◌≡◌, ℕ, ◌<◌, ◌≤◌, ◌++◌, Bool, List, length, drop, Some, None, Result, Ok, Err};
ghost use Rattle.std.specs.FinSet as set;
ghost use Rattle.std.specs.List.{AllByRecursion};
ghost use Rattle.binlog.specs.Column.{type_code, metadata, IsColumn, HasColumn, metadata_size, column_fault};
ghost use Rattle.binlog.specs.Header.{header_length, IsFramed, HasFrame, header_fault};
ghost use Rattle.binlog.specs.Cell.{CellValue};
ghost use Rattle.binlog.specs.Row.{IsRow, HasRow, EndsInRow, row_end};
ghost use Rattle.binlog.specs.Table.{IsNamed, names_fault, AreColumns, columns_fault};
ghost use Rattle.binlog.specs.Columns.{HasNames, HasColumns};
ghost use Rattle.binlog.specs.Rows.{RowsValue, IsRows, HasRows, rows_fault, PairValue, IsPair, EndsInPair, pair_end, AreRows, EndsEarly, AreItemsAt, HasItems};
ghost use Rattle.binlog.specs.Filter.{Names};
ghost use Rattle.binlog.specs.Event.{EventValue, IsEvent, HasEvent, event_fault};
ghost use Rattle.binlog.specs.RowsWritten.{HaveRows, rows_bytes};
ghost use Rattle.binlog.specs.Writing.{IsWritable, event_bytes};
ghost use Rattle.binlog.specs.declared.fault.EventFault.{EventFault};
ghost use Rattle.binlog.specs.declared.body.rows_event.RowsKind.{RowsKind};
ghost use Rattle.binlog.specs.declared.column.kind.ColumnKind.{ColumnKind};

/// Bytes either have a header that frames them, with one type, one flag and one body, or have a fault, and not both.
pub fn one_header()
    ensures some { (bytes : List ℕ) → AllByRecursion (λ b. b < 256) bytes
        → header_fault bytes ≡ None → HasFrame bytes }
    ensures no_fault { (code : ℕ) (may_ignore : Bool) (body bytes : List ℕ)
        → IsFramed code may_ignore body bytes → header_fault bytes ≡ None }
    ensures one { (code code' : ℕ) (may_ignore may_ignore' : Bool) (body body' bytes : List ℕ)
        → IsFramed code may_ignore body bytes → IsFramed code' may_ignore' body' bytes
        → (code ≡ code') × (may_ignore ≡ may_ignore') × (body ≡ body') }
{}

/// A type code and bytes that begin with its metadata either are those of one type whose metadata is in range, or have
/// a fault, and not both. So types and their codes with metadata are one to one.
pub fn one_column()
    ensures some { (code : ℕ) (bytes : List ℕ) → AllByRecursion (λ b. b < 256) bytes
        → column_fault code bytes ≡ None → HasColumn code bytes }
    ensures no_fault { (kind : ColumnKind) (code : ℕ) (rest bytes : List ℕ)
        → IsColumn kind code rest bytes → column_fault code bytes ≡ None }
    ensures one { (code : ℕ) (a b : ColumnKind) (x y bytes : List ℕ) → IsColumn a code x bytes
        → IsColumn b code y bytes → (a ≡ b) × (x ≡ y) }
    ensures size { (kind : ColumnKind) → metadata_size (type_code kind)
        ≡ Some (length (metadata kind)) }
{}

/// Bytes begin with a row exactly if every part of it fits, and then with one row of one list of cells; or they end in
/// one of its parts, and then in one.
pub fn one_row()
    ensures some { (types : List ColumnKind) (bytes : List ℕ) (end : ℕ)
        → AllByRecursion (λ b. b < 256) bytes → row_end types bytes ≡ Ok end
        → HasRow types end bytes }
    ensures whole { (types : List ColumnKind) (cells : List CellValue) (first rest : List ℕ)
        → IsRow types cells first → row_end types (first ++ rest) ≡ Ok (length first) }
    ensures early { (types : List ColumnKind) (bytes : List ℕ) (place : ℕ)
        → AllByRecursion (λ b. b < 256) bytes → row_end types bytes ≡ Err place
        → EndsInRow types bytes place }
    ensures ends { (types : List ColumnKind) (bytes : List ℕ) (place : ℕ)
        → EndsInRow types bytes place → row_end types bytes ≡ Err place }
    ensures one { (types : List ColumnKind) (a b : List CellValue) (first second x y : List ℕ)
        → IsRow types a first → IsRow types b second → first ++ x ≡ second ++ y
        → (a ≡ b) × (first ≡ second) }
{}

/// Bytes begin with a pair exactly if each row of it fits (an update has two); or they end in one part of it, and then in
/// one.
pub fn one_pair()
    ensures whole { (kind : RowsKind) (types : List ColumnKind) (pair : PairValue)
        (first rest : List ℕ) → IsPair kind types pair first
        → pair_end kind types (first ++ rest) ≡ Ok (length first) }
    ensures early { (kind : RowsKind) (types : List ColumnKind) (bytes : List ℕ) (place : ℕ)
        → AllByRecursion (λ b. b < 256) bytes → pair_end kind types bytes ≡ Err place
        → EndsInPair kind types bytes place }
    ensures ends { (kind : RowsKind) (types : List ColumnKind) (bytes : List ℕ) (place : ℕ)
        → EndsInPair kind types bytes place → pair_end kind types bytes ≡ Err place }
{}

/// The body of an event either begins with one table number and one pair of names, or the event has a fault in them,
/// and not both.
pub fn one_names()
    ensures some { (bytes : List ℕ) → AllByRecursion (λ b. b < 256) bytes → names_fault bytes ≡ None
        → HasNames (drop header_length bytes) }
    ensures no_fault { (id : ℕ) (schema table rest bytes : List ℕ)
        → IsNamed id schema table rest (drop header_length bytes) → names_fault bytes ≡ None }
    ensures one { (id id' : ℕ) (schema schema' table table' rest rest' bytes : List ℕ)
        → IsNamed id schema table rest (drop header_length bytes)
        → IsNamed id' schema' table' rest' (drop header_length bytes)
        → (id ≡ id') × (schema ≡ schema') × (table ≡ table') × (rest ≡ rest') }
{}

/// The bytes from an offset on either are the columns of a table, with one list of types, or the event has a fault in
/// them, and not both.
pub fn one_columns()
    ensures some { (bytes : List ℕ) (place : ℕ) → AllByRecursion (λ b. b < 256) bytes
        → columns_fault bytes place ≡ None → HasColumns (drop place bytes) }
    ensures no_fault { (columns : List ColumnKind) (bytes : List ℕ) (place : ℕ)
        → AreColumns columns (drop place bytes) → columns_fault bytes place ≡ None }
    ensures one { (a b : List ColumnKind) (bytes : List ℕ) → AreColumns a bytes → AreColumns b bytes
        → a ≡ b }
{}

/// The body of an event either is that of one rows event of a kind, or has a fault, and not both.
pub fn one_rows_event()
    ensures some { (kind : RowsKind) (bytes : List ℕ) → AllByRecursion (λ b. b < 256) bytes
        → rows_fault kind bytes ≡ None → HasRows kind (drop header_length bytes) }
    ensures no_fault { (r : RowsValue) (bytes : List ℕ) → IsRows r (drop header_length bytes)
        → rows_fault r.kind bytes ≡ None }
    ensures one { (a b : RowsValue) (bytes : List ℕ) → a.kind ≡ b.kind
        → IsRows a (drop header_length bytes) → IsRows b (drop header_length bytes) → a ≡ b }
{}

/// Bytes either are the rows of one list of pairs, or end early after one list of pairs and at one offset, and not
/// both. So they have one list of items.
pub fn one_list_of_rows()
    ensures one { (kind : RowsKind) (types : List ColumnKind) (a b : List PairValue)
        (bytes : List ℕ) → 1 ≤ length types → AreRows kind types a bytes
        → AreRows kind types b bytes → a ≡ b }
    ensures not_both { (kind : RowsKind) (types : List ColumnKind) (a b : List PairValue)
        (bytes : List ℕ) (place : ℕ) → 1 ≤ length types → AreRows kind types a bytes
        → EndsEarly kind types b bytes place → ⊥ }
    ensures one_end { (kind : RowsKind) (types : List ColumnKind) (a b : List PairValue)
        (bytes : List ℕ) (p q : ℕ) → 1 ≤ length types → EndsEarly kind types a bytes p
        → EndsEarly kind types b bytes q → (a ≡ b) × (p ≡ q) }
    ensures some { (kind : RowsKind) (types : List ColumnKind) (bytes : List ℕ) (at : ℕ)
        → AllByRecursion (λ b. b < 256) bytes → 1 ≤ length types → HasItems kind types bytes at }
    ensures items { (kind : RowsKind) (types : List ColumnKind) (bytes : List ℕ) (at : ℕ)
        (x y : List (Result PairValue EventFault)) → 1 ≤ length types
        → AreItemsAt kind types bytes at x → AreItemsAt kind types bytes at y → x ≡ y }
{}

/// Bytes either are one event or have a fault, and not both, whichever tables are followed.
pub fn one_event()
    ensures some { (names : Names) (bytes : List ℕ) → AllByRecursion (λ b. b < 256) bytes
        → event_fault names bytes ≡ None → HasEvent names bytes }
    ensures no_fault { (names : Names) (e : EventValue) (bytes : List ℕ) → IsEvent names e bytes
        → event_fault names bytes ≡ None }
    ensures one { (names : Names) (a b : EventValue) (bytes : List ℕ) → IsEvent names a bytes
        → IsEvent names b bytes → a ≡ b }
{}

/// Pairs that can be written are written as their rows.
pub fn written_rows()
    ensures { (kind : RowsKind) (types : List ColumnKind) (pairs : List PairValue)
        → HaveRows kind types pairs → AreRows kind types pairs (rows_bytes types pairs) }
{}

/// What is written of an event is that event. So it is read back as the same value.
pub fn written_event()
    ensures { (e : EventValue) → IsWritable e → IsEvent set.empty e (event_bytes e) }
{}
