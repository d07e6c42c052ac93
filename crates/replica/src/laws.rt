//! Laws about the definitions, for callers.
//!
//! A law is a function with an empty body: its clauses are proved of the definitions themselves.

ghost use Rattle.std.specs.Prelude.{◌≡◌, ◌↔◌, ◌⊎◌, ℕ, ◌+◌, ◌<◌, ◌≤◌, ◌++◌, Bool, true, false, List, [], ◌∷◌, length, drop, map, Option, None, Some, IfOk};
ghost use Rattle.std.specs.FinSet as set;
ghost use Rattle.std.specs.List.{AllByRecursion};
ghost use Rattle.sqlite.specs.Held.{state};
ghost use Rattle.sqlite.specs.Files.{image_of};
ghost use Rattle.sqlite_wal.specs.Recovery.{Image};
ghost use Rattle.sqlite_wal.specs.Files.{outcomes};
ghost use Rattle.sqlite_schema.specs.declared.schema.Schema.{Schema};
ghost use Rattle.gtid.specs.Identifier.{Id, Ids};
ghost use Rattle.binlog.specs.Cell.{CellValue};
ghost use Rattle.binlog.specs.Filter.{Names, admits, is_read};
ghost use Rattle.gather.specs.Transaction.{DeliveryValue, change_of};
ghost use Rattle.scripted_source.specs.Script.{PartValue, ScriptValue};
ghost use Rattle.scripted_source.specs.Source.{is_once};
ghost use Rattle.store.specs.State.{Content, TableRow, row_of};
ghost use Rattle.store.specs.Changes.{HasOutcome, adopted, done, is_admitted, widened};
ghost use Rattle.store.specs.Open.{nothing};
ghost use Rattle.replica.specs.Clear.{TableClear, IsClearedAt, IsClearedBy};
ghost use Rattle.replica.specs.SourceLog.{Logged, IsWholeLog, HasPoint, HasSourceRows, HasSourceRowsBeside, HasSourceRowsWithout, AreOfLog, IsEmptiedIn, IsCopyAt};
ghost use Rattle.replica.specs.Marks.{begun_number, is_of_copy};
ghost use Rattle.replica.specs.Copies.{AreOfCopies, IsAtSet, HaveNoRows, was_begun, with_marks, end_of_copy};
ghost use Rattle.replica.specs.Copied.{AreAdded, AreCopied, AreNumbered, AreOutside, NoneExecuted, with_all};
ghost use Rattle.store.specs.Store.{HoldsAs, database, names_of};
ghost use Rattle.store.specs.Entering.{names_for};
ghost use Rattle.replica.specs.declared.session.end.Reason.{Reason};
ghost use Rattle.replica.specs.declared.session.end.Reason.TheVariants.{EndOfInput, Wire};
ghost use Rattle.wire.specs.declared.fault.WireFault.TheVariants as wire;
ghost use Rattle.replica.specs.declared.session.end.Ended.{Ended};
ghost use Rattle.replica.specs.Stream.{Reading};
ghost use Rattle.replica.specs.End.{End};
ghost use Rattle.replica.specs.Report.{report_of};
ghost use Rattle.replica.specs.Outcome.{IsSameEnd, HasEnd};
ghost use Rattle.replica.specs.Conn.{Conn, AppliesAll, AppliesFirst, BreaksStore, IsDumpTooLong, IsOfBytes};
ghost use Rattle.replica.specs.Crash.{IsLeftOfOne, LeavesFirst};
ghost use Rattle.replica.specs.Sent.{SentFor};
ghost use Rattle.replica.specs.Standing.{Position, Stands, from_start, sends_on, end_of};
ghost use Rattle.replica.specs.Over.{StandsOver};
ghost use Rattle.replica.specs.Follow.{HandsOut, IsInFull};
ghost use Rattle.sqlite_wal.specs.Reads.{AreClean};
ghost use Rattle.replica.specs.Capture.{Reads};
ghost use Rattle.replica.specs.Replay.{AppliesEach, Replays};
ghost use Rattle.replica.specs.Work.{WorksInFiles};
ghost use Rattle.replica.specs.File.{FilesHold, HoldNone, OfHeld, AreClosedWith, IsTurnedAway};
ghost use Rattle.replica.specs.Noted.{Account, IsExcluded, IsNotedOf, IsNotedSinceOpening, IsLeftOfNoted, Notice, opened, before, LeadsBy, applied_in, StillWaits, WereMissed};
ghost use Rattle.replica.specs.Missing.{waits_for_none};
ghost use Rattle.replica.specs.Feed.{FileLine, open_line, whole_line, Reader, at_first, read_line, read_file, with_changes, AreFed, all_lines};
ghost use Rattle.replica.specs.Restart.{Starts, IsUncut, MayFindUnopened, AreStarts, HoldFirst, FilesNeverFall};
ghost use Rattle.replica.specs.Resume.{Resumes, Leads, Reaches, AreRestarts, NeverFalls, part_changes, transaction, table_changes, transactions, end_reason};

use crate::file::Unopened;
use crate::file::replaying::Replayed;
use crate::file::work::{InFile, Work};
use crate::session::Session;
use crate::source::captures::Capture;
use crate::source::connect::Connect;
use crate::source::counted::Duplex;
use sqlite::{Alter, Files};
use sqlite_disk::Disk;
use std::io::Read;
use store::Store;

/// A session that has read nothing begins at any store, with the content that the store holds.
pub fn begins<S: Alter>(_session: &Session, _store: &Store<S>)
    ensures { (was : Bool) (content : Content) → HoldsAs S.Store was content _store.now
        → Stands _session.now (names_of S.Store _store.now) (from_start was content) was content
        → StandsOver S.Store _session.now _store.now
        (database S.Store _store.now).now.schema (from_start was content) }
{}

/// What a session hands out (`Session::take_out`) counts as sent, also together with a store.
pub fn handed_out<S: Alter>(_before: &Session, _after: &Session, _store: &Store<S>)
    ensures { (schema : Schema) (pos : Position) (out : List ℕ)
        → HandsOut _before.now _after.now out → StandsOver S.Store _before.now _store.now schema pos
        → StandsOver S.Store _after.now _store.now schema (sends_on pos out) }
{}

/// A session's position determines how its connection ends if no more bytes come, what the store holds, and what was
/// sent.
pub fn stood(_session: &Session)
    ensures conn { (names : Names) (pos : Position) (is : Bool) (now : Content)
        → Stands _session.now names pos is now
        → Conn _session.now.config.limit names pos.was pos.old pos.read now (end_of _session.now) }
    ensures sent { (names : Names) (pos : Position) (is : Bool) (now : Content)
        → Stands _session.now names pos is now
        → SentFor _session.now.config names pos.old.executed pos.read (end_of _session.now).at
        (pos.sent ++ _session.now.out.items) }
    // The store holds what the first transactions of the bytes, some number of them, make of what it held.
    ensures state { (names : Names) (pos : Position) (is : Bool) (now : Content)
        → Stands _session.now names pos is now
        → (count : ℕ) × AppliesFirst _session.now.config.limit names pos.old pos.read count
        (end_of _session.now).applied now }
    // An end caused by the bytes is the end of these bytes, except for a dump command that would be too long.
    ensures reason { (names : Names) (pos : Position) (is : Bool) (now : Content)
        → Stands _session.now names pos is now → IsOfBytes (end_of _session.now).reason
        → End _session.now.config.limit names pos.read (end_of _session.now).reason
        (end_of _session.now).at ⊎ (((end_of _session.now).reason ≡ Wire wire.TooLarge)
        × IsDumpTooLong pos.old.executed) }
    ensures store { (names : Names) (pos : Position) (is : Bool) (now : Content)
        → Stands _session.now names pos is now
        → BreaksStore (end_of _session.now).reason pos.was is }
    ensures ended { (names : Names) (pos : Position) (is : Bool) (now : Content)
        → Stands _session.now names pos is now
        → (_session.now.ended ≡ None) ↔ ((end_of _session.now).reason ≡ EndOfInput) }
{}

/// What a crash leaves of a connection is what the first of its transactions, some number of them, make of what the
/// store held: all those that were applied, and at most one more, if the database failed.
pub fn left_transactions()
    ensures { (limit : ℕ) (names : Names) (was : Bool) (old : Content) (b : List ℕ) (new : Content)
        (end : Ended) (left : Content) → Conn limit names was old b new end
        → IsLeftOfOne limit names old b new end left → LeavesFirst limit names old b new end left }
{}

/// Where a connection ends because of its bytes, and what that end reports, is determined by the bytes.
pub fn one_end()
    ensures reported { (limit : ℕ) (names : Names) (b : List ℕ) (r s : Reason) (at other : ℕ)
        → AllByRecursion (λ byte. byte < 256) b → End limit names b r at → End limit names b s other
        → report_of r ≡ report_of s }
    ensures at { (limit : ℕ) (names : Names) (b : List ℕ) (r s : Reason) (at other : ℕ)
        → AllByRecursion (λ byte. byte < 256) b → End limit names b r at → End limit names b s other
        → at ≡ other }
{}

/// What a connection comes to is determined by its bytes and by what the store held, unless memory runs out, or the
/// database or the stream fails: the content afterwards, and the end.
pub fn one_outcome()
    ensures content { (limit : ℕ) (names : Names) (was is : Bool) (old new other : Content)
        (b : List ℕ) (end last : Ended) → AllByRecursion (λ byte. byte < 256) b
        → IsInFull end.reason → IsInFull last.reason → Conn limit names was old b new end
        → Conn limit names is old b other last → new ≡ other }
    ensures end { (limit : ℕ) (names : Names) (was is : Bool) (old new other : Content) (b : List ℕ)
        (end last : Ended) → AllByRecursion (λ byte. byte < 256) b → IsInFull end.reason
        → IsInFull last.reason → Conn limit names was old b new end
        → Conn limit names is old b other last → IsSameEnd end last }
{}

/// Each list of bytes has an end: for a store that had not failed, a connection with these bytes leads from what it held
/// to some content, and ends by its bytes or by a transaction that is refused.
pub fn some_end(_bytes: &[u8])
    ensures { (limit : ℕ) (names : Names) (old : Content) → HasEnd limit names old _bytes.now }
{
    greet::laws::greetings();
    greet::laws::replies();
    greet::laws::errors();
}

/// What closed files hold is found by the next call that opens them: as they are, and what a crash leaves of them, with its
/// WAL file or without. So what `replay` and `follow_file` promise carries on from one call to the next.
pub fn found_again<D: Disk>(_files: &Files<D>)
    ensures closed { (only names : Names) (content : Content)
        → AreClosedWith D.Disk names content _files.now
        → FilesHold only names content (image_of D.Disk _files.now) }
    ensures left { (only names : Names) (content : Content) (image : Image)
        → AreClosedWith D.Disk names content _files.now
        → outcomes D.Disk _files.now.log _files.now.db image
        → FilesHold only names content image × FilesHold only names content
        (record image { log = [] }) }
{}

/// What files hold is found by the next call that opens them, where this one has not opened their database: if they were not
/// opened, as they were, and otherwise what a crash leaves of what is left.
pub fn found_unopened<D: Disk>(_why: &Unopened<D>)
    ensures { (wanted : Option Names) (names : Names) (content : Content) (before next : Image)
        → FilesHold (names_for wanted) names content before → IsTurnedAway wanted before _why.now
        → MayFindUnopened before _why.now next → FilesHold (names_for wanted) names content next }
{}

/// If what is reported to an observer leads from one content to another, then so do the transactions that are reported as applied, in
/// order, each of which is new; and it leads to no other.
pub fn led()
    ensures applied { (names : Names) (old new : Content) (notices : List Notice)
        → LeadsBy names old notices new
        → AppliesAll names old (applied_in notices) (length (applied_in notices)) new }
    ensures one { (names : Names) (old new other : Content) (notices : List Notice)
        → LeadsBy names old notices new → LeadsBy names old notices other → new ≡ other }
{}

/// A reader of a change feed that keeps to its rules uses each transaction of the database that has changes exactly once, in order and
/// with these changes, over any number of runs: each is over the database that the one before has left, and may be stopped anywhere,
/// by a power failure too that leaves a hole in what it had written last.
pub fn consumed()
    // A reader of the lines of all runs, and of an open with the set that is executed after them.
    ensures once { (names : Names) (first last : Content) (runs : List (List FileLine))
        → AreFed names first runs last → (ds : List DeliveryValue)
        × AppliesAll names first ds (length ds) last
        × (with_changes (read_file at_first
        (all_lines runs ++ whole_line (open_line last.executed) ∷ [])).taken ≡ with_changes ds) }
    // After a part of the lines it has used the first of the transactions that it has used after more of them.
    ensures grows { (r : Reader) (part more : List FileLine) → (ds : List DeliveryValue)
        × ((read_file r (part ++ more)).taken ≡ (read_file r part).taken ++ ds) }
    // An open that comes again changes nothing, so that one may be left out where the line before it is the same.
    ensures again { (r : Reader) (ids : Ids)
        → read_line (read_line r (open_line ids)) (open_line ids) ≡ read_line r (open_line ids) }
{}

/// If what was reported to an observer leads from one content to another, and it waits for nothing more, then all transactions that it
/// waited for are executed in the latter. If the opening of a database was reported first, what it still waits for are exactly
/// those that are not.
pub fn waited()
    ensures none { (names : Names) (old new : Content) (was is : Account) (ends : List Ended)
        (wanted : Ids) → IsNotedOf names old new was is ends → was.waits ≡ Some wanted
        → waits_for_none is.waits ≡ true → set.is_subset wanted new.executed ≡ true }
    ensures left { (names : Names) (old new : Content) (executed wanted left : Ids)
        (notices : List Notice) → LeadsBy names old (opened executed ∷ notices) new
        → StillWaits (Some wanted) (opened executed ∷ notices) (Some left)
        → left ≡ set.difference wanted new.executed }
    // Before each transaction that was to be applied, not all of them were executed.
    ensures missed { (names : Names) (old mid : Content) (executed wanted left : Ids)
        (notices more : List Notice) (d : DeliveryValue)
        → LeadsBy names old (opened executed ∷ notices) mid
        → WereMissed (Some wanted) (opened executed ∷ (notices ++ before d ∷ more)) (Some left)
        → set.is_subset wanted mid.executed ≡ false }
{}

/// A call with an observer that stops for a database with a first copy that has begun and not ended, or for one that keeps rows, or
/// none, changes nothing of such a database, and neither does a crash in it.
pub fn excluded()
    ensures { (names : Names) (old new : Content) (was is : Account) (ends : List Ended)
        → (since : IsNotedSinceOpening names old new was is ends)
        → IsExcluded was old.executed names → (left : Content)
        → IsLeftOfNoted names since.noted_of.notices new left → (new ≡ old) × (left ≡ old) }
{}

/// No reading of a connection's bytes has more payloads than the reading up to their end.
pub fn longest()
    ensures { (limit : ℕ) (names : Names) (b : List ℕ) (r : Reason) (at : ℕ)
        → AllByRecursion (λ byte. byte < 256) b → (e : End limit names b r at)
        → (q : Reading limit names b) → length q.payloads ≤ length e.reading.payloads }
{}

/// A replica holds the content after the first j transactions of a history, and asks with its executed set. What the
/// source sends before the dump and in its answer leads it to the content after the whole history: the connection's
/// transactions are those after the j-th, in order and no others. If the connection is cut, at any byte, it is led to
/// the content after some of them, and none is left out in between.
pub fn resuming(_opening: &[u8], _answer: &[u8])
    ensures leads { (limit : ℕ) (names : Names) (history : List ScriptValue) (j : ℕ)
        (held last : Content) (request : List ℕ) → (r : Resumes limit names history j held last
        (record { request = request; opening = _opening.now; answer = _answer.now }))
        → Leads limit names held last (_opening.now ++ _answer.now)
        (transactions names (drop j history)) (end_reason (is_once r.dump.flags)) }
    ensures cut { (limit : ℕ) (names : Names) (history : List ScriptValue) (j : ℕ)
        (held last : Content) (request : List ℕ) → (r : Resumes limit names history j held last
        (record { request = request; opening = _opening.now; answer = _answer.now }))
        → (part more : List ℕ) (count applied : ℕ) (new : Content)
        → _opening.now ++ _answer.now ≡ part ++ more
        → AppliesFirst limit names held part count applied new
        → Reaches names history (j + count) new }
{
    greet::laws::dumps();
}

/// Whatever prefix of that connection a replica has followed, and wherever it is stopped: what it has applied, and what a
/// crash leaves, is the content after the first transactions of the history, some number of them. None that it had is
/// lost, and at most one more is there.
pub fn stopped_anywhere(_opening: &[u8], _answer: &[u8])
    ensures { (limit : ℕ) (names : Names) (history : List ScriptValue) (j : ℕ) (held last : Content)
        (request : List ℕ) → (r : Resumes limit names history j held last
        (record { request = request; opening = _opening.now; answer = _answer.now }))
        → (part more : List ℕ) (was : Bool) (new : Content)
        (end : Ended) (left : Content) → _opening.now ++ _answer.now ≡ part ++ more
        → Conn limit names was held part new end → IsLeftOfOne limit names held part new end left
        → (i : ℕ) × Reaches names history (j + i) new
        × ((left ≡ new) ⊎ Reaches names history (j + (i + 1)) left) }
{
    resuming(_opening, _answer);
    left_transactions();
}

/// However often a replica is stopped and started again, and wherever each connection was cut: it holds the content after
/// the first transactions of the history, and of these there are never fewer than before.
pub fn restarted()
    ensures { (limit : ℕ) (names : Names) (history : List ScriptValue) (j : ℕ) (held : Content)
        (lefts : List Content) → Reaches names history j held
        → AreRestarts limit names history held lefts → NeverFalls names history j lefts }
{
    greet::laws::dumps();
}

/// The same of a replica whose database is in files, over its openings: each call of `follow_file` finds what the one
/// before has left, as it was closed or after a crash, and opens it or not. However often it is started, and wherever
/// each connection is cut, the files hold the content after the first transactions of the history, and of these there are
/// never fewer than before. A connection that is not cut leaves the content after all of them.
pub fn restarted_files<
    D: Disk,
    T: Duplex + Drop,
    E: Drop,
    C: Connect<Stream = T, Error = E> + Drop,
>(_files: &Files<D>, _connect: &C)
    ensures never_falls { (only names : Names) (history : List ScriptValue) (j : ℕ) (held : Content)
        (before : Image) (images : List Image) → Reaches names history j held
        → FilesHold only names held before → AreStarts D.Disk
        (record { left = T.Read.remaining; written = T.Write.contents; failures = T.failures })
        C.gives only names history before images
        → FilesNeverFall only names history j images }
    ensures whole { (only names : Names) (history : List ScriptValue) (j : ℕ) (held : Content)
        (before next : Image) → Reaches names history j held → FilesHold only names held before
        → (start : Starts D.Disk
        (record { left = T.Read.remaining; written = T.Write.contents; failures = T.failures })
        C.gives only names history before next) → IsUncut D.Disk
        (record { left = T.Read.remaining; written = T.Write.contents; failures = T.failures })
        C.gives only names history start → HoldFirst only names history next (length history) }
{
    greet::laws::dumps();
}

/// The transactions of a history, as a connection has them, leave out the changes of tables that the filter leaves out;
/// with the empty filter they have all changes. Of each table that is read they have all changes, in their order, and of no
/// other table one: so whoever uses each transaction once ([`consumed`]) misses no change of a table that is read. A replica
/// applies a transaction without these changes exactly if it applies the whole one.
pub fn filtered()
    ensures all { (part : PartValue) → part_changes set.empty part
        ≡ map (change_of part.table) part.pairs }
    ensures read { (names : Names) (script : ScriptValue) (schema table : List ℕ)
        → is_read names schema table ≡ true
        → table_changes schema table (transaction names script).changes
        ≡ table_changes schema table (transaction set.empty script).changes }
    ensures unread { (names : Names) (script : ScriptValue) (schema table : List ℕ)
        → is_read names schema table ≡ false
        → table_changes schema table (transaction names script).changes ≡ [] }
    ensures taken { (names : Names) (script : ScriptValue) (old new : Content)
        → HasOutcome names old (transaction set.empty script) (done new)
        ↔ HasOutcome names old (transaction names script) (done new) }
{}

/// What loading a first copy comes to ([`load_file`](crate::load_file)), over the transactions that its clauses speak of.
pub fn copied()
    // If none of its transactions was executed before, all of them are applied: their rows are added, each once, and their GTIDs
    // and the set are executed, and so is the one that says that the copy has ended. There are fewer of them than 2^63.
    ensures loaded { (names : Names) (source : List ℕ) (number : ℕ) (old new : Content) (ids : Ids)
        (ds : List DeliveryValue) (rows : List TableRow) (n : ℕ)
        → NoneExecuted source number (adopted old ids).executed
        → number + length ds ≤ begun_number → AreNumbered source number ds → AreCopied names ds rows
        → AppliesAll names (adopted old ids) (ds ++ end_of_copy source ∷ []) n new
        → (n ≡ length ds + 1) × AreAdded rows old.rows new.rows
        × (new.executed ≡ with_all (adopted old ids).executed (ds ++ end_of_copy source ∷ [])) }
    // Loaded in part and then again, it leads to the content that it leads to at once.
    ensures again { (names : Names) (old mid new : Content) (ids : Ids)
        (some others : List DeliveryValue) (n m : ℕ) → AppliesAll names (adopted old ids) some n mid
        → AppliesAll names (adopted mid ids) (some ++ others) m new
        → AppliesAll names (adopted old ids) (some ++ others) (n + m) new }
    // What leads a content that has executed what the source had to another one, leads a content with the same rows, that has
    // executed the same and copies, to the same rows.
    ensures followed { (names : Names) (old new : Content) (copies : Ids)
        (ds : List DeliveryValue) (n : ℕ) → AreOutside copies ds → AppliesAll names old ds n new
        → AppliesAll names (adopted old copies) ds n (adopted new copies) }
{}

/// A database has the rows of its source if each table that it keeps has the rows that the source had of it when it had executed the
/// same GTIDs (but for those of copies) (`HasSourceRows`). What commands do over files ([`replay`](crate::replay) and its like) keeps that, in any
/// order, where they are given what comes from the source.
pub fn at_source()
    // Transactions of its log, in order, up to whose first one all is executed: all of them or, after a crash, the first ones.
    ensures applied { (names : Names) (log : List Logged) (old new : Content)
        (part more : List DeliveryValue) (n : ℕ) → IsWholeLog log → HasSourceRows names log old
        → AreOfLog names old.executed log (part ++ more) → AppliesAll names old part n new
        → HasSourceRows names log new }
    // A first copy of tables, which are the only ones whose rows the database does not have yet.
    ensures loaded { (names tables : Names) (log : List Logged) (old new : Content) (ids : Ids)
        (first : Id) (ds : List DeliveryValue) (rows : List TableRow) (number n : ℕ)
        → IsWholeLog log → HasSourceRowsBeside tables names log old
        → HasPoint (IsCopyAt names tables old ids rows) nothing log
        → IsAtSet old.executed ids → HaveNoRows tables old → is_of_copy first.0 ≡ true
        → NoneExecuted first.0 number (adopted old (with_marks ids first)).executed
        → number + length ds ≤ begun_number → AreNumbered first.0 number ds
        → AreCopied names ds rows → AppliesAll names (adopted old (with_marks ids first))
        (ds ++ end_of_copy first.0 ∷ []) n new → HasSourceRows names log new }
    // While it is loaded, or after a crash in it, all other tables have their rows.
    ensures loading { (names tables : Names) (log : List Logged) (old mid : Content) (ids : Ids)
        (first : Id) (part more : List DeliveryValue) (rows : List TableRow) (number n : ℕ)
        → IsWholeLog log → HasSourceRowsBeside tables names log old
        → HasPoint (IsCopyAt names tables old ids rows) nothing log
        → IsAtSet old.executed ids → is_of_copy first.0 ≡ true
        → AreNumbered first.0 number (part ++ more) → AreCopied names (part ++ more) rows
        → AppliesAll names (adopted old (with_marks ids first)) part n mid
        → HasSourceRowsBeside tables names log mid }
    // A copy that is given up: its tables are cleared by GTIDs of copies.
    ensures given_up { (names tables : Names) (log : List Logged) (clear : TableClear)
        (old new : Content) → is_of_copy clear.source ≡ true
        → set.contains tables (clear.schema, clear.table) ≡ true → HasSourceRowsBeside tables names log old
        → IsClearedBy names clear old new → HasSourceRowsBeside tables names log new }
    // A table that is cleared by the GTID of the statement after which it begins anew, where the set before it is executed.
    ensures cleared { (names : Names) (log : List Logged) (clear : TableClear) (old new : Content)
        → IsWholeLog log → HasSourceRows names log old → IsEmptiedIn clear nothing log
        → IsClearedAt names clear old → IsClearedBy names clear old new → HasSourceRows names log new }
    // The next transaction, which is skipped and changes no table that is kept.
    ensures skipped { (names : Names) (log : List Logged) (d : DeliveryValue) (old new : Content)
        → IsWholeLog log → HasSourceRows names log old → AreOfLog names old.executed log (d ∷ [])
        → AllByRecursion (λ c. is_admitted names c ≡ false) d.changes
        → HasOutcome names old (record d { changes = [] }) (done new) → HasSourceRows names log new }
    // Where it changes the number of copies of a row that is kept, that row is lost: the database has not the source's rows any more.
    ensures lost { (names : Names) (log : List Logged) (d : DeliveryValue) (old new after : Content)
        → IsWholeLog log → HasSourceRows names log old → AreOfLog names old.executed log (d ∷ [])
        → HasOutcome names old (record d { changes = [] }) (done new) → HasSourceRows names log new
        → HasOutcome names old d (done after) → (schema table : List ℕ) (cells : List CellValue)
        → admits names schema table ≡ true
        → after.rows (row_of schema table cells) ≡ old.rows (row_of schema table cells) }
    // The next transactions, which are added without their changes where they change no table that is kept; and GTIDs of copies.
    ensures adopted { (names : Names) (log : List Logged) (ds : List DeliveryValue) (ids : Ids)
        (old : Content) → IsWholeLog log → HasSourceRows names log old → AreOfLog names old.executed log ds
        → AllByRecursion (λ d. AllByRecursion (λ c. is_admitted names c ≡ false) d.changes) ds
        → set.union old.executed ids ≡ with_all old.executed ds → HasSourceRows names log (adopted old ids) }
    ensures marked { (names : Names) (log : List Logged) (ids : Ids) (old : Content)
        → AreOfCopies ids → HasSourceRows names log old → HasSourceRows names log (adopted old ids) }
    // Two databases that have executed the same have the same rows.
    ensures one { (names : Names) (log : List Logged) (a b : Content) → IsWholeLog log
        → HasSourceRows names log a → HasSourceRows names log b → a.executed ≡ b.executed
        → (schema table : List ℕ) (cells : List CellValue) → admits names schema table ≡ true
        → a.rows (row_of schema table cells) ≡ b.rows (row_of schema table cells) }
{}

/// What becomes of that where a database is to follow more tables ([`admit_file`](crate::admit_file), `AdmitsTo`): `more` are the names
/// that its filter gets, which are those of the tables where rows are kept, and otherwise names that no table of a server can have.
pub fn admitted_at_source()
    // Tables of which the log had no row at the executed set.
    ensures alone { (names more : Names) (log : List Logged) (old : Content)
        → set.is_subset names set.empty ≡ false → HasSourceRowsWithout more names log old
        → HasSourceRows (widened names more) log old }
    // Tables of which a copy is loaded then: all others have their rows, so that what `at_source` says of a copy goes on from here.
    ensures with_copy { (names more tables : Names) (log : List Logged) (old : Content)
        → set.is_subset names set.empty ≡ false
        → HasSourceRowsWithout (set.difference more tables) names log old
        → HasSourceRowsBeside tables (widened names more) log old }
    // They have them too once the copy is begun.
    ensures begun { (names tables : Names) (log : List Logged) (old : Content) (ids : Ids) (first : Id)
        (rows : List TableRow) → IsWholeLog log → HasSourceRowsBeside tables names log old
        → HasPoint (IsCopyAt names tables old ids rows) nothing log → IsAtSet old.executed ids
        → is_of_copy first.0 ≡ true
        → HasSourceRowsBeside tables names log (adopted old (with_marks ids first)) }
    // It is found to be begun, and to begin it once more changes nothing.
    ensures found { (old : Content) (ids : Ids) (first : Id)
        → (was_begun (adopted old (with_marks ids first)).executed ids first ≡ true)
        × (adopted (adopted old (with_marks ids first)) (with_marks ids first)
        ≡ adopted old (with_marks ids first)) }
{}

/// What a replay of captured connections ([`replay`](crate::replay), clause `replays`) leaves in files that had no database, and what is
/// then done with the database in these files, or in what a crash leaves of them ([`in_file`](crate::in_file), clause `works`), as a
/// list by a lister: it is done with the content that the first transactions of each connection make of the empty one. Who reads that
/// need not read what files hold, and not why a connection ends.
pub fn replayed_and_listed<D: Disk, R: Read, E: Disk, K: Work>(
    _captures: &[Capture<R>],
    _replayed: &Replayed<D>,
    _was: &K,
    _is: &K,
    _made: &InFile<K::Done, E>,
)
    ensures { (limit : ℕ) (wanted only : Option Names) (first next : Image) → HoldNone first
        → OfHeld wanted first (λ names content.
        Replays R.Read.remaining limit names content _captures.now _replayed.now)
        → OfHeld only next (λ names content. WorksInFiles names
        (K.leads _was.now _is.now names content _made.now.done)
        (K.leaves _was.now _is.now names content _made.now.done) _made.now.closed)
        → IfOk _replayed.now.closed (λ files. AreClean D.Disk files.log files.db
        → outcomes D.Disk files.log files.db next
        → Reads R.Read.remaining (λ bs ends. (new : Content)
        × AppliesEach limit (names_for wanted) nothing bs ends new
        × WorksInFiles (names_for wanted)
        (K.leads _was.now _is.now (names_for wanted) new _made.now.done)
        (K.leaves _was.now _is.now (names_for wanted) new _made.now.done) _made.now.closed)
        _captures.now _replayed.now.ends.items _replayed.now.read) }
{}
