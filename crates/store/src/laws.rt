//! Laws about the definitions, for callers.
//!
//! A law is a function with an empty body: its clauses are proved of the definitions themselves.

ghost use Rattle.std.specs.Prelude.{◌≡◌, ℤ, true};
ghost use Rattle.sqlite.specs.Held.{state};
ghost use Rattle.store.specs.State.{Content};
ghost use Rattle.sqlite.specs.Effect.{IsDatabase};
ghost use Rattle.binlog.specs.Filter.{Names};
ghost use Rattle.store.specs.Layout.{IsLaidOut};
ghost use Rattle.store.specs.Rows.{HasRowids, span_rows};
ghost use Rattle.store.specs.Entering.{IsKnown, IsReady, IsStored, IsOf, IsDamaged, IsOtherLayout, IsLeft, ReadsLeft, tables_of, has_any};
ghost use Rattle.store.specs.Store.{Holds, AreOf, database, names_of};

use crate::store::Store;
use sqlite::{Alter, Connection};

/// A store holds only one content.
pub fn one_content<S: Alter>(_store: &Store<S>)
    ensures { (a : Content) → (b : Content) → Holds S.Store _store.now a
        → Holds S.Store _store.now b → a ≡ b }
{}

/// After a crash, the database has what a store that has not failed holds, and nothing else.
pub fn left_over_a_crash<S: Alter>(_store: &Store<S>)
    ensures { (content : Content) → Holds S.Store _store.now content → (trees : _)
        → (database S.Store _store.now).may_leave trees
        → AreOf (database S.Store _store.now).now.schema
        (names_of S.Store _store.now) content trees }
{}

/// What a crash leaves of a whole store can be opened as that store.
pub fn left_to_be_opened<S: Alter>(_store: &Store<S>)
    ensures { (content : Content) → Holds S.Store _store.now content → (trees : _)
        → (database S.Store _store.now).may_leave trees → (only : Names)
        → IsLeft only (names_of S.Store _store.now) content trees }
{
    left_over_a_crash(_store);
}

/// What a crash leaves that stands for a content can be opened as that content.
pub fn left_of_a_content<S: Alter>(_store: &Store<S>)
    ensures { (schema : _) → (names : Names) → (content : Content) → (trees : _)
        → AreOf schema names content trees → (only : Names) → IsLeft only names content trees }
{}

/// A connection that reads what a crash has left is ready to be opened.
pub fn left_is_ready<S: Alter>(conn: &Connection<S>)
    ensures { (only : Names) → (names : Names) → (content : Content)
        → ReadsLeft only names content (state S.Store conn.now) → IsReady (state S.Store conn.now) }
{
    // For the prover: what the connection shows is a database. The call does nothing at run time.
    conn.schema();
}

/// A database stands for at most one content and one filter. One that does is not damaged (with the rowids of
/// `spans` apart, as each opening tests) and has no other layout, and a damaged one has no other layout. Of known tables
/// that are there, one of the three is so.
pub fn one_state<S: Alter>(_conn: &Connection<S>)
    ensures one { (only : Names) → (n : Names) → (m : Names) → (a : Content) → (b : Content)
        → IsOf only n (state S.Store _conn.now).now a → IsOf only m (state S.Store _conn.now).now b
        → (n ≡ m) × (a ≡ b) }
    ensures sound { (only : Names) → (n : Names) → (a : Content)
        → IsDatabase (state S.Store _conn.now).now
        → (IsLaidOut (state S.Store _conn.now).now.schema
        → HasRowids (span_rows (state S.Store _conn.now).now))
        → IsOf only n (state S.Store _conn.now).now a → ¬ IsDamaged (state S.Store _conn.now).now }
    ensures known { (only : Names) → (n : Names) → (a : Content) → (k : ℤ)
        → IsOf only n (state S.Store _conn.now).now a
        → ¬ IsOtherLayout (state S.Store _conn.now).now k }
    ensures some { IsKnown (state S.Store _conn.now).now
        → has_any (tables_of (state S.Store _conn.now).now.schema) ≡ true
        → ((n : Names) → (a : Content) → ¬ IsStored n (state S.Store _conn.now).now a)
        → ¬ IsDamaged (state S.Store _conn.now).now
        → ((k : ℤ) → ¬ IsOtherLayout (state S.Store _conn.now).now k) → ⊥ }
    ensures other { (k : ℤ) → IsDamaged (state S.Store _conn.now).now
        → ¬ IsOtherLayout (state S.Store _conn.now).now k }
{}
