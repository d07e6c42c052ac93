//! What a session does with a payload.

ghost use Rattle.std.specs.Prelude.{◌≡◌, ◌≢◌, ◌≤◌, ◌<◌, ◌+◌, Bool, List, ℕ, Some, None, false, length, [], if◌then◌else◌};
ghost use Rattle.sqlite.specs.State.{HasCleanDisk};
ghost use Rattle.sqlite_schema.specs.declared.schema.Schema.{Schema};
ghost use Rattle.binlog.specs.Filter.{Names};
ghost use Rattle.wire.specs.Packet.{packing_length};
ghost use Rattle.store.specs.State.{Content};
ghost use Rattle.replica.specs.Standing.{Position, Stands, Meets, first_id_of, offset_of, MovesOn, room_of, end_of};
ghost use Rattle.replica.specs.Conn.{IsOwn};
ghost use Rattle.replica.specs.Over.{StandsOver, MeetsOver};
ghost use Rattle.replica.specs.declared.session.phase.Phase.TheVariants as phase;
ghost use Rattle.store.specs.Store.{database};
ghost use Rattle.replica.specs.Noted.{MayEnd};
ghost use Rattle.replica.specs.Missing.{waits_for_none};
ghost use Rattle.replica.specs.Keeps.{KeepsObserved};

use crate::observer::Observer;
use crate::session::Session;
use crate::session::dump::take_event;
use crate::session::end::{Ended, Reason};
use crate::session::message::answer;
use crate::session::phase::{Login, Phase};
use gtid::GtidSet;
use sqlite::Alter;
use store::Store;
use wire::{WireFault, packing_length};

/// The sequence id that the next packet must have, before any payload of the dump has come.
fn first_id(phase: Phase) -> u8
    ensures { result ≡ first_id_of phase }
{
    match phase {
        Phase::Login(Login::Greeting) => 0,
        Phase::Login(Login::Reply) => 2,
        Phase::Login(Login::SecondReply) => 4,
        Phase::Login(Login::QueryReply) => 1,
        Phase::Dump => 1,
    }
}

impl Session {
    /// Ends the connection after the payloads taken.
    pub(crate) fn end(&mut self, reason: Reason)
        ensures { self.new ≡ record self.old {
          ended = Some
              (record { reason = reason; at = self.old.at; applied = self.old.applied });
        } }
    {
        self.ended = Some(Ended {
            reason,
            at: self.at,
            applied: self.applied,
        });
    }

    /// Counts the payload that ends at `end` as taken, and whether a transaction was applied.
    fn go_on(&mut self, end: u64, applied: bool)
        requires { self.old.at < end }
        ensures { MovesOn self.old self.new end (self.old.applied + (if applied then 1 else 0)) }
    {
        self.at = end;
        if applied {
            self.applied += 1;
        }
    }

    /// Ends the connection after the payloads taken. The EOF at the end of the log, which ends at `end`, is one of
    /// them.
    fn end_after(&mut self, reason: Reason, end: u64)
        requires { self.old.at < end }
        ensures config { self.new.config ≡ self.old.config }
        ensures out { self.new.out ≡ self.old.out }
        ensures ended { self.new.ended ≡ Some (record {
          reason = reason;
          at = offset_of reason
              self.old.at end;
          applied = self.old.applied;
        }) }
    {
        if let Reason::SourceEof = reason {
            self.at = end;
        }
        self.end(reason);
    }

    /// Takes a message before the dump, which ends at the offset `end`.
    fn take_message(&mut self, login: Login, executed: &GtidSet, payload: &[u8], end: u64)
        requires going { self.old.ended ≡ None }
        requires at_login { self.old.phase ≡ phase.Login login }
        requires between { (self.old.assembler.held ≡ []) × (self.old.assembler.ended ≡ false) }
        requires after { self.old.at < end }
        ensures config { self.new.config ≡ self.old.config }
        ensures may_end { IsOwn (end_of self.new).reason }
        ensures further { self.new.ended ≡ None → (self.new.at ≡ end)
            × (self.new.assembler.held ≡ []) }
        ensures takes { (names : Names) (pos : Position) (is : Bool) (now : Content)
            → executed.now ≡ now.executed → end ≡ self.old.at + packing_length (length payload.now)
            → Meets self.old names pos is now payload.now
            → Stands self.new names pos is now }
    {
        match answer(login, &self.config, executed, payload, &mut self.out) {
            Ok(phase) => {
                self.phase = phase;
                self.assembler.expect(first_id(phase));
                self.at = end;
            }
            Err(reason) => self.end(reason),
        }
    }

    /// Takes a payload of the dump, which ends at the offset `end`.
    fn take_dump<S: Alter, W: Observer>(
        &mut self,
        store: &mut Store<S>,
        payload: &[u8],
        end: u64,
        observer: &mut W,
    )
        requires going { self.old.ended ≡ None }
        requires in_dump { self.old.phase ≡ phase.Dump }
        requires between { self.old.assembler.held ≡ [] }
        requires after { self.old.at < end }
        ensures keeps { KeepsObserved S.Store store.old store.new (W.account observer.old)
            (W.account observer.new) [] }
        ensures config { self.new.config ≡ self.old.config }
        ensures may_end { MayEnd (end_of self.new).reason (W.account observer.new) }
        ensures further { self.new.ended ≡ None → (self.new.at ≡ end)
            × (self.new.assembler.held ≡ []) }
        // It does not go on after a transaction that was applied, if the observer waits for nothing more.
        ensures until { self.new.ended ≡ None → self.new.applied ≢ self.old.applied
            → waits_for_none (W.account observer.new).waits ≡ false }
        ensures takes { HasCleanDisk (database S.Store store.new)
            → (schema : Schema) (pos : Position)
            → end ≡ self.old.at + packing_length (length payload.now)
            → MeetsOver S.Store self.old store.old schema pos payload.now
            → StandsOver S.Store self.new store.new schema pos }
    {
        let alloc = self.config.alloc();
        let applied = match take_event(alloc, &mut self.gatherer, store, payload, observer) {
            Ok(applied) => applied,
            Err(reason) => {
                self.end_after(reason, end);
                return;
            }
        };
        self.go_on(end, applied);
        if !applied {
            return;
        }
        if observer.is_done() {
            self.end(Reason::Until);
            return;
        }
    }

    /// Takes a payload that has come.
    pub(crate) fn take<S: Alter, W: Observer>(
        &mut self,
        store: &mut Store<S>,
        payload: &[u8],
        observer: &mut W,
    )
        requires going { self.old.ended ≡ None }
        requires between { (self.old.assembler.held ≡ []) × (self.old.assembler.ended ≡ false) }
        ensures keeps { KeepsObserved S.Store store.old store.new (W.account observer.old)
            (W.account observer.new) [] }
        ensures config { self.new.config ≡ self.old.config }
        ensures may_end { MayEnd (end_of self.new).reason (W.account observer.new) }
        ensures room { self.new.ended ≡ None → room_of self.new + packing_length
            (length payload.now) ≤ room_of self.old }
        ensures takes { HasCleanDisk (database S.Store store.new)
            → (schema : Schema) (pos : Position)
            → MeetsOver S.Store self.old store.old schema pos payload.now
            → StandsOver S.Store self.new store.new schema pos }
    {
        let Some(end) = self.at.checked_add(packing_length(payload.len()) as u64) else {
            self.end(Reason::Wire(WireFault::TooLarge));
            return;
        };
        match self.phase {
            Phase::Dump => self.take_dump(store, payload, end, observer),
            Phase::Login(login) => self.take_message(login, store.executed(), payload, end),
        }
    }
}
