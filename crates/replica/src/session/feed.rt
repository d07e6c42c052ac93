//! Reading a connection.

ghost use Rattle.std.specs.Prelude.{◌≡◌, ◌↔◌, ℕ, ◌+◌, ◌<◌, ◌≤◌, ◌++◌, [], List, length, Bool, IsErr, IsSome, IfSome, option_map, None};
ghost use Rattle.sqlite.specs.State.{HasCleanDisk};
ghost use Rattle.sqlite_schema.specs.declared.schema.Schema.{Schema};
ghost use Rattle.binlog.specs.Filter.{Names};
ghost use Rattle.store.specs.State.{Content};
ghost use Rattle.replica.specs.Conn.{Conn, BreaksStore, IsOwn};
ghost use Rattle.replica.specs.Sent.{SentFor};
ghost use Rattle.replica.specs.Standing.{Position, Stands, from_start, reads_on, sends_on, end_of, room_of, taken_of};
ghost use Rattle.replica.specs.Over.{StandsOver};
ghost use Rattle.replica.specs.PayloadStep.{reason_of};
ghost use Rattle.store.specs.Store.{database};
ghost use Rattle.replica.specs.Noted.{MayEnd};
ghost use Rattle.replica.specs.Keeps.{KeepsStore, KeepsObserved};

use crate::observer::{Observer, Unobserved};
use crate::session::Session;
use crate::session::config::Config;
use crate::session::end::{Ended, Reason};
use crate::session::phase::{Login, Phase};
use gather::Gatherer;
use sqlite::Alter;
use std::mem;
use store::Store;
use thiserror::Error;
use wire::{Assembler, Step, WireFault};

/// The session has ended and reads no more.
#[derive(Clone, Copy, Debug, PartialEq, Eq, Error)]
#[error("the session has ended")]
pub struct Stopped;

/// The reason for a fault of the packets.
fn reason_for(fault: WireFault) -> Reason
    ensures { result ≡ reason_of fault }
{
    match fault {
        WireFault::Memory => Reason::Memory,
        other => Reason::Wire(other),
    }
}

impl Session {
    /// A session that has read nothing. It takes no memory.
    pub fn new(config: Config) -> Session
        // Over any store it starts with nothing read or sent. (`Stands` relates a session to the bytes that it has read
        // and sent.)
        ensures stands { (names : Names) (broken : Bool) (content : Content)
            → Stands result names (from_start broken content) broken content }
        ensures config { result.config ≡ config }
        ensures ended { result.ended ≡ None }
        ensures none { (result.at ≡ 0) × (result.applied ≡ 0) }
    {
        let alloc = config.alloc();
        let limit = config.limit();
        Session {
            config,
            assembler: Assembler::new(alloc, limit),
            gatherer: Gatherer::new(alloc),
            phase: Phase::Login(Login::Greeting),
            out: Vec::new(alloc),
            at: 0,
            applied: 0,
            ended: None,
        }
    }

    /// Reads the next bytes of the connection, in pieces of any size. Transactions that they complete are applied to
    /// the store, and replies that they require are added to the pending output.
    ///
    /// The call that reaches the end of the connection returns `Ok`. After the end nothing is read, and the answer is
    /// `Stopped`.
    ///
    /// Clauses:
    /// - `stands`, `stopped`, `after`: a session that has read the bytes b has then read b and the new bytes; after the
    ///   end it reads nothing
    /// - `config`, `keeps`, `may_end`, `room`: its settings, the tables that are followed and a store that has failed
    ///   stay; it is not halted; until it ends it has room for so many bytes fewer
    pub fn feed<S: Alter>(&mut self, store: &mut Store<S>, bytes: &[u8]) -> Result<(), Stopped>
        // At whatever position the session stood over the store, it is now at the one with these bytes read too.
        ensures stands { HasCleanDisk (database S.Store store.new)
            → (schema : Schema) (pos : Position)
            → StandsOver S.Store self.old store.old schema pos
            → StandsOver S.Store self.new store.new schema (reads_on pos bytes.now) }
        // It follows the same tables, and a store that has failed stays as it is.
        ensures keeps { KeepsStore S.Store store.old store.new }
        ensures config { self.new.config ≡ self.old.config }
        ensures may_end { IsOwn (end_of self.old).reason → IsOwn (end_of self.new).reason }
        ensures stopped { IsErr result ↔ IsSome self.old.ended }
        ensures after { IsSome self.old.ended → (self.new ≡ self.old) × (store.new ≡ store.old) }
        // Until the connection ends, all bytes are taken in, and there is room for that many fewer.
        ensures room { self.new.ended ≡ None → room_of self.new + length bytes.now
            ≤ room_of self.old }
    {
        self.feed_observed(store, bytes, &mut Unobserved)
    }

    /// As [`Session::feed`], and reports events and transactions to an observer, which may stop it before one.
    pub fn feed_observed<S: Alter, W: Observer>(
        &mut self,
        store: &mut Store<S>,
        bytes: &[u8],
        observer: &mut W,
    ) -> Result<(), Stopped>
        ensures stands { HasCleanDisk (database S.Store store.new)
            → (schema : Schema) (pos : Position)
            → StandsOver S.Store self.old store.old schema pos
            → StandsOver S.Store self.new store.new schema (reads_on pos bytes.now) }
        // What was reported to the observer leads from the content before to the one afterwards; once it has stopped, the store
        // stays as it is.
        ensures keeps { KeepsObserved S.Store store.old store.new (W.account observer.old)
            (W.account observer.new) [] }
        ensures config { self.new.config ≡ self.old.config }
        // The connection is halted only if the observer has stopped.
        ensures may_end { MayEnd (end_of self.old).reason (W.account observer.old)
            → MayEnd (end_of self.new).reason (W.account observer.new) }
        ensures stopped { IsErr result ↔ IsSome self.old.ended }
        ensures after { IsSome self.old.ended → (self.new ≡ self.old) × (store.new ≡ store.old) }
        ensures room { self.new.ended ≡ None → room_of self.new + length bytes.now
            ≤ room_of self.old }
    {
        if self.ended.is_some() {
            return Err(Stopped);
        }
        let mut rest = bytes;
        while let Some(used) = self.advance(store, rest, observer) {
            rest = &rest[used..];
        }
        Ok(())
    }

    /// Reads up to the end of the next payload, takes it, and returns how many bytes these are; or reads all bytes and
    /// returns `None`.
    fn advance<S: Alter, W: Observer>(
        &mut self,
        store: &mut Store<S>,
        bytes: &[u8],
        observer: &mut W,
    ) -> Option<usize>
        ensures stands { HasCleanDisk (database S.Store store.new)
            → (schema : Schema) (pos : Position)
            → StandsOver S.Store self.old store.old schema pos
            → StandsOver S.Store self.new store.new schema
            (reads_on pos (taken_of result bytes.now)) }
        ensures used { IfSome result (λ used. (0 < used) × (used ≤ length bytes.now)) }
        ensures keeps { KeepsObserved S.Store store.old store.new (W.account observer.old)
            (W.account observer.new) [] }
        ensures config { self.new.config ≡ self.old.config }
        ensures may_end { MayEnd (end_of self.old).reason (W.account observer.old)
            → MayEnd (end_of self.new).reason (W.account observer.new) }
        ensures room { self.new.ended ≡ None → (self.old.ended ≡ None)
            × (room_of self.new + length (taken_of result bytes.now) ≤ room_of self.old) }
    {
        if self.ended.is_some() {
            return None;
        }
        let step = match self.assembler.step(bytes) {
            Ok(step) => step,
            Err(fault) => {
                self.end(reason_for(fault));
                return None;
            }
        };
        let Step { used, payload } = step;
        let payload = payload?;
        self.take(store, &payload, observer);
        Some(used)
    }

    /// Returns the pending output: the bytes that are to be sent since the last call. It takes no memory.
    ///
    /// Clauses:
    /// - `sent`: all is handed out that the payloads taken ask for
    /// - `stands`, `config`, `end`, `ended`, `room`: all else is as it was
    pub fn take_out(&mut self) -> Vec<u8>
        ensures stands { (names : Names) (pos : Position) (is : Bool) (now : Content)
            → Stands self.old names pos is now
            → Stands self.new names (sends_on pos result.items) is now }
        // With it, everything due in reply to the payloads taken has been sent.
        ensures sent { (names : Names) (pos : Position) (is : Bool) (now : Content)
            → Stands self.old names pos is now
            → SentFor self.old.config names pos.old.executed pos.read (end_of self.old).at
            (pos.sent ++ result.items) }
        ensures config { self.new.config ≡ self.old.config }
        ensures end { end_of self.new ≡ end_of self.old }
        ensures ended { self.new.ended ≡ self.old.ended }
        ensures room { room_of self.new ≡ room_of self.old }
    {
        let alloc = self.config.alloc();
        mem::replace(&mut self.out, Vec::new(alloc))
    }

    /// How the connection ended, or `None` as long as it has not. It takes no memory.
    pub fn ended(&self) -> Option<&Ended>
        ensures { option_map (λ e. e.now) result ≡ self.now.ended }
    {
        self.ended.as_ref()
    }

    /// How the connection ends if no more bytes come. It takes no memory.
    pub fn finish(self) -> Ended
        ensures end { result ≡ end_of self }
        ensures conn { (names : Names) (pos : Position) (is : Bool) (now : Content)
            → Stands self names pos is now
            → Conn self.config.limit names pos.was pos.old pos.read now result }
        ensures store { (names : Names) (pos : Position) (is : Bool) (now : Content)
            → Stands self names pos is now → BreaksStore result.reason pos.was is }
    {
        let Session {
            at,
            applied,
            ended,
            ..
        } = self;
        match ended {
            Some(ended) => ended,
            None => Ended {
                reason: Reason::EndOfInput,
                at,
                applied,
            },
        }
    }
}
