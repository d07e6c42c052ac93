//! What the events of a transaction say of it besides its changes: when each change was made and by which statement, and of the
//! commit when it was, on which server, by which thread, and under which number there.

ghost use Rattle.std.specs.Prelude.{◌≡◌, ◌≢◌, ◌<◌, ◌≤◌, ℕ, List, [], None, Some, true, false, OnOk, OnErr};
ghost use Rattle.binlog.specs.Event.{gtid, begin, neutral, rows, xid};
ghost use Rattle.binlog.specs.EventView.{event_value};
ghost use Rattle.binlog.specs.Rows.{RowsValue};
ghost use Rattle.feed.specs.Seconds.{seconds_at};
ghost use Rattle.feed.specs.Stamps.{AreSecondsOf, IsServerOf, IsCommitOf, may_take, is_said};
ghost use Rattle.feed.specs.Statements.{IsThreadOf, IsStatementText, text_at};

use crate::seconds::Seconds;
use crate::statements::{Texts, text_of_query, thread_of};
use binlog::{Event, Origin, committed_micros};
use std::alloc::{AllocError, Global};

/// What the events of the open transaction say of it. What they do not say is not known.
#[derive(Drop)]
pub struct Stamps {
    /// The id of the server that committed it first.
    pub(crate) server: Option<u32>,
    /// When the sending server committed it, in microseconds since 1970-01-01 00:00:00 UTC.
    pub(crate) committed: Option<u64>,
    /// The number of its XID event. A transaction that ends with COMMIT has none.
    pub(crate) xid: Option<u64>,
    /// The id of the thread that made it.
    pub(crate) thread: Option<u32>,
    /// The seconds of its changes.
    pub(crate) seconds: Seconds,
    /// The texts of its statements.
    pub(crate) texts: Texts,
}

impl Stamps {
    /// Nothing is known.
    ///
    /// It takes no memory.
    ///
    /// Clauses: `known`, `seconds`: the above.
    pub fn new(alloc: Global) -> Stamps
        ensures known { (result.server ≡ None) × ((result.committed ≡ None)
            × ((result.xid ≡ None) × (result.thread ≡ None))) }
        ensures seconds { (result.seconds ≡ []) × (result.texts ≡ []) }
    {
        Stamps {
            server: None,
            committed: None,
            xid: None,
            thread: None,
            seconds: Seconds::new(alloc),
            texts: Texts::new(alloc),
        }
    }

    /// Forgets all.
    ///
    /// Clauses: as [`Stamps::new`]
    pub fn clear(&mut self)
        ensures known { (self.new.server ≡ None) × ((self.new.committed ≡ None)
            × ((self.new.xid ≡ None) × (self.new.thread ≡ None))) }
        ensures seconds { (self.new.seconds ≡ []) × (self.new.texts ≡ []) }
    {
        self.begin(None, None);
    }

    /// When the sending server committed the transaction, in microseconds since 1970-01-01 00:00:00 UTC, if that is
    /// known.
    ///
    /// Clauses: the above.
    pub fn committed_at(&self) -> Option<u64>
        ensures { result ≡ self.now.committed }
    {
        self.committed
    }

    /// Takes an event, its bytes, and how many changes the open transaction had before it. If memory runs out, the
    /// seconds of the changes before it stay as they were.
    ///
    /// Clauses:
    /// - `begun`: after a GTID event the server is that of its header, the time of the commit that of its body, each
    ///   known exactly where the event has it, and nothing else is known
    /// - `rows`, `before`: after a rows event with so many changes before it, the changes from there on have the
    ///   seconds of its header, and those before it the ones that they had
    /// - `xid`: an XID event adds its number
    /// - `thread`: BEGIN adds the thread that it has, and changes nothing else
    /// - `text`, `others`, `no_text`: a ROWS_QUERY event with so many changes before it adds its text at this place, and
    ///   changes no text of another place; any other event that is ignored changes nothing
    /// - `kept`: nor does any other event
    /// - `memory`: memory runs out only at a rows event, and at one that is ignored
    pub fn event(
        &mut self,
        event: &Event<'_>,
        bytes: &[u8],
        pending: usize,
    ) -> Result<(), AllocError>
        ensures begun { (source : List ℕ) (number : ℕ) → event_value event.now ≡ gtid source number
            → IsServerOf bytes.now self.new.server × (IsCommitOf bytes.now self.new.committed
            × ((self.new.xid ≡ None) × ((self.new.thread ≡ None)
            × ((self.new.seconds ≡ []) × (self.new.texts ≡ []))))) }
        ensures rows { (value : RowsValue) → event_value event.now ≡ rows value → (n : ℕ)
            → pending ≤ n → OnOk result (AreSecondsOf bytes.now (seconds_at self.new.seconds n)) }
        ensures before { (value : RowsValue) → event_value event.now ≡ rows value → (n : ℕ)
            → n < pending → seconds_at self.new.seconds n ≡ seconds_at self.old.seconds n }
        ensures xid { (number : ℕ) → event_value event.now ≡ xid number →
            self.new ≡ record self.old { xid = Some number } }
        ensures thread { event_value event.now ≡ begin → IsThreadOf bytes.now self.new.thread
            × (self.new ≡ record self.old { thread = self.new.thread }) }
        ensures text { event_value event.now ≡ neutral → (text : List ℕ) → IsStatementText text bytes.now
            → OnOk result (text_at self.new.texts pending ≡ Some text) }
        ensures others { event_value event.now ≡ neutral → (self.new ≡ record self.old
            { texts = self.new.texts }) × ((n : ℕ) → n ≢ pending
            → text_at self.new.texts n ≡ text_at self.old.texts n) }
        ensures no_text { event_value event.now ≡ neutral → ((text : List ℕ)
            → IsStatementText text bytes.now → ⊥) → self.new ≡ self.old }
        ensures kept { is_said (event_value event.now) ≡ false → self.new ≡ self.old }
        ensures memory { OnErr result (may_take (event_value event.now) ≡ true) }
    {
        match event {
            Event::Gtid(_) => self.begin(server_of(bytes), commit_of(bytes)),
            Event::Rows(_) => self.seconds.set(pending, seconds_of(bytes))?,
            Event::Xid { number } => self.xid = Some(*number),
            Event::Begin => self.thread = thread_of(bytes),
            Event::Neutral => self.add_text(bytes, pending)?,
            _ => {}
        }
        Ok(())
    }

    /// Begins a transaction of which this is known.
    fn begin(&mut self, server: Option<u32>, committed: Option<u64>)
        ensures known { (self.new.server ≡ server) × ((self.new.committed ≡ committed)
            × ((self.new.xid ≡ None) × (self.new.thread ≡ None))) }
        ensures seconds { (self.new.seconds ≡ []) × (self.new.texts ≡ []) }
    {
        self.server = server;
        self.committed = committed;
        self.xid = None;
        self.thread = None;
        self.seconds.clear();
        self.texts.clear();
    }

    /// Adds the text that an event has, if it is one of a statement.
    fn add_text(&mut self, bytes: &[u8], pending: usize) -> Result<(), AllocError>
        ensures text { (text : List ℕ) → IsStatementText text bytes.now
            → OnOk result (text_at self.new.texts pending ≡ Some text) }
        ensures others { (n : ℕ) → n ≢ pending
            → text_at self.new.texts n ≡ text_at self.old.texts n }
        ensures no_text { ((text : List ℕ) → IsStatementText text bytes.now → ⊥)
            → self.new ≡ self.old }
        ensures same { self.new ≡ record self.old { texts = self.new.texts } }
    {
        if let Some(text) = text_of_query(bytes) {
            self.texts.add(pending, text)?;
        }
        Ok(())
    }
}

/// The seconds in the header of an event.
fn seconds_of(event: &[u8]) -> Option<u32>
    ensures { AreSecondsOf event.now result }
{
    match Origin::read(event) {
        Some(origin) => Some(origin.seconds),
        None => None,
    }
}

/// The server id in the header of an event.
fn server_of(event: &[u8]) -> Option<u32>
    ensures { IsServerOf event.now result }
{
    match Origin::read(event) {
        Some(origin) => Some(origin.server_id),
        None => None,
    }
}

/// The time of the commit in a GTID event, in microseconds.
fn commit_of(event: &[u8]) -> Option<u64>
    ensures { IsCommitOf event.now result }
{
    committed_micros(event)
}
