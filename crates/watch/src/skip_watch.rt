//! What a change feed says while a transaction is skipped.

ghost use Rattle.std.specs.Prelude.{◌≡◌, true, is_some, None};

use crate::watch::is_stopped_by;
use binlog::{Event, Follow};
use feed::{SkipError, SkipFeed, Skipping};
use files::FileFault;
use formats::text_of;
use gather::Delivery;
use gtid::{Gtid, GtidSet};
use replica::{Ended, Observer, Reason};
use std::alloc::Global;

/// Why a transaction is not recorded as skipped, or the feed does not say it.
#[derive(Drop)]
pub enum SkipStop {
    /// The feed could not be written.
    Feed(SkipError),
    /// A first copy of tables has begun in the database, and not ended.
    Unfinished,
}

/// An observer of a transaction without changes, which is recorded as executed. If there is a feed, it says before it that it
/// is to be skipped, and afterwards whether it was recorded. Of one that is executed it says nothing.
#[derive(Drop)]
pub struct SkipWatch<'a> {
    alloc: Global,
    feed: Option<SkipFeed<'a>>,
    /// The executed set at the start, where there is a feed.
    executed: Option<String>,
    skipping: Option<Skipping>,
    stop: Option<SkipStop>,
}

impl<'a> SkipWatch<'a> {
    /// An observer that nothing has been reported to.
    pub fn new(alloc: Global, feed: Option<SkipFeed<'a>>) -> SkipWatch<'a> {
        SkipWatch {
            alloc,
            feed,
            executed: None,
            skipping: None,
            stop: None,
        }
    }

    /// Why it is not recorded, or the feed does not say it, if so.
    pub fn stop(self) -> Option<SkipStop> {
        let SkipWatch { stop, .. } = self;
        stop
    }

    /// Takes the executed set at the start, where there is a feed.
    fn note_executed(&mut self, executed: &GtidSet)
        ensures { is_some self.old.stop ≡ true → is_some self.new.stop ≡ true }
    {
        if self.feed.is_none() {
            return;
        }
        match text_of(self.alloc, executed) {
            Ok(text) => self.executed = Some(text),
            Err(_) => self.stop = Some(SkipStop::Feed(SkipError::File(FileFault::Memory))),
        }
    }

    /// Says that a transaction is to be skipped.
    fn begin(&mut self, gtid: Gtid)
        ensures { is_some self.old.stop ≡ true → is_some self.new.stop ≡ true }
    {
        let (Some(feed), Some(executed)) = (self.feed, &self.executed) else {
            return;
        };
        match feed.begin(self.alloc, executed.as_str(), gtid) {
            Ok(skipping) => self.skipping = Some(skipping),
            Err(error) => self.stop = Some(SkipStop::Feed(error)),
        }
    }
}

impl Observer for SkipWatch<'_> {
    ghost account = { λ w. record {
      noted = None;
      seen = None;
      has_stopped = is_some w.stop;
      waits = None;
      excludes = true;
      keeps = None;
    } };

    fn opened(&mut self, executed: &GtidSet, _following: &Follow) {
        if is_stopped_by(executed, false) {
            self.stop = Some(SkipStop::Unfinished);
        } else {
            self.note_executed(executed);
        }
    }

    fn connected(&mut self) {}

    fn event(&mut self, _event: &Event<'_>, _bytes: &[u8], _pending: usize) {}

    fn before_apply(&mut self, delivery: &Delivery) -> bool {
        if self.stop.is_some() {
            return false;
        }
        self.begin(delivery.gtid);
        self.stop.is_none()
    }

    fn after_apply(&mut self, _delivery: &Delivery, outcome: &Result<bool, Reason>) {
        // After a failure of the database it may have been committed.
        let is_recorded = match outcome {
            Ok(_) => Some(true),
            Err(Reason::Database(_)) => None,
            Err(_) => Some(false),
        };
        let Some(skipping) = &mut self.skipping else {
            return;
        };
        if let Err(error) = skipping.end(is_recorded) {
            self.stop = Some(SkipStop::Feed(error));
        }
    }

    fn refused(&mut self, _payload: &[u8], _reason: &Reason) {}

    fn ended(&mut self, _end: &Ended) -> bool {
        self.stop.is_none()
    }

    fn is_done(&self) -> bool {
        false
    }
}
