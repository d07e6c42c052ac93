//! What is reported of connections while they are read.

ghost use Rattle.std.specs.Prelude.{◌≡◌, true, false, not, [], ◌∷◌, None, if◌then◌else◌};
ghost use Rattle.binlog.specs.EventView.{event_value};
ghost use Rattle.gather.specs.View.{delivery_value};
ghost use Rattle.replica.specs.Noted.{Account, Excludes, HasNotices, HasNoNotice, HasBeenSeen, opened, connected, before, stopped, after, ended, event_read, refused_payload};
ghost use Rattle.replica.specs.Missing.{waits_for_none};

use crate::session::end::{Ended, Reason};
use binlog::{Event, Follow};
use gather::Delivery;
use gtid::GtidSet;

/// What connections are reported to while they are read, and what may stop them.
pub trait Observer {
    // What was reported to it, what it was given of payloads, whether it has asked to stop, which transactions it still waits
    // for, and for which databases it stops: for one with a first copy that has not ended, for one that keeps rows, or none.
    ghost account: { Self → Account };

    /// Called once with the executed set and the filter of a database file, before anything is read.
    fn opened(&mut self, executed: &GtidSet, following: &Follow)
        ensures noticed { HasNotices (account self.old) (account self.new) (opened executed.now ∷ []) }
        ensures excludes { Excludes (account self.old) executed.now following.now
            (account self.new) }
        ensures seen { (account self.new).seen ≡ (account self.old).seen };

    /// Called when the source has been reached.
    fn connected(&mut self)
        ensures noticed { HasNotices (account self.old) (account self.new) (connected ∷ []) }
        ensures seen { (account self.new).seen ≡ (account self.old).seen };

    /// Called after this many bytes of a connection have been read, before they are used.
    fn received(&mut self, _count: usize)
        ensures noticed { HasNoNotice (account self.old) (account self.new) }
        ensures seen { (account self.new).seen ≡ (account self.old).seen }
    {}

    /// Called with each event of a connection, before it is used; with its bytes, header and body, and with how many changes
    /// of the open transaction came before it.
    fn event(&mut self, event: &Event<'_>, bytes: &[u8], pending: usize)
        ensures noticed { HasNoNotice (account self.old) (account self.new) }
        ensures seen { HasBeenSeen (account self.old).seen (account self.new).seen
            (event_read (event_value event.now) bytes.now pending ∷ []) };

    /// Called with each whole transaction that is not in the executed set, before it is applied. Returns whether it is to
    /// be applied; otherwise the connection ends with `Reason::Halted`.
    fn before_apply(&mut self, delivery: &Delivery) -> bool
        ensures goes_on { result ≡ not (account self.new).has_stopped }
        ensures noticed { HasNotices (account self.old) (account self.new)
            ((if result then before (delivery_value delivery.now)
            else stopped (delivery_value delivery.now)) ∷ []) }
        ensures missed { result ≡ true → waits_for_none (account self.new).waits ≡ false }
        ensures seen { (account self.new).seen ≡ (account self.old).seen };

    /// Called with each whole transaction after it: whether it was applied, which one of the executed set is not, or why
    /// the connection ends.
    fn after_apply(&mut self, delivery: &Delivery, outcome: &Result<bool, Reason>)
        ensures noticed { HasNotices (account self.old) (account self.new)
            (after (delivery_value delivery.now) outcome.now ∷ []) }
        ensures seen { (account self.new).seen ≡ (account self.old).seen };

    /// Called with a payload of the dump that ends the connection without ending a transaction: an event and the byte
    /// before it, or a message of the source.
    fn refused(&mut self, payload: &[u8], reason: &Reason)
        ensures noticed { HasNoNotice (account self.old) (account self.new) }
        ensures seen { HasBeenSeen (account self.old).seen (account self.new).seen
            (refused_payload payload.now reason.now ∷ []) };

    /// Called with the end of each connection of a list, as soon as it has ended. Returns whether the next one is to be
    /// read.
    fn ended(&mut self, end: &Ended) -> bool
        ensures goes_on { result ≡ not (account self.new).has_stopped }
        ensures noticed { HasNotices (account self.old) (account self.new) (ended end.now result ∷ []) }
        ensures seen { (account self.new).seen ≡ (account self.old).seen };

    /// Whether it waits for nothing more, so that nothing more is to be read: the connection ends with `Reason::Until`.
    /// Asked before anything is read, and after each transaction that was applied.
    fn is_done(&self) -> bool
        ensures done { result ≡ waits_for_none (account self.now).waits }
        ensures stopped { result ≡ true → (account self.now).has_stopped ≡ true };
}

/// An observer that does nothing and never stops.
#[derive(Clone, Copy, Debug, Drop)]
pub struct Unobserved;

impl Observer for Unobserved {
    ghost account = { λ _. record {
      noted = None;
      seen = None;
      has_stopped = false;
      waits = None;
      excludes = false;
      keeps = None;
    } };

    fn opened(&mut self, _executed: &GtidSet, _following: &Follow) {}

    fn connected(&mut self) {}

    fn event(&mut self, _event: &Event<'_>, _bytes: &[u8], _pending: usize) {}

    fn before_apply(&mut self, _delivery: &Delivery) -> bool {
        true
    }

    fn after_apply(&mut self, _delivery: &Delivery, _outcome: &Result<bool, Reason>) {}

    fn refused(&mut self, _payload: &[u8], _reason: &Reason) {}

    fn ended(&mut self, _end: &Ended) -> bool {
        true
    }

    fn is_done(&self) -> bool {
        false
    }
}
