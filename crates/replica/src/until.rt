//! An observer that stops once nothing of a set is missing.

ghost use Rattle.std.specs.Prelude.{◌≡◌, ◌||◌, [], ◌∷◌, Option, None, Some, Err, if◌then◌else◌, true, is_none};
ghost use Rattle.gather.specs.View.{delivery_value};
ghost use Rattle.replica.specs.Noted.{StillWaits, after};
ghost use Rattle.replica.specs.Missing.{is_over, IsLeftOf};

use crate::observer::Observer;
use crate::session::end::{Ended, Reason};
use binlog::{Event, Follow};
use gather::Delivery;
use gtid::GtidSet;
use std::alloc::Global;

/// An observer around another one, which stops once no transaction of a set is missing: each is in the executed set of the
/// database that was opened, or was applied since. It also stops where memory runs out for what is missing.
#[derive(Drop)]
pub struct Until<W> {
    alloc: Global,
    inner: W,
    /// What is missing; none once memory has run out.
    missing: Option<GtidSet>,
    /// Whether it has said that it stops where the observer in it has not been asked, or has said that it goes on.
    is_apart: bool,
}

/// What is left of a set without another one; none if memory runs out, or had run out before.
fn without(missing: Option<GtidSet>, taken: &GtidSet) -> Option<GtidSet>
    ensures { IsLeftOf missing taken.now result }
{
    let mut left = missing?;
    match left.subtract(taken) {
        Ok(()) => Some(left),
        Err(_) => None,
    }
}

/// What is missing after this was reported of a transaction; none if memory runs out, or had run out before.
fn left_after(
    alloc: Global,
    missing: Option<GtidSet>,
    delivery: &Delivery,
    outcome: &Result<bool, Reason>,
) -> Option<GtidSet>
    ensures { StillWaits missing (after (delivery_value delivery.now) outcome.now ∷ []) result }
{
    let Ok(true) = outcome else {
        return missing;
    };
    let left = missing?;
    if !left.contains(delivery.gtid) {
        return Some(left);
    }
    let mut one = GtidSet::new(alloc);
    match one.insert(delivery.gtid) {
        Ok(_) => without(Some(left), &one),
        Err(_) => None,
    }
}

impl<W> Until<W> {
    /// An observer around this one that waits for these transactions.
    pub fn new(alloc: Global, wanted: GtidSet, inner: W) -> Until<W>
        ensures missing { result.missing ≡ Some wanted }
        ensures inner { result.inner ≡ inner }
    {
        Until {
            alloc,
            inner,
            missing: Some(wanted),
            is_apart: false,
        }
    }

    /// The observer in it.
    pub fn inner(&self) -> &W
        ensures { result.now ≡ self.now.inner }
    {
        &self.inner
    }

    /// Gives the observer in it back.
    pub fn into_inner(self) -> W
        ensures { result ≡ self.inner }
    {
        let Until { inner, .. } = self;
        inner
    }

    /// Whether memory ran out for what is missing. Then it has stopped, and does not know whether something is missing.
    pub fn is_out_of_memory(&self) -> bool
        ensures { result ≡ is_none self.now.missing }
    {
        self.missing.is_none()
    }

    /// Whether nothing is missing, or memory ran out.
    fn is_over(&self) -> bool
        ensures { result ≡ is_over self.now.missing }
    {
        match &self.missing {
            Some(missing) => missing.is_subset(&GtidSet::new(self.alloc)),
            None => true,
        }
    }
}

impl<W: Observer> Observer for Until<W> {
    ghost account = { λ u. record {
      noted = if u.is_apart then None else (W.account u.inner).noted;
      seen = (W.account u.inner).seen;
      has_stopped = is_over u.missing || (W.account u.inner).has_stopped;
      waits = u.missing;
      excludes = (W.account u.inner).excludes;
      keeps = (W.account u.inner).keeps;
    } };

    fn opened(&mut self, executed: &GtidSet, following: &Follow) {
        self.inner.opened(executed, following);
        self.missing = without(self.missing.take(), executed);
    }

    fn connected(&mut self) {
        self.inner.connected();
    }

    fn received(&mut self, count: usize) {
        self.inner.received(count);
    }

    fn event(&mut self, event: &Event<'_>, bytes: &[u8], pending: usize) {
        self.inner.event(event, bytes, pending);
    }

    fn before_apply(&mut self, delivery: &Delivery) -> bool {
        if self.is_over() {
            self.is_apart = true;
            return false;
        }
        self.inner.before_apply(delivery)
    }

    fn after_apply(&mut self, delivery: &Delivery, outcome: &Result<bool, Reason>) {
        self.inner.after_apply(delivery, outcome);
        self.missing = left_after(self.alloc, self.missing.take(), delivery, outcome);
    }

    fn refused(&mut self, payload: &[u8], reason: &Reason) {
        self.inner.refused(payload, reason);
    }

    fn ended(&mut self, end: &Ended) -> bool {
        let goes_on = self.inner.ended(end);
        if self.is_over() {
            self.is_apart = true;
            return false;
        }
        goes_on
    }

    /// Clauses:
    /// - an observer that waits for a set is done exactly if nothing of it is missing
    fn is_done(&self) -> bool {
        let Some(missing) = &self.missing else {
            return false;
        };
        missing.is_subset(&GtidSet::new(self.alloc))
    }
}
