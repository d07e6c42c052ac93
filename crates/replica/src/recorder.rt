//! An observer that keeps what is reported to it.

ghost use Rattle.std.specs.Prelude.{◌≡◌, ◌++◌, ◌∷◌, [], None, Some, false, true, IfSome, IfNone, OnOk, if◌then◌else◌};
ghost use Rattle.gather.specs.View.{change_value, delivery_value};
ghost use Rattle.replica.specs.Noted.{HasBeenNoted};
ghost use Rattle.replica.specs.Recorded.{notice_of, notices_in};

use crate::observer::Observer;
use crate::session::end::{Ended, Reason};
use binlog::{Event, Follow};
use gather::{Change, Changes, Delivery, Image, ImageRef};
use gtid::GtidSet;
use std::alloc::Global;

/// What was reported to an observer.
#[derive(Debug, Drop)]
pub enum Recorded {
    /// The executed set of a database that was opened.
    Opened(GtidSet),
    /// That the source was reached.
    Connected,
    /// A new transaction, which is to be applied.
    Before(Delivery),
    /// Whether a transaction was applied, which one that is executed is not, or why the connection ends.
    After(Delivery, Result<bool, Reason>),
    /// How a connection has ended.
    Ended(Ended),
}

/// An observer that keeps what is reported to it, in order, and never stops. It is for tests, and for whoever looks into a call.
#[derive(Debug, Drop)]
pub struct Recorder {
    alloc: Global,
    /// None once something could not be kept.
    kept: Option<Vec<Recorded>>,
}

impl Recorder {
    /// One that nothing has been reported to.
    ///
    /// Clauses:
    /// - its account is empty
    pub fn new(alloc: Global) -> Recorder
        ensures { notices_in result.kept ≡ Some [] }
    {
        Recorder {
            alloc,
            kept: Some(Vec::new(alloc)),
        }
    }

    /// What was reported to it, in order; none once memory ran out for that, or an error of a source was reported, which is not
    /// copied.
    pub fn kept(&self) -> Option<&[Recorded]> {
        match &self.kept {
            Some(kept) => Some(kept.as_slice()),
            None => None,
        }
    }

    /// Keeps what is reported, after what was kept before; nothing is kept any more where there is none.
    fn keep(&mut self, reported: Option<Recorded>)
        ensures kept { IfSome reported (λ one. HasBeenNoted (notices_in self.old.kept)
            (notices_in self.new.kept) (notice_of one ∷ [])) }
        ensures lost { IfNone reported (self.new.kept ≡ None) }
    {
        let kept = self.kept.take();
        let (Some(mut kept), Some(one)) = (kept, reported) else {
            return;
        };
        if kept.push(one).is_ok() {
            self.kept = Some(kept);
        }
    }
}

/// A copy of an image, if there is memory for it.
fn copy_image(alloc: Global, image: &ImageRef<'_>) -> Option<Image>
    ensures { IfSome result (λ copied. copied ≡ image.now) }
{
    match Image::read(alloc, image.bytes()) {
        Ok(copied) => copied,
        Err(_) => None,
    }
}

/// Appends a copy of a change, if there is memory for it.
fn append(alloc: Global, changes: &mut Changes, change: &Change<'_>) -> Option<()>
    ensures { IfSome result (λ _. changes.new ≡ changes.old ++ change_value change.now ∷ []) }
{
    let appended = match change {
        Change::Insert { table, after } => changes.insert(table, &copy_image(alloc, after)?),
        Change::Delete { table, before } => changes.delete(table, &copy_image(alloc, before)?),
        Change::Update {
            table,
            before,
            after,
        } => changes.update(
            table,
            &copy_image(alloc, before)?,
            &copy_image(alloc, after)?,
        ),
    };
    match appended {
        Ok(()) => Some(()),
        Err(_) => None,
    }
}

/// A copy of changes, if there is memory for it.
fn copy_changes(alloc: Global, changes: &Changes) -> Option<Changes>
    ensures { IfSome result (λ copied. copied ≡ changes.now) }
{
    let mut copied = Changes::new(alloc);
    for change in changes.iter() {
        append(alloc, &mut copied, &change)?;
    }
    Some(copied)
}

/// A copy of a transaction, if there is memory for it.
fn copy_delivery(alloc: Global, delivery: &Delivery) -> Option<Delivery>
    ensures { IfSome result (λ copied. copied ≡ delivery.now) }
{
    Some(Delivery {
        gtid: delivery.gtid,
        changes: copy_changes(alloc, &delivery.changes)?,
    })
}

/// A copy of a reason, unless it has the text of a source.
fn copy_reason(reason: &Reason) -> Option<Reason>
    ensures { IfSome result (λ copied. copied ≡ reason.now) }
{
    match reason {
        Reason::EndOfInput => Some(Reason::EndOfInput),
        Reason::SourceEof => Some(Reason::SourceEof),
        Reason::Wire(fault) => Some(Reason::Wire(*fault)),
        Reason::Event(fault) => Some(Reason::Event(*fault)),
        Reason::Gather(fault) => Some(Reason::Gather(*fault)),
        Reason::Refused(refusal) => Some(Reason::Refused(*refusal)),
        Reason::Database(fault) => Some(Reason::Database(*fault)),
        Reason::Memory => Some(Reason::Memory),
        Reason::ReadFailed => Some(Reason::ReadFailed),
        Reason::WriteFailed => Some(Reason::WriteFailed),
        Reason::Halted => Some(Reason::Halted),
        Reason::Until => Some(Reason::Until),
        Reason::SourceError { .. } | Reason::Greet(_) => None,
    }
}

/// A copy of what was reported after a transaction.
fn copy_outcome(outcome: &Result<bool, Reason>) -> Option<Result<bool, Reason>>
    ensures { IfSome result (λ copied. copied ≡ outcome.now) }
{
    match outcome {
        Ok(applied) => Some(Ok(*applied)),
        Err(reason) => Some(Err(copy_reason(reason)?)),
    }
}

/// What is kept of a transaction before it.
fn before_one(alloc: Global, delivery: &Delivery) -> Option<Recorded>
    ensures { IfSome result (λ one. one ≡ Recorded.Before delivery.now) }
{
    Some(Recorded::Before(copy_delivery(alloc, delivery)?))
}

/// What is kept of a transaction after it.
fn after_one(alloc: Global, delivery: &Delivery, outcome: &Result<bool, Reason>) -> Option<Recorded>
    ensures { IfSome result (λ one. one ≡ Recorded.After delivery.now outcome.now) }
{
    let outcome = copy_outcome(outcome)?;
    Some(Recorded::After(copy_delivery(alloc, delivery)?, outcome))
}

/// What is kept of the end of a connection.
fn end_of(end: &Ended) -> Option<Recorded>
    ensures { IfSome result (λ one. one ≡ Recorded.Ended end.now) }
{
    Some(Recorded::Ended(Ended {
        reason: copy_reason(&end.reason)?,
        at: end.at,
        applied: end.applied,
    }))
}

/// What is kept of the executed set of a database that was opened.
fn opened_at(executed: &GtidSet) -> Option<Recorded>
    ensures { IfSome result (λ one. one ≡ Recorded.Opened executed.now) }
{
    match executed.copy() {
        Ok(copied) => Some(Recorded::Opened(copied)),
        Err(_) => None,
    }
}

impl Observer for Recorder {
    ghost account = { λ r. record {
      noted = notices_in r.kept;
      seen = None;
      has_stopped = false;
      waits = None;
      excludes = false;
      keeps = None;
    } };

    fn opened(&mut self, executed: &GtidSet, _following: &Follow) {
        self.keep(opened_at(executed));
    }

    fn connected(&mut self) {
        self.keep(Some(Recorded::Connected));
    }

    fn event(&mut self, _event: &Event<'_>, _bytes: &[u8], _pending: usize) {}

    fn before_apply(&mut self, delivery: &Delivery) -> bool {
        self.keep(before_one(self.alloc, delivery));
        true
    }

    fn after_apply(&mut self, delivery: &Delivery, outcome: &Result<bool, Reason>) {
        self.keep(after_one(self.alloc, delivery, outcome));
    }

    fn refused(&mut self, _payload: &[u8], _reason: &Reason) {}

    fn ended(&mut self, end: &Ended) -> bool {
        self.keep(end_of(end));
        true
    }

    fn is_done(&self) -> bool {
        false
    }
}
