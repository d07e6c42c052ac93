//! One transaction after those that are given.

ghost use Rattle.std.specs.Prelude.{◌≡◌, false};
ghost use Rattle.gather.specs.Given.{empty_of, unless_last};

use gather::{Changes, Deliveries, Delivery};
use gtid::Gtid;
use std::alloc::Global;

/// What gives the transactions of another one, and after all of them one more, which changes nothing.
#[derive(Drop)]
pub(crate) struct ThenLast<I> {
    alloc: Global,
    inner: I,
    last: Gtid,
    is_given: bool,
}

impl<I> ThenLast<I> {
    /// What gives those that are still to be given, and then one with this GTID.
    pub(crate) fn new(alloc: Global, inner: I, last: Gtid) -> ThenLast<I>
        ensures inner { result.inner ≡ inner }
        ensures last { result.last ≡ last }
        ensures is_given { result.is_given ≡ false }
    {
        ThenLast {
            alloc,
            inner,
            last,
            is_given: false,
        }
    }
}

impl<I: Deliveries> Deliveries for ThenLast<I> {
    type Error = I::Error;

    ghost supply = { λ it. unless_last it.is_given (I.supply it.inner) (empty_of it.last) };

    fn next(&mut self) -> Result<Option<Delivery>, I::Error> {
        if self.is_given {
            return Ok(None);
        }
        if let Some(delivery) = self.inner.next()? {
            return Ok(Some(delivery));
        }
        self.is_given = true;
        Ok(Some(Delivery {
            gtid: self.last,
            changes: Changes::new(self.alloc),
        }))
    }
}
