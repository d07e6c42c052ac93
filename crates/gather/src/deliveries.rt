//! Where transactions come from that no connection carries.

ghost use Rattle.std.specs.Prelude.{map};
ghost use Rattle.gather.specs.View.{delivery_value};
ghost use Rattle.gather.specs.Given.{Supply, GivesNext, listed};

use crate::transaction::Delivery;
use std::collections::VecDeque;
use std::convert::Infallible;

/// What gives transactions in order, one at a time.
pub trait Deliveries {
    /// Why no further one comes.
    type Error: Drop;

    // The transactions that it still gives, in order, as far as they are known.
    ghost supply: { Self → Supply };

    /// The next transaction; none where all were given. An error takes none of them away.
    ///
    /// Clauses:
    /// - `gives`: what a giver of transactions says of itself: the next one is the first that remains
    ///   (`specs/Given.antt`)
    fn next(&mut self) -> Result<Option<Delivery>, Self::Error>
        ensures gives { GivesNext (supply self.old) (supply self.new) result };
}

/// A list gives its transactions from the first on, and no error.
impl Deliveries for VecDeque<Delivery> {
    type Error = Infallible;

    ghost supply = { λ list. listed (map delivery_value list.items) };

    fn next(&mut self) -> Result<Option<Delivery>, Infallible> {
        Ok(self.pop_front())
    }
}
