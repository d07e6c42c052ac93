//! What is said of a failure: of a connection that has ended, of a row that is refused, of a copy that may not be loaded.
//!
//! [`write_end`] is the line of an end, [`write_cause`] and [`write_advice`] what stands on standard error beside it; [`Details`]
//! says where in a transaction a connection has ended, [`write_refused`] has the row, and [`write_unloadable`] says why a first copy
//! may not be loaded. [`event_reason`] and [`wire_reason`] are the names of faults.
#![tactic(auto)]

mod advice;
mod details;
mod fault_name;
mod kept;
mod reason;
mod refused;
mod statement;
mod unloadable;

pub use details::{Details, Given};
pub use fault_name::{event_reason, wire_reason};
pub use kept::{KEEPS_NONE, KEEPS_ROWS, NEW_FEED, NO_FILE};
pub use reason::{HaltCause, can_skip, write_advice, write_cause, write_end, write_reason};
pub use refused::write_refused;
pub use unloadable::{GIVEN_UP, OTHER_SET, UNFINISHED, write_unloadable};
