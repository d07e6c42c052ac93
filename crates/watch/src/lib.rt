//! How a command goes on that reads a source: its lines of progress, its status file and its change feed.
//!
//! [`Watch`] is the observer of a command: it writes all of these, and [`SkipWatch`] is that of `mrep skip`. [`Pulse`] is lines of
//! progress and the status, [`Metered`] a reader that reports them, and [`Socket`] a connection that reports them while nothing
//! comes. [`Progress`] says how far a command has come.
//!
//! [`Status`] counts what is applied, and [`Status::report`] writes it at most once a second, into a file that is replaced whole:
//! lines that a collector of text files reads (Prometheus, "Exposition formats", the section "Text-based format"). A file that is no
//! status is not replaced.
//!
//! Contracts say that a read stays within its buffer, and that a command stops once something could not be written.
#![tactic(auto)]

mod map_names;
mod metered;
mod numbers;
mod progress;
mod pulse;
mod skip_watch;
mod socket;
mod status;
mod status_file;
mod watch;

pub use metered::Metered;
pub use progress::Progress;
pub use pulse::Pulse;
pub use skip_watch::{SkipStop, SkipWatch};
pub use socket::Socket;
pub use status::Status;
pub use status_file::StatusFile;
pub use watch::{Reports, Source, Watch, WatchStop};
