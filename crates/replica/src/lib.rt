//! A replica of a MySQL source: it logs in, asks for the binary log by GTID, and applies what comes to a
//! [`Store`](store::Store).
//!
//! A [`Config`] has the user, the password, the server id and the limits of one replica. [`Session`] is one connection,
//! without any input or output of its own: [`Session::feed`] takes the next bytes of the source, in pieces of any size,
//! and applies each transaction as soon as it is complete; [`Session::take_out`] returns the pending output, which the
//! caller must send. [`Session::ended`] says whether the connection has ended, and [`Session::finish`] returns how, as
//! [`Ended`] with its [`Reason`]. A session that has ended reads no more.
//!
//! Over a database file, [`replay`] opens it, reads a list of [`Capture`]s, each a connection from a reader, and closes
//! it, and [`follow_file`] does so with a source that is followed over a stream of two directions, such as a socket
//! ([`Duplex`]), and that is reached once the database is open ([`Connect`]); [`change_file`] applies transactions that
//! come from no connection ([`Deliveries`](gather::Deliveries)), [`load_file`] those of a [`FirstCopy`] of tables, if it may be loaded,
//! [`clear_file`] takes all rows of one table out, [`admit_file`] has it follow more tables, and [`in_file`] does any other [`Work`] with its store: [`Adopting`] adds a
//! set to the executed one, and a [`Lister`] reads the set, the filter and the rows. [`open_file`] and [`close_file`] are
//! their first and their last step. An
//! [`Observer`] is called with what is read and applied, and may stop it; [`Until`] is one that stops once nothing of a
//! set of GTIDs is missing, and [`Recorder`] one that keeps what is reported. Over a store, [`run`] reads a list of connections that are in memory, one after the other,
//! [`read_stream`] one connection from a reader, and [`follow`] follows a source: it sends all pending output before each
//! read, until the connection ends.
//!
//! All of them borrow the store, so that it can be used for the next connection. After an end with `Reason::Database`
//! the store has failed and must be opened again; after `Reason::Memory` it may have. A connection that is cut short
//! drops its unfinished transaction. The next one asks for all that the store does not have.
//!
//! `specs/` defines a conversation with a source (`Stream.antt`), what a connection does to the content of a store and
//! how it ends (`Conn.antt`, `End.antt`), and the bytes due in reply (`Sent.antt`). [`laws`] states what follows.
#![tactic(auto)]

mod change;
mod file;
pub mod laws;
mod observer;
mod recorder;
mod session;
mod source;
mod until;

pub use change::changing::ChangeEnd;
pub use change::clearing::ClearEnd;
pub use change::loading::{FirstCopy, LoadEnd, QualifiedName, Unloadable};
pub use change::marks::{ended_mark, given_up_mark, is_mark, unfinished_copy};
pub use file::admitting::{Admission, AdmitFault, CopyBegin, admit_file};
pub use file::adopting::{AdoptFault, Adopting};
pub use file::changed::{ChangedFile, change_file};
pub use file::cleared::{ClearedFile, clear_file};
pub use file::followed::{FollowedFile, follow_file};
pub use file::loaded::{LoadedFile, load_file};
pub use file::not_opened::NotOpened;
pub use file::replaying::{Replayed, replay};
pub use file::work::{InFile, Work, in_file};
pub use file::{Unopened, close_file, open_file};
pub use observer::{Observer, Unobserved};
pub use recorder::{Recorded, Recorder};
pub use session::Session;
pub use session::config::{Config, ConfigFault};
pub use session::end::{Ended, Reason, Refusal};
pub use session::feed::Stopped;
pub use source::captures::{Capture, Halt};
pub use source::connect::Connect;
pub use source::connections::{NoMemory, run};
pub use source::counted::{Counted, Duplex};
pub use source::following::{PIECE, follow, follow_observed};
pub use source::reader::{read_some, read_stream};
pub use until::Until;
