//! Laws about the definitions, for callers.
//!
//! A law is a function with an empty body: its clauses are proved of the definitions themselves.

ghost use Rattle.std.specs.Prelude.{ℕ, List, ◌<◌, length};
ghost use Rattle.sqlite_wal.specs.Recovery.{Image, Pages, Replays, IsCommitted, Recovers};
ghost use Rattle.sqlite_wal.specs.Index.{Index, opened, Lists, Shares, KeepsUnlogged, IsReady};
ghost use Rattle.files.specs.Copying.{ChangesFiles, AreWritten, Times, IsCopied};
ghost use Rattle.files.specs.Copying.{TakesOfOneMoment, TakesWholeFrames, CommitOnce};
ghost use Rattle.files.specs.Copying.{EndShut, ReadsSaltsAtOnce, StoodFor};

/// A copy of a database's two files that was made under one header of the log, while others wrote the files, stands
/// for what the files stood for at one moment: at the end of the database file's copying, or later.
///
/// If each frame that recovery takes of the copied log was committed when its reading began, this needs nothing but
/// writers that keep to the format. If one was not, it stands on what recovery takes then being of one moment, which
/// [`whole_frames`] and [`shut_ends`] lead back to less.
pub fn copied()
    ensures { (page_size : ℕ) (files : ℕ → Image) (frames : ℕ → ℕ) (times : Times)
        (copy : Image) → AreWritten page_size files frames times.first times.last
        → IsCopied files times copy → TakesOfOneMoment page_size files frames times copy.log
        → (pages : Pages) → Recovers page_size copy pages
        → StoodFor page_size files times.between times.last pages }
{}

/// Where each change commits once at most, it is enough that what recovery takes of the copied log are whole frames:
/// then they are those that it takes of the log at one moment.
pub fn whole_frames()
    ensures { (page_size : ℕ) (files : ℕ → Image) (frames : ℕ → ℕ) (times : Times)
        (copy : Image) → AreWritten page_size files frames times.first times.last
        → IsCopied files times copy
        → CommitOnce page_size files frames times.between times.last
        → TakesWholeFrames page_size files frames times copy.log
        → TakesOfOneMoment page_size files frames times copy.log }
{}

/// Where the salt of the frame after the committed ones is wrong until a commit writes its first byte, last of all,
/// as in a transaction of several steps of `sqlite_wal`, it is enough that this byte is read at the moment at which
/// the reading of its frame begins: then recovery takes no frame that was committed later.
pub fn shut_ends()
    ensures { (page_size : ℕ) (files : ℕ → Image) (frames : ℕ → ℕ) (times : Times)
        (copy : Image) → AreWritten page_size files frames times.first times.last
        → IsCopied files times copy
        → EndShut page_size files frames times.between times.last
        → ReadsSaltsAtOnce page_size times
        → TakesOfOneMoment page_size files frames times copy.log }
{}

/// A write behind the frames that recovery takes, whole or not, is a change of the files that begins nothing anew, as
/// long as recovery takes as many.
pub fn written_behind()
    ensures { (page_size k : ℕ) (old new db : List ℕ) → IsCommitted page_size old k
        → Shares page_size k old new → ChangesFiles page_size (record { log = old; db = db }) k
        (record { log = new; db = db }) k }
{}

/// So is the write of the byte with which `sqlite_wal` commits what stands behind it, of one transaction or of
/// several.
pub fn committed_by_a_byte()
    ensures { (durable newest : Index) (log db : List ℕ) → IsReady durable newest log db
        → ChangesFiles durable.page_size (record { log = log; db = db }) (length durable.numbers)
        (record { log = opened durable log; db = db }) (length newest.numbers) }
{}

/// So is each step of a checkpoint of `sqlite_wal`, from one state that it makes of the database file to another: a
/// write of a page, whole or not, and the cut at its end.
pub fn copied_back()
    ensures { (it : Index) (log first old new : List ℕ) → Lists it log first
        → KeepsUnlogged it first old → KeepsUnlogged it first new
        → ChangesFiles it.page_size (record { log = log; db = old }) (length it.numbers)
        (record { log = log; db = new }) (length it.numbers) }
{}

/// Files that nobody writes are written as [`copied`] asks, and what recovery takes of their log is of one moment,
/// whenever it is copied.
pub fn at_rest()
    ensures written { (page_size k : ℕ) (image : Image) (first last : ℕ)
        → Replays page_size image.log k → 0 < length image.db
        → AreWritten page_size (λ _. image) (λ _. k) first last }
    ensures taken { (page_size k : ℕ) (image : Image) (times : Times)
        → Replays page_size image.log k
        → TakesOfOneMoment page_size (λ _. image) (λ _. k) times image.log }
{}
