//! Sets of GTIDs.

ghost use Rattle.std.specs.Prelude.{◌≡◌, ℕ, ◌<◌, ◌≤◌, ◌⊎◌, true, false, not, length, take, string_bytes, MatchResult, IfOk, OnOk, IfErr, OnErr, Ok, Err, List, None, IfSome, IsOk, vec_len, vec_capacity, string_len, string_capacity};
ghost use Rattle.std.specs.FinSet as set;
ghost use Rattle.gtid.specs.Identifier.{Ids, id};
ghost use Rattle.std.specs.List.{AllByRecursion};
ghost use Rattle.gtid.specs.Interval.{IsNear};
ghost use Rattle.gtid.specs.Span.{Covers, IsLeastList, IsLawfulSpan};
ghost use Rattle.gtid.specs.Entry.{IsLookUp};
ghost use Rattle.gtid.specs.Encoding.{IsEncoding, IsDecodeFault, AppendsEncoding, LacksRoom, HasFirstInterval};
ghost use Rattle.gtid.specs.Text.{IsRead, IsParseFault, AppendsText, LacksTextRoom, HasItem};

use crate::combination::Combination;
use crate::decoding::read_groups;
use crate::encoding::{encoded_length, write_groups};
use crate::fault::GtidFault;
use crate::gathering::gather;
use crate::grammar::scan;
use crate::group::Group;
use crate::groups::{
    are_apart_in_one_pass, are_subset, are_subset_in_one_pass, combine_groups, insert,
    intervals_of, reserve,
};
use crate::identifier::Gtid;
use crate::interval;
use crate::reading::read_spans;
use crate::reserved::{Entry, Reserved};
use crate::span::Span;
use crate::spans::Spans;
use crate::text::{print_groups, text_length};
use std::alloc::Global;
use std::marker::Model;

/// A set of GTIDs.
///
/// It keeps the least intervals of each source, with the sources in the order of their bytes.
#[derive(Debug, Drop)]
pub struct GtidSet {
    pub(crate) groups: Vec<Group>,
}

impl Model for GtidSet {
    ghost use Rattle.gtid.specs.Identifier.{Ids, ids_code};

    ghost Value = { Ids };

    ghost coded = { ids_code };

    ghost use Rattle.gtid.specs.Group.{ids_of, Ascend, sources};

    ghost view = { λ s. ids_of s.groups.items };

    ghost invariant = { λ s. Ascend (sources s.groups.items) };
}

impl GtidSet {
    /// The empty set.
    pub fn new(alloc: Global) -> GtidSet
        ensures { result ≡ set.empty }
    {
        GtidSet {
            groups: Vec::new(alloc),
        }
    }

    /// Whether a GTID is in the set.
    pub fn contains(&self, gtid: Gtid) -> bool
        ensures { result ≡ set.contains self.now (id gtid) }
    {
        interval::contains(intervals_of(&self.groups, &gtid.source), gtid.number)
    }

    /// Whether each GTID of this set is in the other.
    pub fn is_subset(&self, other: &GtidSet) -> bool
        ensures { result ≡ set.is_subset self.now other.now }
    {
        are_subset(&self.groups, &other.groups)
    }

    /// Adds a GTID.
    ///
    /// Clauses:
    /// - `ok`, `there`, `near`, `err`: the set has the GTID too, and the answer is whether it is new; no memory for one
    ///   that is there or has a neighbour, otherwise the only error is `Memory`, which leaves the set as it was
    pub fn insert(&mut self, gtid: Gtid) -> Result<bool, GtidFault>
        ensures ok { IfOk result (λ new. (new ≡ not (set.contains self.old (id gtid)))
            × (self.new ≡ set.insert self.old (id gtid))) }
        ensures there { set.contains self.old (id gtid) ≡ true → result ≡ Ok false }
        ensures near { (number : ℕ) → IsNear number gtid.number
            → set.contains self.old (gtid.source, number) ≡ true → IsOk result }
        ensures err { OnErr result ((result ≡ Err GtidFault.Memory) × (self.new ≡ self.old)) }
    {
        insert(&mut self.groups, gtid)
    }

    /// Looks a GTID up, and makes room for it if it is not in the set. For a GTID in the set, or with a neighbour in
    /// it, it takes no memory.
    ///
    /// Clauses:
    /// - one look-up: in the set; new, with room for it; or new, and an allocation was refused. `Reserved::insert` then
    ///   cannot fail
    pub fn entry(self, gtid: Gtid) -> Entry
        ensures { IsLookUp self (id gtid) result }
    {
        let GtidSet { mut groups } = self;
        match reserve(&mut groups, gtid) {
            Ok(Some(place)) => Entry::New(Reserved {
                groups,
                gtid,
                place,
            }),
            Ok(None) => Entry::Known(GtidSet { groups }),
            Err(_) => Entry::NoRoom(GtidSet { groups }),
        }
    }

    /// Adds the GTIDs of the other set.
    ///
    /// Clauses:
    /// - `ok`, `err`, `none`: the union, by [`GtidSet::subtract`] the difference, by [`GtidSet::copy`] the same set;
    ///   the only error is `Memory`, which leaves the set as it was, and does not come for empty sets
    /// - `subset`: no memory where nothing is to be added or removed
    pub fn union(&mut self, other: &GtidSet) -> Result<(), GtidFault>
        ensures ok { OnOk result (self.new ≡ set.union self.old other.now) }
        ensures err { OnErr result ((result ≡ Err GtidFault.Memory) × (self.new ≡ self.old)) }
        ensures none { other.now ≡ set.empty → IsOk result }
        ensures subset { set.is_subset other.now self.old ≡ true → IsOk result }
    {
        if other.groups.len() == 0 {
            return Ok(()); // nothing is to be added
        }
        if are_subset_in_one_pass(&other.groups, &self.groups) {
            return Ok(());
        }
        let alloc = *self.groups.allocator();
        self.groups = combine_groups(alloc, Combination::Union, &self.groups, &other.groups)?;
        Ok(())
    }

    /// Removes the GTIDs of the other set. `Memory` comes only if the other set has some of this one's GTIDs and lacks
    /// others.
    ///
    /// Clauses: as [`GtidSet::union`], and:
    /// - `apart`: no memory also with sets apart
    pub fn subtract(&mut self, other: &GtidSet) -> Result<(), GtidFault>
        ensures ok { OnOk result (self.new ≡ set.difference self.old other.now) }
        ensures err { OnErr result ((result ≡ Err GtidFault.Memory) × (self.new ≡ self.old)) }
        ensures none { (self.old ≡ set.empty) ⊎ (other.now ≡ set.empty) → IsOk result }
        ensures subset { set.is_subset self.old other.now ≡ true → IsOk result }
        ensures apart { set.intersection self.old other.now ≡ set.empty → IsOk result }
    {
        if self.groups.len() == 0 {
            return Ok(());
        }
        if other.groups.len() == 0 {
            return Ok(()); // nothing is to be removed
        }
        if are_subset_in_one_pass(&self.groups, &other.groups) {
            self.groups.clear();
            return Ok(());
        }
        // One of these two passes ends at the first GTID of this set: it is either in the other set or not.
        if are_apart_in_one_pass(&self.groups, &other.groups) {
            return Ok(()); // nothing is in both
        }
        let alloc = *self.groups.allocator();
        self.groups = combine_groups(alloc, Combination::Difference, &self.groups, &other.groups)?;
        Ok(())
    }

    /// A copy of the set.
    ///
    /// Clauses: as [`GtidSet::union`]
    pub fn copy(&self) -> Result<GtidSet, GtidFault>
        ensures ok { IfOk result (λ copied. copied ≡ self.now) }
        ensures err { IfErr result (λ fault. fault ≡ GtidFault.Memory) }
        ensures none { self.now ≡ set.empty → IsOk result }
    {
        let alloc = *self.groups.allocator();
        if self.groups.len() == 0 {
            return Ok(GtidSet::new(alloc));
        }
        let groups = combine_groups(alloc, Combination::Union, &self.groups, &[])?;
        Ok(GtidSet { groups })
    }

    /// The least intervals of the set: by the source's bytes, then by number, in ascending order. It takes no memory.
    ///
    /// Clauses:
    /// - `covers`, `least`: the one list of least intervals
    pub fn spans(&self) -> Spans<'_>
        ensures { IsLeastList result self.now }
    {
        Spans::new(&self.groups)
    }

    /// Appends the set as the data of COM_BINLOG_DUMP_GTID: the number of sources, and for each its 16 bytes, the
    /// number of its intervals, and the intervals.
    ///
    /// Clauses:
    /// - `ok`, `full`, `err`: the encoding, or the text, by the least intervals is appended; the only error is
    ///   `Memory`, only without room, and leaves what was there
    pub fn encode(&self, out: &mut Vec<u8>) -> Result<(), GtidFault>
        ensures ok { OnOk result (AppendsEncoding self.now out.old.items out.new.items) }
        ensures err { OnErr result ((result ≡ Err GtidFault.Memory)
            × (out.new.items ≡ out.old.items)) }
        ensures full { OnErr result (LacksRoom self.now (vec_len out.old) (vec_capacity out.old)) }
    {
        out.reserve(encoded_length(&self.groups))?;
        write_groups(&self.groups, out);
        Ok(())
    }

    /// Reads the encoded set at the front of the bytes, and returns it with the number of bytes that it takes.
    ///
    /// The first fault from left to right is reported:
    /// - `Truncated` if the bytes end early.
    /// - `Order` if a source is not above the one before it, or an interval does not begin above the `hi` of the one
    ///   before it.
    /// - `Interval` if a source has no interval, or an interval is empty.
    /// - `Number` if an interval begins at 0 or its `hi` is above 2^63 - 1.
    /// - `Memory` if an allocation was refused, after a source whose first interval is lawful.
    ///
    /// For one interval `Number` is reported before `Interval`, and `Interval` before `Order`.
    ///
    /// Clauses:
    /// - `found`, `length`, `only`, `fault`, `memory`: the set of the bytes, exactly where there is one; otherwise the
    ///   first fault
    pub fn decode(alloc: Global, bytes: &[u8]) -> Result<(GtidSet, usize), GtidFault>
        ensures length { IfOk result (λ found. found.1 ≤ length bytes.now) }
        ensures found { IfOk result (λ found. IsEncoding found.0 (take found.1 bytes.now)) }
        ensures fault { IfErr result (λ fault. (fault ≡ GtidFault.Memory)
            ⊎ IsDecodeFault bytes.now fault) }
        ensures memory { IfErr result (λ fault. fault ≡ GtidFault.Memory
            → HasFirstInterval bytes.now) }
        ensures only { (ids : Ids) (n : ℕ) → n ≤ length bytes.now
            → IsEncoding ids (take n bytes.now) → MatchResult result (λ found. found
            ≡ (ids, n)) (λ fault. fault ≡ GtidFault.Memory) }
    {
        let (groups, rest) = read_groups(alloc, bytes)?;
        let used = bytes.len() - rest.len();
        Ok((GtidSet { groups }, used))
    }

    /// Reads the text of a set: empty or only blanks, or items separated by commas. Each item is a hyphenated UUID in
    /// either case and at least one interval, `:n` or `:n-m`, with any spaces, line feeds and carriage returns before
    /// and after it. Items may come in any order, and intervals may overlap.
    ///
    /// The first of these faults is reported:
    /// - `Text` if the text is not of this form, with the length of its longest prefix that begins such a text.
    /// - `Number` or `Interval` for the first interval that is wrong: a number outside 1 to 2^63 - 2, or otherwise a
    ///   second number below the first.
    /// - `Memory` if an allocation was refused, only for a text of this form that is neither empty nor only blanks.
    ///
    /// Clauses:
    /// - `found`, `only`, `fault`, `memory`: the set of the text, exactly where there is one; otherwise the first fault
    pub fn parse(alloc: Global, text: &str) -> Result<GtidSet, GtidFault>
        ensures found { IfOk result (IsRead text.now) }
        ensures fault { IfErr result (λ fault. (fault ≡ GtidFault.Memory)
            ⊎ IsParseFault text.now fault) }
        ensures memory { IfErr result (λ fault. fault ≡ GtidFault.Memory → HasItem text.now) }
        ensures only { (ids : Ids) → IsRead text.now ids
            → MatchResult result (λ read. read ≡ ids) (λ fault. fault ≡ GtidFault.Memory) }
    {
        let bytes = text.as_bytes();
        if let Err(offset) = scan(bytes) {
            return Err(GtidFault::Text(offset));
        }
        let spans = read_spans(alloc, bytes)?;
        let groups = gather(alloc, spans)?;
        Ok(GtidSet { groups })
    }

    /// The set of all GTIDs that are in at least one span. The spans may come in any order, overlap and touch; if they
    /// ascend it takes linear time.
    ///
    /// Clauses:
    /// - `ok`, `err`, `some`: the set of a list of spans; the only error is `Memory`, which comes only if there is a
    ///   span
    pub fn of_spans(alloc: Global, spans: Vec<Span>) -> Result<GtidSet, GtidFault>
        requires { AllByRecursion IsLawfulSpan spans.items }
        ensures ok { IfOk result (Covers spans.items) }
        ensures err { IfErr result (λ fault. fault ≡ GtidFault.Memory) }
        ensures some { OnErr result (0 < length spans.items) }
    {
        let merged = gather(alloc, spans)?;
        Ok(GtidSet { groups: merged })
    }

    /// Appends the text of the set: the sources in lower case and in the order of their bytes, separated by commas,
    /// each with its least intervals, `:n` for one number and `:n-m` for more.
    ///
    /// Clauses: as [`GtidSet::encode`]
    pub fn print(&self, out: &mut String) -> Result<(), GtidFault>
        ensures ok { OnOk result (AppendsText self.now (string_bytes out.old)
            (string_bytes out.new)) }
        ensures err { OnErr result ((result ≡ Err GtidFault.Memory)
            × (string_bytes out.new ≡ string_bytes out.old)) }
        ensures full { OnErr result (LacksTextRoom self.now (string_len out.old)
            (string_capacity out.old)) }
    {
        out.reserve(text_length(&self.groups))?;
        print_groups(&self.groups, out);
        Ok(())
    }
}
