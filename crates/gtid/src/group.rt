//! The GTIDs of one source.

ghost use Rattle.std.specs.Prelude.{◌≡◌, ◌≢◌, ℕ, length, ◌≤◌, ◌<◌, ◌-◌, ◌^◌, ◌||◌, true, false, not, nat_eq, [], vec_len, vec_capacity, IsOk, IfOk, IfErr, OnOk, OnErr, Ok, Err};
ghost use Rattle.gtid.specs.Interval.{has, AreLeast, AreLeast-prop, GoesAt, IsNear, TakesNoMemory};

use crate::fault::GtidFault;
use crate::identifier::Gtid;
use crate::interval;
use crate::interval::Interval;
use std::alloc::Global;

/// The numbers of one source, at least one.
#[derive(Debug, Drop)]
pub(crate) struct Group {
    pub(crate) source: [u8; 16],
    pub(crate) intervals: Vec<Interval>,
    ghost long: { length source ≡ 16 },
    ghost least: { AreLeast 0 intervals.items } by { AreLeast-prop 0 intervals.items },
    ghost some: { intervals.items ≢ [] },
}

impl Group {
    /// The group of one GTID. The only error is `Memory`.
    pub(crate) fn of(alloc: Global, gtid: Gtid) -> Result<Group, GtidFault>
        ensures source { IfOk result (λ group. group.source ≡ gtid.source) }
        ensures numbers { IfOk result (λ group. (n : ℕ)
            → has group.intervals.items n ≡ nat_eq n gtid.number) }
        ensures err { IfErr result (λ fault. fault ≡ GtidFault.Memory) }
    {
        let mut intervals = Vec::new(alloc);
        intervals.push(Interval::of(gtid.number))?;
        let source = gtid.source;
        Ok(Group { source, intervals })
    }

    /// Adds a number, and returns whether it is new. The only error is `Memory`, and only for a new number.
    pub(crate) fn insert(&mut self, number: u64) -> Result<bool, GtidFault>
        requires { (1 ≤ number) × (number ≤ 2 ^ 63 - 2) }
        ensures source { self.new.source ≡ self.old.source }
        ensures answer { IfOk result (λ new. new ≡ not (has self.old.intervals.items number)) }
        ensures ok { OnOk result ((n : ℕ) → has self.new.intervals.items n
            ≡ (nat_eq n number || has self.old.intervals.items n)) }
        ensures there { has self.old.intervals.items number ≡ true → result ≡ Ok false }
        ensures err { OnErr result ((result ≡ Err GtidFault.Memory)
            × (self.new.intervals.items ≡ self.old.intervals.items)) }
        ensures near { (n : ℕ) → IsNear n number → has self.old.intervals.items n ≡ true
            → IsOk result }
    {
        interval::insert(&mut self.intervals, number)
    }

    /// Adds a number at the place to which it goes, which takes no memory.
    pub(crate) fn insert_at(&mut self, at: usize, number: u64)
        requires number { (1 ≤ number) × (number ≤ 2 ^ 63 - 2) }
        requires goes { GoesAt self.old.intervals.items number at }
        requires room { TakesNoMemory number (vec_len self.old.intervals)
            (vec_capacity self.old.intervals) self.old.intervals.items }
        ensures source { self.new.source ≡ self.old.source }
        ensures adds { (n : ℕ) → has self.new.intervals.items n
            ≡ (nat_eq n number || has self.old.intervals.items n) }
    {
        let _inserted = interval::insert_at(&mut self.intervals, at, number);
    }

    /// Makes room for a number that goes to this place. The only error is `Memory`, which comes only for a number with
    /// neither neighbour in the group.
    pub(crate) fn reserve(&mut self, at: usize, number: u64) -> Result<(), GtidFault>
        requires number { (1 ≤ number) × (number ≤ 2 ^ 63 - 2) }
        requires goes { GoesAt self.old.intervals.items number at }
        ensures source { self.new.source ≡ self.old.source }
        ensures same { self.new.intervals.items ≡ self.old.intervals.items }
        ensures ok { OnOk result (TakesNoMemory number (vec_len self.new.intervals)
            (vec_capacity self.new.intervals) self.new.intervals.items) }
        ensures err { IfErr result (λ fault. fault ≡ GtidFault.Memory) }
        ensures near { (n : ℕ) → IsNear n number → has self.old.intervals.items n ≡ true
            → IsOk result }
    {
        if interval::touches(&self.intervals, at, number) {
            return Ok(());
        }
        self.intervals.reserve(1)?;
        Ok(())
    }
}
