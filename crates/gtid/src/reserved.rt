//! Room for one more GTID.

ghost use Rattle.std.specs.Prelude.{◌≡◌, List, IfSome};
ghost use Rattle.std.specs.FinSet as set;
ghost use Rattle.gtid.specs.Span.{IsLeastList, IsLawfulSpan};
ghost use Rattle.gtid.specs.Beside.{Joins};
ghost use Rattle.gtid.specs.declared.span.Span.{Span};

use crate::beside::Beside;
use crate::group::Group;
use crate::groups::{Place, beside, insert_reserved};
use crate::identifier::Gtid;
use crate::set::GtidSet;
use std::marker::Model;

/// What a set says of a GTID that is to be added, as `GtidSet::entry` answers it.
#[derive(Debug, Drop)]
pub enum Entry {
    /// The GTID is not in the set, which has room for it now.
    New(Reserved),
    /// The GTID is in the set, which is as it was.
    Known(GtidSet),
    /// The GTID is not in the set, and neither is a neighbour of it. The set is as it was, since an allocation was refused.
    NoRoom(GtidSet),
}

/// A set with room for one GTID that is not in it, so that adding it takes no memory and cannot fail. `GtidSet::entry`
/// makes it.
///
/// In contracts it is the pair of the set and the GTID.
#[derive(Debug, Drop)]
pub struct Reserved {
    pub(crate) groups: Vec<Group>,
    pub(crate) gtid: Gtid,
    pub(crate) place: Place,
}

impl Model for Reserved {
    ghost use Rattle.std.specs.Coded.{coded×, coded_list, coded_ℕ};
    ghost use Rattle.std.specs.Prelude.{vec_capacity};
    ghost use Rattle.gtid.specs.Identifier.{Id, Ids, ids_code, id};
    ghost use Rattle.gtid.specs.Group.{ids_of, Ascend, sources};
    ghost use Rattle.gtid.specs.Reserved.{HasRoom};

    ghost Value = { Ids × Id };

    ghost coded = { coded× ids_code (coded× (coded_list coded_ℕ) coded_ℕ) };

    ghost view = { λ r. (ids_of r.groups.items, id r.gtid) };

    ghost invariant = { λ r. Ascend (sources r.groups.items) × HasRoom r.gtid r.groups.items (vec_capacity r.groups) r.place };
}

impl Reserved {
    /// The neighbours of the GTID: the span of its source that ends just before it, and the one that begins just after
    /// it. Neither is empty or has a number outside 1 to 2^63 - 2. It takes no memory.
    ///
    /// Clauses:
    /// - `joins`, `below`, `above`: the intervals that a new GTID touches
    pub fn beside(&self) -> Beside
        ensures joins { (spans : List Span) → IsLeastList spans self.now.0
            → Joins self.now.0 self.now.1 result spans }
        ensures below { IfSome result.below IsLawfulSpan }
        ensures above { IfSome result.above IsLawfulSpan }
    {
        let (below, above) = beside(&self.groups, self.gtid, &self.place);
        Beside::of(self.gtid.source, below, above)
    }

    /// The set with the GTID added.
    pub fn insert(self) -> GtidSet
        ensures { result ≡ set.insert self.0 self.1 }
    {
        let Reserved {
            mut groups,
            gtid,
            place,
        } = self;
        insert_reserved(&mut groups, gtid, place);
        GtidSet { groups }
    }

    /// The set without the GTID, as it was.
    pub fn release(self) -> GtidSet
        ensures { result ≡ self.0 }
    {
        let Reserved {
            groups,
            gtid: _,
            place: _,
        } = self;
        GtidSet { groups }
    }
}
