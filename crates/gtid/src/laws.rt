//! Laws about the definitions, for callers.
//!
//! A law is a function that does nothing: its clauses are proved of the definitions themselves.

ghost use Rattle.std.specs.Prelude.{◌≡◌, ◌⊎◌, ℕ, ◌-◌, ◌≤◌, ◌<◌, ◌^◌, ◌++◌, true, List};
ghost use Rattle.std.specs.FinSet.{contains};
ghost use Rattle.std.specs.List.{AllByRecursion};
ghost use Rattle.gtid.specs.Identifier.{Id, Ids, IsGtid};
ghost use Rattle.gtid.specs.Span.{IsLeastList, HasLeastList};
ghost use Rattle.gtid.specs.Encoding.{IsEncoding, BeginsWithEncoding, IsDecodeFault, HasDecodeFault};
ghost use Rattle.gtid.specs.Text.{IsSetText, IsRead, HasReading, IsParseFault, HasParseFault, IsGtidText, gtid_text};
ghost use Rattle.gtid.specs.declared.fault.GtidFault.{GtidFault};
ghost use Rattle.gtid.specs.declared.span.Span.{Span};

use crate::set::GtidSet;

/// The numbers of a set's GTIDs are from 1 to 2^63 - 2.
pub fn numbers_in_range(ids: &GtidSet)
    ensures { (q : Id) → contains ids.now q ≡ true → (1 ≤ q.1) × (q.1 ≤ 2 ^ 63 - 2) }
{
    let _groups = &ids.groups;
}

/// Each set has exactly one list of least intervals.
pub fn one_least_list()
    ensures some { (ids : Ids) → HasLeastList ids }
    ensures one { (ids : Ids) (a b : List Span) → IsLeastList a ids → IsLeastList b ids → a ≡ b }
{}

/// No set has two encodings.
pub fn one_encoding()
    ensures { (ids : Ids) (a b : List ℕ) → IsEncoding ids a → IsEncoding ids b → a ≡ b }
{}

/// No set has two printed texts.
pub fn one_text()
    ensures { (ids : Ids) (a b : List ℕ) → IsSetText ids a → IsSetText ids b → a ≡ b }
{}

/// A printed text is read back as the set that was printed.
pub fn text_is_read()
    ensures { (ids : Ids) (text : List ℕ) → IsSetText ids text → IsRead text ids }
{}

/// The printed text of a GTID is read back as that GTID.
pub fn gtid_text_is_read()
    ensures { (q : Id) → IsGtid q → IsGtidText (gtid_text q) q }
{}

/// Each text either is read as one set or has one fault, and not both.
pub fn one_reading_of_a_text()
    ensures some { (text : List ℕ) → HasReading text ⊎ HasParseFault text }
    ensures one_set { (text : List ℕ) (a b : Ids) → IsRead text a → IsRead text b → a ≡ b }
    ensures no_fault { (text : List ℕ) (ids : Ids) (fault : GtidFault) → IsRead text ids
        → IsParseFault text fault → ⊥ }
    ensures one_fault { (text : List ℕ) (a b : GtidFault) → IsParseFault text a
        → IsParseFault text b → a ≡ b }
{}

/// Bytes either begin with the encoding of one set, in one way, or have one fault, and not both.
pub fn one_reading_of_bytes()
    ensures some { (bytes : List ℕ) → AllByRecursion (λ b. b < 256) bytes
        → BeginsWithEncoding bytes ⊎ HasDecodeFault bytes }
    ensures one_set { (a b : Ids) (bytes others x y : List ℕ) → IsEncoding a bytes
        → IsEncoding b others → bytes ++ x ≡ others ++ y → (a ≡ b) × (bytes ≡ others) }
    ensures no_fault { (ids : Ids) (bytes more : List ℕ) (fault : GtidFault) → IsEncoding ids bytes
        → IsDecodeFault (bytes ++ more) fault → ⊥ }
    ensures one_fault { (bytes : List ℕ) (a b : GtidFault) → IsDecodeFault bytes a
        → IsDecodeFault bytes b → a ≡ b }
{}
