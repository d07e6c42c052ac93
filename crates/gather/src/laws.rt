//! Laws about the definitions, for callers.
//!
//! A law is a function with an empty body: its clauses are proved of the definitions themselves.

ghost use Rattle.std.specs.Prelude.{◌≡◌, ℕ, ◌⊎◌, List, [], ◌∷◌, ◌++◌};
ghost use Rattle.std.specs.List.{AllByRecursion};
ghost use Rattle.binlog.specs.Cell.{CellValue};
ghost use Rattle.binlog.specs.Event.{EventValue};
ghost use Rattle.gather.specs.Image.{IsImage};
ghost use Rattle.gather.specs.Transaction.{DeliveryValue, AreDeliveries, IsLawful, HasFirst};
ghost use Rattle.gather.specs.Fault.{IsFault, HasFault, IsFromBytes};
ghost use Rattle.gather.specs.declared.fault.GatherFault.{GatherFault};

/// Equal cells have equal images, and different cells have different ones.
pub fn one_image()
    ensures one { (a b : List CellValue) (bytes : List ℕ) → IsImage a bytes → IsImage b bytes
        → a ≡ b }
    ensures equal { (a b : List CellValue) (x y : List ℕ) → IsImage a x → IsImage b y → a ≡ b
        → x ≡ y }
{}

/// The next event of a lawful list, both read from bytes, either is lawful or has one fault, and not both.
pub fn next_event()
    ensures some { (events : List EventValue) (e : EventValue) → IsFromBytes e → IsLawful events
        → IsLawful (events ++ e ∷ []) ⊎ HasFault events e }
    ensures not_both { (events : List EventValue) (e : EventValue) (fault : GatherFault)
        → IsFromBytes e → IsLawful (events ++ e ∷ []) → IsFault events e fault → ⊥ }
    ensures one { (events : List EventValue) (e : EventValue) (a b : GatherFault) → IsFromBytes e
        → IsFault events e a → IsFault events e b → a ≡ b }
{}

/// A prefix of a lawful list is lawful, and its transactions are the first of the list's.
pub fn beginnings()
    ensures { (first others : List EventValue) (ds : List DeliveryValue)
        → AreDeliveries (first ++ others) ds → HasFirst first ds }
{}

/// A list of events that were read from bytes has one list of transactions.
pub fn one_list_of_deliveries()
    ensures { (events : List EventValue) (x y : List DeliveryValue)
        → AllByRecursion IsFromBytes events → AreDeliveries events x → AreDeliveries events y
        → x ≡ y }
{}
