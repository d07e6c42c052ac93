//! Texts that were seen.

ghost use Rattle.std.specs.Prelude.{◌≡◌, ◌++◌, ◌∷◌, [], List, ℕ, not, IsTrue, IfOk};
ghost use Rattle.std.specs.List.{list_any};
ghost use Rattle.std.specs.Str.{bytes_eq};
ghost use Rattle.columns.specs.Seen.{HasSeen};

use std::alloc::AllocError;
use std::collections::BTreeSet;

/// Adds a text: whether it is new.
pub(crate) fn see<'a>(seen: &mut BTreeSet<&'a [u8]>, text: &'a [u8]) -> Result<bool, AllocError>
    ensures { (texts : List (List ℕ)) → HasSeen seen.old.keys texts
        → IfOk result (λ new. (new ≡ not (list_any (bytes_eq text.now) texts))
        × (IsTrue new → HasSeen seen.new.keys (texts ++ text.now ∷ []))) }
{
    let new = seen.insert(text)?;
    Ok(new)
}
