//! The seconds of the changes of a transaction.

ghost use Rattle.std.specs.Prelude.{◌≡◌, ◌<◌, ◌≤◌, ◌-◌, ℕ, [], Option, Some, OnOk, length, slice_get, true};
ghost use Rattle.feed.specs.Seconds.{seconds_at, seconds_after, BeginAt};

use std::alloc::{AllocError, Global};
use std::marker::Model;

/// The seconds of the changes of a transaction, by their places, from 0 on. Neighbours with the same seconds take 16 bytes
/// together. In contracts it is the list of these spans.
#[derive(Drop)]
pub struct Seconds {
    /// The places of their first changes, and the seconds, where these are known.
    spans: Vec<(usize, Option<u32>)>,
}

impl Model for Seconds {
    ghost use Rattle.std.specs.Prelude.{ℕ, List, Option};

    ghost Value = { List (ℕ × Option ℕ) };

    ghost use Rattle.feed.specs.Seconds.{BeginAt};

    ghost view = { λ s. s.spans.items };

    ghost invariant = { λ s. BeginAt 0 s.spans.items };
}

impl Seconds {
    /// Those of no change.
    pub fn new(alloc: Global) -> Seconds
        ensures { result ≡ [] }
    {
        Seconds {
            spans: Vec::new(alloc),
        }
    }

    /// Forgets all.
    pub fn clear(&mut self)
        ensures { self.new ≡ [] }
    {
        self.spans.clear();
    }

    /// From this place on changes have these seconds. An error leaves those of the changes before it as they were.
    pub fn set(&mut self, place: usize, seconds: Option<u32>) -> Result<(), AllocError>
        ensures before { (n : ℕ) → n < place → seconds_at self.new n ≡ seconds_at self.old n }
        ensures ok { (n : ℕ) → place ≤ n → OnOk result (seconds_at self.new n ≡ seconds) }
    {
        cut(&mut self.spans, place);
        if end_with(&self.spans, seconds) {
            return Ok(());
        }
        self.spans.push((place, seconds))?;
        Ok(())
    }

    /// The seconds, to be read from the front.
    pub fn iter(&self) -> SecondsIter<'_>
        ensures { (n : ℕ) → seconds_after result.0 result.1 n ≡ seconds_at self.now n }
    {
        SecondsIter {
            left: &self.spans,
            known: None,
        }
    }
}

/// Removes the spans that begin at this place or later.
fn cut(spans: &mut Vec<(usize, Option<u32>)>, place: usize)
    requires { BeginAt 0 spans.old.items }
    ensures ordered { BeginAt 0 spans.new.items }
    ensures before { (n : ℕ) → n < place → seconds_at spans.new.items n
        ≡ seconds_at spans.old.items n }
    ensures end { (span : ℕ × Option ℕ) → slice_get spans.new.items (length spans.new.items - 1)
        ≡ Some span → span.0 < place }
{
    while let Some((from, _)) = spans.last()
        && *from >= place
    {
        let _ = spans.pop();
    }
}

/// Whether the last span has these seconds.
fn end_with(spans: &[(usize, Option<u32>)], seconds: Option<u32>) -> bool
    ensures { result ≡ true → (span : ℕ × Option ℕ)
        × ((slice_get spans.now (length spans.now - 1) ≡ Some span) × (span.1 ≡ seconds)) }
{
    match spans.last() {
        Some((_, last)) => *last == seconds,
        None => false,
    }
}

/// The seconds of the changes of a transaction, which are read from the front. In contracts it is the spans that are left,
/// and the seconds before them.
#[derive(Drop)]
pub struct SecondsIter<'a> {
    left: &'a [(usize, Option<u32>)],
    known: Option<u32>,
}

impl<'a> Model for SecondsIter<'a> {
    ghost use Rattle.std.specs.Prelude.{ℕ, List, Option};

    ghost Value = { Option ℕ × List (ℕ × Option ℕ) };

    ghost use Rattle.feed.specs.Seconds.{BeginAt};

    ghost view = { λ s. (s.known, s.left.now) };

    ghost invariant = { λ s. BeginAt 0 s.left.now };
}

impl SecondsIter<'_> {
    /// The seconds of the change at this place. Those of the places before it are not known any more.
    pub fn at(&mut self, place: usize) -> Option<u32>
        ensures value { result ≡ seconds_after self.old.0 self.old.1 place }
        ensures after { (n : ℕ) → place ≤ n →
            seconds_after self.new.0 self.new.1 n ≡ seconds_after self.old.0 self.old.1 n }
    {
        while let [span, rest @ ..] = self.left
            && span.0 <= place
        {
            self.known = span.1;
            self.left = rest;
        }
        self.known
    }
}
