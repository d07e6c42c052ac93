//! Who made the changes of a transaction, and by which statements. MySQL Source Documentation, "Binlog Event", the pages
//! `binary_log::Query_event` and `binary_log::Rows_query_event`. Nothing that is applied depends on it.

ghost use Rattle.std.specs.Prelude.{◌≡◌, ◌≢◌, ℕ, List, [], OnOk, Some, IfSome, MatchOption};
ghost use Rattle.feed.specs.Statements.{IsThreadOf, IsStatementText, text_at};

use byteorder::{ByteOrder, LittleEndian};
use std::alloc::{AllocError, Global};
use std::marker::Model;

/// Where the id of the thread stands in a QUERY event, and where it ends.
const THREAD_AT: usize = 19;

const THREAD_END: usize = 23;

/// The type of a ROWS_QUERY event, where it stands, and where the text begins.
const ROWS_QUERY: u8 = 29;

const TYPE_AT: usize = 4;

const TEXT_AT: usize = 20;

/// The id of the thread that has sent a QUERY event; `None` if the event is too short.
pub fn thread_of(event: &[u8]) -> Option<u32>
    ensures { IsThreadOf event.now result }
{
    if event.len() < THREAD_END {
        return None;
    }
    Some(LittleEndian::read_u32(&event[THREAD_AT..]))
}

/// The text of a ROWS_QUERY event; `None` of another one.
pub fn text_of_query(event: &[u8]) -> Option<&[u8]>
    ensures found { IfSome result (λ text. IsStatementText text.now event.now) }
    ensures only { (text : List ℕ) → IsStatementText text event.now
        → MatchOption result ⊥ (λ found. found.now ≡ text) }
{
    if event.len() < TEXT_AT {
        return None;
    }
    if event[TYPE_AT] != ROWS_QUERY {
        return None;
    }
    Some(&event[TEXT_AT..])
}

/// The texts of the statements of a transaction, each at the place of the first change that came after it. In contracts it
/// is the list of these.
#[derive(Drop)]
pub struct Texts {
    texts: Vec<(usize, Vec<u8>)>,
    alloc: Global,
}

impl Model for Texts {
    ghost use Rattle.std.specs.Prelude.{ℕ, List, map};

    ghost Value = { List (ℕ × List ℕ) };

    ghost view = { λ t. map (λ x. (x.0, x.1.items)) t.texts.items };
}

impl Texts {
    /// Those of no statement.
    pub fn new(alloc: Global) -> Texts
        ensures { result ≡ [] }
    {
        Texts {
            texts: Vec::new(alloc),
            alloc,
        }
    }

    /// Forgets all.
    pub fn clear(&mut self)
        ensures { self.new ≡ [] }
    {
        self.texts.clear();
    }

    /// Adds a text, which is the one at this place from now on.
    pub fn add(&mut self, place: usize, text: &[u8]) -> Result<(), AllocError>
        ensures there { OnOk result (text_at self.new place ≡ Some text.now) }
        ensures others { (n : ℕ) → n ≢ place → text_at self.new n ≡ text_at self.old n }
    {
        let text = Vec::from_slice(self.alloc, text)?;
        self.texts.push((place, text))?;
        Ok(())
    }

    /// The texts, in the order in which they came.
    pub fn iter(&self) -> TextsIter<'_> {
        TextsIter { left: &self.texts }
    }
}

/// The texts of a transaction, which are read from the front.
#[derive(Drop)]
pub struct TextsIter<'a> {
    left: &'a [(usize, Vec<u8>)],
}

impl<'a> TextsIter<'a> {
    /// The text at this place. Those of the places before it are not known any more.
    pub fn at(&mut self, place: usize) -> Option<&'a [u8]> {
        let mut found = None;
        // A `for`, since the prover asks that each loop ends.
        for _ in 0..self.left.len() {
            let [first, rest @ ..] = self.left else {
                break;
            };
            if first.0 > place {
                break;
            }
            if first.0 == place {
                found = Some(first.1.as_slice());
            }
            self.left = rest;
        }
        found
    }
}
