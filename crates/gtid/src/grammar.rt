//! The grammar of sets as text.

ghost use Rattle.std.specs.Prelude.{◌≡◌, ◌+◌, ◌<◌, ◌≤◌, ◌∷◌, length, true, Some, OnOk, IfErr, IfSome, IfNone, IsTrue};
ghost use Rattle.gtid.specs.Text.{IsInGrammar, IsOutsideFrom};
ghost use Rattle.gtid.specs.Scan;
ghost use Rattle.gtid.specs.Scan.{IsPlaced, IsPassed, is_digit, BeginsWithNoDigit, ScanEndsAt};
ghost use Rattle.gtid.specs.declared.grammar.State.TheVariants.{Source, Lo, Hi};

/// What was read last, which decides what may come next.
#[derive(Clone, Copy)]
enum State {
    /// Nothing but blanks.
    Start,
    /// A comma, and any blanks after it.
    Item,
    /// This many of the 36 bytes of a UUID, at least one.
    Source(u8),
    /// The colon of an interval.
    First,
    /// A digit of an interval's first number.
    Lo,
    /// The hyphen of an interval.
    Second,
    /// A digit of an interval's second number.
    Hi,
    /// A blank after an item.
    After,
}

/// Whether the bytes are the text of a set; otherwise the length of the longest prefix that begins some text of a set.
pub(crate) fn scan(text: &[u8]) -> Result<(), usize>
    ensures ok { OnOk result (IsInGrammar text.now) }
    ensures err { IfErr result (IsOutsideFrom text.now) }
{
    let mut state = State::Start;
    let mut left = text;
    while let [byte, rest @ ..] = left {
        let Some(next) = step(state, *byte) else {
            return Err(text.len() - left.len());
        };
        let (next, rest) = pass(next, rest);
        state = next;
        left = rest;
    }
    if ends(state) { Ok(()) } else { Err(text.len()) }
}

/// Skips more digits of a number, or more bytes of a UUID, without matching the state for each byte.
fn pass(state: State, text: &[u8]) -> (State, &[u8])
    requires { IsPlaced state }
    ensures passed { IsPassed state text.now result.0 result.1.now }
    ensures placed { IsPlaced result.0 }
    ensures shorter { length result.1.now ≤ length text.now }
{
    match state {
        State::Lo | State::Hi => (state, pass_digits(text)),
        State::Source(place) => {
            let (place, left) = pass_source(place, text);
            (State::Source(place), left)
        }
        _ => (state, text),
    }
}

/// What follows the digits at the front.
fn pass_digits(text: &[u8]) -> &[u8]
    ensures lo { IsPassed Lo text.now Lo result.now }
    ensures hi { IsPassed Hi text.now Hi result.now }
    ensures end { BeginsWithNoDigit result.now }
    ensures shorter { length result.now ≤ length text.now }
{
    let mut left = text;
    while let Some((_, rest)) = take_digit(left) {
        left = rest;
    }
    left
}

/// The digit at the front, and what follows it.
pub(crate) fn take_digit(text: &[u8]) -> Option<(u8, &[u8])>
    ensures some { IfSome result (λ taken. (text.now ≡ taken.0 ∷ taken.1.now)
        × (is_digit taken.0 ≡ true)) }
    ensures none { IfNone result (BeginsWithNoDigit text.now) }
{
    match text {
        [digit @ b'0'..=b'9', rest @ ..] => Some((*digit, rest)),
        _ => None,
    }
}

/// How many bytes of a UUID have been read after those at the front that continue it, and what follows them.
fn pass_source(place: u8, text: &[u8]) -> (u8, &[u8])
    requires { place ≤ 36 }
    ensures passed { IsPassed (Source place) text.now (Source result.0) result.1.now }
    ensures placed { result.0 ≤ 36 }
    ensures end { ScanEndsAt result.0 result.1.now }
    ensures shorter { length result.1.now ≤ length text.now }
{
    let mut place = place;
    let mut left = text;
    while let [byte, rest @ ..] = left {
        if !stands_at(place, *byte) {
            return (place, left);
        }
        place += 1;
        left = rest;
    }
    (place, left)
}

/// Whether a byte may be at this place of a UUID. None may be at place 36, its end.
fn stands_at(place: u8, byte: u8) -> bool
    requires { place ≤ 36 }
    ensures within { IsTrue result → place < 36 }
    ensures value { place < 36 → result ≡ Scan.stands_at place byte }
    ensures step { IsTrue result → Scan.step (Source place) byte ≡ Some (Source (place + 1)) }
{
    match place {
        36 => false,
        8 | 13 | 18 | 23 => byte == b'-',
        _ => byte.is_ascii_hexdigit(),
    }
}

/// The state after a byte, if the byte may come next.
fn step(state: State, byte: u8) -> Option<State>
    requires { IsPlaced state }
    ensures step { result ≡ Scan.step state byte }
    ensures placed { IfSome result IsPlaced }
{
    match state {
        State::Start | State::Item => begin(state, byte),
        State::Source(place) => continue_source(place, byte),
        State::First => match byte {
            b'0'..=b'9' => Some(State::Lo),
            _ => None,
        },
        State::Lo => match byte {
            b'0'..=b'9' => Some(State::Lo),
            b'-' => Some(State::Second),
            _ => end_number(byte),
        },
        State::Second => match byte {
            b'0'..=b'9' => Some(State::Hi),
            _ => None,
        },
        State::Hi => match byte {
            b'0'..=b'9' => Some(State::Hi),
            _ => end_number(byte),
        },
        State::After => match byte {
            b' ' | b'\n' | b'\r' => Some(State::After),
            b',' => Some(State::Item),
            _ => None,
        },
    }
}

/// The state after a byte that comes before an item: a blank keeps the state, a hex digit begins the UUID.
fn begin(state: State, byte: u8) -> Option<State>
    ensures { result ≡ Scan.begin state byte }
{
    match byte {
        b'0'..=b'9' | b'a'..=b'f' | b'A'..=b'F' => Some(State::Source(1)),
        b' ' | b'\n' | b'\r' => Some(state),
        _ => None,
    }
}

/// The state after a byte that comes in a UUID, or right after it.
fn continue_source(place: u8, byte: u8) -> Option<State>
    requires { place ≤ 36 }
    ensures { result ≡ Scan.step (Source place) byte }
{
    match place {
        36 => (byte == b':').then_some(State::First),
        _ => stands_at(place, byte).then_some(State::Source(place + 1)),
    }
}

/// The state after a byte that is not a digit and comes after a number, if it may end the number there.
fn end_number(byte: u8) -> Option<State>
    ensures { result ≡ Scan.end_number byte }
{
    match byte {
        b':' => Some(State::First),
        b' ' | b'\n' | b'\r' => Some(State::After),
        b',' => Some(State::Item),
        _ => None,
    }
}

/// Whether the text may end in this state.
fn ends(state: State) -> bool
    ensures { result ≡ Scan.ends state }
{
    match state {
        State::Start | State::Lo | State::Hi | State::After => true,
        State::Item | State::Source(_) | State::First | State::Second => false,
    }
}
