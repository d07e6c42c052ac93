//! The intervals in a text of the grammar.

ghost use Rattle.std.specs.Prelude.{◌≡◌, ◌≢◌, ℕ, ◌⊎◌, ◌<◌, ◌≤◌, List, [], ◌∷◌, length, Some, None, Ok, Err, IfOk, IfErr, IfSome, IfNone};
ghost use Rattle.std.specs.List.{AllByRecursion};
ghost use Rattle.uuid.specs.Text.{hex_digit_value};
ghost use Rattle.gtid.specs.Encoding.{SidBlock};
ghost use Rattle.gtid.specs.Scan.{BeginsWithNoDigit};
ghost use Rattle.gtid.specs.Text;
ghost use Rattle.gtid.specs.Text.{IsList, list_fault, written_fault, written_spans};
ghost use Rattle.gtid.specs.Reading;
ghost use Rattle.gtid.specs.Reading.{collected, after_interval, judge};
ghost use Rattle.gtid.specs.Span.{IsLawfulSpan};
ghost use Rattle.gtid.specs.Reading.Part.{Source, First, Second, After};

use crate::fault::GtidFault;
use crate::grammar::take_digit;
use crate::span::Span;
use std::alloc::Global;

/// The intervals of a text of the grammar, in the order in which they are written.
pub(crate) fn read_spans(alloc: Global, text: &[u8]) -> Result<Vec<Span>, GtidFault>
    ensures ok { IfOk result (λ spans. (items : List SidBlock) → IsList text.now items
        → (list_fault items ≡ None) × (spans.items ≡ written_spans items)) }
    ensures err { IfErr result (λ fault. (fault ≡ GtidFault.Memory)
        ⊎ ((items : List SidBlock) → IsList text.now items → list_fault items ≡ Some fault)) }
    ensures range { IfOk result (λ spans. AllByRecursion IsLawfulSpan spans.items) }
    ensures some { IfErr result (λ _. (items : List SidBlock) → IsList text.now items
        → 0 < length items) }
{
    let mut spans = Vec::new(alloc);
    let mut source = [0; 16];
    let mut left = text;
    while let Some(after) = read_source(left, &mut source) {
        left = read_intervals(after, source, &mut spans)?;
    }
    Ok(spans)
}

/// Reads a source up to its colon, and returns what follows the colon.
fn read_source<'a>(text: &'a [u8], source: &mut [u8; 16]) -> Option<&'a [u8]>
    ensures some { IfSome result (λ after. collected (Source 0) source.old text.now
        ≡ collected (First 0) source.new after.now) }
    ensures none { IfNone result (collected (Source 0) source.old text.now ≡ []) }
    ensures shorter { IfSome result (λ after. length after.now < length text.now) }
{
    let mut digits = 0;
    let mut left = text;
    while let [byte, rest @ ..] = left {
        if *byte == b':' {
            return Some(rest);
        }
        put(source, digits, *byte);
        digits = more_digits(digits, *byte);
        left = rest;
    }
    None
}

/// Appends the intervals of a source and returns the items after it. The text begins after the colon of the first
/// interval.
fn read_intervals<'a>(
    text: &'a [u8],
    source: [u8; 16],
    spans: &mut Vec<Span>,
) -> Result<&'a [u8], GtidFault>
    ensures ok { IfOk result (λ items. judge spans.old.items (collected (First 0) source text.now)
        ≡ judge spans.new.items (collected (Source 0) source items.now)) }
    ensures err { IfErr result (λ fault. (fault ≡ GtidFault.Memory)
        ⊎ (judge spans.old.items (collected (First 0) source text.now) ≡ Err fault)) }
    ensures shorter { IfOk result (λ items. length items.now ≤ length text.now) }
    ensures some { collected (First 0) source text.now ≢ [] }
{
    let mut after = push_interval(text, source, spans)?;
    while let [b':', rest @ ..] = after {
        after = push_interval(rest, source, spans)?;
    }
    Ok(after_comma(after))
}

/// Appends an interval and returns what follows it. The text begins after the interval's colon.
fn push_interval<'a>(
    text: &'a [u8],
    source: [u8; 16],
    spans: &mut Vec<Span>,
) -> Result<&'a [u8], GtidFault>
    ensures ok { IfOk result (λ after. judge spans.old.items (collected (First 0) source text.now)
        ≡ judge spans.new.items (after_interval source after.now)) }
    ensures err { IfErr result (λ fault. (fault ≡ GtidFault.Memory)
        ⊎ (judge spans.old.items (collected (First 0) source text.now) ≡ Err fault)) }
    ensures shorter { IfOk result (λ after. length after.now ≤ length text.now) }
    ensures some { collected (First 0) source text.now ≢ [] }
{
    let (lo, hi, after) = read_interval(text);
    if let Some(fault) = fault_of(lo, hi) {
        return Err(fault);
    }
    let hi = hi + 1;
    spans.push(Span { source, lo, hi })?;
    Ok(after)
}

/// The two numbers of an interval, and what follows it. The text begins after the interval's colon. A single number
/// stands for both.
fn read_interval(text: &[u8]) -> (u64, u64, &[u8])
    ensures found { (source : List ℕ) → collected (First 0) source text.now
        ≡ (source, (result.0, result.1)) ∷ after_interval source result.2.now }
    ensures shorter { length result.2.now ≤ length text.now }
{
    let (lo, after) = read_number(text);
    match after {
        [b'-', rest @ ..] => {
            let (hi, after) = read_number(rest);
            (lo, hi, after)
        }
        _ => (lo, lo, after),
    }
}

/// The number at the front, and what follows it.
fn read_number(text: &[u8]) -> (u64, &[u8])
    ensures first { (source : List ℕ) → collected (First 0) source text.now
        ≡ collected (First result.0) source result.1.now }
    ensures second { (lo : ℕ) (source : List ℕ)
        → collected (Second lo 0) source text.now
        ≡ collected (Second lo result.0) source result.1.now }
    ensures after { BeginsWithNoDigit result.1.now }
    ensures shorter { length result.1.now ≤ length text.now }
{
    let mut number = 0;
    let mut left = text;
    while let Some((digit, rest)) = take_digit(left) {
        number = appended(number, digit);
        left = rest;
    }
    (number, left)
}

/// What follows the next comma.
fn after_comma(text: &[u8]) -> &[u8]
    ensures items { (source : List ℕ) → collected After source text.now
        ≡ collected (Source 0) source result.now }
    ensures shorter { length result.now ≤ length text.now }
{
    let mut left = text;
    while let [byte, rest @ ..] = left {
        if *byte == b',' {
            return rest;
        }
        left = rest;
    }
    left
}

/// What is wrong with an interval as it is written.
fn fault_of(lo: u64, hi: u64) -> Option<GtidFault>
    ensures { result ≡ written_fault (lo, hi) }
{
    if !is_number(lo) || !is_number(hi) {
        return Some(GtidFault::Number);
    }
    (hi < lo).then_some(GtidFault::Interval)
}

/// Whether a number is from 1 to 2^63 - 2.
fn is_number(number: u64) -> bool
    ensures { result ≡ Text.is_number number }
{
    1 <= number && number < i64::MAX as u64
}

/// Puts a digit of the UUID into its place.
fn put(source: &mut [u8; 16], digits: u8, byte: u8)
    ensures { source.new ≡ Reading.put source.old digits byte }
{
    let Some(value) = hex_value(byte) else {
        return;
    };
    let place = usize::from(digits / 2);
    if place < 16 {
        source[place] = source[place] % 16 * 16 + value;
    }
}

/// How many digits of the UUID have been read after one more byte.
fn more_digits(digits: u8, byte: u8) -> u8
    ensures { result ≡ Reading.more_digits digits byte }
{
    match byte {
        b'0'..=b'9' | b'a'..=b'f' | b'A'..=b'F' => digits.saturating_add(1),
        _ => digits,
    }
}

/// The value of a hex digit.
fn hex_value(byte: u8) -> Option<u8>
    ensures value { result ≡ hex_digit_value byte }
    ensures small { IfSome result (λ value. value < 16) }
{
    match byte {
        b'0'..=b'9' => Some(byte - b'0'),
        b'a'..=b'f' => Some(byte - b'a' + 10),
        b'A'..=b'F' => Some(byte - b'A' + 10),
        _ => None,
    }
}

/// A number with one more digit at its end, or the greatest number that fits.
fn appended(number: u64, digit: u8) -> u64
    ensures { result ≡ Reading.appended number digit }
{
    let value = u64::from(digit.saturating_sub(b'0'));
    number.saturating_mul(10).saturating_add(value)
}
