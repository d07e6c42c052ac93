//! DECIMAL.

ghost use Rattle.std.specs.Prelude.{◌≡◌, ◌≤◌, ◌<◌, ◌+◌, ◌-◌, ◌^◌, ◌++◌, ℕ, List, length, take, drop, All, sum, IsTrue, Some, IfOk, IfErr, IfSome, IsOkAnd, IsSomeAnd, OnOk, OnErr, vec_len, vec_capacity};
ghost use Rattle.byteorder.specs.Endian.{big_bytes};
ghost use Rattle.binlog.specs.Cell.{cell_value, bytes_cell};
ghost use Rattle.columns.specs.Cells.{bytes_fault};
ghost use Rattle.columns.specs.Decimals as spec;
ghost use Rattle.columns.specs.Decimals.{are_digits, are_zeros, digits_number, part_size, decimal_size, group_digits, groups_bytes, groups_size, inverted, decimal_bytes, decimal_text, filled_width, zero_filled};

use crate::value::bytes::read_big;
use crate::value::digits::{Digits, Zeros, is_zero, significant};
use crate::value::fault::CellFault;
use binlog::Cell;
use std::alloc::AllocError;
use std::fmt;

/// A value of DECIMAL: a sign, and digits, some of them after the point.
#[derive(Clone, Copy, Debug, PartialEq, Eq)]
pub struct Decimal {
    /// Whether it is below zero. A negative zero is a value of its own here, and has the text of zero.
    pub negative: bool,
    /// How many digits it has, 1 to 65.
    pub precision: u8,
    /// How many of them stand after the point, up to 30.
    pub scale: u8,
    /// The digits from the highest on, each from 0 to 9, and then zeros.
    pub digits: [u8; 65],
    pub ghost some: { 1 ≤ precision },
    pub ghost few: { precision ≤ 65 },
    pub ghost within: { scale ≤ precision },
    pub ghost short: { scale ≤ 30 },
    pub ghost all: { length digits ≡ 65 },
    pub ghost lawful: { IsTrue (are_digits digits) },
    pub ghost rest: { IsTrue (are_zeros (drop precision digits)) },
}

impl Decimal {
    /// The value that a cell stands for in a column with so many digits, and so many of them after the point: groups of
    /// nine digits in four bytes, and what is left over at both ends in up to four.
    pub fn read(precision: u8, scale: u8, cell: Cell<'_>) -> Result<Decimal, CellFault>
        requires some { 1 ≤ precision }
        requires few { precision ≤ 65 }
        requires within { scale ≤ precision }
        requires short { scale ≤ 30 }
        ensures precision { IfOk result (λ made. made.precision ≡ precision) }
        ensures scale { IfOk result (λ made. made.scale ≡ scale) }
        ensures found { IfOk result (λ made. cell_value cell.entry
            ≡ bytes_cell (decimal_bytes made.negative precision scale made.digits)) }
        ensures only { (other : Decimal) → other.precision ≡ precision → other.scale ≡ scale
            → cell_value cell.entry ≡ bytes_cell (decimal_bytes other.negative precision scale
            other.digits) → IsOkAnd result (λ made. (made.negative ≡ other.negative)
            × (made.digits ≡ other.digits)) }
        ensures fault { IfErr result (λ fault. fault
            ≡ bytes_fault (decimal_size precision scale) (cell_value cell.entry)) }
    {
        let Cell::Bytes(bytes) = cell else {
            return Err(CellFault::Kind);
        };
        match of_bytes(precision, scale, bytes) {
            Some(found) => Ok(found),
            None => Err(CellFault::of_bytes(bytes.len(), size(precision, scale))),
        }
    }

    /// Appends the bytes of the value in a cell. The only error is that the vector lacks the room and cannot grow. It
    /// leaves the vector as it was.
    pub fn write(self, out: &mut Vec<u8>) -> Result<(), AllocError>
        ensures ok { OnOk result (out.new.items ≡ out.old.items ++ decimal_bytes self.negative
            self.precision self.scale self.digits) }
        ensures err { OnErr result (out.new.items ≡ out.old.items) }
        ensures full { OnErr result (vec_capacity out.old
            < vec_len out.old + length (decimal_bytes self.negative self.precision self.scale
            self.digits)) }
    {
        let size = size(self.precision, self.scale);
        let (sizes, count) = groups(self.precision, self.scale);
        let mut bytes = [0; 30];
        let cell = &mut bytes[..size];
        write_groups(&sizes[..count], &self.digits, cell);
        invert(self.negative, cell);
        flip_top(cell);
        out.extend_from_slice(cell)?;
        Ok(())
    }
}

/// How many bytes a cell takes.
fn size(precision: u8, scale: u8) -> usize
    requires few { precision ≤ 65 }
    requires within { scale ≤ precision }
    ensures size { result ≡ decimal_size precision scale }
    ensures small { result ≤ 30 }
{
    part_size(precision - scale) + part_size(scale)
}

/// How many bytes the whole part or the fraction takes.
fn part_size(digits: u8) -> usize
    ensures { result ≡ part_size digits }
{
    usize::from(digits / 9) * 4 + group_size(digits % 9)
}

/// How many bytes a group of so many digits takes.
fn group_size(digits: u8) -> usize
    requires { digits ≤ 9 }
    ensures { result ≡ spec.group_size digits }
{
    if digits == 9 {
        4
    } else {
        usize::from(digits.div_ceil(2))
    }
}

/// How many digits each group has, and how many groups there are.
fn groups(precision: u8, scale: u8) -> ([u8; 10], usize)
    requires few { precision ≤ 65 }
    requires within { scale ≤ precision }
    ensures count { result.1 ≤ 10 }
    ensures sizes { take result.1 result.0 ≡ group_digits precision scale }
{
    let whole = precision - scale;
    let nines = usize::from(whole / 9 + scale / 9);
    let mut sizes = [9; 10];
    sizes[0] = whole % 9;
    sizes[nines + 1] = scale % 9;
    (sizes, nines + 2)
}

/// The value of bytes, with so many digits.
fn of_bytes(precision: u8, scale: u8, bytes: &[u8]) -> Option<Decimal>
    requires some { 1 ≤ precision }
    requires few { precision ≤ 65 }
    requires within { scale ≤ precision }
    requires short { scale ≤ 30 }
    ensures precision { IfSome result (λ made. made.precision ≡ precision) }
    ensures scale { IfSome result (λ made. made.scale ≡ scale) }
    ensures found { IfSome result (λ made. bytes.now
        ≡ decimal_bytes made.negative precision scale made.digits) }
    ensures only { (other : Decimal) → other.precision ≡ precision → other.scale ≡ scale →
        bytes.now ≡ decimal_bytes other.negative precision scale other.digits →
        IsSomeAnd result (λ made. (made.negative ≡ other.negative) × (made.digits ≡ other.digits)) }
{
    let size = size(precision, scale);
    if bytes.len() != size {
        return None;
    }
    let mut plain = [0; 30];
    let cell = &mut plain[..size];
    cell.copy_from_slice(bytes);
    let negative = cell[0] < 128;
    flip_top(cell);
    invert(negative, cell);
    let (sizes, count) = groups(precision, scale);
    let mut digits = [0; 65];
    if !read_groups(&sizes[..count], cell, &mut digits) {
        return None;
    }
    Some(Decimal {
        negative,
        precision,
        scale,
        digits,
    })
}

/// Inverts all bits, of a negative value.
fn invert(negative: bool, bytes: &mut [u8])
    ensures { bytes.new ≡ inverted negative bytes.old }
{
    if !negative {
        return;
    }
    for byte in bytes.iter_mut() {
        *byte = 255 - *byte;
    }
}

/// Flips the top bit of the first byte.
fn flip_top(bytes: &mut [u8])
    ensures { bytes.new ≡ spec.top_flipped bytes.old }
{
    if let [first, ..] = bytes {
        *first = first.wrapping_add(128);
    }
}

/// Reads groups of so many digits each, and puts their digits one after the other. It is false if a number has more
/// digits than its group.
fn read_groups(sizes: &[u8], bytes: &[u8], digits: &mut [u8]) -> bool
    requires sizes { All (λ size. size ≤ 9) sizes.now }
    requires bytes { length bytes.now ≡ groups_size sizes.now }
    requires digits { sum sizes.now ≤ length digits.old }
    requires lawful { IsTrue (are_digits digits.old) }
    ensures lawful { IsTrue (are_digits digits.new) }
    ensures rest { drop (sum sizes.now) digits.new ≡ drop (sum sizes.now) digits.old }
    ensures found { IsTrue result → bytes.now ≡ groups_bytes sizes.now digits.new }
    ensures only { (other : List ℕ) → length other ≡ length digits.old → IsTrue (are_digits other)
        → drop (sum sizes.now) other ≡ drop (sum sizes.now) digits.old
        → bytes.now ≡ groups_bytes sizes.now other → IsTrue result × (digits.new ≡ other) }
{
    let [size, sizes @ ..] = sizes else {
        return true;
    };
    let (group, bytes) = bytes.split_at(group_size(*size));
    let (front, digits) = digits.split_at_mut(usize::from(*size));
    read_group(group, front) && read_groups(sizes, bytes, digits)
}

/// Reads the digits of one group. It is false if the number has more.
fn read_group(bytes: &[u8], digits: &mut [u8]) -> bool
    requires few { length digits.old ≤ 9 }
    requires bytes { length bytes.now ≤ 4 }
    requires lawful { IsTrue (are_digits digits.old) }
    ensures lawful { IsTrue (are_digits digits.new) }
    ensures found { IsTrue result → bytes.now ≡ big_bytes (length bytes.now)
        (digits_number digits.new) }
    ensures only { (other : List ℕ) → length other ≡ length digits.old → IsTrue (are_digits other)
        → digits_number other < 256 ^ length bytes.now
        → bytes.now ≡ big_bytes (length bytes.now) (digits_number other)
        → IsTrue result × (digits.new ≡ other) }
{
    let number = read_big(bytes);
    if number >= 10u64.pow(digits.len() as u32) {
        return false;
    }
    put_digits(number, digits);
    true
}

/// The digits of a number, with zeros in front.
fn put_digits(number: u64, digits: &mut [u8])
    requires few { length digits.old ≤ 9 }
    requires small { number < 10 ^ length digits.old }
    ensures lawful { IsTrue (are_digits digits.new) }
    ensures number { digits_number digits.new ≡ number }
{
    if digits.is_empty() {
        return;
    }
    let (first, rest) = digits.split_at_mut(1);
    let unit = 10u64.pow(rest.len() as u32);
    first[0] = (number / unit) as u8;
    put_digits(number % unit, rest);
}

/// Writes groups of so many digits each.
fn write_groups(sizes: &[u8], digits: &[u8], bytes: &mut [u8])
    requires sizes { All (λ size. size ≤ 9) sizes.now }
    requires bytes { length bytes.old ≡ groups_size sizes.now }
    requires digits { sum sizes.now ≤ length digits.now }
    requires lawful { IsTrue (are_digits digits.now) }
    ensures { bytes.new ≡ groups_bytes sizes.now digits.now }
{
    if let [size, sizes @ ..] = sizes {
        let (front, digits) = digits.split_at(usize::from(*size));
        let (group, bytes) = bytes.split_at_mut(group_size(*size));
        write_group(front, group);
        write_groups(sizes, digits, bytes);
    }
}

/// Writes the number of one group.
fn write_group(digits: &[u8], bytes: &mut [u8])
    requires few { length digits.now ≤ 9 }
    requires bytes { length bytes.old ≤ 4 }
    requires lawful { IsTrue (are_digits digits.now) }
    ensures { bytes.new ≡ big_bytes (length bytes.old) (digits_number digits.now) }
{
    let number = number_of(digits) as u32;
    let all = number.to_be_bytes();
    let (_, low) = all.split_at(4 - bytes.len());
    bytes.copy_from_slice(low);
}

/// The number of digits.
fn number_of(digits: &[u8]) -> u64
    requires few { length digits.now ≤ 9 }
    requires lawful { IsTrue (are_digits digits.now) }
    ensures number { result ≡ digits_number digits.now }
    ensures small { result < 10 ^ length digits.now }
{
    match digits {
        [] => 0,
        [first, rest @ ..] => u64::from(*first) * 10u64.pow(rest.len() as u32) + number_of(rest),
    }
}

/// The minus sign of a value below zero, or nothing.
fn sign_text(negative: bool, digits: &[u8]) -> &'static str
    ensures { result.now ≡ spec.sign_part negative digits.now }
{
    if is_zero(digits) {
        ""
    } else if negative {
        "-"
    } else {
        ""
    }
}

/// Writes the digits with a point in front of the last ones, as many as the scale says; at least one digit in front of
/// it, and no other zeros there; a minus sign in front of a value below zero. The only error is the writer's.
impl fmt::Display for Decimal {
    ghost output = { λ made. Some (decimal_text made.negative made.precision made.scale made.digits) };

    fn fmt<W: fmt::Write>(&self, f: &mut fmt::Formatter<W>) -> fmt::Result {
        let digits = &self.digits[..usize::from(self.precision)];
        let (whole, fraction) = digits.split_at(usize::from(self.precision - self.scale));
        let sign = sign_text(self.negative, digits);
        let whole = Digits(significant(whole));
        if fraction.is_empty() {
            return write!(f, "{sign}{whole}");
        }
        let fraction = Digits(fraction);
        write!(f, "{sign}{whole}.{fraction}")
    }
}

/// A value of a type with ZEROFILL.
#[derive(Clone, Copy, Debug, PartialEq, Eq)]
pub struct ZerofilledDecimal {
    pub decimal: Decimal,
}

/// Writes the value with zeros in front: in as many bytes as it has digits, and one more for the point if some stand
/// after it. The only error is the writer's.
impl fmt::Display for ZerofilledDecimal {
    ghost output = { λ filled. Some (zero_filled (filled_width filled.decimal.precision filled.decimal.scale)
        (decimal_text filled.decimal.negative filled.decimal.precision filled.decimal.scale filled.decimal.digits)) };

    fn fmt<W: fmt::Write>(&self, f: &mut fmt::Formatter<W>) -> fmt::Result {
        let decimal = self.decimal;
        let zeros = Zeros(filled_width(decimal).saturating_sub(text_length(decimal)));
        write!(f, "{zeros}{decimal}")
    }
}

/// How many bytes the text with zeros in front has at least.
fn filled_width(decimal: Decimal) -> usize
    ensures { result ≡ filled_width decimal.precision decimal.scale }
{
    let precision = usize::from(decimal.precision);
    if decimal.scale == 0 {
        precision
    } else {
        precision + 1
    }
}

/// How many bytes the text has.
fn text_length(decimal: Decimal) -> usize
    ensures { result ≡ length (decimal_text decimal.negative decimal.precision decimal.scale
        decimal.digits) }
{
    let digits = &decimal.digits[..usize::from(decimal.precision)];
    let (whole, fraction) = digits.split_at(usize::from(decimal.precision - decimal.scale));
    let sign = sign_text(decimal.negative, digits).len();
    let whole = significant(whole).len();
    if fraction.is_empty() {
        return sign + whole;
    }
    sign + whole + 1 + fraction.len()
}
