//! The exact order of numbers: of whole numbers, of decimals and of the infinities.
//!
//! A decimal is compared by its digits, however many it has and however large its exponent is. No time grows with the
//! value of an exponent, and nothing is rounded.

ghost use Rattle.kdl_query.specs.Decimal as exact;
ghost use Rattle.kdl_query.specs.DecimalParts.{natural_of, IsDigits, cut_at, whole_of, IsWhole, IsWithin, Clamps, IsDecimal, exponent, followed, raised, lowered, rational_of, number_of, IsKnown};
ghost use Rattle.kdl_text.specs.Chars.{is_digit, begins};
ghost use Rattle.kdl_text.specs.Numbers.{Decimal as IsDecimalText, is_exponent_letter};
ghost use Rattle.kdl_value.specs.Tree.{value_tree, float_text_of};
ghost use Rattle.std.specs.Prelude.{◌≡◌, ℕ, Bool, ℤ, ◌+◌, ◌-◌, ◌/◌, ◌%◌, ◌^◌, ◌<◌, ◌≤◌, pos, ◌+ℤ◌, ◌-ℤ◌, ◌*ℤ◌, min, option_map, IfSome, [], length, position, true};
ghost use Rattle.std.specs.Ordering.{int_cmp};
ghost use Rattle.std.specs.List.{list_all, before_first, after_first};
ghost use Rattle.std.specs.Str.Parse.{digits_value};

use kdl_value::{KdlFloat, KdlValue};
use std::cmp::Ordering;

/// The digits of a natural number in base 10.
#[derive(Clone, Copy)]
enum Digits<'a> {
    /// Those of a number in memory.
    Number(u128),
    /// Those of a text before its point, and those after it.
    Text(&'a [u8], &'a [u8]),
}

impl Digits<'_> {
    /// Returns a number of places that has room for all digits.
    fn places(self) -> usize
        requires { IsDigits self }
        ensures room { natural_of self.entry < 10 ^ result }
        ensures bound { result < 2 ^ 63 }
    {
        match self {
            Digits::Number(n) if n < 1000 => 3,
            Digits::Number(n) if n < 1 << 63 => 19,
            Digits::Number(_) => 39,
            Digits::Text(whole, fraction) => whole.len() + fraction.len(),
        }
    }

    /// Returns the digit at a place, counted from the last digit: 0 before the first digit.
    fn digit(self, place: usize) -> u8
        requires { IsDigits self }
        ensures { result ≡ natural_of self.entry / 10 ^ place % 10 }
    {
        match self {
            Digits::Number(n) if place < 39 => (n / 10_u128.pow(place as u32) % 10) as u8,
            Digits::Number(_) => 0,
            Digits::Text(_, fraction) if place < fraction.len() => digit_at(fraction, place),
            Digits::Text(whole, fraction) => digit_at(whole, place - fraction.len()),
        }
    }
}

/// Returns the digit at a place, counted from the last digit: 0 before the first digit.
fn digit_at(digits: &[u8], place: usize) -> u8
    requires { list_all is_digit digits.now ≡ true }
    ensures { result ≡ digits_value 10 digits.now / 10 ^ place % 10 }
{
    if place < digits.len() {
        digits[digits.len() - 1 - place] - b'0'
    } else {
        0
    }
}

/// A whole number: a sign, digits, and zeros after them.
#[derive(Clone, Copy)]
struct Whole<'a> {
    negative: bool,
    digits: Digits<'a>,
    zeros: usize,
}

impl Whole<'_> {
    /// Returns a number of places that has room for all digits.
    fn places(self) -> usize
        requires { IsWhole self }
        ensures { (place : ℕ) → result ≤ place → cut_at self.entry place ≡ pos 0 }
    {
        self.digits.places() + self.zeros
    }

    /// Returns the digit at a place, with the sign of the number.
    fn digit(self, place: usize) -> i128
        requires { IsDigits self.digits }
        ensures step { cut_at self.entry place ≡ (cut_at self.entry (place + 1) *ℤ pos 10) +ℤ result }
        ensures small { IsWithin 9 result }
    {
        if place < self.zeros {
            return 0;
        }
        let digit = i128::from(self.digits.digit(place - self.zeros));
        if self.negative { -digit } else { digit }
    }
}

/// A difference that is this large may be larger.
const LIMIT: i128 = 1 << 100;

/// Returns a difference after one more digit, or one that is at least as large as the limit.
fn lengthened(difference: i128, digit: i128) -> i128
    requires difference { IsWithin (2 ^ 104) difference }
    requires digit { IsWithin 18 digit }
    ensures fits { IsWithin (2 ^ 104) result }
    ensures clamps { (z : ℤ) → Clamps (2 ^ 100) difference z
        → Clamps (2 ^ 100) result ((z *ℤ pos 10) +ℤ digit) }
{
    if -LIMIT < difference && difference < LIMIT {
        difference * 10 + digit
    } else {
        difference
    }
}

/// Returns the difference of two numbers, or one that is at least as large as the limit.
fn difference(a: Whole, b: Whole) -> i128
    requires a { IsWhole a }
    requires b { IsWhole b }
    ensures fits { IsWithin (2 ^ 104) result }
    ensures clamps { Clamps (2 ^ 100) result (whole_of a.entry -ℤ whole_of b.entry) }
{
    let mut place = a.places().max(b.places());
    let mut difference = 0;
    while 0 < place {
        place -= 1;
        difference = lengthened(difference, a.digit(place) - b.digit(place));
    }
    difference
}

/// Returns the order of two numbers: that of their digits at the first place where these differ.
fn whole_order(a: Whole, b: Whole) -> Ordering
    requires a { IsWhole a }
    requires b { IsWhole b }
    ensures { result ≡ int_cmp (whole_of a.entry) (whole_of b.entry) }
{
    let mut place = a.places().max(b.places());
    while 0 < place {
        place -= 1;
        let order = a.digit(place).cmp(&b.digit(place));
        if order.is_ne() {
            return order;
        }
    }
    Ordering::Equal
}

/// A decimal: a whole number, of whose digits some are after the point, times a power of 10.
#[derive(Clone, Copy)]
struct Decimal<'a> {
    negative: bool,
    /// The digits of the number, of which `scale` are after the point.
    digits: Digits<'a>,
    scale: usize,
    /// Whether the exponent is below 0, and its digits.
    lowers: bool,
    power: Digits<'a>,
}

impl<'a> Decimal<'a> {
    /// Returns the decimal that a text writes.
    fn of_text(text: &'a [u8]) -> Decimal<'a>
        requires text { IsDecimalText text.now [] text.now }
        requires short { length text.now < 2 ^ 63 }
        ensures known { IsDecimal result }
        ensures is { rational_of result ≡ exact.rational_of text.now }
    {
        let (negative, text) = unsigned(text);
        let (mantissa, power) = cut(text, letter(text));
        let (whole, fraction) = cut(mantissa, point(mantissa));
        let (lowers, power) = unsigned(power);
        Decimal {
            negative,
            digits: Digits::Text(whole, fraction),
            scale: fraction.len(),
            lowers,
            power: Digits::Text(power, &[]),
        }
    }

    /// Returns the decimal that is a whole number.
    fn of_integer(z: i128) -> Decimal<'a>
        ensures known { IsDecimal result }
        ensures is { rational_of result ≡ record { numerator = z; denominator = 1 } }
    {
        Decimal {
            negative: z < 0,
            digits: Digits::Number(z.unsigned_abs()),
            scale: 0,
            lowers: false,
            power: Digits::Text(&[], &[]),
        }
    }

    /// Returns the number without its point and exponent, and with zeros after its digits.
    fn followed_by(self, zeros: usize) -> Whole<'a>
        ensures { result ≡ followed self.entry zeros }
    {
        Whole {
            negative: self.negative,
            digits: self.digits,
            zeros,
        }
    }

    /// Returns the exponent.
    fn exponent(self) -> Whole<'a>
        ensures { result ≡ exponent self.entry }
    {
        Whole {
            negative: self.lowers,
            digits: self.power,
            zeros: 0,
        }
    }
}

/// Returns by how many places the last digit of a number is above that of another, or a number that is at least as
/// large as half the limit.
fn shift(a: Decimal, b: Decimal) -> i128
    requires a { IsDecimal a }
    requires b { IsDecimal b }
    ensures clamps { Clamps (2 ^ 99) result (pos (raised a.entry + lowered b.entry) -ℤ pos (raised b.entry + lowered a.entry)) }
    ensures fits { IsWithin (2 ^ 105) result }
{
    difference(a.exponent(), b.exponent()) + b.scale as i128 - a.scale as i128
}

/// Returns how many zeros bring a number to the last place of another: as many as `shift` says, and not more than the
/// other number has places.
fn zeros(shift: i128, places: usize) -> usize
    requires { places < 2 ^ 63 }
    ensures least { (x y : ℕ) → Clamps (2 ^ 99) shift (pos x -ℤ pos y) → result ≡ min (x - y) places }
    ensures bound { result < 2 ^ 63 }
{
    shift.clamp(0, places as i128) as usize
}

/// Returns the order of two decimals by their exact values.
fn decimal_order(a: Decimal, b: Decimal) -> Ordering
    requires a { IsDecimal a }
    requires b { IsDecimal b }
    ensures { result ≡ exact.rational_order (rational_of a.entry) (rational_of b.entry) }
{
    let shift = shift(a, b);
    let a_zeros = zeros(shift, b.digits.places());
    let b_zeros = zeros(-shift, a.digits.places());
    whole_order(a.followed_by(a_zeros), b.followed_by(b_zeros))
}

/// Returns whether a text begins with `-`, and the text without its sign.
fn unsigned(text: &[u8]) -> (bool, &[u8])
    ensures sign { result.0 ≡ begins 45 text.now }
    ensures rest { result.1.now ≡ exact.unsigned text.now }
{
    match text.first() {
        Some(b'-') => (true, &text[1..]),
        Some(b'+') => (false, &text[1..]),
        _ => (false, text),
    }
}

/// Returns the place of the point, if there is one.
fn point(text: &[u8]) -> Option<usize>
    ensures is { result ≡ position exact.is_point text.now }
    ensures inside { IfSome result (λ place. place < length text.now) }
{
    text.iter().position(|b| *b == b'.')
}

/// Returns the place of the letter of an exponent, if there is one.
fn letter(text: &[u8]) -> Option<usize>
    ensures is { result ≡ position is_exponent_letter text.now }
    ensures inside { IfSome result (λ place. place < length text.now) }
{
    text.iter().position(|b| *b == b'e' || *b == b'E')
}

/// Returns what is before a place and after it; without a place the whole text, and nothing.
fn cut(text: &[u8], place: Option<usize>) -> (&[u8], &[u8])
    requires { IfSome place (λ i. i < length text.now) }
    ensures before { (p : ℕ → Bool) → place ≡ position p text.now
        → result.0.now ≡ before_first p text.now }
    ensures after { (p : ℕ → Bool) → place ≡ position p text.now
        → result.1.now ≡ after_first p text.now }
{
    match place {
        Some(place) => (&text[..place], &text[place + 1..]),
        None => (text, &[]),
    }
}

/// A number that is in the order.
#[derive(Clone, Copy)]
enum Number<'a> {
    /// `#-inf`
    NegativeInfinity,
    /// A whole number or a decimal.
    Finite(Decimal<'a>),
    /// `#inf`
    Infinity,
}

impl<'a> Number<'a> {
    /// Returns the number that a float is, unless it is `#nan`.
    fn of_float(float: &'a KdlFloat) -> Option<Number<'a>>
        ensures known { IfSome result IsKnown }
        ensures is { option_map number_of result ≡ exact.float_number (float_text_of float.now) }
    {
        match float.as_str() {
            "#inf" => Some(Number::Infinity),
            "#-inf" => Some(Number::NegativeInfinity),
            "#nan" => None,
            text => Some(Number::Finite(Decimal::of_text(text.as_bytes()))),
        }
    }

    /// Returns the number that a value is, if it is one and not `#nan`.
    fn of_value(value: &'a KdlValue) -> Option<Number<'a>>
        ensures known { IfSome result IsKnown }
        ensures is { option_map number_of result ≡ exact.number_of (value_tree value.now) }
    {
        match value {
            KdlValue::Integer(z) => Some(Number::Finite(Decimal::of_integer(*z))),
            KdlValue::Float(f) => Number::of_float(f),
            _ => None,
        }
    }
}

/// Returns the order of two numbers.
fn number_order(a: Number, b: Number) -> Ordering
    requires a { IsKnown a }
    requires b { IsKnown b }
    ensures { result ≡ exact.number_order (number_of a.entry) (number_of b.entry) }
{
    match (a, b) {
        (Number::Finite(a), Number::Finite(b)) => decimal_order(a, b),
        (Number::NegativeInfinity, Number::NegativeInfinity) => Ordering::Equal,
        (Number::Infinity, Number::Infinity) => Ordering::Equal,
        (Number::NegativeInfinity, _) => Ordering::Less,
        (_, Number::Infinity) => Ordering::Less,
        _ => Ordering::Greater,
    }
}

/// Returns the order of two numbers by their exact values, or `None` if one is no number or is `#nan`.
///
/// ```
/// let order = compare(&KdlValue::from(2), &KdlValue::from(KdlFloat::new(alloc, "20.0e-1")?)); // `Some(Equal)`
/// ```
#[tactic(auto, unfolding(crate::specs::Decimal::exact_order))]
pub(crate) fn compare(a: &KdlValue, b: &KdlValue) -> Option<Ordering>
    ensures { result ≡ exact.exact_order (value_tree a.now) (value_tree b.now) }
{
    match (a, b) {
        (KdlValue::Integer(a), KdlValue::Integer(b)) => Some(a.cmp(b)),
        _ => Some(number_order(Number::of_value(a)?, Number::of_value(b)?)),
    }
}
