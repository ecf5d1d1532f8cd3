//! Numbers (KDL 2.0.0, Number).
#![tactic(auto, using(crate::proofs::Looking::Returns::advancing))]

ghost use Rattle.kdl_text.specs.Chars.{starts};
ghost use Rattle.kdl_text.specs.Chars as class;
ghost use Rattle.kdl_text.specs.Internal.Here.{Looked, Stayed};
ghost use Rattle.kdl_text.specs.Internal.NumberReading.{radix_of, IsBase, LooksBasePrefix, Counts, IsDigit, SignOf, BaseOf, ReadsDigits, ReadsInteger, ReadsFront, IsNumberFault, ReadsFraction, ReadsExponent, ReadsPart, ReadsWhole, ReadsNumber, ReadsKeyword, AteExponentLetter, WordOf};
ghost use Rattle.kdl_text.specs.Numbers as spec;
ghost use Rattle.kdl_text.specs.Numbers.{Decimal, FloatKeyword, FloatText};
ghost use Rattle.kdl_text.specs.Internal.Reading.{Moves, Costs, Consumed};
ghost use Rattle.std.specs.Prelude.{◌≡◌, ℕ, ◌+◌, ◌*◌, ◌<◌, ◌≤◌, ◌++◌, not, IfOk, if◌then◌else◌, ◌↔◌, IsTrue, IfSome, string_bytes, [], ◌==◌};
ghost use Rattle.std.specs.List.{list_all};
ghost use Rattle.std.specs.Str.{chars};

use crate::chars::{Class, is_digit, is_identifier_char, is_sign, split_first};
use crate::cursor::{Cursor, Piece, Steps, same};
use std::alloc::{AllocError, Global};

/// The base in which a whole number is written.
#[derive(Clone, Copy)]
pub enum Radix {
    /// Base 2, after `0b` or `0B`.
    Binary,
    /// Base 8, after `0o` or `0O`.
    Octal,
    /// Base 10.
    Decimal,
    /// Base 16, after `0x` or `0X`.
    Hexadecimal,
}

impl Radix {
    /// Returns the base as a number.
    #[inline]
    pub fn value(self) -> u32
        ensures is { result ≡ radix_of self }
        ensures low { 2 ≤ result }
        ensures high { result ≤ 16 }
    {
        match self {
            Radix::Binary => 2,
            Radix::Octal => 8,
            Radix::Decimal => 10,
            Radix::Hexadecimal => 16,
        }
    }
}

/// The base that the letter after a `0` denotes.
fn base_of(c: char) -> Option<Radix>
    ensures { IsBase result (spec.base_of c) }
{
    match c {
        'x' | 'X' => Some(Radix::Hexadecimal),
        'o' | 'O' => Some(Radix::Octal),
        'b' | 'B' => Some(Radix::Binary),
        _ => None,
    }
}

/// Why no number was read where one begins.
#[derive(Clone, Copy)]
pub enum NumberFault {
    /// The digits of a whole number are followed by a character that can't follow them.
    Trailing(Radix),
    /// The digits of a decimal are followed by a character that can't follow them.
    TrailingDecimal,
    /// No digit of the base where the first is expected: after the prefix of the base, or after the
    /// sign.
    MissingDigits(Radix),
    /// No digit after the point.
    MissingFraction,
    /// No digit in the exponent.
    MissingExponent,
    /// The whole number does not fit in an `i128`.
    OutOfRange,
}

/// Why a text was not read as a number.
#[derive(Clone, Copy)]
pub enum NumberFailure {
    /// No number begins there.
    Fault(NumberFault),
    /// An allocation failed.
    Memory,
}

/// The value of a number.
#[derive(Drop)]
pub enum Number {
    /// A whole number.
    Integer(i128),
    /// A decimal, as its text without `_`.
    Decimal(String),
}

/// A keyword, written after `#` (KDL 2.0.0, Boolean, Null, Keyword Numbers).
#[derive(Clone, Copy)]
pub enum Keyword {
    /// `#true`
    True,
    /// `#false`
    False,
    /// `#null`
    Null,
    /// `#inf`
    Infinity,
    /// `#-inf`
    NegativeInfinity,
    /// `#nan`
    NotANumber,
}

/// Returns the number with one more digit, or `u128::MAX` if it needs more than 128 bits.
#[inline]
fn with_digit(number: u128, radix: u32, digit: u32) -> u128
    requires low { 2 ≤ radix }
    requires high { radix ≤ 16 }
    requires digit { digit < radix }
    ensures { (n : ℕ) → Counts number n → Counts result (n * radix + digit) }
{
    if number < 1 << 59 {
        return u128::from(number as u64 * u64::from(radix) + u64::from(digit));
    }
    match number.checked_mul(u128::from(radix)) {
        Some(number) => number.saturating_add(u128::from(digit)),
        None => u128::MAX,
    }
}

/// The value of the character, if it is a digit of the base.
#[inline]
#[tactic(auto, unfolding(crate::specs::Numbers::is_digit_of))]
fn digit_of(c: char, radix: Radix) -> Option<u32>
    ensures { IsDigit (radix_of radix) c result }
{
    c.to_digit(radix.value())
}

/// Advances past a sign if one is here, and returns whether it is `-`.
#[inline(always)]
fn read_sign(cursor: &mut Cursor) -> bool
    ensures { Consumed 2 1 (SignOf result) cursor.old cursor.new }
{
    match cursor.look() {
        Some(c) if is_sign(c) => {
            cursor.step();
            c == '-'
        }
        _ => false,
    }
}

/// The base whose prefix is here.
#[inline(always)]
fn base_here(cursor: &mut Cursor) -> Option<Radix>
    ensures { LooksBasePrefix result cursor.old cursor.new }
{
    if cursor.look() != Some('0') {
        return None;
    }
    match cursor.look_second() {
        Some(c) => base_of(c),
        None => None,
    }
}

/// Advances past the prefix of a base, if one is here.
#[inline(always)]
fn eat_base_prefix(cursor: &mut Cursor) -> Radix
    ensures { Consumed 2 2 (BaseOf result) cursor.old cursor.new }
{
    let Some(radix) = base_here(cursor) else {
        return Radix::Decimal;
    };
    cursor.step();
    cursor.step();
    radix
}

/// Advances past the digits of the base and the `_` here. Returns the number `before` with these
/// digits appended.
#[inline(never)]
fn digits<'a>(cursor: &mut Cursor<'a>, radix: Radix, before: u128) -> u128
    ensures { Consumed 2 1 (ReadsDigits (radix_of radix) before result) cursor.old cursor.new }
{
    let mut here = cursor.take_over();
    let mut number = before;
    'digits: while let Some(c) = here.look() {
        if c != '_' {
            let Some(digit) = digit_of(c, radix) else {
                *cursor = here;
                return number;
            };
            number = with_digit(number, radix.value(), digit);
        }
        here.step();
    }
    *cursor = here;
    number
}

/// Advances past a decimal integer, if one is here: a digit, then digits and `_`. Most have no `_`
/// and a small value.
#[inline(always)]
fn decimal_integer(cursor: &mut Cursor) -> Option<u128>
    ensures { Consumed 2 1 (ReadsInteger 10 result) cursor.old cursor.new }
{
    let (count, value, more) = cursor.skip_digits();
    if count == 0 {
        return None;
    }
    if more {
        return Some(digits(cursor, Radix::Decimal, u128::from(value)));
    }
    Some(u128::from(value))
}

/// Advances past an integer of the base, if one is here: a digit, then digits and `_`.
#[inline(always)]
fn integer(cursor: &mut Cursor, radix: Radix) -> Option<u128>
    ensures { Consumed 2 1 (ReadsInteger (radix_of radix) result) cursor.old cursor.new }
{
    if let Radix::Decimal = radix {
        return decimal_integer(cursor);
    }
    let Some(c) = cursor.look() else {
        return None;
    };
    let Some(first) = digit_of(c, radix) else {
        return None;
    };
    cursor.step();
    Some(digits(cursor, radix, u128::from(first)))
}

/// Whether no identifier character is here. The characters that most often follow digits are tested
/// first.
#[inline(always)]
fn is_end(cursor: &mut Cursor) -> bool
    ensures result { result ≡ not (starts class.is_identifier_char cursor.old.rest) }
    ensures stayed { Stayed 1 cursor.old cursor.new }
{
    match cursor.look() {
        Some(' ' | '\n') => true,
        Some('.') => false,
        Some(c) => !is_identifier_char(c),
        None => true,
    }
}

/// Returns whether a number begins here: a digit, or a sign and a digit.
pub fn begins_number(cursor: &mut Cursor) -> bool
    ensures result { result ≡ spec.begins_number cursor.old.rest }
    ensures stayed { Looked 2 cursor.old cursor.new }
{
    match cursor.look() {
        Some(c) if is_digit(c) => true,
        Some(c) if is_sign(c) => match cursor.look_second() {
            Some(d) => is_digit(d),
            None => false,
        },
        _ => false,
    }
}

/// The front of a number, up to the end of its first integer.
#[derive(Clone, Copy)]
struct Front {
    negative: bool,
    radix: Radix,
    /// The number without its sign, or `u128::MAX` if it needs more than 128 bits.
    magnitude: u128,
}

impl Front {
    /// Returns the whole number, if it fits in an `i128`.
    fn value(self) -> Option<i128>
        ensures { (n : ℕ) → Counts self.magnitude n → result ≡ (if spec.fits self.negative n
            then Some (spec.signed self.negative n) else None) }
    {
        let n = self.magnitude;
        match self.negative {
            false if n >= 1 << 127 => None,
            false => Some(n as i128),
            true if n > 1 << 127 => None,
            true if n == 1 << 127 => Some(i128::MIN),
            true => Some(-(n as i128)),
        }
    }
}

/// Advances past the sign, the prefix of a base and the integer with which a number begins.
#[inline(always)]
fn read_front(cursor: &mut Cursor) -> Result<Front, NumberFault>
    ensures { Consumed 2 4 (ReadsFront result) cursor.old cursor.new }
{
    let negative = read_sign(cursor);
    let radix = eat_base_prefix(cursor);
    match integer(cursor, radix) {
        Some(magnitude) => Ok(Front {
            negative,
            radix,
            magnitude,
        }),
        None => Err(NumberFault::MissingDigits(radix)),
    }
}

/// Advances past a point and an integer, if a point is here. Returns whether it is.
fn fraction(cursor: &mut Cursor) -> Result<bool, NumberFault>
    ensures { Consumed 2 2 (ReadsFraction result) cursor.old cursor.new }
{
    if !cursor.eat('.') {
        return Ok(false);
    }
    match decimal_integer(cursor) {
        Some(_) => Ok(true),
        None => Err(NumberFault::MissingFraction),
    }
}

/// Advances past `e` or `E` if it is here, and returns whether it is.
#[inline]
fn eat_exponent_letter(cursor: &mut Cursor) -> bool
    ensures { AteExponentLetter result cursor.old cursor.new }
{
    match cursor.look() {
        Some('e' | 'E') => {
            cursor.step();
            true
        }
        _ => false,
    }
}

/// Advances past an exponent, if its letter is here. Returns whether it is.
fn exponent(cursor: &mut Cursor) -> Result<bool, NumberFault>
    ensures { Consumed 2 3 (ReadsExponent result) cursor.old cursor.new }
{
    if !eat_exponent_letter(cursor) {
        return Ok(false);
    }
    let _ = read_sign(cursor);
    match decimal_integer(cursor) {
        Some(_) => Ok(true),
        None => Err(NumberFault::MissingExponent),
    }
}

/// Advances past what turns an integer into a decimal: a fraction, an exponent, or both.
fn decimal_part(cursor: &mut Cursor) -> Result<(), NumberFault>
    ensures { Consumed 2 6 (ReadsPart result) cursor.old cursor.new }
{
    let point = fraction(cursor)?;
    let power = match exponent(cursor) {
        Ok(power) => power,
        Err(fault) => return Err(fault),
    };
    if !point && !power {
        return Err(NumberFault::Trailing(Radix::Decimal));
    }
    if is_end(cursor) {
        Ok(())
    } else {
        Err(NumberFault::TrailingDecimal)
    }
}

/// Advances past a number. Returns the value of a whole number, and `None` for a decimal.
fn whole_or_decimal(cursor: &mut Cursor) -> Result<Option<i128>, NumberFault>
    ensures { Consumed 2 11 (ReadsWhole result) cursor.old cursor.new }
{
    let front = read_front(cursor)?;
    if is_end(cursor) {
        return match front.value() {
            Some(n) => Ok(Some(n)),
            None => Err(NumberFault::OutOfRange),
        };
    }
    let Radix::Decimal = front.radix else {
        return Err(NumberFault::Trailing(front.radix));
    };
    match decimal_part(cursor) {
        Ok(()) => Ok(None),
        Err(fault) => Err(fault),
    }
}

/// Whether no character is `_`.
fn has_no_underscore(text: &str) -> bool
    ensures { result ≡ list_all (λ c. not (c == 95)) (chars text.now) }
{
    !text.contains('_')
}

/// Appends the characters except each `_`.
fn push_plain(out: &mut String, text: &str) -> Result<(), AllocError>
    ensures { IfOk result (λ _. chars (string_bytes out.new)
        ≡ chars (string_bytes out.old) ++ spec.plain (chars text.now)) }
{
    let mut rest = text;
    'chars: while let Some((c, following)) = split_first(rest) {
        rest = following;
        if c == '_' {
            continue 'chars;
        }
        out.push(c)?;
    }
    Ok(())
}

/// A copy of the piece without its `_`. A piece that contains none is copied whole.
fn without_underscores(alloc: Global, piece: &Piece) -> Result<String, AllocError>
    ensures { IfOk result (λ s. chars (string_bytes s) ≡ spec.plain piece.now) }
{
    let text = piece.as_str();
    if has_no_underscore(text) {
        return piece.to_string(alloc);
    }
    let mut out = String::with_capacity(alloc, text.len())?;
    push_plain(&mut out, text)?;
    Ok(out)
}

/// Advances past a number and returns its value (KDL 2.0.0, Number).
///
/// Fails if no number begins here: a digit is missing, an identifier character follows, or a whole
/// number does not fit in an `i128`. The cursor is then where the fault was found. The text of a
/// decimal is allocated.
pub fn read_number(alloc: Global, cursor: &mut Cursor) -> Result<Number, NumberFailure>
    ensures reads { ReadsNumber result cursor.old.rest cursor.new.rest }
    ensures fault { IsNumberFault result cursor.old.rest cursor.new.rest }
    ensures moves { Moves cursor.old cursor.new }
    ensures costs { IfOk result (λ n. Costs 20 0 cursor.old cursor.new) }
    ensures most { Costs 4 12 cursor.old cursor.new }
{
    let start = cursor.checkpoint();
    match whole_or_decimal(cursor) {
        Ok(Some(n)) => Ok(Number::Integer(n)),
        Ok(None) => {
            let piece = cursor.slice(&start);
            match without_underscores(alloc, &piece) {
                Ok(text) => Ok(Number::Decimal(text)),
                Err(_) => Err(NumberFailure::Memory),
            }
        }
        Err(fault) => Err(NumberFailure::Fault(fault)),
    }
}

/// The keyword with this text after its `#`.
fn keyword_of(word: &Piece) -> Option<Keyword>
    ensures { WordOf result word.now }
{
    if word.is("true") {
        Some(Keyword::True)
    } else if word.is("false") {
        Some(Keyword::False)
    } else if word.is("null") {
        Some(Keyword::Null)
    } else if word.is("inf") {
        Some(Keyword::Infinity)
    } else if word.is("-inf") {
        Some(Keyword::NegativeInfinity)
    } else if word.is("nan") {
        Some(Keyword::NotANumber)
    } else {
        None
    }
}

/// Advances past a keyword and returns it (KDL 2.0.0, Boolean, Null, Keyword Numbers). Returns
/// `None` if no keyword begins here; if a `#` does, the cursor is then after it and the identifier
/// characters that follow.
pub fn read_keyword(cursor: &mut Cursor) -> Option<Keyword>
    ensures reads { ReadsKeyword result cursor.old.rest cursor.new.rest }
    ensures moves { Moves cursor.old cursor.new }
    ensures costs { IfSome result (λ k. Costs 20 0 cursor.old cursor.new) }
    ensures most { Costs 4 4 cursor.old cursor.new }
{
    if !cursor.eat('#') {
        return None;
    }
    let start = cursor.checkpoint();
    cursor.skip(Class::Identifier);
    let word = cursor.slice(&start);
    keyword_of(&word)
}

/// Whether the whole text is a decimal without `_`.
fn is_plain_decimal(text: &str) -> bool
    ensures { IsTrue result ↔ Decimal (chars text.now) [] (chars text.now) }
{
    let mut cursor = Cursor::new(text, Steps::new());
    match whole_or_decimal(&mut cursor) {
        Ok(None) => cursor.look().is_none() && has_no_underscore(text),
        Ok(Some(_)) => false,
        Err(_) => false,
    }
}

/// Whether the text is a keyword that is a number.
fn is_float_keyword(text: &str) -> bool
    ensures { IsTrue result ↔ FloatKeyword (chars text.now) }
{
    if same(text, "#inf") {
        return true;
    }
    if same(text, "#-inf") {
        return true;
    }
    same(text, "#nan")
}

/// Returns whether the whole text is a decimal without `_`, or one of `#inf`, `#-inf` and `#nan`.
pub fn is_float_text(text: &str) -> bool
    ensures { IsTrue result ↔ FloatText (chars text.now) }
{
    is_float_keyword(text) || is_plain_decimal(text)
}
