//! The order of numbers, digit by digit.

use crate::data::Number;
use std::cmp::Ordering;

/// The digit of the number at 10 to this power, with the sign of the number.
fn digit(number: Number, power: i32) -> i32 {
    let digits = number.digits.as_bytes();
    let Ok(place) = usize::try_from(power.saturating_sub(number.power)) else {
        return 0;
    };
    let Some(at) = digits.len().checked_sub(place.saturating_add(1)) else {
        return 0;
    };
    let Some(digit) = digits.get(at) else {
        return 0;
    };
    let digit = i32::from(digit.wrapping_sub(b'0'));
    if number.is_negative { -digit } else { digit }
}

/// A power of ten that is above all digits of the number.
fn above(number: Number) -> i32 {
    let count = i32::try_from(number.digits.len()).unwrap_or(i32::MAX);
    number.power.saturating_add(count)
}

/// The order of two numbers: that of the first digits that differ.
pub fn order(a: Number, b: Number) -> Ordering {
    for power in (a.power.min(b.power)..above(a).max(above(b))).rev() {
        let order = digit(a, power).cmp(&digit(b, power));
        if order.is_ne() {
            return order;
        }
    }
    Ordering::Equal
}
