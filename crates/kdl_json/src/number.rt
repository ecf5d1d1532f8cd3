//! Numbers: the value that the text of a number of JSON has in KDL.

ghost use Rattle.kdl.specs.Words.{IsWellFormed, Value, value_tree};
ghost use Rattle.kdl_json.specs.Values.{IsFloatOf, IsNumberOf};
ghost use Rattle.std.specs.Fmt.{signed_decimal};
ghost use Rattle.std.specs.Int.{w128};
ghost use Rattle.std.specs.Prelude.{◌≡◌, FitsSigned, IfOk, IfSome, Some, ℤ};
ghost use Rattle.std.specs.Option.{IsSomeAnd};

use json::is_number;
use kdl::{FloatFailure, KdlFloat, KdlValue};
use std::alloc::{AllocError, Global};

/// The whole number that is written as this text, or `None` if there is none.
fn whole(text: &str) -> Option<i128>
    ensures written { IfSome result (λ z. text.now ≡ signed_decimal z) }
    ensures found { (z : ℤ) → FitsSigned w128 z → text.now ≡ signed_decimal z → result ≡ Some z }
{
    let Ok(n) = text.parse::<i128>() else {
        return None;
    };
    let mut buffer = itoa::Buffer::new();
    if buffer.format(n) == text {
        Some(n)
    } else {
        None
    }
}

/// The value that is written as this number of JSON, or `None` if KDL has none.
pub fn number(alloc: Global, text: &str) -> Result<Option<KdlValue>, AllocError>
    ensures written { IfOk result (λ o. IfSome o (λ v. IsNumberOf text.now (value_tree v))) }
    ensures found { (x : Value) → IsWellFormed x → IsNumberOf text.now x
        → IfOk result (λ o. IsSomeAnd o (λ v. value_tree v ≡ x)) }
{
    if !is_number(text) {
        return Ok(None);
    }
    match KdlFloat::new(alloc, text) {
        Ok(float) => Ok(Some(KdlValue::Float(float))),
        Err(FloatFailure::NotAFloat) => match whole(text) {
            Some(n) => Ok(Some(KdlValue::Integer(n))),
            None => Ok(None),
        },
        Err(FloatFailure::Memory) => Err(AllocError),
    }
}

/// The float that is written as this string in an object, or `None` if there is none.
pub fn other_float(alloc: Global, text: &str) -> Result<Option<KdlValue>, AllocError>
    ensures written { IfOk result (λ o. IfSome o (λ v. IsFloatOf text.now (value_tree v))) }
    ensures found { (x : Value) → IsWellFormed x → IsFloatOf text.now x
        → IfOk result (λ o. IsSomeAnd o (λ v. value_tree v ≡ x)) }
{
    if is_number(text) {
        return Ok(None);
    }
    match KdlFloat::new(alloc, text) {
        Ok(float) => Ok(Some(KdlValue::Float(float))),
        Err(FloatFailure::NotAFloat) => Ok(None),
        Err(FloatFailure::Memory) => Err(AllocError),
    }
}
