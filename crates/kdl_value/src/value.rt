//! Values: strings, numbers, booleans and null.

ghost use Rattle.kdl_value.specs.Print.{print_value};
ghost use Rattle.kdl_value.specs.Tree.{value_tree, float_text_of, text_value, integer_value, float_value, truth_value, is_null};
ghost use Rattle.kdl_value.specs.Data as data';
ghost use Rattle.std.specs.Prelude.{◌≡◌, IfOk, Some, option_map};
ghost use Rattle.std.specs.Option.{is_some};
ghost use Rattle.std.specs.Str.{chars, encode_utf8_all};

use crate::float::KdlFloat;
use crate::print::{write_integer, write_text, write_word};
use crate::spelled::write_spelled;
use std::alloc::{AllocError, Global};
use std::fmt;

/// The value of an argument or a property (KDL 2.0.0, Value).
///
/// Values are ordered by their variants, in the order of declaration, and then by their contents: texts by their bytes.
#[derive(PartialEq, Eq, PartialOrd, Ord, Hash, Debug, Drop)]
pub enum KdlValue {
    /// A string.
    String(String),
    /// A whole number.
    Integer(i128),
    /// A decimal, an infinity or the value that is not a number.
    Float(KdlFloat),
    /// A boolean.
    Bool(bool),
    /// Null: no value.
    Null,
}

impl KdlValue {
    /// Creates a string with a copy of the text. Returns an error if an allocation fails; an empty text needs none.
    ///
    /// ```
    /// let plain = KdlValue::from_text(alloc, "eu-west")?; // prints `eu-west`, without quotes
    /// let quoted = KdlValue::from_text(alloc, "two words")?; // prints `"two words"`
    /// ```
    pub fn from_text(alloc: Global, text: &str) -> Result<KdlValue, AllocError>
        ensures { IfOk result (λ v. value_tree v ≡ data'.text (chars text.now)) }
    {
        Ok(KdlValue::String(String::from_str(alloc, text)?))
    }

    /// Returns whether the value is a string.
    ///
    /// ```
    /// let is_string = KdlValue::from_text(alloc, "#true")?.is_string(); // true: a string, whatever its text
    /// ```
    pub fn is_string(&self) -> bool
        ensures { result ≡ is_some (text_value (value_tree self.now)) }
    {
        matches!(self, KdlValue::String(..))
    }

    /// Returns whether the value is a whole number.
    ///
    /// ```
    /// let whole = KdlValue::from(2).is_integer(); // true
    /// let float = KdlValue::from(KdlFloat::new(alloc, "2.0")?).is_integer(); // false: it has a fraction
    /// ```
    pub fn is_integer(&self) -> bool
        ensures { result ≡ is_some (integer_value (value_tree self.now)) }
    {
        matches!(self, KdlValue::Integer(..))
    }

    /// Returns whether the value is a float.
    ///
    /// ```
    /// let is_float = KdlValue::from(KdlFloat::new(alloc, "#inf")?).is_float(); // true
    /// ```
    pub fn is_float(&self) -> bool
        ensures { result ≡ is_some (float_value (value_tree self.now)) }
    {
        matches!(self, KdlValue::Float(..))
    }

    /// Returns whether the value is a boolean.
    ///
    /// ```
    /// let is_bool = KdlValue::from(false).is_bool(); // true
    /// ```
    pub fn is_bool(&self) -> bool
        ensures { result ≡ is_some (truth_value (value_tree self.now)) }
    {
        matches!(self, KdlValue::Bool(..))
    }

    /// Returns whether the value is null.
    ///
    /// ```
    /// let is_null = KdlValue::Null.is_null(); // true
    /// ```
    pub fn is_null(&self) -> bool
        ensures { result ≡ is_null (value_tree self.now) }
    {
        matches!(self, KdlValue::Null)
    }

    /// Returns the text, if the value is a string.
    ///
    /// ```
    /// let value = KdlValue::from_text(alloc, "two words")?;
    /// let text = value.as_string(); // the text without quotes
    /// let none = KdlValue::from(2).as_string().is_none(); // true: a number is not a string
    /// ```
    pub fn as_string(&self) -> Option<&str>
        ensures { option_map (λ s. chars s.now) result ≡ text_value (value_tree self.now) }
    {
        match self {
            KdlValue::String(s) => Some(s.as_str()),
            _ => None,
        }
    }

    /// Returns the number, if the value is a whole number.
    ///
    /// ```
    /// let number = KdlValue::from(0x10).as_integer(); // 16
    /// let none = KdlValue::from(KdlFloat::new(alloc, "1e3")?).as_integer(); // `None`: what has an exponent is a float
    /// ```
    pub fn as_integer(&self) -> Option<i128>
        ensures { result ≡ integer_value (value_tree self.now) }
    {
        match self {
            KdlValue::Integer(x) => Some(*x),
            _ => None,
        }
    }

    /// Returns the float, if the value is a float.
    ///
    /// ```
    /// let value = KdlValue::from(KdlFloat::new(alloc, "1.50")?);
    /// if let Some(float) = value.as_float() {
    ///     let text = float.as_str(); // "1.50"
    /// }
    /// ```
    pub fn as_float(&self) -> Option<&KdlFloat>
        ensures { option_map (λ f. float_text_of f.now) result ≡ float_value (value_tree self.now) }
    {
        match self {
            KdlValue::Float(f) => Some(f),
            _ => None,
        }
    }

    /// Returns the boolean, if the value is a boolean.
    ///
    /// ```
    /// let truth = KdlValue::from(true).as_bool(); // true
    /// let none = KdlValue::from_text(alloc, "true")?.as_bool(); // `None`: a boolean is written `#true`
    /// ```
    pub fn as_bool(&self) -> Option<bool>
        ensures { result ≡ truth_value (value_tree self.now) }
    {
        match self {
            KdlValue::Bool(b) => Some(*b),
            _ => None,
        }
    }
}

/// A whole number.
///
/// ```
/// let value = KdlValue::from(0x10); // prints "16"
/// ```
impl From<i128> for KdlValue {
    ghost use Rattle.kdl_value.specs.Tree.{value_tree};
    ghost use Rattle.kdl_value.specs.Data as data';
    ghost use Rattle.std.specs.Prelude.{◌≡◌};

    ghost from_gives = { λ z v. value_tree v ≡ data'.integer z };

    fn from(value: i128) -> KdlValue {
        KdlValue::Integer(value)
    }
}

/// A boolean.
///
/// ```
/// let value = KdlValue::from(true); // prints "#true"
/// ```
impl From<bool> for KdlValue {
    ghost use Rattle.kdl_value.specs.Tree.{value_tree};
    ghost use Rattle.kdl_value.specs.Data as data';
    ghost use Rattle.std.specs.Prelude.{◌≡◌};

    ghost from_gives = { λ b v. value_tree v ≡ data'.truth b };

    fn from(value: bool) -> KdlValue {
        KdlValue::Bool(value)
    }
}

/// Converts a string to a value, without allocating.
///
/// ```
/// let value = KdlValue::from(String::from_str(alloc, "a b")?); // prints "\"a b\""
/// ```
impl From<String> for KdlValue {
    ghost use Rattle.kdl_value.specs.Tree.{value_tree, text_of};
    ghost use Rattle.kdl_value.specs.Data as data';
    ghost use Rattle.std.specs.Prelude.{◌≡◌};

    ghost from_gives = { λ s v. value_tree v ≡ data'.text (text_of s) };

    fn from(value: String) -> KdlValue {
        KdlValue::String(value)
    }
}

/// A float.
///
/// ```
/// let value = KdlValue::from(KdlFloat::new(alloc, "1.50")?); // prints "1.50"
/// ```
impl From<KdlFloat> for KdlValue {
    ghost use Rattle.kdl_value.specs.Tree.{value_tree, float_text_of};
    ghost use Rattle.kdl_value.specs.Data as data';
    ghost use Rattle.std.specs.Prelude.{◌≡◌};

    ghost from_gives = { λ f v. value_tree v ≡ data'.float (float_text_of f) };

    fn from(value: KdlFloat) -> KdlValue {
        KdlValue::Float(value)
    }
}

/// Converts an option to a value: `None` becomes `Null`.
///
/// ```
/// let none: Option<KdlValue> = None;
/// let value = KdlValue::from(none); // prints "#null"
/// ```
impl From<Option<KdlValue>> for KdlValue {
    ghost use Rattle.kdl_value.specs.Tree.{value_tree, or_null};
    ghost use Rattle.std.specs.Prelude.{◌≡◌, option_map};

    ghost from_gives = { λ o v. value_tree v ≡ or_null (option_map value_tree o) };

    fn from(value: Option<KdlValue>) -> KdlValue {
        match value {
            Some(value) => value,
            None => KdlValue::Null,
        }
    }
}

/// Returns an equal copy, or an error if an allocation fails.
///
/// ```
/// let value = KdlValue::from_text(alloc, "a")?;
/// let same = value.clone()? == value; // true
/// ```
impl Clone for KdlValue {
    ghost use Rattle.kdl_value.specs.Tree.{value_tree};
    ghost use Rattle.std.specs.Prelude.{◌≡◌};

    ghost is_clone = { λ v w. value_tree w ≡ value_tree v };

    fn clone(&self) -> Result<KdlValue, AllocError> {
        match self {
            KdlValue::String(s) => Ok(KdlValue::String(s.clone()?)),
            KdlValue::Integer(x) => Ok(KdlValue::Integer(*x)),
            KdlValue::Float(f) => Ok(KdlValue::Float(f.clone()?)),
            KdlValue::Bool(b) => Ok(KdlValue::Bool(*b)),
            KdlValue::Null => Ok(KdlValue::Null),
        }
    }
}

/// A string, bare where that reads back and else between quotes, a whole number in base 10, a float as it is, else a
/// keyword.
///
/// ```
/// let text = KdlValue::from_text(alloc, "#true")?.to_string(alloc)?; // "\"#true\"": quoted, since it is a string
/// ```
impl fmt::Display for KdlValue {
    ghost output = { λ v. Some (encode_utf8_all (print_value (value_tree v))) };

    fn fmt<W: fmt::Write>(&self, f: &mut fmt::Formatter<W>) -> fmt::Result {
        match self {
            KdlValue::String(s) => write_spelled(s.as_str(), f),
            KdlValue::Integer(x) => write_integer(*x, f),
            KdlValue::Float(x) => write_text(x.as_str(), f),
            KdlValue::Bool(true) => write_word("#true", f),
            KdlValue::Bool(false) => write_word("#false", f),
            KdlValue::Null => write_word("#null", f),
        }
    }
}
