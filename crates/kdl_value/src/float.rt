//! Floats, kept as their texts.

ghost use Rattle.kdl_text.specs.Numbers.{FloatText};
ghost use Rattle.std.specs.Prelude.{◌≡◌, ◌↔◌, IfOk, IsErrOf, Some, string_bytes};
ghost use Rattle.std.specs.Str.{chars, encode_utf8_all};

mod parsed;

use crate::print::write_text;
use kdl_text::numbers::is_float_text;
pub use parsed::parsed_float;
use std::alloc::{AllocError, Global};
use std::fmt;
use thiserror::Error;

/// Why `KdlFloat::new` failed.
#[derive(Clone, Copy, Debug, PartialEq, Eq, Error)]
pub enum FloatFailure {
    /// The text is neither a decimal without `_` nor one of `#inf`, `#-inf` and `#nan`.
    #[error("not a KDL float")]
    NotAFloat,
    /// An allocation failed.
    #[error("out of memory")]
    Memory,
}

/// A decimal, an infinity or the value that is not a number, kept as its text (KDL 2.0.0, Number, Keyword Numbers).
///
/// Floats are equal if their texts are equal, and are ordered by the bytes of their texts.
#[derive(PartialEq, Eq, PartialOrd, Ord, Hash, Debug, Drop)]
pub struct KdlFloat {
    text: String,
    ghost is_float: { ∥ FloatText (chars (string_bytes text)) ∥₁ },
}

impl KdlFloat {
    ghost use Rattle.kdl_value.specs.Tree.{float_text_of};

    /// Creates a float with a copy of the text, which is a decimal without `_`, or one of `#inf`, `#-inf` and `#nan`.
    /// Returns `NotAFloat` for any other text, and `Memory` if an allocation fails.
    ///
    /// ```
    /// let half = KdlFloat::new(alloc, "0.50")?; // keeps its text: it is not equal to "0.5"
    /// let grouped = KdlFloat::new(alloc, "1_000.5"); // `NotAFloat`, for its `_`
    /// let whole = KdlFloat::new(alloc, "2"); // `NotAFloat`: a whole number has no fraction and no exponent
    /// ```
    pub fn new(alloc: Global, text: &str) -> Result<KdlFloat, FloatFailure>
        ensures kept { IfOk result (λ f. float_text_of f ≡ chars text.now) }
        ensures float { IfOk result (λ f. FloatText (chars text.now)) }
        ensures refused { IsErrOf result FloatFailure.NotAFloat ↔ (¬ FloatText (chars text.now)) }
    {
        if !is_float_text(text) {
            return Err(FloatFailure::NotAFloat);
        }
        match String::from_str(alloc, text) {
            Ok(text) => Ok(KdlFloat { text }),
            Err(_) => Err(FloatFailure::Memory),
        }
    }

    /// Returns the text.
    ///
    /// ```
    /// let float = KdlFloat::new(alloc, "1.5E3")?;
    /// let text = float.as_str(); // "1.5E3"
    /// ```
    pub fn as_str(&self) -> &str
        ensures { chars result.now ≡ float_text_of self.now }
    {
        self.text.as_str()
    }
}

/// Returns a copy with the same text, or an error if an allocation fails.
///
/// ```
/// let float = KdlFloat::new(alloc, "1.5")?;
/// let same = float.clone()? == float; // true
/// ```
impl Clone for KdlFloat {
    ghost use Rattle.kdl_value.specs.Tree.{float_text_of};
    ghost use Rattle.std.specs.Prelude.{◌≡◌};

    ghost is_clone = { λ f g. float_text_of g ≡ float_text_of f };

    fn clone(&self) -> Result<KdlFloat, AllocError> {
        Ok(KdlFloat {
            text: self.text.clone()?,
        })
    }
}

/// The text.
///
/// ```
/// let text = KdlFloat::new(alloc, "#-inf")?.to_string(alloc)?; // "#-inf"
/// ```
impl fmt::Display for KdlFloat {
    ghost use Rattle.kdl_value.specs.Tree.{float_text_of};

    ghost output = { λ f. Some (encode_utf8_all (float_text_of f)) };

    fn fmt<W: fmt::Write>(&self, f: &mut fmt::Formatter<W>) -> fmt::Result {
        write_text(self.text.as_str(), f)
    }
}
