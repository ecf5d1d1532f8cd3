//! Floats.

ghost use Rattle.kdl_text.specs.Numbers.{FloatText};
ghost use Rattle.kdl_value.specs.Tree.{float_text_of};
ghost use Rattle.kdl_value.specs.declared.float.FloatFailure.TheVariants as FloatFailure;
ghost use Rattle.std.specs.Prelude.{◌≡◌, ◌↔◌, IfOk, IsErrOf};
ghost use Rattle.std.specs.Str.{chars};

use kdl::{FloatFailure, KdlFloat};
use std::alloc::Global;

/// `KdlFloat::new`.
pub fn float(alloc: Global, text: &str) -> Result<KdlFloat, FloatFailure>
    ensures kept { IfOk result (λ f. float_text_of f ≡ chars text.now) }
    ensures float { IfOk result (λ f. FloatText (chars text.now)) }
    ensures refused { IsErrOf result FloatFailure.NotAFloat ↔ (¬ FloatText (chars text.now)) }
{
    KdlFloat::new(alloc, text)
}
