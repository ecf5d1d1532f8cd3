//! The lines of comments, and of slashdashed pieces.

ghost use Rattle.kdl_layout.specs.Internal.Reading.{item_view};
ghost use Rattle.kdl_layout.specs.Written.{lines};
ghost use Rattle.kdl_value.specs.Tree.{text_of};
ghost use Rattle.std.specs.Prelude.{◌≡◌, ◌∷◌, ◌++◌, [], OnOk};
ghost use Rattle.std.specs.Str.{chars};

use kdl_layout::{Item, push_lines};
use std::alloc::AllocError;

/// `push_lines` of one item, which layout keeps on its own line.
pub fn push_line(out: &mut String, before: &str, item: Item) -> Result<(), AllocError>
    ensures { OnOk result (text_of out.new ≡ text_of out.old
        ++ lines (chars before.now) (item_view item.entry ∷ [])) }
{
    push_lines(out, before, &[item])
}
