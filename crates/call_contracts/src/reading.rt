//! Reading of a text, on one count of steps.

ghost use Rattle.kdl_text.specs.Internal.Here.{IsPart, first};
ghost use Rattle.kdl_text.specs.Spans.{raise};
ghost use Rattle.std.specs.Prelude.{◌≡◌};

use kdl_text::cursor::{Checkpoint, Cursor};

/// `Cursor::go_to`: the character at a place of the cursor's text, and the step that it costs.
pub fn char_at<'a>(cursor: &mut Cursor<'a>, place: &Checkpoint<'a>) -> Option<char>
    requires { IsPart cursor.old.text place.now.rest }
    ensures found { result ≡ first place.now.rest }
    ensures counted { cursor.new.steps ≡ raise cursor.old.steps 1 }
{
    cursor.go_to(place);
    cursor.look()
}
