//! Entries that are only a value.

ghost use Rattle.kdl.specs.Words.{entry_tree};
ghost use Rattle.c_calls.specs.Internal.Values.{is_nil, is_value};
ghost use Rattle.std.specs.Prelude.{◌≡◌};
ghost use Rattle.std.specs.Str.{chars};

use kdl::KdlEntry;

/// Returns whether the text is empty.
fn is_nil(text: &str) -> bool
    ensures { result ≡ is_nil (chars text.now) }
{
    text.is_empty()
}

/// Returns whether the entry is only a value: it has neither a key nor a type, and no space, comment or slashdashed
/// entry is around it.
pub fn is_value(entry: &KdlEntry) -> bool
    ensures { result ≡ is_value (entry_tree entry.now) }
{
    if entry.name().is_some() || entry.ty().is_some() {
        return false;
    }
    match entry.format() {
        Some(format) => is_nil(&format.leading) && is_nil(&format.trailing),
        None => true,
    }
}
