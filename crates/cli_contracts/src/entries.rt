//! Entries that are read from a VALUE.

ghost use Rattle.c_calls.specs.Internal.Values.{is_value};
ghost use Rattle.kdl.specs.Words.{entry_tree};
ghost use Rattle.std.specs.Prelude.{◌≡◌};

use kdl::KdlEntry;

/// `c_calls::value::is_value`.
pub fn is_value(entry: &KdlEntry) -> bool
    ensures { result ≡ is_value (entry_tree entry.now) }
{
    c_calls::value::is_value(entry)
}
