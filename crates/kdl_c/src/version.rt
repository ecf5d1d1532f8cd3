//! The number of the interface.

ghost use Rattle.std.specs.Prelude.{◌≡◌};

/// The number of this interface. A later library with the same calls and structs, or more of them, has the same number
/// or a larger one.
const VERSION: u32 = 2;

/// Returns the number of the interface.
#[unsafe(no_mangle)]
pub extern "C" fn kdl_version() -> u32
    ensures { result ≡ 2 }
{
    VERSION
}
