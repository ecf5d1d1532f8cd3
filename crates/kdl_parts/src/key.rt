//! What an entry of a node is looked up by.

ghost use Rattle.kdl_parts.specs.EntryLists.{key_name, sought, property, argument};
ghost use Rattle.kdl_value.specs.Tree.{text_of};
ghost use Rattle.kdl_entry.specs.Tree.{plain_identifier};
ghost use Rattle.std.specs.Prelude.{◌≡◌, IfOk, Some, string_bytes};
ghost use Rattle.std.specs.Str.{chars};

use kdl_entry::KdlIdentifier;
use std::alloc::{AllocError, Global};

/// What an entry of a node is looked up by: the name of a property, or the place of an argument.
#[derive(Clone, PartialEq, Eq, Debug, Drop)]
pub enum NodeKey {
    /// The name of a property. Names are compared by their values, not by their spellings.
    Key(KdlIdentifier),
    /// The place of an argument among the arguments, counted from 0.
    Index(usize),
}

impl NodeKey {
    /// Creates the key of the properties of that name, with a copy of the text. Returns an error if an allocation
    /// fails; an empty text needs none.
    ///
    /// ```
    /// let key = NodeKey::from_text(alloc, "two words")?; // finds `"two words"=1` and `#"two words"#=1`
    /// ```
    pub fn from_text(alloc: Global, name: &str) -> Result<NodeKey, AllocError>
        ensures sought { IfOk result (λ k.
            sought k ≡ property (plain_identifier (chars name.now))) }
        ensures name { IfOk result (λ k. key_name k ≡ Some name.now) }
    {
        Ok(NodeKey::Key(KdlIdentifier::from_text(alloc, name)?))
    }
}

/// Creates the key of the properties of that name, without allocating.
///
/// ```
/// let key = NodeKey::from(String::from_str(alloc, "port")?); // the last property of that name
/// ```
impl From<String> for NodeKey {
    ghost from_gives = { λ s k. (sought k ≡ property (plain_identifier (text_of s)))
        × (key_name k ≡ Some (string_bytes s)) };

    fn from(name: String) -> NodeKey {
        NodeKey::Key(KdlIdentifier::from(name))
    }
}

/// Creates the key of the argument at that place among the arguments, counted from 0.
///
/// ```
/// let key = NodeKey::from(1); // the argument 3 of the entries `1 a=2 3`: properties are not counted
/// ```
impl From<usize> for NodeKey {
    ghost from_gives = { λ n k. sought k ≡ argument n };

    fn from(place: usize) -> NodeKey {
        NodeKey::Index(place)
    }
}
