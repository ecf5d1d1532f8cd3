//! Identifiers: the names of nodes and properties, and types.
#![tactic(auto, using(crate::proofs::Rules::printed))]

ghost use Rattle.kdl_entry.specs.Fields.{string_of};
ghost use Rattle.kdl_entry.specs.Print.{print_identifier};
ghost use Rattle.kdl_value.specs.Tree.{text_of};
ghost use Rattle.kdl_entry.specs.Tree.{identifier_tree, plain_identifier, spelling_of, unspelled};
ghost use Rattle.kdl_text.specs.Spans.{bytes};
ghost use Rattle.std.proofs.Common.{rules};
ghost use Rattle.std.specs.Cmp.Rules.{comparing, hashing};
ghost use Rattle.std.specs.Prelude.{◌≡◌, ◌↔◌, IsTrue, IfOk, [], Some, option_map};
ghost use Rattle.std.specs.Str.{chars, encode_utf8_all};
ghost use Rattle.std.specs.String.{string_vec};
ghost use Rattle.std.specs.Vec.{vec_allocator};

use kdl_text::cursor::Piece;
use kdl_text::span::SourceSpan;
use kdl_value::{write_spelled, write_text};
use std::alloc::{AllocError, Global};
use std::hash::{Hash, Hasher};
use std::{fmt, mem};

/// The spelling of a string.
#[derive(Drop)]
enum Spelling {
    /// No spelling is kept.
    NotKept,
    /// The string itself, as for a bare string that was read: its text is in memory once.
    AsValue,
    /// Its own text.
    Own(String),
}

/// A name or a type: a string, with its spelling if it keeps one.
///
/// Equality and hash ignore the span, but not the spelling.
#[derive(Drop)]
pub struct KdlIdentifier {
    value: String,
    repr: Spelling,
    span: SourceSpan,
}

impl KdlIdentifier {
    /// The text of the spelling, if the identifier keeps one.
    fn spelling(&self) -> Option<&String>
        ensures { option_map (λ r. r.now) result ≡ spelling_of self.now }
    {
        match &self.repr {
            Spelling::NotKept => None,
            Spelling::AsValue => Some(&self.value),
            Spelling::Own(repr) => Some(repr),
        }
    }

    /// Returns the string.
    ///
    /// ```
    /// let name = KdlIdentifier::parse(alloc, "\"a\\tb\"")?;
    /// let text = name.value(); // an `a`, a tab and a `b`
    /// ```
    pub fn value(&self) -> &str
        ensures { chars result.now ≡ (identifier_tree self.now).value }
    {
        self.value.as_str()
    }

    /// Sets the string. The spelling is not changed: a parsed identifier prints the new string only after
    /// `clear_format`.
    ///
    /// ```
    /// let mut name = KdlIdentifier::parse(alloc, "old")?;
    /// name.set_value(String::from_str(alloc, "new")?); // still prints "old", by its spelling
    /// name.clear_format(); // prints "new"
    /// ```
    pub fn set_value(&mut self, value: String)
        ensures { identifier_tree self.new
            ≡ record (identifier_tree self.old) { value = text_of value } }
    {
        let old = mem::replace(&mut self.value, value);
        if let Spelling::AsValue = self.repr {
            self.repr = Spelling::Own(old);
        }
    }

    /// Returns the span of the identifier in the text that it was parsed from, in bytes.
    ///
    /// ```
    /// let span = KdlIdentifier::parse(alloc, "été")?.span(); // offset 0 and length 5: an `é` has two bytes
    /// ```
    pub fn span(&self) -> SourceSpan
        ensures { result ≡ (identifier_tree self.now).span }
    {
        self.span
    }

    /// Sets the span.
    ///
    /// ```
    /// let mut name = KdlIdentifier::from_text(alloc, "a")?;
    /// name.set_span(SourceSpan { offset: 7, len: 1 }); // prints and compares as before
    /// ```
    pub fn set_span(&mut self, span: SourceSpan)
        ensures { identifier_tree self.new ≡ record (identifier_tree self.old) { span = span } }
    {
        self.span = span;
    }

    /// Returns the spelling, if the identifier keeps one.
    ///
    /// ```
    /// let name = KdlIdentifier::parse(alloc, "\"a\"")?;
    /// let spelling = name.repr(); // the three characters "\"a\""
    /// let none = KdlIdentifier::from_text(alloc, "a")?.repr().is_none(); // true: it was not read
    /// ```
    pub fn repr(&self) -> Option<&str>
        ensures { option_map (λ r. chars r.now) result ≡ (identifier_tree self.now).repr }
    {
        match &self.repr {
            Spelling::NotKept => None,
            Spelling::AsValue => Some(self.value.as_str()),
            Spelling::Own(repr) => Some(repr.as_str()),
        }
    }

    /// Sets the spelling, which is printed in place of the string.
    ///
    /// ```
    /// let mut name = KdlIdentifier::from_text(alloc, "a")?;
    /// name.set_repr(String::from_str(alloc, "#\"a\"#")?); // prints "#\"a\"#"; whether this spells `a` is not checked
    /// ```
    pub fn set_repr(&mut self, repr: String)
        ensures { identifier_tree self.new
            ≡ record (identifier_tree self.old) { repr = Some (text_of repr) } }
    {
        self.repr = Spelling::Own(repr);
    }

    /// Drops the spelling.
    ///
    /// ```
    /// let mut name = KdlIdentifier::parse(alloc, "\"a\"")?;
    /// name.clear_format(); // prints "a"
    /// ```
    pub fn clear_format(&mut self)
        ensures { identifier_tree self.new ≡ unspelled (identifier_tree self.old) }
    {
        self.repr = Spelling::NotKept;
    }

    /// Drops the spelling.
    ///
    /// ```
    /// let mut name = KdlIdentifier::parse(alloc, "\"two\\u{20}words\"")?;
    /// name.autoformat(); // prints "\"two words\""
    /// ```
    pub fn autoformat(&mut self)
        ensures { identifier_tree self.new ≡ unspelled (identifier_tree self.old) }
    {
        self.clear_format();
    }

    /// Returns the length of the printed text, in bytes. This prints the identifier, so it returns an error if an
    /// allocation fails.
    ///
    /// ```
    /// let bytes = KdlIdentifier::parse(alloc, "\"é\"")?.len(alloc)?; // 4: the quotes are printed too
    /// ```
    pub fn len(&self, alloc: Global) -> Result<usize, AllocError>
        ensures { IfOk result (λ n. n ≡ bytes (print_identifier (identifier_tree self.now))) }
    {
        Ok(self.to_string(alloc)?.len())
    }

    /// Returns whether the printed text is empty. This prints the identifier, so it returns an error if an allocation
    /// fails.
    ///
    /// ```
    /// let nothing = KdlIdentifier::from_text(alloc, "")?.is_empty(alloc)?; // false: it prints "\"\""
    /// ```
    pub fn is_empty(&self, alloc: Global) -> Result<bool, AllocError>
        ensures { IfOk result (λ b. IsTrue b ↔ (print_identifier (identifier_tree self.now) ≡ [])) }
    {
        Ok(self.to_string(alloc)?.is_empty())
    }

    /// Creates an identifier with a copy of the text as its string, without a spelling. Its span has offset and length
    /// 0. Returns an error if an allocation fails; an empty text needs none.
    ///
    /// ```
    /// let name = KdlIdentifier::from_text(alloc, "two words")?; // prints "\"two words\""
    /// ```
    pub fn from_text(alloc: Global, text: &str) -> Result<KdlIdentifier, AllocError>
        ensures { IfOk result (λ i. identifier_tree i ≡ plain_identifier (chars text.now)) }
    {
        Ok(KdlIdentifier::from(String::from_str(alloc, text)?))
    }
}

/// Creates an identifier as it was read: its string, the piece of the text that spells it, and its span. If the piece
/// is the string, as for a bare string, the text is in memory once, and nothing is allocated. Else returns an error if
/// an allocation fails.
///
/// ```
/// let mut cursor = Cursor::new("ab=1", Steps::new());
/// let token = lexer::next(&mut cursor, alloc)?; // the string `ab`
/// let piece = cursor.slice(&cursor.start());
/// let span = SourceSpan { offset: 0, len: 2 };
/// let name = sliced_identifier(alloc, String::from_str(alloc, "ab")?, &piece, span)?; // prints "ab"
/// ```
#[inline(always)]
pub fn sliced_identifier(
    alloc: Global,
    value: String,
    piece: &Piece,
    span: SourceSpan,
) -> Result<KdlIdentifier, AllocError>
    ensures { IfOk result (λ i. identifier_tree i
        ≡ record { value = text_of value; repr = Some piece.now; span = span }) }
{
    let repr = if piece.is(value.as_str()) {
        Spelling::AsValue
    } else {
        Spelling::Own(piece.to_string(alloc)?)
    };
    Ok(KdlIdentifier { value, repr, span })
}

/// Creates the identifier that a bare string is, as it was read: the piece of the text is its string and its spelling,
/// and is in memory once. Returns an error if an allocation fails.
///
/// ```
/// let mut cursor = Cursor::new("ab=1", Steps::new());
/// let token = lexer::next(&mut cursor, alloc)?; // the string `ab`
/// let piece = cursor.slice(&cursor.start());
/// let name = bare_identifier(alloc, &piece, SourceSpan { offset: 0, len: 2 })?; // prints "ab"
/// ```
#[inline(always)]
pub fn bare_identifier(
    alloc: Global,
    piece: &Piece,
    span: SourceSpan,
) -> Result<KdlIdentifier, AllocError>
    ensures { IfOk result (λ i. identifier_tree i
        ≡ record { value = piece.now; repr = Some piece.now; span = span }) }
{
    let value = piece.to_string(alloc)?;
    Ok(KdlIdentifier {
        value,
        repr: Spelling::AsValue,
        span,
    })
}

/// Returns the allocator of the identifier's string.
///
/// ```
/// let name = KdlIdentifier::from_text(alloc, "a")?;
/// let more = String::new(*identifier_allocator(&name)); // uses the allocator of the name
/// ```
pub fn identifier_allocator(identifier: &KdlIdentifier) -> &Global
    ensures { result.now ≡ vec_allocator (string_vec (string_of identifier.now)) }
{
    identifier.value.allocator()
}

/// Creates an identifier with the text as its string, without a spelling and without allocating. Its span has offset
/// and length 0.
///
/// ```
/// let name = KdlIdentifier::from(String::from_str(alloc, "a")?); // prints "a"
/// ```
impl From<String> for KdlIdentifier {
    ghost use Rattle.kdl_value.specs.Tree.{text_of};
    ghost use Rattle.kdl_entry.specs.Tree.{identifier_tree, plain_identifier};
    ghost use Rattle.std.specs.Prelude.{◌≡◌};

    ghost from_gives = { λ s i. identifier_tree i ≡ plain_identifier (text_of s) };

    fn from(value: String) -> KdlIdentifier {
        KdlIdentifier {
            value,
            repr: Spelling::NotKept,
            span: SourceSpan { offset: 0, len: 0 },
        }
    }
}

/// Returns the string; the spelling and the span are dropped.
///
/// ```
/// let text = String::from(KdlIdentifier::parse(alloc, "\"a\"")?); // "a": the string, and not its spelling
/// ```
impl From<KdlIdentifier> for String {
    ghost use Rattle.kdl_value.specs.Tree.{text_of};
    ghost use Rattle.kdl_entry.specs.Tree.{identifier_tree};
    ghost use Rattle.std.specs.Prelude.{◌≡◌};

    ghost from_gives = { λ i s. text_of s ≡ (identifier_tree i).value };

    fn from(identifier: KdlIdentifier) -> String {
        identifier.value
    }
}

/// Returns a copy with the same string, spelling and span, or an error if an allocation fails.
///
/// ```
/// let name = KdlIdentifier::parse(alloc, "\"a\"")?;
/// let same = name.clone()? == name; // true: it has the same spelling
/// ```
impl Clone for KdlIdentifier {
    ghost use Rattle.kdl_entry.specs.Tree.{identifier_tree};
    ghost use Rattle.std.specs.Prelude.{◌≡◌};

    ghost is_clone = { λ v w. identifier_tree w ≡ identifier_tree v };

    fn clone(&self) -> Result<KdlIdentifier, AllocError> {
        let value = self.value.clone()?;
        let repr = match &self.repr {
            Spelling::NotKept => Spelling::NotKept,
            Spelling::AsValue => Spelling::AsValue,
            Spelling::Own(repr) => Spelling::Own(repr.clone()?),
        };
        Ok(KdlIdentifier {
            value,
            repr,
            span: self.span,
        })
    }
}

/// The spelling, or else the string as it is spelled.
///
/// ```
/// let read = KdlIdentifier::parse(alloc, "\"a\"")?.to_string(alloc)?; // "\"a\"", as it was read
/// let made = KdlIdentifier::from_text(alloc, "a")?.to_string(alloc)?; // "a"
/// ```
impl fmt::Display for KdlIdentifier {
    ghost output = { λ i. Some (encode_utf8_all (print_identifier (identifier_tree i))) };

    fn fmt<W: fmt::Write>(&self, f: &mut fmt::Formatter<W>) -> fmt::Result {
        match &self.repr {
            Spelling::NotKept => write_spelled(self.value.as_str(), f),
            Spelling::AsValue => write_text(self.value.as_str(), f),
            Spelling::Own(repr) => write_text(repr.as_str(), f),
        }
    }
}

/// Whether the strings and the spellings are equal, regardless of the spans.
///
/// ```
/// let bare = KdlIdentifier::parse(alloc, "a")?;
/// let quoted = KdlIdentifier::parse(alloc, "\"a\"")?;
/// let same = bare == quoted; // false: their spellings differ
/// ```
impl PartialEq for KdlIdentifier {
    ghost use Rattle.kdl_entry.specs.Fields.{string_of};
    ghost use Rattle.kdl_entry.specs.Tree.{spelling_of};
    ghost use Rattle.std.specs.Option.{option_eq};
    ghost use Rattle.std.specs.Ordering.{eq_of_both, on};
    ghost use Rattle.std.specs.String.{string_eq};

    ghost eq = { eq_of_both (on string_of string_eq) (on spelling_of (option_eq string_eq)) };

    ghost laws = { Prim.search (comparing, rules) };

    fn eq(&self, other: &KdlIdentifier) -> bool {
        self.value == other.value && self.spelling() == other.spelling()
    }
}

impl Eq for KdlIdentifier {
    ghost laws = { Prim.search (comparing, rules) };
}

/// Writes the string and the spelling: equal identifiers write the same.
///
/// ```
/// KdlIdentifier::parse(alloc, "a")?.hash(&mut hasher); // as each bare `a` does, wherever it was
/// ```
impl Hash for KdlIdentifier {
    ghost use Rattle.kdl_entry.specs.Fields.{string_of};
    ghost use Rattle.kdl_entry.specs.Tree.{spelling_of};
    ghost use Rattle.std.specs.Hash as fed;
    ghost use Rattle.std.specs.Prelude.{◌++◌, string_bytes};

    ghost hash_input = { λ i. fed.str (string_bytes (string_of i))
        ++ fed.option (λ s. fed.str (string_bytes s)) (spelling_of i) };

    ghost respects_eq = { Prim.search (hashing, rules) };

    fn hash<H: Hasher>(&self, state: &mut H) {
        self.value.hash(state);
        self.spelling().hash(state);
    }
}

impl fmt::Debug for KdlIdentifier {
    fn fmt<W: fmt::Write>(&self, f: &mut fmt::Formatter<W>) -> fmt::Result {
        f.debug_struct("KdlIdentifier")
            .field("value", &self.value)
            .field("repr", &self.spelling())
            .field("span", &self.span)
            .finish()
    }
}
