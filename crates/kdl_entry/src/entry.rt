//! Entries: the arguments and properties of nodes.
#![tactic(auto, using(crate::proofs::Rules::printed))]

ghost use Rattle.kdl_entry.specs.Print.{print_entry};
ghost use Rattle.kdl_value.specs.Tree.{value_tree};
ghost use Rattle.kdl_value.specs.WellFormed.{IsWellFormed};
ghost use Rattle.kdl_entry.specs.Tree.{entry_tree, entry_format_tree, identifier_tree, empty_format, plain_entry, unspelled, cleared, with_keep, kept, autoformatted_format, autoformatted};
ghost use Rattle.kdl_text.specs.Spans.{bytes};
ghost use Rattle.std.specs.Prelude.{◌≡◌, ◌↔◌, FitsSigned, IsTrue, IfOk, [], None, Some, option_map};
ghost use Rattle.std.specs.Int.{w128};
ghost use Rattle.std.specs.Str.{encode_utf8_all};

use crate::identifier::KdlIdentifier;
use crate::print::{write_key, write_type};
use kdl_text::span::SourceSpan;
use kdl_value::{KdlValue, write_text};
use std::alloc::{AllocError, Global};
use std::fmt;
use std::fmt::{Display, Formatter, Write};

/// The spelling of an entry's value, and the texts around the parts of the entry. The fields describe an entry that was
/// parsed.
#[derive(PartialEq, Eq, Hash, Debug, Drop)]
pub struct KdlEntryFormat {
    /// The spelling of the value.
    pub value_repr: String,
    /// Text before the entry. In a node: slashdashed entries, then at least one node-space (a space, a block comment or
    /// a line continuation). Before an entry that is a whole text: line-spaces, then slashdashed entries.
    pub leading: String,
    /// Text after the value: line-spaces (spaces, newlines, comments and line continuations), if the entry is a whole
    /// text. Empty in a node.
    pub trailing: String,
    /// Node-spaces between the type's `)` and the value. Empty without a type.
    pub after_ty: String,
    /// Node-spaces between the type's `(` and its name. Empty without a type.
    pub before_ty_name: String,
    /// Node-spaces between the type's name and its `)`. Empty without a type.
    pub after_ty_name: String,
    /// Node-spaces between the key and its `=`. Empty in an argument.
    pub after_key: String,
    /// Node-spaces between the `=` and the type or value. Empty in an argument.
    pub after_eq: String,
    /// Whether autoformat keeps the spelling of the value and the leading text.
    pub autoformat_keep: bool,
}

impl KdlEntryFormat {
    /// Creates a format of empty texts, without the flag. Does not allocate.
    ///
    /// ```
    /// let mut format = KdlEntryFormat::new(alloc); // an entry with it prints no value, since `value_repr` is empty
    /// format.value_repr = String::from_str(alloc, "0x10")?;
    /// let mut entry = KdlEntry::new(KdlValue::from(16));
    /// entry.set_format(format); // prints "0x10"
    /// ```
    pub fn new(alloc: Global) -> KdlEntryFormat
        ensures { entry_format_tree result ≡ empty_format }
    {
        KdlEntryFormat {
            value_repr: String::new(alloc),
            leading: String::new(alloc),
            trailing: String::new(alloc),
            after_ty: String::new(alloc),
            before_ty_name: String::new(alloc),
            after_ty_name: String::new(alloc),
            after_key: String::new(alloc),
            after_eq: String::new(alloc),
            autoformat_keep: false,
        }
    }

    /// Keeps only the spelling of the value and the leading text, and removes the flag.
    fn keep_value(&mut self)
        ensures { entry_format_tree self.new ≡ kept (entry_format_tree self.old) }
    {
        self.trailing.clear();
        self.after_ty.clear();
        self.before_ty_name.clear();
        self.after_ty_name.clear();
        self.after_key.clear();
        self.after_eq.clear();
        self.autoformat_keep = false;
    }
}

// A whole number has 128 bits with a sign.
fn number_fits(number: i128)
    ensures { FitsSigned w128 number }
{}

/// A fact about a value in memory, for the proofs. Does nothing at run time.
fn well_formed(value: &KdlValue)
    ensures { IsWellFormed (value_tree value.now) }
{
    if let KdlValue::Integer(number) = value {
        number_fits(*number);
    }
}

/// Drops the spelling, if there is an identifier.
fn clear_spelling(identifier: &mut Option<KdlIdentifier>)
    ensures { option_map identifier_tree identifier.new
        ≡ option_map unspelled (option_map identifier_tree identifier.old) }
{
    if let Some(identifier) = identifier {
        identifier.clear_format();
    }
}

/// Keeps what autoformat keeps of a flagged format, and drops any other.
fn autoformat_format(format: &mut Option<KdlEntryFormat>)
    ensures { option_map entry_format_tree format.new
        ≡ autoformatted_format (option_map entry_format_tree format.old) }
{
    match format {
        Some(format) if format.autoformat_keep => format.keep_value(),
        _ => *format = None,
    }
}

/// Returns a copy with the same texts and the same flag, or an error if an allocation fails.
///
/// ```
/// let format = KdlEntryFormat::new(alloc);
/// let same = format.clone()? == format; // true
/// ```
impl Clone for KdlEntryFormat {
    ghost use Rattle.kdl_entry.specs.Tree.{entry_format_tree};
    ghost use Rattle.std.specs.Prelude.{◌≡◌};

    ghost is_clone = { λ v w. entry_format_tree w ≡ entry_format_tree v };

    fn clone(&self) -> Result<KdlEntryFormat, AllocError> {
        Ok(KdlEntryFormat {
            value_repr: self.value_repr.clone()?,
            leading: self.leading.clone()?,
            trailing: self.trailing.clone()?,
            after_ty: self.after_ty.clone()?,
            before_ty_name: self.before_ty_name.clone()?,
            after_ty_name: self.after_ty_name.clone()?,
            after_key: self.after_key.clone()?,
            after_eq: self.after_eq.clone()?,
            autoformat_keep: self.autoformat_keep,
        })
    }
}

/// An argument, or a property with its key (KDL 2.0.0, Argument, Property).
///
/// Equality and hash ignore the span, but not the format and the spellings.
#[derive(Debug, Drop)]
#[derive_where(PartialEq, Eq, Hash)]
pub struct KdlEntry {
    pub(crate) ty: Option<KdlIdentifier>,
    pub(crate) value: KdlValue,
    pub(crate) name: Option<KdlIdentifier>,
    pub(crate) format: Option<KdlEntryFormat>,
    #[derive_where(skip(EqHashOrd))]
    pub(crate) span: SourceSpan,
}

impl KdlEntry {
    ghost use Rattle.kdl_entry.specs.Fields.{entry_format_of, entry_name_of, entry_ty_of, entry_value_of, with_entry_format, with_entry_name, with_entry_ty, with_entry_value};
    ghost use Rattle.kdl_entry.specs.contracts.entry.KdlEntry.{the_row};
    ghost use Rattle.kdl_entry.specs.contracts.entry.KdlEntryFormat.{the_row as format_row};
    ghost use Rattle.kdl_entry.specs.contracts.identifier.KdlIdentifier.{the_row as identifier_row};
    ghost use Rattle.kdl_value.specs.contracts.value.KdlValue.{the_row as value_row};
    ghost use Rattle.std.specs.Borrow.{Lends, LendsIf, sem};

    /// Creates an argument without type or format, whose span has offset and length 0.
    ///
    /// ```
    /// let entry = KdlEntry::new(KdlValue::from(8080)); // prints "8080"; in a node one space comes before it
    /// ```
    pub fn new(value: KdlValue) -> KdlEntry
        ensures tree { entry_tree result ≡ plain_entry None (value_tree value) }
        ensures well_formed { IsWellFormed (entry_tree result).value }
    {
        KdlEntry::plain(None, value)
    }

    fn plain(name: Option<KdlIdentifier>, value: KdlValue) -> KdlEntry
        ensures tree { entry_tree result
            ≡ plain_entry (option_map identifier_tree name) (value_tree value) }
        ensures well_formed { IsWellFormed (entry_tree result).value }
    {
        well_formed(&value);
        KdlEntry {
            ty: None,
            value,
            name,
            format: None,
            span: SourceSpan { offset: 0, len: 0 },
        }
    }

    /// Returns the key, if the entry is a property.
    ///
    /// ```
    /// let is_argument = KdlEntry::parse(alloc, "8080")?.name().is_none(); // true
    /// let entry = KdlEntry::parse(alloc, "\"port\"=8080")?;
    /// let key = entry.name(); // the identifier `port`
    /// ```
    pub fn name(&self) -> Option<&KdlIdentifier>
        ensures { option_map (λ i. identifier_tree i.now) result ≡ (entry_tree self.now).name }
    {
        self.name.as_ref()
    }

    /// Returns a mutable reference to the key, if the entry is a property.
    ///
    /// ```
    /// let mut entry = KdlEntry::parse(alloc, "port=8080")?;
    /// if let Some(name) = entry.name_mut() {
    ///     *name = KdlIdentifier::from_text(alloc, "backlog")?; // prints "backlog=8080"
    /// }
    /// ```
    pub fn name_mut(&mut self) -> Option<&mut KdlIdentifier>
        ensures* writes_back { sem 𝓛 (LendsIf the_row identifier_row self.entry result
            (λ i. with_entry_name self.old (Some i)) self.old) }
        ensures value { option_map (λ i. i.now) result ≡ entry_name_of self.old }
    {
        self.name.as_mut()
    }

    /// Sets the key. The entry becomes a property with `Some`, and an argument with `None`.
    ///
    /// ```
    /// let mut entry = KdlEntry::parse(alloc, "port = 8080")?;
    /// entry.set_name(None); // an argument now: prints "8080"
    /// ```
    pub fn set_name(&mut self, name: Option<KdlIdentifier>)
        ensures { entry_tree self.new
            ≡ record (entry_tree self.old) { name = option_map identifier_tree name } }
    {
        self.name = name;
    }

    /// Returns the value.
    ///
    /// ```
    /// let entry = KdlEntry::parse(alloc, "port=0x1F90")?;
    /// let port = entry.value().as_integer(); // 8080
    /// ```
    pub fn value(&self) -> &KdlValue
        ensures { value_tree result.now ≡ (entry_tree self.now).value }
    {
        &self.value
    }

    /// Returns a mutable reference to the value. The format, with the spelling of the value, is not changed: a parsed
    /// entry prints a new value only after `clear_format`.
    ///
    /// ```
    /// let mut entry = KdlEntry::parse(alloc, "0x10")?;
    /// *entry.value_mut() = KdlValue::from(17); // still prints "0x10", by its spelling, until `clear_format`
    /// ```
    pub fn value_mut(&mut self) -> &mut KdlValue
        ensures* writes_back { sem 𝓛 (Lends the_row value_row self.entry result
            (with_entry_value self.old)) }
        ensures value { result.now ≡ entry_value_of self.old }
    {
        &mut self.value
    }

    /// Sets the value. The format, with the spelling of the value, is not changed: a parsed entry prints the new value
    /// only after `clear_format`, or with another `value_repr` in its format.
    ///
    /// ```
    /// let mut entry = KdlEntry::parse(alloc, " port=0x1F90")?;
    /// entry.set_value(KdlValue::from(9090)); // still prints " port=0x1F90": the spelling of the former value is kept
    /// if let Some(format) = entry.format_mut() {
    ///     format.value_repr = String::from_str(alloc, "9090")?; // prints " port=9090", and all else is unchanged
    /// }
    /// entry.clear_format(); // prints "port=9090": the space is removed too, as a comment in its place would be
    /// ```
    pub fn set_value(&mut self, value: KdlValue)
        ensures { entry_tree self.new ≡ record (entry_tree self.old) { value = value_tree value } }
    {
        self.value = value;
    }

    /// Returns the span of the entry in the text that it was parsed from, in bytes: from its type, key or value to the
    /// end of its value, or the whole text if `KdlEntry::parse` read it.
    ///
    /// ```
    /// let span = KdlEntry::parse(alloc, " a=1")?.span(); // offset 0 and length 4: the whole text
    /// ```
    pub fn span(&self) -> SourceSpan
        ensures { result ≡ (entry_tree self.now).span }
    {
        self.span
    }

    /// Sets the span.
    ///
    /// ```
    /// let mut entry = KdlEntry::new(KdlValue::from(1));
    /// entry.set_span(SourceSpan { offset: 7, len: 1 }); // prints and compares as before
    /// ```
    pub fn set_span(&mut self, span: SourceSpan)
        ensures { entry_tree self.new ≡ record (entry_tree self.old) { span = span } }
    {
        self.span = span;
    }

    /// Returns the type, if the entry has one.
    ///
    /// ```
    /// let entry = KdlEntry::parse(alloc, "port=(u16)8080")?;
    /// let ty = entry.ty(); // the identifier `u16`
    /// ```
    pub fn ty(&self) -> Option<&KdlIdentifier>
        ensures { option_map (λ i. identifier_tree i.now) result ≡ (entry_tree self.now).ty }
    {
        self.ty.as_ref()
    }

    /// Returns a mutable reference to the type, if the entry has one.
    ///
    /// ```
    /// let mut entry = KdlEntry::parse(alloc, "(u16)8080")?;
    /// if let Some(ty) = entry.ty_mut() {
    ///     *ty = KdlIdentifier::from_text(alloc, "u32")?; // prints "(u32)8080"
    /// }
    /// ```
    pub fn ty_mut(&mut self) -> Option<&mut KdlIdentifier>
        ensures* writes_back { sem 𝓛 (LendsIf the_row identifier_row self.entry result
            (λ i. with_entry_ty self.old (Some i)) self.old) }
        ensures value { option_map (λ i. i.now) result ≡ entry_ty_of self.old }
    {
        self.ty.as_mut()
    }

    /// Sets the type.
    ///
    /// ```
    /// let mut entry = KdlEntry::parse(alloc, "8080")?;
    /// entry.set_ty(KdlIdentifier::from_text(alloc, "u16")?); // prints "(u16)8080"
    /// ```
    pub fn set_ty(&mut self, ty: KdlIdentifier)
        ensures { entry_tree self.new
            ≡ record (entry_tree self.old) { ty = Some (identifier_tree ty) } }
    {
        self.ty = Some(ty);
    }

    /// Returns the format, if the entry has one.
    ///
    /// ```
    /// let entry = KdlEntry::parse(alloc, "0x1F90")?;
    /// if let Some(format) = entry.format() {
    ///     let spelling = format.value_repr.as_str(); // "0x1F90"
    /// }
    /// let none = KdlEntry::new(KdlValue::from(8080)).format().is_none(); // true: it was not read
    /// ```
    pub fn format(&self) -> Option<&KdlEntryFormat>
        ensures { option_map (λ t. entry_format_tree t.now) result ≡ (entry_tree self.now).format }
    {
        self.format.as_ref()
    }

    /// Returns a mutable reference to the format, if the entry has one.
    ///
    /// ```
    /// let mut entry = KdlEntry::parse(alloc, "a=1")?;
    /// if let Some(format) = entry.format_mut() {
    ///     format.after_eq = String::from_str(alloc, " ")?; // prints "a= 1"
    /// }
    /// ```
    pub fn format_mut(&mut self) -> Option<&mut KdlEntryFormat>
        ensures* writes_back { sem 𝓛 (LendsIf the_row format_row self.entry result
            (λ f. with_entry_format self.old (Some f)) self.old) }
        ensures value { option_map (λ f. f.now) result ≡ entry_format_of self.old }
    {
        self.format.as_mut()
    }

    /// Sets the format.
    ///
    /// ```
    /// let mut format = KdlEntryFormat::new(alloc);
    /// format.value_repr = String::from_str(alloc, "0x10")?;
    /// let mut entry = KdlEntry::new(KdlValue::from(16));
    /// entry.set_format(format); // prints "0x10"; whether this spells 16 is not checked
    /// ```
    pub fn set_format(&mut self, format: KdlEntryFormat)
        ensures { entry_tree self.new
            ≡ record (entry_tree self.old) { format = Some (entry_format_tree format) } }
    {
        self.format = Some(format);
    }

    /// Drops the format, and the spellings of the type and the key. The format includes the text before the entry, with
    /// its comments and slashdashed entries.
    ///
    /// ```
    /// let mut entry = KdlEntry::parse(alloc, "/* why */ \"port\"=0x10")?;
    /// entry.clear_format(); // prints "port=16": the comment before it is removed too
    /// ```
    pub fn clear_format(&mut self)
        ensures { entry_tree self.new ≡ cleared (entry_tree self.old) }
    {
        self.format = None;
        clear_spelling(&mut self.ty);
        clear_spelling(&mut self.name);
    }

    /// Sets the flag of the format, if the entry has one: the next autoformat keeps the spelling of the value and the
    /// leading text.
    ///
    /// ```
    /// let mut entry = KdlEntry::parse(alloc, "0x10")?;
    /// entry.keep_format();
    /// entry.autoformat(); // prints "0x10"; without the flag, "16"
    /// ```
    pub fn keep_format(&mut self)
        ensures { entry_tree self.new
            ≡ record (entry_tree self.old)
            { format = option_map with_keep (entry_tree self.old).format } }
    {
        if let Some(format) = &mut self.format {
            format.autoformat_keep = true;
        }
    }

    /// Drops the format and the spellings of the type and the key. A flagged format keeps the spelling of the value and
    /// the leading text; its other texts become empty, and its flag is removed.
    ///
    /// ```
    /// let mut entry = KdlEntry::parse(alloc, "\"a\" = 0x10")?;
    /// entry.autoformat(); // prints "a=16"
    /// ```
    pub fn autoformat(&mut self)
        ensures { entry_tree self.new ≡ autoformatted (entry_tree self.old) }
    {
        autoformat_format(&mut self.format);
        clear_spelling(&mut self.ty);
        clear_spelling(&mut self.name);
    }

    /// Returns the length of the printed text, in bytes. This prints the entry, so it returns an error if an allocation
    /// fails.
    ///
    /// ```
    /// let bytes = KdlEntry::parse(alloc, " a=0x10")?.len(alloc)?; // 7
    /// ```
    pub fn len(&self, alloc: Global) -> Result<usize, AllocError>
        ensures { IfOk result (λ n. n ≡ bytes (print_entry (entry_tree self.now))) }
    {
        Ok(self.to_string(alloc)?.len())
    }

    /// Returns whether the printed text is empty. This prints the entry, so it returns an error if an allocation fails.
    ///
    /// ```
    /// let nothing = KdlEntry::new(KdlValue::Null).is_empty(alloc)?; // false: it prints "#null"
    /// ```
    pub fn is_empty(&self, alloc: Global) -> Result<bool, AllocError>
        ensures { IfOk result (λ b. IsTrue b ↔ (print_entry (entry_tree self.now) ≡ [])) }
    {
        Ok(self.to_string(alloc)?.is_empty())
    }

    /// Creates a property without type or format, whose span has offset and length 0.
    ///
    /// ```
    /// let key = KdlIdentifier::from_text(alloc, "port")?;
    /// let entry = KdlEntry::new_prop(key, KdlValue::from(8080)); // prints "port=8080"
    /// ```
    pub fn new_prop(name: KdlIdentifier, value: KdlValue) -> KdlEntry
        ensures tree { entry_tree result
            ≡ plain_entry (Some (identifier_tree name)) (value_tree value) }
        ensures well_formed { IsWellFormed (entry_tree result).value }
    {
        KdlEntry::plain(Some(name), value)
    }
}

/// Creates an argument, as `KdlEntry::new` does.
///
/// ```
/// let entry = KdlEntry::from(KdlValue::from(true)); // the argument `#true`
/// ```
impl From<KdlValue> for KdlEntry {
    ghost use Rattle.kdl_value.specs.Tree.{value_tree};
    ghost use Rattle.kdl_entry.specs.Tree.{entry_tree, plain_entry};
    ghost use Rattle.std.specs.Prelude.{◌≡◌, None};

    ghost from_gives = { λ v e. entry_tree e ≡ plain_entry None (value_tree v) };

    fn from(value: KdlValue) -> KdlEntry {
        KdlEntry::new(value)
    }
}

/// Creates a property, as `KdlEntry::new_prop` does.
///
/// ```
/// let entry = KdlEntry::from((KdlIdentifier::from_text(alloc, "tls")?, KdlValue::from(true))); // prints "tls=#true"
/// ```
impl From<(KdlIdentifier, KdlValue)> for KdlEntry {
    ghost use Rattle.kdl_value.specs.Tree.{value_tree};
    ghost use Rattle.kdl_entry.specs.Tree.{entry_tree, identifier_tree, plain_entry};
    ghost use Rattle.std.specs.Prelude.{◌≡◌, Some};

    ghost from_gives = { λ p e. entry_tree e ≡ plain_entry (Some (identifier_tree p.0)) (value_tree p.1) };

    fn from(parts: (KdlIdentifier, KdlValue)) -> KdlEntry {
        KdlEntry::new_prop(parts.0, parts.1)
    }
}

/// Returns a copy with the same texts and spans, or an error if an allocation fails.
///
/// ```
/// let entry = KdlEntry::parse(alloc, "a=0x10")?;
/// let same = entry.clone()? == entry; // true: it has the same spelling
/// ```
impl Clone for KdlEntry {
    ghost use Rattle.kdl_entry.specs.Tree.{entry_tree};
    ghost use Rattle.std.specs.Prelude.{◌≡◌};

    ghost is_clone = { λ v w. entry_tree w ≡ entry_tree v };

    fn clone(&self) -> Result<KdlEntry, AllocError> {
        let ty = self.ty.clone()?;
        let value = self.value.clone()?;
        let name = self.name.clone()?;
        let format = self.format.clone()?;
        Ok(KdlEntry {
            ty,
            value,
            name,
            format,
            span: self.span,
        })
    }
}

/// With a format all its texts, without one only the key, the type and the value.
///
/// ```
/// let read = KdlEntry::parse(alloc, " a=0x10")?.to_string(alloc)?; // " a=0x10", as it was read
/// let made = KdlEntry::new(KdlValue::from(16)).to_string(alloc)?; // "16"
/// ```
impl fmt::Display for KdlEntry {
    ghost output = { λ e. Some (encode_utf8_all (print_entry (entry_tree e))) };

    fn fmt<W: Write>(&self, f: &mut Formatter<W>) -> fmt::Result {
        match &self.format {
            Some(format) => {
                write_text(format.leading.as_str(), f)?;
                write_key(
                    &self.name,
                    format.after_key.as_str(),
                    format.after_eq.as_str(),
                    f,
                )?;
                write_type(
                    &self.ty,
                    format.before_ty_name.as_str(),
                    format.after_ty_name.as_str(),
                    f,
                )?;
                write_text(format.after_ty.as_str(), f)?;
                write_text(format.value_repr.as_str(), f)?;
                write_text(format.trailing.as_str(), f)
            }
            None => {
                write_key(&self.name, "", "", f)?;
                write_type(&self.ty, "", "", f)?;
                self.value.fmt(f)
            }
        }
    }
}
