//! What is known of an entry, or of a node's name, that is being read: its type, its key, and the texts around them.
//!
//! The same for an entry that is a whole text and for those of a document. Which token may come is up to the control.
#![tactic(auto, using(crate::proofs::Rules::parts))]

ghost use Rattle.kdl_entry.specs.Internal.Building.{key_view, type_view, parts_view};
ghost use Rattle.kdl_entry.specs.Internal.Counted.{Recounted, SlicesOn, Within};
ghost use Rattle.kdl_syntax.specs.Internal.Handed.{kind_view};
ghost use Rattle.kdl_entry.specs.Internal.Parts as spec;
ghost use Rattle.kdl_entry.specs.Internal.Parts.{entry_at, identifier_at};
ghost use Rattle.kdl_entry.specs.Places.{between};
ghost use Rattle.kdl_value.specs.Tree.{value_tree, text_of};
ghost use Rattle.kdl_entry.specs.Tree.{entry_tree};
ghost use Rattle.kdl_text.specs.Internal.Here.{Ahead};
ghost use Rattle.std.specs.Prelude.{◌≡◌, [], Some, None, IfOk, OnOk, option_map};

use super::texts::{text_between, token_identifier};
use crate::entry::{KdlEntry, KdlEntryFormat};
use crate::identifier::KdlIdentifier;
use kdl_syntax::{Phase, Token, TokenKind, TokenSpan};
use kdl_text::cursor::{Checkpoint, Cursor};
use kdl_text::span::SourceSpan;
use kdl_value::KdlValue;
use std::alloc::{AllocError, Global};
use std::mem;

/// A type, and the texts before its name, after it, and after the `)`.
#[derive(Drop)]
pub struct TypeParts {
    pub name: KdlIdentifier,
    pub before: String,
    pub after: String,
    pub following: String,
}

/// A key, and the texts before and after its `=`.
#[derive(Drop)]
pub struct KeyParts {
    pub name: KdlIdentifier,
    pub before: String,
    pub following: String,
}

/// The parts of an entry, or of a node's name, being read. The name and the texts around it are those of the type, or
/// after `=` those of the key.
#[derive(Drop)]
pub struct Parts<'a> {
    pub alloc: Global,
    /// The text before the entry or the name.
    pub leading: String,
    pub start: Checkpoint<'a>,
    /// Where the current place began.
    pub from: Checkpoint<'a>,
    pub key: Option<KeyParts>,
    pub name: KdlIdentifier,
    pub before: String,
    pub after: String,
}

/// An entry: its key, its type and its value.
#[derive(Drop)]
pub struct Given {
    pub key: Option<KeyParts>,
    pub ty: Option<TypeParts>,
    pub value: KdlValue,
}

impl Given {
    /// A value without key or type.
    #[inline(always)]
    pub fn plain(value: KdlValue) -> Given
        ensures { result ≡ record { key = None; ty = None; value = value } }
    {
        Given {
            key: None,
            ty: None,
            value,
        }
    }
}

/// Returns an empty text. Does not allocate.
///
/// ```
/// let nothing = empty(alloc); // ""
/// ```
#[inline(always)]
pub fn empty(alloc: Global) -> String
    ensures { text_of result ≡ [] }
{
    let text = String::new(alloc);
    // The optimiser keeps the fields of an empty string apart only if one of them is read.
    let _len = text.len();
    text
}

/// Creates an entry from its parts, without a text after it.
///
/// ```
/// let span = SourceSpan { offset: 0, len: 5 };
/// let leading = String::from_str(alloc, " ")?;
/// let given = Given::plain(KdlValue::from(16));
/// let repr = String::from_str(alloc, "0x10")?;
/// let entry = entry_from(alloc, span, leading, given, repr); // prints " 0x10"
/// ```
#[inline(always)]
pub fn entry_from(
    alloc: Global,
    span: SourceSpan,
    leading: String,
    given: Given,
    repr: String,
) -> KdlEntry
    ensures { entry_tree result
        ≡ entry_at span (text_of leading) (option_map key_view given.key)
        (option_map type_view given.ty) (value_tree given.value) (text_of repr) }
{
    let Given { key, ty, value } = given;
    let (name, after_key, after_eq) = match key {
        Some(
            KeyParts {
                name,
                before,
                following,
            },
        ) => (Some(name), before, following),
        None => (None, empty(alloc), empty(alloc)),
    };
    let (ty, before_ty_name, after_ty_name, after_ty) = match ty {
        Some(
            TypeParts {
                name,
                before,
                after,
                following,
            },
        ) => (Some(name), before, after, following),
        None => (None, empty(alloc), empty(alloc), empty(alloc)),
    };
    let format = KdlEntryFormat {
        value_repr: repr,
        leading,
        trailing: empty(alloc),
        after_ty,
        before_ty_name,
        after_ty_name,
        after_key,
        after_eq,
        autoformat_keep: false,
    };
    KdlEntry {
        ty,
        value,
        name,
        format: Some(format),
        span,
    }
}

impl<'a> Parts<'a> {
    /// Creates empty parts at the place. Does not allocate.
    ///
    /// ```
    /// let cursor = Cursor::new("(u8)1", Steps::new());
    /// let parts = Parts::new(alloc, &cursor.start()); // `open` and `open_keyed` begin an entry in them
    /// ```
    pub fn new(alloc: Global, place: &Checkpoint<'a>) -> Parts<'a>
        ensures is { parts_view result ≡ spec.no_parts place.now.rest }
        ensures start { result.start ≡ place.now }
        ensures from { result.from ≡ place.now }
    {
        Parts {
            alloc,
            leading: empty(alloc),
            start: place.copied(),
            from: place.copied(),
            key: None,
            name: KdlIdentifier::from(empty(alloc)),
            before: empty(alloc),
            after: empty(alloc),
        }
    }

    /// Begins an entry, or a node's name, that is at `start`, after the `(` of its type or the `=` after its key, which
    /// ends at `end`.
    ///
    /// ```
    /// let mut cursor = Cursor::new("(u8)1", Steps::new());
    /// let mut parts = Parts::new(alloc, &cursor.start());
    /// if let Some(left) = lexer::next(&mut cursor, alloc)? {
    ///     parts.open(empty(alloc), &left.at.start, &left.at.end); // the type's name is expected
    /// }
    /// ```
    #[inline(always)]
    pub fn open(&mut self, leading: String, start: &Checkpoint<'a>, end: &Checkpoint<'a>)
        ensures { self.new ≡ record self.old {
          leading = leading;
          start = start.now;
          from = end.now;
          key = None;
        } }
    {
        self.leading = leading;
        self.start = start.copied();
        self.from = end.copied();
        self.key = None;
    }

    /// Continues after the string that is the type's name.
    pub fn take_name(
        &mut self,
        cursor: &mut Cursor<'a>,
        value: String,
        at: &TokenSpan<'a>,
    ) -> Result<(), AllocError>
        requires from { Within cursor.old self.old.from at.now.start }
        ensures named { OnOk result
            (parts_view self.new ≡ spec.named_at
            (identifier_at cursor.old.text (text_of value) at.now.start.rest at.now.end.rest)
            (between self.old.from.rest at.now.start.rest) at.now.end.rest (parts_view self.old)) }
        ensures slices { SlicesOn self.old.from self.new.from result cursor.old cursor.new }
        ensures from { OnOk result (Ahead self.new.from at.now.end) }
    {
        self.before = text_between(cursor, self.alloc, &self.from, &at.start)?;
        self.name = token_identifier(cursor, self.alloc, value, at)?;
        self.from = at.end.copied();
        Ok(())
    }

    /// Continues after the `)` of the type.
    pub fn close(&mut self, cursor: &mut Cursor<'a>, at: &TokenSpan<'a>) -> Result<(), AllocError>
        requires from { Within cursor.old self.old.from at.now.start }
        ensures closed { OnOk result
            (parts_view self.new ≡ spec.closed_at
            (between self.old.from.rest at.now.start.rest) at.now.end.rest (parts_view self.old)) }
        ensures slices { SlicesOn self.old.from self.new.from result cursor.old cursor.new }
        ensures from { OnOk result (Ahead self.new.from at.now.end) }
    {
        self.after = text_between(cursor, self.alloc, &self.from, &at.start)?;
        self.from = at.end.copied();
        Ok(())
    }

    /// The type, at the start of the value.
    pub fn type_parts(
        &mut self,
        cursor: &mut Cursor<'a>,
        start: &Checkpoint<'a>,
    ) -> Result<TypeParts, AllocError>
        requires from { Within cursor.old self.old.from start.now }
        ensures is { IfOk result
            (λ y. type_view y ≡ spec.type_at (parts_view self.old) start.now.rest) }
        ensures taken { OnOk result (parts_view self.new ≡ spec.without_type (parts_view self.old)) }
        ensures slices { SlicesOn self.old.from start.now result cursor.old cursor.new }
    {
        let following = text_between(cursor, self.alloc, &self.from, start)?;
        let name = mem::replace(&mut self.name, KdlIdentifier::from(empty(self.alloc)));
        let before = mem::replace(&mut self.before, empty(self.alloc));
        let after = mem::replace(&mut self.after, empty(self.alloc));
        Ok(TypeParts {
            name,
            before,
            after,
            following,
        })
    }

    /// The key, at the start of its value or type.
    #[inline(always)]
    pub fn key_parts(
        &mut self,
        cursor: &mut Cursor<'a>,
        start: &Checkpoint<'a>,
    ) -> Result<KeyParts, AllocError>
        requires from { Within cursor.old self.old.from start.now }
        ensures is { IfOk result
            (λ k. key_view k ≡ spec.key_at (parts_view self.old) start.now.rest) }
        ensures taken { OnOk result (parts_view self.new ≡ spec.emptied (parts_view self.old)) }
        ensures slices { SlicesOn self.old.from start.now result cursor.old cursor.new }
    {
        let following = text_between(cursor, self.alloc, &self.from, start)?;
        let name = mem::replace(&mut self.name, KdlIdentifier::from(empty(self.alloc)));
        let before = mem::replace(&mut self.before, empty(self.alloc));
        Ok(KeyParts {
            name,
            before,
            following,
        })
    }

    /// Begins the type of the value at its `(`, after the key.
    pub fn open_typed(
        &mut self,
        cursor: &mut Cursor<'a>,
        at: &TokenSpan<'a>,
    ) -> Result<(), AllocError>
        requires from { Within cursor.old self.old.from at.now.start }
        ensures is { OnOk result (parts_view self.new ≡ spec.reopened
            (spec.key_at (parts_view self.old) at.now.start.rest) at.now.end.rest
            (parts_view self.old)) }
        ensures from { OnOk result (self.new.from ≡ at.now.end) }
        ensures slices { SlicesOn self.old.from self.new.from result cursor.old cursor.new }
    {
        let key = self.key_parts(cursor, &at.start)?;
        self.key = Some(key);
        self.from = at.end.copied();
        Ok(())
    }

    /// Continues after a token that may come in the phase and is not the entry's value.
    ///
    /// ```
    /// parts.take(Phase::TypeOpen(Owner::Value), &mut cursor, name)?; // the type has its name
    /// parts.take(Phase::TypeName(Owner::Value), &mut cursor, right)?; // the type has ended
    /// ```
    pub fn take(
        &mut self,
        phase: Phase,
        cursor: &mut Cursor<'a>,
        token: Token<'a>,
    ) -> Result<(), AllocError>
        requires from { Within cursor.old self.old.from token.at.start }
        ensures is { OnOk result
            (parts_view self.new ≡ spec.taken phase cursor.old.text (parts_view self.old)
            (kind_view token.entry.kind) token.entry.at.start.rest token.entry.at.end.rest) }
        ensures same { Recounted cursor.old cursor.new }
    {
        let Token { kind, at } = token;
        match (phase, kind) {
            (Phase::TypeOpen(_), TokenKind::String(value)) => { self.take_name(cursor, value, &at) }
            (Phase::TypeName(_), TokenKind::Right) => self.close(cursor, &at),
            (Phase::Property, TokenKind::Left) => self.open_typed(cursor, &at),
            _ => Ok(()),
        }
    }

    /// Ends the entry in the phase, with its value, which begins at `start`. Returns its key, its type and the value.
    ///
    /// ```
    /// let given = parts.give(Phase::Property, &mut cursor, value, &at.start)?; // no type
    /// ```
    pub fn give(
        &mut self,
        phase: Phase,
        cursor: &mut Cursor<'a>,
        value: KdlValue,
        start: &Checkpoint<'a>,
    ) -> Result<Given, AllocError>
        requires from { Within cursor.old self.old.from start.now }
        ensures key { IfOk result
            (λ g. option_map key_view g.key
            ≡ spec.key_given phase (parts_view self.old) start.now.rest) }
        ensures ty { IfOk result
            (λ g. option_map type_view g.ty
            ≡ spec.type_given phase (parts_view self.old) start.now.rest) }
        ensures value { IfOk result (λ g. g.value ≡ value) }
        ensures leading { OnOk result (text_of self.new.leading ≡ text_of self.old.leading) }
        ensures same { Recounted cursor.old cursor.new }
    {
        if let Phase::Property = phase {
            let key = self.key_parts(cursor, start)?;
            return Ok(Given {
                key: Some(key),
                ty: None,
                value,
            });
        }
        let ty = self.type_parts(cursor, start)?;
        Ok(Given {
            key: self.key.take(),
            ty: Some(ty),
            value,
        })
    }
}
