//! What `==` and hashes of identifiers and entries mean, that printed entries read back, and the laws of the written
//! grammar of both.
#![tactic(auto, using(crate::proofs::Rules::entries))]

ghost use Rattle.kdl_entry.specs.Laws.{OneIdentifier, OneEntry, OneLaidIdentifier, OneLaidEntry, LaidIdentifierIsDerived, LaidEntryIsDerived, TextsAreLaid};
ghost use Rattle.kdl_entry.specs.Formless.{IsFormless, FormlessReadsBack};
ghost use Rattle.kdl_entry.specs.Tree.{identifier_tree, entry_tree, entry_format_tree, cleared, without_span, without_spans};
ghost use Rattle.kdl_laws.specs.Hashes.{WritesBoth};
ghost use Rattle.std.specs.Prelude.{◌≡◌, IsTrue, ◌↔◌};

use crate::values::values_are_well_formed;
use kdl_entry::{KdlEntry, KdlEntryFormat, KdlIdentifier};
use std::hash::{Hash, Hasher};

/// A printed string is an identifier with that string, and what an entry without format and spelling prints is an entry
/// with its data.
#[tactic(auto, using(kdl_entry::proofs::Laying::FormlessLaid::formless_reads_back))]
pub fn formless_reads_back()
    ensures { FormlessReadsBack }
{}

/// An entry in memory that has neither a format nor a spelling is an entry without form, with well-formed data.
pub fn cleared_is_formless(entry: &KdlEntry)
    requires { cleared (entry_tree entry.now) ≡ entry_tree entry.now }
    ensures { IsFormless (entry_tree entry.now) }
{
    values_are_well_formed(entry.value());
}

/// Two formats are equal exactly if all their texts and their flags are equal.
pub fn equal_formats(a: &KdlEntryFormat, b: &KdlEntryFormat) -> bool
    ensures { IsTrue result ↔ (entry_format_tree a.now ≡ entry_format_tree b.now) }
{
    a == b
}

/// Two identifiers are equal exactly if their strings and their spellings are equal, regardless of their spans.
pub fn equal_identifiers(a: &KdlIdentifier, b: &KdlIdentifier) -> bool
    ensures { IsTrue result
        ↔ (without_span (identifier_tree a.now) ≡ without_span (identifier_tree b.now)) }
{
    a == b
}

/// Two entries are equal exactly if all their parts except their spans are equal.
pub fn equal_entries(a: &KdlEntry, b: &KdlEntry) -> bool
    ensures { IsTrue result
        ↔ (without_spans (entry_tree a.now) ≡ without_spans (entry_tree b.now)) }
{
    a == b
}

/// No text can be read as two identifiers.
#[tactic(auto, using(kdl_entry::proofs::Laying::TextUnique::one_identifier))]
pub fn unambiguous_identifier()
    ensures { OneIdentifier }
{}

/// No text can be read as two entries.
#[tactic(auto, using(kdl_entry::proofs::Laying::TextUnique::one_entry))]
pub fn unambiguous_entry()
    ensures { OneEntry }
{}

/// Equal formats leave equal hashers equal: their hashes write the same bytes.
pub fn hash_formats<H: Hasher>(a: &KdlEntryFormat, b: &KdlEntryFormat, one: &mut H, other: &mut H)
    requires { entry_format_tree a.now ≡ entry_format_tree b.now }
    ensures { WritesBoth H.write (⟦<KdlEntryFormat as Hash>⟧.hash_input a.now)
        one.old one.new other.old other.new }
{
    a.hash(one);
    b.hash(other);
}

/// Equal identifiers, of any spans, leave equal hashers equal: their hashes write the same bytes.
pub fn hash_identifiers<H: Hasher>(a: &KdlIdentifier, b: &KdlIdentifier, one: &mut H, other: &mut H)
    requires { without_span (identifier_tree a.now) ≡ without_span (identifier_tree b.now) }
    ensures { WritesBoth H.write (⟦<KdlIdentifier as Hash>⟧.hash_input a.now)
        one.old one.new other.old other.new }
{
    a.hash(one);
    b.hash(other);
}

/// Equal entries, of any spans, leave equal hashers equal: their hashes write the same bytes.
pub fn hash_entries<H: Hasher>(a: &KdlEntry, b: &KdlEntry, one: &mut H, other: &mut H)
    requires { without_spans (entry_tree a.now) ≡ without_spans (entry_tree b.now) }
    ensures { WritesBoth H.write (⟦<KdlEntry as Hash>⟧.hash_input a.now)
        one.old one.new other.old other.new }
{
    a.hash(one);
    b.hash(other);
}

/// If an identifier is located as a whole text, the text is an identifier with its value, and it is what the identifier
/// prints.
#[tactic(auto, using(kdl_entry::proofs::Laying::TextLaws::laid_identifier_is_derived))]
pub fn laid_identifier_is_derived()
    ensures { LaidIdentifierIsDerived }
{}

/// If an entry is located as a whole text, the text is an entry with its data, and it is what the entry prints.
#[tactic(auto, using(kdl_entry::proofs::Laying::TextLaws::laid_entry_is_derived))]
pub fn laid_entry_is_derived()
    ensures { LaidEntryIsDerived }
{}

/// At most one identifier is located as a whole text with its span.
#[tactic(auto, using(kdl_entry::proofs::Reading::EntryComplete::OneLaid::one_laid_identifier))]
pub fn one_laid_identifier()
    ensures { OneLaidIdentifier }
{}

/// At most one entry is located as a whole text with the spans of its pieces.
#[tactic(auto, using(kdl_entry::proofs::Reading::EntryComplete::OneLaid::one_laid_entry))]
pub fn one_laid_entry()
    ensures { OneLaidEntry }
{}

/// Each text that is an identifier or an entry has one located in it, with its data.
#[tactic(auto, using(kdl_entry::proofs::Laying::TextLaws::texts_are_laid))]
pub fn texts_are_laid()
    ensures { TextsAreLaid }
{}
