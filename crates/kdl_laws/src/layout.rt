//! Layout has one result, changes nothing when it is repeated, and without comments gives the canonical text or the
//! compact one.

ghost use Rattle.kdl.specs.Layout.{DocumentKeepsNoForm, DocumentLaidOut, DocumentSpaced};
ghost use Rattle.kdl.specs.Tree.{document_prints, document_tree, node_tree};
ghost use Rattle.kdl.specs.declared.document.KdlDocument.{KdlDocument};
ghost use Rattle.kdl_layout.specs.Blank.{at_start};
ghost use Rattle.kdl_layout.specs.Comments.{CommentsStay};
ghost use Rattle.kdl_layout.specs.Compact.{compact_nodes};
ghost use Rattle.kdl_layout.specs.Config.{IndentsBySpaces, IsPlain, Keeping, Settings, defaults, keeping, nothing, settings};
ghost use Rattle.kdl_layout.specs.Formatted.{DocumentKeepsNone, NodeKeepsNone};
ghost use Rattle.kdl_layout.specs.Respelled.{IsSpelledDocument, IsSpelledNode};
ghost use Rattle.kdl_layout.specs.OneLine.{IsLaidDocument, IsLaidNode};
ghost use Rattle.kdl_layout.specs.Spaced.{IsSpacedDocument, IsSpacedNode};
ghost use Rattle.kdl_layout.specs.declared.blank.Before.{Before};
ghost use Rattle.kdl_layout.specs.declared.config.Layout.{Layout};
ghost use Rattle.kdl_layout.specs.WithComments.{IsFormattedDocument, IsFormattedNode};
ghost use Rattle.kdl_grammar.specs.Laid.{LaidDocument};
ghost use Rattle.kdl_grammar.specs.Print.{print_document};
ghost use Rattle.kdl_grammar.specs.Tree.{Document, Node, document_data};
ghost use Rattle.kdl_laws.specs.KeptForm.{EmptyFormFails, UnflaggedKeepReading};
ghost use Rattle.kdl_laws.specs.LaidOut.{IsLaidOut, IsSpacedOut};
ghost use Rattle.kdl_text.specs.Chars.{Text, is_space};
ghost use Rattle.kdl_value.specs.Tree.{text_of};
ghost use Rattle.std.specs.List.{list_all};
ghost use Rattle.std.specs.Prelude.{◌≡◌, ◌↔◌, ℕ, Bool, IfOk, OnOk, String, false, string_bytes, true};
ghost use Rattle.std.specs.Str.{encode_utf8_all};
ghost use Rattle.std.specs.declared.alloc.Global.{Global};

use kdl::{FormatConfig, KdlDocument, KdlNode, Layout};
use std::alloc::AllocError;

/// The default settings indent by spaces of KDL, as clauses `derived` and `comments` of layout require.
#[tactic(auto, unfolding(kdl_text::specs::Chars::is_space))]
pub fn defaults_indent_by_spaces()
    ensures { IndentsBySpaces defaults }
{}

/// After layout without comments, two documents in which no entry is flagged to keep its form print equal texts exactly
/// if their data are equal.
pub fn same_text_same_data(a: &mut KdlDocument, b: &mut KdlDocument) -> Result<(), AllocError>
    requires first { DocumentKeepsNone (document_tree a.old) }
    requires second { DocumentKeepsNone (document_tree b.old) }
    ensures { IfOk result (λ _. (print_document (document_tree a.new) 0 ≡ print_document (document_tree b.new) 0)
        ↔ (document_data (document_tree a.old) ≡ document_data (document_tree b.old))) }
{
    a.autoformat_no_comments()?;
    b.autoformat_no_comments()
}

/// A second layout of a document changes nothing, with or without comments.
pub fn laid_out_twice(document: &mut KdlDocument, config: &FormatConfig) -> Result<(), AllocError>
    requires indent { list_all is_space (settings config.now).indent ≡ true }
    requires keeps_none_after { config.now.entry_autoformate_keep ≡ false }
    requires keeps_none { DocumentKeepsNone (document_tree document.old) }
    ensures { IfOk result (λ _. IsFormattedDocument (settings config.now) config.now.indent_level
        (document_tree document.old) (document_tree document.new)) }
{
    document.autoformat_config(config)?;
    document.autoformat_config(config)
}

/// The same for a node.
pub fn node_laid_out_twice(node: &mut KdlNode, config: &FormatConfig) -> Result<(), AllocError>
    requires indent { list_all is_space (settings config.now).indent ≡ true }
    requires keeps_none_after { config.now.entry_autoformate_keep ≡ false }
    requires keeps_none { NodeKeepsNone (node_tree node.old) }
    ensures { IfOk result (λ _. IsFormattedNode (settings config.now) config.now.indent_level
        (node_tree node.old) (node_tree node.new)) }
{
    node.autoformat_config(config)?;
    node.autoformat_config(config)
}

/// Layout has one result, for each layout.
#[tactic(auto, using(kdl_layout::proofs::Formatting::SpacedUnique::spaced_det))]
pub fn one_layout()
    ensures document { (keep : Keeping) (line compact : Bool) (number : ℕ) (s : Settings) (level : ℕ)
        → (d x y : Document) → IsLaidDocument keep line compact number s level d x
        → IsLaidDocument keep line compact number s level d y → x ≡ y }
    ensures node { (keep : Keeping) (line compact : Bool) (number : ℕ) (s : Settings) (level : ℕ) (b : Before)
        → (n x y : Node) → IsLaidNode keep line compact number s level b n x
        → IsLaidNode keep line compact number s level b n y → x ≡ y }
    ensures spaced { (compact : Bool) (number : ℕ) (s : Settings) (level : ℕ) (d x y : Document)
        → IsSpacedDocument compact number s level d x
        → IsSpacedDocument compact number s level d y → x ≡ y }
{}

/// A compact layout without comments, that keeps nothing else, prints the compact text of the data.
#[tactic(auto, using(crate::proofs::TwoLayouts::compact_printed))]
pub fn compact_layout()
    ensures { (s : Settings) (level depth : ℕ) (d e : Document) → IsPlain s → DocumentKeepsNone d
        → IsLaidDocument nothing false true 0 s level d e
        → print_document e depth ≡ compact_nodes s.indent level (document_data d) }
{}

/// A second layout changes nothing: if the indent is of spaces and no entry is flagged, layout of its own result is
/// that result.
#[tactic(auto, using(crate::proofs::TwoLayouts::document_again, crate::proofs::TwoLayouts::node_again))]
pub fn second_layout()
    ensures document { (s : Settings) (level : ℕ) (d x y : Document) → IndentsBySpaces s
        → s.entry_autoformate_keep ≡ false → DocumentKeepsNone d
        → IsFormattedDocument s level d x → IsFormattedDocument s level x y → y ≡ x }
    ensures node { (s : Settings) (level : ℕ) (n x y : Node) → IndentsBySpaces s
        → s.entry_autoformate_keep ≡ false → NodeKeepsNone n
        → IsFormattedNode s level n x → IsFormattedNode s level x y → y ≡ x }
{}

/// A second layout of a document with the same fields changes nothing.
pub fn spaced_twice(document: &mut KdlDocument, layout: &Layout) -> Result<(), AllocError>
    requires indent { list_all is_space (settings layout.now.config).indent ≡ true }
    requires keeps_none_after { layout.now.config.entry_autoformate_keep ≡ false }
    requires keeps_none { DocumentKeepsNone (document_tree document.old) }
    ensures { OnOk result (DocumentSpaced layout.now document.old document.new) }
{
    document.autoformat_layout(layout)?;
    document.autoformat_layout(layout)
}

/// A second layout with the same fields changes nothing, whatever is kept inside nodes, whether blocks stay on one line
/// or not, and whether a newline is in place of nodes or not: if the indent is of spaces and no entry is flagged, layout
/// of its own result is that result.
pub fn second_spaced_layout()
    ensures document { (keep : Keeping) (line compact : Bool) (number : ℕ) (s : Settings) (level : ℕ)
        → (d x y : Document) → IndentsBySpaces s
        → s.entry_autoformate_keep ≡ false → DocumentKeepsNone d
        → IsLaidDocument keep line compact number s level d x
        → IsLaidDocument keep line compact number s level x y → y ≡ x }
    ensures node { (keep : Keeping) (line compact : Bool) (number : ℕ) (s : Settings) (level : ℕ)
        → (n x y : Node) → IndentsBySpaces s
        → s.entry_autoformate_keep ≡ false → NodeKeepsNone n
        → IsLaidNode keep line compact number s level at_start n x
        → IsLaidNode keep line compact number s level at_start x y → y ≡ x }
{}

/// If no block is to stay on one line, layout has the result of layout with blank lines and what is kept inside nodes.
pub fn layout_without_one_line()
    ensures document { (keep : Keeping) (compact : Bool) (number : ℕ) (s : Settings) (level : ℕ) (d x : Document)
        → IsLaidDocument keep false compact number s level d x
        ↔ IsSpelledDocument keep compact number s level d x }
    ensures node { (keep : Keeping) (compact : Bool) (number : ℕ) (s : Settings) (level : ℕ) (n x : Node)
        → IsLaidNode keep false compact number s level at_start n x
        ↔ IsSpelledNode keep compact number s level at_start n x }
{}

/// If neither spellings nor comments inside entries and types are kept, layout has the result of layout with blank lines
/// alone.
#[tactic(auto, using(crate::proofs::TwoLayouts::respelled_document, crate::proofs::TwoLayouts::respelled_node))]
pub fn layout_without_spellings()
    ensures document { (compact : Bool) (number : ℕ) (s : Settings) (level : ℕ) (d x : Document)
        → IsSpelledDocument nothing compact number s level d x ↔ IsSpacedDocument compact number s level d x }
    ensures node { (compact : Bool) (number : ℕ) (s : Settings) (level : ℕ) (n x : Node)
        → IsSpelledNode nothing compact number s level at_start n x
        ↔ IsSpacedNode compact number s level at_start n x }
{}

/// If no blank lines are kept and a newline is in place of nodes, layout has the result of `autoformat_config`.
#[tactic(auto, using(crate::proofs::TwoLayouts::unspaced_document, crate::proofs::TwoLayouts::unspaced_node))]
pub fn layout_without_blank_lines()
    ensures document { (s : Settings) (level : ℕ) (d x : Document)
        → IsSpacedDocument false 0 s level d x ↔ IsFormattedDocument s level d x }
    ensures node { (s : Settings) (level : ℕ) (n x : Node)
        → IsSpacedNode false 0 s level at_start n x ↔ IsFormattedNode s level n x }
{}

/// The text in memory that a document prints after layout with its comments is the text of the document, laid out.
#[tactic(auto, using(crate::proofs::TextLaidOut::text_laid_out))]
pub fn texts_are_laid_out()
    ensures { (text : Text) (d e : KdlDocument) (s : String Global)
        → LaidDocument (document_tree d) text → DocumentKeepsNoForm d
        → DocumentLaidOut defaults d e → CommentsStay (document_tree d) (document_prints e)
        → string_bytes s ≡ encode_utf8_all (document_prints e) → IsLaidOut text (text_of s) }
{}

/// The same if blank lines, spellings, comments inside entries and types, or blocks on one line are kept.
#[tactic(auto, using(crate::proofs::TextLaidOut::text_spaced_out))]
pub fn texts_are_spaced_out()
    ensures { (text : Text) (l : Layout) (d e : KdlDocument) (s : String Global)
        → settings l.config ≡ defaults
        → LaidDocument (document_tree d) text → DocumentKeepsNoForm d
        → DocumentSpaced l d e → CommentsStay (document_tree d) (document_prints e)
        → string_bytes s ≡ encode_utf8_all (document_prints e)
        → IsSpacedOut (keeping l) l.keep_one_line l.compact_empty l.blank_lines text (text_of s) }
{}

/// If no entry is flagged, each entry reads back in the form that it keeps, as clause `reads_back` of layout requires.
#[tactic(auto, using(crate::proofs::KeptForms::unflagged_keep_reading))]
pub fn unflagged_keeps_reading()
    ensures { UnflaggedKeepReading }
{}

/// An entry that keeps a form of empty texts does not read back in it.
pub fn empty_form_does_not_read()
    ensures { EmptyFormFails }
{}
