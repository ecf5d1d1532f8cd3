//! Formatting of documents.

ghost use Rattle.kdl.specs.Words.{AllCommentsStay, CommentsStay, DocumentKeepsNoForm, DocumentKeepsReading, DocumentLaidOut, DocumentReadsBack, IsDocument, Text, canonical_text, defaults, document_prints, document_says, document_tree, without_comments};
ghost use Rattle.c_calls.specs.Answers.{IsAmong};
ghost use Rattle.c_calls.specs.LaidOut.{AreSpaces, IsLaidOut, IsLaidOutAs, settings_of};
ghost use Rattle.std.specs.Prelude.{◌≡◌, ◌∷◌, [], IfOk, string_bytes};
ghost use Rattle.std.specs.Str.{chars, encode_utf8_all};

use crate::status::{FAULTS, OK, OUT_OF_MEMORY};
use kdl::{FormatConfig, KdlDocument, Layout, is_kdl_space};
use std::alloc::{AllocError, Global};

/// Formats the document, with its comments, as `KdlDocument::autoformat` does.
///
/// Returns `OUT_OF_MEMORY` if an allocation fails. The data of the document is then unchanged, and some of it may be
/// formatted. It still reads back if it did before, and if each entry that keeps its form reads back in it.
pub fn format(document: &mut KdlDocument) -> u32
    ensures data { document_says document.new ≡ document_says document.old }
    ensures reads_back { DocumentKeepsReading defaults document.old
        → DocumentReadsBack document.old → DocumentReadsBack document.new }
    ensures formatted { result ≡ 0 → DocumentLaidOut defaults document.old document.new }
    ensures derived { result ≡ 0 → DocumentKeepsNoForm document.old
        → IsDocument (document_prints document.new) (document_says document.old) }
    ensures comments { result ≡ 0 → DocumentKeepsNoForm document.old
        → CommentsStay (document_tree document.old) (document_prints document.new) }
    ensures statuses { IsAmong (0 ∷ 3 ∷ []) result }
{
    match document.autoformat() {
        Err(_) => OUT_OF_MEMORY,
        Ok(()) => OK,
    }
}

/// Formats the document, without its comments, as `KdlDocument::autoformat_no_comments` does.
///
/// Returns `OUT_OF_MEMORY` if an allocation fails. The data of the document is then unchanged, and some of it may be
/// formatted. It still reads back if it did before, and if each entry that keeps its form reads back in it.
pub fn strip(document: &mut KdlDocument) -> u32
    ensures data { document_says document.new ≡ document_says document.old }
    ensures reads_back { DocumentKeepsReading without_comments document.old
        → DocumentReadsBack document.old → DocumentReadsBack document.new }
    ensures derived { result ≡ 0 → DocumentKeepsNoForm document.old
        → IsDocument (document_prints document.new) (document_says document.old) }
    ensures prints { result ≡ 0 → DocumentKeepsNoForm document.old
        → document_prints document.new ≡ canonical_text (document_says document.old) }
    ensures statuses { IsAmong (0 ∷ 3 ∷ []) result }
{
    match document.autoformat_no_comments() {
        Err(_) => OUT_OF_MEMORY,
        Ok(()) => OK,
    }
}

/// How a document is laid out, but for its indent. A flag is set if it is not 0.
#[repr(C)]
#[derive(Clone, Copy)]
pub struct KdlLayout {
    /// The greatest number of blank lines that are kept between two nodes or comments.
    pub blank_lines: usize,
    /// Set if comments and slashdashed pieces are removed.
    pub no_comments: u32,
    /// Set if values, names, keys and types keep their spellings.
    pub keep_spelling: u32,
    /// Set if a block that is on one line stays on one line.
    pub keep_one_line: u32,
}

/// Lays the document out as `KdlDocument::autoformat_layout` does, with the indent once for each level. All comments
/// stay, also inside entries and types, unless comments are removed. A document or a block without nodes ends without an
/// empty line.
///
/// Returns `FAULTS` if the indent has another character than the spaces of KDL, and leaves the document unchanged.
/// Returns `OUT_OF_MEMORY` if an allocation fails. The data of the document is then unchanged, and some of it may be laid
/// out. It still reads back if it did before, and if each entry that keeps its form reads back in it.
pub fn lay_out(document: &mut KdlDocument, layout: &KdlLayout, indent: &str) -> u32
    ensures data { document_says document.new ≡ document_says document.old }
    ensures reads_back { DocumentKeepsReading (settings_of layout.now (chars indent.now)) document.old
        → DocumentReadsBack document.old → DocumentReadsBack document.new }
    ensures laid { result ≡ 0
        → IsLaidOutAs layout.now (chars indent.now) document.old document.new }
    ensures derived { result ≡ 0 → DocumentKeepsNoForm document.old
        → IsDocument (document_prints document.new) (document_says document.old) }
    ensures comments { result ≡ 0 → layout.now.no_comments ≡ 0
        → DocumentKeepsNoForm document.old
        → AllCommentsStay (document_tree document.old) (document_prints document.new) }
    ensures refused { result ≡ 1 → AreSpaces (chars indent.now) → ⊥ }
    ensures kept { (result ≡ 0 → ⊥) → (result ≡ 3 → ⊥) → document.new ≡ document.old }
    ensures statuses { IsAmong (0 ∷ 1 ∷ 3 ∷ []) result }
{
    if !is_kdl_space(indent) {
        return FAULTS;
    }
    let config = FormatConfig {
        indent_level: 0,
        indent,
        no_comments: layout.no_comments != 0,
        entry_autoformate_keep: false,
    };
    let layout = Layout {
        config,
        blank_lines: layout.blank_lines,
        keep_spelling: layout.keep_spelling != 0,
        keep_inner_comments: true,
        keep_one_line: layout.keep_one_line != 0,
        compact_empty: true,
    };
    match document.autoformat_layout(&layout) {
        Err(_) => OUT_OF_MEMORY,
        Ok(()) => OK,
    }
}

/// Formats the document, with its comments, and returns its text. Returns an error if an allocation fails.
pub fn laid_out(alloc: Global, mut document: KdlDocument) -> Result<String, AllocError>
    ensures { IfOk result (λ s. DocumentKeepsNoForm document → (p : Text) × IsLaidOut document p
        × (string_bytes s ≡ encode_utf8_all p)) }
{
    document.autoformat()?;
    document.to_string(alloc)
}
