//! Layout of documents and texts.

ghost use Rattle.kdl.specs.Words.{AllCommentsStay, CommentsStay, DocumentKeepsNoForm, DocumentKeepsReading, DocumentLaidOut, DocumentReadsBack, IsDocument, Nodes, Text, canonical_text, defaults, document_prints, document_says, document_tree, without_comments};
ghost use Rattle.c_calls.specs.Answers.{Each, IsAmong};
ghost use Rattle.c_calls.specs.LaidOut.{AreSpaces, IsLaidOutAs, IsTextLaidOut, settings_of};
ghost use Rattle.std.specs.Prelude.{◌≡◌, ◌++◌, ◌<◌, ◌∷◌, [], IsNone, drop, length};
ghost use Rattle.std.specs.Str.{IsUtf8, chars, encode_utf8_all};

use c_calls::held::Handle;
use c_calls::laid_out::{KdlLayout, format, laid_out, lay_out, strip};
use c_calls::status::{NO_DOCUMENT, NOT_UTF8, OUT_OF_MEMORY, of_failure};
use c_calls::text::put_text;
use kdl::KdlDocument;
use std::alloc::Global;

/// Lays the document out, with its comments. Its data do not change. If an allocation fails, a part of the document may
/// already be laid out. It still reads back if it did before.
#[unsafe(no_mangle)]
pub extern "C" fn kdl_format(alloc: Global, document: &mut Handle) -> u32
    ensures data { Each (λ d e. document_says e ≡ document_says d)
        document.old.held.document document.new.held.document }
    ensures reads_back { Each (λ d e. DocumentKeepsReading defaults d
        → DocumentReadsBack d → DocumentReadsBack e)
        document.old.held.document document.new.held.document }
    ensures formatted { result ≡ 0 → Each (λ d e. DocumentLaidOut defaults d e)
        document.old.held.document document.new.held.document }
    ensures derived { result ≡ 0 → Each (λ d e. DocumentKeepsNoForm d
        → IsDocument (document_prints e) (document_says d))
        document.old.held.document document.new.held.document }
    ensures comments { result ≡ 0 → Each (λ d e. DocumentKeepsNoForm d
        → CommentsStay (document_tree d) (document_prints e))
        document.old.held.document document.new.held.document }
    ensures missing { result ≡ 5 → IsNone document.old.held.document }
    ensures statuses { IsAmong (0 ∷ 3 ∷ 5 ∷ []) result }
{
    let Some(mut held) = document.take(alloc) else {
        return NO_DOCUMENT;
    };
    let status = format(&mut held);
    document.put(held);
    status
}

/// Lays the document out, without its comments. Its data do not change. If an allocation fails, a part of the document
/// may already be laid out. It still reads back if it did before.
#[unsafe(no_mangle)]
pub extern "C" fn kdl_strip(alloc: Global, document: &mut Handle) -> u32
    ensures data { Each (λ d e. document_says e ≡ document_says d)
        document.old.held.document document.new.held.document }
    ensures reads_back { Each (λ d e. DocumentKeepsReading without_comments d
        → DocumentReadsBack d → DocumentReadsBack e)
        document.old.held.document document.new.held.document }
    ensures derived { result ≡ 0 → Each (λ d e. DocumentKeepsNoForm d
        → IsDocument (document_prints e) (document_says d))
        document.old.held.document document.new.held.document }
    ensures prints { result ≡ 0 → Each (λ d e. DocumentKeepsNoForm d
        → document_prints e ≡ canonical_text (document_says d))
        document.old.held.document document.new.held.document }
    ensures missing { result ≡ 5 → IsNone document.old.held.document }
    ensures statuses { IsAmong (0 ∷ 3 ∷ 5 ∷ []) result }
{
    let Some(mut held) = document.take(alloc) else {
        return NO_DOCUMENT;
    };
    let status = strip(&mut held);
    document.put(held);
    status
}

/// Lays the document out with the indent once for each level. Its data do not change, and all comments stay, unless the
/// layout removes comments. Returns `FAULTS` if the indent has another character than the spaces of KDL. If an allocation
/// fails, a part of the document may already be laid out. It still reads back if it did before.
#[unsafe(no_mangle)]
pub extern "C" fn kdl_layout(
    alloc: Global,
    document: &mut Handle,
    layout: &KdlLayout,
    indent: &[u8],
) -> u32
    ensures data { Each (λ d e. document_says e ≡ document_says d)
        document.old.held.document document.new.held.document }
    ensures reads_back { Each (λ d e.
        DocumentKeepsReading (settings_of layout.now (chars indent.now)) d
        → DocumentReadsBack d → DocumentReadsBack e)
        document.old.held.document document.new.held.document }
    ensures laid { result ≡ 0 → Each (λ d e. IsLaidOutAs layout.now (chars indent.now) d e)
        document.old.held.document document.new.held.document }
    ensures derived { result ≡ 0 → Each (λ d e. DocumentKeepsNoForm d
        → IsDocument (document_prints e) (document_says d))
        document.old.held.document document.new.held.document }
    ensures comments { result ≡ 0 → layout.now.no_comments ≡ 0
        → Each (λ d e. DocumentKeepsNoForm d
        → AllCommentsStay (document_tree d) (document_prints e))
        document.old.held.document document.new.held.document }
    ensures refused { result ≡ 1 → AreSpaces (chars indent.now) → ⊥ }
    ensures utf8 { result ≡ 2 → IsUtf8 indent.now → ⊥ }
    ensures kept { (result ≡ 0 → ⊥) → (result ≡ 3 → ⊥)
        → document.new.held.document ≡ document.old.held.document }
    ensures missing { result ≡ 5 → IsNone document.old.held.document }
    ensures statuses { IsAmong (0 ∷ 1 ∷ 2 ∷ 3 ∷ 5 ∷ []) result }
{
    let Ok(indent) = std::str::from_utf8(indent) else {
        return NOT_UTF8;
    };
    let Some(mut held) = document.take(alloc) else {
        return NO_DOCUMENT;
    };
    let status = lay_out(&mut held, layout, indent);
    document.put(held);
    status
}

/// Lays a text out, with its comments. Writes the result into `out`, and sets `needed` to its length in bytes. If the
/// result does not fit, returns `TOO_SMALL` and leaves `out` unchanged.
#[unsafe(no_mangle)]
pub extern "C" fn kdl_format_text(
    alloc: Global,
    text: &[u8],
    out: &mut [u8],
    needed: &mut usize,
) -> u32
    ensures kept { (result ≡ 0 → ⊥) → out.new ≡ out.old }
    ensures utf8 { result ≡ 2 → IsUtf8 text.now → ⊥ }
    ensures refused { result ≡ 1 → (x : Nodes) → IsDocument (chars text.now) x → ⊥ }
    ensures written { result ≡ 0 → (p : Text) × IsTextLaidOut (chars text.now) p
        × (out.new ≡ encode_utf8_all p ++ drop (length (encode_utf8_all p)) out.old)
        × (needed.new ≡ length (encode_utf8_all p)) }
    ensures small { result ≡ 4 → (p : Text) × IsTextLaidOut (chars text.now) p
        × (needed.new ≡ length (encode_utf8_all p)) }
    ensures room { result ≡ 4 → length out.old < needed.new }
    ensures statuses { IsAmong (0 ∷ 1 ∷ 2 ∷ 3 ∷ 4 ∷ []) result }
{
    *needed = 0;
    let Ok(text) = std::str::from_utf8(text) else {
        return NOT_UTF8;
    };
    match KdlDocument::parse(alloc, text) {
        Err(failure) => of_failure(&failure),
        Ok(document) => match laid_out(alloc, document) {
            Err(_) => OUT_OF_MEMORY,
            Ok(printed) => put_text(&printed, out, needed),
        },
    }
}
