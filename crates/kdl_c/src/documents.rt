//! Documents: parsing, freeing and printing.

ghost use Rattle.kdl.specs.Words.{DocumentKeepsNoForm, DocumentReadsBack, IsDocument, LaidDocument, Nodes, document_prints, document_says, document_tree};
ghost use Rattle.c_calls.specs.Answers.{IsAmong, printed_bytes};
ghost use Rattle.std.specs.Prelude.{◌≡◌, ◌++◌, ◌<◌, ◌∷◌, [], IfSome, IsNone, IsSome, IsSomeAnd, None, drop, length};
ghost use Rattle.std.specs.Str.{IsUtf8, chars};

use c_calls::held::Handle;
use c_calls::status::{NO_DOCUMENT, NOT_UTF8, OK, OUT_OF_MEMORY, of_failure};
use c_calls::text::put_text;
use kdl::KdlDocument;
use std::alloc::Global;

/// Parses a text into `document`, and frees the document that was there. After any status but `OK`, `document` holds
/// what it held before.
#[unsafe(no_mangle)]
pub extern "C" fn kdl_parse(alloc: Global, text: &[u8], document: &mut Handle) -> u32
    ensures there { result ≡ 0 → IsSome document.new.held.document }
    ensures found { result ≡ 0 → IfSome document.new.held.document (λ d.
        IsDocument (chars text.now) (document_says d)) }
    ensures only { result ≡ 0 → IfSome document.new.held.document (λ d. (x : Nodes)
        → IsDocument (chars text.now) x → x ≡ document_says d) }
    ensures laid { result ≡ 0 → IfSome document.new.held.document (λ d.
        LaidDocument (document_tree d) (chars text.now)) }
    ensures prints { result ≡ 0 → IfSome document.new.held.document (λ d.
        document_prints d ≡ chars text.now) }
    ensures keeps_none { result ≡ 0 → IfSome document.new.held.document DocumentKeepsNoForm }
    ensures reads { result ≡ 0 → IfSome document.new.held.document DocumentReadsBack }
    ensures utf8 { result ≡ 2 → IsUtf8 text.now → ⊥ }
    ensures refused { result ≡ 1 → (x : Nodes) → IsDocument (chars text.now) x → ⊥ }
    ensures kept { (result ≡ 0 → ⊥) → document.new.held.document ≡ document.old.held.document }
    ensures statuses { IsAmong (0 ∷ 1 ∷ 2 ∷ 3 ∷ []) result }
{
    let Ok(text) = std::str::from_utf8(text) else {
        return NOT_UTF8;
    };
    match KdlDocument::parse(alloc, text) {
        Err(failure) => of_failure(&failure),
        Ok(parsed) => match Box::new(alloc, parsed) {
            Err(_) => OUT_OF_MEMORY,
            Ok(parsed) => {
                document.put(parsed);
                OK
            }
        },
    }
}

/// Frees the document, if there is one. A second call does nothing.
#[unsafe(no_mangle)]
pub extern "C" fn kdl_free(alloc: Global, document: &mut Handle)
    ensures { document.new.held.document ≡ None }
{
    drop(document.take(alloc));
}

/// Writes the text of the document into `out`, and sets `needed` to its length in bytes. If the text does not fit,
/// returns `TOO_SMALL` and leaves `out` unchanged.
#[unsafe(no_mangle)]
pub extern "C" fn kdl_print(
    alloc: Global,
    document: &mut Handle,
    out: &mut [u8],
    needed: &mut usize,
) -> u32
    ensures same { document.new.held.document ≡ document.old.held.document }
    ensures printed { result ≡ 0 → IsSomeAnd document.old.held.document (λ d.
        out.new ≡ printed_bytes d ++ drop (length (printed_bytes d)) out.old) }
    ensures whole { result ≡ 0 → IfSome document.old.held.document (λ d.
        needed.new ≡ length (printed_bytes d)) }
    ensures small { result ≡ 4 → IsSomeAnd document.old.held.document (λ d.
        needed.new ≡ length (printed_bytes d)) }
    ensures room { result ≡ 4 → length out.old < needed.new }
    ensures kept { (result ≡ 0 → ⊥) → out.new ≡ out.old }
    ensures missing { result ≡ 5 → IsNone document.old.held.document }
    ensures statuses { IsAmong (0 ∷ 3 ∷ 4 ∷ 5 ∷ []) result }
{
    *needed = 0;
    let Some(held) = document.take(alloc) else {
        return NO_DOCUMENT;
    };
    let status = match held.to_string(alloc) {
        Err(_) => OUT_OF_MEMORY,
        Ok(printed) => put_text(&printed, out, needed),
    };
    document.put(held);
    status
}
