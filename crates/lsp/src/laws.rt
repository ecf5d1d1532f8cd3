//! Laws of messages, for proofs of callers.

ghost use Rattle.json.specs.Json.{Json, array, no_items, string};
ghost use Rattle.kdl_text.specs.declared.error.KdlDiagnostic.{KdlDiagnostic};
ghost use Rattle.lsp.specs.Contents.{text_in};
ghost use Rattle.lsp.specs.Faults.{AreDiagnostics, IsFaultsNotice, PublishEach, known_at};
ghost use Rattle.lsp.specs.Formatting.{IsEditsTo, IsFormatting, IsIndent, IsLaidOut};
ghost use Rattle.lsp.specs.Messages.{Asks, AsksFor, IsQuiet, Names, TextTells};
ghost use Rattle.lsp.specs.Replies.{IsGreeting, IsNotice, IsReplyTo, IsReplyWith, Logs, OneReply};
ghost use Rattle.lsp.specs.Turns.{ArePublished, IsEnd, IsNew, IsText, Takes, Took};
ghost use Rattle.lsp.specs.declared.session.End.{End};
ghost use Rattle.lsp_documents.specs.Notes.{Note};
ghost use Rattle.lsp_documents.specs.declared.state.Phase.TheVariants as Phase;
ghost use Rattle.lsp_documents.specs.declared.state.State.{State};
ghost use Rattle.lsp_text.specs.declared.position.Encoding.{Encoding};
ghost use Rattle.lsp_text.specs.declared.position.Encoding.TheVariants.{Utf8, Utf32};
ghost use Rattle.std.specs.Global.{Global};
ghost use Rattle.std.specs.Prelude.{◌≡◌, ◌++◌, ◌∷◌, ℕ, ℤ, List, [], Ok, Option, Some, String, chars, codes, string_bytes};

/// What texts are not: the empty text and an object without members tell nothing and name no document, a message that names
/// a document names no other one, and neither the empty text nor `exit` is ignored.
pub fn messages_are_not_so()
    ensures empty { (note : Note) → TextTells [] note → ⊥ }
    ensures object { (note : Note) → TextTells (codes "{}") note → ⊥ }
    ensures unnamed { (uri : List ℕ) → Names [] uri → ⊥ }
    ensures names { (uri : List ℕ) → Names (codes "{}") uri → ⊥ }
    ensures other { Names (codes "{\"params\":{\"textDocument\":{\"uri\":\"a\"}}}") (codes "b") → ⊥ }
    ensures quiet { IsQuiet [] → ⊥ }
    ensures exit { IsQuiet (codes "{\"method\":\"exit\"}") → ⊥ }
    ensures asks { (id : Json) → Asks (codes "{\"method\":\"exit\"}") id → ⊥ }
{}

/// A notification that a document is saved tells nothing about its text.
pub fn saving_is_quiet()
    ensures { IsQuiet (codes "{\"method\":\"textDocument/didSave\"}") }
{}

/// What messages of the server are not: the empty text is no reply, nor is a reply without its last bracket, a reply to one
/// request is none to another, and a notification is none. No messages are not one reply, nor are two replies.
pub fn replies_are_not_so()
    ensures empty { (id : Json) (m : String Global) → string_bytes m ≡ [] → IsReplyTo id m → ⊥ }
    ensures cut { (id : Json) (m n : String Global) → string_bytes m ≡ string_bytes n ++ 125 ∷ [] → IsReplyTo id m → IsReplyTo id n → ⊥ }
    ensures other { (m : String Global) → IsReplyTo (string (codes "a")) m → IsReplyTo (string (codes "b")) m → ⊥ }
    ensures notice { (id : Json) (m : String Global) → IsNotice m → IsReplyTo id m → ⊥ }
    ensures unsent { (id : Json) → OneReply (IsReplyTo id) [] → ⊥ }
    ensures twice { (id a b : Json) (m n : String Global) → IsReplyTo a m → IsReplyTo b n → OneReply (IsReplyTo id) (m ∷ n ∷ []) → ⊥ }
    ensures unlogged { Logs [] → ⊥ }
{}

/// What turns are not: silence after a request, or after a text that is not JSON, a reply to `initialize` with another
/// encoding, and a session that goes on as one that is over.
pub fn turns_are_not_so()
    ensures silent { (old new : State) (message : List ℕ) (id : Json) → Asks message id → Takes old message (Some []) new → ⊥ }
    ensures deaf { (old new : State) → Takes old [] (Some []) new → ⊥ }
    ensures encoding { (m : String Global) → IsGreeting (string (codes "a")) Utf8 m → IsGreeting (string (codes "a")) Utf32 m → ⊥ }
    ensures text { IsText (97 ∷ []) (98 ∷ []) → ⊥ }
    ensures unpublished { (message : List ℕ) (sent : List (List ℕ)) → ArePublished (Took message sent ∷ []) → ⊥ }
    ensures on { (s : State) (end : End) → s.phase ≡ Phase.Running → IsEnd end s [] (Some (97 ∷ [])) → ⊥ }
    ensures fresh { (s : State) → s.phase ≡ Phase.Running → IsNew s → ⊥ }
{}

/// What is not published: nothing for a document whose text is known, faults of another document, and none for a fault.
pub fn faults_are_not_so()
    ensures none { (s : State) (uri : String Global) (k : Option ℤ × List ℕ) → known_at s (string_bytes uri) ≡ Some k → PublishEach s (uri ∷ []) [] → ⊥ }
    ensures other { (e f : Encoding) (v w : Option ℤ) (text words : List ℕ) (m : String Global) → IsFaultsNotice e (codes "a") v text m → IsFaultsNotice f (codes "b") w words m → ⊥ }
    ensures fewer { (e : Encoding) (text : List ℕ) (d : KdlDiagnostic) (ds : List KdlDiagnostic) → AreDiagnostics e text (d ∷ ds) [] → ⊥ }
{}

/// What formatting does not give: no text at all, and no edits for a text that changes, also as the reply to a request. A
/// request asks for no other indent than one.
pub fn formatting_is_not_so()
    ensures silent { (e : Encoding) (indent : Option ℕ) (text : List ℕ) → IsFormatting e indent text [] → ⊥ }
    ensures unedited { (e : Encoding) (text new : List ℕ) → (chars text ≡ chars new → ⊥) → IsEditsTo e text new (codes "[]") → ⊥ }
    ensures unformatted { (old new : State) (message text : List ℕ) (params : Json) (m : String Global) → old.phase ≡ Phase.Running
        → AsksFor message (string (codes "a")) (codes "textDocument/formatting") params → text_in old params ≡ Ok text
        → ((indent : Option ℕ) (laid : List ℕ) → IsLaidOut indent text laid → chars text ≡ chars laid → ⊥)
        → IsReplyWith (codes "result") (array no_items) (string (codes "a")) m → Takes old message (Some (m ∷ [])) new → ⊥ }
    ensures indent { (params : Json) (i j : Option ℕ) → IsIndent params i → IsIndent params j → i ≡ j }
{}
