//! Documents, read from the tokens of a text one by one.
#![tactic(auto, using(crate::proofs::Rules::token_loop))]

ghost use Rattle.kdl_grammar.specs.Internal.Machine.{initial};
ghost use Rattle.kdl_parser.specs.Internal.Answered.{AnswersParts};
ghost use Rattle.kdl_parser.specs.Internal.Building.{EndsIn, state_view};
ghost use Rattle.kdl_parser.specs.Internal.Counted.{ReadOn, unsliced};
ghost use Rattle.kdl_text.specs.Spans.{bytes, raise};
ghost use Rattle.std.specs.Prelude.{◌≡◌, ◌≤◌};

use crate::builder::Builder;
use crate::node_parts::{DocumentParts, ParsedNode};
use kdl_syntax::{LexFailure, NextToken, Token, TokenKind, lexer};

/// Reads the document before the builder, which has not taken a token yet: its text, or what follows a U+FEFF. Returns
/// `Faulty` at the first token that may not be where it is, or at the first character with which no token begins, and
/// `Memory` if an allocation fails. The builder can't be used afterwards, except its cursor.
///
/// The builder slices each place and each spelling that the document keeps once. It does not slice what is slashdashed
/// by itself: that text is part of the place around it.
pub(crate) fn build<N: ParsedNode>(builder: &mut Builder<N>) -> Result<DocumentParts<N>, LexFailure>
    requires state { state_view N.tree builder.old ≡ initial builder.old.cursor.rest }
    requires unsliced { unsliced builder.old ≡ bytes builder.old.cursor.rest }
    requires text { EndsIn builder.old.cursor.text builder.old.cursor.rest }
    ensures answers { AnswersParts N.tree builder.old.cursor.text builder.old.cursor.rest result }
    ensures counted { ReadOn result builder.old.cursor builder.new.cursor.steps }
    ensures counts { raise builder.old.cursor.steps 0 ≤ raise builder.new.cursor.steps 0 }
{
    'tokens: loop {
        match lexer::next_token(&mut builder.cursor, builder.alloc)? {
            NextToken::Space(at) => builder.take_space(&at)?,
            NextToken::Newline(at) => builder.take(TokenKind::Newline, &at)?,
            NextToken::Word(word, at) => builder.take_word(&word, &at)?,
            NextToken::Other(token) => {
                let Token { kind, at } = token;
                builder.take(kind, &at)?;
            }
            NextToken::End => break 'tokens,
        }
    }
    let end = builder.cursor.checkpoint();
    builder.finish(&end)
}
