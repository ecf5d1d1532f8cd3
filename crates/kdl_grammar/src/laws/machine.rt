//! Laws for proofs, about the tokens of a document and the machine that reads them. No contract of a public call
//! mentions the machine.
#![tactic(auto, using(crate::proofs::Rules::machine))]

ghost use Rattle.kdl_grammar.specs.Internal.MachineLaws.{IsLexed, OneAnswer, AnswersDocuments, AnswersAreLaid};

/// A document is cut into tokens, with nothing left.
pub fn lexed()
    ensures { IsLexed }
{}

/// The machine has at most one result on each text.
pub fn one_answer()
    ensures { OneAnswer }
{}

/// The machine returns exactly if the text is a document, with the document's data.
pub fn answers()
    ensures { AnswersDocuments }
{}

/// What the machine returns is located in the text, with its spans.
pub fn answers_are_laid()
    ensures { AnswersAreLaid }
{}
