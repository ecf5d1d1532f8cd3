//! Laws for proofs, about the machines that read entries and documents. No contract of a public call mentions a
//! machine.

ghost use Rattle.kdl_entry.specs.Internal.MachineLaws.{OneEntryAnswer, EntryAnswers};

pub use kdl_grammar::laws::machine::{answers, answers_are_laid, lexed, one_answer};

/// The machine that reads entry texts has at most one result for each text.
#[tactic(auto, using(kdl_entry::proofs::Reading::EntryLaws::one_entry_answer))]
pub fn one_entry_answer()
    ensures { OneEntryAnswer }
{}

/// That machine has a result exactly if the text is an entry, with the entry's data, and its result is located in the
/// text, with its spans.
#[tactic(auto, using(kdl_entry::proofs::Reading::EntryLaws::entry_answers))]
pub fn entry_answers()
    ensures { EntryAnswers }
{}
