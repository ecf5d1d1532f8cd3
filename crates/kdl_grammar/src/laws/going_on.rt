//! Which texts begin a document: what the machine without data reads does, and what it refuses does not.
#![tactic(auto, using(crate::proofs::Rules::going_on))]

ghost use Rattle.kdl_grammar.specs.GoingOn.{Alive, AliveInToken, DeadAtFront, DeadAtToken, DerivedAtEnd, NodeAlive, NodeDeadAtToken, RefusedAtPiece};

/// What the machine reads begins a document.
pub fn alive()
    ensures { Alive }
{}

/// What the machine reads begins a document together with the rest of the text, if the rest continues with a token that
/// may come.
pub fn alive_in_token()
    ensures { AliveInToken }
{}

/// If the machine refuses a token, no document begins with what it read and the next two characters.
pub fn dead_at_token()
    ensures { DeadAtToken }
{}

/// If the machine refuses each token that begins with some characters, no document begins with what it read and these
/// characters.
pub fn dead_at_front()
    ensures { DeadAtFront }
{}

/// If the machine reaches a place before the end of a text at which no token begins, the text is not a document.
pub fn refused_at_piece()
    ensures { RefusedAtPiece }
{}

/// A text that the machine reads to the end is a document exactly if the text may end there.
pub fn derived_at_end()
    ensures { DerivedAtEnd }
{}

/// What the control of a node text goes over begins a node text.
pub fn node_alive()
    ensures { NodeAlive }
{}

/// If the control of a node text refuses a token, no node text begins with what it went over and the next two
/// characters.
pub fn node_dead_at_token()
    ensures { NodeDeadAtToken }
{}
