//! A text around nodes or entries has a list of items exactly if it may be in its place, and at most one list; a
//! document and a node have one; and written items are the items of the written text.
#![tactic(auto, using(crate::proofs::Rules::items))]

ghost use Rattle.kdl_entry.specs.Places.{EntryLeading};
ghost use Rattle.kdl_layout.specs.Comments.{DocumentItems, EndItems, InnerItems, NodeItems};
ghost use Rattle.kdl_layout.specs.Config.{Settings};
ghost use Rattle.kdl_layout.specs.Formatted.{DocumentKeepsNone, NodeKeepsNone};
ghost use Rattle.kdl_layout.specs.Kept.{without_bom};
ghost use Rattle.kdl_layout.specs.WithComments.{IsFormattedDocument, IsFormattedNode};
ghost use Rattle.kdl_grammar.specs.Grammar.{Gap};
ghost use Rattle.kdl_grammar.specs.Places.{AfterChildren, BeforeChildren};
ghost use Rattle.kdl_grammar.specs.Tree.{Document, Node};
ghost use Rattle.kdl_layout.specs.Items.{GapItems, Item, Place, PlaceItems, before_block, before_entry, after_block};
ghost use Rattle.kdl_layout.specs.Written.{lines, on_line, tail};
ghost use Rattle.kdl_laws.specs.Leading.{DocumentLeading};
ghost use Rattle.kdl_text.specs.Chars.{Star, Text, is_space};
ghost use Rattle.kdl_text.specs.Trivia.{LineComment, NodeSpace};
ghost use Rattle.std.specs.List.{list_all};
ghost use Rattle.std.specs.Prelude.{◌≡◌, ◌≢◌, ◌↔◌, ◌++◌, ◌∷◌, ℕ, [], Bool, List, false, map, true};

/// A text has a list of items exactly if it may be in its place: as a gap, before or after a block, before an entry, or
/// before the nodes of a document. A terminator has an item exactly if it is a line comment. A text inside an entry or a
/// type has a list if it is node-spaces before what follows there.
pub fn place_has_items()
    ensures gap { (s : Text) → Gap true s [] ↔ ((is : List Item) × GapItems s is) }
    ensures before_block { (s : Text) → BeforeChildren s []
        ↔ ((is : List Item) × PlaceItems before_block s is) }
    ensures after_block { (s : Text) → AfterChildren s []
        ↔ ((is : List Item) × PlaceItems after_block s is) }
    ensures before_entry { (s : Text) → EntryLeading s []
        ↔ ((is : List Item) × PlaceItems (before_entry false) s is) }
    ensures document { (s : Text) → DocumentLeading s
        ↔ ((is : List Item) × GapItems (without_bom s) is) }
    ensures terminator { (t : Text) (is : List Item) → EndItems t is
        → (is ≢ []) ↔ LineComment t [] }
    ensures inside { (t r : Text) → r ≢ [] → Star NodeSpace (t ++ r) r
        → (is : List Item) × InnerItems t is }
{}

/// Each document and each node has a list of items, which is the premise of `CommentsStay` and `AllCommentsStay`, and of
/// those of nodes.
pub fn has_list()
    ensures document { (inner : Bool) (d : Document)
        → ((is : List Item) → DocumentItems inner d is → ⊥) → ⊥ }
    ensures node { (inner : Bool) (n : Node)
        → ((is : List Item) → NodeItems inner n is → ⊥) → ⊥ }
{}

/// If layout keeps comments and no entry is flagged, its result has such a list.
pub fn laid_out_has_list()
    ensures document { (s : Settings) (level : ℕ) (d x : Document)
        → s.entry_autoformate_keep ≡ false → s.no_comments ≡ false → DocumentKeepsNone d
        → IsFormattedDocument s level d x → (is : List Item) × DocumentItems false d is }
    ensures node { (s : Settings) (level : ℕ) (n x : Node)
        → s.entry_autoformate_keep ≡ false → s.no_comments ≡ false → NodeKeepsNone n
        → IsFormattedNode s level n x → (is : List Item) × NodeItems false n is }
{}

/// A gap, a text in a place of a node, a node, and a document have at most one list of items.
#[tactic(auto, using(crate::proofs::ItemLists::one_list, crate::proofs::ItemLists::one_list_in_place, crate::proofs::ItemLists::one_list_of_node, crate::proofs::ItemLists::one_list_of_document))]
pub fn one_list()
    ensures gap { (s : Text) (is js : List Item) → GapItems s is → GapItems s js → is ≡ js }
    ensures place { (p : Place) (s : Text) (is js : List Item) → PlaceItems p s is
        → PlaceItems p s js → is ≡ js }
    ensures node { (inner : Bool) (n : Node) (is js : List Item) → NodeItems inner n is
        → NodeItems inner n js → is ≡ js }
    ensures document { (inner : Bool) (d : Document) (is js : List Item)
        → DocumentItems inner d is → DocumentItems inner d js → is ≡ js }
{}

/// The items of a gap, each written on its own line, make a gap of the same items, each as it is on its line.
#[tactic(auto, using(crate::proofs::ItemLists::lines_hold_items))]
pub fn lines_hold_items()
    ensures { (before after s : Text) (is : List Item) → list_all is_space before ≡ true
        → list_all is_space after ≡ true → GapItems s is
        → GapItems (lines before is ++ after) (map on_line is) }
{}

/// The items of a text in a place of a node, each after a space, and a space after them, are the items of a text in
/// that place.
#[tactic(auto, using(crate::proofs::ItemLists::tail_holds_items))]
pub fn tail_holds_items()
    ensures { (p : Place) (s : Text) (is : List Item) → PlaceItems p s is
        → PlaceItems p (tail is ++ (32 ∷ [])) is }
{}
