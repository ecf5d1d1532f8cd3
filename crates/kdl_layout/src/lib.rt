//! Layout of documents: its configuration, and the functions that lay out entries and set the texts around nodes and
//! documents. The comments and slashdashed pieces in these texts are read as items, and written in the form of the layout.
#![tactic(auto)]

mod blank;
mod config;
mod dropped;
pub mod kept;
mod lacks;
pub mod layout;
pub mod names;
pub mod one_line;
mod places;
mod spaces;
mod spelling;
mod written;

pub use blank::{Before, Last};
pub use config::{FormatConfig, FormatConfigBuilder, Layout, is_kdl_space};
pub use lacks::{gap_lacks, is_node_spaces, place_lacks, terminator_lacks};
pub use places::{gap_items, place_items};
pub use spaces::{Item, Place};
pub use written::{push_lines, push_tail, push_text};
