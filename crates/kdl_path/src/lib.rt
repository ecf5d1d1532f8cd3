//! Values and nodes of a KDL text by their path: `get`, `set`, `remove` and `insert`.
//!
//! A PATH names a node by the names of the nodes down to it, and an argument or a property of that node:
//!
//! | PATH | names |
//! |---|---|
//! | `server/port` | the first node `port` in the block of the first node `server`, or its argument 0 |
//! | `server[2]/port` | the same in the third `server`: nodes of one name are counted from 0 |
//! | `server/port#1` | its argument 1: arguments are counted from 0 |
//! | `server/@host` | the last property `host` of `server` |
//! | `/` | the document |
//!
//! A name is a KDL string. One that contains `/`, `[`, `]` or `#`, or begins with `@`, or is no bare string, is written
//! in quotes: `"a/b"/port`, `server/@"two words"`.
//!
//! `set_each` and `remove_each` edit each node that a query of `kdl_query` selects.
//!
//! ```
//! let text = "server {\n    port 0x50 // here\n}\n";
//! let path = Path::parse(alloc, "server/port")?;
//! let changed = set(alloc, text, &path, "0x1F", false)?; // "server {\n    port 0x1F // here\n}\n"
//! ```
#![tactic(auto)]

mod change;
mod create;
mod cursor;
mod each;
mod failure;
mod insertion;
mod laid;
pub mod laws;
mod layout;
mod locate;
mod lookup;
mod nearest;
mod parse;
mod path;
mod removal;
mod setter;
mod value;

pub use each::{remove_each, set_each};
pub use failure::{EditFailure, GetFailure, Missing};
pub use insertion::insert;
pub use locate::Located;
pub use lookup::{find, find_entry, get, get_all};
pub use path::{Path, PathFailure, PathFault, Step, Target};
pub use removal::remove;
pub use setter::set;
