//! The values of KDL 2: strings, whole numbers, floats, booleans and null, and how they are printed.
#![tactic(auto)]

mod float;
mod print;
mod spelled;
mod value;

pub use float::{FloatFailure, KdlFloat, parsed_float};
pub use print::{write_char, write_text};
pub use spelled::write_spelled;
pub use value::KdlValue;
