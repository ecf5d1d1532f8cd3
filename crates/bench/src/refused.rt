//! What `checks/refused` runs: the calls that allocate, and those that do not.
//!
//! If an allocation fails, a call that allocates is made again, provided that the item is unchanged. So a run in which
//! any one allocation fails prints the same as a run in which none does. If all calls for a line failed, `refused` is
//! written to standard error.

use crate::calls::{CALLS, Call, answer};
use crate::free::{calls, prepare};
use std::io;

/// Nodes, a comment, a property and children.
const HELLO: &str =
    "\nhello 1 2 3\n\n// Comment\nworld prop=string-value {\n    child 1\n    child 2\n    child #inf\n}\n";

/// Every form of strings, numbers, keywords, comments, slashdashes and spaces.
const FORMS: &str =
    "\u{feff}/* c */ (t)\"a\\tb\" 1 -0x1F 0b1_0 0o17 1.5e-3 #true #null #-inf k=(u)#\"raw\"# \\ // e\n /-dropped \"\"\"\n  one\n   two\n  \"\"\" #\"\"\"\n x\n \"\"\"# /-{ x; } { b 2 /* d */; /-c; } /-{} // end\n";

/// Creates what the calls that do not allocate are made on, and then, if requested, makes these calls. Writes whether
/// each returned what it should.
pub fn take_none(rt: &HostRuntime, with_calls: bool) -> io::Result<()> {
    let alloc = rt.alloc();
    let mut subjects = prepare(alloc)?;
    let answer = !with_calls || calls(alloc, &mut subjects);
    println!(rt; "{answer}")
}

/// Makes the call on the text, again if an allocation failed, and prints what it returns.
fn print_answer(rt: &HostRuntime, text: &str, call: &Call) -> io::Result<()> {
    match answer(rt.alloc(), text, call) {
        Ok(line) => rt.println(line),
        Err(_) => {
            eprintln!(rt; "refused")?;
            rt.println(answer(rt.alloc(), text, call)?)
        }
    }
}

/// Makes each call that allocates on two texts, and writes what it returns and what the item is afterwards.
pub fn take_some(rt: &HostRuntime) -> io::Result<()> {
    for text in &[HELLO, FORMS] {
        for call in &CALLS {
            print_answer(rt, text, call)?;
        }
    }
    Ok(())
}
