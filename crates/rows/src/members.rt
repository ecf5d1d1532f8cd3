//! Classes of characters, whose members are tested one after the other (KDL 2.0.0: Newline, Whitespace, Disallowed
//! Literal Code Points).

/// The 8 newlines.
const NEWLINES: &str = "\r\n|\n|\u{b}|\u{c}|\r|\u{85}|\u{2028}|\u{2029}";

/// The 18 spaces.
const SPACES: &str =
    "\t| |\u{a0}|\u{1680}|\u{2000}|\u{2001}|\u{2002}|\u{2003}|\u{2004}|\u{2005}|\u{2006}|\u{2007}|\u{2008}|\u{2009}|\u{200a}|\u{202f}|\u{205f}|\u{3000}";

/// The characters that are allowed only in comments.
const BANNED: &str =
    "\0|\u{1}|\u{2}|\u{3}|\u{4}|\u{5}|\u{6}|\u{7}|\u{8}|\u{e}|\u{f}|\u{10}|\u{11}|\u{12}|\u{13}|\u{14}|\u{15}|\u{16}|\u{17}|\u{18}|\u{19}|\u{1a}|\u{1b}|\u{1c}|\u{1d}|\u{1e}|\u{1f}|\u{7f}|\u{200e}|\u{200f}|\u{202a}|\u{202b}|\u{202c}|\u{202d}|\u{202e}|\u{2066}|\u{2067}|\u{2068}|\u{2069}|\u{feff}";

/// The members of the class of that name, with `|` between them.
pub fn members(class: &str) -> Option<&'static str> {
    match class {
        "newline" => Some(NEWLINES),
        "space" => Some(SPACES),
        "banned" => Some(BANNED),
        _ => None,
    }
}
