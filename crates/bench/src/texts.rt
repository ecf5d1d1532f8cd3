//! Texts of six kinds, always the same ones.

ghost use Rattle.std.specs.Prelude.{◌<◌};

use std::alloc::{AllocError, Global};
use std::fmt::Write;

/// A kind of text: pieces one after another.
///
/// In a piece `◊` is replaced by a word, `□` by a number below 1000, both pseudorandom, and `№` by the number of the
/// piece.
#[derive(Clone, Copy)]
pub struct Kind {
    pub name: &'static str,
    /// What each piece begins with, once for each level of its blocks.
    opening: &'static str,
    /// What closes one of these blocks.
    closing: &'static str,
    depth: u32,
}

/// All of them: a little of everything, a name and a value on each line, long strings, numbers in four bases, deep
/// blocks, and comments.
pub const KINDS: [Kind; 6] = [
    Kind {
        name: "mixed",
        opening: "// The ◊ of the ◊, since ◊.\nservice-№ \"◊-□\" enabled=#true {\n    listen \"0.0.0.0\" port=(u16)□\n    certificate \"/etc/◊/◊-№.pem\" min-version=1.2\n    route \"/items/□\" to=◊ retries=□ /-sticky=#true\n    limits {\n        connections 1_024; timeout-ms □ /* at most */\n        load 0.□\n    }\n    /-debug { trace #false; }\n    labels ◊ eu-west \"◊ ◊\" \\\n        #\"C:\\◊\"# #null\n",
        closing: "}\n\n",
        depth: 1,
    },
    Kind {
        name: "flat",
        opening: "◊-№ ◊\n◊-◊ \"◊ ◊ ◊\"\n◊.size □\n◊.№ #true\n◊-ratio □.□\n◊_path \"/◊/◊/□\"\n◊-mask 0x□f\n",
        closing: "",
        depth: 1,
    },
    Kind {
        name: "strings",
        opening: "strings-№ \"◊ ◊ ◊, ◊ ◊ and ◊ ◊, ◊ ◊ without ◊ ◊ ◊ ◊ or ◊ ◊ ◊ ◊, which is the ◊ of □\" title=\"◊\\t◊\\n\\\"◊\\\" größe ◊ \\u{e9}◊ 日本語 ◊\\\\◊\\s◊\" #\"◊ \\d+ \"◊\" ◊ ◊ ◊ ◊ ◊\"# \"\"\"\n    ◊ ◊ ◊ ◊ ◊ ◊ ◊ ◊\n    ◊ ◊ \\\"◊\\\" ◊ ◊ ◊\n\n      ◊ ◊ ◊ ◊ ◊ ◊ ◊\n    \"\"\"\n",
        closing: "",
        depth: 1,
    },
    Kind {
        name: "numbers",
        opening: "row-№ rate=0.□ □ -□ +□ 1_000_□ □□□□ -□.5 □.□ □.□e-□ 0x□f 0xdead_□ 0b1011_0010 0o17 □e3 -□□□.□□ #inf #nan □ □ □\n",
        closing: "",
        depth: 1,
    },
    Kind {
        name: "nested",
        opening: "◊-№ level=□ {\nleaf ◊ □\n",
        closing: "}\n",
        depth: 64,
    },
    Kind {
        name: "comments",
        opening: "// The ◊ ◊ of □ ◊ ◊ ◊ and ◊ ◊.\n/*\n * ◊ ◊ ◊ ◊ ◊ ◊ ◊\n * /* ◊ ◊ */\n */\n/-◊ \"◊ ◊\" {\n    ◊ □ // ◊ ◊\n}\nkept-№ /* ◊ */ □ /-◊ /-◊=□ on=#true /-{ ◊ □; } // ◊ ◊\n",
        closing: "",
        depth: 1,
    },
];

const WORDS: [&str; 6] = ["backup", "deploy", "filter", "layout", "output", "window"];

impl Kind {
    /// Returns a text of this kind with at least this number of bytes, and at most a piece more.
    pub fn text(self, alloc: Global, bytes: usize) -> Result<String, AllocError> {
        let mut text = String::new(alloc);
        let mut chance = Chance(1);
        for number in 0..bytes {
            if text.len() >= bytes {
                break;
            }
            for _ in 0..self.depth {
                push_piece(&mut text, self.opening, number, &mut chance)?;
            }
            for _ in 0..self.depth {
                text.push_str(self.closing)?;
            }
        }
        Ok(text)
    }
}

/// Adds the piece of this number to the text.
fn push_piece(
    text: &mut String,
    piece: &str,
    number: usize,
    chance: &mut Chance,
) -> Result<(), AllocError> {
    for c in piece.chars() {
        match c {
            '◊' => text.push_str(WORDS[chance.below(6)])?,
            '□' => write!(text, "{}", chance.below(1000))?,
            '№' => write!(text, "{number}")?,
            _ => text.push(c)?,
        }
    }
    Ok(())
}

/// Pseudorandom numbers.
#[derive(Drop)]
struct Chance(u64);

impl Chance {
    /// The next number, below the limit.
    fn below(&mut self, limit: usize) -> usize
        requires { 0 < limit }
        ensures { result < limit }
    {
        let product = self.0.wrapping_mul(6_364_136_223_846_793_005);
        self.0 = product.wrapping_add(1_442_695_040_888_963_407);
        (self.0 >> 33) as usize % limit
    }
}
