//! The words of the program, with their flags: its help, manual page and completions are made from this table.

ghost use Rattle.cli_words.specs.Words.{AreWords};

/// The version of the program.
pub const VERSION: &str = "1.0.0";

/// What the program is.
pub const ABOUT: &str = "Formats, checks, reads and changes KDL files";

/// A word of the program, as in `kdl fmt`.
#[derive(Clone, Copy)]
pub struct Word {
    pub name: &'static str,
    pub about: &'static str,
    pub operands: &'static [Operand],
    pub flags: &'static [Flag],
    /// Lines of a shell.
    pub examples: &'static str,
    /// Whether help leaves it out.
    pub is_hidden: bool,
}

/// An operand of a word.
#[derive(Clone, Copy)]
pub struct Operand {
    pub name: &'static str,
    pub help: &'static str,
    /// More help, or an empty text.
    pub details: &'static str,
    pub count: Count,
    pub values: Values,
}

/// How often an operand may be given.
#[derive(Clone, Copy)]
pub enum Count {
    Once,
    AtMostOnce,
    AnyNumber,
}

/// What values may be given.
#[derive(Clone, Copy)]
pub enum Values {
    /// Names of files.
    Files,
    /// Any text.
    Text,
    /// Whole numbers.
    Numbers,
    /// One of these.
    OneOf(&'static [&'static str]),
}

/// A flag of a word.
#[derive(Clone, Copy)]
pub struct Flag {
    /// Its name after `--`.
    pub long: &'static str,
    pub short: Option<char>,
    /// The name and the kind of its value, if it has one.
    pub value: Option<(&'static str, Values)>,
    pub help: &'static str,
}

/// The shells that completions are made for.
pub const SHELLS: &[&str] = &["bash", "fish", "zsh"];

/// Replaces the file.
const WRITE: Flag = Flag {
    long: "write",
    short: Some('w'),
    value: None,
    help: "Writes the file, if it changes, instead of the output",
};

/// Takes the path as a query.
const IS_QUERY: Flag = Flag {
    long: "query",
    short: None,
    value: None,
    help: "Takes PATH as a query, and changes each node that it selects",
};

/// What is changed of each node.
const ENTRY: Flag = Flag {
    long: "entry",
    short: None,
    value: Some(("#N|@KEY", Values::Text)),
    help: "With `--query`: the argument `#N` or the property `@KEY` of each node",
};

/// The files of a word that takes several.
const FILES: Operand = Operand {
    name: "FILE",
    help: "The files, `-` for standard input, which is read if there are none",
    details: "",
    count: Count::AnyNumber,
    values: Values::Files,
};

/// The file of a word that takes one.
const FILE: Operand = Operand {
    name: "FILE",
    help: "The file, `-` or none for standard input",
    details: "",
    count: Count::AtMostOnce,
    values: Values::Files,
};

/// Which nodes of a document.
const QUERY: Operand = Operand {
    name: "QUERY",
    help: "Which nodes, as `server > listen[port >= 1024]`",
    details: QUERIES,
    count: Count::Once,
    values: Values::Text,
};

const QUERIES: &str =
    "Which nodes, by their names, types, arguments and properties, and by the nodes around them

  listen           the nodes of this name
  []               all nodes
  a > b   a >> b   each `b` in the block of an `a`, or at any depth in it
  a + b   a ++ b   each `b` that is the next sibling of an `a`, or a later one
  top() > a        at the top level
  a || b           both
  (t)a   ()        with this type, with a type
  a[k]   a[val(1)] with a property `k`, with a second argument
  [k = 1]          whose property is so; also `!=`, `<`, `<=`, `>`, `>=` for numbers, and `^=`, `$=`, `*=` for strings
  [val() = (u8)]   whose first argument has this type; `name()` and `tag()` are the name and the type of the node

A name is any KDL string. After a bare one, write a space before `>`, `+`, `|` or a comparison.";

/// A place in a document.
const PATH: Operand = Operand {
    name: "PATH",
    help: "Where in the document, as `server[2]/port`",
    details: PATHS,
    count: Count::Once,
    values: Values::Text,
};

const PATHS: &str = "Where in the document: names of nodes joined by `/`, and what is there

  server/port      argument 0 of the first `port` in the first `server`
  server[2]/port   in the third `server`, as they are counted from 0
  server/port#1    argument 1
  server/@host     the property `host`, the last one of that name
  /                the document, for `insert`

A name is any KDL string. It is in quotes if it is no bare name, holds one of `/[]#` or begins with `@`.
`remove` takes away the node if the path has neither `#` nor `@`. `insert` adds to the block of the node.";

/// Returns the words.
pub fn words() -> &'static [Word]
    ensures { AreWords result.now }
{
    &WORDS
}

/// The words.
static WORDS: [Word; 12] = [
    Word {
        name: "fmt",
        about: "Formats files",
        operands: &[FILES],
        flags: &[
            Flag {
                long: "check",
                short: None,
                value: None,
                help: "Writes nothing, and names each file that would change (status 1)",
            },
            WRITE,
            Flag {
                long: "diff",
                short: None,
                value: None,
                help: "Shows the lines that change (status 1)",
            },
            Flag {
                long: "indent",
                short: None,
                value: Some(("N|tab", Values::Text)),
                help: "Indents by N spaces or by one tab [default: 4]",
            },
            Flag {
                long: "blank-lines",
                short: None,
                value: Some(("N", Values::Numbers)),
                help: "Keeps at most N blank lines in a row [default: 1]",
            },
            Flag {
                long: "respell",
                short: None,
                value: None,
                help: "Writes each value, name, key and type in one way, as 16 for 0x10",
            },
            Flag {
                long: "expand",
                short: None,
                value: None,
                help: "Gives each node of a block on one line a line of its own",
            },
            Flag {
                long: "config",
                short: None,
                value: Some(("FILE", Values::Files)),
                help: "Reads settings from a KDL file, as `indent 2` and `blank-lines 1`",
            },
        ],
        examples: "Examples:\n  kdl fmt < config.kdl\n  kdl fmt -w *.kdl\n  kdl fmt --check --diff config.kdl",
        is_hidden: false,
    },
    Word {
        name: "check",
        about: "Shows what is wrong with files",
        operands: &[FILES],
        flags: &[
            Flag {
                long: "format",
                short: None,
                value: Some(("FORMAT", Values::OneOf(&["human", "short", "json"]))),
                help: "How faults are shown [default: human]",
            },
            Flag {
                long: "color",
                short: None,
                value: Some(("WHEN", Values::OneOf(&["always", "never", "auto"]))),
                help: "Whether colors are used [default: auto]",
            },
            Flag {
                long: "all",
                short: None,
                value: None,
                help: "Shows all faults of a file, not the first 100 alone",
            },
        ],
        examples: "Examples:\n  kdl check *.kdl\n  kdl check --format short config.kdl",
        is_hidden: false,
    },
    Word {
        name: "get",
        about: "Shows a value",
        operands: &[PATH, FILE],
        flags: &[
            Flag {
                long: "raw",
                short: None,
                value: None,
                help: "Shows a string without quotes and escapes",
            },
            Flag {
                long: "all",
                short: None,
                value: None,
                help: "Takes every node of each name, and shows one value a line",
            },
        ],
        examples: "Examples:\n  kdl get server/port config.kdl\n  kdl get --raw server/@host config.kdl",
        is_hidden: false,
    },
    Word {
        name: "query",
        about: "Shows the nodes that a query selects",
        operands: &[QUERY, FILES],
        flags: &[
            Flag {
                long: "raw",
                short: None,
                value: None,
                help: "Shows the first argument of each node that has one, a string without quotes and escapes",
            },
            Flag {
                long: "json",
                short: None,
                value: None,
                help: "Shows the data of each node as JSON on a line",
            },
            Flag {
                long: "count",
                short: None,
                value: None,
                help: "Shows the number of nodes in each file",
            },
            Flag {
                long: "paths",
                short: None,
                value: None,
                help: "Shows the PATH of each node",
            },
        ],
        examples: "Examples:\n  kdl query 'server > listen' config.kdl\n  kdl query --count '[port >= 1024]' *.kdl",
        is_hidden: false,
    },
    Word {
        name: "set",
        about: "Changes a value, and nothing else of the text",
        operands: &[
            PATH,
            Operand {
                name: "VALUE",
                help: "A KDL value without a type: strings that are no bare names are in quotes",
                details: "",
                count: Count::Once,
                values: Values::Text,
            },
            FILE,
        ],
        flags: &[
            WRITE,
            Flag {
                long: "create",
                short: None,
                value: None,
                help: "Makes the node, argument or property if it is not there",
            },
            IS_QUERY,
            ENTRY,
        ],
        examples: "Examples:\n  kdl set server/port 8081 -w config.kdl\n  kdl set server/@host '\"a b\"' config.kdl\n  kdl set --query 'server > port' 8081 config.kdl",
        is_hidden: false,
    },
    Word {
        name: "remove",
        about: "Takes away a node, an argument or a property",
        operands: &[PATH, FILE],
        flags: &[WRITE, IS_QUERY, ENTRY],
        examples: "Examples:\n  kdl remove server/@host config.kdl\n  kdl remove --query 'server[off]' config.kdl",
        is_hidden: false,
    },
    Word {
        name: "insert",
        about: "Adds a node at the end of a block",
        operands: &[
            PATH,
            Operand {
                name: "NODE",
                help: "A KDL node",
                details: "",
                count: Count::Once,
                values: Values::Text,
            },
            FILE,
        ],
        flags: &[WRITE],
        examples: "Examples:\n  kdl insert server 'port 8080' -w config.kdl",
        is_hidden: false,
    },
    Word {
        name: "json",
        about: "Shows the data as JSON",
        operands: &[FILE],
        flags: &[],
        examples: "Examples:\n  kdl json config.kdl | jq .",
        is_hidden: false,
    },
    Word {
        name: "from-json",
        about: "Shows the document of such JSON",
        operands: &[FILE],
        flags: &[],
        examples: "Examples:\n  kdl json config.kdl | kdl from-json",
        is_hidden: false,
    },
    Word {
        name: "lsp",
        about: "Serves an editor over the standard input and output",
        operands: &[],
        flags: &[],
        examples: "Examples:\n  kdl lsp",
        is_hidden: false,
    },
    Word {
        name: "completions",
        about: "Shows the completions for a shell",
        operands: &[Operand {
            name: "SHELL",
            help: "The shell",
            details: "",
            count: Count::Once,
            values: Values::OneOf(SHELLS),
        }],
        flags: &[],
        examples: "Examples:\n  kdl completions bash > kdl.bash",
        is_hidden: true,
    },
    Word {
        name: "man",
        about: "Shows the manual page",
        operands: &[],
        flags: &[],
        examples: "Examples:\n  kdl man > kdl.1",
        is_hidden: true,
    },
];
