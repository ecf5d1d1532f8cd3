//! Completions for shells, made from the table of words.

ghost use Rattle.cli_words.specs.Template.{IsScript, IsTemplate, title};
ghost use Rattle.std.specs.Prelude.{IfOk, string_bytes};

use crate::template::FlagPart::{Help, Long, Short, ShortHelp, Values};
use crate::template::{Completion, FlagPart, Template, WordPart, write};
use crate::words::words;
use std::alloc::{AllocError, Global};

/// A shell.
#[derive(Clone, Copy)]
pub enum Shell {
    Bash,
    Fish,
    Zsh,
}

impl Shell {
    /// Returns the shell of that name.
    pub fn named(name: &str) -> Option<Shell> {
        match name {
            "bash" => Some(Shell::Bash),
            "fish" => Some(Shell::Fish),
            "zsh" => Some(Shell::Zsh),
            _ => None,
        }
    }
}

/// Returns the completions for a shell, as a script that it reads.
pub fn completions(alloc: Global, shell: Shell) -> Result<String, AllocError>
    ensures { IfOk result (λ s. IsScript shell (string_bytes s)) }
{
    write(alloc, &template(shell), words())
}

/// Returns the template of the script for a shell.
fn template(shell: Shell) -> Template
    ensures { IsTemplate (title shell) result }
{
    match shell {
        Shell::Bash => BASH,
        Shell::Fish => FISH,
        Shell::Zsh => ZSH,
    }
}

/// The script for bash: what may come after the number of words, the first word, the last one and this one.
const BASH: Template = Template {
    escapes: &[],
    title: "# Completions of kdl for bash.\n",
    head: &[
        "_kdl() {
    local this=$2 last=${COMP_WORDS[COMP_CWORD-1]} words=
    case $COMP_CWORD:${COMP_WORDS[1]}:$last:$this in
    1:*) words=\"",
    ],
    list: &[WordPart::Name, WordPart::Text(" ")],
    middle: "--help --version\";;\n",
    section: &[
        WordPart::Text("    *:"),
        WordPart::Name,
        WordPart::Text(":*:-*) words=\""),
        WordPart::Flags(&[
            Short("-", " "),
            FlagPart::Text("--"),
            Long,
            FlagPart::Text(" "),
        ]),
        WordPart::Text("--help\";;\n"),
        WordPart::Flags(&[
            FlagPart::Text("    *:"),
            FlagPart::Word,
            FlagPart::Text(":--"),
            Long,
            FlagPart::Text(":*) words=\""),
            Values(Completion {
                files: "",
                text: "",
                before: "",
                after: "",
            }),
            FlagPart::Text("\";;\n"),
        ]),
    ],
    end: "    esac
    if [ \"$words\" ]; then
        COMPREPLY=($(compgen -W \"$words\" -- \"$this\"))
    else
        COMPREPLY=($(compgen -f -- \"$this\"))
    fi
}
complete -o filenames -F _kdl kdl
",
};

/// The script for fish: a line for each word and for each flag.
const FISH: Template = Template {
    escapes: &[('\'', "'\\''")],
    title: "# Completions of kdl for fish.\n",
    head: &[],
    list: &[
        WordPart::Text("complete -c kdl -n __fish_use_subcommand -f -a "),
        WordPart::Name,
        WordPart::Text(" -d '"),
        WordPart::About,
        WordPart::Text("'\n"),
    ],
    middle: "",
    section: &[
        WordPart::Text("# "),
        WordPart::Name,
        WordPart::Text("\n"),
        WordPart::Flags(&[
            FlagPart::Text("complete -c kdl -n '__fish_seen_subcommand_from "),
            FlagPart::Word,
            FlagPart::Text("' -l "),
            Long,
            Short(" -s ", ""),
            Values(Completion {
                files: " -r -F",
                text: " -x",
                before: " -x -a '",
                after: "'",
            }),
            FlagPart::Text(" -d '"),
            Help,
            FlagPart::Text("'\n"),
        ]),
    ],
    end: "",
};

/// The script for zsh.
const ZSH: Template = Template {
    escapes: &[('\'', "'\\''"), ('[', "\\["), (']', "\\]")],
    title: "#compdef kdl\n",
    head: &[
        "_kdl() {
    local -a words_of_kdl=(
",
    ],
    list: &[
        WordPart::Text("        '"),
        WordPart::Name,
        WordPart::Text(":"),
        WordPart::About,
        WordPart::Text("'\n"),
    ],
    middle: "    )
    if (( CURRENT == 2 )); then
        _describe word words_of_kdl
        return
    fi
    case $words[2] in
",
    section: &[
        WordPart::Text("    "),
        WordPart::Name,
        WordPart::Text(") _arguments"),
        WordPart::Flags(&[
            Short(" '-", "["),
            ShortHelp("]'"),
            FlagPart::Text(" '--"),
            Long,
            FlagPart::Text("["),
            Help,
            FlagPart::Text("]"),
            Values(Completion {
                files: ":value:_files",
                text: ":value: ",
                before: ":value:(",
                after: ")",
            }),
            FlagPart::Text("'"),
        ]),
        WordPart::Text(" '*:file:_files';;\n"),
    ],
    end: "    esac
}
_kdl \"$@\"
",
};
