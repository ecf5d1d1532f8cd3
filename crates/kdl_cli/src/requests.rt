//! Requests from the words of the command line.

use clap::ArgMatches;
use cli::ask::{Action, Ask, Path, read_entry, read_path};
use cli::completions::Shell;
use cli::files::Mode;
use cli::query::{Query, Search, View, read_query};
use cli::report::{Extent, Form, Style};
use cli::request::{Format, Request};
use cli::settings::{Given, Indent};
use std::alloc::AllocError;
use std::env;
use std::io::IsTerminal;

/// Returns the names of the files that the words say are to be replaced.
pub fn replaced_names(
    rt: &HostRuntime,
    matches: &ArgMatches<'_>,
) -> Result<Vec<String>, AllocError> {
    let mut names = Vec::new(rt.alloc());
    let Some((_, matches)) = matches.subcommand() else {
        return Ok(names);
    };
    if !matches.get_flag("write") {
        return Ok(names);
    }
    if let Some(files) = matches.get_strs("FILE") {
        for name in files {
            names.push(String::from_str(rt.alloc(), name)?)?;
        }
    }
    Ok(names)
}

/// Returns the path among the words, or what is wrong with it. Without one, returns that of the document. Beside a query, the
/// path is that of the entry that the words name.
pub fn path_of(
    rt: &HostRuntime,
    matches: &ArgMatches<'_>,
) -> Result<Result<Path, String>, AllocError> {
    let Some((_, matches)) = matches.subcommand() else {
        return read_path(rt.alloc(), "/");
    };
    if !matches.get_flag("query") {
        return read_path(rt.alloc(), matches.get_str("PATH").unwrap_or("/"));
    }
    match matches.get_str("entry") {
        Some(entry) => read_entry(rt.alloc(), entry),
        None => read_path(rt.alloc(), "/"),
    }
}

/// Returns the query among the words, or a picture of its fault. Without one, returns none.
pub fn query_of(
    rt: &HostRuntime,
    matches: &ArgMatches<'_>,
) -> Result<Result<Option<Query>, String>, AllocError> {
    let text = match matches.subcommand() {
        Some((_, matches)) if matches.get_flag("query") => matches.get_str("PATH"),
        Some((_, matches)) => matches.get_str("QUERY"),
        None => None,
    };
    let Some(text) = text else {
        return Ok(Ok(None));
    };
    match read_query(rt.alloc(), text, has_colors(rt, rt.stderr().is_terminal()))? {
        Ok(query) => Ok(Ok(Some(query))),
        Err(fault) => Ok(Err(fault)),
    }
}

/// Returns the request, with that path and that query, or why the words are none.
pub fn request_of<'m>(
    rt: &HostRuntime,
    matches: &'m ArgMatches<'_>,
    path: &'m Path,
    query: Option<&'m Query>,
) -> Result<Request<'m>, &'static str> {
    let Some((word, matches)) = matches.subcommand() else {
        return Err("give a word: `kdl --help` lists them");
    };
    match word {
        "fmt" => format_request(rt, matches),
        "check" => Ok(check_request(rt, matches)),
        "completions" => match Shell::named(text(matches, "SHELL")) {
            Some(shell) => Ok(Request::Completions(shell)),
            None => Err("give a shell"),
        },
        "man" => Ok(Request::Manual),
        "get" => {
            let action = Action::Get {
                path,
                raw: matches.get_flag("raw"),
                all: matches.get_flag("all"),
            };
            Ok(ask_request(rt, matches, action))
        }
        "query" => search_request(rt, matches, query),
        "set" => Ok(ask_request(rt, matches, set_action(matches, path, query)?)),
        "remove" => Ok(ask_request(rt, matches, remove_action(matches, path, query)?)),
        "insert" => {
            let action = Action::Insert {
                path,
                node: text(matches, "NODE"),
            };
            Ok(ask_request(rt, matches, action))
        }
        "json" => Ok(ask_request(rt, matches, Action::Json)),
        "from-json" => Ok(ask_request(rt, matches, Action::FromJson)),
        _ => Err("give a word: `kdl --help` lists them"),
    }
}

/// The action of `set`, at the path or in each node that the query selects.
fn set_action<'m>(
    matches: &'m ArgMatches<'_>,
    path: &'m Path,
    query: Option<&'m Query>,
) -> Result<Action<'m>, &'static str> {
    let value = text(matches, "VALUE");
    let create = matches.get_flag("create");
    match query {
        Some(_) if create => Err("`--create` does not go with `--query`"),
        Some(query) => Ok(Action::SetEach {
            query,
            target: &path.target,
            value,
        }),
        None => {
            without_entry(matches)?;
            Ok(Action::Set {
                path,
                value,
                create,
            })
        }
    }
}

/// The action of `remove`, at the path or of each node that the query selects.
fn remove_action<'m>(
    matches: &'m ArgMatches<'_>,
    path: &'m Path,
    query: Option<&'m Query>,
) -> Result<Action<'m>, &'static str> {
    match query {
        Some(query) => Ok(Action::RemoveEach {
            query,
            target: &path.target,
        }),
        None => {
            without_entry(matches)?;
            Ok(Action::Remove { path })
        }
    }
}

/// Refuses an entry beside a path.
fn without_entry(matches: &ArgMatches<'_>) -> Result<(), &'static str> {
    match matches.get_str("entry") {
        Some(_) => Err("`--entry` goes with `--query`"),
        None => Ok(()),
    }
}

/// The request for an action on the file that the words name.
fn ask_request<'m>(
    rt: &HostRuntime,
    matches: &'m ArgMatches<'_>,
    action: Action<'m>,
) -> Request<'m> {
    Request::Ask(Ask {
        action,
        name: file_name(matches),
        replace: matches.get_flag("write"),
        style: style(has_colors(rt, rt.stderr().is_terminal())),
    })
}

/// The request for the nodes that the query selects.
fn search_request<'m>(
    rt: &HostRuntime,
    matches: &'m ArgMatches<'_>,
    query: Option<&'m Query>,
) -> Result<Request<'m>, &'static str> {
    let Some(query) = query else {
        return Err("give a query");
    };
    Ok(Request::Search {
        names: matches.get_strs("FILE").unwrap_or(&[]),
        search: Search {
            query,
            view: view(matches)?,
            style: style(has_colors(rt, rt.stderr().is_terminal())),
        },
    })
}

/// What is shown of the nodes that a query selects.
fn view(matches: &ArgMatches<'_>) -> Result<View, &'static str> {
    let flags = (
        matches.get_flag("raw"),
        matches.get_flag("json"),
        matches.get_flag("count"),
        matches.get_flag("paths"),
    );
    match flags {
        (false, false, false, false) => Ok(View::Text),
        (true, false, false, false) => Ok(View::Raw),
        (false, true, false, false) => Ok(View::Json),
        (false, false, true, false) => Ok(View::Count),
        (false, false, false, true) => Ok(View::Paths),
        _ => Err("give one of `--raw`, `--json`, `--count` and `--paths`"),
    }
}

/// The name of the file, or of the standard input.
fn file_name<'a>(matches: &ArgMatches<'a>) -> &'a str {
    matches.get_str("FILE").unwrap_or("-")
}

/// The text of an argument that is required.
fn text<'a>(matches: &ArgMatches<'a>, id: &str) -> &'a str {
    matches.get_str(id).unwrap_or("")
}

/// How faults are reported by a word that is asked for something else.
fn style(color: bool) -> Style {
    Style {
        form: Form::Human,
        extent: Extent::First,
        color,
    }
}

/// Whether colors are used where that is not said: on a terminal, if `NO_COLOR` is not set or empty.
fn has_colors(rt: &HostRuntime, is_terminal: bool) -> bool {
    match env::var(rt, "NO_COLOR") {
        Ok(value) => is_terminal && value.is_empty(),
        Err(_) => is_terminal,
    }
}

fn format_request<'m>(
    rt: &HostRuntime,
    matches: &'m ArgMatches<'_>,
) -> Result<Request<'m>, &'static str> {
    let is_check = matches.get_flag("check");
    let is_diff = matches.get_flag("diff");
    let mode = match (matches.get_flag("write"), is_diff, is_check) {
        (false, false, false) => Mode::Print,
        (false, false, true) => Mode::Check,
        (false, true, _) => Mode::Diff,
        (true, false, false) => Mode::Replace,
        (true, _, _) => return Err("`--write` goes with neither `--check` nor `--diff`"),
    };
    let indent = match matches.get_str("indent") {
        Some(text) => match Indent::named(text) {
            Some(indent) => Some(indent),
            None => return Err("`--indent` is a number of spaces or `tab`"),
        },
        None => None,
    };
    Ok(Request::Format(Format {
        names: matches.get_strs("FILE").unwrap_or(&[]),
        mode,
        given: Given {
            indent,
            blank_lines: matches.get_one("blank-lines"),
            respell: if matches.get_flag("respell") {
                Some(true)
            } else {
                None
            },
            expand: if matches.get_flag("expand") {
                Some(true)
            } else {
                None
            },
        },
        config: matches.get_str("config"),
        style: style(has_colors(rt, rt.stderr().is_terminal())),
    }))
}

fn check_request<'m>(rt: &HostRuntime, matches: &'m ArgMatches<'_>) -> Request<'m> {
    let form = match matches.get_str("format") {
        Some("short") => Form::Short,
        Some("json") => Form::Json,
        _ => Form::Human,
    };
    let color = match matches.get_str("color") {
        Some("always") => true,
        Some("never") => false,
        _ => has_colors(rt, rt.stdout().is_terminal()),
    };
    let extent = if matches.get_flag("all") {
        Extent::All
    } else {
        Extent::First
    };
    Request::Check {
        names: matches.get_strs("FILE").unwrap_or(&[]),
        style: Style {
            form,
            extent,
            color,
        },
    }
}
