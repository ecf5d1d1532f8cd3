//! The command line, made from the table of words.

use clap::{Arg, ArgAction, Command, value_parser};
use cli::words::{ABOUT, Count, Flag, Operand, VERSION, Values, Word, words};
use std::alloc::{AllocError, Global};

/// Returns the command line of the program.
pub fn command<'a>(alloc: Global) -> Result<Command<'a>, AllocError> {
    let mut command = Command::new(alloc, "kdl")
        .bin_name("kdl")?
        .version(VERSION)
        .about(ABOUT)
        .subcommand_required(true)
        .arg_required_else_help(true);
    for word in words() {
        command = command.subcommand(word_command(alloc, word)?)?;
    }
    Ok(command)
}

/// The command line of a word.
fn word_command<'a>(alloc: Global, word: &Word) -> Result<Command<'a>, AllocError> {
    let mut command = Command::new(alloc, word.name)
        .about(word.about)
        .after_help(word.examples)
        .hide(word.is_hidden);
    for operand in word.operands {
        command = command.arg(operand_arg(alloc, operand))?;
    }
    for flag in word.flags {
        command = command.arg(flag_arg(alloc, flag))?;
    }
    Ok(command)
}

/// The argument of an operand. A VALUE and a NODE may begin with `-`, as `-3` does.
fn operand_arg<'a>(alloc: Global, operand: &Operand) -> Arg<'a> {
    let arg = Arg::new(alloc, operand.name).help(operand.help);
    let arg = if operand.details.is_empty() {
        arg
    } else {
        arg.long_help(operand.details)
    };
    let arg = match operand.values {
        Values::OneOf(values) => arg.value_parser(values),
        Values::Text => arg.allow_hyphen_values(operand.name != "PATH"),
        _ => arg,
    };
    match operand.count {
        Count::Once => arg.required(true),
        Count::AtMostOnce => arg,
        Count::AnyNumber => arg.action(ArgAction::Append).num_args(1..),
    }
}

/// The argument of a flag.
fn flag_arg<'a>(alloc: Global, flag: &Flag) -> Arg<'a> {
    let arg = Arg::new(alloc, flag.long).long(flag.long).help(flag.help);
    let arg = match flag.short {
        Some(short) => arg.short(short),
        None => arg,
    };
    let Some((name, values)) = flag.value else {
        return arg.action(ArgAction::SetTrue);
    };
    let arg = arg.value_name(name);
    match values {
        Values::OneOf(values) => arg.value_parser(values),
        Values::Numbers => arg.value_parser(value_parser!(usize)),
        _ => arg,
    }
}
