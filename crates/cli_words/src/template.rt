//! Texts on the words of the program, by templates.

ghost use Rattle.cli_words.specs.Template.{completion, counted, escaped, escaped_char, explanation, flag_part, flag_parts, operand_part, operand_usage, word_part, word_parts, written};
ghost use Rattle.std.specs.Prelude.{◌≡◌, ◌++◌, IfOk, OnOk, flat_map, string_bytes};

use crate::words::{Count, Flag, Operand, Values, Word};
use std::alloc::{AllocError, Global};

/// How a text on the words is put together.
#[derive(Clone, Copy)]
pub(crate) struct Template {
    /// What is written for a character of a name or of a help.
    pub escapes: &'static [(char, &'static str)],
    /// How the text begins.
    pub title: &'static str,
    pub head: &'static [&'static str],
    /// For each word, in the list of words.
    pub list: &'static [WordPart],
    pub middle: &'static str,
    /// For each word, after the list.
    pub section: &'static [WordPart],
    pub end: &'static str,
}

/// A part of what is written for a word.
#[derive(Clone, Copy)]
pub(crate) enum WordPart {
    Text(&'static str),
    Name,
    About,
    /// These for each flag.
    Flags(&'static [FlagPart]),
    /// This, if it has flags.
    IfFlags(&'static str),
    /// Its operands, as on a command line.
    Usage,
    /// For each operand, its name and what it is.
    Operands(Between),
    Examples,
}

/// What is written around a name and what it is.
#[derive(Clone, Copy)]
pub(crate) struct Between {
    pub before: &'static str,
    pub between: &'static str,
    pub after: &'static str,
}

/// A part of what is written for a flag.
#[derive(Clone, Copy)]
pub(crate) enum FlagPart {
    Text(&'static str),
    /// The name of the word.
    Word,
    Long,
    /// The short name between these, if there is one.
    Short(&'static str, &'static str),
    Help,
    /// The help before this, if there is a short name.
    ShortHelp(&'static str),
    /// The name of the value between these, if there is one.
    Value(&'static str, &'static str),
    /// What completes the value, if there is one.
    Values(Completion),
}

/// What completes a value.
#[derive(Clone, Copy)]
pub(crate) struct Completion {
    pub files: &'static str,
    pub text: &'static str,
    /// Before the values, if only some are allowed.
    pub before: &'static str,
    pub after: &'static str,
}

/// Returns the text by the template on the words.
#[tactic(auto, unfolding(crate::specs::Template::written))]
pub(crate) fn write(
    alloc: Global,
    template: &Template,
    words: &[Word],
) -> Result<String, AllocError>
    ensures { IfOk result (λ s. string_bytes s ≡ written template.now words.now) }
{
    let mut out = String::new(alloc);
    out.push_str(template.title)?;
    push_texts(&mut out, template.head, "")?;
    push_words(&mut out, template.escapes, template.list, words)?;
    out.push_str(template.middle)?;
    push_words(&mut out, template.escapes, template.section, words)?;
    out.push_str(template.end)?;
    Ok(out)
}

/// Appends the parts for each word.
fn push_words(
    out: &mut String,
    escapes: &[(char, &str)],
    parts: &[WordPart],
    words: &[Word],
) -> Result<(), AllocError>
    ensures { OnOk result (string_bytes out.new ≡ string_bytes out.old ++ flat_map (word_parts escapes.now parts.now) words.now) }
{
    for word in words {
        push_word(out, escapes, parts, word)?;
    }
    Ok(())
}

/// Appends the parts for a word.
#[tactic(auto, unfolding(crate::specs::Template::word_parts))]
fn push_word(
    out: &mut String,
    escapes: &[(char, &str)],
    parts: &[WordPart],
    word: &Word,
) -> Result<(), AllocError>
    ensures { OnOk result (string_bytes out.new ≡ string_bytes out.old ++ word_parts escapes.now parts.now word.now) }
{
    for part in parts {
        push_word_part(out, escapes, *part, word)?;
    }
    Ok(())
}

/// Appends a part for a word.
fn push_word_part(
    out: &mut String,
    escapes: &[(char, &str)],
    part: WordPart,
    word: &Word,
) -> Result<(), AllocError>
    ensures { OnOk result (string_bytes out.new ≡ string_bytes out.old ++ word_part escapes.now word.now part) }
{
    match part {
        WordPart::Text(text) => out.push_str(text),
        WordPart::Name => push_escaped(out, escapes, word.name),
        WordPart::About => push_escaped(out, escapes, word.about),
        WordPart::Flags(parts) => push_flags(out, escapes, parts, word),
        WordPart::IfFlags(text) => {
            if word.flags.is_empty() {
                return Ok(());
            }
            out.push_str(text)
        }
        WordPart::Usage => push_usage(out, word.operands),
        WordPart::Operands(by) => push_operands(out, escapes, by, word.operands),
        WordPart::Examples => push_escaped(out, escapes, word.examples),
    }
}

/// Appends the parts for each flag of a word.
fn push_flags(
    out: &mut String,
    escapes: &[(char, &str)],
    parts: &[FlagPart],
    word: &Word,
) -> Result<(), AllocError>
    ensures { OnOk result (string_bytes out.new ≡ string_bytes out.old ++ flat_map (flag_parts escapes.now parts.now word.now) word.now.flags.now) }
{
    for flag in word.flags {
        push_flag(out, escapes, parts, word, flag)?;
    }
    Ok(())
}

/// Appends the parts for a flag of a word.
#[tactic(auto, unfolding(crate::specs::Template::flag_parts))]
fn push_flag(
    out: &mut String,
    escapes: &[(char, &str)],
    parts: &[FlagPart],
    word: &Word,
    flag: &Flag,
) -> Result<(), AllocError>
    ensures { OnOk result (string_bytes out.new ≡ string_bytes out.old ++ flag_parts escapes.now parts.now word.now flag.now) }
{
    for part in parts {
        push_flag_part(out, escapes, *part, word, flag)?;
    }
    Ok(())
}

/// Appends a part for a flag of a word.
fn push_flag_part(
    out: &mut String,
    escapes: &[(char, &str)],
    part: FlagPart,
    word: &Word,
    flag: &Flag,
) -> Result<(), AllocError>
    ensures { OnOk result (string_bytes out.new ≡ string_bytes out.old ++ flag_part escapes.now word.now flag.now part) }
{
    match part {
        FlagPart::Text(text) => out.push_str(text),
        FlagPart::Word => push_escaped(out, escapes, word.name),
        FlagPart::Long => push_escaped(out, escapes, flag.long),
        FlagPart::Short(before, after) => match flag.short {
            Some(short) => {
                out.push_str(before)?;
                out.push(short)?;
                out.push_str(after)
            }
            None => Ok(()),
        },
        FlagPart::Help => push_escaped(out, escapes, flag.help),
        FlagPart::ShortHelp(after) => match flag.short {
            Some(_) => {
                push_escaped(out, escapes, flag.help)?;
                out.push_str(after)
            }
            None => Ok(()),
        },
        FlagPart::Value(before, after) => match flag.value {
            Some((name, _)) => push_between(out, before, name, after),
            None => Ok(()),
        },
        FlagPart::Values(completion) => match flag.value {
            Some((_, values)) => push_values(out, completion, values),
            None => Ok(()),
        },
    }
}

/// Appends what completes a value of that kind.
fn push_values(out: &mut String, by: Completion, values: Values) -> Result<(), AllocError>
    ensures { OnOk result (string_bytes out.new ≡ string_bytes out.old ++ completion by values) }
{
    match values {
        Values::Files => out.push_str(by.files),
        Values::Text | Values::Numbers => out.push_str(by.text),
        Values::OneOf(values) => {
            out.push_str(by.before)?;
            push_texts(out, values, " ")?;
            out.push_str(by.after)
        }
    }
}

/// Appends operands as on a command line.
fn push_usage(out: &mut String, operands: &[Operand]) -> Result<(), AllocError>
    ensures { OnOk result (string_bytes out.new ≡ string_bytes out.old ++ flat_map operand_usage operands.now) }
{
    for operand in operands {
        push_counted(out, operand.count, operand.name)?;
    }
    Ok(())
}

/// Appends an operand as on a command line.
fn push_counted(out: &mut String, count: Count, name: &str) -> Result<(), AllocError>
    ensures { OnOk result (string_bytes out.new ≡ string_bytes out.old ++ counted count name.now) }
{
    match count {
        Count::Once => push_between(out, "", name, " "),
        Count::AtMostOnce => push_between(out, "[", name, "] "),
        Count::AnyNumber => push_between(out, "[", name, "]... "),
    }
}

/// Appends the name of each operand and what it is, between these.
fn push_operands(
    out: &mut String,
    escapes: &[(char, &str)],
    by: Between,
    operands: &[Operand],
) -> Result<(), AllocError>
    ensures { OnOk result (string_bytes out.new ≡ string_bytes out.old ++ flat_map (operand_part escapes.now by) operands.now) }
{
    for operand in operands {
        push_between(out, by.before, operand.name, by.between)?;
        push_escaped(out, escapes, explanation(operand))?;
        out.push_str(by.after)?;
    }
    Ok(())
}

/// Returns the details of an operand, or its help if there are none.
fn explanation(operand: &Operand) -> &'static str
    ensures { result.now ≡ explanation operand.now }
{
    if operand.details.is_empty() {
        operand.help
    } else {
        operand.details
    }
}

/// Appends a text between two others.
fn push_between(out: &mut String, before: &str, text: &str, after: &str) -> Result<(), AllocError>
    ensures { OnOk result (string_bytes out.new ≡ string_bytes out.old ++ before.now ++ text.now ++ after.now) }
{
    out.push_str(before)?;
    out.push_str(text)?;
    out.push_str(after)
}

/// Appends texts, with this after each.
fn push_texts(out: &mut String, texts: &[&str], after: &str) -> Result<(), AllocError>
    ensures { OnOk result (string_bytes out.new ≡ string_bytes out.old ++ flat_map (λ t. t.now ++ after.now) texts.now) }
{
    for text in texts {
        out.push_str(text)?;
        out.push_str(after)?;
    }
    Ok(())
}

/// Appends a text with its characters escaped.
fn push_escaped(out: &mut String, escapes: &[(char, &str)], text: &str) -> Result<(), AllocError>
    ensures { OnOk result (string_bytes out.new ≡ string_bytes out.old ++ escaped escapes.now text.now) }
{
    for c in text.chars() {
        push_char(out, escapes, c)?;
    }
    Ok(())
}

/// Appends the escape of a character, or itself if it has none.
fn push_char(out: &mut String, escapes: &[(char, &str)], c: char) -> Result<(), AllocError>
    ensures { OnOk result (string_bytes out.new ≡ string_bytes out.old ++ escaped_char escapes.now c) }
{
    for (escaped, escape) in escapes {
        if c == *escaped {
            return out.push_str(escape);
        }
    }
    out.push(c)
}
