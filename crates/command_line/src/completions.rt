//! What a shell needs to complete a command line: the tables of the subcommands as text, and a function of the shell that reads it.

ghost use Rattle.std.specs.Prelude.{◌≡◌, IfSome};
ghost use Rattle.command_line.specs.Completions.{dashes, shell_name, value_name};

use crate::argument::{Argument, Form};
use crate::shells::{BASH, FISH, ZSH};
use crate::subcommands::{FIRST_HALF, OTHER_HALF, Subcommand};
use clap::builder::ValueParser;
use std::alloc::{AllocError, Global};

/// A shell that completes command lines.
#[derive(Clone, Copy, Debug, PartialEq, Eq)]
pub enum Shell {
    Bash,
    Zsh,
    Fish,
}

impl Shell {
    /// The shell with this name.
    pub fn named(name: &str) -> Option<Shell>
        ensures { IfSome result (λ shell. name.now ≡ shell_name shell) }
    {
        match name {
            "bash" => Some(Shell::Bash),
            "zsh" => Some(Shell::Zsh),
            "fish" => Some(Shell::Fish),
            _ => None,
        }
    }

    /// What comes before the rows of the tables, and after them.
    fn around(self) -> (&'static str, &'static str) {
        match self {
            Shell::Bash => BASH,
            Shell::Zsh => ZSH,
            Shell::Fish => FISH,
        }
    }
}

/// What the value of an argument is called, and the words that it may be, where it is one of some words. A flag has no value.
fn value_of(form: Form) -> (&'static str, &'static [&'static str])
    ensures { result.0.now ≡ value_name form }
{
    match form {
        Form::Flag => ("", &[]),
        Form::Valued(name, kind) | Form::Preset(name, kind, _) => match kind {
            ValueParser::Names(words) => (name, words),
            _ => (name, &[]),
        },
        Form::Positional(name) | Form::Positionals(name) => (name, &[]),
        Form::Among(name, words) => (name, words),
    }
}

/// What an argument's name has before it where it is written.
fn dashes_of(form: Form) -> &'static str
    ensures { result.now ≡ dashes form }
{
    match form {
        Form::Flag | Form::Valued(_, _) | Form::Preset(_, _, _) => "--",
        Form::Positional(_) | Form::Among(_, _) | Form::Positionals(_) => "",
    }
}

/// Appends the row of a word that may follow a subcommand, or be the first where `of` is empty.
fn write_row(
    text: &mut String,
    of: &str,
    word: &str,
    value: &str,
    words: &str,
    help: &str,
) -> Result<(), AllocError> {
    write!(text, "{of}|{word}|{value}|{words}|{help}\n")?;
    Ok(())
}

/// Appends the row of an argument of this subcommand.
fn write_argument(text: &mut String, of: &str, argument: &Argument) -> Result<(), AllocError> {
    let alloc = *text.allocator();
    let dashes = dashes_of(argument.form);
    let word = format!(in alloc; "{dashes}{}", argument.id)?;
    let (value, words) = value_of(argument.form);
    let words = words.join(alloc, " ")?;
    write_row(text, of, &word, value, &words, argument.help)
}

/// Appends the row of a subcommand, and those of its arguments.
fn write_subcommand(text: &mut String, subcommand: &Subcommand) -> Result<(), AllocError> {
    let of = subcommand.name;
    write_row(text, "", of, "", "", subcommand.about)?;
    for argument in subcommand.arguments {
        write_argument(text, of, argument)?;
    }
    write_row(text, of, "--help", "", "", "Print help")
}

/// Appends the rows of these subcommands.
fn write_subcommands(text: &mut String, subcommands: &[Subcommand]) -> Result<(), AllocError> {
    for subcommand in subcommands {
        write_subcommand(text, subcommand)?;
    }
    Ok(())
}

/// A script which a shell reads to complete the words of `postmig`. An error is that memory was refused.
pub fn completion(alloc: Global, shell: Shell) -> Result<String, AllocError> {
    let (before, after) = shell.around();
    let mut text = String::new(alloc);
    text.push_str(before)?;
    write_subcommands(&mut text, FIRST_HALF)?;
    write_subcommands(&mut text, OTHER_HALF)?;
    write_row(
        &mut text,
        "",
        "help",
        "",
        "",
        "Print the help of a subcommand",
    )?;
    write_row(&mut text, "", "--help", "", "", "Print help")?;
    write_row(&mut text, "", "--version", "", "", "Print version")?;
    text.push_str(after)?;
    Ok(text)
}
