//! An argument of a subcommand, as a row of a table.

ghost use Rattle.std.specs.Prelude.{◌≡◌, IfOk};

use clap::builder::ValueParser;
use clap::{Arg, ArgAction};
use std::alloc::{AllocError, Global};

/// A number that `u64` can hold.
pub(crate) const ANY_NUMBER: ValueParser<'static> = ValueParser::Unsigned(0, u64::MAX);

/// How an argument is written.
#[derive(Clone, Copy)]
pub(crate) enum Form {
    /// `--ID`, which is there or not.
    Flag,
    /// `--ID NAME`, with a value of this kind.
    Valued(&'static str, ValueParser<'static>),
    /// `--ID NAME`, and its value where it is not given.
    Preset(&'static str, ValueParser<'static>, &'static str),
    /// `NAME`, which may be left out.
    Positional(&'static str),
    /// `NAME`, one of these words.
    Among(&'static str, &'static [&'static str]),
    /// `NAME ..`, any number of them.
    Positionals(&'static str),
}

/// An argument of a subcommand.
#[derive(Clone, Copy)]
pub(crate) struct Argument {
    /// The name by which its value is read. That of a flag or of an option is also its `--NAME`.
    pub(crate) id: &'static str,
    pub(crate) help: &'static str,
    pub(crate) form: Form,
    /// Other names after `--`, which help does not show.
    pub(crate) aliases: &'static [&'static str],
    /// The arguments that it cannot be used with.
    pub(crate) conflicts: &'static [&'static str],
    /// The arguments that it cannot be used without.
    pub(crate) needs: &'static [&'static str],
}

/// A flag with neither another name nor a condition, for the fields that a row leaves out.
pub(crate) const PLAIN: Argument = Argument {
    id: "",
    help: "",
    form: Form::Flag,
    aliases: &[],
    conflicts: &[],
    needs: &[],
};

/// The argument as it is written, by the same name.
fn in_form<'a>(arg: Arg<'a>, id: &'a str, form: Form) -> Arg<'a>
    ensures { result.id ≡ arg.entry.id }
{
    match form {
        Form::Flag => arg.long(id).action(ArgAction::SetTrue),
        Form::Valued(name, kind) => arg.long(id).value_name(name).value_parser(kind),
        Form::Preset(name, kind, value) => arg
            .long(id)
            .value_name(name)
            .value_parser(kind)
            .default_value(value),
        Form::Positional(name) => arg.value_name(name),
        Form::Among(name, words) => arg.value_name(name).value_parser(words).required(true),
        Form::Positionals(name) => arg.value_name(name).num_args(0..),
    }
}

impl Argument {
    /// The argument as `clap` takes it.
    pub(crate) fn to_arg<'a>(&self, alloc: Global) -> Result<Arg<'a>, AllocError>
        ensures { IfOk result (λ arg. arg.id ≡ self.now.id) }
    {
        let arg = Arg::new(alloc, self.id)
            .help(self.help)
            .aliases(self.aliases)?
            .conflicts_with_all(self.conflicts)?
            .requires_all(self.needs)?;
        Ok(in_form(arg, self.id, self.form))
    }
}
