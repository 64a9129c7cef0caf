//! `postmig show`: what a world holds at a line of a script.

ghost use Rattle.std.specs.Prelude.{◌≤◌, IfSome};

use crate::commands::given_by;
use crate::endings::end_script;
use clap::ArgMatches;
use console::Bounded;
use engine::RunFault;
use engine::script_reader::MAX_LINE;
use grammar::Token;
use grammar::token::read_tokens;
use show::{Asked, Form, Span, What};
use std::alloc::Global;
use streams::{BAD_COMMAND_OR_SCRIPT, READ_OR_WRITE_FAULT, open_input, open_output};

/// The number that a text spells, as a line of a script has it.
fn number_of(alloc: Global, text: &str) -> Option<u64> {
    let mut tokens = Vec::new(alloc);
    let Ok(true) = read_tokens(&mut tokens, text.as_bytes()) else {
        return None;
    };
    match tokens.as_slice() {
        [Token::Number(number)] => Some(*number),
        _ => None,
    }
}

/// The range that a text names.
fn range_of(alloc: Global, text: &str) -> Option<Span>
    ensures { IfSome result (λ range. range.start ≤ range.end) }
{
    let (start, end) = text.split_once(':')?;
    let start = number_of(alloc, start)?;
    let end = number_of(alloc, end)?;
    if start > end {
        return None;
    }
    Some(Span { start, end })
}

/// What a command asks for. Says on standard error what is wrong with its range.
fn asked_of(rt: &HostRuntime, matches: &ArgMatches) -> Option<Asked>
    ensures { IfSome result (λ asked. IfSome asked.range (λ range. range.start ≤ range.end)) }
{
    let what = What::named(matches.get_str("what")?)?;
    let range = match matches.get_str("range") {
        None => None,
        Some(text) => {
            let range = range_of(rt.alloc(), text);
            if range.is_none() {
                let _ = eprintln!(rt;
                    "error: invalid value for '--range <START:END>': not two addresses, of which the second is not below the first"
                );
                return None;
            }
            range
        }
    };
    let form = if matches.get_flag("json") {
        Form::Json
    } else {
        Form::Lines
    };
    Some(Asked {
        what,
        form,
        at: matches.get_one::<u64>("at"),
        range,
    })
}

/// Says on standard error that an input has no line with this number, and returns the exit status.
fn say_no_line(rt: &HostRuntime, name: &str, line: u64) -> u8
    ensures { result ≤ 4 }
{
    let _ = eprintln!(rt; "{name}: there is no line {line}");
    BAD_COMMAND_OR_SCRIPT
}

/// Runs a script up to a line, and writes what is there.
pub(crate) fn show(rt: &HostRuntime, matches: &ArgMatches) -> u8
    ensures { result ≤ 6 }
{
    let Some(cpus @ 1..=16) = matches.get_one::<u8>("cpus") else {
        return BAD_COMMAND_OR_SCRIPT;
    };
    let Some(asked) = asked_of(rt, matches) else {
        return BAD_COMMAND_OR_SCRIPT;
    };
    let given = given_by(matches);
    let Some(input) = open_input(rt, given) else {
        return READ_OR_WRITE_FAULT;
    };
    let mut reader = Bounded::new(input, MAX_LINE);
    reader.count_up_to(asked.at.unwrap_or(u64::MAX));
    let mut output = open_output(rt);
    let outcome = match asked.show_script(rt.alloc(), &mut reader, &mut output, cpus) {
        Ok(true) => Ok(()),
        Ok(false) => match (reader.too_long(), asked.at) {
            (Some(number), _) => Err(RunFault::Line(number)),
            (None, at) => return say_no_line(rt, reader.input().name(), at.unwrap_or(0)),
        },
        Err(fault) => Err(fault),
    };
    end_script(rt, given, &reader, &output, outcome)
}
