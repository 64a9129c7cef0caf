//! Going over the words of a line, up to the first that is wrong.

use crate::form::{Form, Tail, Usage, command_form, order_form, reply_form};
use crate::line_words::{Word, Words};
use crate::near::{in_other_case, meant, nearest};
use crate::number::{is_meant, number_fault};
use crate::problem::Problem;
use crate::reason::Fault;
use crate::wanted::Wanted;
use grammar::Language;

const COMMENT: Problem = Problem::Plain("a comment stands on a line of its own");

const ANSWER: Problem = Problem::Plain(
    "`=>` begins an answer: it has a space on both sides, and only `postmig test` reads it",
);

/// Why a word is not what is wanted, where it is none of its words and no number.
fn unexpected(word: &[u8], wanted: Wanted) -> Problem {
    if let [b'#', ..] = word {
        return COMMENT;
    }
    let choices = wanted.choices();
    if let Some(right) = in_other_case(word, choices) {
        return Problem::Case(right);
    }
    match meant(word, choices) {
        Some(near) => Problem::Near {
            wanted,
            front: "",
            near,
        },
        None => Problem::Unexpected(wanted),
    }
}

/// Why a word, which begins no order, is not the first word of a script line.
fn first_problem(word: &[u8]) -> Problem {
    if nearest(word, Wanted::Order.choices(), 1).is_some() {
        return unexpected(word, Wanted::Order);
    }
    match nearest(word, Wanted::Command.choices(), 1) {
        Some(near) => Problem::Near {
            wanted: Wanted::Order,
            front: "cpu K ",
            near,
        },
        None => unexpected(word, Wanted::Order),
    }
}

/// Why a word is not what is wanted.
fn problem_of(word: &[u8], wanted: Wanted) -> Option<Problem> {
    if wanted.admits(word) {
        return None;
    }
    if wanted.is_number() && is_meant(word) {
        let fault = number_fault(word, wanted)?;
        return Some(Problem::Number(fault));
    }
    Some(unexpected(word, wanted))
}

/// Takes the next word, which has to be what is wanted.
fn take<'a>(words: &mut Words<'a>, wanted: Wanted, usage: Usage) -> Result<Word<'a>, Fault> {
    match take_any(words, wanted)? {
        Some(word) => Ok(word),
        None => Err(Fault::at(words.after, Problem::Missing { wanted, usage })),
    }
}

/// Takes the next word, if there is one, which has to be what is wanted.
fn take_any<'a>(words: &mut Words<'a>, wanted: Wanted) -> Result<Option<Word<'a>>, Fault> {
    let Some(word) = words.next() else {
        return Ok(None);
    };
    match problem_of(word.text, wanted) {
        None => Ok(Some(word)),
        Some(problem) => Err(Fault::of(word, problem)),
    }
}

/// A word is where nothing more may be.
fn extra(word: Word<'_>, usage: Usage) -> Fault {
    let problem = match word.text {
        [b'#', ..] => COMMENT,
        [b'=', b'>'] => ANSWER,
        _ => Problem::Extra(usage),
    };
    Fault::of(word, problem)
}

/// Nothing more may be here.
fn take_end(words: &mut Words<'_>, usage: Usage) -> Result<(), Fault> {
    match words.next() {
        Some(word) => Err(extra(word, usage)),
        None => Ok(()),
    }
}

/// The words for the target of a move.
fn take_target(words: &mut Words<'_>, usage: Usage) -> Result<(), Fault> {
    let Some(word) = take_any(words, Wanted::Target)? else {
        return Ok(());
    };
    if !word.is(b"maymove") {
        return take_fixed(words, word, usage);
    }
    match take_any(words, Wanted::Target)? {
        Some(word) => take_fixed(words, word, usage),
        None => Ok(()),
    }
}

/// The address after a word, which must be `fixed`.
fn take_fixed(words: &mut Words<'_>, word: Word<'_>, usage: Usage) -> Result<(), Fault> {
    if !word.is(b"fixed") {
        return Err(extra(word, usage));
    }
    take(words, Wanted::Addr, usage)?;
    reject_maymove(*words, usage)
}

/// After `fixed` and its address, `maymove` comes too late.
fn reject_maymove(words: Words<'_>, usage: Usage) -> Result<(), Fault> {
    if let Some(word) = words.peek() {
        if word.is(b"maymove") {
            let text = "`maymove` stands before `fixed`";
            return Err(Fault::at(word.column, Problem::Order { text, usage }));
        }
    }
    Ok(())
}

/// The words for the place of a new mapping.
fn take_place(words: &mut Words<'_>, usage: Usage) -> Result<(), Fault> {
    if take_any(words, Wanted::Place)?.is_some() {
        take(words, Wanted::Addr, usage)?;
    }
    Ok(())
}

/// What may be at the end of a line.
fn take_tail(words: &mut Words<'_>, tail: Tail, usage: Usage) -> Result<(), Fault> {
    match tail {
        Tail::Nothing => Ok(()),
        Tail::Number(wanted) => {
            take_any(words, wanted)?;
            Ok(())
        }
        Tail::Place => take_place(words, usage),
        Tail::Target => take_target(words, usage),
    }
}

/// The words of a form, and nothing more.
fn take_form(words: &mut Words<'_>, form: Form, usage: Usage) -> Result<(), Fault> {
    for wanted in form.words {
        take(words, *wanted, usage)?;
    }
    take_tail(words, form.tail, usage)?;
    take_end(words, usage)
}

/// A command, and nothing more.
fn take_command(words: &mut Words<'_>, language: Language) -> Result<(), Fault> {
    let word = take(words, Wanted::Command, Usage::command(language, "COMMAND"))?;
    match command_form(word.text) {
        Some(form) => take_form(words, form, Usage::command(language, form.usage)),
        None => Ok(()),
    }
}

/// A processor with its command, and nothing more.
fn take_processor(words: &mut Words<'_>) -> Result<(), Fault> {
    let usage = Usage::command(Language::Script, "COMMAND");
    take(words, Wanted::Cpu, usage)?;
    take_command(words, Language::Script)
}

/// Why a word begins no order.
fn order_problem(word: &[u8]) -> Problem {
    match command_form(word) {
        Some(form) => Problem::Order {
            text: "`cpu` and K are missing",
            usage: Usage::command(Language::Script, form.usage),
        },
        None => first_problem(word),
    }
}

/// An order, and nothing more.
fn take_order(words: &mut Words<'_>) -> Result<(), Fault> {
    let Some(word) = words.next() else {
        return Ok(());
    };
    if word.is(b"cpu") {
        return take_processor(words);
    }
    match order_form(word.text) {
        Some(form) => take_form(words, form, Usage::order(form.usage)),
        None => Err(Fault::of(word, order_problem(word.text))),
    }
}

/// Why the words of a line are no order; none if they are.
pub(crate) fn order_fault(line: &[u8]) -> Option<Fault> {
    let mut words = Words::new(line, 0);
    take_order(&mut words).err()
}

/// The processor with which an entry begins.
fn take_cpu(words: &mut Words<'_>) -> Result<(), Fault> {
    if let Some(word) = words.peek() {
        if word.is(b"cpu") {
            let text = "a line of a transcript begins with K, without `cpu`";
            return Err(Fault::at(word.column, Problem::Plain(text)));
        }
    }
    take(
        words,
        Wanted::Cpu,
        Usage::command(Language::Transcript, "COMMAND"),
    )?;
    Ok(())
}

/// A reply, and nothing more.
fn take_reply(words: &mut Words<'_>) -> Result<(), Fault> {
    let usage = Usage::command(Language::Transcript, "COMMAND");
    let word = take(words, Wanted::Reply, usage)?;
    match reply_form(word.text) {
        Some(form) => take_form(words, form, Usage::reply(form.usage)),
        None => Ok(()),
    }
}

/// A line of a transcript without `=>`.
fn take_command_alone(words: &mut Words<'_>, len: usize) -> Result<(), Fault> {
    take_cpu(words)?;
    let usage = Usage::command(Language::Transcript, "COMMAND");
    let word = take(words, Wanted::Command, usage)?;
    let usage = match command_form(word.text) {
        Some(form) => Usage::command(Language::Transcript, form.usage),
        None => usage,
    };
    let problem = Problem::Missing {
        wanted: Wanted::Arrow,
        usage,
    };
    Err(Fault::at(len.saturating_add(1), problem))
}

/// What comes before the first `=>`, and what comes after it.
fn around_arrow(line: &[u8]) -> Option<(&[u8], &[u8])> {
    let mut rest = line;
    for at in 0..line.len() {
        match rest {
            [b'=', b'>', back @ ..] => return Some((&line[..at], back)),
            [_, behind @ ..] => rest = behind,
            [] => return None,
        }
    }
    None
}

/// Whether `=>` is by itself between these parts of a line.
fn is_apart(front: &[u8], back: &[u8]) -> bool {
    match (front, back) {
        ([.., b' '], [] | [b' ', ..]) => true,
        _ => false,
    }
}

/// The parts of an entry.
fn take_entry(line: &[u8]) -> Result<(), Fault> {
    let Some((front, back)) = around_arrow(line) else {
        let mut words = Words::new(line, 0);
        return take_command_alone(&mut words, line.len());
    };
    let at = front.len();
    if !is_apart(front, back) {
        let problem = Problem::Plain("`=>` has a space on both sides");
        return Err(Fault::at(at.saturating_add(1), problem));
    }
    let mut words = Words::new(front, 0);
    take_cpu(&mut words)?;
    take_command(&mut words, Language::Transcript)?;
    let mut words = Words::new(back, at.saturating_add(2));
    take_reply(&mut words)
}

/// Why the words of a line are no entry; none if they are.
pub(crate) fn entry_fault(line: &[u8]) -> Option<Fault> {
    take_entry(line).err()
}
