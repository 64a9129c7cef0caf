//! The forms of lines.

use crate::wanted::Wanted;
use grammar::Language;
use std::fmt;

/// What may be at the end of a line, or not.
#[derive(Clone, Copy)]
pub(crate) enum Tail {
    Nothing,
    Number(Wanted),
    Place,
    Target,
}

/// What follows a first word, of a line or of a reply.
#[derive(Clone, Copy)]
pub(crate) struct Form {
    /// How the line is written.
    pub(crate) usage: &'static str,
    pub(crate) words: &'static [Wanted],
    pub(crate) tail: Tail,
}

/// A first word, how its line is written, and what follows it.
type Row = (&'static [u8], &'static str, &'static [Wanted], Tail);

/// The lines of a script without a processor.
static ORDERS: [Row; 22] = [
    (b"start", "start", &[], Tail::Nothing),
    (b"round", "round", &[], Tail::Nothing),
    (b"send", "send", &[], Tail::Nothing),
    (b"sread", "sread", &[], Tail::Nothing),
    (b"sact", "sact", &[], Tail::Nothing),
    (b"switch", "switch", &[], Tail::Nothing),
    (b"dread", "dread", &[], Tail::Nothing),
    (b"dact", "dact", &[], Tail::Nothing),
    (b"install", "install", &[], Tail::Nothing),
    (b"serve", "serve", &[], Tail::Nothing),
    (b"end", "end", &[], Tail::Nothing),
    (b"break", "break", &[], Tail::Nothing),
    (b"resume", "resume", &[], Tail::Nothing),
    (b"progress", "progress", &[], Tail::Nothing),
    (b"retry", "retry K", &[Wanted::Cpu], Tail::Nothing),
    (b"sendrun", "sendrun N", &[Wanted::Count], Tail::Nothing),
    (
        b"notice",
        "notice source|dest",
        &[Wanted::Side],
        Tail::Nothing,
    ),
    (b"deliver", "deliver [N]", &[], Tail::Number(Wanted::Bytes)),
    (b"back", "back [N]", &[], Tail::Number(Wanted::Bytes)),
    (
        b"udeliver",
        "udeliver [N]",
        &[],
        Tail::Number(Wanted::Bytes),
    ),
    (
        b"push",
        "push ADDR [EPOCH]",
        &[Wanted::Page],
        Tail::Number(Wanted::Epoch),
    ),
    (
        b"upush",
        "upush ADDR [EPOCH]",
        &[Wanted::Page],
        Tail::Number(Wanted::Epoch),
    ),
];

/// The commands of a processor.
static COMMANDS: [Row; 6] = [
    (
        b"load",
        "load ADDR WIDTH",
        &[Wanted::Addr, Wanted::Width],
        Tail::Nothing,
    ),
    (
        b"store",
        "store ADDR WIDTH VALUE",
        &[Wanted::Addr, Wanted::Width, Wanted::Value],
        Tail::Nothing,
    ),
    (
        b"mmap",
        "mmap LEN PROT [fixed|noreplace ADDR]",
        &[Wanted::Len, Wanted::Protection],
        Tail::Place,
    ),
    (
        b"munmap",
        "munmap ADDR LEN",
        &[Wanted::Addr, Wanted::Len],
        Tail::Nothing,
    ),
    (
        b"mremap",
        "mremap ADDR OLD NEW [maymove] [fixed ADDR]",
        &[Wanted::Addr, Wanted::OldLen, Wanted::NewLen],
        Tail::Target,
    ),
    (
        b"dontneed",
        "dontneed ADDR LEN",
        &[Wanted::Addr, Wanted::Len],
        Tail::Nothing,
    ),
];

static REPLIES: [Row; 6] = [
    (b"done", "done", &[], Tail::Nothing),
    (b"value", "value VALUE", &[Wanted::Value], Tail::Nothing),
    (b"at", "at ADDR", &[Wanted::Addr], Tail::Nothing),
    (
        b"segv",
        "segv unmapped|protected",
        &[Wanted::Segv],
        Tail::Nothing,
    ),
    (b"bad", "bad access", &[Wanted::Access], Tail::Nothing),
    (b"refused", "refused ERRNO", &[Wanted::Errno], Tail::Nothing),
];

/// The form of the row that has this first word.
fn find(rows: &[Row], word: &[u8]) -> Option<Form> {
    for (first, usage, words, tail) in rows {
        if *first == word {
            return Some(Form {
                usage,
                words,
                tail: *tail,
            });
        }
    }
    None
}

/// The form of the line of a script that begins with this word.
pub(crate) fn order_form(word: &[u8]) -> Option<Form> {
    find(&ORDERS, word)
}

/// The form of the command that begins with this word.
pub(crate) fn command_form(word: &[u8]) -> Option<Form> {
    find(&COMMANDS, word)
}

/// The form of the reply that begins with this word.
pub(crate) fn reply_form(word: &[u8]) -> Option<Form> {
    find(&REPLIES, word)
}

/// How a line or a reply is written: this text, between others.
#[derive(Clone, Copy)]
pub(crate) struct Usage {
    front: &'static str,
    text: &'static str,
    end: &'static str,
}

impl Usage {
    /// That of an order.
    pub(crate) fn order(text: &'static str) -> Usage {
        Usage {
            front: "the line is `",
            text,
            end: "`",
        }
    }

    /// That of a command, in a script or a transcript.
    pub(crate) fn command(language: Language, text: &'static str) -> Usage {
        let (front, end) = match language {
            Language::Script => ("the line is `cpu K ", "`"),
            Language::Transcript => ("the line is `K ", " => REPLY`"),
        };
        Usage { front, text, end }
    }

    pub(crate) fn reply(text: &'static str) -> Usage {
        Usage {
            front: "the reply is `",
            text,
            end: "`",
        }
    }
}

impl fmt::Display for Usage {
    fn fmt<W: fmt::Write>(&self, f: &mut fmt::Formatter<W>) -> fmt::Result {
        let Usage { front, text, end } = *self;
        write!(f, "{front}{text}{end}")
    }
}
