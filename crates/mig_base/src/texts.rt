//! The texts of error numbers, replies, refusals, messages and effects, as `postmig run` prints them: their `Display`.

ghost use Rattle.std.specs.Prelude.{◌≡◌, ◌++◌, Some};
ghost use Rattle.mig_base.specs.Texts.{errno_name, reply_text, refusal_name, fault_text, state_text, side_text, event_text, effect_text};
ghost use Rattle.mig_base.specs.Tails.{tail_text};

use crate::effect::Effect;
use crate::phase::Received;
use crate::refusal::Refusal;
use crate::schedule::Side;
use crate::{Addr, Errno, Message, Reply};
use std::fmt;

impl fmt::Display for Errno {
    ghost output = { λ x. Some (errno_name x) };

    fn fmt<W: fmt::Write>(&self, f: &mut fmt::Formatter<W>) -> fmt::Result {
        match *self {
            Errno::Eperm => write!(f, "EPERM"),
            Errno::Enoent => write!(f, "ENOENT"),
            Errno::Eagain => write!(f, "EAGAIN"),
            Errno::Enomem => write!(f, "ENOMEM"),
            Errno::Efault => write!(f, "EFAULT"),
            Errno::Eexist => write!(f, "EEXIST"),
            Errno::Einval => write!(f, "EINVAL"),
        }
    }
}

impl fmt::Display for Reply {
    ghost output = { λ x. Some (reply_text x) };

    fn fmt<W: fmt::Write>(&self, f: &mut fmt::Formatter<W>) -> fmt::Result {
        match *self {
            Reply::Value(value) => write!(f, "value 0x{value:x}"),
            Reply::Done => write!(f, "done"),
            Reply::At(addr) => write!(f, "at 0x{addr:x}"),
            Reply::Segv { mapped: false } => write!(f, "segv unmapped"),
            Reply::Segv { mapped: true } => write!(f, "segv protected"),
            Reply::BadAccess => write!(f, "bad access"),
            Reply::Refused(errno) => write!(f, "refused {errno}"),
        }
    }
}

/// The name of a refusal.
fn name_of(refusal: Refusal) -> &'static str
    ensures { result.now ≡ refusal_name refusal }
{
    match refusal {
        Refusal::NoCpu => "NoCpu",
        Refusal::Busy => "Busy",
        Refusal::NotAsleep => "NotAsleep",
        Refusal::NotWoken => "NotWoken",
        Refusal::Phase => "Phase",
        Refusal::Broken => "Broken",
        Refusal::NotBroken => "NotBroken",
        Refusal::StaleEpoch => "StaleEpoch",
        Refusal::NothingThere => "NothingThere",
        Refusal::Changing => "Changing",
        Refusal::InstallFirst => "InstallFirst",
        Refusal::UrgentFirst => "UrgentFirst",
        Refusal::PageNotSendable => "PageNotSendable",
        Refusal::NotRemaining => "NotRemaining",
        Refusal::PagesLeft => "PagesLeft",
        Refusal::CountUsed => "CountUsed",
        Refusal::NoMemory => "NoMemory",
    }
}

impl fmt::Display for Refusal {
    ghost output = { λ x. Some (refusal_name x) };

    fn fmt<W: fmt::Write>(&self, f: &mut fmt::Formatter<W>) -> fmt::Result {
        f.write_str(name_of(*self))
    }
}

/// The kind of a page fault: whether it is a write-protect fault.
fn kind_of(wp: bool) -> &'static str
    ensures { result.now ≡ fault_text wp }
{
    match wp {
        false => "missing",
        true => "write-protect",
    }
}

/// How far a destination has come.
fn state_of(received: Received) -> &'static str
    ensures { result.now ≡ state_text received }
{
    match received {
        Received::NotRun => "notrun",
        Received::Running => "running",
        Received::Ended => "ended",
    }
}

impl fmt::Display for Received {
    ghost output = { λ x. Some (state_text x) };

    fn fmt<W: fmt::Write>(&self, f: &mut fmt::Formatter<W>) -> fmt::Result {
        f.write_str(state_of(*self))
    }
}

/// A side of the channel.
fn name_of_side(side: Side) -> &'static str
    ensures { result.now ≡ side_text side }
{
    match side {
        Side::Source => "source",
        Side::Destination => "dest",
    }
}

impl fmt::Display for Side {
    ghost output = { λ x. Some (side_text x) };

    fn fmt<W: fmt::Write>(&self, f: &mut fmt::Formatter<W>) -> fmt::Result {
        f.write_str(name_of_side(*self))
    }
}

impl fmt::Display for Message {
    ghost output = { λ x. Some (event_text x) };

    fn fmt<W: fmt::Write>(&self, f: &mut fmt::Formatter<W>) -> fmt::Result {
        match *self {
            Message::PageFault { addr, wp, .. } => {
                let kind = kind_of(wp);
                write!(f, "fault 0x{addr:x} {kind}")
            }
            Message::Remap { from, to, len } => write!(f, "remap 0x{from:x} 0x{to:x} {len}"),
            Message::Remove { start, end } => write!(f, "remove 0x{start:x} 0x{end:x}"),
            Message::Unmap { start, end } => write!(f, "unmap 0x{start:x} 0x{end:x}"),
        }
    }
}

/// What follows the first words of an effect's text. If it begins with an address, its `0x` belongs to those words.
#[derive(Clone, Copy)]
enum Tail {
    Nothing,
    Number(u64),
    Address(Addr),
    Pages {
        addr: Addr,
        pages: u32,
    },
    Reply {
        cpu: u8,
        reply: Reply,
    },
    Asleep {
        cpu: u8,
    },
    InCall {
        cpu: u8,
        messages: u8,
    },
    Round {
        round: u32,
        todo: u32,
    },
    Fault {
        addr: Addr,
        wp: bool,
    },
    Event(Message),
    Last {
        event: Message,
        cpu: u8,
        reply: Reply,
    },
    Requested {
        origin: Addr,
        addr: Addr,
    },
    Switched {
        discard: u32,
        owed: u32,
    },
    Installed {
        addr: Addr,
        origin: Addr,
    },
    Received {
        state: Received,
        pages: u32,
    },
    Side(Side),
}

/// The first words of an effect's text, and what follows them.
fn parts_of(effect: &Effect) -> (&'static str, Tail)
    ensures { effect_text effect.now ≡ result.0.now ++ tail_text result.1 }
{
    match *effect {
        Effect::Answered { cpu, reply } => ("cpu ", Tail::Reply { cpu, reply }),
        Effect::Asleep { cpu } => ("cpu ", Tail::Asleep { cpu }),
        Effect::InCall { cpu, messages } => ("cpu ", Tail::InCall { cpu, messages }),
        Effect::Started { epoch } => ("started epoch ", Tail::Number(u64::from(epoch))),
        Effect::RoundMade { round, todo } => ("round ", Tail::Round { round, todo }),
        Effect::SentPage { addr } => ("sent page 0x", Tail::Address(addr)),
        Effect::SentZero { addr } => ("sent zero 0x", Tail::Address(addr)),
        Effect::SentRun { addr, pages } => ("sent run 0x", Tail::Pages { addr, pages }),
        Effect::ReadFault { addr, wp } => ("read fault 0x", Tail::Fault { addr, wp }),
        Effect::ReadEvent { event } => ("read ", Tail::Event(event)),
        Effect::ReadLast { event, cpu, reply } => ("read ", Tail::Last { event, cpu, reply }),
        Effect::Unprotected { addr } => ("unprotected 0x", Tail::Address(addr)),
        Effect::Zeroed { addr } => ("zeroed 0x", Tail::Address(addr)),
        Effect::Woke { addr } => ("woke 0x", Tail::Address(addr)),
        Effect::Forgot { addr } => ("forgot 0x", Tail::Address(addr)),
        Effect::Requested { origin, addr } => ("requested 0x", Tail::Requested { origin, addr }),
        Effect::Switched { discard, owed } => (
            "switched discard ",
            Tail::Switched { discard, owed },
        ),
        Effect::Moved { bytes } => ("moved ", Tail::Number(bytes)),
        Effect::TookAdvise => ("took advise", Tail::Nothing),
        Effect::TookPage { addr } => ("took page 0x", Tail::Address(addr)),
        Effect::TookZero { addr } => ("took zero 0x", Tail::Address(addr)),
        Effect::TookRun { addr, pages } => ("took run 0x", Tail::Pages { addr, pages }),
        Effect::TookDiscard { pages } => ("took discard ", Tail::Number(u64::from(pages))),
        Effect::TookPackage { owed } => ("took package owed ", Tail::Number(u64::from(owed))),
        Effect::TookEnd => ("took end", Tail::Nothing),
        Effect::TookResume => ("took resume", Tail::Nothing),
        Effect::TookRequest { addr } => ("took request 0x", Tail::Address(addr)),
        Effect::TookRecv { state, pages } => ("took recv ", Tail::Received { state, pages }),
        Effect::TookDone => ("took done", Tail::Nothing),
        Effect::Installed { addr, origin } => ("installed 0x", Tail::Installed { addr, origin }),
        Effect::Dropped { origin } => ("dropped 0x", Tail::Address(origin)),
        Effect::Asked { addr } => ("asked 0x", Tail::Address(addr)),
        Effect::EndSent => ("end sent", Tail::Nothing),
        Effect::Broken => ("broken", Tail::Nothing),
        Effect::Noticed { side } => ("paused ", Tail::Side(side)),
        Effect::Resumed { epoch } => ("resumed epoch ", Tail::Number(u64::from(epoch))),
    }
}

impl fmt::Display for Tail {
    ghost output = { λ x. Some (tail_text x) };

    fn fmt<W: fmt::Write>(&self, f: &mut fmt::Formatter<W>) -> fmt::Result {
        match *self {
            Tail::Nothing => Ok(()),
            Tail::Number(number) => write!(f, "{number}"),
            Tail::Address(addr) => write!(f, "{addr:x}"),
            Tail::Pages { addr, pages } => write!(f, "{addr:x} {pages}"),
            Tail::Reply { cpu, reply } => write!(f, "{cpu} {reply}"),
            Tail::Asleep { cpu } => write!(f, "{cpu} asleep"),
            Tail::InCall { cpu, messages } => write!(f, "{cpu} in call {messages}"),
            Tail::Round { round, todo } => write!(f, "{round} todo {todo}"),
            Tail::Fault { addr, wp } => {
                let kind = kind_of(wp);
                write!(f, "{addr:x} {kind}")
            }
            Tail::Event(event) => write!(f, "{event}"),
            Tail::Last { event, cpu, reply } => write!(f, "{event}, cpu {cpu} {reply}"),
            Tail::Requested { origin, addr } => write!(f, "{origin:x} for 0x{addr:x}"),
            Tail::Switched { discard, owed } => write!(f, "{discard} owed {owed}"),
            Tail::Installed { addr, origin } => write!(f, "{addr:x} from 0x{origin:x}"),
            Tail::Received { state, pages } => write!(f, "{state} {pages}"),
            Tail::Side(side) => write!(f, "{side}"),
        }
    }
}

impl fmt::Display for Effect {
    ghost output = { λ x. Some (effect_text x) };

    fn fmt<W: fmt::Write>(&self, f: &mut fmt::Formatter<W>) -> fmt::Result {
        let (words, tail) = parts_of(self);
        write!(f, "{words}{tail}")
    }
}
