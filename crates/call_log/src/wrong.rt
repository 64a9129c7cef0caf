//! Why a line of a log is wrong. No reason borrows its text: functions that hand on references cost far more to prove.

use crate::head::HeadLine;
use crate::log_call::word_of;
use std::fmt;
use uffd_log::Call;

/// Why a line is wrong.
#[derive(Clone, Copy)]
pub(crate) enum Wrong {
    Plain(Flaw),
    Head(HeadFault),
    Call(CallFault),
    Descriptor(DescriptorFault),
    Number(NumberFault),
}

/// A fault of which no name and no number says more.
#[derive(Clone, Copy)]
pub(crate) enum Flaw {
    TooLong,
    NoLineFeed,
    NotPrintable,
    /// Its words are not divided by single blanks.
    Blanks,
    OtherLanguage,
    Version,
    PageSize,
    Clock,
    OtherAnswer,
    /// Its pages are not above those of the line before.
    NotHigher,
}

/// A fault of a line of the head.
#[derive(Clone, Copy)]
pub(crate) enum HeadFault {
    /// It is not where it must be.
    Missing(HeadLine),
    /// It has another number of words.
    Words(HeadLine),
    /// The log ends before it.
    Ends(HeadLine),
}

/// A fault of the time of a line, or of the call that it belongs to.
#[derive(Clone, Copy)]
pub(crate) enum CallFault {
    TimeBack { last: u64, time: u64 },
    StillOpen { number: u64, line: u32 },
    NotAbove { number: u64, last: u64 },
    NoCall(u64),
    OtherThread { number: u64, line: u32 },
    NoRead { number: u64, call: Call },
    NoScan { number: u64, call: Call },
    OutsideScan(u32),
}

/// A fault of a descriptor or an object.
#[derive(Clone, Copy)]
pub(crate) enum DescriptorFault {
    Unknown { fd: u32, object: u64 },
    Held { fd: u32, held: u64, object: u64 },
    Unclosed { fd: u32, held: u64 },
    Again(u64),
    Asked { wanted: u32, fd: u64 },
}

/// A fault of an address, a length or a count.
#[derive(Clone, Copy)]
pub(crate) enum NumberFault {
    NoPage {
        fields: Fields,
        addr: u64,
    },
    NoPages {
        fields: Fields,
        len: u64,
    },
    PastEnd(Fields),
    Count {
        count: u64,
        what: Counted,
        found: u64,
    },
    Room {
        count: u64,
        room: u64,
    },
}

/// Which fields of a line or of a call are wrong, with the line where the call begins.
#[derive(Clone, Copy)]
pub(crate) struct Fields {
    pub(crate) names: Names,
    pub(crate) line: Option<u32>,
}

/// The names of fields.
#[derive(Clone, Copy)]
pub(crate) enum Names {
    StartLength,
    StartEnd,
    FromLength,
    ToLength,
    DestinationLength,
    SourceLength,
    Address,
    /// What a map call returned.
    Returned,
}

/// What a call counts.
#[derive(Clone, Copy)]
pub(crate) enum Counted {
    Messages,
    Runs,
}

impl Flaw {
    fn text(self) -> &'static str {
        match self {
            Flaw::TooLong => "longer than 4096 bytes",
            Flaw::NoLineFeed => "no line feed: the log was cut here",
            Flaw::NotPrintable => "a byte that is not printable ASCII",
            Flaw::Blanks => "an empty line, or two blanks, or one at an end",
            Flaw::OtherLanguage => "not a line of the language",
            Flaw::Version => "the version of a recorder is a number",
            Flaw::PageSize => "a page size is a power of two, from 512",
            Flaw::Clock => "a clock is 'thread' or 'log'",
            Flaw::OtherAnswer => "an answer of another call's form",
            Flaw::NotHigher => "pages that are not above those of the line before",
        }
    }
}

impl Names {
    fn text(self) -> &'static str {
        match self {
            Names::StartLength => "START and LENGTH",
            Names::StartEnd => "START and END",
            Names::FromLength => "FROM and LENGTH",
            Names::ToLength => "TO and LENGTH",
            Names::DestinationLength => "DESTINATION and LENGTH",
            Names::SourceLength => "SOURCE and LENGTH",
            Names::Address => "ADDRESS",
            Names::Returned => "the address",
        }
    }
}

impl Counted {
    fn text(self) -> &'static str {
        match self {
            Counted::Messages => "messages",
            Counted::Runs => "have lines",
        }
    }
}

impl fmt::Display for Fields {
    fn fmt<W: fmt::Write>(&self, f: &mut fmt::Formatter<W>) -> fmt::Result {
        let names = self.names.text();
        match self.line {
            Some(line) => write!(f, "{names} of line {line}"),
            None => f.write_str(names),
        }
    }
}

impl fmt::Display for HeadFault {
    fn fmt<W: fmt::Write>(&self, f: &mut fmt::Formatter<W>) -> fmt::Result {
        match *self {
            HeadFault::Missing(line) => write!(f, "'{line}' has to be here"),
            HeadFault::Words(line) => write!(f, "'{line}' has another number of words"),
            HeadFault::Ends(line) => write!(f, "the log ends in its head: '{line}' is missing"),
        }
    }
}

impl fmt::Display for CallFault {
    fn fmt<W: fmt::Write>(&self, f: &mut fmt::Formatter<W>) -> fmt::Result {
        match *self {
            CallFault::TimeBack { last, time } => {
                write!(f, "time runs back, from {last} to {time}")
            }
            CallFault::StillOpen { number, line } => {
                write!(f, "call {number} is open since line {line}")
            }
            CallFault::NotAbove { number, last } => write!(
                f,
                "call {number} is not above the thread's last one, {last}"
            ),
            CallFault::NoCall(number) => {
                write!(f, "there is no open call {number} in this process")
            }
            CallFault::OtherThread { number, line } => {
                write!(f, "call {number} is another thread's, of line {line}")
            }
            CallFault::NoRead { number, call } => {
                let word = word_of(&call);
                write!(
                    f,
                    "a message of call {number}, which is no read but '{word}'"
                )
            }
            CallFault::NoScan { number, call } => {
                let word = word_of(&call);
                write!(f, "pages of call {number}, which is no scan but '{word}'")
            }
            CallFault::OutsideScan(line) => write!(f, "pages outside the scan of line {line}"),
        }
    }
}

impl fmt::Display for DescriptorFault {
    fn fmt<W: fmt::Write>(&self, f: &mut fmt::Formatter<W>) -> fmt::Result {
        match *self {
            DescriptorFault::Unknown { fd, object } => write!(
                f,
                "descriptor {fd}, object {object}, is not known in this process"
            ),
            DescriptorFault::Held { fd, held, object } => {
                write!(f, "descriptor {fd} is object {held}, and not {object}")
            }
            DescriptorFault::Unclosed { fd, held } => write!(
                f,
                "descriptor {fd} is object {held}, and nothing has closed it"
            ),
            DescriptorFault::Again(object) => write!(f, "object {object} was in the log before"),
            DescriptorFault::Asked { wanted, fd } => {
                write!(f, "descriptor {wanted} was asked for, and {fd} returned")
            }
        }
    }
}

impl fmt::Display for NumberFault {
    fn fmt<W: fmt::Write>(&self, f: &mut fmt::Formatter<W>) -> fmt::Result {
        match *self {
            NumberFault::NoPage { fields, addr } => {
                write!(f, "{fields}: 0x{addr:x} is not the address of a page")
            }
            NumberFault::NoPages { fields, len } => {
                write!(f, "{fields}: {len} bytes are not a number of pages")
            }
            NumberFault::PastEnd(fields) => {
                write!(f, "{fields}: the range ends past the address space")
            }
            NumberFault::Count { count, what, found } => {
                let what = what.text();
                write!(f, "{count} {what}, and there are {found}")
            }
            NumberFault::Room { count, room } => {
                write!(f, "{count} messages do not fit {room} bytes")
            }
        }
    }
}

impl fmt::Display for Wrong {
    fn fmt<W: fmt::Write>(&self, f: &mut fmt::Formatter<W>) -> fmt::Result {
        match self {
            Wrong::Plain(flaw) => f.write_str(flaw.text()),
            Wrong::Head(fault) => fault.fmt(f),
            Wrong::Call(fault) => fault.fmt(f),
            Wrong::Descriptor(fault) => fault.fmt(f),
            Wrong::Number(fault) => fault.fmt(f),
        }
    }
}
