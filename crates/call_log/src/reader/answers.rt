//! Whether an answer is one of its call, and what is wrong with the numbers of a call that succeeded.

use crate::log_call::LogCall;
use crate::pages::PageSize;
use crate::wrong::{Counted, Fields, Flaw, Names, NumberFault, Wrong};
use uffd_log::{Answer, Call, Descriptor, Message};

/// The bytes of a `struct uffd_msg`.
const MESSAGE_BYTES: u64 = 32;

/// The descriptor that a call uses.
pub(crate) fn descriptor_of(call: &Call) -> Option<Descriptor> {
    match *call {
        Call::Api { on, .. } | Call::Register { on, .. } | Call::Unregister { on, .. } => Some(on),
        Call::Wake { on, .. } | Call::Copy { on, .. } | Call::Move { on, .. } => Some(on),
        Call::ZeroPage { on, .. } | Call::Continue { on, .. } | Call::Poison { on, .. } => Some(on),
        Call::WriteProtect { on, .. } | Call::Read { on, .. } | Call::Poll { on } => Some(on),
        Call::NonBlock { on, .. } | Call::Dup { on, .. } | Call::Close { on } => Some(on),
        Call::Scan { on, .. } => Some(on),
        _ => None,
    }
}

/// Whether an answer has the form of those of a call.
fn is_answer_of(call: &Call, answer: Answer) -> bool {
    match answer {
        Answer::Interrupted => true,
        Answer::Failed { bytes: None, .. } => true,
        Answer::Failed { bytes: Some(_), .. } | Answer::Minus(_) => counts_bytes(call),
        Answer::Opened(_) => matches!(*call, Call::Open { .. }),
        Answer::Features { .. } => matches!(*call, Call::Api { .. }),
        Answer::Done => returns_nothing(call),
        Answer::Value(n) => counts_bytes(call) || returns_number(call) || returns_small(call, n),
    }
}

/// Whether a call returns how many bytes it has done.
fn counts_bytes(call: &Call) -> bool {
    match *call {
        Call::Copy { .. } | Call::Move { .. } | Call::ZeroPage { .. } => true,
        Call::Continue { .. } | Call::Poison { .. } => true,
        _ => false,
    }
}

fn returns_nothing(call: &Call) -> bool {
    match *call {
        Call::Unregister { .. } | Call::Wake { .. } | Call::WriteProtect { .. } => true,
        Call::NonBlock { .. } | Call::Close { .. } | Call::Munmap { .. } | Call::Madvise { .. } =>
            true,
        _ => false,
    }
}

fn returns_number(call: &Call) -> bool {
    match *call {
        Call::Register { .. } | Call::Poll { .. } | Call::Mmap { .. } | Call::Mremap { .. } => true,
        _ => false,
    }
}

/// Whether a call returns a number that fits an `int`, as this one.
fn returns_small(call: &Call, n: u64) -> bool {
    match *call {
        Call::Read { .. } | Call::Dup { .. } | Call::Scan { .. } | Call::Fork => n < 1 << 31,
        _ => false,
    }
}

/// What is wrong with an address, which is to be one where a page begins.
fn check_page(size: PageSize, addr: u64, fields: Fields) -> Option<Wrong> {
    if size.is_start(addr) {
        None
    } else {
        Some(Wrong::Number(NumberFault::NoPage { fields, addr }))
    }
}

/// What is wrong with a range, which is to be one of pages.
pub(crate) fn check_range(size: PageSize, start: u64, len: u64, fields: Fields) -> Option<Wrong> {
    if !size.is_start(start) {
        return Some(Wrong::Number(NumberFault::NoPage {
            fields,
            addr: start,
        }));
    }
    if len == 0 || !size.is_start(len) {
        return Some(Wrong::Number(NumberFault::NoPages { fields, len }));
    }
    if size.is_range(start, len) {
        None
    } else {
        Some(Wrong::Number(NumberFault::PastEnd(fields)))
    }
}

/// What is wrong with the range between two addresses.
fn check_between(size: PageSize, start: u64, end: u64) -> Option<Wrong> {
    let fields = Fields {
        names: Names::StartEnd,
        line: None,
    };
    check_range(size, start, end.saturating_sub(start), fields)
}

/// What is wrong with the addresses of a message.
pub(crate) fn check_message(size: PageSize, message: &Message) -> Option<Wrong> {
    match *message {
        Message::Fault { .. } | Message::Fork { .. } => None,
        Message::Remove { start, end } | Message::Unmap { start, end } => check_between(
            size, start, end,
        ),
        Message::Remap { from, to, len } => {
            let names = Fields {
                names: Names::FromLength,
                line: None,
            };
            if let Some(wrong) = check_range(size, from, len, names) {
                return Some(wrong);
            }
            let names = Fields {
                names: Names::ToLength,
                line: None,
            };
            check_range(size, to, len, names)
        }
    }
}

/// What is wrong with the answer of a call that has this number of messages or of runs of pages.
pub(crate) fn check_answer(
    size: PageSize,
    call: &LogCall,
    answer: Answer,
    found: u32,
) -> Option<Wrong> {
    if !is_answer_of(&call.call, answer) {
        return Some(Wrong::Plain(Flaw::OtherAnswer));
    }
    if !call.is_ok() {
        return None;
    }
    match call.call {
        Call::Read { room, .. } => check_read(call, room, found),
        Call::Scan { start, len, .. } => match check_ioctl(
            size,
            call,
            start,
            len,
            Names::StartLength,
        ) {
            Some(wrong) => Some(wrong),
            None => check_count(call, Counted::Runs, found),
        },
        Call::Mmap { .. } => check_returned(size, call),
        Call::Mremap { addr, .. } => match check_named(size, call, addr) {
            Some(wrong) => Some(wrong),
            None => check_returned(size, call),
        },
        Call::Munmap { addr, .. } | Call::Madvise { addr, .. } => check_named(size, call, addr),
        Call::Copy { to, len, .. } => check_ioctl(size, call, to, len, Names::DestinationLength),
        Call::Move { to, from, len, .. } => match check_ioctl(
            size,
            call,
            to,
            len,
            Names::DestinationLength,
        ) {
            Some(wrong) => Some(wrong),
            None => check_ioctl(size, call, from, len, Names::SourceLength),
        },
        _ => match call.bytes() {
            Some((start, len)) => check_ioctl(size, call, start, len, Names::StartLength),
            None => None,
        },
    }
}

fn check_ioctl(
    size: PageSize,
    call: &LogCall,
    start: u64,
    len: u64,
    names: Names,
) -> Option<Wrong> {
    check_range(
        size,
        start,
        len,
        Fields {
            names,
            line: Some(call.begin),
        },
    )
}

fn check_named(size: PageSize, call: &LogCall, addr: u64) -> Option<Wrong> {
    check_page(
        size,
        addr,
        Fields {
            names: Names::Address,
            line: Some(call.begin),
        },
    )
}

/// The address that a map call returned.
fn check_returned(size: PageSize, call: &LogCall) -> Option<Wrong> {
    let addr = call.value()?;
    check_page(
        size,
        addr,
        Fields {
            names: Names::Returned,
            line: None,
        },
    )
}

/// The number of lines that belong to a call.
fn check_count(call: &LogCall, what: Counted, found: u32) -> Option<Wrong> {
    let count = call.value()?;
    let found = u64::from(found);
    if count == found {
        None
    } else {
        Some(Wrong::Number(NumberFault::Count { count, what, found }))
    }
}

fn check_read(call: &LogCall, room: Option<u64>, found: u32) -> Option<Wrong> {
    if let Some(wrong) = check_count(call, Counted::Messages, found) {
        return Some(wrong);
    }
    let count = call.value()?;
    let room = room.unwrap_or(0);
    if count.saturating_mul(MESSAGE_BYTES) > room {
        Some(Wrong::Number(NumberFault::Room { count, room }))
    } else {
        None
    }
}
