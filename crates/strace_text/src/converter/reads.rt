//! Reads of messages, and poll.

use super::Converter;
use crate::files::{Held, On};
use crate::flags::{Names, flags};
use crate::number::{bracketed, decimal, descriptor_at, number};
use crate::plan::{After, Plan, answer, simple};
use crate::quoted::all_strings;
use crate::stop::{Shown, Stop, refuse, refused};
use crate::text::{Class, first_word, front, rsplit_once, split_at_byte, split_once};
use crate::traced::Traced;
use std::alloc::Global;

/// The size of a message, `struct uffd_msg`.
const MESSAGE_BYTES: usize = 32;

/// The first byte of the message of a fork.
const FORK: u8 = 0x13;

/// The messages that a call has read, and the descriptors that came with them.
#[derive(Drop)]
struct Messages {
    said: Vec<String>,
    made: Vec<Held>,
}

/// The last argument of a call, if it is decimal digits after another one.
fn last_number(arguments: &[u8]) -> Option<&[u8]> {
    let (_, last) = rsplit_once(arguments, b", ")?;
    if last.is_empty() || !Class::Digit.has_all(last) {
        return None;
    }
    Some(last)
}

/// The sum of the lengths of a readv, if it is below 2^64.
fn sum_of_lengths(arguments: &[u8]) -> Option<u64> {
    let mut sum: u64 = 0;
    let mut rest = arguments;
    for _ in 0..arguments.len() {
        let Some((_, after)) = split_once(rest, b"iov_len=") else {
            break;
        };
        let (digits, _) = front(after, Class::Digit);
        if !digits.is_empty() {
            sum = sum.checked_add(decimal(digits)?)?;
        }
        rest = after;
    }
    Some(sum)
}

/// A number of eight bytes of a message.
fn word_at(message: &[u8], at: usize) -> u64 {
    let mut value: u64 = 0;
    let bytes = message.get(at..at.saturating_add(8));
    for byte in bytes.unwrap_or(b"".as_slice()).iter().rev() {
        value = (value << 8) | u64::from(*byte);
    }
    value
}

/// The bytes that a read has returned, of its strings or of a dump: those of whole messages.
fn bytes_of(alloc: Global, call: &Traced) -> Result<Vec<u8>, Stop> {
    let count = number(alloc, first_word(&call.returned))?;
    let wanted = usize::try_from(count).unwrap_or(usize::MAX);
    let mut bytes = all_strings(alloc, &call.arguments)?;
    if bytes.len() < wanted && call.dump.len() >= wanted {
        bytes = Vec::from_slice(alloc, &call.dump)?;
    }
    let found = bytes.len();
    if found < wanted {
        return Err(refused(format!(in alloc;
            "of {count} bytes {found} are in the trace: a larger -s is needed"
        )));
    }
    if wanted % MESSAGE_BYTES != 0 {
        return Err(refused(format!(in alloc; "{wanted} bytes are no messages")));
    }
    bytes.truncate(wanted);
    Ok(bytes)
}

/// The bits of what a poll has found at a descriptor.
fn events_at(alloc: Global, returned: &[u8], fd: u64) -> Result<u64, Stop> {
    let front = format!(in alloc; "{{fd={fd}")?;
    let mut rest = returned;
    for _ in 0..returned.len() {
        let Some((_, after)) = split_once(rest, front.as_bytes()) else {
            break;
        };
        if let Some(events) = events_of(after) {
            return flags(alloc, events, Names::Events);
        }
        rest = after;
    }
    Ok(0)
}

/// The events after a descriptor's number.
fn events_of(text: &[u8]) -> Option<&[u8]> {
    let text = match bracketed(text) {
        Some((_, after)) => after,
        None => text,
    };
    let (events, _) = split_at_byte(text.strip_prefix(b", revents=")?, b'}')?;
    if events.is_empty() || !Class::Events.has_all(events) {
        return None;
    }
    Some(events)
}

/// What comes after the descriptor at the front of a text, if that is a number before the events for which a poll waits.
fn after_polled(text: &[u8]) -> Option<&[u8]> {
    let found = descriptor_at(text)?;
    if text.starts_with(b"AT_FDCWD") || !found.rest.starts_with(b", events=") {
        return None;
    }
    Some(found.rest)
}

impl Converter {
    pub(super) fn plan_read(&mut self, call: &Traced) -> Result<Option<Plan>, Stop> {
        let Some(on) = self.object_of(call)? else {
            return Ok(None);
        };
        let size = match last_number(&call.arguments) {
            Some(size) if call.left.is_some() => Shown(size),
            _ => Shown(b"-"),
        };
        let On { object, fd } = on;
        let begin = format!(in self.alloc; "read {object}:{fd} {size}")?;
        self.reading(call, begin)
    }

    pub(super) fn plan_readv(&mut self, call: &Traced) -> Result<Option<Plan>, Stop> {
        let Some(on) = self.object_of(call)? else {
            return Ok(None);
        };
        let On { object, fd } = on;
        if call.left.is_none() {
            let begin = format!(in self.alloc; "read {object}:{fd} -")?;
            return self.reading(call, begin);
        }
        let Some(size) = sum_of_lengths(&call.arguments) else {
            return Err(refuse(self.alloc, "lengths whose sum is no number"));
        };
        let begin = format!(in self.alloc; "read {object}:{fd} {size}")?;
        self.reading(call, begin)
    }

    /// A read of messages.
    fn reading(&mut self, call: &Traced, begin: String) -> Result<Option<Plan>, Stop> {
        let alloc = self.alloc;
        if !call.has_succeeded() {
            return simple(alloc, call, begin);
        }
        let Messages { said, made } = self.messages_of(call)?;
        let count = said.len();
        let end = format!(in alloc; "ok {count}")?;
        Ok(Some(Plan {
            begin: Some(begin),
            number: 0,
            messages: said,
            end: Some(end),
            after: After::Bind(made),
        }))
    }

    fn messages_of(&mut self, call: &Traced) -> Result<Messages, Stop> {
        let bytes = bytes_of(self.alloc, call)?;
        let mut messages = Messages {
            said: Vec::new(self.alloc),
            made: Vec::new(self.alloc),
        };
        for message in bytes.chunks(MESSAGE_BYTES) {
            self.take_message(message, &mut messages)?;
        }
        Ok(messages)
    }

    /// Adds a message as the log has it, and the descriptor of a fork.
    fn take_message(&mut self, message: &[u8], messages: &mut Messages) -> Result<(), Stop> {
        let said = if message.first() == Some(&FORK) {
            self.fork_message(word_at(message, 8) & 0x7fff_ffff, &mut messages.made)?
        } else {
            said_of(self.alloc, message)?
        };
        messages.said.push(said)?;
        Ok(())
    }

    fn fork_message(&mut self, fd: u64, made: &mut Vec<Held>) -> Result<String, Stop> {
        let object = self.new_object();
        let closes = true;
        made.push(Held { fd, object, closes })?;
        Ok(format!(in self.alloc; "fork {object}:{fd}")?)
    }

    pub(super) fn plan_poll(&mut self, call: &Traced, plans: &mut Vec<Plan>) -> Result<(), Stop> {
        let mut rest = call.arguments.as_slice();
        for _ in 0..call.arguments.len() {
            let Some((_, text)) = split_once(rest, b"{fd=") else {
                break;
            };
            rest = text;
            let Some(after) = after_polled(text) else {
                continue;
            };
            rest = after;
            if let Some(on) = self.object_at(call.entered_at, call.thread, text)? {
                plans.push(polled(self.alloc, call, on)?)?;
            }
        }
        Ok(())
    }
}

/// A message that makes no descriptor, as the log has it.
fn said_of(alloc: Global, message: &[u8]) -> Result<String, Stop> {
    let event = message.first().copied().unwrap_or(0);
    let one = word_at(message, 8);
    let two = word_at(message, 16);
    let three = word_at(message, 24);
    let said = match event {
        0x12 => {
            let thread = three & 0xffff_ffff;
            format!(in alloc; "fault 0x{two:x} {one} {thread}")
        }
        0x14 => format!(in alloc; "remap 0x{one:x} 0x{two:x} 0x{three:x}"),
        0x15 => format!(in alloc; "remove 0x{one:x} 0x{two:x}"),
        0x16 => format!(in alloc; "unmap 0x{one:x} 0x{two:x}"),
        _ => return Err(refused(format!(in alloc; "unknown message 0x{event:x}"))),
    };
    Ok(said?)
}

/// What a poll becomes for one of its descriptors.
fn polled(alloc: Global, call: &Traced, on: On) -> Result<Plan, Stop> {
    let On { object, fd } = on;
    let bits = events_at(alloc, &call.returned, fd)?;
    let values = format!(in alloc; "0x{bits:x}")?;
    let end = answer(alloc, call, values.as_bytes())?;
    let begin = format!(in alloc; "poll {object}:{fd}")?;
    Ok(Plan::new(alloc, begin, end, After::Nothing))
}
