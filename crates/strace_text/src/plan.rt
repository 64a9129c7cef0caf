//! What a call becomes.

use crate::files::{Held, On};
use crate::stop::{Shown, Stop};
use crate::traced::Traced;
use std::alloc::Global;

/// What is done after the end of a call was written. A set is one of descriptors, as it was when the call entered.
#[derive(Drop)]
pub(crate) enum After {
    Nothing,
    /// The thread has these descriptors.
    Bind(Vec<Held>),
    /// A set has this descriptor.
    BindIn { set: usize, held: Held },
    /// A set has no such descriptor, unless it is another object's.
    Release { set: usize, on: On },
    /// The process runs a program with these words.
    Start(String),
    /// The thread has received a message with descriptors.
    Receive,
}

/// What a call becomes: the words of the line that begins it, those of the messages that it has read, and those of its end. No end if it
/// never returned.
#[derive(Drop)]
pub(crate) struct Plan {
    /// None for a call that has no lines of its own.
    pub(crate) begin: Option<String>,
    /// Its number among the calls of its process, which it has once its first line is written.
    pub(crate) number: u64,
    pub(crate) messages: Vec<String>,
    pub(crate) end: Option<String>,
    pub(crate) after: After,
}

impl Plan {
    /// One that reads no message.
    pub(crate) fn new(alloc: Global, begin: String, end: Option<String>, after: After) -> Plan {
        Plan {
            begin: Some(begin),
            number: 0,
            messages: Vec::new(alloc),
            end,
            after,
        }
    }
}

/// What a call becomes that returns nothing, and changes no descriptor.
pub(crate) fn simple(alloc: Global, call: &Traced, begin: String) -> Result<Option<Plan>, Stop> {
    let end = answer(alloc, call, b"")?;
    Ok(Some(Plan::new(alloc, begin, end, After::Nothing)))
}

/// The end of a call. The values come after `ok`.
pub(crate) fn answer(alloc: Global, call: &Traced, values: &[u8]) -> Result<Option<String>, Stop> {
    if !call.has_returned() {
        return Ok(None);
    }
    let (word, values) = match call.errno() {
        _ if call.was_interrupted() => (b"interrupted".as_slice(), b"".as_slice()),
        Some(errno) => (errno, b"".as_slice()),
        None => (b"ok".as_slice(), values),
    };
    let blank = if values.is_empty() { "" } else { " " };
    let (word, values) = (Shown(word), Shown(values));
    Ok(Some(format!(in alloc; "{word}{blank}{values}")?))
}
