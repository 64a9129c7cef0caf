//! The ioctls of an object, and how it is opened.

use super::Converter;
use crate::files::{Held, On};
use crate::flags::{CLOSES_ON_EXEC, Names, flags};
use crate::number::{after_descriptor, decimal, descriptor, number};
use crate::plan::{After, Plan, answer, simple};
use crate::stop::{Stop, refuse, refuse_bytes, refused};
use crate::text::{Class, front, is_same, split_once};
use crate::traced::Traced;
use std::alloc::Global;
use std::fmt::Write;

/// What comes after the first word of an ioctl's answer.
#[derive(Clone, Copy)]
enum Answer<'a> {
    Nothing,
    /// The features and the ioctls of a handshake.
    Handshake,
    /// The bits that a field has.
    Bits(&'a str),
    /// The number of bytes that a field has, also of a call that failed.
    Size(&'a str),
}

/// An ioctl of an object: its name after `UFFDIO_`, the call of the language, the fields that are given, and the answer.
type Ioctl<'a> = (&'a str, &'a str, &'a [&'a str], Answer<'a>);

const API: &[&str] = &["api", "features"];

const RANGE: &[&str] = &["start", "len"];

const RANGE_MODE: &[&str] = &["start", "len", "mode"];

const COPY_MODE: &[&str] = &["dst", "src", "len", "mode"];

static IOCTLS: [Ioctl<'static>; 10] = [
    ("API", "api", API, Answer::Handshake),
    ("REGISTER", "register", RANGE_MODE, Answer::Bits("ioctls")),
    ("UNREGISTER", "unregister", RANGE, Answer::Nothing),
    ("WAKE", "wake", RANGE, Answer::Nothing),
    ("COPY", "copy", COPY_MODE, Answer::Size("copy")),
    ("ZEROPAGE", "zeropage", RANGE_MODE, Answer::Size("zeropage")),
    ("WRITEPROTECT", "writeprotect", RANGE_MODE, Answer::Nothing),
    ("CONTINUE", "continue", RANGE_MODE, Answer::Size("mapped")),
    ("POISON", "poison", RANGE_MODE, Answer::Size("updated")),
    ("MOVE", "move", COPY_MODE, Answer::Size("move")),
];

/// The requests that open an object by the device, with what is before their flags.
static NEW_OBJECT: [&str; 5] = [
    "USERFAULTFD_IOC_NEW, ",
    "_IOC(_IOC_NONE, 0xaa, 0, 0), ",
    "_IOC(_IOC_NONE, 0xaa, 0, 0x0), ",
    "_IOC(_IOC_NONE, 0xaa, 0x0, 0), ",
    "_IOC(_IOC_NONE, 0xaa, 0x0, 0x0), ",
];

/// The ioctl of a request.
fn ioctl_of<'a>(request: &[u8]) -> Option<Ioctl<'a>> {
    let wanted = request.strip_prefix(b"UFFDIO_")?;
    for ioctl in &IOCTLS {
        if is_same(ioctl.0.as_bytes(), wanted) {
            return Some(*ioctl);
        }
    }
    None
}

/// The first value that a field has in the text of a structure, or its last one. A field is `name=value`.
fn value_of<'a>(text: &'a [u8], name: &str, is_last: bool) -> Option<&'a [u8]> {
    let mut found = None;
    let mut rest = text;
    for _ in 0..text.len() {
        let (word, after) = front(rest, Class::Word);
        let Some((mark, after)) = after.split_first() else {
            break;
        };
        rest = after;
        if *mark != b'=' || word.is_empty() || !Class::Small.has_all(word) {
            continue;
        }
        let (value, after) = front(rest, Class::Value);
        rest = after;
        if is_same(word, name.as_bytes()) && !value.is_empty() {
            found = Some(value);
            if !is_last {
                break;
            }
        }
    }
    found
}

fn first<'a>(text: &'a [u8], name: &str) -> Option<&'a [u8]> {
    value_of(text, name, false)
}

fn last<'a>(text: &'a [u8], name: &str) -> Option<&'a [u8]> {
    value_of(text, name, true)
}

/// A number of bytes in decimal digits: one that is negative in 64 bits is.
fn size_of_bytes(alloc: Global, word: &[u8]) -> Result<String, Stop> {
    let (is_negative, size) = match word.strip_prefix(b"-") {
        Some(digits) => (true, number(alloc, digits)?),
        None => (false, number(alloc, word)?),
    };
    if size >= 1 << 63 && !is_negative {
        let size = size.wrapping_neg();
        return Ok(format!(in alloc; " -{size}")?);
    }
    let sign = if is_negative && size > 0 { "-" } else { "" };
    Ok(format!(in alloc; " {sign}{size}")?)
}

/// The flags of a new object, if its device opens it: what comes after the request.
fn new_object_flags(rest: &[u8]) -> Option<&[u8]> {
    for request in &NEW_OBJECT {
        if let Some(text) = rest.strip_prefix(request.as_bytes()) {
            return Some(text);
        }
    }
    None
}

/// Whether FIONBIO switches on, if its number is there.
fn is_on(text: &[u8]) -> Option<bool> {
    let text = text.strip_prefix(b"[")?.strip_suffix(b"]")?;
    let digits = text.strip_prefix(b"-").unwrap_or(text);
    if digits.is_empty() || !Class::Digit.has_all(digits) {
        return None;
    }
    Some(decimal(digits) != Some(0))
}

impl Converter {
    pub(super) fn plan_userfaultfd(&mut self, call: &Traced) -> Result<Option<Plan>, Stop> {
        let text = if call.arguments.is_empty() {
            b"0".as_slice()
        } else {
            call.arguments.as_slice()
        };
        let bits = flags(self.alloc, text, Names::OpenFlags)?;
        self.opened(call, "syscall", bits)
    }

    /// An object is opened.
    fn opened(&mut self, call: &Traced, way: &str, bits: u64) -> Result<Option<Plan>, Stop> {
        let alloc = self.alloc;
        let begin = format!(in alloc; "open {way} 0x{bits:x}")?;
        if !call.has_succeeded() {
            return simple(alloc, call, begin);
        }
        let held = self.new_held(call, bits & CLOSES_ON_EXEC != 0)?;
        let On { object, fd } = held.on();
        let end = format!(in alloc; "ok {object}:{fd}")?;
        let mut made = Vec::new(alloc);
        made.push(held)?;
        let after = After::Bind(made);
        Ok(Some(Plan::new(alloc, begin, Some(end), after)))
    }

    /// The descriptor that a call has returned, of a new object.
    fn new_held(&mut self, call: &Traced, closes: bool) -> Result<Held, Stop> {
        let fd = descriptor(self.alloc, &call.returned)?;
        let object = self.new_object();
        let memory = self.memory_of(call.thread)?;
        self.memories.insert(object, memory)?;
        Ok(Held { fd, object, closes })
    }

    pub(super) fn plan_ioctl(&mut self, call: &Traced) -> Result<Option<Plan>, Stop> {
        let rest = after_descriptor(&call.arguments);
        if let Some(text) = new_object_flags(rest) {
            let bits = flags(self.alloc, text, Names::OpenFlags)?;
            return self.opened(call, "device", bits);
        }
        match self.object_of(call)? {
            Some(on) => self.plan_request(call, on, rest),
            None => Ok(None),
        }
    }

    /// A request to an object, with what comes after it.
    fn plan_request(&mut self, call: &Traced, on: On, rest: &[u8]) -> Result<Option<Plan>, Stop> {
        let (request, text) = split_once(rest, b", ").unwrap_or((rest, b"".as_slice()));
        if is_same(request, b"FIOCLEX") || is_same(request, b"FIONCLEX") {
            return Ok(None);
        }
        if !is_same(request, b"FIONBIO") {
            return own_request(self.alloc, call, on, request, text);
        }
        match is_on(text) {
            Some(is_on) => self.nonblock(call, on, is_on),
            None => Err(refuse(self.alloc, "FIONBIO without its number")),
        }
    }

    pub(super) fn nonblock(
        &self,
        call: &Traced,
        on: On,
        is_on: bool,
    ) -> Result<Option<Plan>, Stop> {
        let On { object, fd } = on;
        let bit = u8::from(is_on);
        let begin = format!(in self.alloc; "nonblock {object}:{fd} {bit}")?;
        simple(self.alloc, call, begin)
    }
}

/// A request of an object's own.
fn own_request(
    alloc: Global,
    call: &Traced,
    on: On,
    request: &[u8],
    text: &[u8],
) -> Result<Option<Plan>, Stop> {
    let Some((name, word, given, wanted)) = ioctl_of(request) else {
        return Err(refuse_bytes(alloc, request, "is no ioctl of a log"));
    };
    check_given(alloc, name, given, text)?;
    let begin = begin_of(alloc, on, word, given, text)?;
    let end = end_of(alloc, call, name, wanted, text)?;
    Ok(Some(Plan::new(alloc, begin, end, After::Nothing)))
}

/// Refuses an ioctl without the text of its structure, or without a field that is given.
fn check_given(alloc: Global, name: &str, given: &[&str], text: &[u8]) -> Result<(), Stop> {
    if !text.starts_with(b"{") {
        return Err(refused(format!(in alloc;
            "the fields of UFFDIO_{name} are not in the trace: this strace does not decode it, or the address was bad"
        )));
    }
    for field in given {
        if first(text, field).is_none() {
            return Err(without(alloc, name, "", field));
        }
    }
    Ok(())
}

/// An ioctl has no such field.
fn without(alloc: Global, name: &str, what: &str, field: &str) -> Stop {
    refused(format!(in alloc; "UFFDIO_{name} without {what}'{field}'"))
}

/// The words that begin an ioctl.
fn begin_of(
    alloc: Global,
    on: On,
    word: &str,
    given: &[&str],
    text: &[u8],
) -> Result<String, Stop> {
    let On { object, fd } = on;
    let mut begin = format!(in alloc; "{word} {object}:{fd}")?;
    for field in given {
        let value = first(text, field).unwrap_or(b"".as_slice());
        let bits = flags(alloc, value, Names::Modes)?;
        write!(begin, " 0x{bits:x}")?;
    }
    Ok(begin)
}

/// The words that end an ioctl.
fn end_of(
    alloc: Global,
    call: &Traced,
    name: &str,
    wanted: Answer<'_>,
    text: &[u8],
) -> Result<Option<String>, Stop> {
    if !call.has_returned() || call.was_interrupted() {
        return answer(alloc, call, b"");
    }
    let values = values_of(alloc, call.has_succeeded(), name, wanted, text)?;
    match answer(alloc, call, b"")? {
        Some(end) => Ok(Some(format!(in alloc; "{end}{values}")?)),
        None => Ok(None),
    }
}

/// What comes after the first word of an answer, each with a blank before it.
fn values_of(
    alloc: Global,
    has_succeeded: bool,
    name: &str,
    wanted: Answer<'_>,
    text: &[u8],
) -> Result<String, Stop> {
    match wanted {
        Answer::Size(field) => match last(text, field) {
            Some(value) => size_of_bytes(alloc, value),
            None if has_succeeded => Err(without(alloc, name, "its result ", field)),
            None => Ok(String::new(alloc)),
        },
        Answer::Bits(field) if has_succeeded => match last(text, field) {
            Some(value) => {
                let bits = flags(alloc, value, Names::Features)?;
                Ok(format!(in alloc; " 0x{bits:x}")?)
            }
            None => Err(without(alloc, name, "its result ", field)),
        },
        Answer::Handshake if has_succeeded => handshake(alloc, text),
        _ => Ok(String::new(alloc)),
    }
}

/// What a handshake has returned.
fn handshake(alloc: Global, text: &[u8]) -> Result<String, Stop> {
    let ioctls = match last(text, "ioctls") {
        Some(value) => flags(alloc, value, Names::Features)?,
        None => 0,
    };
    let features = last(text, "features").unwrap_or(b"".as_slice());
    let features = flags(alloc, features, Names::Features)?;
    Ok(format!(in alloc; " 0x{features:x} 0x{ioctls:x}")?)
}
