//! Reading a trace: its lines as calls, with the halves of those that were unfinished joined.

use crate::event::{
    Start, Time, after_parenthesis, dump_of, is_attached, is_end, is_signal, name_of, parts_of,
    resumed, start_of, unfinished,
};
use crate::kind::Kind;
use crate::quoted::decode_paths;
use crate::stop::{Stop, refuse, refuse_bytes, refused};
use crate::text::{is_same, split_at_byte};
use crate::traced::{Traced, is_result};
use crate::writer::Refused;
use foundation::NoMemory;
use indexmap::IndexMap;
use std::alloc::{AllocError, Global};
use std::mem;

/// The nanoseconds of a day.
const DAY: u64 = 86_400_000_000_000;

/// Where a line is.
#[derive(Clone, Copy)]
struct At {
    line: u64,
    thread: u64,
    time: u64,
}

/// Reads the lines of one trace.
#[derive(Drop)]
struct Reader {
    alloc: Global,
    calls: Vec<Traced>,
    wrong: Vec<Refused>,
    /// The unfinished call of each thread. Its arguments are what it has printed.
    open: IndexMap<u64, usize>,
    last_time: u64,
    /// The nanoseconds of the days that have ended, where times are those of a day.
    days: u64,
    /// The call whose end may not be after the next line.
    unclamped: Option<usize>,
    /// The call of which the next line may have bytes.
    dumps_to: Option<usize>,
}

/// The calls of a trace, in the order in which they entered the kernel, and the lines that cannot be read.
#[derive(Drop)]
pub(crate) struct Trace {
    pub(crate) calls: Vec<Traced>,
    pub(crate) wrong: Vec<Refused>,
}

/// Reads a trace.
pub(crate) fn read_trace(alloc: Global, text: &[u8]) -> Result<Trace, NoMemory> {
    let mut reader = Reader::new(alloc);
    reader.read(text)?;
    Ok(Trace {
        calls: reader.calls,
        wrong: reader.wrong,
    })
}

impl Reader {
    fn new(alloc: Global) -> Reader {
        Reader {
            alloc,
            calls: Vec::new(alloc),
            wrong: Vec::new(alloc),
            open: IndexMap::new(alloc),
            last_time: 0,
            days: 0,
            unclamped: None,
            dumps_to: None,
        }
    }

    fn read(&mut self, text: &[u8]) -> Result<(), NoMemory> {
        let mut rest = text;
        let mut number: u64 = 0;
        for _ in 0..text.len() {
            if rest.is_empty() {
                break;
            }
            number = number.saturating_add(1);
            let Some((line, after)) = split_at_byte(rest, b'\n') else {
                let cut = refuse(self.alloc, "no line feed: the file was cut here");
                self.note(number, cut)?;
                break;
            };
            if let Err(stop) = self.take(number, line) {
                self.note(number, stop)?;
            }
            rest = after;
        }
        self.end()
    }

    /// Notes why a line was not taken.
    fn note(&mut self, line: u64, stop: Stop) -> Result<(), NoMemory> {
        let Stop::Refused(reason) = stop else {
            return Err(NoMemory);
        };
        self.wrong.push(Refused { line, reason })?;
        Ok(())
    }

    /// Takes a line.
    fn take(&mut self, line: u64, text: &[u8]) -> Result<(), Stop> {
        if let Some(bytes) = dump_of(self.alloc, text)? {
            return self.take_dump(&bytes);
        }
        self.dumps_to = None;
        if is_attached(text) {
            return Ok(());
        }
        let Some(Start { thread, time, rest }) = start_of(text) else {
            let wanted = "not a thread's number, a time (-tt or -ttt) and a call";
            return Err(refuse(self.alloc, wanted));
        };
        let time = self.time_of(time)?;
        self.clamp(time);
        self.take_event(At { line, thread, time }, rest)
    }

    /// Bytes that strace prints below a call with `-e read=all`.
    fn take_dump(&mut self, bytes: &[u8]) -> Result<(), Stop> {
        let Some(place) = self.dumps_to else {
            return Err(refuse(self.alloc, "bytes of no call"));
        };
        if let Some(call) = self.calls.get_mut(place) {
            call.dump.extend_from_slice(bytes)?;
        }
        Ok(())
    }

    /// The nanoseconds of a line, which may not run back.
    fn time_of(&mut self, time: Time) -> Result<u64, Stop> {
        let time = match time {
            Time::Whole(time) => time,
            Time::OfDay(time) => self.over_midnight(time),
        };
        let last = self.last_time;
        self.last_time = time.max(last);
        if time < last {
            return Err(refuse(self.alloc, "the time runs back"));
        }
        Ok(time)
    }

    /// A time of a day as one that does not begin anew at midnight.
    fn over_midnight(&mut self, time: u64) -> u64 {
        let same_day = time.saturating_add(self.days);
        if same_day >= self.last_time.saturating_sub(DAY / 2) {
            return same_day;
        }
        self.days = self.days.saturating_add(DAY);
        same_day.saturating_add(DAY)
    }

    /// The call of the last line did not end after this time.
    fn clamp(&mut self, time: u64) {
        let Some(place) = self.unclamped.take() else {
            return;
        };
        if let Some(call) = self.calls.get_mut(place) {
            call.left_at = call.left_at.min(time.max(call.entered_at));
        }
    }

    /// Takes what a line says of its thread.
    fn take_event(&mut self, at: At, text: &[u8]) -> Result<(), Stop> {
        if is_signal(text) {
            return Ok(());
        }
        if is_end(text) {
            return self.take_end(at);
        }
        match resumed(text) {
            Some((name, rest)) => self.resume(at, name, rest),
            None => self.take_call(at, text),
        }
    }

    /// Takes a call, or the first half of one.
    fn take_call(&mut self, at: At, text: &[u8]) -> Result<(), Stop> {
        let Some(name) = name_of(text) else {
            return Err(refuse(self.alloc, "not a call"));
        };
        self.check_thread(at.thread)?;
        let call = entered(self.alloc, at, name)?;
        match unfinished(text) {
            Some(front) => self.hold(call, front),
            None => self.take_whole(call, at, text),
        }
    }

    /// The unfinished call of a thread.
    fn open_call(&self, thread: u64) -> Option<&Traced> {
        self.calls.get(*self.open.get(&thread)?)
    }

    /// A thread that makes a call may not be in another one.
    fn check_thread(&self, thread: u64) -> Result<(), Stop> {
        let Some(call) = self.open_call(thread) else {
            return Ok(());
        };
        let line = call.entered;
        Err(refused(format!(in self.alloc; "thread {thread} is in another call since line {line}")))
    }

    /// The end of a thread, which may be in a call.
    fn take_end(&mut self, at: At) -> Result<(), Stop> {
        let mut end = entered(self.alloc, at, b"+++")?;
        end.left = Some(at.line);
        end.left_at = at.time;
        self.calls.push(end)?;
        match self.open.swap_remove(&at.thread) {
            Some(place) => Ok(self.end_unfinished(place)?),
            None => Ok(()),
        }
    }

    /// Keeps a call that is unfinished, with what it has printed.
    fn hold(&mut self, mut call: Traced, text: &[u8]) -> Result<(), Stop> {
        call.arguments.extend_from_slice(text)?;
        let thread = call.thread;
        let place = self.calls.len();
        self.calls.push(call)?;
        self.open.insert(thread, place)?;
        Ok(())
    }

    /// Takes a call that is whole.
    fn take_whole(&mut self, mut call: Traced, at: At, text: &[u8]) -> Result<(), Stop> {
        finish(self.alloc, &mut call, at, text)?;
        let place = self.calls.len();
        self.note_read(call.kind, place);
        self.unclamped = Some(place);
        self.calls.push(call)?;
        Ok(())
    }

    /// The next lines may have bytes of a call that reads.
    fn note_read(&mut self, kind: Kind, place: usize) {
        if matches!(kind, Kind::Read | Kind::Readv) {
            self.dumps_to = Some(place);
        }
    }

    /// Takes the second half of a call.
    fn resume(&mut self, at: At, name: &[u8], rest: &[u8]) -> Result<(), Stop> {
        let is_in = match self.open_call(at.thread) {
            Some(call) => is_same(&call.name, name),
            None => false,
        };
        if !is_in {
            return Err(refuse_bytes(self.alloc, name, "is resumed, and was not entered"));
        }
        match self.open.swap_remove(&at.thread) {
            Some(place) => self.join(place, at, rest),
            None => Ok(()),
        }
    }

    /// Joins the halves of a call.
    fn join(&mut self, place: usize, at: At, rest: &[u8]) -> Result<(), Stop> {
        let Some(call) = self.calls.get_mut(place) else {
            return Ok(());
        };
        let mut text = mem::replace(&mut call.arguments, Vec::new(self.alloc));
        if text.ends_with(b",") && rest.starts_with(b",") {
            text.pop();
        }
        text.extend_from_slice(rest)?;
        finish(self.alloc, call, at, &text)?;
        call.left_at = at.time;
        let kind = call.kind;
        self.note_read(kind, place);
        Ok(())
    }

    /// A call that never returned has the arguments that it had printed.
    fn end_unfinished(&mut self, place: usize) -> Result<(), NoMemory> {
        if let Some(call) = self.calls.get_mut(place) {
            call.arguments = decode_paths(self.alloc, after_parenthesis(&call.arguments))?;
        }
        Ok(())
    }

    /// The trace has ended, and with it the calls that are unfinished.
    fn end(&mut self) -> Result<(), NoMemory> {
        for at in 0..self.open.len() {
            if let Some((_, place)) = self.open.get_index(at) {
                let place = *place;
                self.end_unfinished(place)?;
            }
        }
        Ok(())
    }
}

/// A call that enters the kernel, or the end of a thread.
fn entered(alloc: Global, at: At, name: &[u8]) -> Result<Traced, AllocError> {
    Ok(Traced {
        thread: at.thread,
        name: Vec::from_slice(alloc, name)?,
        kind: Kind::of(name),
        entered: at.line,
        entered_at: at.time,
        arguments: Vec::new(alloc),
        left: None,
        left_at: 0,
        returned: Vec::new(alloc),
        dump: Vec::new(alloc),
    })
}

/// Gives a call its arguments and its result.
fn finish(alloc: Global, call: &mut Traced, at: At, text: &[u8]) -> Result<(), Stop> {
    let Some(parts) = parts_of(text) else {
        return Err(refuse(alloc, "a call without a result"));
    };
    call.returned = decode_paths(alloc, parts.returned)?;
    call.arguments = decode_paths(alloc, parts.arguments)?;
    if !is_result(&call.returned) {
        return Err(refuse_bytes(alloc, &call.returned, "is not a result"));
    }
    call.left = Some(at.line);
    call.left_at = at.time.saturating_add(parts.lasted);
    Ok(())
}
