//! What the lines of a log say of calls, descriptors, pages and times, and whether a line contradicts those above it.

ghost use Rattle.std.specs.Prelude.{IfOk, IfNone, IsSome};

mod answers;

use crate::call_table::{CallTable, narrow};
use crate::log_call::{Kind, LogCall};
use crate::pages::PageSize;
use crate::process_table::{OpenCall, ProcessTable};
use crate::reader::answers::{check_answer, check_message, check_range, descriptor_of};
use crate::wrong::{CallFault, DescriptorFault, Fields, Flaw, Names, NumberFault, Wrong};
use foundation::NoMemory;
use kernel_rules::Run;
use std::alloc::{AllocError, Global};
use uffd_log::{Answer, Call, Descriptor, Line, Message, Stamp};

/// Why a line was not taken.
#[derive(Clone, Copy)]
pub(crate) enum Fault {
    Wrong(Wrong),
    NoMemory,
}

impl From<NoMemory> for Fault {
    fn from(_e: NoMemory) -> Fault {
        Fault::NoMemory
    }
}

impl From<AllocError> for Fault {
    fn from(_e: AllocError) -> Fault {
        Fault::NoMemory
    }
}

/// Refuses a line, where something is wrong with it.
fn refuse(wrong: Option<Wrong>) -> Result<(), Fault> {
    match wrong {
        Some(wrong) => Err(Fault::Wrong(wrong)),
        None => Ok(()),
    }
}

/// Refuses a line, where something is wrong with its time or its call.
fn refuse_call(fault: Option<CallFault>) -> Result<(), Fault> {
    match fault {
        Some(fault) => Err(Fault::Wrong(Wrong::Call(fault))),
        None => Ok(()),
    }
}

/// What the lines of a log have said so far, below its head.
#[derive(Drop)]
pub(crate) struct CallReader {
    table: CallTable,
    /// The number of the line that is read.
    line: u32,
    /// The entry that it added, if any.
    entry: Option<u32>,
    processes: ProcessTable,
    /// Whether lines are missing, which may have what others lack.
    has_lost: bool,
}

impl CallReader {
    pub(crate) fn new(alloc: Global) -> CallReader {
        CallReader {
            table: CallTable::new(alloc),
            line: 0,
            entry: None,
            processes: ProcessTable::new(alloc),
            has_lost: false,
        }
    }

    /// Whether a line is of a descriptor that was found, of an object that no line above names.
    pub(crate) fn is_new(&self, line: &Line) -> bool {
        match line {
            Line::Found { on, .. } => !self.processes.is_known(on.object),
            _ => false,
        }
    }

    /// The calls that were read.
    pub(crate) fn into_table(self) -> CallTable {
        let CallReader { table, .. } = self;
        table
    }

    /// Notes a line of the head, the last of which is the command, and the size of a page so far.
    pub(crate) fn note_head(
        &mut self,
        bytes: &[u8],
        is_last: bool,
        size: PageSize,
    ) -> Result<(), NoMemory> {
        self.table.size = size;
        if is_last {
            self.table.command.extend_from_slice(bytes)?;
        }
        Ok(())
    }

    /// Takes the line with this number, or none where it is not one of the language, and the entry that it added, if it begins or ends a call.
    /// What is wrong with it, if anything. Times do not run back in the whole log, or else in those of each thread.
    pub(crate) fn take_line(
        &mut self,
        number: u32,
        line: Option<Line>,
        entry: Option<u32>,
        one_clock: bool,
    ) -> Result<Option<Wrong>, NoMemory>
        ensures { IfOk result (λ wrong. IfNone wrong (IsSome line)) }
    {
        self.line = number;
        self.entry = entry;
        let Some(line) = line else {
            // What it would have said may be what later lines lack.
            self.has_lost = true;
            return Ok(Some(Wrong::Plain(Flaw::OtherLanguage)));
        };
        match self.take_parsed(line, one_clock) {
            Ok(()) => Ok(None),
            Err(Fault::Wrong(wrong)) => Ok(Some(wrong)),
            Err(Fault::NoMemory) => Err(NoMemory),
        }
    }

    fn take_parsed(&mut self, line: Line, one_clock: bool) -> Result<(), Fault> {
        let Some(stamp) = stamp_of(&line) else {
            self.has_lost = true;
            return Ok(());
        };
        let whose = if one_clock { 0 } else { stamp.tid };
        let late = self.processes.note_time(whose, stamp.time)?;
        self.take_stamped(stamp, line)?;
        refuse_call(late)
    }

    fn take_stamped(&mut self, stamp: Stamp, line: Line) -> Result<(), Fault> {
        match line {
            Line::Begin { number, call, .. } => self.take_begin(stamp, number, call),
            Line::End { number, answer, .. } => self.take_end(stamp, number, answer),
            Line::Read {
                number,
                message,
                ..
            } => self.take_message(stamp, number, message),
            Line::Have {
                number,
                start,
                len,
                bits,
                ..
            } => self.take_run(stamp, number, Run { start, len, bits }),
            Line::Found { on, .. } => self.take_found(stamp.pid, on),
            Line::Dropped { on, .. } => self.take_dropped(stamp.pid, on),
            Line::Started { .. } | Line::Forked { .. } => {
                self.take_renewed(stamp.pid)?;
                Ok(())
            }
            Line::Exit { .. } => {
                self.note_exit(stamp.pid)?;
                Ok(())
            }
            Line::Lost(_) => Ok(()),
        }
    }

    /// A process begins anew: its open calls never return.
    fn take_renewed(&mut self, pid: u32) -> Result<(), NoMemory> {
        self.processes.renew(pid);
        self.table.lose_space(pid, self.line)?;
        self.table.exits.swap_remove(&pid);
        if !self.table.own.contains_key(&pid) {
            self.table.own.insert(pid, self.line)?;
        }
        Ok(())
    }

    /// A process is about to end.
    fn note_exit(&mut self, pid: u32) -> Result<(), NoMemory> {
        self.table.exits.insert(pid, self.line)?;
        Ok(())
    }

    /// Refuses a line, unless lines were lost above it.
    fn excuse(&self, wrong: Wrong) -> Result<(), Fault> {
        if self.has_lost {
            Ok(())
        } else {
            Err(Fault::Wrong(wrong))
        }
    }

    // Calls

    fn take_begin(&mut self, stamp: Stamp, number: u64, call: Call) -> Result<(), Fault> {
        let open = OpenCall {
            call,
            place: narrow(self.table.places.len())?,
            line: self.line,
            tid: stamp.tid,
            found: 0,
            above: 0,
        };
        let wrong = self.processes.begin(stamp.pid, number, open)?;
        self.table.last_line = self.line;
        self.table.add(self.entry, stamp)?;
        refuse_call(wrong)?;
        match descriptor_of(&call) {
            Some(on) => self.use_descriptor(stamp.pid, on),
            None => Ok(()),
        }
    }

    /// A descriptor that a line uses has to be known. It is named once, and known then.
    fn use_descriptor(&mut self, pid: u32, on: Descriptor) -> Result<(), Fault> {
        if self.processes.is_bound(pid, on) {
            return Ok(());
        }
        let held = self.processes.held(pid, on.fd);
        self.processes.bind(pid, on)?;
        let fd = on.fd;
        let object = on.object;
        self.excuse(Wrong::Descriptor(match held {
            Some(held) => DescriptorFault::Held { fd, held, object },
            None => DescriptorFault::Unknown { fd, object },
        }))
    }

    /// The open call of a line: none where it may have been lost.
    fn open_call(&self, stamp: Stamp, number: u64) -> Result<Option<OpenCall>, Fault> {
        match self.processes.open_call(stamp.pid, stamp.tid, number) {
            Ok(open) => Ok(Some(open)),
            Err(CallFault::NoCall(number)) => {
                self.excuse(Wrong::Call(CallFault::NoCall(number)))?;
                Ok(None)
            }
            Err(fault) => Err(Fault::Wrong(Wrong::Call(fault))),
        }
    }

    fn take_end(&mut self, stamp: Stamp, number: u64, answer: Answer) -> Result<(), Fault> {
        let Some(open) = self.open_call(stamp, number)? else {
            return Ok(());
        };
        self.processes.end(stamp.pid, number);
        let followed = self.follow(stamp.pid, open.call, answer);
        let ended = self.ended(open, stamp, answer);
        self.table.last_line = self.line;
        self.table.end(open.place, &ended)?;
        let wrong = check_answer(self.table.size, &ended, answer, open.found);
        if let Some(Wrong::Number(NumberFault::Count { count, found, .. })) = wrong {
            if count > found && self.has_lost {
                return followed;
            }
        }
        refuse(wrong)?;
        followed
    }

    /// A call that ends with the line that is read.
    fn ended(&self, open: OpenCall, stamp: Stamp, answer: Answer) -> LogCall {
        LogCall {
            call: open.call,
            answer: Some(answer),
            begin: open.line,
            end: self.line,
            until: stamp.time,
            process: stamp.pid,
            thread: stamp.tid,
            space: stamp.pid,
            program: 0,
            ending: self.entry,
            last: self.is_last(open.call),
            judged: false,
            done: false,
            kind: Kind::Unjudged,
        }
    }

    /// Whether a call has closed the last descriptor of its object.
    fn is_last(&self, call: Call) -> bool {
        match call {
            Call::Close { on } => !self.processes.has_descriptor(on.object),
            _ => false,
        }
    }

    /// What a call that returned does to descriptors.
    fn follow(&mut self, pid: u32, call: Call, answer: Answer) -> Result<(), Fault> {
        match (call, answer) {
            (Call::Close { on }, _) => {
                self.processes.release(pid, on)?;
                Ok(())
            }
            (Call::Open { .. }, Answer::Opened(on)) => {
                self.table.note_opener(on.object, pid)?;
                self.introduce(pid, on)
            }
            (Call::Dup { on, target }, Answer::Value(fd)) => self.duplicate(pid, on, target, fd),
            _ => Ok(()),
        }
    }

    /// A new object, by open or by a fork message.
    fn introduce(&mut self, pid: u32, on: Descriptor) -> Result<(), Fault> {
        let known = self.processes.is_known(on.object);
        self.take_number(pid, on)?;
        if known {
            return Err(Fault::Wrong(Wrong::Descriptor(DescriptorFault::Again(on.object))));
        }
        Ok(())
    }

    /// A descriptor that the kernel has just given: it was free, or its close is under way.
    fn take_number(&mut self, pid: u32, on: Descriptor) -> Result<(), Fault> {
        let held = self.processes.held(pid, on.fd);
        match held {
            Some(held) if !self.processes.is_closing(pid, on.fd) => {
                self.processes.replace(pid, on)?;
                self.excuse(Wrong::Descriptor(DescriptorFault::Unclosed { fd: on.fd, held }))
            }
            _ => {
                self.processes.bind(pid, on)?;
                Ok(())
            }
        }
    }

    fn duplicate(
        &mut self,
        pid: u32,
        on: Descriptor,
        target: Option<u32>,
        fd: u64,
    ) -> Result<(), Fault> {
        let Ok(number) = u32::try_from(fd) else {
            return Ok(());
        };
        let on = Descriptor { fd: number, ..on };
        let Some(wanted) = target else {
            return self.take_number(pid, on);
        };
        self.processes.replace(pid, on)?;
        if number != wanted {
            return Err(Fault::Wrong(Wrong::Descriptor(DescriptorFault::Asked { wanted, fd })));
        }
        Ok(())
    }

    // Lines of calls

    fn take_message(&mut self, stamp: Stamp, number: u64, message: Message) -> Result<(), Fault> {
        if let Some(open) = self.open_call(stamp, number)? {
            self.processes.note_found(stamp.pid, number, 0);
            if !matches!(open.call, Call::Read { .. }) {
                let call = open.call;
                return Err(Fault::Wrong(Wrong::Call(CallFault::NoRead { number, call })));
            }
        }
        if let Message::Fork { child } = message {
            return self.introduce(stamp.pid, child);
        }
        refuse(check_message(self.table.size, &message))
    }

    fn take_run(&mut self, stamp: Stamp, number: u64, run: Run) -> Result<(), Fault> {
        let open = self.open_call(stamp, number)?;
        let fields = Fields {
            names: Names::StartLength,
            line: None,
        };
        refuse(check_range(self.table.size, run.start, run.len, fields))?;
        let Some(open) = open else {
            return Ok(());
        };
        let end = run.start.saturating_add(run.len);
        self.processes.note_found(stamp.pid, number, end);
        refuse(check_run(number, open, run.start, end))
    }

    // Descriptors

    fn take_found(&mut self, pid: u32, on: Descriptor) -> Result<(), Fault> {
        self.note_met(pid, on)?;
        if self.processes.is_bound(pid, on) {
            return Ok(());
        }
        self.take_number(pid, on)
    }

    fn note_met(&mut self, pid: u32, on: Descriptor) -> Result<(), NoMemory> {
        self.table.met.insert((pid, on.object))?;
        Ok(())
    }

    fn take_dropped(&mut self, pid: u32, on: Descriptor) -> Result<(), Fault> {
        let is_bound = self.processes.is_bound(pid, on);
        self.processes.drop_all(pid, on);
        if is_bound {
            return Ok(());
        }
        self.excuse(Wrong::Descriptor(DescriptorFault::Unknown {
            fd: on.fd,
            object: on.object,
        }))
    }
}

/// What is wrong with a run of pages of an open call, if anything.
fn check_run(number: u64, open: OpenCall, start: u64, end: u64) -> Option<Wrong> {
    let Call::Scan {
        start: first,
        len,
        ..
    } = open.call
    else {
        let call = open.call;
        return Some(Wrong::Call(CallFault::NoScan { number, call }));
    };
    if start < first || end > first.saturating_add(len) {
        return Some(Wrong::Call(CallFault::OutsideScan(open.line)));
    }
    if open.above > start {
        return Some(Wrong::Plain(Flaw::NotHigher));
    }
    None
}

/// The stamp of a line, if it has one.
fn stamp_of(line: &Line) -> Option<Stamp> {
    match *line {
        Line::Begin { stamp, .. } | Line::End { stamp, .. } | Line::Read { stamp, .. } => Some(
            stamp,
        ),
        Line::Have { stamp, .. } | Line::Found { stamp, .. } | Line::Dropped { stamp, .. } => Some(
            stamp,
        ),
        Line::Started { stamp, .. } | Line::Forked { stamp, .. } | Line::Exit { stamp } => Some(
            stamp,
        ),
        Line::Lost(_) => None,
    }
}
