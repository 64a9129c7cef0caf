//! Reading events from the lines of a log.

ghost use Rattle.std.specs.Prelude.{◌≡◌, ◌==◌, ◌++◌, ◌∷◌, [], ℕ, List, true, not, filter_map, if◌then◌else◌, IfOk, OnOk};
ghost use Rattle.foundation.specs.Tests.{is_empty};
ghost use Rattle.uffd_log.specs.declared.line.Line.TheVariants as line;
ghost use Rattle.log_entries.specs.declared.log_line.LogLine.{LogLine as LogLineOf};
ghost use Rattle.log_entries.specs.Events.{is_new_program, is_of, is_read_line, made_by, message_in, run_in};
ghost use Rattle.log_entries.specs.Readers.{others, own, program_in, HasRead};

use crate::log_line::{LogLine, is_of, message_in, run_in};
use crate::store::EntryStore;
use foundation::NoMemory;
use indexmap::IndexMap;
use kernel_rules::{Made, Run};
use std::alloc::Global;
use uffd_log::{Answer, Call, Descriptor, Line, Message, Stamp};

/// O_NONBLOCK.
const NONBLOCK: u64 = 2048;

/// The events of the lines that were read.
#[derive(Drop)]
pub struct EntryReader {
    pub entries: EntryStore,
    /// The lines of the calls that have begun and not ended.
    pub kept: Vec<LogLine>,
    /// The lines where processes began, or began another program, by their numbers.
    pub programs: IndexMap<u32, u32>,
    /// Whether each call that ends has begun, and no line was lost.
    pub whole: bool,
}

/// The lines of the call that a process makes under a number, but the others.
fn own_lines(alloc: Global, kept: &[LogLine], pid: u32, call: u64) -> Result<Vec<LogLine>, NoMemory>
    ensures { IfOk result (λ found. found.items ≡ own pid call kept.now) }
{
    let mut found = Vec::new(alloc);
    for one in kept {
        if is_of(pid, call, *one) {
            found.push(*one)?;
        }
    }
    Ok(found)
}

/// Whether a line is kept of the call that a process makes under a number.
fn has_line(kept: &[LogLine], pid: u32, call: u64) -> bool
    ensures { result ≡ not (is_empty (own pid call kept.now)) }
{
    for one in kept {
        if is_of(pid, call, *one) {
            return true;
        }
    }
    false
}

/// Takes the lines of a call away.
fn remove_lines(kept: &mut Vec<LogLine>, pid: u32, call: u64)
    ensures { kept.new.items ≡ others pid call kept.old.items }
{
    kept.retain(|one| !is_of(pid, call, *one));
}

/// The messages of lines.
fn messages_in(alloc: Global, lines: &[LogLine]) -> Result<Vec<Message>, NoMemory>
    ensures { IfOk result (λ found. found.items ≡ filter_map message_in lines.now) }
{
    let mut found = Vec::new(alloc);
    for one in lines {
        if let Some(message) = message_in(*one) {
            found.push(message)?;
        }
    }
    Ok(found)
}

/// The runs of pages of lines.
fn runs_in(alloc: Global, lines: &[LogLine]) -> Result<Vec<Run>, NoMemory>
    ensures { IfOk result (λ found. found.items ≡ filter_map run_in lines.now) }
{
    let mut found = Vec::new(alloc);
    for one in lines {
        if let Some(run) = run_in(*one) {
            found.push(run)?;
        }
    }
    Ok(found)
}

/// A call as its line says it, by a program.
fn made_by(number: u32, stamp: Stamp, program: u32, call: Call) -> Made
    ensures { result ≡ made_by number stamp program call }
{
    Made {
        key: number,
        space: stamp.pid,
        thread: stamp.tid,
        program,
        call,
        last: false,
    }
}

impl EntryReader {
    /// Nothing was read.
    pub fn new(alloc: Global) -> EntryReader
        ensures { HasRead [] result }
    {
        EntryReader {
            entries: EntryStore::new(alloc),
            kept: Vec::new(alloc),
            programs: IndexMap::new(alloc),
            whole: true,
        }
    }

    /// Keeps a line of a call that is under way.
    fn keep(&mut self, one: LogLine) -> Result<(), NoMemory>
        ensures kept { OnOk result (self.new.kept.items ≡ self.old.kept.items ++ one ∷ []) }
        ensures same { self.new ≡ record self.old { kept = self.new.kept } }
    {
        match self.kept.push(one) {
            Ok(()) => Ok(()),
            Err(_) => Err(NoMemory),
        }
    }

    /// The program that a process runs, by the line where it began; 0 where there is none.
    fn program(&self, pid: u32) -> u32
        ensures { result ≡ program_in self.now pid }
    {
        match self.programs.get(&pid) {
            Some(number) => *number,
            None => 0,
        }
    }

    /// Notes the program that a process runs.
    fn note_program(&mut self, pid: u32, number: u32) -> Result<(), NoMemory>
        ensures noted { OnOk result ((other : ℕ) → program_in self.new other ≡
            (if pid == other then number else program_in self.old other)) }
        ensures same { self.new ≡ record self.old { programs = self.new.programs } }
    {
        match self.programs.insert(pid, number) {
            Ok(_) => Ok(()),
            Err(_) => Err(NoMemory),
        }
    }

    /// A process begins, or begins another program.
    fn renew(&mut self, one: LogLine, pid: u32) -> Result<(), NoMemory>
        requires { is_new_program pid one.line ≡ true }
        ensures { OnOk result ((lines : List LogLineOf) →
            HasRead lines self.old → HasRead (lines ++ one ∷ []) self.new) }
    {
        self.note_program(pid, one.number)
    }

    /// A call begins.
    fn begin(&mut self, one: LogLine, stamp: Stamp, number: u64, call: Call) -> Result<(), NoMemory>
        requires { one.line ≡ line.Begin stamp number call }
        ensures { OnOk result ((lines : List LogLineOf) →
            HasRead lines self.old → HasRead (lines ++ one ∷ []) self.new) }
    {
        let program = self.program(stamp.pid);
        remove_lines(&mut self.kept, stamp.pid, number);
        self.keep(one)?;
        self.entries
            .push_begin(made_by(one.number, stamp, program, call))
    }

    /// A call ends. It has begun, or lines are missing.
    fn end(
        &mut self,
        one: LogLine,
        stamp: Stamp,
        number: u64,
        answer: Answer,
    ) -> Result<(), NoMemory>
        requires { one.line ≡ line.End stamp number answer }
        ensures { OnOk result ((lines : List LogLineOf) →
            HasRead lines self.old → HasRead (lines ++ one ∷ []) self.new) }
    {
        let alloc = *self.kept.allocator();
        let lines = own_lines(alloc, &self.kept, stamp.pid, number)?;
        let Some(first) = lines.first() else {
            self.whole = false;
            return Ok(());
        };
        let key = first.number;
        let messages = messages_in(alloc, &lines)?;
        let runs = runs_in(alloc, &lines)?;
        remove_lines(&mut self.kept, stamp.pid, number);
        self.entries.push_end(key, answer, &messages, &runs)
    }

    /// A line of a call that is under way.
    fn read(&mut self, one: LogLine, pid: u32, number: u64) -> Result<(), NoMemory>
        requires of { is_of pid number one.line ≡ true }
        requires kind { is_read_line one.line ≡ true }
        ensures { OnOk result ((lines : List LogLineOf) →
            HasRead lines self.old → HasRead (lines ++ one ∷ []) self.new) }
    {
        if has_line(&self.kept, pid, number) {
            self.keep(one)?;
        }
        Ok(())
    }

    /// A descriptor is met first here. If its object is new, it was opened before.
    fn find(
        &mut self,
        one: LogLine,
        stamp: Stamp,
        on: Descriptor,
        opens: bool,
    ) -> Result<(), NoMemory>
        requires { one.line ≡ line.Found stamp on }
        ensures { OnOk result ((lines : List LogLineOf) →
            HasRead lines self.old → HasRead (lines ++ one ∷ []) self.new) }
    {
        if !opens {
            return Ok(());
        }
        let call = Call::Open {
            device: false,
            flags: NONBLOCK,
        };
        self.entries
            .push_begin(made_by(one.number, stamp, 0, call))?;
        self.entries
            .push_end(one.number, Answer::Opened(on), &[], &[])
    }

    /// Takes the next line. Where it is a descriptor that was found, `opens` says whether it stands for the opening of its object. After
    /// `NoMemory` the reader is not to be used.
    pub fn take(&mut self, one: LogLine, opens: bool) -> Result<(), NoMemory>
        ensures { OnOk result ((lines : List LogLineOf) →
            HasRead lines self.old → HasRead (lines ++ one ∷ []) self.new) }
    {
        match one.line {
            Line::Begin {
                stamp,
                number,
                call,
            } => self.begin(one, stamp, number, call),
            Line::End {
                stamp,
                number,
                answer,
            } => self.end(one, stamp, number, answer),
            Line::Read { stamp, number, .. } => self.read(one, stamp.pid, number),
            Line::Have { stamp, number, .. } => self.read(one, stamp.pid, number),
            Line::Found { stamp, on } => self.find(one, stamp, on, opens),
            Line::Lost(_) => {
                self.whole = false;
                Ok(())
            }
            Line::Started { stamp, .. } => self.renew(one, stamp.pid),
            Line::Forked { stamp, .. } => self.renew(one, stamp.pid),
            Line::Dropped { .. } | Line::Exit { .. } => Ok(()),
        }
    }

    /// Puts in what no line says of the call that begins in an event: the address space that it changes, if it is a map call, and whether it
    /// closes the last descriptor of its object.
    pub fn settle(&mut self, at: usize, space: u32, last: bool) -> Result<(), NoMemory>
        ensures whole { self.new.whole ≡ self.old.whole }
        ensures read { (lines : List LogLineOf) → HasRead lines self.old → HasRead lines self.new }
    {
        self.entries.settle(at, space, last)
    }
}
