//! Writing the log in the order of the trace.

use crate::converter::Converter;
use crate::plan::Plan;
use crate::reader::{Trace, read_trace};
use crate::stop::Stop;
use crate::traced::Traced;
use foundation::NoMemory;
use indexmap::{IndexMap, IndexSet};
use std::alloc::Global;

/// A line of a trace that cannot be read, with the reason.
#[derive(Drop)]
pub struct Refused {
    /// The number of the line, from 1.
    pub line: u64,
    /// The reason, without a line feed.
    pub reason: String,
}

/// A trace that was converted.
#[derive(Drop)]
pub struct Converted {
    /// A log of the language `uffdlog 1`. Where a line of the trace cannot be read it has `lost`, with the number of lines that this one may
    /// have made.
    pub log: String,
    /// For each line of the log, the number of the line of the trace from which it comes; 1 for the head.
    pub lines: Vec<u64>,
    /// The lines of the trace that cannot be read, in their order.
    pub wrong: Vec<Refused>,
}

/// What happens at a line of a trace, with the place of its call.
#[derive(Clone, Copy)]
enum What {
    Unread,
    Enter(usize),
    Leave(usize),
}

/// Writes the lines of a converter in the order of the trace.
#[derive(Drop)]
struct Writer {
    alloc: Global,
    converter: Converter,
    /// The number of each process's last call.
    numbers: IndexMap<u64, u64>,
    /// What the calls that have not left became.
    plans: IndexMap<usize, Vec<Plan>>,
    /// The threads that were seen and have not ended, and how many each process has.
    threads: IndexSet<u64>,
    counts: IndexMap<u64, u64>,
}

/// Converts the text of a trace to a log. A `NoMemory` leaves nothing.
///
/// Its calls are kept until the end, each with its arguments, and so is the log.
pub fn convert(alloc: Global, text: &[u8]) -> Result<Converted, NoMemory> {
    let Trace { calls, mut wrong } = read_trace(alloc, text)?;
    let mut writer = Writer::new(alloc)?;
    writer.write_all(&calls, &mut wrong)?;
    wrong.sort_by_key(|refused| refused.line)?;
    let log = writer.converter.log;
    Ok(Converted {
        log: log.text,
        lines: log.lines,
        wrong,
    })
}

/// What happens at which line, in its order. A line is of one call, which enters before it leaves.
fn steps_of(
    alloc: Global,
    calls: &[Traced],
    wrong: &[Refused],
) -> Result<Vec<(u64, What)>, NoMemory> {
    let mut steps = Vec::new(alloc);
    for refused in wrong {
        steps.push((refused.line, What::Unread))?;
    }
    for (place, call) in calls.iter().enumerate() {
        steps.push((call.entered, What::Enter(place)))?;
        if let Some(line) = call.left
            && !call.is_end()
        {
            steps.push((line, What::Leave(place)))?;
        }
    }
    steps.sort_by_key(|step| step.0)?;
    Ok(steps)
}

impl Writer {
    fn new(alloc: Global) -> Result<Writer, NoMemory> {
        Ok(Writer {
            alloc,
            converter: Converter::new(alloc)?,
            numbers: IndexMap::new(alloc),
            plans: IndexMap::new(alloc),
            threads: IndexSet::new(alloc),
            counts: IndexMap::new(alloc),
        })
    }

    fn write_all(&mut self, calls: &[Traced], wrong: &mut Vec<Refused>) -> Result<(), NoMemory> {
        for call in calls {
            self.converter.prepare(call)?;
        }
        let steps = steps_of(self.alloc, calls, wrong)?;
        for (line, what) in &steps {
            self.take(*line, *what, calls, wrong)?;
        }
        Ok(())
    }

    /// Takes a step. Why a call could not be converted is added to the wrong lines.
    fn take(
        &mut self,
        line: u64,
        what: What,
        calls: &[Traced],
        wrong: &mut Vec<Refused>,
    ) -> Result<(), NoMemory> {
        self.converter.log.line = line;
        let is_entry = matches!(what, What::Enter(_));
        match self.do_step(what, calls) {
            Ok(()) => Ok(()),
            Err(Stop::NoMemory) => Err(NoMemory),
            Err(Stop::Refused(reason)) => {
                wrong.push(Refused { line, reason })?;
                self.converter.log.write_lost(if is_entry { 2 } else { 1 })?;
                Ok(())
            }
        }
    }

    fn do_step(&mut self, what: What, calls: &[Traced]) -> Result<(), Stop> {
        match what {
            What::Unread => Ok(self.converter.log.write_lost(1)?),
            What::Enter(place) => match calls.get(place) {
                Some(call) => self.enter(call, place),
                None => Ok(()),
            },
            What::Leave(place) => match calls.get(place) {
                Some(call) => self.leave(call, place),
                None => Ok(()),
            },
        }
    }

    /// A new number of a call of this thread's process.
    fn number(&mut self, thread: u64) -> Result<u64, Stop> {
        let process = self.converter.process_of(thread)?;
        let last = self.numbers.get(&process).copied().unwrap_or(0);
        let number = last.saturating_add(1);
        self.numbers.insert(process, number)?;
        Ok(number)
    }

    /// Notes that a thread was seen.
    fn note_thread(&mut self, thread: u64) -> Result<u64, Stop> {
        let process = self.converter.process_of(thread)?;
        if self.threads.insert(thread)? {
            let count = self.counts.get(&process).copied().unwrap_or(0);
            self.counts.insert(process, count.saturating_add(1))?;
        }
        Ok(process)
    }

    /// A call enters, or a thread ends.
    fn enter(&mut self, call: &Traced, place: usize) -> Result<(), Stop> {
        self.converter.adopt(call.thread, call.entered_at)?;
        let process = self.note_thread(call.thread)?;
        if call.is_end() {
            return self.end_thread(call, process);
        }
        let mut plans = Vec::new(self.alloc);
        self.converter.begin(call, &mut plans)?;
        for plan in &mut plans {
            self.write_begin(call, plan)?;
        }
        if !plans.is_empty() {
            self.plans.insert(place, plans)?;
        }
        Ok(())
    }

    /// Numbers a call, and adds the line that begins it.
    fn write_begin(&mut self, call: &Traced, plan: &mut Plan) -> Result<(), Stop> {
        let Some(begin) = &plan.begin else {
            return Ok(());
        };
        let number = self.number(call.thread)?;
        let said = format!(in self.alloc; "begin {number} {begin}")?;
        plan.number = number;
        self.converter
            .write(call.entered_at, call.thread, said.as_str())
    }

    /// A call leaves.
    fn leave(&mut self, call: &Traced, place: usize) -> Result<(), Stop> {
        let Some(plans) = self.plans.swap_remove(&place) else {
            return Ok(());
        };
        for plan in &plans {
            self.end(call, plan)?;
        }
        Ok(())
    }

    /// A call of this plan leaves.
    fn end(&mut self, call: &Traced, plan: &Plan) -> Result<(), Stop> {
        if plan.begin.is_some() && plan.end.is_none() {
            return Ok(());
        }
        self.write_end(call, plan)?;
        self.converter.change(call, &plan.after)
    }

    /// Adds the messages and the end of a call that returned.
    fn write_end(&mut self, call: &Traced, plan: &Plan) -> Result<(), Stop> {
        let Some(end) = &plan.end else {
            return Ok(());
        };
        self.converter.tell_of_end(call, &plan.after)?;
        let number = plan.number;
        for message in &plan.messages {
            let said = format!(in self.alloc; "message {number} {message}")?;
            self.converter
                .write(call.left_at, call.thread, said.as_str())?;
        }
        let said = format!(in self.alloc; "end {number} {end}")?;
        self.converter
            .write(call.left_at, call.thread, said.as_str())
    }

    /// A thread ends, and with its last one its process.
    fn end_thread(&mut self, call: &Traced, process: u64) -> Result<(), Stop> {
        let thread = call.thread;
        self.threads.swap_remove(&thread);
        let count = self.counts.get(&process).copied().unwrap_or(0);
        let left = count.saturating_sub(1);
        self.counts.insert(process, left)?;
        if left > 0 {
            return Ok(());
        }
        self.converter.drop_all(call.entered_at, thread)?;
        self.converter.write(call.entered_at, thread, "exit")
    }
}
