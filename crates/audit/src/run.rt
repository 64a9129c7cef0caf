//! A run of a log: its lines in their order, with the effects of calls put in between, and what no line shows.

use call_log::call_table::narrow;
use foundation::NoMemory;
use kernel_rules::Move;
use std::alloc::Global;

/// A thread that finds that it has to wait at a page.
#[derive(Clone, Copy)]
struct Sight {
    thread: u64,
    object: u64,
    page: u64,
    flags: u64,
}

/// A step of a run other than a line: the call at this place of the log takes effect, or is refused with EAGAIN, or takes its
/// messages one after another; or something that no line shows, by its place in a list of
/// the run.
#[derive(Clone, Copy)]
pub(crate) enum RunStep {
    Effect(u32),
    Refuses(u32),
    Starts(u32),
    Reads(u32),
    Sees(u32),
    Queues(u32),
    Leaves(u32),
    Other(u32),
}

/// A step, with the number of lines before it.
#[derive(Clone, Copy)]
pub(crate) struct Step {
    pub(crate) lines: u32,
    pub(crate) what: RunStep,
}

/// A step that was put in before another one, which is named by its place.
#[derive(Clone, Copy)]
pub(crate) struct InsertedStep {
    pub(crate) before: u32,
    pub(crate) what: RunStep,
}

#[derive(Drop)]
pub(crate) struct Run {
    pub(crate) steps: Vec<Step>,
    pub(crate) late: Vec<InsertedStep>,
    sights: Vec<Sight>,
    /// Of the threads that queue their fault or leave it.
    threads: Vec<u64>,
    /// The rest of what no line shows.
    others: Vec<Move>,
    lines: u32,
}

impl Run {
    pub(crate) fn new(alloc: Global) -> Run {
        Run {
            steps: Vec::new(alloc),
            late: Vec::new(alloc),
            sights: Vec::new(alloc),
            threads: Vec::new(alloc),
            others: Vec::new(alloc),
            lines: 0,
        }
    }

    /// The number of steps other than lines.
    pub(crate) fn len(&self) -> Result<u32, NoMemory> {
        narrow(self.steps.len())
    }

    /// The next line of the log.
    pub(crate) fn add_line(&mut self) {
        self.lines = self.lines.saturating_add(1);
    }

    /// A step before the next line.
    pub(crate) fn add(&mut self, what: RunStep) -> Result<(), NoMemory> {
        let lines = self.lines;
        self.steps.push(Step { lines, what })?;
        Ok(())
    }

    pub(crate) fn add_unseen(&mut self, unseen: Move) -> Result<(), NoMemory> {
        let what = self.keep(unseen)?;
        self.add(what)
    }

    /// Keeps what no line shows.
    fn keep(&mut self, unseen: Move) -> Result<RunStep, NoMemory> {
        match unseen {
            Move::Sees {
                thread,
                object,
                page,
                flags,
            } => {
                let place = narrow(self.sights.len())?;
                self.sights.push(Sight {
                    thread,
                    object,
                    page,
                    flags,
                })?;
                Ok(RunStep::Sees(place))
            }
            Move::Queues { thread } => Ok(RunStep::Queues(self.keep_thread(thread)?)),
            Move::Leaves { thread } => Ok(RunStep::Leaves(self.keep_thread(thread)?)),
            _ => {
                let place = narrow(self.others.len())?;
                self.others.push(unseen)?;
                Ok(RunStep::Other(place))
            }
        }
    }

    fn keep_thread(&mut self, thread: u64) -> Result<u32, NoMemory> {
        let place = narrow(self.threads.len())?;
        self.threads.push(thread)?;
        Ok(place)
    }

    /// What a step does that no line shows. Calls are named by their places in the log.
    pub(crate) fn unseen(&self, what: RunStep) -> Option<Move> {
        match what {
            RunStep::Effect(_) | RunStep::Refuses(_) | RunStep::Starts(_) | RunStep::Reads(_) =>
                None,
            RunStep::Sees(place) => {
                let Sight {
                    thread,
                    object,
                    page,
                    flags,
                } = self.sights.get(place as usize).copied()?;
                Some(Move::Sees {
                    thread,
                    object,
                    page,
                    flags,
                })
            }
            RunStep::Queues(place) => {
                let thread = self.threads.get(place as usize).copied()?;
                Some(Move::Queues { thread })
            }
            RunStep::Leaves(place) => {
                let thread = self.threads.get(place as usize).copied()?;
                Some(Move::Leaves { thread })
            }
            RunStep::Other(place) => self.others.get(place as usize).copied(),
        }
    }

    /// Puts a step in before another one, and after those that were put in before that.
    pub(crate) fn put_unseen_before(&mut self, before: u32, unseen: Move) -> Result<(), NoMemory> {
        let what = self.keep(unseen)?;
        self.late.push(InsertedStep { before, what })?;
        Ok(())
    }

    /// The same of the effect of a call.
    pub(crate) fn put_effect_before(&mut self, before: u32, call: u32) -> Result<(), NoMemory> {
        let what = RunStep::Effect(call);
        self.late.push(InsertedStep { before, what })?;
        Ok(())
    }

    /// Whether a thread sees or leaves a page in a step from this one on.
    pub(crate) fn has_access_from(&self, first: u32) -> bool {
        for step in self.steps.get(first as usize..).unwrap_or(&[]) {
            if matches!(step.what, RunStep::Sees(_) | RunStep::Leaves(_)) {
                return true;
            }
        }
        false
    }

    /// The steps that were put in later, in their order.
    pub(crate) fn sorted_late(&self, alloc: Global) -> Result<Vec<InsertedStep>, NoMemory> {
        let mut late = Vec::new(alloc);
        late.extend_from_slice(&self.late)?;
        late.sort_by_key(|step| step.before)?;
        Ok(late)
    }
}
