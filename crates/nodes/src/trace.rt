//! The trace of a node: the steps that it has made, as lines of a script.

ghost use Rattle.std.specs.Prelude.{◌≡◌, ◌<◌, true, IfSome, IsSome, IsTrue, ◌↔◌, Some, OnOk, string_bytes};
ghost use Rattle.mig_base.specs.declared.schedule.Step.TheVariants.{Issue};
ghost use Rattle.nodes.specs.Traces.{HasRoom, and_line, begun, first_line, line_of, line_text, lines_in, trace_of, without_line};

use grammar::{Order, OrderText};
use mig_base::effect::Effect;
use mig_base::schedule::{Step, Ticket};
use mig_base::{Addr, Command, NoMemory, Reply};
use std::alloc::Global;
use std::collections::VecDeque;

/// Most lines are shorter: it makes the room that they need at once.
const USUAL_BYTES: usize = 96;

/// A line of a trace: a step that was made, and its effect.
#[derive(Clone, Copy, Debug, PartialEq, Eq)]
pub struct TraceLine {
    pub step: Step,
    pub effect: Effect,
}

impl TraceLine {
    /// Replaces a text by the line, with its line feed: the order of the step as a line of a script, ` => `, and what a run prints for it.
    pub fn print(&self, text: &mut String) -> Result<(), NoMemory>
        ensures { OnOk result (string_bytes text.new ≡ line_text self.now) }
    {
        text.clear();
        text.try_reserve(USUAL_BYTES)?;
        let order = OrderText(Order::of(self.step));
        let effect = self.effect;
        write!(text, "{order} => {effect}\n")?;
        Ok(())
    }
}

/// How a line is kept until it is taken: in 24 bytes for the store of a page that is entered, and where a page moves without a fault; else in a
/// place of its own.
#[derive(Drop)]
pub(crate) enum Kept {
    /// A page of zeros was pushed.
    Pushed {
        ticket: Ticket,
        addr: Addr,
    },
    /// One was pushed on the urgent wire.
    PushedUrgent {
        ticket: Ticket,
        addr: Addr,
    },
    /// A page of zeros was taken.
    Took {
        n: u64,
        addr: Addr,
    },
    /// One was taken from the urgent wire.
    TookUrgent {
        n: u64,
        addr: Addr,
    },
    /// A copy was installed.
    Installed {
        addr: Addr,
        origin: Addr,
    },
    /// A processor stored, as for each page that is entered before a migration.
    Stored {
        cpu: u8,
        width: u8,
        by: u8,
        addr: Addr,
        value: u64,
    },
    /// Any other line.
    Other(Box<TraceLine>),
}

impl Kept {
    /// The short form of a line, if it has one.
    fn short(line: TraceLine) -> Option<Kept>
        ensures { IfSome result (λ kept. line_of kept ≡ line) }
    {
        match line.step {
            Step::Push(ticket) => match line.effect {
                Effect::SentZero { addr } => Some(Kept::Pushed { ticket, addr }),
                _ => None,
            },
            Step::PushUrgent(ticket) => match line.effect {
                Effect::SentZero { addr } => Some(Kept::PushedUrgent { ticket, addr }),
                _ => None,
            },
            Step::Deliver { n } => match line.effect {
                Effect::TookZero { addr } => Some(Kept::Took { n, addr }),
                _ => None,
            },
            Step::DeliverUrgent { n } => match line.effect {
                Effect::TookZero { addr } => Some(Kept::TookUrgent { n, addr }),
                _ => None,
            },
            Step::Install => match line.effect {
                Effect::Installed { addr, origin } => Some(Kept::Installed { addr, origin }),
                _ => None,
            },
            Step::Issue { cpu, command } => Kept::stored(cpu, command, line.effect),
            _ => None,
        }
    }

    /// The short form of the line of a store that was made at once.
    fn stored(cpu: u8, command: Command, effect: Effect) -> Option<Kept>
        ensures { IfSome result (λ kept.
            line_of kept ≡ record { step = Issue cpu command; effect = effect }) }
    {
        let Command::Store { addr, width, value } = command else {
            return None;
        };
        let Effect::Answered {
            cpu: by,
            reply: Reply::Done,
        } = effect
        else {
            return None;
        };
        Some(Kept::Stored {
            cpu,
            width,
            by,
            addr,
            value,
        })
    }

    /// The line.
    fn line(&self) -> TraceLine
        ensures { result ≡ line_of self.now }
    {
        let (step, effect) = match self {
            Kept::Pushed { ticket, addr } => (
                Step::Push(*ticket),
                Effect::SentZero { addr: *addr },
            ),
            Kept::PushedUrgent { ticket, addr } => {
                (Step::PushUrgent(*ticket), Effect::SentZero { addr: *addr })
            }
            Kept::Took { n, addr } => (Step::Deliver { n: *n }, Effect::TookZero { addr: *addr }),
            Kept::TookUrgent { n, addr } => {
                (
                    Step::DeliverUrgent { n: *n },
                    Effect::TookZero { addr: *addr },
                )
            }
            Kept::Installed { addr, origin } => (
                Step::Install,
                Effect::Installed {
                    addr: *addr,
                    origin: *origin,
                },
            ),
            Kept::Stored {
                cpu,
                width,
                by,
                addr,
                value,
            } => {
                let command = Command::Store {
                    addr: *addr,
                    width: *width,
                    value: *value,
                };
                let effect = Effect::Answered {
                    cpu: *by,
                    reply: Reply::Done,
                };
                (Step::Issue { cpu: *cpu, command }, effect)
            }
            Kept::Other(line) => return **line,
        };
        TraceLine { step, effect }
    }
}

/// The lines that wait to be taken, oldest first, if there is a trace.
#[derive(Drop)]
pub(crate) struct Lines {
    pub(crate) on: bool,
    pub(crate) waiting: VecDeque<Kept>,
    /// A place for a line without a short form. What it has is of no meaning.
    pub(crate) spare: Option<Box<TraceLine>>,
    alloc: Global,
}

impl Lines {
    /// No trace. It takes no memory.
    pub(crate) fn new(alloc: Global) -> Lines
        ensures { trace_of result ≡ None }
    {
        Lines {
            on: false,
            waiting: VecDeque::new(alloc),
            spare: None,
            alloc,
        }
    }

    /// Begins a trace. One that is on stays as it is.
    pub(crate) fn begin(&mut self)
        ensures { trace_of self.new ≡ begun (trace_of self.old) }
    {
        if !self.on {
            self.waiting.clear();
            self.on = true;
        }
    }

    /// Ends the trace, and frees its lines.
    pub(crate) fn end(&mut self, alloc: Global)
        ensures { trace_of self.new ≡ None }
    {
        *self = Lines::new(alloc);
    }

    /// Makes room for a line, whatever it will say, if there is a trace.
    pub(crate) fn reserve(&mut self) -> Result<(), NoMemory>
        ensures stays { trace_of self.new ≡ trace_of self.old }
        ensures room { OnOk result (HasRoom self.new) }
    {
        if !self.on {
            return Ok(());
        }
        self.waiting.try_reserve(1)?;
        if self.spare.is_none() {
            let line = TraceLine {
                step: Step::Start,
                effect: Effect::EndSent,
            };
            self.spare = Some(Box::new(self.alloc, line)?);
        }
        Ok(())
    }

    /// Adds a line, if there is a trace.
    pub(crate) fn add(&mut self, step: Step, effect: Effect)
        requires { HasRoom self.old }
        ensures { trace_of self.new ≡ and_line (trace_of self.old) step effect }
    {
        if !self.on {
            return;
        }
        let line = TraceLine { step, effect };
        let kept = match Kept::short(line) {
            Some(kept) => kept,
            None => self.place(line),
        };
        self.waiting.push_back_reserved(kept);
    }

    /// The line in the spare place.
    fn place(&mut self, line: TraceLine) -> Kept
        requires { IsSome self.old.spare }
        ensures line { line_of result ≡ line }
        ensures on { self.new.on ≡ self.old.on }
        ensures waiting { self.new.waiting ≡ self.old.waiting }
    {
        let Some(mut place) = self.spare.take() else {
            unreachable!()
        };
        *place = line;
        Kept::Other(place)
    }

    /// The first line that waits.
    pub(crate) fn first(&self) -> Option<TraceLine>
        ensures { result ≡ first_line (trace_of self.now) }
    {
        if !self.on || self.waiting.is_empty() {
            return None;
        }
        Some(self.waiting[0].line())
    }

    /// Drops the first line that waits.
    pub(crate) fn drop_first(&mut self)
        ensures { trace_of self.new ≡ without_line (trace_of self.old) }
    {
        if self.on {
            let _ = self.waiting.pop_front();
        }
    }

    /// How many lines wait.
    pub(crate) fn count(&self) -> usize
        ensures { result ≡ lines_in (trace_of self.now) }
    {
        if self.on { self.waiting.len() } else { 0 }
    }
}
