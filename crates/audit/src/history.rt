//! What happened to one page in the run that was found: the calls that are of it, in the order in which they took effect, and what no line shows.

use crate::cases::{Case, call_case, one_page};
use crate::rule_names::Rule;
use crate::search::Search;
use crate::tellers::moved_to;
use crate::threads::named_thread;
use call_log::log::Log;
use call_log::log_call::LogCall;
use call_log::pages::Range;
use foundation::NoMemory;
use kernel_rules::fault::find;
use kernel_rules::{Fault, Move, Page, Presence};
use std::alloc::Global;
use std::fmt;
use uffd_log::{Answer, Call, Errno, Message};

/// What is known of a page, if it is registered.
#[derive(Clone, Copy)]
pub(crate) struct State(Option<Page>);

impl State {
    /// A number for what is said of it, which no other text has.
    fn rank(self) -> u32 {
        let Some(page) = self.0 else {
            return 0;
        };
        let rank = match page.presence {
            Presence::Unknown => 2,
            Presence::Missing => 4,
            Presence::Present => 6,
            Presence::Poisoned => 8,
        };
        if page.guarded { rank + 1 } else { rank }
    }
}

impl fmt::Display for State {
    fn fmt<W: fmt::Write>(&self, f: &mut fmt::Formatter<W>) -> fmt::Result {
        let text = match self.rank() {
            0 => "not registered",
            2 => "not known",
            3 => "not known, write-protected",
            4 => "missing",
            5 => "missing, write-protected",
            6 => "present",
            8 => "poisoned",
            _ => "present, write-protected",
        };
        write!(f, "{text}")
    }
}

/// What a call or a step did to the page, and how a call ended.
#[derive(Clone, Copy)]
pub(crate) struct Change {
    pub(crate) answer: Option<&'static str>,
    pub(crate) before: State,
    pub(crate) after: State,
}

impl fmt::Display for Change {
    fn fmt<W: fmt::Write>(&self, f: &mut fmt::Formatter<W>) -> fmt::Result {
        if let Some(answer) = self.answer {
            write!(f, "{answer}: ")?;
        }
        let before = self.before;
        write!(f, "{before}")?;
        if self.before.rank() != self.after.rank() {
            let after = self.after;
            write!(f, ", then {after}")?;
        }
        Ok(())
    }
}

/// A call, by its place in the log, or a step that no line shows.
#[derive(Clone, Copy)]
pub(crate) enum Action {
    Call(u32),
    Step(Move),
}

/// A page of an address space, with what is known of it and the fault of the thread that a step is of.
#[derive(Clone, Copy)]
pub(crate) struct PageState {
    space: u32,
    page: Option<Page>,
    fault: Option<Fault>,
}

/// Something that happened to the page.
#[derive(Clone, Copy)]
struct Happening {
    action: Action,
    /// The line of the log that was looked at.
    line: u32,
    seen: PageState,
    after: Option<Page>,
}

/// What is noted of the page that is asked for.
#[derive(Drop)]
pub(crate) struct History {
    page: Option<u64>,
    happened: Vec<Happening>,
}

impl History {
    /// The history of a page, by its number, or of none.
    pub(crate) fn new(alloc: Global, page: Option<u64>) -> History {
        History {
            page,
            happened: Vec::new(alloc),
        }
    }

    /// The cases of a log, one for each thing that happened, in their order.
    pub(crate) fn cases(&self, alloc: Global, log: &Log) -> Result<Vec<Case>, NoMemory> {
        let mut cases = Vec::new(alloc);
        let Some(page) = self.page else {
            return Ok(cases);
        };
        for happening in &self.happened {
            if let Some(case) = case_of(log, page, happening) {
                cases.push(case)?;
            }
        }
        Ok(cases)
    }
}

/// The pages of bytes from one address to another.
fn pages_between(log: &Log, start: u64, end: u64) -> Range {
    log.size.range(start, end.saturating_sub(start))
}

/// Whether a message is of a page.
fn is_of(log: &Log, message: &Message, page: u64) -> bool {
    match *message {
        Message::Fault { addr, .. } => log.size.number(addr) == page,
        Message::Remove { start, end } | Message::Unmap { start, end } => {
            pages_between(log, start, end).contains(page)
        }
        Message::Remap { from, to, len } => {
            log.size.range(from, len).contains(page) || log.size.range(to, len).contains(page)
        }
        Message::Fork { .. } => false,
    }
}

/// The first message of a call that is of a page.
fn message_of(log: &Log, call: &LogCall, page: u64) -> Option<Message> {
    for message in log.messages_of(call) {
        if is_of(log, message, page) {
            return Some(*message);
        }
    }
    None
}

impl Search {
    /// The page that is asked for, if a step is of it.
    pub(crate) fn seen_by_step(&self, step: Move) -> Option<PageState> {
        let page = self.history.page?;
        let fault = match step {
            Move::Queues { thread } | Move::Leaves { thread } => {
                find(self.kernel.rules.faults(), thread)
            }
            _ => None,
        };
        let space = self.space_of_step(step, page, fault)?;
        Some(PageState {
            space,
            page: self.kernel.page(space, page),
            fault,
        })
    }

    /// The address space of a step that is of a page.
    fn space_of_step(&self, step: Move, asked: u64, fault: Option<Fault>) -> Option<u32> {
        match step {
            Move::Sees { object, page, .. } | Move::Drops { object, page } if page == asked => {
                self.kernel.space_of(object)
            }
            Move::Protects { key, page } if page == asked => {
                self.kernel.space_of(self.log.call(key)?.object()?)
            }
            Move::Clears { key } => {
                let span = self.kernel.rules.clear_span(u64::from(key))?;
                if span.first <= asked && asked < span.end {
                    u32::try_from(span.space).ok()
                } else {
                    None
                }
            }
            Move::Queues { .. } | Move::Leaves { .. } => {
                let fault = fault?;
                if fault.page == asked {
                    self.kernel.space_of(fault.object)
                } else {
                    None
                }
            }
            _ => None,
        }
    }

    /// The page that is asked for, if a call is of it.
    pub(crate) fn seen_by_call(&self, call: &LogCall) -> Option<PageState> {
        let page = self.history.page?;
        let space = self.space_of_call(call, page)?;
        Some(PageState {
            space,
            page: self.kernel.page(space, page),
            fault: None,
        })
    }

    /// The address space of a call that is of a page.
    fn space_of_call(&self, call: &LogCall, page: u64) -> Option<u32> {
        let pages = self.log.pages_of(call);
        let is_there = pages.is_some_and(|range| range.contains(page));
        if call.is_map_call() {
            let is_of = is_there
                || moved_to(self.log.size, call).is_some_and(|to| to.contains(page));
            return if is_of { Some(call.space) } else { None };
        }
        let object = call.object()?;
        let space = self.kernel.space_of(object)?;
        let is_of = match call.call {
            Call::Read { .. } => message_of(&self.log, call, page).is_some(),
            Call::Close { .. } => call.last && self.watches(object, space, page),
            _ => is_there,
        };
        if is_of { Some(space) } else { None }
    }

    /// Whether a page is registered with an object.
    fn watches(&self, object: u64, space: u32, page: u64) -> bool {
        match self.kernel.page(space, page) {
            Some(found) => found.object == object,
            None => false,
        }
    }

    /// Notes what was done, if it was of the page that is asked for.
    pub(crate) fn note_action(
        &mut self,
        action: Action,
        seen: Option<PageState>,
    ) -> Result<(), NoMemory> {
        let (Some(seen), Some(page)) = (seen, self.history.page) else {
            return Ok(());
        };
        let line = self.line;
        let after = self.kernel.page(seen.space, page);
        self.history.happened.push(Happening {
            action,
            line,
            seen,
            after,
        })?;
        Ok(())
    }
}

/// How a call ended, in the words of a log.
fn word_of(answer: Answer) -> &'static str {
    let errno = match answer {
        Answer::Failed { errno, .. } => errno,
        Answer::Interrupted => return "interrupted",
        _ => return "ok",
    };
    match errno {
        Errno::Eperm => "EPERM",
        Errno::Enoent => "ENOENT",
        Errno::Esrch => "ESRCH",
        Errno::Eintr => "EINTR",
        Errno::Eagain => "EAGAIN",
        Errno::Enomem => "ENOMEM",
        Errno::Efault => "EFAULT",
        Errno::Ebusy => "EBUSY",
        Errno::Eexist => "EEXIST",
        Errno::Einval => "EINVAL",
        Errno::Other => "another error",
    }
}

/// What a step is called that is none of a call.
fn name_of(step: Move) -> &'static str {
    match step {
        Move::Sees { .. } => "a thread finds it so",
        Move::Queues { .. } => "the fault is queued",
        Move::Leaves { .. } => "the thread waits no more",
        Move::Clears { .. } => "the call clears it",
        Move::Drops { .. } => "the kernel takes it back",
        _ => "the call protects it first",
    }
}

/// What is said of a message.
fn kind_of(message: Option<Message>, call: &LogCall) -> (&'static str, Option<u64>) {
    match message {
        Some(Message::Fault { flags, .. }) => ("read", Some(flags)),
        Some(Message::Remove { .. }) => ("read of a REMOVE", None),
        Some(Message::Unmap { .. }) => ("read of an UNMAP", None),
        Some(Message::Remap { .. }) => ("read of a REMAP", None),
        _ => (call.word(), None),
    }
}

/// The case of a happening.
fn case_of(log: &Log, page: u64, happening: &Happening) -> Option<Case> {
    let change = Change {
        answer: None,
        before: State(happening.seen.page),
        after: State(happening.after),
    };
    match happening.action {
        Action::Call(place) => case_of_call(log, place, page, change),
        Action::Step(step) => case_of_step(log, step, page, happening, change),
    }
}

fn case_of_call(log: &Log, place: u32, page: u64, change: Change) -> Option<Case> {
    let call = log.call(place)?;
    let message = message_of(log, &call, page);
    let (word, flags) = kind_of(message, &call);
    let case = call_case(log, Rule::Page, &call);
    Some(Case {
        word,
        flags,
        range: if message.is_some() {
            Some(one_page(page))
        } else {
            case.range
        },
        change: Some(Change {
            answer: Some(word_of(call.answer?)),
            ..change
        }),
        ..case
    })
}

fn case_of_step(
    log: &Log,
    step: Move,
    page: u64,
    happening: &Happening,
    change: Change,
) -> Option<Case> {
    let word = name_of(step);
    let range = Some(one_page(page));
    let change = Some(change);
    if let Move::Clears { key } | Move::Protects { key, .. } = step {
        return Some(Case {
            word,
            range,
            change,
            ..call_case(log, Rule::Page, &log.call(key)?)
        });
    }
    let (object, thread, flags) = match (step, happening.seen.fault) {
        (
            Move::Sees {
                thread,
                object,
                flags,
                ..
            },
            _,
        ) => (object, named_thread(thread), Some(flags)),
        (Move::Drops { object, .. }, _) => (object, None, None),
        (_, Some(fault)) => (fault.object, named_thread(fault.thread), Some(fault.flags)),
        _ => return None,
    };
    Some(Case {
        rule: Rule::Page,
        line: happening.line,
        word,
        object: Some(object),
        process: happening.seen.space,
        thread,
        range,
        flags,
        since: None,
        until: None,
        reason: None,
        change,
    })
}
