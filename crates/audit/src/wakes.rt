//! What becomes of a thread that sleeps at a page which a call has found there: whether anybody wakes it.

use crate::cases::stopped_at;
use crate::notes::StoppedCall;
use call_log::log::Log;
use call_log::log_call::{LogCall, has_put};
use call_log::pages::Range;
use foundation::NoMemory;
use std::alloc::Global;
use uffd_log::{Answer, Call};

/// A call that has stopped at a page which the log had put.
#[derive(Clone, Copy)]
pub(crate) struct SecondInstall {
    pub(crate) call: u32,
    object: u64,
    page: u64,
    /// The line where it ends.
    end: u32,
    /// Whether a thread sleeps there.
    waits: bool,
    /// Whether the call that has put the page woke nobody, and no other call has since.
    is_silent: bool,
    /// Whether a later call wakes the threads there.
    is_woken: bool,
}

impl SecondInstall {
    /// Whether a thread sleeps there that nobody wakes.
    pub(crate) fn is_left_asleep(&self) -> bool {
        self.waits && self.is_silent && !self.is_woken
    }

    /// A call has returned that has put the page, or wakes the threads there.
    fn note(&mut self, call: &LogCall) {
        let wakes = call.is_waking();
        if self.end < call.end {
            self.is_woken = self.is_woken || wakes;
        } else {
            self.is_silent = !wakes;
        }
    }
}

fn twice_of(log: &Log, stopped: StoppedCall) -> Option<SecondInstall> {
    let call = log.call(stopped.call)?;
    Some(SecondInstall {
        call: stopped.call,
        object: call.object()?,
        page: stopped_at(log, &call),
        end: call.end,
        waits: stopped.waits,
        is_silent: false,
        is_woken: false,
    })
}

/// The pages that a call has put, or at which it wakes threads. One that ends their registration is no answer to these.
fn pages_changed(log: &Log, call: &LogCall) -> Option<Range> {
    let puts = call.install_mode().is_some() && has_put(call);
    if matches!(call.call, Call::Unregister { .. }) || !puts && !call.is_waking() {
        return None;
    }
    let range = log.pages_of(call)?;
    let count = match call.answer {
        Some(
            Answer::Failed {
                bytes: Some(done),
                ..
            },
        ) => range.count.min(log.size.number(done)),
        _ => range.count,
    };
    Some(Range { count, ..range })
}

/// Notes a call that returned with those of these calls at whose pages it has done anything. They are in the order of objects and pages.
fn note_call(twice: &mut Vec<SecondInstall>, log: &Log, call: &LogCall) {
    let (Some(object), Some(range)) = (call.object(), pages_changed(log, call)) else {
        return;
    };
    let first = twice.partition_point(|one| (one.object, one.page) < (object, range.first));
    for one in twice.iter_mut().skip(first) {
        if one.object != object || !range.contains(one.page) {
            return;
        }
        one.note(call);
    }
}

/// These calls, each with what becomes of the threads at its page.
pub(crate) fn find_wakes(
    alloc: Global,
    log: &Log,
    stopped: &[StoppedCall],
) -> Result<Vec<SecondInstall>, NoMemory> {
    let mut twice = Vec::new(alloc);
    for one in stopped {
        if let Some(one) = twice_of(log, *one) {
            twice.push(one)?;
        }
    }
    if twice.is_empty() {
        return Ok(twice);
    }
    twice.sort_by_key(|one| (one.object, one.page))?;
    for place in &log.ends {
        if let Some(call) = log.call(*place) {
            note_call(&mut twice, log, &call);
        }
    }
    Ok(twice)
}
