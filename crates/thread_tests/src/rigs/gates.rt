//! Gates, and the commands and steps of the tests.

use mig_base::schedule::Step;
use mig_base::{Addr, Command, Place, Prot};
use rig::{Gate, Pass, Rig, StepKind, Worker};
use std::sync::Wait;
use std::sync::atomic::{AtomicBool, AtomicU64, Ordering};
use std::thread;
use std::time::{Clock, Duration};

/// Two pages, at [`LOW`](mig_base::LOW).
pub const MAP: Command = Command::Mmap {
    addr_len: 8192,
    prot: Prot::ReadWrite,
    place: Place::Anywhere,
};

/// To the first of the pages.
pub const STORE: Command = Command::Store {
    addr: 0x10000,
    width: 8,
    value: 9,
};

/// Of what is stored.
pub const STORED: Command = Command::Load {
    addr: 0x10000,
    width: 8,
};

/// Of the second.
pub const LOAD: Command = Command::Load {
    addr: 0x11000,
    width: 8,
};

/// A command of processor 0.
pub fn issue(command: Command) -> Step {
    Step::Issue { cpu: 0, command }
}

/// A store of processor 0.
pub fn store(addr: Addr, value: u64) -> Step {
    issue(Command::Store {
        addr,
        width: 8,
        value,
    })
}

/// Stops at a turn.
pub struct StopAt(pub u64);

impl Gate for StopAt {
    fn pass(&self, _who: Worker, _next: StepKind, turn: u64) -> Pass {
        if turn < self.0 { Pass::Go } else { Pass::Stop }
    }
}

/// Skips each turn before one, and stops at that.
pub struct SkipTo(pub u64);

impl Gate for SkipTo {
    fn pass(&self, _who: Worker, _next: StepKind, turn: u64) -> Pass {
        if turn < self.0 {
            Pass::Skip
        } else {
            Pass::Stop
        }
    }
}

/// Cuts the channel before turn 1, and stops at turn 4. It counts the turns before that in which a page is pushed.
#[derive(Drop)]
pub struct CutAfterFirst<'a, R> {
    pub rt: &'a R,
    pub rig: &'a Rig,
    pub pushes: AtomicU64,
}

impl<R: Wait> Gate for CutAfterFirst<'_, R> {
    fn pass(&self, _who: Worker, next: StepKind, turn: u64) -> Pass {
        if turn == 1 {
            let _ = self.rig.cut(self.rt);
        }
        if turn >= 4 {
            return Pass::Stop;
        }
        if next == StepKind::PushUrgent {
            self.pushes.fetch_add(1, Ordering::SeqCst);
        }
        Pass::Go
    }
}

/// Lets no page be installed until a store has its reply. It rests its thread at each such turn, and stops the worker after 10,000.
#[derive(Drop)]
pub struct StoreFirst<C> {
    pub clock: C,
    pub stored: AtomicBool,
    pub gave_up: AtomicBool,
    pub done: AtomicBool,
    pub asked: AtomicU64,
}

impl<C: Clock> StoreFirst<C> {
    pub fn new(clock: C) -> StoreFirst<C> {
        StoreFirst {
            clock,
            stored: AtomicBool::new(false),
            gave_up: AtomicBool::new(false),
            done: AtomicBool::new(false),
            asked: AtomicU64::new(0),
        }
    }
}

impl<C: Clock> Gate for StoreFirst<C> {
    fn pass(&self, _who: Worker, next: StepKind, _turn: u64) -> Pass {
        if self.done.load(Ordering::SeqCst) {
            return Pass::Stop;
        }
        if next != StepKind::Install || self.stored.load(Ordering::SeqCst) {
            return Pass::Go;
        }
        if self.asked.fetch_add(1, Ordering::SeqCst) >= 10_000 {
            self.gave_up.store(true, Ordering::SeqCst);
            return Pass::Stop;
        }
        thread::sleep(&self.clock, Duration::from_millis(1));
        Pass::Skip
    }
}

/// Rests the worker's thread before its first SourceRead, and stops it when told to. It notes whether that came before the first read.
#[derive(Drop)]
pub struct LateReader<C> {
    pub clock: C,
    pub rested: AtomicBool,
    pub early: AtomicBool,
    pub done: AtomicBool,
}

impl<C: Clock> Gate for LateReader<C> {
    fn pass(&self, _who: Worker, next: StepKind, _turn: u64) -> Pass {
        if next == StepKind::SourceRead && !self.rested.swap(true, Ordering::SeqCst) {
            thread::sleep(&self.clock, Duration::from_millis(50));
            let early = self.done.load(Ordering::SeqCst);
            self.early.store(early, Ordering::SeqCst);
        }
        if self.rested.load(Ordering::SeqCst) && self.done.load(Ordering::SeqCst) {
            return Pass::Stop;
        }
        Pass::Go
    }
}
