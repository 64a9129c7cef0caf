//! The state of a run, which its threads share.

use rig::{Gate, Pass, StepKind, Worker};
use std::sync::Wait;
use std::sync::atomic::{AtomicBool, AtomicU64, Ordering};
use std::thread;

/// The state that the threads of a run share beside the rig.
#[derive(Drop)]
pub struct Course {
    /// The number of calls that the processors have made. One that stops early counts its other calls too.
    calls: AtomicU64,
    /// Whether the migration may end: no cut is still to come.
    may_end: AtomicBool,
    /// Whether the workers have nothing more to do.
    is_over: AtomicBool,
    /// Whether a thread could not be started, or memory for one was refused.
    is_lacking: AtomicBool,
    /// How often each worker has asked for a turn.
    source: AtomicU64,
    dest: AtomicU64,
    serve: AtomicU64,
    push: AtomicU64,
}

/// How often each worker of a run has asked for a turn: in each epoch at least once, if it was started.
#[derive(Clone, Copy, Debug, PartialEq, Eq)]
pub struct Asked {
    /// The worker of the source.
    pub source: u64,
    /// The worker of the destination.
    pub dest: u64,
    /// Those that served requests, one in each epoch.
    pub serve: u64,
    /// Those that pushed pages, one in each epoch.
    pub push: u64,
}

impl Gate for Course {
    /// Stops the workers once the run is over, and skips the source's End while a cut may come.
    fn pass(&self, who: Worker, next: StepKind, _turn: u64) -> Pass {
        self.asked_by(who).fetch_add(1, Ordering::SeqCst);
        if self.is_over() {
            Pass::Stop
        } else if next == StepKind::End && !self.may_end.load(Ordering::SeqCst) {
            Pass::Skip
        } else {
            Pass::Go
        }
    }
}

impl Course {
    /// The state at the start of a run: no call was made, a cut may come, and nothing is lacking.
    pub fn new() -> Course {
        Course {
            calls: AtomicU64::new(0),
            may_end: AtomicBool::new(false),
            is_over: AtomicBool::new(false),
            is_lacking: AtomicBool::new(false),
            source: AtomicU64::new(0),
            dest: AtomicU64::new(0),
            serve: AtomicU64::new(0),
            push: AtomicU64::new(0),
        }
    }

    /// Where the turns of a worker are counted.
    fn asked_by(&self, who: Worker) -> &AtomicU64 {
        match who {
            Worker::Source => &self.source,
            Worker::Dest => &self.dest,
            Worker::Serve => &self.serve,
            Worker::Push => &self.push,
        }
    }

    /// How often each worker has asked for a turn so far.
    pub fn asked(&self) -> Asked {
        Asked {
            source: self.source.load(Ordering::SeqCst),
            dest: self.dest.load(Ordering::SeqCst),
            serve: self.serve.load(Ordering::SeqCst),
            push: self.push.load(Ordering::SeqCst),
        }
    }

    /// Counts calls that a processor has made, or will not make.
    pub fn count(&self, calls: u64) {
        self.calls.fetch_add(calls, Ordering::SeqCst);
    }

    /// Waits until at least `calls` calls were counted.
    pub fn wait_for_calls<R: Wait>(&self, rt: &R, calls: u64) {
        for _ in rt.forever() {
            if self.calls.load(Ordering::SeqCst) >= calls {
                return;
            }
            thread::yield_now();
        }
    }

    /// Lets the migration end: no cut is still to come.
    pub fn let_end(&self) {
        self.may_end.store(true, Ordering::SeqCst);
    }

    /// Has the workers end at their next turn.
    pub fn end(&self) {
        self.is_over.store(true, Ordering::SeqCst);
    }

    /// Whether the workers are to end.
    pub fn is_over(&self) -> bool {
        self.is_over.load(Ordering::SeqCst)
    }

    /// Notes that a thread could not be started, or that memory for one was refused.
    pub fn lack(&self) {
        self.is_lacking.store(true, Ordering::SeqCst);
    }

    /// Whether a thread could not be started, or memory for one was refused.
    pub fn is_lacking(&self) -> bool {
        self.is_lacking.load(Ordering::SeqCst)
    }
}
