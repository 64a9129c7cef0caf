//! The type that callers see: what a source knows about its pages.

ghost use Rattle.std.specs.Prelude.{◌≡◌, ◌↔◌, true, [], length, IfOk};
ghost use Rattle.mig_model.specs.Bounds.{ArePages};
ghost use Rattle.mig_model.specs.Log as machine;

mod handler;
mod rounds;

use crate::sets::subtract;
use mig_base::{NoMemory, PageNo, PageSet};
use std::alloc::Global;
use std::collections::VecDeque;
use std::marker::Model;
use uffd_ioctl::{PageFault, are_same_faults, copy_faults};

/// What a source knows about its pages, and the faults that its handler holds.
///
/// Always lend its calls the same [`uffd_ioctl::Space`], enabled for at least the three events, with no page below 0x10000 mapped. From
/// the first such call on, only these calls and loads, stores and map calls may change that space. A call that is refused changes
/// neither the log, nor the space, nor the processors. `NoMemory` comes after every other refusal, and the same call may succeed later.
#[derive(Drop)]
pub struct DirtyLog {
    alloc: Global,
    clean: PageSet,
    todo: PageSet,
    /// No page of `todo` lies below this one: the search for the next begins here.
    from: PageNo,
    sent: PageSet,
    held: VecDeque<PageFault>,
}

impl Model for DirtyLog {
    ghost use Rattle.mig_model.specs.Bounds.{ArePages};
    ghost use Rattle.mig_model.specs.Log as machine;
    ghost use Rattle.dirty_log.specs.Codes.{coded_log};
    ghost use Rattle.dirty_log.specs.Rounds.{HasComeTo};

    ghost Value = { machine.Log };

    ghost coded = { coded_log };

    ghost view = { λ log. record { clean = log.clean; todo = log.todo; sent = log.sent; held = log.held.items } };

    ghost invariant = { λ log. HasComeTo log.todo log.from × ArePages log.sent };
}

impl DirtyLog {
    /// A log of a source that has sent nothing and read no fault. It takes no memory.
    pub fn new(alloc: Global) -> Self
        ensures { result ≡ machine.empty_log }
    {
        DirtyLog {
            alloc,
            clean: PageSet::new(alloc),
            todo: PageSet::new(alloc),
            from: 0,
            sent: PageSet::new(alloc),
            held: VecDeque::new(alloc),
        }
    }

    /// An equal log, in memory of its own. `NoMemory` if that cannot be allocated.
    pub fn copy(&self) -> Result<Self, NoMemory>
        ensures { IfOk result (λ copy. copy ≡ self.now) }
    {
        Ok(DirtyLog {
            alloc: self.alloc,
            clean: self.clean.copy()?,
            todo: self.todo.copy()?,
            from: self.from,
            sent: self.sent.copy()?,
            held: copy_faults(self.alloc, &self.held)?,
        })
    }

    /// Whether both logs know the same of their pages, and hold the same faults in the same order.
    pub fn is_same(&self, other: &Self) -> bool
        ensures { (result ≡ true) ↔ (self.now ≡ other.now) }
    {
        self.clean.is_same(&other.clean)
            && self.todo.is_same(&other.todo)
            && self.sent.is_same(&other.sent)
            && are_same_faults(&self.held, &other.held)
    }

    /// The pages whose newest copy sent is still right, as far as the source knows.
    pub fn clean(&self) -> &PageSet
        ensures { result.now ≡ self.now.clean }
    {
        &self.clean
    }

    /// The pages that were sent in this epoch.
    pub fn ever_sent(&self) -> &PageSet
        ensures { result.now ≡ self.now.sent }
    {
        &self.sent
    }

    /// The number of faults that were read and not resolved yet.
    pub fn held(&self) -> usize
        ensures { result ≡ length self.now.held }
    {
        self.held.len()
    }

    /// The pages that were sent in this epoch and are not clean now, as a new set: the destination must discard its copies of them. Each
    /// lies where a page may be mapped. `NoMemory` if the set cannot be allocated.
    pub fn discarded(&self) -> Result<PageSet, NoMemory>
        ensures discarded { IfOk result (λ pages.
            pages ≡ machine.less self.now.sent self.now.clean) }
        ensures pages { IfOk result (λ pages. ArePages pages) }
    {
        let mut pages = self.sent.copy()?;
        subtract(&mut pages, &self.clean);
        Ok(pages)
    }

    /// Begins a new epoch, in which nothing was sent. Held faults stay. It takes no memory.
    pub fn forget(&mut self)
        ensures { self.new ≡ machine.forgotten self.old }
    {
        self.clean = PageSet::new(self.alloc);
        self.todo = PageSet::new(self.alloc);
        self.from = 0;
        self.sent = PageSet::new(self.alloc);
    }

    /// Drops the held faults: the destination takes over the processors that sleep on their pages. It takes no memory.
    pub fn drop_held(&mut self)
        ensures { self.new ≡ record self.old { held = [] } }
    {
        self.held.clear();
    }
}
