//! The type that callers see: the source of a migration.

ghost use Rattle.std.specs.Prelude.{◌≡◌, ◌↔◌, true, false, length, IfOk, Err};
ghost use Rattle.mig_model.specs.Source as machine;
ghost use Rattle.vcpu.specs.Answers.{is_count};

mod back;
mod checks;
mod commands;
mod handler;
mod laws;
mod pushes;
mod recovery;
mod rounds;
mod runs;

use dirty_log::DirtyLog;
use mig_base::flags::{ALL_FEATURES, API};
use mig_base::phase::SourcePhase;
use mig_base::{NoMemory, PageNo, PageSet};
use std::alloc::Global;
use std::collections::VecDeque;
use std::marker::Model;
use uffd_ioctl::Space;
use vcpu::{Cpus, NewFault};

/// The source of a migration.
///
/// A call that is refused changes nothing. If several refusals apply, a call returns the first in the order of
/// [`mig_base::refusal::Refusal`]; `NoMemory` comes after all others, and the same call may succeed later. The caller must know
/// whether the link is up: a source sends, and does not see whether what it sends arrives.
#[derive(Drop)]
pub struct Source {
    alloc: Global,
    phase: SourcePhase,
    switched: bool,
    epoch: u32,
    end_epoch: u32,
    space: Space,
    cpus: Cpus,
    log: DirtyLog,
    remaining: PageSet,
    asked: VecDeque<PageNo>,
    urgent_sent: u32,
    packaged: u32,
    rounds: u32,
    pages_sent: u64,
    faults: u64,
}

impl Model for Source {
    ghost use Rattle.mig_model.specs.Source as machine;
    ghost use Rattle.precopy.specs.Codes.{coded_source};
    ghost use Rattle.precopy.specs.Order.{HasRightGuest, IsInOrder};

    ghost Value = { machine.Source };

    ghost coded = { coded_source };

    ghost view = { λ s. record { phase = s.phase; switched = s.switched; epoch = s.epoch; end_epoch = s.end_epoch; guest = record { space = s.space; cpus = s.cpus }; log = s.log; remaining = s.remaining; asked = s.asked.items; urgent_sent = s.urgent_sent; packaged = s.packaged; rounds = s.rounds; pages_sent = s.pages_sent; faults = s.faults } };

    ghost invariant = { λ s. IsInOrder s.phase s.switched s.space s.log × HasRightGuest s.space.host s.cpus };
}

impl Source {
    /// A source with `cpus` idle processors, on which nothing is mapped and no migration has begun. Its counts of epochs and of rounds
    /// begin at the numbers given. Its userfault object is enabled for all its features. `NoCpu` unless there are 1 to 16 processors;
    /// `NoMemory` if they cannot be allocated.
    pub fn new(alloc: Global, cpus: u8, epoch: u32, rounds: u32) -> Result<Self, NewFault>
        ensures ok { IfOk result (λ source. source ≡ machine.first_source cpus epoch rounds) }
        ensures no_cpu { (result ≡ Err NewFault.NoCpu) ↔ (is_count cpus ≡ false) }
    {
        let cpus = Cpus::new(alloc, cpus)?;
        let mut space = Space::new(alloc);
        let Ok(_) = space.handshake(API, ALL_FEATURES) else {
            unreachable!();
        };
        Ok(Source {
            alloc,
            phase: SourcePhase::Idle,
            switched: false,
            epoch,
            end_epoch: 0,
            space,
            cpus,
            log: DirtyLog::new(alloc),
            remaining: PageSet::new(alloc),
            asked: VecDeque::new(alloc),
            urgent_sent: 0,
            packaged: 0,
            rounds,
            pages_sent: 0,
            faults: 0,
        })
    }

    /// An equal source, in memory of its own. `NoMemory` if that cannot be allocated.
    pub fn copy(&self) -> Result<Self, NoMemory>
        ensures { IfOk result (λ copy. copy ≡ self.now) }
    {
        let asked = copy_pages(self.alloc, &self.asked)?;
        let remaining = self.remaining.copy()?;
        let cpus = self.cpus.copy()?;
        let log = self.log.copy()?;
        Ok(Source {
            alloc: self.alloc,
            phase: self.phase,
            switched: self.switched,
            epoch: self.epoch,
            end_epoch: self.end_epoch,
            space: self.space.duplicate()?,
            cpus,
            log,
            remaining,
            asked,
            urgent_sent: self.urgent_sent,
            packaged: self.packaged,
            rounds: self.rounds,
            pages_sent: self.pages_sent,
            faults: self.faults,
        })
    }

    /// Whether both sources are the same: their progress, their guests, what they know, what they still have to send, and their counts.
    pub fn is_same(&self, other: &Self) -> bool
        ensures { (result ≡ true) ↔ (self.now ≡ other.now) }
    {
        self.phase == other.phase
            && self.switched == other.switched
            && self.epoch == other.epoch
            && self.end_epoch == other.end_epoch
            && self.urgent_sent == other.urgent_sent
            && self.packaged == other.packaged
            && self.rounds == other.rounds
            && self.pages_sent == other.pages_sent
            && self.faults == other.faults
            && are_same_pages(&self.asked, &other.asked)
            && self.cpus.is_same(&other.cpus)
            && self.remaining.is_same(&other.remaining)
            && self.log.is_same(&other.log)
            && self.space.is_same(&other.space)
    }

    /// The phase of the source.
    pub fn phase(&self) -> SourcePhase
        ensures { result ≡ self.now.phase }
    {
        self.phase
    }

    /// Whether the source has stopped its processors for good.
    pub fn has_switched(&self) -> bool
        ensures { result ≡ self.now.switched }
    {
        self.switched
    }

    /// The epoch of the migration: each Resume begins a new one.
    pub fn epoch(&self) -> u32
        ensures { result ≡ self.now.epoch }
    {
        self.epoch
    }

    /// The owed pages that were not sent yet in this epoch.
    pub fn remaining(&self) -> &PageSet
        ensures { result.now ≡ self.now.remaining }
    {
        &self.remaining
    }

    /// The number of requests from the destination that were not served yet.
    pub fn asked(&self) -> usize
        ensures { result ≡ length self.now.asked }
    {
        self.asked.len()
    }

    /// The number of rounds of pre-copy so far, plus the number that the source was made with.
    pub fn rounds(&self) -> u32
        ensures { result ≡ self.now.rounds }
    {
        self.rounds
    }

    /// The number of pages that were sent, on either wire. The count stops at its greatest value.
    pub fn pages_sent(&self) -> u64
        ensures { result ≡ self.now.pages_sent }
    {
        self.pages_sent
    }

    /// The number of page fault messages that were read. The count stops at its greatest value.
    pub fn faults(&self) -> u64
        ensures { result ≡ self.now.faults }
    {
        self.faults
    }

    /// The address space of its guest.
    pub fn space(&self) -> &Space
        ensures { result.now ≡ self.now.guest.space }
    {
        &self.space
    }

    /// The processors of its guest.
    pub fn cpus(&self) -> &Cpus
        ensures { result.now ≡ self.now.guest.cpus }
    {
        &self.cpus
    }

    /// What the source knows about its pages.
    pub fn log(&self) -> &DirtyLog
        ensures { result.now ≡ self.now.log }
    {
        &self.log
    }
}

/// A copy of a queue of pages. `NoMemory` if the allocation fails.
fn copy_pages(alloc: Global, pages: &VecDeque<PageNo>) -> Result<VecDeque<PageNo>, NoMemory>
    ensures { IfOk result (λ copy. copy.items ≡ pages.now.items) }
{
    let mut copy = VecDeque::with_capacity(alloc, pages.len())?;
    for i in 0..pages.len() {
        copy.push_back(pages[i])?;
    }
    Ok(copy)
}

/// Whether two queues have the same pages in the same order.
fn are_same_pages(pages: &VecDeque<PageNo>, others: &VecDeque<PageNo>) -> bool
    ensures { (result ≡ true) ↔ (pages.now.items ≡ others.now.items) }
{
    pages == others
}
