//! How a destination takes each kind of frame. `NoMemory` changes nothing.

ghost use Rattle.std.specs.Prelude.{◌≡◌, ◌+◌, ◌<◌, ◌≤◌, true, false, length, OnOk, OnErr};
ghost use Rattle.mig_base.specs.Bytes.{zero_page};
ghost use Rattle.mig_base.specs.declared.TheConstants.{HIGH_PAGE};
ghost use Rattle.mig_base.specs.declared.phase.DestPhase.{DestPhase};
ghost use Rattle.mig_model.specs.Bounds.{AreFewPages, IsMapping};
ghost use Rattle.mig_model.specs.Destination.{arrived, copy_came, destination_ran, destination_took};
ghost use Rattle.mig_model.specs.Faults.{is_torn};
ghost use Rattle.mig_model.specs.Wire as wire;

use crate::arrival::Arrival;
use crate::destination::Destination;
use crate::kept::Kept;
use area_map::AreaMap;
use mig_base::phase::{DestPhase, Received};
use mig_base::{NoMemory, PageBytes, PageNo, PageSet};
use owed_pages::Owed;
use page_stream::{Pages, Waiting};

impl Destination {
    /// A migration begins.
    pub(super) fn advise(&mut self, epoch: u32)
        ensures { self.new ≡ destination_took self.old epoch wire.Frame.Advise }
    {
        self.phase = DestPhase::Advised;
        self.epoch = epoch;
        self.urgent_taken = 0;
    }

    /// The copy of a page has arrived. Before the run it is kept; from then on it waits to be installed.
    pub(super) fn page_came(&mut self, page: PageNo, bytes: PageBytes) -> Result<(), NoMemory>
        requires { page < HIGH_PAGE }
        ensures ok { OnOk result (self.new ≡
            copy_came self.old.has_run self.old (record { page = page; bytes = bytes })) }
        ensures err { OnErr result (self.new ≡ self.old) }
    {
        if self.has_run {
            self.page_waits(page, bytes)
        } else {
            self.kept.keep(page, bytes)
        }
    }

    /// A page of zeros has come. Before the run it is kept; from then on it waits to be installed.
    pub(super) fn zero_came(&mut self, page: PageNo) -> Result<(), NoMemory>
        requires { page < HIGH_PAGE }
        ensures ok { OnOk result (self.new ≡
            copy_came self.old.has_run self.old (record { page = page; bytes = zero_page })) }
        ensures err { OnErr result (self.new ≡ self.old) }
    {
        if self.has_run {
            self.zero_waits(page)
        } else {
            self.kept.keep_zero(page)
        }
    }

    /// The copy of a page waits to be installed.
    pub(super) fn page_waits(&mut self, page: PageNo, bytes: PageBytes) -> Result<(), NoMemory>
        ensures ok { OnOk result (self.new ≡
            arrived self.old (record { page = page; bytes = bytes })) }
        ensures err { OnErr result (self.new ≡ self.old) }
    {
        self.arrivals.push_back(Arrival::new(page, Some(bytes)))?;
        Ok(())
    }

    /// A page of zeros waits to be installed.
    pub(super) fn zero_waits(&mut self, page: PageNo) -> Result<(), NoMemory>
        ensures ok { OnOk result (self.new ≡
            arrived self.old (record { page = page; bytes = zero_page })) }
        ensures err { OnErr result (self.new ≡ self.old) }
    {
        self.arrivals.push_back(Arrival::new(page, None))?;
        Ok(())
    }

    /// Copies of neighbouring pages have arrived and are kept; a Run comes only before the run.
    pub(super) fn run_came(&mut self, first: PageNo, pages: Pages) -> Result<(), NoMemory>
        requires { first + length pages ≤ HIGH_PAGE }
        ensures ok { OnOk result (self.new ≡
            record self.old { kept = wire.kept_after self.old.kept (wire.Frame.Run first pages) }) }
        ensures err { OnErr result (self.new ≡ self.old) }
    {
        self.kept.keep_run(first, pages.into_vec())
    }

    /// Discards the copies that are out of date.
    pub(super) fn discard(&mut self, pages: &PageSet)
        ensures { self.new ≡
            record self.old {
              phase = DestPhase.Discarding;
              kept = wire.kept_after self.old.kept
                  (wire.Frame.Discard pages.now);
            } }
    {
        self.kept.discard(pages);
        self.phase = DestPhase::Discarding;
    }

    /// A Package has arrived: the destination runs, in a space of these areas with the kept pages, and is owed these pages.
    pub(super) fn run(
        &mut self,
        areas: &AreaMap,
        owed: &PageSet,
        commands: &Waiting,
    ) -> Result<(), NoMemory>
        requires mapping { IsMapping areas.now }
        requires few { AreFewPages owed.now }
        requires whole { is_torn self.old.kept areas.now owed.now ≡ false }
        requires cpus { length commands.now ≡ length self.old.guest.cpus }
        ensures ok { OnOk result (self.new ≡
            destination_ran self.old areas.now owed.now commands.now) }
        ensures err { OnErr result (self.new ≡ self.old) }
    {
        let owed = Owed::new(self.alloc, owed)?;
        let areas = areas.copy()?;
        self.space = self.kept.assemble(areas)?;
        self.cpus.take_over(commands.as_slice());
        self.held.clear();
        self.owed = owed;
        self.has_run = true;
        self.phase = DestPhase::Running;
        Ok(())
    }

    /// Nothing more is sent.
    pub(super) fn end(&mut self)
        ensures { self.new ≡ record self.old { phase = DestPhase.Ended; ended = true } }
    {
        self.phase = DestPhase::Ended;
        self.ended = true;
    }

    /// The channel is up again, in a new epoch. A destination that has not run discards its kept copies, since copies may have been lost.
    pub(super) fn resume(&mut self, epoch: u32)
        ensures { self.new ≡ destination_took self.old epoch wire.Frame.Resume }
    {
        match self.received() {
            Received::NotRun => {
                self.kept = Kept::new(self.alloc);
                self.phase = DestPhase::Advised;
            }
            Received::Running => self.phase = DestPhase::Running,
            Received::Ended => self.phase = DestPhase::Ended,
        }
        self.epoch = epoch;
        self.urgent_taken = 0;
    }
}
