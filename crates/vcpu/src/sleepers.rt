//! Whom a call wakes.

ghost use Rattle.std.specs.Prelude.{◌≡◌};
ghost use Rattle.mig_base.specs.Commands.{page_of};
ghost use Rattle.mig_model.specs.Cpus.{woken_if, all_woken};

use mig_base::cpu_state::CpuState;
use mig_base::{Addr, Command, PAGE_SIZE, end_page};

/// The processors that sleep on some pages.
#[derive(Clone, Copy)]
pub enum Sleepers {
    /// On the page of this number, which may lie past the address space.
    OnPage(u64),
    /// On a page from that of address `start` up to, but not including, that of address `end`.
    Between { start: Addr, end: Addr },
    /// On a page from that of address `start` up to, but not including, that of `start + len`. `len` is in bytes.
    Span { start: Addr, len: u64 },
    /// On any page.
    OnAnyPage,
}

impl Sleepers {
    ghost use Rattle.vcpu.specs.Sleepers.{are_woken};

    /// Whether a processor that sleeps on `page` is among them.
    fn contain(self, page: u64) -> bool
        ensures { result ≡ are_woken self page }
    {
        match self {
            Sleepers::OnPage(woken) => page == woken,
            Sleepers::Between { start, end } => start / PAGE_SIZE <= page && page < end / PAGE_SIZE,
            Sleepers::Span { start, len } => start / PAGE_SIZE <= page
                && page < end_page(start, len),
            Sleepers::OnAnyPage => true,
        }
    }

    /// The processor, woken if it is one of them.
    fn wake_one(self, processor: CpuState) -> CpuState
        ensures { result ≡ woken_if (are_woken self) processor }
    {
        match processor {
            CpuState::Asleep(command) if self.contain(page_of(command)) => CpuState::Woken(command),
            _ => processor,
        }
    }

    /// Wakes them.
    pub fn wake(self, processors: &mut [CpuState])
        ensures { processors.new ≡ all_woken (are_woken self) processors.old }
    {
        for processor in processors.iter_mut() {
            *processor = self.wake_one(*processor);
        }
    }
}

/// The page of a load or a store, at any address. 0 for a map call, in which no processor sleeps on a page.
fn page_of(command: Command) -> u64
    ensures { result ≡ page_of command }
{
    match command {
        Command::Load { addr, .. } | Command::Store { addr, .. } => addr / PAGE_SIZE,
        _ => 0,
    }
}
