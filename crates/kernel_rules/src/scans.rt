//! What a recorder has read of the pages of an object, by the rule of `specs/Ioctls.antt`. After `NoMemory` a table is not to be used.

ghost use Rattle.std.specs.Prelude.{◌≡◌, ◌≤◌, ◌+◌, ◌/◌, ◌^◌, IfOk, OnOk};
ghost use Rattle.foundation.specs.declared.TheConstants.{PAGE_SIZE};
ghost use Rattle.kernel_rules.specs.State.{allowed};
ghost use Rattle.kernel_rules.specs.Ioctls.{scanned, settled_by, settled_in, settled_to};
ghost use Rattle.kernel_rules.specs.Held.{kernel_of, AreTables};

use crate::arguments::presence_of;
use crate::change::Change;
use crate::kernel_table::KernelTable;
use crate::known::Presence;
use crate::object::Object;
use crate::run::Run;
use foundation::{NoMemory, PAGE_SIZE};
use uffd_log::Answer;

/// The page after a run.
fn end_of(run: Run) -> u64
    ensures value { result ≡ run.start / PAGE_SIZE + run.len / PAGE_SIZE }
    ensures bound { result ≤ 2 ^ 53 }
{
    run.start / PAGE_SIZE + run.len / PAGE_SIZE
}

impl KernelTable {
    /// This is known of the pages of a range, where nothing was.
    fn settle(
        &mut self,
        space: u64,
        first: u64,
        count: u64,
        found: Presence,
    ) -> Result<(), NoMemory>
        requires tables { AreTables self.old }
        requires room { first + count ≤ 2 ^ 64 }
        ensures tables { AreTables self.new }
        ensures settled { OnOk result (kernel_of self.new ≡
            settled_in (kernel_of self.old) space first count found) }
    {
        self.change(space, first, count, Change::Settle { presence: found })
    }

    /// A run of pages is known, and those before it from a page on, which are missing.
    fn settle_to(&mut self, space: u64, from: u64, run: Run) -> Result<(), NoMemory>
        requires tables { AreTables self.old }
        requires room { from ≤ 2 ^ 53 }
        ensures tables { AreTables self.new }
        ensures settled { OnOk result (kernel_of self.new ≡
            settled_to (kernel_of self.old) space from run) }
    {
        let (first, count) = (run.start / PAGE_SIZE, run.len / PAGE_SIZE);
        self.settle(space, from, first.saturating_sub(from), Presence::Missing)?;
        self.settle(space, first, count, presence_of(run.bits))
    }

    /// The pages from one on to an end are known, by the runs in their order.
    fn settle_by(&mut self, space: u64, from: u64, end: u64, runs: &[Run]) -> Result<(), NoMemory>
        requires tables { AreTables self.old }
        requires first { from ≤ 2 ^ 53 }
        requires last { end ≤ 2 ^ 53 }
        ensures tables { AreTables self.new }
        ensures settled { OnOk result (kernel_of self.new ≡
            settled_by (kernel_of self.old) space from end runs.now) }
    {
        let mut at = from;
        for run in runs {
            self.settle_to(space, at, *run)?;
            at = end_of(*run);
        }
        self.settle(space, at, end.saturating_sub(at), Presence::Missing)
    }

    /// A scan settles which pages of its range are present.
    pub(crate) fn scans(
        &mut self,
        object: Object,
        start: u64,
        len: u64,
        runs: &[Run],
        answer: Answer,
    ) -> Result<bool, NoMemory>
        requires { AreTables self.old }
        ensures tables { AreTables self.new }
        ensures step { IfOk result (λ made.
            scanned (kernel_of self.old) object start len runs.now answer ≡
            allowed made (kernel_of self.new)) }
    {
        match answer {
            Answer::Value(_) => {
                let first = start / PAGE_SIZE;
                self.settle_by(object.space, first, first + len / PAGE_SIZE, runs)?;
                Ok(true)
            }
            Answer::Failed { .. } => Ok(runs.is_empty()),
            _ => Ok(false),
        }
    }
}
