//! close(2) of a userfault object, by the rule of `specs/Ioctls.antt`. After `NoMemory` a table is not to be used.

ghost use Rattle.std.specs.Prelude.{◌≡◌, ◌==◌, filter, map, not, true, false, IfOk, OnOk};
ghost use Rattle.kernel_rules.specs.State.{allowed};
ghost use Rattle.kernel_rules.specs.Faults.{faults_over};
ghost use Rattle.kernel_rules.specs.Ioctls as ioctl;
ghost use Rattle.kernel_rules.specs.Runs.{close_taken, end_all, finished};
ghost use Rattle.kernel_rules.specs.Held.{kernel_of, AreTables};

use crate::answers::is_close_error;
use crate::calling::{Told, Untold};
use crate::difference::Difference;
use crate::fault::{Reach, note_all};
use crate::kernel_table::KernelTable;
use crate::object::{Object, Registration};
use crate::page_test::PageTest;
use foundation::NoMemory;
use uffd_log::Answer;

/// One more than the greatest page that an address of 64 bits has.
const PAGES: u64 = 1 << 52;

/// Whether a range is the object's.
pub(crate) fn is_own(name: u64, range: Registration) -> bool
    ensures { result ≡ ioctl.is_own name range }
{
    range.object == name && range.first <= PAGES && range.count <= PAGES - range.first
}

/// Takes away what calls have to tell an object.
fn remove_told_object(told: &mut Vec<Told>, name: u64)
    ensures { told.new.items ≡ filter (λ one. not (one.object == name)) told.old.items }
{
    told.retain(|one| one.object != name);
}

/// Takes away the events for an object.
fn remove_events(events: &mut Vec<Untold>, name: u64)
    ensures { events.new.items ≡ filter (λ one. not (one.object == name)) events.old.items }
{
    events.retain(|one| one.object != name);
}

impl KernelTable {
    /// The ranges that were registered.
    #[tactic(auto, unfolding(crate::specs::Held::kernel_of))]
    pub(crate) fn ranges(&self) -> &[Registration]
        ensures { result.now ≡ (kernel_of self.now).ranges }
    {
        &self.ranges
    }

    /// Whether a page of a range is registered with the object, if the range is one of its own.
    fn is_watched_in(&self, name: u64, object: Object, range: Registration) -> bool
        requires { AreTables self.now }
        ensures { result ≡ ioctl.is_watched_in (kernel_of self.now) name object range }
    {
        is_own(name, range)
            && self.some_page(object.space, range.first, range.count, PageTest::Of(name))
    }

    /// Whether a page is registered with the object.
    fn is_watching(&self, name: u64, object: Object) -> bool
        requires { AreTables self.now }
        ensures { result ≡ ioctl.is_watching (kernel_of self.now) name object }
    {
        for range in self.ranges() {
            if self.is_watched_in(name, object, *range) {
                return true;
            }
        }
        false
    }

    /// A range is no longer registered with the object, if it is one of its own.
    fn end_range(&mut self, name: u64, object: Object, range: Registration) -> Result<(), NoMemory>
        requires { AreTables self.old }
        ensures tables { AreTables self.new }
        ensures ended { OnOk result (kernel_of self.new ≡
            ioctl.end_range (kernel_of self.old) name object range) }
    {
        if !is_own(name, range) {
            return Ok(());
        }
        self.unregister_in(name, object, range.first, range.count)
    }

    /// No range of these is registered with the object.
    fn end_ranges(
        &mut self,
        name: u64,
        object: Object,
        ranges: &[Registration],
    ) -> Result<(), NoMemory>
        requires { AreTables self.old }
        ensures tables { AreTables self.new }
        ensures ended { OnOk result (kernel_of self.new ≡
            ioctl.end_ranges (kernel_of self.old) name object ranges.now) }
    {
        for range in ranges {
            self.end_range(name, object, *range)?;
        }
        Ok(())
    }

    /// An object is gone.
    #[tactic(auto, unfolding(crate::specs::Held::kernel_of))]
    fn drop_object(&mut self, name: u64)
        requires { AreTables self.old }
        ensures tables { AreTables self.new }
        ensures gone { kernel_of self.new ≡ ioctl.without_object_of (kernel_of self.old) name }
    {
        self.objects.swap_remove(&name);
        remove_told_object(&mut self.told, name);
        remove_events(&mut self.events, name);
    }

    /// The last descriptor of an object is closed.
    fn close(&mut self, name: u64, object: Object) -> Result<(), NoMemory>
        requires { AreTables self.old }
        ensures tables { AreTables self.new }
        ensures closed { OnOk result (kernel_of self.new ≡
            ioctl.closed (kernel_of self.old) name object) }
    {
        let Ok(ranges) = Vec::from_slice(*self.faults.allocator(), self.ranges()) else {
            return Err(NoMemory);
        };
        let watching = self.is_watching(name, object);
        self.note_if(watching, Difference::Close)?;
        self.end_ranges(name, object, &ranges)?;
        self.drop_object(name);
        self.wake(name, Reach::Everywhere, false)
    }

    /// close(2) of a descriptor: it ends the object if it was its `last`.
    pub(crate) fn closes(
        &mut self,
        name: u64,
        object: Object,
        last: bool,
        answer: Answer,
    ) -> Result<bool, NoMemory>
        requires { AreTables self.old }
        ensures tables { AreTables self.new }
        ensures step { IfOk result (λ made.
            close_taken (kernel_of self.old) name object last answer ≡
            allowed made (kernel_of self.new)) }
    {
        match answer {
            Answer::Done => {
                if last {
                    self.close(name, object)?;
                }
                Ok(true)
            }
            Answer::Failed { errno, .. } => Ok(is_close_error(errno)),
            _ => Ok(false),
        }
    }

    /// No range of these is registered with an object that is open.
    fn end_all(&mut self, ranges: &[Registration]) -> Result<(), NoMemory>
        requires { AreTables self.old }
        ensures tables { AreTables self.new }
        ensures ended { OnOk result (kernel_of self.new ≡
            end_all (kernel_of self.old) ranges.now) }
    {
        for range in ranges {
            if let Some(object) = self.object(range.object) {
                self.end_range(range.object, object, *range)?;
            }
        }
        Ok(())
    }

    /// No thread waits any more, and nobody has answered those that did.
    #[tactic(auto, unfolding(crate::specs::Held::kernel_of))]
    fn end_all_faults(&mut self) -> Result<(), NoMemory>
        requires { AreTables self.old }
        ensures tables { AreTables self.new }
        ensures over { OnOk result (kernel_of self.new ≡
            faults_over (kernel_of self.old) (λ fault. true) false) }
    {
        note_all(&mut self.unanswered, &self.faults)?;
        self.faults.clear();
        Ok(())
    }

    /// The log ends: the pages that are registered and missing then are owed, and the threads that sleep then were not answered. After
    /// `NoMemory` the table is not to be used.
    pub fn finish(&mut self) -> Result<(), NoMemory>
        requires { AreTables self.old }
        ensures tables { AreTables self.new }
        ensures finished { OnOk result (kernel_of self.new ≡ finished (kernel_of self.old)) }
    {
        let Ok(ranges) = Vec::from_slice(*self.faults.allocator(), self.ranges()) else {
            return Err(NoMemory);
        };
        self.end_all(&ranges)?;
        self.end_all_faults()
    }
}
