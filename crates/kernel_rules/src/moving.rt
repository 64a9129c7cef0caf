//! mremap(2) and fork(2), by the rules of `specs/MapCalls.antt`. After `NoMemory`, or where no rule allows the answer, a table is not to be used.

ghost use Rattle.std.specs.Prelude.{◌≡◌, ◌==◌, ◌<◌, ◌≤◌, ◌+◌, ◌-◌, ◌^◌, ◌++◌, None, nat_lt, if◌then◌else◌, IfOk, OnOk};
ghost use Rattle.kernel_rules.specs.State.{allowed};
ghost use Rattle.kernel_rules.specs.Ioctls as ioctl;
ghost use Rattle.kernel_rules.specs.MapCalls as maps;
ghost use Rattle.kernel_rules.specs.Held.{kernel_of, AreTables};

use crate::answers::is_fork_error;
use crate::change::Change;
use crate::difference::Difference;
use crate::kernel_table::KernelTable;
use crate::known::{Page, Presence, known_as};
use crate::map_calls::{is_mappable, pages_of};
use foundation::{NoMemory, PAGE_SIZE, has_bit};
use uffd_log::{Answer, Descriptor, Message};

/// One more than the greatest page that an address of 64 bits has.
const PAGES: u64 = 1 << 52;

/// A page by which a range grows.
fn grown(page: Option<Page>) -> Option<Page>
    ensures { result ≡ maps.grown_page page }
{
    match page {
        Some(page) => Some(Page {
            presence: known_as(page, Presence::Missing),
            guarded: false,
            put: false,
            freed: false,
            ..page
        }),
        None => None,
    }
}

/// Adds a page with its number, if it is registered.
fn add_number(
    pages: &mut Vec<(u64, Option<Page>)>,
    number: u64,
    page: Option<Page>,
) -> Result<(), NoMemory>
    ensures { OnOk result (pages.new.items ≡ pages.old.items ++ maps.with_number number page) }
{
    if page.is_none() {
        return Ok(());
    }
    match pages.push((number, page)) {
        Ok(()) => Ok(()),
        Err(_) => Err(NoMemory),
    }
}

impl KernelTable {
    /// The page of this number is what is found.
    pub(crate) fn set_page(
        &mut self,
        space: u64,
        number: u64,
        found: Option<Page>,
    ) -> Result<(), NoMemory>
        requires { AreTables self.old }
        ensures tables { AreTables self.new }
        ensures set { OnOk result (kernel_of self.new ≡
            ioctl.page_set (kernel_of self.old) space number found) }
    {
        self.change(space, number, 1, Change::Set(found))
    }

    /// The pages of these numbers are what is found.
    pub(crate) fn set_pages(
        &mut self,
        space: u64,
        pages: &[(u64, Option<Page>)],
    ) -> Result<(), NoMemory>
        requires { AreTables self.old }
        ensures tables { AreTables self.new }
        ensures set { OnOk result (kernel_of self.new ≡
            ioctl.pages_set (kernel_of self.old) space pages.now) }
    {
        for page in pages {
            self.set_page(space, page.0, page.1)?;
        }
        Ok(())
    }

    /// A page at its new place.
    fn moved_page(&self, page: Option<Page>) -> Option<Page>
        ensures { result ≡ maps.moved_page (kernel_of self.now) page }
    {
        match page {
            Some(found) if self.is_told(2, found.object) => page,
            _ => None,
        }
    }

    /// The page that is to be at a place of the new range.
    fn page_for(&self, space: u64, from: u64, count: u64, i: u64) -> Option<Page>
        requires tables { AreTables self.now }
        requires room { from + count ≤ 2 ^ 64 }
        ensures { result ≡ (if nat_lt i count then (kernel_of self.now).pages space (from + i)
            else if count == 0 then None
            else maps.grown_page ((kernel_of self.now).pages space (from + (count - 1)))) }
    {
        if i < count {
            return self.page(space, from + i);
        }
        if count == 0 {
            return None;
        }
        grown(self.page(space, from + (count - 1)))
    }

    /// What is at a place of the new range.
    fn arrived(&self, space: u64, from: u64, count: u64, i: u64, stays: bool) -> Option<Page>
        requires tables { AreTables self.now }
        requires room { from + count ≤ 2 ^ 64 }
        ensures { result ≡ maps.arrived (kernel_of self.now) space from count i stays }
    {
        let page = self.page_for(space, from, count, i);
        if stays {
            return page;
        }
        self.moved_page(page)
    }

    /// The pages at the places of the new range.
    fn arrivals(
        &self,
        space: u64,
        from: u64,
        count: u64,
        to: u64,
        new_count: u64,
    ) -> Result<Vec<(u64, Option<Page>)>, NoMemory>
        requires tables { AreTables self.now }
        requires room { from + count ≤ 2 ^ 64 }
        requires new_room { to + new_count ≤ 2 ^ 64 }
        ensures { IfOk result (λ pages.
            pages.items ≡ maps.arrivals (kernel_of self.now) space from count to new_count) }
    {
        let stays = to == from;
        let mut pages = Vec::new(self.allocator());
        for i in 0..new_count {
            let page = self.arrived(space, from, count, i, stays);
            add_number(&mut pages, to + i, page)?;
        }
        Ok(pages)
    }

    /// The pages of the old range, if they stay mapped.
    fn leavings(
        &self,
        space: u64,
        from: u64,
        count: u64,
    ) -> Result<Vec<(u64, Option<Page>)>, NoMemory>
        requires tables { AreTables self.now }
        requires room { from + count ≤ 2 ^ 64 }
        ensures { IfOk result (λ pages.
            pages.items ≡ maps.leavings (kernel_of self.now) space from count) }
    {
        let mut pages = Vec::new(self.allocator());
        for i in 0..count {
            add_number(&mut pages, from + i, grown(self.page(space, from + i)))?;
        }
        Ok(pages)
    }

    /// A range moves.
    fn move_pages(
        &mut self,
        space: u64,
        from: u64,
        count: u64,
        to: u64,
        new_count: u64,
        stay: bool,
    ) -> Result<(), NoMemory>
        requires tables { AreTables self.old }
        requires room { from + count ≤ 2 ^ 64 }
        requires new_room { to + new_count ≤ 2 ^ 64 }
        ensures tables { AreTables self.new }
        ensures moved { OnOk result (kernel_of self.new ≡
            maps.moved_pages (kernel_of self.old) space from count to new_count stay) }
    {
        let left = self.leavings(space, from, if stay { count } else { 0 })?;
        let arrived = self.arrivals(space, from, count, to, new_count)?;
        self.forget(space, from, count)?;
        self.forget(space, to, new_count)?;
        self.set_pages(space, &left)?;
        self.set_pages(space, &arrived)
    }

    /// REMAP of a range, for each object that is to get one.
    fn tell_remap(
        &mut self,
        key: u64,
        space: u64,
        from: u64,
        count: u64,
        to: u64,
        new_count: u64,
    ) -> Result<(), NoMemory>
        requires tables { AreTables self.old }
        requires room { from + count < 2 ^ 52 }
        requires new_room { to + new_count < 2 ^ 52 }
        ensures tables { AreTables self.new }
        ensures told { OnOk result (kernel_of self.new ≡
            maps.remap_told (kernel_of self.old) key space from count to new_count) }
    {
        let moved = count.min(new_count);
        let names = self.told_in(2, space, from, from + moved)?;
        let message = Message::Remap {
            from: from * PAGE_SIZE,
            to: to * PAGE_SIZE,
            len: moved * PAGE_SIZE,
        };
        self.add_events(key, message, &names)
    }

    /// UNMAP of the pages that are cut off.
    fn tell_tail(
        &mut self,
        key: u64,
        space: u64,
        from: u64,
        count: u64,
        new_count: u64,
    ) -> Result<(), NoMemory>
        requires tables { AreTables self.old }
        requires room { from + count < 2 ^ 52 }
        ensures tables { AreTables self.new }
        ensures told { OnOk result (kernel_of self.new ≡
            maps.tail_told (kernel_of self.old) key space from count new_count) }
    {
        if new_count >= count {
            return Ok(());
        }
        self.tell_unmap(key, space, from + new_count, count - new_count)
    }

    /// What mremap(2) tells.
    fn tell_move(
        &mut self,
        key: u64,
        space: u64,
        from: u64,
        count: u64,
        to: u64,
        new_count: u64,
        stay: bool,
    ) -> Result<(), NoMemory>
        requires tables { AreTables self.old }
        requires room { from + count < 2 ^ 52 }
        requires new_room { to + new_count < 2 ^ 52 }
        ensures tables { AreTables self.new }
        ensures told { OnOk result (kernel_of self.new ≡
            maps.move_told (kernel_of self.old) key space from count to new_count stay) }
    {
        if to == from {
            return self.tell_tail(key, space, from, count, new_count);
        }
        self.tell_unmap(key, space, to, new_count)?;
        self.tell_remap(key, space, from, count, to, new_count)?;
        if stay {
            return Ok(());
        }
        self.tell_tail(key, space, from, count, new_count)?;
        self.tell_unmap(key, space, from, count.min(new_count))
    }

    /// The objects whose registrations move with a range.
    fn movers(&self, space: u64, from: u64, count: u64, to: u64) -> Result<Vec<u64>, NoMemory>
        requires tables { AreTables self.now }
        requires room { from + count < 2 ^ 64 }
        ensures { IfOk result (λ names.
            names.items ≡ maps.movers (kernel_of self.now) space from count to) }
    {
        if to == from {
            return self.objects_in(space, from, from + count);
        }
        self.told_in(2, space, from, from + count)
    }

    /// A range is one of each of these objects.
    fn add_ranges(&mut self, first: u64, count: u64, names: &[u64]) -> Result<(), NoMemory>
        requires { AreTables self.old }
        ensures tables { AreTables self.new }
        ensures added { OnOk result (kernel_of self.new ≡
            maps.with_ranges (kernel_of self.old) first count names.now) }
    {
        for name in names {
            self.note_range(*name, first, count)?;
        }
        Ok(())
    }

    /// A range moves, with its registrations.
    fn moves(
        &mut self,
        key: u64,
        space: u64,
        from: u64,
        count: u64,
        to: u64,
        new_count: u64,
        stay: bool,
    ) -> Result<(), NoMemory>
        requires tables { AreTables self.old }
        requires room { from + count < 2 ^ 52 }
        requires new_room { to + new_count < 2 ^ 52 }
        ensures tables { AreTables self.new }
        ensures moved { OnOk result (kernel_of self.new ≡
            maps.moved (kernel_of self.old) key space from count to new_count stay) }
    {
        let names = self.movers(space, from, count, to)?;
        self.tell_move(key, space, from, count, to, new_count, stay)?;
        let differs = to != from && self.tells_anybody(key);
        self.move_pages(space, from, count, to, new_count, stay)?;
        self.note_if(differs, Difference::MessagesOfMremap)?;
        self.add_ranges(to, new_count, &names)?;
        self.add_calling(key)
    }

    /// mremap(2).
    pub(crate) fn mremaps(
        &mut self,
        key: u64,
        space: u64,
        addr: u64,
        old_len: u64,
        new_len: u64,
        flags: u64,
        answer: Answer,
    ) -> Result<bool, NoMemory>
        requires { AreTables self.old }
        ensures tables { AreTables self.new }
        ensures step { IfOk result (λ made.
            maps.mremapped (kernel_of self.old) key space addr old_len new_len flags answer ≡
            allowed made (kernel_of self.new)) }
    {
        match answer {
            Answer::Value(target) => {
                let (from, count) = (addr / PAGE_SIZE, pages_of(old_len));
                let (to, new_count) = (target / PAGE_SIZE, pages_of(new_len));
                if !is_mappable(from, count) || !is_mappable(to, new_count) {
                    return Ok(false);
                }
                self.moves(key, space, from, count, to, new_count, has_bit(flags, 2))?;
                Ok(true)
            }
            Answer::Failed { .. } => Ok(true),
            _ => Ok(false),
        }
    }

    /// fork(2).
    pub(crate) fn forks(&mut self, key: u64, space: u64, answer: Answer) -> Result<bool, NoMemory>
        requires { AreTables self.old }
        ensures tables { AreTables self.new }
        ensures step { IfOk result (λ made.
            maps.forked (kernel_of self.old) key space answer ≡
            allowed made (kernel_of self.new)) }
    {
        if let Answer::Failed { errno, .. } = answer {
            return Ok(is_fork_error(errno));
        }
        let names = self.told_in(1, space, 0, PAGES)?;
        let child = Descriptor { object: 0, fd: 0 };
        self.add_events(key, Message::Fork { child }, &names)?;
        self.add_calling(key)?;
        Ok(true)
    }
}
