//! How a round of pre-copy changes a log: which pages it must send, and sending them.

ghost use Rattle.std.specs.Prelude.{◌≡◌, ◌+◌, ◌<◌, ◌≤◌, ◌↔◌, true, Some, None, IfOk, IfErr, OnOk, OnErr};
ghost use Rattle.std.specs.Borrow.{sem};
ghost use Rattle.std.specs.Option.{IfSome};
ghost use Rattle.std.specs.FinMap.{get};
ghost use Rattle.std.specs.FinSet.{contains};
ghost use Rattle.mig_base.specs.Bytes.{contents, zero_page};
ghost use Rattle.mig_base.specs.Sets.{run_length};
ghost use Rattle.mig_base.specs.declared.TheConstants.{HIGH_PAGE};
ghost use Rattle.mig_model.specs.Bounds.{IsFrame, IsPage};
ghost use Rattle.mig_model.specs.Guest.{is_present};
ghost use Rattle.mig_model.specs.Ioctls.{protected_in};
ghost use Rattle.mig_model.specs.Log as machine;
ghost use Rattle.mig_model.specs.Source.{Source, all_registered, run_of, space_of};
ghost use Rattle.uffd_ioctl.specs.Lent.{IsLent};
ghost use Rattle.dirty_log.specs.Answers.{IsRefusedAs, send_refusal};
ghost use Rattle.mig_model.specs.Wire.{page_frame};
ghost use Rattle.dirty_log.specs.Lending.{LeavesSpace};
ghost use Rattle.dirty_log.specs.Sending.{frame_sent};
ghost use Rattle.dirty_log.specs.declared.page_content.PageContent.{PageContent};

use super::DirtyLog;
use crate::bytes::{blank_pages, read_pages};
use crate::page_content::PageContent;
use crate::sets::subtract;
use crate::spaces::{are_sendable, protect, register_mapped};
use mig_base::refusal::Refusal;
use mig_base::{HIGH_PAGE, NoMemory, PageBytes, PageNo, PageSet};
use uffd_ioctl::Space;

impl DirtyLog {
    /// Registers every mapped page for missing faults and for write-protect faults, area by area. `NoMemory` changes nothing.
    pub fn register_new(&self, space: &mut Space) -> Result<(), NoMemory>
        requires { IsLent space.old }
        ensures ok { OnOk result (space.new ≡ all_registered space.old) }
        ensures err { OnErr result (space.new ≡ space.old) }
        ensures lent { IsLent space.new }
    {
        register_mapped(space)
    }

    /// The present pages that are not clean, as a new set. `NoMemory` if the set cannot be allocated.
    pub fn dirty(&self, space: &Space) -> Result<PageSet, NoMemory>
        ensures { IfOk result (λ pages. pages ≡ machine.dirty space.now self.now) }
    {
        space.is_in_order();
        let mut pages = space.present()?;
        subtract(&mut pages, &self.clean);
        Ok(pages)
    }

    /// Begins a round that must send these pages. It takes no memory.
    pub fn begin_round(&mut self, todo: PageSet)
        ensures { self.new ≡ record self.old { todo = todo } }
    {
        self.todo = todo;
        self.from = 0;
    }

    /// The lowest page that this round still has to send.
    pub fn next_page(&self) -> Option<PageNo>
        ensures least { result ≡ machine.least_of self.now.todo }
        ensures below { IfSome result (λ page. page < HIGH_PAGE) }
    {
        let page = self.todo.next_member(self.from);
        if page < HIGH_PAGE { Some(page) } else { None }
    }

    /// The number of pages from `first` on, without a gap, that the round must send, at most `most`.
    pub fn run_length(&self, first: PageNo, most: u32) -> u32
        requires { first ≤ HIGH_PAGE }
        ensures run { result ≡ run_length self.now.todo first most }
        ensures inside { first + result ≤ HIGH_PAGE }
        ensures few { result ≤ most }
    {
        self.todo.ends_by_high_page();
        let end = self.todo.next_gap(first);
        (end - first).min(most)
    }

    /// Write-protects a page, which is clean from then on: the caller must send its bytes before the page changes. Refused with
    /// `Changing` while an event is unread, with `PageNotSendable` if the page is missing or not registered for write-protect faults, and
    /// with `NoMemory`.
    pub fn protect_page(&mut self, space: &mut Space, page: PageNo) -> Result<(), Refusal>
        requires lent { IsLent space.old }
        requires page { page < HIGH_PAGE }
        ensures accepted { OnOk result (send_refusal space.old page 1 ≡ None) }
        ensures refused { IfErr result (λ refusal.
            IsRefusedAs (send_refusal space.old page 1) refusal) }
        ensures log { OnOk result (self.new ≡ machine.log_sent self.old page) }
        ensures space { OnOk result (space.new ≡ protected_in space.old page 1 true) }
        ensures err { OnErr result ((self.new ≡ self.old) × (space.new ≡ space.old)) }
        ensures lent { IsLent space.new }

        // The same for a reader: the page is protected, and has the bytes that it had.
        ensures protected { OnOk result (contains space.new.protected page ≡ true) }
        ensures bytes { OnOk result (get space.new.host.bytes page ≡
            Some (contents space.old.host.bytes page)) }
        ensures present { OnOk result ((is_present space.new page ≡ true) × IsPage page) }
    {
        space.is_in_order();
        self.protect_run(space, page, 1)?;
        Ok(())
    }

    /// Sends a page: like [`DirtyLog::protect_page`], and then reads it. The result borrows the space, which cannot change until the bytes
    /// are written. Refused like [`DirtyLog::protect_page`].
    pub fn send_page<'a>(
        space: &'a mut Space,
        log: &mut DirtyLog,
        page: PageNo,
    ) -> Result<PageContent<'a>, Refusal>
        requires lent { IsLent space.old }
        requires page { page < HIGH_PAGE }
        ensures* space { sem 𝓛 (LeavesSpace space.entry result (λ last.
            (last ≡ protected_in space.old page 1 true) × IsLent last)) }
        ensures accepted { OnOk result (send_refusal space.old page 1 ≡ None) }
        ensures refused { IfErr result (λ refusal.
            IsRefusedAs (send_refusal space.old page 1) refusal) }
        ensures log { OnOk result (log.new ≡ machine.log_sent log.old page) }
        ensures sent { IfOk result (λ sent.
            frame_sent page sent ≡ page_frame page (contents space.old.host.bytes page)) }
        ensures frame { IfOk result (λ sent. IsFrame (frame_sent page sent)) }
        ensures err { OnErr result (log.new ≡ log.old) }

        // The same for a reader: `Zero` is returned exactly if all bytes of the page are zero.
        ensures zero { IfOk result (λ sent.
            (sent ≡ PageContent.Zero) ↔ (contents space.old.host.bytes page ≡ zero_page)) }
    {
        space.is_in_order();
        log.protect_page(space, page)?;
        Ok(PageContent::read(space, page))
    }

    /// Write-protects the `count` pages from `first` on, which are clean from then on: the caller must send their bytes before a page
    /// changes. Refused like [`DirtyLog::protect_page`], for any page of the range.
    pub fn protect_run(
        &mut self,
        space: &mut Space,
        first: PageNo,
        count: u32,
    ) -> Result<(), Refusal>
        requires lent { IsLent space.old }
        requires some { 0 < count }
        requires inside { first + count ≤ HIGH_PAGE }
        ensures accepted { OnOk result (send_refusal space.old first count ≡ None) }
        ensures refused { IfErr result (λ refusal.
            IsRefusedAs (send_refusal space.old first count) refusal) }
        ensures log { OnOk result (self.new ≡ machine.log_run_sent self.old first count) }
        ensures space { OnOk result (space.new ≡ protected_in space.old first count true) }
        ensures err { OnErr result ((self.new ≡ self.old) × (space.new ≡ space.old)) }
        ensures lent { IsLent space.new }
    {
        ensure_sendable(space, first, count)?;
        self.mark_sent(space, first, count)
    }

    /// Write-protects the `count` pages from `first` on, then reads their bytes in order, also those of pages of zeros. The pages are
    /// clean from then on. Refused like [`DirtyLog::send_page`], for any page of the range.
    pub fn send_run(
        &mut self,
        space: &mut Space,
        first: PageNo,
        count: u32,
    ) -> Result<Vec<PageBytes>, Refusal>
        requires lent { IsLent space.old }
        requires some { 0 < count }
        requires inside { first + count ≤ HIGH_PAGE }
        ensures accepted { OnOk result (send_refusal space.old first count ≡ None) }
        ensures refused { IfErr result (λ refusal.
            IsRefusedAs (send_refusal space.old first count) refusal) }
        ensures log { OnOk result (self.new ≡ machine.log_run_sent self.old first count) }
        ensures space { OnOk result (space.new ≡ protected_in space.old first count true) }
        ensures bytes { IfOk result (λ pages. (node : Source) → space_of node ≡ space.old →
            pages.items ≡ run_of node first count) }
        ensures err { OnErr result ((self.new ≡ self.old) × (space.new ≡ space.old)) }
        ensures lent { IsLent space.new }
    {
        ensure_sendable(space, first, count)?;
        let mut pages = blank_pages(self.alloc, count)?;
        self.mark_sent(space, first, count)?;
        read_pages(space, first, &mut pages);
        Ok(pages)
    }

    /// Write-protects the pages of a range, all of which can be sent, and makes them clean. `NoMemory` changes nothing.
    fn mark_sent(&mut self, space: &mut Space, first: PageNo, count: u32) -> Result<(), Refusal>
        requires lent { IsLent space.old }
        requires some { 0 < count }
        requires inside { first + count ≤ HIGH_PAGE }
        requires sendable { send_refusal space.old first count ≡ None }
        ensures memory { IfErr result (λ refusal. refusal ≡ Refusal.NoMemory) }
        ensures log { OnOk result (self.new ≡ machine.log_run_sent self.old first count) }
        ensures space { OnOk result (space.new ≡ protected_in space.old first count true) }
        ensures err { OnErr result ((self.new ≡ self.old) × (space.new ≡ space.old)) }
    {
        space.is_in_order();
        PageSet::insert_range_in_both(&mut self.clean, &mut self.sent, first, count)?;
        if self.todo.next_member(self.from) >= first {
            self.from = self.from.max(first + count);
        }
        self.todo.remove_range(first, count);
        protect(space, first, count);
        Ok(())
    }
}

/// Refuses a range with a page that cannot be sent now.
fn ensure_sendable(space: &Space, first: PageNo, count: u32) -> Result<(), Refusal>
    requires { first + count ≤ HIGH_PAGE }
    ensures ok { OnOk result (send_refusal space.now first count ≡ None) }
    ensures err { IfErr result (λ refusal. send_refusal space.now first count ≡ Some refusal) }
{
    if space.changing() > 0 {
        return Err(Refusal::Changing);
    }
    if !are_sendable(space, first, count) {
        return Err(Refusal::PageNotSendable);
    }
    Ok(())
}
