//! UFFDIO_COPY, UFFDIO_ZEROPAGE, UFFDIO_CONTINUE and UFFDIO_POISON, by the rules of `specs/Ioctls.antt`. After `NoMemory`, or where no rule
//! allows the answer, a table is not to be used.

ghost use Rattle.std.specs.Prelude.{◌≡◌, ◌==◌, ◌≤◌, ◌<◌, ◌+◌, ◌/◌, ◌^◌, ◌&&◌, ◌||◌, ◌++◌, ◌∷◌, [], not, IfOk, OnOk};
ghost use Rattle.foundation.specs.declared.TheConstants.{PAGE_SIZE};
ghost use Rattle.kernel_rules.specs.State.{allowed, each_page, some_page};
ghost use Rattle.kernel_rules.specs.Ioctls as ioctl;
ghost use Rattle.kernel_rules.specs.Ioctls.{is_right};
ghost use Rattle.kernel_rules.specs.Held.{kernel_of, AreTables};
ghost use Rattle.kernel_rules.specs.Tests.{passes};
ghost use Rattle.kernel_rules.specs.declared.page_test.PageTest.TheVariants as test;

use crate::arguments::{bytes_or_none, is_enabled, is_part, is_right, may_be_outside, wraps};
use crate::change::Change;
use crate::difference::Difference;
use crate::fault::Reach;
use crate::filling::{Filling, putting};
use crate::kernel_table::KernelTable;
use crate::object::Object;
use crate::page_test::{PageTest, may_be_there};
use foundation::{NoMemory, PAGE_SIZE, has_bit};
use uffd_log::{Answer, Errno};

/// Whether an answer is EINVAL.
fn is_invalid(answer: Answer) -> bool
    ensures { result ≡ ioctl.is_invalid answer }
{
    match answer {
        Answer::Failed { errno, .. } => matches!(errno, Errno::Einval),
        _ => false,
    }
}

/// Whether a call with right arguments has put part of its pages.
fn is_right_part(object: Object, start: u64, len: u64, how: Filling, bytes: Option<u64>) -> bool
    ensures { result ≡
        (ioctl.is_part len bytes && ioctl.is_right object start len how.bits how.most) }
{
    is_part(len, bytes) && is_right(object, start, len, how.bits, how.most)
}

impl KernelTable {
    /// Notes a call that stopped at a page that was there.
    #[tactic(auto, unfolding(crate::specs::Held::kernel_of))]
    fn note_stop(&mut self, put: bool, key: u64) -> Result<(), NoMemory>
        requires { AreTables self.old }
        ensures tables { AreTables self.new }
        ensures noted { OnOk result (kernel_of self.new ≡
            ioctl.stop_noted (kernel_of self.old) put key) }
    {
        let noted = if put {
            self.twice.push(key)
        } else {
            self.there_before.push(key)
        };
        match noted {
            Ok(()) => Ok(()),
            Err(_) => Err(NoMemory),
        }
    }

    /// A call stops at a page: it is there, or the call stops where none is.
    pub(crate) fn stop_at(
        &mut self,
        key: u64,
        space: u64,
        page: u64,
        how: Filling,
    ) -> Result<bool, NoMemory>
        requires { AreTables self.old }
        ensures tables { AreTables self.new }
        ensures step { IfOk result (λ made.
            ioctl.stopped_at (kernel_of self.old) key space page how ≡
            allowed made (kernel_of self.new)) }
    {
        let Some(found) = self.page(space, page) else {
            return Ok(false);
        };
        let there = may_be_there(found);
        if !there && !(how.cached && found.minor || how.marked && found.guarded) {
            return Ok(false);
        }
        self.note_stop(found.put && there, key)?;
        let Filling { cached, marked, .. } = how;
        self.change(space, page, 1, Change::Shown { cached, marked })?;
        Ok(true)
    }

    /// Pages are filled.
    pub(crate) fn put_in(
        &mut self,
        name: u64,
        object: Object,
        first: u64,
        count: u64,
        how: Filling,
    ) -> Result<(), NoMemory>
        requires tables { AreTables self.old }
        requires room { first + count ≤ 2 ^ 64 }
        ensures tables { AreTables self.new }
        ensures put { OnOk result (kernel_of self.new ≡
            ioctl.filled (kernel_of self.old) name object first count how) }
    {
        self.change(object.space, first, count, how.change)?;
        self.set_object(
            name,
            Object {
                puts: true,
                ..object
            },
        )?;
        if has_bit(how.bits, 0) {
            return Ok(());
        }
        self.wake(name, Reach::Within { first, count }, true)
    }

    /// A call halts at a page: it is there, or what no line shows has stopped the call.
    pub(crate) fn halt_at(
        &mut self,
        key: u64,
        space: u64,
        page: u64,
        how: Filling,
    ) -> Result<bool, NoMemory>
        requires { AreTables self.old }
        ensures tables { AreTables self.new }
        ensures step { IfOk result (λ made.
            ioctl.halted_at (kernel_of self.old) key space page how ≡
            allowed made (kernel_of self.new)) }
    {
        if self.page_passes(space, page, PageTest::Present) {
            return self.stop_at(key, space, page, how);
        }
        Ok(self.page_passes(space, page, PageTest::Any))
    }

    /// Part of the pages are filled, and the call halts at the next one.
    fn put_part(
        &mut self,
        key: u64,
        name: u64,
        object: Object,
        first: u64,
        done: u64,
        how: Filling,
    ) -> Result<bool, NoMemory>
        requires tables { AreTables self.old }
        requires room { first + done < 2 ^ 64 }
        ensures tables { AreTables self.new }
        ensures step { IfOk result (λ made.
            ioctl.filled_in_part (kernel_of self.old) key name object first done how ≡
            allowed made (kernel_of self.new)) }
    {
        if !self.each_page(object.space, first, done, how.test) {
            return Ok(false);
        }
        self.put_in(name, object, first, done, how)?;
        self.halt_at(key, object.space, first + done, how)
    }

    /// A call is refused, which changes nothing: a map call under way has told its object.
    pub(crate) fn refuse_while_changing(&mut self, name: u64) -> Result<bool, NoMemory>
        requires { AreTables self.old }
        ensures tables { AreTables self.new }
        ensures step { IfOk result (λ made.
            ioctl.refused_while_changing (kernel_of self.old) name ≡
            allowed made (kernel_of self.new)) }
    {
        if !self.may_be_changing(name) {
            return Ok(false);
        }
        let longer = !self.is_changing(name);
        self.note_if(longer, Difference::ChangingLonger)?;
        Ok(true)
    }

    /// A call has put part of its pages, or none since the address space is changing.
    fn put_halted(
        &mut self,
        key: u64,
        name: u64,
        object: Object,
        start: u64,
        len: u64,
        how: Filling,
        bytes: Option<u64>,
    ) -> Result<bool, NoMemory>
        requires { AreTables self.old }
        ensures tables { AreTables self.new }
        ensures step { IfOk result (λ made.
            ioctl.put_halted (kernel_of self.old) key name object start len how bytes ≡
            allowed made (kernel_of self.new)) }
    {
        if !is_right_part(object, start, len, how, bytes) {
            return self.refuse_while_changing(name);
        }
        let done = bytes_or_none(bytes) / PAGE_SIZE;
        self.put_part(key, name, object, start / PAGE_SIZE, done, how)
    }

    /// A call finds its first page there.
    fn put_stopped(
        &mut self,
        key: u64,
        object: Object,
        start: u64,
        len: u64,
        how: Filling,
    ) -> Result<bool, NoMemory>
        requires { AreTables self.old }
        ensures tables { AreTables self.new }
        ensures step { IfOk result (λ made.
            ioctl.put_stopped (kernel_of self.old) key object start len how ≡
            allowed made (kernel_of self.new)) }
    {
        if !is_right(object, start, len, how.bits, how.most) {
            return Ok(false);
        }
        self.stop_at(key, object.space, start / PAGE_SIZE, how)
    }

    /// Notes a call on pages that are not registered.
    #[tactic(auto, unfolding(crate::specs::Held::kernel_of))]
    fn note_outside(&mut self, key: u64) -> Result<(), NoMemory>
        requires { AreTables self.old }
        ensures tables { AreTables self.new }
        ensures noted { OnOk result (kernel_of self.new ≡ record (kernel_of self.old) {
          outside = (kernel_of self.old).outside ++ key ∷ [];
        }) }
    {
        match self.outside.push(key) {
            Ok(()) => Ok(()),
            Err(_) => Err(NoMemory),
        }
    }

    /// A call over pages that are not registered, or over several areas.
    fn put_outside(
        &mut self,
        key: u64,
        object: Object,
        start: u64,
        len: u64,
        bits: u64,
        most: u64,
    ) -> Result<bool, NoMemory>
        requires { AreTables self.old }
        ensures tables { AreTables self.new }
        ensures step { IfOk result (λ made.
            ioctl.put_outside (kernel_of self.old) key object start len bits most ≡
            allowed made (kernel_of self.new)) }
    {
        if !is_right(object, start, len, bits, most) {
            return Ok(false);
        }
        let (first, count) = (start / PAGE_SIZE, len / PAGE_SIZE);
        if self.each_page(object.space, first, count, PageTest::Any) {
            if len <= PAGE_SIZE {
                return Ok(false);
            }
            self.note_if(true, Difference::Areas)?;
            return Ok(true);
        }
        self.note_outside(key)?;
        Ok(true)
    }

    /// Whether the arguments of a call that puts pages are wrong.
    fn is_put_wrong(&self, object: Object, start: u64, len: u64, bits: u64, most: u64) -> bool
        requires { AreTables self.now }
        ensures { result ≡
            ioctl.is_put_wrong (kernel_of self.now) object start len bits most }
    {
        let (first, count) = (start / PAGE_SIZE, len / PAGE_SIZE);
        !is_right(object, start, len, bits, most)
            || may_be_outside(start, len)
            || has_bit(bits, 1)
                && self.some_page(object.space, first, count, PageTest::NotProtected)
    }

    /// A call that fills pages fails.
    fn put_failed(
        &mut self,
        key: u64,
        name: u64,
        object: Object,
        start: u64,
        len: u64,
        how: Filling,
        bytes: Option<u64>,
        errno: Errno,
    ) -> Result<bool, NoMemory>
        requires { AreTables self.old }
        ensures tables { AreTables self.new }
        ensures step { IfOk result (λ made.
            ioctl.put_failed (kernel_of self.old) key name object start len how bytes errno ≡
            allowed made (kernel_of self.new)) }
    {
        match errno {
            Errno::Eagain => self.put_halted(key, name, object, start, len, how, bytes),
            Errno::Eexist => {
                if bytes.is_some() {
                    return Ok(false);
                }
                self.put_stopped(key, object, start, len, how)
            }
            Errno::Enoent => {
                if bytes.is_some() {
                    return Ok(false);
                }
                self.put_outside(key, object, start, len, how.bits, how.most)
            }
            Errno::Einval => Ok(self.is_put_wrong(object, start, len, how.bits, how.most)),
            Errno::Efault | Errno::Enomem | Errno::Esrch => Ok(is_enabled(object)),
            _ => Ok(false),
        }
    }

    /// A call fills all its pages.
    fn put_all(
        &mut self,
        name: u64,
        object: Object,
        start: u64,
        len: u64,
        how: Filling,
        bytes: u64,
    ) -> Result<bool, NoMemory>
        requires { AreTables self.old }
        ensures tables { AreTables self.new }
        ensures step { IfOk result (λ made. allowed
            (bytes == len && is_right object start len how.bits how.most
            && not (ioctl.is_changing (kernel_of self.old) name)
            && each_page (kernel_of self.old) object.space (start / PAGE_SIZE)
            (len / PAGE_SIZE) (passes how.test))
            (ioctl.filled (kernel_of self.old) name object (start / PAGE_SIZE)
            (len / PAGE_SIZE) how) ≡
            allowed made (kernel_of self.new)) }
    {
        let (first, count) = (start / PAGE_SIZE, len / PAGE_SIZE);
        if bytes != len {
            return Ok(false);
        }
        if !is_right(object, start, len, how.bits, how.most) {
            return Ok(false);
        }
        if self.is_changing(name) {
            return Ok(false);
        }
        if !self.each_page(object.space, first, count, how.test) {
            return Ok(false);
        }
        self.put_in(name, object, first, count, how)?;
        Ok(true)
    }

    /// A call that fills pages, from the address `start` of the object's space on. `key` is the number of the call in the log.
    pub(crate) fn puts(
        &mut self,
        key: u64,
        name: u64,
        object: Object,
        start: u64,
        len: u64,
        how: Filling,
        answer: Answer,
    ) -> Result<bool, NoMemory>
        requires { AreTables self.old }
        ensures tables { AreTables self.new }
        ensures step { IfOk result (λ made.
            ioctl.filled_with (kernel_of self.old) key name object start len how answer ≡
            allowed made (kernel_of self.new)) }
    {
        match answer {
            Answer::Value(bytes) => self.put_all(name, object, start, len, how, bytes),
            Answer::Failed { errno, bytes } => {
                self.put_failed(key, name, object, start, len, how, bytes, errno)
            }
            _ => Ok(false),
        }
    }

    /// UFFDIO_COPY from an address of the object's space.
    pub(crate) fn copies(
        &mut self,
        key: u64,
        name: u64,
        object: Object,
        to: u64,
        from: u64,
        len: u64,
        bits: u64,
        answer: Answer,
    ) -> Result<bool, NoMemory>
        requires { AreTables self.old }
        ensures tables { AreTables self.new }
        ensures step { IfOk result (λ made.
            ioctl.copied (kernel_of self.old) key name object to from len bits answer ≡
            allowed made (kernel_of self.new)) }
    {
        if is_invalid(answer) && may_be_outside(from, len) {
            return Ok(true);
        }
        if wraps(from, len) {
            return Ok(false);
        }
        self.puts(key, name, object, to, len, putting(bits, 3), answer)
    }

    /// Whether a call is EINVAL since its memory may not be shared.
    pub(crate) fn may_be_unshared(
        &self,
        object: Object,
        start: u64,
        len: u64,
        answer: Answer,
    ) -> bool
        requires { AreTables self.now }
        ensures { result ≡ (ioctl.is_invalid answer && some_page (kernel_of self.now) object.space
            (start / PAGE_SIZE) (len / PAGE_SIZE) (passes test.NotMinor)) }
    {
        let (first, count) = (start / PAGE_SIZE, len / PAGE_SIZE);
        is_invalid(answer) && self.some_page(object.space, first, count, PageTest::NotMinor)
    }
}
