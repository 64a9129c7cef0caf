//! UFFDIO_MOVE, by the rules of `specs/Ioctls.antt`. After `NoMemory`, or where no rule allows the answer, a table is not to be used.

ghost use Rattle.std.specs.Prelude.{◌≡◌, ◌<◌, ◌≤◌, ◌+◌, ◌/◌, ◌^◌, IfOk, OnOk};
ghost use Rattle.foundation.specs.declared.TheConstants.{PAGE_SIZE};
ghost use Rattle.kernel_rules.specs.State.{allowed};
ghost use Rattle.kernel_rules.specs.Ioctls as ioctl;
ghost use Rattle.kernel_rules.specs.Held.{kernel_of, AreTables};

use crate::arguments::{bytes_or_none, is_enabled, is_part, is_range, is_right};
use crate::change::Change;
use crate::filling::moving;
use crate::kernel_table::KernelTable;
use crate::object::Object;
use crate::page_test::PageTest;
use foundation::{NoMemory, PAGE_SIZE, has_bit};
use uffd_log::{Answer, Errno};

/// What is moved, in bytes or in pages: where to, where from, and how much; and the word of modes.
#[derive(Clone, Copy)]
pub(crate) struct Transfer {
    pub(crate) to: u64,
    pub(crate) from: u64,
    pub(crate) len: u64,
    pub(crate) bits: u64,
}

/// What a call moves, in bytes.
pub(crate) fn moved_range(to: u64, from: u64, len: u64, bits: u64) -> Transfer
    ensures { result ≡ record { to = to; from = from; len = len; bits = bits } }
{
    Transfer {
        to,
        from,
        len,
        bits,
    }
}

/// The same in pages, for a number of bytes.
fn pages_of(it: Transfer, bytes: u64) -> Transfer
    ensures { result ≡ record it {
      to = it.to / PAGE_SIZE;
      from = it.from / PAGE_SIZE;
      len = bytes / PAGE_SIZE;
    } }
{
    Transfer {
        to: it.to / PAGE_SIZE,
        from: it.from / PAGE_SIZE,
        len: bytes / PAGE_SIZE,
        ..it
    }
}

/// Whether the arguments are right, and the ranges apart.
fn is_move_right(object: Object, it: Transfer) -> bool
    ensures { result ≡ ioctl.is_move_right object it.to it.from it.len it.bits }
{
    if !is_right(object, it.to, it.len, it.bits, 3) || !is_range(it.from, it.len) {
        return false;
    }
    it.to + it.len <= it.from || it.from + it.len <= it.to
}

impl KernelTable {
    /// Whether pages may be moved.
    fn may_move(&self, name: u64, object: Object, it: Transfer) -> bool
        requires tables { AreTables self.now }
        requires room { it.to + it.len ≤ 2 ^ 64 }
        requires source { it.from + it.len ≤ 2 ^ 64 }
        ensures { result ≡
            ioctl.may_be_moved (kernel_of self.now) name object it.to it.from it.len it.bits }
    {
        let holes = has_bit(it.bits, 1);
        self.each_page(object.space, it.to, it.len, PageTest::Of(name))
            && self.each_page(object.space, it.to, it.len, PageTest::Empty)
            && !self.some_page(object.space, it.from, it.len, PageTest::Unmovable { holes })
    }

    /// Pages are moved.
    fn move_in(&mut self, name: u64, object: Object, it: Transfer) -> Result<(), NoMemory>
        requires tables { AreTables self.old }
        requires room { it.to + it.len ≤ 2 ^ 64 }
        requires source { it.from + it.len ≤ 2 ^ 64 }
        ensures tables { AreTables self.new }
        ensures moved { OnOk result (kernel_of self.new ≡
            ioctl.with_moved (kernel_of self.old) name object it.to it.from it.len it.bits) }
    {
        self.put_in(name, object, it.to, it.len, moving(it.bits))?;
        self.change(object.space, it.from, it.len, Change::Clear)
    }

    /// Part of the pages are moved, and the call halts at the next one.
    fn move_part(
        &mut self,
        key: u64,
        name: u64,
        object: Object,
        it: Transfer,
    ) -> Result<bool, NoMemory>
        requires tables { AreTables self.old }
        requires room { it.to + it.len < 2 ^ 64 }
        requires source { it.from + it.len ≤ 2 ^ 64 }
        ensures tables { AreTables self.new }
        ensures step { IfOk result (λ made.
            ioctl.moved_in_part (kernel_of self.old) key name object it.to it.from it.len it.bits ≡
            allowed made (kernel_of self.new)) }
    {
        if !self.may_move(name, object, it) {
            return Ok(false);
        }
        self.move_in(name, object, it)?;
        self.halt_at(key, object.space, it.to + it.len, moving(it.bits))
    }

    /// A call has moved part of its pages, or none since the address space is changing.
    fn move_halted(
        &mut self,
        key: u64,
        name: u64,
        object: Object,
        it: Transfer,
        bytes: Option<u64>,
    ) -> Result<bool, NoMemory>
        requires { AreTables self.old }
        ensures tables { AreTables self.new }
        ensures step { IfOk result (λ made.
            ioctl.move_halted (kernel_of self.old) key name object it.to it.from it.len it.bits
            bytes ≡
            allowed made (kernel_of self.new)) }
    {
        if !is_part(it.len, bytes) || !is_move_right(object, it) {
            return self.refuse_while_changing(name);
        }
        self.move_part(key, name, object, pages_of(it, bytes_or_none(bytes)))
    }

    /// A call finds something at its first target.
    fn move_stopped(&mut self, key: u64, object: Object, it: Transfer) -> Result<bool, NoMemory>
        requires { AreTables self.old }
        ensures tables { AreTables self.new }
        ensures step { IfOk result (λ made.
            ioctl.move_stopped (kernel_of self.old) key object it.to it.from it.len it.bits ≡
            allowed made (kernel_of self.new)) }
    {
        if !is_move_right(object, it) {
            return Ok(false);
        }
        self.stop_at(key, object.space, it.to / PAGE_SIZE, moving(it.bits))
    }

    /// Whether a call may have found nothing at its first source, or a range that is not mapped.
    fn is_move_outside(&self, object: Object, it: Transfer) -> bool
        requires { AreTables self.now }
        ensures { ioctl.move_outside (kernel_of self.now) object it.to it.from it.len it.bits ≡
            allowed result (kernel_of self.now) }
    {
        if !is_move_right(object, it) {
            return false;
        }
        let pages = pages_of(it, it.len);
        !has_bit(it.bits, 1) && !self.page_passes(object.space, pages.from, PageTest::Present)
            || !self.each_page(object.space, pages.to, pages.len, PageTest::Any)
            || !self.each_page(object.space, pages.from, pages.len, PageTest::Any)
    }

    /// UFFDIO_MOVE fails.
    fn move_failed(
        &mut self,
        key: u64,
        name: u64,
        object: Object,
        it: Transfer,
        bytes: Option<u64>,
        errno: Errno,
    ) -> Result<bool, NoMemory>
        requires { AreTables self.old }
        ensures tables { AreTables self.new }
        ensures step { IfOk result (λ made.
            ioctl.move_failed (kernel_of self.old) key name object it.to it.from it.len it.bits
            bytes errno ≡
            allowed made (kernel_of self.new)) }
    {
        match errno {
            Errno::Eagain => self.move_halted(key, name, object, it, bytes),
            Errno::Eexist => {
                if bytes.is_some() {
                    return Ok(false);
                }
                self.move_stopped(key, object, it)
            }
            Errno::Enoent => {
                if bytes.is_some() {
                    return Ok(false);
                }
                Ok(self.is_move_outside(object, it))
            }
            Errno::Einval => Ok(true),
            Errno::Ebusy | Errno::Efault | Errno::Enomem | Errno::Esrch => Ok(is_enabled(object)),
            _ => Ok(false),
        }
    }

    /// A call moves all its pages.
    fn move_all(
        &mut self,
        name: u64,
        object: Object,
        it: Transfer,
        bytes: u64,
    ) -> Result<bool, NoMemory>
        requires { AreTables self.old }
        ensures tables { AreTables self.new }
        ensures step { IfOk result (λ made.
            ioctl.all_moved (kernel_of self.old) name object it.to it.from it.len it.bits bytes ≡
            allowed made (kernel_of self.new)) }
    {
        if bytes != it.len || !is_move_right(object, it) {
            return Ok(false);
        }
        if self.is_changing(name) {
            return Ok(false);
        }
        let pages = pages_of(it, it.len);
        if !self.may_move(name, object, pages) {
            return Ok(false);
        }
        self.move_in(name, object, pages)?;
        Ok(true)
    }

    /// UFFDIO_MOVE. `key` is the number of the call in the log.
    pub(crate) fn move_with(
        &mut self,
        key: u64,
        name: u64,
        object: Object,
        it: Transfer,
        answer: Answer,
    ) -> Result<bool, NoMemory>
        requires { AreTables self.old }
        ensures tables { AreTables self.new }
        ensures step { IfOk result (λ made.
            ioctl.moved_with (kernel_of self.old) key name object it.to it.from it.len it.bits
            answer ≡
            allowed made (kernel_of self.new)) }
    {
        match answer {
            Answer::Value(bytes) => self.move_all(name, object, it, bytes),
            Answer::Failed { errno, bytes } => {
                self.move_failed(key, name, object, it, bytes, errno)
            }
            _ => Ok(false),
        }
    }
}
