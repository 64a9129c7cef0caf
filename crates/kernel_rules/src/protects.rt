//! UFFDIO_WRITEPROTECT, by the rules of `specs/Ioctls.antt`. After `NoMemory`, or where no rule allows the answer, a table is not to be used.

ghost use Rattle.std.specs.Prelude.{◌≡◌, ◌==◌, ◌≤◌, ◌+◌, ◌/◌, ◌^◌, ◌&&◌, ◌||◌, ◌++◌, ◌∷◌, [], filter, not, IfOk, OnOk};
ghost use Rattle.foundation.specs.declared.TheConstants.{PAGE_SIZE};
ghost use Rattle.foundation.specs.Ranges.{in_range};
ghost use Rattle.kernel_rules.specs.State.{allowed, page_is};
ghost use Rattle.kernel_rules.specs.Ioctls as ioctl;
ghost use Rattle.kernel_rules.specs.Ioctls.{is_right, protects_missing};
ghost use Rattle.kernel_rules.specs.Held.{kernel_of, AreTables};

use crate::arguments::{asked_for, is_enabled, is_right, may_be_outside};
use crate::calling::Protecting;
use crate::change::Change;
use crate::difference::Difference;
use crate::fault::Reach;
use crate::kernel_table::KernelTable;
use crate::known::{Page, Presence};
use crate::object::Object;
use crate::page_test::PageTest;
use foundation::{NoMemory, PAGE_SIZE, has_bit};
use uffd_log::{Answer, Errno};

/// Whether pages that are missing are protected too.
fn protects_missing(object: Object) -> bool
    ensures { result ≡ protects_missing object }
{
    asked_for(object, 13) || asked_for(object, 15)
}

/// Whether a page has something to protect.
fn may_protect_one(object: Object, page: Page) -> bool
    ensures { result ≡ ioctl.may_protect_one object page }
{
    page.protect && (protects_missing(object) || !matches!(page.presence, Presence::Missing))
}

/// Takes away the pages that a call has protected.
fn remove_protected(protected: &mut Vec<Protecting>, key: u64)
    ensures { protected.new.items ≡
        filter (λ one. not (one.key == key)) protected.old.items }
{
    protected.retain(|one| one.key != key);
}

impl KernelTable {
    /// Whether a call has protected a page before its others.
    #[tactic(auto, unfolding(crate::specs::Held::kernel_of))]
    pub fn has_begun(&self, key: u64) -> bool
        ensures { result ≡ ioctl.has_begun (kernel_of self.now) key }
    {
        self.protected.iter().any(|one| one.key == key)
    }

    /// Whether a call has protected this page before its others.
    #[tactic(auto, unfolding(crate::specs::Held::kernel_of))]
    pub fn has_protected(&self, key: u64, page: u64) -> bool
        ensures { result ≡ ioctl.has_protected (kernel_of self.now) key page }
    {
        self.protected
            .iter()
            .any(|one| one.key == key && one.page == page)
    }

    /// Whether a range may be protected, or no longer.
    fn may_protect(
        &self,
        key: u64,
        name: u64,
        object: Object,
        start: u64,
        len: u64,
        bits: u64,
    ) -> bool
        requires { AreTables self.now }
        ensures { result ≡
            ioctl.may_be_protected (kernel_of self.now) key name object start len bits }
    {
        let (first, count) = (start / PAGE_SIZE, len / PAGE_SIZE);
        is_right(object, start, len, bits, 2)
            && (self.has_begun(key)
                || !self.is_changing(name)
                    && self.some_page(object.space, first, count, PageTest::Protected))
    }

    /// The pages that a call has protected before its others.
    #[tactic(auto, unfolding(crate::specs::Held::kernel_of))]
    fn protected_pages(&self) -> &[Protecting]
        ensures { result.now ≡ (kernel_of self.now).protected }
    {
        &self.protected
    }

    /// The pages that a call has protected before its others, as they are.
    fn kept_pages(&self, key: u64, space: u64) -> Result<Vec<(u64, Option<Page>)>, NoMemory>
        requires { AreTables self.now }
        ensures { IfOk result (λ pages. pages.items ≡ ioctl.kept_pages
            (kernel_of self.now) key space (kernel_of self.now).protected) }
    {
        let mut pages = Vec::new(self.allocator());
        for one in self.protected_pages() {
            if one.key == key {
                let found = self.page(space, one.page);
                let Ok(()) = pages.push((one.page, found)) else {
                    return Err(NoMemory);
                };
            }
        }
        Ok(pages)
    }

    /// A call has protected no page before others.
    #[tactic(auto, unfolding(crate::specs::Held::kernel_of))]
    fn drop_protected(&mut self, key: u64)
        requires { AreTables self.old }
        ensures tables { AreTables self.new }
        ensures dropped { kernel_of self.new ≡
            ioctl.without_protected (kernel_of self.old) key }
    {
        remove_protected(&mut self.protected, key);
    }

    /// A range is protected, or no longer.
    fn protect_in(
        &mut self,
        key: u64,
        name: u64,
        object: Object,
        first: u64,
        count: u64,
        bits: u64,
    ) -> Result<(), NoMemory>
        requires tables { AreTables self.old }
        requires room { first + count ≤ 2 ^ 64 }
        ensures tables { AreTables self.new }
        ensures protected { OnOk result (kernel_of self.new ≡
            ioctl.protected_in (kernel_of self.old) key name object first count bits) }
    {
        let hole = !self.each_page(object.space, first, count, PageTest::Protected);
        let kept = self.kept_pages(key, object.space)?;
        let change = Change::Protect {
            protect: has_bit(bits, 0),
            unpopulated: protects_missing(object),
        };
        self.change(object.space, first, count, change)?;
        self.set_pages(object.space, &kept)?;
        self.drop_protected(key);
        self.note_if(hole, Difference::WriteProtectOverAHole)?;
        if bits != 0 {
            return Ok(());
        }
        self.wake(name, Reach::Within { first, count }, true)
    }

    /// Notes that a call has protected a page before its others.
    #[tactic(auto, unfolding(crate::specs::Held::kernel_of))]
    fn note_protected(&mut self, key: u64, page: u64) -> Result<(), NoMemory>
        requires { AreTables self.old }
        ensures tables { AreTables self.new }
        ensures noted { OnOk result (kernel_of self.new ≡ record (kernel_of self.old) {
          protected = (kernel_of self.old).protected ++ record { key = key; page = page } ∷ [];
        }) }
    {
        match self.protected.push(Protecting { key, page }) {
            Ok(()) => Ok(()),
            Err(_) => Err(NoMemory),
        }
    }

    /// Whether a page has something to protect.
    fn may_protect_at(&self, object: Object, page: u64) -> bool
        requires { AreTables self.now }
        ensures { result ≡ page_is (ioctl.may_protect_one object)
            ((kernel_of self.now).pages object.space page) }
    {
        match self.page(object.space, page) {
            Some(found) => may_protect_one(object, found),
            None => false,
        }
    }

    /// Whether a call that protects a range may protect this page before its others.
    fn may_protect_first(
        &self,
        key: u64,
        name: u64,
        object: Object,
        start: u64,
        len: u64,
        bits: u64,
        page: u64,
    ) -> bool
        requires { AreTables self.now }
        ensures { result ≡ (bits == 1 && is_right object start len bits 2
            && in_range (start / PAGE_SIZE) (len / PAGE_SIZE) page
            && not (ioctl.has_protected (kernel_of self.now) key page)
            && (ioctl.has_begun (kernel_of self.now) key
            || not (ioctl.is_changing (kernel_of self.now) name))
            && page_is (ioctl.may_protect_one object)
            ((kernel_of self.now).pages object.space page)) }
    {
        let (first, count) = (start / PAGE_SIZE, len / PAGE_SIZE);
        bits == 1
            && is_right(object, start, len, bits, 2)
            && (first <= page && page - first < count)
            && !self.has_protected(key, page)
            && (self.has_begun(key) || !self.is_changing(name))
            && self.may_protect_at(object, page)
    }

    /// A call that protects a range protects this page of it, and the others later. False where no rule allows that, and nothing has changed
    /// then.
    pub(crate) fn protects_first(
        &mut self,
        key: u64,
        name: u64,
        object: Object,
        start: u64,
        len: u64,
        bits: u64,
        page: u64,
    ) -> Result<bool, NoMemory>
        requires { AreTables self.old }
        ensures tables { AreTables self.new }
        ensures step { IfOk result (λ made. ioctl.protected_first
            (kernel_of self.old) key name object start len bits page ≡
            allowed made (kernel_of self.new)) }
    {
        if !self.may_protect_first(key, name, object, start, len, bits, page) {
            return Ok(false);
        }
        let change = Change::Protect {
            protect: true,
            unpopulated: true,
        };
        self.change(object.space, page, 1, change)?;
        self.note_protected(key, page)?;
        Ok(true)
    }

    /// UFFDIO_WRITEPROTECT over pages that are not all registered for it.
    fn protect_outside(
        &mut self,
        object: Object,
        start: u64,
        len: u64,
        bits: u64,
    ) -> Result<bool, NoMemory>
        requires { AreTables self.old }
        ensures tables { AreTables self.new }
        ensures step { IfOk result (λ made.
            ioctl.protect_outside (kernel_of self.old) object start len bits ≡
            allowed made (kernel_of self.new)) }
    {
        let (first, count) = (start / PAGE_SIZE, len / PAGE_SIZE);
        if !is_right(object, start, len, bits, 2)
            || self.each_page(object.space, first, count, PageTest::Protected)
        {
            return Ok(false);
        }
        let protect = has_bit(bits, 0);
        self.change(
            object.space,
            first,
            count,
            Change::PerhapsProtect { protect },
        )?;
        Ok(true)
    }

    /// UFFDIO_WRITEPROTECT fails.
    fn protect_failed(
        &mut self,
        name: u64,
        object: Object,
        start: u64,
        len: u64,
        bits: u64,
        errno: Errno,
    ) -> Result<bool, NoMemory>
        requires { AreTables self.old }
        ensures tables { AreTables self.new }
        ensures step { IfOk result (λ made.
            ioctl.protect_failed (kernel_of self.old) name object start len bits errno ≡
            allowed made (kernel_of self.new)) }
    {
        match errno {
            Errno::Eagain => self.refuse_while_changing(name),
            Errno::Enoent => self.protect_outside(object, start, len, bits),
            Errno::Einval => {
                Ok(!is_right(object, start, len, bits, 2) || may_be_outside(start, len))
            }
            Errno::Efault | Errno::Enomem | Errno::Esrch => Ok(is_enabled(object)),
            _ => Ok(false),
        }
    }

    /// UFFDIO_WRITEPROTECT.
    pub(crate) fn protects(
        &mut self,
        key: u64,
        name: u64,
        object: Object,
        start: u64,
        len: u64,
        bits: u64,
        answer: Answer,
    ) -> Result<bool, NoMemory>
        requires { AreTables self.old }
        ensures tables { AreTables self.new }
        ensures step { IfOk result (λ made.
            ioctl.protected_with (kernel_of self.old) key name object start len bits answer ≡
            allowed made (kernel_of self.new)) }
    {
        match answer {
            Answer::Done => {
                if !self.may_protect(key, name, object, start, len, bits) {
                    return Ok(false);
                }
                let (first, count) = (start / PAGE_SIZE, len / PAGE_SIZE);
                self.protect_in(key, name, object, first, count, bits)?;
                Ok(true)
            }
            Answer::Failed { errno, .. } => {
                self.protect_failed(name, object, start, len, bits, errno)
            }
            _ => Ok(false),
        }
    }
}
