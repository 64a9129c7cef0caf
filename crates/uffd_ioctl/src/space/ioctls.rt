//! The calls of the userfault object.

ghost use Rattle.std.specs.Prelude.{◌≡◌, ◌+◌, ◌*◌, ◌/◌, ◌<◌, ◌≤◌, ◌⊎◌, IfOk, IfErr, OnOk, OnErr, None, true, false, length};
ghost use Rattle.std.specs.FinMap.{contains_key};
ghost use Rattle.std.specs.Option.{option_map};
ghost use Rattle.foundation.specs.Bits.{is_one};
ghost use Rattle.mig_base.specs.Bytes.{zero_page};
ghost use Rattle.mig_base.specs.declared.TheConstants.{HIGH_PAGE};
ghost use Rattle.mig_model.specs.Bounds.{IsPage};
ghost use Rattle.mig_base.specs.Userfault as object;
ghost use Rattle.mig_model.specs.Ioctls as table;
ghost use Rattle.uffd_ioctl.specs.Puts.{IsShort, result_of};
ghost use Rattle.uffd_ioctl.specs.Spaces.{ioctl_result};

use super::Space;
use crate::arguments::{has_events, has_unknown_feature, is_bad_range, mode_of, whole_pages};
use crate::fault::{Copied, CopyFault, IoctlFault, outcome, refused};
use crate::install::{put_copies, put_zeros};
use crate::protect::{open_unwatched, set_protection};
use crate::register::registered;
use mig_base::flags::{
    ALL_FEATURES, API, COPY_WP_BIT, INSTALL_DONTWAKE_BIT, WRITEPROTECT_WP_BIT, has_bit,
};
use mig_base::{Addr, Errno, HIGH_PAGE, Message, NoMemory, PageBytes, PageNo, Run, Wake};
use userfault::Mode;

impl Space {
    /// UFFDIO_API: enables the object for these features, and returns all features that it has: UFFD_FEATURE_PAGEFAULT_FLAG_WP, the
    /// events REMAP, REMOVE and UNMAP, and UFFD_FEATURE_THREAD_ID. EINVAL for an API other than 0xAA, an unknown feature, or a
    /// second handshake.
    pub fn handshake(&mut self, api: u64, features: u64) -> Result<u64, Errno>
        ensures answer { result ≡ table.handshake_answer self.old api features }
        ensures space { self.new ≡ table.handshaken self.old api features }
    {
        if api != API || has_unknown_feature(features) || self.is_enabled() {
            return Err(Errno::Einval);
        }
        self.object.enable(features);
        Ok(ALL_FEATURES)
    }

    /// Whether the object is enabled, that is, a handshake was accepted.
    pub fn is_enabled(&self) -> bool
        ensures { result ≡ self.now.object.enabled }
    {
        self.object.features().is_some()
    }

    /// UFFDIO_REGISTER: registers the mapped pages of the `len` bytes from `start` on, for missing faults with bit 0 of the mode
    /// and for write-protect faults with bit 1. A page that already has all modes asked for keeps what it has, any other page gets exactly
    /// the modes asked for; a page that is no longer registered for write-protect faults loses its protection.
    ///
    /// EINVAL if the object is not enabled for the three events, the mode is not 1 to 3, the range is bad, or no page of it is mapped. A
    /// range is bad if it is empty, does not begin and end at a page boundary, or leaves the address space.
    pub fn register(&mut self, start: Addr, len: u64, mode: u64) -> Result<(), IoctlFault>
        ensures answer { (result ≡
            ioctl_result (table.answered_by (table.register_error self.old start len mode) tt)) ⊎
            ((result ≡ Err IoctlFault.NoMemory) ×
            (table.register_error self.old start len mode ≡ None)) }
        ensures space { OnOk result (self.new ≡ table.registered self.old start len mode) }
        ensures err { OnErr result (self.new ≡ self.old) }
    {
        if let Some(errno) = self.register_error(start, len, mode) {
            return Err(IoctlFault::Errno(errno));
        }
        let range = whole_pages(start, len);
        let mode = mode_of(mode);
        let object = registered(&self.object, &self.areas, range, mode)?;
        open_unwatched(&mut self.pages, &object, range);
        self.object = object;
        Ok(())
    }

    fn register_error(&self, start: Addr, len: u64, mode: u64) -> Option<Errno>
        ensures { result ≡ table.register_error self.now start len mode }
    {
        let Some(features) = self.object.features() else {
            return Some(Errno::Einval);
        };
        if !has_events(features) || mode == 0 || mode > 3 || is_bad_range(start, len) {
            return Some(Errno::Einval);
        }
        if self.is_bare(whole_pages(start, len)) {
            return Some(Errno::Einval);
        }
        None
    }

    /// Whether no page of the range is mapped.
    fn is_bare(&self, range: Run) -> bool
        requires { range.first + range.count ≤ HIGH_PAGE }
        ensures { result ≡ table.is_bare self.now range.first range.count }
    {
        self.areas.mapped_in(range.first, range.count) == 0
    }

    /// UFFDIO_UNREGISTER: ends the registration and the protection of the `len` bytes from `start` on, and wakes those that sleep
    /// there. EINVAL if the object is not enabled, the range is bad, or no page of it is mapped. It takes no memory.
    pub fn unregister(&mut self, start: Addr, len: u64) -> Result<Wake, IoctlFault>
        ensures answer { result ≡ ioctl_result (table.unregister_answer self.old start len) }
        ensures space { self.new ≡ table.range_unregistered self.old start len }
    {
        if let Some(errno) = self.unregister_error(start, len) {
            return Err(IoctlFault::Errno(errno));
        }
        let range = whole_pages(start, len);
        self.object.unregister(range.first, range.count);
        self.pages.unprotect_range(range.first, range.count);
        Ok(Wake::Range { start, len })
    }

    fn unregister_error(&self, start: Addr, len: u64) -> Option<Errno>
        ensures { result ≡ table.unregister_error self.now start len }
    {
        if !self.is_enabled() || is_bad_range(start, len) || self.is_bare(whole_pages(start, len)) {
            return Some(Errno::Einval);
        }
        None
    }

    /// UFFDIO_WAKE: wakes those that sleep on the `len` bytes from `start` on. EINVAL if the object is not enabled or the range is
    /// bad.
    pub fn wake(&self, start: Addr, len: u64) -> Result<Wake, Errno>
        ensures { result ≡ table.wake_answer self.now start len }
    {
        if !self.is_enabled() || is_bad_range(start, len) {
            return Err(Errno::Einval);
        }
        Ok(Wake::Range { start, len })
    }

    /// UFFDIO_COPY: makes the missing pages from `start` on present, each with its 4096 bytes of `bytes`, write-protected with bit 1 of
    /// the mode (UFFDIO_COPY_MODE_WP), and wakes those that sleep there, unless bit 0 is set (UFFDIO_COPY_MODE_DONTWAKE). It stops
    /// at the first page that is present or cannot be allocated: the pages put before stay, and their sleepers are woken as above. The
    /// error is then EAGAIN; if that page is the first of the range, it is EEXIST or `NoMemory`.
    ///
    /// Before any page is put: EINVAL if the object is not enabled, the mode is above 3 or the range is bad; EAGAIN while an event is
    /// unread; ENOENT unless all pages are registered, with one protection and in one mode; EINVAL for bit 1 if they are not
    /// registered for write-protect faults.
    pub fn copy(&mut self, start: Addr, bytes: &[u8], mode: u64) -> Result<Copied, CopyFault>
        ensures row { ((result ≡ result_of (table.copy_answer self.old start bytes.now mode)) ×
            (self.new ≡ table.copied self.old start bytes.now mode)) ⊎
            ((table.copy_error self.old start (length bytes.now) mode ≡ None) ×
            IsShort self.old self.new start (length bytes.now / 4096) mode (table.handed bytes.now)
            (is_one mode 1) result) }
    {
        if let Some(errno) = self.copy_error(start, bytes.len() as u64, mode) {
            return Err(refused(errno));
        }
        let range = whole_pages(start, bytes.len() as u64);
        let protect = has_bit(mode, COPY_WP_BIT);
        let (done, stop) = put_copies(self.alloc, &mut self.pages, range.first, bytes, protect);
        outcome(start, done, has_bit(mode, INSTALL_DONTWAKE_BIT), stop)
    }

    /// UFFDIO_COPY, with mode 0, of one missing page that is registered, while the object is enabled and no event is unread: makes the
    /// page present with these bytes, which are moved there. The call itself wakes nobody. The only error is that memory runs out; it
    /// returns the bytes and changes nothing.
    pub fn install(&mut self, page: PageNo, bytes: PageBytes) -> Result<(), PageBytes>
        requires enabled { self.old.object.enabled ≡ true }
        requires quiet { object.changing self.old.object ≡ 0 }
        requires page { IsPage page }
        requires registered { object.is_registered self.old.object page ≡ true }
        requires missing { contains_key self.old.host.bytes page ≡ false }
        ensures ok { OnOk result (self.new ≡ table.copied self.old (4096 * page) bytes 0) }
        ensures err { IfErr result (λ back. (back ≡ bytes) × (self.new ≡ self.old)) }

        // The same in terms of the page number.
        ensures page { OnOk result (self.new ≡ table.installed self.old page 1 (λ i. bytes) false) }
    {
        if let Err((_, bytes)) = self.pages.put(page, bytes) {
            return Err(bytes);
        }
        self.pages.has_whole_pages();
        Ok(())
    }

    /// UFFDIO_ZEROPAGE, with mode 0, of one missing page that is registered, while the object is enabled and no event is unread: makes
    /// the page present, with zeros. The call itself wakes nobody. `NoMemory` is the only error, and changes nothing.
    pub(crate) fn install_zeros(&mut self, page: PageNo) -> Result<(), NoMemory>
        requires enabled { self.old.object.enabled ≡ true }
        requires quiet { object.changing self.old.object ≡ 0 }
        requires page { IsPage page }
        requires registered { object.is_registered self.old.object page ≡ true }
        requires missing { contains_key self.old.host.bytes page ≡ false }
        ensures ok { OnOk result (self.new ≡
            table.installed self.old page 1 (λ i. zero_page) false) }
        ensures err { OnErr result (self.new ≡ self.old) }
    {
        let Ok(()) = self.pages.put_zero(page) else {
            return Err(NoMemory);
        };
        self.pages.has_whole_pages();
        Ok(())
    }

    fn copy_error(&self, start: Addr, len: u64, mode: u64) -> Option<Errno>
        ensures { result ≡ table.copy_error self.now start len mode }
    {
        if !self.is_enabled() || mode > 3 || is_bad_range(start, len) {
            return Some(Errno::Einval);
        }
        if self.object.changing() > 0 {
            return Some(Errno::Eagain);
        }
        let range = whole_pages(start, len);
        if !self.is_one_area(range) {
            return Some(Errno::Enoent);
        }
        if has_bit(mode, COPY_WP_BIT) && !self.object.mode_at(range.first).protect {
            return Some(Errno::Einval);
        }
        None
    }

    /// Whether the pages of the range are registered, all with one protection and in one mode.
    fn is_one_area(&self, range: Run) -> bool
        requires some { 0 < range.count }
        requires inside { range.first + range.count ≤ HIGH_PAGE }
        ensures { result ≡ table.is_one_area self.now range.first range.count }
    {
        let mode = self.object.mode_at(range.first);
        (mode.missing || mode.protect)
            && self.object.has_one_mode(range.first, range.count)
            && self.areas.one_prot(range.first, range.count).is_some()
    }

    /// UFFDIO_ZEROPAGE: makes the missing pages of the `len` bytes from `start` on present, with zeros, and wakes those that sleep
    /// there, unless bit 0 of the mode is set (UFFDIO_ZEROPAGE_MODE_DONTWAKE). It stops as [`Space::copy`] does.
    ///
    /// Before any page is put: EINVAL if the object is not enabled, the mode is above 1 or the range is bad; EAGAIN while an event is
    /// unread; ENOENT unless all pages are registered, with one protection and in one mode.
    pub fn zeropage(&mut self, start: Addr, len: u64, mode: u64) -> Result<Copied, CopyFault>
        ensures row { ((result ≡ result_of (table.zeropage_answer self.old start len mode)) ×
            (self.new ≡ table.zeropaged self.old start len mode)) ⊎
            ((table.zeropage_error self.old start len mode ≡ None) ×
            IsShort self.old self.new start (len / 4096) mode (λ i. zero_page) false result) }
    {
        if let Some(errno) = self.zeropage_error(start, len, mode) {
            return Err(refused(errno));
        }
        let range = whole_pages(start, len);
        let (done, stop) = put_zeros(&mut self.pages, range.first, range.count);
        outcome(start, done, has_bit(mode, INSTALL_DONTWAKE_BIT), stop)
    }

    fn zeropage_error(&self, start: Addr, len: u64, mode: u64) -> Option<Errno>
        ensures { result ≡ table.zeropage_error self.now start len mode }
    {
        if !self.is_enabled() || mode > 1 || is_bad_range(start, len) {
            return Some(Errno::Einval);
        }
        if self.object.changing() > 0 {
            return Some(Errno::Eagain);
        }
        if !self.is_one_area(whole_pages(start, len)) {
            return Some(Errno::Enoent);
        }
        None
    }

    /// UFFDIO_WRITEPROTECT: with bit 0 of the mode (UFFDIO_WRITEPROTECT_MODE_WP) protects the present pages of the `len` bytes from
    /// `start` on. Without bit 0 it ends their protection and wakes those that sleep there, unless bit 1 is set
    /// (UFFDIO_WRITEPROTECT_MODE_DONTWAKE). Missing pages are skipped. It takes no memory.
    ///
    /// EINVAL if the object is not enabled, the mode is above 2 or the range is bad; EAGAIN while an event is unread; ENOENT unless all
    /// pages are registered for write-protect faults.
    pub fn writeprotect(&mut self, start: Addr, len: u64, mode: u64) -> Result<Wake, Errno>
        ensures answer { result ≡ table.writeprotect_answer self.old start len mode }
        ensures space { self.new ≡ table.write_protected self.old start len mode }
    {
        if let Some(errno) = self.writeprotect_error(start, len, mode) {
            return Err(errno);
        }
        set_protection(
            &mut self.pages,
            whole_pages(start, len),
            has_bit(mode, WRITEPROTECT_WP_BIT),
        );
        if mode == 0 {
            Ok(Wake::Range { start, len })
        } else {
            Ok(Wake::Nobody)
        }
    }

    fn writeprotect_error(&self, start: Addr, len: u64, mode: u64) -> Option<Errno>
        ensures { result ≡ table.writeprotect_error self.now start len mode }
    {
        if !self.is_enabled() || mode > 2 || is_bad_range(start, len) {
            return Some(Errno::Einval);
        }
        if self.object.changing() > 0 {
            return Some(Errno::Eagain);
        }
        let range = whole_pages(start, len);
        let watched = Mode {
            missing: false,
            protect: true,
        };
        if !self.object.has_modes(range.first, range.count, watched) {
            return Some(Errno::Enoent);
        }
        None
    }

    /// read(2) of the object: the next message, page faults before events, with the processor that caused it. EINVAL if the
    /// object is not enabled, EAGAIN if there is no message.
    pub fn read_message(&mut self) -> Result<(Message, u8), Errno>
        ensures message { IfOk result (λ read.
            option_map (λ noted. (noted.message, noted.cpu)) (object.next_message self.old.object) ≡
            Some read) }
        ensures ok { OnOk result (table.read_error self.old ≡ None) }
        ensures err { IfErr result (λ errno. table.read_error self.old ≡ Some errno) }
        ensures space { self.new ≡ table.read_space self.old }
    {
        if !self.is_enabled() {
            return Err(Errno::Einval);
        }
        match self.object.read_message() {
            Some(read) => Ok(read),
            None => Err(Errno::Eagain),
        }
    }
}
