//! The calls of a userfault object, by the rules of `specs/Ioctls.antt`. Each says whether a kernel may answer so, and then takes the step.
//! After `NoMemory` a table is not to be used.

ghost use Rattle.std.specs.Prelude.{◌≡◌, ◌==◌, ◌≤◌, ◌+◌, ◌/◌, ◌^◌, ◌&&◌, ◌++◌, ◌∷◌, [], if◌then◌else◌, not, Some, IfOk, OnOk};
ghost use Rattle.foundation.specs.declared.TheConstants.{PAGE_SIZE};
ghost use Rattle.foundation.specs.Bits.{is_one};
ghost use Rattle.kernel_rules.specs.State.{allowed, some_page};
ghost use Rattle.kernel_rules.specs.Ioctls.{has_calls, is_mode, is_owed, may_shake, opened, registered, shaken, unregistered, unregistered_in, waked, with_handshake, with_owed, with_range, with_registered};
ghost use Rattle.kernel_rules.specs.State.{asked_for, is_enabled, is_range, noted_if, page_is};
ghost use Rattle.kernel_rules.specs.Pages.{mode_of};
ghost use Rattle.kernel_rules.specs.declared.difference.Difference.TheVariants as differs;
ghost use Rattle.kernel_rules.specs.Held.{kernel_of, AreTables};

use crate::answers::{has_calls, is_offer, is_open_error, is_register_error, is_unregister_error};
use crate::arguments::{asked_for, is_enabled, is_mode, is_range, is_within, may_be_outside};
use crate::change::Change;
use crate::difference::Difference;
use crate::fault::Reach;
use crate::kernel_table::KernelTable;
use crate::known::{Page, Presence};
use crate::object::Object;
use crate::page_test::PageTest;
use foundation::{NoMemory, PAGE_SIZE, has_bit};
use uffd_log::{Answer, Errno};

/// Whether a page is owed where its registration with an object ends.
fn is_owed(name: u64, object: Object, page: Page) -> bool
    ensures { result ≡ is_owed name object page }
{
    page.object == name
        && object.puts
        && page.missing
        && !page.minor
        && matches!(page.presence, Presence::Missing)
}

/// Whether the handshake may be made.
fn may_shake(object: Object, api: u64, features: u64, offered: u64) -> bool
    ensures { result ≡ may_shake object api features offered }
{
    !is_enabled(object) && api == 0xaa && is_within(features, offered)
}

impl KernelTable {
    /// userfaultfd(2), for a space, by a program.
    pub(crate) fn open(
        &mut self,
        space: u64,
        program: u64,
        flags: u64,
        answer: Answer,
    ) -> Result<bool, NoMemory>
        requires { AreTables self.old }
        ensures tables { AreTables self.new }
        ensures step { IfOk result (λ made. opened (kernel_of self.old) space program flags answer ≡
            allowed made (kernel_of self.new)) }
    {
        match answer {
            Answer::Opened(on) => {
                if self.object(on.object).is_some() {
                    return Ok(false);
                }
                if !is_within(flags, 0x80801) {
                    return Ok(false);
                }
                let waits = !has_bit(flags, 11);
                self.set_object(
                    on.object,
                    Object {
                        space,
                        program,
                        waits,
                        features: None,
                        puts: false,
                    },
                )?;
                Ok(true)
            }
            Answer::Failed { errno, .. } => Ok(is_open_error(errno)),
            _ => Ok(false),
        }
    }

    /// The handshake is made.
    fn shake(&mut self, name: u64, object: Object, features: u64) -> Result<(), NoMemory>
        requires { AreTables self.old }
        ensures tables { AreTables self.new }
        ensures shaken { OnOk result (kernel_of self.new ≡
            with_handshake (kernel_of self.old) name object features) }
    {
        let other = !is_within(features, 0x14d);
        self.set_object(
            name,
            Object {
                features: Some(features),
                ..object
            },
        )?;
        self.note_if(other, Difference::OtherFeatures)
    }

    /// UFFDIO_API.
    pub(crate) fn api(
        &mut self,
        name: u64,
        object: Object,
        api: u64,
        features: u64,
        answer: Answer,
    ) -> Result<bool, NoMemory>
        requires { AreTables self.old }
        ensures tables { AreTables self.new }
        ensures step { IfOk result (λ made.
            shaken (kernel_of self.old) name object api features answer ≡
            allowed made (kernel_of self.new)) }
    {
        match answer {
            Answer::Features {
                features: offered,
                ioctls,
            } => {
                if !may_shake(object, api, features, offered) || !is_offer(offered, ioctls) {
                    return Ok(false);
                }
                self.shake(name, object, features)?;
                Ok(true)
            }
            Answer::Failed { errno, .. } => Ok(match errno {
                Errno::Einval => is_enabled(object) || api != 0xaa || 0 < features,
                Errno::Eperm => has_bit(features, 1),
                Errno::Efault => true,
                _ => false,
            }),
            _ => Ok(false),
        }
    }

    /// Whether a range may be registered.
    fn may_register(&self, name: u64, object: Object, start: u64, len: u64, bits: u64) -> bool
        requires { AreTables self.now }
        ensures { result ≡ (is_enabled object && is_mode bits && is_range start len
            && not (some_page (kernel_of self.now) object.space (start / PAGE_SIZE)
            (len / PAGE_SIZE) (λ page. not (page.object == name)))) }
    {
        let (first, count) = (start / PAGE_SIZE, len / PAGE_SIZE);
        is_enabled(object)
            && is_mode(bits)
            && is_range(start, len)
            && !self.some_page(object.space, first, count, PageTest::OfAnother(name))
    }

    /// A range is registered.
    fn register_in(
        &mut self,
        name: u64,
        object: Object,
        first: u64,
        count: u64,
        bits: u64,
    ) -> Result<(), NoMemory>
        requires tables { AreTables self.old }
        requires room { first + count ≤ 2 ^ 64 }
        ensures tables { AreTables self.new }
        ensures registered { OnOk result (kernel_of self.new ≡
            noted_if (not (asked_for object 2 && asked_for object 3 && asked_for object 6))
            differs.RegisterWithoutEvents
            (with_range (with_registered (kernel_of self.old) name object.space first count
            (mode_of bits) (is_one bits 2)) name first count)) }
    {
        let change = Change::Register {
            object: name,
            missing: has_bit(bits, 0),
            protect: has_bit(bits, 1),
            minor: has_bit(bits, 2),
        };
        self.change(object.space, first, count, change)?;
        self.note_range(name, first, count)?;
        let events = asked_for(object, 2) && asked_for(object, 3) && asked_for(object, 6);
        self.note_if(!events, Difference::RegisterWithoutEvents)
    }

    /// UFFDIO_REGISTER, of a word of modes.
    pub(crate) fn register(
        &mut self,
        name: u64,
        object: Object,
        start: u64,
        len: u64,
        bits: u64,
        answer: Answer,
    ) -> Result<bool, NoMemory>
        requires { AreTables self.old }
        ensures tables { AreTables self.new }
        ensures step { IfOk result (λ made.
            registered (kernel_of self.old) name object start len bits answer ≡
            allowed made (kernel_of self.new)) }
    {
        match answer {
            Answer::Value(ioctls) => {
                if !has_calls(bits, ioctls) || !self.may_register(name, object, start, len, bits) {
                    return Ok(false);
                }
                self.register_in(name, object, start / PAGE_SIZE, len / PAGE_SIZE, bits)?;
                Ok(true)
            }
            Answer::Failed { errno, .. } => Ok(is_register_error(object, errno)),
            _ => Ok(false),
        }
    }

    /// Whether a page is owed where its registration with an object ends.
    fn owes(&self, name: u64, object: Object, page: u64) -> bool
        requires { AreTables self.now }
        ensures { result ≡ page_is (is_owed name object)
            ((kernel_of self.now).pages object.space page) }
    {
        match self.page(object.space, page) {
            Some(page) => is_owed(name, object, page),
            None => false,
        }
    }

    /// Adds a page to those that are owed.
    #[tactic(auto, unfolding(crate::specs::Held::kernel_of))]
    fn add_owed(&mut self, space: u64, page: u64) -> Result<(), NoMemory>
        requires { AreTables self.old }
        ensures tables { AreTables self.new }
        ensures added { OnOk result (kernel_of self.new ≡ record (kernel_of self.old) {
          owed = (kernel_of self.old).owed ++ (space, page) ∷ [];
        }) }
    {
        match self.owed.push((space, page)) {
            Ok(()) => Ok(()),
            Err(_) => Err(NoMemory),
        }
    }

    /// Notes a page, if it is owed.
    fn note_page(&mut self, name: u64, object: Object, page: u64) -> Result<(), NoMemory>
        requires { AreTables self.old }
        ensures tables { AreTables self.new }
        ensures noted { OnOk result (kernel_of self.new ≡ record (kernel_of self.old) {
          owed = (kernel_of self.old).owed ++
              (if page_is (is_owed name object) ((kernel_of self.old).pages object.space page)
              then (object.space, page) ∷ [] else []);
        }) }
    {
        if !self.owes(name, object, page) {
            return Ok(());
        }
        self.add_owed(object.space, page)
    }

    /// Notes the pages of a range that are owed.
    fn note_owed(
        &mut self,
        name: u64,
        object: Object,
        first: u64,
        count: u64,
    ) -> Result<(), NoMemory>
        requires tables { AreTables self.old }
        requires room { first + count ≤ 2 ^ 64 }
        ensures tables { AreTables self.new }
        ensures noted { OnOk result (kernel_of self.new ≡
            with_owed (kernel_of self.old) name object first count) }
    {
        for i in 0..count {
            self.note_page(name, object, first + i)?;
        }
        Ok(())
    }

    /// A range is no longer registered with an object.
    pub(crate) fn unregister_in(
        &mut self,
        name: u64,
        object: Object,
        first: u64,
        count: u64,
    ) -> Result<(), NoMemory>
        requires tables { AreTables self.old }
        requires room { first + count ≤ 2 ^ 64 }
        ensures tables { AreTables self.new }
        ensures ended { OnOk result (kernel_of self.new ≡
            unregistered_in (kernel_of self.old) name object first count) }
    {
        self.note_owed(name, object, first, count)?;
        self.change(
            object.space,
            first,
            count,
            Change::ForgetObject { object: name },
        )
    }

    /// UFFDIO_UNREGISTER.
    pub(crate) fn unregister(
        &mut self,
        name: u64,
        object: Object,
        start: u64,
        len: u64,
        answer: Answer,
    ) -> Result<bool, NoMemory>
        requires { AreTables self.old }
        ensures tables { AreTables self.new }
        ensures step { IfOk result (λ made.
            unregistered (kernel_of self.old) name object start len answer ≡
            allowed made (kernel_of self.new)) }
    {
        match answer {
            Answer::Done => {
                if !is_enabled(object) {
                    return Ok(false);
                }
                if !is_range(start, len) {
                    return Ok(false);
                }
                let (first, count) = (start / PAGE_SIZE, len / PAGE_SIZE);
                self.unregister_in(name, object, first, count)?;
                self.wake(name, Reach::Within { first, count }, false)?;
                Ok(true)
            }
            Answer::Failed { errno, .. } => Ok(is_unregister_error(object, errno)),
            _ => Ok(false),
        }
    }

    /// UFFDIO_WAKE.
    pub(crate) fn wakes(
        &mut self,
        name: u64,
        object: Object,
        start: u64,
        len: u64,
        answer: Answer,
    ) -> Result<bool, NoMemory>
        requires { AreTables self.old }
        ensures tables { AreTables self.new }
        ensures step { IfOk result (λ made.
            waked (kernel_of self.old) name object start len answer ≡
            allowed made (kernel_of self.new)) }
    {
        let right = is_enabled(object) && is_range(start, len);
        match answer {
            Answer::Done => {
                if !right {
                    return Ok(false);
                }
                let (first, count) = (start / PAGE_SIZE, len / PAGE_SIZE);
                self.wake(name, Reach::Within { first, count }, true)?;
                Ok(true)
            }
            Answer::Failed { errno, .. } => Ok(match errno {
                Errno::Einval => !right || may_be_outside(start, len),
                Errno::Efault => is_enabled(object),
                _ => false,
            }),
            _ => Ok(false),
        }
    }
}
