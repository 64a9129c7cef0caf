//! The threads that wait at a page, which no line of a log shows.

ghost use Rattle.std.specs.Prelude.{◌≡◌, ◌++◌, [], OnOk, filter, filter_map, if◌then◌else◌, not, true};
ghost use Rattle.std.specs.List.{list_any};
ghost use Rattle.kernel_rules.specs.Pages.{is_of_minor, is_of_protection};
ghost use Rattle.kernel_rules.specs.Faults.{are_flags, is_seen, stops_at, fault_of, faults_without, is_twin, sleeps, is_unread_in, is_of_thread, left_unanswered};
ghost use Rattle.kernel_rules.specs.Reads.{first_unread};

use crate::known::{Page, Phase, Presence};
use foundation::{NoMemory, has_bit};

/// A thread that found a page missing or write-protected, until it is woken or leaves.
#[derive(Clone, Copy)]
pub struct Fault {
    /// The thread, by its number in the log. One that the log does not name has a number from 2^31 on.
    pub thread: u64,
    pub object: u64,
    pub page: u64,
    /// As in `struct uffd_msg`: bit 0 for a store, bit 1 for one to a page that is write-protected.
    pub flags: u64,
    pub phase: Phase,
    /// The call that read its message, if the page was not there then: it has to be answered.
    pub read_by: Option<u64>,
}

/// The pages of an object whose sleeping threads are meant.
#[derive(Clone, Copy)]
pub enum Reach {
    Everywhere,
    Within { first: u64, count: u64 },
}

/// Whether the flags are those of a write-protected page.
pub fn is_protection(flags: u64) -> bool
    ensures { result ≡ is_of_protection flags }
{
    has_bit(flags, 1)
}

/// Whether the flags are those of a page that is not mapped, and is in the page cache.
fn is_minor(flags: u64) -> bool
    ensures { result ≡ is_of_minor flags }
{
    has_bit(flags, 2)
}

/// Whether flags are those of a fault.
pub fn are_flags(flags: u64) -> bool
    ensures { result ≡ are_flags flags }
{
    flags < 6 && flags != 2
}

/// Whether an access with these flags has to wait at a page that is registered with the object.
pub fn stops(object: u64, flags: u64, page: Page) -> bool
    ensures { result ≡ stops_at object flags page }
{
    if page.object != object || matches!(page.presence, Presence::Poisoned) {
        return false;
    }
    if is_protection(flags) {
        return page.protect && page.guarded && !matches!(page.presence, Presence::Missing);
    }
    let watched = if is_minor(flags) {
        page.minor
    } else {
        page.missing
    };
    watched && !matches!(page.presence, Presence::Present)
}

/// The fault of a thread, if it waits.
pub fn find(faults: &[Fault], thread: u64) -> Option<Fault>
    ensures { result ≡ fault_of faults.now thread }
{
    for fault in faults {
        if fault.thread == thread {
            return Some(*fault);
        }
    }
    None
}

/// The unread fault of an object that was queued first.
pub fn find_unread(faults: &[Fault], object: u64) -> Option<Fault>
    ensures { result ≡ first_unread faults.now object }
{
    for fault in faults {
        if fault.object == object && matches!(fault.phase, Phase::Unread) {
            return Some(*fault);
        }
    }
    None
}

/// Whether an unread fault is of the same object, page and kind as another.
fn are_twins(fault: Fault, other: Fault) -> bool
    ensures { result ≡ is_twin fault other }
{
    matches!(other.phase, Phase::Unread)
        && other.object == fault.object
        && other.page == fault.page
        && is_protection(fault.flags) == is_protection(other.flags)
}

/// Whether a fault of the same object, page and kind is unread.
pub fn has_twin(faults: &[Fault], fault: Fault) -> bool
    ensures { result ≡ list_any (is_twin fault) faults.now }
{
    for other in faults {
        if are_twins(fault, *other) {
            return true;
        }
    }
    false
}

/// Whether a fault sleeps in the object's pages.
pub fn is_asleep(object: u64, reach: Reach, fault: Fault) -> bool
    ensures { result ≡ sleeps object reach fault }
{
    if fault.object != object || matches!(fault.phase, Phase::Seen) {
        return false;
    }
    match reach {
        Reach::Everywhere => true,
        Reach::Within { first, count } => first <= fault.page && fault.page - first < count,
    }
}

/// Whether a thread has queued no message yet.
pub fn has_seen(fault: Fault) -> bool
    ensures { result ≡ is_seen fault.phase }
{
    matches!(fault.phase, Phase::Seen)
}

/// Takes the fault of a thread away.
pub fn remove(faults: &mut Vec<Fault>, thread: u64)
    ensures { faults.new.items ≡ faults_without faults.old.items thread }
{
    faults.retain(|fault| fault.thread != thread);
}

/// Whether an unread fault sleeps in the object's pages.
pub fn has_unread_in(faults: &[Fault], object: u64, reach: Reach) -> bool
    ensures { result ≡ list_any (is_unread_in object reach) faults.now }
{
    for fault in faults {
        if is_asleep(object, reach, *fault) && matches!(fault.phase, Phase::Unread) {
            return true;
        }
    }
    false
}

/// Adds the reads of the faults that sleep in the object's pages and are to be answered. After `NoMemory` some are added.
pub(crate) fn note_unanswered(
    unanswered: &mut Vec<u64>,
    faults: &[Fault],
    object: u64,
    reach: Reach,
) -> Result<(), NoMemory>
    ensures { OnOk result (unanswered.new.items ≡
        unanswered.old.items ++
        filter_map (left_unanswered (sleeps object reach)) faults.now) }
{
    for fault in faults {
        if is_asleep(object, reach, *fault) {
            if let Some(read) = fault.read_by {
                let Ok(()) = unanswered.push(read) else {
                    return Err(NoMemory);
                };
            }
        }
    }
    Ok(())
}

/// Adds the read of the fault of a thread, where it is to be answered. After `NoMemory` it may be missing.
pub fn note_thread(unanswered: &mut Vec<u64>, faults: &[Fault], thread: u64) -> Result<(), NoMemory>
    ensures { OnOk result (unanswered.new.items ≡
        unanswered.old.items ++ filter_map (left_unanswered (is_of_thread thread)) faults.now) }
{
    for fault in faults {
        if fault.thread == thread {
            if let Some(read) = fault.read_by {
                let Ok(()) = unanswered.push(read) else {
                    return Err(NoMemory);
                };
            }
        }
    }
    Ok(())
}

/// Adds the reads as `note_unanswered` does, unless a call of the handler answers them.
pub fn note_left(
    unanswered: &mut Vec<u64>,
    faults: &[Fault],
    object: u64,
    reach: Reach,
    answered: bool,
) -> Result<(), NoMemory>
    ensures { OnOk result (unanswered.new.items ≡
        unanswered.old.items ++
        (if answered then [] else filter_map (left_unanswered (sleeps object reach))
        faults.now)) }
{
    if answered {
        return Ok(());
    }
    note_unanswered(unanswered, faults, object, reach)
}

/// Takes the faults away that sleep in the object's pages.
pub fn wake_in(faults: &mut Vec<Fault>, object: u64, reach: Reach)
    ensures { faults.new.items ≡
        filter (λ fault. not (sleeps object reach fault)) faults.old.items }
{
    faults.retain(|fault| !is_asleep(object, reach, *fault));
}

/// Adds the reads of all faults that are to be answered. After `NoMemory` some are added.
pub(crate) fn note_all(unanswered: &mut Vec<u64>, faults: &[Fault]) -> Result<(), NoMemory>
    ensures { OnOk result (unanswered.new.items ≡
        unanswered.old.items ++ filter_map (left_unanswered (λ fault. true)) faults.now) }
{
    for fault in faults {
        if let Some(read) = fault.read_by {
            let Ok(()) = unanswered.push(read) else {
                return Err(NoMemory);
            };
        }
    }
    Ok(())
}
