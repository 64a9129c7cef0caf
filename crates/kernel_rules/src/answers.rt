//! Which answers a call may have by itself: what its words and its answer say, and whether the handshake was made.

ghost use Rattle.std.specs.Prelude.{◌≡◌};
ghost use Rattle.kernel_rules.specs.Ioctls.{has_calls, is_offer, is_open_error, is_register_error, is_unregister_error};
ghost use Rattle.kernel_rules.specs.MapCalls.{has_bytes, has_stopped, is_advice, is_clearing, is_fork_error, is_munmap_error, is_placed, is_populating};
ghost use Rattle.kernel_rules.specs.Reads.{has_room_for, is_poll_error};
ghost use Rattle.kernel_rules.specs.Runs.{duplicated, is_other, is_unblock_error};
ghost use Rattle.kernel_rules.specs.State.{allowed, Kernel};

use crate::arguments::is_enabled;
use crate::object::Object;
use foundation::has_bit;
use uffd_log::{Answer, Errno};

/// Whether userfaultfd(2) may fail so.
pub fn is_open_error(errno: Errno) -> bool
    ensures { result ≡ is_open_error errno }
{
    matches!(
        errno,
        Errno::Einval | Errno::Enomem | Errno::Eperm | Errno::Other
    )
}

/// Whether the kernel offers a feature, and the calls that each object has.
pub fn is_offer(offered: u64, ioctls: u64) -> bool
    ensures { result ≡ is_offer offered ioctls }
{
    0 < offered && has_bit(ioctls, 0) && has_bit(ioctls, 1) && has_bit(ioctls, 63)
}

/// Whether UFFDIO_REGISTER may fail so.
pub fn is_register_error(object: Object, errno: Errno) -> bool
    ensures { result ≡ is_register_error object errno }
{
    match errno {
        Errno::Einval => true,
        Errno::Ebusy | Errno::Eperm | Errno::Enomem | Errno::Efault => is_enabled(object),
        _ => false,
    }
}

/// Whether the pages of a range have the calls that each has, and those of its mode.
pub fn has_calls(bits: u64, ioctls: u64) -> bool
    ensures { result ≡ has_calls bits ioctls }
{
    has_bit(ioctls, 2) && has_bit(ioctls, 3) && ioctls / 64 % 4 == bits / 2
}

/// Whether UFFDIO_UNREGISTER may fail so.
pub fn is_unregister_error(object: Object, errno: Errno) -> bool
    ensures { result ≡ is_unregister_error object errno }
{
    match errno {
        Errno::Einval => true,
        Errno::Enomem | Errno::Efault => is_enabled(object),
        _ => false,
    }
}

/// Whether poll(2) may fail so.
pub fn is_poll_error(errno: Errno) -> bool
    ensures { result ≡ is_poll_error errno }
{
    matches!(
        errno,
        Errno::Eintr | Errno::Enomem | Errno::Efault | Errno::Einval
    )
}

/// Whether there is room for this number of messages, if the log says how much there is.
pub fn has_room_for(count: u64, room: Option<u64>) -> bool
    ensures { result ≡ has_room_for count room }
{
    match room {
        None => true,
        Some(room) => count <= room / 32,
    }
}

/// Whether O_NONBLOCK may not be set or cleared so.
pub fn is_unblock_error(errno: Errno) -> bool
    ensures { result ≡ is_unblock_error errno }
{
    matches!(errno, Errno::Efault | Errno::Other)
}

/// Whether dup(2) may answer so.
pub fn duplicates(answer: Answer) -> bool
    ensures { (kernel : Kernel) → duplicated kernel answer ≡ allowed result kernel }
{
    match answer {
        Answer::Failed { errno, .. } => matches!(
            errno,
            Errno::Eintr | Errno::Enomem | Errno::Ebusy | Errno::Einval | Errno::Other
        ),
        _ => true,
    }
}

/// Whether fork(2) may fail so.
pub fn is_fork_error(errno: Errno) -> bool
    ensures { result ≡ is_fork_error errno }
{
    !matches!(
        errno,
        Errno::Enoent | Errno::Esrch | Errno::Eintr | Errno::Efault
    )
}

/// Whether munmap(2) may fail so.
pub fn is_munmap_error(errno: Errno) -> bool
    ensures { result ≡ is_munmap_error errno }
{
    matches!(errno, Errno::Einval | Errno::Enomem | Errno::Eperm)
}

/// Whether mmap(2) has mapped where it was to.
pub fn is_placed(addr: u64, flags: u64, start: u64) -> bool
    ensures { result ≡ is_placed addr flags start }
{
    !has_bit(flags, 4) || start == addr
}

/// Whether madvise(2) may answer so: it does not succeed with an advice that it does not know.
pub fn is_advice(advice: u64, answer: Answer) -> bool
    ensures { result ≡ is_advice advice answer }
{
    match answer {
        Answer::Done => advice < 104,
        Answer::Failed { errno, .. } => {
            !matches!(errno, Errno::Enoent | Errno::Esrch | Errno::Eexist)
        }
        _ => false,
    }
}

/// Whether madvise(2) has touched each page of its range.
pub fn is_populating(advice: u64, answer: Answer) -> bool
    ensures { result ≡ is_populating advice answer }
{
    matches!(answer, Answer::Done) && (advice == 22 || advice == 23)
}

/// Whether an advice of madvise(2) clears pages, or lets the kernel take them back.
pub fn is_clearing(advice: u64) -> bool
    ensures { result ≡ is_clearing advice }
{
    matches!(advice, 4 | 8 | 9 | 24)
}

/// Whether madvise(2) may have cleared the first pages of its range, and has stopped.
pub fn has_stopped(advice: u64, answer: Answer) -> bool
    ensures { result ≡ has_stopped advice answer }
{
    match answer {
        Answer::Failed { errno, .. } => matches!(errno, Errno::Einval) && is_clearing(advice),
        _ => false,
    }
}

/// Whether a range has a byte.
pub fn has_bytes(len: u64) -> bool
    ensures { result ≡ has_bytes len }
{
    0 < len
}

/// Whether close(2) may fail so.
pub fn is_close_error(errno: Errno) -> bool
    ensures { result ≡ is_other errno }
{
    matches!(errno, Errno::Other)
}
