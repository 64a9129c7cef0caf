//! What the arguments of a call say by themselves.

ghost use Rattle.std.specs.Prelude.{◌≡◌, ◌<◌, ◌+◌, ◌^◌, ◌&&◌, nat_lt, not};
ghost use Rattle.foundation.specs.Bits.{is_one};
ghost use Rattle.kernel_rules.specs.State.{asked_for, is_enabled, is_range, is_within, may_be_outside};
ghost use Rattle.kernel_rules.specs.Ioctls.{bytes_or_none, is_mode, is_part, is_right, presence_of};

use crate::known::Presence;
use crate::object::Object;
use foundation::{PAGE_SIZE, has_bit};

/// The bytes that the user's half of an address space has at the most.
pub const MOST_BYTES: u64 = 1 << 56;

/// The bytes of the user's half on most machines: 2^47, but for a page.
const USUAL_BYTES: u64 = 0x7fff_ffff_f000;

/// The usual value of vm.mmap_min_addr.
const LEAST_ADDRESS: u64 = 0x1_0000;

/// Whether a range of bytes is one of whole pages that a process may have.
pub(crate) fn is_range(start: u64, len: u64) -> bool
    ensures { result ≡ is_range start len }
{
    start % PAGE_SIZE == 0
        && len % PAGE_SIZE == 0
        && len > 0
        && start <= MOST_BYTES
        && len <= MOST_BYTES - start
}

/// Whether a kernel may refuse a range as one that no process has.
pub fn may_be_outside(start: u64, len: u64) -> bool
    ensures { result ≡ may_be_outside start len }
{
    start < LEAST_ADDRESS || start > USUAL_BYTES || len > USUAL_BYTES - start
}

/// Whether a range of bytes ends past the greatest address.
pub fn wraps(start: u64, len: u64) -> bool
    ensures { result ≡ nat_lt (2 ^ 64) (start + len) }
{
    len > 0 && len - 1 > u64::MAX - start
}

/// Whether a word has a bit that another one lacks.
fn lacks(word: u64, other: u64, i: u32) -> bool
    requires { i < 64 }
    ensures { result ≡ (is_one word i && not (is_one other i)) }
{
    has_bit(word, i) && !has_bit(other, i)
}

/// Whether a word has no bit that another one lacks.
pub fn is_within(word: u64, other: u64) -> bool
    ensures { result ≡ is_within word other }
{
    for i in 0..64 {
        if lacks(word, other, i) {
            return false;
        }
    }
    true
}

/// Whether an object asked for a feature, by its bit.
pub(crate) fn asked_for(object: Object, bit: u32) -> bool
    requires { bit < 64 }
    ensures { result ≡ asked_for object bit }
{
    match object.features {
        Some(features) => has_bit(features, bit),
        None => false,
    }
}

/// Whether the handshake was made.
pub(crate) fn is_enabled(object: Object) -> bool
    ensures { result ≡ is_enabled object }
{
    object.features.is_some()
}

/// Whether a mode can be asked for.
pub(crate) fn is_mode(bits: u64) -> bool
    ensures { result ≡ is_mode bits }
{
    0 < bits && bits < 8
}

/// Whether the arguments of a call are right; `most` is the greatest word of modes.
pub(crate) fn is_right(object: Object, start: u64, len: u64, bits: u64, most: u64) -> bool
    ensures { result ≡ is_right object start len bits most }
{
    is_enabled(object) && is_range(start, len) && bits <= most
}

/// Whether an error says that a call has put part of its pages.
pub(crate) fn is_part(len: u64, bytes: Option<u64>) -> bool
    ensures { result ≡ is_part len bytes }
{
    match bytes {
        None => false,
        Some(bytes) => 0 < bytes && bytes < len && bytes % PAGE_SIZE == 0,
    }
}

/// The bytes that were put before a call failed.
pub(crate) fn bytes_or_none(bytes: Option<u64>) -> u64
    ensures { result ≡ bytes_or_none bytes }
{
    match bytes {
        None => 0,
        Some(bytes) => bytes,
    }
}

/// What the bits of a run of pages say.
pub(crate) fn presence_of(bits: u64) -> Presence
    ensures { result ≡ presence_of bits }
{
    if has_bit(bits, 0) || has_bit(bits, 1) {
        Presence::Present
    } else if bits == 0 {
        Presence::Missing
    } else {
        Presence::Unknown
    }
}
