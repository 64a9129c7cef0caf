//! The arguments of a userfault object's calls: ranges of whole pages, and words of flags.

ghost use Rattle.std.specs.Prelude.{◌≡◌, ◌+◌, ◌/◌, ◌<◌, ◌≤◌, ◌&&◌, false};
ghost use Rattle.foundation.specs.Bits.{is_one};
ghost use Rattle.mig_base.specs.declared.TheConstants.{HIGH_PAGE};
ghost use Rattle.mig_model.specs.Ioctls as table;
ghost use Rattle.userfault.specs.Modes as modes;

use mig_base::flags::{
    EVENT_REMAP_BIT, EVENT_REMOVE_BIT, EVENT_UNMAP_BIT, PAGEFAULT_FLAG_WP_BIT,
    REGISTER_MISSING_BIT, REGISTER_WP_BIT, THREAD_ID_BIT, has_bit,
};
use mig_base::{Addr, HIGH_PAGE, LOW, PAGE_SIZE, PageNo, Run};
use userfault::Mode;

/// Whether a range of bytes is not a nonempty range of whole pages of the address space.
pub(crate) fn is_bad_range(start: Addr, len: u64) -> bool
    ensures { result ≡ table.is_bad_range start len }
{
    start % PAGE_SIZE != 0
        || len % PAGE_SIZE != 0
        || len == 0
        || start < LOW
        || start / PAGE_SIZE + len / PAGE_SIZE > u64::from(HIGH_PAGE)
}

/// The pages of a range of bytes that is not bad.
pub(crate) fn whole_pages(start: Addr, len: u64) -> Run
    requires { table.is_bad_range start len ≡ false }
    ensures first { result.first ≡ start / 4096 }
    ensures count { result.count ≡ len / 4096 }
    ensures some { 0 < result.count }
    ensures inside { result.first + result.count ≤ HIGH_PAGE }
{
    Run {
        first: (start / PAGE_SIZE) as PageNo,
        count: (len / PAGE_SIZE) as u32,
    }
}

/// The modes that a word of flags asks for: UFFDIO_REGISTER_MODE_MISSING and UFFDIO_REGISTER_MODE_WP.
pub(crate) fn mode_of(flags: u64) -> Mode
    ensures { modes.mode_of result ≡ table.mode_of flags }
{
    Mode {
        missing: has_bit(flags, REGISTER_MISSING_BIT),
        protect: has_bit(flags, REGISTER_WP_BIT),
    }
}

/// Whether a feature is asked for that the object does not have.
pub(crate) fn has_unknown_feature(features: u64) -> bool
    ensures { result ≡ table.has_unknown table.is_feature features }
{
    for i in 0..64 {
        if has_bit(features, i) && !is_feature(i) {
            return true;
        }
    }
    false
}

/// Whether the object has the feature of bit `i`.
fn is_feature(i: u32) -> bool
    ensures { result ≡ table.is_feature i }
{
    matches!(
        i,
        PAGEFAULT_FLAG_WP_BIT | EVENT_REMAP_BIT | EVENT_REMOVE_BIT | EVENT_UNMAP_BIT | THREAD_ID_BIT
    )
}

/// Whether the three events are among the features.
pub(crate) fn has_events(features: u64) -> bool
    ensures { result ≡ (is_one features 2 && is_one features 3 && is_one features 6) }
{
    has_bit(features, EVENT_REMAP_BIT)
        && has_bit(features, EVENT_REMOVE_BIT)
        && has_bit(features, EVENT_UNMAP_BIT)
}
