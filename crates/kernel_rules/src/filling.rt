//! What a call does that fills pages.

ghost use Rattle.std.specs.Prelude.{◌≡◌};
ghost use Rattle.std.specs.Prelude.{false, true};
ghost use Rattle.kernel_rules.specs.Ioctls.{moving, poisoning, putting};

use crate::change::Change;
use crate::page_test::PageTest;
use foundation::has_bit;

/// What a call asks of the pages that it fills, and what it does to them.
#[derive(Clone, Copy)]
pub struct Filling {
    /// Its word of modes, and the greatest one.
    pub bits: u64,
    pub most: u64,
    pub test: PageTest,
    pub change: Change,
    /// Whether a page of the page cache stops the call.
    pub cached: bool,
    /// Whether the marker of a page does that is protected though it is missing.
    pub marked: bool,
}

/// UFFDIO_COPY and UFFDIO_ZEROPAGE.
pub(crate) fn putting(bits: u64, most: u64) -> Filling
    ensures { result ≡ putting bits most true }
{
    let protect = has_bit(bits, 1);
    Filling {
        bits,
        most,
        test: PageTest::MayBePut { protect },
        change: Change::Put { protect },
        cached: true,
        marked: most == 1,
    }
}

/// UFFDIO_CONTINUE.
pub(crate) fn continuing(bits: u64) -> Filling
    ensures { result ≡ putting bits 3 false }
{
    Filling {
        cached: false,
        ..putting(bits, 3)
    }
}

/// UFFDIO_MOVE.
pub(crate) fn moving(bits: u64) -> Filling
    ensures { result ≡ moving bits }
{
    Filling {
        bits,
        most: 3,
        test: PageTest::Empty,
        change: if has_bit(bits, 1) {
            Change::PerhapsPut
        } else {
            Change::Put { protect: false }
        },
        cached: false,
        marked: true,
    }
}

/// UFFDIO_POISON.
pub(crate) fn poisoning(bits: u64) -> Filling
    ensures { result ≡ poisoning bits }
{
    Filling {
        bits,
        most: 1,
        test: PageTest::Empty,
        change: Change::Poison,
        cached: false,
        marked: true,
    }
}
