//! What a rule asks of the pages of a range.

ghost use Rattle.std.specs.Prelude.{◌≡◌};
ghost use Rattle.kernel_rules.specs.Pages.{is_freed, is_poisoned, may_be_missing, may_be_there};
ghost use Rattle.kernel_rules.specs.Tests.{passes};

use crate::known::{Page, Presence};

/// A test of a registered page.
#[derive(Clone, Copy)]
pub enum PageTest {
    /// It is registered.
    Any,
    /// It is registered with this object.
    Of(u64),
    /// It is registered with another object.
    OfAnother(u64),
    /// It may be put; `protect` says whether it must be registered for write-protect faults.
    MayBePut { protect: bool },
    /// It is registered for write-protect faults.
    Protected,
    /// It is registered for missing faults alone.
    NotProtected,
    /// It is known to be present.
    Present,
    /// It may be missing, and is not poisoned.
    Empty,
    /// It is known not to be there, or is poisoned.
    Lacking,
    /// UFFDIO_MOVE cannot take it from its place; `holes` says whether it may be missing.
    Unmovable { holes: bool },
    /// It is not registered for minor faults.
    NotMinor,
    /// It is registered with this object, and the kernel may take it back.
    Freed(u64),
}

/// Whether a page may be missing, as far as is known, or is poisoned.
pub(crate) fn may_miss(page: Page) -> bool
    ensures { result ≡ may_be_missing page }
{
    !matches!(page.presence, Presence::Present)
}

/// Whether the kernel may take back a page that is registered with an object.
fn is_freed(object: u64, page: Page) -> bool
    ensures { result ≡ is_freed object page }
{
    page.object == object && page.freed && !matches!(page.presence, Presence::Missing)
}

/// Whether a page is poisoned.
fn is_poisoned(page: Page) -> bool
    ensures { result ≡ is_poisoned page.presence }
{
    matches!(page.presence, Presence::Poisoned)
}

/// Whether a page may be there.
pub(crate) fn may_be_there(page: Page) -> bool
    ensures { result ≡ may_be_there page }
{
    !matches!(page.presence, Presence::Missing) || !page.missing
}

impl PageTest {
    /// Whether a page passes.
    pub(crate) fn holds(self, page: Page) -> bool
        ensures { result ≡ passes self page }
    {
        match self {
            PageTest::Any => true,
            PageTest::Of(object) => page.object == object,
            PageTest::OfAnother(object) => page.object != object,
            PageTest::MayBePut { protect } => may_miss(page) && (!protect || page.protect),
            PageTest::Protected => page.protect,
            PageTest::NotProtected => !page.protect,
            PageTest::Present => matches!(page.presence, Presence::Present),
            PageTest::Empty => may_miss(page) && !is_poisoned(page),
            PageTest::Lacking => !may_be_there(page) || is_poisoned(page),
            PageTest::Unmovable { holes } => is_poisoned(page) || !holes && !may_be_there(page),
            PageTest::NotMinor => !page.minor,
            PageTest::Freed(object) => is_freed(object, page),
        }
    }
}
