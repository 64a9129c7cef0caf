//! How the handler of a node resolves a page fault.

ghost use Rattle.std.specs.Prelude.{◌≡◌};
ghost use Rattle.mig_base.specs.Acts.{act_effect};

use crate::effect::Effect;
use crate::{Addr, PageNo, page_address};

/// How a handler resolves a fault, by the present state of its page.
#[derive(Clone, Copy, Debug, PartialEq, Eq)]
pub enum Act {
    /// The protection of the page is cleared, and its sleepers are woken. Only a source does this.
    Unprotected,
    /// The missing page becomes zeros, and its sleepers are woken.
    Zeroed,
    /// The page is present: its sleepers are woken.
    Woke,
    /// The page is no longer mapped, or no longer registered: its sleepers are woken.
    Forgot,
    /// The page is owed from this page of the source, which is requested: its sleepers sleep on. Only a destination does this.
    Requested(PageNo),
}

impl Act {
    /// The effect of the act on the page at `addr`, a multiple of 4096.
    pub fn effect(self, addr: Addr) -> Effect
        ensures { result ≡ act_effect self addr }
    {
        match self {
            Act::Unprotected => Effect::Unprotected { addr },
            Act::Zeroed => Effect::Zeroed { addr },
            Act::Woke => Effect::Woke { addr },
            Act::Forgot => Effect::Forgot { addr },
            Act::Requested(origin) => Effect::Requested {
                origin: page_address(origin),
                addr,
            },
        }
    }
}
