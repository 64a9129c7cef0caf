//! The bytes in front of those of pages.

ghost use Rattle.std.specs.Prelude.{◌≡◌, ◌+◌, ◌≤◌, ◌∷◌, [], ℕ, length, get_or};
ghost use Rattle.std.specs.Int.{w32, from_be_bytes};
ghost use Rattle.std.specs.Option.{IfNone, IfSome};
ghost use Rattle.nodes.specs.Heads.{IsHeadOfPage, IsHeadOfRun};

use mig_base::{HIGH_PAGE, LOW_PAGE, MAX_RUN, PageNo};
use page_stream::{page_head, run_head};

/// The number of 32 bits at a place, the highest byte first.
fn number_at(bytes: &[u8], at: usize) -> u32
    requires { at + 4 ≤ length bytes.now }
    ensures { result ≡
        from_be_bytes w32
        (get_or bytes.now at 0 ∷ get_or bytes.now (at + 1) 0 ∷ get_or bytes.now (at + 2) 0 ∷
        get_or bytes.now (at + 3) 0 ∷ []) }
{
    u32::from_be_bytes([bytes[at], bytes[at + 1], bytes[at + 2], bytes[at + 3]])
}

/// The epoch and the page of the head of a Page, if the bytes are exactly one.
pub(crate) fn page_of(bytes: &[u8]) -> Option<(u32, PageNo)>
    ensures some { IfSome result (λ found. IsHeadOfPage bytes.now found.0 found.1) }
    ensures none { IfNone result ((epoch page : ℕ) → IsHeadOfPage bytes.now epoch page → ⊥) }
{
    if bytes.len() != 16 {
        return None;
    }
    let epoch = number_at(bytes, 4);
    let page = number_at(bytes, 12);
    if page < LOW_PAGE || HIGH_PAGE <= page {
        return None;
    }
    if bytes != page_head(epoch, page).as_slice() {
        return None;
    }
    Some((epoch, page))
}

/// The pages of the head of a Run.
#[derive(Clone, Copy)]
pub(crate) struct RunHead {
    pub epoch: u32,
    pub first: PageNo,
    pub count: u32,
}

/// The pages of the head of a Run, if the bytes are exactly one.
pub(crate) fn run_of(bytes: &[u8]) -> Option<RunHead>
    ensures some { IfSome result (λ found.
        IsHeadOfRun bytes.now found.epoch found.first found.count) }
    ensures none { IfNone result ((epoch first count : ℕ) →
        IsHeadOfRun bytes.now epoch first count → ⊥) }
{
    if bytes.len() != 20 {
        return None;
    }
    let epoch = number_at(bytes, 4);
    let first = number_at(bytes, 12);
    let count = number_at(bytes, 16);
    if first < LOW_PAGE || HIGH_PAGE <= first {
        return None;
    }
    if count < 1 || u32::from(MAX_RUN) < count || HIGH_PAGE - first < count {
        return None;
    }
    if bytes != run_head(epoch, first, count).as_slice() {
        return None;
    }
    Some(RunHead {
        epoch,
        first,
        count,
    })
}
