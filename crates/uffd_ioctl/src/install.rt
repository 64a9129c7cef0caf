//! Putting pages over a range, one after the other, up to the first that cannot be put.

ghost use Rattle.std.specs.Prelude.{◌≡◌, ℕ, ◌+◌, ◌/◌, ◌<◌, ◌≤◌, ◌&&◌, ◌||◌, ◌↔◌, false, OnOk, IfOk, IfErr, IsTrue, length};
ghost use Rattle.std.specs.FinMap as map;
ghost use Rattle.std.specs.FinSet as set;
ghost use Rattle.mig_base.specs.Bytes.{zero_page};
ghost use Rattle.foundation.specs.Ranges.{in_range};
ghost use Rattle.mig_base.specs.declared.TheConstants.{HIGH_PAGE};
ghost use Rattle.mig_model.specs.Ioctls.{put_pages, handed};
ghost use Rattle.uffd_ioctl.specs.Puts.{IsPut};

use mig_base::{NoMemory, PAGE_BYTES, PageBytes, PageNo};
use page_table::{PageTable, PutFault};
use std::alloc::Global;

/// Puts copies of `bytes` at the pages from `first` on, write-protected if `protect`. Returns how many pages it put, and why it put
/// no more, or `None` if it put all.
pub(crate) fn put_copies(
    alloc: Global,
    pages: &mut PageTable,
    first: PageNo,
    bytes: &[u8],
    protect: bool,
) -> (u32, Option<PutFault>)
    requires { first + length bytes.now / 4096 ≤ HIGH_PAGE }
    ensures put { IsPut pages.old.bytes first (length bytes.now / 4096) result.0 result.1 }
    ensures bytes { pages.new.bytes ≡ put_pages pages.old.bytes first result.0 (handed bytes.now) }
    ensures protected { (q : ℕ) →
        set.contains pages.new.protected q ≡
        (set.contains pages.old.protected q || (protect && in_range first result.0 q)) }
{
    let count = (bytes.len() / PAGE_BYTES) as u32;
    let mut done = 0;
    while done < count {
        let start = done as usize * PAGE_BYTES;
        let page = first + done;
        if let Err(fault) = put_copy(
            alloc,
            pages,
            page,
            &bytes[start..start + PAGE_BYTES],
            protect,
        ) {
            return (done, Some(fault));
        }
        done += 1;
    }
    (done, None)
}

/// Puts a copy of the bytes of one page. `Present` if the page is present, else `NoMemory` if the copy or its entry cannot be
/// allocated. An error leaves the table as it was.
fn put_copy(
    alloc: Global,
    pages: &mut PageTable,
    page: PageNo,
    bytes: &[u8],
    protect: bool,
) -> Result<(), PutFault>
    requires page { page < HIGH_PAGE }
    requires whole { length bytes.now ≡ 4096 }
    ensures bytes { OnOk result (pages.new.bytes ≡ map.insert pages.old.bytes page bytes.now) }
    ensures protected { OnOk result ((q : ℕ) →
        set.contains pages.new.protected q ≡
        (set.contains pages.old.protected q || (protect && in_range page 1 q))) }
    ensures missing { OnOk result (map.contains_key pages.old.bytes page ≡ false) }
    ensures fault { IfErr result (λ fault.
        (pages.new ≡ pages.old) ×
        ((fault ≡ PutFault.Present) ↔ IsTrue (map.contains_key pages.old.bytes page))) }
{
    if pages.get(page).is_some() {
        return Err(PutFault::Present);
    }
    let Ok(copy) = copy_of(alloc, bytes) else {
        return Err(PutFault::NoMemory);
    };
    if let Err((fault, _)) = pages.put(page, copy) {
        return Err(fault);
    }
    if protect {
        pages.protect(page);
    }
    Ok(())
}

/// A copy of the bytes of one page. `NoMemory` if the allocation fails.
fn copy_of(alloc: Global, bytes: &[u8]) -> Result<PageBytes, NoMemory>
    requires { length bytes.now ≡ 4096 }
    ensures { IfOk result (λ copy. copy ≡ bytes.now) }
{
    match bytes.as_array::<PAGE_BYTES>() {
        Some(bytes) => PageBytes::copy_of(alloc, bytes),
        None => unreachable!(),
    }
}

/// Puts zeros at the `count` pages from `first` on, not write-protected. Returns how many pages it put, and why it put no more, or
/// `None` if it put all.
pub(crate) fn put_zeros(pages: &mut PageTable, first: PageNo, count: u32) -> (u32, Option<PutFault>)
    requires { first + count ≤ HIGH_PAGE }
    ensures put { IsPut pages.old.bytes first count result.0 result.1 }
    ensures bytes { pages.new.bytes ≡ put_pages pages.old.bytes first result.0 (λ i. zero_page) }
    ensures protected { pages.new.protected ≡ pages.old.protected }
{
    let mut done = 0;
    while done < count {
        if let Err(fault) = pages.put_zero(first + done) {
            return (done, Some(fault));
        }
        done += 1;
    }
    (done, None)
}
