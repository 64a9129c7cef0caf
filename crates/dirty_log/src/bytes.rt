//! The bytes of pages.

ghost use Rattle.std.specs.Prelude.{◌≡◌, ℕ, ◌+◌, ◌<◌, ◌≤◌, length, true, IfOk};
ghost use Rattle.std.specs.List.{All};
ghost use Rattle.mig_base.specs.Bytes.{contents};
ghost use Rattle.mig_model.specs.Guest.{is_present};
ghost use Rattle.mig_base.specs.declared.TheConstants.{HIGH_PAGE};
ghost use Rattle.mig_model.specs.Source.{Source, run_of, space_of};

use mig_base::{NoMemory, PAGE_BYTES, PageBytes, PageNo};
use std::alloc::Global;
use uffd_ioctl::Space;

/// `count` pages of zeros, into which bytes can be read. `NoMemory` if they cannot be allocated.
pub fn blank_pages(alloc: Global, count: u32) -> Result<Vec<PageBytes>, NoMemory>
    ensures { IfOk result (λ pages. length pages.items ≡ count) }
{
    let mut pages = Vec::with_capacity(alloc, count as usize)?;
    for _ in 0..count {
        pages.push(PageBytes::zeros(alloc)?)?;
    }
    Ok(pages)
}

/// The bytes of a present page.
pub fn bytes_at(space: &Space, page: PageNo) -> &[u8; PAGE_BYTES]
    requires { is_present space.now page ≡ true }
    ensures { result.now ≡ contents space.now.host.bytes page }
{
    match space.page(page) {
        Some(bytes) => bytes,
        None => unreachable!(),
    }
}

/// A fact about every slice of bytes: each is below 256. The call does nothing.
pub fn are_bytes(bytes: &[u8])
    ensures { All (λ byte. byte < 256) bytes.now }
{}

/// Copies the bytes of consecutive present pages, from page `first` on.
pub fn read_pages(space: &Space, first: PageNo, into: &mut Vec<PageBytes>)
    requires inside { first + length into.old.items ≤ HIGH_PAGE }
    requires present { (i : ℕ) → i < length into.old.items →
        is_present space.now (first + i) ≡ true }
    ensures { (node : Source) → (space_of node).host.bytes ≡ space.now.host.bytes →
        into.new.items ≡ run_of node first (length into.old.items) }
{
    for i in 0..into.len() {
        into[i].copy_from(bytes_at(space, first + i as PageNo));
    }
}
