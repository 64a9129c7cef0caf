//! What is sent for a page.

ghost use Rattle.std.specs.Prelude.{◌≡◌, true};
ghost use Rattle.mig_base.specs.Bytes.{contents};
ghost use Rattle.mig_model.specs.Bounds.{IsFrame, IsPage};
ghost use Rattle.mig_model.specs.Guest.{is_present};
ghost use Rattle.mig_model.specs.Wire.{page_frame};
ghost use Rattle.dirty_log.specs.Sending.{frame_sent};

use crate::bytes::are_bytes;
use mig_base::{PAGE_BYTES, PageNo};
use uffd_ioctl::Space;

/// What is sent for a page. The bytes are not copied but stay borrowed until they are written, so the wire gets the bytes that this page
/// has now.
#[derive(Clone, Copy)]
pub enum PageContent<'a> {
    /// The bytes of the page.
    Page(&'a [u8; PAGE_BYTES]),
    /// Only that all its bytes are zero.
    Zero,
}

impl<'a> PageContent<'a> {
    /// What is sent for a present page.
    pub fn read(space: &'a Space, page: PageNo) -> Self
        requires { is_present space.now page ≡ true }
        ensures sent { frame_sent page result ≡
            page_frame page (contents space.now.host.bytes page) }
        ensures frame { IsPage page → IsFrame (frame_sent page result) }
    {
        match space.page_unless_zeros(page) {
            Some(bytes) => {
                are_bytes(bytes);
                PageContent::Page(bytes)
            }
            None => PageContent::Zero,
        }
    }
}
