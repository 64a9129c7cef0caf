//! The tags of frames.

ghost use Rattle.std.specs.Prelude.{◌≡◌};
ghost use Rattle.frame_decoder.specs.Versions.{tag_from, allows};

use crate::version::Version;
use mig_base::{HIGH_PAGE, LOW_PAGE, MAX_CPUS, MAX_RUN, PAGE_SIZE};

/// The kind of a frame, the second byte of its header.
#[derive(Clone, Copy)]
pub(crate) enum Tag {
    Advise,
    Page,
    Zero,
    Discard,
    Package,
    End,
    Resume,
    Run,
    Request,
    Recv,
    Done,
}

impl Tag {
    /// The tag with this code; `None` if the version has none.
    pub(crate) fn from_code(version: Version, code: u8) -> Option<Tag>
        ensures { result ≡ tag_from version code }
    {
        match code {
            0x01 => Some(Tag::Advise),
            0x02 => Some(Tag::Page),
            0x03 => Some(Tag::Zero),
            0x04 => Some(Tag::Discard),
            0x05 => Some(Tag::Package),
            0x06 => Some(Tag::End),
            0x07 => Some(Tag::Resume),
            0x08 if version.has_runs() => Some(Tag::Run),
            0x81 => Some(Tag::Request),
            0x82 => Some(Tag::Recv),
            0x83 => Some(Tag::Done),
            _ => None,
        }
    }

    /// Whether a body of such a frame may have `len` bytes.
    pub(crate) fn allows_len(self, version: Version, len: u32) -> bool
        ensures { result ≡ allows version self len }
    {
        let page = PAGE_SIZE as u32;
        match self {
            Tag::Advise | Tag::Resume | Tag::Done => len == 0,
            Tag::Page => len == 4 + page,
            Tag::Zero | Tag::End | Tag::Request => len == 4,
            Tag::Discard => 4 <= len && len <= 4 + 4 * (HIGH_PAGE - LOW_PAGE) && len % 8 == 4,
            Tag::Package => 10 <= len
                && len <= 9 + 17 * version.max_pages() + 18 * u32::from(MAX_CPUS),
            Tag::Run => 8 + page <= len && len <= 8 + page * u32::from(MAX_RUN) && len % page == 8,
            Tag::Recv => 5 <= len && len <= 5 + 8 * version.max_pages() && len % 8 == 5,
        }
    }
}
