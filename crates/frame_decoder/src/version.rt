//! The versions of a stream.

ghost use Rattle.std.specs.Prelude.{◌≡◌};
ghost use Rattle.page_stream.specs.Texts as texts;
ghost use Rattle.frame_decoder.specs.Versions as versions;

use mig_base::MAX_PAGES;

/// The number of pages that may be mapped in version 1.
pub const FIRST_MAX_PAGES: u32 = 16_384;

/// The versions of the texts of frames. Both are read; the second is written.
#[derive(Clone, Copy, Debug, PartialEq, Eq)]
pub enum Version {
    /// Up to [`FIRST_MAX_PAGES`] pages are mapped, and there is no frame Run.
    One,
    /// Up to [`MAX_PAGES`] pages are mapped.
    Two,
}

impl Version {
    /// The number of pages that may be mapped.
    pub(crate) fn max_pages(self) -> u32
        ensures { result ≡ versions.max_pages self }
    {
        match self {
            Version::One => FIRST_MAX_PAGES,
            Version::Two => MAX_PAGES,
        }
    }

    /// Whether it has the frame Run.
    pub(crate) fn has_runs(self) -> bool
        ensures { result ≡ versions.has_runs self }
    {
        match self {
            Version::One => false,
            Version::Two => true,
        }
    }

    /// The version with this code, the first byte of a header; `None` if it is not known, or not the fixed one.
    pub(crate) fn from_code(fixed: Option<Version>, code: u8) -> Option<Version>
        ensures { result ≡ versions.version_from fixed code }
    {
        match (fixed, code) {
            (None | Some(Version::One), 1) => Some(Version::One),
            (None | Some(Version::Two), 2) => Some(Version::Two),
            _ => None,
        }
    }
}
