//! Headers.

ghost use Rattle.std.specs.Prelude.{◌≤◌, length};
ghost use Rattle.frame_decoder.specs.Reading.{Gives, IsRead};
ghost use Rattle.frame_decoder.specs.Headers.{header_at};

use crate::fault::StreamFault;
use crate::tag::Tag;
use crate::version::Version;

/// The length of a header in bytes.
pub(crate) const HEADER_LEN: usize = 12;

/// The fields of a header.
#[derive(Clone, Copy)]
pub(crate) struct Header {
    pub version: Version,
    pub tag: Tag,
    pub epoch: u32,
    /// The length of the body in bytes.
    pub len: u32,
}

/// The header in the first 12 bytes, of the fixed version if one is fixed, or its first fault. It takes no memory.
#[tactic(auto, unfolding(crate::specs::Headers::header_at))]
pub(crate) fn read_header(fixed: Option<Version>, bytes: &[u8]) -> Result<Header, StreamFault>
    requires { 12 ≤ length bytes.now }
    ensures { IsRead (λ x.
        record { version = x.version; tag = x.tag; epoch = x.epoch; len = x.len }) result
        (header_at fixed bytes.now) }
{
    let Some(version) = Version::from_code(fixed, bytes[0]) else {
        return Err(StreamFault::BadTag);
    };
    let Some(tag) = Tag::from_code(version, bytes[1]) else {
        return Err(StreamFault::BadTag);
    };
    let epoch = u32::from_be_bytes([bytes[4], bytes[5], bytes[6], bytes[7]]);
    let len = u32::from_be_bytes([bytes[8], bytes[9], bytes[10], bytes[11]]);
    if !tag.allows_len(version, len) {
        return Err(StreamFault::BadLength);
    }
    if bytes[2] != 0 || bytes[3] != 0 {
        return Err(StreamFault::BadField);
    }
    Ok(Header {
        version,
        tag,
        epoch,
        len,
    })
}
