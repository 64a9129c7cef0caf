//! The number that a load reads, and whether a reply means that the access was made.

ghost use Rattle.std.specs.Prelude.{◌≡◌, ◌≤◌, ◌<◌, length};
ghost use Rattle.mig_base.specs.Bytes.{little_endian};
ghost use Rattle.mig_model.specs.Space as machine;

use byteorder::{ByteOrder, LittleEndian};
use mig_base::Reply;

/// The little-endian number of 1 to 8 bytes.
pub(crate) fn number(bytes: &[u8]) -> u64
    requires some { 0 < length bytes.now }
    requires few { length bytes.now ≤ 8 }
    ensures { result ≡ little_endian bytes.now }
{
    LittleEndian::read_uint(bytes, bytes.len())
}

/// Whether a reply means that the access was made.
pub(crate) fn is_made(reply: Reply) -> bool
    ensures { result ≡ machine.is_made reply }
{
    matches!(reply, Reply::Value(_) | Reply::Done)
}
