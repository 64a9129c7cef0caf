//! Handing bytes over to a piece of memory of the caller.

ghost use Rattle.std.specs.Prelude.{◌≡◌, ◌≤◌, ◌<◌, ℕ, length};
ghost use Rattle.postmig_c.specs.Room.{Fills, IsTooLong};

use crate::status::{DONE, NO_ROOM};

/// Copies bytes to the front of `out`, if they fit, and says in `written` how many they are.
pub fn hand_over(bytes: &[u8], out: &mut [u8], written: &mut usize) -> u32
    ensures range { result ≤ 1 }
    ensures all { result ≡ 0 → Fills bytes.now written.new out.new }
    ensures long { result ≡ 1 → IsTooLong bytes.now written.new out.new }
{
    let count = bytes.len();
    *written = count;
    if count > out.len() {
        return NO_ROOM;
    }
    out[..count].copy_from_slice(bytes);
    DONE
}
