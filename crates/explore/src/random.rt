//! Random numbers.

ghost use Rattle.std.specs.Prelude.{◌≡◌, ◌<◌, ◌≤◌};

use rand_core::Rng;

/// A number below `end`.
pub(crate) fn below<R: Rng>(rng: &mut R, end: u32) -> u32
    requires { 0 < end }
    ensures { result < end }
{
    rng.next_u32() % end
}

/// True in about `share` of 16 draws.
pub(crate) fn in_share<R: Rng>(rng: &mut R, share: u8) -> bool {
    below(rng, 16) < u32::from(share)
}
