//! The pages that remain to be sent: claims begin with them, and are tested against them.

ghost use Rattle.std.specs.Prelude.{◌≡◌, ◌⊎◌, IfOk, IfErr, true, false};
ghost use Rattle.mig_base.specs.declared.phase.SourcePhase.{SourcePhase as Phase};
ghost use Rattle.pusher.specs.Seats.{IsSeatOf};
ghost use Rattle.rig.specs.Claiming.{AreKept, Lists};

use mig_base::phase::SourcePhase;
use mig_base::refusal::Refusal;
use mig_base::{NoMemory, PageNo, PageSet};
use pusher::{ClaimSeat, Claims};
use std::alloc::Global;
use world::World;

/// The epoch, and the pages that remain in it, ascending. `Phase` unless the source is stopped, then `NoMemory` if the list has no room.
pub(crate) fn remaining_in(alloc: Global, world: &World) -> Result<(u32, Vec<PageNo>), Refusal>
    ensures epoch { IfOk result (λ r. r.0 ≡ world.now.source.epoch) }
    ensures pages { IfOk result (λ r. Lists world.now.source.remaining r.1.items) }
    ensures stopped { IfOk result (λ _. world.now.source.phase ≡ Phase.Stopped) }
    ensures refused { IfErr result (λ refusal.
        (refusal ≡ Refusal.NoMemory) ⊎
        ((refusal ≡ Refusal.Phase) × (world.now.source.phase ≡ Phase.Stopped → ⊥))) }
{
    let SourcePhase::Stopped = world.source_phase() else {
        return Err(Refusal::Phase);
    };
    match listed(alloc, world.remaining()) {
        Ok(pages) => Ok((world.epoch(), pages)),
        Err(_) => Err(Refusal::NoMemory),
    }
}

/// The pages of a set, ascending.
fn listed(alloc: Global, set: &PageSet) -> Result<Vec<PageNo>, NoMemory>
    ensures { IfOk result (λ pages. Lists set.now pages.items) }
{
    let mut pages = Vec::with_capacity(alloc, set.len() as usize)?;
    for page in set.iter() {
        pages.push(page)?;
    }
    Ok(pages)
}

/// Whether claims of the world's epoch have a page that neither remains nor was claimed by the seat.
pub(crate) fn are_lost(world: &World, claims: &Claims, seat: &ClaimSeat) -> bool
    requires { IsSeatOf claims.now seat.now }
    ensures yes { result ≡ true →
        (claims.now.epoch ≡ world.now.source.epoch) ×
        (AreKept claims.now seat.now world.now.source.remaining → ⊥) }
    ensures no { result ≡ false → claims.now.epoch ≡ world.now.source.epoch →
        AreKept claims.now seat.now world.now.source.remaining }
{
    claims.epoch() == world.epoch() && !are_kept(claims, seat, world.remaining())
}

/// Whether each page of the claims remains, or was claimed by the seat.
fn are_kept(claims: &Claims, seat: &ClaimSeat, remaining: &PageSet) -> bool
    requires { IsSeatOf claims.now seat.now }
    ensures yes { result ≡ true → AreKept claims.now seat.now remaining.now }
    ensures no { result ≡ false → AreKept claims.now seat.now remaining.now → ⊥ }
{
    for index in 0..claims.len() {
        if !remaining.contains(claims.page(index)) && !claims.holds(seat, index) {
            return false;
        }
    }
    true
}
