//! Where the turns of a small world lead.

ghost use Rattle.std.specs.Prelude.{◌≡◌};
ghost use Rattle.schedules.specs.Turns.{mix_of, flight_of, hash_of, turned};

use crate::turn::{Turn, breaks, is_open};
use reachable::System;
use std::alloc::AllocError;
use world::World;

/// Worlds, and what turns do to them.
pub(crate) struct Worlds;

/// A number that depends on both of these.
fn mix(mixed: u64, number: u64) -> u64
    ensures { result ≡ mix_of mixed number }
{
    const TOP: u64 = 1 << 56;
    mixed % TOP * 31 + number % TOP
}

/// A number of the bytes in flight.
#[tactic(auto, unfolding(crate::specs::Turns::flight_of))]
fn flight(world: &World) -> u64
    ensures { result ≡ flight_of world.now }
{
    let forward = mix(world.forward_bytes(), world.back_bytes());
    mix(forward, world.urgent_bytes())
}

/// A number that equal worlds share.
#[tactic(auto, unfolding(crate::specs::Turns::hash_of))]
fn hash(world: &World) -> u64
    ensures { result ≡ hash_of world.now }
{
    let counts = world.counts();
    let made = mix(u64::from(counts.rounds), counts.sent);
    let installed = mix(made, counts.installed);
    let said = mix(installed, world.transcript().len() as u64);
    let owed = mix(said, u64::from(world.owed_left()));
    let arrived = mix(owed, world.arrivals() as u64);
    let requested = mix(arrived, world.requests().len() as u64);
    let held = mix(requested, world.source_held() as u64);
    let broken = mix(held, breaks(world));
    mix(broken, flight(world))
}

impl System<World, Turn> for Worlds {
    ghost next = { λ _ world turn. turned world turn.step turn.limit };

    ghost hash_of = { λ _ world. hash_of world };

    #[tactic(auto, using(crate::proofs::TurnLemmas::closed, crate::proofs::TurnLemmas::refused))]
    fn follow(&self, state: &World, turn: Turn) -> Result<Option<World>, AllocError> {
        if !is_open(state, turn) {
            return Ok(None);
        }
        if let Err(_refusal) = state.would(turn.step) {
            return Ok(None);
        }
        let Ok(mut world) = state.copy() else {
            return Err(AllocError);
        };
        match world.step(turn.step) {
            Ok(_) => Ok(Some(world)),
            // The step would be made, so memory ran out.
            Err(_) => Err(AllocError),
        }
    }

    fn is_same(&self, state: &World, other: &World) -> bool {
        state.is_same(other)
    }

    fn hash(&self, state: &World) -> u64 {
        hash(state)
    }
}
