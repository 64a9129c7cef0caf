//! A rig that finds no memory.

use super::gates::{MAP, STORE, issue};
use super::setup::{close, world_after};
use rig::Rig;
use std::alloc::Global;
use std::test::Fail;
use world::World;

/// A rig of a world of two entries, which came back if there was no memory at first.
fn made(alloc: Global, world: World) -> Option<Rig> {
    match Rig::new(alloc, world) {
        Ok(rig) => Some(rig),
        Err(back) if back.transcript().len() == 2 => Rig::new(alloc, back).ok(),
        Err(_) => None,
    }
}

/// Whether the rig keeps the two entries.
fn is_whole(alloc: Global) -> bool {
    let Some(world) = world_after(alloc, 2, &[issue(MAP), issue(STORE)]) else {
        return false;
    };
    match made(alloc, world) {
        Some(rig) => close(rig, Vec::new(alloc), None).is_whole(2),
        None => false,
    }
}

#[test]
fn a_rig_without_memory_hands_the_world_back(rt: HostRuntime) -> Result<(), Fail> {
    assert!(rt; is_whole(rt.alloc()));
    Ok(())
}
