//! Scenes in which `bench/compare/refused.py` refuses each growth in turn, and how many calls answered `NoMemory`.
//!
//! Such a step has changed nothing; the same step has the answer of the table then, and so has each step after it. In the end the
//! transcript is checked.

use crate::openings::{OWED, OWED_THREE, RESUMED, SENT};
use crate::play::{Parts, play};
use crate::scenes::{
    ACCESSES, ALL_IS_OWED, ASKED_FOR, DISCARDED, IN_FLIGHT, MOVED, PUSHED_ANEW, SWITCHED,
};
use report::CheckFault;
use report::check::check;
use std::alloc::Global;
use std::process::Abort;
use std::test::Fail;
use world::World;

/// Checks the transcript of a world, and once more where memory was refused. How often it was.
fn checked(rt: &impl Abort, alloc: Global, world: &World) -> u32 {
    let verdict = check(alloc, world.transcript());
    if verdict != Err(CheckFault::NoMemory) {
        assert!(rt; verdict == Ok(()));
        return 0;
    }
    assert!(rt; check(alloc, world.transcript()) == Ok(()));
    1
}

/// Plays tables on a world one after the other, and checks its transcript. How often memory was refused.
fn play_all(rt: &impl Abort, alloc: Global, world: &mut World, table: &str, parts: Parts) -> u32 {
    let mut refused = 0u32;
    for rows in parts {
        refused = refused.saturating_add(play(rt, world, table, rows));
    }
    refused.saturating_add(checked(rt, alloc, world))
}

/// So on a new world of two processors. None where memory was refused for it.
fn play_once(rt: &impl Abort, alloc: Global, table: &str, parts: Parts) -> Option<u32> {
    match World::new(alloc, 2) {
        Ok(mut world) => Some(play_all(rt, alloc, &mut world, table, parts)),
        Err(_) => None,
    }
}

/// The same, with a world that is made once more where memory was refused.
fn play_new(rt: &impl Abort, alloc: Global, table: &str, parts: Parts) -> u32 {
    if let Some(refused) = play_once(rt, alloc, table, parts) {
        return refused;
    }
    let refused = play_once(rt, alloc, table, parts);
    assert!(rt; refused.is_some(), "no world for {table}");
    refused.unwrap_or(0).saturating_add(1)
}

#[test]
fn scenes_with_refusals(rt: HostRuntime) -> Result<(), Fail> {
    let scenes: [(&str, Parts); 6] = [
        ("accesses", &[&ACCESSES]),
        ("discarded", &[&DISCARDED]),
        ("asked for", &[&SENT, &ASKED_FOR]),
        ("moved", &[&OWED, &MOVED]),
        (
            "in flight",
            &[&OWED_THREE, &IN_FLIGHT, &RESUMED, &PUSHED_ANEW],
        ),
        ("switched", &[&SENT, &SWITCHED, &RESUMED, &ALL_IS_OWED]),
    ];
    for (table, parts) in scenes {
        let refused = play_new(&rt, rt.alloc(), table, parts);
        println!(rt; "{table}: no memory {refused}")?;
    }
    Ok(())
}
