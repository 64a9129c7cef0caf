//! Finishes the migration of a script from each of its prefixes.
//!
//! After the lines of a prefix the world is finished. A second world that was made by the same lines makes the steps that this
//! returns: it says before each that it is not refused, and both are complete. Each step of the lines is asked for too, before it
//! is made.

use crate::CPUS;
use finish::{finish, next_to_finish};
use grammar::parse::parse;
use grammar::{Language, Line, Token};
use mig_base::WorldPhase;
use mig_base::refusal::Refusal;
use mig_base::schedule::Step;
use std::alloc::Global;
use world::World;

/// The number of lines of a script, or the number of lines after which it was not finished.
pub(crate) fn finish_prefixes(alloc: Global, script: &[u8]) -> Result<usize, usize> {
    let prefixes = script.split(|byte| *byte == b'\n').count();
    for count in 0..prefixes {
        if !finishes(alloc, script, count) {
            return Err(count);
        }
    }
    Ok(prefixes.saturating_sub(1))
}

/// Makes a step, and says whether it was answered before as it is now. A step that finds no memory is made again.
fn make_asked(world: &mut World, step: Step) -> bool {
    let asked = world.would(step);
    let mut made = world.step(step);
    if made == Err(Refusal::NoMemory) {
        made = world.step(step);
    }
    match made {
        Ok(_) => asked == Ok(()),
        Err(refusal) => asked == Err(refusal),
    }
}

/// Makes what a line of a script asks for. `None` where it is not a script line, and else whether the step was answered before as it
/// was made.
fn make_line(world: &mut World, tokens: &mut Vec<Token>, text: &[u8]) -> Option<bool> {
    let text = match text {
        [text @ .., b'\r'] => text,
        _ => text,
    };
    let Ok(Some(line)) = parse(Language::Script, tokens, text) else {
        return None;
    };
    let Line::Do(order) = line else {
        return Some(true);
    };
    match order.step(world.epoch()) {
        Some(step) => Some(make_asked(world, step)),
        None => Some(true),
    }
}

/// A world after the first lines of a script, or those before one that is not a script line. `None` where memory was refused, or a
/// step was not answered before as it was made.
fn world_after(alloc: Global, script: &[u8], count: usize) -> Option<World> {
    let Ok(mut world) = World::new(alloc, CPUS) else {
        return None;
    };
    let mut tokens = Vec::new(alloc);
    for text in script.split(|byte| *byte == b'\n').take(count) {
        match make_line(&mut world, &mut tokens, text) {
            None => return Some(world),
            Some(false) => return None,
            Some(true) => {}
        }
    }
    Some(world)
}

/// Finishes a world. Where memory was refused it continues once more.
fn finished(alloc: Global, world: &mut World) -> Option<Vec<Step>> {
    match finish(world, alloc) {
        Ok(steps) => Some(steps),
        Err(Refusal::NoMemory) => finish(world, alloc).ok(),
        Err(_) => None,
    }
}

/// Whether a world is complete, and nothing is due.
fn is_complete(world: &World) -> bool {
    world.phase() == WorldPhase::Complete && next_to_finish(world).is_none()
}

/// Whether the world after the first lines of a script is finished by steps none of which is refused.
fn finishes(alloc: Global, script: &[u8], count: usize) -> bool {
    let Some(mut world) = world_after(alloc, script, count) else {
        return false;
    };
    let Some(mut again) = world_after(alloc, script, count) else {
        return false;
    };
    let Some(steps) = finished(alloc, &mut world) else {
        return false;
    };
    for step in &steps {
        if again.would(*step).is_err() || again.step(*step).is_err() {
            return false;
        }
    }
    is_complete(&world) && is_complete(&again)
}
