//! What is queued: the next lines of the steps that take from a queue.

use crate::survey::Survey;
use mig_base::NoMemory;
use mig_base::effect::Effect;
use world::World;

/// Appends the lines that a step would write, one after the other.
fn write_queue(text: &mut String, step: &str, effects: &[Effect]) -> Result<(), NoMemory> {
    for (index, effect) in effects.iter().enumerate() {
        let number = index.saturating_add(1);
        write!(text, "{step} {number}: {effect}\n")?;
    }
    Ok(())
}

/// Appends how much is queued, and then each queue.
pub(crate) fn write_queues(
    text: &mut String,
    world: &World,
    survey: &Survey,
) -> Result<(), NoMemory> {
    let sread = survey.source.reads.len();
    let sact = world.source_held();
    let serve = world.asked();
    let dread = survey.destination.reads.len();
    let dact = survey.destination.acts.len();
    let install = world.arrivals();
    write!(text, "queues sread {sread} sact {sact} serve {serve} ")?;
    write!(text, "dread {dread} dact {dact} install {install}\n")?;
    write_queue(text, "sread", &survey.source.reads)?;
    write_queue(text, "sact", &survey.source.acts)?;
    write_queue(text, "serve", &survey.serves)?;
    write_queue(text, "dread", &survey.destination.reads)?;
    write_queue(text, "dact", &survey.destination.acts)?;
    write_queue(text, "install", &survey.installs)
}
