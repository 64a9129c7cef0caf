//! What a schedule of a small world may choose.

ghost use Rattle.std.specs.Prelude.{◌≡◌};
ghost use Rattle.schedules.specs.Turns.{made_by, breaks_of, may_choose};

use mig_base::schedule::Step;
use world::World;

/// A step that a schedule may choose, and when.
#[derive(Clone, Copy)]
pub struct Turn {
    pub step: Step,
    /// Of a command, how many commands its processor has made; of a round or a break, how many there may be. A number that says nothing
    /// for any other step.
    pub limit: u64,
}

/// How many commands of a processor took effect.
fn commands_of(world: &World, cpu: u8) -> u64
    ensures { result ≡ made_by cpu world.now.transcript }
{
    let entries = world.transcript();
    entries.iter().filter(|entry| entry.cpu == cpu).count() as u64
}

/// How often the channel of a world broke.
pub(crate) fn breaks(world: &World) -> u64
    ensures { result ≡ breaks_of world.now }
{
    let resumed = u64::from(world.epoch()).saturating_sub(1);
    if world.is_up() { resumed } else { resumed + 1 }
}

/// Whether a schedule may choose a turn in this world.
pub fn is_open(world: &World, turn: Turn) -> bool
    ensures { result ≡ may_choose world.now turn.step turn.limit }
{
    match turn.step {
        Step::Issue { cpu, .. } => commands_of(world, cpu) == turn.limit,
        Step::Round => u64::from(world.counts().rounds) < turn.limit,
        Step::Break => breaks(world) < turn.limit,
        _ => true,
    }
}
