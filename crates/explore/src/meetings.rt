//! What the schedules of a small world meet: how many steps and refusals, and the shortest script for each pair of these.

ghost use Rattle.std.specs.Prelude.{◌≡◌, IfOk, length};

use crate::plan::VERSION;
use engine::{RunFault, spell};
use mig_base::WorldPhase;
use mig_base::refusal::Refusal;
use mig_base::schedule::Step;
use reachable::Found;
use schedules::{Small, Turn, Walked, is_open};
use std::alloc::Global;
use std::fmt::Write;
use world::World;

/// What the walk of all schedules counted.
#[derive(Clone, Copy, Debug, PartialEq, Eq)]
pub struct Tally {
    /// The distinct states.
    pub states: u64,
    /// The steps that a schedule may choose in one of them, and that are made.
    pub steps: u64,
    /// Those that are refused.
    pub refusals: u64,
    /// The states whose migration is complete.
    pub complete: u64,
    /// The other states in which each step that a schedule may choose is refused.
    pub dead_ends: u64,
}

/// A step that is refused, and the shortest script whose last line it is.
#[derive(Drop)]
pub struct Meeting {
    /// The first word of the step's line, and the name of the refusal.
    pub name: String,
    pub script: Vec<u8>,
}

/// What all schedules of a small world meet.
#[derive(Drop)]
pub struct MetByAll {
    pub tally: Tally,
    /// In the order of a walk that is breadth first.
    pub meetings: Vec<Meeting>,
}

/// What the schedules met so far.
#[derive(Drop)]
struct Meetings {
    alloc: Global,
    small: Small,
    /// The turns of which a refusal was seen, by their numbers.
    seen: Vec<(usize, Refusal)>,
    all: Vec<Meeting>,
    tally: Tally,
}

/// The name of a refused step: the first word of its line, and the refusal.
fn name_of(alloc: Global, line: &str, refusal: Refusal) -> Result<String, RunFault> {
    let word = line.split_once(' ').map_or(line, |parts| parts.0);
    Ok(format!(in alloc; "{word}-{refusal}")?)
}

impl Meetings {
    /// Nothing was looked at.
    fn new(alloc: Global, small: Small) -> Meetings {
        Meetings {
            alloc,
            small,
            seen: Vec::new(alloc),
            all: Vec::new(alloc),
            tally: Tally {
                states: 0,
                steps: 0,
                refusals: 0,
                complete: 0,
                dead_ends: 0,
            },
        }
    }

    /// Looks at a state: tries each turn that its schedules may choose.
    fn look_at(&mut self, found: &Found<World, Turn>, turns: &[Turn]) -> Result<(), RunFault> {
        let world = &found.state;
        let mut made = 0u64;
        for (number, turn) in turns.iter().enumerate() {
            if !is_open(world, *turn) {
                continue;
            }
            match world.would(turn.step) {
                Ok(()) => made = made.saturating_add(1),
                Err(refusal) => self.meet(found, number, *turn, refusal)?,
            }
        }
        let tally = &mut self.tally;
        tally.steps = tally.steps.saturating_add(made);
        if let WorldPhase::Complete = world.phase() {
            tally.complete = tally.complete.saturating_add(1);
        } else if made == 0 {
            tally.dead_ends = tally.dead_ends.saturating_add(1);
        }
        Ok(())
    }

    /// Counts a refusal, and keeps the script that leads to it if it is the first of its name.
    fn meet(
        &mut self,
        found: &Found<World, Turn>,
        number: usize,
        turn: Turn,
        refusal: Refusal,
    ) -> Result<(), RunFault> {
        self.tally.refusals = self.tally.refusals.saturating_add(1);
        if self.seen.contains(&(number, refusal)) {
            return Ok(());
        }
        self.seen.push((number, refusal))?;
        let mut line = String::new(self.alloc);
        spell(turn.step, &mut line)?;
        let name = name_of(self.alloc, &line, refusal)?;
        if self.all.iter().any(|met| met.name == name) {
            return Ok(());
        }
        let script = self.script_of(&name, &found.path, turn)?;
        self.all.push(Meeting { name, script })?;
        Ok(())
    }

    /// The script of a schedule, and of one more turn, after a comment that says what it is for.
    fn script_of(&self, name: &str, path: &[Turn], last: Turn) -> Result<Vec<u8>, RunFault> {
        let mut line = String::new(self.alloc);
        let mut script = Vec::new(self.alloc);
        writeln!(line, "# postmig {VERSION} explore {}: {name}", self.small)?;
        script.extend_from_slice(line.as_bytes())?;
        add_line(&mut script, &mut line, self.small.first_step())?;
        for turn in path {
            add_line(&mut script, &mut line, turn.step)?;
        }
        add_line(&mut script, &mut line, last.step)?;
        Ok(script)
    }
}

/// Adds the line of a step to a script. The text has room for it.
fn add_line(script: &mut Vec<u8>, line: &mut String, step: Step) -> Result<(), RunFault> {
    spell(step, line)?;
    script.extend_from_slice(line.as_bytes())?;
    script.push(b'\n')?;
    Ok(())
}

/// Looks at each state that the walk of a small world found, and keeps a script for each refusal that its schedules meet.
pub fn meet_all(alloc: Global, small: &Small, walked: &Walked) -> Result<MetByAll, RunFault>
    ensures { IfOk result (λ met. met.tally.states ≡ length walked.now.worlds.items) }
{
    let mut meetings = Meetings::new(alloc, *small);
    for found in &walked.worlds {
        meetings.look_at(found, &walked.turns)?;
    }
    let states = walked.worlds.len() as u64;
    Ok(MetByAll {
        tally: Tally {
            states,
            ..meetings.tally
        },
        meetings: meetings.all,
    })
}
