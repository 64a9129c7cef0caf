//! Running a script, and recording what each step did: from its effect, from the frames that it put on the wires, and from the world after
//! it.

mod channel;
mod frames;
mod marks;
mod pages;
mod tracks;
mod waits;

use self::frames::InFlight;
use area_map::AreaMap;
use diagram::Record;
use diagram::record::{FEW, Lane, SHOWN, Track};
use mig_base::cpu_state::CpuState;
use mig_base::effect::Effect;
use mig_base::refusal::Refusal;
use mig_base::schedule::Step;
use mig_base::{Addr, Command, HIGH_PAGE, NoMemory, PAGE_SIZE, PageNo, PageSet};
use std::alloc::Global;
use world::World;

/// The page of an address; the one after the last for an address above the address space.
fn page_at(addr: Addr) -> PageNo {
    (addr / PAGE_SIZE).min(u64::from(HIGH_PAGE)) as PageNo
}

/// The page after a range of bytes.
fn end_of(addr: Addr, len: u64) -> PageNo {
    page_at(addr.saturating_add(len).saturating_add(PAGE_SIZE - 1))
}

/// The page of a load or a store, and 0 for a map call.
fn page_of(command: Command) -> PageNo {
    match command {
        Command::Load { addr, .. } | Command::Store { addr, .. } => page_at(addr),
        _ => 0,
    }
}

/// Puts a page into a set. Returns whether there was memory for it.
fn include(set: &mut PageSet, page: PageNo) -> bool {
    page >= HIGH_PAGE || set.insert(page).is_ok()
}

/// Takes a page out of a set.
fn exclude(set: &mut PageSet, page: PageNo) {
    if page < HIGH_PAGE {
        set.remove(page);
    }
}

/// A track in which nothing has happened.
fn track(alloc: Global) -> Track {
    Track {
        changes: Vec::new(alloc),
        now: Vec::new(alloc),
    }
}

/// A wire without frames.
fn lane(alloc: Global) -> Lane {
    Lane {
        flights: Vec::new(alloc),
        ended: 0,
    }
}

/// What must be known from before a step.
#[derive(Clone, Copy)]
struct Before {
    step: Step,
    /// The command that it makes, if it makes one.
    command: Option<Command>,
    in_flight: InFlight,
}

/// Runs a script on a world, and records what it does. If memory runs out, the rest of the step is still recorded, and `make` then
/// returns `NoMemory`.
pub(crate) struct Recorder {
    alloc: Global,
    world: World,
    pub record: Record,
    /// The mapped pages of the source and of the destination.
    source_areas: AreaMap,
    destination_areas: AreaMap,
    /// The pages at the source of which a copy waits at the destination.
    came: PageSet,
    /// The pages in flight in a frame of their own, as each page is that is pushed.
    flying: PageSet,
    /// The pages whose requests are in flight.
    asking: PageSet,
    /// The pages on which processors sleep at the destination.
    sleeping: PageSet,
    /// The page after the last that was ever mapped.
    high: PageNo,
    /// The number of the line, among those that are orders.
    line: u32,
    /// False once memory ran out.
    whole: bool,
}

// Written by hand, so that each exit of a function that owns a recorder has one call instead of the drops of all parts.
impl Drop for Recorder {
    fn drop(self) {
        let Recorder {
            alloc: _alloc,
            world: _world,
            record: _record,
            source_areas: _source_areas,
            destination_areas: _destination_areas,
            came: _came,
            flying: _flying,
            asking: _asking,
            sleeping: _sleeping,
            high: _high,
            line: _line,
            whole: _whole,
        } = self;
    }
}

impl Recorder {
    /// A recorder of a new world. `NoMemory` is returned if it cannot be made.
    pub(crate) fn new(alloc: Global, cpus: u8) -> Result<Recorder, NoMemory> {
        let Ok(world) = World::new(alloc, cpus) else {
            return Err(NoMemory);
        };
        Ok(Recorder {
            alloc,
            world,
            record: Record {
                lines: Vec::new(alloc),
                texts: Vec::new(alloc),
                source: track(alloc),
                destination: track(alloc),
                processors: track(alloc),
                forward: lane(alloc),
                urgent: lane(alloc),
                back: lane(alloc),
                marks: Vec::new(alloc),
                dots: Vec::new(alloc),
                moves: Vec::new(alloc),
                drops: Vec::new(alloc),
                refused: Vec::new(alloc),
                cpus: u32::from(cpus),
            },
            source_areas: AreaMap::new(alloc),
            destination_areas: AreaMap::new(alloc),
            came: PageSet::new(alloc),
            flying: PageSet::new(alloc),
            asking: PageSet::new(alloc),
            sleeping: PageSet::new(alloc),
            high: 0,
            line: 0,
            whole: true,
        })
    }

    /// The epoch of the world.
    pub(crate) fn epoch(&self) -> u32 {
        self.world.epoch()
    }

    /// The command that a step makes, if it makes one.
    fn command_of(&self, step: Step) -> Option<Command> {
        match step {
            Step::Issue { command, .. } => Some(command),
            Step::Retry { cpu } => match self.world.cpu_state(cpu) {
                Ok(CpuState::Woken(command)) => Some(command),
                _ => None,
            },
            _ => None,
        }
    }

    /// Notes the text of a line, if it is among the first lines.
    fn note_text(&mut self, text: &[u8]) {
        if self.line >= FEW {
            return;
        }
        let text = text.trim_ascii();
        let shown = text.get(..SHOWN).unwrap_or(text);
        let kept = match String::from_utf8_lossy(self.alloc, shown) {
            Ok(mut words) => {
                let is_cut = shown.len() < text.len();
                let dots = if is_cut { "..." } else { "" };
                words.push_str(dots).is_ok() && self.record.texts.push(words).is_ok()
            }
            Err(_) => false,
        };
        self.keep(kept);
    }

    /// Makes the step of a line of the file, and records what it did. The text of the line and a refusal are noted among the first lines.
    pub(crate) fn make(&mut self, number: u32, text: &[u8], step: Step) -> Result<(), NoMemory> {
        let before = Before {
            step,
            command: self.command_of(step),
            in_flight: InFlight::of(&self.world),
        };
        self.line = self.record.lines.len().min(u32::MAX as usize) as u32;
        self.record.lines.push(number)?;
        self.note_text(text);
        match self.world.step(step) {
            Ok(effect) => self.see(before, effect),
            Err(refusal) => self.refuse(refusal),
        }
        if self.whole { Ok(()) } else { Err(NoMemory) }
    }

    /// Notes whether memory was there for what was recorded.
    fn keep(&mut self, kept: bool) {
        if !kept {
            self.whole = false;
        }
    }

    /// Notes that the step was refused, if it is among the first lines.
    fn refuse(&mut self, refusal: Refusal) {
        if matches!(refusal, Refusal::NoMemory) {
            self.whole = false;
        } else if self.line < FEW {
            let kept = self.record.refused.push((self.line, refusal)).is_ok();
            self.keep(kept);
        }
    }

    /// Records an effect. The frames come first, since what a processor waits for depends on those in flight; then the processors, since
    /// a missing page is shown by who sleeps on it; then the pages.
    fn see(&mut self, before: Before, effect: Effect) {
        self.see_put(before.in_flight);
        self.see_taken(before.step, effect);
        self.see_marks(effect);
        self.watch_processors();
        self.see_commands(before, effect);
        self.see_handlers(before, effect);
        self.see_source(effect);
        self.see_destination(effect);
    }
}
