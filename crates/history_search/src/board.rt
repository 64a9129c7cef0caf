//! Operations on numbered locations, and an order of them that is looked for step by step: at each point one of the operations is next which
//! come next in their threads, none of which had ended when it began (Wing and Gong, Testing and verifying concurrent objects, 1993). States
//! that led nowhere are kept (Lowe, Testing for linearizability, 2017).

use crate::accesses::short;
use crate::chains::Placement;
use mig_base::NoMemory;

/// What is at a location that is not mapped.
pub(crate) const NOTHING: u32 = u32::MAX;

/// What an operation does. Locations are numbered, and so are the values at each.
#[derive(Clone, Copy)]
pub(crate) enum Effect {
    Load { at: u32, found: u32 },
    Store { at: u32, left: u32 },
    Swap { at: u32, found: u32, left: u32 },
    /// A map call left zeros at the locations from `from` on and before `to`, or nothing where it unmapped them.
    Clear { from: u32, to: u32, unmaps: bool },
}

/// An operation.
#[derive(Clone, Copy)]
pub(crate) struct Step {
    pub(crate) begin: u64,
    pub(crate) end: u64,
    pub(crate) effect: Effect,
    pub(crate) index: u32,
    pub(crate) line: u32,
    pub(crate) thread: u8,
    /// Whether it is given a place.
    pub(crate) is_placed: bool,
}

/// The steps of one thread that are left: from the number `next` on and before `end`.
#[derive(Clone, Copy)]
pub(crate) struct Lane {
    pub(crate) next: usize,
    pub(crate) end: usize,
}

/// How many steps are left that find a value, and that leave it.
#[derive(Clone, Copy)]
pub(crate) struct Uses {
    pub(crate) finds: u32,
    pub(crate) leaves: u32,
}

/// A step that may be next, of the thread with this lane.
#[derive(Clone, Copy)]
pub(crate) struct Choice {
    end: u64,
    lane: usize,
    /// It changes nothing, and so it need not be tried later.
    is_free: bool,
}

/// A step that was made, and how many changes were noted before it.
#[derive(Clone, Copy)]
pub(crate) struct Move {
    choice: Choice,
    changes: usize,
    step: usize,
}

/// Steps, and those that were made.
#[derive(Drop)]
pub(crate) struct Board {
    /// By their threads, and those of a thread as it made them.
    pub(crate) steps: Vec<Step>,
    pub(crate) lanes: Vec<Lane>,
    /// The value at each location. The number of the zero of a location is that of the location.
    pub(crate) held: Vec<u32>,
    pub(crate) uses: Vec<Uses>,
    /// The locations that were changed, with the values that were there.
    pub(crate) changes: Vec<(u32, u32)>,
    pub(crate) moves: Vec<Move>,
    /// States that were reached, each at one place that depends on it.
    pub(crate) seen: Vec<u64>,
    /// What is at each location, and which steps were made.
    pub(crate) state: u64,
}

/// A number that depends on two.
fn mix(first: u32, second: u32) -> u64 {
    let both = u64::from(first) * 4_294_967_296 + u64::from(second);
    let mixed = (both ^ (both >> 29)).wrapping_mul(0xbf58_476d_1ce4_e5b9);
    let mixed = (mixed ^ (mixed >> 32)).wrapping_mul(0x94d0_49bb_1331_11eb);
    mixed ^ (mixed >> 29)
}

/// Whether something is done, or taken back.
#[derive(Clone, Copy)]
enum Way {
    On,
    Back,
}

/// Counts up or down by one.
fn count(number: u32, way: Way) -> u32 {
    match way {
        Way::On => number.saturating_add(1),
        Way::Back => number.saturating_sub(1),
    }
}

impl Board {
    /// The value at a location.
    fn held_at(&self, at: u32) -> u32 {
        match self.held.get(at as usize) {
            Some(value) => *value,
            None => NOTHING,
        }
    }

    /// The uses of a value that are left.
    fn uses_of(&self, value: u32) -> Uses {
        match self.uses.get(value as usize) {
            Some(uses) => *uses,
            None => Uses {
                finds: 0,
                leaves: 0,
            },
        }
    }

    /// Whether a location has a value that more than `few` steps still have to find, and none leaves again.
    fn is_needed(&self, at: u32, few: u32) -> bool {
        let uses = self.uses_of(self.held_at(at));
        uses.finds > few && uses.leaves == 0
    }

    /// Whether one of the locations is so.
    fn is_any_needed(&self, from: u32, to: u32) -> bool {
        for at in from..to {
            if self.is_needed(at, 0) {
                return true;
            }
        }
        false
    }

    /// Whether an operation returns here what it returned, and no later one can then not.
    fn fits(&self, effect: Effect) -> bool {
        match effect {
            Effect::Load { at, found } => self.held_at(at) == found,
            Effect::Store { at, .. } => self.held_at(at) != NOTHING && !self.is_needed(at, 0),
            Effect::Swap { at, found, .. } => self.held_at(at) == found && !self.is_needed(at, 1),
            Effect::Clear { from, to, .. } => !self.is_any_needed(from, to),
        }
    }

    /// The step that is next in a lane.
    fn next_in(&self, lane: Lane) -> Option<Step> {
        if lane.next >= lane.end {
            return None;
        }
        match self.steps.get(lane.next) {
            Some(step) => Some(*step),
            None => None,
        }
    }

    /// The first tick at which one of the steps that are left had ended.
    fn first_end(&self) -> u64 {
        let mut first = u64::MAX;
        for lane in &self.lanes {
            if let Some(step) = self.next_in(*lane) {
                first = first.min(step.end);
            }
        }
        first
    }

    /// The choice of a lane, if its next step began by `limit` and fits.
    fn choice_of(&self, number: usize, lane: Lane, limit: u64) -> Option<Choice> {
        let step = self.next_in(lane)?;
        if step.begin > limit || !self.fits(step.effect) {
            return None;
        }
        Some(Choice {
            end: step.end,
            lane: number,
            is_free: matches!(step.effect, Effect::Load { .. }),
        })
    }

    /// The step to be made next: one that changes nothing, or else of those that were not tried the one that ended first.
    fn choose(&self, tried: Option<Choice>) -> Option<Choice> {
        let limit = self.first_end();
        let mut best: Option<Choice> = None;
        for (number, lane) in self.lanes.iter().enumerate() {
            if let Some(choice) = self.choice_of(number, *lane, limit) {
                if choice.is_free {
                    return Some(choice);
                }
                if is_after(tried, choice) {
                    best = Some(first_of(best, choice));
                }
            }
        }
        best
    }

    /// Puts a value at a location.
    fn put(&mut self, at: u32, value: u32) {
        let before = self.held_at(at);
        if let Some(held) = self.held.get_mut(at as usize) {
            *held = value;
        }
        self.state ^= mix(at, before) ^ mix(at, value);
    }

    /// Puts a value at a location, and notes what was there.
    fn change(&mut self, at: u32, value: u32) -> Result<(), NoMemory> {
        let before = self.held_at(at);
        self.changes.push((at, before))?;
        self.put(at, value);
        Ok(())
    }

    /// Counts a step that finds a value.
    fn count_find(&mut self, value: u32, way: Way) {
        if let Some(uses) = self.uses.get_mut(value as usize) {
            uses.finds = count(uses.finds, way);
        }
    }

    /// Counts a step that leaves a value.
    fn count_leave(&mut self, value: u32, way: Way) {
        if let Some(uses) = self.uses.get_mut(value as usize) {
            uses.leaves = count(uses.leaves, way);
        }
    }

    /// Counts a map call.
    fn count_clear(&mut self, from: u32, to: u32, way: Way) {
        for at in from..to {
            self.count_leave(at, way);
        }
    }

    /// Counts what an operation finds and leaves.
    fn count_effect(&mut self, effect: Effect, way: Way) {
        match effect {
            Effect::Load { found, .. } => self.count_find(found, way),
            Effect::Store { left, .. } => self.count_leave(left, way),
            Effect::Swap { found, left, .. } => {
                self.count_find(found, way);
                self.count_leave(left, way);
            }
            Effect::Clear { from, to, unmaps } => {
                if !unmaps {
                    self.count_clear(from, to, way);
                }
            }
        }
    }

    /// Counts all steps.
    pub(crate) fn count_all(&mut self) {
        for number in 0..self.steps.len() {
            if let Some(step) = self.steps.get(number) {
                let effect = step.effect;
                self.count_effect(effect, Way::On);
            }
        }
    }

    /// Clears locations.
    fn clear(&mut self, from: u32, to: u32, unmaps: bool) -> Result<(), NoMemory> {
        for at in from..to {
            self.change(at, if unmaps { NOTHING } else { at })?;
        }
        Ok(())
    }

    /// Moves a lane one step on, or back.
    fn move_lane(&mut self, number: usize, way: Way) {
        let Some(lane) = self.lanes.get_mut(number) else {
            return;
        };
        let before = lane.next;
        let after = match way {
            Way::On => before.saturating_add(1),
            Way::Back => before.saturating_sub(1),
        };
        lane.next = after;
        self.state ^= mix(NOTHING, short(before.min(after)));
    }

    /// Makes a step.
    fn make(&mut self, choice: Choice) -> Result<(), NoMemory> {
        let Some(lane) = self.lanes.get(choice.lane) else {
            return Ok(());
        };
        let number = lane.next;
        let Some(step) = self.steps.get(number) else {
            return Ok(());
        };
        let effect = step.effect;
        self.moves.push(Move {
            choice,
            changes: self.changes.len(),
            step: number,
        })?;
        self.move_lane(choice.lane, Way::On);
        self.count_effect(effect, Way::Back);
        match effect {
            Effect::Load { .. } => Ok(()),
            Effect::Store { at, left } | Effect::Swap { at, left, .. } => self.change(at, left),
            Effect::Clear { from, to, unmaps } => self.clear(from, to, unmaps),
        }
    }

    /// Puts back what was there when this number of changes had been noted.
    fn put_back(&mut self, changes: usize) {
        for _ in changes..self.changes.len() {
            if let Some((at, value)) = self.changes.pop() {
                self.put(at, value);
            }
        }
    }

    /// Takes back the last step, and those before it that need not be tried later. Returns the first that was taken back, if there is one.
    fn take_back(&mut self) -> Option<Choice> {
        for _ in 0..self.moves.len() {
            let last = self.moves.pop()?;
            self.put_back(last.changes);
            self.move_lane(last.choice.lane, Way::Back);
            if let Some(step) = self.steps.get(last.step) {
                let effect = step.effect;
                self.count_effect(effect, Way::On);
            }
            if !last.choice.is_free {
                return Some(last.choice);
            }
        }
        None
    }

    /// Whether the state was reached before. It is noted.
    fn was_here(&mut self) -> bool {
        let state = self.state;
        let room = self.seen.len() as u64;
        if room == 0 {
            return false;
        }
        let at = (state % room) as usize;
        let was = self.seen.get(at) == Some(&state);
        if let Some(seen) = self.seen.get_mut(at) {
            *seen = state;
        }
        was
    }

    /// Makes steps until all are made, or none is left to try, or no more than the `budget` allows. Whether all are made.
    pub(crate) fn solve(&mut self, budget: &mut u64) -> Result<bool, NoMemory> {
        let mut tried = None;
        for _ in 0..*budget {
            *budget = budget.saturating_sub(1);
            if self.moves.len() == self.steps.len() {
                return Ok(true);
            }
            match self.choose(tried) {
                Some(choice) => {
                    self.make(choice)?;
                    tried = None;
                    if !choice.is_free && self.was_here() {
                        tried = self.take_back();
                    }
                }
                None => {
                    tried = self.take_back();
                    if tried.is_none() {
                        return Ok(false);
                    }
                }
            }
        }
        Ok(false)
    }

    /// Adds a place for each step that was made: the last tick so far at which one of them began.
    pub(crate) fn place_moves(&self, placed: &mut Vec<Placement>) -> Result<(), NoMemory> {
        let mut place = 0;
        for made in &self.moves {
            if let Some(step) = self.steps.get(made.step) {
                place = step.begin.max(place);
                if step.is_placed {
                    placed.push(Placement {
                        place,
                        index: step.index,
                    })?;
                }
            }
        }
        Ok(())
    }
}

/// Whether one choice comes before another, by their ends and lanes.
fn is_before(first: Choice, second: Choice) -> bool {
    first.end < second.end || first.end == second.end && first.lane < second.lane
}

/// Whether a choice comes after another, if there is another.
fn is_after(other: Option<Choice>, choice: Choice) -> bool {
    match other {
        Some(other) => is_before(other, choice),
        None => true,
    }
}

/// The first of a choice and another, if there is another.
fn first_of(other: Option<Choice>, choice: Choice) -> Choice {
    match other {
        Some(other) if is_before(other, choice) => other,
        _ => choice,
    }
}
