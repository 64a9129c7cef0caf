//! The board of some operations.

use crate::accesses::{pages_of, short};
use crate::board::{Board, Effect, Lane, NOTHING, Step, Uses};
use history::{Action, Operation};
use mig_base::{NoMemory, PAGE_SIZE};
use std::alloc::Global;

/// The most threads whose operations are put into an order step by step.
const MOST_THREADS: usize = 16;

/// The most states that are kept.
const MOST_STATES: usize = 262_144;

/// The locations of a board, by their addresses, and the values other than 0 that are found or left there, by location.
#[derive(Drop)]
struct Layout {
    places: Vec<u64>,
    values: Vec<(u32, u64)>,
}

/// The address that an action accesses, and the values that it found and left there; none for a map call.
fn access_of(action: Action) -> Option<(u64, Option<u64>, Option<u64>)> {
    match action {
        Action::Load { addr, value, .. } => Some((addr, Some(value), None)),
        Action::Store { addr, value, .. } => Some((addr, None, Some(value))),
        Action::Swap {
            addr,
            value,
            found,
            ..
        } => Some((addr, Some(found), Some(value))),
        _ => None,
    }
}

/// The addresses that operations access.
fn list_places(alloc: Global, taken: &[Operation]) -> Result<Vec<u64>, NoMemory> {
    let mut places: Vec<u64> = Vec::new(alloc);
    for operation in taken {
        if let Some((addr, _, _)) = access_of(operation.action) {
            places.push(addr)?;
        }
    }
    places.sort_unstable();
    places.dedup();
    Ok(places)
}

/// The number of the first address that is not below another.
fn place_of(places: &[u64], addr: u64) -> u32 {
    short(places.partition_point(|place| *place < addr))
}

/// The values that operations found or left.
fn list_values(
    alloc: Global,
    taken: &[Operation],
    places: &[u64],
) -> Result<Vec<(u32, u64)>, NoMemory> {
    let mut values: Vec<(u32, u64)> = Vec::new(alloc);
    for operation in taken {
        if let Some((addr, found, left)) = access_of(operation.action) {
            let at = place_of(places, addr);
            values.push((at, found.unwrap_or(0)))?;
            values.push((at, left.unwrap_or(0)))?;
        }
    }
    values.sort_unstable();
    values.dedup();
    Ok(values)
}

impl Layout {
    /// The number of a value at a location: that of the location for 0.
    fn number_of(&self, at: u32, value: u64) -> u32 {
        if value == 0 {
            return at;
        }
        let number = self
            .values
            .partition_point(|pair| pair.0 < at || pair.0 == at && pair.1 < value);
        short(self.places.len().saturating_add(number))
    }

    /// What an operation does on the board.
    fn effect_of(&self, action: Action) -> Effect {
        match access_of(action) {
            Some((addr, found, left)) => {
                let at = place_of(&self.places, addr);
                match (found, left) {
                    (Some(found), Some(left)) => Effect::Swap {
                        at,
                        found: self.number_of(at, found),
                        left: self.number_of(at, left),
                    },
                    (None, Some(left)) => Effect::Store {
                        at,
                        left: self.number_of(at, left),
                    },
                    _ => Effect::Load {
                        at,
                        found: self.number_of(at, found.unwrap_or(0)),
                    },
                }
            }
            None => {
                let (first, end) = pages_of(action).unwrap_or((0, 0));
                Effect::Clear {
                    from: place_of(&self.places, first.saturating_mul(PAGE_SIZE)),
                    to: place_of(&self.places, end.saturating_mul(PAGE_SIZE)),
                    unmaps: matches!(action, Action::Unmap { .. }),
                }
            }
        }
    }
}

/// The lanes of steps that are sorted by their threads.
fn list_lanes(alloc: Global, steps: &[Step]) -> Result<Vec<Lane>, NoMemory> {
    let mut lanes: Vec<Lane> = Vec::new(alloc);
    let mut before = None;
    for (number, step) in steps.iter().enumerate() {
        if before != Some(step.thread) {
            before = Some(step.thread);
            lanes.push(Lane {
                next: number,
                end: number,
            })?;
        }
        if let Some(lane) = lanes.last_mut() {
            lane.end = lane.end.saturating_add(1);
        }
    }
    Ok(lanes)
}

/// The board of the operations at some indices, of which those in `fixed` are not given places. At first nothing is mapped. None if more
/// threads than can be taken made them.
pub(crate) fn lay_out(
    alloc: Global,
    operations: &[Operation],
    indices: &[u32],
    fixed: &[u32],
) -> Result<Option<Board>, NoMemory> {
    let mut taken: Vec<Operation> = Vec::new(alloc);
    for index in indices {
        if let Some(operation) = operations.get(*index as usize) {
            taken.push(*operation)?;
        }
    }
    let places = list_places(alloc, &taken)?;
    let values = list_values(alloc, &taken, &places)?;
    let layout = Layout { places, values };
    let mut steps = Vec::with_capacity(alloc, indices.len())?;
    for index in indices {
        if let Some(operation) = operations.get(*index as usize) {
            steps.push(Step {
                begin: operation.begin,
                end: operation.end,
                effect: layout.effect_of(operation.action),
                index: *index,
                line: operation.line,
                thread: operation.thread,
                is_placed: fixed.binary_search(index).is_err(),
            })?;
        }
    }
    steps.sort_unstable_by_key(|step| (step.thread, step.begin, step.end, step.line));
    board_of(alloc, &layout, steps)
}

/// The board of steps that are sorted by their threads. None if there are too many threads.
fn board_of(alloc: Global, layout: &Layout, steps: Vec<Step>) -> Result<Option<Board>, NoMemory> {
    let lanes = list_lanes(alloc, &steps)?;
    if lanes.len() > MOST_THREADS {
        return Ok(None);
    }
    let count = layout.places.len();
    let unused = Uses {
        finds: 0,
        leaves: 0,
    };
    let room = steps.len().saturating_mul(16).clamp(64, MOST_STATES);
    let mut board = Board {
        steps,
        lanes,
        held: vec![in alloc; NOTHING; count]?,
        uses: vec![in alloc; unused; count.saturating_add(layout.values.len())]?,
        changes: Vec::new(alloc),
        moves: Vec::new(alloc),
        seen: vec![in alloc; 0; room]?,
        state: 1,
    };
    board.count_all();
    Ok(Some(board))
}
