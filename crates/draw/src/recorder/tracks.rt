//! What a record keeps of rows and of frames.

use diagram::State;
use diagram::record::{Change, End, Flight, Lane, Track};
use mig_base::{HIGH_PAGE, NoMemory};

/// The rows for which room is made at once.
const ROOM: usize = 4096;

/// The state that a row has now.
pub(super) fn state_of(track: &Track, row: u32) -> State {
    track.now.get(row as usize).copied().unwrap_or(State::Blank)
}

/// Puts a state into a place, if there is one. Returns whether it changes there.
fn put(states: &mut [State], at: usize, state: State) -> bool {
    match states.get_mut(at) {
        Some(now) if *now != state => {
            *now = state;
            true
        }
        _ => false,
    }
}

/// Notes the state of a row.
pub(super) fn note(track: &mut Track, change: Change) -> Result<(), NoMemory> {
    let row = change.row as usize;
    if row >= track.now.len() && change.row < HIGH_PAGE {
        track.now.resize((row / ROOM + 1) * ROOM, State::Blank)?;
    }
    if put(&mut track.now, row, change.state) {
        track.changes.push(change)?;
    }
    Ok(())
}

/// The first frame in flight is taken, if there is one.
pub(super) fn take(lane: &mut Lane, line: u32) {
    if let Some(flight) = lane.flights.get_mut(lane.ended) {
        flight.ended = line;
        flight.end = End::Taken;
        lane.ended = lane.ended.saturating_add(1);
    }
}

/// A frame is lost. Returns the number of pages that it had, or named.
fn lose_flight(flight: &mut Flight, line: u32) -> u32 {
    flight.ended = line;
    flight.end = End::Lost;
    if flight.kind.has_page() {
        flight.pages
    } else {
        0
    }
}

/// All frames in flight are lost. Returns the number of pages that they had, or named.
pub(super) fn lose(lane: &mut Lane, line: u32) -> u32 {
    let mut pages = 0u32;
    let count = lane.flights.len();
    for at in lane.ended..count {
        if let Some(flight) = lane.flights.get_mut(at) {
            pages = pages.saturating_add(lose_flight(flight, line));
        }
    }
    lane.ended = count;
    pages
}
