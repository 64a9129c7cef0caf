//! What the profiles mean.

use crate::plan::Profile;

/// How often each part of a world acts, as weights, and how it acts, as shares of 16.
#[derive(Clone, Copy)]
pub(crate) struct Weights {
    /// The guest's processors.
    pub guest: u8,
    /// The handler of the source.
    pub source_handler: u8,
    /// The source before the switch: start, rounds, sends, and the switch.
    pub sender: u8,
    /// The source after it: pushes, requests, and the end.
    pub pusher: u8,
    /// The deliveries on all three wires.
    pub wires: u8,
    /// The handler of the destination, and the copies that it installs.
    pub dest_handler: u8,
    /// The loss of the channel. A channel that is lost is noticed and resumed at once or later, by `REPAIR`.
    pub link: u8,
    /// Of 16 commands, those that are map calls until the source switches.
    pub maps: u8,
    /// The same from then on.
    pub moves: u8,
    /// Of 16 deliveries, those of a few bytes.
    pub pieces: u8,
    /// Of 16 pushes, those on the urgent wire.
    pub urgent: u8,
    /// Of 16 draws of a push, those of a page that was not requested, once the source pushes what is left.
    pub background: u8,
    /// Of 16 sends, those of several pages.
    pub runs: u8,
    /// From which sixteenth of the script on the migration starts, at the earliest.
    pub start: u8,
    /// From which sixteenth on the source switches, at the earliest and at the latest.
    pub switch_from: u8,
    pub switch_to: u8,
    /// The same of the line from which on the source pushes what is left, and ends.
    pub rest_from: u8,
    pub rest_to: u8,
}

/// The weight of the link while the channel is lost.
pub(crate) const REPAIR: u8 = 60;

/// Some of each.
const BALANCED: Weights = Weights {
    guest: 100,
    source_handler: 40,
    sender: 40,
    pusher: 60,
    wires: 100,
    dest_handler: 80,
    link: 1,
    maps: 1,
    moves: 3,
    pieces: 2,
    urgent: 6,
    background: 6,
    runs: 4,
    start: 2,
    switch_from: 4,
    switch_to: 7,
    rest_from: 11,
    rest_to: 13,
};

impl Profile {
    /// The weights of a profile.
    pub(crate) fn weights(self) -> Weights {
        let mut weights = BALANCED;
        match self {
            Profile::Commands => {
                weights.start = 17;
                weights.maps = 6;
            }
            Profile::Precopy => {
                weights.source_handler = 80;
                weights.sender = 100;
                weights.link = 0;
                weights.switch_from = 13;
                weights.switch_to = 17;
            }
            Profile::Postcopy => {
                weights.guest = 150;
                weights.link = 0;
                weights.sender = 20;
                weights.background = 3;
                weights.switch_to = 5;
            }
            Profile::Moves => {
                weights.moves = 6;
                weights.sender = 20;
                weights.wires = 60;
                weights.link = 0;
                weights.switch_to = 5;
            }
            Profile::Breaks => {
                weights.link = 5;
                weights.switch_to = 8;
            }
            Profile::Urgent => {
                weights.guest = 150;
                weights.dest_handler = 110;
                weights.urgent = 9;
                weights.sender = 20;
                weights.background = 5;
                weights.wires = 60;
                weights.switch_to = 5;
            }
            Profile::Bytes => {
                weights.wires = 240;
                weights.pieces = 13;
                weights.sender = 25;
            }
            Profile::Runs => {
                weights.runs = 15;
                weights.sender = 25;
            }
            Profile::All => {}
        }
        weights
    }
}
