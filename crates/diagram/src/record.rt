//! What a run did, as a picture shows it.

use crate::state::State;
use mig_base::refusal::Refusal;
use mig_base::schedule::Side;

/// The number of lines that a picture shows in words, if it has no more.
pub const FEW: u32 = 76;

/// The most bytes of a line that are shown: more than an order has without blanks.
pub const SHOWN: usize = 76;

/// A change of the state of a row: a page at one node, or a processor.
#[derive(Clone, Copy)]
pub struct Change {
    /// The line, counted from 0 among those that are orders.
    pub line: u32,
    /// The number of the page or of the processor.
    pub row: u32,
    pub state: State,
    /// The page for which a processor waits.
    pub about: u32,
}

/// The changes of the rows of one band.
pub struct Track {
    pub changes: Vec<Change>,
    /// The state that each row has at the end. All that have changed are among them.
    pub now: Vec<State>,
}

// Written by hand, so that each exit of a function that owns a record has one call instead of the drops of all parts.
impl Drop for Track {
    fn drop(self) {
        let Track {
            changes: _changes,
            now: _now,
        } = self;
    }
}

/// How a frame ended.
#[derive(Clone, Copy)]
pub enum End {
    /// It is still in flight.
    Open,
    Taken,
    Lost,
}

/// What a frame is.
#[derive(Clone, Copy)]
pub enum Kind {
    Page,
    Zero,
    Request,
    Advise,
    Discard,
    Package,
    Finish,
    Resume,
    Received,
    Done,
}

impl Kind {
    /// Whether it has pages, or names one.
    pub fn has_page(self) -> bool {
        matches!(self, Kind::Page | Kind::Zero | Kind::Request)
    }
}

/// A frame, from the line that sent it to the line that took or lost it.
#[derive(Clone, Copy)]
pub struct Flight {
    pub kind: Kind,
    /// The first page, if it has one.
    pub page: u32,
    pub pages: u32,
    pub sent: u32,
    pub ended: u32,
    pub end: End,
}

/// The frames of one wire, in the order in which they were sent.
pub struct Lane {
    pub flights: Vec<Flight>,
    /// The number of those that were taken or lost.
    pub ended: usize,
}

// As that of a track.
impl Drop for Lane {
    fn drop(self) {
        let Lane {
            flights: _flights,
            ended: _ended,
        } = self;
    }
}

/// What a mark says.
#[derive(Clone, Copy)]
pub enum Event {
    Start,
    Round,
    Switch,
    Package,
    End,
    Complete,
    Break,
    SourceNotice,
    DestinationNotice,
    Resume,
}

/// A mark above the picture.
#[derive(Clone, Copy)]
pub struct Mark {
    pub line: u32,
    pub event: Event,
    /// Its two numbers, if it has any.
    pub first: u32,
    pub second: u32,
}

/// A load or a store that went to sleep.
#[derive(Clone, Copy)]
pub struct Dot {
    pub line: u32,
    pub page: u32,
    pub cpu: u8,
    pub side: Side,
}

/// A mapping that a call moved to another place: its first page before and after.
#[derive(Clone, Copy)]
pub struct Move {
    pub line: u32,
    pub from: u32,
    pub to: u32,
    pub side: Side,
}

/// What a run did.
pub struct Record {
    /// The line of the file of each order.
    pub lines: Vec<u32>,
    /// The lines of the first [`FEW`] orders, without the blanks around them: the first [`SHOWN`] bytes of each,
    /// and three dots where there are more.
    pub texts: Vec<String>,
    pub source: Track,
    pub destination: Track,
    pub processors: Track,
    pub forward: Lane,
    pub urgent: Lane,
    pub back: Lane,
    pub marks: Vec<Mark>,
    pub dots: Vec<Dot>,
    pub moves: Vec<Move>,
    /// The copies that the destination dropped: a line and a page each.
    pub drops: Vec<(u32, u32)>,
    /// The refusals among the first lines.
    pub refused: Vec<(u32, Refusal)>,
    /// The number of processors.
    pub cpus: u32,
}

impl Record {
    /// The line of the file of an order; of the last one, if there are fewer.
    pub(crate) fn line_at(&self, line: u32) -> u32 {
        match self.lines.get(line as usize) {
            Some(line) => *line,
            None => self.lines.last().copied().unwrap_or(0),
        }
    }
}

// As that of a track.
impl Drop for Record {
    fn drop(self) {
        let Record {
            lines: _lines,
            texts: _texts,
            source: _source,
            destination: _destination,
            processors: _processors,
            forward: _forward,
            urgent: _urgent,
            back: _back,
            marks: _marks,
            dots: _dots,
            moves: _moves,
            drops: _drops,
            refused: _refused,
            cpus: _cpus,
        } = self;
    }
}
