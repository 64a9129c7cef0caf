//! Reading the lines of a history.

ghost use Rattle.std.specs.Prelude.{◌≡◌, []};

use crate::line::{HistoryLine, Room, Wrong, read_line};
use engine::RunFault;
use engine::line_reader::LineSink;
use engine::script_reader::MAX_LINE;
use history::{Clock, Operation};
use lines::text_of;
use mig_base::NoMemory;
use std::alloc::Global;

/// A history that is being read.
#[derive(Drop)]
pub(crate) struct Reading {
    pub(crate) operations: Vec<Operation>,
    /// Whether `history 1` was read.
    has_head: bool,
    pub(crate) clock: Option<Clock>,
    /// The line of the first damaged record.
    pub(crate) damaged: Option<u64>,
    /// How many operations were written, as the last line says.
    pub(crate) end: Option<u64>,
    /// What is wrong with the line at which reading ended.
    pub(crate) wrong: Option<Wrong>,
    room: Room,
}

impl Reading {
    /// Nothing was read.
    pub(crate) fn new(alloc: Global) -> Reading {
        Reading {
            operations: Vec::new(alloc),
            has_head: false,
            clock: None,
            damaged: None,
            end: None,
            wrong: None,
            room: Room {
                tokens: Vec::new(alloc),
                entry: Vec::new(alloc),
            },
        }
    }

    /// Takes what a line says. The reason comes if it cannot be in this place.
    fn take(&mut self, number: u64, line: HistoryLine) -> Result<Option<Wrong>, NoMemory> {
        if self.end.is_some() {
            return match line {
                HistoryLine::Nothing => Ok(None),
                _ => Ok(Some(Wrong::AfterEnd)),
            };
        }
        match line {
            HistoryLine::Nothing => return Ok(None),
            HistoryLine::Head => {
                if self.has_head {
                    return Ok(Some(Wrong::Again));
                }
                self.has_head = true;
                return Ok(None);
            }
            _ => {}
        }
        if !self.has_head {
            return Ok(Some(Wrong::NotFirst));
        }
        if let HistoryLine::Ticks(clock) = line {
            if self.clock.is_some() {
                return Ok(Some(Wrong::Again));
            }
            self.clock = Some(clock);
            return Ok(None);
        }
        if self.clock.is_none() {
            return Ok(Some(Wrong::NotFirst));
        }
        self.take_record(number, line)?;
        Ok(None)
    }

    /// Takes a record, or the end of them.
    fn take_record(&mut self, number: u64, line: HistoryLine) -> Result<(), NoMemory> {
        match line {
            HistoryLine::Operation(operation) => {
                let line = u32::try_from(number).unwrap_or(u32::MAX);
                self.operations.push(Operation { line, ..operation })?;
            }
            HistoryLine::End(count) => self.end = Some(count),
            _ => {
                if self.damaged.is_none() {
                    self.damaged = Some(number);
                }
            }
        }
        Ok(())
    }

    /// Takes a line. The reason comes if it is wrong.
    fn take_text(
        &mut self,
        number: u64,
        front: &[u8],
        len: u64,
        ended: bool,
    ) -> Result<Option<Wrong>, NoMemory> {
        if len > MAX_LINE as u64 {
            return Ok(Some(Wrong::TooLong));
        }
        match read_line(&mut self.room, text_of(front, ended))? {
            Ok(line) => self.take(number, line),
            Err(wrong) => Ok(Some(wrong)),
        }
    }
}

impl LineSink for Reading {
    ghost takes = { λ _ _ _ _ text. text ≡ [] };

    ghost refuses = { λ _ _ _. Unit {0} };

    fn take_line(
        &mut self,
        number: u64,
        front: &[u8],
        len: u64,
        ended: bool,
        _output: &mut Vec<u8>,
    ) -> Result<(), RunFault> {
        self.wrong = self.take_text(number, front, len, ended)?;
        if self.wrong.is_some() {
            return Err(RunFault::Line(number));
        }
        Ok(())
    }

    fn overrun(&self, number: u64) -> Result<(), RunFault> {
        Err(RunFault::Line(number))
    }
}
