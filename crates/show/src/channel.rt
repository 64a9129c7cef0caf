//! The frames on the three wires.

use crate::flight::frames_on;
use grammar::{Order, OrderText};
use mig_base::phase::{DestPhase, SourcePhase};
use mig_base::schedule::Step;
use mig_base::{Command, NoMemory, PageSet, page_address};
use page_stream::Frame;
use std::alloc::Global;
use wires::Wire;
use world::World;

/// A frame on a wire: the option of `run` that names the wire, and the frame's number on it.
#[derive(Clone, Copy)]
struct Place {
    wire: &'static str,
    number: usize,
}

impl Place {
    /// Appends a line for each page that a frame lists.
    fn write_pages(self, text: &mut String, word: &str, pages: &PageSet) -> Result<(), NoMemory> {
        let Place { wire, number } = self;
        for page in pages.iter() {
            let addr = page_address(page);
            write!(text, "{wire} {number} {word} 0x{addr:x}\n")?;
        }
        Ok(())
    }

    /// Appends a line for each command that a package hands over.
    fn write_commands(
        self,
        text: &mut String,
        commands: &[Option<Command>],
    ) -> Result<(), NoMemory> {
        let Place { wire, number } = self;
        for (cpu, command) in commands.iter().enumerate() {
            if let Some(command) = *command {
                let cpu = cpu.min(255) as u8;
                let order = OrderText(Order::Make(Step::Issue { cpu, command }));
                write!(text, "{wire} {number} hands over {order}\n")?;
            }
        }
        Ok(())
    }

    /// Appends what a frame lists.
    fn write_list(self, text: &mut String, frame: &Frame) -> Result<(), NoMemory> {
        match frame {
            Frame::Discard { pages } => self.write_pages(text, "discards", pages),
            Frame::Package { owed, commands, .. } => {
                self.write_pages(text, "owes", owed)?;
                self.write_commands(text, commands.as_slice())
            }
            Frame::Recv { owed, .. } => self.write_pages(text, "needs", owed),
            _ => Ok(()),
        }
    }
}

/// Appends what a frame is, in the words of the line that it writes once it is taken.
pub(crate) fn write_frame(text: &mut String, frame: &Frame) -> Result<(), NoMemory> {
    match frame {
        Frame::Advise => write!(text, "advise")?,
        Frame::Page { page, .. } => {
            let addr = page_address(*page);
            write!(text, "page 0x{addr:x}")?;
        }
        Frame::Zero { page } => {
            let addr = page_address(*page);
            write!(text, "zero 0x{addr:x}")?;
        }
        Frame::Run { first, pages } => {
            let addr = page_address(*first);
            let count = pages.len();
            write!(text, "run 0x{addr:x} {count}")?;
        }
        Frame::Discard { pages } => {
            let count = pages.len();
            write!(text, "discard {count}")?;
        }
        Frame::Package { owed, .. } => {
            let count = owed.len();
            write!(text, "package owed {count}")?;
        }
        Frame::End { urgent } => write!(text, "end after {urgent} urgent")?,
        Frame::Resume => write!(text, "resume")?,
        Frame::Request { page } => {
            let addr = page_address(*page);
            write!(text, "request 0x{addr:x}")?;
        }
        Frame::Recv { state, owed } => {
            let count = owed.len();
            write!(text, "recv {state} {count}")?;
        }
        Frame::Done => write!(text, "done")?,
    }
    Ok(())
}

/// Appends the frames on a wire, in the order in which they are taken, each with what it lists. Some bytes of the first may have arrived.
fn write_wire(
    text: &mut String,
    wire: &'static str,
    frames: &[(u32, Frame)],
    held: u64,
) -> Result<(), NoMemory> {
    for (index, (epoch, frame)) in frames.iter().enumerate() {
        let number = index.saturating_add(1);
        write!(text, "{wire} {number}: ")?;
        write_frame(text, frame)?;
        write!(text, ", epoch {epoch}")?;
        if index == 0 && held > 0 {
            write!(text, ", {held} arrived")?;
        }
        write!(text, "\n")?;
        Place { wire, number }.write_list(text, frame)?;
    }
    Ok(())
}

/// Appends whether the channel is lost, and which node has noticed it and has not continued.
fn write_channel(text: &mut String, world: &World) -> Result<(), NoMemory> {
    let state = if world.is_up() { "up" } else { "lost" };
    let epoch = world.epoch();
    write!(text, "channel {state}, epoch {epoch}\n")?;
    if matches!(world.source_phase(), SourcePhase::Paused) {
        write!(text, "paused source\n")?;
    }
    if matches!(world.destination_phase(), DestPhase::Paused) {
        write!(text, "paused dest\n")?;
    }
    Ok(())
}

/// Appends how many bytes are in flight on the wires.
fn write_bytes(text: &mut String, world: &World) -> Result<(), NoMemory> {
    let forward = world.forward_bytes();
    let back = world.back_bytes();
    let urgent = world.urgent_bytes();
    write!(text, "bytes wire {forward} back {back} urgent {urgent}\n")?;
    Ok(())
}

/// Appends what the channel is, how many frames and bytes are on the wires, and each frame.
pub(crate) fn write_wires(alloc: Global, text: &mut String, world: &World) -> Result<(), NoMemory> {
    let forward = frames_on(alloc, world.forward())?;
    let back = frames_on(alloc, world.back())?;
    let urgent = frames_on(alloc, world.urgent())?;
    write_channel(text, world)?;
    let counts = (forward.len(), back.len(), urgent.len());
    write!(
        text,
        "wires wire {} back {} urgent {}\n",
        counts.0, counts.1, counts.2
    )?;
    write_bytes(text, world)?;
    write_wire(text, "wire", &forward, world.forward().held())?;
    write_wire(text, "back", &back, world.back().held())?;
    write_wire(text, "urgent", &urgent, world.urgent().held())
}
