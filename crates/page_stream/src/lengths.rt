//! How long the text of a frame is.

ghost use Rattle.std.specs.Prelude.{◌≡◌, ◌^◌, ◌<◌};
ghost use Rattle.mig_model.specs.Lengths as texts;
ghost use Rattle.page_stream.specs.Frames.{frame_of};

use crate::frame::Frame;
use area_map::AreaMap;
use mig_base::{Command, PAGE_SIZE, PageSet};

/// The length of a header in bytes.
pub const HEADER_LEN: u64 = 12;

impl Frame {
    /// The length of its text in bytes, header and body. It makes no text and takes no memory: it walks a set run by run.
    ///
    /// The length must fit 64 bits. That of a well-formed frame fits 32.
    pub fn text_len(&self) -> u64
        requires { texts.text_len (frame_of self.now) < 2 ^ 64 }
        ensures { result ≡ texts.text_len (frame_of self.now) }
    {
        HEADER_LEN + self.body_len()
    }

    /// The length of its body in bytes: the same without the header.
    pub(crate) fn body_len(&self) -> u64
        requires { texts.body_len (frame_of self.now) < 2 ^ 64 }
        ensures { result ≡ texts.body_len (frame_of self.now) }
    {
        match self {
            Frame::Advise | Frame::Resume | Frame::Done => 0,
            Frame::Page { .. } => 4 + PAGE_SIZE,
            Frame::Zero { .. } | Frame::Request { .. } | Frame::End { .. } => 4,
            Frame::Run { pages, .. } => 8 + PAGE_SIZE * pages.len() as u64,
            Frame::Discard { pages } => runs_len(pages),
            Frame::Package {
                areas,
                owed,
                commands,
            } => { areas_len(areas) + runs_len(owed) + (1 + commands_len(commands.as_slice())) }
            Frame::Recv { owed, .. } => 1 + runs_len(owed),
        }
    }
}

/// The bytes of a count, and for each run of the set of its first page and its number of pages.
fn runs_len(pages: &PageSet) -> u64
    ensures { result ≡ texts.runs_len pages.now }
{
    4 + 8 * u64::from(run_count(pages))
}

/// The number of maximal runs of neighbouring pages.
pub(crate) fn run_count(pages: &PageSet) -> u32
    ensures { result ≡ texts.run_count pages.now }
{
    let mut count = 0;
    for _run in pages.runs() {
        count += 1;
    }
    count
}

/// The bytes of a count, and for each area of its first page, its number of pages and its protection.
fn areas_len(areas: &AreaMap) -> u64
    ensures { result ≡ texts.areas_len areas.now }
{
    4 + 9 * areas.areas().len() as u64
}

/// The bytes of what each processor waits for, without their count.
fn commands_len(commands: &[Option<Command>]) -> u64
    requires { texts.commands_len commands.now < 2 ^ 64 }
    ensures { result ≡ texts.commands_len commands.now }
{
    let mut len = 0;
    for command in commands {
        len += command_len(*command);
    }
    len
}

/// The bytes of a tag, of the address and width of a load or store, and of the value of a store. A map call has none.
fn command_len(command: Option<Command>) -> u64
    ensures { result ≡ texts.command_len command }
{
    match command {
        None => 1,
        Some(Command::Load { .. }) => 10,
        Some(Command::Store { .. }) => 18,
        Some(_) => 0,
    }
}
