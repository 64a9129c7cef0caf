//! Times parts of a migration, each beside a loop that copies as many pages. The first argument is a word for the part:
//!
//! - `source [PAGES ..]`: a source sends pages.
//! - `destination [PAGES ..]`: a destination takes pages and installs them, and map calls are made over owed pages.
//! - `world [PAGES ..]`, `world new-copies [PAGES ..]`: a whole migration, step by step and without a script.
//! - `frames [pages|feed PIECE BATCH ROUNDS]`: frames of pages are written and read.
//! - `rig [calls|seats|claims|post-copy NUMBER ..]`: calls, claims and workers in threads, over one lock.
//!
//! The module of each part says what it prints. With the word alone it works on a few pages, and says so; with no argument all do.
//! The exit status is 1, with a message on standard error, where the word or an argument is none of these.
#![tactic(auto)]

mod claim_work;
mod codec;
mod codec_times;
mod copies;
mod destination;
mod destination_times;
mod failure;
mod migration;
mod migration_times;
mod numbers;
mod rig_times;
mod rig_work;
mod source;
mod source_times;

use std::process::ExitCode;
use std::{env, io};

/// A part that is timed.
#[derive(Clone, Copy)]
enum Part {
    Source,
    Destination,
    World,
    Frames,
}

impl Part {
    fn from_word(word: &str) -> Option<Part> {
        match word {
            "source" => Some(Part::Source),
            "destination" => Some(Part::Destination),
            "world" => Some(Part::World),
            "frames" => Some(Part::Frames),
            _ => None,
        }
    }

    /// Works on a few pages, and says so.
    fn try_few(self, rt: &HostRuntime) -> io::Result<()> {
        match self {
            Part::Source => source_times::try_few(rt),
            Part::Destination => destination_times::try_few(rt),
            Part::World => migration_times::try_few(rt),
            Part::Frames => codec_times::try_few(rt),
        }
    }

    /// Prints what the words after that of the part ask for.
    fn measure(self, rt: &HostRuntime, words: &[String]) -> io::Result<()> {
        match self {
            Part::Source => source_times::measure(rt, words),
            Part::Destination => destination_times::measure(rt, words),
            Part::World => migration_times::measure(rt, words),
            Part::Frames => codec_times::measure(rt, words),
        }
    }
}

/// Works on a few pages with each part.
fn try_all(rt: &HostRuntime) -> io::Result<()> {
    for part in [Part::Source, Part::Destination, Part::World, Part::Frames] {
        part.try_few(rt)?;
    }
    Ok(())
}

/// Does what a word, and those after it, ask for.
fn obey(rt: &HostRuntime, word: &str, rest: &[String]) -> io::Result<()> {
    match Part::from_word(word) {
        Some(part) if rest.is_empty() => part.try_few(rt),
        Some(part) => part.measure(rt, rest),
        None => Err(io::Error::from(io::ErrorKind::InvalidInput)),
    }
}

/// The words of the command line.
fn read_words(rt: &HostRuntime) -> io::Result<Vec<String>> {
    Ok(env::args(rt)?.skip(1).collect(rt.alloc())?)
}

/// What is said of an error on standard error.
fn message(error: &io::Error) -> &'static str {
    match error.kind() {
        io::ErrorKind::InvalidInput => {
            "bench [source|destination|world|frames|rig [ARGUMENT ..]]: no such word or argument"
        }
        io::ErrorKind::OutOfMemory => "bench: out of memory",
        _ => "bench: cannot read the arguments or the clock, or cannot write",
    }
}

/// What each word asks for, and all of them with none.
fn main(rt: HostRuntime) -> ExitCode {
    let outcome = match read_words(&rt) {
        Ok(words) => match words.as_slice() {
            [] => try_all(&rt).and_then(|()| rig_times::try_few(&rt, rt.alloc())),
            [word, rest @ ..] if word.as_str() == "rig" => rig_times::obey(&rt, rt.alloc(), rest),
            [word, rest @ ..] => obey(&rt, word.as_str(), rest),
        },
        Err(error) => Err(error),
    };
    match outcome {
        Ok(()) => ExitCode::SUCCESS,
        Err(error) => {
            let _ = eprintln!(&rt; "{}", message(&error));
            ExitCode::FAILURE
        }
    }
}
