//! Times the codec: frames of pages that are written with `page_stream` and read with `frame_decoder`. The words are one of:
//!
//! - `pages PIECE BATCH ROUNDS`: writes BATCH frames one after the other and feeds them in pieces of PIECE bytes, ROUNDS times;
//!   beside that it copies the same number of pages of 4096 bytes twice. Prints the nanoseconds a page of both.
//! - `feed PIECE BATCH ROUNDS`: writes BATCH frames once, and feeds them ROUNDS times in pieces of PIECE bytes. Prints the bytes, and
//!   the picoseconds a byte.

use crate::failure::{call_failed, lacking};
use crate::numbers::number;
use crate::{codec, copies};
use frame_decoder::Decoder;
use mig_base::PAGE_BYTES;
use page_stream::Frame;
use std::io;
use std::time::{Duration, Instant};

/// The frames of a run without sizes.
const FEW: u32 = 16;

/// The pieces of a run without sizes.
const SHORT: u32 = 1000;

/// What is measured: how many bytes a piece has, how many frames a batch, and how often that is done.
#[derive(Clone, Copy)]
struct Sizes {
    piece: u32,
    batch: u32,
    rounds: u32,
}

/// How long the writing and reading takes, once it has been done before.
fn time_codec(
    rt: &HostRuntime,
    decoder: &mut Decoder,
    frames: &[Frame],
    stream: &mut Vec<u8>,
    sizes: Sizes,
) -> io::Result<Duration> {
    let piece = sizes.piece as usize;
    codec::write_and_read(decoder, frames, stream, piece, 1).map_err(call_failed)?;
    let begun = Instant::now(rt)?;
    codec::write_and_read(decoder, frames, stream, piece, sizes.rounds).map_err(call_failed)?;
    begun.elapsed(rt)
}

/// The same with a decoder and a stream of its own, and new frames.
fn time_new_codec(rt: &HostRuntime, sizes: Sizes) -> io::Result<Duration> {
    let frames = codec::frames(rt.alloc(), sizes.batch).map_err(call_failed)?;
    let mut decoder = Decoder::new(rt.alloc());
    let mut stream = Vec::new(rt.alloc());
    time_codec(rt, &mut decoder, &frames, &mut stream, sizes)
}

/// How long it takes to copy the pages twice, once that has been done before.
fn time_copies(rt: &HostRuntime, sizes: Sizes) -> io::Result<Duration> {
    let sources = copies::filled(rt.alloc(), sizes.batch, 1).map_err(lacking)?;
    let mut middles = copies::filled(rt.alloc(), sizes.batch, 2).map_err(lacking)?;
    let pages = (sizes.piece / PAGE_BYTES as u32).max(1);
    let mut targets = copies::filled(rt.alloc(), pages, 3).map_err(lacking)?;
    copies::copy_twice(&sources, &mut middles, &mut targets, 1);
    let begun = Instant::now(rt)?;
    copies::copy_twice(&sources, &mut middles, &mut targets, sizes.rounds);
    begun.elapsed(rt)
}

/// Prints what writing and reading takes a page, and what copying it twice.
fn measure_pages(rt: &HostRuntime, sizes: Sizes) -> io::Result<()> {
    let codec = time_new_codec(rt, sizes)?;
    let copies = time_copies(rt, sizes)?;
    let pages = (u128::from(sizes.batch) * u128::from(sizes.rounds)).max(1);
    let codec = codec.as_nanos() / pages;
    let copies = copies.as_nanos() / pages;
    println!(rt; "codec {codec}, copies {copies} ns a page")
}

/// The stream of `batch` frames.
fn stream_of(rt: &HostRuntime, batch: u32, stream: &mut Vec<u8>) -> io::Result<()> {
    let frames = codec::frames(rt.alloc(), batch).map_err(call_failed)?;
    codec::write_all(&frames, stream).map_err(call_failed)
}

/// How long the reading takes.
fn time_reading(
    rt: &HostRuntime,
    decoder: &mut Decoder,
    stream: &[u8],
    sizes: Sizes,
) -> io::Result<Duration> {
    let (piece, batch) = (sizes.piece as usize, sizes.batch as usize);
    let begun = Instant::now(rt)?;
    codec::read_again(decoder, stream, piece, batch, sizes.rounds).map_err(call_failed)?;
    begun.elapsed(rt)
}

/// Prints what reading takes a byte.
fn measure_reading(rt: &HostRuntime, stream: &[u8], sizes: Sizes) -> io::Result<()> {
    let mut decoder = Decoder::new(rt.alloc());
    let time = time_reading(rt, &mut decoder, stream, sizes)?;
    let bytes = (stream.len() as u128) * u128::from(sizes.rounds);
    let each = time.as_nanos().saturating_mul(1000) / bytes.max(1);
    println!(rt; "{bytes} bytes, {each} ps a byte")
}

/// The same of a stream of its own.
fn measure_feed(rt: &HostRuntime, sizes: Sizes) -> io::Result<()> {
    let mut stream = Vec::new(rt.alloc());
    stream_of(rt, sizes.batch, &mut stream)?;
    measure_reading(rt, &stream, sizes)
}

/// The sizes that three words say.
fn read_sizes(piece: &str, batch: &str, rounds: &str) -> io::Result<Sizes> {
    Ok(Sizes {
        piece: number(piece)?,
        batch: number(batch)?,
        rounds: number(rounds)?,
    })
}

/// Prints what the words ask for.
pub fn measure(rt: &HostRuntime, words: &[String]) -> io::Result<()> {
    let [kind, piece, batch, rounds] = words else {
        return Err(io::Error::from(io::ErrorKind::InvalidInput));
    };
    let sizes = read_sizes(piece.as_str(), batch.as_str(), rounds.as_str())?;
    match kind.as_str() {
        "pages" => measure_pages(rt, sizes),
        "feed" => measure_feed(rt, sizes),
        _ => Err(io::Error::from(io::ErrorKind::InvalidInput)),
    }
}

/// Writes and reads a few frames, and says so.
pub fn try_few(rt: &HostRuntime) -> io::Result<()> {
    let sizes = Sizes {
        piece: SHORT,
        batch: FEW,
        rounds: 2,
    };
    time_new_codec(rt, sizes)?;
    println!(rt; "{FEW} frames are written and read")
}
