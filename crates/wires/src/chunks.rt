//! The bytes in flight.

ghost use Rattle.std.specs.Prelude.{◌≡◌, ◌↔◌, true, ◌+◌, ◌-◌, ◌≤◌, ◌<◌, ◌++◌, ◌∷◌, [], IfOk, OnOk, length, map, slice_index_or, vec_capacity, vec_len};
ghost use Rattle.foundation.specs.Tests.{is_empty as is_none_of};
ghost use Rattle.mig_model.specs.Bounds.{IsFrame};
ghost use Rattle.mig_model.specs.Wire as machine;
ghost use Rattle.page_stream.specs.Frames.{frame_of};
ghost use Rattle.wires.specs.Chunks.{AreChunks, bytes_from, in_flight, left, pieces, room};

use mig_base::{MAX_CPUS, MAX_PAGES, NoMemory, PAGE_BYTES, PageNo};
use page_stream::{Frame, encode_into, encode_page_into};
use std::alloc::Global;
use std::collections::VecDeque;

/// The length in bytes of the longest text, that of a Package: a header, two counts and a number of processors, an area or an owed page
/// for each page that may be mapped, and a store for each processor.
const LONGEST_TEXT: usize = 12 + 9 + 17 * MAX_PAGES as usize + 18 * MAX_CPUS as usize;

/// The least capacity of a chunk, in bytes. The kernel supplies memory only for the part that is written.
const CHUNK_LEN: usize = 4 * LONGEST_TEXT;

/// The bytes in flight, in chunks. Each chunk has whole texts, so a frame is read where it was written, and no byte is moved.
#[derive(Drop)]
pub(crate) struct Chunks {
    /// The chunk that is read, and the number of its bytes that were taken.
    pub(crate) reading: Vec<u8>,
    pub(crate) taken: usize,
    /// The chunks after it, which are no longer written.
    pub(crate) full: VecDeque<Vec<u8>>,
    /// The chunk that is written.
    pub(crate) writing: Vec<u8>,
}

impl Chunks {
    /// No bytes. It takes no memory.
    pub(crate) fn new(alloc: Global) -> Chunks
        ensures chunks { AreChunks result }
        ensures none { in_flight result ≡ [] }
    {
        Chunks {
            reading: Vec::new(alloc),
            taken: 0,
            full: VecDeque::new(alloc),
            writing: Vec::new(alloc),
        }
    }

    /// The same bytes in flight, in memory of their own. `NoMemory` if that cannot be allocated.
    pub(crate) fn copy(&self, alloc: Global) -> Result<Chunks, NoMemory>
        requires { AreChunks self.now }
        ensures chunks { IfOk result AreChunks }
        ensures same { IfOk result (λ copy. in_flight copy ≡ in_flight self.now) }
        ensures bytes { IfOk result (λ copy. pieces copy ≡ pieces self.now) }
    {
        let reading = Vec::from_slice(alloc, self.left())?;
        let full = copy_full(alloc, &self.full)?;
        let writing = Vec::from_slice(alloc, &self.writing)?;
        Ok(Chunks {
            reading,
            taken: 0,
            full,
            writing,
        })
    }

    /// Whether the same frames are in flight. Their texts may be cut into chunks at other places.
    pub(crate) fn is_same(&self, other: &Self) -> bool
        requires { AreChunks self.now × AreChunks other.now }
        ensures { (result ≡ true) ↔ (in_flight self.now ≡ in_flight other.now) }
    {
        let (mut mine, mut next) = self.front(self.left(), 1);
        let (mut theirs, mut other_next) = other.front(other.left(), 1);
        while !mine.is_empty() && !theirs.is_empty() {
            let len = mine.len().min(theirs.len());
            let (front, rest) = mine.split_at(len);
            let (other_front, other_rest) = theirs.split_at(len);
            if front != other_front {
                return false;
            }
            (mine, next) = self.front(rest, next);
            (theirs, other_next) = other.front(other_rest, other_next);
        }
        mine.is_empty() && theirs.is_empty()
    }

    /// What is left of a piece, or the bytes of the first piece from `next` on that has some, and the number of the piece after it. No
    /// bytes, if none of these pieces has any.
    fn front<'a>(&'a self, rest: &'a [u8], next: usize) -> (&'a [u8], usize)
        requires { AreChunks self.now }
        ensures stays { bytes_from (pieces self.now) result.0.now result.1 ≡
            bytes_from (pieces self.now) rest.now next }
        ensures none { result.0.now ≡ [] → bytes_from (pieces self.now) result.0.now result.1 ≡ [] }
    {
        let mut bytes = rest;
        let mut at = next;
        while bytes.is_empty() && at < self.pieces() {
            bytes = self.piece(at);
            at += 1;
        }
        (bytes, at)
    }

    /// Whether no byte is in flight.
    pub(crate) fn is_empty(&self) -> bool
        requires { AreChunks self.now }
        ensures { result ≡ is_none_of (in_flight self.now) }
    {
        if self.taken < self.reading.len() {
            return false;
        }
        if self.full.is_empty() {
            return self.writing.is_empty();
        }
        false
    }

    /// Reserves room for `count` frames, however long they are. `NoMemory` comes if it is refused; what is in flight stays either way.
    pub(crate) fn reserve(&mut self, alloc: Global, count: usize) -> Result<(), NoMemory>
        requires { AreChunks self.old }
        ensures chunks { AreChunks self.new }
        ensures stays { in_flight self.new ≡ in_flight self.old }
        ensures room { OnOk result (count ≤ room self.new) }
    {
        let Some(wanted) = count.checked_mul(LONGEST_TEXT) else {
            return Err(NoMemory);
        };
        if wanted > self.writing.capacity() - self.writing.len() {
            self.reuse();
        }
        self.make_room(alloc, wanted)
    }

    /// Swaps the two chunks if all bytes of the one that is read were taken and none are written: the kernel has already supplied the
    /// memory of that chunk.
    fn reuse(&mut self)
        requires { AreChunks self.old }
        ensures chunks { AreChunks self.new }
        ensures stays { in_flight self.new ≡ in_flight self.old }
    {
        if self.taken < self.reading.len() {
            return;
        }
        if !self.writing.is_empty() {
            return;
        }
        self.taken = 0;
        self.reading.clear();
        std::mem::swap(&mut self.reading, &mut self.writing);
    }

    /// Makes room for `wanted` bytes. `NoMemory` comes if it is refused; what is in flight stays either way.
    fn make_room(&mut self, alloc: Global, wanted: usize) -> Result<(), NoMemory>
        requires { AreChunks self.old }
        ensures chunks { AreChunks self.new }
        ensures stays { in_flight self.new ≡ in_flight self.old }
        ensures room { OnOk result
            (wanted ≤ vec_capacity self.new.writing - vec_len self.new.writing) }
    {
        if wanted <= self.writing.capacity() - self.writing.len() {
            return Ok(());
        }
        let mut chunk = Vec::with_capacity(alloc, wanted.max(CHUNK_LEN))?;
        if self.writing.is_empty() {
            self.writing = chunk;
            return Ok(());
        }
        self.full.reserve(1)?;
        std::mem::swap(&mut self.writing, &mut chunk);
        let Ok(()) = self.full.push_back(chunk) else {
            unreachable!();
        };
        Ok(())
    }

    /// Writes the text of a frame, for which there is room.
    pub(crate) fn write(&mut self, epoch: u32, frame: &Frame)
        requires chunks { AreChunks self.old }
        requires well_formed { IsFrame (frame_of frame.now) }
        requires room { 0 < room self.old }
        ensures chunks { AreChunks self.new }
        ensures written { in_flight self.new ≡
            in_flight self.old ++ record { epoch = epoch; frame = frame_of frame.now } ∷ [] }
        ensures room { room self.old ≤ room self.new + 1 }
    {
        let Ok(()) = encode_into(frame, epoch, &mut self.writing) else {
            unreachable!();
        };
    }

    /// Writes the text of a Page, for which there is room, from where its bytes stand.
    pub(crate) fn write_page(&mut self, epoch: u32, page: PageNo, bytes: &[u8; PAGE_BYTES])
        requires chunks { AreChunks self.old }
        requires well_formed { IsFrame (machine.Frame.Page page bytes.now) }
        requires room { 0 < room self.old }
        ensures chunks { AreChunks self.new }
        ensures written { in_flight self.new ≡
            in_flight self.old ++
            record { epoch = epoch; frame = machine.Frame.Page page bytes.now } ∷ [] }
        ensures room { room self.old ≤ room self.new + 1 }
    {
        let Ok(()) = encode_page_into(page, bytes, epoch, &mut self.writing) else {
            unreachable!();
        };
    }

    /// Continues with the next chunk if all bytes of the one that is read were taken. The first frame in flight is then in it.
    pub(crate) fn turn(&mut self)
        requires { AreChunks self.old }
        ensures chunks { AreChunks self.new }
        ensures stays { in_flight self.new ≡ in_flight self.old }
        ensures first { left self.new ≡ [] → in_flight self.new ≡ [] }
    {
        if self.taken < self.reading.len() {
            return;
        }
        self.taken = 0;
        match self.full.pop_front() {
            Some(chunk) => self.reading = chunk,
            None => {
                self.reading.clear();
                std::mem::swap(&mut self.reading, &mut self.writing);
            }
        }
    }

    /// The bytes of the chunk that is read that were not taken yet.
    pub(crate) fn left(&self) -> &[u8]
        requires { AreChunks self.now }
        ensures { result.now ≡ left self.now }
    {
        let (_, left) = self.reading.split_at(self.taken);
        left
    }

    /// The number of pieces in which the bytes lie. Any of them may be empty.
    pub(crate) fn pieces(&self) -> usize
        ensures { result ≡ length (pieces self.now) }
    {
        self.full.len() + 2
    }

    /// One of the pieces: the rest of the chunk that is read, then each full chunk, then the chunk that is written.
    pub(crate) fn piece(&self, index: usize) -> &[u8]
        requires chunks { AreChunks self.now }
        requires index { index < length (pieces self.now) }
        ensures { result.now ≡ slice_index_or (pieces self.now) index [] }
    {
        if index == 0 {
            return self.left();
        }
        match self.full.get(index - 1) {
            Some(chunk) => chunk.as_slice(),
            None => self.writing.as_slice(),
        }
    }

    /// Drops all bytes. The room stays.
    pub(crate) fn clear(&mut self)
        requires { AreChunks self.old }
        ensures chunks { AreChunks self.new }
        ensures none { in_flight self.new ≡ [] }
        ensures room { room self.old ≤ room self.new }
    {
        self.reading.clear();
        self.taken = 0;
        self.full.clear();
        self.writing.clear();
    }
}

/// A copy of full chunks. `NoMemory` if it cannot be allocated.
fn copy_full(alloc: Global, chunks: &VecDeque<Vec<u8>>) -> Result<VecDeque<Vec<u8>>, NoMemory>
    ensures { IfOk result (λ copy.
        map (λ chunk. chunk.items) copy.items ≡ map (λ chunk. chunk.items) chunks.now.items) }
{
    let mut copy = VecDeque::with_capacity(alloc, chunks.len())?;
    for i in 0..chunks.len() {
        copy.push_back(Vec::from_slice(alloc, &chunks[i])?)?;
    }
    Ok(copy)
}
