//! A wire: the type that callers see.

ghost use Rattle.std.specs.Prelude.{◌≡◌, ◌↔◌, true, ◌+◌, ◌<◌, ◌≤◌, ◌++◌, ◌∷◌, [], length, map, slice_index_or, take, None, IfOk, OnOk, List};
ghost use Rattle.std.specs.List.{AllByRecursion};
ghost use Rattle.std.specs.Option.{IfSome};
ghost use Rattle.foundation.specs.Tests.{is_empty as is_none_of};
ghost use Rattle.mig_model.specs.Bounds.{IsFrame};
ghost use Rattle.mig_model.specs.Invariant.{HeldFits};
ghost use Rattle.mig_model.specs.Wire as machine;
ghost use Rattle.page_stream.specs.Texts as written;
ghost use Rattle.page_stream.specs.Frames.{frame_of};
ghost use Rattle.frame_decoder.specs.Feeding.{Decodes};
ghost use Rattle.frame_decoder.specs.Streams.{IsSent, texts};
ghost use Rattle.frame_decoder.specs.declared.version.Version.TheVariants.{Two};
ghost use Rattle.wires.specs.Chunks.{IsFrontLen};
ghost use Rattle.wires.specs.Lanes.{Arrives, lane_bytes};

use crate::chunks::Chunks;
use crate::sent::Sent;
use frame_decoder::{front_len, read_text};
use mig_base::{NoMemory, PAGE_BYTES, PageNo};
use page_stream::Frame;
use std::alloc::Global;
use std::marker::Model;

/// One direction of the channel: the frames in flight, in the order in which they were sent, and the number of bytes of the first that
/// have come, fewer than its text has. Each frame is well formed.
///
/// The wire holds bytes alone, the texts of version 2 of its frames, one after the other; [`piece`](Wire::piece) lends them. A frame is
/// written as it is sent, and read in place once its last byte has come. The wire has no [`Decoder`](frame_decoder::Decoder), but one
/// that is fed its bytes, cut anywhere, returns the same frames.
///
/// A sender reserves room for the frames that it pushes next. [`arrive`](Wire::arrive) and [`drop_first`](Wire::drop_first) may leave
/// less room, so it reserves right before it sends.
#[derive(Drop)]
pub struct Wire {
    alloc: Global,
    chunks: Chunks,
    held: u64,
    /// The length of the first frame in flight once its header was read, else 0.
    first_len: usize,
}

impl Model for Wire {
    ghost use Rattle.wires.specs.Chunks.{AreChunks, in_flight, pieces, room};
    ghost use Rattle.mig_model.specs.Invariant.{HeldFits};
    ghost use Rattle.wires.specs.Lanes.{IsFirstLen, Lane};
    ghost use Rattle.wires.specs.Codes.{coded_lane};

    ghost Value = { Lane };

    ghost coded = { coded_lane };

    ghost view = { λ w. record { wire = record { frames = in_flight w.chunks; held = w.held }; pieces = pieces w.chunks; room = room w.chunks } };

    ghost invariant = { λ w. AreChunks w.chunks × HeldFits (in_flight w.chunks) w.held × IsFirstLen (in_flight w.chunks) w.first_len };
}

impl Wire {
    /// A wire on which nothing is in flight. It takes no memory.
    pub fn new(alloc: Global) -> Self
        ensures { result.wire ≡ machine.empty_wire }
    {
        Wire {
            alloc,
            chunks: Chunks::new(alloc),
            held: 0,
            first_len: 0,
        }
    }

    /// A wire with the same frames and the same bytes in flight, in memory of its own, and perhaps less room. `NoMemory` if that cannot
    /// be allocated.
    pub fn copy(&self) -> Result<Self, NoMemory>
        ensures wire { IfOk result (λ copy. copy.wire ≡ self.now.wire) }
        ensures pieces { IfOk result (λ copy. copy.pieces ≡ self.now.pieces) }
    {
        Ok(Wire {
            alloc: self.alloc,
            chunks: self.chunks.copy(self.alloc)?,
            held: self.held,
            first_len: self.first_len,
        })
    }

    /// Whether the same frames are in flight, and as many bytes of the first have come. The pieces and the room may differ.
    pub fn is_same(&self, other: &Self) -> bool
        ensures { (result ≡ true) ↔ (self.now.wire ≡ other.now.wire) }
    {
        self.held == other.held && self.chunks.is_same(&other.chunks)
    }

    /// Whether nothing is in flight.
    pub fn is_empty(&self) -> bool
        ensures { result ≡ is_none_of self.now.wire.frames }
    {
        self.chunks.is_empty()
    }

    /// The number of pieces in which the bytes in flight lie. Joined they are the texts of the frames in flight, in version 2 and in
    /// order; a decoder that is fed them, cut anywhere, returns these frames and no fault, and then holds no byte.
    pub fn pieces(&self) -> usize
        ensures count { result ≡ length self.now.pieces }
        ensures texts { lane_bytes self.now ≡ texts Two self.now.wire.frames }
        ensures sent { AllByRecursion (IsSent Two) self.now.wire.frames }
        ensures decoded { Decodes (lane_bytes self.now) self.now.wire.frames [] }
    {
        self.chunks.pieces()
    }

    /// One of the pieces, which may be empty; `index` is below [`pieces`](Wire::pieces).
    pub fn piece(&self, index: usize) -> &[u8]
        requires { index < length self.now.pieces }
        ensures { result.now ≡ slice_index_or self.now.pieces index [] }
    {
        self.chunks.piece(index)
    }

    /// The number of bytes of the first frame in flight that have come, fewer than its text has: a decoder that is fed these holds them,
    /// and returns no frame.
    pub fn held(&self) -> u64
        ensures count { result ≡ self.now.wire.held }
        ensures short { HeldFits self.now.wire.frames self.now.wire.held }
        ensures decoded { Decodes (take self.now.wire.held (lane_bytes self.now)) []
            (take self.now.wire.held (lane_bytes self.now)) }
    {
        self.held
    }

    /// Reserves room for `count` frames, however long they are. `NoMemory` comes if it is refused; what is in flight stays either way.
    pub fn reserve(&mut self, count: usize) -> Result<(), NoMemory>
        ensures stays { self.new.wire ≡ self.old.wire }
        ensures bytes { lane_bytes self.new ≡ lane_bytes self.old }
        ensures room { OnOk result (count ≤ self.new.room) }
    {
        self.chunks.reserve(self.alloc, count)
    }

    /// Sends a well-formed frame, for which there is room: its bytes are written at the end.
    pub fn push(&mut self, epoch: u32, frame: Frame)
        requires well_formed { IsFrame (frame_of frame) }
        requires room { 0 < self.old.room }
        ensures wire { self.new.wire ≡ machine.wire_with self.old.wire epoch (frame_of frame ∷ []) }
        ensures bytes { lane_bytes self.new ≡
            lane_bytes self.old ++ written.text written.Version.Two epoch (frame_of frame) }
        ensures room { self.old.room ≤ self.new.room + 1 }
    {
        self.chunks.write(epoch, &frame);
    }

    /// The same for a Page, whose bytes are written from where they stand.
    pub fn push_page(&mut self, epoch: u32, page: PageNo, bytes: &[u8; PAGE_BYTES])
        requires well_formed { IsFrame (machine.Frame.Page page bytes.now) }
        requires room { 0 < self.old.room }
        ensures wire { self.new.wire ≡
            machine.wire_with self.old.wire epoch (machine.Frame.Page page bytes.now ∷ []) }
        ensures bytes { lane_bytes self.new ≡
            lane_bytes self.old ++
            written.text written.Version.Two epoch (machine.Frame.Page page bytes.now) }
        ensures room { self.old.room ≤ self.new.room + 1 }
    {
        self.chunks.write_page(epoch, page, bytes);
    }

    /// Sends well-formed frames in their order, for which there is room.
    pub fn push_all(&mut self, epoch: u32, mut frames: Vec<Frame>)
        requires well_formed { AllByRecursion IsFrame (map frame_of frames.items) }
        requires room { length frames.items ≤ self.old.room }
        ensures { self.new.wire ≡
            machine.wire_with self.old.wire epoch (map frame_of frames.items) }
    {
        frames.reverse();
        while let Some(frame) = frames.pop() {
            self.push(epoch, frame);
        }
    }

    /// Lets `n` more bytes of the first frame come. Unless they complete it, they are counted, and the result is `None`. If they do, the
    /// result is the frame, read from its bytes, and the wire is as before until [`drop_first`](Wire::drop_first): a receiver that cannot
    /// take the frame lets it come again. If nothing is in flight, the result is `None`.
    ///
    /// `NoMemory` comes if memory for the frame is refused, so only if the bytes complete one. It leaves the wire as it was.
    pub fn arrive(&mut self, n: u64) -> Result<Option<Sent>, NoMemory>
        ensures arrived { Arrives self.old.wire n result self.new.wire }
        ensures bytes { lane_bytes self.new ≡ lane_bytes self.old }
        ensures frame { IfOk result (λ read. IfSome read (λ sent. IsFrame (frame_of sent.frame))) }
    {
        self.chunks.turn();
        let left = self.chunks.left();
        if left.is_empty() {
            return Ok(None);
        }
        let len = first_len(self.first_len, left);
        self.first_len = len;
        if n < len as u64 - self.held {
            self.held += n;
            return Ok(None);
        }
        let (text, _) = left.split_at(len);
        match read_text(self.alloc, text)? {
            Some((epoch, frame)) => Ok(Some(Sent { epoch, frame })),
            None => unreachable!(),
        }
    }

    /// Removes the first frame from the wire, with all of its bytes. If nothing is in flight, nothing changes.
    pub fn drop_first(&mut self)
        ensures first { (sent : machine.Sent) (rest : List machine.Sent) →
            self.old.wire.frames ≡ sent ∷ rest → self.new.wire ≡ machine.wire_behind rest }
        ensures bytes { (sent : machine.Sent) (rest : List machine.Sent) →
            self.old.wire.frames ≡ sent ∷ rest →
            lane_bytes self.old ≡
            written.text written.Version.Two sent.epoch sent.frame ++ lane_bytes self.new }
        ensures none { self.old.wire.frames ≡ [] → self.new.wire ≡ self.old.wire }
    {
        self.chunks.turn();
        let left = self.chunks.left();
        if left.is_empty() {
            return;
        }
        self.chunks.taken += first_len(self.first_len, left);
        self.held = 0;
        self.first_len = 0;
    }

    /// Drops all that is in flight: the channel breaks. The room stays.
    pub fn clear(&mut self)
        ensures wire { self.new.wire ≡ machine.empty_wire }
        ensures bytes { lane_bytes self.new ≡ [] }
        ensures room { self.old.room ≤ self.new.room }
    {
        self.chunks.clear();
        self.held = 0;
        self.first_len = 0;
    }
}

/// The length of the text at the front of the bytes: the one that is known, or the one that its header says if that is 0.
fn first_len(known: usize, bytes: &[u8]) -> usize
    ensures known { (known ≡ 0 → ⊥) → result ≡ known }
    ensures read { known ≡ 0 → IsFrontLen bytes.now result }
{
    if known == 0 { front_len(bytes) } else { known }
}
