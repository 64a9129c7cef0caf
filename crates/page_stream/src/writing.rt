//! Writing the texts of frames.

ghost use Rattle.std.specs.Prelude.{◌≡◌, ℕ, List, ◌+◌, ◌≤◌, ◌<◌, ◌^◌, ◌++◌, length, IfOk, OnOk, OnErr, IsOk, vec_len, vec_capacity};
ghost use Rattle.std.specs.List.{flat_map};
ghost use Rattle.std.specs.Int.{w32, to_be_bytes};
ghost use Rattle.page_stream.specs.Texts.{HasWholePages, areas_of, areas_text, area_text, body_text, command_text, commands_text, header_text, run_text, runs_of, runs_text, state_code, tag_code, text};
ghost use Rattle.page_stream.specs.Texts.Version.{Two};
ghost use Rattle.mig_base.specs.Codes.{prot_number};
ghost use Rattle.mig_base.specs.declared.TheConstants.{MAX_RUN};
ghost use Rattle.mig_model.specs.Bounds.{IsFrame};
ghost use Rattle.mig_model.specs.Lengths as texts;
ghost use Rattle.mig_model.specs.Wire as machine;
ghost use Rattle.page_stream.specs.Frames.{frame_of};
ghost use Rattle.page_stream.specs.Writing.{Puts};

use crate::frame::Frame;
use crate::lengths::{HEADER_LEN, run_count};
use crate::lists::Pages;
use area_map::AreaMap;
use mig_base::phase::Received;
use mig_base::{Addr, Area, Command, NoMemory, PAGE_BYTES, PageNo, PageSet, Prot, Run};
use std::alloc::Global;

/// The version that is written.
const VERSION: u8 = 2;

/// The tag of a frame of one page.
const PAGE_TAG: u8 = 0x02;

/// The tag of a frame of neighbouring pages.
const RUN_TAG: u8 = 0x08;

/// Appends the text of a frame that is sent in an epoch, in version 2 of the texts: [`Frame::text_len`] bytes. The frame is well formed
/// ([`Frame::is_well_formed`]).
///
/// All room is reserved before the first byte is written, and no memory is requested if the vector has the room. `NoMemory` comes if
/// that room cannot be reserved, and leaves the bytes as they were.
pub fn encode_into(frame: &Frame, epoch: u32, into: &mut Vec<u8>) -> Result<(), NoMemory>
    requires { IsFrame (frame_of frame.now) }
    ensures ok { OnOk result (into.new.items ≡
        into.old.items ++ text Two epoch (frame_of frame.now)) }
    ensures err { OnErr result (into.new.items ≡ into.old.items) }
    ensures room { vec_len into.old + texts.text_len (frame_of frame.now) ≤ vec_capacity into.old →
        IsOk result }
    ensures capacity { vec_capacity into.old ≤ vec_capacity into.new }
{
    let len = frame.body_len();
    into.try_reserve((HEADER_LEN + len) as usize)?;
    put_header(into, tag(frame), epoch, len as u32);
    put_body(into, frame);
    Ok(())
}

/// Appends the text of a frame of one page, from bytes that stay where they are: 4,112 bytes, as [`encode_into`] would for
/// [`Frame::Page`]. The page lies from 0x10 to 0xfffff.
///
/// All room is reserved before the first byte is written, and no memory is requested if the vector has the room. `NoMemory` comes if
/// that room cannot be reserved, and leaves the bytes as they were.
pub fn encode_page_into(
    page: PageNo,
    bytes: &[u8; PAGE_BYTES],
    epoch: u32,
    into: &mut Vec<u8>,
) -> Result<(), NoMemory>
    ensures ok { OnOk result (into.new.items ≡
        into.old.items ++ text Two epoch (machine.Frame.Page page bytes.now)) }
    ensures err { OnErr result (into.new.items ≡ into.old.items) }
    ensures room { vec_len into.old + texts.text_len (machine.Frame.Page page bytes.now) ≤
        vec_capacity into.old → IsOk result }
    ensures capacity { vec_capacity into.old ≤ vec_capacity into.new }
{
    let head = page_head(epoch, page);
    into.try_reserve(head.len() + PAGE_BYTES)?;
    put(into, &head);
    put(into, bytes);
    Ok(())
}

/// The text of a frame of one page in front of the contents, for a caller that sends the 4,096 bytes from where they stand: header and
/// number of the page. Head and bytes are what [`encode_into`] writes for [`Frame::Page`].
pub fn page_head(epoch: u32, page: PageNo) -> [u8; 16]
    ensures { (bytes : List ℕ) → HasWholePages (machine.Frame.Page page bytes) →
        result ++ bytes ≡ text Two epoch (machine.Frame.Page page bytes) }
{
    let mut head = [0; 16];
    head[..12].copy_from_slice(&header(PAGE_TAG, epoch, 4 + PAGE_BYTES as u32));
    head[12..].copy_from_slice(&page.to_be_bytes());
    head
}

/// The text of a frame of `count` neighbouring pages in front of their contents, for a caller that sends the bytes from where they stand:
/// header, first page and count. Head and bytes, 4,096 for each page, are what [`encode_into`] writes for [`Frame::Run`]. A frame has at
/// most [`MAX_RUN`](mig_base::MAX_RUN) pages.
pub fn run_head(epoch: u32, first: PageNo, count: u32) -> [u8; 20]
    requires { count ≤ MAX_RUN }
    ensures { (pages : List (List ℕ)) → length pages ≡ count →
        HasWholePages (machine.Frame.Run first pages) →
        result ++ flat_map (λ bytes. bytes) pages ≡ text Two epoch (machine.Frame.Run first pages) }
{
    let mut head = [0; 20];
    head[..12].copy_from_slice(&header(RUN_TAG, epoch, 8 + PAGE_BYTES as u32 * count));
    head[12..16].copy_from_slice(&first.to_be_bytes());
    head[16..].copy_from_slice(&count.to_be_bytes());
    head
}

/// The text of a well-formed frame, as [`encode_into`] writes it. `NoMemory` comes if its room cannot be reserved.
pub fn encode(alloc: Global, frame: &Frame, epoch: u32) -> Result<Vec<u8>, NoMemory>
    requires { IsFrame (frame_of frame.now) }
    ensures { IfOk result (λ bytes. bytes.items ≡ text Two epoch (frame_of frame.now)) }
{
    let mut bytes = Vec::new(alloc);
    encode_into(frame, epoch, &mut bytes)?;
    Ok(bytes)
}

/// The tag of a frame. Those of frames that go back to the source have the highest bit set.
fn tag(frame: &Frame) -> u8
    ensures { result ≡ tag_code (frame_of frame.now) }
{
    match frame {
        Frame::Advise => 0x01,
        Frame::Page { .. } => PAGE_TAG,
        Frame::Zero { .. } => 0x03,
        Frame::Discard { .. } => 0x04,
        Frame::Package { .. } => 0x05,
        Frame::End { .. } => 0x06,
        Frame::Resume => 0x07,
        Frame::Run { .. } => RUN_TAG,
        Frame::Request { .. } => 0x81,
        Frame::Recv { .. } => 0x82,
        Frame::Done => 0x83,
    }
}

/// The header: the version, the tag, the epoch in which the frame is sent, and the length of the body in bytes.
fn put_header(into: &mut Vec<u8>, tag: u8, epoch: u32, len: u32)
    requires { vec_len into.old + 12 ≤ vec_capacity into.old }
    ensures { Puts into.old into.new (header_text Two tag epoch len) }
{
    put(into, &header(tag, epoch, len));
}

/// The 12 bytes of a header.
fn header(tag: u8, epoch: u32, len: u32) -> [u8; 12]
    ensures { result ≡ header_text Two tag epoch len }
{
    let mut header = [0; 12];
    header[0] = VERSION;
    header[1] = tag;
    header[4..8].copy_from_slice(&epoch.to_be_bytes());
    header[8..].copy_from_slice(&len.to_be_bytes());
    header
}

/// The body, which stands after the header.
fn put_body(into: &mut Vec<u8>, frame: &Frame)
    requires room { vec_len into.old + length (body_text (frame_of frame.now)) ≤ vec_capacity
        into.old }
    requires right { IsFrame (frame_of frame.now) }
    ensures { Puts into.old into.new (body_text (frame_of frame.now)) }
{
    match frame {
        Frame::Advise | Frame::Resume | Frame::Done => {}
        Frame::Page { page, bytes } => put_page(into, *page, bytes.as_array()),
        Frame::Zero { page } | Frame::Request { page } => put(into, &page.to_be_bytes()),
        Frame::Run { first, pages } => put_pages(into, *first, pages),
        Frame::Discard { pages } => put_runs(into, pages),
        Frame::Package {
            areas,
            owed,
            commands,
        } => put_package(into, areas, owed, commands.as_slice()),
        Frame::End { urgent } => put(into, &urgent.to_be_bytes()),
        Frame::Recv { state, owed } => {
            put(into, &[state_byte(*state)]);
            put_runs(into, owed);
        }
    }
}

/// The body of a Package: the mapped pages, the owed ones, and what each processor waits for.
fn put_package(into: &mut Vec<u8>, areas: &AreaMap, owed: &PageSet, commands: &[Option<Command>])
    requires room { vec_len into.old + length (areas_text (areas_of areas.now) ++
        runs_text (runs_of owed.now) ++ commands_text commands.now) ≤ vec_capacity into.old }
    requires few { length commands.now < 256 }
    ensures { Puts into.old into.new (areas_text (areas_of areas.now) ++
        runs_text (runs_of owed.now) ++ commands_text commands.now) }
{
    put_areas(into, areas.areas());
    put_runs(into, owed);
    put_commands(into, commands);
}

/// A page number and the bytes of the page.
fn put_page(into: &mut Vec<u8>, page: PageNo, bytes: &[u8; PAGE_BYTES])
    requires { vec_len into.old + length (to_be_bytes w32 page ++
        bytes.now) ≤ vec_capacity into.old }
    ensures { Puts into.old into.new (to_be_bytes w32 page ++ bytes.now) }
{
    put(into, &page.to_be_bytes());
    put(into, bytes);
}

/// The first page, the number of pages, and the bytes of each page.
fn put_pages(into: &mut Vec<u8>, first: PageNo, pages: &Pages)
    requires room { vec_len into.old + length (to_be_bytes w32 first ++
        to_be_bytes w32 (length pages.now) ++
        flat_map (λ bytes. bytes) pages.now) ≤ vec_capacity into.old }
    requires few { length pages.now < 2 ^ 32 }
    ensures { Puts into.old into.new (to_be_bytes w32 first ++ to_be_bytes w32 (length pages.now) ++
        flat_map (λ bytes. bytes) pages.now) }
{
    put(into, &first.to_be_bytes());
    put(into, &(pages.len() as u32).to_be_bytes());
    for page in pages.as_slice() {
        put(into, page.as_array());
    }
}

/// The number of runs, and each run of neighbouring pages. It takes no memory.
fn put_runs(into: &mut Vec<u8>, pages: &PageSet)
    requires { vec_len into.old + length (runs_text (runs_of pages.now)) ≤ vec_capacity into.old }
    ensures { Puts into.old into.new (runs_text (runs_of pages.now)) }
{
    put(into, &run_count(pages).to_be_bytes());
    for run in pages.runs() {
        put_run(into, run);
    }
}

fn put_run(into: &mut Vec<u8>, run: Run)
    requires { vec_len into.old + 8 ≤ vec_capacity into.old }
    ensures { Puts into.old into.new (run_text run) }
{
    put(into, &run.first.to_be_bytes());
    put(into, &run.count.to_be_bytes());
}

/// The number of areas, and each area.
fn put_areas(into: &mut Vec<u8>, areas: &[Area])
    requires room { vec_len into.old + length (areas_text areas.now) ≤ vec_capacity into.old }
    requires few { length areas.now < 2 ^ 32 }
    ensures { Puts into.old into.new (areas_text areas.now) }
{
    put(into, &(areas.len() as u32).to_be_bytes());
    for area in areas {
        put_area(into, *area);
    }
}

fn put_area(into: &mut Vec<u8>, area: Area)
    requires { vec_len into.old + 9 ≤ vec_capacity into.old }
    ensures { Puts into.old into.new (area_text area) }
{
    put(into, &area.first.to_be_bytes());
    put(into, &area.count.to_be_bytes());
    put(into, &[prot_byte(area.prot)]);
}

/// The number of processors in one byte, and what each of them waits for.
fn put_commands(into: &mut Vec<u8>, commands: &[Option<Command>])
    requires room { vec_len into.old + length (commands_text commands.now) ≤ vec_capacity into.old }
    requires few { length commands.now < 256 }
    ensures { Puts into.old into.new (commands_text commands.now) }
{
    put(into, &[commands.len() as u8]);
    for command in commands {
        put_command(into, *command);
    }
}

/// What a processor waits for. A map call does not wait.
fn put_command(into: &mut Vec<u8>, command: Option<Command>)
    requires { vec_len into.old + length (command_text command) ≤ vec_capacity into.old }
    ensures { Puts into.old into.new (command_text command) }
{
    match command {
        None => put(into, &[0]),
        Some(Command::Load { addr, width }) => {
            put(into, &[1]);
            put(into, &addr.to_be_bytes());
            put(into, &[width]);
        }
        Some(Command::Store { addr, width, value }) => put_store(into, addr, width, value),
        Some(_) => {}
    }
}

fn put_store(into: &mut Vec<u8>, addr: Addr, width: u8, value: u64)
    requires { vec_len into.old + 18 ≤ vec_capacity into.old }
    ensures { Puts into.old into.new (command_text (Some (Command.Store addr width value))) }
{
    put(into, &[2]);
    put(into, &addr.to_be_bytes());
    put(into, &[width]);
    put(into, &value.to_be_bytes());
}

fn prot_byte(prot: Prot) -> u8
    ensures { result ≡ prot_number prot }
{
    match prot {
        Prot::NoAccess => 0,
        Prot::Read => 1,
        Prot::ReadWrite => 2,
    }
}

fn state_byte(state: Received) -> u8
    ensures { result ≡ state_code state }
{
    match state {
        Received::NotRun => 0,
        Received::Running => 1,
        Received::Ended => 2,
    }
}

/// Appends bytes; the vector has room for them.
fn put(into: &mut Vec<u8>, bytes: &[u8])
    requires { vec_len into.old + length bytes.now ≤ vec_capacity into.old }
    ensures { Puts into.old into.new bytes.now }
{
    match into.extend_from_slice(bytes) {
        Ok(()) => {}
        Err(_) => unreachable!(),
    }
}
