//! `PageTable`, call by call.

use crate::ranges::{apart, inside};
use crate::same::same;
use mig_base::{NoMemory, PageBytes, PageNo};
use page_table::{PageTable, PutFault};
use std::alloc::Global;
use std::process::Abort;
use std::test::Fail;

/// A call with its arguments. A range is a first page and a count.
#[derive(Clone, Copy)]
enum Call {
    /// A page, and the byte that fills it.
    Put(PageNo, u8),
    PutZero(PageNo),
    /// A page, and the byte that fills it.
    Replace(PageNo, u8),
    ReplaceByZeros(PageNo),
    /// The first of two pages, and the bytes that fill them.
    PutRun(PageNo, [u8; 2]),
    /// A page, an offset and what is written there.
    Write(PageNo, usize, [u8; 3]),
    WriteOne(PageNo, usize, u8),
    DropRange(PageNo, u32),
    Protect(PageNo),
    Unprotect(PageNo),
    /// Two ranges of as many pages: the first of each, and the count.
    Move(PageNo, PageNo, u32),
    /// A byte of a page, if the page is present.
    ByteAt(PageNo, usize),
    IsProtected(PageNo),
    /// Whether a page is among the present pages, and how many they are.
    Present(PageNo),
}

use Call::{
    ByteAt, DropRange, IsProtected, Move, Present, Protect, Put, PutRun, PutZero, Replace,
    ReplaceByZeros, Unprotect, Write, WriteOne,
};

#[derive(Clone, Copy, PartialEq, Eq)]
enum Answer {
    Done,
    /// The page is present already.
    Refused,
    Byte(Option<u8>),
    Is(bool),
    Among(bool, u32),
}

use Answer::{Among, Byte, Done, Is, Refused};

/// The pages that the tables speak of.
const PAGES: [PageNo; 8] = [0x10, 0x11, 0x12, 0x20, 0x3ff, 0x400, 0x7ff, 0x800];

/// The first and the last byte of each of these pages, if it is present, and whether it is protected.
fn seen(table: &PageTable) -> [(Option<(u8, u8)>, bool); 8] {
    let mut seen = [(None, false); 8];
    for (place, page) in seen.iter_mut().zip(PAGES) {
        let bytes = match table.get(page) {
            Some(bytes) => Some((bytes[0], bytes[4095])),
            None => None,
        };
        *place = (bytes, table.is_protected(page));
    }
    seen
}

/// Makes a call that may be refused memory.
fn put(
    rt: &impl Abort,
    alloc: Global,
    table: &mut PageTable,
    page: PageNo,
    byte: u8,
) -> Result<Answer, PutFault> {
    inside(rt, page, 1);
    let Ok(bytes) = PageBytes::copy_of(alloc, &[byte; 4096]) else {
        return Err(PutFault::NoMemory);
    };
    match table.put(page, bytes) {
        Ok(()) => Ok(Done),
        Err((fault, back)) => {
            same(
                rt,
                back.as_array(),
                &[byte; 4096],
                "page that comes back",
                0,
            );
            Err(fault)
        }
    }
}

fn replace(
    rt: &impl Abort,
    alloc: Global,
    table: &mut PageTable,
    page: PageNo,
    byte: u8,
) -> Result<Answer, PutFault> {
    let Ok(bytes) = PageBytes::copy_of(alloc, &[byte; 4096]) else {
        return Err(PutFault::NoMemory);
    };
    assert!(rt; table.get(page).is_some());
    table.replace(page, bytes);
    Ok(Done)
}

fn put_run(
    rt: &impl Abort,
    alloc: Global,
    table: &mut PageTable,
    first: PageNo,
    bytes: [u8; 2],
) -> Result<Answer, PutFault> {
    inside(rt, first, 2);
    let Ok(run) = run_of(alloc, bytes) else {
        return Err(PutFault::NoMemory);
    };
    assert!(rt; run.len() == 2);
    match table.put_run(first, run) {
        Ok(()) => Ok(Done),
        Err(back) => {
            same(rt, &back.len(), &2, "pages that come back", 0);
            Err(PutFault::NoMemory)
        }
    }
}

/// Two pages, each filled with a byte.
fn run_of(alloc: Global, bytes: [u8; 2]) -> Result<Vec<PageBytes>, NoMemory> {
    let mut run = Vec::new(alloc);
    for byte in &bytes {
        run.push(PageBytes::copy_of(alloc, &[*byte; 4096])?)?;
    }
    Ok(run)
}

fn write(
    rt: &impl Abort,
    table: &mut PageTable,
    page: PageNo,
    offset: usize,
    bytes: &[u8],
) -> Result<Answer, PutFault> {
    assert!(rt; offset <= 4096 && bytes.len() <= 4096 - offset);
    inside(rt, page, 1);
    if table.write(page, offset, bytes).is_err() {
        return Err(PutFault::NoMemory);
    }
    Ok(Done)
}

fn move_range(
    rt: &impl Abort,
    table: &mut PageTable,
    from: PageNo,
    to: PageNo,
    count: u32,
) -> Result<Answer, PutFault> {
    inside(rt, from, count);
    inside(rt, to, count);
    apart(rt, from, to, count);
    if table.move_range(from, to, count).is_err() {
        return Err(PutFault::NoMemory);
    }
    Ok(Done)
}

fn present(table: &PageTable, page: PageNo) -> Result<Answer, PutFault> {
    let Ok(pages) = table.present() else {
        return Err(PutFault::NoMemory);
    };
    Ok(Among(pages.contains(page), pages.len()))
}

fn byte_at(rt: &impl Abort, table: &PageTable, page: PageNo, offset: usize) -> Option<u8> {
    assert!(rt; offset < 4096);
    match table.get(page) {
        Some(bytes) => Some(bytes[offset]),
        None => None,
    }
}

fn make(
    rt: &impl Abort,
    alloc: Global,
    table: &mut PageTable,
    call: Call,
) -> Result<Answer, PutFault> {
    match call {
        Put(page, byte) => return put(rt, alloc, table, page, byte),
        PutZero(page) => {
            inside(rt, page, 1);
            table.put_zero(page)?;
        }
        Replace(page, byte) => return replace(rt, alloc, table, page, byte),
        PutRun(first, bytes) => return put_run(rt, alloc, table, first, bytes),
        ReplaceByZeros(page) => {
            assert!(rt; table.get(page).is_some());
            table.replace_by_zeros(page);
        }
        Write(page, offset, bytes) => return write(rt, table, page, offset, bytes.as_slice()),
        WriteOne(page, offset, byte) => return write(rt, table, page, offset, [byte].as_slice()),
        DropRange(first, count) => {
            inside(rt, first, count);
            table.drop_range(first, count);
        }
        Protect(page) => {
            assert!(rt; table.get(page).is_some());
            table.protect(page);
        }
        Unprotect(page) => {
            assert!(rt; table.get(page).is_some());
            table.unprotect(page);
        }
        Move(from, to, count) => return move_range(rt, table, from, to, count),
        ByteAt(page, offset) => return Ok(Byte(byte_at(rt, table, page, offset))),
        IsProtected(page) => return Ok(Is(table.is_protected(page))),
        Present(page) => return present(table, page),
    }
    Ok(Done)
}

/// Makes the calls of a table.
fn play_on(rt: &impl Abort, alloc: Global, table: &mut PageTable, steps: &[(Call, Answer)]) {
    for (i, (call, wanted)) in steps.iter().enumerate() {
        let before = seen(table);
        let mut outcome = make(rt, alloc, table, *call);
        if outcome.is_err() {
            same(rt, &seen(table), &before, "refused step", i);
        }
        if outcome == Err(PutFault::NoMemory) {
            outcome = make(rt, alloc, table, *call);
        }
        let answer = match outcome {
            Err(PutFault::Present) => Ok(Refused),
            outcome => outcome,
        };
        same(rt, &answer, &Ok(*wanted), "step", i);
    }
}

fn play(rt: &impl Abort, alloc: Global, steps: &[(Call, Answer)]) {
    let mut table = PageTable::new(alloc);
    play_on(rt, alloc, &mut table, steps);
}

const PUT_ONCE: [(Call, Answer); 8] = [
    (ByteAt(0x10, 0), Byte(None)),
    (PutZero(0x10), Done),
    (PutZero(0x10), Refused),
    (Put(0x10, 7), Refused),
    (ByteAt(0x10, 4095), Byte(Some(0))),
    (Put(0x11, 7), Done),
    (Put(0x11, 8), Refused),
    (ByteAt(0x11, 4095), Byte(Some(7))),
];

#[test]
fn a_present_page_is_not_put_again(rt: HostRuntime) {
    play(&rt, rt.alloc(), &PUT_ONCE);
}

const WRITES: [(Call, Answer); 15] = [
    (Put(0x10, 7), Done),
    (Put(0x11, 7), Done),
    (Protect(0x11), Done),
    (Write(0x11, 0x20, [1, 2, 3]), Done),
    (WriteOne(0x11, 4095, 4), Done),
    (ByteAt(0x11, 0x1f), Byte(Some(7))),
    (ByteAt(0x11, 0x20), Byte(Some(1))),
    (ByteAt(0x11, 0x21), Byte(Some(2))),
    (ByteAt(0x11, 0x22), Byte(Some(3))),
    (ByteAt(0x11, 0x23), Byte(Some(7))),
    (ByteAt(0x11, 4094), Byte(Some(7))),
    (ByteAt(0x11, 4095), Byte(Some(4))),
    (ByteAt(0x10, 0x20), Byte(Some(7))),
    (ByteAt(0x12, 0x20), Byte(None)),
    (IsProtected(0x11), Is(true)),
];

#[test]
fn a_write_leaves_its_neighbours(rt: HostRuntime) {
    play(&rt, rt.alloc(), &WRITES);
}

/// Pages of zeros: stores of zeros and of other bytes, and a store to a missing page.
const ZEROS: [(Call, Answer); 19] = [
    (PutZero(0x10), Done),
    (PutZero(0x11), Done),
    (Protect(0x11), Done),
    (Write(0x10, 0x20, [0, 0, 0]), Done),
    (ByteAt(0x10, 0x20), Byte(Some(0))),
    (Write(0x10, 0x20, [0, 5, 0]), Done),
    (ByteAt(0x10, 0x20), Byte(Some(0))),
    (ByteAt(0x10, 0x21), Byte(Some(5))),
    (ByteAt(0x10, 0), Byte(Some(0))),
    (ByteAt(0x11, 0x21), Byte(Some(0))),
    (WriteOne(0x11, 0, 6), Done),
    (ByteAt(0x11, 0), Byte(Some(6))),
    (IsProtected(0x11), Is(true)),
    (WriteOne(0x12, 0, 0), Done),
    (WriteOne(0x20, 4095, 7), Done),
    (ByteAt(0x20, 4095), Byte(Some(7))),
    (Present(0x12), Among(true, 4)),
    (ReplaceByZeros(0x11), Done),
    (ByteAt(0x11, 0), Byte(Some(0))),
];

#[test]
fn a_store_gives_a_page_of_zeros_bytes(rt: HostRuntime) {
    play(&rt, rt.alloc(), &ZEROS);
}

const REPLACED: [(Call, Answer); 10] = [
    (Put(0x10, 7), Done),
    (Put(0x11, 7), Done),
    (Protect(0x11), Done),
    (IsProtected(0x11), Is(true)),
    (Replace(0x11, 9), Done),
    (ByteAt(0x11, 0), Byte(Some(9))),
    (ByteAt(0x11, 4095), Byte(Some(9))),
    (IsProtected(0x11), Is(false)),
    (ByteAt(0x10, 4095), Byte(Some(7))),
    (ByteAt(0x12, 0), Byte(None)),
];

#[test]
fn a_replaced_page_has_the_new_bytes(rt: HostRuntime) {
    play(&rt, rt.alloc(), &REPLACED);
}

const MOVED: [(Call, Answer); 11] = [
    (PutZero(0x10), Done),
    (Protect(0x10), Done),
    (Move(0x10, 0x20, 1), Done),
    (ByteAt(0x20, 0), Byte(Some(0))),
    (IsProtected(0x20), Is(true)),
    (ByteAt(0x10, 0), Byte(None)),
    (Unprotect(0x20), Done),
    (IsProtected(0x20), Is(false)),
    (ByteAt(0x20, 0), Byte(Some(0))),
    (Move(0x20, 0x11, 1), Done),
    (ByteAt(0x11, 0), Byte(Some(0))),
];

#[test]
fn a_moved_page_takes_its_protection(rt: HostRuntime) {
    play(&rt, rt.alloc(), &MOVED);
}

/// Two pages on both sides of a leaf's border go to another such pair.
const ACROSS_LEAVES: [(Call, Answer); 18] = [
    (PutZero(0x3ff), Done),
    (Put(0x400, 7), Done),
    (Protect(0x3ff), Done),
    (Move(0x3ff, 0x7ff, 2), Done),
    (IsProtected(0x7ff), Is(true)),
    (IsProtected(0x800), Is(false)),
    (ByteAt(0x7ff, 0), Byte(Some(0))),
    (ByteAt(0x800, 0), Byte(Some(7))),
    (ByteAt(0x3ff, 0), Byte(None)),
    (ByteAt(0x400, 0), Byte(None)),
    (Present(0x7ff), Among(true, 2)),
    (Present(0x800), Among(true, 2)),
    (Present(0x3ff), Among(false, 2)),
    (DropRange(0x7ff, 1), Done),
    (ByteAt(0x7ff, 0), Byte(None)),
    (IsProtected(0x7ff), Is(false)),
    (ByteAt(0x800, 0), Byte(Some(7))),
    (Present(0x800), Among(true, 1)),
];

#[test]
fn pages_move_across_leaves(rt: HostRuntime) {
    play(&rt, rt.alloc(), &ACROSS_LEAVES);
}

/// A run across a leaf's border, over a page that is present and protected.
const PUT_IN_A_RUN: [(Call, Answer); 9] = [
    (Put(0x400, 7), Done),
    (Protect(0x400), Done),
    (PutRun(0x3ff, [1, 2]), Done),
    (ByteAt(0x3ff, 0), Byte(Some(1))),
    (ByteAt(0x3ff, 4095), Byte(Some(1))),
    (ByteAt(0x400, 0), Byte(Some(2))),
    (ByteAt(0x400, 4095), Byte(Some(2))),
    (IsProtected(0x400), Is(false)),
    (Present(0x3ff), Among(true, 2)),
];

#[test]
fn a_run_of_pages_is_put(rt: HostRuntime) {
    play(&rt, rt.alloc(), &PUT_IN_A_RUN);
}
