//! The accesses of a history by their locations, and the map calls between them.

use history::{Action, Operation};
use mig_base::{NoMemory, PAGE_SIZE};
use std::alloc::Global;

/// An access of a history.
#[derive(Clone, Copy)]
pub(crate) struct Access {
    pub(crate) addr: u64,
    pub(crate) begin: u64,
    /// The index of its operation.
    pub(crate) index: u32,
    /// How many of all [`Call`]s are on an earlier page, or are on its page and began before it did.
    pub(crate) calls: u32,
}

/// A map call on a page.
#[derive(Clone, Copy)]
pub(crate) struct Call {
    pub(crate) page: u64,
    pub(crate) begin: u64,
    pub(crate) end: u64,
    /// The index of its operation.
    pub(crate) index: u32,
    /// Whether an access to the page, or another call on it, overlaps it.
    pub(crate) overlaps: bool,
}

/// A number that must fit, or the greatest.
pub(crate) fn short(number: usize) -> u32 {
    u32::try_from(number).unwrap_or(u32::MAX)
}

/// The address of an access; none for a map call.
fn address_of(action: Action) -> Option<u64> {
    match action {
        Action::Load { addr, .. } | Action::Store { addr, .. } | Action::Swap { addr, .. } => {
            Some(addr)
        }
        _ => None,
    }
}

/// The first page of a map call, and the page after its last; none for an access.
pub(crate) fn pages_of(action: Action) -> Option<(u64, u64)> {
    match action {
        Action::Map { addr, len } | Action::Unmap { addr, len } | Action::Discard { addr, len } => {
            let first = addr / PAGE_SIZE;
            let count = (len / PAGE_SIZE).saturating_add(u64::from(len % PAGE_SIZE != 0));
            Some((first, first.saturating_add(count)))
        }
        _ => None,
    }
}

/// The accesses, by their addresses, and those of an address as they began.
pub(crate) fn list_accesses(
    alloc: Global,
    operations: &[Operation],
) -> Result<Vec<Access>, NoMemory> {
    let mut accesses = Vec::new(alloc);
    for (index, operation) in operations.iter().enumerate() {
        if let Some(addr) = address_of(operation.action) {
            accesses.push(Access {
                addr,
                begin: operation.begin,
                index: short(index),
                calls: 0,
            })?;
        }
    }
    accesses.sort_unstable_by_key(|access| (access.addr, access.begin));
    Ok(accesses)
}

/// The pages that are accessed, each once, from the lowest on.
fn list_pages(alloc: Global, accesses: &[Access]) -> Result<Vec<u64>, NoMemory> {
    let mut pages: Vec<u64> = Vec::new(alloc);
    for access in accesses {
        let page = access.addr / PAGE_SIZE;
        if pages.last() != Some(&page) {
            pages.push(page)?;
        }
    }
    Ok(pages)
}

/// Adds a map call for each of the pages from `first` on and before `end`.
fn push_calls(
    calls: &mut Vec<Call>,
    pages: &[u64],
    range: (u64, u64),
    operation: &Operation,
    index: u32,
) -> Result<(), NoMemory> {
    let (first, end) = range;
    let from = pages.partition_point(|page| *page < first);
    for page in pages.iter().skip(from) {
        if *page >= end {
            break;
        }
        calls.push(Call {
            page: *page,
            begin: operation.begin,
            end: operation.end,
            index,
            overlaps: false,
        })?;
    }
    Ok(())
}

/// The map calls on pages that are accessed, by their pages, and those of a page as they began. None if there are more than `most`.
pub(crate) fn list_calls(
    alloc: Global,
    operations: &[Operation],
    accesses: &[Access],
    most: usize,
) -> Result<Option<Vec<Call>>, NoMemory> {
    let pages = list_pages(alloc, accesses)?;
    let mut calls = Vec::new(alloc);
    for (index, operation) in operations.iter().enumerate() {
        if let Some(range) = pages_of(operation.action) {
            push_calls(&mut calls, &pages, range, operation, short(index))?;
        }
        if calls.len() > most {
            return Ok(None);
        }
    }
    calls.sort_unstable_by_key(|call| (call.page, call.begin));
    Ok(Some(calls))
}

/// A map call on the page, if it is the one at this index.
pub(crate) fn call_on(calls: &[Call], at: usize, page: u64) -> Option<Call> {
    let call = *calls.get(at)?;
    if call.page == page { Some(call) } else { None }
}

/// Marks a call.
fn mark(calls: &mut [Call], number: usize) {
    if let Some(call) = calls.get_mut(number) {
        call.overlaps = true;
    }
}

/// Marks the calls that overlap another on their page.
pub(crate) fn mark_calls(calls: &mut [Call]) {
    // Of those on a page so far the one that ended last.
    let mut last = 0usize;
    for number in 1..calls.len() {
        let (Some(before), Some(call)) = (calls.get(last), calls.get(number)) else {
            return;
        };
        let overlaps = before.page == call.page && before.end >= call.begin;
        let ends_last = before.end < call.end;
        if overlaps {
            mark(calls, last);
            mark(calls, number);
        }
        if !overlaps || ends_last {
            last = number;
        }
    }
}

/// Sets between which calls an access is, and marks those that it overlaps.
fn count_calls(access: &mut Access, end: u64, calls: &mut [Call]) {
    let page = access.addr / PAGE_SIZE;
    let begin = access.begin;
    let count = calls.partition_point(|call| call.page < page
        || call.page == page && call.begin <= begin);
    access.calls = short(count);
    if count > 0
        && let Some(call) = calls.get_mut(count - 1)
        && call.page == page
        && call.end >= begin
    {
        call.overlaps = true;
    }
    for call in calls.iter_mut().skip(count) {
        if call.page != page || call.begin > end {
            break;
        }
        call.overlaps = true;
    }
}

/// Sets between which calls the accesses are, and marks the calls that one of them overlaps.
pub(crate) fn count_all_calls(
    accesses: &mut [Access],
    operations: &[Operation],
    calls: &mut [Call],
) {
    for access in accesses.iter_mut() {
        let end = match operations.get(access.index as usize) {
            Some(operation) => operation.end,
            None => access.begin,
        };
        count_calls(access, end, calls);
    }
}

/// The pages on which a call overlaps an access or another call, each once, from the lowest on.
pub(crate) fn list_tangled(alloc: Global, calls: &[Call]) -> Result<Vec<u64>, NoMemory> {
    let mut pages: Vec<u64> = Vec::new(alloc);
    for call in calls {
        if call.overlaps && pages.last() != Some(&call.page) {
            pages.push(call.page)?;
        }
    }
    Ok(pages)
}

/// The indices of the calls that overlap something, each once, from the lowest on.
pub(crate) fn list_overlapping(alloc: Global, calls: &[Call]) -> Result<Vec<u32>, NoMemory> {
    let mut indices: Vec<u32> = Vec::new(alloc);
    for call in calls {
        if call.overlaps {
            indices.push(call.index)?;
        }
    }
    indices.sort_unstable();
    Ok(indices)
}

/// The accesses of a history and its map calls, and where they overlap.
#[derive(Drop)]
pub(crate) struct Listed {
    /// Those to pages on which no call overlaps anything, and the others: by their addresses, and those of an address as they began.
    pub(crate) accesses: Vec<Access>,
    pub(crate) tangled: Vec<Access>,
    /// By their pages, and those of a page as they began.
    pub(crate) calls: Vec<Call>,
    /// The pages on which a call overlaps an access or another call, and the indices of such calls, from the lowest on.
    pub(crate) pages: Vec<u64>,
    overlapping: Vec<u32>,
}

impl Listed {
    /// Whether the call at an index overlaps nothing.
    pub(crate) fn is_apart(&self, index: u32) -> bool {
        self.overlapping.binary_search(&index).is_err()
    }
}

/// Lists the accesses and the map calls of a history. None if there are more than `most` calls on pages that are accessed.
pub(crate) fn list_all(
    alloc: Global,
    operations: &[Operation],
    most: usize,
) -> Result<Option<Listed>, NoMemory> {
    let mut all = list_accesses(alloc, operations)?;
    let Some(mut calls) = list_calls(alloc, operations, &all, most)? else {
        return Ok(None);
    };
    mark_calls(&mut calls);
    count_all_calls(&mut all, operations, &mut calls);
    let pages = list_tangled(alloc, &calls)?;
    let overlapping = list_overlapping(alloc, &calls)?;
    let mut tangled = Vec::new(alloc);
    if !pages.is_empty() {
        for access in &all {
            if pages.binary_search(&(access.addr / PAGE_SIZE)).is_ok() {
                tangled.push(*access)?;
            }
        }
        all.retain(|access| pages.binary_search(&(access.addr / PAGE_SIZE)).is_err());
    }
    Ok(Some(Listed {
        accesses: all,
        tangled,
        calls,
        pages,
        overlapping,
    }))
}
