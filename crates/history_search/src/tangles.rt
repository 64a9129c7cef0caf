//! Pages on which a map call overlaps an access, or another map call. Their operations are put into an order step by step.

use crate::accesses::{Access, Call, Listed, pages_of};
use crate::chains::{Member, push_member, width_of};
use crate::locations::SearchState;
use history::Operation;
use mig_base::{NoMemory, PAGE_SIZE};
use std::alloc::Global;

/// Some of those pages, with no call that overlaps something and is on another of them too.
#[derive(Drop)]
struct Tangle {
    /// The indices of the accesses to the pages and of the calls on them, and of those calls that overlap nothing.
    indices: Vec<u32>,
    fixed: Vec<u32>,
    /// The numbers of the first access and of the one after the last.
    start: usize,
    end: usize,
    /// The page after the last of those calls.
    reach: u64,
}

/// Adds a call to a tangle.
fn push_call(
    tangle: &mut Tangle,
    operations: &[Operation],
    listed: &Listed,
    call: Call,
) -> Result<(), NoMemory> {
    tangle.indices.push(call.index)?;
    if listed.is_apart(call.index) {
        tangle.fixed.push(call.index)?;
        return Ok(());
    }
    if let Some(operation) = operations.get(call.index as usize)
        && let Some((_, end)) = pages_of(operation.action)
    {
        tangle.reach = tangle.reach.max(end);
    }
    Ok(())
}

/// Adds the operations on a page.
fn push_page(
    tangle: &mut Tangle,
    operations: &[Operation],
    listed: &Listed,
    page: u64,
) -> Result<(), NoMemory> {
    let from = listed.calls.partition_point(|call| call.page < page);
    for call in listed.calls.iter().skip(from) {
        if call.page != page {
            break;
        }
        push_call(tangle, operations, listed, *call)?;
    }
    for access in listed.tangled.iter().skip(tangle.end) {
        if access.addr / PAGE_SIZE != page {
            break;
        }
        tangle.indices.push(access.index)?;
        tangle.end = tangle.end.saturating_add(1);
    }
    Ok(())
}

/// Whether an access is to this address, if there is one.
fn is_at(access: Option<Access>, addr: u64) -> bool {
    match access {
        Some(access) => access.addr == addr,
        None => false,
    }
}

/// Adds the calls on a page as members of a location.
fn push_members(
    members: &mut Vec<Member>,
    operations: &[Operation],
    listed: &Listed,
    page: u64,
) -> Result<(), NoMemory> {
    let from = listed.calls.partition_point(|call| call.page < page);
    for call in listed.calls.iter().skip(from) {
        if call.page != page {
            break;
        }
        push_member(members, operations, call.index)?;
    }
    Ok(())
}

/// Adds what contradicts every order at the location of an access. Its members are removed.
fn take_members(
    alloc: Global,
    found: &mut SearchState,
    operations: &[Operation],
    access: Access,
    members: &mut Vec<Member>,
) -> Result<(), NoMemory> {
    let width = width_of(operations, access.index);
    found.take_tangled(alloc, access.addr, width, members)?;
    members.clear();
    Ok(())
}

/// Adds what contradicts every order at the locations of a tangle.
fn push_reasons(
    alloc: Global,
    found: &mut SearchState,
    operations: &[Operation],
    listed: &Listed,
    tangle: &Tangle,
) -> Result<(), NoMemory> {
    let mut members: Vec<Member> = Vec::new(alloc);
    let mut last: Option<Access> = None;
    for access in listed.tangled.iter().take(tangle.end).skip(tangle.start) {
        if !is_at(last, access.addr) {
            if let Some(last) = last {
                take_members(alloc, found, operations, last, &mut members)?;
            }
            push_members(&mut members, operations, listed, access.addr / PAGE_SIZE)?;
        }
        push_member(&mut members, operations, access.index)?;
        last = Some(*access);
    }
    match last {
        Some(last) => take_members(alloc, found, operations, last, &mut members),
        None => Ok(()),
    }
}

/// Puts the operations of a tangle into an order, or adds what contradicts it. Then it has none.
fn take_tangle(
    alloc: Global,
    found: &mut SearchState,
    operations: &[Operation],
    listed: &Listed,
    tangle: &mut Tangle,
) -> Result<(), NoMemory> {
    tangle.indices.sort_unstable();
    tangle.indices.dedup();
    tangle.fixed.sort_unstable();
    let solved = found.place_steps(alloc, operations, &tangle.indices, &tangle.fixed)?;
    if !solved {
        push_reasons(alloc, found, operations, listed, tangle)?;
    }
    tangle.indices.clear();
    tangle.fixed.clear();
    tangle.start = tangle.end;
    Ok(())
}

/// Takes the locations on pages on which a call overlaps something.
pub(crate) fn take_tangles(
    alloc: Global,
    found: &mut SearchState,
    operations: &[Operation],
    listed: &Listed,
) -> Result<(), NoMemory> {
    let mut tangle = Tangle {
        indices: Vec::new(alloc),
        fixed: Vec::new(alloc),
        start: 0,
        end: 0,
        reach: 0,
    };
    for page in &listed.pages {
        if *page >= tangle.reach && !tangle.indices.is_empty() {
            take_tangle(alloc, found, operations, listed, &mut tangle)?;
        }
        push_page(&mut tangle, operations, listed, *page)?;
    }
    if tangle.indices.is_empty() {
        return Ok(());
    }
    take_tangle(alloc, found, operations, listed, &mut tangle)
}
