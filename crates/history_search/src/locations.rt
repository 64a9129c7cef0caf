//! One location after the other.

use crate::chains::{
    Chain, Conflict, Kind, Member, Placement, list_chains, place_chains, sort_by_values,
};
use crate::clocks::MOST;
use crate::cycles::{push_cycle, push_round};
use crate::late::push_late;
use crate::layout::lay_out;
use history::{Contradiction, Operation};
use mig_base::NoMemory;
use std::alloc::Global;

/// Why nothing is proposed.
#[derive(Clone, Copy, PartialEq, Eq)]
pub enum Doubt {
    /// At this address a value was stored twice, or 0 was, and no order was found step by step.
    Repeats(u64),
    /// At this address an access, or a map call, overlaps a map call on its page, and no order was found step by step.
    Overlaps(u64),
    /// There are too many map calls on pages that are accessed.
    Calls,
    /// Operations of a thread share ticks, and no order was found step by step that has them as the thread made them.
    Threads,
    /// No order was found at this address, and no contradiction that can be checked.
    Unexplained(u64),
}

/// An operation that left a value.
#[derive(Clone, Copy)]
struct LastValue {
    value: u64,
    begin: u64,
    end: u64,
    index: u32,
}

/// What was found so far.
#[derive(Drop)]
pub(crate) struct SearchState {
    pub(crate) placed: Vec<Placement>,
    pub(crate) contradictions: Vec<Contradiction>,
    pub(crate) doubt: Option<Doubt>,
    /// How many steps may still be tried.
    budget: u64,
    /// What is known of the last location, kept for its room.
    chains: Vec<Chain>,
    order: Vec<Member>,
    left: Vec<LastValue>,
}

/// How many operations that left one value are looked at.
const FEW: usize = 16;

/// The index of the map call at which the members of a location begin.
fn call_of(members: &[Member]) -> Option<u32> {
    for member in members {
        if member.kind <= Kind::Map {
            return Some(member.index);
        }
    }
    None
}

/// Removes the map calls, and the loads of zeros: which call left them is not known. An exchange that found zeros is then as a store.
fn leave_zeros(members: &mut Vec<Member>) {
    members.retain(|member| member.kind > Kind::Map
        && (member.finds != 0 || member.kind == Kind::Swap));
    for member in members.iter_mut() {
        if member.finds == 0 {
            member.finds = member.shows;
            member.source = member.index;
            member.kind = Kind::Store;
        }
    }
}

impl SearchState {
    /// Nothing was found. At most `budget` steps may be tried.
    pub(crate) fn new(alloc: Global, budget: u64) -> SearchState {
        SearchState {
            placed: Vec::new(alloc),
            contradictions: Vec::new(alloc),
            doubt: None,
            budget,
            chains: Vec::new(alloc),
            order: Vec::new(alloc),
            left: Vec::new(alloc),
        }
    }

    /// Adds a contradiction, if there are not too many.
    fn push(&mut self, reader: u32, between: Option<u32>) -> Result<(), NoMemory> {
        if self.contradictions.len() < MOST {
            let between = match between {
                Some(index) => Some(index as usize),
                None => None,
            };
            self.contradictions.push(Contradiction::NoSource {
                reader: reader as usize,
                between,
            })?;
        }
        Ok(())
    }

    /// Lists what was left at the location by value. Whether no value was left twice.
    fn list_left(&mut self, members: &[Member]) -> Result<bool, NoMemory> {
        self.left.clear();
        for member in members {
            if member.kind != Kind::Load && member.kind != Kind::Unmap {
                self.left.push(LastValue {
                    value: member.shows,
                    begin: member.begin,
                    end: member.end,
                    index: member.index,
                })?;
            }
        }
        self.left
            .sort_unstable_by_key(|left| (left.value, left.begin));
        let mut before = None;
        for left in &self.left {
            if before == Some(left.value) {
                return Ok(false);
            }
            before = Some(left.value);
        }
        Ok(true)
    }

    /// The first operation that left a value, with the last end of those that did.
    fn source_of(&self, value: u64) -> Option<LastValue> {
        let at = self.left.partition_point(|left| left.value < value);
        let mut source: Option<LastValue> = None;
        for (count, left) in self.left.iter().skip(at).enumerate() {
            if left.value != value {
                break;
            }
            source = match source {
                None => Some(*left),
                Some(first) if count < FEW => Some(LastValue {
                    end: first.end.max(left.end),
                    ..first
                }),
                Some(first) => {
                    return Some(LastValue {
                        end: u64::MAX,
                        ..first
                    });
                }
            };
        }
        source
    }

    /// Adds a contradiction for each operation that found a value which nobody had left. Sets the sources of the others.
    fn push_unsourced(&mut self, members: &mut [Member]) -> Result<(), NoMemory> {
        let call = call_of(members);
        for member in members.iter_mut() {
            if member.kind <= Kind::Store {
                continue;
            }
            match self.source_of(member.finds) {
                Some(left) => {
                    member.source = left.index;
                    member.source_end = left.end;
                    if member.end < left.begin {
                        self.push(member.index, None)?;
                    }
                }
                None => {
                    self.push(member.index, None)?;
                    if call.is_some() {
                        self.push(member.index, call)?;
                    }
                }
            }
        }
        Ok(())
    }

    /// Adds a contradiction for each two exchanges that found one value.
    fn push_forks(&mut self, members: &[Member]) -> Result<(), NoMemory> {
        let mut before: Option<Member> = None;
        for member in members {
            if let Some(first) = before
                && first.kind == Kind::Swap
                && first.finds == member.finds
                && self.contradictions.len() < MOST
            {
                self.contradictions.push(Contradiction::Fork {
                    source: member.source as usize,
                    first: first.index as usize,
                    second: member.index as usize,
                })?;
            }
            before = Some(*member);
        }
        Ok(())
    }

    /// Places a location at which no value was left twice, as its chains follow each other. Nothing comes if it could be, and two members
    /// that conflict if there are such.
    fn place_chains(
        &mut self,
        members: &[Member],
    ) -> Result<Result<(), Option<Conflict>>, NoMemory> {
        self.chains.clear();
        self.order.clear();
        list_chains(&mut self.chains, &mut self.order, members)?;
        let conflict = place_chains(&mut self.placed, &self.order, &self.chains)?;
        if conflict.is_some() || self.order.len() != members.len() {
            return Ok(Err(conflict));
        }
        Ok(Ok(()))
    }

    /// Places operations step by step, but for those at the indices in `fixed`. Whether an order was found.
    pub(crate) fn place_steps(
        &mut self,
        alloc: Global,
        operations: &[Operation],
        indices: &[u32],
        fixed: &[u32],
    ) -> Result<bool, NoMemory> {
        let Some(mut board) = lay_out(alloc, operations, indices, fixed)? else {
            return Ok(false);
        };
        let solved = board.solve(&mut self.budget)?;
        if solved {
            board.place_moves(&mut self.placed)?;
        }
        Ok(solved)
    }

    /// Places the members of a location step by step. Whether an order was found.
    fn place_members(
        &mut self,
        alloc: Global,
        operations: &[Operation],
        members: &[Member],
    ) -> Result<bool, NoMemory> {
        let mut indices = Vec::with_capacity(alloc, members.len())?;
        for member in members {
            indices.push(member.index)?;
        }
        let fixed: Vec<u32> = match call_of(members) {
            Some(call) => vec![in alloc; call; 1]?,
            None => Vec::new(alloc),
        };
        self.place_steps(alloc, operations, &indices, &fixed)
    }

    /// Adds what contradicts every order at a location that could not be placed as its chains follow each other.
    fn push_reasons(
        &mut self,
        alloc: Global,
        addr: u64,
        size: u8,
        members: &mut [Member],
        conflict: Option<Conflict>,
    ) -> Result<(), NoMemory> {
        let before = self.contradictions.len();
        self.push_forks(members)?;
        if self.contradictions.len() == before {
            push_late(alloc, &mut self.contradictions, members)?;
        }
        if self.contradictions.len() != before {
            return Ok(());
        }
        let found = &mut self.contradictions;
        match conflict {
            Some(conflict) => push_cycle(alloc, found, &self.order, conflict, addr, size),
            None => {
                sort_by_values(members);
                push_round(alloc, found, members, addr, size)
            }
        }
    }

    /// Takes a location at which each value was left once, and those that were found were left.
    fn take_distinct(
        &mut self,
        alloc: Global,
        addr: u64,
        size: u8,
        members: &mut [Member],
    ) -> Result<(), NoMemory> {
        sort_by_values(members);
        let Err(conflict) = self.place_chains(members)? else {
            return Ok(());
        };
        let before = self.contradictions.len();
        self.push_reasons(alloc, addr, size, members, conflict)?;
        if self.contradictions.len() == before {
            self.doubt = Some(Doubt::Unexplained(addr));
        }
        Ok(())
    }

    /// Adds what contradicts every order at a location of a page on which calls overlap accesses, for which no order was found. The members
    /// are those of all times, with all calls on the page.
    pub(crate) fn take_tangled(
        &mut self,
        alloc: Global,
        addr: u64,
        size: u8,
        members: &mut Vec<Member>,
    ) -> Result<(), NoMemory> {
        let before = self.contradictions.len();
        self.list_left(members)?;
        self.push_unsourced(members)?;
        push_late(alloc, &mut self.contradictions, members)?;
        if self.contradictions.len() == before {
            leave_zeros(members);
            if self.list_left(members)? {
                self.take_distinct(alloc, addr, size, members)?;
            }
        }
        self.doubt = Some(Doubt::Overlaps(addr));
        Ok(())
    }

    /// Takes the operations at one address between two map calls on its page, the first of which is among them.
    pub(crate) fn take_location(
        &mut self,
        alloc: Global,
        operations: &[Operation],
        addr: u64,
        size: u8,
        members: &mut [Member],
    ) -> Result<(), NoMemory> {
        let distinct = self.list_left(members)?;
        let before = self.contradictions.len();
        self.push_unsourced(members)?;
        if self.contradictions.len() != before {
            return Ok(());
        }
        if distinct {
            return self.take_distinct(alloc, addr, size, members);
        }
        if self.place_members(alloc, operations, members)? {
            return Ok(());
        }
        push_late(alloc, &mut self.contradictions, members)?;
        if self.contradictions.len() == before {
            self.doubt = Some(Doubt::Repeats(addr));
        }
        Ok(())
    }
}
