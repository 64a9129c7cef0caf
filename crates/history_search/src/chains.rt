//! The values at one location between two map calls on its page, and their order.

use history::{Action, Operation};
use mig_base::NoMemory;

/// What an operation does at its location, in the order in which operations that see one value do it.
#[derive(Clone, Copy, PartialEq, Eq, PartialOrd, Ord)]
pub(crate) enum Kind {
    /// A map call on its page that leaves nothing there, and one that leaves zeros.
    Unmap,
    Map,
    Store,
    Load,
    Swap,
}

/// An operation at its location.
#[derive(Clone, Copy)]
pub(crate) struct Member {
    pub(crate) begin: u64,
    pub(crate) end: u64,
    /// The value that it found; if it finds none, the one that it left.
    pub(crate) finds: u64,
    /// The value that is there after it: some number if nothing is.
    pub(crate) shows: u64,
    /// When the operation that left what it found had ended: 0 if that is not known.
    pub(crate) source_end: u64,
    /// The index of that operation.
    pub(crate) source: u32,
    pub(crate) index: u32,
    pub(crate) kind: Kind,
}

/// A place in time for the operation at an index.
#[derive(Clone, Copy)]
pub(crate) struct Placement {
    pub(crate) place: u64,
    pub(crate) index: u32,
}

/// A value and those that exchanges put in its place one after the other, with the operations that found or left them. They are there with
/// no other value between them.
#[derive(Clone, Copy)]
pub(crate) struct Chain {
    /// The number of the first of its members, in their order, and of the one after its last.
    pub(crate) start: usize,
    pub(crate) end: usize,
    /// The first tick at which one of them had ended, and the last at which one began.
    first_end: u64,
    last_begin: u64,
}

/// Two members of which the one at `last` began when the one at `first` had ended, although `last` comes before `first`.
#[derive(Clone, Copy)]
pub(crate) struct Conflict {
    pub(crate) first: usize,
    pub(crate) last: usize,
    /// Their chains.
    pub(crate) first_chain: Chain,
    pub(crate) last_chain: Chain,
}

/// An access as a member of its location, or a map call as one of a location on its pages.
fn member_of(operation: &Operation, index: u32) -> Member {
    let (kind, finds, shows) = match operation.action {
        Action::Load { value, .. } => (Kind::Load, value, value),
        Action::Store { value, .. } => (Kind::Store, value, value),
        Action::Swap { value, found, .. } => (Kind::Swap, found, value),
        Action::Map { .. } | Action::Discard { .. } => (Kind::Map, 0, 0),
        Action::Unmap { .. } => (Kind::Unmap, u64::MAX, u64::MAX),
    };
    Member {
        begin: operation.begin,
        end: operation.end,
        finds,
        shows,
        source_end: 0,
        source: index,
        index,
        kind,
    }
}

/// The width of an access.
pub(crate) fn width_of(operations: &[Operation], index: u32) -> u8 {
    match operations.get(index as usize) {
        Some(operation) => match operation.action {
            Action::Load { width, .. } | Action::Store { width, .. } | Action::Swap { width, .. } =>
                width,
            _ => 0,
        },
        None => 0,
    }
}

/// Adds the operation at an index as a member of a location.
pub(crate) fn push_member(
    members: &mut Vec<Member>,
    operations: &[Operation],
    index: u32,
) -> Result<(), NoMemory> {
    if let Some(operation) = operations.get(index as usize) {
        members.push(member_of(operation, index))?;
    }
    Ok(())
}

/// Sorts members by the values that they found. Of those that found one value, or left it, a store comes first and an exchange last.
pub(crate) fn sort_by_values(members: &mut [Member]) {
    members.sort_unstable_by_key(|member| (
        member.finds,
        member.kind,
        member.begin,
        member.end,
        member.index,
    ));
}

/// Adds the members that found a value to their order. Returns the value that an exchange put in its place, if one did.
fn push_value(
    order: &mut Vec<Member>,
    chain: &mut Chain,
    members: &[Member],
    value: u64,
) -> Result<Option<u64>, NoMemory> {
    let from = members.partition_point(|member| member.finds < value);
    for member in members.iter().skip(from) {
        if member.finds != value {
            break;
        }
        chain.first_end = chain.first_end.min(member.end);
        chain.last_begin = chain.last_begin.max(member.begin);
        order.push(*member)?;
        if member.kind == Kind::Swap {
            return Ok(Some(member.shows));
        }
    }
    Ok(None)
}

/// Adds the members of the chain that begins with a value to their order.
fn push_chain(order: &mut Vec<Member>, members: &[Member], first: u64) -> Result<Chain, NoMemory> {
    let mut chain = Chain {
        start: order.len(),
        end: 0,
        first_end: u64::MAX,
        last_begin: 0,
    };
    let mut value = first;
    for _ in 0..members.len() {
        match push_value(order, &mut chain, members, value)? {
            Some(shown) => value = shown,
            None => break,
        }
    }
    chain.end = order.len();
    Ok(chain)
}

/// Lists the chains of a location, and its members in their order: sorted by values they are given. The chains are in the order of their
/// zones: from the first end to the last begin where that comes later, and else by the last begin.
pub(crate) fn list_chains(
    chains: &mut Vec<Chain>,
    order: &mut Vec<Member>,
    members: &[Member],
) -> Result<(), NoMemory> {
    let mut before = None;
    for member in members {
        if before == Some(member.finds) {
            continue;
        }
        before = Some(member.finds);
        if member.kind <= Kind::Store {
            let chain = push_chain(order, members, member.finds)?;
            chains.push(chain)?;
        }
    }
    chains.sort_unstable_by_key(|chain| {
        let is_forward = chain.first_end < chain.last_begin;
        (chain.first_end.min(chain.last_begin), is_forward)
    });
    Ok(())
}

/// How far a location is placed.
#[derive(Clone, Copy)]
struct Progress {
    /// The last tick so far at which a member began.
    place: u64,
    /// That member, and its chain.
    last: usize,
    chain: Chain,
}

/// Adds a place for each member of a chain: the last tick so far at which one of the location began. Two members conflict if one had ended
/// by its place.
fn place_chain(
    placed: &mut Vec<Placement>,
    order: &[Member],
    chain: Chain,
    reached: &mut Progress,
) -> Result<Option<Conflict>, NoMemory> {
    let mut first = chain.start;
    for member in order.iter().take(chain.end).skip(chain.start) {
        if reached.place < member.begin {
            reached.place = member.begin;
            reached.last = first;
            reached.chain = chain;
        }
        if member.end < reached.place {
            return Ok(Some(Conflict {
                first,
                last: reached.last,
                first_chain: chain,
                last_chain: reached.chain,
            }));
        }
        if member.kind >= Kind::Store {
            placed.push(Placement {
                place: reached.place,
                index: member.index,
            })?;
        }
        first = first.saturating_add(1);
    }
    Ok(None)
}

/// Adds a place for each member of a location, as the chains follow each other, until two conflict.
pub(crate) fn place_chains(
    placed: &mut Vec<Placement>,
    order: &[Member],
    chains: &[Chain],
) -> Result<Option<Conflict>, NoMemory> {
    let Some(first) = chains.first() else {
        return Ok(None);
    };
    let mut reached = Progress {
        place: 0,
        last: 0,
        chain: *first,
    };
    for chain in chains {
        let conflict = place_chain(placed, order, *chain, &mut reached)?;
        if conflict.is_some() {
            return Ok(conflict);
        }
    }
    Ok(None)
}
