//! Values of a location that cannot have been there one after the other.

use crate::chains::{Conflict, Kind, Member};
use crate::clocks::MOST;
use history::{Contradiction, Value};
use mig_base::NoMemory;
use std::alloc::Global;

/// The number of the member that ended first, of those from `from` on and before `to`.
fn first_ended(order: &[Member], from: usize, to: usize) -> usize {
    let mut best = from;
    let mut end = u64::MAX;
    for (number, member) in order.iter().enumerate().take(to).skip(from) {
        if member.end < end {
            end = member.end;
            best = number;
        }
    }
    best
}

/// The number of the member that began last, of those from `from` on and before `to`.
fn last_begun(order: &[Member], from: usize, to: usize) -> usize {
    let mut best = from;
    let mut begin = 0;
    for (number, member) in order.iter().enumerate().take(to).skip(from) {
        if member.begin > begin {
            begin = member.begin;
            best = number;
        }
    }
    best
}

/// Adds the values from that which the member at `late` saw to that which the one at `early` saw: each is what an exchange put in the place
/// of the one before it.
fn push_values(
    values: &mut Vec<Value>,
    order: &[Member],
    late: usize,
    early: usize,
) -> Result<(), NoMemory> {
    let (Some(first), Some(last)) = (order.get(late), order.get(early)) else {
        return Ok(());
    };
    let end = last.index as usize;
    values.push(Value {
        source: first.source as usize,
        early: end,
        late: first.index as usize,
    })?;
    if last.index == first.source {
        return Ok(());
    }
    for member in order.iter().take(early).skip(late) {
        if member.kind == Kind::Swap && member.finds != last.finds {
            let index = member.index as usize;
            values.push(Value {
                source: index,
                early: end,
                late: index,
            })?;
        }
    }
    Ok(())
}

/// The number of the first member that saw the value of the one at a number.
fn first_of(order: &[Member], at: usize) -> usize {
    let mut first = at;
    let Some(member) = order.get(at) else {
        return at;
    };
    for number in (0..at).rev() {
        let Some(before) = order.get(number) else {
            return first;
        };
        if before.index != member.source && before.finds != member.finds {
            return first;
        }
        first = number;
        if before.index == member.source {
            return first;
        }
    }
    first
}

/// The number after the last member that saw the value of the one at a number.
fn end_of(order: &[Member], at: usize) -> usize {
    let mut end = at;
    let Some(first) = order.get(at) else {
        return at;
    };
    for member in order.iter().skip(at) {
        if member.finds != first.finds {
            return end;
        }
        end = end.saturating_add(1);
    }
    end
}

/// Adds the values between two chains, of which that of the member at `last` comes first.
fn push_both(
    values: &mut Vec<Value>,
    order: &[Member],
    conflict: Conflict,
) -> Result<(), NoMemory> {
    let from = first_of(order, conflict.last);
    let early = first_ended(order, from, conflict.last_chain.end);
    let to = end_of(order, conflict.first);
    let late = last_begun(order, conflict.first_chain.start, to);
    push_values(values, order, conflict.last, early)?;
    push_values(values, order, late, conflict.first)
}

/// Adds the values between two members of one chain.
fn push_one(values: &mut Vec<Value>, order: &[Member], conflict: Conflict) -> Result<(), NoMemory> {
    push_values(values, order, conflict.last, conflict.first)?;
    if values.len() == 1
        && let Some(member) = order.get(conflict.first)
    {
        let index = member.index as usize;
        values.push(Value {
            source: index,
            early: index,
            late: index,
        })?;
    }
    Ok(())
}

/// Adds the contradiction that two members of a location conflict, whose values, and those between them, were there one after the other.
pub(crate) fn push_cycle(
    alloc: Global,
    found: &mut Vec<Contradiction>,
    order: &[Member],
    conflict: Conflict,
    place: u64,
    size: u8,
) -> Result<(), NoMemory> {
    let mut values = Vec::new(alloc);
    if conflict.first_chain.start == conflict.last_chain.start {
        push_one(&mut values, order, conflict)?;
    } else {
        push_both(&mut values, order, conflict)?;
    }
    found.push(Contradiction::Cycle {
        place,
        size,
        values,
    })?;
    Ok(())
}

/// The exchange that found a value, of members that are sorted by the values that they found.
fn exchange_of(members: &[Member], value: u64) -> Option<Member> {
    let end = members.partition_point(|member| member.finds <= value);
    let last = members.get(end.checked_sub(1)?)?;
    if last.kind == Kind::Swap && last.finds == value {
        Some(*last)
    } else {
        None
    }
}

/// The exchanges that follow each other from one to itself, each of which found what the one before it left. None if there is no such round
/// of at most `most`.
fn round_of(
    alloc: Global,
    members: &[Member],
    first: Member,
    most: usize,
) -> Result<Option<Vec<Value>>, NoMemory> {
    let mut values = Vec::new(alloc);
    let mut last = first;
    for _ in 0..most {
        let index = last.index as usize;
        values.push(Value {
            source: index,
            early: index,
            late: index,
        })?;
        let Some(next) = exchange_of(members, last.shows) else {
            return Ok(None);
        };
        if next.index == first.index {
            return Ok(Some(values));
        }
        last = next;
    }
    Ok(None)
}

/// Adds the contradiction that exchanges found what each other left, if there are such among members that are sorted by the values that they
/// found.
pub(crate) fn push_round(
    alloc: Global,
    found: &mut Vec<Contradiction>,
    members: &[Member],
    place: u64,
    size: u8,
) -> Result<(), NoMemory> {
    for member in members {
        if member.kind != Kind::Swap {
            continue;
        }
        if let Some(values) = round_of(alloc, members, *member, MOST)? {
            found.push(Contradiction::Cycle {
                place,
                size,
                values,
            })?;
            return Ok(());
        }
    }
    Ok(())
}
