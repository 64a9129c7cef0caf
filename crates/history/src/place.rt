//! What an action found at an address, and what it left there.

ghost use Rattle.std.specs.Prelude.{◌≡◌, ◌≢◌, Some, None, true, IfSome};
ghost use Rattle.std.specs.Bool.{OnTrue};
ghost use Rattle.foundation.specs.Ranges.{in_range, rounded};
ghost use Rattle.history.specs.Contradictions as contradictions;
ghost use Rattle.history.specs.Contradictions.{Disturbs};

use crate::operation::{Action, Operation};
use mig_base::PAGE_SIZE;

/// What an operation read: a location of `size` bytes at the address `place`, and the value that it found there.
#[derive(Clone, Copy)]
pub(crate) struct ReadAt {
    pub(crate) place: u64,
    pub(crate) size: u8,
    pub(crate) value: u64,
}

/// Whether an address is in the pages of a range of that many bytes, rounded up to whole pages.
fn is_in_pages(addr: u64, len: u64, place: u64) -> bool
    ensures { result ≡ in_range addr (rounded len) place }
{
    let pages = len / PAGE_SIZE + u64::from(len % PAGE_SIZE != 0);
    place >= addr && (place - addr) / PAGE_SIZE < pages
}

/// The value that an action found at an address, if it reads there.
pub(crate) fn found_at(place: u64, action: Action) -> Option<u64>
    ensures { result ≡ contradictions.found_at place action }
{
    match action {
        Action::Load { addr, value, .. } if addr == place => Some(value),
        Action::Swap { addr, found, .. } if addr == place => Some(found),
        _ => None,
    }
}

/// What an action left at an address: a value, or nothing where it unmapped the page. None if it left there what was there.
pub(crate) fn left_at(place: u64, action: Action) -> Option<Option<u64>>
    ensures { result ≡ contradictions.left_at place action }
{
    match action {
        Action::Load { .. } => None,
        Action::Store { addr, value, .. } | Action::Swap { addr, value, .. } => {
            if addr == place {
                Some(Some(value))
            } else {
                None
            }
        }
        Action::Map { addr, len } | Action::Discard { addr, len } => {
            if is_in_pages(addr, len, place) {
                Some(Some(0))
            } else {
                None
            }
        }
        Action::Unmap { addr, len } => {
            if is_in_pages(addr, len, place) {
                Some(None)
            } else {
                None
            }
        }
    }
}

/// Whether an access of `width` bytes and a location of `size` bytes are the same bytes, or share none.
fn is_apart_or_same(place: u64, size: u8, addr: u64, width: u8) -> bool
    ensures { result ≡ contradictions.is_apart_or_same place size addr width }
{
    if addr == place {
        width == size
    } else if addr > place {
        addr - place >= u64::from(size)
    } else {
        place - addr >= u64::from(width)
    }
}

/// Whether an action is an access to the whole location, or to none of it, or a map call.
pub(crate) fn keeps_whole(place: u64, size: u8, action: Action) -> bool
    ensures { result ≡ contradictions.keeps_whole place size action }
{
    match action {
        Action::Load { addr, width, .. }
        | Action::Store { addr, width, .. }
        | Action::Swap { addr, width, .. } => is_apart_or_same(place, size, addr, width),
        _ => true,
    }
}

/// Whether an action left this value at an address.
pub(crate) fn leaves(place: u64, value: u64, action: Action) -> bool
    ensures all { contradictions.left_at place action ≡ Some (Some value) → result ≡ true }
    ensures only { OnTrue result (contradictions.left_at place action ≡ Some (Some value)) }
{
    match left_at(place, action) {
        Some(Some(left)) => left == value,
        _ => false,
    }
}

/// Whether an action changed what is at an address.
pub(crate) fn changes(place: u64, action: Action) -> bool
    ensures { OnTrue result (contradictions.left_at place action ≢ None) }
{
    match left_at(place, action) {
        Some(_) => true,
        None => false,
    }
}

/// Whether an operation left something at an address, or found another value there than this.
pub(crate) fn disturbs(place: u64, value: u64, operation: &Operation) -> bool
    ensures { OnTrue result (Disturbs place value operation.now) }
{
    if left_at(place, operation.action).is_some() {
        return true;
    }
    match found_at(place, operation.action) {
        Some(other) => other != value,
        None => false,
    }
}

/// What an action read; none if it read nothing.
pub(crate) fn read_of(action: Action) -> Option<ReadAt>
    ensures { IfSome result (λ read. contradictions.found_at read.place action ≡ Some read.value) }
{
    match action {
        Action::Load { addr, width, value } => {
            Some(ReadAt {
                place: addr,
                size: width,
                value,
            })
        }
        Action::Swap {
            addr,
            width,
            found,
            ..
        } => {
            Some(ReadAt {
                place: addr,
                size: width,
                value: found,
            })
        }
        _ => None,
    }
}
