//! Which entries stored a value.

use mig_base::{Command, Entry, NoMemory, Reply};
use std::alloc::Global;

/// The most entries that are named.
pub(crate) const MAX_STORES: usize = 8;

/// The lowest `width` bytes of a value.
fn low_bytes(value: u64, width: u8) -> u64 {
    match width {
        1 => value & 0xff,
        2 => value & 0xffff,
        4 => value & 0xffff_ffff,
        _ => value,
    }
}

/// Whether a load of `width` bytes from somewhere in a stored value, or of more bytes from its beginning, gives this value.
fn shows(stored: u64, by: u8, value: u64, width: u8) -> bool {
    let mut rest = stored;
    for _ in 0..by {
        if rest != 0 && low_bytes(rest, width) == value {
            return true;
        }
        if width >= by {
            return false;
        }
        rest >>= 8;
    }
    false
}

/// Whether an entry stored a value that a load of `width` bytes may have read.
fn is_store_of(entry: &Entry, value: u64, width: u8) -> bool {
    match (entry.command, entry.reply) {
        (
            Command::Store {
                addr: _,
                width: by,
                value: stored,
            },
            Reply::Done,
        ) => shows(stored, by, value, width),
        _ => false,
    }
}

/// The indexes of the entries that stored a value which a load of `width` bytes has read, in order: the last ones before the load, or if
/// there is none the first ones after it.
#[derive(Drop)]
pub(crate) struct Stores {
    pub(crate) indexes: Vec<usize>,
    /// Whether they come after the load.
    pub(crate) are_later: bool,
}

/// The indexes from `first` on of the entries that stored a value, at most [`MAX_STORES`]: the last of them, or the first.
fn stores_in(
    alloc: Global,
    entries: &[Entry],
    first: usize,
    value: u64,
    width: u8,
    are_later: bool,
) -> Result<Vec<usize>, NoMemory> {
    let mut found = Vec::new(alloc);
    for (index, entry) in entries.iter().enumerate() {
        if is_store_of(entry, value, width) {
            if found.len() == MAX_STORES {
                if are_later {
                    break;
                }
                found.remove(0);
            }
            found.push(first.saturating_add(index))?;
        }
    }
    Ok(found)
}

/// Which of all entries stored the value that the load at this index has read.
pub(crate) fn stores_of(
    alloc: Global,
    entries: &[Entry],
    index: usize,
    value: u64,
    width: u8,
) -> Result<Stores, NoMemory> {
    let past = entries.get(..index).unwrap_or(&[]);
    let indexes = stores_in(alloc, past, 0, value, width, false)?;
    if !indexes.is_empty() {
        return Ok(Stores {
            indexes,
            are_later: false,
        });
    }
    let later = entries.get(index..).unwrap_or(&[]);
    Ok(Stores {
        indexes: stores_in(alloc, later, index, value, width, true)?,
        are_later: true,
    })
}
