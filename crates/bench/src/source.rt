//! A source on which pages are stored, and the sending of them.

use mig_base::effect::Effect;
use mig_base::refusal::Refusal;
use mig_base::{Addr, Command, PAGE_SIZE, Place, Prot, Reply};
use precopy::Source;

/// Makes a command of the only processor, and gives the address that it is answered, or 0.
fn command(source: &mut Source, command: Command) -> Result<Addr, Refusal> {
    let tried = source.issue(0, command)?;
    Ok(match tried.effect {
        Effect::Answered {
            reply: Reply::At(addr),
            ..
        } => addr,
        _ => 0,
    })
}

/// Maps this many pages, and stores something in each.
fn store(source: &mut Source, pages: u32) -> Result<(), Refusal> {
    let first = command(
        source,
        Command::Mmap {
            addr_len: u64::from(pages) * PAGE_SIZE,
            prot: Prot::ReadWrite,
            place: Place::Anywhere,
        },
    )?;
    for page in 0..u64::from(pages) {
        let store = Command::Store {
            addr: first.wrapping_add(page * PAGE_SIZE),
            width: 8,
            value: page + 1,
        };
        command(source, store)?;
    }
    Ok(())
}

/// Puts something on this many pages of a new source, of one processor, and begins a migration.
pub fn start(source: &mut Source, pages: u32) -> Result<(), Refusal> {
    store(source, pages)?;
    source.start()?;
    Ok(())
}

/// Sends this many pages of the round.
pub fn send(source: &mut Source, pages: u32) -> Result<(), Refusal> {
    for _ in 0..pages {
        source.send_next()?;
    }
    Ok(())
}
