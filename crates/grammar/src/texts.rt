//! Printing commands and entries.

ghost use Rattle.std.specs.Prelude.{◌≡◌, ◌++◌, OnOk, OnErr, Some, string_bytes};
ghost use Rattle.grammar.specs.Texts.{prot_text, place_text, may_move_text, target_text, mmap_text, mremap_text, command_text, entry_text, entry_line};

use mig_base::{Addr, Command, Entry, NoMemory, Place, Prot};
use std::fmt;

/// The room that is allocated for a line, in bytes: more than most lines need.
const LINE: usize = 128;

/// The word of a protection.
#[derive(Clone, Copy)]
struct ProtText(Prot);

impl fmt::Display for ProtText {
    ghost output = { λ x. Some (prot_text x.0) };

    fn fmt<W: fmt::Write>(&self, f: &mut fmt::Formatter<W>) -> fmt::Result {
        match self.0 {
            Prot::NoAccess => write!(f, "none"),
            Prot::Read => write!(f, "r"),
            Prot::ReadWrite => write!(f, "rw"),
        }
    }
}

/// The words of a place, with a space before each.
#[derive(Clone, Copy)]
struct PlaceText(Place);

impl fmt::Display for PlaceText {
    ghost output = { λ x. Some (place_text x.0) };

    fn fmt<W: fmt::Write>(&self, f: &mut fmt::Formatter<W>) -> fmt::Result {
        match self.0 {
            Place::Anywhere => write!(f, ""),
            Place::Fixed(addr) => write!(f, " fixed 0x{addr:x}"),
            Place::NoReplace(addr) => write!(f, " noreplace 0x{addr:x}"),
        }
    }
}

/// The word that lets a range move, with a space before it; empty if the range may not move.
#[derive(Clone, Copy)]
struct MayMoveText(bool);

impl fmt::Display for MayMoveText {
    ghost output = { λ x. Some (may_move_text x.0) };

    fn fmt<W: fmt::Write>(&self, f: &mut fmt::Formatter<W>) -> fmt::Result {
        match self.0 {
            false => write!(f, ""),
            true => write!(f, " maymove"),
        }
    }
}

/// The words of a fixed target, with a space before each; empty if there is none.
#[derive(Clone, Copy)]
struct TargetText(Option<Addr>);

impl fmt::Display for TargetText {
    ghost output = { λ x. Some (target_text x.0) };

    fn fmt<W: fmt::Write>(&self, f: &mut fmt::Formatter<W>) -> fmt::Result {
        match self.0 {
            None => write!(f, ""),
            Some(addr) => write!(f, " fixed 0x{addr:x}"),
        }
    }
}

/// The words of a call of mmap, as a script has them.
#[derive(Clone, Copy)]
struct MmapText {
    len: u64,
    prot: Prot,
    place: Place,
}

impl fmt::Display for MmapText {
    ghost output = { λ x. Some (mmap_text x.len x.prot x.place) };

    fn fmt<W: fmt::Write>(&self, f: &mut fmt::Formatter<W>) -> fmt::Result {
        let len = self.len;
        let prot = ProtText(self.prot);
        let place = PlaceText(self.place);
        write!(f, "mmap {len} {prot}{place}")
    }
}

/// The words of a call of mremap, as a script has them.
#[derive(Clone, Copy)]
struct MremapText {
    addr: Addr,
    old_len: u64,
    new_len: u64,
    may_move: bool,
    fixed: Option<Addr>,
}

impl fmt::Display for MremapText {
    ghost output = { λ x. Some (mremap_text x.addr x.old_len x.new_len x.may_move x.fixed) };

    fn fmt<W: fmt::Write>(&self, f: &mut fmt::Formatter<W>) -> fmt::Result {
        let addr = self.addr;
        let old_len = self.old_len;
        let new_len = self.new_len;
        let may_move = MayMoveText(self.may_move);
        let target = TargetText(self.fixed);
        write!(f, "mremap 0x{addr:x} {old_len} {new_len}{may_move}{target}")
    }
}

/// The words of a command, as a script has them.
#[derive(Clone, Copy)]
pub(crate) struct CommandText(pub Command);

impl fmt::Display for CommandText {
    ghost output = { λ x. Some (command_text x.0) };

    fn fmt<W: fmt::Write>(&self, f: &mut fmt::Formatter<W>) -> fmt::Result {
        match self.0 {
            Command::Load { addr, width } => write!(f, "load 0x{addr:x} {width}"),
            Command::Store { addr, width, value } => {
                write!(f, "store 0x{addr:x} {width} 0x{value:x}")
            }
            Command::Mmap {
                addr_len,
                prot,
                place,
            } => {
                let call = MmapText {
                    len: addr_len,
                    prot,
                    place,
                };
                write!(f, "{call}")
            }
            Command::Munmap { addr, len } => write!(f, "munmap 0x{addr:x} {len}"),
            Command::Mremap {
                addr,
                old_len,
                new_len,
                may_move,
                fixed,
            } => {
                let call = MremapText {
                    addr,
                    old_len,
                    new_len,
                    may_move,
                    fixed,
                };
                write!(f, "{call}")
            }
            Command::DontNeed { addr, len } => write!(f, "dontneed 0x{addr:x} {len}"),
        }
    }
}

/// An entry of a transcript, as it is printed: its processor, its command and its reply.
#[derive(Clone, Copy)]
pub struct EntryText(pub Entry);

impl fmt::Display for EntryText {
    ghost output = { λ x. Some (entry_text x.0) };

    fn fmt<W: fmt::Write>(&self, f: &mut fmt::Formatter<W>) -> fmt::Result {
        let cpu = self.0.cpu;
        let command = CommandText(self.0.command);
        let reply = self.0.reply;
        write!(f, "{cpu} {command} => {reply}")
    }
}

/// Appends the transcript line of an entry, with its line feed, to a text. `NoMemory` leaves the text as it was.
#[tactic(auto, unfolding(crate::specs::Texts::entry_line))]
pub fn print_entry(text: &mut String, entry: Entry) -> Result<(), NoMemory>
    ensures ok { OnOk result (string_bytes text.new ≡ string_bytes text.old ++ entry_line entry) }
    ensures err { OnErr result (string_bytes text.new ≡ string_bytes text.old) }
{
    let entry = EntryText(entry);
    if text.is_empty() {
        if write!(text, "{entry}\n").is_err() {
            text.clear();
            return Err(NoMemory);
        }
        return Ok(());
    }
    let mut line = String::with_capacity(*text.allocator(), LINE)?;
    write!(line, "{entry}\n")?;
    text.push_str(&line)?;
    Ok(())
}
