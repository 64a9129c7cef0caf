//! Operations as entries of a transcript.

ghost use Rattle.std.specs.Prelude.{◌≡◌, ◌∷◌};
ghost use Rattle.std.specs.Option.{option_to_list};
ghost use Rattle.history.specs.Histories as histories;

use history::{Action, Operation};
use mig_base::{Command, Entry, Place, Prot, Reply};

/// The entries of a transcript that an operation is: one, or two for an exchange, which have nothing between them.
pub fn entries_of(operation: &Operation) -> (Entry, Option<Entry>)
    ensures { result.0 ∷ option_to_list result.1 ≡
        histories.entries_of operation.now.thread operation.now.action }
{
    let cpu = operation.thread;
    let mut second = None;
    let (command, reply) = match operation.action {
        Action::Load { addr, width, value } => {
            (Command::Load { addr, width }, Reply::Value(value))
        }
        Action::Store { addr, width, value } => {
            (Command::Store { addr, width, value }, Reply::Done)
        }
        Action::Swap {
            addr,
            width,
            value,
            found,
        } => {
            second = Some(Entry {
                cpu,
                command: Command::Store { addr, width, value },
                reply: Reply::Done,
            });
            (Command::Load { addr, width }, Reply::Value(found))
        }
        Action::Map { addr, len } => {
            let map = Command::Mmap {
                addr_len: len,
                prot: Prot::ReadWrite,
                place: Place::Fixed(addr),
            };
            (map, Reply::At(addr))
        }
        Action::Unmap { addr, len } => (Command::Munmap { addr, len }, Reply::Done),
        Action::Discard { addr, len } => (Command::DontNeed { addr, len }, Reply::Done),
    };
    let first = Entry {
        cpu,
        command,
        reply,
    };
    (first, second)
}
