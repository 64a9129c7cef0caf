//! Commands of processors, in numbers.

ghost use Rattle.std.specs.Prelude.{◌≡◌};
ghost use Rattle.std.specs.declared.option.Option.TheVariants.{Some as Just};
ghost use Rattle.mig_base.specs.declared.command.Command.TheVariants.{Mmap, Mremap};
ghost use Rattle.postmig_c.specs.Commands.{command_of, fixed_of, place_of, prot_number, prot_of, width_of};

use mig_base::{Command, Place, Prot};

/// A command in numbers. Fields that its kind does not have are not read.
#[repr(C)]
#[derive(Clone, Copy)]
pub struct CommandNumbers {
    /// 1 load, 2 store, 3 mmap, 4 munmap, 5 mremap, 6 madvise(MADV_DONTNEED).
    pub kind: u32,
    /// The bytes of a load or store.
    pub width: u32,
    /// The protection of a mapping: 0 none, 1 read, 2 read and write.
    pub prot: u32,
    /// Where a mapping goes: 0 anywhere, 1 at the target, 2 at the target if nothing is mapped there.
    pub place: u32,
    /// Whether a range may move: 0 if not.
    pub may_move: u32,
    pub addr: u64,
    /// The length in bytes; of an mremap the old one.
    pub length: u64,
    /// The new length of an mremap.
    pub new_length: u64,
    /// Where a mapping goes, unless it may go anywhere.
    pub target: u64,
    /// The number that a store stores.
    pub value: u64,
}

/// Numbers that no command has.
pub const NO_COMMAND: CommandNumbers = CommandNumbers {
    kind: 0,
    width: 0,
    prot: 0,
    place: 0,
    may_move: 0,
    addr: 0,
    length: 0,
    new_length: 0,
    target: 0,
    value: 0,
};

/// A protection by its number.
fn prot_of(number: u32) -> Option<Prot>
    ensures { result ≡ prot_of number }
{
    match number {
        0 => Some(Prot::NoAccess),
        1 => Some(Prot::Read),
        2 => Some(Prot::ReadWrite),
        _ => None,
    }
}

/// The number of a protection.
pub fn prot_number(prot: Prot) -> u32
    ensures number { result ≡ prot_number prot }
    ensures prot { prot_of result ≡ Just prot }
{
    match prot {
        Prot::NoAccess => 0,
        Prot::Read => 1,
        Prot::ReadWrite => 2,
    }
}

/// A place by its number.
fn place_of(number: u32, target: u64) -> Option<Place>
    ensures { result ≡ place_of number target }
{
    match number {
        0 => Some(Place::Anywhere),
        1 => Some(Place::Fixed(target)),
        2 => Some(Place::NoReplace(target)),
        _ => None,
    }
}

/// The target of an mremap, by the number of its place: none, or MREMAP_FIXED.
fn fixed_of(number: u32, target: u64) -> Option<Option<u64>>
    ensures { result ≡ fixed_of number target }
{
    match number {
        0 => Some(None),
        1 => Some(Some(target)),
        _ => None,
    }
}

/// The width of an access, if a byte holds it.
fn width_of(width: u32) -> Option<u8>
    ensures { result ≡ width_of width }
{
    if width < 256 { Some(width as u8) } else { None }
}

/// The command of these numbers, if they have one.
pub fn command_of(numbers: &CommandNumbers) -> Option<Command>
    ensures { result ≡ command_of numbers.now }
{
    let addr = numbers.addr;
    let len = numbers.length;
    match numbers.kind {
        1 => {
            let width = width_of(numbers.width)?;
            Some(Command::Load { addr, width })
        }
        2 => {
            let width = width_of(numbers.width)?;
            Some(Command::Store {
                addr,
                width,
                value: numbers.value,
            })
        }
        3 => {
            let prot = prot_of(numbers.prot)?;
            let place = place_of(numbers.place, numbers.target)?;
            Some(Command::Mmap {
                addr_len: len,
                prot,
                place,
            })
        }
        4 => Some(Command::Munmap { addr, len }),
        5 => {
            let fixed = fixed_of(numbers.place, numbers.target)?;
            Some(Command::Mremap {
                addr,
                old_len: len,
                new_len: numbers.new_length,
                may_move: numbers.may_move != 0,
                fixed,
            })
        }
        6 => Some(Command::DontNeed { addr, len }),
        _ => None,
    }
}

/// The number of a place, and its target; 0 if it has none.
fn place_numbers(place: Place) -> (u32, u64)
    ensures { place_of result.0 result.1 ≡ Just place }
{
    match place {
        Place::Anywhere => (0, 0),
        Place::Fixed(target) => (1, target),
        Place::NoReplace(target) => (2, target),
    }
}

/// The number of the place of an mremap, and its target; 0 if it has none.
fn fixed_numbers(fixed: Option<u64>) -> (u32, u64)
    ensures { fixed_of result.0 result.1 ≡ Just fixed }
{
    match fixed {
        None => (0, 0),
        Some(target) => (1, target),
    }
}

/// The numbers of an mmap.
fn mmap_numbers(len: u64, prot: Prot, place: Place) -> CommandNumbers
    ensures { command_of result ≡ Just (Mmap len prot place) }
{
    let (place, target) = place_numbers(place);
    CommandNumbers {
        kind: 3,
        prot: prot_number(prot),
        place,
        length: len,
        target,
        ..NO_COMMAND
    }
}

/// The numbers of an mremap.
fn mremap_numbers(
    addr: u64,
    old_len: u64,
    new_len: u64,
    may_move: bool,
    fixed: Option<u64>,
) -> CommandNumbers
    ensures { command_of result ≡ Just (Mremap addr old_len new_len may_move fixed) }
{
    let (place, target) = fixed_numbers(fixed);
    CommandNumbers {
        kind: 5,
        place,
        may_move: u32::from(may_move),
        addr,
        length: old_len,
        new_length: new_len,
        target,
        ..NO_COMMAND
    }
}

/// The numbers of a command.
pub fn command_numbers(command: Command) -> CommandNumbers
    ensures { command_of result ≡ Just command }
{
    match command {
        Command::Load { addr, width } => CommandNumbers {
            kind: 1,
            width: u32::from(width),
            addr,
            ..NO_COMMAND
        },
        Command::Store { addr, width, value } => CommandNumbers {
            kind: 2,
            width: u32::from(width),
            addr,
            value,
            ..NO_COMMAND
        },
        Command::Mmap {
            addr_len,
            prot,
            place,
        } => mmap_numbers(addr_len, prot, place),
        Command::Munmap { addr, len } => CommandNumbers {
            kind: 4,
            addr,
            length: len,
            ..NO_COMMAND
        },
        Command::Mremap {
            addr,
            old_len,
            new_len,
            may_move,
            fixed,
        } => mremap_numbers(addr, old_len, new_len, may_move, fixed),
        Command::DontNeed { addr, len } => CommandNumbers {
            kind: 6,
            addr,
            length: len,
            ..NO_COMMAND
        },
    }
}
