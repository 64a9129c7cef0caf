//! The calls of a processor.

ghost use Rattle.std.specs.Prelude.{◌≡◌, ◌≤◌, ◌<◌, ◌+◌, ◌*◌};
ghost use Rattle.threads.specs.Calls.{calls_with as calls_of, first_address as first_of, nth_address as nth_place, nth_call};

use crate::course::Course;
use mig_base::{Addr, Command, LOW, PAGE_SIZE, Place, Prot};
use rig::{CpuSeat, Rig};
use std::sync::Wait;

/// The number of pages of a processor.
const PAGES: u64 = 8;

/// The width of a store or load, in bytes.
const WIDTH: u8 = 8;

/// The number of calls of a processor that makes `stores` stores: a map, the stores, and the same number of loads.
pub(crate) fn calls_with(stores: u16) -> u32
    ensures { result ≡ calls_of stores }
{
    1 + 2 * u32::from(stores)
}

/// Makes the calls of a processor: a map, then stores, then the same number of loads. It ends early if one is refused, which is for lack
/// of memory. A command that it then leaves asleep does not hold up the others.
pub(crate) fn make_calls<R: Wait>(
    rt: &R,
    rig: &Rig,
    course: &Course,
    mut seat: CpuSeat,
    stores: u16,
) -> CpuSeat {
    let cpu = seat.cpu();
    let count = calls_with(stores);
    for n in 0..count {
        if rig
            .call(rt, &mut seat, nth_command(cpu, n, stores))
            .is_err()
        {
            course.count(u64::from(count - n));
            return seat;
        }
        course.count(1);
    }
    seat
}

/// The address of the first page of a processor. The second half of its pages is the first half of the next processor's.
fn first_address(cpu: u8) -> Addr
    ensures { result ≡ first_of cpu }
{
    LOW + u64::from(cpu) * (PAGES / 2) * PAGE_SIZE
}

/// The n-th call of a processor, counted from 0.
pub(crate) fn nth_command(cpu: u8, n: u32, stores: u16) -> Command
    ensures { result ≡ nth_call cpu stores n }
{
    let stores = u32::from(stores);
    if n == 0 {
        Command::Mmap {
            addr_len: PAGES * PAGE_SIZE,
            prot: Prot::ReadWrite,
            place: Place::Fixed(first_address(cpu)),
        }
    } else if n <= stores {
        Command::Store {
            addr: nth_address(cpu, n - 1),
            width: WIDTH,
            value: u64::from(n),
        }
    } else {
        Command::Load {
            addr: nth_address(cpu, n - 1 - stores),
            width: WIDTH,
        }
    }
}

/// The address of the n-th store or load: they go round the pages, and in each round to the next place of a page.
fn nth_address(cpu: u8, n: u32) -> Addr
    ensures { result ≡ nth_place cpu n }
{
    let n = u64::from(n);
    let place = n / PAGES * u64::from(WIDTH) % PAGE_SIZE;
    first_address(cpu) + (n % PAGES * PAGE_SIZE + place)
}
