//! What calls of a program say alike, and what each says alone: its number and its addresses.

ghost use Rattle.std.specs.Prelude.{◌≡◌};
ghost use Rattle.log_entries.specs.Shapes.{call_with, from_of, made_with, shape_of, to_of};

use kernel_rules::Made;
use uffd_log::Call;

/// The addresses of a call: where it writes or its range begins, and where it reads. 0 where it has none.
pub(crate) fn addresses_of(call: Call) -> (u64, u64)
    ensures to { result.0 ≡ to_of call }
    ensures from { result.1 ≡ from_of call }
{
    match call {
        Call::Copy { to, from, .. } | Call::Move { to, from, .. } => (to, from),
        Call::Mremap { addr, target, .. } => (addr, target),
        Call::Register { start, .. }
        | Call::Unregister { start, .. }
        | Call::Wake { start, .. }
        | Call::ZeroPage { start, .. }
        | Call::Continue { start, .. }
        | Call::Poison { start, .. }
        | Call::WriteProtect { start, .. }
        | Call::Scan { start, .. } => (start, 0),
        Call::Mmap { addr, .. } | Call::Munmap { addr, .. } | Call::Madvise { addr, .. } => {
            (addr, 0)
        }
        _ => (0, 0),
    }
}

/// A call with these addresses, if it has any.
fn call_with(call: Call, to_new: u64, from_new: u64) -> Call
    ensures { result ≡ call_with call to_new from_new }
{
    let mut call = call;
    match &mut call {
        Call::Copy { to, from, .. } => {
            *to = to_new;
            *from = from_new;
        }
        Call::Move { to, from, .. } => {
            *to = to_new;
            *from = from_new;
        }
        Call::Mremap { addr, target, .. } => {
            *addr = to_new;
            *target = from_new;
        }
        Call::Register { start, .. } => *start = to_new,
        Call::Unregister { start, .. } => *start = to_new,
        Call::Wake { start, .. } => *start = to_new,
        Call::ZeroPage { start, .. } => *start = to_new,
        Call::Continue { start, .. } => *start = to_new,
        Call::Poison { start, .. } => *start = to_new,
        Call::WriteProtect { start, .. } => *start = to_new,
        Call::Scan { start, .. } => *start = to_new,
        Call::Mmap { addr, .. } => *addr = to_new,
        Call::Munmap { addr, .. } => *addr = to_new,
        Call::Madvise { addr, .. } => *addr = to_new,
        _ => (),
    }
    call
}

/// A call without its number and its addresses.
pub(crate) fn shape_of(made: Made) -> Made
    ensures { result ≡ shape_of made }
{
    Made {
        key: 0,
        call: call_with(made.call, 0, 0),
        ..made
    }
}

/// A call of a shape, with its number and its addresses.
pub(crate) fn made_with(shape: Made, key: u32, to: u64, from: u64) -> Made
    ensures { result ≡ made_with shape key to from }
{
    Made {
        key,
        call: call_with(shape.call, to, from),
        ..shape
    }
}
