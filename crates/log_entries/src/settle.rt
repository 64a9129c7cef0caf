//! What no line says of a call, put in by the caller.

ghost use Rattle.std.specs.Prelude.{◌≡◌};
ghost use Rattle.log_entries.specs.Events.{is_map_call};
ghost use Rattle.log_entries.specs.Stores.{settled};

use kernel_rules::Made;
use uffd_log::Call;

/// Whether a call changes a map.
fn is_map_call(call: Call) -> bool
    ensures { result ≡ is_map_call call }
{
    match call {
        Call::Mmap { .. } | Call::Munmap { .. } | Call::Mremap { .. } | Call::Madvise { .. } =>
            true,
        _ => false,
    }
}

/// A call, with the address space that it changes if it is a map call, and whether it closes the last descriptor of its object.
pub(crate) fn settled(made: Made, space: u32, last: bool) -> Made
    ensures { result ≡ settled made space last }
{
    let space = if is_map_call(made.call) {
        space
    } else {
        made.space
    };
    Made {
        space,
        last,
        ..made
    }
}
