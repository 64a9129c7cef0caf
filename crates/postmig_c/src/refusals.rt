//! Refusals as statuses, and their names.

ghost use Rattle.std.specs.Prelude.{◌≡◌, ◌⊎◌, []};
ghost use Rattle.postmig_c.specs.Refusals.{fault_status, refusal_status, status_name};
ghost use Rattle.postmig_c.specs.Room.{Fills, IsTooLong};

use crate::room::hand_over;
use crate::status::{NO_MEMORY, NOT_A_FRAME, NOT_A_LINE};
use mig_base::refusal::Refusal;
use nodes::FrameFault;

/// The status of a refusal: 64 and its number, but that of `NoMemory` is that of every lack of memory.
pub fn refusal_status(refusal: Refusal) -> u32
    ensures { result ≡ refusal_status refusal }
{
    match refusal {
        Refusal::NoCpu => 65,
        Refusal::Busy => 66,
        Refusal::NotAsleep => 67,
        Refusal::NotWoken => 68,
        Refusal::Phase => 69,
        Refusal::Broken => 70,
        Refusal::NotBroken => 71,
        Refusal::StaleEpoch => 72,
        Refusal::NothingThere => 73,
        Refusal::Changing => 74,
        Refusal::InstallFirst => 75,
        Refusal::PageNotSendable => 76,
        Refusal::NotRemaining => 77,
        Refusal::PagesLeft => 78,
        Refusal::CountUsed => 79,
        Refusal::UrgentFirst => 81,
        Refusal::NoMemory => NO_MEMORY,
    }
}

/// The status of a frame that is not taken.
pub fn fault_status(fault: FrameFault) -> u32
    ensures { result ≡ fault_status fault }
{
    match fault {
        FrameFault::NotAFrame => NOT_A_FRAME,
        FrameFault::StaleEpoch => 72,
        FrameFault::InstallFirst => 75,
        FrameFault::UrgentFirst => 81,
        FrameFault::OutOfPlace => 82,
        FrameFault::BadFrame => 83,
        FrameFault::BadOwed => 84,
        FrameFault::NoMemory => NO_MEMORY,
    }
}

/// The name of the refusal with a status, as a script prints it, or empty.
fn name_of(status: u32) -> &'static str
    ensures { result.now ≡ status_name status }
{
    match status {
        65 => "NoCpu",
        66 => "Busy",
        67 => "NotAsleep",
        68 => "NotWoken",
        69 => "Phase",
        70 => "Broken",
        71 => "NotBroken",
        72 => "StaleEpoch",
        73 => "NothingThere",
        74 => "Changing",
        75 => "InstallFirst",
        76 => "PageNotSendable",
        77 => "NotRemaining",
        78 => "PagesLeft",
        79 => "CountUsed",
        81 => "UrgentFirst",
        82 => "OutOfPlace",
        83 => "BadFrame",
        84 => "BadOwed",
        _ => "",
    }
}

/// Writes the name of the refusal with a status.
#[unsafe(no_mangle)]
pub extern "C" fn postmig_refusal_name(status: u32, out: &mut [u8], written: &mut usize) -> u32
    ensures name { result ≡ 0 → Fills (status_name status) written.new out.new }
    ensures long { result ≡ 1 → IsTooLong (status_name status) written.new out.new }
    ensures none { result ≡ 3 → status_name status ≡ [] }
    ensures range { (result ≡ 0) ⊎ (result ≡ 1) ⊎ (result ≡ 3) }
{
    let name = name_of(status);
    if name.is_empty() {
        return NOT_A_LINE;
    }
    hand_over(name.as_bytes(), out, written)
}
