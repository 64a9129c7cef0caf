//! The line of a frame that a destination refuses.

ghost use Rattle.std.specs.Prelude.{◌≡◌, ◌≢◌, ◌++◌, OnOk, string_bytes};
ghost use Rattle.frames.specs.Answers.{refusal_line, take_fault_name};

use mig_base::NoMemory;
use mig_base::fault::TakeFault;

/// The name of a reason for which a frame is refused.
fn name_of(fault: TakeFault) -> &'static str
    ensures { result.now ≡ take_fault_name fault }
{
    match fault {
        TakeFault::OutOfPlace => "OutOfPlace",
        TakeFault::StaleEpoch => "StaleEpoch",
        TakeFault::BadFrame => "BadFrame",
        TakeFault::InstallFirst => "InstallFirst",
        TakeFault::UrgentFirst => "UrgentFirst",
        TakeFault::NoMemory => "NoMemory",
    }
}

/// Appends the line of a frame that is refused, with its line feed, to a text. `NoMemory` is returned if the line has no room, and for a frame
/// that was refused for lack of memory, which has no line.
pub(crate) fn print_refusal(text: &mut String, fault: TakeFault) -> Result<(), NoMemory>
    ensures line { OnOk result (string_bytes text.new ≡
        string_bytes text.old ++ refusal_line fault) }
    ensures printed { OnOk result (fault ≢ TakeFault.NoMemory) }
{
    match fault {
        TakeFault::NoMemory => Err(NoMemory),
        _ => {
            let name = name_of(fault);
            write!(text, "refused {name}\n")?;
            Ok(())
        }
    }
}
