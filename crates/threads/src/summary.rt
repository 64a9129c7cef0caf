//! The report of a run.

ghost use Rattle.std.specs.Prelude.{◌≡◌, ◌++◌, true, OnOk, IfOk, IfErr, IfSome, string_bytes, length};
ghost use Rattle.engine.specs.declared.fault.RunFault.TheVariants.{NoMemory as OutOfMemory};
ghost use Rattle.pusher.specs.Seats.{IsSeatOf};
ghost use Rattle.threads.specs.Calls.{AreCalls, calls_with as calls_of};
ghost use Rattle.threads.specs.Report.{seat_line, seat_lines, count_line, agreed_line, fault_name, fault_line, report_lines, AreFrom};

use crate::processor::{calls_with, nth_command};
use crate::run::Run;
use crate::sending::EpochClaims;
use engine::RunFault;
use pusher::{ClaimSeat, Claims};
use rig::{CloseFault, CpuSeat};

/// Whether the seats are those of all `cpus` processors, in order, and each has the answers to all calls of its processor.
pub(crate) fn are_whole(seats: &[CpuSeat], cpus: u8, stores: u16) -> bool
    ensures all { result ≡ true → length seats.now ≡ cpus }
    ensures each { result ≡ true → AreFrom 0 stores seats.now }
{
    let mut rest = seats;
    let mut cpu: usize = 0;
    while let [seat, behind @ ..] = rest {
        if usize::from(seat.cpu()) != cpu || !has_all_calls(seat, stores) {
            return false;
        }
        rest = behind;
        cpu += 1;
    }
    cpu == usize::from(cpus)
}

/// Whether a seat has the answers to all calls of its processor.
fn has_all_calls(seat: &CpuSeat, stores: u16) -> bool
    ensures count { result ≡ true → length seat.now.answers ≡ calls_of stores }
    ensures calls { result ≡ true → AreCalls seat.now.cpu stores 0 seat.now.answers }
{
    let cpu = seat.cpu();
    let calls = calls_with(stores);
    let mut rest = seat.answers();
    let mut n = 0;
    while let [answer, behind @ ..] = rest {
        if n == calls || answer.command != nth_command(cpu, n, stores) {
            return false;
        }
        rest = behind;
        n += 1;
    }
    n == calls
}

/// Appends a line for each seat to a text.
fn print_seats(text: &mut String, seats: &[CpuSeat]) -> Result<(), RunFault>
    ensures ok { OnOk result (string_bytes text.new ≡
        string_bytes text.old ++ seat_lines seats.now) }
    ensures err { IfErr result (λ fault. fault ≡ OutOfMemory) }
{
    let mut rest = seats;
    while let [seat, behind @ ..] = rest {
        print_seat(text, seat)?;
        rest = behind;
    }
    Ok(())
}

/// Appends the line of a seat to a text.
fn print_seat(text: &mut String, seat: &CpuSeat) -> Result<(), RunFault>
    ensures ok { OnOk result (string_bytes text.new ≡ string_bytes text.old ++ seat_line seat.now) }
    ensures err { IfErr result (λ fault. fault ≡ OutOfMemory) }
{
    let cpu = seat.cpu();
    let calls = seat.answers().len();
    write!(text, "cpu {cpu} calls {calls}\n")?;
    Ok(())
}

/// Appends the report of a run to a text.
pub(crate) fn print_run(text: &mut String, run: &Run) -> Result<(), RunFault>
    ensures ok { OnOk result (string_bytes text.new ≡
        string_bytes text.old ++
        report_lines run.now.seats.items (length run.now.world.transcript) run.now.fault) }
    ensures err { IfErr result (λ fault. fault ≡ OutOfMemory) }
{
    print_seats(text, &run.seats)?;
    let entries = run.world.transcript().len();
    match run.fault {
        None => print_ok(text, entries),
        Some(fault) => print_fault(text, entries, fault),
    }
}

/// Appends the number of entries to a text, and that the tests of `close` passed.
fn print_ok(text: &mut String, entries: usize) -> Result<(), RunFault>
    ensures ok { OnOk result (string_bytes text.new ≡
        string_bytes text.old ++ (count_line entries ++ agreed_line)) }
    ensures err { IfErr result (λ fault. fault ≡ OutOfMemory) }
{
    print_count(text, entries)?;
    write!(text, "close ok\n")?;
    Ok(())
}

/// Appends the number of entries to a text, and the fault with which the rig was closed.
fn print_fault(text: &mut String, entries: usize, fault: CloseFault) -> Result<(), RunFault>
    ensures ok { OnOk result (string_bytes text.new ≡
        string_bytes text.old ++ (count_line entries ++ fault_line fault)) }
    ensures err { IfErr result (λ fault. fault ≡ OutOfMemory) }
{
    print_count(text, entries)?;
    print_fault_line(text, fault)
}

/// Appends the fault with which the rig was closed to a text.
fn print_fault_line(text: &mut String, fault: CloseFault) -> Result<(), RunFault>
    ensures ok { OnOk result (string_bytes text.new ≡ string_bytes text.old ++ fault_line fault) }
    ensures err { IfErr result (λ fault. fault ≡ OutOfMemory) }
{
    let name = name_of(fault);
    write!(text, "close fault {name}\n")?;
    Ok(())
}

/// Appends the number of entries to a text.
fn print_count(text: &mut String, entries: usize) -> Result<(), RunFault>
    ensures ok { OnOk result (string_bytes text.new ≡ string_bytes text.old ++ count_line entries) }
    ensures err { IfErr result (λ fault. fault ≡ OutOfMemory) }
{
    write!(text, "transcript {entries}\n")?;
    Ok(())
}

/// The claims, and the seat that has every claim.
pub(crate) fn claims_in(sent: Option<EpochClaims>) -> Option<(Claims, ClaimSeat)>
    ensures { IfSome result (λ c. IsSeatOf c.0 c.1) }
{
    match sent {
        Some(EpochClaims { claims, seat, .. }) => Some((claims, seat)),
        None => None,
    }
}

/// The name of a fault.
fn name_of(fault: CloseFault) -> &'static str
    ensures { result.now ≡ fault_name fault }
{
    match fault {
        CloseFault::Answers(_) => "Answers",
        CloseFault::Claims => "Claims",
    }
}
