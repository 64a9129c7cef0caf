//! The test of `close`: whether each processor's answers are those of its seat.

ghost use Rattle.std.specs.Prelude.{◌≡◌, ◌++◌, ◌∷◌, [], length, ◌<◌, ◌≤◌, ℕ, IfSome, IfNone, MatchBool, true, false, Some, All, ◌+◌};
ghost use Rattle.std.specs.List.{slice_get};
ghost use Rattle.mig_base.specs.declared.TheConstants.{MAX_CPUS};
ghost use Rattle.rig.specs.Seats.{answers_of, list_of, seats_of, IsRight, IsLeastWrong};

use crate::seat::{Answer, CpuSeat};
use mig_base::{Entry, MAX_CPUS};

/// The first answer of a processor, and the entries after it.
pub(crate) fn next_answer(entries: &[Entry], cpu: u8) -> Option<(Answer, &[Entry])>
    ensures some { IfSome result (λ r. answers_of cpu entries.now ≡ r.0 ∷ answers_of cpu r.1.now) }
    ensures shorter { IfSome result (λ r. length r.1.now < length entries.now) }
    ensures none { IfNone result (answers_of cpu entries.now ≡ []) }
{
    let mut rest = entries;
    while let [first, behind @ ..] = rest {
        rest = behind;
        if first.cpu == cpu {
            let answer = Answer {
                command: first.command,
                reply: first.reply,
            };
            return Some((answer, rest));
        }
    }
    None
}

/// The first answer of a processor in `opening` and then in `list`, and what is after it.
fn next_wanted<'a>(
    opening: &'a [Entry],
    list: &'a [Answer],
    cpu: u8,
) -> Option<(Answer, &'a [Entry], &'a [Answer])>
    ensures some { IfSome result (λ r.
        answers_of cpu opening.now ++ list.now ≡ r.0 ∷ (answers_of cpu r.1.now ++ r.2.now)) }
    ensures none { IfNone result (answers_of cpu opening.now ++ list.now ≡ []) }
{
    match next_answer(opening, cpu) {
        Some((answer, behind)) => Some((answer, behind, list)),
        None => match list {
            [answer, behind @ ..] => Some((*answer, &[], behind)),
            [] => None,
        },
    }
}

/// Whether two answers are the same.
fn is_same(one: Answer, other: Answer) -> bool
    ensures yes { result ≡ true → one ≡ other }
    ensures no { result ≡ false → one ≡ other → ⊥ }
{
    one == other
}

/// Whether the processor's answers in `entries` are those in `opening` and then `list`.
pub(crate) fn continues(entries: &[Entry], opening: &[Entry], list: &[Answer], cpu: u8) -> bool
    ensures yes { result ≡ true →
        answers_of cpu entries.now ≡ answers_of cpu opening.now ++ list.now }
    ensures no { result ≡ false →
        answers_of cpu entries.now ≡ answers_of cpu opening.now ++ list.now → ⊥ }
{
    let mut here = entries;
    let mut there = opening;
    let mut left = list;
    while let Some((answer, behind)) = next_answer(here, cpu) {
        let Some((wanted, rest, more)) = next_wanted(there, left, cpu) else {
            return false;
        };
        if !is_same(answer, wanted) {
            return false;
        }
        here = behind;
        there = rest;
        left = more;
    }
    next_wanted(there, left, cpu).is_none()
}

/// The least processor whose answers are not those of its seat, or whose seat did not come back as it must.
pub(crate) fn first_wrong(
    entries: &[Entry],
    opening: &[Entry],
    handed: &[bool],
    seats: &[CpuSeat],
    cpus: u8,
) -> Option<u8>
    ensures none { IfNone result ((k : ℕ) → k < MAX_CPUS →
        IsRight (record { opening = opening.now; handed = handed.now }) seats.now entries.now cpus
        k) }
    ensures numbers { IfNone result (All (λ s. s.cpu < MAX_CPUS) seats.now) }
    ensures some { IfSome result (λ k.
        IsLeastWrong (record { opening = opening.now; handed = handed.now }) seats.now entries.now
        cpus k) }
{
    read_numbers(seats);
    for cpu in 0..MAX_CPUS {
        if !is_right(entries, opening, handed, seats, cpus, cpu) {
            return Some(cpu);
        }
    }
    None
}

/// Whether the processor's answers are those of its seat, and the seat came back as it must: at most once, exactly once if it was handed
/// out, and not at all if the world does not have the processor.
fn is_right(
    entries: &[Entry],
    opening: &[Entry],
    handed: &[bool],
    seats: &[CpuSeat],
    cpus: u8,
    cpu: u8,
) -> bool
    ensures yes { result ≡ true →
        IsRight (record { opening = opening.now; handed = handed.now }) seats.now entries.now cpus
        cpu }
    ensures no { result ≡ false →
        IsRight (record { opening = opening.now; handed = handed.now }) seats.now entries.now cpus
        cpu → ⊥ }
{
    let was_handed = usize::from(cpu) < handed.len() && handed[usize::from(cpu)];
    let count = count_seats(seats, cpu);
    if count > 1 || (was_handed && count != 1) || (cpu >= cpus && count != 0) {
        return false;
    }
    continues(entries, opening, list_in(seats, cpu), cpu)
}

/// The number of seats of a processor.
fn count_seats(seats: &[CpuSeat], cpu: u8) -> usize
    ensures { result ≡ seats_of cpu seats.now }
{
    let mut count = 0;
    for seat in seats {
        if seat.cpu() == cpu {
            count += 1;
        }
    }
    count
}

/// The answers of a processor's seat, of which there is at most one; empty if there is none.
fn list_in(seats: &[CpuSeat], cpu: u8) -> &[Answer]
    requires { seats_of cpu seats.now ≤ 1 }
    ensures { result.now ≡ list_of cpu seats.now }
{
    let mut rest = seats;
    while let [seat, behind @ ..] = rest {
        rest = behind;
        if seat.cpu() == cpu {
            return seat.answers();
        }
    }
    &[]
}

/// A call for the proof: reads each seat's number, so that it is known to be below `MAX_CPUS`.
fn read_numbers(seats: &[CpuSeat])
    ensures { All (λ s. s.cpu < MAX_CPUS) seats.now }
{
    let mut rest = seats;
    while let [seat, behind @ ..] = rest {
        let _ = seat.cpu();
        rest = behind;
    }
}
