//! The effect of a step, in numbers.

ghost use Rattle.std.specs.Prelude.{◌≡◌};
ghost use Rattle.postmig_c.specs.Effects.{effect_numbers, errno_number, event_addr, event_length, event_number, event_other, of_kind, reply_number, reply_value, side_number, state_number};

use mig_base::effect::Effect;
use mig_base::phase::Received;
use mig_base::schedule::Side;
use mig_base::{Errno, Message, Reply};

/// What a step did, in numbers. The header says which fields each kind sets; all others are 0.
#[repr(C)]
#[derive(Clone, Copy)]
pub struct EffectNumbers {
    /// What was done: 1 to 36, in the order of `Effect`.
    pub kind: u32,
    /// The processor.
    pub cpu: u32,
    /// An epoch, a round, the number of discarded pages, a state, a side, or the number of an event.
    pub number: u32,
    /// How many pages or messages.
    pub count: u32,
    /// The address of the page, or the first of the event's range.
    pub addr: u64,
    /// The address of the page at the source, or the other address of an event.
    pub other: u64,
    /// A length in bytes.
    pub length: u64,
    /// The value of the reply.
    pub value: u64,
    /// The reply: 1 to 6, in the order of `Reply`; 0 if there is none.
    pub reply: u32,
}

/// The number of an errno: that of Linux.
fn errno_number(errno: Errno) -> u64
    ensures { result ≡ errno_number errno }
{
    match errno {
        Errno::Eperm => 1,
        Errno::Enoent => 2,
        Errno::Eagain => 11,
        Errno::Enomem => 12,
        Errno::Efault => 14,
        Errno::Eexist => 17,
        Errno::Einval => 22,
    }
}

/// The kind of a reply.
fn reply_number(reply: Reply) -> u32
    ensures { result ≡ reply_number reply }
{
    match reply {
        Reply::Value(_) => 1,
        Reply::Done => 2,
        Reply::At(_) => 3,
        Reply::Segv { .. } => 4,
        Reply::BadAccess => 5,
        Reply::Refused(_) => 6,
    }
}

/// The value of a reply.
fn reply_value(reply: Reply) -> u64
    ensures { result ≡ reply_value reply }
{
    match reply {
        Reply::Value(value) => value,
        Reply::At(addr) => addr,
        Reply::Segv { mapped: true } => 1,
        Reply::Refused(errno) => errno_number(errno),
        Reply::Done | Reply::Segv { mapped: false } | Reply::BadAccess => 0,
    }
}

/// The number of an event.
fn event_number(event: Message) -> u32
    ensures { result ≡ event_number event }
{
    match event {
        Message::PageFault { .. } => 0x12,
        Message::Remap { .. } => 0x14,
        Message::Remove { .. } => 0x15,
        Message::Unmap { .. } => 0x16,
    }
}

/// The first address of an event.
fn event_addr(event: Message) -> u64
    ensures { result ≡ event_addr event }
{
    match event {
        Message::PageFault { addr, .. } => addr,
        Message::Remap { from, .. } => from,
        Message::Remove { start, .. } | Message::Unmap { start, .. } => start,
    }
}

/// The other address of an event.
fn event_other(event: Message) -> u64
    ensures { result ≡ event_other event }
{
    match event {
        Message::PageFault { .. } => 0,
        Message::Remap { to, .. } => to,
        Message::Remove { end, .. } | Message::Unmap { end, .. } => end,
    }
}

/// The length of a range that was moved.
fn event_length(event: Message) -> u64
    ensures { result ≡ event_length event }
{
    match event {
        Message::Remap { len, .. } => len,
        Message::PageFault { .. } | Message::Remove { .. } | Message::Unmap { .. } => 0,
    }
}

/// The number of a state.
fn state_number(state: Received) -> u32
    ensures { result ≡ state_number state }
{
    match state {
        Received::NotRun => 0,
        Received::Running => 1,
        Received::Ended => 2,
    }
}

/// The number of a side.
fn side_number(side: Side) -> u32
    ensures { result ≡ side_number side }
{
    match side {
        Side::Source => 0,
        Side::Destination => 1,
    }
}

/// The numbers of a kind of effect that has no others.
#[inline]
fn of_kind(kind: u32) -> EffectNumbers
    ensures { result ≡ of_kind kind }
{
    EffectNumbers {
        kind,
        cpu: 0,
        number: 0,
        count: 0,
        addr: 0,
        other: 0,
        length: 0,
        value: 0,
        reply: 0,
    }
}

/// The numbers of an effect on a page.
#[inline]
fn at_page(kind: u32, addr: u64) -> EffectNumbers
    ensures { result ≡ record (of_kind kind) { addr = addr } }
{
    EffectNumbers {
        addr,
        ..of_kind(kind)
    }
}

/// The numbers of an effect with a number.
#[inline]
fn numbered(kind: u32, number: u32) -> EffectNumbers
    ensures { result ≡ record (of_kind kind) { number = number } }
{
    EffectNumbers {
        number,
        ..of_kind(kind)
    }
}

/// The numbers of an effect with a count.
#[inline]
fn counted(kind: u32, count: u32) -> EffectNumbers
    ensures { result ≡ record (of_kind kind) { count = count } }
{
    EffectNumbers {
        count,
        ..of_kind(kind)
    }
}

/// The numbers of an effect with a number and a count.
#[inline]
fn tallied(kind: u32, number: u32, count: u32) -> EffectNumbers
    ensures { result ≡ record (of_kind kind) { number = number; count = count } }
{
    EffectNumbers {
        number,
        count,
        ..of_kind(kind)
    }
}

/// The numbers of an effect on neighbouring pages.
#[inline]
fn at_pages(kind: u32, addr: u64, count: u32) -> EffectNumbers
    ensures { result ≡ record (of_kind kind) { count = count; addr = addr } }
{
    EffectNumbers {
        count,
        addr,
        ..of_kind(kind)
    }
}

/// The numbers of an effect on a page that is another one at the source.
#[inline]
fn at_home(kind: u32, addr: u64, origin: u64) -> EffectNumbers
    ensures { result ≡ record (of_kind kind) { addr = addr; other = origin } }
{
    EffectNumbers {
        addr,
        other: origin,
        ..of_kind(kind)
    }
}

/// The numbers of an effect on a processor.
#[inline]
fn in_cpu(kind: u32, cpu: u8) -> EffectNumbers
    ensures { result ≡ record (of_kind kind) { cpu = cpu } }
{
    EffectNumbers {
        cpu: u32::from(cpu),
        ..of_kind(kind)
    }
}

/// The numbers of an event that was read.
#[inline]
fn of_event(kind: u32, event: Message) -> EffectNumbers
    ensures { result ≡
        record (of_kind kind) {
          number = event_number event;
          addr = event_addr event;
          other = event_other event;
          length = event_length event;
        } }
{
    EffectNumbers {
        number: event_number(event),
        addr: event_addr(event),
        other: event_other(event),
        length: event_length(event),
        ..of_kind(kind)
    }
}

/// The numbers with a number.
#[inline]
fn with_number(numbers: EffectNumbers, number: u32) -> EffectNumbers
    ensures { result ≡ record numbers { number = number } }
{
    EffectNumbers { number, ..numbers }
}

/// The numbers with a count.
#[inline]
fn with_count(numbers: EffectNumbers, count: u32) -> EffectNumbers
    ensures { result ≡ record numbers { count = count } }
{
    EffectNumbers { count, ..numbers }
}

/// The numbers with a length.
#[inline]
fn with_length(numbers: EffectNumbers, length: u64) -> EffectNumbers
    ensures { result ≡ record numbers { length = length } }
{
    EffectNumbers { length, ..numbers }
}

/// The numbers with the address of the page at the source.
#[inline]
fn with_origin(numbers: EffectNumbers, origin: u64) -> EffectNumbers
    ensures { result ≡ record numbers { other = origin } }
{
    EffectNumbers {
        other: origin,
        ..numbers
    }
}

/// The numbers with a processor and its reply.
#[inline]
fn with_answer(numbers: EffectNumbers, cpu: u8, reply: Reply) -> EffectNumbers
    ensures { result ≡
        record numbers { cpu = cpu; value = reply_value reply; reply = reply_number reply } }
{
    EffectNumbers {
        cpu: u32::from(cpu),
        value: reply_value(reply),
        reply: reply_number(reply),
        ..numbers
    }
}

/// The numbers of an effect.
pub fn effect_numbers(effect: Effect) -> EffectNumbers
    ensures { result ≡ effect_numbers effect }
{
    match effect {
        Effect::Answered { cpu, reply } => with_answer(of_kind(1), cpu, reply),
        Effect::Asleep { cpu } => in_cpu(2, cpu),
        Effect::InCall { cpu, messages } => with_count(in_cpu(3, cpu), u32::from(messages)),
        Effect::Started { epoch } => numbered(4, epoch),
        Effect::RoundMade { round, todo } => tallied(5, round, todo),
        Effect::SentPage { addr } => at_page(6, addr),
        Effect::SentZero { addr } => at_page(7, addr),
        Effect::SentRun { addr, pages } => at_pages(8, addr, pages),
        Effect::ReadFault { addr, wp } => with_number(at_page(9, addr), u32::from(wp)),
        Effect::ReadEvent { event } => of_event(10, event),
        Effect::ReadLast { event, cpu, reply } => with_answer(of_event(11, event), cpu, reply),
        Effect::Unprotected { addr } => at_page(12, addr),
        Effect::Zeroed { addr } => at_page(13, addr),
        Effect::Woke { addr } => at_page(14, addr),
        Effect::Forgot { addr } => at_page(15, addr),
        Effect::Requested { origin, addr } => at_home(16, addr, origin),
        Effect::Switched { discard, owed } => tallied(17, discard, owed),
        Effect::Moved { bytes } => with_length(of_kind(18), bytes),
        Effect::TookAdvise => of_kind(19),
        Effect::TookPage { addr } => at_page(20, addr),
        Effect::TookZero { addr } => at_page(21, addr),
        Effect::TookRun { addr, pages } => at_pages(22, addr, pages),
        Effect::TookDiscard { pages } => counted(23, pages),
        Effect::TookPackage { owed } => counted(24, owed),
        Effect::TookEnd => of_kind(25),
        Effect::TookResume => of_kind(26),
        Effect::TookRequest { addr } => at_page(27, addr),
        Effect::TookRecv { state, pages } => tallied(28, state_number(state), pages),
        Effect::TookDone => of_kind(29),
        Effect::Installed { addr, origin } => at_home(30, addr, origin),
        Effect::Dropped { origin } => with_origin(of_kind(31), origin),
        Effect::Asked { addr } => at_page(32, addr),
        Effect::EndSent => of_kind(33),
        Effect::Broken => of_kind(34),
        Effect::Noticed { side } => numbered(35, side_number(side)),
        Effect::Resumed { epoch } => numbered(36, epoch),
    }
}
