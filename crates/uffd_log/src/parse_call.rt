//! Reading the call of a line. `specs/Lines.antt` repeats these functions.

ghost use Rattle.std.specs.Prelude.{◌≡◌};
ghost use Rattle.uffd_log.specs.Lines.{small, object_call_from, mode_call_from, range_call_from, copy_call_from, put_call_from, read_call_from, map_call_from, page_call_from, call_from};

use crate::call::Call;
use crate::keyword::Keyword;
use crate::token::Token;

/// The number, if it fits an `int` of C.
pub fn small_of(n: u64) -> Option<u32>
    ensures { result ≡ small n }
{
    if n < 1 << 31 { Some(n as u32) } else { None }
}

#[tactic(auto, unfolding(crate::specs::Lines::object_call_from))]
fn object_call_of(tokens: &[Token]) -> Option<Call>
    ensures { result ≡ object_call_from tokens.now }
{
    match tokens {
        [
            Token::Key(Keyword::Open),
            Token::Key(Keyword::Syscall),
            Token::Number(flags),
        ] => Some(Call::Open {
            device: false,
            flags: *flags,
        }),
        [
            Token::Key(Keyword::Open),
            Token::Key(Keyword::Device),
            Token::Number(flags),
        ] => Some(Call::Open {
            device: true,
            flags: *flags,
        }),
        [
            Token::Key(Keyword::Api),
            Token::On(on),
            Token::Number(api),
            Token::Number(features),
        ] => Some(Call::Api {
            on: *on,
            api: *api,
            features: *features,
        }),
        [
            Token::Key(Keyword::NonBlock),
            Token::On(on),
            Token::Number(0),
        ] => Some(Call::NonBlock {
            on: *on,
            set: false,
        }),
        [
            Token::Key(Keyword::NonBlock),
            Token::On(on),
            Token::Number(1),
        ] => Some(Call::NonBlock { on: *on, set: true }),
        [Token::Key(Keyword::Close), Token::On(on)] => Some(Call::Close { on: *on }),
        _ => None,
    }
}

#[tactic(auto, unfolding(crate::specs::Lines::mode_call_from))]
fn mode_call_of(tokens: &[Token]) -> Option<Call>
    ensures { result ≡ mode_call_from tokens.now }
{
    match tokens {
        [
            Token::Key(Keyword::Register),
            Token::On(on),
            Token::Number(start),
            Token::Number(len),
            Token::Number(mode),
        ] => Some(Call::Register {
            on: *on,
            start: *start,
            len: *len,
            mode: *mode,
        }),
        [
            Token::Key(Keyword::WriteProtect),
            Token::On(on),
            Token::Number(start),
            Token::Number(len),
            Token::Number(mode),
        ] => Some(Call::WriteProtect {
            on: *on,
            start: *start,
            len: *len,
            mode: *mode,
        }),
        _ => None,
    }
}

#[tactic(auto, unfolding(crate::specs::Lines::range_call_from))]
fn range_call_of(tokens: &[Token]) -> Option<Call>
    ensures { result ≡ range_call_from tokens.now }
{
    match tokens {
        [
            Token::Key(Keyword::Unregister),
            Token::On(on),
            Token::Number(start),
            Token::Number(len),
        ] => Some(Call::Unregister {
            on: *on,
            start: *start,
            len: *len,
        }),
        [
            Token::Key(Keyword::Wake),
            Token::On(on),
            Token::Number(start),
            Token::Number(len),
        ] => Some(Call::Wake {
            on: *on,
            start: *start,
            len: *len,
        }),
        [
            Token::Key(Keyword::Scan),
            Token::On(on),
            Token::Number(start),
            Token::Number(len),
        ] => Some(Call::Scan {
            on: *on,
            start: *start,
            len: *len,
        }),
        _ => None,
    }
}

#[tactic(auto, unfolding(crate::specs::Lines::copy_call_from))]
fn copy_call_of(tokens: &[Token]) -> Option<Call>
    ensures { result ≡ copy_call_from tokens.now }
{
    match tokens {
        [
            Token::Key(Keyword::Copy),
            Token::On(on),
            Token::Number(to),
            Token::Number(from),
            Token::Number(len),
            Token::Number(mode),
        ] => Some(Call::Copy {
            on: *on,
            to: *to,
            from: *from,
            len: *len,
            mode: *mode,
        }),
        [
            Token::Key(Keyword::Move),
            Token::On(on),
            Token::Number(to),
            Token::Number(from),
            Token::Number(len),
            Token::Number(mode),
        ] => Some(Call::Move {
            on: *on,
            to: *to,
            from: *from,
            len: *len,
            mode: *mode,
        }),
        _ => None,
    }
}

#[tactic(auto, unfolding(crate::specs::Lines::put_call_from))]
fn put_call_of(tokens: &[Token]) -> Option<Call>
    ensures { result ≡ put_call_from tokens.now }
{
    match tokens {
        [
            Token::Key(Keyword::ZeroPage),
            Token::On(on),
            Token::Number(start),
            Token::Number(len),
            Token::Number(mode),
        ] => Some(Call::ZeroPage {
            on: *on,
            start: *start,
            len: *len,
            mode: *mode,
        }),
        [
            Token::Key(Keyword::Continue),
            Token::On(on),
            Token::Number(start),
            Token::Number(len),
            Token::Number(mode),
        ] => Some(Call::Continue {
            on: *on,
            start: *start,
            len: *len,
            mode: *mode,
        }),
        [
            Token::Key(Keyword::Poison),
            Token::On(on),
            Token::Number(start),
            Token::Number(len),
            Token::Number(mode),
        ] => Some(Call::Poison {
            on: *on,
            start: *start,
            len: *len,
            mode: *mode,
        }),
        _ => None,
    }
}

#[tactic(auto, unfolding(crate::specs::Lines::read_call_from))]
fn read_call_of(tokens: &[Token]) -> Option<Call>
    ensures { result ≡ read_call_from tokens.now }
{
    match tokens {
        [
            Token::Key(Keyword::Read),
            Token::On(on),
            Token::Number(room),
        ] => Some(Call::Read {
            on: *on,
            room: Some(*room),
        }),
        [
            Token::Key(Keyword::Read),
            Token::On(on),
            Token::Key(Keyword::Dash),
        ] => Some(Call::Read {
            on: *on,
            room: None,
        }),
        [Token::Key(Keyword::Poll), Token::On(on)] => Some(Call::Poll { on: *on }),
        [
            Token::Key(Keyword::Dup),
            Token::On(on),
            Token::Key(Keyword::Dash),
        ] => Some(Call::Dup {
            on: *on,
            target: None,
        }),
        [
            Token::Key(Keyword::Dup),
            Token::On(on),
            Token::Number(target),
        ] => {
            let target = small_of(*target)?;
            Some(Call::Dup {
                on: *on,
                target: Some(target),
            })
        }
        _ => None,
    }
}

#[tactic(auto, unfolding(crate::specs::Lines::map_call_from))]
fn map_call_of(tokens: &[Token]) -> Option<Call>
    ensures { result ≡ map_call_from tokens.now }
{
    match tokens {
        [
            Token::Key(Keyword::Mmap),
            Token::Number(addr),
            Token::Number(len),
            Token::Number(prot),
            Token::Number(flags),
        ] => Some(Call::Mmap {
            addr: *addr,
            len: *len,
            prot: *prot,
            flags: *flags,
        }),
        [
            Token::Key(Keyword::Munmap),
            Token::Number(addr),
            Token::Number(len),
        ] => Some(Call::Munmap {
            addr: *addr,
            len: *len,
        }),
        [Token::Key(Keyword::Fork)] => Some(Call::Fork),
        _ => None,
    }
}

#[tactic(auto, unfolding(crate::specs::Lines::page_call_from))]
fn page_call_of(tokens: &[Token]) -> Option<Call>
    ensures { result ≡ page_call_from tokens.now }
{
    match tokens {
        [
            Token::Key(Keyword::Mremap),
            Token::Number(addr),
            Token::Number(old_len),
            Token::Number(new_len),
            Token::Number(flags),
            Token::Number(target),
        ] => Some(Call::Mremap {
            addr: *addr,
            old_len: *old_len,
            new_len: *new_len,
            flags: *flags,
            target: *target,
        }),
        [
            Token::Key(Keyword::Madvise),
            Token::Number(addr),
            Token::Number(len),
            Token::Number(advice),
        ] => Some(Call::Madvise {
            addr: *addr,
            len: *len,
            advice: *advice,
        }),
        _ => None,
    }
}

/// The call of some tokens.
pub fn call_of(tokens: &[Token]) -> Option<Call>
    ensures { result ≡ call_from tokens.now }
{
    if let Some(call) = object_call_of(tokens) {
        return Some(call);
    }
    if let Some(call) = mode_call_of(tokens) {
        return Some(call);
    }
    if let Some(call) = range_call_of(tokens) {
        return Some(call);
    }
    if let Some(call) = copy_call_of(tokens) {
        return Some(call);
    }
    if let Some(call) = put_call_of(tokens) {
        return Some(call);
    }
    if let Some(call) = read_call_of(tokens) {
        return Some(call);
    }
    match map_call_of(tokens) {
        Some(call) => Some(call),
        None => page_call_of(tokens),
    }
}
