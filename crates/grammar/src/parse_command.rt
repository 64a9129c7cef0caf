//! Reading the command of a line, without its processor. `specs/Parsing.antt` repeats these functions, and `specs/Spelling.antt` defines
//! the words of a command. They are inlined like those of `parse_order`.

ghost use Rattle.std.specs.Prelude.{◌≡◌};
ghost use Rattle.grammar.specs.Parsing.{prot_from, place_from, target_from, access_from, mmap_from, mremap_from, map_call_from, command_from};

use crate::keyword::Keyword;
use crate::token::Token;
use mig_base::{Addr, Command, Place, Prot};

#[tactic(auto, unfolding(crate::specs::Parsing::prot_from))]
fn prot_of(keyword: Keyword) -> Option<Prot>
    ensures { result ≡ prot_from keyword }
{
    match keyword {
        Keyword::NoAccess => Some(Prot::NoAccess),
        Keyword::Read => Some(Prot::Read),
        Keyword::ReadWrite => Some(Prot::ReadWrite),
        _ => None,
    }
}

#[tactic(auto, unfolding(crate::specs::Parsing::place_from))]
fn place_of(tokens: &[Token]) -> Option<Place>
    ensures { result ≡ place_from tokens.now }
{
    match tokens {
        [] => Some(Place::Anywhere),
        [Token::Key(Keyword::Fixed), Token::Number(addr)] => Some(Place::Fixed(*addr)),
        [Token::Key(Keyword::NoReplace), Token::Number(addr)] => Some(Place::NoReplace(*addr)),
        _ => None,
    }
}

/// Whether a mapping may move, and its target if it must go there.
#[tactic(auto, unfolding(crate::specs::Parsing::target_from))]
fn target_of(tokens: &[Token]) -> Option<(bool, Option<Addr>)>
    ensures { result ≡ target_from tokens.now }
{
    match tokens {
        [] => Some((false, None)),
        [Token::Key(Keyword::MayMove)] => Some((true, None)),
        [Token::Key(Keyword::Fixed), Token::Number(addr)] => Some((false, Some(*addr))),
        [
            Token::Key(Keyword::MayMove),
            Token::Key(Keyword::Fixed),
            Token::Number(addr),
        ] => { Some((true, Some(*addr))) }
        _ => None,
    }
}

/// The load or store that tokens stand for.
#[tactic(auto, unfolding(crate::specs::Parsing::access_from))]
#[inline(always)]
fn access_of(tokens: &[Token]) -> Option<Command>
    ensures { result ≡ access_from tokens.now }
{
    match tokens {
        [
            Token::Key(Keyword::Load),
            Token::Number(addr),
            Token::Number(width),
        ] => {
            let width = u8::try_from(*width).ok()?;
            Some(Command::Load { addr: *addr, width })
        }
        [
            Token::Key(Keyword::Store),
            Token::Number(addr),
            Token::Number(width),
            Token::Number(value),
        ] => {
            let width = u8::try_from(*width).ok()?;
            Some(Command::Store {
                addr: *addr,
                width,
                value: *value,
            })
        }
        _ => None,
    }
}

#[inline(always)]
fn mmap_of(len: u64, prot: Keyword, place: &[Token]) -> Option<Command>
    ensures { result ≡ mmap_from len prot place.now }
{
    let prot = prot_of(prot)?;
    let place = place_of(place)?;
    Some(Command::Mmap {
        addr_len: len,
        prot,
        place,
    })
}

#[inline(always)]
fn mremap_of(addr: Addr, old_len: u64, new_len: u64, target: &[Token]) -> Option<Command>
    ensures { result ≡ mremap_from addr old_len new_len target.now }
{
    let (may_move, fixed) = target_of(target)?;
    Some(Command::Mremap {
        addr,
        old_len,
        new_len,
        may_move,
        fixed,
    })
}

/// The map call that tokens stand for.
#[tactic(auto, unfolding(crate::specs::Parsing::map_call_from))]
#[inline(always)]
fn map_call_of(tokens: &[Token]) -> Option<Command>
    ensures { result ≡ map_call_from tokens.now }
{
    match tokens {
        [
            Token::Key(Keyword::Mmap),
            Token::Number(len),
            Token::Key(prot),
            place @ ..,
        ] => mmap_of(*len, *prot, place),
        [
            Token::Key(Keyword::Munmap),
            Token::Number(addr),
            Token::Number(len),
        ] => {
            Some(Command::Munmap {
                addr: *addr,
                len: *len,
            })
        }
        [
            Token::Key(Keyword::Mremap),
            Token::Number(addr),
            Token::Number(old_len),
            Token::Number(new_len),
            target @ ..,
        ] => mremap_of(*addr, *old_len, *new_len, target),
        [
            Token::Key(Keyword::DontNeed),
            Token::Number(addr),
            Token::Number(len),
        ] => {
            Some(Command::DontNeed {
                addr: *addr,
                len: *len,
            })
        }
        _ => None,
    }
}

/// The command that tokens stand for, without a processor.
#[inline(always)]
pub fn command_of(tokens: &[Token]) -> Option<Command>
    ensures { result ≡ command_from tokens.now }
{
    match access_of(tokens) {
        Some(command) => Some(command),
        None => map_call_of(tokens),
    }
}
