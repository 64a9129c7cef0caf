//! Reading a line below the head of a log.

ghost use Rattle.std.specs.Prelude.{◌≡◌, IfOk, IfSome, IfNone};
ghost use Rattle.uffd_log.specs.declared.line.Line.{Line as LineOf};
ghost use Rattle.uffd_log.specs.Lines.{some_small, bits_from, stamp_from, call_line_from, other_line_from, stamped_from, line_from, Spells};

use crate::keyword::Keyword;
use crate::line::{Line, Stamp};
use crate::parse_answer::{answer_of, message_of};
use crate::parse_call::{call_of, small_of};
use crate::token::{Token, read_tokens};
use foundation::NoMemory;

/// The number, if it fits an `int` of C and is not 0.
fn some_small_of(n: u64) -> Option<u32>
    ensures { result ≡ some_small n }
{
    if 0 < n && n < 1 << 31 {
        Some(n as u32)
    } else {
        None
    }
}

fn bits_of(n: u64) -> Option<u64>
    ensures { result ≡ bits_from n }
{
    if 0 < n && n < 8 { Some(n) } else { None }
}

fn stamp_of(time: u64, pid: u64, tid: u64) -> Option<Stamp>
    ensures { result ≡ stamp_from time pid tid }
{
    let pid = some_small_of(pid)?;
    let tid = some_small_of(tid)?;
    Some(Stamp { time, pid, tid })
}

/// A line of a call, by the tokens after the stamp.
#[tactic(auto, unfolding(crate::specs::Lines::call_line_from))]
fn call_line_of(stamp: Stamp, tokens: &[Token]) -> Option<Line>
    ensures { result ≡ call_line_from stamp tokens.now }
{
    match tokens {
        [Token::Key(Keyword::Begin), Token::Number(n), rest @ ..] => {
            let call = call_of(rest)?;
            Some(Line::Begin {
                stamp,
                number: *n,
                call,
            })
        }
        [Token::Key(Keyword::End), Token::Number(n), rest @ ..] => {
            let answer = answer_of(rest)?;
            Some(Line::End {
                stamp,
                number: *n,
                answer,
            })
        }
        [Token::Key(Keyword::Message), Token::Number(n), rest @ ..] => {
            let message = message_of(rest)?;
            Some(Line::Read {
                stamp,
                number: *n,
                message,
            })
        }
        [
            Token::Key(Keyword::Have),
            Token::Number(n),
            Token::Number(start),
            Token::Number(len),
            Token::Number(bits),
        ] => {
            let bits = bits_of(*bits)?;
            Some(Line::Have {
                stamp,
                number: *n,
                start: *start,
                len: *len,
                bits,
            })
        }
        _ => None,
    }
}

/// A line of a descriptor or of a process, by the tokens after the stamp.
#[tactic(auto, unfolding(crate::specs::Lines::other_line_from))]
fn other_line_of(stamp: Stamp, tokens: &[Token]) -> Option<Line>
    ensures { result ≡ other_line_from stamp tokens.now }
{
    match tokens {
        [Token::Key(Keyword::Found), Token::On(on)] => Some(Line::Found { stamp, on: *on }),
        [Token::Key(Keyword::Dropped), Token::On(on)] => Some(Line::Dropped { stamp, on: *on }),
        [Token::Key(Keyword::Started), Token::Number(parent), _, ..] => {
            let parent = small_of(*parent)?;
            Some(Line::Started { stamp, parent })
        }
        [Token::Key(Keyword::Forked), Token::Number(parent)] => {
            let parent = small_of(*parent)?;
            Some(Line::Forked { stamp, parent })
        }
        [Token::Key(Keyword::Exit)] => Some(Line::Exit { stamp }),
        _ => None,
    }
}

fn stamped_of(stamp: Stamp, tokens: &[Token]) -> Option<Line>
    ensures { result ≡ stamped_from stamp tokens.now }
{
    match call_line_of(stamp, tokens) {
        Some(line) => Some(line),
        None => other_line_of(stamp, tokens),
    }
}

#[tactic(auto, unfolding(crate::specs::Lines::line_from))]
fn line_of(tokens: &[Token]) -> Option<Line>
    ensures { result ≡ line_from tokens.now }
{
    match tokens {
        [
            Token::Number(time),
            Token::Number(pid),
            Token::Number(tid),
            rest @ ..,
        ] => {
            let stamp = stamp_of(*time, *pid, *tid)?;
            stamped_of(stamp, rest)
        }
        [Token::Key(Keyword::Lost), Token::Number(n)] => {
            let count = some_small_of(*n)?;
            Some(Line::Lost(u64::from(count)))
        }
        _ => None,
    }
}

/// Reads the text of a line below the head, without its line feed: `None` if it is no line of the language. The tokens are replaced;
/// they only keep their room from line to line. `NoMemory` comes if room for tokens is refused.
pub fn parse(tokens: &mut Vec<Token>, text: &[u8]) -> Result<Option<Line>, NoMemory>
    ensures found { IfOk result (λ found. IfSome found (λ line. Spells text.now line)) }
    ensures none { IfOk result (λ found.
        IfNone found ((line : LineOf) → Spells text.now line → ⊥)) }
{
    if read_tokens(tokens, text)? {
        return Ok(line_of(tokens));
    }
    Ok(None)
}
