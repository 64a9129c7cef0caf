//! Reading the answer of a call, or a message. `specs/Lines.antt` repeats these functions.

ghost use Rattle.std.specs.Prelude.{◌≡◌};
ghost use Rattle.uffd_log.specs.Lines.{errno_from, bytes_from, failed_from, done_from, answer_from, message_from};

use crate::call::Message;
use crate::errno::Errno;
use crate::keyword::Keyword;
use crate::line::Answer;
use crate::parse_call::small_of;
use crate::token::Token;

#[tactic(auto, unfolding(crate::specs::Lines::errno_from))]
fn errno_of(token: Token) -> Option<Errno>
    ensures { result ≡ errno_from token }
{
    match token {
        Token::Key(Keyword::Eperm) => Some(Errno::Eperm),
        Token::Key(Keyword::Enoent) => Some(Errno::Enoent),
        Token::Key(Keyword::Esrch) => Some(Errno::Esrch),
        Token::Key(Keyword::Eintr) => Some(Errno::Eintr),
        Token::Key(Keyword::Eagain) => Some(Errno::Eagain),
        Token::Key(Keyword::Enomem) => Some(Errno::Enomem),
        Token::Key(Keyword::Efault) => Some(Errno::Efault),
        Token::Key(Keyword::Ebusy) => Some(Errno::Ebusy),
        Token::Key(Keyword::Eexist) => Some(Errno::Eexist),
        Token::Key(Keyword::Einval) => Some(Errno::Einval),
        Token::Error => Some(Errno::Other),
        _ => None,
    }
}

/// The result field after an error: one that is negative, or absent, says nothing.
#[tactic(auto, unfolding(crate::specs::Lines::bytes_from))]
fn bytes_of(tokens: &[Token]) -> Option<Option<u64>>
    ensures { result ≡ bytes_from tokens.now }
{
    match tokens {
        [] => Some(None),
        [Token::Number(n)] => Some(Some(*n)),
        [Token::Minus(_)] => Some(None),
        _ => None,
    }
}

fn failed_of(name: Token, bytes: &[Token]) -> Option<Answer>
    ensures { result ≡ failed_from name bytes.now }
{
    let errno = errno_of(name)?;
    let bytes = bytes_of(bytes)?;
    Some(Answer::Failed { errno, bytes })
}

#[tactic(auto, unfolding(crate::specs::Lines::done_from))]
fn done_of(tokens: &[Token]) -> Option<Answer>
    ensures { result ≡ done_from tokens.now }
{
    match tokens {
        [Token::Key(Keyword::Ok)] => Some(Answer::Done),
        [Token::Key(Keyword::Ok), Token::On(on)] => Some(Answer::Opened(*on)),
        [Token::Key(Keyword::Ok), Token::Number(n)] => Some(Answer::Value(*n)),
        [Token::Key(Keyword::Ok), Token::Minus(n)] => Some(Answer::Minus(*n)),
        [
            Token::Key(Keyword::Ok),
            Token::Number(features),
            Token::Number(ioctls),
        ] => Some(Answer::Features {
            features: *features,
            ioctls: *ioctls,
        }),
        [Token::Key(Keyword::Interrupted)] => Some(Answer::Interrupted),
        _ => None,
    }
}

/// The answer that tokens stand for.
pub fn answer_of(tokens: &[Token]) -> Option<Answer>
    ensures { result ≡ answer_from tokens.now }
{
    let [first, rest @ ..] = tokens else {
        return None;
    };
    match done_of(tokens) {
        Some(answer) => Some(answer),
        None => failed_of(*first, rest),
    }
}

/// The message that tokens stand for.
#[tactic(auto, unfolding(crate::specs::Lines::message_from))]
pub fn message_of(tokens: &[Token]) -> Option<Message>
    ensures { result ≡ message_from tokens.now }
{
    match tokens {
        [
            Token::Key(Keyword::Fault),
            Token::Number(addr),
            Token::Number(flags),
            Token::Number(thread),
        ] => {
            let thread = small_of(*thread)?;
            Some(Message::Fault {
                addr: *addr,
                flags: *flags,
                thread,
            })
        }
        [Token::Key(Keyword::Fork), Token::On(child)] => Some(Message::Fork { child: *child }),
        [
            Token::Key(Keyword::Remap),
            Token::Number(from),
            Token::Number(to),
            Token::Number(len),
        ] => Some(Message::Remap {
            from: *from,
            to: *to,
            len: *len,
        }),
        [
            Token::Key(Keyword::Remove),
            Token::Number(start),
            Token::Number(end),
        ] => Some(Message::Remove {
            start: *start,
            end: *end,
        }),
        [
            Token::Key(Keyword::Unmap),
            Token::Number(start),
            Token::Number(end),
        ] => Some(Message::Unmap {
            start: *start,
            end: *end,
        }),
        _ => None,
    }
}
