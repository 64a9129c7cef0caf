//! Reading a line of a transcript: an entry, which is a processor, its command, `=>` and the reply.

ghost use Rattle.std.specs.Prelude.{◌≡◌, None, Some, IfOk, IfSome, IfNone};
ghost use Rattle.mig_base.specs.declared.command.Entry.{Entry as EntryOf};
ghost use Rattle.grammar.specs.Words.{words_of};
ghost use Rattle.grammar.specs.Spelling.{SpellsEntry};
ghost use Rattle.grammar.specs.Parsing.{errno_from, reply_from, is_arrow as is_arrow_token, at_arrow, entry_from};

use crate::keyword::Keyword;
use crate::parse_command::command_of;
use crate::token::{Token, read_tokens};
use mig_base::{Entry, Errno, NoMemory, Reply};

#[tactic(auto, unfolding(crate::specs::Parsing::errno_from))]
fn errno_of(keyword: Keyword) -> Option<Errno>
    ensures { result ≡ errno_from keyword }
{
    match keyword {
        Keyword::Eperm => Some(Errno::Eperm),
        Keyword::Enoent => Some(Errno::Enoent),
        Keyword::Eagain => Some(Errno::Eagain),
        Keyword::Enomem => Some(Errno::Enomem),
        Keyword::Efault => Some(Errno::Efault),
        Keyword::Eexist => Some(Errno::Eexist),
        Keyword::Einval => Some(Errno::Einval),
        _ => None,
    }
}

#[tactic(auto, unfolding(crate::specs::Parsing::reply_from))]
fn reply_of(tokens: &[Token]) -> Option<Reply>
    ensures { result ≡ reply_from tokens.now }
{
    match tokens {
        [Token::Key(Keyword::Value), Token::Number(value)] => Some(Reply::Value(*value)),
        [Token::Key(Keyword::Done)] => Some(Reply::Done),
        [Token::Key(Keyword::At), Token::Number(addr)] => Some(Reply::At(*addr)),
        [Token::Key(Keyword::Segv), Token::Key(Keyword::Unmapped)] => {
            Some(Reply::Segv { mapped: false })
        }
        [Token::Key(Keyword::Segv), Token::Key(Keyword::Protected)] => {
            Some(Reply::Segv { mapped: true })
        }
        [Token::Key(Keyword::Bad), Token::Key(Keyword::Access)] => Some(Reply::BadAccess),
        [Token::Key(Keyword::Refused), Token::Key(errno)] => {
            let errno = errno_of(*errno)?;
            Some(Reply::Refused(errno))
        }
        _ => None,
    }
}

/// Whether a token is `=>`.
fn is_arrow(token: Token) -> bool
    ensures { result ≡ is_arrow_token token }
{
    match token {
        Token::Key(Keyword::Gives) => true,
        _ => false,
    }
}

/// The tokens before the first `=>`, and those after it.
fn split_reply(tokens: &[Token]) -> Option<(&[Token], &[Token])>
    ensures found { IfSome result (λ parts. at_arrow tokens.now ≡ Some (parts.0.now, parts.1.now)) }
    ensures none { IfNone result (at_arrow tokens.now ≡ None) }
{
    for at in 0..tokens.len() {
        if is_arrow(tokens[at]) {
            return Some((&tokens[..at], &tokens[at + 1..]));
        }
    }
    None
}

#[tactic(auto, unfolding(crate::specs::Parsing::entry_from))]
fn entry_of(tokens: &[Token]) -> Option<Entry>
    ensures { result ≡ entry_from tokens.now }
{
    match tokens {
        [Token::Number(cpu), tokens @ ..] => {
            let cpu = u8::try_from(*cpu).ok()?;
            let (command, reply) = split_reply(tokens)?;
            let command = command_of(command)?;
            let reply = reply_of(reply)?;
            Some(Entry {
                cpu,
                command,
                reply,
            })
        }
        _ => None,
    }
}

/// The entry that the words of a text spell, if any. The tokens are replaced. `NoMemory` is returned if room for tokens is refused.
pub fn entry_in(tokens: &mut Vec<Token>, text: &[u8]) -> Result<Option<Entry>, NoMemory>
    ensures found { IfOk result (λ found.
        IfSome found (λ entry. SpellsEntry (words_of text.now) entry)) }
    ensures none { IfOk result (λ found.
        IfNone found ((entry : EntryOf) → SpellsEntry (words_of text.now) entry → ⊥)) }
{
    if read_tokens(tokens, text)? {
        Ok(entry_of(tokens))
    } else {
        Ok(None)
    }
}
