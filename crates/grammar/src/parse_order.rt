//! Reading a line of a script.
//!
//! Each word is a [`Keyword`] or a number, so a line is a list of [`Token`]s. The first word is the kind of the order, and each kind
//! has a function over the tokens after it. `specs/Parsing.antt` repeats these functions, and `specs/Spelling.antt` defines the tokens
//! of an order; `proofs/Orders.antt` has one case for each kind in both directions.
//!
//! An order is several machine words wide, and each call would copy it, so the functions that build one are inlined.

ghost use Rattle.std.specs.Prelude.{◌≡◌, IfOk, IfSome, IfNone};
ghost use Rattle.grammar.specs.declared.order.Order.{Order as OrderOf};
ghost use Rattle.grammar.specs.Words.{words_of};
ghost use Rattle.grammar.specs.Spelling.{SpellsOrder};
ghost use Rattle.grammar.specs.Parsing.{page_from, epoch_from, bytes_from, issue_from, retry_from, run_from, notice_from, push_from, word_from, alone_from, order_with as order_with_words, order_from};

use crate::keyword::Keyword;
use crate::order::{ForwardWire, Order};
use crate::parse_command::command_of;
use crate::token::{Token, read_tokens};
use mig_base::schedule::{Side, Step};
use mig_base::{Addr, HIGH, MAX_RUN, NoMemory, PAGE_SIZE, PageNo};

/// The page that begins at an address below [`HIGH`].
fn page_of(addr: Addr) -> Option<PageNo>
    ensures { result ≡ page_from addr }
{
    if addr % PAGE_SIZE != 0 || addr >= HIGH {
        return None;
    }
    Some((addr / PAGE_SIZE) as PageNo)
}

/// The epoch that is written, if one is.
#[tactic(auto, unfolding(crate::specs::Parsing::epoch_from))]
fn epoch_of(tokens: &[Token]) -> Option<Option<u32>>
    ensures { result ≡ epoch_from tokens.now }
{
    match tokens {
        [] => Some(None),
        [Token::Number(epoch)] => {
            let epoch = u32::try_from(*epoch).ok()?;
            Some(Some(epoch))
        }
        _ => None,
    }
}

/// The number of bytes to move: the greatest if no number is written.
#[tactic(auto, unfolding(crate::specs::Parsing::bytes_from))]
fn bytes_of(tokens: &[Token]) -> Option<u64>
    ensures { result ≡ bytes_from tokens.now }
{
    match tokens {
        [] => Some(u64::MAX),
        [Token::Number(bytes)] => Some(*bytes),
        _ => None,
    }
}

#[tactic(auto, unfolding(crate::specs::Parsing::issue_from))]
#[inline(always)]
fn issue_of(tokens: &[Token]) -> Option<Order>
    ensures { result ≡ issue_from tokens.now }
{
    match tokens {
        [Token::Number(cpu), command @ ..] => {
            let cpu = u8::try_from(*cpu).ok()?;
            let command = command_of(command)?;
            Some(Order::Make(Step::Issue { cpu, command }))
        }
        _ => None,
    }
}

#[tactic(auto, unfolding(crate::specs::Parsing::retry_from))]
fn retry_of(tokens: &[Token]) -> Option<Order>
    ensures { result ≡ retry_from tokens.now }
{
    match tokens {
        [Token::Number(cpu)] => {
            let cpu = u8::try_from(*cpu).ok()?;
            Some(Order::Make(Step::Retry { cpu }))
        }
        _ => None,
    }
}

#[tactic(auto, unfolding(crate::specs::Parsing::run_from))]
fn run_of(tokens: &[Token]) -> Option<Order>
    ensures { result ≡ run_from tokens.now }
{
    match tokens {
        [Token::Number(count)] => {
            let count = u8::try_from(*count).ok()?;
            if count == 0 || count > MAX_RUN {
                return None;
            }
            Some(Order::Make(Step::SendRun { count }))
        }
        _ => None,
    }
}

#[tactic(auto, unfolding(crate::specs::Parsing::notice_from))]
fn notice_of(tokens: &[Token]) -> Option<Order>
    ensures { result ≡ notice_from tokens.now }
{
    match tokens {
        [Token::Key(Keyword::Source)] => Some(Order::Make(Step::Notice(Side::Source))),
        [Token::Key(Keyword::Dest)] => Some(Order::Make(Step::Notice(Side::Destination))),
        _ => None,
    }
}

#[tactic(auto, unfolding(crate::specs::Parsing::push_from))]
#[inline(always)]
fn push_of(wire: ForwardWire, tokens: &[Token]) -> Option<Order>
    ensures { result ≡ push_from wire tokens.now }
{
    match tokens {
        [Token::Number(addr), epoch @ ..] => {
            let page = page_of(*addr)?;
            let epoch = epoch_of(epoch)?;
            Some(Order::Push { wire, page, epoch })
        }
        _ => None,
    }
}

/// The order that a word stands for if no other follows.
#[tactic(auto, unfolding(crate::specs::Parsing::word_from))]
fn word_of(word: Keyword) -> Option<Order>
    ensures { result ≡ word_from word }
{
    match word {
        Keyword::Start => Some(Order::Make(Step::Start)),
        Keyword::Round => Some(Order::Make(Step::Round)),
        Keyword::Send => Some(Order::Make(Step::Send)),
        Keyword::SourceRead => Some(Order::Make(Step::SourceRead)),
        Keyword::SourceAct => Some(Order::Make(Step::SourceAct)),
        Keyword::Switch => Some(Order::Make(Step::Switch)),
        Keyword::DestRead => Some(Order::Make(Step::DestRead)),
        Keyword::DestAct => Some(Order::Make(Step::DestAct)),
        Keyword::Install => Some(Order::Make(Step::Install)),
        Keyword::Serve => Some(Order::Make(Step::Serve)),
        Keyword::End => Some(Order::Make(Step::End)),
        Keyword::Break => Some(Order::Make(Step::Break)),
        Keyword::Resume => Some(Order::Make(Step::Resume)),
        Keyword::Progress => Some(Order::Progress),
        _ => None,
    }
}

/// The same; `None` if another word follows.
#[tactic(auto, unfolding(crate::specs::Parsing::alone_from))]
fn alone(word: Keyword, behind: &[Token]) -> Option<Order>
    ensures { result ≡ alone_from word behind.now }
{
    match behind {
        [] => word_of(word),
        _ => None,
    }
}

/// The order that a first word and the tokens after it stand for.
#[tactic(auto, unfolding(crate::specs::Parsing::order_with))]
fn order_with(word: Keyword, behind: &[Token]) -> Option<Order>
    ensures { result ≡ order_with_words word behind.now }
{
    match word {
        Keyword::Cpu => issue_of(behind),
        Keyword::Retry => retry_of(behind),
        Keyword::SendRun => run_of(behind),
        Keyword::Deliver => {
            let n = bytes_of(behind)?;
            Some(Order::Make(Step::Deliver { n }))
        }
        Keyword::Back => {
            let n = bytes_of(behind)?;
            Some(Order::Make(Step::DeliverBack { n }))
        }
        Keyword::DeliverUrgent => {
            let n = bytes_of(behind)?;
            Some(Order::Make(Step::DeliverUrgent { n }))
        }
        Keyword::Push => push_of(ForwardWire::Main, behind),
        Keyword::PushUrgent => push_of(ForwardWire::Urgent, behind),
        Keyword::Notice => notice_of(behind),
        _ => alone(word, behind),
    }
}

#[tactic(auto, unfolding(crate::specs::Parsing::order_from))]
fn order_of(tokens: &[Token]) -> Option<Order>
    ensures { result ≡ order_from tokens.now }
{
    match tokens {
        [Token::Key(word), behind @ ..] => order_with(*word, behind),
        _ => None,
    }
}

/// The order that the words of a text spell, if any. The tokens are replaced. `NoMemory` is returned if room for tokens is refused.
pub fn order_in(tokens: &mut Vec<Token>, text: &[u8]) -> Result<Option<Order>, NoMemory>
    ensures found { IfOk result (λ found.
        IfSome found (λ order. SpellsOrder (words_of text.now) order)) }
    ensures none { IfOk result (λ found.
        IfNone found ((order : OrderOf) → SpellsOrder (words_of text.now) order → ⊥)) }
{
    if read_tokens(tokens, text)? {
        Ok(order_of(tokens))
    } else {
        Ok(None)
    }
}
