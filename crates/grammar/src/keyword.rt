//! Keywords: the words that a line may have besides numbers.

ghost use Rattle.std.specs.Prelude.{◌≡◌, IfSome, IfNone, true};
ghost use Rattle.grammar.specs.declared.keyword.Keyword.{Keyword as KeywordOf};
ghost use Rattle.grammar.specs.Words.{keyword_text};
ghost use Rattle.grammar.specs.Kinds.{is_of_command, is_of_step, is_of_reply};

/// A word of scripts or transcripts.
#[derive(Clone, Copy, Debug, PartialEq, Eq)]
pub enum Keyword {
    Cpu,
    Load,
    Store,
    Mmap,
    Munmap,
    /// A protection, like the next two.
    NoAccess,
    Read,
    ReadWrite,
    Mremap,
    DontNeed,
    Fixed,
    NoReplace,
    MayMove,
    Retry,
    Start,
    Round,
    Send,
    SendRun,
    SourceRead,
    SourceAct,
    Switch,
    Deliver,
    Back,
    DeliverUrgent,
    DestRead,
    DestAct,
    Install,
    Push,
    PushUrgent,
    Serve,
    End,
    Break,
    Notice,
    /// A side of the channel, like the next.
    Source,
    Dest,
    Resume,
    Progress,
    /// The arrow before a reply.
    Gives,
    Value,
    Done,
    At,
    Segv,
    Unmapped,
    Protected,
    Bad,
    Access,
    Refused,
    Eperm,
    Enoent,
    Eagain,
    Enomem,
    Efault,
    Eexist,
    Einval,
}

impl Keyword {
    /// The keyword that is written as this word.
    pub fn from_text(word: &[u8]) -> Option<Keyword>
        ensures found { IfSome result (λ keyword. word.now ≡ keyword_text keyword) }
        ensures none { IfNone result ((keyword : KeywordOf) → word.now ≡ keyword_text keyword → ⊥) }
    {
        if let Some(keyword) = of_command(word) {
            return Some(keyword);
        }
        if let Some(keyword) = of_step(word) {
            return Some(keyword);
        }
        of_reply(word)
    }
}

/// A word of commands.
fn of_command(word: &[u8]) -> Option<Keyword>
    ensures found { IfSome result (λ keyword. word.now ≡ keyword_text keyword) }
    ensures none { IfNone result ((keyword : KeywordOf) → is_of_command keyword ≡ true →
        word.now ≡ keyword_text keyword → ⊥) }
{
    match word {
        b"cpu" => Some(Keyword::Cpu),
        b"load" => Some(Keyword::Load),
        b"store" => Some(Keyword::Store),
        b"mmap" => Some(Keyword::Mmap),
        b"munmap" => Some(Keyword::Munmap),
        b"none" => Some(Keyword::NoAccess),
        b"r" => Some(Keyword::Read),
        b"rw" => Some(Keyword::ReadWrite),
        b"mremap" => Some(Keyword::Mremap),
        b"dontneed" => Some(Keyword::DontNeed),
        b"fixed" => Some(Keyword::Fixed),
        b"noreplace" => Some(Keyword::NoReplace),
        b"maymove" => Some(Keyword::MayMove),
        _ => None,
    }
}

/// A word of the other steps, or `progress`.
fn of_step(word: &[u8]) -> Option<Keyword>
    ensures found { IfSome result (λ keyword. word.now ≡ keyword_text keyword) }
    ensures none { IfNone result ((keyword : KeywordOf) → is_of_step keyword ≡ true →
        word.now ≡ keyword_text keyword → ⊥) }
{
    match word {
        b"retry" => Some(Keyword::Retry),
        b"start" => Some(Keyword::Start),
        b"round" => Some(Keyword::Round),
        b"send" => Some(Keyword::Send),
        b"sendrun" => Some(Keyword::SendRun),
        b"sread" => Some(Keyword::SourceRead),
        b"sact" => Some(Keyword::SourceAct),
        b"switch" => Some(Keyword::Switch),
        b"deliver" => Some(Keyword::Deliver),
        b"back" => Some(Keyword::Back),
        b"udeliver" => Some(Keyword::DeliverUrgent),
        b"dread" => Some(Keyword::DestRead),
        b"dact" => Some(Keyword::DestAct),
        b"install" => Some(Keyword::Install),
        b"push" => Some(Keyword::Push),
        b"upush" => Some(Keyword::PushUrgent),
        b"serve" => Some(Keyword::Serve),
        b"end" => Some(Keyword::End),
        b"break" => Some(Keyword::Break),
        b"notice" => Some(Keyword::Notice),
        b"source" => Some(Keyword::Source),
        b"dest" => Some(Keyword::Dest),
        b"resume" => Some(Keyword::Resume),
        b"progress" => Some(Keyword::Progress),
        _ => None,
    }
}

/// A word of replies, or the arrow before them.
fn of_reply(word: &[u8]) -> Option<Keyword>
    ensures found { IfSome result (λ keyword. word.now ≡ keyword_text keyword) }
    ensures none { IfNone result ((keyword : KeywordOf) → is_of_reply keyword ≡ true →
        word.now ≡ keyword_text keyword → ⊥) }
{
    match word {
        b"=>" => Some(Keyword::Gives),
        b"value" => Some(Keyword::Value),
        b"done" => Some(Keyword::Done),
        b"at" => Some(Keyword::At),
        b"segv" => Some(Keyword::Segv),
        b"unmapped" => Some(Keyword::Unmapped),
        b"protected" => Some(Keyword::Protected),
        b"bad" => Some(Keyword::Bad),
        b"access" => Some(Keyword::Access),
        b"refused" => Some(Keyword::Refused),
        b"EPERM" => Some(Keyword::Eperm),
        b"ENOENT" => Some(Keyword::Enoent),
        b"EAGAIN" => Some(Keyword::Eagain),
        b"ENOMEM" => Some(Keyword::Enomem),
        b"EFAULT" => Some(Keyword::Efault),
        b"EEXIST" => Some(Keyword::Eexist),
        b"EINVAL" => Some(Keyword::Einval),
        _ => None,
    }
}
