//! Keywords: the words of lines other than numbers, descriptors and texts.

ghost use Rattle.std.specs.Prelude.{◌≡◌, ◌↔◌, IsTrue, IfSome, IfNone, true};
ghost use Rattle.uffd_log.specs.declared.keyword.Keyword.{Keyword as KeywordOf};
ghost use Rattle.uffd_log.specs.Words.{keyword_text};
ghost use Rattle.uffd_log.specs.Kinds.{is_of_call, is_of_line, is_of_answer};

/// A word of a log.
#[derive(Clone, Copy)]
pub enum Keyword {
    // Calls
    Open,
    Api,
    Register,
    Unregister,
    Wake,
    Copy,
    Move,
    ZeroPage,
    Continue,
    Poison,
    WriteProtect,
    Read,
    Poll,
    NonBlock,
    Dup,
    Close,
    Scan,
    Mmap,
    Munmap,
    Mremap,
    Madvise,
    /// A call, and a message.
    Fork,
    Syscall,
    Device,
    /// What the log does not say.
    Dash,
    // Lines and messages
    Begin,
    End,
    Message,
    Have,
    Found,
    Dropped,
    Started,
    Forked,
    Exit,
    Lost,
    Fault,
    Remap,
    Remove,
    Unmap,
    // Answers
    Ok,
    Interrupted,
    Eperm,
    Enoent,
    Esrch,
    Eintr,
    Eagain,
    Enomem,
    Efault,
    Ebusy,
    Eexist,
    Einval,
}

impl Keyword {
    /// The keyword that is written as this word.
    pub fn from_text(word: &[u8]) -> Option<Keyword>
        ensures found { IfSome result (λ keyword. word.now ≡ keyword_text keyword) }
        ensures none { IfNone result ((keyword : KeywordOf) → word.now ≡ keyword_text keyword → ⊥) }
    {
        if let Some(keyword) = of_line(word) {
            return Some(keyword);
        }
        if let Some(keyword) = of_answer(word) {
            return Some(keyword);
        }
        of_call(word)
    }
}

/// Whether two words are the same. A pattern for each keyword would be compared, and proved, byte by byte.
fn is_same(word: &[u8], other: &[u8]) -> bool
    ensures { IsTrue result ↔ (word.now ≡ other.now) }
{
    word == other
}

/// A word of calls.
fn of_call(word: &[u8]) -> Option<Keyword>
    ensures found { IfSome result (λ keyword. word.now ≡ keyword_text keyword) }
    ensures none { IfNone result ((keyword : KeywordOf) → is_of_call keyword ≡ true →
        word.now ≡ keyword_text keyword → ⊥) }
{
    match word {
        _ if is_same(word, b"open") => Some(Keyword::Open),
        _ if is_same(word, b"api") => Some(Keyword::Api),
        _ if is_same(word, b"register") => Some(Keyword::Register),
        _ if is_same(word, b"unregister") => Some(Keyword::Unregister),
        _ if is_same(word, b"wake") => Some(Keyword::Wake),
        _ if is_same(word, b"copy") => Some(Keyword::Copy),
        _ if is_same(word, b"move") => Some(Keyword::Move),
        _ if is_same(word, b"zeropage") => Some(Keyword::ZeroPage),
        _ if is_same(word, b"continue") => Some(Keyword::Continue),
        _ if is_same(word, b"poison") => Some(Keyword::Poison),
        _ if is_same(word, b"writeprotect") => Some(Keyword::WriteProtect),
        _ if is_same(word, b"read") => Some(Keyword::Read),
        _ if is_same(word, b"poll") => Some(Keyword::Poll),
        _ if is_same(word, b"nonblock") => Some(Keyword::NonBlock),
        _ if is_same(word, b"dup") => Some(Keyword::Dup),
        _ if is_same(word, b"close") => Some(Keyword::Close),
        _ if is_same(word, b"scan") => Some(Keyword::Scan),
        _ if is_same(word, b"mmap") => Some(Keyword::Mmap),
        _ if is_same(word, b"munmap") => Some(Keyword::Munmap),
        _ if is_same(word, b"mremap") => Some(Keyword::Mremap),
        _ if is_same(word, b"madvise") => Some(Keyword::Madvise),
        _ if is_same(word, b"fork") => Some(Keyword::Fork),
        _ if is_same(word, b"syscall") => Some(Keyword::Syscall),
        _ if is_same(word, b"device") => Some(Keyword::Device),
        _ if is_same(word, b"-") => Some(Keyword::Dash),
        _ => None,
    }
}

/// A word of lines or messages.
fn of_line(word: &[u8]) -> Option<Keyword>
    ensures found { IfSome result (λ keyword. word.now ≡ keyword_text keyword) }
    ensures none { IfNone result ((keyword : KeywordOf) → is_of_line keyword ≡ true →
        word.now ≡ keyword_text keyword → ⊥) }
{
    match word {
        _ if is_same(word, b"begin") => Some(Keyword::Begin),
        _ if is_same(word, b"end") => Some(Keyword::End),
        _ if is_same(word, b"message") => Some(Keyword::Message),
        _ if is_same(word, b"have") => Some(Keyword::Have),
        _ if is_same(word, b"found") => Some(Keyword::Found),
        _ if is_same(word, b"dropped") => Some(Keyword::Dropped),
        _ if is_same(word, b"started") => Some(Keyword::Started),
        _ if is_same(word, b"forked") => Some(Keyword::Forked),
        _ if is_same(word, b"exit") => Some(Keyword::Exit),
        _ if is_same(word, b"lost") => Some(Keyword::Lost),
        _ if is_same(word, b"fault") => Some(Keyword::Fault),
        _ if is_same(word, b"remap") => Some(Keyword::Remap),
        _ if is_same(word, b"remove") => Some(Keyword::Remove),
        _ if is_same(word, b"unmap") => Some(Keyword::Unmap),
        _ => None,
    }
}

/// A word of answers.
fn of_answer(word: &[u8]) -> Option<Keyword>
    ensures found { IfSome result (λ keyword. word.now ≡ keyword_text keyword) }
    ensures none { IfNone result ((keyword : KeywordOf) → is_of_answer keyword ≡ true →
        word.now ≡ keyword_text keyword → ⊥) }
{
    match word {
        _ if is_same(word, b"ok") => Some(Keyword::Ok),
        _ if is_same(word, b"interrupted") => Some(Keyword::Interrupted),
        _ if is_same(word, b"EPERM") => Some(Keyword::Eperm),
        _ if is_same(word, b"ENOENT") => Some(Keyword::Enoent),
        _ if is_same(word, b"ESRCH") => Some(Keyword::Esrch),
        _ if is_same(word, b"EINTR") => Some(Keyword::Eintr),
        _ if is_same(word, b"EAGAIN") => Some(Keyword::Eagain),
        _ if is_same(word, b"ENOMEM") => Some(Keyword::Enomem),
        _ if is_same(word, b"EFAULT") => Some(Keyword::Efault),
        _ if is_same(word, b"EBUSY") => Some(Keyword::Ebusy),
        _ if is_same(word, b"EEXIST") => Some(Keyword::Eexist),
        _ if is_same(word, b"EINVAL") => Some(Keyword::Einval),
        _ => None,
    }
}
