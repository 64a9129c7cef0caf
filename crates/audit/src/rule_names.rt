//! The rules that findings name, how severe a broken one is, and what that means for the guest.

ghost use Rattle.std.specs.Prelude.{◌≡◌};
ghost use Rattle.audit.specs.Severities.{fails, severity_of, severity_word};

use crate::audit::Asked;

/// How severe a finding is.
#[derive(Clone, Copy, PartialEq, Eq)]
pub(crate) enum Severity {
    /// No run was found for an answer.
    Unexplained,
    /// The monitor has left something undone, or has done what harms the guest.
    Fault,
    /// What may harm the guest, and also be meant so.
    Note,
    /// No finding: what happened to the page that is asked for.
    Page,
}

impl Severity {
    /// Its name in a finding.
    pub(crate) fn word(self) -> &'static str
        ensures { result.now ≡ severity_word self }
    {
        match self {
            Severity::Unexplained => "unexplained",
            Severity::Fault => "fault",
            Severity::Note => "note",
            Severity::Page => "page",
        }
    }
}

/// A rule, by which something was found.
#[derive(Clone, Copy, PartialEq, Eq, PartialOrd, Ord)]
pub(crate) enum Rule {
    /// A run of the kernel's rules is found that gives each answer.
    Unexplained,
    /// A page is registered when it is put.
    NotRegistered,
    /// No thread sleeps on at a page that a call finds there.
    PutTwice,
    /// It is put once.
    PutAgain,
    /// Nobody touches it before.
    PresentBefore,
    /// Each fault that is read is resolved.
    FaultNotResolved,
    /// It is resolved in the time that was asked for.
    Late,
    /// Each event is read.
    EventNotRead,
    /// A call that is refused with EAGAIN is tried again.
    NotTriedAgain,
    /// Each page is put before its registration ends.
    PageOwed,
    /// No rule: what happened to the page that is asked for.
    Page,
}

impl Rule {
    /// All of which there are findings, in the order of docs/AUDIT.md.
    pub(crate) const ALL: [Rule; 10] = [
        Rule::Unexplained,
        Rule::NotRegistered,
        Rule::PutTwice,
        Rule::PutAgain,
        Rule::PresentBefore,
        Rule::FaultNotResolved,
        Rule::Late,
        Rule::EventNotRead,
        Rule::NotTriedAgain,
        Rule::PageOwed,
    ];

    pub(crate) fn name(self) -> &'static str {
        match self {
            Rule::Unexplained => "unexplained-answer",
            Rule::NotRegistered => "not-registered",
            Rule::PutTwice => "put-twice",
            Rule::PutAgain => "put-again",
            Rule::PresentBefore => "present-before",
            Rule::FaultNotResolved => "fault-not-resolved",
            Rule::Late => "late",
            Rule::EventNotRead => "event-not-read",
            Rule::NotTriedAgain => "not-tried-again",
            Rule::PageOwed => "page-owed",
            Rule::Page => "page",
        }
    }

    /// What was found where it is broken.
    pub(crate) fn headline(self) -> &'static str {
        match self {
            Rule::Unexplained => "no run was found that gives this answer",
            Rule::NotRegistered => "a page of the range is not registered",
            Rule::PutTwice => "the page was put before by this log, and a thread sleeps on there",
            Rule::PutAgain => "the page was put before by this log",
            Rule::PresentBefore => "the page was present before",
            Rule::FaultNotResolved => "the page fault was not resolved",
            Rule::Late => "the page fault waited too long",
            Rule::EventNotRead => "an event of this call was never read",
            Rule::NotTriedAgain => "EAGAIN, and the page was not tried again",
            Rule::PageOwed => "registered pages are still missing",
            Rule::Page => "what happened to the page",
        }
    }

    /// How severe it is that it is broken.
    pub(crate) fn severity(self, asked: Asked) -> Severity
        ensures { result ≡ severity_of asked self }
    {
        match self {
            Rule::Unexplained => Severity::Unexplained,
            Rule::PutAgain => Severity::Note,
            Rule::PageOwed if !asked.expects_all => Severity::Note,
            Rule::Page => Severity::Page,
            _ => Severity::Fault,
        }
    }

    /// Whether a log fails in which it is broken.
    pub(crate) fn fails(self, asked: Asked) -> bool
        ensures { result ≡ fails asked self }
    {
        match self.severity(asked) {
            Severity::Note => asked.strict,
            Severity::Page => false,
            _ => true,
        }
    }

    /// What a finding means, and where docs/LINUX.md speaks of it.
    pub(crate) fn meaning(self) -> &'static str {
        match self {
            Rule::Unexplained => {
                "a call is missing, of the log or of the monitor; or the audit did not find the run; or the kernel does not keep its rules (LINUX.md, The userfault object)"
            }
            Rule::NotRegistered => {
                "the page was unmapped or moved meanwhile, or the address is wrong (LINUX.md, For authors of a handler)"
            }
            Rule::PutTwice => {
                "the bytes of the later call are lost, and a thread that waits for the page sleeps on (LINUX.md, For authors of a handler)"
            }
            Rule::PutAgain => {
                "the bytes of the later call are lost; that is harmless where both have the same (LINUX.md, For authors of a handler)"
            }
            Rule::PresentBefore => {
                "the bytes of the call are lost, and the guest has what was there before (LINUX.md, For authors of a handler)"
            }
            Rule::FaultNotResolved => {
                "a thread of the guest waits for ever, or until the registration ends (LINUX.md, For authors of a handler)"
            }
            Rule::Late => "a thread of the guest slept longer than --late allows",
            Rule::EventNotRead => {
                "the thread that made the call slept until the object was closed, and calls on its pages went wrong meanwhile (LINUX.md, For authors of a handler)"
            }
            Rule::NotTriedAgain => {
                "the page was to be put once the map call was over, and the guest reads zeros there (LINUX.md, For authors of a handler)"
            }
            Rule::PageOwed => "the guest reads zeros there (LINUX.md, For authors of a handler)",
            Rule::Page => "what happened to the page in the run that was found",
        }
    }
}
