//! Printing orders.

ghost use Rattle.std.specs.Prelude.{◌≡◌, ◌++◌, [], Some, true, OnOk, OnErr, string_bytes};
ghost use Rattle.grammar.specs.declared.line.Language.TheVariants.{Script};
ghost use Rattle.grammar.specs.declared.line.Line.TheVariants.{Do};
ghost use Rattle.grammar.specs.Fits.{CanBeSpelled};
ghost use Rattle.grammar.specs.Lines.{IsLine};
ghost use Rattle.grammar.specs.Texts.{bytes_text, push_word, epoch_text, push_text, step_text, order_text};

use crate::order::{ForwardWire, Order};
use crate::texts::CommandText;
use mig_base::schedule::Step;
use mig_base::{NoMemory, PageNo, page_address};
use std::fmt;

/// A number of bytes, with a space before it; empty for the greatest, which a line may leave out.
#[derive(Clone, Copy)]
struct BytesText(u64);

impl fmt::Display for BytesText {
    ghost output = { λ x. Some (bytes_text x.0) };

    fn fmt<W: fmt::Write>(&self, f: &mut fmt::Formatter<W>) -> fmt::Result {
        let bytes = self.0;
        if bytes == u64::MAX {
            write!(f, "")
        } else {
            write!(f, " {bytes}")
        }
    }
}

/// The word of a push, by its wire.
fn word_of_push(wire: ForwardWire) -> &'static str
    ensures { result.now ≡ push_word wire }
{
    match wire {
        ForwardWire::Main => "push",
        ForwardWire::Urgent => "upush",
    }
}

/// An epoch that is written, with a space before it; empty if none is.
#[derive(Clone, Copy)]
struct EpochText(Option<u32>);

impl fmt::Display for EpochText {
    ghost output = { λ x. Some (epoch_text x.0) };

    fn fmt<W: fmt::Write>(&self, f: &mut fmt::Formatter<W>) -> fmt::Result {
        match self.0 {
            None => write!(f, ""),
            Some(epoch) => write!(f, " {epoch}"),
        }
    }
}

/// The words of a push. A page is written as its first address.
#[derive(Clone, Copy)]
struct PushText {
    wire: ForwardWire,
    page: PageNo,
    epoch: Option<u32>,
}

impl fmt::Display for PushText {
    ghost output = { λ x. Some (push_text x.wire x.page x.epoch) };

    fn fmt<W: fmt::Write>(&self, f: &mut fmt::Formatter<W>) -> fmt::Result {
        let word = word_of_push(self.wire);
        let addr = page_address(self.page);
        let epoch = EpochText(self.epoch);
        write!(f, "{word} 0x{addr:x}{epoch}")
    }
}

/// The words of a step, as a script has them.
#[derive(Clone, Copy)]
struct StepText(Step);

impl fmt::Display for StepText {
    ghost output = { λ x. Some (step_text x.0) };

    fn fmt<W: fmt::Write>(&self, f: &mut fmt::Formatter<W>) -> fmt::Result {
        match self.0 {
            Step::Issue { cpu, command } => {
                let command = CommandText(command);
                write!(f, "cpu {cpu} {command}")
            }
            Step::Retry { cpu } => write!(f, "retry {cpu}"),
            Step::SendRun { count } => write!(f, "sendrun {count}"),
            Step::Deliver { n } => {
                let bytes = BytesText(n);
                write!(f, "deliver{bytes}")
            }
            Step::DeliverBack { n } => {
                let bytes = BytesText(n);
                write!(f, "back{bytes}")
            }
            Step::DeliverUrgent { n } => {
                let bytes = BytesText(n);
                write!(f, "udeliver{bytes}")
            }
            Step::Push(ticket) => {
                let push = PushText {
                    wire: ForwardWire::Main,
                    page: ticket.page,
                    epoch: Some(ticket.epoch),
                };
                write!(f, "{push}")
            }
            Step::PushUrgent(ticket) => {
                let push = PushText {
                    wire: ForwardWire::Urgent,
                    page: ticket.page,
                    epoch: Some(ticket.epoch),
                };
                write!(f, "{push}")
            }
            Step::Notice(side) => write!(f, "notice {side}"),
            Step::Start => write!(f, "start"),
            Step::Round => write!(f, "round"),
            Step::Send => write!(f, "send"),
            Step::SourceRead => write!(f, "sread"),
            Step::SourceAct => write!(f, "sact"),
            Step::Switch => write!(f, "switch"),
            Step::DestRead => write!(f, "dread"),
            Step::DestAct => write!(f, "dact"),
            Step::Install => write!(f, "install"),
            Step::Serve => write!(f, "serve"),
            Step::End => write!(f, "end"),
            Step::Break => write!(f, "break"),
            Step::Resume => write!(f, "resume"),
        }
    }
}

/// An order, as a line of a script has it, without a line feed.
#[derive(Clone, Copy)]
pub struct OrderText(pub Order);

impl fmt::Display for OrderText {
    ghost output = { λ x. Some (order_text x.0) };

    fn fmt<W: fmt::Write>(&self, f: &mut fmt::Formatter<W>) -> fmt::Result {
        match self.0 {
            Order::Make(step) => {
                let step = StepText(step);
                write!(f, "{step}")
            }
            Order::Push { wire, page, epoch } => {
                let push = PushText { wire, page, epoch };
                write!(f, "{push}")
            }
            Order::Progress => write!(f, "progress"),
        }
    }
}

/// Replaces a text by the line of an order, without a line feed. It is read as that order, if any line is: none is for a push that is made
/// as a step, the push of a page at or above `HIGH_PAGE`, and a `SendRun` of no page or of more than `MAX_RUN`. `NoMemory` leaves the text
/// empty.
pub fn print_order(text: &mut String, order: Order) -> Result<(), NoMemory>
    ensures ok { OnOk result (string_bytes text.new ≡ order_text order) }
    ensures line { OnOk result (CanBeSpelled order
        → IsLine Script (string_bytes text.new) (Do order)) }
    ensures err { OnErr result (string_bytes text.new ≡ []) }
{
    text.clear();
    let order = OrderText(order);
    if write!(text, "{order}").is_err() {
        text.clear();
        return Err(NoMemory);
    }
    Ok(())
}
