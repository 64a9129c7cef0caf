//! Orders, the lines of a script.

ghost use Rattle.std.specs.Prelude.{◌≡◌};
ghost use Rattle.grammar.specs.Orders.{HasStep, order_of, step_of};

use mig_base::PageNo;
use mig_base::schedule::{Step, Ticket};

/// The wire to the destination on which a page is pushed.
#[derive(Clone, Copy, Debug, PartialEq, Eq)]
pub enum ForwardWire {
    /// That of all frames of the source in order.
    Main,
    /// The one beside it, for pages that the destination requests.
    Urgent,
}

/// What a line of a script asks of a world.
#[derive(Clone, Copy, Debug, PartialEq, Eq)]
pub enum Order {
    /// A step. No line spells a push as a step.
    Make(Step),
    /// The push of an owed page. Without an epoch it means the world's present one.
    Push {
        wire: ForwardWire,
        page: PageNo,
        epoch: Option<u32>,
    },
    /// A report of how far the migration has come.
    Progress,
}

impl Order {
    /// The step that it makes in a world with this epoch, and `None` for a report of progress.
    pub fn step(self, present: u32) -> Option<Step>
        ensures { result ≡ step_of self present }
    {
        match self {
            Order::Make(step) => Some(step),
            Order::Push { wire, page, epoch } => {
                let epoch = epoch.unwrap_or(present);
                let ticket = Ticket { epoch, page };
                match wire {
                    ForwardWire::Main => Some(Step::Push(ticket)),
                    ForwardWire::Urgent => Some(Step::PushUrgent(ticket)),
                }
            }
            Order::Progress => None,
        }
    }

    /// The order that makes a step in every world: that of a push names its epoch.
    pub fn of(step: Step) -> Order
        ensures is { result ≡ order_of step }
        ensures step { HasStep result step }
    {
        match step {
            Step::Push(ticket) => Order::Push {
                wire: ForwardWire::Main,
                page: ticket.page,
                epoch: Some(ticket.epoch),
            },
            Step::PushUrgent(ticket) => Order::Push {
                wire: ForwardWire::Urgent,
                page: ticket.page,
                epoch: Some(ticket.epoch),
            },
            step => Order::Make(step),
        }
    }
}
