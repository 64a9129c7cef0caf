//! A small world: which steps its schedules may choose.

ghost use Rattle.std.specs.Prelude.{◌≡◌};
ghost use Rattle.schedules.specs.Walks.{maps};

use crate::turn::Turn;
use mig_base::schedule::{Side, Step, Ticket};
use mig_base::{Command, LOW_PAGE, MAX_RUN, NoMemory, PAGE_SIZE, Place, Prot};
use std::alloc::Global;
use std::fmt;

/// How small a world is.
#[derive(Clone, Copy, Debug)]
pub struct Small {
    /// The processors of the guest, 1 to 16.
    pub cpus: u8,
    /// The pages that its first command maps, 1 to 4,096.
    pub pages: u16,
    /// How often the channel may break.
    pub breaks: u16,
    /// How many rounds of pre-copy there may be.
    pub rounds: u16,
    /// How many commands each processor makes, 0 to 3: a store to a page of its own, a load of the next page, and a DontNeed of the first.
    pub commands: u8,
}

/// The arguments that ask for it.
impl fmt::Display for Small {
    fn fmt<W: fmt::Write>(&self, f: &mut fmt::Formatter<W>) -> fmt::Result {
        write!(f, "--all --cpus {} --pages {}", self.cpus, self.pages)?;
        write!(
            f,
            " --breaks {} --rounds {} --commands {}",
            self.breaks, self.rounds, self.commands
        )
    }
}

/// The address of a page of a small world.
fn address(page: u64) -> u64 {
    u64::from(LOW_PAGE)
        .saturating_add(page)
        .saturating_mul(PAGE_SIZE)
}

impl Small {
    /// The command that maps the pages, the first of processor 0. Schedules begin after it.
    pub fn first_step(&self) -> Step
        ensures { result ≡ maps self.now }
    {
        Step::Issue {
            cpu: 0,
            command: Command::Mmap {
                addr_len: u64::from(self.pages) * PAGE_SIZE,
                prot: Prot::ReadWrite,
                place: Place::Anywhere,
            },
        }
    }

    /// A command of a processor, by how many it made before.
    fn command(&self, cpu: u8, number: u8) -> Command {
        let pages = u64::from(self.pages.max(1));
        let own = address(u64::from(cpu) % pages);
        match number {
            0 => Command::Store {
                addr: own,
                width: 8,
                value: u64::from(cpu) + 1,
            },
            1 => Command::Load {
                addr: address((u64::from(cpu) + 1) % pages),
                width: 8,
            },
            _ => Command::DontNeed {
                addr: own,
                len: PAGE_SIZE,
            },
        }
    }

    /// The turns that its schedules choose from. One more processor and one more epoch than there may be are among them, to be refused.
    pub(crate) fn turns(&self, alloc: Global) -> Result<Vec<Turn>, NoMemory> {
        let mut turns = Vec::new(alloc);
        add_free(&mut turns)?;
        self.add_limited(&mut turns)?;
        for cpu in 0..=self.cpus {
            add(&mut turns, Step::Retry { cpu }, 0)?;
            self.add_commands(&mut turns, cpu)?;
        }
        for epoch in 1..=u32::from(self.breaks) + 1 {
            self.add_pushes(&mut turns, epoch)?;
        }
        Ok(turns)
    }

    /// Adds the rounds and the breaks, and a run of all pages.
    fn add_limited(&self, turns: &mut Vec<Turn>) -> Result<(), NoMemory> {
        add(turns, Step::Round, u64::from(self.rounds))?;
        add(turns, Step::Break, u64::from(self.breaks))?;
        if self.pages > 1 {
            let count = self.pages.min(u16::from(MAX_RUN)) as u8;
            add(turns, Step::SendRun { count }, 0)?;
        }
        Ok(())
    }

    /// Adds the commands of a processor. That which maps the pages is the first of processor 0.
    fn add_commands(&self, turns: &mut Vec<Turn>, cpu: u8) -> Result<(), NoMemory> {
        let before = u64::from(cpu == 0);
        let count = if cpu == self.cpus { 1 } else { self.commands };
        for number in 0..count {
            let command = self.command(cpu, number);
            add(
                turns,
                Step::Issue { cpu, command },
                before + u64::from(number),
            )?;
        }
        Ok(())
    }

    /// Adds the pushes of an epoch.
    fn add_pushes(&self, turns: &mut Vec<Turn>, epoch: u32) -> Result<(), NoMemory> {
        for page in 0..u32::from(self.pages) {
            let page = LOW_PAGE + page;
            add(turns, Step::Push(Ticket { epoch, page }), 0)?;
            add(turns, Step::PushUrgent(Ticket { epoch, page }), 0)?;
        }
        Ok(())
    }
}

/// Adds a turn.
fn add(turns: &mut Vec<Turn>, step: Step, limit: u64) -> Result<(), NoMemory> {
    turns.push(Turn { step, limit })?;
    Ok(())
}

/// Adds the steps that a schedule may choose at any time. Each delivery is of a whole frame.
fn add_free(turns: &mut Vec<Turn>) -> Result<(), NoMemory> {
    let n = u64::MAX;
    add(turns, Step::Start, 0)?;
    add(turns, Step::Send, 0)?;
    add(turns, Step::SourceRead, 0)?;
    add(turns, Step::SourceAct, 0)?;
    add(turns, Step::Switch, 0)?;
    add(turns, Step::Deliver { n }, 0)?;
    add(turns, Step::DeliverBack { n }, 0)?;
    add(turns, Step::DeliverUrgent { n }, 0)?;
    add(turns, Step::DestRead, 0)?;
    add(turns, Step::DestAct, 0)?;
    add(turns, Step::Install, 0)?;
    add(turns, Step::Serve, 0)?;
    add(turns, Step::End, 0)?;
    add(turns, Step::Notice(Side::Source), 0)?;
    add(turns, Step::Notice(Side::Destination), 0)?;
    add(turns, Step::Resume, 0)
}
