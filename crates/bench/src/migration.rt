//! What is timed: what a migration does for one page after the other.

use mig_base::refusal::Refusal;
use mig_base::schedule::{Step, Ticket};
use mig_base::{Command, LOW_PAGE, PAGE_SIZE, PageNo, Place, Prot, page_address};
use world::World;

/// At least as many bytes as a frame has.
const WHOLE: u64 = u64::MAX;

/// The epoch of a migration that no break has held up.
const EPOCH: u32 = 1;

/// What is done for each page.
#[derive(Clone, Copy, Debug, PartialEq, Eq)]
pub enum Work {
    /// It is sent in a round of pre-copy, and delivered.
    PreCopy,
    /// It was sent, and is stored to: the store faults on its protection, and is made once that is gone.
    Store,
    /// It is pushed after the switch, delivered and installed.
    PostCopy,
    /// It is loaded at the destination: the load faults, and is made once the page was asked for, sent and installed.
    Fault,
}

fn command(command: Command) -> Step {
    Step::Issue { cpu: 0, command }
}

fn store(page: PageNo) -> Step {
    command(Command::Store {
        addr: page_address(page),
        width: 8,
        value: 1,
    })
}

fn load(page: PageNo) -> Step {
    command(Command::Load {
        addr: page_address(page),
        width: 8,
    })
}

fn push(page: PageNo) -> Step {
    Step::Push(Ticket { epoch: EPOCH, page })
}

/// Makes steps in turn, up to one that is refused.
fn make(world: &mut World, steps: &[Step]) -> Result<(), Refusal> {
    for step in steps {
        world.step(*step)?;
    }
    Ok(())
}

/// What is done for one page.
fn make_for(world: &mut World, work: Work, page: PageNo) -> Result<(), Refusal> {
    let deliver = Step::Deliver { n: WHOLE };
    let deliver_back = Step::DeliverBack { n: WHOLE };
    match work {
        Work::PreCopy => make(world, &[Step::Send, deliver]),
        Work::Store => make(
            world,
            &[
                store(page),
                Step::SourceRead,
                Step::SourceAct,
                Step::Retry { cpu: 0 },
            ],
        ),
        Work::PostCopy => make(world, &[push(page), deliver, Step::Install]),
        Work::Fault => {
            make(
                world,
                &[
                    load(page),
                    Step::DestRead,
                    Step::DestAct,
                    deliver_back,
                    Step::Serve,
                ],
            )?;
            make(
                world,
                &[push(page), deliver, Step::Install, Step::Retry { cpu: 0 }],
            )
        }
    }
}

/// Does the work for each of this many pages.
pub fn make_all(world: &mut World, work: Work, pages: u32) -> Result<(), Refusal> {
    for index in 0..pages {
        make_for(world, work, LOW_PAGE.saturating_add(index))?;
    }
    Ok(())
}

/// Maps this many pages, and stores something in each.
fn store_all(world: &mut World, pages: u32) -> Result<(), Refusal> {
    world.step(command(Command::Mmap {
        addr_len: u64::from(pages) * PAGE_SIZE,
        prot: Prot::ReadWrite,
        place: Place::Anywhere,
    }))?;
    for index in 0..pages {
        world.step(store(LOW_PAGE.saturating_add(index)))?;
    }
    Ok(())
}

/// What comes before the work for the pages: something is put on each, and the migration begins.
pub fn prepare(world: &mut World, work: Work, pages: u32) -> Result<(), Refusal> {
    let deliver = Step::Deliver { n: WHOLE };
    store_all(world, pages)?;
    make(world, &[Step::Start, deliver])?;
    match work {
        Work::PreCopy => make(world, &[Step::Round]),
        Work::Store => {
            make(world, &[Step::Round])?;
            make_all(world, Work::PreCopy, pages)
        }
        Work::PostCopy | Work::Fault => make(world, &[Step::Switch, deliver, deliver]),
    }
}
