//! Frames that come from the source.

ghost use Rattle.std.specs.List.{AllByRecursion};
ghost use Rattle.std.specs.Prelude.{◌≡◌, true, None, map, unwrap_or, IfOk, IfErr, OnOk, OnErr};
ghost use Rattle.mig_model.specs.Bounds.{IsFrame};
ghost use Rattle.mig_model.specs.Destination.{destination_answers, destination_took, received_of, recv_by, urgent_took};
ghost use Rattle.mig_model.specs.Faults.{take_fault, urgent_fault};
ghost use Rattle.page_stream.specs.Frames.{frame_of};
ghost use Rattle.fault_handler.specs.Taking.{takes_memory};

mod kinds;
mod rules;

use super::Destination;
use mig_base::fault::TakeFault;
use mig_base::phase::Received;
use mig_base::{NoMemory, PageSet};
use page_stream::Frame;

impl Destination {
    /// The frames that the destination sends back when it takes a frame. A caller asks for them first, to make room for them: a taken frame
    /// stays taken. To an End it answers with Done; to a Resume with a Recv, which says how far it has come and, if it runs, lists the pages
    /// of the source that it still needs, and then repeats its requests; to any other frame with none. `NoMemory` if these cannot be
    /// allocated.
    pub fn answers(&self, frame: &Frame) -> Result<Vec<Frame>, NoMemory>
        ensures frames { IfOk result (λ frames.
            map frame_of frames.items ≡ destination_answers self.now (frame_of frame.now)) }
        ensures well_formed { IfOk result (λ frames.
            AllByRecursion IsFrame (map frame_of frames.items)) }
    {
        let mut frames = Vec::new(self.alloc);
        match frame {
            Frame::End { .. } => frames.push(Frame::Done)?,
            Frame::Resume => return self.report(),
            _ => {}
        }
        Ok(frames)
    }

    /// The answer to a Resume.
    fn report(&self) -> Result<Vec<Frame>, NoMemory>
        ensures frames { IfOk result (λ frames.
            map frame_of frames.items ≡ recv_by (received_of self.now) self.now) }
        ensures well_formed { IfOk result (λ frames.
            AllByRecursion IsFrame (map frame_of frames.items)) }
    {
        let mut frames = Vec::new(self.alloc);
        match self.received() {
            Received::Running => {
                let owed = self.owed().origins(self.alloc)?;
                frames.push(Frame::Recv {
                    state: Received::Running,
                    owed,
                })?;
                frames.extend(
                    self.requests()
                        .iter()
                        .map(|page| Frame::Request { page: *page }),
                )?;
            }
            Received::NotRun => frames.push(Frame::Recv {
                state: Received::NotRun,
                owed: PageSet::new(self.alloc),
            })?,
            Received::Ended => frames.push(Frame::Recv {
                state: Received::Ended,
                owed: PageSet::new(self.alloc),
            })?,
        }
        Ok(frames)
    }

    /// Takes a well-formed frame ([`Frame::is_well_formed`]) that the source has sent in an epoch.
    ///
    /// A frame that is refused is dropped, and nothing else changes. The first of these reasons counts:
    /// - `OutOfPlace`: the phase does not take such a frame; or it is an End while pages are owed, no copy waits, and no urgent frame is
    ///   still to come.
    /// - `StaleEpoch`: the frame is of another epoch. An Advise may be of any, and a Resume has to be of a later one.
    /// - `BadFrame`: a Package owes a page that is kept, does not map a page that it owes or that is kept, or has another number of
    ///   processors; or an End announces fewer urgent frames than came.
    /// - `InstallFirst`: an End comes while a copy waits.
    /// - `UrgentFirst`: an End comes while urgent frames are still to come.
    /// - `NoMemory`: memory for a copy, a run or a Package is refused.
    pub fn take(&mut self, epoch: u32, frame: Frame) -> Result<(), TakeFault>
        requires { IsFrame (frame_of frame) }
        ensures accepted { OnOk result (take_fault self.old epoch (frame_of frame) ≡ None) }
        ensures refused { IfErr result (λ fault.
            fault ≡ unwrap_or (take_fault self.old epoch (frame_of frame)) TakeFault.NoMemory) }
        ensures memory { IfErr result (λ fault. fault ≡ TakeFault.NoMemory →
            takes_memory (frame_of frame) ≡ true) }
        ensures took { OnOk result (self.new ≡ destination_took self.old epoch (frame_of frame)) }
        ensures err { OnErr result (self.new ≡ self.old) }
    {
        if let Some(fault) = self.take_fault(epoch, &frame) {
            return Err(fault);
        }
        self.put_in(epoch, frame)?;
        Ok(())
    }

    /// Takes a well-formed frame ([`Frame::is_well_formed`]) of the urgent wire: its copy waits to be installed, and is counted. A frame
    /// that is refused is dropped, and nothing else changes: `OutOfPlace` unless it is the copy of one page and the destination runs, then
    /// `StaleEpoch`, and last `NoMemory`, which also refuses the frame after 2^64 - 1 others of its epoch, since it could not be counted.
    pub fn take_urgent(&mut self, epoch: u32, frame: Frame) -> Result<(), TakeFault>
        requires { IsFrame (frame_of frame) }
        ensures accepted { OnOk result (urgent_fault self.old epoch (frame_of frame) ≡ None) }
        ensures refused { IfErr result (λ fault.
            fault ≡ unwrap_or (urgent_fault self.old epoch (frame_of frame)) TakeFault.NoMemory) }
        ensures took { OnOk result (self.new ≡ urgent_took self.old (frame_of frame)) }
        ensures err { OnErr result (self.new ≡ self.old) }
    {
        if let Some(fault) = self.urgent_fault(epoch, &frame) {
            return Err(fault);
        }
        self.put_in_urgent(frame)?;
        Ok(())
    }

    /// Takes a frame that is not refused. `NoMemory` changes nothing.
    fn put_in(&mut self, epoch: u32, frame: Frame) -> Result<(), NoMemory>
        requires frame { IsFrame (frame_of frame) }
        requires accepted { take_fault self.old epoch (frame_of frame) ≡ None }
        ensures took { OnOk result (self.new ≡ destination_took self.old epoch (frame_of frame)) }
        ensures memory { OnErr result (takes_memory (frame_of frame) ≡ true) }
        ensures err { OnErr result (self.new ≡ self.old) }
    {
        match frame {
            Frame::Advise => {
                self.advise(epoch);
                Ok(())
            }
            Frame::Page { page, bytes } => self.page_came(page, bytes),
            Frame::Zero { page } => self.zero_came(page),
            Frame::Run { first, pages } => self.run_came(first, pages),
            Frame::Discard { pages } => {
                self.discard(&pages);
                Ok(())
            }
            Frame::Package {
                areas,
                owed,
                commands,
            } => self.run(&areas, &owed, &commands),
            Frame::End { .. } => {
                self.end();
                Ok(())
            }
            Frame::Resume => {
                self.resume(epoch);
                Ok(())
            }
            // Never in place: these go back to the source.
            Frame::Request { .. } | Frame::Recv { .. } | Frame::Done => Ok(()),
        }
    }

    /// Takes the copy of one page from the urgent wire. `NoMemory` changes nothing.
    fn put_in_urgent(&mut self, frame: Frame) -> Result<(), NoMemory>
        ensures took { OnOk result (self.new ≡ urgent_took self.old (frame_of frame)) }
        ensures err { OnErr result (self.new ≡ self.old) }
    {
        let Some(taken) = self.urgent_taken.checked_add(1) else {
            return Err(NoMemory);
        };
        match frame {
            Frame::Page { page, bytes } => self.page_waits(page, bytes)?,
            Frame::Zero { page } => self.zero_waits(page)?,
            _ => return Ok(()),
        }
        self.urgent_taken = taken;
        Ok(())
    }
}
