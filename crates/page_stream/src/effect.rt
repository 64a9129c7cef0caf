//! What the taking of a frame reports.

ghost use Rattle.std.specs.Prelude.{◌≡◌};
ghost use Rattle.mig_model.specs.Bounds.{IsFrame};
ghost use Rattle.mig_model.specs.Effects.{frame_effect};
ghost use Rattle.page_stream.specs.Frames.{frame_of};

use crate::frame::Frame;
use mig_base::effect::Effect;
use mig_base::page_address;

impl Frame {
    /// The effect of taking the frame, at either node. The frame is well formed.
    pub fn effect(&self) -> Effect
        requires { IsFrame (frame_of self.now) }
        ensures { result ≡ frame_effect (frame_of self.now) }
    {
        match self {
            Frame::Advise => Effect::TookAdvise,
            Frame::Page { page, .. } => Effect::TookPage {
                addr: page_address(*page),
            },
            Frame::Zero { page } => Effect::TookZero {
                addr: page_address(*page),
            },
            Frame::Run { first, pages } => Effect::TookRun {
                addr: page_address(*first),
                pages: pages.len() as u32,
            },
            Frame::Discard { pages } => Effect::TookDiscard { pages: pages.len() },
            Frame::Package { owed, .. } => Effect::TookPackage { owed: owed.len() },
            Frame::End { .. } => Effect::TookEnd,
            Frame::Resume => Effect::TookResume,
            Frame::Request { page } => Effect::TookRequest {
                addr: page_address(*page),
            },
            Frame::Recv { state, owed } => Effect::TookRecv {
                state: *state,
                pages: owed.len(),
            },
            Frame::Done => Effect::TookDone,
        }
    }
}
