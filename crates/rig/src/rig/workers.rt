//! The workers: their loops over the turns under the lock.

ghost use Rattle.std.specs.Prelude.{◌≡◌, ◌≢◌, ◌⊎◌, [], ◌∷◌, AllPairs, IfOk, IfErr};
ghost use Rattle.pusher.specs.Seats.{IsSeatOf};
ghost use Rattle.rig.specs.Claiming.{BeginsWith};

use super::Rig;
use crate::gate::{Gate, Worker};
use crate::locked::Locked;
use crate::remaining::remaining_in;
use crate::sending::{push_turns, serve_turns};
use crate::turns::{dest_turns, source_turns};
use mig_base::PageNo;
use mig_base::refusal::Refusal;
use pusher::{ClaimSeat, Claims};
use std::sync::Wait;

impl Rig {
    /// Makes the source's steps in turn, over and over, until the gate stops it: Round, Send, SourceRead, SourceAct, DeliverBack, End
    /// and Notice. Ends at the greatest turn.
    pub fn source_worker<R: Wait, G: Gate>(&self, rt: &R, gate: &G) {
        source_turns(&mut Locked::new(self, rt, gate, Worker::Source))
    }

    /// Makes the destination's steps in turn, over and over, until the gate stops it: Deliver, DeliverUrgent, DestRead, DestAct, Install
    /// and Notice. Ends at the greatest turn.
    pub fn dest_worker<R: Wait, G: Gate>(&self, rt: &R, gate: &G) {
        dest_turns(&mut Locked::new(self, rt, gate, Worker::Dest))
    }

    /// Claims of the pages that remain to be sent in this epoch, all of them free. `Phase` unless the source is stopped, and then
    /// `NoMemory` if the list of the pages or the claims have no room. No step is made.
    pub fn claims<R: Wait>(&self, rt: &R) -> Result<(Claims, ClaimSeat), Refusal>
        ensures seat { IfOk result (λ r.
            IsSeatOf r.0 r.1 × (r.1.claimed ≡ []) × (r.1.seen ≡ []) × (r.1.share ≡ 0 ∷ [])) }
        ensures refused { IfErr result (λ refusal.
            (refusal ≡ Refusal.Phase) ⊎ (refusal ≡ Refusal.NoMemory)) }
    {
        let (epoch, pages) = self.remaining(rt)?;
        match Claims::new(self.alloc, epoch, pages) {
            Ok(made) => Ok(made),
            Err(_) => Err(Refusal::NoMemory),
        }
    }

    /// Sends the pages that the destination requests, on the urgent wire, each time that the gate lets it: makes a Serve, claims the page,
    /// and then makes a PushUrgent with its ticket. It skips a request for a page that was claimed before, or is not among the claims'
    /// pages. Ends when the gate stops it, when the claims' epoch is over, or at the greatest turn. Returns the seat with its claims, the
    /// new ones last.
    ///
    /// A ticket whose push is refused as `NoMemory`, `Broken` or `Phase` is pushed again at the next turn. One that the worker still has
    /// when it ends was not sent.
    pub fn serve_worker<R: Wait, G: Gate>(
        &self,
        rt: &R,
        claims: &Claims,
        seat: ClaimSeat,
        gate: &G,
    ) -> ClaimSeat
        requires { IsSeatOf claims.now seat }
        ensures seat { IsSeatOf claims.now result }
        ensures share { result.share ≡ seat.share }
        ensures claimed { BeginsWith result.claimed seat.claimed }
        ensures seen { BeginsWith result.seen seat.seen }
    {
        serve_turns(
            &mut Locked::new(self, rt, gate, Worker::Serve),
            claims,
            seat,
        )
    }

    /// Sends the pages in the order of their indexes, each time that the gate lets it: claims the next one that is free, and makes a Push
    /// with its ticket. Ends when the gate stops it, when the claims' epoch is over, or at the greatest turn. Returns the seat with its
    /// claims, the new ones last.
    ///
    /// A ticket whose push is refused as `NoMemory`, `Broken` or `Phase` is pushed again at the next turn. One that the worker still has
    /// when it ends was not sent.
    pub fn push_worker<R: Wait, G: Gate>(
        &self,
        rt: &R,
        claims: &Claims,
        seat: ClaimSeat,
        gate: &G,
    ) -> ClaimSeat
        requires { IsSeatOf claims.now seat }
        ensures seat { IsSeatOf claims.now result }
        ensures share { result.share ≡ seat.share }
        ensures claimed { BeginsWith result.claimed seat.claimed }
        ensures seen { BeginsWith result.seen seat.seen }
    {
        push_turns(&mut Locked::new(self, rt, gate, Worker::Push), claims, seat)
    }

    /// The epoch, and the pages that remain in it.
    fn remaining<R: Wait>(&self, rt: &R) -> Result<(u32, Vec<PageNo>), Refusal>
        ensures apart { IfOk result (λ r. AllPairs ◌≢◌ r.1.items) }
        ensures refused { IfErr result (λ refusal.
            (refusal ≡ Refusal.Phase) ⊎ (refusal ≡ Refusal.NoMemory)) }
    {
        let world = self.world.lock(rt);
        remaining_in(self.alloc, &world)
    }
}
