//! A node with the frames that it has sent.

ghost use Rattle.std.specs.Prelude.{◌≡◌};
ghost use Rattle.mig_model.specs.Wire as machine;

use std::alloc::Global;
use std::marker::Model;
use wires::Wire;

/// A node, and the frames that it has sent and that were not collected yet. A call that is refused changes neither.
#[derive(Drop)]
pub struct Posting<N> {
    pub(crate) alloc: Global,
    pub(crate) node: N,
    pub(crate) wire: Wire,
}

impl<N> Model for Posting<N> {
    ghost use Rattle.nodes.specs.Nodes.{Posting as Posts, coded_posting};

    ghost Value = { Posts N };

    ghost coded = { coded_posting N.code };

    ghost view = { λ p. record { node = p.node; wire = p.wire.wire } };
}

impl<N> Posting<N> {
    /// The node.
    pub fn node(&self) -> &N
        ensures { result.now ≡ self.now.node }
    {
        &self.node
    }

    /// The frames that wait: their bytes are those of the wire.
    pub fn sent(&self) -> &Wire
        ensures { result.now.wire ≡ self.now.wire }
    {
        &self.wire
    }

    /// Drops the frames that wait: they were taken, or the channel is broken.
    pub fn drop_sent(&mut self)
        ensures { self.new ≡ record self.old { wire = machine.empty_wire } }
    {
        self.wire.clear();
    }
}
