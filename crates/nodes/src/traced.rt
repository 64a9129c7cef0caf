//! A node of its own, with its trace.

ghost use Rattle.std.specs.Prelude.{◌≡◌, None, is_some};
ghost use Rattle.mig_model.specs.Wire.{empty_wire};
ghost use Rattle.nodes.specs.Traces.{begun, first_line, lines_in, without_line};

use crate::posting::Posting;
use crate::trace::{Lines, TraceLine};
use std::alloc::Global;
use std::marker::Model;

/// A node, and the steps that it has made since its trace was begun, until they are taken. Without a trace nothing is kept.
///
/// Room for a line is made before a step is, so that no step is made whose line is lost: with a trace, `NoMemory` may come before any
/// other refusal. A step that is refused adds no line.
#[derive(Drop)]
pub struct Traced<N> {
    pub(crate) node: N,
    pub(crate) trace: Lines,
}

impl<N> Model for Traced<N> {
    ghost use Rattle.nodes.specs.Traces.{Traced as Shown, coded_traced, trace_of};

    ghost Value = { Shown N };

    ghost coded = { coded_traced N.code };

    ghost view = { λ t. record { node = t.node; trace = trace_of t.trace } };
}

impl<N> Traced<N> {
    /// A node without a trace.
    pub fn new(alloc: Global, node: N) -> Self
        ensures { result ≡ record { node = node; trace = None } }
    {
        Traced {
            node,
            trace: Lines::new(alloc),
        }
    }

    /// The node.
    pub fn node(&self) -> &N
        ensures { result.now ≡ self.now.node }
    {
        &self.node
    }

    /// Begins the trace, without a line. One that is on stays as it is.
    pub fn begin_trace(&mut self)
        ensures { self.new ≡ record self.old { trace = begun self.old.trace } }
    {
        self.trace.begin();
    }

    /// Ends the trace, and drops the lines that wait.
    pub fn end_trace(&mut self, alloc: Global)
        ensures { self.new ≡ record self.old { trace = None } }
    {
        self.trace.end(alloc);
    }

    /// Whether there is a trace.
    pub fn has_trace(&self) -> bool
        ensures { result ≡ is_some self.now.trace }
    {
        self.trace.on
    }

    /// How many lines wait. 0 without a trace.
    pub fn line_count(&self) -> usize
        ensures { result ≡ lines_in self.now.trace }
    {
        self.trace.count()
    }

    /// The first line that waits.
    pub fn first_line(&self) -> Option<TraceLine>
        ensures { result ≡ first_line self.now.trace }
    {
        self.trace.first()
    }

    /// Drops the first line that waits: it was taken.
    pub fn drop_line(&mut self)
        ensures { self.new ≡ record self.old { trace = without_line self.old.trace } }
    {
        self.trace.drop_first();
    }
}

impl<N> Traced<Posting<N>> {
    /// Drops the frames that wait, as [`Posting::drop_sent`].
    pub fn drop_sent(&mut self)
        ensures { self.new ≡
            record self.old { node = record self.old.node { wire = empty_wire } } }
    {
        self.node.drop_sent();
    }
}
