// Arcs, laid when a round first needs them.
ghost use Rattle.std.specs.Prelude.{◌≡◌, ◌≤◌, length};

use arcs::{Arc, Arcs};
use slots::Graph;

// Room for the arcs of 512 modules and 4,096 pairs, and of how many pairs they are laid.
#[derive(Drop)]
pub(crate) struct Hints<'a> {
    starts: &'a mut [u32],
    arcs: &'a mut [Arc],
    laid: usize,
    ghost starts_long: { 513 ≤ length starts.now },
    ghost arcs_long: { 8192 ≤ length arcs.now },
}

impl<'a> Hints<'a> {
    // No arcs yet.
    pub(crate) fn new(starts: &'a mut [u32; 513], arcs: &'a mut [Arc; 8192]) -> Hints<'a> {
        Hints {
            starts,
            arcs,
            laid: 0,
        }
    }

    // The arcs that are laid.
    pub(crate) fn arcs(&self) -> Arcs<'_> {
        Arcs {
            starts: self.starts,
            arcs: self.arcs,
        }
    }

    // Lays the arcs of a graph's pairs, unless those of as many are laid.
    pub(crate) fn lay(&mut self, graph: Graph, place: &[u32])
        requires modules { graph.n ≤ 512 }
        requires place_len { graph.n ≤ length place.now }
    {
        if self.laid < graph.m {
            arcs::lay(graph, place, self.starts, self.arcs);
            self.laid = graph.m;
        }
    }
}
