// Slots that hold units and lead out of a set of modules (arcs of the residual network that leave the set).
ghost use Rattle.std.specs.Prelude.{◌*◌, ◌≤◌, length};

use arcs::Arc;
use slots::{Graph, other};

// A cut: a set of modules, those with a rank above 0, in a graph whose slots hold units.
#[derive(Clone, Copy)]
pub struct Cut<'a> {
    pub graph: Graph<'a>,
    pub hold: &'a [u32],
    pub rank: &'a [u32],
    pub ghost long: { (2 * graph.m ≤ length hold.now) × (graph.n ≤ length rank.now) },
}

impl<'a> Cut<'a> {
    ghost use Rattle.std.specs.Prelude.{◌≡◌, ◌*◌, ◌<◌, ◌≤◌, true, length, IfSome};
    ghost use Rattle.chains.specs.Search.{leads, ExitFound};

    // The cut of the modules with a rank.
    pub fn new(graph: Graph<'a>, hold: &'a [u32], rank: &'a [u32]) -> Cut<'a>
        requires { (2 * graph.m ≤ length hold.now) × (graph.n ≤ length rank.now) }
        ensures graph { result.graph ≡ graph.entry }
        ensures hold { result.hold.now ≡ hold.now }
        ensures rank { result.rank.now ≡ rank.now }
    {
        Cut { graph, hold, rank }
    }

    // Whether slot s holds units and leads out of the set.
    #[tactic(auto, unfolding(crate::specs::Search::leads))]
    pub(crate) fn leads(&self, s: usize) -> bool
        requires { s < 2 * self.now.graph.m }
        ensures { result ≡ leads self.now.graph.ends.now self.now.hold.now self.now.rank.now s }
    {
        let graph = self.graph;
        self.hold[s] > 0 && self.rank[graph.module(s)] > 0 && self.rank[graph.module(other(s))] == 0
    }

    // The slot by which an arc leads out, if it does: its own, or with BACK the pair's other slot, which is the neighbour's. The neighbour's rank is looked at
    // first. An arc is a hint, so which slot it is, is free.
    pub fn exit_along<const BACK: bool>(&self, arc: Arc) -> Option<usize>
        requires { 512 ≤ length self.now.rank.now }
        ensures { IfSome result (λ s. (s < 2 * self.now.graph.m)
            × (leads self.now.graph.ends.now self.now.hold.now self.now.rank.now s ≡ true)) }
    {
        let graph = self.graph;
        let k = usize::from(arc.slot);
        if (self.rank[usize::from(arc.end)] > 0) != BACK || k >= graph.slots() {
            return None;
        }
        let s = if BACK { other(k) } else { k };
        self.leads(s).then_some(s)
    }

    // The first slot that leads out, if one does. No slot does of a pair with both ends in the set or both outside it; else that of the end in the set may.
    pub fn exit(&self) -> Option<usize>
        ensures { ExitFound self.now.graph.m self.now.graph.ends.now self.now.hold.now self.now.rank.now result }
    {
        let graph = self.graph;
        for j in 0..graph.m {
            let first_out = self.rank[graph.first_end(j)] == 0;
            let second_out = self.rank[graph.second_end(j)] == 0;
            let s = 2 * j + usize::from(first_out);
            if first_out != second_out && self.leads(s) {
                return Some(s);
            }
        }
        None
    }
}
