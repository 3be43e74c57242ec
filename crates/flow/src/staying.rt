// Modules that drain, and those that stay.
ghost use Rattle.std.specs.Prelude.{◌≡◌, ◌&&◌, cond, ◌+◌, ◌*◌, ◌≤◌, ◌<◌, leb, eqb, true, length, IfSome};
ghost use Rattle.chains.specs.Search.{zeros, leads, ExitFound};
ghost use Rattle.flow.specs.Drain.{DrainStart, Released, Drains};

use arcs::{Arc, Arcs};
use chains::{Cut, Queue};
use slots::{Units, is_sink};

// 1 where a module of scope byte s and load x is in the scope and loaded p or more, else 0. (A rank, not a bool: cuts go by ranks.)
fn stays(p: u32, s: u8, x: u32) -> u32
    ensures { result ≡ cond (eqb s 1 && leb p x) 1 0 }
{
    u32::from(s == 1 && p <= x)
}

// rank[v] is above 0 where module v stays so far; the ranks are lent. `queue` has modules that drained: whoever holds units of a pair with one of them drains
// too. (Units stand beside it, not in it: whoever takes it by `&mut` would have to say that they are the same ones afterwards. That they have at most 512
// modules is a clause of each function: in a struct with them, each contract below would name them through it, which is longer. Ranks lent as an array
// were tried: then the proof of `start` doesn't close.)
#[derive(Drop)]
pub(crate) struct Staying<'a> {
    pub rank: &'a mut [u32],
    pub queue: Queue,
    pub ghost long: { length rank.now ≡ 512 },
    pub ghost count: { queue.tail ≤ zeros 512 rank.now },
}

impl<'a> Staying<'a> {
    // Who stays at the start; those of the scope who do not are queued.
    pub(crate) fn start(units: &Units, p: u32, scope: &[u8], rank: &'a mut [u32]) -> Staying<'a>
        requires n_bound { units.now.graph.n ≤ 512 }
        requires n_in_bounds { units.now.graph.n ≤ length scope.now }
        requires long { length rank.old ≡ 512 }
        ensures same { result.rank.ghost_name ≡ rank.entry.ghost_name }
        ensures start { DrainStart units.now.graph.n p scope.now units.now.load.now result.rank.now result.queue.modules result.queue.tail }
    {
        rank.fill(0);
        let mut queue = Queue::new();
        for v in 0..units.graph.n {
            let s = scope[v];
            let x = units.load[v];
            rank[v] = stays(p, s, x);
            queue.push_if(v, is_sink(p, s, x));
        }
        Staying { rank, queue }
    }

    // The module of slot k drains.
    pub(crate) fn release(&mut self, units: &Units, k: usize)
        requires n_bound { units.now.graph.n ≤ 512 }
        requires k_bound { k < 2 * units.now.graph.m }
        requires leads { leads units.now.graph.ends.now units.now.hold.now self.old.rank.now k ≡ true }
        ensures same { self.new.rank.ghost_name ≡ self.old.rank.ghost_name }
        ensures released { Released units.now.graph.ends.now k self.old.queue.tail self.old.rank.now self.old.queue.modules self.new.rank.now
            self.new.queue.modules }
        ensures drains { Drains units.now.graph.n units.now.graph.m units.now.graph.ends.now units.now.hold.now self.old.rank.now self.old.queue.modules
            self.old.queue.tail self.new.rank.now self.new.queue.modules self.new.queue.tail }
        ensures queue { (self.new.queue.at ≡ self.old.queue.at) × (self.new.queue.tail ≡ self.old.queue.tail + 1) }
    {
        let graph = units.graph;
        let v = graph.module(k);
        self.rank[v] = 0;
        self.queue.push(v);
    }

    // The first slot by which units can come from a module that stays to one that has drained, if one does.
    pub(crate) fn exit(&self, units: &Units) -> Option<usize>
        requires { units.now.graph.n ≤ 512 }
        ensures { ExitFound units.now.graph.m units.now.graph.ends.now units.now.hold.now self.now.rank.now result }
    {
        let graph = units.graph;
        Cut::new(graph, units.hold, self.rank).exit()
    }

    // The neighbour's slot of an arc, if the neighbour stays and it holds units of a pair with the arc's module, which has drained.
    fn exit_along(&self, units: &Units, arc: Arc) -> Option<usize>
        requires { units.now.graph.n ≤ 512 }
        ensures { IfSome result (λ s. (s < 2 * units.now.graph.m)
            × (leads units.now.graph.ends.now units.now.hold.now self.now.rank.now s ≡ true)) }
    {
        let graph = units.graph;
        Cut::new(graph, units.hold, self.rank).exit_along::<true>(arc)
    }

    // Along the arcs of u: who holds units of a pair with a module that has drained drains too.
    pub(crate) fn spill(&mut self, units: &Units, arcs: Arcs, u: usize)
        requires n_bound { units.now.graph.n ≤ 512 }
        ensures same { self.new.rank.ghost_name ≡ self.old.rank.ghost_name }
        ensures drains { Drains units.now.graph.n units.now.graph.m units.now.graph.ends.now units.now.hold.now self.old.rank.now self.old.queue.modules
            self.old.queue.tail self.new.rank.now self.new.queue.modules self.new.queue.tail }
        ensures at { self.new.queue.at ≡ self.old.queue.at }
    {
        for &arc in arcs.of(u) {
            if let Some(k) = self.exit_along(units, arc) {
                self.release(units, k);
            }
        }
    }
}
