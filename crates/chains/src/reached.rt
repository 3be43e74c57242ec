// The modules that a search has reached.
ghost use Rattle.std.specs.Prelude.{◌≡◌, ◌≢◌, ℕ, ◌+◌, ◌*◌, ◌<◌, ◌≤◌, true, length, slice_index};
ghost use Rattle.chains.specs.Search.{zeros, leads, Visited};

use crate::queue::Queue;
use slots::{Units, other};

// A search tree: rank[v] is 0 where module v is not reached, else it is number rank[v] of those reached, and from[v] the slot by which it was. The root is
// number 1. `queue` has those reached, in order. (0, not an Option, and two arrays, not one of structs: cuts read the ranks alone, as numbers, and `zeros` and
// `leads` are of these.)
#[derive(Drop)]
pub(crate) struct Reached {
    pub rank: [u32; 512],
    pub from: [u16; 512],
    pub queue: Queue,
    pub ghost count: { queue.tail + zeros 512 rank ≡ 512 },
    pub ghost high: { (v : ℕ) → v < 512 → slice_index rank v ≤ queue.tail },
}

impl Reached {
    // No module.
    pub(crate) fn new() -> Reached {
        Reached {
            rank: [0; 512],
            from: [0; 512],
            queue: Queue::new(),
        }
    }

    // The root alone.
    pub(crate) fn begin(&mut self, root: usize)
        requires { root < 512 }
        ensures root { slice_index self.new.rank root ≡ 1 }
        ensures rest { (v : ℕ) → v < 512 → v ≢ root → slice_index self.new.rank v ≡ 0 }
        ensures long { (length self.new.rank ≡ 512) × (length self.new.from ≡ 512) }
    {
        self.rank.fill(0);
        self.rank[root] = 1;
        self.queue.clear();
        self.queue.push(root);
    }

    // The module that slot k leads to, as the next one.
    pub(crate) fn visit(&mut self, units: &Units, k: usize) -> usize
        requires n_bound { units.now.graph.n ≤ 512 }
        requires k_bound { k < 2 * units.now.graph.m }
        requires leads { leads units.now.graph.ends.now units.now.hold.now self.old.rank k ≡ true }
        ensures visited { Visited units.now.graph.ends.now k self.old.queue.tail self.old.rank self.old.from self.old.queue.modules
            self.new.rank self.new.from self.new.queue.modules result }
        ensures below { result < units.now.graph.n }
        ensures queue { (self.new.queue.at ≡ self.old.queue.at) × (self.new.queue.tail ≡ self.old.queue.tail + 1) }
    {
        let graph = units.graph;
        let v = graph.module(other(k));
        self.queue.push(v);
        self.rank[v] = self.queue.tail as u32;
        self.from[v] = k as u16;
        v
    }
}
