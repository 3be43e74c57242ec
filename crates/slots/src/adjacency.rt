// The slots of each module, chained from its last one back.
ghost use Rattle.std.specs.Prelude.{◌≡◌, ℕ, ◌*◌, ◌+◌, ◌≤◌, ◌<◌, length, get_or};
ghost use Rattle.slots.specs.Buffers.{entry};
ghost use Rattle.slots.specs.Links.{place, Linked};
ghost use Rattle.slots.specs.Rows.{Chained};

use crate::graph::Graph;
use crate::neighbours::{Neighbour, Neighbours};
use crate::{add, other};
use lists::List;

// Each module's last slot, and the slot before each in its module's chain, 1 more and 0 for none: an Option, of NonZeroU16 too, takes four bytes, which would
// be 17 KiB more of a caller's stack.
#[derive(Clone, Copy)]
pub struct Adjacency<'g, 'a> {
    pub list: List<'g>,
    last: &'a [u16],
    before: &'a [u16],
    pub ghost linked: { Linked list.n (2 * list.m) (entry list.ends.now) last.now before.now },
    pub ghost last_long: { list.n ≤ length last.now },
    pub ghost before_long: { 2 * list.m ≤ length before.now },
}

impl<'g, 'a> Adjacency<'g, 'a> {
    ghost use Rattle.std.specs.Prelude.{◌≡◌, ℕ, ◌*◌, ◌≤◌, ◌<◌, length, get_or};
    ghost use Rattle.slots.specs.Buffers.{entry};
    ghost use Rattle.slots.specs.Links.{place, last_at};
    ghost use Rattle.slots.specs.Rows.{weight_at, neighbour_at};
    ghost use Rattle.slots.specs.Neighbours.{neighbours_of, neighbours_left};

    // The slots of all modules, in two buffers that are lent for them, and the degrees, in one pass.
    #[tactic(auto, using(crate::proofs::Rows::weigh_pairs))]
    pub fn new(
        list: List<'g>,
        last: &'a mut [u16],
        before: &'a mut [u16],
        degrees: &mut [u32],
    ) -> Adjacency<'g, 'a>
        requires last_long { list.n ≤ length last.old }
        requires before_long { 2 * list.m ≤ length before.old }
        requires degrees_long { list.n ≤ length degrees.old }
        ensures same_list { result.list ≡ list.entry }
        ensures degrees_are { (v : ℕ) → v < list.entry.n →
            get_or degrees.new v 0 ≡ weight_at list.entry.ends.now list.entry.weights.now list.entry.m v }
    {
        last.fill(0);
        degrees.fill(0);
        chain(list, last, before, degrees);
        Adjacency { list, last, before }
    }

    // The neighbours of module v, along its slots.
    #[tactic(auto, using(crate::proofs::Rows::row_linked, crate::proofs::Rows::before_low))]
    pub fn neighbours(self, v: usize) -> Neighbours<'g, 'a>
        requires { v < self.list.n }
        ensures { neighbours_left result ≡ neighbours_of self.entry.list v }
    {
        Neighbours {
            adjacency: self,
            slot: self.last_slot(v),
        }
    }

    // The last slot of module v.
    fn last_slot(&self, v: usize) -> Option<usize>
        requires { v < self.now.list.n }
        ensures { result ≡ place (last_at (2 * self.now.list.m) (entry self.now.list.ends.now) v) }
    {
        place(self.last[v])
    }

    // The slot before slot s among those of its module.
    #[tactic(auto, unfolding(crate::specs::Buffers::entry))]
    pub(crate) fn slot_before(&self, s: usize) -> Option<usize>
        requires { s < 2 * self.now.list.m }
        ensures { result ≡ place (last_at s (entry self.now.list.ends.now) (get_or self.now.list.ends.now s 0)) }
    {
        place(self.before[s])
    }

    // What joins the module of slot s to another one.
    #[tactic(auto, using(crate::proofs::Words::held_few))]
    pub(crate) fn neighbour(&self, s: usize) -> Neighbour
        requires { s < 2 * self.now.list.m }
        ensures { result ≡ neighbour_at self.now.list.ends.now self.now.list.weights.now s }
    {
        Neighbour {
            number: self.list.ends[other(s)] as usize,
            weight: self.list.weights[s / 2],
        }
    }
}

// The place that a word says.
fn place(word: u16) -> Option<usize>
    ensures { result ≡ place word }
{
    usize::from(word).checked_sub(1)
}

// Chains the slots of each module, and adds up what its pairs weigh.
#[tactic(auto, using(crate::proofs::Words::held_few), unfolding(crate::specs::Links::last_at, crate::specs::Rows::slots_weigh, crate::specs::Slots::total))]
fn chain(list: List, last: &mut [u16], before: &mut [u16], degrees: &mut [u32])
    requires last_long { list.n ≤ length last.old }
    requires before_long { 2 * list.m ≤ length before.old }
    requires degrees_long { list.n ≤ length degrees.old }
    requires last_none { (v : ℕ) → v < list.n → get_or last.old v 0 ≡ 0 }
    requires degrees_none { (v : ℕ) → v < list.n → get_or degrees.old v 0 ≡ 0 }
    ensures { Chained list.entry.n (2 * list.entry.m) list.entry.ends.now list.entry.weights.now last.new before.new degrees.new }
{
    let graph = Graph::from(list);
    for s in 0..graph.slots() {
        let v = graph.module(s);
        before[s] = last[v];
        last[v] = (s + 1) as u16;
        add(v, list.weights[s / 2], degrees);
    }
}
