// Units in slots, and the loads that they make.
ghost use Rattle.std.specs.Prelude.{◌≡◌, ◌*◌, ◌+◌, ◌≤◌, ◌<◌, length, get_or};
ghost use Rattle.slots.specs.Slots.{mate, moved, Room, Covers, Kept};

use crate::graph::Graph;
use crate::other;

// hold[s] has the units of its pair that slot s holds, load[v] the load of module v: its own, which does not move, and the units that it holds.
#[derive(Drop)]
pub struct Units<'g, 'a> {
    pub graph: Graph<'g>,
    pub hold: &'a mut [u32],
    pub load: &'a mut [u32],
    pub ghost room: { Room graph.m hold.now },
    pub ghost covers: { Covers graph.n graph.m graph.ends.now hold.now load.now },
}

impl<'g, 'a> Units<'g, 'a> {
    ghost use Rattle.std.specs.Prelude.{◌≡◌, ◌*◌, ◌≤◌, ◌<◌, get_or};
    ghost use Rattle.slots.specs.Slots.{mate, moved};
    ghost use Rattle.slots.specs.Views.{UnitsKept};

    // Moves d units from slot s to the pair's other slot, and the loads with them.
    pub fn shift(&mut self, s: usize, d: u32)
        requires s_bound { s < 2 * self.old.graph.m }
        requires d_bound { d ≤ get_or self.old.hold.now s 0 }
        ensures kept { UnitsKept self.old self.new }
        ensures hold_after { self.new.hold.now ≡ moved self.old.hold.now s (mate s) d }
        ensures load_after { self.new.load.now ≡ moved self.old.load.now (get_or self.old.graph.ends.now s 0)
            (get_or self.old.graph.ends.now (mate s) 0) d }
    {
        shift_within(self.graph, s, d, self.hold, self.load);
    }
}

// The same where units and loads lie apart: between the two moves the loads are not those of the units.
fn shift_within(graph: Graph, s: usize, d: u32, hold: &mut [u32], load: &mut [u32])
    requires room { Room graph.m hold.old }
    requires covers { Covers graph.n graph.m graph.ends.now hold.old load.old }
    requires s_bound { s < 2 * graph.m }
    requires d_bound { d ≤ get_or hold.old s 0 }
    ensures kept { Kept graph.entry.n graph.entry.m graph.entry.ends.now hold.old load.old hold.new load.new }
    ensures hold_after { hold.new ≡ moved hold.old s (mate s) d }
    ensures load_after { load.new ≡ moved load.old (get_or graph.entry.ends.now s 0) (get_or graph.entry.ends.now (mate s) 0) d }
{
    let o = other(s);
    carry(s, o, d, hold);
    carry(graph.module(s), graph.module(o), d, load);
}

// Moves d from place i to place j.
#[tactic(auto, unfolding(crate::specs::Slots::moved))]
fn carry(i: usize, j: usize, d: u32, xs: &mut [u32])
    requires i_in_bounds { i < length xs.old }
    requires j_in_bounds { j < length xs.old }
    requires apart { i ≡ j → ⊥ }
    requires d_bound { d ≤ get_or xs.old i 0 }
    requires d_bound_2 { get_or xs.old j 0 + d < 4294967296 }
    ensures { xs.new ≡ moved xs.old i j d }
{
    xs[i] -= d;
    xs[j] += d;
}
