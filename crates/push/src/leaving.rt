// The leavers' start: who leaves keeps units of its pairs with those who stay, and the rest is theirs.
ghost use Rattle.std.specs.Prelude.{◌*◌, ◌<◌, ◌≤◌, length};
ghost use Rattle.slots.specs.Slots.{pair_units};
ghost use Rattle.slots.specs.Views.{UnitsKept};

use arcs::Arc;
use slots::{Units, other};

// Slot s comes to hold y of its pair's units, by one move within the pair.
fn bring(units: &mut Units, s: usize, y: u32)
    requires s_bound { s < 2 * units.old.graph.m }
    requires y_bound { y ≤ pair_units units.old.hold.now s }
    ensures { UnitsKept units.old units.new }
{
    let h = units.hold[s];
    let from = if h < y { other(s) } else { s };
    units.shift(from, h.abs_diff(y));
}

// A module leaves at place i. Of its pairs with those who stay, the last leavers first, it keeps up to `room` units; what the others get is counted in `got`.
pub(crate) fn leave(
    units: &mut Units,
    arcs: &[Arc],
    i: usize,
    room: u32,
    place: &[u32],
    got: &mut [u32],
)
    requires place_long { 512 ≤ length place.now }
    requires got_long { 512 ≤ length got.old }
    ensures { UnitsKept units.old units.new }
{
    let graph = units.graph;
    let mut left = room;
    for arc in arcs {
        let e = usize::from(arc.end);
        let s = usize::from(arc.slot);
        if (place[e] as usize) < i || graph.slots() <= s {
            return;
        }
        let u = units.hold[s] + units.hold[other(s)];
        let y = u.min(left);
        left -= y;
        got[e] = got[e].wrapping_add(u - y);
        bring(units, s, y);
    }
}
