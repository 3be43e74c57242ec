// Once no load is above p: modules of the scope loaded below p drain, and so does whoever could pass units on to them. What stays is the largest set
// loaded p throughout.
ghost use Rattle.std.specs.Prelude.{◌≡◌, ◌≤◌, length};
ghost use Rattle.flow.specs.Drain.{Drained};

use crate::staying::Staying;
use arcs::Arcs;
use slots::Units;

// Who stays when modules of the scope loaded below p have drained, and whoever holds units of a pair with one that has: those with a rank above 0.
// (The loop goes by the queue: it counts no index.)
pub(crate) fn drain(units: &Units, arcs: Arcs, p: u32, scope: &[u8], rank: &mut [u32])
    requires n_bound { units.now.graph.n ≤ 512 }
    requires n_in_bounds { units.now.graph.n ≤ length scope.now }
    requires long { length rank.old ≡ 512 }
    ensures { Drained units.now.graph.n units.now.graph.m p scope.now units.now.graph.ends.now units.now.hold.now units.now.load.now rank.new }
{
    let mut staying = Staying::start(units, p, scope, rank);
    loop {
        if let Some(u) = staying.queue.next() {
            staying.spill(units, arcs, u);
        } else if let Some(k) = staying.exit(units) {
            staying.release(units, k);
        } else {
            return;
        }
    }
}
