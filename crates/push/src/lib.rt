// The leavers' start, and push phases (push-relabel): they balance a split before the exact search of crate `flow`, which is what decides.
//
// In leaving order each module keeps units of its pairs with those who leave later, until it is loaded p; the rest is theirs (`leavers`).
// A phase gives each module a label: its distance from a module of the scope loaded below p, along slots that hold units (breadth first,
// backward). Active modules, those loaded above p, are then queued. The first one sends what it has too much to modules with a lower label, along its
// arcs from where it stopped last (discharge). If it still has too much, it gets a label just above the lowest that it can reach (relabel), and is queued
// again. Where the queue's 640 places are used up, the phase ends. Where most of what modules have above p cannot move on, no phase helps: the phases end.
// Whatever the labels say, units move within pairs only (`Units::shift`): the promise is that a split stays a split. How well it is balanced is free.
// Cost: a phase takes a step for each slot of the modules that it labels and of those that come up in the queue. Nothing is refused.
// `as` stands where std has no `From`: from u32 to usize, and where a bound lets a number fit fewer bits.
// That n ≤ 512, and how long lent buffers are, are clauses: an invariant of `Graph`, or arrays for slices, would ask more of who calls public functions.
// `UnitsKept` is a clause of each function that moves units: it compares before and after, which no type can. So is v < 512, as the bound of any index is: a
// type of module numbers would be made and taken apart around each index.
#![tactic(auto)]

mod distances;
mod labels;
mod leaving;
mod phase;
mod queue;

ghost use Rattle.std.specs.Prelude.{◌≤◌, length};
ghost use Rattle.slots.specs.Views.{UnitsKept};

use arcs::Arcs;
use distances::label_all;
pub use labels::FAR;
use leaving::leave;
use phase::run_phase;
use queue::Queue;
use slots::Units;

// Whether a module is active: loaded above p.
fn any_active(units: &Units, p: u32) -> bool {
    units.load[..units.graph.n].iter().any(|x| p < *x)
}

// Whether the far modules have half or more of what lies above p, and some. (It only guides: a sum that did not fit would wrap.)
fn mostly_stuck(units: &Units, p: u32, label: &[u32; 512]) -> bool {
    let mut all = 0u32;
    let mut stuck = 0u32;
    for (x, d) in units.load[..units.graph.n].iter().zip(label) {
        let x = x.saturating_sub(p);
        all = all.wrapping_add(x);
        stuck = stuck.wrapping_add(if *d == FAR { x } else { 0 });
    }
    stuck > 0 && all.wrapping_sub(stuck) <= stuck
}

// At most `most` phases, as long as a module is loaded above p. True where they ended because most of what lies above p
// is stuck: `label` is FAR then for the modules of the scope from which nothing can go. How well they balance the loads is free, and so is `label`: whatever
// moves, it moves within pairs. (An Option of the labels would be no plainer: they are words of the caller's, and a hint either way.)
#[tactic(auto, using(slots::proofs::Moves::kept_more))]
pub fn phases(
    units: &mut Units,
    arcs: Arcs,
    p: u32,
    most: usize,
    scope: &[u8],
    label: &mut [u32],
) -> bool
    requires n_bound { units.old.graph.n ≤ 512 }
    requires n_in_bounds { units.old.graph.n ≤ length scope.now }
    requires in_bounds { (512 ≤ length units.old.load.now) × (512 ≤ length label.old) }
    ensures { UnitsKept units.old units.new }
{
    let label = label.first_chunk_mut().unwrap();
    let mut places = [0u16; 640];
    for _ in 0..most {
        if !any_active(units, p) {
            return false;
        }
        let mut reached = Queue::new(&mut places);
        label_all(units, arcs, p, scope, label, &mut reached);
        if mostly_stuck(units, p, label) {
            return true;
        }
        run_phase(units, arcs, p, &reached, label);
    }
    false
}

// A start from the leaving order: each leaver keeps of its pairs with those who stay up to p in all, the rest goes to them. With arcs as `arcs::lay` leaves
// them by the same places. How well that balances the loads is free.
pub fn leavers(units: &mut Units, arcs: Arcs, p: u32, order: &[u32], place: &[u32])
    requires n_bound { units.old.graph.n ≤ 512 }
    requires n_in_bounds { (units.old.graph.n ≤ length order.now) × (512 ≤ length place.now) }
    ensures { UnitsKept units.old units.new }
{
    let n = units.graph.n;
    let mut got = [0u32; 512];
    for (i, v) in order[..n].iter().enumerate() {
        let v = *v as usize;
        if v < n {
            let room = p.saturating_sub(got[v]);
            leave(units, arcs.of(v), i, room, place, &mut got);
        }
    }
}
