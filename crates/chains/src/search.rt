// Searches for chains (augmenting paths): breadth first from a module loaded above p along slots that hold units, to the first module loaded below p;
// then units are pulled along the chain.
ghost use Rattle.std.specs.Prelude.{◌≡◌, ◌<◌, ◌≤◌, length, slice_index, IfSome, IfNone, IsSome};
ghost use Rattle.slots.specs.Views.{UnitsSame, UnitsKept};
ghost use Rattle.chains.specs.Search.{ChainFound, Pulled, Settled};

use crate::cut::Cut;
use crate::reached::Reached;
use crate::{Ended, Searches};
use arcs::Arcs;
use slots::Units;

// Breadth first from the root along slots that hold units: the first module found that is loaded below p, if there is one. (The labelled scan is a form that
// document 01 names. It counts no index.)
fn search(units: &Units, arcs: Arcs, p: u32, root: usize, reached: &mut Reached) -> Option<usize>
    requires n_bound { units.now.graph.n ≤ 512 }
    requires root { (root < units.now.graph.n) × (p ≤ slice_index units.now.load.now root) }
    ensures { ChainFound units.now.graph.n units.now.graph.m p root units.now.graph.ends.now units.now.hold.now units.now.load.now reached.new.rank
        reached.new.from result }
{
    let graph = units.graph;
    reached.begin(root);
    'scan: loop {
        if let Some(u) = reached.queue.next() {
            for &arc in arcs.of(u) {
                let cut = Cut::new(graph, units.hold, &reached.rank);
                if let Some(k) = cut.exit_along::<false>(arc) {
                    let v = reached.visit(units, k);
                    if units.load[v] < p {
                        break 'scan Some(v);
                    }
                }
            }
        } else if let Some(k) = Cut::new(graph, units.hold, &reached.rank).exit() {
            let v = reached.visit(units, k);
            if units.load[v] < p {
                break 'scan Some(v);
            }
        } else {
            break 'scan None;
        }
    }
}

// Units move towards `found` along the chain by which it was reached, from its end backward, until a module on it keeps p or more. How many slots
// they moved along. (A loop along a chain, not over an index.)
fn pull(units: &mut Units, p: u32, root: usize, found: usize, reached: &Reached) -> u32
    requires root { (root < units.old.graph.n) × (p < slice_index units.old.load.now root) }
    requires found { ChainFound units.old.graph.n units.old.graph.m p root units.old.graph.ends.now units.old.hold.now units.old.load.now
        reached.now.rank reached.now.from (Some found) }
    ensures same { UnitsSame units.old units.new }
    ensures pulled { Pulled units.old.graph.n units.old.graph.m p units.old.graph.ends.now units.old.hold.now units.old.load.now
        units.new.hold.now units.new.load.now }
{
    let graph = units.graph;
    let mut c = found;
    let mut moved: u32 = 1;
    loop {
        let k = usize::from(reached.from[c]);
        let u = graph.module(k);
        let d = (p - units.load[c]).min(units.hold[k]);
        units.shift(k, d);
        if p <= units.load[u] || u == root {
            return moved;
        }
        c = u;
        moved = moved.wrapping_add(1);
    }
}

// Searches and pulls until no load is above p; or, if `most` is a number, until so many chains were pulled and a load is still above p: then there is no
// answer. Not settled: the last search reached a set that no unit can leave, those with a rank. Free are where the units of a pair lie, the ranks where it is
// settled or there is no answer, what is said of searches, and, if `most` is a number, whether there is an answer. (How often a root is searched from is not
// known: no index is counted. Not inlined, so that room for what is reached is on the stack only while it runs.)
#[inline(never)]
pub fn settle(
    units: &mut Units,
    arcs: Arcs,
    p: u32,
    most: Option<u32>,
    rank: &mut [u32],
) -> Option<Ended>
    requires { (units.old.graph.n ≤ 512) × (512 ≤ length rank.old) }
    ensures kept { UnitsKept units.old units.new }
    ensures settled { IfSome result (λ ended. Settled units.old.graph.n units.old.graph.m p units.old.graph.ends.now units.old.hold.now units.old.load.now
        units.new.hold.now units.new.load.now rank.new ended.settled) }
    ensures all { IfNone most (IsSome result) }
{
    let n = units.graph.n;
    let mut reached = Reached::new();
    let mut searches = Searches::default();
    for root in 0..n {
        while units.load[root] > p {
            if most == Some(searches.chains) {
                return None;
            }
            let Some(found) = search(units, arcs, p, root, &mut reached) else {
                rank[..n].copy_from_slice(&reached.rank[..n]);
                searches.none = 1;
                return Some(Ended {
                    settled: false,
                    searches,
                });
            };
            searches = searches.with_chain(pull(units, p, root, found, &reached));
        }
    }
    Some(Ended {
        settled: true,
        searches,
    })
}
