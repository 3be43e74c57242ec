// A phase's first labels: a module's distance from one of the scope loaded below p, along slots that hold units. Found breadth first, backward.
ghost use Rattle.std.specs.Prelude.{◌≡◌, ◌≤◌, length};

use crate::labels::{FAR, next_label};
use crate::queue::Queue;
use arcs::{Arc, Arcs};
use slots::{Units, is_sink, other};

// The label of a module of scope byte s and load x before others are reached: far for those of the scope loaded p or more. All others have label 0; those
// outside the scope hold no units, and nobody sends them any.
fn first_label(p: u32, s: u8, x: u32) -> u32 {
    if s == 1 && p <= x { FAR } else { 0 }
}

// Modules of the scope loaded below p, the sinks, are queued.
fn label_sinks(units: &Units, p: u32, scope: &[u8], label: &mut [u32; 512], reached: &mut Queue)
    requires n_bound { units.now.graph.n ≤ 512 }
    requires scope_long { units.now.graph.n ≤ length scope.now }
{
    for v in (0..units.graph.n).rev() {
        let x = units.load[v];
        label[v] = first_label(p, scope[v], x);
        reached.join(v, is_sink(p, scope[v], x));
    }
}

// Whether the pair's other end holds units that can come along an arc.
fn can_come(units: &Units, arc: Arc) -> bool {
    let s = usize::from(arc.slot);
    s < units.graph.slots() && units.hold[other(s)] > 0
}

// Everyone who has a pair with a module labelled just below d and holds units of it gets label d and joins the queue, if it is far.
fn label_neighbours(
    units: &Units,
    arcs: &[Arc],
    d: u32,
    label: &mut [u32; 512],
    reached: &mut Queue,
)
    ensures { reached.new.at ≡ reached.old.at }
{
    for arc in arcs {
        let e = usize::from(arc.end);
        if label[e] == FAR && can_come(units, *arc) {
            label[e] = d;
            reached.join(e, true);
        }
    }
}

// Labels all modules from which units can come to one loaded below p; they are queued as they were reached. (The loop goes by the queue.)
pub(crate) fn label_all(
    units: &Units,
    arcs: Arcs,
    p: u32,
    scope: &[u8],
    label: &mut [u32; 512],
    reached: &mut Queue,
)
    requires n_bound { units.now.graph.n ≤ 512 }
    requires scope_long { units.now.graph.n ≤ length scope.now }
{
    label_sinks(units, p, scope, label, reached);
    while let Some(v) = reached.next() {
        let d = next_label(label[v]);
        label_neighbours(units, arcs.of(v), d, label, reached);
    }
}
