// A phase: active modules, those loaded above p, send units to modules with a lower label (push), and get a higher label where that is not enough (relabel).
ghost use Rattle.std.specs.Prelude.{◌≤◌, length};
ghost use Rattle.slots.specs.Views.{UnitsKept};

use crate::labels::{FAR, Labels};
use crate::queue::Queue;
use arcs::{Arc, Arcs};
use slots::Units;

// The bound p, labels, and the active modules, queued. (Units stand beside it: held by `&mut`, each method would have to say that graph and buffers are the
// same ones afterwards. So how long the loads are is a clause of each.)
#[derive(Drop)]
pub(crate) struct Phase<'a> {
    p: u32,
    labels: Labels<'a>,
    active: Queue<'a>,
}

// One phase at the bound p, with labels as `label_all` leaves them.
pub(crate) fn run_phase(
    units: &mut Units,
    arcs: Arcs,
    p: u32,
    reached: &Queue,
    label: &mut [u32; 512],
)
    requires { 512 ≤ length units.old.load.now }
    ensures { UnitsKept units.old units.new }
{
    let mut sizes = [0u16; 513];
    let mut passed = [0u16; 512];
    let mut places = [0u16; 640];
    let mut phase = Phase {
        p,
        labels: Labels::new(label, &mut sizes, &mut passed),
        active: Queue::new(&mut places),
    };
    phase.begin(units, reached);
    phase.run(units, arcs);
}

impl<'a> Phase<'a> {
    ghost use Rattle.std.specs.Prelude.{◌≡◌, ◌*◌, ◌<◌, ◌≤◌, length};
    ghost use Rattle.slots.specs.Views.{UnitsKept};

    // Of those reached, the active ones are queued, the farthest first; and all of them are counted by their labels.
    fn begin(&mut self, units: &Units, reached: &Queue)
        requires { 512 ≤ length units.now.load.now }
    {
        for v in reached.joined().iter().rev() {
            let v = usize::from(*v);
            self.labels.count(v);
            self.active.join(v, self.p < units.load[v]);
        }
    }

    // Of what an arc's slot holds, so much as v has above p goes to the pair's other end. If that becomes active, it joins the queue (`&` leaves no jump, which
    // is quicker than `&&`).
    fn push(&mut self, units: &mut Units, v: usize, arc: Arc)
        requires v_bound { v < 512 }
        requires s_bound { arc.slot < 2 * units.old.graph.m }
        requires load_long { 512 ≤ length units.old.load.now }
        ensures kept { UnitsKept units.old units.new }
        ensures at { self.new.active.at ≡ self.old.active.at }
    {
        let s = usize::from(arc.slot);
        let e = usize::from(arc.end);
        let x = units.load[e];
        let d = units.hold[s].min(units.load[v].saturating_sub(self.p));
        units.shift(s, d);
        self.active
            .join(e, (x <= self.p) & (self.p < units.load[e]));
    }

    // Module v sends units along its arcs from number `from` on, until it is not loaded above p: None then. Else the lowest label that it can still send units
    // to along these.
    fn push_from(&mut self, units: &mut Units, v: usize, from: usize, arcs: &[Arc]) -> Option<u32>
        requires v_bound { v < 512 }
        requires from_bound { from ≤ length arcs.now }
        requires load_long { 512 ≤ length units.old.load.now }
        ensures kept { UnitsKept units.old units.new }
        ensures at { self.new.active.at ≡ self.old.active.at }
    {
        let d = self.labels.of(v);
        let mut low = FAR;
        for (i, arc) in arcs[from..].iter().enumerate() {
            let y = self.labels.behind(units, *arc);
            if y < d {
                self.push(units, v, *arc);
                if units.load[v] <= self.p {
                    self.labels.pass(v, from + i);
                    return None;
                }
            } else {
                low = low.min(y);
            }
        }
        Some(low)
    }

    // Module v sends on what it has above p. If some is left, it gets a label just above the lowest that it can send units to, and joins the queue unless it
    // is far.
    fn discharge(&mut self, units: &mut Units, v: usize, arcs: &[Arc])
        requires v_bound { v < 512 }
        requires load_long { 512 ≤ length units.old.load.now }
        ensures kept { UnitsKept units.old units.new }
        ensures at { self.new.active.at ≡ self.old.active.at }
    {
        let from = self.labels.passed(v).min(arcs.len());
        if let Some(low) = self.push_from(units, v, from, arcs) {
            let low = low.min(self.labels.lowest(units, &arcs[..from]));
            let near = self.labels.raise(v, low);
            self.active.join(v, near);
        }
    }

    // Whoever is queued sends units on, first come, first served, until the queue is empty or its places are used up.
    fn run(&mut self, units: &mut Units, arcs: Arcs)
        requires { 512 ≤ length units.old.load.now }
        ensures { UnitsKept units.old units.new }
    {
        while let Some(v) = self.active.next() {
            self.discharge(units, v, arcs.of(v));
        }
    }
}
