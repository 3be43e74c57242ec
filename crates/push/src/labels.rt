// Labels of modules, and how a phase raises them.
ghost use Rattle.std.specs.Prelude.{◌<◌, ◌≤◌, length};

use arcs::Arc;
use slots::Units;

// The label of a module of the scope from which no units were seen to come to one loaded below p: higher than any distance.
// (An Option is no plainer: the labels are the caller's words, and wherever two of them are compared far is the highest.)
pub const FAR: u32 = 512;

// Each module's label, how many of those reached have each label, and how many of its arcs each module has passed (its current arc).
// (An array of structs would be a copy: the labels are the caller's words. As `&mut [u32; 512]` the fields were tried: the borrow checker does not cover
// reading an element of such an array through `&self`.)
#[derive(Drop)]
pub(crate) struct Labels<'a> {
    label: &'a mut [u32],
    sizes: &'a mut [u16],
    passed: &'a mut [u16],
    ghost label_long: { 512 ≤ length label.now },
    ghost sizes_long: { 512 < length sizes.now },
    ghost passed_long: { 512 ≤ length passed.now },
}

// The label one higher, at most that of the far ones.
pub(crate) fn next_label(x: u32) -> u32 {
    x.min(FAR - 1) + 1
}

impl<'a> Labels<'a> {
    ghost use Rattle.std.specs.Prelude.{◌≤◌, ◌<◌, ◌*◌};

    // Labels as they are: none counted, and no arc passed.
    pub(crate) fn new(
        label: &'a mut [u32; 512],
        sizes: &'a mut [u16; 513],
        passed: &'a mut [u16; 512],
    ) -> Labels<'a> {
        sizes.fill(0);
        passed.fill(0);
        Labels {
            label,
            sizes,
            passed,
        }
    }

    // The label of v, far where it is higher.
    pub(crate) fn of(&self, v: usize) -> u32
        requires { v < 512 }
        ensures { result ≤ 512 }
    {
        self.label[v].min(FAR)
    }

    // The label of the module to which units can go along an arc, far where its slot holds none.
    pub(crate) fn behind(&self, units: &Units, arc: Arc) -> u32
        ensures { result < 512 → arc.slot < 2 * units.now.graph.m }
    {
        let y = self.label[usize::from(arc.end)];
        let s = usize::from(arc.slot);
        if s < units.graph.slots() && units.hold[s] > 0 {
            y
        } else {
            FAR
        }
    }

    // The lowest label that units can go to along arcs.
    pub(crate) fn lowest(&self, units: &Units, arcs: &[Arc]) -> u32 {
        arcs.iter()
            .fold(FAR, |low, arc| low.min(self.behind(units, *arc)))
    }

    // How many arcs v has passed.
    pub(crate) fn passed(&self, v: usize) -> usize
        requires { v < 512 }
    {
        usize::from(self.passed[v])
    }

    // v has passed so many arcs.
    pub(crate) fn pass(&mut self, v: usize, arcs: usize)
        requires { v < 512 }
    {
        self.passed[v] = u16::try_from(arcs).unwrap_or(u16::MAX);
    }

    // One module more has the label of v. (Counts only guide: one that did not fit would wrap.)
    pub(crate) fn count(&mut self, v: usize)
        requires { v < 512 }
    {
        let d = self.of(v) as usize;
        self.sizes[d] = self.sizes[d].wrapping_add(1);
    }

    // v gets the label just above `low`, but far where nobody else had the one that it had: nobody below that can be reached from there then (the gap
    // heuristic). It begins at its first arc again. Whether it is not far.
    pub(crate) fn raise(&mut self, v: usize, low: u32) -> bool
        requires { v < 512 }
    {
        let d = self.of(v) as usize;
        let others = self.sizes[d].wrapping_sub(1);
        self.sizes[d] = others;
        self.label[v] = if others == 0 { FAR } else { next_label(low) };
        self.passed[v] = 0;
        self.count(v);
        self.label[v] < FAR
    }
}
