// The found group as document 01 defines it and as plainly as can be: every set of modules is counted. Module v is in the set of a mask where bit v is 1.
use crate::plain::{Plain, product};
use numbers::Ratio;
use std::ops::Range;

// A set: its mask, and its inside count over its size.
#[derive(Clone, Copy)]
pub(crate) struct Set {
    mask: u32,
    pub(crate) ratio: Ratio,
}

// Whether module v is in the set of a mask.
fn has(mask: u32, v: u32) -> bool {
    v < 32 && (mask >> v) & 1 == 1
}

impl Set {
    // Whether member bytes are those of the set.
    pub(crate) fn is_of(self, members: &[u8]) -> bool {
        (0u32..)
            .zip(members.iter())
            .all(|(v, &byte)| has(self.mask, v) == (byte == 1))
    }

    // This one, unless the other has a higher ratio, or the same one in more modules.
    fn denser(self, other: Set) -> Set {
        let mine = (product(self.ratio.p, other.ratio.q), self.ratio.q);
        let others = (product(other.ratio.p, self.ratio.q), other.ratio.q);
        if mine < others { other } else { self }
    }
}

impl Plain {
    // The masks of all sets of a list of at most 12 modules; none of a longer list.
    pub(crate) fn masks(&self) -> Range<u32> {
        if 12 < self.n { 1..1 } else { 1..1 << self.n }
    }

    // The set of a mask.
    pub(crate) fn set(&self, mask: u32) -> Set {
        let ratio = Ratio {
            p: self.inside(|v| has(mask, v)),
            q: mask.count_ones(),
        };
        Set { mask, ratio }
    }

    // The densest set of a list of at most 12 modules, of equals the largest.
    pub(crate) fn densest_set(&self) -> Option<Set> {
        self.masks()
            .map(|mask| self.set(mask))
            .reduce(|first, second| first.denser(second))
    }
}
