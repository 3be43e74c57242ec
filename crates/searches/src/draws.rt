// Lists that are drawn.
use crate::entries::digit;
use crate::kinds::{Candidate, Counts, Kind};
use crate::plain::Plain;
use model::Random;
use pairs::Stops;
use std::alloc::{AllocError, Global};

// The lists of a row: their kind and stop counts, how many modules the first has, how many lists there are of each number of modules, and how many in all.
#[derive(Clone, Copy)]
pub(crate) struct Lists {
    pub(crate) kind: Kind,
    pub(crate) counts: Counts,
    pub(crate) least: u32,
    pub(crate) each: u32,
    pub(crate) count: u32,
}

// A list to draw: number i of its row, with n modules.
#[derive(Clone, Copy)]
pub(crate) struct Plan {
    kind: Kind,
    counts: Counts,
    i: u32,
    n: u32,
}

impl Lists {
    // List i.
    pub(crate) fn plan(self, i: u32) -> Plan {
        Plan {
            kind: self.kind,
            counts: self.counts,
            i,
            n: self
                .least
                .saturating_add(i.checked_div(self.each).unwrap_or(0)),
        }
    }
}

impl Plan {
    // The stop count of a pair that is taken.
    fn stops(self, pair: Candidate, draw: u32) -> u32 {
        match self.kind {
            Kind::Digits => digit(self.i, 4, pair.passed),
            _ => self.counts.stops(pair, draw),
        }
    }

    // The list: all pairs of its modules pass in rising order, with a draw for each, and no more than 4,096 are taken.
    pub(crate) fn draw(self, random: &mut Random, alloc: Global) -> Result<Plain, AllocError> {
        let n = self.n;
        let mut pairs = Vec::new(alloc);
        let all = (0..n).flat_map(|a| (a.saturating_add(1)..n).map(move |b| (a, b)));
        for (passed, (a, b)) in (0u32..).zip(all) {
            let drawn = random.draw();
            let pair = Candidate { a, b, passed };
            if pairs.len() < 4096 && self.kind.takes(self.i, n, pair, drawn >> 16) {
                let w = self.stops(pair, drawn & 0xffff);
                pairs.push(Stops { a, b, w })?;
            }
        }
        Ok(Plain { n, pairs })
    }
}
