// Peel's answer, and the plain computation of it: leaving order, core numbers and the densest remainder. Modules have levels, and those of level k or more are
// present. Module v has left at turn i when its level, its place, is i; it has dropped from the core of order k when its level, its core number, is below k.
use crate::altered::Altered;
use crate::entries::{at, put};
use crate::plain::{Plain, is_below};
use model::{raise, raise_at};
use numbers::Ratio;
use peel::Remainder;
use std::alloc::{AllocError, Global};

// Leaving order, core numbers, places, and the densest remainder.
#[derive(PartialEq, Eq, Drop)]
pub(crate) struct Peeled {
    pub(crate) order: Vec<u32>,
    pub(crate) cores: Vec<u32>,
    pub(crate) place: Vec<u32>,
    pub(crate) best: Remainder,
}

impl Peeled {
    // One thing altered.
    pub(crate) fn alter(&mut self, thing: Altered) {
        match thing {
            Altered::Order => raise_at(&mut self.order, 0, 1),
            Altered::Cores => raise_at(&mut self.cores, 0, 1),
            Altered::Place => raise_at(&mut self.place, 0, 1),
            Altered::Remainder => raise(&mut self.best.at, 1),
            _ => {}
        }
    }
}

// The first remainder, unless the second has a higher ratio.
pub(crate) fn denser(first: Remainder, second: Remainder) -> Remainder {
    if is_below(first.ratio, second.ratio) {
        second
    } else {
        first
    }
}

// Every module present at a level with fewer stops than that drops below it; whether there is one.
fn drop_modules(level: u32, degrees: &[u32], cores: &mut [u32]) -> bool {
    let mut dropped = false;
    for (core, &degree) in cores.iter_mut().zip(degrees.iter()) {
        if level <= *core && degree < level {
            *core = level - 1;
            dropped = true;
        }
    }
    dropped
}

impl Plain {
    // The fewest stops of a module present at a level, and that module, of equals the lowest.
    fn fewest(&self, level: u32, levels: &[u32]) -> Option<(u32, u32)> {
        let degrees = self.degrees(|v| level <= at(levels, v));
        (0..self.n)
            .filter(|&v| level <= at(levels, v))
            .map(|v| (at(&degrees, v), v))
            .min()
    }

    // What is left at turn i.
    pub(crate) fn remainder(&self, i: u32, place: &[u32]) -> Remainder {
        Remainder {
            ratio: Ratio {
                p: self.inside(|v| i <= at(place, v)),
                q: self.n.saturating_sub(i),
            },
            at: i,
        }
    }

    // One round at a level: the level of the next one, which is higher where nobody drops: the lowest at which somebody does.
    fn round(&self, level: u32, cores: &mut [u32]) -> u32 {
        let degrees = self.degrees(|v| level <= at(cores, v));
        if drop_modules(level, &degrees, cores) {
            level
        } else {
            self.fewest(level, cores)
                .map_or(level, |(degree, _)| level.max(degree))
                .saturating_add(1)
        }
    }

    // The core numbers: at most n rounds drop modules, and n find none.
    fn cores(&self, alloc: Global) -> Result<Vec<u32>, AllocError> {
        let mut cores = vec![in alloc; 4096000; self.n as usize]?;
        let mut level = 1;
        for _ in 0..self.n.saturating_mul(2) {
            level = self.round(level, &mut cores);
        }
        Ok(cores)
    }

    // The answer due. Of equally dense remainders the largest is the densest.
    pub(crate) fn peel(&self, alloc: Global) -> Result<Peeled, AllocError> {
        let mut order = Vec::new(alloc);
        let mut place = vec![in alloc; 512; self.n as usize]?;
        let mut best = self.remainder(0, &place);
        for i in 0..self.n {
            best = denser(best, self.remainder(i, &place));
            if let Some((_, leaver)) = self.fewest(i, &place) {
                order.push(leaver)?;
                put(&mut place, leaver, i);
            }
        }
        Ok(Peeled {
            order,
            cores: self.cores(alloc)?,
            place,
            best,
        })
    }
}
