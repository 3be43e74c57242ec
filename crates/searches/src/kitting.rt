// Kits, each beside the plain computation of it, and every group beside the kits.
use crate::altered::AlteredKit;
use crate::entries::{at, put};
use crate::peels::denser;
use crate::plain::{Plain, product};
use crate::solves::other_byte;
use crate::tally::Tally;
use crate::trials::Tried;
use model::raise;
use numbers::Ratio;
use peel::Remainder;
use std::alloc::{AllocError, Global};

// A kit's member bytes, behind them those that were there before, 9, in all 514; and its P and Q.
#[derive(PartialEq, Eq, Drop)]
pub(crate) struct Kit {
    pub(crate) members: Vec<u8>,
    pub(crate) ratio: Ratio,
}

impl Kit {
    // One thing altered, of a list of n modules.
    fn alter(&mut self, thing: AlteredKit, n: u32) {
        match thing {
            AlteredKit::Inside => raise(&mut self.ratio.p, 1),
            AlteredKit::Size => raise(&mut self.ratio.q, 1),
            AlteredKit::Member => other_byte(&mut self.members),
            AlteredKit::Behind => put(&mut self.members, n, 0),
            _ => {}
        }
    }
}

// The least size for which a kit is asked in the place of k, of n modules.
fn least_asked(thing: Option<AlteredKit>, k: u32, n: u32) -> u32 {
    match thing {
        Some(AlteredKit::OneLess) => k.saturating_sub(1),
        Some(AlteredKit::All) => n,
        _ => k,
    }
}

// The product's kit of at least k modules, with one thing altered.
fn made(
    thing: Option<AlteredKit>,
    k: u32,
    tried: &Tried,
    alloc: Global,
) -> Result<Kit, AllocError> {
    let n = tried.plain.n;
    let mut kit = tried.held.kit(least_asked(thing, k, n), alloc)?;
    if let Some(thing) = thing {
        kit.alter(thing, n);
    }
    Ok(kit)
}

impl Plain {
    // A set left over, as a kit.
    fn kit(&self, rest: Remainder, place: &[u32], alloc: Global) -> Result<Kit, AllocError> {
        let mut members = vec![in alloc; 9; 514]?;
        for v in 0..self.n {
            put(&mut members, v, u8::from(rest.at <= at(place, v)));
        }
        Ok(Kit {
            members,
            ratio: rest.ratio,
        })
    }
}

// Whether a group is no denser than it may be beside the kit of at least k modules: the kit's ratio, (2 * size + k) / size times, and three times where the
// group has as many modules.
fn is_within(group: Ratio, kit: Ratio, k: u32) -> bool {
    let stops = product(group.p, kit.q);
    let twice = group.q.saturating_mul(2).saturating_add(k);
    let thrice = group.q.saturating_mul(3);
    stops <= product(kit.p, twice) && (group.q < k || stops <= product(kit.p, thrice))
}

// A group beside the kits of at least n modules, n - 1, .., 1.
fn weigh(group: Ratio, n: u32, kits: &[Ratio], tally: &mut Tally) {
    for (k, &kit) in (1..=n).rev().zip(kits.iter()) {
        tally.compared.note(is_within(group, kit, k));
        if k <= group.q {
            tally.exceeded(Ratio {
                p: group.p.saturating_mul(kit.q),
                q: kit.p.saturating_mul(group.q),
            });
        }
    }
}

// Every group of a list of at most 12 modules beside the kits.
fn weigh_groups(plain: &Plain, kits: &[Ratio], tally: &mut Tally) {
    for mask in plain.masks() {
        weigh(plain.set(mask).ratio, plain.n, kits, tally);
    }
}

// The kits of every least size, with one thing altered, and then every group. Left over with at least n - i modules are the sets of the turns up to i.
pub(crate) fn try_kits(
    thing: Option<AlteredKit>,
    tried: &Tried,
    alloc: Global,
    tally: &mut Tally,
) -> Result<(), AllocError> {
    let plain = &tried.plain;
    let peeled = plain.peel(alloc)?;
    let mut best = plain.remainder(0, &peeled.place);
    let mut kits = Vec::new(alloc);
    for i in 0..plain.n {
        best = denser(best, plain.remainder(i, &peeled.place));
        let kit = made(thing, plain.n.saturating_sub(i), tried, alloc)?;
        let due = plain.kit(best, &peeled.place, alloc)?;
        tally.kit(kit == due);
        kits.push(kit.ratio)?;
    }
    weigh_groups(plain, &kits, tally);
    Ok(())
}
