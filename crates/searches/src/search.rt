// Peel and solve of a list beside the plain computations: solve with push phases and arcs, with arcs alone, and with neither.
use crate::altered::Altered;
use crate::solves::Due;
use crate::tally::Tally;
use crate::trials::Tried;
use densest::{Effort, PHASES};
use std::alloc::{AllocError, Global};

// Push phases before the searches, and arcs of all pairs.
pub(crate) const PUSHED: Effort = Effort {
    phases: PHASES,
    arcs: 4096,
};

// Arcs alone.
const EXACT: Effort = Effort {
    phases: 0,
    arcs: 4096,
};

// Neither: each slot of a chain is found by a pass over all pairs.
const BARE: Effort = Effort { phases: 0, arcs: 0 };

// Solve with neither, of up to 40 modules.
fn try_bare(tried: &Tried, due: Due, alloc: Global, tally: &mut Tally) -> Result<(), AllocError> {
    if tried.plain.n <= 40 {
        let bare = tried.held.solve(BARE, alloc)?;
        tally.compared.note(bare.is_right(tried, due));
        tally.scanned(bare.record.searches);
    }
    Ok(())
}

// Solve beside the plain computations, with one thing altered where push phases went before the searches; and what the searches without them did.
fn try_solve(
    thing: Option<Altered>,
    tried: &Tried,
    due: Due,
    alloc: Global,
    tally: &mut Tally,
) -> Result<(), AllocError> {
    let mut pushed = tried.held.solve(PUSHED, alloc)?;
    let exact = tried.held.solve(EXACT, alloc)?;
    if let Some(thing) = thing {
        pushed.alter(thing, tried.plain.stops(0));
    }
    tally.compared.note(pushed.is_right(tried, due));
    tally.compared.note(exact.is_right(tried, due));
    tally.compared.note(pushed.names_same(&exact));
    tally.searched(exact.record.searches);
    Ok(())
}

// Peel and solve, with one thing altered.
pub(crate) fn search(
    thing: Option<Altered>,
    tried: &Tried,
    alloc: Global,
    tally: &mut Tally,
) -> Result<(), AllocError> {
    let plain = tried.plain.peel(alloc)?;
    let mut peeled = tried.held.peel(alloc)?;
    if let Some(thing) = thing {
        peeled.alter(thing);
    }
    tally.compared.note(peeled == plain);
    let due = Due {
        best: tried.plain.densest_set(),
        cores: &plain.cores,
    };
    try_solve(thing, tried, due, alloc, tally)?;
    try_bare(tried, due, alloc, tally)
}
