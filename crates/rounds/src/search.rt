// From round to round, until one leaves the ratio that it was made at: then there is no denser group, and it has left a split at the found group's size. A
// round that finds a split may leave the found group at another size than its own; one more round follows then, at that size.
ghost use Rattle.rounds.specs.Search.{Searchable, GroupFound};

use crate::hints::Hints;
use crate::round::round;
use crate::{Effort, Known, Reached};
use arcs::Arc;
use flow::Searches;

// Rounds from the ratio that is known on, and a split at the found group's size: `group` has the found group, whose ratio is answered, `scope` the core of
// that ratio rounded up, and `hold` the split's units. Free are where the units of a pair inside the core lie, and what is said of searches. (The loop goes by
// the ratio: it counts no index. Not inlined, so that the caller has no room for the arcs on its stack while it peels.)
#[inline(never)]
pub fn find(
    mut known: Known,
    effort: Effort,
    scope: &mut [u8],
    hold: &mut [u32],
    group: &mut [u8],
) -> Reached
    requires { Searchable known.list.n known.list.m scope.old hold.old group.old }
    ensures { GroupFound known.entry.list.n known.entry.list.m known.entry.list.ends.now known.entry.list.weights.now scope.new hold.new group.new
        result.ratio.p result.ratio.q }
{
    let mut starts = [0u32; 513];
    let mut arcs = [Arc { slot: 0, end: 0 }; 8192];
    let mut hints = Hints::new(&mut starts, &mut arcs);
    let mut last = None;
    let mut searches = Searches::default();
    while last != Some(known.ratio) {
        let reached = round(known, effort, last, &mut hints, scope, hold, group);
        searches = searches.together(reached.searches);
        last = Some(known.ratio);
        known = known.at(reached.ratio);
    }
    Reached {
        ratio: known.ratio,
        searches,
    }
}
