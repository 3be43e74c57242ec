// The split search (document 01, "The list and its calls"): "the set search stands above the split search and knows only its promise".
//
// Units lie in slots (crate `slots`). Given a bound p and the loads, `flow` moves units within their pairs until no load is above p; or it finds a set
// of modules in which more than p a module stays, however units move. It knows loads and units, nothing of ratios and best groups.
// How: modules loaded above p send units along chains to modules loaded below p (crate `chains`: augmenting paths). Where no chain leads to one, the modules
// reached are such a set (a minimum cut). Once no load is above p, modules of the scope loaded below p drain, and so does whoever could pass units on to them:
// what stays is the largest set loaded p throughout. Where push phases (crate `push`) leave little to search, they go before, in the caller; the promise does
// not depend on them.
// Cost: the searches for chains, a step for each arc of the modules that drain, and scans over all pairs for who else does. Nothing is refused.
// That n ≤ 512, and how long lent buffers are, are clauses: an invariant of `Graph`, or arrays for slices, would ask more of who calls public functions.
#![tactic(auto)]

mod drain;
mod staying;

ghost use Rattle.std.specs.Prelude.{◌≡◌, List, ℕ, ◌≤◌, length};
ghost use Rattle.slots.specs.Slots.{Loads};
ghost use Rattle.slots.specs.Views.{UnitsSame};
ghost use Rattle.flow.specs.Flow.{Flowed};

use arcs::Arcs;
use chains::settle;
pub use chains::{Ended, Searches};
use drain::drain;
use slots::Units;

// Settled: units lie in hold so that no load is above p, and `group` is the largest tight set inside the scope. Else more than p a module stays in
// `group`. That holds for whatever loads modules have of their own, if `load` is their loads; afterwards `load` is free.
// (Not inlined, so that room for ranks and queues is on the stack only while it runs.)
#[inline(never)]
pub fn flow(units: &mut Units, arcs: Arcs, p: u32, scope: &[u8], group: &mut [u8]) -> Ended
    requires n_bound { units.old.graph.n ≤ 512 }
    requires scope_len { (length scope.now ≡ units.old.graph.n) × (length group.old ≡ units.old.graph.n) }
    ensures same { UnitsSame units.old units.new }
    ensures flowed { (own : List ℕ) → Loads units.old.graph.n units.old.graph.m own units.old.graph.ends.now units.old.hold.now units.old.load.now →
        Flowed units.old.graph.n units.old.graph.m p own scope.now units.old.graph.ends.now units.old.hold.now units.new.hold.now group.new
        result.settled }
{
    let mut rank = [0u32; 512];
    let split = settle(units, arcs, p, None, &mut rank).unwrap();
    if split.settled {
        drain(units, arcs, p, scope, &mut rank);
    }
    groups::mark_at_least(1, &rank, group);
    split
}
