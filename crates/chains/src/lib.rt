// The chain search, by which the split search (crate `flow`) moves units, and at times a start before it: from modules loaded above p to modules loaded
// below p (document 01, "The list and its calls": the split search).
//
// Units lie in slots (crate `slots`). A module loaded above p sends units along a chain of slots that hold some, found breadth first, to the first module
// loaded below p (augmenting paths: `search`, `pull`). That goes on until no load is above p, or no chain leads to a module loaded below p: then the modules
// reached are a set that no unit can leave (`settle`). A caller who only wants a start may have it end after a number of chains.
// Cost: a search takes a step for each arc of the modules that it reaches. Arcs (crate `arcs`) say where to look first; that nothing leads out of a
// set is found by one scan over all pairs (`Cut::exit`). There are at most as many searches as units lie above p. Nothing is refused.
// `as` stands where std has no `From`: from u32 to usize, and where a bound lets a number fit fewer bits.
// `graph.n ≤ 512` is asked here: `Units::shift`, `groups::inner` and `Cut::exit` take graphs of any size, so in `Graph` itself it would ask more of callers.
// How long a lent slice is, is a clause, since a slice may be longer: an array in its place would ask more.
#![tactic(auto)]

mod counts;
mod cut;
mod queue;
mod reached;
mod search;

pub use counts::Searches;
pub use cut::Cut;
pub use queue::Queue;
pub use search::settle;

// How searches ended: whether no load is above p, and what they did (either way, so that a Result would have that twice).
#[derive(Clone, Copy, Debug, PartialEq, Eq)]
pub struct Ended {
    pub settled: bool,
    pub searches: Searches,
}
