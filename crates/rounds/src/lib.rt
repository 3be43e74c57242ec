// The rounds of the set search (document 01, "The list and its calls", solve): the found group among the pairs of a held list, and a split at its size.
//
// A round asks for a split at a group's size with no load above its inside count, inside the core of the group's ratio rounded up. Where there is none, it
// hands over a denser group, and the next round starts from that (`search`: the Dinkelbach iteration for the maximal densest subgraph); where there is one,
// what does not drain is the found group. The split search (crate `flow`) decides, and of it only the promise is known; of what balances units before it
// (crate `push`, and a few chains), that they move within pairs (`round`). The caller has the core numbers, and a ratio that some group reaches (`Known`).
// Cost: a few rounds, each some passes over the pairs and what its searches cost; ratios rise from round to round, so the rounds end. Nothing is refused.
// That n ≤ 512, and how long lent buffers are, are clauses: an invariant of `Graph`, or arrays for slices, would ask more of who calls public functions.
#![tactic(auto)]

mod hints;
mod known;
mod reached;
mod round;
mod search;

pub use known::Known;
pub use reached::Reached;
pub use search::find;

// At most so many push phases before the exact search of a round, where there are any: enough to leave it next to nothing to do.
pub const PHASES: usize = 64;

// Chains go before the push phases of a round where at most so many modules are loaded above p.
const ACTIVE: usize = 16;

// At most so many chains go before the push phases: mostly so many are enough, and phases would take longer.
const CHAINS: u32 = 32;

// What goes before the searches to make them short: at most so many push phases (with none there are no chains before the exact search either, and no leavers'
// start), and arcs of at most so many pairs.
#[derive(Clone, Copy, Debug, PartialEq, Eq)]
pub struct Effort {
    pub phases: usize,
    pub arcs: usize,
}
