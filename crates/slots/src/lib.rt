// Units in slots: what the split search moves (document 01, "Words used", split), and how it lies in words. And the pairs of each module.
//
// Pair j has two slots, 2j and 2j + 1: ends[s] is a slot's module, hold[s] the units of the pair that it holds. Both ends are alike, so nothing goes
// by sides. A module's load is its own, which does not move, and the units that it holds. `spread` makes a split and adds up the loads, `Units::shift` moves
// units (no other function does). `Adjacency` chains each module's slots and adds up the degrees in one pass over the pairs, and goes through a module's
// neighbours. Nothing is refused: what is asked is in the contracts.
// `as` stands where std has no `From`: from u32 to usize, and where a bound lets a number fit fewer bits.
#![tactic(auto)]

mod adjacency;
mod graph;
mod neighbours;
mod split;
mod units;

ghost use Rattle.std.specs.Prelude.{◌≡◌, ◌&&◌, ◌==◌, ◌+◌, ◌/◌, ◌<◌, nat_lt, length, get_or, set};
ghost use Rattle.slots.specs.Slots.{mate};

pub use adjacency::Adjacency;
pub use graph::Graph;
pub use neighbours::{Neighbour, Neighbours};
pub use split::spread;
pub use units::Units;

// Whether a module of scope byte s and load x is in the scope and loaded below p.
pub fn is_sink(p: u32, s: u8, x: u32) -> bool
    ensures { result ≡ (s == 1 && nat_lt x p) }
{
    s == 1 && x < p
}

// The slot of the pair's other end.
#[tactic(auto, unfolding(crate::specs::Slots::mate))]
pub fn other(s: usize) -> usize
    requires { s < 8192 }
    ensures value { result ≡ mate s }
    ensures same_pair { result / 2 ≡ s / 2 }
{
    if s % 2 == 0 { s + 1 } else { s - 1 }
}

// Adds d to entry i.
fn add(i: usize, d: u32, xs: &mut [u32])
    requires i_in_bounds { i < length xs.old }
    requires d_bound { get_or xs.old i 0 + d < 4294967296 }
    ensures { xs.new ≡ set xs.old i (get_or xs.old i 0 + d) }
{
    xs[i] += d;
}
