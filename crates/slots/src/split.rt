// Splits inside a scope of modules.
// That q is 512 at most is a clause of each function: a type with that bound would ask more of who calls `spread`, and inside it would be longer.
ghost use Rattle.std.specs.Prelude.{◌≡◌, ◌&&◌, cond, ◌*◌, ◌≤◌, ◌<◌, IfSome, eqb, length};
ghost use Rattle.slots.specs.Slots.{Room, Own, Loads};
ghost use Rattle.slots.specs.Split.{Weights, Split};

use crate::add;
use crate::graph::Graph;
use numbers::pick_upto;

// The units of a pair of weight w at share size q: none where an end is outside the scope.
fn pair_units(w: u32, q: u32, a: u8, b: u8) -> u32
    requires w_bound { w ≤ 1000 }
    requires q_bound { q ≤ 512 }
    ensures { result ≡ cond (eqb a 1 && eqb b 1) (w * q) 0 }
{
    pick_upto(a == 1 && b == 1, w * q, 524288)
}

// What units at share size `old` are at q, in 1,048,576ths; none where there is no `old`, or it is 0, or that comes to 0.
fn scale_of(q: u32, old: Option<u32>) -> Option<u64>
    requires { q ≤ 512 }
    ensures { IfSome result (λ scale. scale ≤ 536870912) }
{
    (u64::from(q) * 1048576)
        .checked_div(u64::from(old?))
        .filter(|&scale| scale > 0)
}

// The part of u units that a pair's first end gets: x of them scaled, or half of them where there is no scale. At most all, else free.
fn first_part(u: u32, scale: Option<u64>, x: u32) -> u32
    requires scale_bound { IfSome scale (λ scale. scale ≤ 536870912) }
    requires x_bound { x ≤ 512000 }
    ensures { result ≤ u }
{
    let Some(scale) = scale else {
        return u / 2;
    };
    ((u64::from(x) * scale + 524288) / 1048576).min(u64::from(u)) as u32
}

// A split at share size q inside the scope: near the one that hold has at share size `old`, or in halves where there is none. And the loads: `load` has the
// modules' own before, and all of them after. (Units would be no plainer here: its invariant holds only afterwards.)
pub fn spread(
    graph: Graph,
    weights: &[u32],
    q: u32,
    old: Option<u32>,
    scope: &[u8],
    hold: &mut [u32],
    load: &mut [u32],
)
    requires weights { Weights graph.m weights.now }
    requires scope_len { length scope.now ≡ graph.n }
    requires q_bound { q ≤ 512 }
    requires room { Room graph.m hold.old }
    requires own { Own graph.n load.old }
    ensures split { Split graph.entry.m q graph.entry.ends.now weights.now scope.now hold.new }
    ensures loads { Loads graph.entry.n graph.entry.m load.old graph.entry.ends.now hold.new load.new }
{
    let scale = scale_of(q, old);
    for j in 0..graph.m {
        let a = graph.first_end(j);
        let b = graph.second_end(j);
        let u = pair_units(weights[j], q, scope[a], scope[b]);
        let x = first_part(u, scale, hold[2 * j]);
        hold[2 * j] = x;
        hold[2 * j + 1] = u - x;
        add(a, x, load);
        add(b, u - x, load);
    }
}
