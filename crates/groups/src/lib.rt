// Groups in words: member bytes, one for each module, beside a held list (document 01, "Words used": group, inside count).
//
// Whether a pair lies inside a group, the size of a group and its inside count, and the group of the modules whose entry in a buffer (a core number, say) is
// k or more. A group has exactly a byte for each module: a caller lends `&members[..n]`. Each costs one pass over the modules or the pairs. Nothing is
// refused. A mark is a byte, 0 or 1, and no bool: so C lends and reads member bytes, and every set has that form.
#![tactic(auto)]

ghost use Rattle.std.specs.Prelude.{◌≡◌, ℕ, ◌≤◌, ◌<◌, leb, length, get_or};
ghost use Rattle.theory.specs.Basics.{mark};
ghost use Rattle.theory.specs.Groups.{inside, size};
ghost use Rattle.lists.specs.Listed.{listed};
ghost use Rattle.groups.specs.Pairs.{inner_at};

use lists::List;
use numbers::pick_upto;
use slots::Graph;

// Whether both ends of pair j are in a group. Chance decides both tests: of `&&` the compiler makes a jump, and a count then takes up to twice as long.
#[tactic(auto, unfolding(theory::specs::Groups::is_in, slots::specs::Rows::first_end, slots::specs::Rows::second_end))]
pub fn inner(graph: Graph, j: usize, group: &[u8]) -> bool
    requires j_in_bounds { j < graph.m }
    requires group_len { length group.now ≡ graph.n }
    ensures { result ≡ inner_at graph.entry.ends.now group.now j }
{
    (group[graph.first_end(j)] == 1) & (group[graph.second_end(j)] == 1)
}

// The inside count of a group.
#[tactic(auto, using(crate::proofs::Counts::counting))]
pub fn inside_count(list: List, group: &[u8]) -> u32
    requires { length group.now ≡ list.n }
    ensures { result ≡ inside (listed list.entry) group.now }
{
    let graph = Graph::from(list);
    let mut count = 0;
    for j in 0..list.m {
        count += pick_upto(inner(graph, j, group), list.weights[j], 1024);
    }
    count
}

// The number of modules in a group.
pub fn group_size(group: &[u8]) -> u32
    requires { length group.now ≤ 512 }
    ensures { result ≡ size group.now }
{
    group.iter().map(|&byte| u32::from(byte)).sum()
}

// The group of the modules whose entry among `numbers` is k or more: of core numbers the core of order k, of layer numbers all from layer k on.
// (Tried: `zip` of the two, of whose writes a proof knows nothing afterwards.)
#[tactic(auto, unfolding(theory::specs::Basics::mark))]
pub fn mark_at_least(k: u32, numbers: &[u32], group: &mut [u8])
    requires { length group.old ≤ length numbers.now }
    ensures { (v : ℕ) → v < length group.old → get_or group.new v 0 ≡ mark (leb k (get_or numbers.now v 0)) }
{
    for (v, byte) in group.iter_mut().enumerate() {
        *byte = u8::from(k <= numbers[v]);
    }
}
