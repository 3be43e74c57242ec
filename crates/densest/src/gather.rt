// The pairs inside a core: all that is as dense as the group at hand lies in the core of its ratio rounded up. Where that core has at most seven eighths of
// the modules its pairs are gathered, else all pairs, which are those inside the core of order 0. They are gathered at the front of the words that held all
// pairs; these are packed first, a word each, in the lent shares, from which the load sheet is made in the end.
ghost use Rattle.std.specs.Prelude.{◌≡◌, ℕ, ◌<◌, ◌≤◌, length, if◌then◌else◌, nat_le, slice_index};
ghost use Rattle.theory.specs.Basics.{mark};
ghost use Rattle.theory.specs.Words.{HoldsList, laid_list, counts_of};
ghost use Rattle.lists.specs.Listed.{listed};
ghost use Rattle.rounds.specs.Known.{Candidate, Cored};
ghost use Rattle.densest.specs.Gather.{Packed, Gathered, CoreGathered};

use crate::packing::PackedPair;
use lists::List;
use numbers::Ratio;

// The core whose pairs are gathered, and its order: k where that core has at most seven eighths of the modules, else 0, which is all of them.
#[tactic(auto, unfolding(theory::specs::Basics::mark))]
fn mark_core(k: u32, cores: &[u32], core: &mut [u8]) -> u32
    requires n_bound { length core.old ≤ 512 }
    requires cores_len { length core.old ≤ length cores.now }
    ensures order { result ≤ k }
    ensures marked { (v : ℕ) → v < length core.old → slice_index core.new v ≡ mark (nat_le result (slice_index cores.now v)) }
{
    groups::mark_at_least(k, cores, core);
    if 8 * groups::group_size(core) as usize <= 7 * core.len() {
        return k;
    }
    core.fill(1);
    0
}

// The core numbers that are k or more, and 0 for the others. (A zip with `kept.iter_mut()` was tried: of what that wrote no proof knows more than the length.)
fn keep_at_least(k: u32, cores: &[u32], kept: &mut [u32])
    requires { length cores.now ≤ length kept.old }
    ensures { (v : ℕ) → v < length cores.now → slice_index kept.new v ≡ (if nat_le k (slice_index cores.now v) then slice_index cores.now v else 0) }
{
    for (v, &number) in cores.iter().enumerate() {
        kept[v] = if k <= number { number } else { 0 };
    }
}

// The pairs with both ends in the core, in order, as a list in the words that held all pairs; and all pairs, packed. Every pair is written behind those
// kept so far, and the place moves on where it is kept: no branch goes by chance.
fn gather<'a>(core: &[u8], words: &'a mut [u32], shares: &mut [u32]) -> List<'a>
    requires { HoldsList (length core.now) (length shares.old) words.old }
    ensures modules { result.n ≡ length core.now }
    ensures gathered { Gathered (length core.now) (length shares.old) words.old (counts_of words.old) core.now result.ends.now result.weights.now result.m }
    ensures packed { Packed (length shares.old) words.old (counts_of words.old) shares.new }
{
    let mut i = 0;
    for (j, share) in shares.iter_mut().enumerate() {
        let first = words[2 * j];
        let second = words[2 * j + 1];
        let count = words[8192 + j];
        let pair = PackedPair::new(first, second, count);
        *share = pair.0;
        words[2 * i] = first;
        words[2 * i + 1] = second;
        words[8192 + i] = count;
        i += usize::from(pair.is_inner(core));
    }
    let words: &'a [u32] = words;
    List {
        n: core.len(),
        m: i,
        ends: words,
        weights: &words[8192..],
    }
}

// The pairs inside the core that the ratio at hand asks for, as a list in the words that held all pairs, with its core numbers in `kept`; and all of them,
// packed.
pub(crate) fn gather_core<'a>(
    start: Ratio,
    cores: &[u32],
    core: &mut [u8],
    kept: &mut [u32],
    words: &'a mut [u32],
    shares: &mut [u32],
) -> List<'a>
    requires holds_list { HoldsList (length core.old) (length shares.old) words.old }
    requires at_hand { Candidate (laid_list (length core.old) (length shares.old) words.old) start.p start.q }
    requires cored { Cored (laid_list (length core.old) (length shares.old) words.old) cores.now }
    requires kept_len { length cores.now ≤ length kept.old }
    ensures modules { result.n ≡ length core.old }
    ensures gathered { CoreGathered (length core.old) (length shares.old) start.p start.q words.old (counts_of words.old) core.new
        result.ends.now result.weights.now result.m }
    ensures at_hand { Candidate (listed result) start.p start.q }
    ensures cored { Cored (listed result) kept.new }
    ensures packed { Packed (length shares.old) words.old (counts_of words.old) shares.new }
{
    let k = mark_core(start.rounded_up(), cores, core);
    keep_at_least(k, cores, kept);
    gather(core, words, shares)
}
