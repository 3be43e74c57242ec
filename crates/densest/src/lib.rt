// The set search (document 01, "The list and its calls", solve), on a held list in words: the found group and its load sheet.
//
// The densest remainder of the leaving order is the first group at hand. Rounds (crate `rounds`, above the split search) lead from a group to a denser one
// until there is none. Whatever is as dense as the group at hand lies in the core of its ratio rounded up; so, where that core leaves out an eighth of the
// modules or more, the rounds go over the pairs inside it only (`gather`). The units that the last round leaves make the load sheet (`sheet`).
// Cost: peeling, and a few rounds over the core's pairs; ratios rise from round to round, so the rounds end. Nothing is refused, and 15 never comes.
// `as` stands where std has no `From`: from u32 to usize, and where a bound lets a number fit fewer bits.
// That a list lies in the words (`HoldsList`) is a clause each time: words and numbers are lent by the call, each by itself, and what the words hold changes.
#![tactic(auto)]

mod gather;
mod packing;
mod sheet;

ghost use Rattle.std.specs.Prelude.{◌≡◌, ◌≤◌, ◌++◌, length, drop};
ghost use Rattle.theory.specs.Cores.{core_numbers};
ghost use Rattle.theory.specs.Words.{laid_list, HoldsList};
ghost use Rattle.densest.specs.Solve.{IsSolution, Solves};

use flow::Searches;
use gather::gather_core;
use lists::List;
use numbers::Ratio;
pub use rounds::{Effort, PHASES};
use rounds::{Known, find};
use sheet::write_shares;

// The found group's ratio, its inside count over its size; k, that ratio rounded up, and the size of the core of order k; and what the searches did.
#[derive(Clone, Copy, Debug, PartialEq, Eq)]
pub struct Solution {
    pub ratio: Ratio,
    pub k: u32,
    pub core: u32,
    pub searches: Searches,
}

// Solve, where there are exactly a byte for each module and a share for each pair; `core` and `scope` are for its use. (The other
// buffers are those that the call lends, each by itself.)
#[tactic(auto, using(theory::proofs::Words::holds_few))]
fn solve_in(
    effort: Effort,
    words: &mut [u32],
    core: &mut [u8],
    scope: &mut [u8],
    members: &mut [u8],
    cores: &mut [u32],
    shares: &mut [u32],
) -> Solution
    requires holds_list { HoldsList (length core.old) (length shares.old) words.old }
    requires scope_len { length scope.old ≡ length core.old }
    requires members_len { length members.old ≡ length core.old }
    requires cores_len { length core.old ≤ length cores.old }
    ensures cores_after { cores.new ≡ core_numbers (laid_list (length core.old) (length shares.old) words.old) ++ drop (length core.old) cores.old }
    ensures is_solution { IsSolution (laid_list (length core.old) (length shares.old) words.old) members.new shares.new result }
{
    let mut order = [0u32; 512];
    let mut place = [0u32; 512];
    let mut kept = [0u32; 512];
    let mut hold = [0u32; 8192];
    let n = core.len();
    let all = List::in_words(n, shares.len(), words);
    let ratio = peel::peel(all, 1, &mut order, cores, &mut place).ratio;
    let list = gather_core(ratio, &cores[..n], core, &mut kept, words, shares);
    let known = Known {
        list,
        cores: &kept,
        order: &order,
        place: &place,
        ratio,
    };
    let found = find(known, effort, scope, &mut hold, members);
    write_shares(found.ratio.q, core, scope, &place, &hold, shares);
    Solution {
        ratio: found.ratio,
        k: found.ratio.rounded_up(),
        core: groups::group_size(scope),
        searches: found.searches,
    }
}

// The found group's member bytes, the core numbers, a share for each pair, and the numbers of solve's record. Entries past the first n and the first m
// are as they were. The list lies in the words before; what they hold afterwards is free. Any effort gives such an answer. (n and m stand beside the buffers,
// which may be longer; each of these is lent by the call as it is, so a struct of them would be made for this call alone.)
#[tactic(auto, using(theory::proofs::Words::holds_few))]
pub fn solve(
    n: usize,
    m: usize,
    effort: Effort,
    words: &mut [u32],
    members: &mut [u8],
    cores: &mut [u32],
    shares: &mut [u32],
) -> Solution
    requires holds_list { HoldsList n m words.old }
    requires n_in_bounds { (n ≤ length members.old) × (n ≤ length cores.old) × (m ≤ length shares.old) }
    ensures { Solves (laid_list n m words.old) members.old cores.old shares.old
        members.new cores.new shares.new result }
{
    let mut core = [0u8; 512];
    let mut scope = [0u8; 512];
    solve_in(
        effort,
        words,
        &mut core[..n],
        &mut scope[..n],
        &mut members[..n],
        cores,
        &mut shares[..m],
    )
}
