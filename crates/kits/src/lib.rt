// Kits of at least k modules (document 02, item 7; source document 001, FindLargeDenseSubgraph), on a held list in words.
//
// One peeling finds the densest set left over of at least k modules, of equals the larger. A module is in it exactly if its place in the leaving order is not
// below the number of those that have left. Cost: peeling, and one pass over the modules. Refuses nothing: its callers have tested k, the list and the buffer.
#![tactic(auto)]

ghost use Rattle.std.specs.Prelude.{◌≤◌, length};
ghost use Rattle.lists.specs.Listed.{listed};
ghost use Rattle.kits.specs.Kits.{Kits};

use groups::mark_at_least;
use lists::List;
use numbers::Ratio;
use peel::peel;

// The kit of at least k modules: its member bytes, its inside count and its size. Entries past the first N are as they were.
pub fn kit(list: List, k: usize, members: &mut [u8]) -> Ratio
    requires some { 1 ≤ k }
    requires few { k ≤ list.n }
    requires members_len { list.n ≤ length members.old }
    ensures { Kits (listed list.entry) k members.old members.new result }
{
    let mut order = [0; 512];
    let mut cores = [0; 512];
    let mut place = [0; 512];
    let rest = peel(list, k, &mut order, &mut cores, &mut place);
    mark_at_least(rest.at, &place, &mut members[..list.n]);
    rest.ratio
}
