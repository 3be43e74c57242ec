// The load sheet: what the slots hold inside the core, and all of a pair or nothing outside it.
ghost use Rattle.std.specs.Prelude.{◌≡◌, ◌*◌, ◌≤◌, length};
ghost use Rattle.densest.specs.Gather.{Unpacks, SmallUnits, LastLeavers, FirstPlace, Written};

use crate::packing::PackedPair;

// The place at which the first member leaves, 1,024 at most. (As a maximum, so that there is no jump: whoever is no member counts as if it left at 1,024 or
// later.)
#[tactic(auto, unfolding(theory::specs::Groups::is_in))]
fn core_start(group: &[u8], place: &[u32]) -> u32
    requires { length group.now ≤ length place.now }
    ensures { FirstPlace (length group.now) group.now place.now result }
{
    let mut first = 1024;
    for (v, &byte) in group.iter().enumerate() {
        let floor = if byte == 1 { 0 } else { 1024 };
        first = first.min(place[v].max(floor));
    }
    first
}

// The load sheet, in the place of the pairs, which stand packed there: pairs inside the scope as their slots hold it, the others wholly with the end that
// left first. `hold` has the units of the pairs inside `core`. Cores leave last: a pair is inside one exactly if neither end leaves before the core's first
// member, so places decide it. (i is a pair's number among those inside the core: it goes on by 0 or 1. No branch goes by chance: of what a slot holds and what
// is forced one counts as 0.)
pub(crate) fn write_shares(
    q: u32,
    core: &[u8],
    scope: &[u8],
    place: &[u32],
    hold: &[u32],
    shares: &mut [u32],
)
    requires q_bound { q ≤ 512 }
    requires core_len { length core.now ≡ length scope.now }
    requires place_len { length scope.now ≤ length place.now }
    requires last { LastLeavers core.now place.now × LastLeavers scope.now place.now }
    requires hold_len { 2 * length shares.old ≤ length hold.now }
    requires m_bound { length shares.old ≤ 4096 }
    requires unpacks { Unpacks (length scope.now) (length shares.old) shares.old }
    requires small { SmallUnits (length shares.old) core.now scope.now hold.now shares.old }
    ensures { Written (length shares.old) q core.now scope.now place.now hold.now shares.old
        shares.new }
{
    let core_from = core_start(core, place);
    let scope_from = core_start(scope, place);
    let mut i = 0;
    for share in shares.iter_mut() {
        let pair = PackedPair(*share);
        let first = pair.leaves_at(place);
        let (cap, size) = if scope_from <= first {
            (524288, 0)
        } else {
            (0, q)
        };
        *share = hold[2 * i].min(cap).max(pair.forced(size, place));
        i += usize::from(core_from <= first);
    }
}
