// One round: a split at share size q inside the core of p over q rounded up with no load above p, and the found group; or a group denser than p over q.
//
// `flow` decides. Before it the split is balanced: by the leavers' start, then, unless the list is nearly a forest, by a few chains, push phases, or both
// (crates `push`, `chains`). Where units are stuck, the modules that none can leave are counted, and if they are denser than p over q, the round is over.
ghost use Rattle.std.specs.Prelude.{◌≡◌, ◌≤◌, length, IfSome};
ghost use Rattle.slots.specs.Slots.{Room};
ghost use Rattle.slots.specs.Views.{UnitsSame, UnitsKept};
ghost use Rattle.rounds.specs.Search.{Searchable, no_load, Opened, UnitsOpened, Counted, DenserCounted, RoundMade};

use crate::hints::Hints;
use crate::{ACTIVE, CHAINS, Effort, Known, Reached};
use arcs::Arcs;
use chains::settle;
use flow::{Searches, flow};
use lists::List;
use numbers::Ratio;
use slots::{Graph, Units};

// What a round begins with: the core of the ratio rounded up as its scope, a split at the ratio's size inside it, near the one that hold has from
// the last round, and the split's loads.
fn open_round(
    known: Known,
    last: Option<Ratio>,
    scope: &mut [u8],
    hold: &mut [u32],
    load: &mut [u32; 512],
)
    requires scope_len { length scope.old ≡ known.list.n }
    requires room { Room known.list.m hold.old }
    requires no_load { load.old ≡ no_load }
    ensures { Opened known.entry scope.new hold.new load.new }
{
    let list = known.list;
    let ratio = known.ratio;
    let old = last.map(|ratio| ratio.q);
    groups::mark_at_least(ratio.rounded_up(), known.cores, scope);
    slots::spread(
        Graph::from(list),
        list.weights,
        ratio.q,
        old,
        scope,
        hold,
        load,
    );
}

// Whether every module of the scope is loaded p: then no unit need move, and nobody looks for arcs.
fn is_even(p: u32, scope: &[u8], units: &Units) -> bool {
    scope
        .iter()
        .zip(units.load.iter())
        .all(|(&byte, &load)| byte != 1 || load == p)
}

// What loads have above p, in all. It only guides: a sum that does not fit wraps.
fn excess(p: u32, units: &Units) -> u32 {
    units.load.iter().fold(0u32, |sum, &load| sum.wrapping_add(load.saturating_sub(p)))
}

// Whether the list has at most five fourths as many pairs as the scope has modules: then it is nearly a forest, and units seldom have two ways to go.
fn is_near_forest(scope: &[u8], units: &Units) -> bool
    requires { length scope.now ≤ 512 }
{
    let size = groups::group_size(scope) as usize;
    units.graph.m <= size + size / 4
}

// Whether so much lies above p that the leavers' start is better than halves. Near a forest it is more than p/32: the leavers' start is nearly even there, and
// what halves have above p has far to go. Else it is more than p/1024, rounded down, for each module of the scope. (A product that does not fit wraps.)
fn much_above(p: u32, scope: &[u8], units: &Units) -> bool
    requires { length scope.now ≤ 512 }
{
    let bound = if is_near_forest(scope, units) {
        p / 32
    } else {
        (p / 1024).wrapping_mul(groups::group_size(scope))
    };
    excess(p, units) > bound
}

// Where units have to move, arcs; and where the first round's split has much above p, the leavers' start in its place.
fn prepare(
    known: Known,
    effort: Effort,
    last: Option<Ratio>,
    hints: &mut Hints,
    scope: &[u8],
    units: &mut Units,
)
    requires opened { UnitsOpened known scope.now units.old }
    ensures { UnitsKept units.old units.new }
{
    let p = known.ratio.p;
    if is_even(p, scope, units) {
        return;
    }
    let graph = units.graph;
    let shown = Graph {
        n: graph.n,
        m: effort.arcs.min(graph.m),
        ends: graph.ends,
    };
    hints.lay(shown, known.place);
    let first = last.is_none() && effort.phases > 0;
    if first && much_above(p, scope, units) {
        push::leavers(units, hints.arcs(), p, known.order, known.place);
    }
}

// The inside count and the size of a group.
fn count(list: List, group: &[u8]) -> Ratio
    requires { length group.now ≡ list.n }
    ensures { Counted list.entry.n list.entry.m list.entry.ends.now list.entry.weights.now group.now result.p result.q }
{
    Ratio {
        p: groups::inside_count(list, group),
        q: groups::group_size(group),
    }
}

// Whether at most `ACTIVE` modules are active: loaded above p.
fn few_active(p: u32, units: &Units) -> bool {
    units.load.iter().filter(|&&load| p < load).count() <= ACTIVE
}

// Where few modules are active, a few chains; else, or where these are not enough, push phases. Where units are stuck, the modules that none can leave have
// marks of the number that is answered, or higher ones.
#[tactic(auto, using(slots::proofs::Moves::kept_more))]
fn move_until_stuck(
    p: u32,
    phases: usize,
    arcs: Arcs,
    scope: &[u8],
    units: &mut Units,
    marks: &mut [u32; 512],
) -> Option<u32>
    requires n_bound { units.old.graph.n ≤ 512 }
    requires n_in_bounds { units.old.graph.n ≤ length scope.now }
    requires load_long { 512 ≤ length units.old.load.now }
    ensures { UnitsKept units.old units.new }
{
    if few_active(p, units)
        && let Some(ended) = settle(units, arcs, p, Some(CHAINS), marks)
    {
        return (!ended.settled).then_some(1);
    }
    push::phases(units, arcs, p, phases, scope, marks).then_some(push::FAR)
}

// What is stuck, counted, if it is denser than the ratio at hand. Near a forest chains are short, and are left to the exact search. (A struct of the six
// that this and `decide` take would hold units and group by `&mut`: each would have to say that they are the same ones afterwards, and that known and scope
// are. That the units are such as the round opened with is said of three values, of which none holds another.)
fn balance(
    known: Known,
    phases: usize,
    arcs: Arcs,
    scope: &[u8],
    units: &mut Units,
    group: &mut [u8],
) -> Option<Ratio>
    requires opened { UnitsOpened known scope.now units.old }
    requires group_len { length group.old ≡ known.list.n }
    ensures kept { UnitsKept units.old units.new }
    ensures denser { IfSome result (DenserCounted known.entry group.new) }
{
    if phases == 0 || is_near_forest(scope, units) {
        return None;
    }
    let mut marks = [0u32; 512];
    let least = move_until_stuck(known.ratio.p, phases, arcs, scope, units, &mut marks)?;
    groups::mark_at_least(least, &marks, group);
    let ratio = count(known.list, group);
    known.ratio.is_below(ratio).then_some(ratio)
}

// What a round decides: a counted group where units are stuck and it is denser, else what the exact search finds.
fn decide(
    known: Known,
    phases: usize,
    arcs: Arcs,
    scope: &[u8],
    units: &mut Units,
    group: &mut [u8],
) -> Reached
    requires opened { UnitsOpened known scope.now units.old }
    requires group_len { length group.old ≡ known.list.n }
    ensures same { UnitsSame units.old units.new }
    ensures round { RoundMade known.entry scope.now units.new.hold.now group.new result.ratio }
{
    if let Some(ratio) = balance(known, phases, arcs, scope, units, group) {
        return Reached {
            ratio,
            searches: Searches::default(),
        };
    }
    let ended = flow(units, arcs, known.ratio.p, scope, group);
    Reached {
        ratio: count(known.list, group),
        searches: ended.searches,
    }
}

// One round, with so much effort before the search. (What goes together is a struct; the buffers are lent each for itself.)
#[tactic(auto, unfolding(crate::specs::Search::no_load))]
pub(crate) fn round(
    known: Known,
    effort: Effort,
    last: Option<Ratio>,
    hints: &mut Hints,
    scope: &mut [u8],
    hold: &mut [u32],
    group: &mut [u8],
) -> Reached
    requires { Searchable known.list.n known.list.m scope.old hold.old group.old }
    ensures { RoundMade known.entry scope.new hold.new group.new result.ratio }
{
    let mut load = [0u32; 512];
    open_round(known, last, scope, hold, &mut load);
    let mut units = Units {
        graph: Graph::from(known.list),
        hold,
        load: &mut load,
    };
    prepare(known, effort, last, hints, scope, &mut units);
    decide(known, effort.phases, hints.arcs(), scope, &mut units, group)
}
