// Peeling: leaving order, core numbers, and the densest remainder. Document 01, "Leaving order" and "Core number"; source document 001, figure 1.
//
// Works on a held list in words (theory's specs/Words.antt). One pass over the pairs chains each module's slots and adds up its degree
// (`slots::Adjacency`). Module by module the first of the ranking leaves, and the degrees of its neighbours, the modules that its pairs join
// it to, get lower: N `take`s and at most M `lower`s, of which crate ranking says what each costs. The core number of a leaver is the greatest
// degree at leaving so far. Refuses nothing: its callers have tested the list and the buffers.
// `as` stands where std has no `From`: from u32 to usize, and where a bound lets a number fit fewer bits.
#![tactic(auto)]

ghost use Rattle.std.specs.Prelude.{◌≡◌, All, ◌-◌, ◌≤◌, ◌<◌, length};
ghost use Rattle.theory.specs.Groups.{everyone};
ghost use Rattle.lists.specs.Listed.{listed};
ghost use Rattle.slots.specs.Neighbours.{neighbours_of};
ghost use Rattle.peel.specs.Peel.{Peelable, Peels};
ghost use Rattle.peel.specs.Steps.{IsPresent, LowerableBy, LoweredBy, RankingOf, SomeRanked, LeaversWritten, Numberable, Numbered};
ghost use Rattle.peel.specs.Steps.{remaining, densest_by, denser, Comparable, RemainderAt};
ghost use Rattle.peel.specs.Turns.{TurnOf};

use lists::List;
use numbers::Ratio;
use ranking::{Leaver, Ranking};
use slots::{Adjacency, Neighbour};

// What is left when `at` modules have left: its ratio, not reduced.
#[derive(Clone, Copy, Debug, PartialEq, Eq)]
pub struct Remainder {
    pub ratio: Ratio,
    pub at: u32,
}

impl Remainder {
    // This one, unless the other has the higher ratio.
    #[tactic(auto, unfolding(crate::specs::Steps::denser))]
    fn denser(self, other: Remainder) -> Remainder
        ensures { result ≡ denser self other }
    {
        if self.ratio.is_below(other.ratio) {
            other
        } else {
            self
        }
    }
}

// The neighbours at hand carry less.
fn lower_all(touched: &[Neighbour], ranking: &mut Ranking)
    requires there { All (IsPresent ranking.old.links.keys.now) touched.now }
    requires lowerable { LowerableBy touched.now ranking.old.links.keys.now }
    ensures { LoweredBy touched.now ranking.old.links.keys.now ranking.new.links.keys.now }
{
    for neighbour in touched {
        ranking.lower(neighbour.number, neighbour.weight);
    }
}

// Module v has left: its neighbours that are present carry less. They are gathered first, some at a time, and where one has left, the next one takes its
// place: a step of 0 or 1 instead of a branch, as who has left comes as by chance. (What is left in `touched` is free.)
fn lower_neighbours(
    adjacency: Adjacency,
    v: usize,
    touched: &mut [Neighbour; 64],
    ranking: &mut Ranking,
)
    requires below { v < adjacency.list.n }
    requires lowerable { LowerableBy (neighbours_of adjacency.list v) ranking.old.links.keys.now }
    ensures { LoweredBy (neighbours_of adjacency.entry.list v) ranking.old.links.keys.now ranking.new.links.keys.now }
{
    let mut count = 0;
    for neighbour in adjacency.neighbours(v) {
        touched[count] = neighbour;
        count += usize::from(ranking.has(neighbour.number));
        if count == 64 {
            lower_all(&touched[..count], ranking);
            count = 0;
        }
    }
    lower_all(&touched[..count], ranking);
}

// One turn: the first of the ranking leaves, and the modules joined to it are ranked anew. (What is left in `touched` is free.)
fn turn(adjacency: Adjacency, touched: &mut [Neighbour; 64], ranking: &mut Ranking) -> Leaver
    requires { SomeRanked (listed adjacency.list) ranking.old.links.keys.now }
    ensures { TurnOf (listed adjacency.entry.list) ranking.old.links.keys.now ranking.old.links.next.now
        ranking.new.links.keys.now ranking.new.links.next.now result }
{
    let leaver = ranking.take();
    lower_neighbours(adjacency, leaver.number, touched, ranking);
    leaver
}

// N turns: who leaves, and with what degree, its final one. (Both are written by an index: of what a zip of `iter_mut` writes no proof knows the entries. What
// is left of the ranking is free.)
#[tactic(auto, unfolding(theory::specs::Leaving::remainder, theory::specs::Leaving::left_behind))]
fn turns(adjacency: Adjacency, ranking: &mut Ranking, order: &mut [u32], finals: &mut [u32])
    requires ranking_of { RankingOf (listed adjacency.list) (everyone (listed adjacency.list)) ranking.old.links.keys.now }
    requires order_long { adjacency.list.n ≤ length order.old }
    requires finals_long { adjacency.list.n ≤ length finals.old }
    ensures { LeaversWritten (listed adjacency.entry.list) adjacency.entry.list.n order.old finals.old order.new finals.new }
{
    let mut touched = [Neighbour {
        number: 0,
        weight: 0,
    }; 64];
    for i in 0..adjacency.list.n {
        let leaver = turn(adjacency, &mut touched, ranking);
        order[i] = leaver.number as u32;
        finals[i] = leaver.carried;
    }
}

// Core numbers and places, from the order and the final degrees.
#[tactic(auto, unfolding(theory::specs::Basics::greatest))]
fn number(order: &[u32], finals: &[u32], cores: &mut [u32], place: &mut [u32])
    requires { Numberable order.now finals.now cores.old place.old }
    ensures { Numbered (length order.now) order.now finals.now cores.old place.old cores.new place.new }
{
    let mut top = 0u32;
    for (i, &module) in order.iter().enumerate() {
        let v = module as usize;
        top = top.max(finals[i]);
        cores[v] = top;
        place[v] = i as u32;
    }
}

// The densest remainder of at least `least` modules, of equals the larger.
#[tactic(auto, unfolding(crate::specs::Steps::densest_by))]
fn densest(least: usize, finals: &[u32]) -> Remainder
    requires { Comparable least finals.now }
    ensures { RemainderAt finals.now (densest_by (length finals.now) (remaining finals.now) (length finals.now - least)) result }
{
    let n = finals.len();
    let mut left = finals.iter().sum();
    let mut best = Remainder {
        ratio: Ratio {
            p: left,
            q: n as u32,
        },
        at: 0,
    };
    for (i, degree) in finals[..n - least].iter().enumerate() {
        left -= *degree;
        best = best.denser(Remainder {
            ratio: Ratio {
                p: left,
                q: (n - i - 1) as u32,
            },
            at: (i + 1) as u32,
        });
    }
    best
}

// The leaving order, the core numbers and the places, and the densest remainder of at least `least` modules. `degrees` has those of all modules, and from
// the turns on those with which modules leave.
#[tactic(auto, using(slots::proofs::Words::held_few, crate::proofs::Answers::fronts))]
pub fn peel(
    list: List,
    least: usize,
    order: &mut [u32],
    cores: &mut [u32],
    place: &mut [u32],
) -> Remainder
    requires { Peelable list.n least order.old cores.old place.old }
    ensures { Peels (listed list.entry) least order.old cores.old place.old order.new cores.new place.new result }
{
    let mut last = [0; 512];
    let mut before = [0; 8192];
    let mut degrees = [0; 512];
    let adjacency = Adjacency::new(list, &mut last, &mut before, &mut degrees);
    let mut keys = [0; 512];
    let mut next = [0; 4608];
    let mut back = [0; 512];
    let mut ranking = Ranking::new(&degrees[..list.n], &mut keys, &mut next, &mut back);
    turns(adjacency, &mut ranking, order, &mut degrees);
    let finals = &degrees[..list.n];
    number(&order[..list.n], finals, cores, place);
    densest(least, finals)
}
