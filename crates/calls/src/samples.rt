// The lists that are lent.
use model::{after, below, circle_pair, front};
use records::{Head, Pair};
use std::iter;

// A head and its 4,096 records.
#[derive(Clone, Copy)]
pub(crate) struct Lent {
    pub(crate) head: Head,
    pub(crate) list: [Pair; 4096],
}

impl Lent {
    // N as an index. There is no From of u32 for usize.
    pub(crate) fn n(&self) -> usize {
        self.head.n as usize
    }

    // The records that are held. There is no From of u32 for usize.
    pub(crate) fn pairs(&self) -> &[Pair] {
        front(&self.list, self.head.m as usize)
    }
}

// Raises the count of the first pair.
pub(crate) fn raise_first(lent: &mut Lent, by: u16) {
    lent.list[0].w = lent.list[0].w.wrapping_add(by);
}

// What is altered of a list of 5 modules whose last record is 3,4 with the count 1: the head's N, how many more pairs than there are the head's M says, that
// record, and the count of the record past it.
#[derive(Clone, Copy)]
pub(crate) struct Damage {
    pub(crate) n: u32,
    pub(crate) more: u32,
    pub(crate) last: Pair,
    pub(crate) past: u16,
}

// Nothing is.
pub(crate) const NONE: Damage = Damage {
    n: 5,
    more: 0,
    last: Pair { a: 3, b: 4, w: 1 },
    past: 0,
};

// The last record has this count.
pub(crate) fn counted(w: u16) -> Damage {
    Damage {
        last: Pair { w, ..NONE.last },
        ..NONE
    }
}

// The pairs of the small lists, without their last one: a cycle of 5 modules; the list *tail* of document 01, which has all six pairs of 0 to 3, and 3,4; two
// triangles, of 0 to 2 and of 3 to 5.
const CYCLE: [(u16, u16); 4] = [(0, 1), (0, 4), (1, 2), (2, 3)];

const TAIL: [(u16, u16); 6] = [(0, 1), (0, 2), (0, 3), (1, 2), (1, 3), (2, 3)];

const TRIANGLES: [(u16, u16); 6] = [(0, 1), (0, 2), (1, 2), (3, 4), (3, 5), (4, 5)];

// A list of this head whose first records are these.
pub(crate) fn of_records<I: Iterator<Item = Pair> + Drop>(head: Head, records: I) -> Lent
    requires { I.can_next records }
{
    let mut list = [Pair::default(); 4096];
    for (place, record) in list.iter_mut().zip(records) {
        *place = record;
    }
    Lent { head, list }
}

// A list of these pairs, each once, and the last one, which is altered.
fn altered(damage: Damage, pairs: &[(u16, u16)]) -> Lent {
    let first = u32::try_from(pairs.len()).unwrap_or(u32::MAX);
    let head = Head {
        n: damage.n,
        m: damage.more.saturating_add(first).saturating_add(1),
    };
    let past = Pair {
        a: 0,
        b: 0,
        w: damage.past,
    };
    let records = pairs.iter().map(|&(a, b)| Pair { a, b, w: 1 });
    of_records(head, records.chain([damage.last, past]))
}

// The cycle: 5 pairs.
pub(crate) fn cycle(damage: Damage) -> Lent {
    altered(damage, &CYCLE)
}

// The list *tail*: 7 pairs.
pub(crate) fn tail(damage: Damage) -> Lent {
    altered(damage, &TAIL)
}

// The first m pairs of the two triangles, with n modules.
pub(crate) fn triangles(n: u32, m: u32) -> Lent {
    let records = TRIANGLES.map(|(a, b)| Pair { a, b, w: 1 });
    of_records(Head { n, m }, records.into_iter())
}

// ---- lists of 512 modules

// The kinds of large lists: pairs by chance; each module with the next so many on a circle; all pairs of the first 64 modules, and of the last 90.
#[derive(Clone, Copy)]
pub(crate) enum Kind {
    Chance,
    Circle,
    Clique,
    Wider,
}

// Their counts: all of them this one, or each drawn, from 1 to this one. Two kinds with a number each, so that Option and Result would say less.
#[derive(Clone, Copy)]
pub(crate) enum Counts {
    All(u32),
    Upto(u32),
}

// What is drawn for i.
fn drawn(i: u32) -> u32 {
    after(after(i.wrapping_add(1)))
}

// Pair i of such a list: some come twice, or are of one module.
fn pair(kind: Kind, i: u32) -> (u32, u32) {
    match kind {
        Kind::Chance => {
            let state = drawn(i);
            (below(state, 512), below(after(state), 512))
        }
        Kind::Circle => circle_pair(i, 0, 512),
        Kind::Clique => (i % 64, i / 64),
        Kind::Wider => (422 + i % 90, (i / 90).wrapping_add(422)),
    }
}

// The count of record j.
fn count(counts: Counts, j: u32) -> u16 {
    let w = match counts {
        Counts::All(w) => w,
        Counts::Upto(top) => below(drawn(j), top).saturating_add(1),
    };
    u16::try_from(w).unwrap_or(u16::MAX)
}

// Writes the counts of the records held.
fn put_counts(lent: &mut Lent, counts: Counts) {
    let m = lent.head.m;
    for (j, record) in (0..m).zip(lent.list.iter_mut()) {
        record.w = count(counts, j);
    }
}

// A list of 512 modules to which so many pairs are added, where add takes them, with these counts; those that come twice are one.
pub(crate) fn large(kind: Kind, many: u32, counts: Counts) -> Lent {
    let mut lent = of_records(Head { n: 512, m: 0 }, iter::empty());
    for i in 0..many {
        let (a, b) = pair(kind, i);
        lent.head = kandurzo::add(lent.head, &mut lent.list, a, b, 1).head;
    }
    put_counts(&mut lent, counts);
    lent
}
