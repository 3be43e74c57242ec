// Heads and records that do not agree: every call must be refused by 13, and leave them as they are.
use crate::draws::{Ask, Change};
use crate::places;
use crate::steps::{self, Run};
use records::{Head, Pair};
use refusals::Refusal;

// Heads that agree with no list of so many records: N of 0 and of 513, M above the records and far above them.
fn bad_heads(head: Head, len: u16) -> [Head; 4] {
    let more = u32::from(len).saturating_add(1);
    [
        Head { n: 0, ..head },
        Head { n: 513, ..head },
        Head { m: more, ..head },
        Head {
            m: u32::MAX,
            ..head
        },
    ]
}

// A record of these modules with the count of another.
fn of(a: u16, b: u16, counted: Pair) -> Pair {
    Pair { a, b, ..counted }
}

// First two records that agree with no head of n modules: ends the wrong way round, one record twice, two in falling order, an end of N, equal ends; counts of
// 0 and of 1,001, of the first record and of the second.
fn bad_records(n: u32, first: Pair, second: Pair) -> [(Pair, Pair); 9] {
    let Pair { a, b, .. } = first;
    let n = u16::try_from(n).unwrap_or(u16::MAX);
    [
        (of(b, a, first), second),
        (first, of(a, b, second)),
        (of(second.a, second.b, first), of(a, b, second)),
        (of(a, n, first), second),
        (of(a, a, first), second),
        (Pair { w: 0, ..first }, second),
        (Pair { w: 1001, ..first }, second),
        (first, Pair { w: 0, ..second }),
        (first, Pair { w: 1001, ..second }),
    ]
}

// Writes the first two records of a list.
fn put_two(list: &mut [Pair], two: (Pair, Pair)) {
    if let [first, second, ..] = list {
        *first = two.0;
        *second = two.1;
    }
}

// Lays a head and the first two records everywhere.
fn lay(run: &mut Run, head: Head, two: (Pair, Pair)) {
    run.head = head;
    put_two(run.list.as_mut_slice(), two);
    put_two(run.due.as_mut_slice(), two);
    if let Some(own) = &mut run.own {
        own.head = head;
        put_two(own.list.as_mut_slice(), two);
    }
}

// A call for modules 0 and b that must be refused by 13, with heads and lists as before.
fn refused(run: &mut Run, head: Head, b: u32, change: Change) {
    let ask = Ask { a: 0, b, change };
    let refusal = Err(Refusal::HeadDisagrees);
    places::asked(run, ask, refusal);
    steps::made(run, ask, refusal, head);
    steps::compare_all(run);
}

// Such calls: for a pair, a module twice, and a module of no list. 13 comes before 5, 4 and 18.
fn all_refused(run: &mut Run, head: Head, two: (Pair, Pair)) {
    let asks = [
        (1, Change::Add(1)),
        (0, Change::Add(1001)),
        (600, Change::Add(0)),
        (1, Change::Remove),
        (0, Change::Remove),
        (600, Change::Remove),
    ];
    for (b, change) in asks {
        lay(run, head, two);
        refused(run, head, b, change);
    }
}

// Every way in which head and list do not agree; heads and lists are then as before. The ways need two records.
pub(crate) fn disagree(run: &mut Run) {
    let (Some(&first), Some(&second)) = (run.list.get(0), run.list.get(1)) else {
        return;
    };
    let head = run.head;
    if head.m < 2 {
        return;
    }
    for bad in bad_heads(head, run.plan.len) {
        all_refused(run, bad, (first, second));
    }
    for two in bad_records(head.n, first, second) {
        all_refused(run, head, two);
    }
    lay(run, head, (first, second));
}
