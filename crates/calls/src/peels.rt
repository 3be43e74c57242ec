// peel: the list *tail* of document 01, whose leaving order is 4,0,1,2,3 and whose core numbers are 3,3,3,3,1. Where 3,4 counts three times or more, the
// leaving order is 0,1,2,3,4; where it counts more often than that, the core numbers of 3 and 4 are its count. A list without pairs is served too: its
// modules leave in order.
use crate::samples::{Damage, Lent, NONE};
use crate::{print, samples};
use kandurzo::kandurzo_peel;
use model::front_mut;
use std::io;

// How much of the buffers is lent.
#[derive(Clone, Copy)]
struct Lengths {
    order: usize,
    cores: usize,
    work: usize,
}

// As much as is named.
const NAMED: Lengths = Lengths {
    order: 5,
    cores: 5,
    work: 16384,
};

// One line: what peel says and writes.
fn tried(rt: &impl Print, name: &str, due: u32, lent: Lent, lengths: Lengths) -> io::Result<()> {
    let mut order = [9u16; 8];
    let mut cores = [9u32; 8];
    let mut work = [7u32; 16400];
    let number = kandurzo_peel(
        lent.head,
        &lent.list,
        front_mut(&mut order, lengths.order),
        front_mut(&mut cores, lengths.cores),
        front_mut(&mut work, lengths.work),
    );
    print::begin(rt, "peel", name, due, number)?;
    print::eight(rt, "order", &order, 0)?;
    print::eight(rt, "cores", &cores, 0)?;
    print::end_work(rt, &work)
}

// A list that is altered.
pub(crate) fn damaged(rt: &impl Print, name: &str, due: u32, damage: Damage) -> io::Result<()> {
    tried(rt, name, due, samples::tail(damage), NAMED)
}

// The list *tail*, its head with N, and so much of order, core numbers and work; then a list without pairs.
pub(crate) fn run(rt: &impl Print) -> io::Result<()> {
    let all = [
        ("as it is", 0, 5, 5, 5, 16384),
        ("longer buffers", 0, 5, 8, 6, 16390),
        ("short order", 12, 5, 4, 5, 16384),
        ("short core numbers", 12, 5, 5, 4, 16384),
        ("short work", 12, 5, 5, 5, 16383),
        ("no modules, and short order", 13, 0, 4, 5, 16384),
    ];
    for (name, due, n, order, cores, work) in all {
        let lengths = Lengths { order, cores, work };
        let tail = samples::tail(Damage { n, ..NONE });
        tried(rt, name, due, tail, lengths)?;
    }
    tried(rt, "no pairs", 0, samples::triangles(5, 0), NAMED)
}
