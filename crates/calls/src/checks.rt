// check: a cycle of 5 modules, the group all of them, and each pair lies wholly with one end: P = 5, Q = 5, every load is 5. Then two shares of a few
// for a list of three modules with the pairs 0,1 and 1,2 and all three in the group: Q = 3, 0,1 has W times 3 units and 1,2 has 3. Lists without pairs are
// turned down, whatever the member bytes.
use crate::samples::{Damage, Lent, NONE};
use crate::{print, samples};
use kandurzo::check;
use model::{front, front_mut};
use records::{Head, Pair};
use std::io;

// What is altered: the first member byte and the first share; the lengths lent.
#[derive(Clone, Copy)]
struct Altered {
    byte: u8,
    share: u32,
    members: usize,
    shares: usize,
    work: usize,
}

// Nothing is.
const SOUND: Altered = Altered {
    byte: 1,
    share: 5,
    members: 5,
    shares: 5,
    work: 16384,
};

// One line: what check says and leaves.
fn tried(rt: &impl Print, name: &str, due: u32, lent: Lent, a: Altered) -> io::Result<()> {
    let mut work = [7u32; 16400];
    let bytes = [a.byte, 1, 1, 1, 1, 2, 2, 2];
    let sheet = [a.share, 0, 5, 5, 5, 9, 9, 9];
    let verdict = check(
        lent.head,
        &lent.list,
        front(&bytes, a.members),
        front(&sheet, a.shares),
        front_mut(&mut work, a.work),
    );
    print::begin(rt, "check", name, due, verdict.number)?;
    print!(rt; " p={} q={}", verdict.p, verdict.q)?;
    print::end_work(rt, &work)
}

// A list that is altered.
pub(crate) fn damaged(rt: &impl Print, name: &str, due: u32, damage: Damage) -> io::Result<()> {
    tried(rt, name, due, samples::cycle(damage), SOUND)
}

// The answer to two shares of the three modules, the first pair with the count w.
fn print_shares(rt: &impl Print, w: u16, first: u32, second: u32) -> io::Result<()> {
    let mut work = [0u32; 16384];
    let pairs = [Pair { a: 0, b: 1, w }, Pair { a: 1, b: 2, w: 1 }];
    let lent = samples::of_records(Head { n: 3, m: 2 }, pairs.into_iter());
    let verdict = check(
        lent.head,
        &lent.list,
        &[1, 1, 1],
        &[first, second],
        &mut work,
    );
    print!(rt; " {}:{}/{}", verdict.number, verdict.p, verdict.q)
}

// A line: the first share with each of a few.
fn with_each(rt: &impl Print, w: u16, first: u32) -> io::Result<()> {
    print!(rt; "check, count {w}, shares {first} and 0 to 4, 65,537:")?;
    for second in [0, 1, 2, 3, 4, 65537] {
        print_shares(rt, w, first, second)?;
    }
    println!(rt;)
}

// Shares where 0,1 counts once, and where it counts more often.
fn sheets(rt: &impl Print) -> io::Result<()> {
    for first in [0, 1, 2, 3, 4, 65538, u32::MAX] {
        with_each(rt, 1, first)?;
    }
    for (w, first) in [(2, 2), (2, 3), (2, 6), (2, 7), (1000, 3000), (1000, 3001)] {
        with_each(rt, w, first)?;
    }
    Ok(())
}

// The cycle, its head with N, and so much of members, shares and work.
fn buffers(rt: &impl Print) -> io::Result<()> {
    let all = [
        ("as it is", 0, 5, 5, 5, 16384),
        ("longer buffers", 0, 5, 7, 8, 16390),
        ("short members", 12, 5, 4, 5, 16384),
        ("short shares", 12, 5, 5, 4, 16384),
        ("short work", 12, 5, 5, 5, 16383),
        ("no modules, and short members", 13, 0, 4, 5, 16384),
    ];
    for (name, due, n, members, shares, work) in all {
        let lent = Altered {
            members,
            shares,
            work,
            ..SOUND
        };
        let cycle = samples::cycle(Damage { n, ..NONE });
        tried(rt, name, due, cycle, lent)?;
    }
    Ok(())
}

// Lists of so many modules without pairs: the first member byte, and so much of members and work; no share is lent.
fn pairless(rt: &impl Print) -> io::Result<()> {
    let all = [
        ("no pairs, one module", 20, 1, 1, 1, 16384),
        ("no pairs, all five modules", 20, 5, 1, 5, 16384),
        ("no pairs, longer buffers", 20, 5, 1, 8, 16390),
        ("no pairs, and byte of 2", 20, 5, 2, 5, 16384),
        ("no pairs, and short members", 12, 5, 1, 4, 16384),
        ("no pairs, and short work", 12, 5, 1, 5, 16383),
        ("no pairs and no modules", 13, 0, 1, 5, 16384),
    ];
    for (name, due, n, byte, members, work) in all {
        let lent = Altered {
            byte,
            members,
            shares: 0,
            work,
            ..SOUND
        };
        tried(rt, name, due, samples::triangles(n, 0), lent)?;
    }
    Ok(())
}

// The cycle, with another first member byte and first share.
fn spoiled(rt: &impl Print) -> io::Result<()> {
    let all = [
        ("byte of 2", 7, 2, 5),
        ("member dropped", 8, 0, 5),
        ("share past Q", 8, 1, 6),
        ("unit moved", 9, 1, 4),
    ];
    for (name, due, byte, share) in all {
        let sheet = Altered {
            byte,
            share,
            ..SOUND
        };
        tried(rt, name, due, samples::cycle(NONE), sheet)?;
    }
    Ok(())
}

pub(crate) fn run(rt: &impl Print) -> io::Result<()> {
    buffers(rt)?;
    pairless(rt)?;
    spoiled(rt)?;
    sheets(rt)
}
