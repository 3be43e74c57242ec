// The public calls that read a list, on lent records: peel, solve, kit, check, surplus and write_dimacs on sound lists, on buffers that are short or long, and
// on heads and records that do not agree.
//
// Each line has the call, what is altered, the number that documents 01 and 02 give it and the number that the call gave; then what it answered
// and what it left of the lent buffers: of those of 8 entries all, each 9 before, and of the work buffer how many words are 0 and how many are 7 as before. The
// numbers are those that C is answered with, and so no cases of an enum. Each call has buffers of its own, and the loop over its table is one call of its
// `tried`: one loop over a closure for all would be longer.
// `name` and `due` are no struct: it would be made at each call, to be taken apart in `begin`, and two of the calls need `due` alone.
#![tactic(auto)]

mod checks;
mod kitting;
mod peels;
mod plain;
mod print;
mod ratios;
mod samples;
mod solves;
mod surpluses;
mod writes;

use records::Pair;
use samples::{Damage, NONE};
use std::alloc::Global;
use std::io;

// A list that is altered, put to each call: the number due from check, and from the others.
fn each_call(
    rt: &impl Print,
    alloc: Global,
    name: &str,
    judged: u32,
    due: u32,
    damage: Damage,
) -> io::Result<()> {
    checks::damaged(rt, name, judged, damage)?;
    peels::damaged(rt, name, due, damage)?;
    solves::damaged(rt, name, due, damage)?;
    kitting::damaged(rt, name, due, damage)?;
    surpluses::damaged(rt, name, due, damage)?;
    writes::damaged(rt, alloc, name, due, damage)
}

// Heads that disagree with the list: N, and how many more pairs than there are.
fn heads(rt: &impl Print, alloc: Global) -> io::Result<()> {
    let heads = [
        ("no modules", 0, 0),
        ("513 modules", 513, 0),
        ("over 4,096 pairs", 5, 4096),
        ("one pair more than was recorded", 5, 1),
    ];
    for (name, n, more) in heads {
        each_call(rt, alloc, name, 13, 13, Damage { n, more, ..NONE })?;
    }
    Ok(())
}

// Last records that disagree with the list.
fn records(rt: &impl Print, alloc: Global) -> io::Result<()> {
    let records = [
        ("a record out of order", Pair { a: 0, b: 4, w: 1 }),
        ("a record of one module", Pair { a: 3, b: 3, w: 1 }),
        ("a module unknown", Pair { a: 3, b: 5, w: 1 }),
        ("a count of 0", Pair { a: 3, b: 4, w: 0 }),
        (
            "a count of 1,001",
            Pair {
                a: 3,
                b: 4,
                w: 1001,
            },
        ),
        (
            "a count of 65,535",
            Pair {
                a: 3,
                b: 4,
                w: 65535,
            },
        ),
    ];
    for (name, last) in records {
        each_call(rt, alloc, name, 13, 13, Damage { last, ..NONE })?;
    }
    Ok(())
}

// The pair 3,4 more often, and the count of the record past the list; check has another number due where its sheet is not for this count.
fn counts(rt: &impl Print, alloc: Global) -> io::Result<()> {
    let counts = [
        ("3,4 twice", 9, 2, 0),
        ("3,4 three times", 9, 3, 0),
        ("3,4 ten times", 9, 10, 0),
        ("3,4 1,000 times", 9, 1000, 0),
        ("a count of 1,001 past it", 0, 1, 1001),
    ];
    for (name, judged, count, past) in counts {
        let damage = Damage {
            past,
            ..samples::counted(count)
        };
        each_call(rt, alloc, name, judged, 0, damage)?;
    }
    Ok(())
}

fn main(rt: HostRuntime) -> io::Result<()> {
    let alloc = rt.alloc();
    peels::run(&rt)?;
    solves::run(&rt)?;
    kitting::run(&rt)?;
    checks::run(&rt)?;
    surpluses::run(&rt)?;
    writes::run(&rt, alloc)?;
    heads(&rt, alloc)?;
    records(&rt, alloc)?;
    counts(&rt, alloc)
}
