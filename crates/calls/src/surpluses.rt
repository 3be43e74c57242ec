// surplus: groups of the list *tail* of document 01, whose found group is 0 to 3, of ratio 6/4; and with other counts of its pair 3,4; groups of a list
// without pairs.
use crate::samples::{Damage, Lent, NONE};
use crate::{print, samples};
use kandurzo::surplus;
use model::front;
use std::io;
use verify::Difference;

// The found group, and bytes past it that are no member's.
const FOUND: [u8; 8] = [1, 1, 1, 1, 0, 2, 2, 2];

// What is due of surplus: a value, or a refusal's number.
type Due = Result<i64, u32>;

// One line: what surplus says of two sets, beside what is due. Beside a refusal the value is 0.
fn tried(
    rt: &impl Print,
    name: &str,
    due: Due,
    first: &[u8],
    second: &[u8],
    lent: Lent,
) -> io::Result<()> {
    let Difference { number, value } = surplus(lent.head, &lent.list, first, second);
    print::begin(rt, "surplus", name, due.err().unwrap_or(0), number)?;
    println!(rt; " value {}", print::as_due(value == due.unwrap_or(0)))
}

// The found group against itself, on a list that is altered.
pub(crate) fn damaged(rt: &impl Print, name: &str, due: u32, damage: Damage) -> io::Result<()> {
    let found = front(&FOUND, 5);
    let due = if due == 0 { Ok(0) } else { Err(due) };
    tried(rt, name, due, found, found, samples::tail(damage))
}

// Two sets of which one is the found group; then two of a list without pairs.
fn groups(rt: &impl Print) -> io::Result<()> {
    let group = [1, 1, 1, 1, 0];
    let two = [1, 1, 0, 0, 0];
    let all = [
        ("found group against itself, 0", Ok(0), group, group),
        ("0 and 1 against it, -8", Ok(-8), two, group),
        ("all five against it, -2", Ok(-2), [1; 5], group),
        ("it against 0 and 1, 8", Ok(8), group, two),
        ("no member", Err(7), [0; 5], group),
        ("byte of 2", Err(7), group, [2, 1, 1, 1, 0]),
    ];
    for (name, due, first, second) in all {
        tried(rt, name, due, &first, &second, samples::tail(NONE))?;
    }
    let none = samples::triangles(5, 0);
    tried(
        rt,
        "no pairs, 0 and 1 against 0 to 3, 0",
        Ok(0),
        &two,
        &group,
        none,
    )
}

// Groups against 3 and 4, whose pair has another count, the last time with the value of a list of ones.
fn counts(rt: &impl Print) -> io::Result<()> {
    let group = [1, 1, 1, 1, 0];
    let all = [
        ("3,4 ten times, 0 to 3 against them, -28", -28, group, 10),
        (
            "3,4 1,000 times, all against them, -2,988",
            -2988,
            [1; 5],
            1000,
        ),
        ("3,4 twice, 0 to 3 against them, 8", 8, group, 2),
    ];
    for (name, due, first, count) in all {
        let lent = samples::tail(samples::counted(count));
        tried(rt, name, Ok(due), &first, &[0, 0, 0, 1, 1], lent)?;
    }
    Ok(())
}

// The found group against itself, so much of both sets, and the head's N.
fn lengths(rt: &impl Print) -> io::Result<()> {
    let all = [
        ("short first set", Err(12), 5, 4, 5),
        ("short second set", Err(12), 5, 5, 4),
        ("longer sets, 0", Ok(0), 5, 6, 8),
        ("no modules, and short first set", Err(13), 0, 4, 5),
    ];
    for (name, due, n, first, second) in all {
        let sets = (front(&FOUND, first), front(&FOUND, second));
        let tail = samples::tail(Damage { n, ..NONE });
        tried(rt, name, due, sets.0, sets.1, tail)?;
    }
    Ok(())
}

pub(crate) fn run(rt: &impl Print) -> io::Result<()> {
    groups(rt)?;
    counts(rt)?;
    lengths(rt)
}
