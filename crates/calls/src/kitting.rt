// kit: the list *tail* of document 01. Left over in its leaving order are all five modules with 7 stops, 0 to 3 with 6, 1 to 3 with 3, 2 and 3 with 1, and 3:
// the kit of at least 1 to 4 modules is 0 to 3, that of at least 5 all. Where 3,4 counts ten times, left over are all five with 16, 1 to 4 with 13, 2 to 4
// with 11, 3 and 4 with 10, and 4: the kit has k modules, and two where k is 1. Of two triangles all six modules are as dense as the second triangle, and
// more; of one of them 3, 4 and 5 leave first. Of 512 modules: a clique, before which all others leave, in order; a circle, whose densest group has all
// modules; and pairs by chance. Where a kit is made, `differ` says how much of the answer is not as due: P and Q as a second computation counts them, and Q no
// less than the least size.
use crate::plain::{counted, unlike};
use crate::samples::{Counts, Damage, Kind, Lent, NONE, raise_first};
use crate::{print, samples};
use kandurzo::kit;
use model::front_mut;
use std::io;
use verify::Verdict;

// The least size, the lengths lent, by how much the first pair's count is raised before the answer is compared, and from where eight members are printed.
#[derive(Clone, Copy)]
struct Asked {
    k: u32,
    members: usize,
    work: usize,
    raised: u16,
    from: usize,
}

// As much as is named.
const NAMED: Asked = Asked {
    k: 3,
    members: 5,
    work: 16384,
    raised: 0,
    from: 0,
};

// More than is named, for 512 modules.
const LONGER: Asked = Asked {
    k: 3,
    members: 514,
    work: 16400,
    raised: 0,
    from: 506,
};

// Where a kit was made, how much of the answer is not as due.
fn confirm(rt: &impl Print, lent: &Lent, made: Verdict, k: u32, members: &[u8]) -> io::Result<()> {
    if made.number != 0 {
        return Ok(());
    }
    let (p, q) = counted(lent, members);
    print!(rt;
        " differ={}",
        unlike(&[made.p == p, made.q == q, k <= made.q])
    )
}

// One line: what kit says and writes.
fn tried(rt: &impl Print, name: &str, due: u32, mut lent: Lent, a: Asked) -> io::Result<()> {
    let mut members = [9u8; 514];
    let mut work = [7u32; 16400];
    let made = kit(
        lent.head,
        &lent.list,
        a.k,
        front_mut(&mut members, a.members),
        front_mut(&mut work, a.work),
    );
    print::begin(rt, "kit", name, due, made.number)?;
    print!(rt; " least={} p={} q={}", a.k, made.p, made.q)?;
    raise_first(&mut lent, a.raised);
    confirm(rt, &lent, made, a.k, &members)?;
    print::eight(rt, "members", &members, a.from)?;
    print::end_work(rt, &work)
}

// A list that is altered.
pub(crate) fn damaged(rt: &impl Print, name: &str, due: u32, damage: Damage) -> io::Result<()> {
    tried(rt, name, due, samples::tail(damage), NAMED)
}

// A list, and so many modules at least.
fn each_least(
    rt: &impl Print,
    name: &str,
    due: u32,
    lent: Lent,
    least_sizes: &[u32],
    a: Asked,
) -> io::Result<()> {
    for &k in least_sizes {
        tried(rt, name, due, lent, Asked { k, ..a })?;
    }
    Ok(())
}

// The list *tail*, also where 3,4 counts ten times, and with a count that is another when the answer is compared.
fn tails(rt: &impl Print) -> io::Result<()> {
    let tail = samples::tail(NONE);
    let heavy = samples::tail(samples::counted(10));
    let raised = Asked { raised: 1, ..NAMED };
    each_least(rt, "as it is", 0, tail, &[1, 2, 3, 4, 5], NAMED)?;
    each_least(rt, "as it is", 21, tail, &[0, 6, u32::MAX], NAMED)?;
    each_least(rt, "3,4 ten times", 0, heavy, &[1, 2, 3, 4, 5], NAMED)?;
    tried(rt, "a count altered behind it", 0, tail, raised)
}

// A line for each row: its name, the number due, N, the least size, and so much of members and work; the list of N modules is made by `list`.
fn each_row<F: Fn(u32) -> Lent>(
    rt: &impl Print,
    rows: &[(&str, u32, u32, u32, usize, usize)],
    list: F,
) -> io::Result<()>
    requires { F.IsAlwaysCallable list }
{
    for &(name, due, n, k, members, work) in rows {
        let asked = Asked {
            k,
            members,
            work,
            ..NAMED
        };
        tried(rt, name, due, list(n), asked)?;
    }
    Ok(())
}

// The list *tail*, its head with N.
fn buffers(rt: &impl Print) -> io::Result<()> {
    let rows = [
        ("longer buffers", 0, 5, 3, 7, 16390),
        ("short members", 12, 5, 3, 4, 16384),
        ("short members", 12, 5, 0, 4, 16384),
        ("short work", 12, 5, 3, 5, 16383),
        ("short work", 12, 5, 6, 5, 16383),
        ("no modules, and short members", 13, 0, 3, 4, 16384),
    ];
    each_row(rt, &rows, |n| samples::tail(Damage { n, ..NONE }))
}

// Lists of N modules without pairs.
fn pairless(rt: &impl Print) -> io::Result<()> {
    let rows = [
        ("no pairs, one module", 20, 1, 1, 1, 16384),
        ("no pairs", 20, 5, 1, 5, 16384),
        ("no pairs", 20, 5, 0, 5, 16384),
        ("no pairs", 20, 5, 6, 5, 16384),
        ("no pairs, longer buffers", 20, 5, 1, 8, 16390),
        ("no pairs, and short members", 12, 5, 1, 4, 16384),
        ("no pairs, and short work", 12, 5, 1, 5, 16383),
        ("no pairs and no modules", 13, 0, 1, 5, 16384),
    ];
    each_row(rt, &rows, |n| samples::triangles(n, 0))
}

// Two triangles, and one of them.
fn others(rt: &impl Print) -> io::Result<()> {
    let two = samples::triangles(6, 6);
    let one = samples::triangles(6, 3);
    let six = Asked {
        members: 6,
        ..NAMED
    };
    each_least(rt, "two triangles", 0, two, &[1, 4], six)?;
    each_least(rt, "one of them", 0, one, &[1, 3, 4, 5, 6], six)
}

// Lists of 512 modules, to which so many pairs are added.
fn large(rt: &impl Print) -> io::Result<()> {
    let all = [
        ("a clique of 64", Kind::Clique, 4096, Counts::All(1)),
        (
            "a clique of 90, counts 1,000",
            Kind::Wider,
            8100,
            Counts::All(1000),
        ),
        ("512 modules, a circle", Kind::Circle, 512, Counts::All(1)),
        (
            "by chance, counts 1 to 1,000",
            Kind::Chance,
            4096,
            Counts::Upto(1000),
        ),
    ];
    for (name, kind, added, counts) in all {
        let lent = samples::large(kind, added, counts);
        each_least(rt, name, 0, lent, &[1, 65, 100, 400, 512], LONGER)?;
    }
    Ok(())
}

pub(crate) fn run(rt: &impl Print) -> io::Result<()> {
    tails(rt)?;
    buffers(rt)?;
    pairless(rt)?;
    others(rt)?;
    large(rt)
}
