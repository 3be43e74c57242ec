// solve: the list *tail* of document 01, whose found group is 0 to 3 with P/Q = 6/4; two triangles, all six modules with 6/6; lists without pairs, which are
// turned down; lists of 512 modules; lists with counts. Where solve finds a group, `differ` says how much of its answer is not as due: P, Q, K, the core's
// size, shares above W times Q and loads above P by a second computation, the answer of check, and the core numbers of peel. The float must be P/Q rounded
// once.
use crate::plain::{Second, differing, unlike};
use crate::samples::{Counts, Damage, Kind, Lent, NONE, raise_first};
use crate::{plain, print, ratios, samples};
use kandurzo::{Solved, check, kandurzo_peel, solve};
use model::{front, front_mut};
use std::io;
use verify::Verdict;

// The lengths lent, by how much the first pair's count is raised before the answer is compared, and from where eight members and core numbers are printed, and
// eight shares.
#[derive(Clone, Copy)]
struct Altered {
    members: usize,
    cores: usize,
    shares: usize,
    work: usize,
    raised: u16,
    from: usize,
    from_share: usize,
}

// As much as is named.
const NAMED: Altered = Altered {
    members: 5,
    cores: 5,
    shares: 7,
    work: 16384,
    raised: 0,
    from: 0,
    from_share: 0,
};

// More than is named, for 512 modules.
const LONGER: Altered = Altered {
    members: 514,
    cores: 514,
    shares: 4100,
    work: 16400,
    raised: 0,
    from: 506,
    from_share: 4092,
};

// What solve answers.
fn print_solved(rt: &impl Print, name: &str, due: u32, found: Solved) -> io::Result<()> {
    print::begin(rt, "solve", name, due, found.number)?;
    print!(rt;
        " p={} q={} k={} core={}",
        found.p, found.q, found.k, found.coresize
    )?;
    let same = found.ratio == ratios::quotient(found.p, found.q);
    print!(rt; " ratio {}", print::as_due(same))
}

// How much of what solve found is not as the second computation says. There is no From of u32 for usize.
fn miscounted(found: Solved, second: Second) -> usize {
    unlike(&[
        found.p == second.p,
        found.q == second.q,
        found.k == second.k,
        found.coresize as usize == second.core,
        second.shares == 0,
        second.loads == 0,
    ])
}

// How much of what check says is not as solve found.
fn unconfirmed(found: Solved, verdict: Verdict) -> usize {
    unlike(&[
        verdict.number == 0,
        verdict.p == found.p,
        verdict.q == found.q,
    ])
}

// How many core numbers peel gives otherwise.
fn cores_differ(lent: &Lent, cores: &[u32]) -> usize {
    let mut order = [0u16; 512];
    let mut others = [0u32; 512];
    let mut work = [0u32; 16384];
    kandurzo_peel(lent.head, &lent.list, &mut order, &mut others, &mut work);
    differing(front(cores, lent.n()), &others)
}

// Where a group was found, how much of the answer is not as due.
fn confirm(
    rt: &impl Print,
    lent: &Lent,
    found: Solved,
    members: &[u8],
    cores: &[u32],
    shares: &[u32],
) -> io::Result<()> {
    let mut work = [0u32; 16384];
    if found.number != 0 {
        return Ok(());
    }
    let second = plain::computed(lent, members, cores, shares);
    print!(rt;
        " pairs={} differ={}",
        lent.head.m,
        miscounted(found, second)
    )?;
    let verdict = check(lent.head, &lent.list, members, shares, &mut work);
    print!(rt;
        ",{},{}",
        unconfirmed(found, verdict),
        cores_differ(lent, cores)
    )
}

// One line: what solve says and writes.
fn tried(rt: &impl Print, name: &str, due: u32, mut lent: Lent, a: Altered) -> io::Result<()> {
    let mut members = [9u8; 514];
    let mut cores = [9u32; 514];
    let mut shares = [9u32; 4100];
    let mut work = [7u32; 16400];
    let found = solve(
        lent.head,
        &lent.list,
        front_mut(&mut members, a.members),
        front_mut(&mut cores, a.cores),
        front_mut(&mut shares, a.shares),
        front_mut(&mut work, a.work),
    );
    print_solved(rt, name, due, found)?;
    raise_first(&mut lent, a.raised);
    confirm(rt, &lent, found, &members, &cores, &shares)?;
    print::eight(rt, "members", &members, a.from)?;
    print::eight(rt, "cores", &cores, a.from)?;
    print::eight(rt, "shares", &shares, a.from_share)?;
    print::end_work(rt, &work)
}

// A list that is altered.
pub(crate) fn damaged(rt: &impl Print, name: &str, due: u32, damage: Damage) -> io::Result<()> {
    tried(rt, name, due, samples::tail(damage), NAMED)
}

// The list *tail*, its head with N, and so much of members, core numbers, shares and work.
fn buffers(rt: &impl Print) -> io::Result<()> {
    let all = [
        ("as it is", 0, 5, 5, 5, 7, 16384),
        ("longer buffers", 0, 5, 7, 6, 8, 16390),
        ("short members", 12, 5, 4, 5, 7, 16384),
        ("short core numbers", 12, 5, 5, 4, 7, 16384),
        ("short shares", 12, 5, 5, 5, 6, 16384),
        ("short work", 12, 5, 5, 5, 7, 16383),
        ("no modules, and short members", 13, 0, 4, 5, 7, 16384),
    ];
    for (name, due, n, members, cores, shares, work) in all {
        let lent = Altered {
            members,
            cores,
            shares,
            work,
            ..NAMED
        };
        tried(rt, name, due, samples::tail(Damage { n, ..NONE }), lent)?;
    }
    Ok(())
}

// Lists of so many modules without pairs: so much of members, core numbers and work, and no share.
fn pairless(rt: &impl Print) -> io::Result<()> {
    let all = [
        ("one module", 20, 1, 1, 1, 16384),
        ("no pairs", 20, 4, 4, 4, 16384),
        ("no pairs, longer buffers", 20, 4, 8, 8, 16390),
        ("no pairs, 512 modules", 20, 512, 512, 512, 16384),
        ("no pairs, and short members", 12, 4, 3, 4, 16384),
        ("no pairs, and short core numbers", 12, 4, 4, 3, 16384),
        ("no pairs, and short work", 12, 4, 4, 4, 16383),
        ("no pairs and no modules", 13, 0, 4, 4, 16384),
    ];
    for (name, due, n, members, cores, work) in all {
        let lent = Altered {
            members,
            cores,
            shares: 0,
            work,
            ..NAMED
        };
        tried(rt, name, due, samples::triangles(n, 0), lent)?;
    }
    Ok(())
}

// Lists with other answers: so many modules, and so many pairs of two triangles.
fn others(rt: &impl Print) -> io::Result<()> {
    let eight = Altered {
        members: 8,
        cores: 8,
        shares: 8,
        ..NAMED
    };
    let all = [
        ("two triangles", 6, 6),
        ("one of them", 6, 3),
        ("two of its pairs", 3, 2),
        ("one pair of four modules", 4, 1),
    ];
    for (name, n, m) in all {
        tried(rt, name, 0, samples::triangles(n, m), eight)?;
    }
    Ok(())
}

// The list *tail*, with a count that is another when the answer is compared.
fn unlike_counts(rt: &impl Print) -> io::Result<()> {
    let raised = Altered { raised: 1, ..NAMED };
    tried(
        rt,
        "a count altered behind it",
        0,
        samples::tail(NONE),
        raised,
    )
}

// Lists of 512 modules, to which so many pairs are added.
fn large(rt: &impl Print) -> io::Result<()> {
    let ones = Counts::All(1);
    let few = Counts::Upto(9);
    let many = Counts::Upto(1000);
    let all = [
        ("512 modules, pairs by chance", Kind::Chance, 4096, ones),
        ("512 modules, a circle", Kind::Circle, 512, ones),
        ("512 modules, a wide circle", Kind::Circle, 4096, ones),
        ("512 modules, a clique of 64", Kind::Clique, 4096, ones),
        ("by chance, counts 1 to 9", Kind::Chance, 4096, few),
        ("by chance, counts 1 to 1,000", Kind::Chance, 4096, many),
        ("a circle, counts 1 to 1,000", Kind::Circle, 512, many),
        (
            "a wide circle, counts 1,000",
            Kind::Circle,
            4096,
            Counts::All(1000),
        ),
        ("a clique of 64, counts 1 to 9", Kind::Clique, 4096, few),
        (
            "a clique of 90, counts 1,000",
            Kind::Wider,
            8100,
            Counts::All(1000),
        ),
    ];
    for (name, kind, added, counts) in all {
        tried(rt, name, 0, samples::large(kind, added, counts), LONGER)?;
    }
    Ok(())
}

pub(crate) fn run(rt: &impl Print) -> io::Result<()> {
    buffers(rt)?;
    pairless(rt)?;
    others(rt)?;
    unlike_counts(rt)?;
    large(rt)
}
