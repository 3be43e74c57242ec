// add and remove in runs of steps. At the end of each run, heads and records that do not agree must be refused by 13 and left as they are. Prints a line
// a kind of run: steps, those made by add_to or remove_from, lists compared, calls of place and those that say held, answers of each number, and how many
// differ; of the adds, besides: held pairs raised, those raised in a list without a free record, counts that come to 1,000, and refusals where a later number
// is due too. Then runs with an altered answer, in which every step, list or call of place must differ.
use crate::steps::{Altered, Own, Plan, Run};
use crate::tally::Tally;
use crate::{orders, spoils, steps};
use model::{Random, Stops, litter};
use std::alloc::{AllocError, Global};
use std::io;

// What a line counts, and the random numbers of its runs.
#[derive(Clone, Copy)]
struct Line {
    random: Random,
    tally: Tally,
}

// Where a line begins.
fn begin() -> Line {
    Line {
        random: Random { last: 2463534242 },
        tally: Tally::default(),
    }
}

// A run of the plan, from a list without pairs.
fn course(alloc: Global, plan: Plan, line: Line) -> Result<Line, AllocError> {
    let head = kandurzo::start(plan.n).head;
    let own = if plan.has_own {
        Some(Own::new(head, plan.len, alloc)?)
    } else {
        None
    };
    let mut run = Run {
        plan,
        head,
        list: litter(alloc, plan.len, 1001)?,
        own,
        due: litter(alloc, plan.len, 1001)?,
        model: Stops::new(alloc),
        random: line.random,
        tally: line.tally,
    };
    steps::go(&mut run, plan.adds, false)?;
    steps::go(&mut run, plan.mixed, true)?;
    steps::look(&mut run);
    spoils::disagree(&mut run);
    orders::again(&mut run, alloc)?;
    Ok(Line {
        random: run.random,
        tally: run.tally,
    })
}

// The plan at every number of modules up to its own, from 2 on.
fn every_size(rt: &impl Print, alloc: Global, name: &str, plan: Plan) -> io::Result<()> {
    let mut line = begin();
    for n in 2..=plan.n {
        line = course(alloc, Plan { n, ..plan }, line)?;
    }
    println!(rt; "edits, {name}: {}", line.tally)
}

// One run.
fn one(rt: &impl Print, alloc: Global, name: &str, plan: Plan) -> io::Result<()> {
    let line = course(alloc, plan, begin())?;
    println!(rt; "edits, {name}: {}", line.tally)
}

// Runs on 4,096 records.
const LARGE: Plan = Plan {
    n: 512,
    len: 4096,
    has_own: false,
    adds: 6,
    mixed: 10,
    every: 8,
    again: None,
    altered: None,
};

// Runs on 100 records, which are filled.
const SMALL: Plan = Plan {
    n: 40,
    len: 100,
    has_own: true,
    adds: 330,
    mixed: 100,
    every: 1,
    again: None,
    altered: None,
};

// Runs on 100 records, after which the same stops are added again in other steps.
const AGAIN: Plan = Plan {
    n: 40,
    len: 100,
    has_own: true,
    adds: 400,
    mixed: 0,
    every: 50,
    again: Some(300),
    altered: None,
};

// The longest runs: the list is filled.
fn filled(n: u32, adds: u32) -> Plan {
    Plan {
        n,
        adds,
        mixed: 2000,
        every: 64,
        ..LARGE
    }
}

// Runs with each thing altered before it is compared.
fn altered_runs(rt: &impl Print, alloc: Global) -> io::Result<()> {
    let runs = [
        ("number altered", Altered::Number, None),
        ("number of pairs altered", Altered::PairCount, None),
        ("records altered", Altered::Records, None),
        ("number of add_to altered", Altered::OwnNumber, None),
        ("number of place altered", Altered::PlaceNumber, None),
        ("held altered", Altered::Held, None),
        ("place altered", Altered::Place, None),
        ("stop count altered", Altered::StopCount, None),
        (
            "stop count altered, of those added again",
            Altered::AddedAgain,
            Some(200),
        ),
    ];
    for (name, altered, again) in runs {
        let plan = Plan {
            n: 20,
            adds: 100,
            again,
            altered: Some(altered),
            ..SMALL
        };
        one(rt, alloc, name, plan)?;
    }
    Ok(())
}

// All runs.
pub(crate) fn run_all(rt: &impl Print, alloc: Global) -> io::Result<()> {
    every_size(rt, alloc, "4,096 records, 2 to 512 modules", LARGE)?;
    every_size(rt, alloc, "100 records filled, 2 to 40 modules", SMALL)?;
    one(
        rt,
        alloc,
        "4,096 records filled, 512 modules",
        filled(512, 12000),
    )?;
    one(
        rt,
        alloc,
        "4,096 records filled, 100 modules",
        filled(100, 26000),
    )?;
    every_size(
        rt,
        alloc,
        "stops again in other steps, 2 to 40 modules",
        AGAIN,
    )?;
    altered_runs(rt, alloc)
}
