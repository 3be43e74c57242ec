// read and read_dimacs: lists are drawn, and their files read as they are and in ways that are refused, into a list of numbers that are no module's and no
// count. The answer must be the number due and the head, the records those of the model in rising order with their counts, and all others as before;
// after 12 the work buffer must be as before, else 16,384 zeros. Prints a line a kind of list: files, comments in them, answers of each number, pairs of the
// files taken, and how many differ. Then lines with something altered.
use crate::draws;
use crate::plans::{Altered, Form, Plan, counted, full, lists};
use crate::tally::Tally;
use crate::ways::{WAYS, Way};
use kandurzo::Changed;
use model::{Random, Stops, front_mut, litter, occurrences};
use records::{Head, Pair};
use refusals::Refusal;
use std::alloc::{AllocError, Global};
use std::io;

// The records due: the model's in the place of the first, or all as before.
fn records_due(
    plan: Plan,
    way: Way,
    stops: &Stops,
    alloc: Global,
) -> Result<Vec<Pair>, AllocError> {
    let mut due = litter(alloc, plan.len, 60000)?;
    if way == Way::Sound {
        stops.write(due.as_mut_slice());
    }
    if plan.alters(Altered::FirstCount)
        && let Some(first) = due.get_mut(0)
    {
        first.w = first.w.wrapping_add(1);
    }
    Ok(due)
}

// Compares the answer with what is due.
fn compare_answer(
    plan: Plan,
    answer: Result<(), Refusal>,
    due: Head,
    given: Changed,
    tally: &mut Tally,
) {
    let more = u32::from(plan.alters(Altered::Number));
    tally.compared.note(given.number.wrapping_add(more) == refusals::number(answer));
    let more = u32::from(plan.alters(Altered::PairCount));
    let m = given.head.m.wrapping_add(more);
    tally.compared.note(Head { m, ..given.head } == due);
}

// Compares all records of the list with those due, and their counts.
fn compare_records(plan: Plan, list: &[Pair], due: &[Pair], tally: &mut Tally) {
    let ends = list
        .iter()
        .zip(due.iter())
        .all(|(x, y)| (x.a, x.b) == (y.a, y.b));
    let counts = list.iter().zip(due.iter()).all(|(x, y)| x.w == y.w);
    tally.compared.note(ends && !plan.alters(Altered::Records));
    tally.compared.note(counts);
}

// Compares the work buffer: as before after 12, else 16,384 zeros, and 16 words as before.
fn compare_work(plan: Plan, way: Way, work: &[u32], tally: &mut Tally) {
    let zeros = occurrences(work, 0);
    let kept = occurrences(work, 7);
    let due = if way == Way::ShortWork {
        (0, 16400)
    } else {
        (16384, 16)
    };
    tally
        .compared
        .note((zeros, kept) == due && !plan.alters(Altered::Work));
}

// A list, in one way: its file is read, and what comes out is compared.
fn one_way(
    plan: Plan,
    way: Way,
    seed: Random,
    alloc: Global,
    tally: &mut Tally,
) -> Result<(), AllocError> {
    let mut stops = draws::fill(plan, seed, alloc)?;
    if stops.pairs() == 0 && way.needs_pair() {
        return Ok(());
    }
    let answer = way.due(plan);
    let head = way.head_due(plan, stops.pairs());
    let due = records_due(plan, way, &stops, alloc)?;
    let file = draws::make(plan, way, seed, &mut stops, alloc)?;
    let mut list = litter(alloc, plan.len, 60000)?;
    let mut work = [7u32; 16400];
    let lent = front_mut(&mut work, way.work());
    let given = plan
        .form
        .read(file.text.as_bytes(), list.as_mut_slice(), lent);
    compare_answer(plan, answer, head, given, tally);
    compare_records(plan, list.as_slice(), due.as_slice(), tally);
    compare_work(plan, way, &work, tally);
    tally.file(file.comments, answer, head);
    Ok(())
}

// A list, in every way.
fn every_way(plan: Plan, alloc: Global, tally: &mut Tally) -> Result<(), AllocError> {
    let seed = Random {
        last: plan.n.wrapping_add(2463534242),
    };
    for &way in WAYS.iter().take(plan.ways) {
        one_way(plan, way, seed, alloc, tally)?;
    }
    Ok(())
}

// The plan at every number of modules up to its own, from 2 on, that is so many times one.
fn every_size(
    rt: &impl Print,
    alloc: Global,
    name: &str,
    plan: Plan,
    apart: u32,
) -> io::Result<()> {
    let mut tally = Tally::default();
    for n in 2..=plan.n {
        if n.checked_rem(apart) == Some(0) {
            every_way(Plan { n, ..plan }, alloc, &mut tally)?;
        }
    }
    println!(rt; "{name}: {tally}")
}

// One list.
fn one(rt: &impl Print, alloc: Global, name: &str, plan: Plan) -> io::Result<()> {
    every_size(rt, alloc, name, plan, plan.n)
}

// Lists read from pair files.
fn pair_files(rt: &impl Print, alloc: Global) -> io::Result<()> {
    let name = "read, 100 records, 2 to 60 modules, counts 1 to 9";
    every_size(rt, alloc, name, counted(60, 100, 150, 9), 1)?;
    let name = "read, 4,096 records, 16 to 512 modules, counts 1 to 1,000";
    every_size(rt, alloc, name, counted(512, 4096, 40, 1000), 16)?;
    let filled = Plan {
        top: 1000,
        form: Form::Counted,
        ..full(512)
    };
    let name = "read, 4,096 records filled, 512 modules, counts 1 to 1,000";
    one(rt, alloc, name, filled)?;
    let altered = Plan {
        altered: Some(Altered::FirstCount),
        ..counted(20, 100, 60, 1000)
    };
    one(rt, alloc, "read, count due altered", altered)
}

// Lists read from DIMACS files.
fn edge_files(rt: &impl Print, alloc: Global) -> io::Result<()> {
    let name = "read_dimacs, 100 records, 2 to 60 modules";
    every_size(rt, alloc, name, lists(60, 100, 150), 1)?;
    let name = "read_dimacs, 4,096 records, 16 to 512 modules";
    every_size(rt, alloc, name, lists(512, 4096, 40), 16)?;
    let name = "read_dimacs, 4,096 records, 512 modules";
    one(rt, alloc, name, lists(512, 4096, 1000))?;
    let name = "read_dimacs, 4,096 records filled, 512 modules";
    one(rt, alloc, name, full(512))?;
    let name = "read_dimacs, 4,096 records filled, 100 modules";
    one(rt, alloc, name, full(100))
}

// DIMACS files with each thing altered before it is compared.
fn altered_runs(rt: &impl Print, alloc: Global) -> io::Result<()> {
    let things = [
        ("number", Altered::Number),
        ("number of pairs", Altered::PairCount),
        ("records", Altered::Records),
        ("work", Altered::Work),
        ("count due", Altered::FirstCount),
    ];
    for (name, altered) in things {
        let plan = Plan {
            altered: Some(altered),
            ..lists(20, 100, 60)
        };
        let mut tally = Tally::default();
        every_way(plan, alloc, &mut tally)?;
        println!(rt; "read_dimacs, {name} altered: {tally}")?;
    }
    Ok(())
}

// All lists.
pub(crate) fn run(rt: &impl Print, alloc: Global) -> io::Result<()> {
    pair_files(rt, alloc)?;
    edge_files(rt, alloc)?;
    altered_runs(rt, alloc)
}
