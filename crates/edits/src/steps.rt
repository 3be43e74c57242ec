// A step of add or remove, on the plain model and on the list. The answer must be the model's number and head; the records, with their counts, are compared
// with the model's in rising order, and those past them with what they were before (0,0,0 for one that remove has freed). On lists of 100 records the step is
// made by add_to or remove_from too, on a second list.
use crate::draws::{Ask, Change};
use crate::tally::Tally;
use crate::{answers, draws, places};
use kandurzo::Changed;
use model::{Random, Stops, litter};
use records::{Head, Pair};
use refusals::Refusal;
use std::alloc::{AllocError, Global};

// What is altered before it is compared: the number, the number of pairs, the last record's second module or its stop count, the number of add_to and
// remove_from; place's number, whether held, and the place; the first stop count of those added again.
#[derive(Clone, Copy, PartialEq, Eq)]
pub(crate) enum Altered {
    Number,
    PairCount,
    Records,
    OwnNumber,
    PlaceNumber,
    Held,
    Place,
    StopCount,
    AddedAgain,
}

// How a run goes: modules, records of the list, whether there is a second list, steps of adds alone, steps of both, every how many steps the records are
// compared, how many steps are drawn when the same stops are added again in other steps (None: they are not), and what is altered.
#[derive(Clone, Copy)]
pub(crate) struct Plan {
    pub(crate) n: u32,
    pub(crate) len: u16,
    pub(crate) has_own: bool,
    pub(crate) adds: u32,
    pub(crate) mixed: u32,
    pub(crate) every: u32,
    pub(crate) again: Option<u32>,
    pub(crate) altered: Option<Altered>,
}

impl Plan {
    // x, and one more where that is what is altered.
    pub(crate) fn altered(&self, what: Altered, x: u32) -> u32 {
        x.wrapping_add(u32::from(self.altered == Some(what)))
    }
}

// A second list and its head, which add_to and remove_from change.
#[derive(Drop)]
pub(crate) struct Own {
    pub(crate) head: Head,
    pub(crate) list: Vec<Pair>,
}

impl Own {
    // A list without pairs.
    pub(crate) fn new(head: Head, len: u16, alloc: Global) -> Result<Own, AllocError> {
        let list = litter(alloc, len, 1001)?;
        Ok(Own { head, list })
    }

    // The call on them.
    fn call(&mut self, ask: Ask) -> u32 {
        let Ask { a, b, change } = ask;
        let list = self.list.as_mut_slice();
        match change {
            Change::Add(w) => kandurzo::add_to(&mut self.head, list, a, b, w),
            Change::Remove => kandurzo::remove_from(&mut self.head, list, a, b),
        }
    }
}

// Where a run stands: the list, the second list if there is one, the records due, the model, the random numbers, and what was counted.
#[derive(Drop)]
pub(crate) struct Run {
    pub(crate) plan: Plan,
    pub(crate) head: Head,
    pub(crate) list: Vec<Pair>,
    pub(crate) own: Option<Own>,
    pub(crate) due: Vec<Pair>,
    pub(crate) model: Stops,
    pub(crate) random: Random,
    pub(crate) tally: Tally,
}

// The model's step, which it takes. Stops are added to the count of a held pair; a record that remove frees is 0,0,0. There is no From of u32 for usize.
pub(crate) fn modelled(run: &mut Run, ask: Ask) -> Result<(), AllocError> {
    let Ask { a, b, change } = ask;
    if let Change::Add(w) = change {
        let x = run.model.count(a, b);
        return run.model.put(a, b, x.saturating_add(w));
    }
    run.model.take(a, b);
    if let Some(freed) = run.due.get_mut(run.model.pairs() as usize) {
        *freed = Pair::default();
    }
    Ok(())
}

// The head of the model.
pub(crate) fn model_head(run: &Run) -> Head {
    Head {
        n: run.plan.n,
        m: run.model.pairs(),
    }
}

// The call by value.
fn call(run: &mut Run, ask: Ask) -> Changed {
    let Ask { a, b, change } = ask;
    let list = run.list.as_mut_slice();
    match change {
        Change::Add(w) => kandurzo::add(run.head, list, a, b, w),
        Change::Remove => kandurzo::remove(run.head, list, a, b),
    }
}

// The second call where there is a second list, whose answer must be this one with such a head.
pub(crate) fn own_step(run: &mut Run, ask: Ask, answer: Result<(), Refusal>, due: Head) {
    if let Some(own) = &mut run.own {
        let number = run.plan.altered(Altered::OwnNumber, own.call(ask));
        let same = number == refusals::number(answer) && own.head == due;
        run.tally.own_step(same);
    }
}

// Both calls: the answers must be this one with such a head.
pub(crate) fn made(run: &mut Run, ask: Ask, answer: Result<(), Refusal>, due: Head) {
    let changed = call(run, ask);
    let number = run.plan.altered(Altered::Number, changed.number);
    let m = run.plan.altered(Altered::PairCount, changed.head.m);
    run.head = changed.head;
    let same = (number, changed.head.n, m) == (refusals::number(answer), due.n, due.m);
    run.tally.compared.note(same);
    run.tally.step(answer);
    own_step(run, ask, answer, due);
}

// Compares one list with the records due, or both.
pub(crate) fn compare_all(run: &mut Run) {
    let same = run.list.as_slice() == run.due.as_slice();
    run.tally.list(same);
    if let Some(own) = &run.own {
        let same = own.list.as_slice() == run.due.as_slice();
        run.tally.list(same);
    }
}

// Alters record 99 of those due where that is what is altered.
fn alter(run: &mut Run) {
    let Some(last) = run.due.get_mut(99) else {
        return;
    };
    match run.plan.altered {
        Some(Altered::Records) => last.b = last.b.wrapping_add(1),
        Some(Altered::StopCount) => last.w = last.w.wrapping_add(1),
        _ => (),
    }
}

// Compares the records with the model's, held ones and those past them.
pub(crate) fn look(run: &mut Run) {
    run.model.write(run.due.as_mut_slice());
    alter(run);
    compare_all(run);
}

// A step, on the model and on the list.
fn step(run: &mut Run, mixed: bool) -> Result<(), AllocError> {
    let drawn = run.random.draw();
    let ask = draws::drawn(run, !mixed || drawn % 4 < 2);
    places::before_step(run, ask);
    let answer = answers::of_step(run, ask);
    if let Some(shown) = answers::shown(run, ask, answer) {
        run.tally.show(shown);
    }
    if answer.is_ok() {
        modelled(run, ask)?;
    }
    let due = model_head(run);
    made(run, ask, answer, due);
    Ok(())
}

// So many steps; the records are compared at every so many of them.
pub(crate) fn go(run: &mut Run, many: u32, mixed: bool) -> Result<(), AllocError> {
    for i in 0..many {
        step(run, mixed)?;
        if i.checked_rem(run.plan.every) == Some(0) {
            look(run);
        }
    }
    Ok(())
}
