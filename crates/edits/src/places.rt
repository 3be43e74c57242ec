// Where the pair of a step stands: place is asked before the step is made. Its number must be the model's; the pair is held where the model has it, and its
// place is how many records of the list are smaller, counted one by one. Beside a refusal both are 0.
use crate::answers;
use crate::draws::Ask;
use crate::steps::{Altered, Plan, Run};
use kandurzo::Placed;
use model::front;
use refusals::Refusal;

// How many of the list's records are smaller than the pair. There is no From of u32 for usize.
fn smaller_ones(run: &Run, a: u32, b: u32) -> u32 {
    let pair = (a.min(b), a.max(b));
    let smaller = front(run.list.as_slice(), run.head.m as usize)
        .iter()
        .filter(|p| (u32::from(p.a), u32::from(p.b)) < pair)
        .count();
    u32::try_from(smaller).unwrap_or(u32::MAX)
}

// The answer that is due. It is put together here, and not by the From of `Placed`, since that is the product's and is tried too.
fn due(run: &Run, ask: Ask, answer: Result<(), Refusal>) -> Placed {
    match answer {
        Ok(()) => Placed {
            number: 0,
            held: u32::from(run.model.count(ask.a, ask.b) != 0),
            at: smaller_ones(run, ask.a, ask.b),
        },
        Err(refusal) => Placed {
            number: u32::from(refusal),
            held: 0,
            at: 0,
        },
    }
}

// Whether an answer is the one that is due.
fn is_same(plan: Plan, answer: Placed, due: Placed) -> bool {
    let number = plan.altered(Altered::PlaceNumber, answer.number);
    let held = plan.altered(Altered::Held, answer.held);
    let at = plan.altered(Altered::Place, answer.at);
    (number, held, at) == (due.number, due.held, due.at)
}

// Asks place, which must answer so, and compares.
pub(crate) fn asked(run: &mut Run, ask: Ask, answer: Result<(), Refusal>) {
    let due = due(run, ask, answer);
    let placed = kandurzo::place(run.head, run.list.as_slice(), ask.a, ask.b);
    let same = is_same(run.plan, placed, due);
    run.tally.place(same, placed.held == 1);
}

// The same before a step, where head and list agree.
pub(crate) fn before_step(run: &mut Run, ask: Ask) {
    let answer = answers::of_pair(run.plan.n, ask);
    asked(run, ask, answer);
}
