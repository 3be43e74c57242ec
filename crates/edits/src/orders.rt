// The stops of a list added again, in another order and in other steps: parts of the stops of records by chance, at the end what is left from the last record
// to the first. Head and held records must be those of the list itself. The calls are add_to, on the second list, which holds no pairs at first.
use crate::draws::{Ask, Change, asked, listed};
use crate::steps::{Altered, Own, Run};
use crate::{answers, steps};
use model::{below, front};
use records::Head;
use std::alloc::{AllocError, Global};

// Takes the pairs of the list's held records out of the model. There is no From of u32 for usize.
fn take_out(run: &mut Run) {
    for pair in front(run.list.as_slice(), run.head.m as usize) {
        run.model.take(u32::from(pair.a), u32::from(pair.b));
    }
}

// How many stops of a record are added in a step.
#[derive(Clone, Copy)]
enum Part {
    Some,
    Rest,
}

// The next step for record j: so many of the stops that the second list has not, by chance, or all; none where it has all.
fn lacking(run: &Run, j: u32, part: Part, drawn: u32) -> Option<Ask> {
    let (a, b, w) = listed(run, j)?;
    let lacks = w.saturating_sub(run.model.count(a, b));
    let added = match part {
        Part::Some => below(drawn, lacks).saturating_add(1),
        Part::Rest => lacks,
    };
    (lacks != 0).then_some(asked(Change::Add(added), a, b, drawn))
}

// That step, on the model and by add_to.
fn add_part(run: &mut Run, j: u32, part: Part) -> Result<(), AllocError> {
    let drawn = run.random.draw();
    let Some(ask) = lacking(run, j, part, drawn) else {
        return Ok(());
    };
    let answer = answers::of_step(run, ask);
    if answer.is_ok() {
        steps::modelled(run, ask)?;
    }
    let due = steps::model_head(run);
    steps::own_step(run, ask, answer, due);
    Ok(())
}

// All steps: those drawn, so many, and those that add what is left.
fn add_all(run: &mut Run, many: u32) -> Result<(), AllocError> {
    let m = run.head.m;
    for _ in 0..many {
        let j = below(run.random.last, m);
        add_part(run, j, Part::Some)?;
    }
    for j in (0..m).rev() {
        add_part(run, j, Part::Rest)?;
    }
    Ok(())
}

// Alters the first count where that is what is altered.
fn alter(run: &mut Run) {
    if run.plan.altered == Some(Altered::AddedAgain)
        && let Some(own) = &mut run.own
        && let Some(first) = own.list.get_mut(0)
    {
        first.w = first.w.wrapping_add(1);
    }
}

// Compares heads and held records. There is no From of u32 for usize.
fn compare(run: &mut Run) {
    alter(run);
    let Some(own) = &run.own else {
        return;
    };
    run.tally.compared.note(own.head == run.head);
    let m = run.head.m as usize;
    let same = front(run.list.as_slice(), m) == front(own.list.as_slice(), m);
    run.tally.list(same);
}

// All of it, on the list of a run, where the plan has it.
pub(crate) fn again(run: &mut Run, alloc: Global) -> Result<(), AllocError> {
    let Some(many) = run.plan.again else {
        return Ok(());
    };
    take_out(run);
    let head = Head {
        n: run.plan.n,
        m: 0,
    };
    run.own = Some(Own::new(head, run.plan.len, alloc)?);
    add_all(run, many)?;
    compare(run);
    Ok(())
}
