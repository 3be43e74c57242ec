// How the steps are drawn: pairs of the list and others, in either order, some with numbers out of range or a module with itself; mostly a few stops, and
// numbers of stops at every bound.
use crate::steps::Run;
use model::below;

// What a step does with a pair: it adds so many stops, or takes it out. (No Option: None would not say that the pair is taken out.)
#[derive(Clone, Copy)]
pub(crate) enum Change {
    Add(u32),
    Remove,
}

// A step: the pair, in the order in which it is named, and what is done with it.
#[derive(Clone, Copy)]
pub(crate) struct Ask {
    pub(crate) a: u32,
    pub(crate) b: u32,
    pub(crate) change: Change,
}

// A module number, or n, or one time in 64 any number.
fn drawn_end(n: u32, drawn: u32) -> u32 {
    if drawn % 64 == 0 {
        drawn
    } else {
        below(drawn, n.saturating_add(1))
    }
}

// A number of stops outside 1 to 1,000: 0, 1,001, the greatest of all, or 1 to 9 in the lower 16 bits.
fn outside(drawn: u32, few: u32) -> u32 {
    match drawn / 16 % 4 {
        0 => 0,
        1 => 1001,
        2 => u32::MAX,
        _ => few.saturating_add(65536),
    }
}

// The stops for a pair whose count is x. Of sixteen times: two outside 1 to 1,000, one that makes the count 1,000, one that makes it 1,001, one 1,000; else
// 1 to 9.
fn drawn_stops(x: u32, drawn: u32) -> u32 {
    let few = below(drawn, 9).saturating_add(1);
    match drawn % 16 {
        0 | 8 => outside(drawn, few),
        1 => 1000u32.wrapping_sub(x),
        2 => 1001u32.wrapping_sub(x),
        3 => 1000,
        _ => few,
    }
}

// The step for a and b, in either order.
pub(crate) fn asked(change: Change, a: u32, b: u32, drawn: u32) -> Ask {
    let (a, b) = if drawn / 256 % 2 == 0 { (a, b) } else { (b, a) };
    Ask { a, b, change }
}

// Record j of the list: its modules and its count. There is no From of u32 for usize.
pub(crate) fn listed(run: &Run, j: u32) -> Option<(u32, u32, u32)> {
    let pair = run.list.get(j as usize)?;
    Some((u32::from(pair.a), u32::from(pair.b), u32::from(pair.w)))
}

// A step that adds, or one that removes: a pair of the list one time in two, else any.
pub(crate) fn drawn(run: &mut Run, adds: bool) -> Ask {
    let first = run.random.draw();
    let second = run.random.draw();
    let third = run.random.draw();
    let fourth = run.random.draw();
    let n = run.plan.n;
    let (a, b) = match listed(run, below(second, run.model.pairs())) {
        Some((a, b, _)) if first % 2 == 0 => (a, b),
        _ => (drawn_end(n, second), drawn_end(n, third)),
    };
    let change = if adds {
        Change::Add(drawn_stops(run.model.count(a, b), fourth))
    } else {
        Change::Remove
    };
    asked(change, a, b, fourth)
}
