// What add and remove answer by the plain model, and what an add shows besides.
use crate::draws::{Ask, Change};
use crate::steps::Run;
use crate::tally::Shown;
use refusals::Refusal;

// What is wrong with the modules of a pair: 5 a module with itself, 4 a module number of N or more.
pub(crate) fn of_pair(n: u32, ask: Ask) -> Result<(), Refusal> {
    if ask.a == ask.b {
        return Err(Refusal::PairedWithItself);
    }
    if n <= ask.a.max(ask.b) {
        return Err(Refusal::UnknownModule);
    }
    Ok(())
}

// Whether w is a number of stops.
fn is_count(w: u32) -> bool {
    (1..=1000).contains(&w)
}

// Whether a count of x is more than 1,000 with w more.
fn passes(x: u32, w: u32) -> bool {
    1000u32.saturating_sub(x) < w
}

// Whether as many pairs are held as there are records.
fn is_full(run: &Run) -> bool {
    run.model.pairs() == u32::from(run.plan.len)
}

// What add answers of w stops for a pair whose count is x.
fn of_add(x: u32, w: u32, full: bool) -> Result<(), Refusal> {
    if !is_count(w) {
        return Err(Refusal::BadStopCount);
    }
    if passes(x, w) {
        return Err(Refusal::TooManyStops);
    }
    if x == 0 && full {
        return Err(Refusal::ListFull);
    }
    Ok(())
}

// What a step answers.
pub(crate) fn of_step(run: &Run, ask: Ask) -> Result<(), Refusal> {
    of_pair(run.plan.n, ask)?;
    let x = run.model.count(ask.a, ask.b);
    match ask.change {
        Change::Add(w) => of_add(x, w, is_full(run)),
        Change::Remove if x == 0 => Err(Refusal::NotHeld),
        Change::Remove => Ok(()),
    }
}

// What an add that is taken shows, of a pair whose count is x.
fn taken_shows(x: u32, w: u32, full: bool) -> Option<Shown> {
    if x.saturating_add(w) == 1000 {
        return Some(Shown::ToThousand);
    }
    match (x, full) {
        (0, _) => None,
        (_, true) => Some(Shown::RaisedWhenFull),
        (_, false) => Some(Shown::Raised),
    }
}

// What one shows that is refused though its number of stops alone is a cause.
fn refused_shows(refusal: Refusal, x: u32, w: u32, full: bool) -> Option<Shown> {
    if refusal != Refusal::BadStopCount {
        return Some(Shown::PairBeforeCount);
    }
    if x == 0 && full {
        return Some(Shown::CountBeforeFull);
    }
    if x != 0 && passes(x, w) {
        return Some(Shown::CountBeforeSum);
    }
    None
}

// What a step with this answer shows besides.
pub(crate) fn shown(run: &Run, ask: Ask, answer: Result<(), Refusal>) -> Option<Shown> {
    let Change::Add(w) = ask.change else {
        return None;
    };
    let x = run.model.count(ask.a, ask.b);
    let full = is_full(run);
    match answer {
        Ok(()) => taken_shows(x, w, full),
        Err(_) if is_count(w) => None,
        Err(refusal) => refused_shows(refusal, x, w, full),
    }
}
