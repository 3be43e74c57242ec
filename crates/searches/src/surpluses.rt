// Surplus by both computations: of two sets of bytes of a small list, and of large groups around equal ratios.
use crate::checks::spell_bytes;
use crate::tally::Tally;
use crate::trials::Tried;
use model::front_mut;
use refusals::Refusal;
use std::cmp::Ordering;

// The answers are counted as above zero, zero, below zero, refused by 7, in the four places of a tally.
fn kind(answer: Result<i64, Refusal>) -> u32 {
    match answer.map(|value| value.cmp(&0)) {
        Ok(Ordering::Greater) => 0,
        Ok(Ordering::Equal) => 1,
        Ok(Ordering::Less) => 2,
        Err(_) => 3,
    }
}

// Surplus of two sets, by both.
fn weigh(tried: &Tried, first: &[u8], second: &[u8], tally: &mut Tally) {
    let answer = tried.held.surplus(first, second);
    tally
        .compared
        .note(answer == tried.plain.surplus(first, second));
    tally.answered(kind(answer));
}

// Every two sets of four bytes of 0 to 2: 81 for each set.
pub(crate) fn try_sets(tried: &Tried, tally: &mut Tally) {
    for code in 0..6561 {
        let first = spell_bytes(code % 81);
        let second = spell_bytes(code / 81);
        weigh(tried, &first, &second, tally);
    }
}

// The member bytes of the first so many modules.
fn first_modules(count: usize) -> [u8; 512] {
    let mut members = [0; 512];
    front_mut(&mut members, count).fill(1);
    members
}

// The groups of the first 224 to 289 modules and of all, each against the first `count`.
pub(crate) fn try_firsts(count: u32, tried: &Tried, tally: &mut Tally) {
    let second = first_modules(count as usize);
    for size in (224..290).chain([512]) {
        weigh(tried, &first_modules(size), &second, tally);
    }
}
