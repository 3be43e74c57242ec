// Check of a sheet by both computations: sheets of solve changed in one place each, and every sheet of a small list.
use crate::changes::{Change, Sheet};
use crate::entries::digit;
use crate::search::PUSHED;
use crate::tally::Tally;
use crate::trials::Tried;
use crate::verdicts::units;
use numbers::Ratio;
use refusals::Refusal;
use std::alloc::{AllocError, Global};

// The answers are counted as accepted, refused by 7, by 8, by 9: the four places of a tally, which other answers have too (module `surpluses`).
fn kind(answer: Result<Ratio, Refusal>) -> u32 {
    match answer {
        Ok(_) => 0,
        Err(Refusal::BadMembers) => 1,
        Err(Refusal::ShareTooLarge) => 2,
        Err(_) => 3,
    }
}

// Check of one sheet, by both.
fn judge(tried: &Tried, sheet: Sheet, tally: &mut Tally) {
    let answer = tried.held.check(sheet);
    tally.compared.note(answer == tried.plain.check(sheet));
    tally.answered(kind(answer));
}

// Solves the list, changes the sheet at place i, and tries it.
fn try_change(
    change: Change,
    i: u32,
    tried: &Tried,
    alloc: Global,
    tally: &mut Tally,
) -> Result<(), AllocError> {
    let mut solved = tried.held.solve(PUSHED, alloc)?;
    let all = units(tried.plain.stops(i), solved.record.ratio.q);
    change.make(i, all, &mut solved.members, &mut solved.shares);
    judge(tried, solved.sheet(), tally);
    Ok(())
}

// A change at every place of a small sheet, and at every 170th of one of 512 modules.
pub(crate) fn try_changes(
    change: Change,
    tried: &Tried,
    alloc: Global,
    tally: &mut Tally,
) -> Result<(), AllocError> {
    let n = tried.plain.n;
    let apart = if n < 512 { 1 } else { 170 };
    let places = change.places(n, tried.plain.pair_count());
    for i in (0..places).step_by(apart) {
        try_change(change, i, tried, alloc, tally)?;
    }
    Ok(())
}

// Four bytes: the digits in base 3.
pub(crate) fn spell_bytes(code: u32) -> [u8; 4] {
    [0, 1, 2, 3].map(|i| u8::try_from(digit(code, 3, i)).unwrap_or(0))
}

// How many numbers stand for a sheet of 4 modules and m pairs, shares below `base`: 81 for the member bytes of each, and none above 110,000.
fn sheet_codes(base: u32, m: u32) -> u32 {
    let count = base.saturating_pow(m);
    if count < 1359 { 81 * count } else { 0 }
}

// Every sheet of a list of up to 4 modules, its shares below `base`.
pub(crate) fn try_sheets(base: u32, tried: &Tried, tally: &mut Tally) {
    for code in 0..sheet_codes(base, tried.plain.pair_count()) {
        let members = spell_bytes(code % 81);
        let shares = [0, 1, 2, 3].map(|i| digit(code / 81, base, i));
        let sheet = Sheet {
            members: &members,
            shares: &shares,
        };
        judge(tried, sheet, tally);
    }
}
