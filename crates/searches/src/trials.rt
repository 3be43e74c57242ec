// Trials: lists are drawn, read and asked for something, one after the other.
use crate::altered::{Altered, AlteredKit};
use crate::changes::Change;
use crate::checks::{try_changes, try_sheets};
use crate::draws::{Lists, Plan};
use crate::held::Held;
use crate::kitting::try_kits;
use crate::plain::Plain;
use crate::search::search;
use crate::surpluses::{try_firsts, try_sets};
use crate::tally::Tally;
use std::alloc::{AllocError, Global};

// What a list is asked for. (No Option or Result: no case says that there is none, or an error.)
#[derive(Clone, Copy)]
pub(crate) enum Asked {
    // Peel and solve, with one thing altered.
    Search(Option<Altered>),
    // Check of solve's sheet, with one change in one place.
    Changed(Change),
    // Check of every sheet of up to 4 modules: member bytes of 0 to 2, and shares below this, where those are no more than 110,000.
    Sheets(u32),
    // Surplus of every two sets of 4 bytes of 0 to 2.
    Sets,
    // Surplus of groups of 512 modules against the first so many.
    Firsts(u32),
    // The kit of each least size, with one thing altered.
    Kits(Option<AlteredKit>),
}

impl Asked {
    // What a number asks, and with what: of a search and of kits 0 alters nothing.
    pub(crate) fn numbered(asked: u32, with: u32) -> Option<Asked> {
        match asked {
            0 if with == 0 => Some(Asked::Search(None)),
            0 => Some(Asked::Search(Some(Altered::numbered(with)?))),
            1 => Some(Asked::Changed(Change::numbered(with)?)),
            2 => Some(Asked::Sheets(with)),
            3 => Some(Asked::Sets),
            4 => Some(Asked::Firsts(with)),
            5 if with == 0 => Some(Asked::Kits(None)),
            5 => Some(Asked::Kits(Some(AlteredKit::numbered(with)?))),
            _ => None,
        }
    }

    // Asks it of a list.
    fn ask(self, tried: &Tried, alloc: Global, tally: &mut Tally) -> Result<(), AllocError> {
        match self {
            Asked::Search(thing) => search(thing, tried, alloc, tally)?,
            Asked::Changed(change) => try_changes(change, tried, alloc, tally)?,
            Asked::Sheets(base) => try_sheets(base, tried, tally),
            Asked::Sets => try_sets(tried, tally),
            Asked::Firsts(count) => try_firsts(count, tried, tally),
            Asked::Kits(thing) => try_kits(thing, tried, alloc, tally)?,
        }
        Ok(())
    }
}

// A list that is tried, as the product and as the plain computations have it. (Apart from the tally, which is changed and outlives it.)
#[derive(Drop)]
pub(crate) struct Tried {
    pub(crate) held: Held,
    pub(crate) plain: Plain,
}

// The list of a pair file, where the reader takes it, with so many stops.
fn read(file: &[u8], stops: u32, alloc: Global) -> Result<Option<Tried>, AllocError> {
    let Ok(held) = Held::read(file) else {
        return Ok(None);
    };
    let plain = held.plain(alloc)?;
    if plain.inside(|_| true) == stops {
        Ok(Some(Tried { held, plain }))
    } else {
        Ok(None)
    }
}

// Draws a list, reads its file, and asks.
fn try_list(asked: Asked, plan: Plan, alloc: Global, tally: &mut Tally) -> Result<(), AllocError> {
    let drawn = plan.draw(&mut tally.random, alloc)?;
    let stops = drawn.inside(|_| true);
    tally.list(drawn.pair_count(), stops);
    match read(drawn.file(alloc)?.as_bytes(), stops, alloc)? {
        Some(tried) => asked.ask(&tried, alloc, tally)?,
        None => tally.unread(),
    }
    Ok(())
}

// All lists of a row.
pub(crate) fn try_lists(
    asked: Asked,
    lists: Lists,
    alloc: Global,
    tally: &mut Tally,
) -> Result<(), AllocError> {
    for i in 0..lists.count {
        try_list(asked, lists.plan(i), alloc, tally)?;
    }
    Ok(())
}
