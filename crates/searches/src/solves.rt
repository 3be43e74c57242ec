// Solve's answer beside the plain computations, its sheet put to check, and one answer beside another.
use crate::altered::Altered;
use crate::changes::Sheet;
use crate::entries::put;
use crate::sets::Set;
use crate::trials::Tried;
use crate::verdicts::units;
use densest::Solution;
use model::{raise, raise_at, reaching, rounded_up};

// The found group's member bytes, core numbers, shares, and the record.
#[derive(Drop)]
pub(crate) struct Solved {
    pub(crate) members: Vec<u8>,
    pub(crate) cores: Vec<u32>,
    pub(crate) shares: Vec<u32>,
    pub(crate) record: Solution,
}

// What it is compared with: the densest set, where all are counted, and the core numbers.
#[derive(Clone, Copy)]
pub(crate) struct Due<'a> {
    pub(crate) best: Option<Set>,
    pub(crate) cores: &'a [u32],
}

// The first byte becomes 1 where it is 0, else 0.
pub(crate) fn other_byte(members: &mut [u8]) {
    if let Some(byte) = members.first_mut() {
        *byte = u8::from(*byte == 0);
    }
}

impl Solved {
    // The sheet.
    pub(crate) fn sheet(&self) -> Sheet<'_> {
        Sheet {
            members: &self.members,
            shares: &self.shares,
        }
    }

    // One thing altered; a pair that counts w times comes first.
    pub(crate) fn alter(&mut self, thing: Altered, w: u32) {
        let all = units(w, self.record.ratio.q);
        match thing {
            Altered::Member => other_byte(&mut self.members),
            Altered::Inside => raise(&mut self.record.ratio.p, 1),
            Altered::Size => raise(&mut self.record.ratio.q, 1),
            Altered::K => raise(&mut self.record.k, 1),
            Altered::CoreSize => raise(&mut self.record.core, 1),
            Altered::CoreNumber => raise_at(&mut self.cores, 0, 1),
            Altered::Share => put(&mut self.shares, 0, all.saturating_add(1)),
            _ => {}
        }
    }

    // Whether the group is the densest of all sets, of equals the largest, with its inside count and size. Sets are counted of up to 12 modules; check counts
    // the inside count and the size of any group.
    fn group_is_right(&self, due: Due) -> bool {
        due.best.is_none_or(|best| self.record.ratio == best.ratio && best.is_of(&self.members))
    }

    // Whether the core numbers are the plain ones, K is P over Q rounded up, and the core's size that of the core of order K.
    fn cores_are_right(&self, due: Due) -> bool {
        let Solution { ratio, k, core, .. } = self.record;
        self.cores.as_slice() == due.cores
            && k == rounded_up(ratio.p, ratio.q)
            && core as usize == reaching(due.cores, k)
    }

    // Whether the answer is right: group and core numbers, and check accepts the sheet and counts the same P and Q.
    pub(crate) fn is_right(&self, tried: &Tried, due: Due) -> bool {
        self.group_is_right(due)
            && self.cores_are_right(due)
            && tried.held.check(self.sheet()) == Ok(self.record.ratio)
    }

    // Whether another answer names the same group and record; their sheets may differ.
    pub(crate) fn names_same(&self, other: &Solved) -> bool {
        let mine = self.record;
        let others = other.record;
        self.members == other.members
            && (mine.ratio, mine.k, mine.core) == (others.ratio, others.k, others.core)
    }
}
