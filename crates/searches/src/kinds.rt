// Which pairs the lists have, and how many stops.
use crate::entries::digit;

// A pair that a list takes or not: a below b, with so many others before it in rising order.
#[derive(Clone, Copy)]
pub(crate) struct Candidate {
    pub(crate) a: u32,
    pub(crate) b: u32,
    pub(crate) passed: u32,
}

// A kind of list. (No Option or Result: no case says that there is none, or an error.)
#[derive(Clone, Copy)]
pub(crate) enum Kind {
    // The pairs of the bits of the list's number, bit 0 for the first pair of all.
    Bits,
    // Each pair 1, 2, .. 15 times of 16, for 40 lists each.
    Chance,
    // All pairs of the first so many modules (a planted clique), and each other pair so many times of 65,536.
    Planted(u32, u32),
    // Each module with the next so many.
    Band(u32),
    // The same on a ring, a cycle where it is 1.
    Ring(u32),
    // Module 0 with all others.
    Star,
    // Separate cliques of so many modules.
    Cliques(u32),
    // A clique of so many modules, and each other module v hung on v / 2.
    Hung(u32),
    // The pairs whose digits of the list's number in base 4 are not 0, the last digit for the first pair of all. The digit is the stop count.
    Digits,
}

impl Kind {
    // The kind of a number, with its two numbers: those of the table on standard input.
    pub(crate) fn numbered(kind: u32, x: u32, y: u32) -> Option<Kind> {
        match kind {
            0 => Some(Kind::Bits),
            1 => Some(Kind::Chance),
            2 => Some(Kind::Planted(x, y)),
            3 => Some(Kind::Band(x)),
            4 => Some(Kind::Ring(x)),
            5 => Some(Kind::Star),
            6 => Some(Kind::Cliques(x)),
            7 => Some(Kind::Hung(x)),
            8 => Some(Kind::Digits),
            _ => None,
        }
    }

    // Whether list i, of n modules, takes a pair, with a draw of 0 to 65,535.
    pub(crate) fn takes(self, i: u32, n: u32, pair: Candidate, draw: u32) -> bool {
        let Candidate { a, b, passed } = pair;
        let apart = b.abs_diff(a);
        match self {
            Kind::Bits => digit(i, 2, passed) == 1,
            Kind::Chance => draw < 4096 * (1 + i / 40 % 15),
            Kind::Planted(first, times) => b < first || draw < times,
            Kind::Band(next) => apart <= next,
            Kind::Ring(next) => apart <= next || n.abs_diff(apart) <= next,
            Kind::Star => a == 0,
            Kind::Cliques(size) => size != 0 && a / size == b / size,
            Kind::Hung(first) => b < first || a == b / 2,
            Kind::Digits => digit(i, 4, passed) != 0,
        }
    }
}

// Which stop counts pairs have. (No Option, as above.)
#[derive(Clone, Copy)]
pub(crate) enum Counts {
    // 1,000.
    Thousand,
    // From 1 to so many.
    Upto(u32),
    // 1 or 1,000.
    OneOrThousand,
    // 1,000 for the pair 0,1, which no other stands before, and 1 for the others.
    FirstHeavy,
}

impl Counts {
    // The counts of a number: so many at most, or 0, 1,001 and 1,002.
    pub(crate) fn numbered(counts: u32) -> Option<Counts> {
        match counts {
            0 => Some(Counts::Thousand),
            1..=1000 => Some(Counts::Upto(counts)),
            1001 => Some(Counts::OneOrThousand),
            1002 => Some(Counts::FirstHeavy),
            _ => None,
        }
    }

    // The stop count of a pair, with a draw of 0 to 65,535.
    pub(crate) fn stops(self, pair: Candidate, draw: u32) -> u32 {
        match self {
            Counts::Thousand => 1000,
            Counts::Upto(most) => draw.checked_rem(most).unwrap_or(0).saturating_add(1),
            Counts::OneOrThousand => 1 + draw % 2 * 999,
            Counts::FirstHeavy => { if pair.passed == 0 { 1000 } else { 1 } }
        }
    }
}
