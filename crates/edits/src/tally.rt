// What is counted in the runs of a line, and how it is printed.
use model::{Compared, raise, raise_at};
use refusals::Refusal;
use std::fmt;

// What an add shows besides its answer: the count comes to 1,000; a held pair is raised, or raised where no record is free; a refusal by 5 or 4 where 18 is due
// too, by 18 where 19 is, by 18 where 11 is.
#[derive(Clone, Copy)]
pub(crate) enum Shown {
    ToThousand,
    Raised,
    RaisedWhenFull,
    PairBeforeCount,
    CountBeforeSum,
    CountBeforeFull,
}

// Steps, those made by add_to or remove_from, lists compared, calls of place and those that say held, answers of each number, what adds show, what differs.
#[derive(Clone, Copy, Default)]
pub(crate) struct Tally {
    steps: u32,
    own: u32,
    lists: u32,
    places: u32,
    said_held: u32,
    answers: [u32; 20],
    raised: u32,
    raised_when_full: u32,
    to_thousand: u32,
    pair_before_count: u32,
    count_before_sum: u32,
    count_before_full: u32,
    pub(crate) compared: Compared,
}

impl Tally {
    // A step with this answer.
    pub(crate) fn step(&mut self, answer: Result<(), Refusal>) {
        raise(&mut self.steps, 1);
        raise_at(&mut self.answers, refusals::number(answer), 1);
    }

    // A step by add_to or remove_from, which is answered as is due or not.
    pub(crate) fn own_step(&mut self, same: bool) {
        self.compared.note(same);
        raise(&mut self.own, 1);
    }

    // A list compared, which is the same or not.
    pub(crate) fn list(&mut self, same: bool) {
        self.compared.note(same);
        raise(&mut self.lists, 1);
    }

    // A call of place, which says held or not, and is answered as is due or not.
    pub(crate) fn place(&mut self, same: bool, held: bool) {
        self.compared.note(same);
        raise(&mut self.places, 1);
        if held {
            raise(&mut self.said_held, 1);
        }
    }

    // What an add shows.
    pub(crate) fn show(&mut self, shown: Shown) {
        match shown {
            Shown::ToThousand => raise(&mut self.to_thousand, 1),
            Shown::Raised => raise(&mut self.raised, 1),
            Shown::RaisedWhenFull => raise(&mut self.raised_when_full, 1),
            Shown::PairBeforeCount => raise(&mut self.pair_before_count, 1),
            Shown::CountBeforeSum => raise(&mut self.count_before_sum, 1),
            Shown::CountBeforeFull => raise(&mut self.count_before_full, 1),
        }
    }

    // How many answers had this number.
    fn answered(&self, number: usize) -> u32 {
        self.answers.get(number).copied().unwrap_or(0)
    }
}

impl fmt::Display for Tally {
    fn fmt<W: fmt::Write>(&self, f: &mut fmt::Formatter<W>) -> fmt::Result {
        write!(
            f,
            "steps={} own={} lists={}",
            self.steps, self.own, self.lists
        )?;
        write!(f, " places={} held={}", self.places, self.said_held)?;
        write!(f, " done={}", self.answered(0))?;
        for number in [4usize, 5, 11, 13, 14, 18, 19] {
            write!(f, " {number}={}", self.answered(number))?;
        }
        write!(
            f,
            " raised={} raised when full={}",
            self.raised, self.raised_when_full
        )?;
        write!(f, " to 1,000={}", self.to_thousand)?;
        write!(f, " 5 or 4 before 18={}", self.pair_before_count)?;
        write!(f, " 18 before 19={}", self.count_before_sum)?;
        write!(
            f,
            " 18 before 11={} differ={}",
            self.count_before_full, self.compared.differ
        )
    }
}
