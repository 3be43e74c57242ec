// What is counted of the files of a line, and how it is printed.
use model::{Compared, raise, raise_at};
use records::Head;
use refusals::Refusal;
use std::fmt;

// Files, comments in them, pairs of those taken, answers of each number, and what differs.
#[derive(Clone, Copy, Default)]
pub(crate) struct Tally {
    files: u32,
    comments: u32,
    pairs: u32,
    answers: [u32; 20],
    pub(crate) compared: Compared,
}

impl Tally {
    // A file with so many comments, for which this answer and head are due.
    pub(crate) fn file(&mut self, comments: u32, answer: Result<(), Refusal>, head: Head) {
        raise(&mut self.files, 1);
        raise(&mut self.comments, comments);
        raise(&mut self.pairs, head.m);
        raise_at(&mut self.answers, refusals::number(answer), 1);
    }
}

impl fmt::Display for Tally {
    fn fmt<W: fmt::Write>(&self, f: &mut fmt::Formatter<W>) -> fmt::Result {
        let taken = self.answers[0];
        write!(f, "files={} comments={}", self.files, self.comments)?;
        write!(f, " taken={taken} pairs={}", self.pairs)?;
        for (number, &count) in self.answers.iter().enumerate().skip(1) {
            if count != 0 {
                write!(f, " {number}={count}")?;
            }
        }
        write!(f, " differ={}", self.compared.differ)
    }
}
