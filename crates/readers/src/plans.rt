// How lists are drawn and read.
use kandurzo::Changed;
use records::Pair;

// What is altered before it is compared: the number, the number of pairs, the records, the work buffer, the first count due.
#[derive(Clone, Copy, PartialEq, Eq)]
pub(crate) enum Altered {
    Number,
    PairCount,
    Records,
    Work,
    FirstCount,
}

// A pair file, which has counts, or a DIMACS file, which has comments.
#[derive(Clone, Copy, PartialEq, Eq)]
pub(crate) enum Form {
    Counted,
    Dimacs,
}

impl Form {
    // The call that reads it.
    pub(crate) fn read(self, file: &[u8], list: &mut [Pair], work: &mut [u32]) -> Changed {
        match self {
            Form::Counted => kandurzo::read(file, list, work),
            Form::Dimacs => kandurzo::read_dimacs(file, list, work),
        }
    }
}

// Modules, records of the list, draws, pairs at most, the greatest count, the form of the files, in how many ways they are read, and what is altered.
#[derive(Clone, Copy)]
pub(crate) struct Plan {
    pub(crate) n: u32,
    pub(crate) len: u16,
    pub(crate) draws: u32,
    pub(crate) most: u32,
    pub(crate) top: u32,
    pub(crate) form: Form,
    pub(crate) ways: usize,
    pub(crate) altered: Option<Altered>,
}

impl Plan {
    // Whether that is what is altered.
    pub(crate) fn alters(&self, what: Altered) -> bool {
        self.altered == Some(what)
    }
}

// Lists of so many modules and records, with one record left free, their DIMACS files read in every way.
pub(crate) fn lists(n: u32, len: u16, draws: u32) -> Plan {
    Plan {
        n,
        len,
        draws,
        most: u32::from(len).saturating_sub(1),
        top: 1,
        form: Form::Dimacs,
        ways: 13,
        altered: None,
    }
}

// The same with pair files, and counts of 1 to `top`.
pub(crate) fn counted(n: u32, len: u16, draws: u32, top: u32) -> Plan {
    Plan {
        top,
        form: Form::Counted,
        ways: 23,
        ..lists(n, len, draws)
    }
}

// Lists of 4,096 pairs, read as they are.
pub(crate) fn full(n: u32) -> Plan {
    Plan {
        most: 4096,
        ways: 1,
        ..lists(n, 4096, 12000)
    }
}
