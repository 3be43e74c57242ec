// The ways in which a file is read: as it is, and damaged so that it is refused.
use crate::plans::{Form, Plan};
use records::Head;
use refusals::Refusal;

// The ways, in the order tried; DIMACS files have those to UnknownTwice. M is one more than there are lines in TooFewLines, and one more, for a line that is
// damaged, in those that name no other place.
#[derive(Clone, Copy, PartialEq, Eq)]
pub(crate) enum Way {
    // As it is.
    Sound,
    // M is one more than there are.
    TooFewLines,
    // A line too many, of a module unknown.
    ExtraLine,
    // No line of the file's form, and no comment, behind the lines.
    NoLine,
    // The last LF is missing.
    NoLastEnd,
    // N is 513.
    TooManyModules,
    // M is 4,097.
    TooManyPairs,
    // A module unknown, once.
    UnknownOnce,
    // A module twice.
    SameModule,
    // The last pair again, turned.
    TurnedAgain,
    // M is one more than there is room for.
    MoreThanRecords,
    // The work buffer is too short, and N 513.
    ShortWork,
    // A module unknown, twice.
    UnknownTwice,
    // Counts of 0, 1,001, 9,999, and of five digits.
    NoStops,
    TooManyStops,
    FourDigits,
    FiveDigits,
    // A count with a leading zero, and lines without one.
    LeadingZero,
    OldLine,
    NoCount,
    // A count outside 1 to 1,000 beside a module unknown, a module twice, and the last pair again, turned.
    UnknownNoStops,
    SameTooManyStops,
    TurnedTooManyStops,
}

// They stand here a second time, since no derive of std lists the cases of an enum.
pub(crate) const WAYS: [Way; 23] = [
    Way::Sound,
    Way::TooFewLines,
    Way::ExtraLine,
    Way::NoLine,
    Way::NoLastEnd,
    Way::TooManyModules,
    Way::TooManyPairs,
    Way::UnknownOnce,
    Way::SameModule,
    Way::TurnedAgain,
    Way::MoreThanRecords,
    Way::ShortWork,
    Way::UnknownTwice,
    Way::NoStops,
    Way::TooManyStops,
    Way::FourDigits,
    Way::FiveDigits,
    Way::LeadingZero,
    Way::OldLine,
    Way::NoCount,
    Way::UnknownNoStops,
    Way::SameTooManyStops,
    Way::TurnedTooManyStops,
];

impl Way {
    // Whether the list has to have a pair.
    pub(crate) fn needs_pair(self) -> bool {
        self == Way::TurnedAgain || self == Way::TurnedTooManyStops
    }

    // How many words of the work buffer are lent: too few, or all in every second way. The cast is the way's place among the cases, which no From gives.
    pub(crate) fn work(self) -> usize {
        if self == Way::ShortWork {
            16383
        } else if self as u32 % 2 == 0 {
            16400
        } else {
            16384
        }
    }

    // N in the file.
    pub(crate) fn modules(self, plan: Plan) -> u32 {
        match self {
            Way::TooManyModules | Way::ShortWork => 513,
            _ => plan.n,
        }
    }

    // M in the file, of a list of so many pairs.
    pub(crate) fn pairs(self, plan: Plan, count: u32) -> u32 {
        match self {
            Way::Sound
            | Way::ExtraLine
            | Way::NoLine
            | Way::NoLastEnd
            | Way::TooManyModules
            | Way::ShortWork => count,
            Way::TooManyPairs => 4097,
            Way::MoreThanRecords => u32::from(plan.len).saturating_add(1),
            _ => count.saturating_add(1),
        }
    }

    // The refusal due for a list that has no room for M.
    fn no_room(plan: Plan) -> Refusal {
        if plan.len == 4096 {
            Refusal::TooManyPairs
        } else {
            Refusal::ListFull
        }
    }

    // The answer due for a pair file.
    fn due_counted(self, plan: Plan) -> Result<(), Refusal> {
        Err(match self {
            Way::Sound => return Ok(()),
            Way::ExtraLine | Way::NoLine => Refusal::BytesFollow,
            Way::TooManyModules => Refusal::BadModuleCount,
            Way::TooManyPairs => Refusal::TooManyPairs,
            Way::UnknownOnce | Way::UnknownNoStops => Refusal::UnknownModule,
            Way::SameModule | Way::UnknownTwice | Way::SameTooManyStops => {
                Refusal::PairedWithItself
            }
            Way::TurnedAgain => Refusal::NamedTwice,
            Way::MoreThanRecords => Way::no_room(plan),
            Way::ShortWork => Refusal::BufferTooShort,
            Way::NoStops | Way::TooManyStops | Way::FourDigits | Way::TurnedTooManyStops => {
                Refusal::BadStopCount
            }
            _ => Refusal::BadLine,
        })
    }

    // The answer due for a DIMACS file.
    fn due_dimacs(self, plan: Plan) -> Result<(), Refusal> {
        Err(match self {
            Way::Sound => return Ok(()),
            Way::TooFewLines | Way::ExtraLine => Refusal::BadEdgeCount,
            Way::NoLine | Way::NoLastEnd => Refusal::BadEdgeLine,
            Way::TooManyModules => Refusal::BadModuleCount,
            Way::TooManyPairs => Refusal::TooManyPairs,
            Way::UnknownOnce => Refusal::UnknownModule,
            Way::SameModule | Way::UnknownTwice => Refusal::PairedWithItself,
            Way::TurnedAgain => Refusal::NamedTwice,
            Way::MoreThanRecords => Way::no_room(plan),
            _ => Refusal::BufferTooShort,
        })
    }

    // The answer due.
    pub(crate) fn due(self, plan: Plan) -> Result<(), Refusal> {
        match plan.form {
            Form::Counted => self.due_counted(plan),
            Form::Dimacs => self.due_dimacs(plan),
        }
    }

    // The head due.
    pub(crate) fn head_due(self, plan: Plan, count: u32) -> Head {
        if self == Way::Sound {
            return Head {
                n: plan.n,
                m: count,
            };
        }
        Head::default()
    }
}
