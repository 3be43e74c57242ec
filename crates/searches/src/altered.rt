// What is altered in an answer before it is compared, to see that the comparison notices. (The table on standard input has the numbers, and no derive of std
// lists the cases of an enum.)

// Of peel's answer: the first entry of the order, of the core numbers and of the places, and where the remainder begins. Of solve's answer: the first member
// byte, P, Q, K, the core's size, the first core number, and the first share, which passes W times Q.
#[derive(Clone, Copy)]
pub(crate) enum Altered {
    Order,
    Cores,
    Place,
    Remainder,
    Member,
    Inside,
    Size,
    K,
    CoreSize,
    CoreNumber,
    Share,
}

// All of them, the one of number 1 first.
const THINGS: [Altered; 11] = [
    Altered::Order,
    Altered::Cores,
    Altered::Place,
    Altered::Remainder,
    Altered::Member,
    Altered::Inside,
    Altered::Size,
    Altered::K,
    Altered::CoreSize,
    Altered::CoreNumber,
    Altered::Share,
];

impl Altered {
    // The thing of a number; None for one that no thing has.
    pub(crate) fn numbered(number: u32) -> Option<Altered> {
        let i = number.checked_sub(1)?;
        THINGS.get(i as usize).copied()
    }
}

// Of a kit: P, Q, the first member byte, and the byte behind the last; or it is the kit of one module less at least, or the one of all modules.
#[derive(Clone, Copy)]
pub(crate) enum AlteredKit {
    Inside,
    Size,
    Member,
    Behind,
    OneLess,
    All,
}

// All of them, the one of number 1 first.
const KITS: [AlteredKit; 6] = [
    AlteredKit::Inside,
    AlteredKit::Size,
    AlteredKit::Member,
    AlteredKit::Behind,
    AlteredKit::OneLess,
    AlteredKit::All,
];

impl AlteredKit {
    // The thing of a number; None for one that no thing has.
    pub(crate) fn numbered(number: u32) -> Option<AlteredKit> {
        let i = number.checked_sub(1)?;
        KITS.get(i as usize).copied()
    }
}
