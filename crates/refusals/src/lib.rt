// Why a call, a file or a sheet is refused: one case for each number that is ever given, and its number. 15 is none of them, since solve never comes to it.
//
// Functions below the calls answer a `Result` with a refusal as its error; the calls, which C uses, answer its number.
#![tactic(auto)]

ghost use Rattle.std.specs.Prelude.{◌≡◌};
ghost use Rattle.refusals.specs.Numbers.{number_in, number_of};

// The causes, in the order of their numbers.
#[derive(Clone, Copy, Debug, PartialEq, Eq)]
pub enum Refusal {
    // A line is missing, isn't of the form due there, or lacks its LF.
    BadLine = 1,
    // N outside 1 to 512.
    BadModuleCount = 2,
    // The file's M above 4,096.
    TooManyPairs = 3,
    // A module number is N or more.
    UnknownModule = 4,
    // A module is paired with itself.
    PairedWithItself = 5,
    // Bytes follow the last pair line.
    BytesFollow = 6,
    // A member byte above 1 among the first N, or none is 1.
    BadMembers = 7,
    // A share above its pair's units among the first M.
    ShareTooLarge = 8,
    // A load above P.
    LoadTooLarge = 9,
    // The pair is named on an earlier line of the file.
    NamedTwice = 10,
    // No record is free.
    ListFull = 11,
    // A lent buffer is shorter than stated.
    BufferTooShort = 12,
    // Head and list disagree.
    HeadDisagrees = 13,
    // The pair to remove is not held.
    NotHeld = 14,
    // A line of a DIMACS file is missing, isn't of the form due there, or lacks its LF.
    BadEdgeLine = 16,
    // The number of `e` lines is not M.
    BadEdgeCount = 17,
    // A stop count outside 1 to 1,000.
    BadStopCount = 18,
    // The raised stop count would pass 1,000.
    TooManyStops = 19,
    // The list holds no pair.
    NoPair = 20,
    // The least size of a kit, k, outside 1 to N.
    BadLeastSize = 21,
    // A line of a sheet is missing, isn't of the form due there, or lacks its LF.
    BadSheetLine = 101,
    // Q outside 1 to N.
    BadGroupSize = 102,
    // A member is N or more, or not above the one before it.
    BadMember = 103,
    // The number is not the module's core number.
    BadCoreNumber = 104,
    // The line names another pair than the list's at that place.
    AnotherPair = 105,
    // Bytes follow the last line of a sheet.
    SheetGoesOn = 106,
    // The ratio line is not the group's.
    BadRatio = 107,
    // The core line is not the list's.
    BadCore = 108,
    // The DIMACS file has more than 1,048,576 bytes.
    FileTooLong = 109,
    // An argument is missing or no number.
    BadArgument = 110,
}

// The number of a case is its discriminant, which only `as` reads.
impl From<Refusal> for u32 {
    ghost from_gives = { λ refusal number. number ≡ number_of refusal };

    fn from(refusal: Refusal) -> u32 {
        refusal as u32
    }
}

// The number of an answer, 0 where nothing is refused.
pub fn number(answer: Result<(), Refusal>) -> u32
    ensures { result ≡ number_in answer }
{
    match answer {
        Ok(()) => 0,
        Err(refusal) => u32::from(refusal),
    }
}
