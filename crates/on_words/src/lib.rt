// The calls of Kandurzo once their records lie in words (document 01, "The list and its calls"; document 02, items 1 to 4, 6 and 7): the refusals in their
// order, the answer, and what is left in the lent buffers.
//
// A call takes the records that are held (gate: 13, and 12 where a lent buffer is short) and copies them to words (crate records); its function on words
// works on the list that lies there, and clears the work buffer. Add and remove look the pair up in the words and shift what stands behind it; a reader
// leaves the file's pairs in them. Each costs what the crate below it does (pairs, peel, kits, densest, verify, pairfile, dimacs), and the 16,384 words that
// are cleared. On words add refuses by 5, 4, 18, 19, 11, remove by 5, 4, 14, solve by 20, check by 20, 7, 8, 9, kit by 20, 21, surplus by 7, and both readers
// by 12 and the file's numbers.
// Head and words are two parameters, not a struct that keeps what the words hold: a call lays them out once and hands them to one function. So that they
// hold the list is a clause of each, and so are 16,384 words of work, which C lends (a reader takes any number, and gives 12 itself).
// `as` stands where std has no `From`: from u32 to usize, and where a bound lets a number fit fewer bits.
#![tactic(auto)]

ghost use Rattle.std.specs.Prelude.{◌≡◌};
ghost use Rattle.on_words.specs.Placing.{placed_of};
ghost use Rattle.on_words.specs.Writing.{written_of};

mod buffers;
pub mod edits;
pub mod gate;
pub mod judging;
pub mod kitting;
pub mod peeling;
pub mod reading;
pub mod solving;
pub mod writing;

pub use buffers::{Buffer, any_short, clear};
pub use densest::Solution;
use refusals::Refusal;

// What place answers, as C has it: the refusal number or 0; 1 where the pair is held, else 0; and its place, or where it would go.
#[repr(C)]
#[derive(Clone, Copy, Debug, PartialEq, Eq)]
pub struct Placed {
    pub number: u32,
    pub held: u32,
    pub at: u32,
}

// What solve answers, as C has it: the refusal number or 0; P and Q, the found group's inside count and size; K, P/Q rounded up; the number of modules in
// the core of order K; and P divided by Q, rounded once.
#[repr(C)]
#[derive(Clone, Copy, Debug, PartialEq)]
pub struct Solved {
    pub number: u32,
    pub p: u32,
    pub q: u32,
    pub k: u32,
    pub coresize: u32,
    pub ratio: f64,
}

// What write_dimacs answers, as C has it: the refusal number or 0, and how many bytes it has written.
#[repr(C)]
#[derive(Clone, Copy, Debug, PartialEq, Eq)]
pub struct Written {
    pub number: u32,
    pub length: u32,
}

impl From<Result<Result<u32, u32>, Refusal>> for Placed {
    ghost from_gives = { λ answer placed. placed ≡ placed_of answer };

    fn from(answer: Result<Result<u32, u32>, Refusal>) -> Placed {
        match answer {
            Ok(Ok(at)) => Placed {
                number: 0,
                held: 1,
                at,
            },
            Ok(Err(at)) => Placed {
                number: 0,
                held: 0,
                at,
            },
            Err(refusal) => Placed {
                number: u32::from(refusal),
                held: 0,
                at: 0,
            },
        }
    }
}

impl From<Result<u32, Refusal>> for Written {
    ghost from_gives = { λ answer written. written ≡ written_of answer };

    fn from(answer: Result<u32, Refusal>) -> Written {
        match answer {
            Ok(length) => Written { number: 0, length },
            Err(refusal) => Written {
                number: u32::from(refusal),
                length: 0,
            },
        }
    }
}
