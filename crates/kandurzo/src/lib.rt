// The public calls of Kandurzo, over lent records (document 01, "The list and its calls"; document 02, items 1 to 4, 6 and 7: DIMACS files; 5 before 4;
// place; stop counts; no group without pairs; kits). An entry is one line: it turns the `Result` of the call's own function, which refuses by `?`, into what C
// is answered. That function takes the records that are held, copies them to words (crate records), and leaves the rest to crate `on_words`. Head and list are
// two parameters, as C passes them. The entries are here for Rattle callers, and once more in `kandurzo_c` for C: a static library is a crate that no other
// can use.
// `as` stands where std has no `From`: from u32 to usize, and where a bound lets a number fit fewer bits.
#![tactic(auto)]

mod changes;
mod files;
mod laying;
mod sheets;

ghost use Rattle.std.specs.Prelude.{◌≡◌};
ghost use Rattle.pairfile.specs.File.{read_file};
ghost use Rattle.dimacs.specs.Edges.{read_dimacs};
ghost use Rattle.kandurzo.specs.Listing.{started, changed_of, changed_to, AddSays, RemoveSays};
ghost use Rattle.kandurzo.specs.Placing.{PlaceSays};
ghost use Rattle.kandurzo.specs.Reading.{ReadCall};
ghost use Rattle.kandurzo.specs.Writing.{WriteCall};
ghost use Rattle.kandurzo.specs.Peeling.{PeelCall};
ghost use Rattle.kandurzo.specs.Solving.{SolveCall};
ghost use Rattle.kandurzo.specs.Judging.{CheckCall, SurplusCall};
ghost use Rattle.kandurzo.specs.Kitting.{KitCall};

use changes::{added, begun, found, removed};
use files::{read_as, written};
use on_words::reading::{EdgeFile, PairFile};
pub use on_words::{Placed, Solved, Written};
use records::{Head, Pair};
use refusals::{Refusal, number};
use sheets::{checked, compared, kitted, peeled, solved};
use verify::{Difference, Verdict};

// What start, add, remove, read and read_dimacs answer, as C has it: the refusal number or 0, and the head after the call.
#[repr(C)]
#[derive(Clone, Copy, Debug, PartialEq, Eq)]
pub struct Changed {
    pub number: u32,
    pub head: Head,
}

impl Changed {
    // The new head; beside a refusal the head that is given. (The new one's numbers are named one by one: a head copied whole goes through memory on its way to
    // C, and a call of start takes five times as long.)
    fn new(answer: Result<Head, Refusal>, before: Head) -> Changed
        ensures { result ≡ changed_of answer before }
    {
        match answer {
            Ok(Head { n, m }) => Changed {
                number: 0,
                head: Head { n, m },
            },
            Err(refusal) => Changed {
                number: u32::from(refusal),
                head: before,
            },
        }
    }
}

// A list of n modules without pairs. Refuses by 2.
#[unsafe(no_mangle)]
pub extern "C" fn kandurzo_start(n: u32) -> Changed
    ensures { result ≡ started n }
{
    Changed::new(begun(n), Head::default())
}

pub use kandurzo_start as start;

// Adds w stops of the pair of modules a and b, in either order: a held pair's count is raised, a new pair goes to its place. Refuses by 13, 5, 4, 18,
// 19, 11; head and list are then as before. Copies the held records to words and back.
#[unsafe(no_mangle)]
pub extern "C" fn kandurzo_add(head: Head, list: &mut [Pair], a: u32, b: u32, w: u32) -> Changed
    ensures { AddSays head list.old a b w result list.new }
{
    Changed::new(added(head, list, a, b, w), head)
}

pub use kandurzo_add as add;

// Removes the pair of modules a and b, in either order, with its whole count. Refuses by 13, 5, 4, 14; head and list are then as before.
#[unsafe(no_mangle)]
pub extern "C" fn kandurzo_remove(head: Head, list: &mut [Pair], a: u32, b: u32) -> Changed
    ensures { RemoveSays head list.old a b result list.new }
{
    Changed::new(removed(head, list, a, b), head)
}

pub use kandurzo_remove as remove;

// Adds to the caller's own head and list, and answers the number.
#[unsafe(no_mangle)]
#[tactic(auto, unfolding(crate::specs::Listing::changed_to))]
pub extern "C" fn kandurzo_add_to(head: &mut Head, list: &mut [Pair], a: u32, b: u32, w: u32) -> u32
    ensures { AddSays head.old list.old a b w (changed_to result head.new) list.new }
{
    let answer = kandurzo_add(*head, list, a, b, w);
    *head = answer.head;
    answer.number
}

pub use kandurzo_add_to as add_to;

// Removes from the caller's own head and list, and answers the number.
#[unsafe(no_mangle)]
#[tactic(auto, unfolding(crate::specs::Listing::changed_to))]
pub extern "C" fn kandurzo_remove_from(head: &mut Head, list: &mut [Pair], a: u32, b: u32) -> u32
    ensures { RemoveSays head.old list.old a b (changed_to result head.new) list.new }
{
    let answer = kandurzo_remove(*head, list, a, b);
    *head = answer.head;
    answer.number
}

pub use kandurzo_remove_from as remove_from;

// Whether the pair of modules a and b, in either order, is held, and its place, or where it would go, counted from 0 among the M held records: all before it
// are smaller, none from there on is. Refuses by 13, 5, 4. A binary search besides the test of the list (13): the records are read where they lie.
#[unsafe(no_mangle)]
pub extern "C" fn kandurzo_place(head: Head, list: &[Pair], a: u32, b: u32) -> Placed
    ensures { PlaceSays head list.now a b result }
{
    Placed::from(found(head, list, a, b))
}

pub use kandurzo_place as place;

// Reads a pair file: makes a new head, and writes the first M records in rising order. Refuses by 12 (work), then line by line: 1, 2; 1, 3, 11;
// 1, 5, 4, 18, 10; 6. A refused file leaves every record as it was.
#[unsafe(no_mangle)]
pub extern "C" fn kandurzo_read(bytes: &[u8], list: &mut [Pair], work: &mut [u32]) -> Changed
    ensures { ReadCall read_file bytes.now list.old work.old result list.new work.new }
{
    Changed::new(read_as::<PairFile>(bytes, list, work), Head::default())
}

pub use kandurzo_read as read;

// Reads a DIMACS edge file: comments, one line `p edge N M`, M lines `e A B` with modules numbered from 1. Makes a new head, and writes the first M records in
// rising order, each with the count 1. Refuses by 12 (work), then line by line: 16, 2, 3, 11; 16, 17, 5, 4, 10; at the end 16, 17. A refused file leaves every
// record as it was.
#[unsafe(no_mangle)]
pub extern "C" fn kandurzo_read_dimacs(bytes: &[u8], list: &mut [Pair], work: &mut [u32]) -> Changed
    ensures { ReadCall read_dimacs bytes.now list.old work.old result list.new work.new }
{
    Changed::new(read_as::<EdgeFile>(bytes, list, work), Head::default())
}

pub use kandurzo_read_dimacs as read_dimacs;

// Writes the list as a DIMACS edge file into the front of the text, without comments and counts, the pairs in list order, smaller module first, modules
// numbered from 1, and answers its length; bytes past it stay. Refuses by 13, 12 (text shorter than 65,536 bytes).
#[unsafe(no_mangle)]
pub extern "C" fn kandurzo_write_dimacs(head: Head, list: &[Pair], text: &mut [u8]) -> Written
    ensures { WriteCall head list.now text.old result text.new }
{
    Written::from(written(head, list, text))
}

pub use kandurzo_write_dimacs as write_dimacs;

// Leaving order and core numbers, into the first N entries of the two buffers. Refuses by 13, 12 (order, cores, work).
#[unsafe(no_mangle)]
pub extern "C" fn kandurzo_peel(
    head: Head,
    list: &[Pair],
    order: &mut [u16],
    cores: &mut [u32],
    work: &mut [u32],
) -> u32
    ensures { PeelCall head list.now order.old cores.old work.old result
        order.new cores.new work.new }
{
    number(peeled(head, list, order, cores, work))
}

// The largest group of greatest ratio, by member bytes; the core numbers; and a load sheet: a share for each pair, of a split at share size Q
// with no load above P. A list without pairs has no group. Refuses by 13, 12 (members, cores, shares, work), 20, 15.
#[unsafe(no_mangle)]
pub extern "C" fn kandurzo_solve(
    head: Head,
    list: &[Pair],
    members: &mut [u8],
    cores: &mut [u32],
    shares: &mut [u32],
    work: &mut [u32],
) -> Solved
    ensures { SolveCall head list.now members.old cores.old shares.old work.old result
        members.new cores.new shares.new work.new }
{
    Solved::from(solved(head, list, members, cores, shares, work))
}

pub use kandurzo_solve as solve;

// Whether the shares are a split at the group's size Q with no load above its inside count P: then no group is denser and no split has a
// lower greatest load over its share size. Refuses by 13, 12 (members, shares, work), 20, 7, 8, 9.
#[unsafe(no_mangle)]
pub extern "C" fn kandurzo_check(
    head: Head,
    list: &[Pair],
    members: &[u8],
    shares: &[u32],
    work: &mut [u32],
) -> Verdict
    ensures { CheckCall head list.now members.now shares.now work.old result work.new }
{
    Verdict::from(checked(head, list, members, shares, work))
}

pub use kandurzo_check as check;

// The kit of at least k modules: of the sets left over in the leaving order, the full set included, with at least k modules the one of greatest ratio, of
// equals the larger, by member bytes; its P and Q. Three times its ratio is no less than the ratio of any group with at least k modules. Refuses by 13, 12
// (members, work), 20, 21.
#[unsafe(no_mangle)]
pub extern "C" fn kandurzo_kit(
    head: Head,
    list: &[Pair],
    k: u32,
    members: &mut [u8],
    work: &mut [u32],
) -> Verdict
    ensures { KitCall head list.now k members.old work.old result members.new work.new }
{
    Verdict::from(kitted(head, list, k, members, work))
}

pub use kandurzo_kit as kit;

// The surplus of the first group against the second. Refuses by 13, 12 (both sets), 7.
#[unsafe(no_mangle)]
pub extern "C" fn kandurzo_surplus(
    head: Head,
    list: &[Pair],
    first: &[u8],
    second: &[u8],
) -> Difference
    ensures { SurplusCall head list.now first.now second.now result }
{
    Difference::from(compared(head, list, first, second))
}

pub use kandurzo_surplus as surplus;
