// The public calls for C: each is the call of crate `kandurzo` of the same name, with its clauses. A static library, which C and Rust link.
#![tactic(auto)]

ghost use Rattle.std.specs.Prelude.{◌≡◌};
ghost use Rattle.pairfile.specs.File.{read_file};
ghost use Rattle.dimacs.specs.Edges.{read_dimacs};
ghost use Rattle.kandurzo.specs.Listing.{started, changed_to, AddSays, RemoveSays};
ghost use Rattle.kandurzo.specs.Placing.{PlaceSays};
ghost use Rattle.kandurzo.specs.Reading.{ReadCall};
ghost use Rattle.kandurzo.specs.Writing.{WriteCall};
ghost use Rattle.kandurzo.specs.Peeling.{PeelCall};
ghost use Rattle.kandurzo.specs.Solving.{SolveCall};
ghost use Rattle.kandurzo.specs.Judging.{CheckCall, SurplusCall};
ghost use Rattle.kandurzo.specs.Kitting.{KitCall};

use kandurzo::{Changed, Placed, Solved, Written};
use records::{Head, Pair};
use verify::{Difference, Verdict};

// A list of n modules without pairs. Refuses by 2.
#[unsafe(no_mangle)]
pub extern "C" fn kandurzo_start(n: u32) -> Changed
    ensures { result ≡ started n }
{
    kandurzo::kandurzo_start(n)
}

// Adds w stops of the pair of modules a and b, in either order: a held pair's count is raised, a new pair goes to its place. Refuses by 13, 5, 4, 18,
// 19, 11; head and list are then as before. Copies the held records to words and back.
#[unsafe(no_mangle)]
pub extern "C" fn kandurzo_add(head: Head, list: &mut [Pair], a: u32, b: u32, w: u32) -> Changed
    ensures { AddSays head list.old a b w result list.new }
{
    kandurzo::kandurzo_add(head, list, a, b, w)
}

// Removes the pair of modules a and b, in either order, with its whole count. Refuses by 13, 5, 4, 14; head and list are then as before.
#[unsafe(no_mangle)]
pub extern "C" fn kandurzo_remove(head: Head, list: &mut [Pair], a: u32, b: u32) -> Changed
    ensures { RemoveSays head list.old a b result list.new }
{
    kandurzo::kandurzo_remove(head, list, a, b)
}

// Adds to the caller's own head and list, and answers the number.
#[unsafe(no_mangle)]
pub extern "C" fn kandurzo_add_to(head: &mut Head, list: &mut [Pair], a: u32, b: u32, w: u32) -> u32
    ensures { AddSays head.old list.old a b w (changed_to result head.new) list.new }
{
    kandurzo::kandurzo_add_to(head, list, a, b, w)
}

// Removes from the caller's own head and list, and answers the number.
#[unsafe(no_mangle)]
pub extern "C" fn kandurzo_remove_from(head: &mut Head, list: &mut [Pair], a: u32, b: u32) -> u32
    ensures { RemoveSays head.old list.old a b (changed_to result head.new) list.new }
{
    kandurzo::kandurzo_remove_from(head, list, a, b)
}

// Whether the pair of modules a and b, in either order, is held, and its place, or where it would go, counted from 0 among the M held records: all before it
// are smaller, none from there on is. Refuses by 13, 5, 4. A binary search besides the test of the list (13): the records are read where they lie.
#[unsafe(no_mangle)]
pub extern "C" fn kandurzo_place(head: Head, list: &[Pair], a: u32, b: u32) -> Placed
    ensures { PlaceSays head list.now a b result }
{
    kandurzo::kandurzo_place(head, list, a, b)
}

// Reads a pair file: makes a new head, and writes the first M records in rising order. Refuses by 12 (work), then line by line: 1, 2; 1, 3, 11;
// 1, 5, 4, 18, 10; 6. A refused file leaves every record as it was.
#[unsafe(no_mangle)]
pub extern "C" fn kandurzo_read(bytes: &[u8], list: &mut [Pair], work: &mut [u32]) -> Changed
    ensures { ReadCall read_file bytes.now list.old work.old result list.new work.new }
{
    kandurzo::kandurzo_read(bytes, list, work)
}

// Reads a DIMACS edge file: comments, one line `p edge N M`, M lines `e A B` with modules numbered from 1. Makes a new head, and writes the first M records in
// rising order, each with the count 1. Refuses by 12 (work), then line by line: 16, 2, 3, 11; 16, 17, 5, 4, 10; at the end 16, 17. A refused file leaves every
// record as it was.
#[unsafe(no_mangle)]
pub extern "C" fn kandurzo_read_dimacs(bytes: &[u8], list: &mut [Pair], work: &mut [u32]) -> Changed
    ensures { ReadCall read_dimacs bytes.now list.old work.old result list.new work.new }
{
    kandurzo::kandurzo_read_dimacs(bytes, list, work)
}

// Writes the list as a DIMACS edge file into the front of the text, without comments and counts, the pairs in list order, smaller module first, modules
// numbered from 1, and answers its length; bytes past it stay. Refuses by 13, 12 (text shorter than 65,536 bytes).
#[unsafe(no_mangle)]
pub extern "C" fn kandurzo_write_dimacs(head: Head, list: &[Pair], text: &mut [u8]) -> Written
    ensures { WriteCall head list.now text.old result text.new }
{
    kandurzo::kandurzo_write_dimacs(head, list, text)
}

// Leaving order and core numbers, into the first N entries of the two buffers. Refuses by 13, 12 (order, cores, work).
#[unsafe(no_mangle)]
pub extern "C" fn kandurzo_peel(
    head: Head,
    list: &[Pair],
    order: &mut [u16],
    cores: &mut [u32],
    work: &mut [u32],
) -> u32
    ensures { PeelCall head list.now order.old cores.old work.old result
        order.new cores.new work.new }
{
    kandurzo::kandurzo_peel(head, list, order, cores, work)
}

// The largest group of greatest ratio, by member bytes; the core numbers; and a load sheet: a share for each pair, of a split at share size Q
// with no load above P. A list without pairs has no group. Refuses by 13, 12 (members, cores, shares, work), 20, 15.
#[unsafe(no_mangle)]
pub extern "C" fn kandurzo_solve(
    head: Head,
    list: &[Pair],
    members: &mut [u8],
    cores: &mut [u32],
    shares: &mut [u32],
    work: &mut [u32],
) -> Solved
    ensures { SolveCall head list.now members.old cores.old shares.old work.old result
        members.new cores.new shares.new work.new }
{
    kandurzo::kandurzo_solve(head, list, members, cores, shares, work)
}

// Whether the shares are a split at the group's size Q with no load above its inside count P: then no group is denser and no split has a
// lower greatest load over its share size. Refuses by 13, 12 (members, shares, work), 20, 7, 8, 9.
#[unsafe(no_mangle)]
pub extern "C" fn kandurzo_check(
    head: Head,
    list: &[Pair],
    members: &[u8],
    shares: &[u32],
    work: &mut [u32],
) -> Verdict
    ensures { CheckCall head list.now members.now shares.now work.old result work.new }
{
    kandurzo::kandurzo_check(head, list, members, shares, work)
}

// The kit of at least k modules: of the sets left over in the leaving order, the full set included, with at least k modules the one of greatest ratio, of
// equals the larger, by member bytes; its P and Q. Three times its ratio is no less than the ratio of any group with at least k modules. Refuses by 13, 12
// (members, work), 20, 21.
#[unsafe(no_mangle)]
pub extern "C" fn kandurzo_kit(
    head: Head,
    list: &[Pair],
    k: u32,
    members: &mut [u8],
    work: &mut [u32],
) -> Verdict
    ensures { KitCall head list.now k members.old work.old result members.new work.new }
{
    kandurzo::kandurzo_kit(head, list, k, members, work)
}

// The surplus of the first group against the second. Refuses by 13, 12 (both sets), 7.
#[unsafe(no_mangle)]
pub extern "C" fn kandurzo_surplus(
    head: Head,
    list: &[Pair],
    first: &[u8],
    second: &[u8],
) -> Difference
    ensures { SurplusCall head list.now first.now second.now result }
{
    kandurzo::kandurzo_surplus(head, list, first, second)
}
