// Peel, solve, check, surplus and kits against plain second computations.
//
// Standard input has the table of what is tried, a row a line (module `table`).
//
// Every list on up to 5 modules, thousands of drawn lists of up to 12 modules and lists of 512 modules and up to 4,096 pairs of several kinds are written
// as pair files, read by the product's reader, peeled and solved: with push phases and arcs before the searches, with arcs alone, and, of up to 40
// modules, with neither. First all pairs have one stop, then counts of up to 1,000. Leaving order, core numbers, places, densest remainder, group, P, Q, K
// and core size are compared (modules `peels` and `sets`: up to 12 modules every set is counted), answers of solve with each other, and the sheet of each
// is put to check. A line has the lists, their pairs, and their stops where those are not as many; of solve without push phases, how many chains units
// moved along, the most slots of one, and how many searches reached nobody; along how many they moved where there were no arcs; how many lists the reader
// refused or read with other stops, and how many comparisons differ. Then answers with one thing altered (module `altered` numbers the things), each of
// which must differ; a sheet with no pairs has no share to alter.
//
// Then check and surplus (module `verdicts`): sheets of solve changed in one place each; every sheet of small lists, good and bad; the surplus of every
// two sets of bytes of small lists, and of large groups around equal ratios. A line has how often check or surplus gave each answer.
//
// Then kits (module `kitting`): the kit of every least size k, and the bytes behind it, beside the set that the plain leaving order gives; and of lists of up
// to 12 modules every group beside every kit: the group is at most (2 * size + k) / size times as dense, and three times where it has k modules or more, or
// else counts as a comparison that differs. A line has how many kits there were, and how many times as dense as its kit a group of k modules or more was at
// most. Then kits with one thing altered, or the kit of another least size in their place.
//
// `as` stands where std has no `From`: from u32 to usize.
#![tactic(auto)]

mod altered;
mod changes;
mod checks;
mod draws;
mod entries;
mod held;
mod kinds;
mod kitting;
mod peels;
mod plain;
mod search;
mod sets;
mod solves;
mod surpluses;
mod table;
mod tally;
mod trials;
mod verdicts;

use std::io;

// The table stands on standard input.
fn main(rt: HostRuntime) -> io::Result<()> {
    let alloc = rt.alloc();
    let table = io::read_to_string(alloc, rt.reader())?;
    table::try_rows(&rt, alloc, table.as_str())
}
