// Cases with the answer that documents 01 and 02 give them, run through the product's functions and compared.
//
// The run folder holds lists of cases, a case a line, and the files that they name. A line has what is tried, a space, and the answer due:
//
//   files    FILE                   the pair file is read and its list solved
//   large    N M W EVERY LINES AGAIN MORE   so is a file made here: `modules=N`, `pairs=M`, LINES pair lines, AGAIN of the first again, MORE line ends;
//                                   the first pair has the stop count W, and, where EVERY is not 0, a pair has one more every EVERY lines
//   audited  FILE SHEET             the sheet is audited beside the pair file
//   bytes    FILE SHEET             so is the sheet with each byte one more, and one less, in turn
//   limits   FILE SHEET B C         so is what is read of the two into buffers of B and C bytes
//   neighbours FILE A B             the pair of the arguments A and B, which may be empty, is looked up in the pair file's list
//   groups   FILE                   `group` prints the group of the pair file's list
//   sheets   FILE                   and `sheet` its sheet
//   kits     FILE LEAST             and `kit` the kit of at least LEAST modules, an argument that may be empty
//   verdicts FILE SHEET             `audit` prints what it answers of the sheet beside the pair file
//
// and for DIMACS files, in the folder `dimacs`:
//
//   files    FILE                   the DIMACS file is read, with room for 4,096 records
//   rooms    ROOM FILE              so it is with room for ROOM records
//   made     N M LINES AGAIN EVERY LENGTH    so is a file made here: `p edge N M`, LINES `e` lines, AGAIN of the first again, and, where EVERY is not 0,
//                                   comments of LENGTH bytes behind the `c`: before every EVERY lines, before the `p` line and at the end
//   written  FILE DIMACS            the list of the pair file is written, and the DIMACS file that is due is read back
//   full     N M W EVERY LINES AGAIN MORE   so is the list of a pair file made as for `large`; what is due is made here from the rule of its pairs
//
// Files of the folders `first`, `second`, `pair` and `end` break a rule on the first line, on the second, on a pair line, after the last; of those in `order`
// several conditions hold; those in `taken` are accepted, the starred lists of document 01 among them, and lists with stop counts; a list without pairs is
// read, but gets 20 in the place of a group. In `audits` are sheets that `sheet` printed, NAME.sheet of the pair file NAME, and sheets made or altered by
// hand, `none.sheet` of a list without pairs among them; numbers pass 65,535 in `ring` (shares) and `clique` (core numbers). In `full` are the longest pair
// file that there is, 53,271 bytes, and its sheet of 90,716, with line ends behind them up to 65,536 and 140,000 bytes: whether the last byte of a line is
// read, or one behind the last line, turns the answer; and as long a file, `block`, of the 4,096 pairs of the modules 384 to 447 with 448 to 511, in list
// order. In `dimacs`, files of the folders `before`, `problem`, `edge` and `end` break a rule before the `p` line, on it, on an `e` line, behind the last;
// `comments` has comments of every kind in each place, and lines that are none; `order` and `taken` are as above. In `lists` are files due of lists that are
// written.
//
// An answer is the refusal number, or 0 and the values:
//   files, large   P/Q; K and the size of the core of order K; the member bytes as runs, where 1x4 0x1 is 1, 1, 1, 1, 0. All 512 member bytes are 2
//                  before the call; those that stay 2 are left out
//   audited        P/Q
//   bytes          how many of the altered sheets are refused, how many are best sheets themselves (accepted with the same P/Q), and how many neither
//   limits         P/Q; before the number stands how many bytes were read of each file
//   neighbours, groups, sheets, kits, verdicts    in the place of the number: what is printed, with `;` for each LF
//   dimacs/files, rooms      N,M and the pairs of the list, modules numbered from 0, with its count behind a pair where that is not 1
//   dimacs/made    N,M and how many of the pairs are named by a line, smaller module first, behind the one before; before the number the file's length
//   dimacs/written, full     in the place of the number: the length written, how many bytes are not those due (7 past the length, as before),
//                            and how much of what is read back is not the list with each count 1
//
// A line is printed for each list of cases, and one for each case that did not come out as due.
#![tactic(auto)]

mod audited;
mod circle;
mod edges;
mod made;
mod printed;
mod solved;
mod words;
mod written;

use audited::{try_audit, try_bytes, try_limits};
use edges::{try_edges, try_room};
use made::try_made;
use model::raise;
use printed::{try_asked, try_group, try_kit, try_sheet, try_verdict};
use solved::{try_file, try_large};
use std::{fs, io};
use words::Words;
use written::{try_full, try_written};

// Tries a case: whether it comes out as due. Where it does not, its line is printed, and the answer given.
fn try_case<F: Fn(&HostRuntime, &mut Words) -> io::Result<String>>(
    rt: &HostRuntime,
    line: &str,
    answer: &F,
) -> io::Result<bool>
    requires { F.IsAlwaysCallable answer.now }
{
    let mut words = Words { left: line };
    let given = answer(rt, &mut words);
    match given {
        Ok(text) if text.as_str() == words.left => return Ok(true),
        Ok(text) => println!(rt; "{line}: not as due, but {text}")?,
        Err(error) => println!(rt; "{line}: not as due, but {error}")?,
    }
    Ok(false)
}

// The list of that name, and how many of its cases came out as due; `answer` gives the answer to a case.
fn try_list<F: Fn(&HostRuntime, &mut Words) -> io::Result<String>>(
    rt: &HostRuntime,
    name: &str,
    answer: F,
) -> io::Result<()>
    requires { F.IsAlwaysCallable answer }
{
    let list = fs::read_to_string(rt, name)?;
    let (mut good, mut bad) = (0u32, 0u32);
    for line in list.lines() {
        let count = if try_case(rt, line, &answer)? {
            &mut good
        } else {
            &mut bad
        };
        raise(count, 1);
    }
    println!(rt; "{name}: as due={good} not={bad}")
}

// All lists.
fn main(rt: HostRuntime) -> io::Result<()> {
    try_list(&rt, "files", try_file)?;
    try_list(&rt, "large", try_large)?;
    try_list(&rt, "audited", try_audit)?;
    try_list(&rt, "bytes", try_bytes)?;
    try_list(&rt, "limits", try_limits)?;
    try_list(&rt, "neighbours", try_asked)?;
    try_list(&rt, "groups", try_group)?;
    try_list(&rt, "sheets", try_sheet)?;
    try_list(&rt, "kits", try_kit)?;
    try_list(&rt, "verdicts", try_verdict)?;
    try_list(&rt, "dimacs/files", try_edges)?;
    try_list(&rt, "dimacs/rooms", try_room)?;
    try_list(&rt, "dimacs/made", try_made)?;
    try_list(&rt, "dimacs/written", try_written)?;
    try_list(&rt, "dimacs/full", try_full)
}
