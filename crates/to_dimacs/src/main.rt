// Reads a pair file on standard input, to its end or 65,536 bytes, and prints the DIMACS edge file of the list that it names: no comments, the pairs in list
// order and the smaller module first, modules numbered from 1, and no stop counts. A refused file prints the line `status=` with its number only. A pair
// file is decided by its first 65,536 bytes (pairfile, reads_first). What is printed is proved (texts, to_dimacs_text), and that the reader of DIMACS files
// reads it as the same pairs, each with the count 1.
#![tactic(auto)]

use std::io;
use texts::Input;

fn main(rt: HostRuntime) -> io::Result<()> {
    let mut file = [0u8; 65536];
    let mut out = [0u8; 65536];
    let n = texts::read_full::<65536, _>(&mut rt.stdin(), &mut file)?;
    let r = texts::to_dimacs_text(Input::front(&file, n), &mut out);
    rt.write_all(&out[..r])
}
