// Reads a pair file on standard input, to its end or 65,536 bytes, and prints the refusal number or 0; the found group's ratio; K and the size of the core of
// that order; and the members, rising. A refused file has the first line only, and so has one without pairs (20). A file is decided by its first 65,536 bytes
// (pairfile, reads_first). What is printed is proved (texts, group_text), and that the buffer has room for as many.
#![tactic(auto)]

use std::io;
use texts::Input;

fn main(rt: HostRuntime) -> io::Result<()> {
    let mut file = [0u8; 65536];
    let mut out = [0u8; 8192];
    let n = texts::read_full::<65536, _>(&mut rt.stdin(), &mut file)?;
    let r = texts::group_text(Input::front(&file, n), &mut out);
    rt.write_all(&out[..r])
}
