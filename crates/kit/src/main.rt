// Reads a pair file on standard input, to its end or 65,536 bytes, and takes the least size k as its argument: `kit LEAST < FILE`. Prints the refusal number
// or 0; the kit's ratio; and its members, rising. Of the sets left over in the leaving order the kit is the densest that has at least k modules, of equals the
// larger. What is refused has the first line only: the file's own number, 110 where k is missing or no number, 20 where there is no pair, 21 where k is
// outside 1 to N. A file is decided by its first 65,536 bytes (pairfile, reads_first). What is printed is proved (texts, kit_text), and that the buffer has
// room for as many.
#![tactic(auto)]

use std::env::Env;
use std::io;
use texts::Input;

fn main(rt: HostRuntime) -> io::Result<()> {
    let mut argument = [0u8; 4096];
    let mut file = [0u8; 65536];
    let mut out = [0u8; 8192];
    let k = rt.arg(1, &mut argument).unwrap_or(0);
    let n = texts::read_full::<65536, _>(&mut rt.stdin(), &mut file)?;
    let r = texts::kit_text(Input::front(&file, n), &argument[..k], &mut out);
    rt.write_all(&out[..r])
}
