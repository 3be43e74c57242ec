// Where the pair of two modules stands in the list that a pair file names, or would stand: `neighbours FILE A B`. Prints whether the pair is held, its place,
// counted from 0, and the records before and after it; or the refusal number alone. The modules may come in either order; one that is no number, or is
// missing, is refused by 110. A file that cannot be opened or read, a folder say, or whose name is not UTF-8, has no bytes, and standard error says why. A
// pair file is decided by its first 65,536 bytes (pairfile, reads_first). What is printed is proved (texts, neighbours_text), and that the records are the
// nearest on either side.
#![tactic(auto)]

use std::env::Env;
use std::io;
use texts::Input;

fn main(rt: HostRuntime) -> io::Result<()> {
    let mut first = [0u8; 4096];
    let mut second = [0u8; 4096];
    let mut file = [0u8; 65536];
    let mut out = [0u8; 64];
    let a = rt.arg(2, &mut first).unwrap_or(0);
    let b = rt.arg(3, &mut second).unwrap_or(0);
    let n = texts::read_argument::<65536>(&rt, 1, &mut file);
    let r = texts::neighbours_text(Input::front(&file, n), &first[..a], &second[..b], &mut out);
    rt.write_all(&out[..r])
}
