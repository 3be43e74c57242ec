// Reads a pair file on standard input, as `group` does, and prints the found group's certificate: what `group` prints, then a line `number=C` for each
// module's core number, and a line `share=A,B,U` for each pair in list order: of the pair's units, Q for each stop, the smaller module A receives U. A
// refused file has the first line only, and so has one without pairs (20). The program `audit` answers whether a sheet is the best there is; what is printed
// here it accepts (texts, sheet_text).
#![tactic(auto)]

use std::io;
use texts::Input;

fn main(rt: HostRuntime) -> io::Result<()> {
    let mut file = [0u8; 65536];
    let mut out = [0u8; 140000];
    let n = texts::read_full::<65536, _>(&mut rt.stdin(), &mut file)?;
    let r = texts::sheet_text(Input::front(&file, n), &mut out);
    rt.write_all(&out[..r])
}
