// Reads a DIMACS edge file on standard input, of up to 1,048,576 bytes, and prints the pair file of the list that it names, its pairs in list order, the
// smaller module first and each with the stop count 1. A refused file prints the line `status=` with its number only; a longer file is refused by 109,
// whatever it holds: the buffer has room for one byte more. What is printed is proved (texts, from_dimacs_text), and that the pair file's reader reads it as
// the same list.
#![tactic(auto)]

ghost use Rattle.std.specs.Prelude.{◌≤◌, length};

use std::io;
use texts::Input;

// Standard input read into one buffer, and the text of it printed from the other. (Apart from `main`, where the length of an array of 1,048,577 bytes is
// known by a law alone: computed, it takes more stack than the check has.)
fn run(rt: &HostRuntime, file: &mut [u8], out: &mut [u8]) -> io::Result<()>
    requires input_room { 1048577 ≤ length file.old }
    requires output_room { 65536 ≤ length out.old }
{
    let n = texts::read_full::<1048577, _>(&mut rt.stdin(), file)?;
    let r = texts::from_dimacs_text(Input::front(file, n), out);
    rt.write_all(&out[..r])
}

fn main(rt: HostRuntime) -> io::Result<()> {
    let mut file = [0u8; 1048577];
    let mut out = [0u8; 65536];
    run(&rt, &mut file, &mut out)
}
