// The public calls that make and change a list, on lent records: start; then add, remove, add_to and remove_from step by step against a plain model, which
// has each pair's stop count, and before each step place. The program `readers` has those that read one from a file.
#![tactic(auto)]

mod answers;
mod draws;
mod orders;
mod places;
mod runs;
mod spoils;
mod starts;
mod steps;
mod tally;

use std::io;

fn main(rt: HostRuntime) -> io::Result<()> {
    starts::run(&rt)?;
    runs::run_all(&rt, rt.alloc())
}
