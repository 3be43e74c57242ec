// The public calls that read a file to head and list, on lent records: read and read_dimacs, of files that are made, and of drawn lists' files, against a
// plain model.
#![tactic(auto)]

mod draws;
mod edges;
mod plans;
mod reads;
mod tally;
mod ways;

use std::io;

fn main(rt: HostRuntime) -> io::Result<()> {
    reads::run(&rt, rt.alloc())?;
    edges::run(&rt, rt.alloc())
}
