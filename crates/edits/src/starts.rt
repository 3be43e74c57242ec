// start, of every number of modules from 0 to 70,000, and of the greatest: 1 to 512 are taken, all others refused by 2 with the head 0,0.
use std::io;

// Whether start answers n as is due. The numbers are those that document 01 gives, as C is answered.
fn is_as_due(n: u32) -> bool {
    let begun = kandurzo::start(n);
    let due = if (1..=512).contains(&n) {
        (0, n, 0)
    } else {
        (2, 0, 0)
    };
    (begun.number, begun.head.n, begun.head.m) == due
}

pub(crate) fn run(rt: &impl Print) -> io::Result<()> {
    let tried = 70001u32;
    let differ = (0..tried).filter(|&n| !is_as_due(n)).count();
    let greatest = usize::from(!is_as_due(u32::MAX));
    println!(rt;
        "start: tried={tried} and 4,294,967,295 differ={}",
        differ.saturating_add(greatest)
    )
}
