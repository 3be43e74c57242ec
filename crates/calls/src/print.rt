// How the lines are printed.
use model::{front, occurrences};
use std::{fmt, io};

// The call, what is altered, the number due and the number given.
pub(crate) fn begin(
    rt: &impl Print,
    call: &str,
    name: &str,
    due: u32,
    number: u32,
) -> io::Result<()> {
    print!(rt; "{call}, {name}: due={due} number={number}")
}

// What is said of two values that are the same or not.
pub(crate) fn as_due(same: bool) -> &'static str {
    if same { "as due" } else { "not as due" }
}

// The eight entries from `at` on.
pub(crate) fn eight<T: fmt::Display>(
    rt: &impl Print,
    label: &str,
    entries: &[T],
    at: usize,
) -> io::Result<()> {
    print!(rt; " {label}=")?;
    for (i, entry) in front(entries.get(at..).unwrap_or(&[]), 8)
        .iter()
        .enumerate()
    {
        if i != 0 {
            print!(rt; ",")?;
        }
        print!(rt; "{entry}")?;
    }
    Ok(())
}

// How many words of a work buffer are 0, how many are as before; and the line's end.
pub(crate) fn end_work(rt: &impl Print, work: &[u32]) -> io::Result<()> {
    println!(rt; " work={},{}", occurrences(work, 0), occurrences(work, 7))
}
