// Pair files that are read and solved: by name, and made here.
use crate::circle;
use crate::words::Words;
use answer::{Answer, solve_file};
use numbers::Ratio;
use std::alloc::{AllocError, Global};
use std::io;

// ---- the answer

// The bytes as runs, those of 2 left out.
fn put_runs(text: &mut String, bytes: &[u8]) -> Result<(), AllocError> {
    for run in bytes.chunk_by(|x, y| x == y) {
        if let [byte, ..] = run
            && *byte != 2
        {
            write!(text, " {byte}x{}", run.len())?;
        }
    }
    Ok(())
}

// What read and solve make of the bytes.
fn solved(alloc: Global, bytes: &[u8]) -> Result<String, AllocError> {
    let mut text = String::new(alloc);
    let mut members = [2u8; 512];
    match solve_file(bytes, &mut members) {
        Ok(
            Answer {
                ratio: Ratio { p, q },
                k,
                coresize,
                ..
            },
        ) => write!(text, "0 {p}/{q} {k},{coresize}")?,
        Err(refusal) => write!(text, "{}", u32::from(refusal))?,
    }
    put_runs(&mut text, &members)?;
    Ok(text)
}

// ---- by name

// A pair file.
pub(crate) fn try_file(rt: &HostRuntime, words: &mut Words) -> io::Result<String> {
    let file = words.file(rt)?;
    Ok(solved(rt.alloc(), file.as_slice())?)
}

// ---- made here

// A pair file that is made: N and M; the stops of the first pair, and behind how many lines a pair has one more, never where that is 0; how many lines of
// pairs there are, of the first again, and of nothing. (0 as the case's line has it: `checked_div` by it is None.)
#[derive(Clone, Copy)]
pub(crate) struct Plan {
    pub(crate) n: u32,
    pub(crate) m: u32,
    first: u32,
    every: u32,
    lines: u32,
    again: u32,
    more: u32,
}

impl Plan {
    // The plan that a line's numbers describe.
    pub(crate) fn read(words: &mut Words) -> io::Result<Plan> {
        Ok(Plan {
            n: words.number()?,
            m: words.number()?,
            first: words.number()?,
            every: words.number()?,
            lines: words.number()?,
            again: words.number()?,
            more: words.number()?,
        })
    }

    // How many stops the pair of line i has.
    fn stops(&self, i: u32) -> u32 {
        let raised = i.checked_div(self.every).unwrap_or(0);
        self.first.wrapping_add(raised)
    }

    // The lines of pairs. `readers` makes such files too, with other counts: in a crate that both reach, the maker would be a function over a closure whose
    // contract says the whole text, which is longer than the two.
    fn put_pairs(&self, file: &mut String) -> Result<(), AllocError> {
        for i in (0..self.lines).chain(0..self.again) {
            let (a, b) = circle::pair(i);
            writeln!(file, "{a},{b},{}", self.stops(i))?;
        }
        Ok(())
    }

    // The file.
    pub(crate) fn make(&self, alloc: Global) -> Result<String, AllocError> {
        let mut file = String::new(alloc);
        writeln!(file, "modules={}\npairs={}", self.n, self.m)?;
        self.put_pairs(&mut file)?;
        for _ in 0..self.more {
            writeln!(file)?;
        }
        Ok(file)
    }
}

// A pair file made from the line's numbers.
pub(crate) fn try_large(rt: &HostRuntime, words: &mut Words) -> io::Result<String> {
    let file = Plan::read(words)?.make(rt.alloc())?;
    Ok(solved(rt.alloc(), file.as_bytes())?)
}
