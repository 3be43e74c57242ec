// DIMACS files that are made here, with comments between the lines.
use crate::circle;
use crate::words::Words;
use dimacs::read_words;
use lists::List;
use model::raise;
use records::Head;
use std::alloc::{AllocError, Global};
use std::io::{self, Write};

// ---- the file

// The `p` line.
pub(crate) fn put_problem(file: &mut Vec<u8>, n: u32, m: u32) -> io::Result<()> {
    writeln!(file, "p edge {n} {m}")
}

// The line of a pair, modules numbered from 1.
pub(crate) fn put_edge(file: &mut Vec<u8>, a: u32, b: u32) -> io::Result<()> {
    writeln!(file, "e {} {}", a.wrapping_add(1), b.wrapping_add(1))
}

// Byte i of those that count up from 0, and from 0 again after 255, where it is no LF. (`as` stands where a bound lets a number fit fewer bits.)
fn counted_byte(i: u32) -> u8 {
    match (i % 256) as u8 {
        b'\n' => b'c',
        byte => byte,
    }
}

// A comment of so many bytes behind its `c`: a blank, and bytes that count up.
fn put_comment(file: &mut Vec<u8>, length: u32) -> io::Result<()> {
    file.push(b'c')?;
    if let Some(counted) = length.checked_sub(1) {
        file.push(b' ')?;
        file.extend((0..counted).map(counted_byte))?;
    }
    file.push(b'\n')?;
    Ok(())
}

// A file that is made: N and M; how many `e` lines there are, and of the first again; before every how many of them a comment stands, as one does before the
// `p` line and at the end, none where that is 0; and how long it is behind its `c`. (0 as the case's line has it: `checked_rem` by it is None.)
#[derive(Clone, Copy)]
struct Plan {
    n: u32,
    m: u32,
    lines: u32,
    again: u32,
    every: u32,
    length: u32,
}

impl Plan {
    // The plan that a line's numbers describe.
    fn read(words: &mut Words) -> io::Result<Plan> {
        Ok(Plan {
            n: words.number()?,
            m: words.number()?,
            lines: words.number()?,
            again: words.number()?,
            every: words.number()?,
            length: words.number()?,
        })
    }

    // A comment, if one is due before line i.
    fn put_due(&self, file: &mut Vec<u8>, i: u32) -> io::Result<()> {
        if i.checked_rem(self.every) == Some(0) {
            put_comment(file, self.length)?;
        }
        Ok(())
    }

    // The `e` lines; every third pair is turned.
    fn put_lines(&self, file: &mut Vec<u8>) -> io::Result<()> {
        let lines = (0..self.lines).chain(0..self.again);
        for (place, i) in (0..u32::MAX).zip(lines) {
            self.put_due(file, place)?;
            let (a, b) = circle::pair(i);
            if i % 3 == 0 {
                put_edge(file, b, a)?;
            } else {
                put_edge(file, a, b)?;
            }
        }
        Ok(())
    }

    // The file.
    fn make(&self, alloc: Global) -> io::Result<Vec<u8>> {
        let mut file = Vec::new(alloc);
        self.put_due(&mut file, 0)?;
        put_problem(&mut file, self.n, self.m)?;
        self.put_lines(&mut file)?;
        self.put_due(&mut file, 0)?;
        Ok(file)
    }
}

// ---- the answer

// How many of the pairs are among the first `lines` of the circle, have the smaller module first, and stand behind the pair before them.
fn count_due(list: List, lines: u32) -> u32 {
    let (pairs, _) = list.ends.as_chunks::<2>();
    let mut count = 0u32;
    let mut last = None;
    for &[a, b] in pairs.iter().take(list.m) {
        let pair = Some((a, b));
        if a < b && last < pair && circle::holds(a, b, lines) {
            raise(&mut count, 1);
        }
        last = pair;
    }
    count
}

// How many bytes there are, and what read makes of them: N and M, and how many of the pairs are due.
fn counted(alloc: Global, bytes: &[u8], lines: u32) -> Result<String, AllocError> {
    let mut words = [0u32; 12288];
    let size = bytes.len();
    match read_words(bytes, 4096, &mut words) {
        Ok(head) => {
            let Head { n, m } = head;
            let count = count_due(head.list(&words), lines);
            format!(in alloc; "{size} 0 {n},{m} {count}")
        }
        Err(refusal) => format!(in alloc; "{size} {}", u32::from(refusal)),
    }
}

// A DIMACS file made from the line's numbers.
pub(crate) fn try_made(rt: &HostRuntime, words: &mut Words) -> io::Result<String> {
    let plan = Plan::read(words)?;
    let file = plan.make(rt.alloc())?;
    Ok(counted(rt.alloc(), file.as_slice(), plan.lines)?)
}
