// Lists that are written as DIMACS files, and read back.
use crate::circle;
use crate::made::{put_edge, put_problem};
use crate::solved::Plan;
use crate::words::Words;
use dimacs::write_words;
use pairfile::read_words;
use records::Head;
use std::alloc::{AllocError, Global};
use std::io;

// ---- what is compared

// The buffer before a list is written to it.
const UNWRITTEN: [u8; 65600] = [7; 65600];

// How many bytes of the buffer are not the file's, or behind its end not as before.
fn differing_bytes(out: &[u8], file: &[u8]) -> usize {
    let due = file.iter().chain(&UNWRITTEN);
    out.iter().zip(due).filter(|(x, y)| x != y).count()
}

// How many of the words read back are not the list's with each count 1.
fn differing_words(list: &[u32], again: &[u32]) -> usize {
    let due = list
        .iter()
        .enumerate()
        .map(|(i, &w)| if i < 8192 { w } else { w.min(1) });
    due.zip(again).filter(|(x, y)| x != *y).count()
}

// How much of what is read from the file is not the list with each count 1: of N and M in one, and of all words.
fn read_back(file: &[u8], head: Head, words: &[u32]) -> usize {
    let mut again = [0u32; 12288];
    let read = dimacs::read_words(file, 4096, &mut again);
    usize::from(read != Ok(head)).saturating_add(differing_words(words, &again))
}

// The list of a pair file, written, beside the DIMACS file due: how many bytes are written, and how much of them and of what is read back is not as due.
fn written(alloc: Global, pairs: &[u8], file: &[u8]) -> Result<String, AllocError> {
    let mut words = [0u32; 12288];
    let mut out = UNWRITTEN;
    match read_words(pairs, 4096, &mut words) {
        Ok(head) => {
            let length = write_words(head.list(&words), &mut out);
            let bytes = differing_bytes(&out, file);
            format!(in alloc; "{length} {bytes} {}", read_back(file, head, &words))
        }
        Err(refusal) => format!(in alloc; "{}", u32::from(refusal)),
    }
}

// ---- by name

// A pair file, and the DIMACS file of its list.
pub(crate) fn try_written(rt: &HostRuntime, words: &mut Words) -> io::Result<String> {
    let pairs = words.file(rt)?;
    let file = words.file(rt)?;
    Ok(written(rt.alloc(), pairs.as_slice(), file.as_slice())?)
}

// ---- made here

// The lines of module a's pairs with those above it, of the first `lines` of the circle.
fn put_row(file: &mut Vec<u8>, a: u32, lines: u32) -> io::Result<()> {
    for b in a..512 {
        if circle::holds(a, b, lines) {
            put_edge(file, a, b)?;
        }
    }
    Ok(())
}

// The DIMACS file of n modules and the first m pairs of the circle, in list order.
fn make(alloc: Global, n: u32, m: u32) -> io::Result<Vec<u8>> {
    let mut file = Vec::new(alloc);
    put_problem(&mut file, n, m)?;
    for a in 0..512 {
        put_row(&mut file, a, m)?;
    }
    Ok(file)
}

// A pair file made from the line's numbers, and the DIMACS file of its pairs.
pub(crate) fn try_full(rt: &HostRuntime, words: &mut Words) -> io::Result<String> {
    let plan = Plan::read(words)?;
    let pairs = plan.make(rt.alloc())?;
    let file = make(rt.alloc(), plan.n, plan.m)?;
    Ok(written(rt.alloc(), pairs.as_bytes(), file.as_slice())?)
}
