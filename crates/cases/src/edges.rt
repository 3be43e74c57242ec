// DIMACS files that are read by name: the number, or the list in words.
use crate::words::Words;
use dimacs::read_words;
use lists::List;
use std::alloc::{AllocError, Global};
use std::io;

// N, M and the pairs of a list, each with its count where that is not 1.
fn put_list(text: &mut String, list: List) -> Result<(), AllocError> {
    write!(text, "0 {},{}", list.n, list.m)?;
    let (pairs, _) = list.ends.as_chunks::<2>();
    for (&[a, b], &w) in pairs.iter().zip(list.weights).take(list.m) {
        write!(text, " {a},{b}")?;
        if w != 1 {
            write!(text, "x{w}")?;
        }
    }
    Ok(())
}

// What a reader with room for so many records makes of the bytes.
fn read(alloc: Global, bytes: &[u8], room: usize) -> Result<String, AllocError> {
    let mut text = String::new(alloc);
    let mut words = [0u32; 12288];
    match read_words(bytes, room, &mut words) {
        Ok(head) => put_list(&mut text, head.list(&words))?,
        Err(refusal) => write!(text, "{}", u32::from(refusal))?,
    }
    Ok(text)
}

// A DIMACS file, read with room for 4,096 records.
pub(crate) fn try_edges(rt: &HostRuntime, words: &mut Words) -> io::Result<String> {
    let file = words.file(rt)?;
    Ok(read(rt.alloc(), file.as_slice(), 4096)?)
}

// A DIMACS file behind the number of records that there is room for. (`as` stands where std has no `From`: from u32 to usize.)
pub(crate) fn try_room(rt: &HostRuntime, words: &mut Words) -> io::Result<String> {
    let room = words.number()?;
    let file = words.file(rt)?;
    Ok(read(rt.alloc(), file.as_slice(), room as usize)?)
}
