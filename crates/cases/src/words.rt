// The words of a case's line: what is tried, and behind it the answer due.
use std::fs;
use std::io::{self, ErrorKind};

// What of a line is still to be read.
#[derive(Clone, Copy)]
pub(crate) struct Words<'a> {
    pub(crate) left: &'a str,
}

impl<'a> Words<'a> {
    // The next word, which may be empty; it ends before a space.
    pub(crate) fn word(&mut self) -> io::Result<&'a str> {
        let (word, left) = self.left.split_once(' ').ok_or(ErrorKind::InvalidData)?;
        self.left = left;
        Ok(word)
    }

    // The number that is the next word.
    pub(crate) fn number(&mut self) -> io::Result<u32> {
        let number = self.word()?.parse::<u32>().ok();
        Ok(number.ok_or(ErrorKind::InvalidData)?)
    }

    // The file that the next word names.
    pub(crate) fn file(&mut self, rt: &HostRuntime) -> io::Result<Vec<u8>> {
        fs::read(rt, self.word()?)
    }
}
