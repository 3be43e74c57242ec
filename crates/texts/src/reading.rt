// How the programs read: into a lent buffer, to the input's end or the buffer's; a file that an argument names, or nothing where it cannot be read.
// A program names DECIDE beside a buffer of its own; that it fits is a clause of each function. What was read goes on as an `Input`, whose DECIDE is named by
// the text that takes it: a buffer that lacks room for as many bytes makes none, whatever was named where it was read.
ghost use Rattle.std.specs.Prelude.{◌≡◌, ◌≤◌, ℕ, List, IfOk, IfSome, length, take};
ghost use Rattle.texts.specs.Printed.{ReadOf};

use std::env::Env;
use std::fs::File;
use std::io::Read;
use std::marker::Model;
use std::{io, str};

// What was read of an input, of which the first DECIDE bytes decide, into a buffer with room for these. Clauses see the bytes.
#[derive(Drop)]
pub struct Input<'a, const DECIDE: usize> {
    bytes: &'a [u8],
}

impl<'a, const DECIDE: usize> Model for Input<'a, DECIDE> {
    ghost Value = { List ℕ };

    ghost view = { λ input. input.bytes.now };
}

impl<'a, const DECIDE: usize> Input<'a, DECIDE> {
    // What was read into a buffer, its first n bytes: whatever file was read, to its end or the buffer's, they are all of it or have those that decide.
    pub fn front(buffer: &'a [u8], n: usize) -> Self
        requires decides { DECIDE ≤ length buffer.now }
        requires within { n ≤ length buffer.now }
        ensures bytes { result ≡ take n buffer.now }
        ensures read { (file : List ℕ) → take n buffer.now ≡ take (length buffer.now) file → ReadOf DECIDE result file }
    {
        Input {
            bytes: &buffer[..n],
        }
    }

    // The bytes.
    pub(crate) fn bytes(self) -> &'a [u8]
        ensures { result.now ≡ self.entry }
    {
        self.bytes
    }
}

// Reads until the buffer, which has room for the first DECIDE bytes, is full or the input ends; answers how many bytes were read. (Each read says
// by how many `done` grows: it is no index that is counted.)
pub fn read_full<const DECIDE: usize, R: Read>(
    input: &mut R,
    buffer: &mut [u8],
) -> io::Result<usize>
    requires decides { DECIDE ≤ length buffer.old }
    ensures within { IfOk result (λ n. n ≤ length buffer.new) }
    ensures front { IfOk result (λ n. IfSome (R.remaining input.old) (λ file. take n buffer.new ≡ take (length buffer.new) file)) }
    ensures read { IfOk result (λ n. IfSome (R.remaining input.old) (λ file. ReadOf DECIDE (take n buffer.new) file)) }
{
    let mut done = 0;
    while done < buffer.len() {
        let n = input.read(&mut buffer[done..])?;
        if n == 0 {
            break;
        }
        done += n;
    }
    Ok(done)
}

// Reads the file of a path.
fn read_path<const DECIDE: usize>(
    rt: &HostRuntime,
    path: &[u8],
    buffer: &mut [u8],
) -> io::Result<usize>
    requires decides { DECIDE ≤ length buffer.old }
    ensures within { IfOk result (λ n. n ≤ length buffer.new) }
{
    let name = str::from_utf8(path).map_err(|_| io::Error::from(io::ErrorKind::InvalidFilename))?;
    read_full::<DECIDE, _>(&mut File::open(rt, name)?, buffer)
}

// What is said of an error of the system, without its number.
fn cause(said: &str) -> &str {
    said.rsplit_once(" (os error ")
        .map_or(said, |(text, _)| text)
}

// A line on standard error: the path, a colon, and why its file cannot be opened or read.
fn fail(rt: &HostRuntime, path: &[u8], error: io::Error) -> io::Result<()> {
    let said = format!(in rt.alloc(); "{error}")?;
    let text = cause(said.as_str());
    rt.stderr().write_all(path)?;
    eprintln!(rt; ": {text}")
}

// Reads the file that argument i names, or says why it cannot; answers how many bytes were read.
pub fn read_argument<const DECIDE: usize>(rt: &HostRuntime, i: usize, buffer: &mut [u8]) -> usize
    requires decides { DECIDE ≤ length buffer.old }
    ensures within { result ≤ length buffer.new }
    ensures front { result ≡ length (take result buffer.new) }
{
    let mut path = [0; 4096];
    let length = rt.arg(i, &mut path).unwrap_or(0);
    match read_path::<DECIDE>(rt, &path[..length], buffer) {
        Ok(n) => n,
        Err(error) => {
            let _ = fail(rt, &path[..length], error);
            0
        }
    }
}
