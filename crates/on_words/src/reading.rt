// Read and read_dimacs on words: the pairs of a file come to lie in the work buffer.
ghost use Rattle.std.specs.Prelude.{◌≡◌, ◌≤◌, length};
ghost use Rattle.pairfile.specs.File.{read_file};
ghost use Rattle.dimacs.specs.Edges.{read_dimacs};
ghost use Rattle.on_words.specs.Reading.{Reader, read_buffers, ReadOn, ReadLent};

use crate::buffers::{Buffer, any_short};
use records::Head;
use refusals::Refusal;

// What is lent: 16,384 words of work.
pub fn read_buffers(work: usize) -> [Buffer; 1]
    ensures { result ≡ read_buffers work }
{
    [Buffer::new(work, 16384)]
}

// A form of files that name the pairs of a list.
pub trait Format {
    // What a file says.
    ghost says: { Reader };

    // The file in `bytes`, for a list of `room` records: its pairs in the words; refuses by the file's own numbers. Answers the new head.
    fn read_on_words(bytes: &[u8], room: usize, work: &mut [u32]) -> Result<Head, Refusal>
        requires { 16384 ≤ length work.old }
        ensures { ReadOn says room bytes.now work.old work.new result };
}

// The same with a work buffer of any length: refuses by 12, which leaves it as it was, and by the file's own numbers.
#[tactic(auto, using(crate::proofs::Enough::read_enough, crate::proofs::Enough::read_short))]
pub fn read_on_words<F: Format>(
    bytes: &[u8],
    room: usize,
    work: &mut [u32],
) -> Result<Head, Refusal>
    ensures { ReadLent F.says room bytes.now work.old work.new result }
{
    if any_short(&read_buffers(work.len())) {
        return Err(Refusal::BufferTooShort);
    }
    F::read_on_words(bytes, room, work)
}

// Pair files.
pub struct PairFile;

impl Format for PairFile {
    ghost says = { read_file };

    fn read_on_words(bytes: &[u8], room: usize, work: &mut [u32]) -> Result<Head, Refusal> {
        pairfile::read_words(bytes, room, work)
    }
}

// DIMACS edge files.
pub struct EdgeFile;

impl Format for EdgeFile {
    ghost says = { read_dimacs };

    fn read_on_words(bytes: &[u8], room: usize, work: &mut [u32]) -> Result<Head, Refusal> {
        dimacs::read_words(bytes, room, work)
    }
}
