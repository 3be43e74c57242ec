// Read, read_dimacs and write_dimacs: the new head or the file's length, or why they refuse.
ghost use Rattle.on_words.specs.Writing.{written_of};
ghost use Rattle.kandurzo.specs.Listing.{changed_of};
ghost use Rattle.kandurzo.specs.Reading.{ReadCall};
ghost use Rattle.kandurzo.specs.Writing.{WriteCall};

use crate::laying::lay_held;
use on_words::clear;
use on_words::reading::{Format, read_on_words};
use on_words::writing::{write_buffers, write_on_words};
use records::{Head, Pair, copy_in};
use refusals::Refusal;

// The head of the list in a file, whose pairs come into the records; the work buffer is cleared. Refuses by 12, which leaves it, and the file's own numbers.
pub(crate) fn read_as<F: Format>(
    bytes: &[u8],
    list: &mut [Pair],
    work: &mut [u32],
) -> Result<Head, Refusal>
    ensures { ReadCall F.says bytes.now list.old work.old (changed_of result record { n = 0; m = 0 }) list.new work.new }
{
    let read = read_on_words::<F>(bytes, list.len(), work);
    match read {
        Err(Refusal::BufferTooShort) => return read,
        Err(_) => {}
        Ok(head) => copy_in(&mut list[..head.m as usize], work),
    }
    clear(work);
    read
}

// The length of the list's file, written into the front of the text; refuses by 13, 12.
#[tactic(auto, using(on_words::proofs::Enough::write_enough))]
pub(crate) fn written(head: Head, list: &[Pair], text: &mut [u8]) -> Result<u32, Refusal>
    ensures { WriteCall head list.now text.old (written_of result) text.new }
{
    let mut words = [0u32; 12288];
    lay_held(head, list, &write_buffers(text.len()), &mut words)?;
    Ok(write_on_words(head, text, &words))
}
