// Write_dimacs on words: the file of the list in the words.
ghost use Rattle.std.specs.Prelude.{◌≡◌, ◌≤◌, length};
ghost use Rattle.theory.specs.Words.{HoldsList};
ghost use Rattle.on_words.specs.Writing.{write_buffers, WriteOn};

use crate::buffers::Buffer;
use dimacs::write_words;
use records::Head;

// What is lent: 65,536 bytes of text.
pub fn write_buffers(text: usize) -> [Buffer; 1]
    ensures { result ≡ write_buffers text }
{
    [Buffer::new(text, 65536)]
}

// The file of the list in the words, in front of the text; answers its length.
pub fn write_on_words(head: Head, text: &mut [u8], words: &[u32]) -> u32
    requires holds_list { HoldsList head.n head.m words.now }
    requires text_long { 65536 ≤ length text.old }
    ensures { WriteOn head text.old words.now result text.new }
{
    write_words(head.list(words), text) as u32
}
