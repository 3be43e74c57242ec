// What the programs `from_dimacs` and `to_dimacs` print, written into a lent buffer (document 02, item 1): the pair file of the list in a DIMACS edge
// file, and the other way round. 65,536 bytes hold any text: a clause of each function, as lib.rt says.
//
// The list is read into words and written from them. Of a DIMACS file, whose comments have no bound, 1,048,576 bytes are read at most, and a longer one is
// refused whatever it holds: a program has a byte more of it, so that it shows.
ghost use Rattle.std.specs.Prelude.{◌≡◌, ◌≤◌, List, ℕ, length};
ghost use Rattle.theory.specs.Lists.{Pairs};
ghost use Rattle.lists.specs.Listed.{listed};
ghost use Rattle.lines.specs.Putting.{Puts};
ghost use Rattle.dimacs.specs.Edges.{dimacs_of};
ghost use Rattle.texts.specs.Printed.{Prints, TextWritten};
ghost use Rattle.texts.specs.Converted.{pair_file, converted, FromDimacsRead, ToDimacsRead};

use crate::{Input, text_or_refusal};
use lists::List;
use on_words::reading::{EdgeFile, Format, PairFile};
use refusals::Refusal;

// A form of file in which a list can be written.
trait FileWriter {
    // The file of a list.
    ghost file_of: { Pairs → List ℕ };

    // That file, written into the front of a buffer; answers its length.
    fn write_words(list: List, out: &mut [u8]) -> usize
        requires { 65536 ≤ length out.old }
        ensures puts { Puts (file_of (listed list.entry)) out.old 0 out.new result }
        ensures fits { length (file_of (listed list.entry)) ≤ 65536 };
}

impl FileWriter for PairFile {
    ghost file_of = { pair_file };

    fn write_words(list: List, out: &mut [u8]) -> usize {
        pairfile::write_words(list, out)
    }
}

impl FileWriter for EdgeFile {
    ghost file_of = { dimacs_of };

    #[tactic(auto, using(dimacs::proofs::Writing::dimacs_length))]
    fn write_words(list: List, out: &mut [u8]) -> usize {
        dimacs::write_words(list, out)
    }
}

// The list in a file of one form, as a file of another; answers how long that is, or refuses by the first file's own numbers.
fn convert<F: Format, G: FileWriter>(file: &[u8], out: &mut [u8]) -> Result<usize, Refusal>
    requires { 65536 ≤ length out.old }
    ensures { TextWritten (λ text. text ≡ converted G.file_of (F.says 4096 file.now)) out.old out.new result }
{
    let mut words = [0; 16384];
    let head = F::read_on_words(file, 4096, &mut words)?;
    Ok(G::write_words(head.list(&words), out))
}

// The text of `from_dimacs`, of what was read of a DIMACS file; answers how long it is.
pub fn from_dimacs_text(file: Input<1048577>, out: &mut [u8]) -> usize
    requires { 65536 ≤ length out.old }
    ensures { Prints (FromDimacsRead file.entry) out.old out.new result }
{
    let file = file.bytes();
    let written = if file.len() > 1048576 {
        Err(Refusal::FileTooLong)
    } else {
        convert::<EdgeFile, PairFile>(file, out)
    };
    text_or_refusal(written, out)
}

// The text of `to_dimacs`, of what was read of a pair file; answers how long it is.
pub fn to_dimacs_text(file: Input<65536>, out: &mut [u8]) -> usize
    requires { 65536 ≤ length out.old }
    ensures { Prints (ToDimacsRead file.entry) out.old out.new result }
{
    let file = file.bytes();
    text_or_refusal(convert::<PairFile, EdgeFile>(file, out), out)
}
