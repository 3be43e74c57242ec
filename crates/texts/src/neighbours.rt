// What the program `neighbours` prints (document 02, item 3), written into a lent buffer: where the pair of two modules stands in a list or would stand,
// and the records next to it.
//
// The pair file is read into the list in words, and the pair is looked up there by a binary search. The refusal number stands alone on the status line:
// the pair file's first, then 110 where an argument is no number, then 5 and 4 of the two modules. 64 bytes hold any text.
ghost use Rattle.std.specs.Prelude.{◌≡◌, ◌+◌, ◌≤◌, length};
ghost use Rattle.lists.specs.Listed.{listed};
ghost use Rattle.lines.specs.Putting.{Puts, HasRoom, Writes};
ghost use Rattle.pairs.specs.Located.{place_in};
ghost use Rattle.texts.specs.Printed.{Prints, TextWritten};
ghost use Rattle.texts.specs.Neighbours.{record_before, record_line, place_text, NeighboursRead};

use crate::arguments::number_of_argument;
use crate::{Input, text_or_refusal};
use lines::Writer;
use lists::List;
use pairfile::read_words;
use pairs::{check_pair, lookup};
use refusals::Refusal;

// The line of a list's k-th record, counted from 1, if there is one. (k is a record's number, no length.)
fn write_record(list: List, form: &[u8], k: usize, writer: &mut Writer)
    requires { HasRoom (record_line form.now (record_before k (listed list).pairs)) writer.old }
    ensures { Writes (record_line form.now (record_before k (listed list.entry).pairs)) writer.old writer.new }
{
    if (1..=list.m).contains(&k) {
        let (a, b) = list.ends_of(k - 1);
        writer.line(form, &[a, b]);
    }
}

// The text of a place among a list's records; answers how long it is. As many records stand before a pair as its place says: the last of them has that
// number, counted from 1.
fn write_place(place: Result<usize, usize>, list: List, out: &mut [u8]) -> usize
    requires at_le_m { (place_in place).at ≤ list.m }
    requires room { length (place_text (place_in place) (listed list).pairs) ≤ length out.old }
    ensures { Puts (place_text (place_in place) (listed list.entry).pairs) out.old 0 out.new result }
{
    let (held, at) = match place {
        Ok(at) => (1, at),
        Err(at) => (0, at),
    };
    let mut writer = Writer::new(out);
    writer.line(b"status=0\nheld=H\nplace=I\n", &[held as u32, at as u32]);
    write_record(list, b"before=A,B\n", at, &mut writer);
    write_record(list, b"after=A,B\n", at + held + 1, &mut writer);
    writer.at
}

// The text of two arguments beside the list that a pair file names; answers how long it is. Refuses by the file's numbers, 110, 5, 4.
fn write_placed(file: &[u8], first: &[u8], second: &[u8], out: &mut [u8]) -> Result<usize, Refusal>
    requires { 64 ≤ length out.old }
    ensures { TextWritten (NeighboursRead file.now first.now second.now) out.old out.new result }
{
    let mut words = [0; 12288];
    let head = read_words(file, 4096, &mut words)?;
    let a = number_of_argument(first)?;
    let b = number_of_argument(second)?;
    check_pair(0, head.n, a, b)?;
    let list = head.list(&words);
    let place = lookup(&words, list.m, a.min(b), a.max(b));
    Ok(write_place(place, list, out))
}

// The text of `neighbours`, of what was read of a pair file and of two arguments; answers how long it is.
pub fn neighbours_text(file: Input<65536>, first: &[u8], second: &[u8], out: &mut [u8]) -> usize
    requires { 64 ≤ length out.old }
    ensures { Prints (NeighboursRead file.entry first.now second.now) out.old out.new result }
{
    text_or_refusal(write_placed(file.bytes(), first, second, out), out)
}
