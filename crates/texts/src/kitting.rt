// What the program `kit` prints (document 02, item 7), written into a lent buffer: the kit of at least k modules, as `group` prints a group, without its core.
//
// The pair file is read into the list in words, and the kit is made there as the public call makes it. The refusal number stands alone on the status line:
// the pair file's first, then 110 where the argument is no number, then 20 and 21. 8,192 bytes hold any text.
ghost use Rattle.std.specs.Prelude.{◌≡◌, ◌≤◌, length};
ghost use Rattle.lines.specs.Putting.{HasRoom, Writes};
ghost use Rattle.texts.specs.Printed.{Prints, TextWritten};
ghost use Rattle.texts.specs.Kits.{kit_lines, KitRead};

use crate::arguments::number_of_argument;
use crate::{Input, text_or_refusal, write_members, write_ratio};
use lines::Writer;
use numbers::Ratio;
use on_words::kitting::kit_on_words;
use pairfile::read_words;
use refusals::Refusal;

// A kit's lines.
fn write_kit(ratio: Ratio, members: &[u8], writer: &mut Writer)
    requires few { length members.now ≤ 512 }
    requires room { HasRoom (kit_lines ratio.p ratio.q members.now) writer.old }
    ensures { Writes (kit_lines ratio.p ratio.q members.now) writer.old writer.new }
{
    write_ratio(ratio, writer);
    write_members(members, writer);
}

// The text of the kit of the list that a pair file names, of at least as many modules as an argument says; answers how long it is. Refuses by the file's
// numbers, 110, 20, 21.
fn write_kitted(file: &[u8], argument: &[u8], out: &mut [u8]) -> Result<usize, Refusal>
    requires { 8192 ≤ length out.old }
    ensures { TextWritten (KitRead file.now argument.now) out.old out.new result }
{
    let mut members = [0; 512];
    let mut work = [0; 16384];
    let head = read_words(file, 4096, &mut work)?;
    let k = number_of_argument(argument)?;
    let ratio = kit_on_words(head, k, &mut members, &mut work)?;
    let mut writer = Writer::new(out);
    write_kit(ratio, &members[..head.n as usize], &mut writer);
    Ok(writer.at)
}

// The text of `kit`, of what was read of a pair file and of an argument; answers how long it is.
pub fn kit_text(file: Input<65536>, argument: &[u8], out: &mut [u8]) -> usize
    requires { 8192 ≤ length out.old }
    ensures { Prints (KitRead file.entry argument.now) out.old out.new result }
{
    text_or_refusal(write_kitted(file.bytes(), argument, out), out)
}
