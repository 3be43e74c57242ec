// What the programs `group`, `sheet` and `audit` print, written into a lent buffer (document 01, end of "Lists tried by hand"); converted.rt has what
// `from_dimacs` and `to_dimacs` print, neighbours.rt what `neighbours` prints, kitting.rt what `kit` prints. reading.rt reads their input, arguments.rt the
// numbers among their arguments.
//
// A program reads its input, calls one of the public functions, and writes the first bytes of the buffer out, as many as the function answers.
// A text is written once, from front to back, line by line, at the cost of its bytes. 8,192 bytes hold the text of any group or kit, 140,000 that
// of any sheet, 64 that of any audit or pair: that room is a clause of each function, since any slice that has it will do. A refused file has its number on
// the status line alone, which only `text_or_refusal` writes. Each function takes an `Input`, whose type says how many bytes decide: the first 65,536 of a
// pair file, 140,000 of a sheet, 1,048,577 of a DIMACS file. It has them, or all there are: the text is that of the whole file.
// `as` stands where std has no `From`: from u32 to usize, and where a bound lets a number fit fewer bits.
#![tactic(auto)]

mod arguments;
mod converted;
mod kitting;
mod neighbours;
mod reading;

ghost use Rattle.std.specs.Prelude.{◌≡◌, ◌≤◌, ◌<◌, ℕ, IfOk, IfErr, length};
ghost use Rattle.refusals.specs.Numbers.{number_of};
ghost use Rattle.lists.specs.Listed.{listed};
ghost use Rattle.lines.specs.Putting.{Puts, HasRoom, Writes};
ghost use Rattle.sheetfile.specs.Writer.{member_lines};
ghost use Rattle.texts.specs.Texts.{refusal_text, ratio_lines};
ghost use Rattle.texts.specs.Filling.{Numbers, given_lines, Gives};
ghost use Rattle.texts.specs.Printed.{Prints, TextWritten, GroupRead, SheetRead, AuditRead, answer_lines, sheet_lines};

use answer::{Answer, sheet_file, solve_file};
pub use converted::{from_dimacs_text, to_dimacs_text};
pub use kitting::kit_text;
use lines::Writer;
use lists::List;
pub use neighbours::neighbours_text;
use numbers::Ratio;
pub use reading::{Input, read_argument, read_full};
use refusals::Refusal;

// A text that was written, or else the status line of what refused it; answers how long it is.
pub(crate) fn text_or_refusal(written: Result<usize, Refusal>, out: &mut [u8]) -> usize
    requires { 18 ≤ length out.old }
    ensures text { IfOk written (λ length. (result ≡ length) × (out.new ≡ out.old)) }
    ensures refused { IfErr written (λ refusal. Puts (refusal_text (number_of refusal)) out.old 0 out.new result) }
{
    match written {
        Ok(length) => length,
        Err(refusal) => {
            let mut writer = Writer::new(out);
            writer.line(b"status=S\n", &[u32::from(refusal)]);
            writer.at
        }
    }
}

// The lines of a form, `count` of them, each of the numbers that `numbers` gives; where it gives none there is no line. A form takes as many of the numbers
// as it has places: there are three, since a bound on a closure names no const parameter. (By index, since a line's numbers may stand in several slices: an
// iterator of lines would be made by the same closures, as `(0..n).filter_map(..)`.)
fn write_lines<F: Fn(usize) -> Option<[u32; 3]>>(
    form: &[u8],
    count: usize,
    numbers: F,
    writer: &mut Writer,
)
    requires callable { (i : ℕ) → i < count → F.pre numbers i }
    requires room { (given : Numbers) × Gives (F.post numbers) count given × HasRoom (given_lines form.now given 0 count) writer.old }
    ensures { (given : Numbers) → Gives (F.post numbers) count given → HasRoom (given_lines form.now given 0 count) writer.old →
        Writes (given_lines form.now given 0 count) writer.old writer.new }
{
    for i in 0..count {
        if let Some(line) = numbers(i) {
            writer.line(form, &line);
        }
    }
}

// The first lines of a group that is answered by its ratio, without a core.
#[tactic(auto, unfolding(crate::specs::Texts::ratio_lines, crate::specs::Texts::ratio_form, lines::specs::Text::text))]
pub(crate) fn write_ratio(ratio: Ratio, writer: &mut Writer)
    requires { HasRoom (ratio_lines ratio.p ratio.q) writer.old }
    ensures { Writes (ratio_lines ratio.p ratio.q) writer.old writer.new }
{
    writer.line(b"status=0\nratio=P/Q\n", &[ratio.p, ratio.q]);
}

// A line for each member, rising.
pub(crate) fn write_members(members: &[u8], writer: &mut Writer)
    requires few { length members.now ≤ 512 }
    requires room { HasRoom (member_lines 0 members.now) writer.old }
    ensures { Writes (member_lines 0 members.now) writer.old writer.new }
{
    write_lines(
        b"member=A\n",
        members.len(),
        |v| (members[v] == 1).then_some([v as u32, 0, 0]),
        writer,
    );
}

// The found group's lines.
fn write_group(found: Answer, members: &[u8], writer: &mut Writer)
    requires few { length members.now ≤ 512 }
    requires room { HasRoom (answer_lines found members.now) writer.old }
    ensures { Writes (answer_lines found members.now) writer.old writer.new }
{
    let ratio = found.ratio;
    writer.line(
        b"status=0\nratio=P/Q\ncore=K,C\n",
        &[ratio.p, ratio.q, found.k, found.coresize],
    );
    write_members(members, writer);
}

// The found group's lines, and behind them the core numbers and the shares.
fn write_sheet(
    found: Answer,
    list: List,
    members: &[u8],
    cores: &[u32],
    shares: &[u32],
    writer: &mut Writer,
)
    requires few { length members.now ≤ 512 }
    requires each_pair { length shares.now ≡ list.m }
    requires room { HasRoom (sheet_lines found members.now cores.now (listed list).pairs shares.now) writer.old }
    ensures { Writes (sheet_lines found members.now cores.now (listed list.entry).pairs shares.now) writer.old writer.new }
{
    write_group(found, members, writer);
    write_lines(
        b"number=C\n",
        cores.len(),
        |v| Some([cores[v], 0, 0]),
        writer,
    );
    write_lines(
        b"share=A,B,U\n",
        shares.len(),
        |j| {
            let (a, b) = list.ends_of(j);
            Some([a, b, shares[j]])
        },
        writer,
    );
}

// The text of the group of the list that a pair file names; answers how long it is, or refuses by the file's numbers, 20.
fn write_answer(file: &[u8], out: &mut [u8]) -> Result<usize, Refusal>
    requires { 8192 ≤ length out.old }
    ensures { TextWritten (GroupRead file.now) out.old out.new result }
{
    let mut members = [0; 512];
    let found = solve_file(file, &mut members)?;
    let mut writer = Writer::new(out);
    write_group(found, &members[..found.head.n as usize], &mut writer);
    Ok(writer.at)
}

// The text of its sheet; answers how long it is, or refuses by the file's numbers, 20.
fn write_certificate(file: &[u8], out: &mut [u8]) -> Result<usize, Refusal>
    requires { 140000 ≤ length out.old }
    ensures { TextWritten (SheetRead file.now) out.old out.new result }
{
    let mut members = [0; 512];
    let mut cores = [0; 512];
    let mut shares = [0; 4096];
    let mut words = [0; 12288];
    let found = sheet_file(file, &mut members, &mut cores, &mut shares, &mut words)?;
    let list = found.head.list(&words);
    let mut writer = Writer::new(out);
    write_sheet(
        found,
        list,
        &members[..list.n],
        &cores[..list.n],
        &shares[..list.m],
        &mut writer,
    );
    Ok(writer.at)
}

// The text of a sheet that is accepted beside a pair file; answers how long it is, or refuses by the audit's numbers.
fn write_verdict(file: &[u8], sheet: &[u8], out: &mut [u8]) -> Result<usize, Refusal>
    requires { 64 ≤ length out.old }
    ensures { TextWritten (AuditRead file.now sheet.now) out.old out.new result }
{
    let ratio = sheetfile::audit(file, sheet)?;
    let mut writer = Writer::new(out);
    write_ratio(ratio, &mut writer);
    Ok(writer.at)
}

// The text of `group`, of what was read of a pair file; answers how long it is.
pub fn group_text(file: Input<65536>, out: &mut [u8]) -> usize
    requires { 8192 ≤ length out.old }
    ensures { Prints (GroupRead file.entry) out.old out.new result }
{
    text_or_refusal(write_answer(file.bytes(), out), out)
}

// The text of `sheet`, of what was read of a pair file; answers how long it is.
#[tactic(auto, using(crate::proofs::Files::shown))]
pub fn sheet_text(file: Input<65536>, out: &mut [u8]) -> usize
    requires { 140000 ≤ length out.old }
    ensures { Prints (SheetRead file.entry) out.old out.new result }
{
    text_or_refusal(write_certificate(file.bytes(), out), out)
}

// The text of `audit`, of what was read of a pair file and of a sheet; answers how long it is.
pub fn audit_text(file: Input<65536>, sheet: Input<140000>, out: &mut [u8]) -> usize
    requires { 64 ≤ length out.old }
    ensures { Prints (AuditRead file.entry sheet.entry) out.old out.new result }
{
    text_or_refusal(write_verdict(file.bytes(), sheet.bytes(), out), out)
}
