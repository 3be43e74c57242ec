// A sheet read once, from front to back, beside the list: each line is matched with its form and judged. Its numbers have up to 7 digits, those of
// members up to 4.
ghost use Rattle.std.specs.Prelude.{◌≡◌, [], ◌≤◌, length, replicate};
ghost use Rattle.theory.specs.Cores.{core_numbers};
ghost use Rattle.lists.specs.Listed.{listed};
ghost use Rattle.lines.specs.Lines.{places};
ghost use Rattle.sheetfile.specs.Sheet.{read_members, read_numbers, read_shares, read_sheet};
ghost use Rattle.sheetfile.specs.Answers.{LineDue, PartRead, NumbersRead, SheetRead};

use lines::Reader;
use lists::List;
use numbers::Ratio;
use refusals::Refusal;

// The first three lines: P and Q, K, and the number of modules in the core of order K.
#[derive(Clone, Copy, Debug, PartialEq, Eq)]
pub(crate) struct SheetHead {
    pub(crate) ratio: Ratio,
    pub(crate) k: u32,
    pub(crate) core_size: u32,
}

// The numbers of the line of a form in front: 101 where there is none.
#[tactic(auto, using(crate::proofs::Judging::due))]
fn line_due<const N: usize>(
    reader: &mut Reader,
    form: &[u8],
    digits: usize,
) -> Result<[u32; N], Refusal>
    requires digits_bound { digits ≤ 9 }
    requires form_fits { places form.now ≡ N }
    ensures { LineDue digits form.now reader.old.left.now result reader.new.left.now }
{
    reader.line::<N>(form, digits).ok_or(Refusal::BadSheetLine)
}

// The q member lines in front, each marked in the member bytes, in rising order: 101, 103.
fn read_members(reader: &mut Reader, q: usize, members: &mut [u8]) -> Result<(), Refusal>
    ensures { PartRead (read_members q 0 members.old reader.old.left.now) members.new result reader.new.left.now }
{
    let mut low = 0;
    for _ in 0..q {
        let [member] = line_due::<1>(reader, b"member=A\n", 4)?;
        let v = member as usize;
        if !(low..members.len()).contains(&v) {
            return Err(Refusal::BadMember);
        }
        members[v] = 1;
        low = v + 1;
    }
    Ok(())
}

// The number lines in front, one for each core number: 101, 104.
fn read_numbers(reader: &mut Reader, cores: &[u32]) -> Result<(), Refusal>
    ensures { NumbersRead (read_numbers cores.now reader.old.left.now) result reader.new.left.now }
{
    for core in cores {
        let [number] = line_due::<1>(reader, b"number=C\n", 7)?;
        if number != *core {
            return Err(Refusal::BadCoreNumber);
        }
    }
    Ok(())
}

// The share lines in front, one for each pair, and their shares: 101, 105.
fn read_shares(reader: &mut Reader, list: List, shares: &mut [u32]) -> Result<(), Refusal>
    requires { length shares.old ≡ list.m }
    ensures { PartRead (read_shares (listed list.entry).pairs [] reader.old.left.now) shares.new result reader.new.left.now }
{
    for (j, place) in shares.iter_mut().enumerate() {
        let [a, b, share] = line_due::<3>(reader, b"share=A,B,U\n", 7)?;
        if (a, b) != list.ends_of(j) {
            return Err(Refusal::AnotherPair);
        }
        *place = share;
    }
    Ok(())
}

// The sheet that the bytes are, beside a list and its core numbers: its head, the member bytes and the shares. 101, 102; the lines after the head; 106.
pub(crate) fn read_sheet(
    bytes: &[u8],
    list: List,
    cores: &[u32],
    members: &mut [u8],
    shares: &mut [u32],
) -> Result<SheetHead, Refusal>
    requires cores { cores.now ≡ core_numbers (listed list) }
    requires unmarked { members.old ≡ replicate list.n 0 }
    requires room { length shares.old ≡ list.m }
    ensures { SheetRead (read_sheet (listed list.entry) bytes.now) members.new shares.new result }
{
    let mut reader = Reader { left: bytes };
    let form = b"status=0\nratio=P/Q\ncore=K,C\n";
    let [p, q, k, core_size] = line_due::<4>(&mut reader, form, 7)?;
    let size = q as usize;
    if !(1..=list.n).contains(&size) {
        return Err(Refusal::BadGroupSize);
    }
    read_members(&mut reader, size, members)?;
    read_numbers(&mut reader, cores)?;
    read_shares(&mut reader, list, shares)?;
    if !reader.is_done() {
        return Err(Refusal::SheetGoesOn);
    }
    let ratio = Ratio { p, q };
    Ok(SheetHead {
        ratio,
        k,
        core_size,
    })
}
