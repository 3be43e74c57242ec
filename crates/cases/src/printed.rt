// What programs print: `group`, `sheet` and `audit` of a pair file, and of a sheet beside it; `kit` and `neighbours` of a least size and of a pair that are
// asked for beside a pair file.
// Of what is printed, each LF becomes `;`. A file is read as the programs read it.
ghost use Rattle.std.specs.Prelude.{◌≤◌, IfOk, length};

use crate::words::Words;
use std::fs::File;
use std::io;
use texts::{Input, audit_text, group_text, kit_text, neighbours_text, read_full, sheet_text};

// The file that the next word names, read into a buffer with room for the DECIDE bytes that decide; answers how many bytes were read.
fn read<const DECIDE: usize>(
    rt: &HostRuntime,
    words: &mut Words,
    buffer: &mut [u8],
) -> io::Result<usize>
    requires decides { DECIDE ≤ length buffer.old }
    ensures within { IfOk result (λ n. n ≤ length buffer.new) }
{
    read_full::<DECIDE, _>(&mut File::open(rt, words.word()?)?, buffer)
}

// The bytes that are printed.
fn shown(rt: &HostRuntime, printed: &[u8]) -> io::Result<String> {
    let text = printed
        .iter()
        .map(|&byte| if byte == b'\n' { ';' } else { char::from(byte) });
    Ok(text.collect(rt.alloc())?)
}

// A pair file, of which `group` prints its group.
pub(crate) fn try_group(rt: &HostRuntime, words: &mut Words) -> io::Result<String> {
    let mut out = [0u8; 8192];
    let mut file = [0u8; 65536];
    let n = read::<65536>(rt, words, &mut file)?;
    let r = group_text(Input::front(&file, n), &mut out);
    shown(rt, &out[..r])
}

// A pair file, of which `sheet` prints a sheet.
pub(crate) fn try_sheet(rt: &HostRuntime, words: &mut Words) -> io::Result<String> {
    let mut out = [0u8; 140000];
    let mut file = [0u8; 65536];
    let n = read::<65536>(rt, words, &mut file)?;
    let r = sheet_text(Input::front(&file, n), &mut out);
    shown(rt, &out[..r])
}

// A pair file, and behind it the argument of `kit`, which may be empty.
pub(crate) fn try_kit(rt: &HostRuntime, words: &mut Words) -> io::Result<String> {
    let mut out = [0u8; 8192];
    let mut file = [0u8; 65536];
    let n = read::<65536>(rt, words, &mut file)?;
    let least = words.word()?.as_bytes();
    let r = kit_text(Input::front(&file, n), least, &mut out);
    shown(rt, &out[..r])
}

// A pair file, and a sheet that `audit` judges beside it.
pub(crate) fn try_verdict(rt: &HostRuntime, words: &mut Words) -> io::Result<String> {
    let mut out = [0u8; 64];
    let mut file = [0u8; 65536];
    let mut sheet = [0u8; 140000];
    let n = read::<65536>(rt, words, &mut file)?;
    let k = read::<140000>(rt, words, &mut sheet)?;
    let r = audit_text(Input::front(&file, n), Input::front(&sheet, k), &mut out);
    shown(rt, &out[..r])
}

// A pair file, and behind it two arguments of `neighbours`, which may be empty.
pub(crate) fn try_asked(rt: &HostRuntime, words: &mut Words) -> io::Result<String> {
    let mut out = [0u8; 64];
    let mut file = [0u8; 65536];
    let n = read::<65536>(rt, words, &mut file)?;
    let (first, second) = (words.word()?.as_bytes(), words.word()?.as_bytes());
    let r = neighbours_text(Input::front(&file, n), first, second, &mut out);
    shown(rt, &out[..r])
}
