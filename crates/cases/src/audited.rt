// Sheets that are audited beside a pair file: whole, with each byte altered, and as far as a buffer holds them.
ghost use Rattle.std.specs.Prelude.{◌<◌, length};

use crate::words::Words;
use model::raise;
use numbers::Ratio;
use refusals::Refusal;
use sheetfile::audit;
use std::alloc::{AllocError, Global};
use std::fs::File;
use std::{fmt, io};
use texts::read_full;

// ---- whole

// What audit answers.
fn verdict(alloc: Global, audited: Result<Ratio, Refusal>) -> Result<String, AllocError> {
    match audited {
        Ok(Ratio { p, q }) => format!(in alloc; "0 {p}/{q}"),
        Err(refusal) => format!(in alloc; "{}", u32::from(refusal)),
    }
}

// A sheet beside a pair file, both whole.
pub(crate) fn try_audit(rt: &HostRuntime, words: &mut Words) -> io::Result<String> {
    let file = words.file(rt)?;
    let sheet = words.file(rt)?;
    Ok(verdict(rt.alloc(), audit(file.as_slice(), sheet.as_slice()))?)
}

// ---- altered

// How many altered sheets are refused, best sheets themselves, and neither.
#[derive(Clone, Copy, Default)]
struct Fates {
    refused: u32,
    best: u32,
    other: u32,
}

impl Fates {
    // A sheet, by what audit answers of it and of the sheet before.
    fn note(&mut self, altered: Result<Ratio, Refusal>, before: Result<Ratio, Refusal>) {
        let count = if altered.is_err() {
            &mut self.refused
        } else if altered == before {
            &mut self.best
        } else {
            &mut self.other
        };
        raise(count, 1);
    }
}

impl fmt::Display for Fates {
    fn fmt<W: fmt::Write>(&self, f: &mut fmt::Formatter<W>) -> fmt::Result {
        write!(f, "{} {} {}", self.refused, self.best, self.other)
    }
}

// Byte i one more, and one less; then the sheet is as before.
fn alter_at(
    file: &[u8],
    sheet: &mut [u8],
    i: usize,
    before: Result<Ratio, Refusal>,
    fates: &mut Fates,
)
    requires { i < length sheet.old }
{
    let byte = sheet[i];
    for altered in [byte.wrapping_add(1), byte.wrapping_sub(1)] {
        sheet[i] = altered;
        fates.note(audit(file, sheet), before);
    }
    sheet[i] = byte;
}

// Every byte in turn. (By index: audit reads the whole sheet.)
fn alter_bytes(file: &[u8], sheet: &mut [u8]) -> Fates {
    let before = audit(file, sheet);
    let mut fates = Fates::default();
    for i in 0..sheet.len() {
        alter_at(file, sheet, i, before, &mut fates);
    }
    fates
}

// A sheet beside a pair file, altered.
pub(crate) fn try_bytes(rt: &HostRuntime, words: &mut Words) -> io::Result<String> {
    let file = words.file(rt)?;
    let mut sheet = words.file(rt)?;
    let fates = alter_bytes(file.as_slice(), sheet.as_mut_slice());
    Ok(format!(in rt.alloc(); "{fates}")?)
}

// ---- as far as a buffer holds them

// What is read of a file into a buffer of so many bytes. (`as` stands where std has no `From`: from u32 to usize.)
fn front(rt: &HostRuntime, name: &str, size: u32) -> io::Result<Vec<u8>> {
    let mut bytes = vec![in rt.alloc(); 0u8; size as usize]?;
    let n = read_full::<0, _>(&mut File::open(rt, name)?, bytes.as_mut_slice())?;
    bytes.truncate(n);
    Ok(bytes)
}

// A sheet beside a pair file, each as far as its buffer holds it.
pub(crate) fn try_limits(rt: &HostRuntime, words: &mut Words) -> io::Result<String> {
    let (file, sheet) = (words.word()?, words.word()?);
    let file = front(rt, file, words.number()?)?;
    let sheet = front(rt, sheet, words.number()?)?;
    let audited = audit(file.as_slice(), sheet.as_slice());
    let text = verdict(rt.alloc(), audited)?;
    Ok(format!(in rt.alloc(); "{} {} {text}", file.len(), sheet.len())?)
}
