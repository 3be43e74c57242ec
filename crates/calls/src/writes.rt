// write_dimacs: the list *tail* of document 01, other small lists, and lists of 512 modules; counts are not in the file. Each line has the length written,
// and how many of the text's 65,600 bytes are not as due: the file of the list, made here a second time from its records, and past it, or after a refusal
// from the first on, the bytes that were there before.
use crate::plain::differing;
use crate::samples::{Counts, Damage, Kind, Lent, NONE};
use crate::{print, samples};
use kandurzo::write_dimacs;
use model::front_mut;
use std::alloc::{AllocError, Global};
use std::io;

// What is altered: the length lent, and a byte of the text due.
#[derive(Clone, Copy)]
struct Altered {
    text: usize,
    byte: Option<usize>,
}

// Nothing is.
const SOUND: Altered = Altered {
    text: 65536,
    byte: None,
};

// The file of the list where it is due, and nothing beside a refusal.
fn file_due(alloc: Global, due: u32, lent: &Lent) -> Result<String, AllocError> {
    let mut file = String::new(alloc);
    if due != 0 {
        return Ok(file);
    }
    writeln!(&mut file, "p edge {} {}", lent.head.n, lent.head.m)?;
    for pair in lent.pairs() {
        let a = u32::from(pair.a).saturating_add(1);
        let b = u32::from(pair.b).saturating_add(1);
        writeln!(&mut file, "e {a} {b}")?;
    }
    Ok(file)
}

// The text due: the file, and behind it the bytes that were there before; then a byte is altered.
fn text_due(file: String, altered: Option<usize>) -> Result<Vec<u8>, AllocError> {
    let mut text = file.into_bytes();
    text.resize(65600, 9)?;
    if let Some(i) = altered
        && let Some(byte) = text.get_mut(i)
    {
        *byte = 0;
    }
    Ok(text)
}

// One line: what write_dimacs says and writes of a list, and how much of it is not as due. There is no From of u32 for usize.
fn tried(
    rt: &impl Print,
    alloc: Global,
    name: &str,
    due: u32,
    lent: &Lent,
    a: Altered,
) -> io::Result<()> {
    let mut text = [9u8; 65600];
    let file = file_due(alloc, due, lent)?;
    let written = write_dimacs(lent.head, &lent.list, front_mut(&mut text, a.text));
    let length = usize::from(written.length as usize != file.len());
    let text_due = text_due(file, a.byte)?;
    let differ = differing(&text, text_due.as_slice()).saturating_add(length);
    print::begin(rt, "write_dimacs", name, due, written.number)?;
    println!(rt; " length={} differ={differ}", written.length)
}

// A list that is altered.
pub(crate) fn damaged(
    rt: &impl Print,
    alloc: Global,
    name: &str,
    due: u32,
    damage: Damage,
) -> io::Result<()> {
    tried(rt, alloc, name, due, &samples::tail(damage), SOUND)
}

// The list *tail*, its head with N, so much of the text, and the byte due that is altered.
fn buffers(rt: &impl Print, alloc: Global) -> io::Result<()> {
    let all = [
        ("as it is", 0, 5, 65536, None),
        ("longer text", 0, 5, 65600, None),
        ("short text", 12, 5, 65535, None),
        ("text of the file's length", 12, 5, 53, None),
        ("no text", 12, 5, 0, None),
        ("no modules, and short text", 13, 0, 65535, None),
        ("first byte due altered", 0, 5, 65536, Some(0)),
        ("last byte due altered", 0, 5, 65536, Some(52)),
        ("byte past it altered", 0, 5, 65536, Some(53)),
    ];
    for (name, due, n, text, byte) in all {
        let lent = samples::tail(Damage { n, ..NONE });
        tried(rt, alloc, name, due, &lent, Altered { text, byte })?;
    }
    Ok(())
}

// Lists with other files: so many modules, and so many pairs of two triangles.
fn others(rt: &impl Print, alloc: Global) -> io::Result<()> {
    let all = [
        ("one module", 1, 0),
        ("no pairs", 512, 0),
        ("two triangles", 6, 6),
        ("one of them", 6, 3),
        ("two of its pairs", 3, 2),
    ];
    for (name, n, m) in all {
        tried(rt, alloc, name, 0, &samples::triangles(n, m), SOUND)?;
    }
    Ok(())
}

// Lists of 512 modules, to which so many pairs are added.
fn large(rt: &impl Print, alloc: Global) -> io::Result<()> {
    let ones = Counts::All(1);
    let all = [
        ("512 modules, pairs by chance", Kind::Chance, ones),
        (
            "by chance, counts 1 to 1,000",
            Kind::Chance,
            Counts::Upto(1000),
        ),
        ("512 modules, a wide circle", Kind::Circle, ones),
        ("512 modules, a clique of 64", Kind::Clique, ones),
    ];
    for (name, kind, counts) in all {
        tried(
            rt,
            alloc,
            name,
            0,
            &samples::large(kind, 4096, counts),
            SOUND,
        )?;
    }
    Ok(())
}

pub(crate) fn run(rt: &impl Print, alloc: Global) -> io::Result<()> {
    buffers(rt, alloc)?;
    others(rt, alloc)?;
    large(rt, alloc)
}
