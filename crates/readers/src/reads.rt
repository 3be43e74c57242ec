// read, into a list of 100 records, each 7,7,7 before the call. Each line has the length of the work buffer and how the file is made: modules=N, pairs=M,
// LINES pair lines, the first AGAIN of them again, and MORE empty lines; then the number due and the number given, the head, the first three records,
// how many of the numbers of 4,096 records are 7 as before, and the work buffer, each word of which was 7. The counts are drawn, of 8 to 1,000. The numbers due
// are those that document 01 gives, as C is answered.
use model::{after, below, circle_pair, front, front_mut, occurrences};
use records::Pair;
use std::alloc::{AllocError, Global};
use std::io;

// How a file is made.
#[derive(Clone, Copy)]
struct Made {
    n: u32,
    m: u32,
    lines: u32,
    again: u32,
    more: u32,
}

// A file of so many modules and pairs, each on its line.
fn full(n: u32, m: u32) -> Made {
    Made {
        n,
        m,
        lines: m,
        again: 0,
        more: 0,
    }
}

// A file of 512 modules whose head says m, with so many lines.
fn lines(m: u32, lines: u32, again: u32, more: u32) -> Made {
    Made {
        n: 512,
        m,
        lines,
        again,
        more,
    }
}

// The line of two modules and their count.
pub(crate) fn put_counted(file: &mut String, a: u32, b: u32, w: u32) -> Result<(), AllocError> {
    writeln!(file, "{a},{b},{w}")
}

// Pair line i: a pair of the circle of the modules 256 to 511.
fn put_pair(file: &mut String, i: u32) -> Result<(), AllocError> {
    let (a, b) = circle_pair(i, 256, 256);
    let drawn = after(after(i.wrapping_add(1).wrapping_add(i / 256)));
    put_counted(file, a, b, below(drawn, 993).wrapping_add(8))
}

// The file's lines behind the head.
fn put_lines(file: &mut String, made: Made) -> Result<(), AllocError> {
    for i in (0..made.lines).chain(0..made.again) {
        put_pair(file, i)?;
    }
    Ok(())
}

// The whole file.
fn make(alloc: Global, made: Made) -> Result<String, AllocError> {
    let mut file = String::new(alloc);
    writeln!(file, "modules={}\npairs={}", made.n, made.m)?;
    put_lines(&mut file, made)?;
    for _ in 0..made.more {
        writeln!(file)?;
    }
    Ok(file)
}

// How many of the records' numbers are 7.
fn sevens(list: &[Pair]) -> usize {
    let modules = list.iter().filter(|p| p.a == 7).count();
    let others = list.iter().filter(|p| p.b == 7).count();
    let counts = list.iter().filter(|p| p.w == 7).count();
    modules.saturating_add(others).saturating_add(counts)
}

// The first three records, and how many numbers are as before.
fn print_list(rt: &impl Print, list: &[Pair]) -> io::Result<()> {
    for &Pair { a, b, w } in front(list, 3) {
        print!(rt; " {a},{b},{w}")?;
    }
    print!(rt; " as before={}", sevens(list))
}

// One line: what read makes of the file, of the list and of the work buffer, so much of which is lent.
fn tried(rt: &impl Print, alloc: Global, due: u32, len: usize, made: Made) -> io::Result<()> {
    let mut list = [Pair { a: 7, b: 7, w: 7 }; 4096];
    let mut work = [7u32; 16400];
    let file = make(alloc, made)?;
    let lent = front_mut(&mut work, len);
    let answer = kandurzo::read(file.as_bytes(), front_mut(&mut list, 100), lent);
    let Made {
        n,
        m,
        lines,
        again,
        more,
    } = made;
    print!(rt; "read, work={len} modules={n} pairs={m} lines={lines} again={again} more={more}")?;
    print!(rt; ": due={due} number={}", answer.number)?;
    print!(rt; " head={},{}", answer.head.n, answer.head.m)?;
    print_list(rt, &list)?;
    println!(rt; " work={},{}", occurrences(&work, 0), occurrences(&work, 7))
}

// Each of these files, with the number due and the length of the work buffer.
fn try_all(rt: &impl Print, alloc: Global, files: &[(u32, usize, Made)]) -> io::Result<()> {
    for &(due, len, made) in files {
        tried(rt, alloc, due, len, made)?;
    }
    Ok(())
}

// Files that are accepted.
fn taken(rt: &impl Print, alloc: Global) -> io::Result<()> {
    let files = [
        (0, 16384, full(512, 100)),
        (0, 16400, full(512, 99)),
        (0, 16400, full(512, 2)),
        (0, 16384, full(258, 1)),
        (0, 16384, full(512, 0)),
    ];
    try_all(rt, alloc, &files)
}

// Files refused by what their first two lines say.
fn refused_head(rt: &impl Print, alloc: Global) -> io::Result<()> {
    let files = [
        (2, 16384, full(0, 0)),
        (2, 16400, full(513, 100)),
        (2, 16384, full(513, 101)),
        (11, 16384, full(512, 101)),
        (11, 16400, lines(101, 0, 0, 0)),
        (11, 16384, lines(101, 100, 0, 0)),
        (11, 16384, full(256, 101)),
        (11, 16384, lines(101, 50, 51, 9)),
        (11, 16384, full(512, 4096)),
        (3, 16384, full(512, 4097)),
        (3, 16384, lines(9999, 0, 0, 0)),
        (1, 16384, lines(10000, 0, 0, 0)),
    ];
    try_all(rt, alloc, &files)
}

// Files refused by their pair lines, or by what follows them.
fn refused_lines(rt: &impl Print, alloc: Global) -> io::Result<()> {
    let files = [
        (1, 16384, lines(100, 99, 0, 0)),
        (1, 16384, lines(100, 99, 0, 1)),
        (4, 16384, full(256, 100)),
        (4, 16400, full(300, 100)),
        (10, 16384, lines(100, 99, 1, 0)),
        (6, 16384, lines(100, 100, 0, 1)),
        (6, 16400, lines(100, 101, 0, 0)),
        (6, 16384, lines(100, 100, 1, 0)),
    ];
    try_all(rt, alloc, &files)
}

// The work buffer is too short, whatever the file.
fn short(rt: &impl Print, alloc: Global) -> io::Result<()> {
    let files = [
        (12, 16383, full(512, 100)),
        (12, 16383, full(512, 0)),
        (12, 16383, full(513, 0)),
        (12, 16383, full(512, 101)),
        (12, 16383, lines(4097, 0, 0, 0)),
        (12, 16383, lines(100, 99, 0, 0)),
        (12, 0, full(512, 100)),
    ];
    try_all(rt, alloc, &files)
}

// All these files.
pub(crate) fn run(rt: &impl Print, alloc: Global) -> io::Result<()> {
    taken(rt, alloc)?;
    refused_head(rt, alloc)?;
    refused_lines(rt, alloc)?;
    short(rt, alloc)
}
