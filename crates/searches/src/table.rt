// The table of what is tried, a row a line: nine numbers with a space between them, and behind a space, where a line of the output ends with the row, its
// name. The numbers are what is asked and with what (module `trials`), the kind of the lists and its two numbers, which stop counts their pairs have (module
// `kinds`), how many modules the first list has, how many lists there are of each number of modules, and how many in all. A number becomes a case by
// `numbered`, None for one that no case has: TryFrom would need an error that says no more.
use crate::draws::Lists;
use crate::kinds::{Counts, Kind};
use crate::tally::Tally;
use crate::trials::{Asked, try_lists};
use std::alloc::Global;
use std::io;

// A row: what is asked, of which lists, and the name of the line that ends with it.
#[derive(Clone, Copy)]
struct Row<'a> {
    asked: Asked,
    lists: Lists,
    name: Option<&'a str>,
}

// The nine numbers of a line, and what stands behind them.
fn numbers(line: &str) -> Option<([u32; 9], Option<&str>)> {
    let mut words = line.splitn(10, ' ');
    let mut numbers = [0; 9];
    for number in numbers.iter_mut() {
        *number = words.next()?.parse().ok()?;
    }
    Some((numbers, words.next()))
}

// The row of a line.
fn row_of(line: &str) -> Option<Row<'_>> {
    let ([asked, with, kind, x, y, counts, least, each, count], name) = numbers(line)?;
    let lists = Lists {
        kind: Kind::numbered(kind, x, y)?,
        counts: Counts::numbered(counts)?,
        least,
        each,
        count,
    };
    let asked = Asked::numbered(asked, with)?;
    Some(Row { asked, lists, name })
}

// Tries every row, and prints the line that ends with it.
pub(crate) fn try_rows(rt: &impl Print, alloc: Global, table: &str) -> io::Result<()> {
    let mut tally = Tally::new();
    for line in table.lines() {
        let Some(row) = row_of(line) else {
            return Err(io::Error::other("a row of the table is not as it should be"));
        };
        try_lists(row.asked, row.lists, alloc, &mut tally)?;
        if let Some(name) = row.name {
            tally.print(rt, row.asked, name)?;
            tally = Tally::new();
        }
    }
    Ok(())
}
