// Lists drawn into the model, and written as files: the pairs in the order drawn, either module first. A pair file has their counts, a DIMACS file
// comments before some lines.
use crate::plans::{Form, Plan};
use crate::reads;
use crate::ways::Way;
use model::{Random, Stops, after, below, raise};
use std::alloc::{AllocError, Global};

// Two modules of n by chance, or one of them twice.
fn drawn(n: u32, random: &mut Random) -> (u32, u32) {
    let a = below(random.draw(), n);
    let b = below(random.draw(), n);
    (a, b)
}

// Whether a draw is a pair that the model has not, and there are fewer than the most.
fn is_new(plan: Plan, a: u32, b: u32, stops: &Stops) -> bool {
    a != b && stops.pairs() != plan.most && stops.count(a, b) == 0
}

// The list of all draws.
pub(crate) fn fill(plan: Plan, seed: Random, alloc: Global) -> Result<Stops, AllocError> {
    let mut stops = Stops::new(alloc);
    let mut random = seed;
    for _ in 0..plan.draws {
        let (a, b) = drawn(plan.n, &mut random);
        if is_new(plan, a, b, &stops) {
            let w = below(after(random.last), plan.top).saturating_add(1);
            stops.put(a, b, w)?;
        }
    }
    Ok(stops)
}

// A file that is made: its text, how many comments it has, and the pair of its last line.
#[derive(Drop)]
pub(crate) struct File {
    form: Form,
    pub(crate) text: String,
    pub(crate) comments: u32,
    last: (u32, u32),
}

// In a DIMACS file, a comment of one of four kinds one time in four.
fn put_comment(file: &mut File, drawn: u32) -> Result<(), AllocError> {
    if file.form != Form::Dimacs {
        return Ok(());
    }
    let comment = match drawn / 4096 % 16 {
        0 => "c\n",
        1 => "c \n",
        2 => "c e 1 2\r\n",
        3 => "c p edge 1 0\n",
        _ => return Ok(()),
    };
    raise(&mut file.comments, 1);
    file.text.push_str(comment)
}

// The line of two modules and their count. They are numbered from 1 in a DIMACS file, which has no counts.
fn put_stops(file: &mut File, a: u32, b: u32, w: u32) -> Result<(), AllocError> {
    match file.form {
        Form::Counted => reads::put_counted(&mut file.text, a, b, w),
        Form::Dimacs => {
            let (a, b) = (a.wrapping_add(1), b.wrapping_add(1));
            writeln!(&mut file.text, "e {a} {b}")
        }
    }
}

// The lines of all draws whose pair is in the model still, from which it is taken.
fn put_lines(
    plan: Plan,
    seed: Random,
    file: &mut File,
    stops: &mut Stops,
) -> Result<(), AllocError> {
    let mut random = seed;
    for _ in 0..plan.draws {
        let (a, b) = drawn(plan.n, &mut random);
        if let Some(w) = stops.take(a, b) {
            put_comment(file, random.last)?;
            put_stops(file, a, b, w)?;
            file.last = (a, b);
        }
    }
    Ok(())
}

// The line that is damaged or too many.
fn last_line(file: &File, way: Way) -> (u32, u32, u32) {
    let unknown = match file.form {
        Form::Counted => 512,
        Form::Dimacs => u32::MAX,
    };
    let (a, b) = file.last;
    match way {
        Way::ExtraLine | Way::UnknownTwice => (unknown, unknown, 1),
        Way::UnknownOnce => (unknown, 1, 1),
        Way::SameModule => (0, 0, 1),
        Way::TurnedAgain => (b, a, 1000),
        Way::NoStops => (0, 1, 0),
        Way::TooManyStops => (0, 1, 1001),
        Way::FourDigits => (0, 1, 9999),
        Way::FiveDigits => (0, 1, 10000),
        Way::UnknownNoStops => (0, unknown, 0),
        Way::SameTooManyStops => (0, 0, 1001),
        Way::TurnedTooManyStops => (b, a, 1001),
        _ => (0, 1, 1),
    }
}

// What stands behind the lines.
fn put_end(file: &mut File, way: Way) -> Result<(), AllocError> {
    match way {
        Way::Sound
        | Way::TooFewLines
        | Way::TooManyModules
        | Way::TooManyPairs
        | Way::MoreThanRecords
        | Way::ShortWork => Ok(()),
        Way::NoLastEnd => {
            file.text.pop();
            Ok(())
        }
        Way::NoLine => file.text.push_str("cx\n"),
        Way::LeadingZero => file.text.push_str("0,1,01\n"),
        Way::OldLine => file.text.push_str("pair=0,1\n"),
        Way::NoCount => file.text.push_str("0,1\n"),
        _ => {
            let (a, b, w) = last_line(file, way);
            put_stops(file, a, b, w)
        }
    }
}

// The line or lines of N and M in front.
fn put_head(file: &mut File, n: u32, m: u32) -> Result<(), AllocError> {
    match file.form {
        Form::Counted => writeln!(&mut file.text, "modules={n}\npairs={m}"),
        Form::Dimacs => writeln!(&mut file.text, "p edge {n} {m}"),
    }
}

// The file of a list, whose pairs are taken out of it; in a DIMACS file the head is behind a comment or none, and so is the end.
pub(crate) fn make(
    plan: Plan,
    way: Way,
    seed: Random,
    stops: &mut Stops,
    alloc: Global,
) -> Result<File, AllocError> {
    let mut file = File {
        form: plan.form,
        text: String::new(alloc),
        comments: 0,
        last: (0, 0),
    };
    put_comment(&mut file, seed.last)?;
    put_head(&mut file, way.modules(plan), way.pairs(plan, stops.pairs()))?;
    put_lines(plan, seed, &mut file, stops)?;
    put_comment(&mut file, after(seed.last))?;
    put_end(&mut file, way)?;
    Ok(file)
}
