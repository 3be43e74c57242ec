// What was seen.
use crate::plain::{is_below, reduced};
use crate::trials::Asked;
use flow::Searches;
use model::{Compared, Random, raise, raise_at};
use numbers::Ratio;
use std::io;

// Lists, their pairs and the stops of these, lists that were not read as they were written, comparisons that differ, how often each of four answers was given,
// what the searches with arcs did, along how many chains units moved without, the kits, how many times as dense as its kit a group with at least as many
// modules was at most, and the random numbers.
#[derive(Clone, Copy)]
pub(crate) struct Tally {
    lists: u32,
    pairs: u32,
    stops: u32,
    unread: u32,
    pub(crate) compared: Compared,
    answers: [u32; 4],
    searches: Searches,
    scanned: u32,
    kits: u32,
    worst: Ratio,
    pub(crate) random: Random,
}

impl Tally {
    // Nothing yet.
    pub(crate) fn new() -> Tally {
        Tally {
            lists: 0,
            pairs: 0,
            stops: 0,
            unread: 0,
            compared: Compared::default(),
            answers: [0; 4],
            searches: Searches::default(),
            scanned: 0,
            kits: 0,
            worst: Ratio { p: 0, q: 1 },
            random: Random { last: 2463534242 },
        }
    }

    // A list of so many pairs and stops.
    pub(crate) fn list(&mut self, pairs: u32, stops: u32) {
        raise(&mut self.lists, 1);
        raise(&mut self.pairs, pairs);
        raise(&mut self.stops, stops);
    }

    // A list that was not read as it was written.
    pub(crate) fn unread(&mut self) {
        raise(&mut self.unread, 1);
    }

    // An answer of one of the four kinds.
    pub(crate) fn answered(&mut self, kind: u32) {
        raise_at(&mut self.answers, kind, 1);
    }

    // What searches did that had no arcs.
    pub(crate) fn scanned(&mut self, searches: Searches) {
        raise(&mut self.scanned, searches.chains);
    }

    // What searches did that had arcs.
    pub(crate) fn searched(&mut self, searches: Searches) {
        self.searches = self.searches.together(searches);
    }

    // A kit, which is the one due or not.
    pub(crate) fn kit(&mut self, same: bool) {
        raise(&mut self.kits, 1);
        self.compared.note(same);
    }

    // A group that is so many times as dense as a kit.
    pub(crate) fn exceeded(&mut self, factor: Ratio) {
        if is_below(self.worst, factor) {
            self.worst = factor;
        }
    }

    // The lists; the stops, where they are not as many as the pairs.
    fn print_lists(&self, rt: &impl Print, name: &str) -> io::Result<()> {
        print!(rt; "{name}: lists={} pairs={}", self.lists, self.pairs)?;
        if self.stops != self.pairs {
            print!(rt; " stops={}", self.stops)?;
        }
        Ok(())
    }

    // What the searches did.
    fn print_searches(&self, rt: &impl Print) -> io::Result<()> {
        let Searches {
            chains,
            longest,
            none,
        } = self.searches;
        print!(rt; " chains={chains} longest={longest} none={none}")?;
        print!(rt; " scanned={}", self.scanned)
    }

    // The kits, and how many times as dense as its kit a group was at most; not where no group with stops was put beside them.
    fn print_kits(&self, rt: &impl Print) -> io::Result<()> {
        print!(rt; " kits={}", self.kits)?;
        if self.worst.p != 0 {
            let Ratio { p, q } = reduced(self.worst);
            print!(rt; " worst={p}/{q}")?;
        }
        Ok(())
    }

    // How often each of the four answers was given, which the name says.
    fn print_answers(&self, rt: &impl Print, name: &str) -> io::Result<()> {
        let [first, second, third, fourth] = self.answers;
        print!(rt; "{name} {first} {second} {third} {fourth}")
    }

    // A line: of what the searches did where peel and solve were asked, of the kits where these were, else of the answers.
    pub(crate) fn print(&self, rt: &impl Print, asked: Asked, name: &str) -> io::Result<()> {
        match asked {
            Asked::Search(_) => {
                self.print_lists(rt, name)?;
                self.print_searches(rt)?;
            }
            Asked::Kits(_) => {
                self.print_lists(rt, name)?;
                self.print_kits(rt)?;
            }
            _ => self.print_answers(rt, name)?,
        }
        println!(rt; " unread={} differ={}", self.unread, self.compared.differ)
    }
}
