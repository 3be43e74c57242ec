// The lent records: the only functions that read or write &[Pair]. Everything above works on words, but place, which looks a pair
// up where the records lie.
//   copy_out   records to words: the numbers of record j to words 2j and 2j + 1, and its count to word 8,192 + j
//   copy_in    words to records
//   agree      whether head and list agree (document 01, number 13)
//   lookup     where a pair is held (document 02, item 3): the search of crate pairs, on the records where they lie
// Each but the last is one pass over the records that it names, and all are blind to what is in a record: the methods of Pair, lay and record_at know that.
// `as` stands where std has no `From`: from u32 to usize, and where a bound lets a number fit fewer bits.
#![tactic(auto)]

ghost use Rattle.std.specs.Prelude.{◌≡◌, true, ◌&&◌, ◌+◌, ◌*◌, leb, length};
ghost use Rattle.theory.specs.Lists.{pair, stands_before, rising};
ghost use Rattle.theory.specs.Words.{laid_list, HoldsList};
ghost use Rattle.lists.specs.Listed.{listed};
ghost use Rattle.pairs.specs.Located.{place_in, located};
ghost use Rattle.records.specs.Records.{copied_record, word_record, copied_out, records_in, put_back, RoomAt, FitsAt, RoomOut, RoomBack, agrees};
ghost use Rattle.records.specs.Records.{as_pair, as_pairs, blank};
ghost use Rattle.records.specs.Scan.{may_follow, good_after};

use lists::List;
use pairs::search;

// A record: two module numbers, the smaller first, and the pair's stop count.
#[repr(C)]
#[derive(Clone, Copy, Debug, Default, PartialEq, Eq)]
pub struct Pair {
    pub a: u16,
    pub b: u16,
    pub w: u16,
}

// A head: the number of modules, and of pairs held.
#[repr(C)]
#[derive(Clone, Copy, Debug, Default, PartialEq, Eq)]
pub struct Head {
    pub n: u32,
    pub m: u32,
}

impl Pair {
    // Its module numbers.
    fn ends(self) -> (u32, u32)
        ensures first { result.0 ≡ self.a }
        ensures second { result.1 ≡ self.b }
    {
        (u32::from(self.a), u32::from(self.b))
    }

    // Whether it stands before another. The two numbers of each are compared as one, so that no branch goes by chance.
    fn stands_before(self, other: Pair) -> bool
        ensures { result ≡ stands_before (as_pair self) (as_pair other) }
    {
        65536 * u32::from(self.a) + u32::from(self.b)
            < 65536 * u32::from(other.a) + u32::from(other.b)
    }

    // Whether a list of n modules may hold it behind `last`: it is of two of them, the smaller first, counts 1 to 1,000 times, and rises.
    #[tactic(auto, unfolding(crate::specs::Scan::may_follow, crate::specs::Records::as_pair, theory::specs::Lists::weight_in_range))]
    fn may_follow(self, last: Pair, n: u32) -> bool
        ensures { result ≡ may_follow n last self }
    {
        u32::from(self.b) < n
            && self.a < self.b
            && (1..=1000).contains(&self.w)
            && last.stands_before(self)
    }
}

impl Head {
    // Whether it is of 1 to 512 modules and at most 4,096 pairs.
    fn in_range(self) -> bool
        ensures { result ≡ ((leb 1 self.n && leb self.n 512) && leb self.m 4096) }
    {
        (1..=512).contains(&self.n) && self.m <= 4096
    }

    // The list of that many modules and pairs in one buffer.
    pub fn list(self, words: &[u32]) -> List<'_>
        requires { HoldsList self.n self.m words.now }
        ensures modules { result.n ≡ self.n }
        ensures pairs { result.m ≡ self.m }
        ensures value { listed result ≡ laid_list self.n self.m words.now }
    {
        List::in_words(self.n as usize, self.m as usize, words)
    }
}

// One record's numbers to words 2i and 2i + 1, and its count to word 8,192 + i.
#[tactic(auto, unfolding(crate::specs::Records::copied_record))]
fn lay(words: &mut [u32], i: usize, p: Pair)
    requires { RoomAt i words.old }
    ensures { words.new ≡ copied_record words.old i p }
{
    words[2 * i] = u32::from(p.a);
    words[2 * i + 1] = u32::from(p.b);
    words[8192 + i] = u32::from(p.w);
}

// One record from words.
fn record_at(words: &[u32], i: usize) -> Pair
    requires room { RoomAt i words.now }
    requires fits { FitsAt i words.now }
    ensures { result ≡ word_record words.now i }
{
    Pair {
        a: words[2 * i] as u16,
        b: words[2 * i + 1] as u16,
        w: words[8192 + i] as u16,
    }
}

// Records to words. The other words stay.
#[tactic(auto, using(crate::proofs::Copies::copied_out_none, crate::proofs::Copies::copied_out_more))]
pub fn copy_out(records: &[Pair], words: &mut [u32])
    requires { RoomOut records.now words.old }
    ensures { words.new ≡ copied_out records.now words.old }
{
    for (i, p) in records.iter().enumerate() {
        lay(words, i, *p);
    }
}

// Records from words.
#[tactic(auto, using(crate::proofs::Copies::put_backs), unfolding(crate::specs::Records::FitsRecords))]
pub fn copy_in(records: &mut [Pair], words: &[u32])
    requires { RoomBack records.old words.now }
    ensures read { records.new ≡ records_in (length records.old) words.now }
    ensures back { records.new ≡ put_back records.old words.now (length records.old) }
{
    for (i, p) in records.iter_mut().enumerate() {
        *p = record_at(words, i);
    }
}

// Whether records are good, and rise. (Before the first one `last` is 0,0,0, which stands before every pair of two modules: no `Option` is needed.)
#[tactic(auto, using(crate::proofs::Scans::good_next, crate::proofs::Scans::good_fails, crate::proofs::Scans::good_done))]
fn all_good(n: u32, records: &[Pair]) -> bool
    ensures { result ≡ good_after n blank records.now }
{
    let mut last = Pair::default();
    for p in records {
        if !p.may_follow(last, n) {
            return false;
        }
        last = *p;
    }
    true
}

// Whether head and list agree. The records are read where they lie.
#[tactic(auto, using(crate::proofs::Scans::agrees_short))]
pub fn agree(head: Head, list: &[Pair]) -> bool
    ensures { result ≡ agrees head list.now }
{
    let Some(records) = list.get(..head.m as usize) else {
        return false;
    };
    head.in_range() && all_good(head.n, records)
}

// Where the pair a,b is held among records, or else where it would go. The records are read where they lie.
pub fn lookup(records: &[Pair], a: u32, b: u32) -> Result<usize, usize>
    requires { rising (as_pairs records.now) ≡ true }
    ensures { place_in result ≡ located (pair a b) (as_pairs records.now) }
{
    search(records, |p| p.ends().cmp(&(a, b)))
}
