// What the programs that only test share: random numbers, records, counts, pairs on a circle, and a list as a plain map from each pair to its stop count.
#![tactic(auto)]

ghost use Rattle.std.specs.Prelude.{◌≡◌, ◌≤◌, ◌+◌, ◌-◌, ◌^◌, OnOk, OnErr, IfOk, Some, None, length, take, count_by, nat_eq, leb, min, map};
ghost use Rattle.std.specs.List.{range_with_len};
ghost use Rattle.std.specs.BTreeMap.{btree_map_len, get, IsUnchanged};
ghost use Rattle.model.specs.Draws.{drawn_after, drawn_below};
ghost use Rattle.model.specs.Counts.{half, key, record_of, litter_at, pair_cmp, count_of, Changed, record_at, written};
ghost use Rattle.model.specs.Sums.{raised, raised_at, compared, rounded_up, circle_pair};

use records::Pair;
use std::alloc::{AllocError, Global};
use std::collections::BTreeMap;

// The number drawn after x, never 0 after one that is not (xorshift of Marsaglia, 32 bits).
pub fn after(x: u32) -> u32
    ensures { result ≡ drawn_after x }
{
    let y = x ^ (x << 13);
    let z = y ^ (y >> 17);
    z ^ (z << 5)
}

// A number below k by the upper 16 bits of one drawn; 0 where k is 0.
pub fn below(drawn: u32, k: u32) -> u32
    ensures { result ≡ drawn_below drawn k }
{
    if k == 0 { 0 } else { (drawn >> 16) % k }
}

// Random numbers, by the last one drawn.
#[derive(Clone, Copy)]
pub struct Random {
    pub last: u32,
}

impl Random {
    // The next number.
    pub fn draw(&mut self) -> u32
        ensures value { result ≡ drawn_after self.old.last }
        ensures kept { self.new.last ≡ result }
    {
        self.last = after(self.last);
        self.last
    }
}

// A number of 16 bits; 65,535 for one that has more.
fn half(x: u32) -> u16
    ensures { result ≡ half x }
{
    u16::try_from(x).unwrap_or(u16::MAX)
}

// The record of two modules and a count.
pub fn record(a: u32, b: u32, w: u32) -> Pair
    ensures { result ≡ record_of a b w }
{
    Pair {
        a: half(a),
        b: half(b),
        w: half(w),
    }
}

// So many records whose modules are none of a list's, from 60,000 on, and whose counts are from `count` on.
pub fn litter(alloc: Global, len: u16, count: u16) -> Result<Vec<Pair>, AllocError>
    ensures { IfOk result (λ records. records.items ≡ map (litter_at count) (range_with_len 0 len)) }
{
    (0..len)
        .map(|j| Pair {
            a: j.wrapping_add(60000),
            b: j.wrapping_add(60000),
            w: j.wrapping_add(count),
        })
        .collect(alloc)
}

// The first k items, or all where there are fewer: k is what the caller wants to lend, no length kept beside.
pub fn front<T>(items: &[T], k: usize) -> &[T]
    ensures { result.now ≡ take k items.now }
{
    items.get(..k).unwrap_or(items)
}

// The same, to be written.
pub fn front_mut<T>(items: &mut [T], k: usize) -> &mut [T]
    ensures { result.now ≡ take k items.old }
{
    let end = k.min(items.len());
    &mut items[..end]
}

// How many of the items are this one.
pub fn occurrences(items: &[u32], item: u32) -> usize
    ensures { result ≡ count_by (λ x. nat_eq x item) items.now }
{
    items.iter().filter(|&&x| x == item).count()
}

// How many of the items are k or more: k is a bound, no length. (Computed here, and not by the product's, which is what is tried.)
pub fn reaching(items: &[u32], k: u32) -> usize
    ensures { result ≡ count_by (λ x. leb k x) items.now }
{
    items.iter().filter(|&&x| k <= x).count()
}

// A count becomes so many more, and no more than 32 bits hold.
pub fn raise(count: &mut u32, by: u32)
    ensures { count.new ≡ raised count.old by }
{
    *count = count.saturating_add(by);
}

// So does the count at place i, where there is one. There is no From of u32 for usize. (Tried: `get_mut`, after which a proof doesn't know what was
// written.)
pub fn raise_at(counts: &mut [u32], i: u32, by: u32)
    ensures { counts.new ≡ raised_at counts.old i by }
{
    let i = i as usize;
    if i < counts.len() {
        raise(&mut counts[i], by);
    }
}

// How many comparisons differ.
#[derive(Clone, Copy, Default)]
pub struct Compared {
    pub differ: u32,
}

impl Compared {
    // One more comparison, of two that are the same or not.
    pub fn note(&mut self, same: bool)
        ensures { self.new.differ ≡ compared self.old.differ same }
    {
        raise(&mut self.differ, u32::from(!same));
    }
}

// p over q, rounded up; 0 where q is 0. (Computed here, and not by the product's, which is what is tried.)
pub fn rounded_up(p: u32, q: u32) -> u32
    ensures { result ≡ rounded_up p q }
{
    if q == 0 { 0 } else { p.div_ceil(q) }
}

// Pair i of those on a circle of `many` modules from `first` on: a module, and the one that stands `i / many + 1` behind it.
pub fn circle_pair(i: u32, first: u32, many: u32) -> (u32, u32)
    requires some { 1 ≤ many }
    requires room { first + many ≤ 2 ^ 32 }
    ensures { result ≡ circle_pair i first many }
{
    let behind = i.wrapping_add(1).wrapping_add(i / many);
    (first + i % many, first + behind % many)
}

// Two modules, the smaller first.
fn key(a: u32, b: u32) -> (u32, u32)
    ensures { result ≡ key a b }
{
    (a.min(b), a.max(b))
}

// A list as a plain model: the stop count of each pair that it holds.
#[derive(Drop)]
pub struct Stops {
    counts: BTreeMap<(u32, u32), u32>,
}

impl Stops {
    // No pairs.
    pub fn new(alloc: Global) -> Stops
        ensures { btree_map_len result.counts ≡ 0 }
    {
        Stops {
            counts: BTreeMap::new(alloc),
        }
    }

    // How many pairs are held.
    pub fn pairs(&self) -> u32
        ensures { result ≡ min (btree_map_len self.now.counts) (2 ^ 32 - 1) }
    {
        u32::try_from(self.counts.len()).unwrap_or(u32::MAX)
    }

    // The pair's count; 0 where it is not held.
    pub fn count(&self, a: u32, b: u32) -> u32
        ensures { result ≡ count_of self.now a b }
    {
        self.counts.get(&key(a, b)).copied().unwrap_or(0)
    }

    // Gives the pair this count.
    pub fn put(&mut self, a: u32, b: u32, w: u32) -> Result<(), AllocError>
        ensures ok { OnOk result (Changed self.old self.new a b (Some w)) }
        ensures err { OnErr result (IsUnchanged self.old.counts self.new.counts) }
    {
        self.counts.insert(key(a, b), w)?;
        Ok(())
    }

    // Takes the pair out; its count, where it was held.
    pub fn take(&mut self, a: u32, b: u32) -> Option<u32>
        ensures value { result ≡ get pair_cmp self.old.counts (key a b) }
        ensures changed { Changed self.old self.new a b None }
    {
        self.counts.remove(&key(a, b))
    }

    // Writes the pairs in rising order to the front of the list. The records after them stay. (Tried: `zip` with
    // `list.iter_mut()`, after which a proof knows no record, only how many.)
    #[tactic(auto, unfolding(crate::specs::Counts::written))]
    pub fn write(&self, list: &mut [Pair])
        ensures { list.new ≡ written 0 (map record_at self.now.counts.entries) list.old }
    {
        for (j, (&(a, b), &w)) in self.counts.iter().enumerate() {
            if j < list.len() {
                list[j] = record(a, b, w);
            }
        }
    }
}
