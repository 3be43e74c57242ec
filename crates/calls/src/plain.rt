// What solve has to answer for its members, core numbers and shares, and kit for its members, computed a second time from the records as plainly as can be.
use crate::samples::Lent;
use model::{front, raise_at, reaching, rounded_up};
use records::Pair;

// The members' inside count and number, that ratio rounded up, how many core numbers are that or more, how many shares are above W times Q, and how many
// loads above P.
#[derive(Clone, Copy)]
pub(crate) struct Second {
    pub(crate) p: u32,
    pub(crate) q: u32,
    pub(crate) k: u32,
    pub(crate) core: usize,
    pub(crate) shares: usize,
    pub(crate) loads: usize,
}

// Whether a module is a member.
fn is_member(members: &[u8], module: u16) -> bool {
    members.get(usize::from(module)).copied() == Some(1)
}

// The counts of the pairs of members.
fn inside(pairs: &[Pair], members: &[u8]) -> u32 {
    pairs
        .iter()
        .filter(|p| is_member(members, p.a) && is_member(members, p.b))
        .fold(0u32, |sum, p| sum.saturating_add(u32::from(p.w)))
}

// How many are members.
fn size(members: &[u8]) -> u32 {
    let size = members.iter().filter(|&&byte| byte == 1).count();
    u32::try_from(size).unwrap_or(u32::MAX)
}

// The members' inside count and number.
pub(crate) fn counted(lent: &Lent, members: &[u8]) -> (u32, u32) {
    (
        inside(lent.pairs(), members),
        size(front(members, lent.n())),
    )
}

// How many are not the same.
pub(crate) fn unlike(same: &[bool]) -> usize {
    same.iter().filter(|&&same| !same).count()
}

// How many entries of two lists differ.
pub(crate) fn differing<T: PartialEq>(first: &[T], second: &[T]) -> usize {
    first
        .iter()
        .zip(second.iter())
        .filter(|&(x, y)| x != y)
        .count()
}

// A pair's units at share size q.
fn units(pair: &Pair, q: u32) -> u32 {
    u32::from(pair.w).saturating_mul(q)
}

// How many shares are above their pair's units.
fn shares_above(pairs: &[Pair], shares: &[u32], q: u32) -> usize {
    pairs
        .iter()
        .zip(shares.iter())
        .filter(|&(pair, &share)| units(pair, q) < share)
        .count()
}

// Adds what both modules of each pair receive.
fn add_loads(pairs: &[Pair], shares: &[u32], q: u32, loads: &mut [u32]) {
    for (pair, &share) in pairs.iter().zip(shares.iter()) {
        raise_at(loads, u32::from(pair.a), share);
        raise_at(loads, u32::from(pair.b), units(pair, q).wrapping_sub(share));
    }
}

// The second computation.
pub(crate) fn computed(lent: &Lent, members: &[u8], cores: &[u32], shares: &[u32]) -> Second {
    let mut loads = [0u32; 512];
    let (p, q) = counted(lent, members);
    let k = rounded_up(p, q);
    add_loads(lent.pairs(), shares, q, &mut loads);
    Second {
        p,
        q,
        k,
        core: reaching(front(cores, lent.n()), k),
        shares: shares_above(lent.pairs(), shares, q),
        loads: reaching(front(&loads, lent.n()), p.saturating_add(1)),
    }
}
