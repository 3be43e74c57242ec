// Check and surplus, on a list that lies in words (document 01, "Check" and "Surplus").
// Check counts P and Q of the group itself (crate `groups`), tests each share against its pair's units at share size Q, adds up the load of each
// module, and accepts where no load is above P: then group and split are both best (demand 3, `Optimal`). Surplus is the
// difference of two products, as i64. Both cost a few passes over modules and pairs, and write nothing.
// A share is the units of its pair's smaller end. The list has been found good and every buffer long enough (13, 12 and check's 20 are the caller's); the
// refusals here are 7, 8 and 9, in document 01's order.
#![tactic(auto)]

mod split;

ghost use Rattle.std.specs.Prelude.{◌≡◌, ◌*◌, ◌≤◌, length, take, pos, ◌-ℤ◌, Ok};
ghost use Rattle.theory.specs.Groups.{bytes_good};
ghost use Rattle.lists.specs.Listed.{listed};
ghost use Rattle.verify.specs.Counts.{size_of, ratio_of, IsSmall};
ghost use Rattle.verify.specs.Answers.{verdict_of, difference_of, CheckSays, SurplusSays};

use lists::List;
use numbers::Ratio;
use refusals::Refusal;
use split::Split;

// The answer of check, and of kit, as C has it: 0 and the group's inside count p and size q, or a refusal number and zeros.
#[repr(C)]
#[derive(Clone, Copy, Debug, PartialEq, Eq)]
pub struct Verdict {
    pub number: u32,
    pub p: u32,
    pub q: u32,
}

// Surplus's answer as C has it: 0 and the value, or a refusal number and zero.
#[repr(C)]
#[derive(Clone, Copy, Debug, PartialEq, Eq)]
pub struct Difference {
    pub number: u32,
    pub value: i64,
}

impl From<Result<Ratio, Refusal>> for Verdict {
    ghost from_gives = { λ answer verdict. verdict ≡ verdict_of answer };

    fn from(answer: Result<Ratio, Refusal>) -> Verdict {
        match answer {
            Ok(Ratio { p, q }) => Verdict { number: 0, p, q },
            Err(refusal) => Verdict {
                number: u32::from(refusal),
                p: 0,
                q: 0,
            },
        }
    }
}

impl From<Result<i64, Refusal>> for Difference {
    ghost from_gives = { λ answer difference. difference ≡ difference_of answer };

    fn from(answer: Result<i64, Refusal>) -> Difference {
        match answer {
            Ok(value) => Difference { number: 0, value },
            Err(refusal) => Difference {
                number: u32::from(refusal),
                value: 0,
            },
        }
    }
}

// Whether the bytes are member bytes, 0 or 1.
fn bytes_good(members: &[u8]) -> bool
    ensures { result ≡ bytes_good members.now }
{
    members.iter().all(|&byte| byte <= 1)
}

// The size of a group: refuses by 7 where the bytes make none.
#[tactic(auto, using(crate::proofs::Groups::sizes, crate::proofs::Bounds::few))]
fn size_of(list: List, members: &[u8]) -> Result<u32, Refusal>
    requires { length members.now ≡ list.n }
    ensures { result ≡ size_of (listed list.entry) members.now }
{
    if !bytes_good(members) {
        return Err(Refusal::BadMembers);
    }
    let q = groups::group_size(members);
    if q == 0 {
        return Err(Refusal::BadMembers);
    }
    Ok(q)
}

// The inside count of a group of size q, and that size.
#[tactic(auto, using(crate::proofs::Groups::counted))]
fn ratio_of(list: List, members: &[u8], q: u32) -> Ratio
    requires members_len { length members.now ≡ list.n }
    requires q_is { size_of (listed list) members.now ≡ Ok q }
    ensures ratio { Ok result ≡ ratio_of (listed list.entry) members.now }
    ensures size { result.q ≡ q }
{
    let p = groups::inside_count(list, members);
    Ratio { p, q }
}

// The difference of the cross products of two ratios: exact, since no product leaves 32 bits.
#[tactic(auto, using(crate::proofs::Bounds::product_small))]
fn cross_difference(first: Ratio, second: Ratio) -> i64
    requires first_small { IsSmall first }
    requires second_small { IsSmall second }
    ensures { result ≡ pos (second.q * first.p) -ℤ pos (second.p * first.q) }
{
    i64::from(second.q * first.p) - i64::from(second.p * first.q)
}

// Check: refuses by 7, 8, 9. All shares are looked at before the inside count and any load.
#[tactic(auto, using(crate::proofs::Answers::check_refuses))]
pub fn check_words(list: List, members: &[u8], shares: &[u32]) -> Result<Ratio, Refusal>
    requires members_len { list.n ≤ length members.now }
    requires shares_len { list.m ≤ length shares.now }
    ensures { CheckSays (listed list.entry)
        (take list.entry.n members.now) (take list.entry.m shares.now) (verdict_of result) }
{
    let group = &members[..list.n];
    let q = size_of(list, group)?;
    let split = Split::of(list, &shares[..list.m], q)?;
    let ratio = ratio_of(list, group, q);
    if ratio.p < split.greatest_load() {
        return Err(Refusal::LoadTooLarge);
    }
    Ok(ratio)
}

// Surplus of the first group against the second: refuses by 7. Both sets are looked at before either inside count.
#[tactic(auto, using(crate::proofs::Answers::surplus_refuses))]
pub fn surplus_words(list: List, first: &[u8], second: &[u8]) -> Result<i64, Refusal>
    requires first_len { list.n ≤ length first.now }
    requires second_len { list.n ≤ length second.now }
    ensures { SurplusSays (listed list.entry)
        (take list.entry.n first.now) (take list.entry.n second.now) (difference_of result) }
{
    let first_group = &first[..list.n];
    let second_group = &second[..list.n];
    let first_size = size_of(list, first_group)?;
    let second_size = size_of(list, second_group)?;
    let first_ratio = ratio_of(list, first_group, first_size);
    let second_ratio = ratio_of(list, second_group, second_size);
    Ok(cross_difference(first_ratio, second_ratio))
}
