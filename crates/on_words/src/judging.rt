// Check and surplus on words: the list in the words; check then clears them.
ghost use Rattle.std.specs.Prelude.{◌≡◌, ◌≤◌, length};
ghost use Rattle.theory.specs.Words.{HoldsList};
ghost use Rattle.verify.specs.Answers.{verdict_of, difference_of};
ghost use Rattle.on_words.specs.Judging.{check_buffers, surplus_buffers, CheckOn, SurplusOn};

use crate::buffers::{Buffer, clear};
use numbers::Ratio;
use pairs::check_some_pair;
use records::Head;
use refusals::Refusal;
use verify::{check_words, surplus_words};

// What is lent to check: N entries of members, M of shares, 16,384 of work.
pub fn check_buffers(head: Head, members: usize, shares: usize, work: usize) -> [Buffer; 3]
    ensures { result ≡ check_buffers head members shares work }
{
    [
        Buffer::new(members, head.n as usize),
        Buffer::new(shares, head.m as usize),
        Buffer::new(work, 16384),
    ]
}

// Check of the list in the words; refuses by 20, 7, 8, 9.
pub fn check_on_words(
    head: Head,
    members: &[u8],
    shares: &[u32],
    work: &mut [u32],
) -> Result<Ratio, Refusal>
    requires holds_list { HoldsList head.n head.m work.old }
    requires members_long { head.n ≤ length members.now }
    requires shares_long { head.m ≤ length shares.now }
    requires work_long { 16384 ≤ length work.old }
    ensures { CheckOn head members.now shares.now work.old (verdict_of result) work.new }
{
    let judged = match check_some_pair(head.m) {
        Err(refusal) => Err(refusal),
        Ok(()) => check_words(head.list(work), members, shares),
    };
    clear(work);
    judged
}

// What is lent to surplus: N entries of each set of member bytes.
pub fn surplus_buffers(head: Head, first: usize, second: usize) -> [Buffer; 2]
    ensures { result ≡ surplus_buffers head first second }
{
    let n = head.n as usize;
    [Buffer::new(first, n), Buffer::new(second, n)]
}

// Surplus of the list in the words; refuses by 7.
pub fn surplus_on_words(
    head: Head,
    first: &[u8],
    second: &[u8],
    words: &[u32],
) -> Result<i64, Refusal>
    requires holds_list { HoldsList head.n head.m words.now }
    requires first_long { head.n ≤ length first.now }
    requires second_long { head.n ≤ length second.now }
    ensures { SurplusOn head first.now second.now words.now (difference_of result) }
{
    surplus_words(head.list(words), first, second)
}
