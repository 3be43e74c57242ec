// Kit on words: the list in the work buffer's words, then zeros. 20 where there is no pair, 21 where k is outside 1 to N.
ghost use Rattle.std.specs.Prelude.{◌≡◌, ◌≤◌, length};
ghost use Rattle.theory.specs.Kits.{kit_number};
ghost use Rattle.theory.specs.Words.{HoldsList};
ghost use Rattle.refusals.specs.Numbers.{number_in};
ghost use Rattle.verify.specs.Answers.{verdict_of};
ghost use Rattle.on_words.specs.Kitting.{kit_buffers, KitOn};

use crate::buffers::{Buffer, clear};
use kits::kit;
use numbers::Ratio;
use pairs::check_some_pair;
use records::Head;
use refusals::Refusal;

// What is lent: N entries of members, 16,384 of work.
pub fn kit_buffers(head: Head, members: usize, work: usize) -> [Buffer; 2]
    ensures { result ≡ kit_buffers head members work }
{
    [
        Buffer::new(members, head.n as usize),
        Buffer::new(work, 16384),
    ]
}

// Refuses a list without pairs, and a least size outside 1 to N: 20, 21.
fn check_least(head: Head, k: u32) -> Result<(), Refusal>
    ensures { number_in result ≡ kit_number head.n head.m k }
{
    check_some_pair(head.m)?;
    if (1..=head.n).contains(&k) {
        Ok(())
    } else {
        Err(Refusal::BadLeastSize)
    }
}

// The kit of at least k modules of the list in the words; refuses by 20, 21.
pub fn kit_on_words(
    head: Head,
    k: u32,
    members: &mut [u8],
    work: &mut [u32],
) -> Result<Ratio, Refusal>
    requires holds_list { HoldsList head.n head.m work.old }
    requires members_long { head.n ≤ length members.old }
    requires work_long { 16384 ≤ length work.old }
    ensures { KitOn head k members.old work.old (verdict_of result) members.new work.new }
{
    let made = match check_least(head, k) {
        Err(refusal) => Err(refusal),
        Ok(()) => Ok(kit(head.list(work), k as usize, members)),
    };
    clear(work);
    made
}
