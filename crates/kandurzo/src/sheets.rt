// Peel, solve, check, kit and surplus: what they find, or why they refuse.
ghost use Rattle.refusals.specs.Numbers.{number_in};
ghost use Rattle.verify.specs.Answers.{verdict_of, difference_of};
ghost use Rattle.on_words.specs.Solving.{solved_of};
ghost use Rattle.kandurzo.specs.Peeling.{PeelCall};
ghost use Rattle.kandurzo.specs.Solving.{SolveCall};
ghost use Rattle.kandurzo.specs.Judging.{CheckCall, SurplusCall};
ghost use Rattle.kandurzo.specs.Kitting.{KitCall};

use crate::laying::lay_held;
use numbers::Ratio;
use on_words::Solution;
use on_words::judging::{check_buffers, check_on_words, surplus_buffers, surplus_on_words};
use on_words::kitting::{kit_buffers, kit_on_words};
use on_words::peeling::{peel_buffers, peel_on_words};
use on_words::solving::{solve_buffers, solve_on_words};
use records::{Head, Pair};
use refusals::Refusal;

// Leaving order and core numbers; refuses by 13, 12.
#[tactic(auto, using(on_words::proofs::Enough::peel_enough))]
pub(crate) fn peeled(
    head: Head,
    list: &[Pair],
    order: &mut [u16],
    cores: &mut [u32],
    work: &mut [u32],
) -> Result<(), Refusal>
    ensures { PeelCall head list.now order.old cores.old work.old (number_in result) order.new cores.new work.new }
{
    let lent = peel_buffers(head, order.len(), cores.len(), work.len());
    lay_held(head, list, &lent, work)?;
    peel_on_words(head, order, cores, work);
    Ok(())
}

// Group, core numbers and load sheet; refuses by 13, 12, 20.
#[tactic(auto, using(on_words::proofs::Enough::solve_enough))]
pub(crate) fn solved(
    head: Head,
    list: &[Pair],
    members: &mut [u8],
    cores: &mut [u32],
    shares: &mut [u32],
    work: &mut [u32],
) -> Result<Solution, Refusal>
    ensures { SolveCall head list.now members.old cores.old shares.old work.old (solved_of result)
        members.new cores.new shares.new work.new }
{
    let lent = solve_buffers(head, members.len(), cores.len(), shares.len(), work.len());
    lay_held(head, list, &lent, work)?;
    solve_on_words(head, members, cores, shares, work)
}

// The ratio of a group whose load sheet is right; refuses by 13, 12, 20, 7, 8, 9.
#[tactic(auto, using(on_words::proofs::Enough::check_enough))]
pub(crate) fn checked(
    head: Head,
    list: &[Pair],
    members: &[u8],
    shares: &[u32],
    work: &mut [u32],
) -> Result<Ratio, Refusal>
    ensures { CheckCall head list.now members.now shares.now work.old (verdict_of result) work.new }
{
    let lent = check_buffers(head, members.len(), shares.len(), work.len());
    lay_held(head, list, &lent, work)?;
    check_on_words(head, members, shares, work)
}

// The ratio of the kit of at least k modules; refuses by 13, 12, 20, 21.
#[tactic(auto, using(on_words::proofs::Enough::kit_enough))]
pub(crate) fn kitted(
    head: Head,
    list: &[Pair],
    k: u32,
    members: &mut [u8],
    work: &mut [u32],
) -> Result<Ratio, Refusal>
    ensures { KitCall head list.now k members.old work.old (verdict_of result) members.new work.new }
{
    let lent = kit_buffers(head, members.len(), work.len());
    lay_held(head, list, &lent, work)?;
    kit_on_words(head, k, members, work)
}

// The surplus of the first group against the second; refuses by 13, 12, 7.
#[tactic(auto, using(on_words::proofs::Enough::surplus_enough))]
pub(crate) fn compared(
    head: Head,
    list: &[Pair],
    first: &[u8],
    second: &[u8],
) -> Result<i64, Refusal>
    ensures { SurplusCall head list.now first.now second.now (difference_of result) }
{
    let mut words = [0u32; 12288];
    let lent = surplus_buffers(head, first.len(), second.len());
    lay_held(head, list, &lent, &mut words)?;
    surplus_on_words(head, first, second, &words)
}
