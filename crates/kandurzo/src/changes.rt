// Start, add, remove and place: what they find, or why they refuse.
ghost use Rattle.std.specs.Prelude.{◌≡◌};
ghost use Rattle.on_words.specs.Placing.{placed_of};
ghost use Rattle.kandurzo.specs.Listing.{started, changed_of, AddSays, RemoveSays};
ghost use Rattle.kandurzo.specs.Placing.{PlaceSays};

use crate::laying::lay_held;
use on_words::edits::{add_on_words, remove_on_words};
use on_words::gate::held;
use pairfile::check_modules;
use pairs::check_pair;
use records::{Head, Pair, copy_in, lookup};
use refusals::Refusal;

// The head of a list of n modules without pairs; refuses by 2.
#[tactic(auto, using(lines::proofs::Found::handed_on, crate::proofs::Starting::started_refused, crate::proofs::Starting::started_done))]
pub(crate) fn begun(n: u32) -> Result<Head, Refusal>
    ensures { changed_of result record { n = 0; m = 0 } ≡ started n }
{
    check_modules(n)?;
    Ok(Head { n, m: 0 })
}

// The head after w stops more of the pair of a and b; refuses by 13, 5, 4, 18, 19, 11.
pub(crate) fn added(head: Head, list: &mut [Pair], a: u32, b: u32, w: u32) -> Result<Head, Refusal>
    ensures { AddSays head list.old a b w (changed_of result head) list.new }
{
    let mut words = [0u32; 12288];
    lay_held(head, list, &[], &mut words)?;
    let changed = add_on_words(head, list.len(), &mut words, a, b, w)?;
    copy_in(&mut list[..changed.m as usize], &words);
    Ok(changed)
}

// The head after the pair of a and b has gone; refuses by 13, 5, 4, 14. The record freed comes back too: `added` and this function differ in the change
// and in how many records come back, so a third one over a closure would be no plainer than the calls that both make.
pub(crate) fn removed(head: Head, list: &mut [Pair], a: u32, b: u32) -> Result<Head, Refusal>
    ensures { RemoveSays head list.old a b (changed_of result head) list.new }
{
    let mut words = [0u32; 12288];
    lay_held(head, list, &[], &mut words)?;
    let changed = remove_on_words(head, &mut words, a, b)?;
    copy_in(&mut list[..head.m as usize], &words);
    Ok(changed)
}

// Where the pair of a and b is held, or else where it would go; refuses by 13, 5, 4. (Tried: `map` and `map_err`, with which the check left the promise open.)
#[tactic(auto, using(crate::proofs::Placings::place_rises, crate::proofs::Placings::place_few))]
pub(crate) fn found(head: Head, list: &[Pair], a: u32, b: u32) -> Result<Result<u32, u32>, Refusal>
    ensures { PlaceSays head list.now a b (placed_of result) }
{
    let held = held(head, list)?;
    check_pair(0, head.n, a, b)?;
    Ok(match lookup(held, a.min(b), a.max(b)) {
        Ok(at) => Ok(at as u32),
        Err(at) => Err(at as u32),
    })
}
