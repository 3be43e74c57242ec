// Add and remove on words: the refusals in their order, then the change. The crate `pairs` does the looking up and the shifting.
ghost use Rattle.std.specs.Prelude.{◌≡◌, not, ◌&&◌, [], ◌∷◌, ◌≤◌};
ghost use Rattle.theory.specs.Lists.{pair};
ghost use Rattle.theory.specs.Words.{laid_pairs, HoldsList};
ghost use Rattle.theory.specs.Refusals.{cause, refusal};
ghost use Rattle.refusals.specs.Numbers.{number_in};
ghost use Rattle.pairs.specs.Held.{is_held};
ghost use Rattle.pairs.specs.Causes.{count_passes};
ghost use Rattle.pairs.specs.Located.{place_in, located};
ghost use Rattle.on_words.specs.Edits.{is_full, AddOn, RemoveOn};

use pairs::{Stops, check_count, check_pair, delete, lookup, raise};
use records::Head;
use refusals::Refusal;

// Whether no record is free: M is 4,096 or the length of the list.
#[tactic(auto, unfolding(crate::specs::Edits::is_full))]
fn is_full(head: Head, len: usize) -> bool
    ensures { result ≡ is_full head len }
{
    head.m == 4096 || head.m as usize == len
}

// Refuses stops more of the pair that lookup has found at `place`: 19 where the count of a held pair would pass 1,000, 11 where no record is free for a
// new one.
#[tactic(auto, using(crate::proofs::Changes::count_few))]
fn check_room(
    head: Head,
    len: usize,
    words: &[u32],
    place: Result<usize, usize>,
    stops: Stops,
) -> Result<(), Refusal>
    requires holds_list { HoldsList head.n head.m words.now }
    requires found { place_in place ≡ located (pair stops.a stops.b) (laid_pairs head.m words.now) }
    requires few { stops.w ≤ 1000 }
    ensures { let p = pair stops.a stops.b in let held = laid_pairs head.m words.now in
        number_in result ≡ refusal (cause 19 (count_passes p stops.w held) ∷ cause 11 (not (is_held p held) && is_full head len) ∷ []) }
{
    match place {
        Ok(at) if 1000 < words[8192 + at] + stops.w => Err(Refusal::TooManyStops),
        Ok(_) => Ok(()),
        Err(_) if is_full(head, len) => Err(Refusal::ListFull),
        Err(_) => Ok(()),
    }
}

// Adds w stops of a pair to the list of `len` records whose held ones lie in the words; refuses by 5, 4, 18, 19, 11. Answers the head after it.
// (Adding and removing in one function would be no plainer: they differ in refusals and in what moves.)
#[tactic(auto, using(pairs::proofs::Words::holds_rising, crate::proofs::Changes::raise_few))]
pub fn add_on_words(
    head: Head,
    len: usize,
    words: &mut [u32],
    a: u32,
    b: u32,
    w: u32,
) -> Result<Head, Refusal>
    requires holds_list { HoldsList head.n head.m words.old }
    requires fits { head.m ≤ len }
    ensures { AddOn head len words.old a b w result words.new }
{
    check_pair(0, head.n, a, b)?;
    check_count(w)?;
    let m = head.m as usize;
    let stops = Stops::new(a, b, w);
    let place = lookup(words, m, stops.a, stops.b);
    check_room(head, len, words, place, stops)?;
    let count = raise(words, m, place, stops);
    Ok(Head {
        m: count as u32,
        ..head
    })
}

// Removes a pair with its whole count, and the words of the record freed become 0; refuses by 5, 4, 14. Answers the head after it.
#[tactic(auto, using(pairs::proofs::Words::holds_rising))]
pub fn remove_on_words(head: Head, words: &mut [u32], a: u32, b: u32) -> Result<Head, Refusal>
    requires { HoldsList head.n head.m words.old }
    ensures { RemoveOn head words.old a b result words.new }
{
    check_pair(0, head.n, a, b)?;
    let m = head.m as usize;
    let Ok(at) = lookup(words, m, a.min(b), a.max(b)) else {
        return Err(Refusal::NotHeld);
    };
    delete(words, m, at);
    Ok(Head {
        m: head.m - 1,
        ..head
    })
}
