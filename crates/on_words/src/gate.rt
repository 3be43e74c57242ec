// What comes first in the calls: 13, and 12 where buffers are lent; then the records that are held.
ghost use Rattle.std.specs.Prelude.{◌≡◌, not, IfOk, OnOk, IsTrue, IsFalse, take, [], ◌∷◌};
ghost use Rattle.theory.specs.Refusals.{cause, refusal};
ghost use Rattle.refusals.specs.Numbers.{number_in};
ghost use Rattle.records.specs.Records.{agrees};
ghost use Rattle.on_words.specs.Buffers.{any_short};
ghost use Rattle.on_words.specs.Gate.{gate_number};

use crate::buffers::{Buffer, any_short};
use records::{Head, Pair, agree};
use refusals::Refusal;

// The records that are held; refuses by 13.
#[tactic(auto, using(crate::proofs::Enough::records_enough), unfolding(theory::specs::Refusals::cause, theory::specs::Refusals::refusal))]
pub fn held<'a>(head: Head, list: &'a [Pair]) -> Result<&'a [Pair], Refusal>
    ensures number { number_in result ≡ refusal (cause 13 (not (agrees head list.now)) ∷ []) }
    ensures agreed { OnOk result (IsTrue (agrees head list.now)) }
    ensures records { IfOk result (λ held. held.now ≡ take head.m list.now) }
{
    if !agree(head, list) {
        return Err(Refusal::HeadDisagrees);
    }
    Ok(&list[..head.m as usize])
}

// The records that are held, where none of the lent buffers is short; refuses by 13, 12.
#[tactic(auto, unfolding(crate::specs::Gate::gate_number, theory::specs::Refusals::cause, theory::specs::Refusals::refusal))]
pub fn held_beside<'a>(head: Head, list: &'a [Pair], lent: &[Buffer]) -> Result<&'a [Pair], Refusal>
    ensures number { number_in result ≡ gate_number (agrees head list.now) (any_short lent.now) }
    ensures agreed { OnOk result (IsTrue (agrees head list.now)) }
    ensures long { OnOk result (IsFalse (any_short lent.now)) }
    ensures records { IfOk result (λ held. held.now ≡ take head.m list.now) }
{
    let held = held(head, list)?;
    if any_short(lent) {
        return Err(Refusal::BufferTooShort);
    }
    Ok(held)
}
