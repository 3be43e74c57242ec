// The records that are held, copied to words.
ghost use Rattle.std.specs.Prelude.{◌≡◌, ◌≤◌, length, OnOk, OnErr, IsFalse};
ghost use Rattle.refusals.specs.Numbers.{number_in};
ghost use Rattle.records.specs.Records.{agrees};
ghost use Rattle.on_words.specs.Buffers.{any_short};
ghost use Rattle.on_words.specs.Gate.{gate_number};
ghost use Rattle.kandurzo.specs.Laying.{Laid};

use on_words::Buffer;
use on_words::gate::held_beside;
use records::{Head, Pair, copy_out};
use refusals::Refusal;

// Copies the held records to the words, where none of the lent buffers is short; refuses by 13, 12.
pub(crate) fn lay_held(
    head: Head,
    list: &[Pair],
    lent: &[Buffer],
    words: &mut [u32],
) -> Result<(), Refusal>
    requires { IsFalse (any_short lent.now) → 12288 ≤ length words.old }
    ensures number { number_in result ≡ gate_number (agrees head list.now) (any_short lent.now) }
    ensures long { OnOk result (IsFalse (any_short lent.now)) }
    ensures laid { OnOk result (Laid head list.now words.old words.new) }
    ensures left { OnErr result (words.new ≡ words.old) }
{
    copy_out(held_beside(head, list, lent)?, words);
    Ok(())
}
