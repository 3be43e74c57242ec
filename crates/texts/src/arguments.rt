// The number that a program's argument spells: the programs `neighbours` and `kit` take such arguments.
ghost use Rattle.std.specs.Prelude.{◌≡◌};
ghost use Rattle.lines.specs.Outcomes.{outcome_of};
ghost use Rattle.texts.specs.Arguments.{argument_number, number_due};

use lines::Reader;
use refusals::Refusal;

// That number, spelled as in a pair file, with nothing behind it: 110.
pub(crate) fn number_of_argument(argument: &[u8]) -> Result<u32, Refusal>
    ensures { number_due (argument_number argument.now) ≡ outcome_of (λ a. a) result }
{
    let mut reader = Reader { left: argument };
    let number = reader.number(4).ok_or(Refusal::BadArgument)?;
    if !reader.is_done() {
        return Err(Refusal::BadArgument);
    }
    Ok(number)
}
