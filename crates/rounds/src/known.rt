// What is known of a list when a round begins.
ghost use Rattle.theory.specs.Words.{list_in};
ghost use Rattle.rounds.specs.Known.{Candidate, Cored, LeavingRoom};

use lists::List;
use numbers::Ratio;

// A list with its core numbers, its leaving order and the place of each module in it, and a ratio that some group of it reaches.
#[derive(Clone, Copy)]
pub struct Known<'a> {
    pub list: List<'a>,
    pub cores: &'a [u32],
    pub order: &'a [u32],
    pub place: &'a [u32],
    pub ratio: Ratio,
    pub ghost cored: { Cored (list_in list.n list.m list.ends.now list.weights.now) cores.now },
    pub ghost leaving_room: { LeavingRoom list.n order.now place.now },
    pub ghost at_hand: { Candidate (list_in list.n list.m list.ends.now list.weights.now) ratio.p ratio.q },
}

impl<'a> Known<'a> {
    ghost use Rattle.std.specs.Prelude.{◌≡◌};
    ghost use Rattle.lists.specs.Listed.{listed};

    // The same list, at another ratio that some group of it reaches. (Field by field: a struct with ghost fields cannot be made with `..`, as yet.)
    pub(crate) fn at(self, ratio: Ratio) -> Known<'a>
        requires { Candidate (listed self.list) ratio.p ratio.q }
        ensures list { result.list ≡ self.entry.list }
        ensures ratio { result.ratio ≡ ratio }
    {
        Known {
            list: self.list,
            cores: self.cores,
            order: self.order,
            place: self.place,
            ratio,
        }
    }
}
