// The ends of a list's pairs, by slots: what the search of chains knows of a list.
ghost use Rattle.slots.specs.Slots.{Ends};

use lists::List;

// n modules and m pairs of two different ones: slot s is an end of pair s / 2, and ends[s] its module.
// (m stands beside `ends`, which may go on past the pairs, as lent buffers do: ends of 2m words and no more would ask callers to cut them.)
#[derive(Clone, Copy)]
pub struct Graph<'a> {
    pub n: usize,
    pub m: usize,
    pub ends: &'a [u32],
    pub ghost pairs: { Ends n m ends.now },
}

impl<'a> Graph<'a> {
    ghost use Rattle.std.specs.Prelude.{◌≡◌, ◌*◌, ◌+◌, ◌<◌, get_or};
    ghost use Rattle.slots.specs.Rows.{first_end, second_end};

    // How many slots there are.
    pub fn slots(&self) -> usize
        ensures { result ≡ 2 * self.now.m }
    {
        2 * self.m
    }

    // The module of slot s.
    pub fn module(&self, s: usize) -> usize
        requires { s < 2 * self.now.m }
        ensures value { result ≡ get_or self.now.ends.now s 0 }
        ensures below { result < self.now.n }
    {
        self.ends[s] as usize
    }

    // The first end of pair j.
    #[tactic(auto, unfolding(crate::specs::Rows::first_end))]
    pub fn first_end(&self, j: usize) -> usize
        requires { j < self.now.m }
        ensures value { result ≡ first_end self.now.ends.now j }
        ensures below { result < self.now.n }
    {
        self.module(2 * j)
    }

    // The second end of pair j.
    #[tactic(auto, unfolding(crate::specs::Rows::second_end))]
    pub fn second_end(&self, j: usize) -> usize
        requires { j < self.now.m }
        ensures value { result ≡ second_end self.now.ends.now j }
        ensures below { result < self.now.n }
    {
        self.module(2 * j + 1)
    }
}

impl<'a> From<List<'a>> for Graph<'a> {
    ghost use Rattle.slots.specs.Views.{GraphOf};

    ghost from_gives = { λ list graph. GraphOf list graph };

    #[tactic(auto, using(crate::proofs::Words::held_ends))]
    fn from(list: List<'a>) -> Graph<'a> {
        Graph {
            n: list.n,
            m: list.m,
            ends: list.ends,
        }
    }
}
