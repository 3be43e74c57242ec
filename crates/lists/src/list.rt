// A list of n modules and m pairs, in words.
ghost use Rattle.theory.specs.Words.{HeldWords};

// Pair j has its ends at words 2j and 2j + 1 of `ends`, the smaller module first, and its stop count at word j of `weights`. (Both may go on behind the m
// pairs: they are parts of lent buffers, or of an array, with room for more, and to cut them would be asked of whoever makes a list.)
#[derive(Clone, Copy)]
pub struct List<'a> {
    pub n: usize,
    pub m: usize,
    pub ends: &'a [u32],
    pub weights: &'a [u32],
    pub ghost held: { HeldWords n m ends.now weights.now },
}

impl<'a> List<'a> {
    ghost use Rattle.std.specs.Prelude.{◌≡◌, ◌*◌, ◌+◌, ◌<◌, get_or};
    ghost use Rattle.theory.specs.Words.{laid_list, HoldsList};
    ghost use Rattle.lists.specs.Listed.{listed};

    // The list that lies in one buffer: the ends from word 0 on, the counts from word 8,192 on.
    pub fn in_words(n: usize, m: usize, words: &'a [u32]) -> List<'a>
        requires { HoldsList n m words.now }
        ensures modules { result.n ≡ n }
        ensures pairs { result.m ≡ m }
        ensures value { listed result ≡ laid_list n m words.now }
    {
        List {
            n,
            m,
            ends: words,
            weights: &words[8192..],
        }
    }

    // The two ends of pair j, the smaller first.
    pub fn ends_of(&self, j: usize) -> (u32, u32)
        requires { j < self.now.m }
        ensures first { result.0 ≡ get_or self.now.ends.now (2 * j) 0 }
        ensures second { result.1 ≡ get_or self.now.ends.now (2 * j + 1) 0 }
    {
        (self.ends[2 * j], self.ends[2 * j + 1])
    }
}
